//! Finding an object by its name.

ghost use Rattle.std.specs.{Prelude.{◌≡◌, ◌<◌, ◌≤◌, length, position, IfSome}, List.list_any, Option.option_map, Str.bytes_eq};
ghost use Rattle.record_lines.specs.Reading.{left};
ghost use Rattle.records.specs.RecordReading.{place_at};

use crate::ObjectSettings;
use record_lines::{Words, word};
use sound_run::MOST_CELLS;

/// Whether one of the objects has the name.
pub fn is_taken(objects: &[ObjectSettings], name: &[u8]) -> bool
    ensures { result ≡ list_any (λ o. bytes_eq o.name name.now) objects.now }
{
    objects.iter().any(|object| object.name() == name)
}

/// Whether the bytes are the same.
#[inline(never)]
fn are_same(a: &[u8], b: &[u8]) -> bool
    ensures { result ≡ bytes_eq a.now b.now }
{
    a == b
}

/// Whether it is the object's name. Names that differ mostly have another length, or end otherwise.
#[inline(always)]
fn is_named(object: &ObjectSettings, name: &[u8]) -> bool
    ensures { result ≡ bytes_eq object.now.name name.now }
{
    let own = object.name();
    own.len() == name.len() && own.last() == name.last() && are_same(own, name)
}

/// The place of the object of that name, from 0.
fn place_of(objects: &[ObjectSettings], name: &[u8]) -> Option<usize>
    ensures place { result ≡ position (λ o. bytes_eq o.name name.now) objects.now }
    ensures bound { IfSome result (λ i. i < length objects.now) }
{
    objects.iter().position(|object| is_named(object, name))
}

/// The place of the object whose name is next, from 0.
#[tactic(auto, unfolding(crate::specs::RecordReading::place_at))]
#[inline(always)]
pub fn place<'a>(objects: &[ObjectSettings], at: Words<'a>) -> Option<(u8, Words<'a>)>
    requires { length objects.now ≤ MOST_CELLS }
    ensures { option_map (λ x. (x.0, left x.1)) result ≡ place_at objects.now (left at.entry) }
{
    let (name, rest) = word(at)?;
    let place = place_of(objects, name)?;
    Some((place as u8, rest))
}
