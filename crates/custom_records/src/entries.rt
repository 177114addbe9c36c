//! Reading the line of an entry.

ghost use Rattle.std.specs.{Prelude.{◌≡◌, ◌≤◌, ◌<◌, ◌∷◌, [], map, codes, length, position, Some, IfSome}, Option.option_map, Str.bytes_eq};
ghost use Rattle.custom_records.specs.{LineReading.{custom_place_at, custom_done_at, custom_entry_at}, StepText.custom_front_at, declared.settings.TheConstants.MOST_CUSTOM_OBJECTS};
ghost use Rattle.record_lines.specs.{Reading.{left, words}, LineParts.fixed_at};

use crate::events::all_steps;
use crate::items::list;
use crate::{CustomHead, CustomName, CustomObject, CustomSettings, MOST_CUSTOM_OBJECTS, Spoken};
use event_log::{Done, Entry};
use record_lines::{Words, key, mark, number, word};

/// Whether it is the object's name.
fn is_named(object: &CustomSettings, name: &[u8]) -> bool
    ensures { result ≡ bytes_eq object.now.name name.now }
{
    let own = object.name.as_str().as_bytes();
    // Names often differ at their ends alone.
    own.last() == name.last() && own == name
}

/// The place of the object of that name, from 0.
fn place_of(objects: &[CustomSettings], name: &[u8]) -> Option<usize>
    ensures place { result ≡ position (λ o. bytes_eq o.name name.now) objects.now }
    ensures bound { IfSome result (λ i. i < length objects.now) }
{
    objects.iter().position(|object| is_named(object, name))
}

/// The place of the object whose name is next, from 0.
#[tactic(auto, unfolding(crate::specs::LineReading::custom_place_at))]
fn place<'a>(objects: &[CustomSettings], at: Words<'a>) -> Option<(u8, Words<'a>)>
    requires { length objects.now ≤ MOST_CUSTOM_OBJECTS }
    ensures { option_map (λ x. (x.0, left x.1)) result ≡ custom_place_at objects.now (left at.entry) }
{
    let (name, rest) = word(at)?;
    let place = place_of(objects, name)?;
    Some((place as u8, rest))
}

/// Whether `noroom` alone is left.
#[tactic(auto, using(record_lines::proofs::Sentences::words_some), unfolding(record_lines::specs::LineParts::fixed_at, record_lines::specs::LineParts::keys_at))]
fn no_room(at: Words<'_>) -> Option<()>
    ensures { result ≡ fixed_at (codes "noroom" ∷ []) (left at.entry) }
{
    let rest = key(b"noroom", at)?;
    if rest.is_none() { Some(()) } else { None }
}

/// Makes of no steps what all words that are left spell: `noroom`, or steps.
#[tactic(auto, unfolding(crate::specs::LineReading::custom_done_at))]
fn all_done(refusing: &[CustomName], at: Words<'_>, done: &mut Done<CustomObject>) -> Option<()>
    requires { done.old ≡ Done.Steps (record { list = record { items = [] } }) }
    ensures { option_map (λ _. done.new) result ≡ custom_done_at (map (λ w. w.bytes) refusing.now) (left at.entry) }
{
    if no_room(at).is_some() {
        *done = Done::NoRoom;
        return Some(());
    }
    match done {
        Done::Steps(steps) => all_steps(refusing, at, steps),
        Done::NoRoom => None,
    }
}

/// The object and the looks at the front of an entry's line, and the text behind them.
#[tactic(auto, using(record_lines::proofs::Sentences::words_some), unfolding(crate::specs::StepText::custom_front_at))]
#[inline(always)]
pub fn entry_front<'a>(head: &CustomHead, line: &'a [u8]) -> Option<(u8, u64, &'a [u8])>
    requires { length head.now.objects ≤ MOST_CUSTOM_OBJECTS }
    ensures { IfSome result (λ x. custom_front_at head.now.objects (words line.now) ≡ Some (x.0, x.1, words x.2.now)) }
{
    let (object, rest) = place(&head.objects, Some(line))?;
    let (looks, rest) = number(u64::MAX, rest)?;
    Some((object, looks, rest?))
}

/// Makes of an empty entry what its line spells, on one of the objects.
#[tactic(auto, unfolding(crate::specs::LineReading::custom_entry_at))]
pub fn entry_line(head: &CustomHead, line: &[u8], entry: &mut Entry<CustomObject>) -> Option<()>
    requires objects { length head.now.objects ≤ MOST_CUSTOM_OBJECTS }
    requires asked { entry.old.asked.items ≡ [] }
    requires done { entry.old.done ≡ Done.Steps (record { list = record { items = [] } }) }
    ensures { option_map (λ _. entry.new) result ≡ custom_entry_at head.now (words line.now) }
{
    let (object, rest) = place(&head.objects, Some(line))?;
    let (looks, rest) = number(u64::MAX, rest)?;
    let rest = list::<Spoken>(&head.refusing, rest, &mut entry.asked)?;
    let rest = mark(b'|', rest)?;
    all_done(&head.refusing, rest, &mut entry.done)?;
    entry.object = object;
    entry.looks = looks;
    Some(())
}
