//! The text of a cycle.

ghost use Rattle.std.specs.{Prelude.{◌≡◌, ◌<◌, ◌++◌, codes, string_bytes, IfOk, OnOk}, List.{flat_map, AllByRecursion}};
ghost use Rattle.log_merge.specs.CycleText.{place_text, cycle_text};

use crate::Place;
use event_log::OutOfMemory;
use records::MOST_ENTRIES;
use std::alloc::{AllocError, Global};

/// Puts `cpu C entry N`, with entries counted from 1.
fn put_place(text: &mut String, place: Place) -> Result<(), AllocError>
    requires { place.entry < MOST_ENTRIES }
    ensures { OnOk result (string_bytes text.new ≡ string_bytes text.old ++ place_text place) }
{
    let Place { cpu, entry } = place;
    let number = entry + 1;
    write!(text, "cpu {cpu} entry {number}")
}

/// Puts the places, each behind a comma and a space.
fn put_more(text: &mut String, places: &[Place]) -> Result<(), AllocError>
    requires { AllByRecursion (λ p. p.entry < MOST_ENTRIES) places.now }
    ensures { OnOk result (string_bytes text.new ≡ string_bytes text.old ++ flat_map (λ q. codes ", " ++ place_text q) places.now) }
{
    for place in places {
        text.push_str(", ")?;
        put_place(text, *place)?;
    }
    Ok(())
}

/// `cpu C entry N` for each place, with commas between them.
fn put_cycle(text: &mut String, cycle: &[Place]) -> Result<(), AllocError>
    requires { AllByRecursion (λ p. p.entry < MOST_ENTRIES) cycle.now }
    ensures { OnOk result (string_bytes text.new ≡ string_bytes text.old ++ cycle_text cycle.now) }
{
    if cycle.is_empty() {
        return Ok(());
    }
    put_place(text, cycle[0])?;
    put_more(text, &cycle[1..])
}

/// `cpu C entry N` for each place of a cycle, with a comma and a space between them. Entries are counted from 1.
pub fn cycle_text(alloc: Global, cycle: &[Place]) -> Result<String, OutOfMemory>
    requires { AllByRecursion (λ p. p.entry < MOST_ENTRIES) cycle.now }
    ensures { IfOk result (λ text. string_bytes text ≡ cycle_text cycle.now) }
{
    let mut text = String::new(alloc);
    put_cycle(&mut text, cycle)?;
    Ok(text)
}
