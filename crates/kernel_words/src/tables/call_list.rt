//! Reading the calls of an entry or the steps of an event, which have semicolons between them.

ghost use Rattle.std.specs.{Prelude.{◌≡◌, []}, Option.option_map};
ghost use Rattle.record_lines.specs.{Reading.left, LineParts.list_at};

use crate::value;
use arrayvec::ArrayVec;
use event_log::{MOST_CALLS, Step};
use kernel_object::{KCall, KernelObject};
use record_lines::{Words, mark};

/// What lines have lists of.
pub trait ListItem: Default + Drop {
    ghost use Rattle.std.specs.Prelude.{ℕ, List, Option};

    /// The item that is next, and the words behind it.
    ghost item_at: { List (List ℕ) → Option (Self × List (List ℕ)) };

    /// The item that is next, and the words behind it.
    fn item(at: Words<'_>) -> Option<(Self, Words<'_>)>
        ensures { option_map (λ x. (x.0, left x.1)) result ≡ item_at (left at.entry) };
}

impl ListItem for KCall {
    ghost use Rattle.kernel_words.specs.ItemReading.{call_at};

    ghost item_at = { call_at };

    #[inline(always)]
    fn item(at: Words<'_>) -> Option<(KCall, Words<'_>)> {
        value(at)
    }
}

impl ListItem for Step<KernelObject> {
    ghost use Rattle.kernel_words.specs.ItemReading.{step_at};

    ghost item_at = { step_at };

    #[inline(always)]
    #[tactic(auto, unfolding(crate::specs::ItemReading::step_at))]
    fn item(at: Words<'_>) -> Option<(Step<KernelObject>, Words<'_>)> {
        let (call, rest) = value(at)?;
        let rest = mark(b'=', rest)?;
        let (reply, rest) = value(rest)?;
        Some((Step { call, reply }, rest))
    }
}

/// Puts 1 to 8 items, each but the first behind a semicolon, into an empty list, and answers the words behind them.
#[inline(always)]
pub fn list<'a, T: ListItem>(
    at: Words<'a>,
    items: &mut ArrayVec<T, MOST_CALLS>,
) -> Option<Words<'a>>
    requires { items.old.items ≡ [] }
    ensures { option_map (λ rest. (items.new.items, left rest)) result ≡ list_at T.item_at (left at.entry) }
{
    let (first, rest) = T::item(at)?;
    items.push(first);
    let mut left = rest;
    for _ in 1..MOST_CALLS {
        let Some(rest) = mark(b';', left) else {
            break;
        };
        let (next, rest) = T::item(rest)?;
        items.push(next);
        left = rest;
    }
    Some(left)
}
