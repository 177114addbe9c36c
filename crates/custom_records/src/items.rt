//! Reading the calls of an entry or the steps of an event, which have semicolons between them.

ghost use Rattle.std.specs.{Prelude.{◌≡◌, [], map}, Option.option_map};
ghost use Rattle.record_lines.specs.{Reading.left, LineParts.list_at};

use crate::refusing::is_refusing;
use crate::said::said;
use crate::{CustomName, CustomObject, CustomReply, Spoken};
use arrayvec::ArrayVec;
use event_log::{MOST_CALLS, Step};
use record_lines::{Words, mark};

/// What lines have lists of.
pub(crate) trait Item: Default + Drop {
    ghost use Rattle.std.specs.Prelude.{ℕ, List, Option};

    /// The item that is next where those words refuse, and the words behind it.
    ghost item_at: { List (List ℕ) → List (List ℕ) → Option (Self × List (List ℕ)) };

    /// The item that is next where those words refuse, and the words behind it.
    fn item<'a>(refusing: &[CustomName], at: Words<'a>) -> Option<(Self, Words<'a>)>
        ensures { option_map (λ x. (x.0, left x.1)) result ≡ item_at (map (λ w. w.bytes) refusing.now) (left at.entry) };
}

impl Item for Spoken {
    ghost use Rattle.custom_records.specs.LineReading.{said_at};

    ghost item_at = { λ refusing ws. said_at ws };

    fn item<'a>(_refusing: &[CustomName], at: Words<'a>) -> Option<(Spoken, Words<'a>)> {
        said(at)
    }
}

impl Item for Step<CustomObject> {
    ghost use Rattle.custom_records.specs.LineReading.{custom_step_at};

    ghost item_at = { custom_step_at };

    #[tactic(auto, unfolding(crate::specs::LineReading::custom_step_at))]
    fn item<'a>(refusing: &[CustomName], at: Words<'a>) -> Option<(Step<CustomObject>, Words<'a>)> {
        let Some((call, rest)) = said(at) else {
            return None;
        };
        let rest = mark(b'=', rest)?;
        let Some((said, rest)) = said(rest) else {
            return None;
        };
        let refuses = is_refusing(refusing, said.word());
        let reply = CustomReply { said, refuses };
        Some((Step { call, reply }, rest))
    }
}

/// Puts 1 to 8 items, each but the first behind a semicolon, into an empty list, and answers the words behind them.
pub(crate) fn list<'a, T: Item>(
    refusing: &[CustomName],
    at: Words<'a>,
    items: &mut ArrayVec<T, MOST_CALLS>,
) -> Option<Words<'a>>
    requires { items.old.items ≡ [] }
    ensures { option_map (λ rest. (items.new.items, left rest)) result ≡ list_at (T.item_at (map (λ w. w.bytes) refusing.now)) (left at.entry) }
{
    let (first, rest) = T::item(refusing, at)?;
    items.push(first);
    let mut left = rest;
    for _ in 1..MOST_CALLS {
        let Some(rest) = mark(b';', left) else {
            break;
        };
        let (next, rest) = T::item(refusing, rest)?;
        items.push(next);
        left = rest;
    }
    Some(left)
}
