//! Callers in line at a ticket lock.

ghost use Rattle.std.specs.Prelude.{◌≡◌, ◌<◌, ◌||◌, ℕ, true, IfSome};
ghost use Rattle.word_rule.specs.Passes.{view_of_pass};
ghost use Rattle.ticket_lock.specs.Passes.{IsPassOf, IsDrawnOf, IsHoldOf, view_of_drawn};

use event_log::SeqObject;
use ticket_lock::{Drawn, TicketCell};
use word_rule::{Hold, LockCell, Pass};

/// Looks once: it has its turn, or it stays in line, and comes back.
pub fn look_or_stay<O: SeqObject>(cell: &TicketCell<O>, drawn: Drawn<O>) -> Option<Drawn<O>>
    requires { IsDrawnOf cell.now drawn }
    ensures { IfSome result (λ d. IsDrawnOf cell.now d) }
{
    match cell.look(drawn) {
        Ok(hold) => {
            let _pass = cell.serve(hold);
            None
        }
        Err(again) => Some(again),
    }
}

/// One of three callers, who own every number of the cell together, looks while the two others are idle: it gets the object.
pub fn look_beside_two<O: SeqObject>(
    cell: &TicketCell<O>,
    drawn: Drawn<O>,
    second: Pass<O>,
    third: Pass<O>,
) -> (Hold<O>, Pass<O>)
    requires drawn { IsDrawnOf cell.now drawn }
    requires second { IsPassOf cell.now second }
    requires third { IsPassOf cell.now third }
    requires all { (k : ℕ) → k < (view_of_pass second).caller.cell.numbers →
        ((view_of_drawn drawn).caller.owned k || ((view_of_pass second).caller.owned k || (view_of_pass third).caller.owned k)) ≡ true }
    ensures hold { IsHoldOf cell.now result.0 }
    ensures idle { IsPassOf cell.now result.1 }
{
    let idle = cell.join(second, third);
    cell.last_look(drawn, idle)
}
