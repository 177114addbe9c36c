//! What threads did on a cell is a run of the step machine with their calls as scripts, on functions without effect.

ghost use Rattle.std.specs.Prelude.{◌≡◌, ℕ, true, ◌≤◌, [], ◌++◌, List, length};
ghost use Rattle.event_log.specs.{declared.entry.Todo.Todo, declared.event.Event.Event, Log.Legal};
ghost use Rattle.word_rule.specs.{declared.view.TraceStep.TraceStep, Cell.{Cell, Caller}, Holds.HasHeldEach, LockRuns.HasRun, Replay.{AllDoRun, DoesRun, IsReplay, entries_for}};

use event_log::SeqObject;

/// What threads did on a cell is a run of the step machine. Take a run of the cell's lock in which each CPU did its steps by the
/// entries of a script, a hold for each, of which some may not be begun. A machine with this one cell and these scripts is
/// scheduled as the steps of the run came. Whatever the first ticket is, it does the same steps, and ends with the same lock and
/// the same log; each CPU's transcript has the steps of its events, in order, and what isn't begun of its script is left.
pub fn runs_replay<O: SeqObject>()
    ensures { (h : Cell O O.Params O.Call O.Reply) (log : List (Event O O.Params O.Call O.Reply))
        (run : List (TraceStep (Event O O.Params O.Call O.Reply))) (script rest : ℕ → List (Todo O O.Params O.Call O.Reply)) →
        HasRun h log run → Legal O.SeqObject h.params log → length log ≤ h.limit → AllDoRun O.SeqObject h run script rest → (first : ℕ) → IsReplay O.SeqObject h script rest first log run }
{}

/// A caller that has had the object once for each of some lists of calls: the CPU that it acts as has done these lists as entries
/// of its script, behind those that it had done before, and its other CPUs none.
pub fn holds_are_scripts<O: SeqObject>()
    ensures { (caller : Caller O O.Params O.Call O.Reply) (before after : List (TraceStep (Event O O.Params O.Call O.Reply)))
        (groups : List (List O.Call)) (cpu : ℕ) (had : List (Todo O O.Params O.Call O.Reply)) →
        caller.owned cpu ≡ true → HasHeldEach O.SeqObject caller before groups after → DoesRun O.SeqObject cpu caller.cell.limit caller.cell.opening before had [] →
        DoesRun O.SeqObject cpu caller.cell.limit caller.cell.opening after (had ++ entries_for caller cpu groups) [] }
{}
