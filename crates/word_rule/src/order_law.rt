//! In what order holds end and events come on a cell, on a function without effect.

ghost use Rattle.std.specs.Prelude.{◌≡◌, ℕ, ◌<◌, ◌≤◌, List, map, drop, length};
ghost use Rattle.event_log.specs.{declared.entry.Todo.Todo, declared.event.Event.Event, Log.Begins};
ghost use Rattle.word_rule.specs.{declared.view.TraceStep.TraceStep, Cell.Cell, LockRuns.{HasRun, endings_in, arrivals_in}, Replay.AllDoRun};

use event_log::SeqObject;

/// What threads did on a cell: whoever ended a hold did so in the order of arrival in line. Where each CPU did its steps by a script,
/// a hold for each entry, the events stand in the log in the order in which the holds ended: all of them while there is room, and
/// those before the log was full. So of two callers whoever arrived first has the earlier event.
pub fn events_in_order<O: SeqObject>()
    ensures holds { (h : Cell O O.Params O.Call O.Reply) (log : List (Event O O.Params O.Call O.Reply))
        (run : List (TraceStep (Event O O.Params O.Call O.Reply))) →
        HasRun h log run → Begins (endings_in run) (arrivals_in run) }
    ensures events { (h : Cell O O.Params O.Call O.Reply) (log : List (Event O O.Params O.Call O.Reply))
        (run : List (TraceStep (Event O O.Params O.Call O.Reply))) (script rest : ℕ → List (Todo O O.Params O.Call O.Reply)) →
        HasRun h log run → AllDoRun O.SeqObject h run script rest → length log ≤ h.limit → Begins (map (λ e. e.cpu) (drop (length h.opening) log)) (endings_in run) }
    ensures all_events { (h : Cell O O.Params O.Call O.Reply) (log : List (Event O O.Params O.Call O.Reply))
        (run : List (TraceStep (Event O O.Params O.Call O.Reply))) (script rest : ℕ → List (Todo O O.Params O.Call O.Reply)) →
        HasRun h log run → AllDoRun O.SeqObject h run script rest → length log < h.limit → map (λ e. e.cpu) (drop (length h.opening) log) ≡ endings_in run }
{}
