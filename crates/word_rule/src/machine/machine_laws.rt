//! Laws of every run of the step machine, each on a function without effect.

ghost use Rattle.std.specs.Prelude.{◌≡◌, ◌≢◌, ◌⊎◌, ◌↔◌, ℕ, ◌+◌, ◌*◌, ◌<◌, true, false, List, [], ◌∷◌, ◌++◌, length, Some, slice_get};
ghost use mathlib.Core.Option.{some};
ghost use lib.ListN.{get_elem?};
ghost use Rattle.event_log.specs.Log.{Begins};
ghost use Rattle.word_rule.specs.{declared.machine.step_done.StepDone.TheVariants.Idle, Locks.holding, Machine.Opening.IsOpening, Machine.Orders.{is_at, arrivals, endings, arrives_at, ends_within, ended}, Machine.Rounds.{HasRounds, AllDone, GetsOn, entries_to_do, go_round, most_steps, most_steps_of, steps_to_do}, StepKinds.arrives, Machine.World.{World, CellState, CpuState, run, step, run_of, opened_in}};
ghost use Rattle.sound_run.specs.{Orders.IsOrder, Sound.Sound};

use event_log::SeqObject;

/// The law of arrival. Whoever ends a hold on a cell does so in the order of arrival there. Whenever a call arrives, fewer
/// calls have arrived there than have ended and there are CPUs. And after it has arrived, until its own end, fewer other calls
/// end there than there are CPUs.
pub fn first_come<O: SeqObject>()
    ensures order { (w : World O O.Params O.Call O.Reply) → IsOpening w → (schedule : List ℕ) (x : ℕ) →
        Begins (endings O.SeqObject x schedule w) (arrivals O.SeqObject x schedule w) }
    ensures few { (w : World O O.Params O.Call O.Reply) → IsOpening w → (schedule : List ℕ) (i x : ℕ) →
        arrives (step O.SeqObject (run O.SeqObject schedule w) i).1 ≡ true → is_at (run O.SeqObject schedule w) i x ≡ true →
        length (arrivals O.SeqObject x schedule w) < length (endings O.SeqObject x schedule w) + length w.cpus }
    ensures until_its_end { (w : World O O.Params O.Call O.Reply) → IsOpening w → (schedule more : List ℕ) (i x : ℕ) →
        arrives_at O.SeqObject (run O.SeqObject schedule w) i x ≡ true → ends_within O.SeqObject i x more (run O.SeqObject (schedule ++ i ∷ []) w) ≡ false →
        length (endings O.SeqObject x more (run O.SeqObject (schedule ++ i ∷ []) w)) < length w.cpus }
{}

/// A CPU's step is idle exactly where its script is done.
pub fn idle_when_done<O: SeqObject>()
    ensures { (w : World O O.Params O.Call O.Reply) → IsOpening w → (schedule : List ℕ) (i : ℕ) (cpu : CpuState O O.Params O.Call O.Reply) →
        slice_get (run O.SeqObject schedule w).cpus i ≡ Some cpu →
        ((step O.SeqObject (run O.SeqObject schedule w) i).1 ≡ Idle) ↔ (cpu.todo ≡ []) }
{}

/// Under every schedule at most one CPU holds a cell.
pub fn one_holder<O: SeqObject>()
    ensures { (w : World O O.Params O.Call O.Reply) → IsOpening w → (schedule : List ℕ) (x i j : ℕ) (c : CellState O O.Params O.Call O.Reply) →
        slice_get (run O.SeqObject schedule w).cells x ≡ Some c → i < length w.cpus → j < length w.cpus →
        holding (c.lock.line.stage i) ≡ true → holding (c.lock.line.stage j) ≡ true → i ≡ j }
{}

/// Under every schedule each log is legal, and logs and transcripts are a sound run, judged by what the cells were opened
/// with.
pub fn sound_runs<O: SeqObject>()
    ensures { (w : World O O.Params O.Call O.Reply) → IsOpening w → (schedule : List ℕ) →
        Sound O.SeqObject (opened_in w) (run_of (run O.SeqObject schedule w)) }
{}

/// Under every schedule, over cells of any kind, all entries have one order: that in which their holds came to an end. Each
/// CPU's entries stand in theirs, those done on a cell in its log's, and those without room behind all that were done there.
pub fn ends_are_an_order<O: SeqObject>()
    ensures { (w : World O O.Params O.Call O.Reply) → IsOpening w → (schedule : List ℕ) →
        IsOrder (run_of (run O.SeqObject schedule w)) (ended O.SeqObject schedule w) }
{}

/// Nobody is stuck. Under every schedule, while an entry is left, there is a CPU whose next step gets it on; and it still does so
/// after another CPU's step.
pub fn someone_gets_on<O: SeqObject>()
    ensures someone { (w : World O O.Params O.Call O.Reply) → IsOpening w → (schedule : List ℕ) →
        AllDone (run O.SeqObject schedule w) ⊎ ((i : ℕ) × GetsOn (run O.SeqObject schedule w) i) }
    ensures stays { (w : World O O.Params O.Call O.Reply) → IsOpening w → (schedule : List ℕ) (i j : ℕ) → i ≢ j →
        GetsOn (run O.SeqObject schedule w) i → GetsOn (step O.SeqObject (run O.SeqObject schedule w) j).0 i }
{}

/// Every fair schedule finishes. From every world on, every script is done after so many rounds for each entry that is left: 3
/// at a ticket lock and 9 at an MCS lock. So it is after 9 for each entry. A round is a stretch of the schedule that names each
/// CPU. Those of a schedule that goes round are rounds.
pub fn scripts_end<O: SeqObject>()
    ensures steps { (w : World O O.Params O.Call O.Reply) → IsOpening w → (schedule more : List ℕ) →
        HasRounds (length w.cpus) (steps_to_do (run O.SeqObject schedule w)) more → AllDone (run O.SeqObject more (run O.SeqObject schedule w)) }
    ensures ends { (w : World O O.Params O.Call O.Reply) → IsOpening w → (schedule more : List ℕ) →
        HasRounds (length w.cpus) (most_steps * entries_to_do (run O.SeqObject schedule w).cpus) more →
        AllDone (run O.SeqObject more (run O.SeqObject schedule w)) }
    ensures rounds { (cpus times : ℕ) → HasRounds cpus times (go_round cpus times) }
{}

/// Every call ends, whatever the others still have to do. An entry that a CPU is doing, or would begin next, ends within 9
/// rounds for each CPU and 9 more. At a ticket lock 3 are enough in place of 9. The entry of a CPU in line ends within so many
/// rounds for each CPU ahead, and twice so many more.
pub fn calls_end<O: SeqObject>()
    ensures ends { (w : World O O.Params O.Call O.Reply) → IsOpening w → (schedule more : List ℕ) (i x : ℕ) →
        is_at (run O.SeqObject schedule w) i x ≡ true → HasRounds (length w.cpus) (most_steps * (length w.cpus + 1)) more →
        ends_within O.SeqObject i x more (run O.SeqObject schedule w) ≡ true }
    ensures at_cell { (w : World O O.Params O.Call O.Reply) → IsOpening w → (schedule more : List ℕ) (i x : ℕ) (c : CellState O O.Params O.Call O.Reply) →
        slice_get (run O.SeqObject schedule w).cells x ≡ Some c → is_at (run O.SeqObject schedule w) i x ≡ true →
        HasRounds (length w.cpus) (most_steps_of c.lock.kind * (length w.cpus + 1)) more →
        ends_within O.SeqObject i x more (run O.SeqObject schedule w) ≡ true }
    ensures in_line { (w : World O O.Params O.Call O.Reply) → IsOpening w → (schedule more : List ℕ) (i x place : ℕ) (c : CellState O O.Params O.Call O.Reply) →
        slice_get (run O.SeqObject schedule w).cells x ≡ Some c → get_elem? c.lock.line.cpus place ≡ some i →
        HasRounds (length w.cpus) (most_steps_of c.lock.kind * (place + 2)) more →
        ends_within O.SeqObject i x more (run O.SeqObject schedule w) ≡ true }
{}
