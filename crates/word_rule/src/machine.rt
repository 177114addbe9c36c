//! The pure step machine: cells of any kind under any schedule, one atomic step at a time.

ghost use Rattle.std.specs.{Prelude.{◌≡◌, ◌<◌, ◌≤◌, [], All, length, map, vec_len, Some, slice_get, IfOk, IfErr}, List.AllByRecursion};
ghost use Rattle.word_rule.specs.{Machine.Opening.{opening_world, IsOpening}, Machine.Shown.{Represents, Runs, Follows, HasWords, AreStored, opened_by}, Machine.SoundWorld.IsTodo, Machine.World.{World, step, run, run_of}};
ghost use Rattle.sound_run.specs.{Orders.HasOrder, Sound.Sound};

mod cell_spec;
mod hold;
mod lock_words;
mod logs;
mod machine_laws;
mod mcs;
mod progress;
mod room;
mod step_done;
mod step_names;
mod ticket;

use crate::machine::hold::count_step;
use crate::machine::lock_words::LockWords;
use crate::machine::logs::{all_logs, all_transcripts};
use crate::machine::progress::Progress;
use crate::machine::room::{Room, make_room};
pub use cell_spec::CellSpec;
use event_log::{Entry, Event, OutOfMemory, Run, SeqObject, Series, Todo};
pub use machine_laws::{
    calls_end, ends_are_an_order, first_come, idle_when_done, one_holder, scripts_end,
    someone_gets_on, sound_runs,
};
use sound_run::{MOST_CELLS, MOST_CPUS};
use std::alloc::Global;
use std::marker::Model;
pub use step_done::StepDone;

/// Cells of any kind, and CPUs that do the entries of their scripts on them, one atomic step at a time. All its memory
/// is taken when it is made.
#[derive(Drop)]
pub struct Machine<O: SeqObject> {
    cells: Vec<CellSpec<O>>,
    locks: Vec<LockWords>,
    scripts: Vec<Vec<Todo<O>>>,
    done: Vec<Progress<O>>,
    logs: Vec<Series<Event<O>>>,
    transcripts: Vec<Series<Entry<O>>>,
}

impl<O: SeqObject> Model for Machine<O> {
    ghost use Rattle.word_rule.specs.Machine.Shown.{MachineParts, IsMachine, parts_of};

    ghost Value = { MachineParts O O.Params O.Call O.Reply };

    ghost view = { λ m. parts_of m.cells m.locks m.scripts m.done };

    ghost invariant = { λ m. IsMachine O.SeqObject (parts_of m.cells m.locks m.scripts m.done) m.logs m.transcripts };
}

impl<O: SeqObject> Machine<O> {
    /// A machine of 1 to 16 cells with empty logs and of 1 to 64 CPUs, each with its script, before the first step. Each
    /// entry has 1 to 8 calls on one of the cells. Where memory is refused both lists come back.
    pub fn new(
        alloc: Global,
        cells: Vec<CellSpec<O>>,
        scripts: Vec<Vec<Todo<O>>>,
    ) -> Result<Machine<O>, (OutOfMemory, Vec<CellSpec<O>>, Vec<Vec<Todo<O>>>)>
        requires cells { (0 < vec_len cells) × (vec_len cells ≤ MOST_CELLS) }
        requires cpus { (0 < vec_len scripts) × (vec_len scripts ≤ MOST_CPUS) }
        requires empty { AllByRecursion (λ c. c.logged.log ≡ []) cells.items }
        requires stored { AreStored cells.items }
        requires able { AllByRecursion (λ s. AllByRecursion (λ t. IsTodo (vec_len cells) t) s.items) scripts.items }
        ensures shows { IfOk result (λ m. Represents O.SeqObject m (opening_world cells.items scripts.items)) }
        ensures opening { IsOpening (opening_world cells.items scripts.items) }
        ensures scripts { IfOk result (λ m. m.scripts ≡ scripts.items) }
        ensures opened { IfOk result (λ m. opened_by m ≡ map (λ c. record { params = c.logged.params; limit = c.logged.limit }) cells.items) }
        ensures back { IfErr result (λ e. (e.1 ≡ cells) × (e.2 ≡ scripts)) }
    {
        match make_room(alloc, cells.as_slice(), scripts.as_slice()) {
            Ok(
                Room {
                    locks,
                    done,
                    logs,
                    transcripts,
                },
            ) => Ok(Machine {
                cells,
                locks,
                scripts,
                done,
                logs,
                transcripts,
            }),
            Err(OutOfMemory) => Err((OutOfMemory, cells, scripts)),
        }
    }

    /// What every machine is, whoever made it: it keeps a world, whose logs and transcripts are sound, of at most 16 cells
    /// and 64 CPUs. It has no effect.
    pub fn keeps_a_world(&self)
        ensures world { Runs O.SeqObject self.now }
        ensures cells { length self.now.cells ≤ MOST_CELLS }
        ensures cpus { length self.now.scripts ≤ MOST_CPUS }
    {
        let _ = &self.cells;
    }

    /// The next atomic step of a CPU. One whose script is done does an idle step, which changes nothing.
    pub fn step(&mut self, cpu: u8) -> StepDone
        requires { cpu < length self.old.scripts }
        ensures done { (w : World O O.Params O.Call O.Reply) → Represents O.SeqObject self.old w → result ≡ (step O.SeqObject w cpu).1 }
        ensures shows { Follows O.SeqObject self.old self.new (λ w. (step O.SeqObject w cpu).0) }
        ensures scripts { self.new.scripts ≡ self.old.scripts }
        ensures opened { opened_by self.new ≡ opened_by self.old }
    {
        let i = cpu as usize;
        let at = self.done[i].at;
        let Some(todo) = self.scripts[i].get(at) else {
            return StepDone::Idle;
        };
        let x = todo.object as usize;
        let step = self.locks[x].turn(cpu);
        count_step(
            &mut self.done[i],
            &mut self.cells[x].logged,
            cpu,
            todo,
            step,
        );
        step
    }

    /// The steps of a whole schedule, in order.
    pub fn run(&mut self, schedule: &[u8])
        requires { All (λ i. i < length self.old.scripts) schedule.now }
        ensures shows { Follows O.SeqObject self.old self.new (run O.SeqObject schedule.now) }
        ensures scripts { self.new.scripts ≡ self.old.scripts }
        ensures opened { opened_by self.new ≡ opened_by self.old }
    {
        for cpu in schedule {
            self.step(*cpu);
        }
    }

    /// The words of a cell: of a ticket lock one, with the next ticket in its high half and the one that is served in its low
    /// half; of an MCS lock the tail, then each CPU's `next`, then each CPU's `locked`.
    pub fn words(&self, cell: u8) -> &[u64]
        requires { cell < length self.now.cells }
        ensures { HasWords O.SeqObject self.now cell result.now }
    {
        self.locks[cell as usize].words.as_slice()
    }

    /// The committed logs, and the transcripts so far. An entry stands in a transcript once the step that ended its hold
    /// was done. All entries have one order.
    pub fn record(self) -> Run<O>
        ensures shows { (w : World O O.Params O.Call O.Reply) → Represents O.SeqObject self w → result ≡ run_of w }
        ensures sound { Sound O.SeqObject (opened_by self) result }
        ensures ordered { HasOrder result }
    {
        let Machine {
            cells,
            locks: _,
            scripts: _,
            done,
            logs,
            transcripts,
        } = self;
        Run {
            logs: Series::from_vec(all_logs(cells, logs)),
            transcripts: Series::from_vec(all_transcripts(done, transcripts)),
        }
    }
}
