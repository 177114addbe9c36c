//! A thread for each CPU.

ghost use Rattle.std.specs.{Prelude.{◌≡◌, ◌≤◌, [], IfOk, IfErr, length, vec_len, vec_capacity}, List.{AllByRecursion, AllZip}, Thread.IsSync};
ghost use Rattle.sound_run.specs.declared.limits.TheConstants.{MOST_CPUS};
ghost use Rattle.word_rule.specs.Passes.{view_of_pass};
ghost use Rattle.guarded_cell.specs.Kinds.{IsPassOf};
ghost use Rattle.cpu_worker.specs.{Starts.{AllowedBelow, IsNotStarted, fault_of}, Work.{IsReady, IsDone}};

use crate::gate::Gate;
use crate::starter::Starter;
use crate::worker::do_script;
use event_log::{Entry, OutOfMemory, Todo};
use guarded_cell::{AnyCell, AnyPass};
use scripts::KernelObject;
use std::snapshot::Snapshot;
use std::sync::Wait;
use std::thread;
use std::thread::{Promise, PromisedHandle, Threads};

/// Why there is no run.
#[derive(Clone, Copy, Debug, PartialEq, Eq, Drop)]
pub enum RunFault {
    /// No thread was started.
    OutOfMemory,
    /// The least CPU whose thread wasn't started, as it wasn't allowed or the system refused. The workers that ran have ended.
    NoThreadStarted(u8),
}

/// The CPU that wasn't started, once all memory was there. The workers of the CPUs below it have ended.
#[derive(Clone, Copy, Debug, PartialEq, Eq, Drop)]
pub enum NotStarted {
    /// It isn't allowed.
    NotAllowed(u8),
    /// The system refused its thread.
    Refused(u8),
}

impl From<OutOfMemory> for RunFault {
    ghost use Rattle.cpu_worker.specs.declared.threads.RunFault.TheVariants.{OutOfMemory};

    ghost from_gives = { λ _ fault. fault ≡ OutOfMemory };

    fn from(fault: OutOfMemory) -> RunFault {
        let OutOfMemory = fault;
        RunFault::OutOfMemory
    }
}

impl From<NotStarted> for RunFault {
    ghost from_gives = { λ why fault. fault ≡ fault_of why };

    fn from(why: NotStarted) -> RunFault {
        match why {
            NotStarted::NotAllowed(cpu) | NotStarted::Refused(cpu) => RunFault::NoThreadStarted(
                cpu,
            ),
        }
    }
}

/// A cell around an object of the kernel.
pub type KernelCell = AnyCell<KernelObject>;

/// A pass of such a cell.
pub type KernelPass = AnyPass<KernelObject>;

/// What a worker leaves: a pass of each object in order, and its transcript.
pub type Finished = (Vec<KernelPass>, Vec<Entry<KernelObject>>);

/// A worker's thread.
pub type Handle = PromisedHandle<Finished, DoesScript>;

/// What a worker is given: a pass of each object in order, its script, and room for its transcript.
#[derive(Drop)]
pub struct Job {
    pub passes: Vec<KernelPass>,
    pub todos: Vec<Todo<KernelObject>>,
    pub transcript: Vec<Entry<KernelObject>>,
}

/// A worker does its script on the cells.
#[derive(Drop)]
pub struct DoesScript {
    cells: Snapshot<Vec<KernelCell>>,
    job: Snapshot<Job>,
}

impl Promise<Finished> for DoesScript {
    ghost kept_by = { λ p r. IsDone IsPassOf view_of_pass p.cells.value.items p.job.value.passes.items p.job.value.todos.items r.0.items r.1.items };
}

/// What a worker's thread does.
fn do_job<G: Gate, R: Wait>(
    rt: &R,
    gate: &G,
    cpu: u8,
    cells: &Vec<KernelCell>,
    passes: Vec<KernelPass>,
    todos: Vec<Todo<KernelObject>>,
    transcript: Vec<Entry<KernelObject>>,
) -> Finished
    requires { IsReady IsPassOf cells.now.items passes.items todos.items transcript.items (vec_capacity transcript) }
    ensures { IsDone IsPassOf view_of_pass cells.now.items passes.items todos.items result.0.items result.1.items }
{
    do_script(rt, gate, cpu, cells.as_slice(), passes, todos, transcript)
}

/// Waits for all workers. There is room for what they leave.
fn join_threads<R: Threads>(rt: &R, handles: Vec<Handle>, finished: Vec<Finished>) -> Vec<Finished>
    requires room { (finished.items ≡ []) × (vec_len handles ≤ vec_capacity finished) }
    ensures { AllZip (λ h r. IsDone IsPassOf view_of_pass h.promise.cells.value.items
        h.promise.job.value.passes.items h.promise.job.value.todos.items r.0.items r.1.items) handles.items result.items }
{
    let mut finished = finished;
    for handle in handles {
        finished.push_reserved(handle.join(rt));
    }
    finished
}

/// Starts a thread for each job, CPU by CPU, and waits for all. At the first CPU that isn't allowed, or whose thread is
/// refused, no further one is started, and the workers that run end their scripts.
pub fn on_threads<G: Gate + Sync, S: Starter, R: Threads + Wait + Sync>(
    rt: &R,
    gate: &G,
    starter: &S,
    cells: &Vec<KernelCell>,
    jobs: Vec<Job>,
    handles: Vec<Handle>,
    finished: Vec<Finished>,
) -> Result<Vec<Finished>, NotStarted>
    requires few { vec_len jobs ≤ MOST_CPUS }
    requires ready { AllByRecursion (λ j. IsReady IsPassOf cells.now.items j.passes.items j.todos.items
        j.transcript.items (vec_capacity j.transcript)) jobs.items }
    requires handles { (handles.items ≡ []) × (vec_len jobs ≤ vec_capacity handles) }
    requires finished { (finished.items ≡ []) × (vec_len jobs ≤ vec_capacity finished) }
    ensures done { IfOk result (λ r. AllZip (λ j f. IsDone IsPassOf view_of_pass cells.now.items
        j.passes.items j.todos.items f.0.items f.1.items) jobs.items r.items) }
    ensures allowed { IfOk result (λ _. AllowedBelow (S.allows starter.now) (length jobs.items)) }
    ensures named { IfErr result (IsNotStarted (S.allows starter.now) (length jobs.items)) }
{
    thread::scope(
        thread::scope_env(),
        rt,
        move |scope| -> Result<Vec<Finished>, NotStarted>
            requires shares { IsSync R.row }
            requires gate { IsSync G.row }
            requires few { vec_len jobs ≤ MOST_CPUS }
            requires ready { AllByRecursion (λ j. IsReady IsPassOf cells.now.items j.passes.items j.todos.items
                j.transcript.items (vec_capacity j.transcript)) jobs.items }
            requires handles { (handles.items ≡ []) × (vec_len jobs ≤ vec_capacity handles) }
            requires finished { (finished.items ≡ []) × (vec_len jobs ≤ vec_capacity finished) }
            ensures done { IfOk result (λ r. AllZip (λ j f. IsDone IsPassOf view_of_pass cells.entry.now.items
                j.passes.items j.todos.items f.0.items f.1.items) jobs.items r.items) }
            ensures allowed { IfOk result (λ _. AllowedBelow (S.allows starter.entry.now) (length jobs.items)) }
            ensures named { IfErr result (IsNotStarted (S.allows starter.entry.now) (length jobs.items)) }
        {
            let mut handles = handles;
            let mut cpu = 0;
            for job in jobs {
                if !starter.allow(cpu) {
                    return Err(NotStarted::NotAllowed(cpu));
                }
                let refused = NotStarted::Refused(cpu);
                let promise = DoesScript {
                    cells: Snapshot::of(cells),
                    job: Snapshot::of(&job),
                };
                let Job {
                    passes,
                    todos,
                    transcript,
                } = job;
                let Ok(handle) = scope.spawn_with(
                    promise,
                    move || -> Finished
                        requires { IsReady IsPassOf cells.now.items passes.items todos.items transcript.items (vec_capacity transcript) }
                        ensures { IsDone IsPassOf view_of_pass cells.entry.now.items passes.items todos.items result.0.items result.1.items }
                    { do_job(rt, gate, cpu, cells, passes, todos, transcript) },
                ) else {
                    return Err(refused);
                };
                handles.push_reserved(handle);
                cpu += 1;
            }
            Ok(join_threads(rt, handles, finished))
        },
    )
}
