//! What a run needs before its threads are started: the cells, a job for each CPU, and all memory.

ghost use Rattle.std.specs.{Prelude.{◌≡◌, ◌∷◌, ◌++◌, ◌<◌, ◌≤◌, ℕ, [], IfOk, Some, Vec, length, map, slice_get, vec_len, vec_capacity}, List.AllByRecursion, declared.alloc.Global.Global};
ghost use Rattle.word_rule.specs.{Cell.EachAt, Passes.view_of_pass};
ghost use Rattle.guarded_cell.specs.Kinds.{IsPassOf};
ghost use Rattle.scripts.specs.ScriptText.{ScriptsFit};
ghost use Rattle.cpu_worker.specs.Opening.{IsRow, cells_for};

use crate::object_opening::open_object;
use crate::threads::{Finished, Handle, Job, KernelCell, KernelPass};
use event_log::{Entry, Event, OutOfMemory, Series, Todo};
use guarded_cell::AnyCell;
use scripts::{KernelObject, Scripts, Settings};
use std::alloc::Global;

/// For each CPU an empty list with room for a pass of each object.
fn make_rows<T: Drop>(alloc: Global, cpus: u8, objects: usize) -> Result<Vec<Vec<T>>, OutOfMemory>
    ensures count { IfOk result (λ rows. vec_len rows ≡ cpus) }
    ensures each { IfOk result (λ rows. AllByRecursion (λ r. (r.items ≡ []) × (objects ≤ vec_capacity r)) rows.items) }
{
    let mut rows = Vec::with_capacity(alloc, cpus as usize)?;
    for _ in 0..cpus {
        let row = Vec::with_capacity(alloc, objects)?;
        rows.push_reserved(row);
    }
    Ok(rows)
}

/// Gives each row the element at its place.
fn deal<T: Drop>(rows: &mut Vec<Vec<T>>, elements: Vec<T>)
    requires count { vec_len elements ≡ vec_len rows.old }
    requires room { AllByRecursion (λ r. length r.items < vec_capacity r) rows.old.items }
    ensures count { vec_len rows.new ≡ vec_len rows.old }
    ensures dealt { (k : ℕ) (old new : Vec T Global) (x : T) →
        slice_get rows.old.items k ≡ Some old → slice_get rows.new.items k ≡ Some new → slice_get elements.items k ≡ Some x →
        (new.items ≡ old.items ++ x ∷ []) × (vec_capacity new ≡ vec_capacity old) }
{
    let mut k = 0;
    for x in elements {
        rows[k].push_reserved(x);
        k += 1;
    }
}

/// Opens each object of the settings behind its lock: the cells, and for each CPU a pass of each of them.
fn open_cells(
    alloc: Global,
    settings: &Settings,
) -> Result<(Vec<KernelCell>, Vec<Vec<KernelPass>>), OutOfMemory>
    ensures cells { IfOk result (λ r. vec_len r.0 ≡ length settings.now.objects) }
    ensures count { IfOk result (λ r. vec_len r.1 ≡ settings.now.cpus) }
    ensures rows { IfOk result (λ r. EachAt (λ k row. IsRow IsPassOf view_of_pass (cells_for settings.now) r.0.items k row.items) r.1.items) }
{
    let objects = settings.objects().len();
    let mut cells = Vec::with_capacity(alloc, objects)?;
    let mut rows = make_rows(alloc, settings.cpus(), objects)?;
    for object in settings.objects() {
        let logged = open_object(alloc, object)?;
        let Ok((cell, passes)) = AnyCell::open(alloc, object.lock(), logged, settings.cpus()) else {
            return Err(OutOfMemory);
        };
        deal(&mut rows, passes);
        cells.push_reserved(cell);
    }
    Ok((cells, rows))
}

/// A job for each CPU: its script, its passes, and room for its transcript.
fn make_jobs(
    alloc: Global,
    scripts: Vec<Vec<Todo<KernelObject>>>,
    rows: Vec<Vec<KernelPass>>,
) -> Result<Vec<Job>, OutOfMemory>
    requires { length scripts.items ≡ length rows.items }
    ensures scripts { IfOk result (λ jobs. map (λ j. j.todos.items) jobs.items ≡ map (λ l. l.items) scripts.items) }
    ensures rows { IfOk result (λ jobs. map (λ j. j.passes.items) jobs.items ≡ map (λ r. r.items) rows.items) }
    ensures room { IfOk result (λ jobs. AllByRecursion (λ j. (j.transcript.items ≡ []) × (length j.todos.items ≤ vec_capacity j.transcript)) jobs.items) }
{
    let mut jobs = Vec::with_capacity(alloc, scripts.len())?;
    let mut rows = rows.into_iter();
    for todos in scripts {
        let passes = rows.next().unwrap();
        let transcript = Vec::with_capacity(alloc, todos.len())?;
        jobs.push_reserved(Job {
            passes,
            todos,
            transcript,
        });
    }
    Ok(jobs)
}

/// The cells of a run, and a job for each CPU.
#[derive(Drop)]
pub struct Work {
    pub cells: Vec<KernelCell>,
    pub jobs: Vec<Job>,
}

/// A cell for each object of the settings, and a job for each CPU, which has its script and a pass of each cell.
pub fn make_work(alloc: Global, settings: &Settings, scripts: Scripts) -> Result<Work, OutOfMemory>
    requires { ScriptsFit settings.now.cpus (length settings.now.objects) scripts }
    ensures cells { IfOk result (λ w. vec_len w.cells ≡ length settings.now.objects) }
    ensures scripts { IfOk result (λ w. map (λ j. j.todos.items) w.jobs.items ≡ scripts) }
    ensures rows { IfOk result (λ w. EachAt (λ k j. IsRow IsPassOf view_of_pass (cells_for settings.now) w.cells.items k j.passes.items) w.jobs.items) }
    ensures room { IfOk result (λ w. AllByRecursion (λ j. (j.transcript.items ≡ []) × (length j.todos.items ≤ vec_capacity j.transcript)) w.jobs.items) }
{
    let (cells, rows) = open_cells(alloc, settings)?;
    let jobs = make_jobs(alloc, scripts.into_lists(), rows)?;
    Ok(Work { cells, jobs })
}

/// What the end of a run fills: a transcript of each CPU, and a log of each object. Both are empty, and have room for all.
#[derive(Drop)]
pub struct EndLists {
    pub transcripts: Vec<Series<Entry<KernelObject>>>,
    pub logs: Vec<Series<Event<KernelObject>>>,
}

/// The lists of a run, empty, with room for all that will come. The handles can't be dropped once threads are started.
#[derive(Drop)]
pub struct RunLists {
    pub handles: Vec<Handle>,
    pub finished: Vec<Finished>,
    pub ends: EndLists,
}

/// What the end of a run of so many CPUs and objects fills.
fn make_end_lists(alloc: Global, cpus: usize, objects: usize) -> Result<EndLists, OutOfMemory>
    ensures transcripts { IfOk result (λ r. (r.transcripts.items ≡ []) × (cpus ≤ vec_capacity r.transcripts)) }
    ensures logs { IfOk result (λ r. (r.logs.items ≡ []) × (objects ≤ vec_capacity r.logs)) }
{
    let transcripts = Vec::with_capacity(alloc, cpus)?;
    let logs = Vec::with_capacity(alloc, objects)?;
    Ok(EndLists { transcripts, logs })
}

/// The lists of a run of so many CPUs and objects.
pub fn make_run_lists(alloc: Global, cpus: usize, objects: usize) -> Result<RunLists, OutOfMemory>
    ensures handles { IfOk result (λ r. (r.handles.items ≡ []) × (cpus ≤ vec_capacity r.handles)) }
    ensures finished { IfOk result (λ r. (r.finished.items ≡ []) × (cpus ≤ vec_capacity r.finished)) }
    ensures transcripts { IfOk result (λ r. (r.ends.transcripts.items ≡ []) × (cpus ≤ vec_capacity r.ends.transcripts)) }
    ensures logs { IfOk result (λ r. (r.ends.logs.items ≡ []) × (objects ≤ vec_capacity r.ends.logs)) }
{
    let handles = Vec::with_capacity(alloc, cpus)?;
    let finished = Vec::with_capacity(alloc, cpus)?;
    let ends = make_end_lists(alloc, cpus, objects)?;
    Ok(RunLists {
        handles,
        finished,
        ends,
    })
}
