//! The end of a run: the passes of all CPUs become one for each object, and the cells are closed.

ghost use Rattle.std.specs.{Prelude.{◌≡◌, ◌<◌, ◌≤◌, ◌+◌, ◌++◌, [], length, map, slice_get, Some, vec_capacity}, List.AllByRecursion};
ghost use Rattle.word_rule.specs.Cell.{PassView, OwnsAll};
ghost use Rattle.guarded_cell.specs.{Runs.{Joins, EachJoins}, Workers.ArePasses};

use event_log::{Entry, Event, MOST_EVENTS, SeqObject, Series};
use word_rule::LockCell;

/// Joins a pass to the one of the same object.
fn join_at<O: SeqObject, C: LockCell<O>>(
    cells: &[C],
    merged: &mut Vec<C::Pass>,
    x: usize,
    pass: C::Pass,
)
    requires there { x < length cells.now }
    requires merged { ArePasses C.is_pass_of cells.now merged.old.items }
    requires pass { (c : C) → slice_get cells.now x ≡ Some c → C.is_pass_of c pass }
    ensures merged { ArePasses C.is_pass_of cells.now merged.new.items }
    ensures first { EachJoins (map C.pass_view merged.old.items) (map C.pass_view merged.new.items) }
    ensures second { (b : PassView O O.Params O.Call O.Reply) → slice_get (map C.pass_view merged.new.items) x ≡ Some b → Joins (C.pass_view pass) b }
{
    let first = merged.swap_remove(x);
    let joined = cells[x].join(first, pass);
    let last = merged.len();
    merged.push_reserved(joined);
    merged.swap(x, last);
}

/// Joins the passes of a CPU to the others, object by object.
fn join_rows<O: SeqObject, C: LockCell<O>>(
    cells: &[C],
    merged: Vec<C::Pass>,
    row: Vec<C::Pass>,
) -> Vec<C::Pass>
    requires merged { ArePasses C.is_pass_of cells.now merged.items }
    requires row { ArePasses C.is_pass_of cells.now row.items }
    ensures merged { ArePasses C.is_pass_of cells.now result.items }
    ensures first { EachJoins (map C.pass_view merged.items) (map C.pass_view result.items) }
    ensures second { EachJoins (map C.pass_view row.items) (map C.pass_view result.items) }
{
    let mut merged = merged;
    let mut x = 0;
    for pass in row {
        join_at::<O, C>(cells, &mut merged, x, pass);
        x += 1;
    }
    merged
}

/// Joins the passes of the other CPUs to those of the first, and puts their transcripts into the list, which has room.
fn join_others<O: SeqObject, C: LockCell<O>>(
    cells: &[C],
    first: Vec<C::Pass>,
    others: Vec<(Vec<C::Pass>, Vec<Entry<O>>)>,
    transcripts: Vec<Series<Entry<O>>>,
) -> (Vec<C::Pass>, Vec<Series<Entry<O>>>)
    requires first { ArePasses C.is_pass_of cells.now first.items }
    requires others { AllByRecursion (λ r. ArePasses C.is_pass_of cells.now r.0.items) others.items }
    requires room { length transcripts.items + length others.items ≤ vec_capacity transcripts }
    ensures merged { ArePasses C.is_pass_of cells.now result.0.items }
    ensures first { EachJoins (map C.pass_view first.items) (map C.pass_view result.0.items) }
    ensures others { AllByRecursion (λ r. EachJoins (map C.pass_view r.0.items) (map C.pass_view result.0.items)) others.items }
    ensures transcripts { result.1.items ≡ transcripts.items ++ map (λ r. r.1.items) others.items }
{
    let mut merged = first;
    let mut transcripts = transcripts;
    for (row, transcript) in others {
        merged = join_rows::<O, C>(cells, merged, row);
        transcripts.push_reserved(Series::from_vec(transcript));
    }
    (merged, transcripts)
}

/// Joins the passes of all CPUs, one at least, object by object, and hands out their transcripts. The list has room for them.
pub fn join_passes<O: SeqObject, C: LockCell<O>>(
    cells: &[C],
    finished: Vec<(Vec<C::Pass>, Vec<Entry<O>>)>,
    transcripts: Vec<Series<Entry<O>>>,
) -> (Vec<C::Pass>, Vec<Series<Entry<O>>>)
    requires some { 0 < length finished.items }
    requires each { AllByRecursion (λ f. ArePasses C.is_pass_of cells.now f.0.items) finished.items }
    requires room { (transcripts.items ≡ []) × (length finished.items ≤ vec_capacity transcripts) }
    ensures merged { ArePasses C.is_pass_of cells.now result.0.items }
    ensures each { AllByRecursion (λ f. EachJoins (map C.pass_view f.0.items) (map C.pass_view result.0.items)) finished.items }
    ensures transcripts { result.1.items ≡ map (λ f. f.1.items) finished.items }
{
    let mut finished = finished;
    let mut transcripts = transcripts;
    let (first, transcript) = finished.remove(0);
    transcripts.push_reserved(Series::from_vec(transcript));
    join_others::<O, C>(cells, first, finished, transcripts)
}

/// Closes each cell by the last of its passes. There is room for the logs.
pub fn close_all<O: SeqObject, C: LockCell<O> + Drop>(
    cells: Vec<C>,
    passes: Vec<C::Pass>,
    logs: Vec<Series<Event<O>>>,
) -> Vec<Series<Event<O>>>
    requires passes { ArePasses C.is_pass_of cells.items passes.items }
    requires whole { AllByRecursion (λ p. OwnsAll (C.pass_view p).caller) passes.items }
    requires stored { AllByRecursion (λ p. (C.pass_view p).caller.cell.limit ≤ MOST_EVENTS) passes.items }
    requires room { (logs.items ≡ []) × (length cells.items ≤ vec_capacity logs) }
    ensures { result.items ≡ map (λ p. (C.pass_view p).seen) passes.items }
{
    let mut logs = logs;
    let mut passes = passes.into_iter();
    for cell in cells {
        let pass = passes.next().unwrap();
        let log = cell.close(pass).into_log();
        logs.push_reserved(Series::from_vec(log));
    }
    logs
}
