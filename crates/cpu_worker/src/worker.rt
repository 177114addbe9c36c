//! A CPU's worker: it does its entries one after another, each on the cell of its object.

ghost use Rattle.std.specs.Prelude.{◌≡◌, ◌<◌, ◌≤◌, ◌^◌, length, map, vec_capacity};
ghost use Rattle.event_log.specs.Entries.{asked_of};
ghost use Rattle.guarded_cell.specs.Workers.{ArePasses, Did, DidAt};
ghost use Rattle.word_rule.specs.Machine.SoundWorld.{IsTodo};
ghost use Rattle.cpu_worker.specs.Work.{IsReady, IsDone};

use crate::gate::Gate;
use event_log::{Done, Entry, MOST_CALLS, NoRoom, SeqObject, Steps, Todo};
use guarded_cell::{batch, call};
use scripts::KernelObject;
use std::sync::Wait;
use word_rule::LockCell;

/// Does the only call of an entry as one event of the acting CPU, and writes into the entry what became of it.
#[inline]
fn do_call<O: SeqObject, C: LockCell<O>, R: Wait>(
    rt: &R,
    cell: &C,
    pass: C::Pass,
    entry: &mut Entry<O>,
) -> C::Pass
    requires pass { C.is_pass_of cell.now pass }
    requires one { length entry.old.asked.items ≡ 1 }
    ensures pass { C.is_pass_of cell.now result }
    ensures caller { (C.pass_view result).caller ≡ (C.pass_view pass).caller }
    ensures asked { asked_of entry.new ≡ asked_of entry.old }
    ensures looks { entry.new.looks < 2 ^ 64 }
    ensures did { Did O.SeqObject (C.pass_view pass) entry.new.asked entry.new.done (C.pass_view result) }
{
    let asked = entry.asked[0];
    let (pass, answered, looks) = call(rt, cell, pass, &asked);
    entry.looks = looks;
    match answered {
        Ok(reply) => entry.done = Done::Steps(Steps::one(asked, reply)),
        Err(NoRoom) => entry.done = Done::NoRoom,
    }
    pass
}

/// Does the calls of an entry as one event of the acting CPU, and writes into the entry what became of them.
fn do_calls<O: SeqObject, C: LockCell<O>, R: Wait>(
    rt: &R,
    cell: &C,
    pass: C::Pass,
    entry: &mut Entry<O>,
) -> C::Pass
    requires pass { C.is_pass_of cell.now pass }
    requires some { 0 < length entry.old.asked.items }
    requires few { length entry.old.asked.items ≤ MOST_CALLS }
    ensures pass { C.is_pass_of cell.now result }
    ensures caller { (C.pass_view result).caller ≡ (C.pass_view pass).caller }
    ensures asked { asked_of entry.new ≡ asked_of entry.old }
    ensures looks { entry.new.looks < 2 ^ 64 }
    ensures did { Did O.SeqObject (C.pass_view pass) entry.new.asked entry.new.done (C.pass_view result) }
{
    let (pass, applied, looks) = batch(rt, cell, pass, entry.asked.as_slice());
    entry.looks = looks;
    match applied {
        Ok(steps) => entry.done = Done::Steps(steps),
        Err(NoRoom) => entry.done = Done::NoRoom,
    }
    pass
}

/// Does what an entry asks as one event of the acting CPU, and writes into it what became of it. A single call, as most
/// entries have, has a way of its own: its event is written where it stays, and not copied.
#[inline]
fn do_entry<O: SeqObject, C: LockCell<O>, R: Wait>(
    rt: &R,
    cell: &C,
    pass: C::Pass,
    entry: &mut Entry<O>,
) -> C::Pass
    requires pass { C.is_pass_of cell.now pass }
    requires some { 0 < length entry.old.asked.items }
    requires few { length entry.old.asked.items ≤ MOST_CALLS }
    ensures pass { C.is_pass_of cell.now result }
    ensures caller { (C.pass_view result).caller ≡ (C.pass_view pass).caller }
    ensures asked { asked_of entry.new ≡ asked_of entry.old }
    ensures looks { entry.new.looks < 2 ^ 64 }
    ensures did { Did O.SeqObject (C.pass_view pass) entry.new.asked entry.new.done (C.pass_view result) }
{
    if entry.asked.len() == 1 {
        do_call(rt, cell, pass, entry)
    } else {
        do_calls(rt, cell, pass, entry)
    }
}

/// Does an entry by the pass of its object, which goes back to its place, and writes into it what became of it.
#[inline]
fn do_at<C: LockCell<KernelObject>, R: Wait>(
    rt: &R,
    cells: &[C],
    passes: &mut Vec<C::Pass>,
    entry: &mut Entry<KernelObject>,
)
    requires passes { ArePasses C.is_pass_of cells.now passes.old.items }
    requires able { IsTodo (length cells.now) (asked_of entry.old) }
    ensures passes { ArePasses C.is_pass_of cells.now passes.new.items }
    ensures did { DidAt ⟦<KernelObject as SeqObject>⟧ (map C.pass_view passes.old.items) (asked_of entry.old) entry.new (map C.pass_view passes.new.items) }
{
    let x = entry.object as usize;
    let pass = passes.swap_remove(x);
    let pass = do_entry(rt, &cells[x], pass, entry);
    let last = passes.len();
    passes.push_reserved(pass);
    passes.swap(x, last);
}

/// Does the entries in their order, each between two calls of the gate and in its place in the transcript, which has room
/// for them.
pub fn do_script<C: LockCell<KernelObject>, G: Gate, R: Wait>(
    rt: &R,
    gate: &G,
    cpu: u8,
    cells: &[C],
    passes: Vec<C::Pass>,
    todos: Vec<Todo<KernelObject>>,
    transcript: Vec<Entry<KernelObject>>,
) -> (Vec<C::Pass>, Vec<Entry<KernelObject>>)
    requires { IsReady C.is_pass_of cells.now passes.items todos.items transcript.items (vec_capacity transcript) }
    ensures { IsDone C.is_pass_of C.pass_view cells.now passes.items todos.items result.0.items result.1.items }
{
    let mut passes = passes;
    let mut transcript = transcript;
    let mut index = 0;
    for todo in todos {
        gate.before(cpu, index);
        transcript.push_reserved(Entry {
            object: todo.object,
            asked: todo.calls,
            done: Done::NoRoom,
            looks: 0,
        });
        do_at::<C, R>(rt, cells, &mut passes, &mut transcript[index as usize]);
        gate.after(cpu, index);
        index += 1;
    }
    (passes, transcript)
}
