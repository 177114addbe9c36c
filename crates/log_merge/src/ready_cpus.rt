//! Which CPUs' next entries can come.

ghost use Rattle.std.specs.Prelude.{◌≡◌, ◌≢◌, ◌<◌, ◌≤◌, ◌↔◌, ℕ, length, slice_index, IfOk};
ghost use Rattle.log_merge.specs.{Flags.{capacity, HasFlag}, Nexts.IsReady, Prefixes.IsMatched, WhoCanCome.{IsRight, SaysWhoCanCome, MayWake}};

use crate::next_entry::{Next, next_of};
use crate::number_flags::Flags;
use crate::run_shape::RunShape;
use event_log::{OutOfMemory, SeqObject};
use std::alloc::Global;

/// Sets the CPU's flag if its next entry can come, and else takes it away.
pub(crate) fn look<O: SeqObject, S: RunShape<O>>(
    shape: &S,
    at: &[usize],
    placed: &[usize],
    flags: &mut Flags,
    cpu: usize,
)
    requires ready { IsReady (S.run shape.now) at.now placed.now }
    requires cpu { cpu < length at.now }
    requires room { length at.now ≤ capacity flags.old }
    ensures room { capacity flags.new ≡ capacity flags.old }
    ensures right { IsRight (S.run shape.now) at.now placed.now flags.new cpu }
    ensures others { (other : ℕ) → other ≢ cpu → HasFlag flags.new other ↔ HasFlag flags.old other }
{
    match next_of(shape, at, placed, cpu) {
        Next::Comes => flags.set(cpu),
        _ => flags.clear(cpu),
    }
}

/// Looks at every CPU.
fn look_at_all<O: SeqObject, S: RunShape<O>>(
    shape: &S,
    at: &[usize],
    placed: &[usize],
    flags: &mut Flags,
)
    requires ready { IsReady (S.run shape.now) at.now placed.now }
    requires room { length at.now ≤ capacity flags.old }
    ensures room { capacity flags.new ≡ capacity flags.old }
    ensures right { (cpu : ℕ) → cpu < length at.now → IsRight (S.run shape.now) at.now placed.now flags.new cpu }
    ensures others { (other : ℕ) → length at.now ≤ other → HasFlag flags.new other ↔ HasFlag flags.old other }
{
    for cpu in 0..at.len() {
        look(shape, at, placed, flags, cpu);
    }
}

/// The flags of those that can come.
pub(crate) fn flags_of<O: SeqObject, S: RunShape<O>>(
    alloc: Global,
    shape: &S,
    at: &[usize],
    placed: &[usize],
) -> Result<Flags, OutOfMemory>
    requires { IsReady (S.run shape.now) at.now placed.now }
    ensures { IfOk result (SaysWhoCanCome (S.run shape.now) at.now placed.now) }
{
    let mut flags = Flags::new(alloc, at.len())?;
    look_at_all(shape, at, placed, &mut flags);
    Ok(flags)
}

/// Looks at the CPU of the object's next event, or at every CPU if its log is placed whole.
pub(crate) fn look_behind<O: SeqObject, S: RunShape<O>>(
    shape: &S,
    at: &[usize],
    placed: &[usize],
    flags: &mut Flags,
    object: usize,
)
    requires ready { IsReady (S.run shape.now) at.now placed.now }
    requires matched { IsMatched (S.run shape.now) }
    requires object { object < length placed.now }
    requires room { length at.now ≤ capacity flags.old }
    requires others { (cpu : ℕ) → (MayWake (S.run shape.now) (slice_index placed.now) object cpu → ⊥) → IsRight (S.run shape.now) at.now placed.now flags.old cpu }
    ensures { SaysWhoCanCome (S.run shape.now) at.now placed.now flags.new }
{
    match shape.event_cpu(object, placed[object]) {
        Some(by) => look(shape, at, placed, flags, by),
        None => look_at_all(shape, at, placed, flags),
    }
}
