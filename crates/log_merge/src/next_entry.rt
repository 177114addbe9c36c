//! The entry that can come next.

ghost use Rattle.std.specs.Prelude.{◌≡◌, ◌<◌, ◌≤◌, ℕ, length, slice_index, MatchOption};
ghost use Rattle.log_merge.specs.{FoundCycles.IsLeastLeft, Nexts.{IsNext, IsReady}};
ghost use Rattle.sound_run.specs.Sound.{transcript_of};

use crate::run_shape::RunShape;
use event_log::SeqObject;

/// What there is of a CPU's next entry.
#[derive(Clone, Copy, Debug, PartialEq, Eq, Drop)]
pub(crate) enum Next {
    /// There is none.
    Ended,
    /// It can come.
    Comes,
    /// It waits for an event of that CPU.
    Waits(usize),
}

/// What there is of the CPU's next entry.
pub(crate) fn next_of<O: SeqObject, S: RunShape<O>>(
    shape: &S,
    at: &[usize],
    placed: &[usize],
    cpu: usize,
) -> Next
    requires ready { IsReady (S.run shape.now) at.now placed.now }
    requires cpu { cpu < length at.now }
    ensures { IsNext (S.run shape.now) at.now placed.now cpu result }
{
    let Some(entry) = shape.entry(cpu, at[cpu]) else {
        return Next::Ended;
    };
    let object = entry.object as usize;
    let Some(by) = shape.event_cpu(object, placed[object]) else {
        return Next::Comes;
    };
    match entry.is_done {
        true => {
            let is_own = by == cpu;
            if is_own { Next::Comes } else { Next::Waits(by) }
        }
        false => Next::Waits(by),
    }
}

/// The least CPU that has entries left.
pub(crate) fn first_left<O: SeqObject, S: RunShape<O>>(shape: &S, at: &[usize]) -> Option<usize>
    requires { length at.now ≡ length (S.run shape.now).transcripts }
    ensures { MatchOption result ((cpu : ℕ) → length (transcript_of cpu (S.run shape.now)) ≤ slice_index at.now cpu)
        (λ c. (c < length at.now) × IsLeastLeft (S.run shape.now) (slice_index at.now) c) }
{
    for (cpu, n) in at.iter().enumerate() {
        if shape.entry(cpu, *n).is_some() {
            return Some(cpu);
        }
    }
    None
}
