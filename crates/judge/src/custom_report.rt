//! What is reported to a caller in C of a line of a record of one's own.

ghost use Rattle.std.specs.Prelude.{◌≡◌, ◌≤◌, length, map, drop, ◌++◌};
ghost use Rattle.custom_records.specs.Custom.{CustomStep};
ghost use Rattle.judge.specs.OwnLines.{at_front, said_report, step_report};

use custom_records::{CustomObject, MOST_LETTERS, MOST_NUMBERS, MOST_SIZES, Spoken};
use event_log::Step;

/// A call or a reply: its word with zeros behind it, and its numbers, of which there are `count`.
#[derive(Clone, Copy, Debug, Default, PartialEq, Eq, Drop)]
#[repr(C)]
pub struct SaidReport {
    pub word: [u8; MOST_LETTERS],
    pub numbers: [u64; MOST_NUMBERS],
    pub count: u64,
}

/// A call with its reply.
#[derive(Clone, Copy, Debug, Default, PartialEq, Eq, Drop)]
#[repr(C)]
pub struct StepReport {
    pub call: SaidReport,
    pub reply: SaidReport,
}

/// What a line is, and where the next one begins. Names have zeros behind them. Of the numbers and of the steps there are
/// `count`; what isn't of that kind of line stays as it was.
#[derive(Drop)]
#[repr(C)]
pub struct LineReport {
    pub kind: u32,
    pub cpu: u32,
    pub next: u64,
    pub limit: u64,
    pub count: u64,
    pub name: [u8; MOST_LETTERS],
    pub object_kind: [u8; MOST_LETTERS],
    pub numbers: [u64; MOST_SIZES],
    pub steps: [StepReport; 8],
}

impl SaidReport {
    fn of(said: &Spoken) -> SaidReport
        ensures { result ≡ said_report said.now }
    {
        SaidReport {
            word: said.letters(),
            numbers: said.values(),
            count: said.numbers().len() as u64,
        }
    }
}

impl StepReport {
    pub(crate) fn of(step: &Step<CustomObject>) -> StepReport
        ensures { result ≡ step_report step.now }
    {
        StepReport {
            call: SaidReport::of(&step.call),
            reply: SaidReport::of(&step.reply.said),
        }
    }
}

/// Writes the numbers at the front of the room.
pub(crate) fn put_numbers(numbers: &[u64], room: &mut [u64])
    requires { length numbers.now ≤ length room.old }
    ensures { room.new ≡ at_front numbers.now room.old }
{
    room[..numbers.len()].copy_from_slice(numbers);
}

/// Writes the steps at the front of the room.
pub(crate) fn put_steps(steps: &[Step<CustomObject>], room: &mut [StepReport])
    requires { length steps.now ≤ length room.old }
    ensures { room.new ≡ at_front (map step_report steps.now) room.old }
{
    for i in 0..steps.len() {
        room[i] = StepReport::of(&steps[i]);
    }
}
