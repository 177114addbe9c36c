//! What is reported to a caller in C.

ghost use Rattle.std.specs.Prelude.{◌≡◌};
ghost use Rattle.judge.specs.Report.{fault_report, verdict_report};

use auditor::{Fault, Verdict};

/// The record is sound, or its entries were put in order: how many.
pub const SOUND: u32 = 0;

/// A log has more events than its limit: the object.
pub const TOO_LONG: u32 = 1;

/// A step has a wrong reply, or stands behind one that refused: the object, the event and the step.
pub const WRONG_STEP: u32 = 2;

/// An entry found no room, though there was some: the CPU and the entry.
pub const ROOM_WAS_LEFT: u32 = 3;

/// An entry's steps aren't those of the CPU's next event, or there is none: the CPU and the entry.
pub const NOT_ITS_EVENT: u32 = 4;

/// An entry's steps aren't what was asked: the CPU and the entry.
pub const NOT_ASKED: u32 = 5;

/// No entry took an event: the object and the event.
pub const UNCLAIMED: u32 = 6;

/// The record is sound, but there is no order: how many entries are in the cycle.
pub const CYCLE: u32 = 7;

/// The text is no record: the first line, from 1, with which no record goes on.
pub const BAD_LINE: u32 = 8;

/// Memory was refused.
pub const OUT_OF_MEMORY: u32 = 9;

/// The caller's room is too small: how many entries have to have room.
pub const NO_ROOM: u32 = 10;

/// A count of right steps is missing, one too many, or above the steps of its log: the first such object.
pub const MISTOLD: u32 = 11;

/// What is reported of a text: its kind, and its numbers, which are 0 where the kind has fewer. Objects, events, steps, CPUs and
/// entries are numbered from 0.
#[derive(Clone, Copy, Debug, PartialEq, Eq, Drop)]
#[repr(C)]
pub struct Report {
    pub kind: u32,
    pub first: u64,
    pub second: u64,
    pub third: u64,
}

impl Report {
    pub(crate) fn new(kind: u32, first: usize, second: usize, third: usize) -> Report
        ensures { result ≡ record { kind = kind; first = first; second = second; third = third } }
    {
        Report {
            kind,
            first: first as u64,
            second: second as u64,
            third: third as u64,
        }
    }

    pub(crate) fn of_fault(fault: Fault) -> Report
        ensures { result ≡ fault_report fault }
    {
        match fault {
            Fault::TooLong { object } => Report::new(TOO_LONG, object, 0, 0),
            Fault::WrongStep {
                object,
                event,
                step,
            } => Report::new(WRONG_STEP, object, event, step),
            Fault::RoomWasLeft { cpu, entry } => Report::new(ROOM_WAS_LEFT, cpu, entry, 0),
            Fault::NotItsEvent { cpu, entry } => Report::new(NOT_ITS_EVENT, cpu, entry, 0),
            Fault::NotAsked { cpu, entry } => Report::new(NOT_ASKED, cpu, entry, 0),
            Fault::Unclaimed { object, event } => Report::new(UNCLAIMED, object, event, 0),
        }
    }

    pub(crate) fn of_verdict(verdict: Verdict) -> Report
        ensures { result ≡ verdict_report verdict }
    {
        match verdict {
            Verdict::Sound => Report::new(SOUND, 0, 0, 0),
            Verdict::Unsound(fault) => Report::of_fault(fault),
        }
    }
}
