//! Why a text of lines is not read.

ghost use Rattle.std.specs.Prelude.{◌≡◌};
ghost use Rattle.record_lines.specs.TextFaults.{of_lines, of_source};

use crate::streams::feeding::SourceFault;
use event_log::OutOfMemory;
use std::alloc::AllocFailed;

/// Why a line was not taken.
#[derive(Clone, Copy, Debug, PartialEq, Eq, Drop)]
pub enum LineFault {
    OutOfMemory,
    /// It can't come there.
    Refused,
}

impl<T: Drop> From<AllocFailed<T>> for LineFault {
    ghost use Rattle.record_lines.specs.declared.text.fault.LineFault.TheVariants.{OutOfMemory};

    ghost from_gives = { λ _ fault. fault ≡ OutOfMemory };

    fn from(_failed: AllocFailed<T>) -> LineFault {
        LineFault::OutOfMemory
    }
}

impl From<OutOfMemory> for LineFault {
    ghost use Rattle.record_lines.specs.declared.text.fault.LineFault.TheVariants.{OutOfMemory};

    ghost from_gives = { λ _ fault. fault ≡ OutOfMemory };

    fn from(_refused: OutOfMemory) -> LineFault {
        LineFault::OutOfMemory
    }
}

/// Why a text in memory was not read.
#[derive(Clone, Copy, Debug, PartialEq, Eq, Drop)]
pub enum LinesFault {
    OutOfMemory,
    /// The first line, from 1, that can't come there.
    Line(usize),
}

/// Why a text was not read from a source.
#[derive(Clone, Copy, Debug, PartialEq, Eq, Drop)]
pub enum TextFault {
    OutOfMemory,
    ReadFailed,
    /// The first line, from 1, that can't come there.
    BadLine(usize),
}

impl From<SourceFault<LinesFault>> for TextFault {
    ghost from_gives = { λ cause fault. fault ≡ of_source cause };

    fn from(cause: SourceFault<LinesFault>) -> TextFault {
        match cause {
            SourceFault::ReadFailed => TextFault::ReadFailed,
            SourceFault::Reported(fault) => TextFault::from(fault),
        }
    }
}

impl From<LinesFault> for TextFault {
    ghost from_gives = { λ cause fault. fault ≡ of_lines cause };

    fn from(cause: LinesFault) -> TextFault {
        match cause {
            LinesFault::OutOfMemory => TextFault::OutOfMemory,
            LinesFault::Line(number) => TextFault::BadLine(number),
        }
    }
}
