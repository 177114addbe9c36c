//! The refusals that programs share.

ghost use Rattle.std.specs.Prelude.{◌≡◌};
ghost use Rattle.program.specs.Refusals.{of_memory, of_name, of_record, of_schedule, of_scripts, of_settings, of_write, status_of};

use crate::file_names::BadName;
use event_log::{OutOfMemory, Sink};
use scripts::{BadSettings, Buffered, ScheduleFault, SettingsFault, TextFault, WriteFailed};
use std::fmt::{Display, Write};
use thiserror::Error;

/// A refusal that more than one program has: what its line says behind the program's name.
#[derive(Clone, Copy, Debug, PartialEq, Eq, Drop, Error)]
pub enum Refusal {
    #[error("E1 out of memory")]
    OutOfMemory,
    #[error("E6 settings: {0}")]
    BadSettings(BadSettings),
    /// The first line, from 1, that can't come.
    #[error("E7 scripts: line {0}")]
    BadScripts(usize),
    /// The first word, from 1, that can't come.
    #[error("E8 schedule: word {0}")]
    BadSchedule(usize),
    /// The first line, from 1, that can't come.
    #[error("E9 record: line {0}")]
    BadRecord(usize),
    #[error("E12 read failed")]
    ReadFailed,
    #[error("E13 write failed")]
    WriteFailed,
    #[error("E14 bad words")]
    BadWords,
}

impl Refusal {
    /// Why scripts were not read.
    pub fn of_scripts(fault: TextFault) -> Refusal
        ensures { result ≡ of_scripts fault }
    {
        match fault {
            TextFault::OutOfMemory => Refusal::OutOfMemory,
            TextFault::ReadFailed => Refusal::ReadFailed,
            TextFault::BadLine(number) => Refusal::BadScripts(number),
        }
    }

    /// Why a record was not read.
    pub fn of_record(fault: TextFault) -> Refusal
        ensures { result ≡ of_record fault }
    {
        match fault {
            TextFault::OutOfMemory => Refusal::OutOfMemory,
            TextFault::ReadFailed => Refusal::ReadFailed,
            TextFault::BadLine(number) => Refusal::BadRecord(number),
        }
    }

    /// The status that a program ends with: 2 for what the caller wrote, 3 for what the machine refused.
    pub fn status(&self) -> u8
        ensures { result ≡ status_of self.now }
    {
        match self {
            Refusal::BadSettings(_)
            | Refusal::BadScripts(_)
            | Refusal::BadSchedule(_)
            | Refusal::BadRecord(_)
            | Refusal::BadWords => 2,
            Refusal::OutOfMemory | Refusal::ReadFailed | Refusal::WriteFailed => 3,
        }
    }
}

/// Writes the line of a refusal. A failed write changes nothing else.
pub fn write_line<D: Display, F: Sink>(refusal: &D, faults: &mut F) {
    let mut line = Buffered::new(faults);
    if writeln!(line, "{refusal}").is_ok() {
        let _ = line.finish();
    }
}

impl From<OutOfMemory> for Refusal {
    ghost from_gives = { λ cause fault. fault ≡ of_memory cause };

    fn from(fault: OutOfMemory) -> Refusal {
        let OutOfMemory = fault;
        Refusal::OutOfMemory
    }
}

impl From<WriteFailed> for Refusal {
    ghost from_gives = { λ cause fault. fault ≡ of_write cause };

    fn from(fault: WriteFailed) -> Refusal {
        let WriteFailed = fault;
        Refusal::WriteFailed
    }
}

impl From<SettingsFault> for Refusal {
    ghost from_gives = { λ cause fault. fault ≡ of_settings cause };

    fn from(fault: SettingsFault) -> Refusal {
        match fault {
            SettingsFault::OutOfMemory => Refusal::OutOfMemory,
            SettingsFault::Refused(bad) => Refusal::BadSettings(bad),
        }
    }
}

impl From<ScheduleFault> for Refusal {
    ghost from_gives = { λ cause fault. fault ≡ of_schedule cause };

    fn from(fault: ScheduleFault) -> Refusal {
        match fault {
            ScheduleFault::OutOfMemory => Refusal::OutOfMemory,
            ScheduleFault::Word(number) => Refusal::BadSchedule(number),
        }
    }
}

impl From<BadName> for Refusal {
    ghost from_gives = { λ cause fault. fault ≡ of_name cause };

    fn from(fault: BadName) -> Refusal {
        let BadName = fault;
        Refusal::BadWords
    }
}
