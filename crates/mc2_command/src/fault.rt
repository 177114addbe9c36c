//! Why the program didn't do what its words ask for.

ghost use Rattle.std.specs.Prelude.{◌≡◌};
ghost use Rattle.mc2_command.specs.Faults.{of_refusal, of_run, status_of};

use cpu_worker::RunFault;
use program::Refusal;
use thiserror::Error;

/// A refusal, which is printed as one line.
#[derive(Debug, Drop, Error)]
pub enum CommandFault {
    #[error("mc2: {0}")]
    Common(Refusal),
    #[error("mc2: E5 no thread started for cpu {0}")]
    NoThreadStarted(u8),
    #[error("mc2: E10 unsound: {0}")]
    Unsound(String),
    #[error("mc2: E11 cycle: {0}")]
    Cycle(String),
}

impl CommandFault {
    /// The status that the program ends with.
    pub fn status(&self) -> u8
        ensures { result ≡ status_of self.now }
    {
        match self {
            CommandFault::Common(refusal) => refusal.status(),
            CommandFault::NoThreadStarted(_) => 3,
            CommandFault::Unsound(_) | CommandFault::Cycle(_) => 1,
        }
    }
}

impl From<RunFault> for CommandFault {
    ghost from_gives = { λ cause fault. fault ≡ of_run cause };

    fn from(fault: RunFault) -> CommandFault {
        match fault {
            RunFault::OutOfMemory => CommandFault::Common(Refusal::OutOfMemory),
            RunFault::NoThreadStarted(cpu) => CommandFault::NoThreadStarted(cpu),
        }
    }
}

impl From<Refusal> for CommandFault {
    ghost from_gives = { λ cause fault. fault ≡ of_refusal cause };

    fn from(refusal: Refusal) -> CommandFault {
        CommandFault::Common(refusal)
    }
}
