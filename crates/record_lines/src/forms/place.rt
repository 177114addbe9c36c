//! Where a reader of a record is.

ghost use Rattle.std.specs.Prelude.{◌≡◌, ◌<◌};
ghost use Rattle.record_lines.specs.FormPlaces.{place_behind_log, place_behind_transcript};

/// Which line can come next.
#[derive(Clone, Copy, Debug, PartialEq, Eq, Drop)]
pub enum Next {
    Head,
    /// The head of a log.
    Log,
    Event,
    /// The head of a transcript.
    Cpu,
    Entry,
    End,
    /// None.
    Done,
}

/// Which line can come next, the head, how many of what is being read its head said, and how many were read.
#[derive(Drop)]
pub struct ReaderPlace<H> {
    pub awaits: Next,
    pub head: H,
    pub count: u64,
    pub log_count: usize,
    pub event_count: u64,
    pub transcript_count: u16,
    pub entry_count: u64,
}

impl<H: Drop> ReaderPlace<H> {
    /// Counts a log that is whole, of so many objects.
    pub fn count_log(&mut self, objects: usize)
        requires { self.old.log_count < objects }
        ensures { self.new ≡ place_behind_log objects self.old }
    {
        self.count = 0;
        self.event_count = 0;
        self.log_count += 1;
        if self.log_count < objects {
            self.awaits = Next::Log;
        } else {
            self.awaits = Next::Cpu;
        }
    }

    /// Counts a transcript that is whole, of so many CPUs.
    pub fn count_transcript(&mut self, cpus: u16)
        requires { self.old.transcript_count < cpus }
        ensures { self.new ≡ place_behind_transcript cpus self.old }
    {
        self.count = 0;
        self.entry_count = 0;
        self.transcript_count += 1;
        if self.transcript_count < cpus {
            self.awaits = Next::Cpu;
        } else {
            self.awaits = Next::End;
        }
    }
}
