//! The shape of a run.

ghost use Rattle.std.specs.Prelude.{◌≡◌, length, option_map, slice_get};
ghost use Rattle.event_log.specs.declared.entry.Run.{Run};
ghost use Rattle.log_merge.specs.Shapes.{shape_of};
ghost use Rattle.sound_run.specs.Sound.{transcript_of, log_of};

use event_log::{Done, Entry, SeqObject};

/// The shape of an entry.
#[derive(Clone, Copy, Debug, PartialEq, Eq, Drop)]
pub struct EntryShape {
    pub object: u8,
    /// Whether it was done. Else it found no room.
    pub is_done: bool,
}

impl EntryShape {
    /// The entry's shape.
    #[inline(always)]
    pub fn of<O: SeqObject>(entry: &Entry<O>) -> EntryShape
        ensures { result ≡ shape_of entry.now }
    {
        EntryShape {
            object: entry.object,
            is_done: matches!(&entry.done, Done::Steps(_)),
        }
    }
}

/// The shape of a run, which is all that merging looks at: of each entry its object and whether it was done, and of each event
/// its CPU.
pub trait RunShape<O: SeqObject> {
    /// The run that has this shape.
    ghost run: { Self → Run O O.Params O.Call O.Reply };

    /// How many CPUs the run has.
    fn cpus(&self) -> usize
        ensures { result ≡ length (run self.now).transcripts };

    /// How many objects it has.
    fn objects(&self) -> usize
        ensures { result ≡ length (run self.now).logs };

    /// The shape of the entry at that index of the CPU's transcript, if there is one.
    fn entry(&self, cpu: usize, index: usize) -> Option<EntryShape>
        ensures { result ≡ option_map shape_of (slice_get (transcript_of cpu (run self.now)) index) };

    /// The CPU of the event at that index of the object's log, if there is one.
    fn event_cpu(&self, object: usize, index: usize) -> Option<usize>
        ensures { result ≡ option_map (λ e. e.cpu) (slice_get (log_of object (run self.now)) index) };
}
