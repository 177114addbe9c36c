//! What is counted of an object's entries.

ghost use Rattle.std.specs.Prelude.{◌≡◌, ◌<◌, ◌+◌, ◌^◌, [], ◌∷◌, length};
ghost use Rattle.cpu_worker.specs.Report.{all_entries, entries_on, joined, sums_of};

use event_log::{Done, Entry, Series};
use scripts::KernelObject;

/// How many entries there are, how many of them had no room, the sum of their looks, and their greatest looks.
#[derive(Clone, Copy, Default)]
pub(crate) struct Sums {
    pub(crate) entries: u64,
    pub(crate) noroom: u64,
    /// Counted to 2^64 - 1, where the sum stays.
    pub(crate) looks: u64,
    pub(crate) most: u64,
}

impl Sums {
    /// The sums of all entries on the object at that place, from 0.
    pub(crate) fn of(place: usize, transcripts: &[Series<Entry<KernelObject>>]) -> Sums
        requires { length (all_entries transcripts.now) < 2 ^ 64 }
        ensures { result ≡ sums_of (entries_on place (all_entries transcripts.now)) }
    {
        let mut sums = Sums::default();
        for transcript in transcripts {
            sums.add_on(place, transcript.as_slice());
        }
        sums
    }

    /// Adds the entries on the object at that place.
    fn add_on(&mut self, place: usize, entries: &[Entry<KernelObject>])
        requires entries { self.old.entries + length entries.now < 2 ^ 64 }
        requires noroom { self.old.noroom + length entries.now < 2 ^ 64 }
        ensures { self.new ≡ joined self.old (sums_of (entries_on place entries.now)) }
    {
        for entry in entries {
            if entry.object as usize == place {
                self.add(entry);
            }
        }
    }

    /// Adds an entry.
    fn add(&mut self, entry: &Entry<KernelObject>)
        requires entries { self.old.entries + 1 < 2 ^ 64 }
        requires noroom { self.old.noroom + 1 < 2 ^ 64 }
        ensures { self.new ≡ joined self.old (sums_of (entry.now ∷ [])) }
    {
        self.entries += 1;
        if matches!(entry.done, Done::NoRoom) {
            self.noroom += 1;
        }
        self.looks = self.looks.saturating_add(entry.looks);
        self.most = self.most.max(entry.looks);
    }
}
