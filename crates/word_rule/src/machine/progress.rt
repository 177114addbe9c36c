//! How far a CPU is in its script.

ghost use Rattle.std.specs.Prelude.{◌≡◌, ◌+◌, ◌-◌, ◌^◌, ◌<◌, ◌≤◌, ◌++◌, ◌∷◌, [], min, length, vec_len, vec_capacity, IfOk};
ghost use Rattle.word_rule.specs.Machine.World.{entry_of};

use arrayvec::ArrayVec;
use event_log::{Done, Entry, MOST_CALLS, OutOfMemory, SeqObject, Todo};
use std::alloc::Global;

/// How many of its entries a CPU has done, what became of them, and how often it has looked for the one at hand.
#[derive(Drop)]
pub struct Progress<O: SeqObject> {
    pub at: usize,
    pub transcript: Vec<Entry<O>>,
    pub looks: u64,
}

impl<O: SeqObject> Progress<O> {
    /// Nothing done yet, with room for so many entries.
    pub fn new(alloc: Global, entries: usize) -> Result<Progress<O>, OutOfMemory>
        ensures { IfOk result (λ p. (p.at ≡ 0) × (p.transcript.items ≡ []) × (p.looks ≡ 0) × (entries ≤ vec_capacity p.transcript)) }
    {
        let transcript = Vec::with_capacity(alloc, entries)?;
        Ok(Progress {
            at: 0,
            transcript,
            looks: 0,
        })
    }

    /// The entry at hand is done.
    pub fn finish(&mut self, todo: &Todo<O>, done: Done<O>)
        requires few { length todo.now.calls.items ≤ MOST_CALLS }
        requires room { vec_len self.old.transcript < vec_capacity self.old.transcript }
        requires more { self.old.at + 1 < 2 ^ 64 }
        ensures at { self.new.at ≡ self.old.at + 1 }
        ensures transcript { self.new.transcript.items ≡ self.old.transcript.items ++ entry_of todo.now done self.old.looks ∷ [] }
        ensures looks { self.new.looks ≡ 0 }
        ensures room { vec_capacity self.new.transcript ≡ vec_capacity self.old.transcript }
    {
        let Ok(asked) = ArrayVec::try_from(todo.calls.as_slice()) else {
            unreachable!()
        };
        self.transcript.push_reserved(Entry {
            object: todo.object,
            asked,
            done,
            looks: self.looks,
        });
        self.at += 1;
        self.looks = 0;
    }

    /// It looked once more.
    pub fn look(&mut self)
        ensures at { self.new.at ≡ self.old.at }
        ensures transcript { self.new.transcript ≡ self.old.transcript }
        ensures looks { self.new.looks ≡ min (self.old.looks + 1) (2 ^ 64 - 1) }
    {
        self.looks = self.looks.saturating_add(1);
    }
}
