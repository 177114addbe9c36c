//! What a cell receives when it is made.

ghost use Rattle.std.specs.Prelude.{◌≡◌};
ghost use Rattle.event_log.specs.History.{IsKept};
ghost use Rattle.word_rule.specs.Cell.{cell_of};

use event_log::{Logged, SeqObject};
use sound_run::LockKind;
use std::marker::Model;
use std::snapshot::Snapshot;

/// The constants of a cell, for contracts: which lock it has and its first ticket, what the object was opened with, its limit,
/// its opening log and the number of CPUs. It carries no log of its own.
#[derive(Drop)]
pub struct Key<O: SeqObject> {
    kind: LockKind,
    first: u32,
    cpus: u8,
    opened: Snapshot<Logged<O>>,
}

impl<O: SeqObject> Model for Key<O> {
    ghost use Rattle.word_rule.specs.Cell.{Cell, cell_of};

    ghost Value = { Cell O O.Params O.Call O.Reply };

    ghost view = { λ k. cell_of k.kind k.first k.cpus k.opened.value };
}

impl<O: SeqObject> Key<O> {
    /// The constants of a cell behind such a lock, with this first ticket, that is made of this object for so many CPUs.
    pub fn of(kind: LockKind, first: u32, cpus: u8, logged: &Logged<O>) -> Key<O>
        ensures value { result ≡ cell_of kind first cpus logged.now }
        ensures kept { IsKept O.SeqObject logged.now }
    {
        let _ = logged.log();
        Key {
            kind,
            first,
            cpus,
            opened: Snapshot::of(logged),
        }
    }
}
