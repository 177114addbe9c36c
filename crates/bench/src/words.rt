//! The program's words, and how much is called in a round.

ghost use Rattle.std.specs.Prelude.{◌≡◌, ◌<◌, ◌≤◌, IfOk, sum};
ghost use Rattle.sound_run.specs.declared.limits.TheConstants.{MOST_CPUS};

use crate::BenchFault;
use event_log::{Logged, MOST_EVENTS};
use shared_queue::{MOST_THREADS, ThreadQueue};
use sound_run::{LockKind, MOST_CPUS};
use std::alloc::{AllocError, Global};
use std::rt::Env;
use std::{env, io};

/// What may guard the queue.
#[derive(Clone, Copy, Drop)]
pub enum Kind {
    Ticket,
    Mcs,
    Any(LockKind),
    Mutex,
}

const KINDS: [(&str, Kind); 5] = [
    ("ticket", Kind::Ticket),
    ("mcs", Kind::Mcs),
    ("any-ticket", Kind::Any(LockKind::Ticket)),
    ("any-mcs", Kind::Any(LockKind::Mcs)),
    ("mutex", Kind::Mutex),
];

/// What the words ask for: the kinds with their names, and the rounds of each.
#[derive(Drop)]
pub struct Settings {
    pub kinds: Vec<(&'static str, Kind)>,
    pub load: Load,
    pub rounds: u32,
}

/// The words after the program's name.
fn words_given<E: Env>(env: &E, alloc: Global) -> Result<Vec<String>, BenchFault> {
    match env::args(&(env, alloc)) {
        Ok(all) => Ok(all.skip(1).collect(alloc)?),
        Err(error) if error.kind() == io::ErrorKind::OutOfMemory => Err(BenchFault::from(
            AllocError,
        )),
        Err(_) => Err(BenchFault::WrongWords),
    }
}

/// The kind of that name.
fn kind_named(name: &str) -> Result<(&'static str, Kind), BenchFault> {
    let found = KINDS.iter().find(|(word, _)| *word == name);
    found.copied().ok_or(BenchFault::WrongWords)
}

fn read_number(word: &String) -> Result<u32, BenchFault> {
    word.as_str().parse().map_err(|_| BenchFault::WrongWords)
}

/// Reads the words after the program's name.
pub fn read<E: Env>(env: &E, alloc: Global) -> Result<Settings, BenchFault> {
    let given = words_given(env, alloc)?;
    let (words, is_kept) = match given.as_slice() {
        [first @ .., last] if last.as_str() == "unkept" => (first, false),
        words => (words, true),
    };
    let (words, form) = match words {
        [first @ .., last] if last.as_str() == "batch" => (first, Grouping::Batch),
        [first @ .., last] if last.as_str() == "hold" => (first, Grouping::Hold),
        _ => (words, Grouping::Each),
    };
    let [names, cpus, calls, rounds] = words else {
        return Err(BenchFault::WrongWords);
    };
    let kinds = names.as_str().split(',').map(|name| kind_named(name));
    let load = Load::new(read_number(cpus)?, read_number(calls)?, form, is_kept);
    match (load, read_number(rounds)?) {
        (None, _) | (_, 0) => Err(BenchFault::WrongWords),
        (Some(load), rounds) => Ok(Settings {
            kinds: kinds.try_collect(alloc)?,
            load,
            rounds,
        }),
    }
}

/// The most calls of a round. An event takes 144 bytes of a log.
const MOST_ROUND_CALLS: u32 = 128 * MOST_EVENTS;

/// How many calls are made together, by one acquire and one release.
const TOGETHER: u32 = 8;

/// The forms in which calls are made.
#[derive(Clone, Copy, PartialEq, Eq, Drop)]
pub enum Grouping {
    /// Each call by itself.
    Each,
    /// Eight calls as one event.
    Batch,
    /// Eight groups of one call under one hold, an event for each.
    Hold,
}

/// How many CPUs call, how many calls each makes in a round and in which form, and whether the events are in memory.
#[derive(Drop)]
pub struct Load {
    pub cpus: u8,
    pub calls: u32,
    pub form: Grouping,
    is_kept: bool,
    ghost some: { 0 < cpus },
    ghost few: { cpus ≤ MOST_CPUS },
}

impl Load {
    /// From 1 CPU to the most of a cell, and from 1 call to the most of a round, as many as fit the form.
    pub fn new(cpus: u32, calls: u32, form: Grouping, is_kept: bool) -> Option<Load> {
        let cpus = u8::try_from(cpus).ok()?;
        if cpus == 0 || cpus > MOST_CPUS || form != Grouping::Each && calls % TOGETHER > 0 {
            return None;
        }
        if calls == 0 || calls > MOST_ROUND_CALLS / u32::from(cpus) {
            return None;
        }
        Some(Load {
            cpus,
            calls,
            form,
            is_kept,
        })
    }

    /// The calls of each CPU on one queue after another, in whole eights: as many as a kept log has room for, each as an event.
    pub fn shares(&self, alloc: Global) -> Result<Vec<u32>, BenchFault>
        ensures { IfOk result (λ s. sum s.items ≡ self.now.calls) }
    {
        let room = if self.is_kept {
            MOST_EVENTS
        } else {
            MOST_ROUND_CALLS
        };
        let most = room / u32::from(self.cpus) / TOGETHER * TOGETHER;
        let mut shares = vec![in alloc; most; (self.calls / most) as usize]?;
        let rest = self.calls % most;
        if rest > 0 {
            shares.push(rest)?;
        }
        Ok(shares)
    }

    /// How often something is called for so many calls: each by itself, or eight together.
    pub fn turns(&self, calls: u32) -> u32 {
        match self.form {
            Grouping::Each => calls,
            Grouping::Batch | Grouping::Hold => calls / TOGETHER,
        }
    }

    /// A queue of 1,024 threads. A log that is kept has room for just the events of this share of each CPU.
    pub fn open_queue(&self, alloc: Global, share: u32) -> Result<Logged<ThreadQueue>, BenchFault> {
        let calls = share.saturating_mul(u32::from(self.cpus));
        let opened = match (self.is_kept, self.form) {
            (false, _) => Logged::<ThreadQueue>::open_unkept(alloc, MOST_THREADS),
            (_, Grouping::Batch) => Logged::<ThreadQueue>::open(
                alloc,
                MOST_THREADS,
                calls / TOGETHER,
            ),
            (_, _) => Logged::<ThreadQueue>::open(alloc, MOST_THREADS, calls),
        };
        opened.map_err(|_| BenchFault::from(AllocError))
    }
}
