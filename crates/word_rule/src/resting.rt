//! How callers of a cell rest while they wait for their turn.

use crossbeam_utils::Backoff;
use sound_run::MOST_CPUS;
use std::sync::Wait;
use std::sync::atomic::{AtomicU64, Ordering};
use std::time::Duration;

// From this look in vain on a caller in line naps between two looks.
const LONG_WAIT: u64 = 120;

// After so many looks a caller that is awake looks often again.
const ROUND: u64 = 6;

// How long a nap in line is, in microseconds.
const NAP: u64 = 100;

// How long one stays outside alone, and how much longer for each other one outside, in microseconds.
const STAY: u64 = 1000;

const STAY_LONGER: u64 = 250;

// One that stays outside, in the word that counts the callers that nap in line too.
const OUTSIDE: u64 = 1 << 32;

/// Counts the callers that rest, beside the lock's words. It takes no memory, and no clause speaks of it.
///
/// Nobody is woken, so a release does nothing here: each sleep ends by itself. A line in order of arrival gets on only as fast as
/// each in it gets a processor. So there shouldn't be more in line than there are processors, and a nap in line shows that there
/// are. A caller that comes meanwhile stays outside for one sleep before it arrives in line, and then arrives in any case.
#[derive(Drop)]
pub struct Resting {
    count: AtomicU64,
    // It is 0 at all times: a caller that rests parks on it.
    still: AtomicU64,
}

impl Resting {
    /// Nobody rests.
    pub fn new() -> Resting {
        Resting {
            count: AtomicU64::new(0),
            still: AtomicU64::new(0),
        }
    }

    /// What a caller does before it arrives in line: while somebody naps there, it stays outside for one sleep.
    #[inline]
    pub fn stay_outside<R: Wait>(&self, rt: &R) {
        if self.count.load(Ordering::SeqCst) % OUTSIDE != 0 {
            self.sleep_outside(rt);
        }
    }

    // The more are outside, the longer each sleeps.
    #[inline(never)]
    fn sleep_outside<R: Wait>(&self, rt: &R) {
        let others = self.count.fetch_add(OUTSIDE, Ordering::SeqCst) / OUTSIDE;
        let time = STAY + STAY_LONGER * others.min(MOST_CPUS as u64);
        self.still.park_timeout(rt, 0, Duration::from_micros(time));
        self.count.fetch_sub(OUTSIDE, Ordering::SeqCst);
    }

    /// What a caller in line does after so many looks in vain: it pauses, or naps.
    #[inline(never)]
    pub fn rest<R: Wait>(&self, rt: &R, backoff: &Backoff, looks: u64) {
        if looks < LONG_WAIT {
            pause(backoff, looks);
            return;
        }
        if looks == LONG_WAIT {
            self.count.fetch_add(1, Ordering::SeqCst);
        }
        self.still.park_timeout(rt, 0, Duration::from_micros(NAP));
    }

    /// What a caller in line does when its turn has come, by the look of this number.
    #[inline]
    pub fn rise(&self, looks: u64) {
        if looks > LONG_WAIT {
            self.count.fetch_sub(1, Ordering::SeqCst);
        }
    }
}

// Pauses for longer from look to look of a round.
fn pause(backoff: &Backoff, looks: u64) {
    if looks % ROUND == 0 {
        backoff.reset();
    }
    backoff.spin();
}
