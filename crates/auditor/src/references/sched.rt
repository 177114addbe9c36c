//! A scheduler, once more.

ghost use Rattle.std.specs.{Prelude.{◌≡◌, ◌≤◌, ◌+◌, ◌++◌, IfOk, [], map, replicate, length}, List.All, VecDeque.{deque_len, deque_capacity}};
ghost use Rattle.wake_list.specs.Answer.{ready_answer, next_answer, sleep_answer, wake_answer, wake_all_answer};

use crate::ReferenceObject;
use event_log::OutOfMemory;
use std::alloc::{AllocError, Global};
use std::collections::VecDeque;
use std::marker::Model;
use wake_list::{Sched, SchedCall, SchedParams, SchedReply};

/// The ready threads and the sleepers of each channel, in each list the first in front, and a table that says of each
/// thread whether it is in one of them.
#[derive(Drop)]
pub struct ReferenceSched {
    ready: VecDeque<u32>,
    channels: Vec<VecDeque<u32>>,
    is_held: Vec<bool>,
}

impl Model for ReferenceSched {
    ghost use Rattle.std.specs.{Prelude.{◌<◌, ◌≤◌, ◌^◌, ◌++◌, map, length}, List.{All, concat}, VecDeque.deque_capacity};
    ghost use Rattle.wake_list.specs.State.{SchedState};
    ghost use Rattle.auditor.specs.Marks.{AreMarked};

    ghost Value = { SchedState };

    ghost view = { λ s. record { threads = length s.is_held.items; ready = s.ready.items; channels = map (λ q. q.items) s.channels.items } };

    ghost invariant = { λ s. AreMarked s.is_held.items (s.ready.items ++ concat (map (λ q. q.items) s.channels.items)) ×
        (length s.is_held.items ≤ deque_capacity s.ready) × All (λ q. length s.is_held.items ≤ deque_capacity q) s.channels.items ×
        (length s.is_held.items < 2 ^ 32) };
}

impl ReferenceSched {
    fn ready(&mut self, thread: u32) -> SchedReply
        ensures { (self.new, result) ≡ ready_answer self.old thread }
    {
        let place = thread as usize;
        if place >= self.is_held.len() {
            return SchedReply::BadThread;
        }
        if self.is_held[place] {
            return SchedReply::Already;
        }
        self.is_held[place] = true;
        self.ready.push_back_reserved(thread);
        SchedReply::Ok
    }

    fn next(&mut self) -> SchedReply
        ensures { (self.new, result) ≡ next_answer self.old }
    {
        match self.ready.pop_front() {
            Some(thread) => {
                self.is_held[thread as usize] = false;
                SchedReply::Thread(thread)
            }
            None => SchedReply::Empty,
        }
    }

    fn sleep(&mut self, channel: u32, thread: u32) -> SchedReply
        ensures { (self.new, result) ≡ sleep_answer self.old channel thread }
    {
        let place = channel as usize;
        if place >= self.channels.len() {
            return SchedReply::BadChannel;
        }
        if thread as usize >= self.is_held.len() {
            return SchedReply::BadThread;
        }
        if self.is_held[thread as usize] {
            return SchedReply::Already;
        }
        self.is_held[thread as usize] = true;
        self.channels[place].push_back_reserved(thread);
        SchedReply::Ok
    }

    fn wake(&mut self, channel: u32) -> SchedReply
        ensures { (self.new, result) ≡ wake_answer self.old channel }
    {
        let place = channel as usize;
        if place >= self.channels.len() {
            return SchedReply::BadChannel;
        }
        match self.channels[place].pop_front() {
            Some(first) => {
                self.ready.push_back_reserved(first);
                SchedReply::Thread(first)
            }
            None => SchedReply::Empty,
        }
    }

    fn wake_all(&mut self, channel: u32) -> SchedReply
        ensures { (self.new, result) ≡ wake_all_answer self.old channel }
    {
        let place = channel as usize;
        if place >= self.channels.len() {
            return SchedReply::BadChannel;
        }
        let count = move_all(&mut self.channels[place], &mut self.ready);
        SchedReply::Count(count as u32)
    }
}

/// Moves all numbers to the end of the other list, which has room for them, and counts them.
fn move_all(from: &mut VecDeque<u32>, to: &mut VecDeque<u32>) -> usize
    requires { deque_len to.old + deque_len from.old ≤ deque_capacity to.old }
    ensures count { result ≡ length from.old.items }
    ensures moved { to.new.items ≡ to.old.items ++ from.old.items }
    ensures emptied { from.new.items ≡ [] }
    ensures room_to { deque_capacity to.old ≤ deque_capacity to.new }
    ensures room_from { deque_capacity from.new ≡ deque_capacity from.old }
{
    let count = from.len();
    let _ = to.append(from);
    count
}

/// Empty lists, each with that room.
fn empty_lists(alloc: Global, count: u32, room: usize) -> Result<Vec<VecDeque<u32>>, AllocError>
    ensures lists { IfOk result (λ v. map (λ q. q.items) v.items ≡ replicate count []) }
    ensures room { IfOk result (λ v. All (λ q. room ≤ deque_capacity q) v.items) }
{
    let mut lists = Vec::with_capacity(alloc, count as usize)?;
    for _ in 0..count {
        lists.push_reserved(VecDeque::with_capacity(alloc, room)?);
    }
    Ok(lists)
}

impl ReferenceSched {
    ghost use Rattle.wake_list.specs.State.{opening_state};

    /// A scheduler of that many threads and channels, which holds none of them, with all its room.
    fn empty(alloc: Global, count: u32, channel_count: u32) -> Result<ReferenceSched, AllocError>
        ensures { IfOk result (λ s. s ≡ opening_state record { threads = count; channels = channel_count }) }
    {
        let threads = count as usize;
        let ready = VecDeque::with_capacity(alloc, threads)?;
        let channels = empty_lists(alloc, channel_count, threads)?;
        let is_held = vec![in alloc; false; threads]?;
        Ok(ReferenceSched {
            ready,
            channels,
            is_held,
        })
    }
}

impl ReferenceObject<Sched> for ReferenceSched {
    ghost shows = { λ s. s };

    fn open(alloc: Global, params: &SchedParams) -> Result<ReferenceSched, OutOfMemory> {
        Ok(ReferenceSched::empty(alloc, params.threads, params.channels)?)
    }

    fn apply(&mut self, call: &SchedCall) -> SchedReply {
        match *call {
            SchedCall::Ready(thread) => self.ready(thread),
            SchedCall::Next => self.next(),
            SchedCall::Sleep { channel, thread } => self.sleep(channel, thread),
            SchedCall::Wake(channel) => self.wake(channel),
            SchedCall::WakeAll(channel) => self.wake_all(channel),
        }
    }
}
