//! A console, once more.

ghost use Rattle.std.specs.Prelude.{◌≡◌, length};
ghost use Rattle.console_ring.specs.Answer.{put_answer, get_answer};

use crate::ReferenceObject;
use console_ring::{Console, ConsoleCall, ConsoleReply};
use event_log::OutOfMemory;
use std::alloc::Global;
use std::collections::VecDeque;
use std::marker::Model;

/// The bytes that wait, the oldest in front, and how many there may be.
#[derive(Drop)]
pub struct ReferenceConsole {
    most: usize,
    bytes: VecDeque<u8>,
}

impl Model for ReferenceConsole {
    ghost use Rattle.std.specs.{Prelude.{◌<◌, ◌≤◌, ◌^◌, length}, VecDeque.deque_capacity};
    ghost use Rattle.console_ring.specs.State.{ConsoleState};

    ghost Value = { ConsoleState };

    ghost view = { λ c. record { capacity = c.most; bytes = c.bytes.items } };

    ghost invariant = { λ c. (length c.bytes.items ≤ c.most) × (0 < c.most) × (c.most ≤ deque_capacity c.bytes) × (c.most < 2 ^ 32) };
}

impl ReferenceConsole {
    fn put(&mut self, byte: u8) -> ConsoleReply
        ensures { (self.new, result) ≡ put_answer self.old byte }
    {
        if self.bytes.len() < self.most {
            self.bytes.push_back_reserved(byte);
            return ConsoleReply::Ok;
        }
        let oldest = self.bytes.pop_front();
        self.bytes.push_back_reserved(byte);
        match oldest {
            Some(oldest) => ConsoleReply::Dropped(oldest),
            None => ConsoleReply::Ok,
        }
    }

    fn get(&mut self) -> ConsoleReply
        ensures { (self.new, result) ≡ get_answer self.old }
    {
        match self.bytes.pop_front() {
            Some(oldest) => ConsoleReply::Byte(oldest),
            None => ConsoleReply::Empty,
        }
    }

    fn count(&self) -> u32
        ensures { result ≡ length self.now.bytes }
    {
        self.bytes.len() as u32
    }
}

impl ReferenceObject<Console> for ReferenceConsole {
    ghost shows = { λ c. c };

    fn open(alloc: Global, params: &u32) -> Result<ReferenceConsole, OutOfMemory> {
        let most = *params as usize;
        let bytes = VecDeque::with_capacity(alloc, most)?;
        Ok(ReferenceConsole { most, bytes })
    }

    fn apply(&mut self, call: &ConsoleCall) -> ConsoleReply {
        match *call {
            ConsoleCall::Put(byte) => self.put(byte),
            ConsoleCall::Get => self.get(),
            ConsoleCall::Level => ConsoleReply::Count(self.count()),
        }
    }
}
