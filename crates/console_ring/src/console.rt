//! The console over a plain list.

ghost use Rattle.std.specs.Prelude.{◌≡◌, length};
ghost use Rattle.console_ring.specs.Answer.{put_answer, get_answer};

use crate::{ConsoleCall, ConsoleReply};
use event_log::{OpenFault, SeqObject};
use std::alloc::Global;
use std::marker::Model;

/// The most bytes that a console can be opened for.
pub const MOST_BYTES: u32 = 4096;

/// A ring of at most `capacity` bytes, the oldest first. Its room is taken when it is opened.
#[derive(Drop)]
pub struct Console {
    capacity: u32,
    bytes: Vec<u8>,
}

impl Model for Console {
    ghost use Rattle.std.specs.{Prelude.{◌<◌, ◌≤◌, length}, Vec.vec_capacity};
    ghost use Rattle.console_ring.specs.State.{ConsoleState};

    ghost Value = { ConsoleState };

    ghost view = { λ c. record { capacity = c.capacity; bytes = c.bytes.items } };

    ghost invariant = { λ c. (length c.bytes.items ≤ c.capacity) × (0 < c.capacity) × (c.capacity ≤ vec_capacity c.bytes) × (c.capacity ≤ 4096) };
}

impl Console {
    fn put(&mut self, byte: u8) -> ConsoleReply
        ensures { (self.new, result) ≡ put_answer self.old byte }
    {
        if self.bytes.len() < self.capacity as usize {
            self.bytes.push_reserved(byte);
            return ConsoleReply::Ok;
        }
        let first = self.bytes.remove(0);
        self.bytes.push_reserved(byte);
        ConsoleReply::Dropped(first)
    }

    fn get(&mut self) -> ConsoleReply
        ensures { (self.new, result) ≡ get_answer self.old }
    {
        if self.bytes.is_empty() {
            return ConsoleReply::Empty;
        }
        ConsoleReply::Byte(self.bytes.remove(0))
    }

    fn count(&self) -> u32
        ensures { result ≡ length self.now.bytes }
    {
        self.bytes.len() as u32
    }
}

impl SeqObject for Console {
    ghost use Rattle.console_ring.specs.{State.{is_in_range, opening_state}, Answer.{console_answer, is_refusing}};
    ghost use Rattle.std.proofs.Common.{lit<, rules};

    type Params = u32;

    type Call = ConsoleCall;

    type Reply = ConsoleReply;

    ghost in_range = { is_in_range };

    ghost opening = { opening_state };

    ghost answer = { console_answer };

    ghost refusing = { is_refusing };

    ghost stays = { Prim.search rules };

    ghost call_equality = { Prim.search rules };

    ghost reply_equality = { Prim.search rules };

    ghost call_fits = { lit< tt };

    ghost todo_fits = { lit< tt };

    ghost steps_fit = { lit< tt };

    ghost event_fits = { lit< tt };

    ghost entry_fits = { lit< tt };

    fn open(alloc: Global, params: &u32) -> Result<Console, OpenFault> {
        let capacity = *params;
        if capacity == 0 || capacity > MOST_BYTES {
            return Err(OpenFault::BadLimit);
        }
        let bytes = Vec::with_capacity(alloc, capacity as usize)?;
        Ok(Console { capacity, bytes })
    }

    #[inline]
    fn apply(&mut self, call: &ConsoleCall) -> ConsoleReply {
        match *call {
            ConsoleCall::Put(byte) => self.put(byte),
            ConsoleCall::Get => self.get(),
            ConsoleCall::Level => ConsoleReply::Count(self.count()),
        }
    }

    fn refuses(reply: &ConsoleReply) -> bool {
        match *reply {
            ConsoleReply::Empty => true,
            ConsoleReply::Ok
            | ConsoleReply::Dropped(_)
            | ConsoleReply::Byte(_)
            | ConsoleReply::Count(_) => false,
        }
    }
}
