//! The counter.

use crate::{CounterCall, CounterReply};
use event_log::{OpenFault, SeqObject};
use std::alloc::Global;
use std::marker::Model;

/// The most that a counter can be opened for.
pub const MOST_COUNT: u32 = 1000;

/// Counts from 0 up to `most`.
#[derive(Drop)]
pub struct BoundedCounter {
    most: u32,
    value: u32,
}

impl Model for BoundedCounter {
    ghost use Rattle.std.specs.Prelude.{◌≤◌};
    ghost use Rattle.counter.specs.State.{CounterState};

    ghost Value = { CounterState };

    ghost view = { λ c. record { most = c.most; value = c.value } };

    ghost invariant = { λ c. c.value ≤ c.most };
}

impl BoundedCounter {
    ghost use Rattle.std.specs.Prelude.{◌≡◌};

    /// How many it has counted.
    pub fn value(&self) -> u32
        ensures { result ≡ self.now.value }
    {
        self.value
    }
}

impl SeqObject for BoundedCounter {
    ghost use Rattle.counter.specs.{State.{is_in_range, opening_state}, Answer.{counter_answer, is_refusing}};
    ghost use Rattle.std.proofs.Common.{lit<, rules};

    type Params = u32;

    type Call = CounterCall;

    type Reply = CounterReply;

    ghost in_range = { is_in_range };

    ghost opening = { opening_state };

    ghost answer = { counter_answer };

    ghost refusing = { is_refusing };

    ghost stays = { Prim.search rules };

    ghost call_equality = { Prim.search rules };

    ghost reply_equality = { Prim.search rules };

    ghost call_fits = { lit< tt };

    ghost todo_fits = { lit< tt };

    ghost steps_fit = { lit< tt };

    ghost event_fits = { lit< tt };

    ghost entry_fits = { lit< tt };

    fn open(_alloc: Global, params: &u32) -> Result<BoundedCounter, OpenFault> {
        let most = *params;
        if most == 0 || most > MOST_COUNT {
            return Err(OpenFault::BadLimit);
        }
        Ok(BoundedCounter { most, value: 0 })
    }

    fn apply(&mut self, call: &CounterCall) -> CounterReply {
        match *call {
            CounterCall::Increase if self.value < self.most => {
                self.value += 1;
                CounterReply::Ok
            }
            CounterCall::Increase => CounterReply::Full,
            CounterCall::Read => CounterReply::Value(self.value),
        }
    }

    fn refuses(reply: &CounterReply) -> bool {
        matches!(*reply, CounterReply::Full)
    }
}
