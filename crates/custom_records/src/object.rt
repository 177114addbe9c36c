//! An object of which no more is known than what a record says of it.

use crate::Spoken;
use event_log::{OpenFault, SeqObject};
use std::alloc::Global;

/// A reply, and whether it refuses its call.
#[derive(Clone, Copy, Debug, Default, PartialEq, Eq, Drop)]
pub struct CustomReply {
    pub said: Spoken,
    pub refuses: bool,
}

/// An object of its writer's. What it answers isn't known here: as an object it replies with no word, and no clause about records
/// speaks of that.
#[derive(Drop)]
pub struct CustomObject;

impl SeqObject for CustomObject {
    ghost use Rattle.custom_records.specs.{Custom.{custom_in_range, custom_opening, custom_answer, custom_refusing}, Padding.{same_said, same_reply}};
    ghost use Rattle.std.proofs.Common.{lit<, rules};

    type Params = ();

    type Call = Spoken;

    type Reply = CustomReply;

    ghost in_range = { custom_in_range };

    ghost opening = { custom_opening };

    ghost answer = { custom_answer };

    ghost refusing = { custom_refusing };

    ghost stays = { Prim.search rules };

    ghost call_equality = { same_said };

    ghost reply_equality = { λ a b e. same_reply a b (Prim.search rules) };

    ghost call_fits = { lit< tt };

    ghost todo_fits = { lit< tt };

    ghost steps_fit = { lit< tt };

    ghost event_fits = { lit< tt };

    ghost entry_fits = { lit< tt };

    fn open(_alloc: Global, _params: &()) -> Result<CustomObject, OpenFault> {
        Ok(CustomObject)
    }

    fn apply(&mut self, _call: &Spoken) -> CustomReply {
        CustomReply::default()
    }

    fn refuses(reply: &CustomReply) -> bool {
        reply.refuses
    }
}
