//! Which steps are right.

ghost use Rattle.std.specs.Prelude.{◌≡◌, ◌↔◌, IsTrue};

use crate::ReferenceObject;
use event_log::{SeqObject, Step};

/// Says of the steps of one log, one after another, whether each is right.
pub trait StepJudge<O: SeqObject>: Drop {
    ghost use Rattle.event_log.specs.declared.event.Step.{Step};

    /// The states in which steps are judged.
    type State;

    /// The state that was reached.
    ghost shows: { Self → Self.State };

    /// Whether a step is right in a state.
    ghost right: { Self.State → Step O O.Params O.Call O.Reply → Type 0 };

    /// The state behind a step that is.
    ghost behind: { Self.State → Step O O.Params O.Call O.Reply → Self.State };

    /// Whether the next step is right. It takes no memory.
    fn is_right(&mut self, step: &Step<O>) -> bool
        ensures exact { IsTrue result ↔ right (shows self.old) step.now }
        ensures next { IsTrue result → shows self.new ≡ behind (shows self.old) step.now };
}

/// Answers each call again: a step is right if its reply is the answer.
#[derive(Drop)]
pub struct Replayed<J> {
    pub object: J,
}

impl<O: SeqObject, J: ReferenceObject<O>> StepJudge<O> for Replayed<J> {
    ghost use Rattle.auditor.specs.StepModels.{IsAnswer, state_behind};

    type State = O;

    ghost shows = { λ r. J.shows r.object };

    ghost right = { IsAnswer O.SeqObject };

    ghost behind = { state_behind O.SeqObject };

    fn is_right(&mut self, step: &Step<O>) -> bool {
        self.object.apply(&step.call) == step.reply
    }
}

/// Counts down: so many steps more are right.
#[derive(Drop)]
pub struct Counted {
    pub left: u64,
}

impl<O: SeqObject> StepJudge<O> for Counted {
    ghost use Rattle.auditor.specs.StepModels.{IsCounted, one_less};

    type State = u64;

    ghost shows = { λ c. c.left };

    ghost right = { IsCounted };

    ghost behind = { one_less };

    fn is_right(&mut self, step: &Step<O>) -> bool {
        let _ = step;
        if self.left == 0 {
            return false;
        }
        self.left -= 1;
        true
    }
}
