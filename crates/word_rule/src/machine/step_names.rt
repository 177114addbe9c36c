//! What steps are called, in the words of docs/LOCKS.md.

ghost use Rattle.std.specs.Prelude.{◌≡◌};
ghost use Rattle.word_rule.specs.StepNames.{name_of, outcome_of};

use crate::machine::step_done::StepDone;

impl StepDone {
    /// The step's name.
    pub fn name(self) -> &'static str
        ensures { result.now ≡ name_of self }
    {
        match self {
            StepDone::Idle => "idle",
            StepDone::Draw => "draw",
            StepDone::Look(_) => "look",
            StepDone::Serve => "serve",
            StepDone::Clear => "clear",
            StepDone::Enter(_) => "enter",
            StepDone::Arm => "arm",
            StepDone::Link => "link",
            StepDone::See(_) => "see",
            StepDone::Empty(_) => "empty",
            StepDone::Pass => "pass",
        }
    }

    /// What came of it, if it can come out in two ways; else nothing.
    pub fn outcome(self) -> &'static str
        ensures { result.now ≡ outcome_of self }
    {
        match self {
            StepDone::Look(true) | StepDone::Enter(true) => "got the object",
            StepDone::Look(false) => "in vain",
            StepDone::Enter(false) => "behind another",
            StepDone::See(true) => "a follower",
            StepDone::See(false) => "nobody",
            StepDone::Empty(true) => "the lock is free",
            StepDone::Empty(false) => "another has entered",
            _ => "",
        }
    }
}
