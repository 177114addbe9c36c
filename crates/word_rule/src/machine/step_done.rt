//! What an atomic step was.

ghost use Rattle.std.specs.Prelude.{◌≡◌};
ghost use Rattle.word_rule.specs.StepKinds.{ends_hold, is_look};

/// The atomic step that was done. True means: got the object, found a successor, or emptied the tail.
#[derive(Clone, Copy, Debug, PartialEq, Eq, Drop)]
pub enum StepDone {
    /// The CPU's script is done.
    Idle,
    Draw,
    /// A look at a lock of any kind.
    Look(bool),
    Serve,
    Clear,
    Enter(bool),
    Arm,
    Link,
    See(bool),
    Empty(bool),
    Pass,
}

/// Whether the step ends a hold.
pub fn is_end(step: StepDone) -> bool
    ensures { result ≡ ends_hold step }
{
    match step {
        StepDone::Serve | StepDone::Pass => true,
        StepDone::Empty(emptied) => emptied,
        StepDone::Idle
        | StepDone::Draw
        | StepDone::Look(_)
        | StepDone::Clear
        | StepDone::Enter(_)
        | StepDone::Arm
        | StepDone::Link
        | StepDone::See(_) => false,
    }
}

/// Whether the step is a look.
pub fn is_a_look(step: StepDone) -> bool
    ensures { result ≡ is_look step }
{
    matches!(step, StepDone::Look(_))
}
