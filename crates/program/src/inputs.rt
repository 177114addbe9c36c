//! Inputs: files, and standard input.

use event_log::{Source, StreamFailed};

/// The files and the standard input that a command may read.
pub trait Inputs {
    ghost use Rattle.std.specs.Prelude.{◌≡◌, ℕ, List, Option, Some, None, IfOk};
    ghost use Rattle.event_log.specs.Stream.{counted};
    ghost use Rattle.program.specs.Inputs.{bytes_of, counted_all, is_failed_opening};

    /// It can't be dropped where only this trait is known, so each is closed, and a call on it that failed is counted.
    type Input: Source;

    /// What the file of a name holds, or standard input, where that is known.
    ghost held: { Self → Option (List ℕ) → Option (List ℕ) } = { λ _ _. None };

    /// How many openings have failed, and how many calls on the inputs that were closed, counted to 2^64 - 1.
    ghost failed: { Self → ℕ };

    /// The reader of the file of that name, or of standard input. No call on it has failed.
    fn input(&mut self, name: Option<&str>) -> Result<Self::Input, StreamFailed>
        ensures all { IfOk result (λ input. (all : List ℕ) → held self.old (bytes_of name.entry) ≡ Some all → Self.Input.remaining input ≡ Some all) }
        ensures files { (file : List ℕ) → held self.new (Some file) ≡ held self.old (Some file) }
        ensures standard { (file : List ℕ) → bytes_of name.entry ≡ Some file → held self.new None ≡ held self.old None }
        ensures failures { failed self.new ≡ counted (is_failed_opening result) (failed self.old) }
        ensures none_failed { IfOk result (λ input. Self.Input.failed input ≡ 0) };

    /// Ends the reading of an input, and counts the calls on it that failed.
    fn close(&mut self, input: Self::Input)
        ensures failures { failed self.new ≡ counted_all (Self.Input.failed input) (failed self.old) }
        ensures same { (name : Option (List ℕ)) → held self.new name ≡ held self.old name };
}
