//! The results that C gets are the numbers of `specs/CodeNumbers.antt`.

ghost use Rattle.cell_callers.specs.CodeNumbers.{AreCodeNumbers};

/// The constants are these numbers. It does nothing.
pub fn shows_codes()
    ensures { AreCodeNumbers }
{}
