//! The limit of one hold is the number that `specs/Limits.antt` has.

ghost use Rattle.std.specs.Prelude.{◌≡◌};
ghost use Rattle.guarded_cell.specs.Limits.{most_groups};

use crate::MOST_GROUPS;

/// The constant is this number. It does nothing.
pub fn shows_limits()
    ensures { MOST_GROUPS ≡ most_groups }
{}
