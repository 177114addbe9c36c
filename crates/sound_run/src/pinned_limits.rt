//! The limits of a run are the numbers that `specs/Limits.antt` has.

ghost use Rattle.std.specs.Prelude.{◌≡◌};
ghost use Rattle.sound_run.specs.Limits.{most_cpus, most_cells};

use crate::{MOST_CELLS, MOST_CPUS};

/// The constants are these numbers. It does nothing.
pub fn shows_limits()
    ensures cpus { MOST_CPUS ≡ most_cpus }
    ensures cells { MOST_CELLS ≡ most_cells }
{}
