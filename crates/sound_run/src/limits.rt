//! How many CPUs and cells there may be.

/// The most CPUs of one cell.
pub const MOST_CPUS: u8 = 64;

/// The most cells of one machine.
pub const MOST_CELLS: u8 = 16;
