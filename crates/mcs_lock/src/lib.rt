//! An object behind an MCS lock: a queue of CPUs over atomic words, in which each waits on a word of its own (the
//! list-based lock of Mellor-Crummey and Scott, "Algorithms for Scalable Synchronization on Shared-Memory
//! Multiprocessors", 1991).
//!
//! For n CPUs word 0 is the tail, word 1 + i the `next` of the CPU i, and word 1 + n + i its `locked`. A caller clears
//! its `next` and swaps itself into the tail. Where somebody was there it sets its `locked`, names itself in the `next`
//! of the one before it, and looks at its `locked` until it is clear. A holder that ends empties the tail, if nobody is
//! behind it, or clears the `locked` of the one behind. The object lies in the table's one slot and moves to the caller
//! that finds the tail empty or its `locked` clear.
#![tactic(auto)]

mod at_once;
mod at_once_rule;
mod caller;
mod cell;
mod keeping;
mod kept;
mod lock;
mod make;
mod polls;
mod rested;
mod rule;
mod states;
mod steps;
mod tries;
mod whole;

pub use caller::McsCaller;
pub use cell::McsCell;
pub use kept::{Kept, KeptAlone};
pub use rested::Rested;
pub use states::{Alone, Armed, Behind, Entered, Leaving, Passing, Ready, Trying, Waiting};
pub use word_rule::{Hold, Pass};
