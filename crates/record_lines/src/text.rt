//! Lines, and the words and bytes in them.

pub mod fault;
pub mod line_machine;
pub mod line_writer;
pub mod name;
pub mod split;
pub mod words;
