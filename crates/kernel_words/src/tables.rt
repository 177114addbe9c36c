//! The tables by which values are spelled.

pub mod call_list;
pub mod fast_reads;
pub mod field;
pub mod lock_words;
pub mod params;
pub mod ranges;
pub mod read;
pub mod rows;
pub mod spelling;
pub mod write;
