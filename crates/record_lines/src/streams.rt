//! Sources and sinks.

pub mod buffer;
pub mod feeding;
pub mod front_reader;
pub mod source_reader;
pub mod text_writer;
