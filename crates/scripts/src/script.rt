//! Scripts.

pub mod cpu_scripts;
pub mod lines;
pub mod reader;
pub mod request_line;
pub mod source;
