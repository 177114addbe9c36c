//! Settings as a text in TOML.

pub mod fault;
pub mod keys;
pub mod kinds;
pub mod reading;
pub mod text;
