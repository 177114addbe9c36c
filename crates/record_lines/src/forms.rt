//! Records of any form: what a form is, the sink that receives what is read, and the reader.

pub mod entries;
pub mod form;
pub mod lists;
pub mod place;
pub mod sink;
pub mod state;
pub mod step_texts;
