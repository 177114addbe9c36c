//! What an object is judged by.

use event_log::SeqObject;

/// What the object was opened with, and the most events of its log.
#[derive(Drop)]
pub struct OpenedObject<O: SeqObject> {
    pub params: O::Params,
    pub limit: u32,
}
