// What the calls of a script share.
use crate::answers::Answers;
use std::alloc::{AllocError, Global};

// Where the answers go, and room for what a store gives.
#[derive(Drop)]
pub(crate) struct Session {
    pub(crate) heap: Global,
    pub(crate) room: Vec<u8>,
    pub(crate) answers: Answers,
}

impl Session {
    pub(crate) fn new(heap: Global, room: usize) -> Result<Session, AllocError> {
        Ok(Session {
            heap,
            room: vec![in heap; 0u8; room]?,
            answers: Answers::new(heap),
        })
    }
}
