// Want of memory.
use std::alloc::{AllocError, AllocFailed};

/// There was no memory. This is the one answer that no contract ties to a cause: any call whose
/// signature has it may give it.
#[derive(Clone, Copy, Debug, PartialEq, Eq)]
pub struct Memory;

impl From<AllocError> for Memory {
    fn from(_refused: AllocError) -> Memory {
        Memory
    }
}

impl<T: Drop> From<AllocFailed<T>> for Memory {
    fn from(_refused: AllocFailed<T>) -> Memory {
        Memory
    }
}
