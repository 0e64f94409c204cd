//! What a call says where memory was wanted and refused.
//!
//! The crates that read a source know nothing of matching, and the engine nothing of sources; this is what both answer.
#![tactic(auto)]

use std::alloc::{AllocError, AllocFailed};

/// Memory was wanted and refused.
#[derive(Clone, Copy, Debug, PartialEq, Eq)]
pub struct NoMemory;

impl From<AllocError> for NoMemory {
    fn from(_e: AllocError) -> NoMemory {
        NoMemory
    }
}

impl<T: Drop> From<AllocFailed<T>> for NoMemory {
    fn from(_e: AllocFailed<T>) -> NoMemory {
        NoMemory
    }
}
