// Why a case has no answer of its own.
use std::alloc::{AllocError, AllocFailed};

#[derive(Drop)]
pub enum Unanswered {
    /// What stands for the answer: what was refused.
    Refused(String),
    Memory,
}

impl From<AllocError> for Unanswered {
    fn from(_error: AllocError) -> Unanswered {
        Unanswered::Memory
    }
}

impl<T: Drop> From<AllocFailed<T>> for Unanswered {
    fn from(_error: AllocFailed<T>) -> Unanswered {
        Unanswered::Memory
    }
}
