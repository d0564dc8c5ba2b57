//! Why a line has no answer.

use four_state::NoMemory;
use std::alloc::AllocError;

#[derive(Clone, Copy)]
pub enum Problem {
    Unsupported,
    NoMemory,
}

impl Problem {
    /// What is written in place of an answer.
    pub fn text(self) -> &'static [u8] {
        match self {
            Problem::Unsupported => b"unsupported line\n",
            Problem::NoMemory => b"out of memory\n",
        }
    }
}

impl From<NoMemory> for Problem {
    fn from(_error: NoMemory) -> Problem {
        Problem::NoMemory
    }
}

impl From<AllocError> for Problem {
    fn from(_error: AllocError) -> Problem {
        Problem::NoMemory
    }
}
