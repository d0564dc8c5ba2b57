//! Why a line has no answer.

use four_state::NoMemory;
use std::alloc::{AllocError, AllocFailed};
use std::num::ParseIntError;

#[derive(Clone, Copy)]
pub enum Problem {
    /// The line is none of those that there are.
    Unsupported,
    NoMemory,
}

impl Problem {
    /// What is written in place of an answer.
    pub fn text(self) -> &'static [u8] {
        match self {
            Problem::Unsupported => b"unsupported line\n",
            Problem::NoMemory => b"out of memory\n",
        }
    }
}

impl From<ParseIntError> for Problem {
    fn from(_error: ParseIntError) -> Problem {
        Problem::Unsupported
    }
}

impl From<NoMemory> for Problem {
    fn from(_error: NoMemory) -> Problem {
        Problem::NoMemory
    }
}

impl From<AllocError> for Problem {
    fn from(_error: AllocError) -> Problem {
        Problem::NoMemory
    }
}

impl<T: Drop> From<AllocFailed<T>> for Problem {
    fn from(_error: AllocFailed<T>) -> Problem {
        Problem::NoMemory
    }
}
