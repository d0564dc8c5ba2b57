use four_state::NoMemory;
use std::alloc::{AllocError, AllocFailed};
use thiserror::Error;

/// Why a testbench is refused: the number of the rule (10 is E10), and the line, counted from 1.
#[derive(Clone, Copy, Debug, PartialEq, Eq, Drop)]
pub struct Refusal {
    pub code: u8,
    pub line: u32,
}

/// What a step of the front end answers in place of its result.
#[derive(Clone, Copy, Debug, PartialEq, Eq, Error)]
pub enum FrontError {
    /// The testbench is refused.
    #[error("refused")]
    Refused(Refusal),
    /// Memory ran out.
    #[error("out of memory")]
    NoMemory,
}

impl From<NoMemory> for FrontError {
    ghost use Rattle.vera_ast.specs.declared.refusal.FrontError.TheVariants.{NoMemory};
    ghost use Rattle.std.specs.Prelude.{◌≡◌};

    ghost from_gives = { λ _ e. e ≡ NoMemory };

    fn from(_error: NoMemory) -> FrontError {
        FrontError::NoMemory
    }
}

impl From<AllocError> for FrontError {
    ghost use Rattle.vera_ast.specs.declared.refusal.FrontError.TheVariants.{NoMemory};
    ghost use Rattle.std.specs.Prelude.{◌≡◌};

    ghost from_gives = { λ _ e. e ≡ NoMemory };

    fn from(_error: AllocError) -> FrontError {
        FrontError::NoMemory
    }
}

impl<T: Drop> From<AllocFailed<T>> for FrontError {
    ghost use Rattle.vera_ast.specs.declared.refusal.FrontError.TheVariants.{NoMemory};
    ghost use Rattle.std.specs.Prelude.{◌≡◌};

    ghost from_gives = { λ _ e. e ≡ NoMemory };

    fn from(_error: AllocFailed<T>) -> FrontError {
        FrontError::NoMemory
    }
}
