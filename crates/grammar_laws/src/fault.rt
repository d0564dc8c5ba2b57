//! Why and where reading stops.

use std::alloc::{AllocError, AllocFailed};

/// Why reading stops.
#[derive(Clone, Copy, Debug, PartialEq, Eq, Drop)]
pub enum Why {
    /// No file goes on so.
    Syntax,
    /// A token is deeper than the limit.
    Depth,
}

/// No memory, or where the tokens stop: so many are left.
#[derive(Clone, Copy, Debug, PartialEq, Eq, Drop)]
pub enum Fault {
    NoMemory,
    Stop(Why, usize),
}

impl From<AllocError> for Fault {
    ghost use Rattle.grammar_laws.specs.declared.fault.Fault.TheVariants.{NoMemory};
    ghost use Rattle.std.specs.Prelude.{◌≡◌};

    ghost from_gives = { λ _ e. e ≡ NoMemory };

    fn from(_error: AllocError) -> Fault {
        Fault::NoMemory
    }
}

impl<T: Drop> From<AllocFailed<T>> for Fault {
    ghost use Rattle.grammar_laws.specs.declared.fault.Fault.TheVariants.{NoMemory};
    ghost use Rattle.std.specs.Prelude.{◌≡◌};

    ghost from_gives = { λ _ e. e ≡ NoMemory };

    fn from(_error: AllocFailed<T>) -> Fault {
        Fault::NoMemory
    }
}
