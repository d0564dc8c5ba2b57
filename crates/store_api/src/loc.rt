ghost use Rattle.std.specs.Prelude.{◌≡◌, IfOk};
ghost use Rattle.store_api.specs.Places.{loc_eq};

use four_state::NoMemory;

/// A place of the run's contents.
#[derive(Clone, Copy, Debug, PartialEq, Eq, Hash)]
pub enum Loc {
    /// A program variable: its number, from 0 in text order.
    Global(u32),
    /// The latest sample of an input signal: the signal's number, from 0 in text order.
    Sample(u32),
}

impl Loc {
    pub fn copy(&self) -> Result<Loc, NoMemory>
        ensures { IfOk result (λ l. l ≡ self.now) }
    {
        Ok(*self)
    }

    /// Whether both are one place.
    pub fn is_same(&self, other: &Loc) -> bool
        ensures { result ≡ loc_eq self.now other.now }
    {
        self == other
    }
}
