ghost use Rattle.std.specs.Prelude.{◌≡◌, IfOk};

use four_state::{NoMemory, Vec4};

/// A value that stands at a place.
#[derive(Debug, Drop)]
pub enum Val {
    /// A vector.
    Bits(Vec4),
}

impl Val {
    pub fn copy(&self) -> Result<Val, NoMemory>
        ensures { IfOk result (λ v. v ≡ self.now) }
    {
        match self {
            Val::Bits(bits) => Ok(Val::Bits(*bits)),
        }
    }
}
