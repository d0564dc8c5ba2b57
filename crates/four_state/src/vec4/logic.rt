ghost use Rattle.std.specs.Prelude.{◌≡◌, [], ◌∷◌};
ghost use Rattle.four_state.specs.Logic.{logic_of, logic_bit, logic_and_of, logic_or_of, logic_not_of};

use super::Vec4;
use crate::Bit3;

impl Vec4 {
    /// Its logical value: One where some bit is 1, Zero where all are 0, else X.
    pub fn logic(&self) -> Bit3
        ensures { result ≡ logic_of self.now }
    {
        if self.ones & !self.unknown != 0 {
            Bit3::One
        } else if self.unknown == 0 {
            Bit3::Zero
        } else {
            Bit3::X
        }
    }

    /// `&&`: one bit, of the logical values; 0 where either is 0, else x where either is x.
    pub fn logic_and(&self, other: &Vec4) -> Vec4
        ensures { result ≡ logic_and_of self.now other.now }
    {
        Vec4::of_logic(self.logic().and(other.logic()))
    }

    /// `||`: one bit, of the logical values; 1 where either is 1, else x where either is x.
    pub fn logic_or(&self, other: &Vec4) -> Vec4
        ensures { result ≡ logic_or_of self.now other.now }
    {
        Vec4::of_logic(self.logic().or(other.logic()))
    }

    /// `!`: one bit, the negation of the logical value.
    pub fn logic_not(&self) -> Vec4
        ensures { result ≡ logic_not_of self.now }
    {
        Vec4::of_logic(self.logic().not())
    }

    /// One bit of a logical value.
    #[tactic(auto, unfolding(crate::specs::Words::bits_of))]
    pub(super) fn of_logic(value: Bit3) -> Vec4
        ensures { result ≡ logic_bit value ∷ [] }
    {
        match value {
            Bit3::Zero => Vec4 {
                width: 1,
                ones: 0,
                unknown: 0,
            },
            Bit3::One => Vec4 {
                width: 1,
                ones: 1,
                unknown: 0,
            },
            Bit3::X => Vec4 {
                width: 1,
                ones: 0,
                unknown: 1,
            },
        }
    }
}
