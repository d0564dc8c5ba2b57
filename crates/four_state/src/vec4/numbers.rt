ghost use Rattle.std.specs.Prelude.{◌≡◌, IsTrue};
ghost use Rattle.four_state.specs.Bits.{all_known, both_known};
ghost use Rattle.four_state.specs.Numbers.{number_of, signed_number_of, numbers_of, signed_numbers_of};

use super::{Vec4, repeat_top};

impl Vec4 {
    /// Whether no bit is x or z.
    pub fn is_known(&self) -> bool
        ensures { result ≡ all_known self.now }
    {
        self.unknown == 0
    }

    /// The number of a vector without x and z.
    pub fn number(&self) -> u128
        requires { IsTrue (all_known self.now) }
        ensures { result ≡ number_of self.now }
    {
        self.ones
    }

    /// The number in two's complement of a vector without x and z.
    pub fn signed_number(&self) -> i128
        requires { IsTrue (all_known self.now) }
        ensures { result ≡ signed_number_of self.now }
    {
        repeat_top(self.ones, self.width, 128).cast_signed()
    }

    /// Whether no bit of either is x or z.
    pub(super) fn both_known(&self, other: &Vec4) -> bool
        ensures { result ≡ both_known self.now other.now }
    {
        self.is_known() && other.is_known()
    }

    /// The numbers of two vectors; None where either has an x or z.
    pub(super) fn numbers(&self, other: &Vec4) -> Option<(u128, u128)>
        ensures { result ≡ numbers_of self.now other.now }
    {
        if self.both_known(other) {
            Some((self.number(), other.number()))
        } else {
            None
        }
    }

    /// Their numbers in two's complement.
    pub(super) fn signed_numbers(&self, other: &Vec4) -> Option<(i128, i128)>
        ensures { result ≡ signed_numbers_of self.now other.now }
    {
        if self.both_known(other) {
            Some((self.signed_number(), other.signed_number()))
        } else {
            None
        }
    }
}
