ghost use Rattle.std.specs.Prelude.{◌≡◌};
ghost use Rattle.four_state.specs.Bitwise.{and_bit, xor_bit, combined, red_and_of, red_or_of, red_xor_of, red_nand_of, red_nor_of, red_xnor_of};
ghost use Rattle.four_state.specs.Comparisons.{truth_bit};
ghost use Rattle.four_state.specs.declared.bit.Bit.TheVariants.{Zero, One};

use super::{Vec4, mask, truth};

impl Vec4 {
    /// Unary `&`: one bit, 0 where some bit is 0, else x where some bit is x or z, else 1.
    pub fn red_and(&self) -> Vec4
        ensures { result ≡ red_and_of self.now }
    {
        truth(self.every_bit())
    }

    /// Unary `|`: one bit, 1 where some bit is 1, else x where some bit is x or z, else 0.
    pub fn red_or(&self) -> Vec4
        ensures { result ≡ red_or_of self.now }
    {
        Vec4::of_logic(self.logic())
    }

    /// Unary `^`: one bit, x where some bit is x or z, else whether the number of ones is odd.
    pub fn red_xor(&self) -> Vec4
        ensures { result ≡ red_xor_of self.now }
    {
        truth(self.odd_ones())
    }

    /// Unary `~&`: the negation of `&`.
    pub fn red_nand(&self) -> Vec4
        ensures { result ≡ red_nand_of self.now }
    {
        self.red_and().bit_not()
    }

    /// Unary `~|`: the negation of `|`.
    pub fn red_nor(&self) -> Vec4
        ensures { result ≡ red_nor_of self.now }
    {
        self.red_or().bit_not()
    }

    /// Unary `~^`: the negation of `^`.
    pub fn red_xnor(&self) -> Vec4
        ensures { result ≡ red_xnor_of self.now }
    {
        self.red_xor().bit_not()
    }

    /// Whether all bits are 1; None where no bit is 0 and some are x or z.
    fn every_bit(&self) -> Option<bool>
        ensures { truth_bit result ≡ combined and_bit One self.now }
    {
        if self.ones | self.unknown != mask(self.width) {
            Some(false)
        } else if self.unknown == 0 {
            Some(true)
        } else {
            None
        }
    }

    /// Whether the number of ones is odd; None where some bit is x or z.
    fn odd_ones(&self) -> Option<bool>
        ensures { truth_bit result ≡ combined xor_bit Zero self.now }
    {
        if self.unknown == 0 {
            Some(self.ones.count_ones() % 2 == 1)
        } else {
            None
        }
    }
}
