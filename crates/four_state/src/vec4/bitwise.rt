ghost use Rattle.std.specs.Prelude.{◌≡◌, length};
ghost use Rattle.four_state.specs.Bitwise.{and_of, or_of, xor_of, xnor_of, not_of};

use super::{Vec4, mask};

impl Vec4 {
    /// `&`, for vectors of one width: bit by bit, signed or not; 0 where either bit is 0, else x where either is x or z.
    pub fn bit_and(&self, other: &Vec4, _signed: bool) -> Vec4
        requires { length self.now ≡ length other.now }
        ensures { result ≡ and_of self.now other.now }
    {
        let may_be_one = (self.ones | self.unknown) & (other.ones | other.unknown);
        let unknown = may_be_one & (self.unknown | other.unknown);
        Vec4 {
            width: self.width,
            ones: may_be_one & !unknown,
            unknown,
        }
    }

    /// `|`, for vectors of one width: bit by bit, signed or not; 1 where either bit is 1, else x where either is x or z.
    pub fn bit_or(&self, other: &Vec4, _signed: bool) -> Vec4
        requires { length self.now ≡ length other.now }
        ensures { result ≡ or_of self.now other.now }
    {
        let ones = (self.ones & !self.unknown) | (other.ones & !other.unknown);
        Vec4 {
            width: self.width,
            ones,
            unknown: (self.unknown | other.unknown) & !ones,
        }
    }

    /// `^`, for vectors of one width: bit by bit, signed or not; x where either bit is x or z.
    pub fn bit_xor(&self, other: &Vec4, _signed: bool) -> Vec4
        requires { length self.now ≡ length other.now }
        ensures { result ≡ xor_of self.now other.now }
    {
        let unknown = self.unknown | other.unknown;
        Vec4 {
            width: self.width,
            ones: (self.ones ^ other.ones) & !unknown,
            unknown,
        }
    }

    /// `~^`, for vectors of one width: bit by bit, signed or not; x where either bit is x or z.
    pub fn bit_xnor(&self, other: &Vec4, _signed: bool) -> Vec4
        requires { length self.now ≡ length other.now }
        ensures { result ≡ xnor_of self.now other.now }
    {
        let unknown = self.unknown | other.unknown;
        Vec4 {
            width: self.width,
            ones: !(self.ones ^ other.ones) & !unknown & mask(self.width),
            unknown,
        }
    }

    /// `~`: bit by bit; x where the bit is x or z.
    pub fn bit_not(&self) -> Vec4
        ensures { result ≡ not_of self.now }
    {
        Vec4 {
            width: self.width,
            ones: !self.ones & !self.unknown & mask(self.width),
            unknown: self.unknown,
        }
    }
}
