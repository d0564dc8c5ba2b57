ghost use Rattle.std.specs.Prelude.{◌≡◌, length};
ghost use Rattle.four_state.specs.Arithmetic.{sum_of, difference_of, product_of, negated_of, quotient_of, remainder_of, can_divide};

use super::Vec4;

impl Vec4 {
    /// `+`, for vectors of one width: modulo 2 to the width, signed or not; all x where either has an x or z.
    pub fn add(&self, other: &Vec4, _signed: bool) -> Vec4
        requires { length self.now ≡ length other.now }
        ensures { result ≡ sum_of self.now other.now }
    {
        match self.numbers(other) {
            Some((a, b)) => Vec4::of_number(self.width(), a.wrapping_add(b)),
            None => Vec4::all_x(self.width()),
        }
    }

    /// `-`, for vectors of one width: modulo 2 to the width, signed or not; all x where either has an x or z.
    pub fn sub(&self, other: &Vec4, _signed: bool) -> Vec4
        requires { length self.now ≡ length other.now }
        ensures { result ≡ difference_of self.now other.now }
    {
        match self.numbers(other) {
            Some((a, b)) => Vec4::of_number(self.width(), a.wrapping_sub(b)),
            None => Vec4::all_x(self.width()),
        }
    }

    /// `*`, for vectors of one width: modulo 2 to the width, signed or not; all x where either has an x or z.
    pub fn mul(&self, other: &Vec4, _signed: bool) -> Vec4
        requires { length self.now ≡ length other.now }
        ensures { result ≡ product_of self.now other.now }
    {
        match self.numbers(other) {
            Some((a, b)) => Vec4::of_number(self.width(), a.wrapping_mul(b)),
            None => Vec4::all_x(self.width()),
        }
    }

    /// Unary `-`: modulo 2 to the width; all x where a bit is x or z.
    pub fn neg(&self) -> Vec4
        ensures { result ≡ negated_of self.now }
    {
        if self.is_known() {
            Vec4::of_number(self.width(), 0u128.wrapping_sub(self.number()))
        } else {
            Vec4::all_x(self.width())
        }
    }

    /// `/`, for vectors of one width: cut towards 0, and the least number divided by -1 is itself where `signed`.
    /// All x where either has an x or z, or `other` is 0.
    pub fn div(&self, other: &Vec4, signed: bool) -> Vec4
        requires { length self.now ≡ length other.now }
        ensures { result ≡ quotient_of signed self.now other.now }
    {
        let width = self.width();
        if !self.can_divide(other) {
            return Vec4::all_x(width);
        }
        if signed {
            let quotient = self.signed_number().wrapping_div(other.signed_number());
            Vec4::of_number(width, quotient.cast_unsigned())
        } else {
            Vec4::of_number(width, self.number() / other.number())
        }
    }

    /// `%`, for vectors of one width: what `/` leaves, with the sign of `self` where `signed`.
    /// All x where either has an x or z, or `other` is 0.
    pub fn rem(&self, other: &Vec4, signed: bool) -> Vec4
        requires { length self.now ≡ length other.now }
        ensures { result ≡ remainder_of signed self.now other.now }
    {
        let width = self.width();
        if !self.can_divide(other) {
            return Vec4::all_x(width);
        }
        if signed {
            let rest = self.signed_number().wrapping_rem(other.signed_number());
            Vec4::of_number(width, rest.cast_unsigned())
        } else {
            Vec4::of_number(width, self.number() % other.number())
        }
    }

    /// Whether all bits are known and the divisor isn't 0.
    fn can_divide(&self, by: &Vec4) -> bool
        ensures { result ≡ can_divide self.now by.now }
    {
        self.both_known(by) && by.number() != 0
    }
}
