ghost use Rattle.std.specs.Prelude.{◌≡◌, length};
ghost use Rattle.std.specs.Cmp.Lexicographic.{pointwise};
ghost use Rattle.four_state.specs.Comparisons.{bits_match, order_of, less_of, less_equal_of, greater_of, greater_equal_of, equal_of, not_equal_of, case_equal_of, case_not_equal_of, wild_equal_of, wild_not_equal_of};

use super::{Vec4, truth};
use std::cmp::Ordering;

impl Vec4 {
    /// `<`, for vectors of one width: one bit, x where either has an x or z.
    pub fn less(&self, other: &Vec4, signed: bool) -> Vec4
        requires { length self.now ≡ length other.now }
        ensures { result ≡ less_of signed self.now other.now }
    {
        truth(self.order(other, signed).map(Ordering::is_lt))
    }

    /// `<=`, for vectors of one width: one bit, x where either has an x or z.
    pub fn less_equal(&self, other: &Vec4, signed: bool) -> Vec4
        requires { length self.now ≡ length other.now }
        ensures { result ≡ less_equal_of signed self.now other.now }
    {
        truth(self.order(other, signed).map(Ordering::is_le))
    }

    /// `>`, for vectors of one width: one bit, x where either has an x or z.
    pub fn greater(&self, other: &Vec4, signed: bool) -> Vec4
        requires { length self.now ≡ length other.now }
        ensures { result ≡ greater_of signed self.now other.now }
    {
        truth(self.order(other, signed).map(Ordering::is_gt))
    }

    /// `>=`, for vectors of one width: one bit, x where either has an x or z.
    pub fn greater_equal(&self, other: &Vec4, signed: bool) -> Vec4
        requires { length self.now ≡ length other.now }
        ensures { result ≡ greater_equal_of signed self.now other.now }
    {
        truth(self.order(other, signed).map(Ordering::is_ge))
    }

    /// `==`, for vectors of one width: one bit, x where either has an x or z.
    pub fn equal(&self, other: &Vec4, signed: bool) -> Vec4
        requires { length self.now ≡ length other.now }
        ensures { result ≡ equal_of signed self.now other.now }
    {
        truth(self.order(other, signed).map(Ordering::is_eq))
    }

    /// `!=`, for vectors of one width: one bit, x where either has an x or z.
    pub fn not_equal(&self, other: &Vec4, signed: bool) -> Vec4
        requires { length self.now ≡ length other.now }
        ensures { result ≡ not_equal_of signed self.now other.now }
    {
        truth(self.order(other, signed).map(Ordering::is_ne))
    }

    /// `===`, for vectors of one width: one bit, whether they are the same in all four values.
    pub fn case_eq(&self, other: &Vec4, _signed: bool) -> Vec4
        requires { length self.now ≡ length other.now }
        ensures { result ≡ case_equal_of self.now other.now }
    {
        truth(Some(self == other))
    }

    /// `!==`, for vectors of one width: one bit, whether they differ in one of the four values.
    pub fn case_ne(&self, other: &Vec4, _signed: bool) -> Vec4
        requires { length self.now ≡ length other.now }
        ensures { result ≡ case_not_equal_of self.now other.now }
    {
        truth(Some(self != other))
    }

    /// `=?=`, for vectors of one width: one bit, whether each bit equals the other's or one of the two is x or z.
    pub fn wild_eq(&self, other: &Vec4, _signed: bool) -> Vec4
        requires { length self.now ≡ length other.now }
        ensures { result ≡ wild_equal_of self.now other.now }
    {
        truth(Some(self.matches(other)))
    }

    /// `!?=`, for vectors of one width: one bit, whether some bit is known in both and differs.
    pub fn wild_ne(&self, other: &Vec4, _signed: bool) -> Vec4
        requires { length self.now ≡ length other.now }
        ensures { result ≡ wild_not_equal_of self.now other.now }
    {
        truth(Some(!self.matches(other)))
    }

    /// Whether each bit equals the other's, or one of the two is x or z.
    fn matches(&self, other: &Vec4) -> bool
        requires { length self.now ≡ length other.now }
        ensures { result ≡ pointwise bits_match self.now other.now }
    {
        (self.ones ^ other.ones) & !(self.unknown | other.unknown) == 0
    }

    /// How the numbers of two vectors of one width stand to each other; None where either has an x or z.
    fn order(&self, other: &Vec4, signed: bool) -> Option<Ordering>
        ensures { result ≡ order_of signed self.now other.now }
    {
        if signed {
            self.signed_numbers(other).map(|(a, b)| a.cmp(&b))
        } else {
            self.numbers(other).map(|(a, b)| a.cmp(&b))
        }
    }
}
