ghost use Rattle.std.specs.Prelude.{◌≡◌, ◌+◌, ◌-◌, ◌*◌, ◌<◌, ◌≤◌, ◌^◌, ◌↔◌, IsTrue, length, IfSome, IsSome, slice_get};
ghost use Rattle.std.specs.Int.{bit_at};
ghost use Rattle.four_state.specs.Bits.{all_x, extended};
ghost use Rattle.four_state.specs.Comparisons.{truth_of};
ghost use Rattle.four_state.specs.Numbers.{vector_of};
ghost use Rattle.four_state.specs.Fields.{AreWords};
ghost use Rattle.four_state.specs.Words.{ones_of, unknown_of, bits_of};

mod arithmetic;
mod bitwise;
mod comparisons;
mod literals;
mod logic;
mod numbers;
mod parts;
mod reductions;
mod shifts;
mod texts;

use crate::Bit;
use std::marker::Model;

/// A vector of 1 to 128 bits, each 0, 1, x or z, which contracts see as the list of its bits, the lowest first.
#[derive(Clone, Copy, Debug)]
pub struct Vec4 {
    width: u8,
    ones: u128,
    unknown: u128,
}

impl Model for Vec4 {
    ghost use Rattle.std.specs.Prelude.{List, length};
    ghost use Rattle.four_state.specs.declared.bit.Bit.{Bit};

    ghost Value = { List Bit };

    ghost use Rattle.four_state.specs.Words.{bits_of, ones_of, unknown_of};
    ghost use Rattle.four_state.specs.Fields.{AreWords};

    ghost view = { λ v. bits_of v.width v.ones v.unknown };

    ghost invariant = { λ v. AreWords v.width v.ones v.unknown };

    ghost inverse = { λ bits. record { width = length bits; ones = ones_of bits; unknown = unknown_of bits } };

    ghost use Rattle.four_state.specs.WordsBack.{length-bits_of, ones_of-bits_of, unknown_of-bits_of};

    ghost inverse_ok = { λ v fits i. record {
      width = length-bits_of v.width v.ones v.unknown i;
      ones = ones_of-bits_of v.width v.ones v.unknown fits.ones_fit i;
      unknown = unknown_of-bits_of v.width v.ones v.unknown fits.unknown_fit i;
    } };
}

impl PartialEq for Vec4 {
    ghost use Rattle.four_state.specs.Bits.{bits_eq};
    ghost use Rattle.four_state.specs.Equality.{bits_eq_partial};

    ghost eq = { bits_eq };

    ghost laws = { bits_eq_partial };

    fn eq(&self, other: &Vec4) -> bool
        ensures answer { result ≡ bits_eq self.now other.now }
        ensures same { IsTrue result ↔ (self.now ≡ other.now) }
    {
        (self.width, self.ones, self.unknown) == (other.width, other.ones, other.unknown)
    }
}

impl Eq for Vec4 {
    ghost use Rattle.four_state.specs.Equality.{bits_eq_equivalence};

    ghost laws = { bits_eq_equivalence };
}

impl Vec4 {
    /// The vector of these words: bit i is 0 or 1 by `ones` where bit i of `unknown` is 0, and x or z where it is 1.
    /// None exactly where the width isn't 1 to 128 or a bit stands at or above the width.
    pub fn new(width: u8, ones: u128, unknown: u128) -> Option<Vec4>
        ensures fits { IsSome result ↔ AreWords width ones unknown }
        ensures value { IfSome result (λ v. v ≡ bits_of width ones unknown) }
    {
        if width == 0 || width > 128 {
            return None;
        }
        let mask = mask(width);
        if ones > mask || unknown > mask {
            return None;
        }
        Some(Vec4 {
            width,
            ones,
            unknown,
        })
    }

    /// The vector of this width whose bits are all x.
    pub fn all_x(width: u8) -> Vec4
        requires low { 1 ≤ width }
        requires high { width ≤ 128 }
        ensures { result ≡ all_x width }
    {
        Vec4 {
            width,
            ones: 0,
            unknown: mask(width),
        }
    }

    /// The vector of a number modulo 2 to the width.
    pub fn of_number(width: u8, value: u128) -> Vec4
        requires low { 1 ≤ width }
        requires high { width ≤ 128 }
        ensures { result ≡ vector_of width value }
    {
        Vec4 {
            width,
            ones: value & mask(width),
            unknown: 0,
        }
    }

    /// The width in bits, 1 to 128.
    pub fn width(&self) -> u8
        ensures value { result ≡ length self.now }
        ensures low { 1 ≤ result }
        ensures high { result ≤ 128 }
    {
        self.width
    }

    /// One bit for each bit of the vector: set where it is 1 or z.
    pub fn ones(&self) -> u128
        ensures { result ≡ ones_of self.now }
    {
        self.ones
    }

    /// One bit for each bit of the vector: set where it is x or z.
    pub fn unknown(&self) -> u128
        ensures { result ≡ unknown_of self.now }
    {
        self.unknown
    }

    /// The bit at a place, 0 being the lowest.
    pub fn bit(&self, at: u8) -> Bit
        requires { at < length self.now }
        ensures { slice_get self.now at ≡ Some result }
    {
        let one = (self.ones >> at) & 1 == 1;
        let unknown = (self.unknown >> at) & 1 == 1;
        match (unknown, one) {
            (false, false) => Bit::Zero,
            (false, true) => Bit::One,
            (true, false) => Bit::X,
            (true, true) => Bit::Z,
        }
    }

    /// Cuts to a width, or extends: by the top bit where `signed`, else by 0.
    pub fn extend(&self, width: u8, signed: bool) -> Vec4
        requires low { 1 ≤ width }
        requires high { width ≤ 128 }
        ensures { result ≡ extended width signed self.now }
    {
        let mask = mask(width);
        if width <= self.width {
            return Vec4 {
                width,
                ones: self.ones & mask,
                unknown: self.unknown & mask,
            };
        }
        if !signed {
            return Vec4 { width, ..*self };
        }
        Vec4 {
            width,
            ones: repeat_top(self.ones, self.width, width),
            unknown: repeat_top(self.unknown, self.width, width),
        }
    }
}

/// The word whose lowest bits are set, as many as the width.
fn mask(width: u8) -> u128
    requires low { 1 ≤ width }
    requires high { width ≤ 128 }
    ensures { result ≡ 2 ^ width - 1 }
{
    u128::MAX >> (128 - width)
}

/// A word of a width with its top bit repeated above, up to a wider width.
fn repeat_top(word: u128, width: u8, wider: u8) -> u128
    requires low { 1 ≤ width }
    requires wider { width ≤ wider }
    requires high { wider ≤ 128 }
    requires fits { word < 2 ^ width }
    ensures value { result ≡ word + bit_at word (width - 1) * (2 ^ wider - 2 ^ width) }
    ensures within { result < 2 ^ wider }
{
    if word >> (width - 1) == 0 {
        word
    } else {
        word + (mask(wider) - mask(width))
    }
}

/// One bit: x where nothing is known.
#[tactic(auto, unfolding(crate::specs::Words::bits_of))]
fn truth(holds: Option<bool>) -> Vec4
    ensures { result ≡ truth_of holds }
{
    match holds {
        None => Vec4 {
            width: 1,
            ones: 0,
            unknown: 1,
        },
        Some(holds) => Vec4 {
            width: 1,
            ones: holds.into(),
            unknown: 0,
        },
    }
}
