//! Vectors bit by bit.
ghost use Rattle.std.specs.Prelude.{◌≡◌, ◌∷◌, [], ◌++◌, ◌<◌, length};
ghost use Rattle.four_state.specs.Words.{bits_of};
ghost use Rattle.run_rules.specs.Drives.{meet, meet_bit};

use four_state::{Bit, Vec4};

/// The vector of one bit, by its words.
fn of_words(ones: u128, unknown: u128) -> Vec4
    requires ones { ones < 2 }
    requires unknown { unknown < 2 }
    ensures { result ≡ bits_of 1 ones unknown }
{
    match Vec4::new(1, ones, unknown) {
        Some(bits) => bits,
        None => unreachable!(),
    }
}

/// The vector of one bit.
pub fn one_bit(bit: Bit) -> Vec4
    ensures { result ≡ bit ∷ [] }
{
    match bit {
        Bit::Zero => of_words(0, 0),
        Bit::One => of_words(1, 0),
        Bit::X => of_words(0, 1),
        Bit::Z => of_words(1, 1),
    }
}

/// A vector with one bit more, above the others.
pub fn with_bit(low: &Vec4, bit: Bit) -> Vec4
    requires { length low.now < 128 }
    ensures { result ≡ low.now ++ bit ∷ [] }
{
    match one_bit(bit).concat(low) {
        Some(bits) => bits,
        None => unreachable!(),
    }
}

/// The same bit where both have it, else x.
fn meet_bit(a: Bit, b: Bit) -> Bit
    ensures { result ≡ meet_bit a b }
{
    if a == b { a } else { Bit::X }
}

/// The meet of two drives of one signal, which have its width.
pub fn meet(a: &Vec4, b: &Vec4) -> Vec4
    requires { length a.now ≡ length b.now }
    ensures { result ≡ meet a.now b.now }
{
    let width = a.width();
    let mut met = one_bit(meet_bit(a.bit(0), b.bit(0)));
    for at in 1..width {
        met = with_bit(&met, meet_bit(a.bit(at), b.bit(at)));
    }
    met
}
