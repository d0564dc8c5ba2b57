ghost use Rattle.std.specs.Prelude.{◌≡◌, [], ◌∷◌, ◌≢◌, ◌*◌, ◌≤◌, ◌<◌, ◌^◌, min, length, replicate, Any, IsTrue, IfSome, IfNone};
ghost use Rattle.four_state.specs.Literals.{is_base, is_x, is_z, plain_digits, digit_bits, fitted, decimal_number, literal_by_places, decimal_literal, literal_of};
ghost use Rattle.std.specs.Option.{option_map};
ghost use Rattle.four_state.specs.Numbers.{vector_of};
ghost use Rattle.four_state.specs.Words.{bits_of};
ghost use Rattle.four_state.specs.Readings.{IsDigit, Follows, CannotFollow, only_of, decimal_step};
ghost use Rattle.four_state.specs.declared.bit.Bit.TheVariants.{Z};

use super::{Vec4, mask};

impl Vec4 {
    /// The vector of a based literal: `width` as written, the base as 2, 8, 10 or 16, and the digits behind it in either
    /// case, with `x`, `z` and `_`. Fewer digits than the width are extended by 0, or by x or z where the first digit is
    /// so; more are cut.
    /// None exactly where the width isn't 1 to 128, a digit is outside the base (in base 10 an x or z that isn't alone),
    /// or the digits without leading zero digits need more than 128 bits.
    pub fn from_digits(width: u8, base: u8, digits: &[u8]) -> Option<Vec4>
        requires base { IsTrue (is_base base) }
        requires digit { Any (λ c. c ≢ 95) digits.now }
        ensures { result ≡ literal_of width base digits.now }
    {
        if width == 0 || width > 128 {
            return None;
        }
        match base {
            2 => by_places(width, 1, digits),
            8 => by_places(width, 3, digits),
            16 => by_places(width, 4, digits),
            _ => decimal(width, digits),
        }
    }
}

/// The vector of digits of so many places each: cut to the width, or extended by 0, or by x or z where the first is so.
fn by_places(width: u8, places: u8, digits: &[u8]) -> Option<Vec4>
    requires width_low { 1 ≤ width }
    requires width_high { width ≤ 128 }
    requires low { 1 ≤ places }
    requires high { places ≤ 4 }
    requires digit { 0 < length (plain_digits digits.now) }
    ensures { result ≡ literal_by_places places width (plain_digits digits.now) }
{
    let mut ones = 0;
    let mut unknown = 0;
    let mut count = 0usize;
    for digit in digits {
        if *digit != b'_' {
            (ones, unknown) = one_more(*digit, places, ones, unknown)?;
            count += 1;
        }
    }
    Some(fitted(width, ones, unknown, places, count))
}

/// The words after one more digit. None where it is no digit, or the words have no room for its places.
fn one_more(digit: u8, places: u8, ones: u128, unknown: u128) -> Option<(u128, u128)>
    requires low { 1 ≤ places }
    requires high { places ≤ 4 }
    ensures none { IfNone result (CannotFollow places digit ones unknown) }
    ensures some { IfSome result (λ words. Follows places digit ones unknown words.0 words.1) }
{
    let (one, x) = digit_words(digit, places)?;
    let room = 128 - places;
    if ones >> room != 0 || unknown >> room != 0 {
        return None;
    }
    Some(((ones << places) | one, (unknown << places) | x))
}

/// The vector of so many digits of so many places, which are more than 128 only where the upper ones are 0.
fn fitted(width: u8, ones: u128, unknown: u128, places: u8, count: usize) -> Vec4
    requires width_low { 1 ≤ width }
    requires width_high { width ≤ 128 }
    requires low { 1 ≤ places }
    requires high { places ≤ 4 }
    requires some { 0 < count }
    requires ones_fit { ones < 2 ^ min 128 (places * count) }
    requires unknown_fit { unknown < 2 ^ min 128 (places * count) }
    ensures { result ≡ fitted width (bits_of (places * count) ones unknown) }
{
    let all = (count.min(128) * usize::from(places)).min(128) as u8;
    let read = Vec4 {
        width: all,
        ones,
        unknown,
    };
    let signed = (unknown >> (all - 1)) & 1 == 1;
    read.extend(width, signed)
}

/// The vector of decimal digits, or of one x or z.
fn decimal(width: u8, digits: &[u8]) -> Option<Vec4>
    requires low { 1 ≤ width }
    requires high { width ≤ 128 }
    ensures { result ≡ decimal_literal width (plain_digits digits.now) }
{
    match only_digit(digits) {
        Some(digit) => single(width, digit),
        None => of_some_number(width, decimal_number(digits)),
    }
}

/// The vector of one decimal digit, or of x or z.
fn single(width: u8, digit: u8) -> Option<Vec4>
    requires low { 1 ≤ width }
    requires high { width ≤ 128 }
    ensures { result ≡ decimal_literal width (digit ∷ []) }
{
    if is_x(digit) {
        return Some(Vec4::all_x(width));
    }
    if is_z(digit) {
        return Some(all_z(width));
    }
    of_some_number(width, decimal_step(digit, 0))
}

/// The vector of a number, where there is one.
fn of_some_number(width: u8, number: Option<u128>) -> Option<Vec4>
    requires low { 1 ≤ width }
    requires high { width ≤ 128 }
    ensures { result ≡ option_map (vector_of width) number }
{
    Some(Vec4::of_number(width, number?))
}

/// The single digit, where there is just one.
fn only_digit(digits: &[u8]) -> Option<u8>
    ensures { result ≡ only_of (plain_digits digits.now) }
{
    let mut only = None;
    for digit in digits {
        if *digit != b'_' {
            if only.is_some() {
                return None;
            }
            only = Some(*digit);
        }
    }
    only
}

/// The number of decimal digits. None where one isn't decimal, or the number isn't below 2^128.
fn decimal_number(digits: &[u8]) -> Option<u128>
    ensures { result ≡ decimal_number (plain_digits digits.now) }
{
    let mut number = 0;
    for digit in digits {
        if *digit != b'_' {
            number = decimal_step(*digit, number)?;
        }
    }
    Some(number)
}

/// The number after one more decimal digit.
fn decimal_step(digit: u8, number: u128) -> Option<u128>
    ensures { result ≡ decimal_step digit number }
{
    let value = char::from(digit).to_digit(10)?;
    number.checked_mul(10)?.checked_add(u128::from(value))
}

/// The vector of this width whose bits are all z.
fn all_z(width: u8) -> Vec4
    requires low { 1 ≤ width }
    requires high { width ≤ 128 }
    ensures { result ≡ replicate width Z }
{
    let all = mask(width);
    Vec4 {
        width,
        ones: all,
        unknown: all,
    }
}

/// The words of one digit of so many places.
fn digit_words(digit: u8, places: u8) -> Option<(u128, u128)>
    requires low { 1 ≤ places }
    requires high { places ≤ 4 }
    ensures none { IfNone result (digit_bits places digit ≡ None) }
    ensures some { IfSome result (λ words. IsDigit places digit words.0 words.1) }
{
    let all = mask(places);
    if is_x(digit) {
        return Some((0, all));
    }
    if is_z(digit) {
        return Some((all, all));
    }
    let value = char::from(digit).to_digit(1 << places)?;
    Some((u128::from(value), 0))
}

fn is_x(digit: u8) -> bool
    ensures { result ≡ is_x digit }
{
    matches!(digit, b'x' | b'X')
}

fn is_z(digit: u8) -> bool
    ensures { result ≡ is_z digit }
{
    matches!(digit, b'z' | b'Z')
}
