//! Literals and their values.

ghost use Rattle.std.specs.Prelude.{◌≡◌, true, ◌+◌, ◌<◌, ◌≤◌, ◌^◌, ◌==◌, ◌||◌, ◌&&◌, ◌↔◌, length, take, drop, slice_index, IsTrue, if◌then◌else◌, Some, None, nat_lt, Any, ◌≢◌};
ghost use Rattle.four_state.specs.Literals.{is_base as is_base_number, is_x, is_z, is_only, plain_digits, literal_of};
ghost use Rattle.four_state.specs.Readings.{only_of};
ghost use Rattle.vera_lex.specs.Bytes.{is_digit as is_decimal, is_base, in_decimal, run, all};
ghost use Rattle.vera_lex.specs.Literals as spec;
ghost use Rattle.vera_lex.specs.Reading.{number_front, based_front, numbered};
ghost use Rattle.vera_lex.specs.Seen.{found};

use crate::bytes::{byte_at, decimal_length, is_base, is_digit, word_length};
use crate::piece::{Found, Piece};
use four_state::Vec4;

/// The base of its letter.
fn base_of(letter: u8) -> u8
    ensures value { result ≡ spec.base_of letter }
    ensures base { IsTrue (is_base_number result) }
{
    match letter {
        b'b' | b'B' => 2,
        b'o' | b'O' => 8,
        b'd' | b'D' => 10,
        _ => 16,
    }
}

fn is_x_or_z(digit: u8) -> bool
    ensures { result ≡ spec.is_x_or_z digit }
{
    matches!(digit, b'x' | b'X' | b'z' | b'Z')
}

/// The single digit, where there is just one.
fn only_digit(digits: &[u8]) -> Option<u8>
    ensures { result ≡ only_of (plain_digits digits.now) }
{
    let mut only = None;
    for digit in digits {
        if *digit != b'_' {
            if only.is_some() {
                return None;
            }
            only = Some(*digit);
        }
    }
    only
}

/// Whether the digits are one x or z.
fn is_only_x_or_z(digits: &[u8]) -> bool
    ensures { result ≡ is_only spec.is_x_or_z (plain_digits digits.now) }
{
    match only_digit(digits) {
        None => false,
        Some(digit) => is_x_or_z(digit),
    }
}

fn is_digit_of(base: u8, digit: u8) -> bool
    requires low { 2 ≤ base }
    requires high { base ≤ 16 }
    ensures { result ≡ spec.is_digit_of base digit }
{
    is_x_or_z(digit) || char::from(digit).is_digit(u32::from(base))
}

fn has_digit(digits: &[u8]) -> bool
    ensures { result ≡ nat_lt 0 (length (plain_digits digits.now)) }
{
    for digit in digits {
        if *digit != b'_' {
            return true;
        }
    }
    false
}

/// Whether all digits are decimal.
fn are_decimal(digits: &[u8]) -> bool
    ensures { result ≡ all is_decimal (plain_digits digits.now) }
{
    for digit in digits {
        if *digit != b'_' && !is_digit(*digit) {
            return false;
        }
    }
    true
}

/// Whether all digits are of the base, x or z.
fn are_of_base(base: u8, digits: &[u8]) -> bool
    requires low { 2 ≤ base }
    requires high { base ≤ 16 }
    ensures { result ≡ all (spec.is_digit_of base) (plain_digits digits.now) }
{
    for digit in digits {
        if *digit != b'_' && !is_digit_of(base, *digit) {
            return false;
        }
    }
    true
}

/// Whether there is a digit, and none is wrong.
#[tactic(auto, unfolding(crate::specs::Literals::are_digits))]
fn are_digits(base: u8, digits: &[u8]) -> bool
    requires base { IsTrue (is_base_number base) }
    ensures { result ≡ spec.are_digits base digits.now }
{
    has_digit(digits)
        && if base == 10 {
            is_only_x_or_z(digits) || are_decimal(digits)
        } else {
            are_of_base(base, digits)
        }
}

/// The number of digits and `_`, if it is below 2 to the 32.
fn small_number(digits: &[u8]) -> Option<u32>
    requires { all in_decimal digits.now ≡ true }
    ensures { result ≡ (if nat_lt (spec.decimal_value digits.now) (2 ^ 32) then Some (spec.decimal_value digits.now) else None) }
{
    let mut value: u64 = 0;
    for digit in digits {
        if *digit != b'_' {
            value = value * 10 + u64::from(*digit - b'0');
            if value > u64::from(u32::MAX) {
                return None;
            }
        }
    }
    Some(value as u32)
}

/// How many bits a digit of so many places needs.
fn bits_of_digit(places: u8, digit: u8) -> u8
    requires { places ≤ 4 }
    ensures value { result ≡ spec.bits_of_digit places digit }
    ensures within { result ≤ 4 }
{
    if is_x_or_z(digit) {
        return places;
    }
    match char::from(digit).to_digit(16) {
        Some(0) => 0,
        Some(1) => 1,
        Some(2..=3) => 2,
        Some(4..=7) => 3,
        _ => 4,
    }
}

/// How many bits a digit adds to those of the digits before it.
fn further_bits(bits: u64, places: u8, digit: u8) -> u8
    requires { places ≤ 4 }
    ensures value { result ≡ (if bits == 0 then spec.bits_of_digit places digit else places) }
    ensures within { result ≤ 4 }
{
    if bits == 0 {
        bits_of_digit(places, digit)
    } else {
        places
    }
}

/// How many bits digits of so many places need.
fn bits_of_digits(places: u8, digits: &[u8]) -> u64
    requires places { places ≤ 4 }
    requires count { length digits.now < 4294967295 }
    ensures { result ≡ spec.bits_of_digits places (plain_digits digits.now) }
{
    let mut bits: u64 = 0;
    for digit in digits {
        if *digit != b'_' {
            bits += u64::from(further_bits(bits, places, *digit));
        }
    }
    bits
}

fn places(base: u8) -> u8
    ensures value { result ≡ spec.places base }
    ensures within { result ≤ 4 }
{
    match base {
        2 => 1,
        8 => 3,
        _ => 4,
    }
}

/// Whether right digits need no more than 32 bits.
fn fits_in_32(base: u8, digits: &[u8]) -> bool
    requires right { spec.are_digits base digits.now ≡ true }
    requires count { length digits.now < 4294967295 }
    ensures { result ≡ spec.fits_in_32 base (plain_digits digits.now) }
{
    if base == 10 {
        is_only_x_or_z(digits) || small_number(digits).is_some()
    } else {
        bits_of_digits(places(base), digits) <= 32
    }
}

/// The value of a literal without a width. None is E03.
#[tactic(auto, unfolding(crate::specs::Literals::without_width))]
fn without_width(base: u8, digits: &[u8]) -> Option<Vec4>
    requires base { IsTrue (is_base_number base) }
    requires right { spec.are_digits base digits.now ≡ true }
    requires count { length digits.now < 4294967295 }
    ensures { result ≡ spec.without_width base digits.now }
{
    if fits_in_32(base, digits) {
        Vec4::from_digits(32, base, digits)
    } else {
        None
    }
}

/// The value of a literal with a width. None is E03.
fn with_width(width: &[u8], base: u8, digits: &[u8]) -> Option<Vec4>
    requires width { all in_decimal width.now ≡ true }
    requires base { IsTrue (is_base_number base) }
    requires right { spec.are_digits base digits.now ≡ true }
    ensures { result ≡ literal_of (spec.decimal_value width.now) base digits.now }
{
    match small_number(width) {
        None => None,
        Some(width) => {
            if width > 128 {
                None
            } else {
                Vec4::from_digits(width as u8, base, digits)
            }
        }
    }
}

/// The based literal of a width and a base, with the bytes behind its base.
#[tactic(auto, unfolding(crate::specs::Reading::based_front))]
fn based_front<'a>(width: &[u8], base: u8, behind: &[u8]) -> Result<Found<'a>, u8>
    requires width { all in_decimal width.now ≡ true }
    requires base { IsTrue (is_base_number base) }
    requires count { length width.now + length behind.now < 4294967295 }
    ensures { found result ≡ based_front width.now base behind.now }
{
    let count = word_length(behind);
    let digits = &behind[..count];
    if !are_digits(base, digits) {
        return Err(1);
    }
    let value = if width.is_empty() {
        without_width(base, digits)
    } else {
        with_width(width, base, digits)
    };
    match value {
        None => Err(3),
        Some(bits) => Ok(Found {
            piece: Piece::Number(bits, false),
            count: width.len() + 2 + count,
        }),
    }
}

/// An unsized decimal of these digits.
fn decimal_front<'a>(digits: &[u8]) -> Result<Found<'a>, u8>
    requires digits { all in_decimal digits.now ≡ true }
    requires right { spec.are_digits 10 digits.now ≡ true }
    requires count { length digits.now < 4294967295 }
    ensures { found result ≡ numbered true (length digits.now) (spec.without_width 10 digits.now) }
{
    match without_width(10, digits) {
        None => Err(3),
        Some(bits) => Ok(Found {
            piece: Piece::Number(bits, true),
            count: digits.len(),
        }),
    }
}

/// The literal at the front, which begins with a digit or `'`. E01 where it has no digit or a wrong one, E03 where its
/// width isn't 1 to 128 or it needs too many bits.
#[tactic(auto, unfolding(crate::specs::Reading::number_front))]
pub fn number_front<'a>(text: &'a [u8]) -> Result<Found<'a>, u8>
    requires first { (is_decimal (slice_index text.now 0) || slice_index text.now 0 == 39) ≡ true }
    requires count { length text.now < 4294967295 }
    ensures { found result ≡ number_front text.now }
{
    let count = decimal_length(text);
    let digits = &text[..count];
    let letter = byte_at(text, count + 1);
    if byte_at(text, count) == b'\'' && is_base(letter) {
        return based_front(digits, base_of(letter), &text[count + 2..]);
    }
    if count == 0 {
        return Err(1);
    }
    decimal_front(digits)
}
