//! Operands as a line has them.

ghost use Rattle.std.specs.Prelude.{◌≤◌, IfOk};

use crate::problem::Problem;
use four_state::Vec4;

/// The vector of these bits, highest first.
pub fn vector(bits: &str) -> Result<Vec4, Problem> {
    match u8::try_from(bits.len()) {
        Ok(width) => literal(width, 2, bits)?.ok_or(Problem::Unsupported),
        Err(_) => Err(Problem::Unsupported),
    }
}

/// The vector of a literal, where there is one.
pub fn literal(width: u8, base: u8, digits: &str) -> Result<Option<Vec4>, Problem> {
    let is_base = base == 2 || base == 8 || base == 10 || base == 16;
    if is_base && digits.bytes().any(|digit| digit != b'_') {
        Ok(Vec4::from_digits(width, base, digits.as_bytes()))
    } else {
        Err(Problem::Unsupported)
    }
}

/// A width that a vector can have.
pub fn width(digits: &str) -> Result<u8, Problem>
    ensures low { IfOk result (λ w. 1 ≤ w) }
    ensures high { IfOk result (λ w. w ≤ 128) }
{
    let width = small(digits)?;
    if width >= 1 && width <= 128 {
        Ok(width)
    } else {
        Err(Problem::Unsupported)
    }
}

/// A width, a base or a place.
pub fn small(digits: &str) -> Result<u8, Problem> {
    match digits.parse::<u8>() {
        Ok(number) => Ok(number),
        Err(_) => Err(Problem::Unsupported),
    }
}

pub fn number(digits: &str) -> Result<u128, Problem> {
    match digits.parse::<u128>() {
        Ok(number) => Ok(number),
        Err(_) => Err(Problem::Unsupported),
    }
}
