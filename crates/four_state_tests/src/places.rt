//! Operations on places and widths.

use crate::operands::{number, small, vector, width};
use crate::problem::Problem;
use four_state::{Bit, Vec4};

/// The bit at a place.
pub fn bit(place: &str, bits: &str) -> Result<Bit, Problem> {
    let (place, vector) = (small(place)?, vector(bits)?);
    if place < vector.width() {
        Ok(vector.bit(place))
    } else {
        Err(Problem::Unsupported)
    }
}

pub fn selected(high: &str, low: &str, bits: &str) -> Result<Vec4, Problem> {
    let (high, low, vector) = (small(high)?, small(low)?, vector(bits)?);
    if low <= high && high < 128 {
        Ok(vector.select(high, low))
    } else {
        Err(Problem::Unsupported)
    }
}

pub fn extended(to: &str, bits: &str, signed: bool) -> Result<Vec4, Problem> {
    let to = width(to)?;
    Ok(vector(bits)?.extend(to, signed))
}

pub fn all_x(of: &str) -> Result<Vec4, Problem> {
    Ok(Vec4::all_x(width(of)?))
}

pub fn of_number(of: &str, digits: &str) -> Result<Vec4, Problem> {
    let of = width(of)?;
    Ok(Vec4::of_number(of, number(digits)?))
}

/// The vector of these words, where there is one.
pub fn of_words(width: &str, ones: &str, unknown: &str) -> Result<Option<Vec4>, Problem> {
    Ok(Vec4::new(small(width)?, number(ones)?, number(unknown)?))
}
