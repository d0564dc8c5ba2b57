//! The texts that a line of the script stands for.

use crate::problem::Problem;
use std::alloc::{AllocError, Global};

/// The number that these digits are.
pub fn number(digits: &str) -> Result<u32, Problem> {
    match digits.parse::<u32>() {
        Ok(number) => Ok(number),
        Err(_) => Err(Problem::Unsupported),
    }
}

/// `COUNT TEXT`: the text so many times, with the number of the repeat for each `$`.
pub fn repeated(alloc: Global, operand: &str) -> Result<Vec<u8>, Problem> {
    let Some((count, part)) = operand.split_once(' ') else {
        return Err(Problem::Unsupported);
    };
    let mut text = Vec::new(alloc);
    for repeat in 0..number(count)? {
        text.extend_from_slice(numbered(alloc, part, repeat)?.as_slice())?;
    }
    Ok(text)
}

/// A text with a number for each `$`.
pub fn numbered(alloc: Global, part: &str, number: u32) -> Result<Vec<u8>, AllocError> {
    let digits = format!(in alloc; "{number}")?;
    let mut text = Vec::new(alloc);
    for byte in part.bytes() {
        if byte == b'$' {
            text.extend_from_slice(digits.as_bytes())?;
        } else {
            text.push(byte)?;
        }
    }
    Ok(text)
}

/// A text with a byte for each `\xHH`.
pub fn unescaped(alloc: Global, line: &[u8]) -> Result<Vec<u8>, AllocError> {
    let mut text = Vec::new(alloc);
    let mut skipped: u8 = 0;
    for at in 0..line.len() {
        if skipped > 0 {
            skipped -= 1;
        } else if let Some(byte) = escaped(&line[at..]) {
            text.push(byte)?;
            skipped = 3;
        } else {
            text.push(line[at])?;
        }
    }
    Ok(text)
}

/// The byte that `\xHH` at the front of a text stands for.
fn escaped(text: &[u8]) -> Option<u8> {
    match text {
        [b'\\', b'x', high, low, ..] => Some((digit(*high)? << 4) | digit(*low)?),
        _ => None,
    }
}

/// The value of a hexadecimal digit in lower case.
fn digit(byte: u8) -> Option<u8> {
    match byte {
        b'0'..=b'9' => Some(byte - b'0'),
        b'a'..=b'f' => Some(byte - b'a' + 10),
        _ => None,
    }
}
