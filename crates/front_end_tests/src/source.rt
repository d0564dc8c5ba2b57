//! The source that a line of input stands for.

use four_state::NoMemory;
use std::alloc::Global;

/// The source of a line of this kind.
pub fn source_of(alloc: Global, kind: u8, line: &[u8]) -> Result<Vec<u8>, NoMemory> {
    let feed = if kind == b'.' { b' ' } else { b'\t' };
    let source = expanded(alloc, line, feed)?;
    match kind {
        b';' | b'#' => with_bytes(alloc, source.as_slice()),
        _ => Ok(source),
    }
}

/// The source of a line, with a line feed for each `feed`. Between two backquotes stands a number, a feed, and what is
/// repeated so many times; in that `$` is the number of the repeat, from 1 on.
fn expanded(alloc: Global, line: &[u8], feed: u8) -> Result<Vec<u8>, NoMemory> {
    let mut source = Vec::new(alloc);
    let mut part = Vec::new(alloc);
    let mut count: u32 = 0;
    let mut is_inside = false;
    let mut is_counted = false;
    for byte in line {
        let byte = if *byte == feed { b'\n' } else { *byte };
        if byte == b'`' {
            source = with_repeats(alloc, source, part.as_slice(), count)?;
            part.clear();
            count = 0;
            is_inside = !is_inside;
            is_counted = false;
        } else if !is_inside {
            source.push(byte)?;
        } else if is_counted {
            part.push(byte)?;
        } else if byte.is_ascii_digit() {
            count = count
                .saturating_mul(10)
                .saturating_add(u32::from(byte - b'0'));
        } else {
            is_counted = true;
        }
    }
    Ok(source)
}

/// A source with a part behind it so many times.
fn with_repeats(
    alloc: Global,
    source: Vec<u8>,
    part: &[u8],
    count: u32,
) -> Result<Vec<u8>, NoMemory> {
    let mut source = source;
    for number in 0..count {
        source = with_part(alloc, source, part, u64::from(number) + 1)?;
    }
    Ok(source)
}

/// A source with a part behind it, in which `$` is a number.
fn with_part(
    alloc: Global,
    source: Vec<u8>,
    part: &[u8],
    number: u64,
) -> Result<Vec<u8>, NoMemory> {
    let digits = format!(in alloc; "{number}")?;
    let mut source = source;
    for byte in part {
        if *byte == b'$' {
            source.extend_from_slice(digits.as_str().as_bytes())?;
        } else {
            source.push(*byte)?;
        }
    }
    Ok(source)
}

/// A source with a byte for each `\xHH` in it.
fn with_bytes(alloc: Global, text: &[u8]) -> Result<Vec<u8>, NoMemory> {
    let mut source = Vec::new(alloc);
    let mut skipped: u8 = 0;
    for at in 0..text.len() {
        if skipped > 0 {
            skipped -= 1;
        } else if let Some(byte) = byte_of(&text[at..]) {
            source.push(byte)?;
            skipped = 3;
        } else {
            source.push(text[at])?;
        }
    }
    Ok(source)
}

/// The byte that `\xHH` at the front of a text stands for.
fn byte_of(text: &[u8]) -> Option<u8> {
    match text {
        [b'\\', b'x', high, low, ..] => Some((digit_of(*high)? << 4) | digit_of(*low)?),
        _ => None,
    }
}

/// The value of a hexadecimal digit in lower case.
fn digit_of(byte: u8) -> Option<u8> {
    match byte {
        b'0'..=b'9' => Some(byte - b'0'),
        b'a'..=b'f' => Some(byte - b'a' + 10),
        _ => None,
    }
}
