//! Operations on texts, and on lists whose items are a text's bytes.

use four_state::{List, NoMemory, Text};
use std::alloc::Global;

/// A copy of a text with another one added at its end.
pub fn joined(alloc: Global, first: &str, second: &str) -> Result<Text, NoMemory> {
    let mut text = Text::from_slice(alloc, first.as_bytes())?;
    text.push_slice(second.as_bytes())?;
    Ok(text)
}

pub fn is_the_empty(alloc: Global, bytes: &str) -> Result<bool, NoMemory> {
    Ok(Text::from_slice(alloc, bytes.as_bytes())? == Text::empty(alloc))
}

pub fn equals(alloc: Global, first: &str, second: &str) -> Result<bool, NoMemory> {
    let first = Text::from_slice(alloc, first.as_bytes())?;
    Ok(first == Text::of(Vec::from_slice(alloc, second.as_bytes())?))
}

/// The list of these bytes, one added behind the other.
pub fn list(alloc: Global, bytes: &str) -> Result<List<u8>, NoMemory> {
    let mut list = List::empty(alloc);
    for byte in bytes.as_bytes() {
        list.push(*byte)?;
    }
    Ok(list)
}

pub fn lists_equal(alloc: Global, first: &str, second: &str) -> Result<bool, NoMemory> {
    let first = list(alloc, first)?;
    Ok(first == List::of(Vec::from_slice(alloc, second.as_bytes())?))
}
