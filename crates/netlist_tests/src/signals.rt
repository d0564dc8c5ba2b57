//! Interfaces as a line has them.

use crate::problem::Problem;
use crate::texts::{number, numbered};
use four_state::{List, Text};
use std::alloc::Global;
use vera_ast::{Direction, TypedInterface, TypedItem, TypedSignal, TypedSignalKind, Width};

/// `NAME SIGNAL, SIGNAL, ..`.
pub fn interface(alloc: Global, operand: &str) -> Result<TypedItem, Problem> {
    let Some((name, texts)) = operand.split_once(' ') else {
        return Err(Problem::Unsupported);
    };
    let mut signals = List::empty(alloc);
    for text in texts.split(", ") {
        push_signals(alloc, &mut signals, text)?;
    }
    Ok(TypedItem::Interface(TypedInterface {
        line: 1,
        name: Text::from_slice(alloc, name.as_bytes())?,
        signals,
    }))
}

/// Adds the signals of `DIRECTION WIDTH NAME KIND`, with or without `times COUNT` before it.
fn push_signals(alloc: Global, signals: &mut List<TypedSignal>, text: &str) -> Result<(), Problem> {
    let words: Vec<&str> = text.split(' ').collect(alloc)?;
    let (count, words) = match words.as_slice() {
        ["times", count, words @ ..] => (number(count)?, words),
        words => (1, words),
    };
    for repeat in 0..count {
        signals.push(signal(alloc, words, repeat)?)?;
    }
    Ok(())
}

fn signal(alloc: Global, words: &[&str], repeat: u32) -> Result<TypedSignal, Problem> {
    let [direction, bits, name, kind] = words else {
        return Err(Problem::Unsupported);
    };
    let (direction, kind) = match (*direction, *kind) {
        ("input", "clock") => (Direction::Input, TypedSignalKind::Clock),
        ("input", "sample") => (Direction::Input, TypedSignalKind::PositiveSample),
        ("output", "hold") => (Direction::Output, TypedSignalKind::PositiveHold),
        _ => return Err(Problem::Unsupported),
    };
    Ok(TypedSignal {
        line: 1,
        direction,
        width: width(bits)?,
        name: Text::of(numbered(alloc, name, repeat)?),
        kind,
    })
}

fn width(digits: &str) -> Result<Width, Problem> {
    match digits.parse::<u8>() {
        Ok(bits @ 1..=128) => Ok(Width { bits }),
        _ => Err(Problem::Unsupported),
    }
}
