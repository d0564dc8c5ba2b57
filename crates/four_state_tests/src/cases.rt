//! One line of input, and what is answered to it.

use crate::operands::{literal, small, vector};
use crate::problem::Problem;
use crate::{operators, places, texts};
use four_state::{List, Text, Vec4};
use std::alloc::Global;

/// The answer to a line of input.
pub fn answer(alloc: Global, line: &str) -> Result<Text, Problem> {
    if line.starts_with('#') {
        return Ok(Text::from_slice(alloc, line.as_bytes())?);
    }
    let words: Vec<&str> = line.split(' ').collect(alloc)?;
    match words.as_slice() {
        ["signed", words @ ..] => of_words(alloc, words, true),
        words => of_words(alloc, words, false),
    }
}

fn of_words(alloc: Global, words: &[&str], signed: bool) -> Result<Text, Problem> {
    match words {
        ["list_is_empty"] => truth(alloc, List::<u8>::empty(alloc).is_empty()),
        [name, operand] => of_one(alloc, name, operand, signed),
        [name, first, second] => of_two(alloc, name, first, second, signed),
        [name, first, second, third] => of_three(alloc, name, first, second, third),
        _ => Err(Problem::Unsupported),
    }
}

fn of_one(alloc: Global, name: &str, operand: &str, signed: bool) -> Result<Text, Problem> {
    match name {
        "text_copy" => Ok(Text::from_slice(alloc, operand.as_bytes())?.copy()?),
        "text_len" => count(alloc, Text::from_slice(alloc, operand.as_bytes())?.len()),
        "text_is_empty" => truth(
            alloc,
            Text::from_slice(alloc, operand.as_bytes())?.is_empty(),
        ),
        "text_is_the_empty" => truth(alloc, texts::is_the_empty(alloc, operand)?),
        "list_as_slice" => Ok(Text::from_slice(alloc, texts::list(alloc, operand)?.as_slice())?),
        "list_into_vec" => Ok(Text::of(texts::list(alloc, operand)?.into_vec())),
        "list_len" => count(alloc, texts::list(alloc, operand)?.len()),
        "all_x" => bits(alloc, Some(places::all_x(operand)?)),
        _ => of_vector(alloc, name, &vector(operand)?, signed),
    }
}

fn of_vector(alloc: Global, name: &str, a: &Vec4, signed: bool) -> Result<Text, Problem> {
    match name {
        "hex" => Ok(a.to_hex_text(alloc)?),
        "decimal" => Ok(a.to_decimal_text(alloc, signed)?),
        "is_known" => truth(alloc, a.is_known()),
        "logic" => text(format!(in alloc; "{:?}", a.logic())?),
        "parts" => text(format!(in alloc; "{} {} {}", a.width(), a.ones(), a.unknown())?),
        "number" if a.is_known() => text(format!(in alloc; "{}", a.number())?),
        "signed_number" if a.is_known() => text(format!(in alloc; "{}", a.signed_number())?),
        _ => match operators::single(name, a) {
            Some(result) => bits(alloc, Some(result)),
            None => Err(Problem::Unsupported),
        },
    }
}

fn of_two(
    alloc: Global,
    name: &str,
    first: &str,
    second: &str,
    signed: bool,
) -> Result<Text, Problem> {
    match name {
        "text_push_slice" => Ok(texts::joined(alloc, first, second)?),
        "text_equals" => truth(alloc, texts::equals(alloc, first, second)?),
        "list_get" => item(alloc, first, second),
        "list_equals" => truth(alloc, texts::lists_equal(alloc, first, second)?),
        "bit" => text(format!(in alloc; "{:?}", places::bit(first, second)?)?),
        "glyph" => Ok(Text::from_slice(alloc, &[places::bit(first, second)?.glyph()])?),
        "extend" => bits(alloc, Some(places::extended(first, second, signed)?)),
        "of_number" => bits(alloc, Some(places::of_number(first, second)?)),
        _ => of_vectors(alloc, name, &vector(first)?, &vector(second)?, signed),
    }
}

fn of_vectors(
    alloc: Global,
    name: &str,
    a: &Vec4,
    b: &Vec4,
    signed: bool,
) -> Result<Text, Problem> {
    match name {
        "concat" => bits(alloc, a.concat(b)),
        "equals" => truth(alloc, a == b),
        _ => match operators::pair(name, a, b, signed) {
            Some(result) => bits(alloc, Some(result)),
            None => Err(Problem::Unsupported),
        },
    }
}

fn of_three(
    alloc: Global,
    name: &str,
    first: &str,
    second: &str,
    third: &str,
) -> Result<Text, Problem> {
    match name {
        "select" => bits(alloc, Some(places::selected(first, second, third)?)),
        "new" => bits(alloc, places::of_words(first, second, third)?),
        "literal" => bits(alloc, literal(small(first)?, small(second)?, third)?),
        _ => Err(Problem::Unsupported),
    }
}

/// A vector's bits, highest first, or `-` for none.
fn bits(alloc: Global, vector: Option<Vec4>) -> Result<Text, Problem> {
    match vector {
        Some(vector) => Ok(vector.to_binary_text(alloc)?),
        None => Ok(Text::from_slice(alloc, b"-")?),
    }
}

/// The item at a place of the list of these bytes, or `-` for none.
fn item(alloc: Global, place: &str, bytes: &str) -> Result<Text, Problem> {
    let list = texts::list(alloc, bytes)?;
    match list.get(usize::from(small(place)?)) {
        Some(item) => Ok(Text::from_slice(alloc, &[*item])?),
        None => Ok(Text::from_slice(alloc, b"-")?),
    }
}

fn truth(alloc: Global, holds: bool) -> Result<Text, Problem> {
    text(format!(in alloc; "{holds}")?)
}

fn count(alloc: Global, count: usize) -> Result<Text, Problem> {
    text(format!(in alloc; "{count}")?)
}

fn text(text: String) -> Result<Text, Problem> {
    Ok(Text::of(text.into_bytes()))
}
