//! What the words of one line mean.
ghost use Rattle.std.specs.Prelude.{◌≡◌, IfOk, bytes_eq};
ghost use Rattle.blif_read.specs.Directives.{bit, row_parts, control, first_value, latch_of, names_directive, latch_directive, directive, is_row, is_end};

use crate::directives::Directive;
use crate::lines::Line;
use four_state::{List, NoMemory, Text};
use std::alloc::Global;

pub fn is_word(word: &Text, expected: &[u8]) -> bool
    ensures { result ≡ bytes_eq word.now expected.now }
{
    word.as_slice() == expected
}

/// Whether a line is no directive.
#[tactic(auto, unfolding(crate::specs::Directives::is_row))]
pub fn is_row(line: &Line) -> bool
    ensures { result ≡ is_row line.now }
{
    !line.first.as_slice().starts_with(b".")
}

#[tactic(auto, unfolding(crate::specs::Directives::is_end))]
pub fn is_end(line: &Line) -> bool
    ensures { result ≡ is_end line.now }
{
    is_word(&line.first, b".end")
}

fn bit(word: &Text) -> Option<bool>
    ensures { result ≡ bit word.now }
{
    if is_word(word, b"0") {
        Some(false)
    } else if is_word(word, b"1") {
        Some(true)
    } else {
        None
    }
}

/// A row's characters for the inputs and its bit, from the words of its line.
#[tactic(auto, unfolding(crate::specs::Directives::row_parts))]
pub fn row_parts(alloc: Global, first: Text, rest: &[Text]) -> Option<(Text, bool)>
    ensures { result ≡ row_parts first rest.now }
{
    match rest {
        [] => Some((Text::empty(alloc), bit(&first)?)),
        [last] => Some((first, bit(last)?)),
        _ => None,
    }
}

/// A latch's first value from the words behind its control.
fn first_value(words: &[Text]) -> Option<u8>
    ensures { result ≡ first_value words.now }
{
    match words {
        [] => Some(3),
        [word] => match word.as_slice() {
            [digit @ b'0'..=b'3'] => Some(*digit - b'0'),
            _ => None,
        },
        _ => None,
    }
}

fn control(word: &Text) -> Result<Option<Text>, NoMemory>
    ensures { IfOk result (λ found. found ≡ control word.now) }
{
    if is_word(word, b"NIL") {
        return Ok(None);
    }
    Ok(Some(word.copy()?))
}

fn latch(
    input: &Text,
    output: &Text,
    control: Option<Text>,
    init: Option<u8>,
) -> Result<Directive<Text>, NoMemory>
    ensures { IfOk result (λ found. found ≡ latch_of input.now output.now control init) }
{
    match init {
        Some(init) => Ok(Directive::Latch(input.copy()?, output.copy()?, control, init)),
        None => Ok(Directive::BadLatch),
    }
}

/// `.latch in out [re control] [init]`, from the words behind `.latch`.
fn latch_directive(words: &[Text]) -> Result<Directive<Text>, NoMemory>
    ensures { IfOk result (λ found. found ≡ latch_directive words.now) }
{
    match words {
        [input, output] => latch(input, output, None, Some(3)),
        [input, output, word] => latch(
            input,
            output,
            None,
            first_value(std::slice::from_ref(word)),
        ),
        [input, output, kind, gate, more @ ..] => {
            if is_word(kind, b"re") {
                latch(input, output, control(gate)?, first_value(more))
            } else {
                Ok(Directive::BadLatch)
            }
        }
        _ => Ok(Directive::BadLatch),
    }
}

/// `.names in .. out`, from the words behind `.names`.
#[tactic(auto, using(crate::proofs::Covers::names_of_last))]
fn names_directive(words: List<Text>) -> Directive<Text>
    ensures { result ≡ names_directive words }
{
    let mut inputs = words.into_vec();
    match inputs.pop() {
        Some(output) => Directive::Names(List::of(inputs), output),
        None => Directive::Unknown,
    }
}

/// The directive that begins with the first word.
#[tactic(auto, unfolding(crate::specs::Directives::directive))]
pub fn directive(first: &Text, rest: List<Text>) -> Result<Directive<Text>, NoMemory>
    ensures { IfOk result (λ found. found ≡ directive first.now rest) }
{
    if is_word(first, b".model") {
        Ok(Directive::Model(rest.len()))
    } else if is_word(first, b".inputs") {
        Ok(Directive::Inputs(rest))
    } else if is_word(first, b".outputs") {
        Ok(Directive::Outputs(rest))
    } else if is_word(first, b".clock") {
        Ok(Directive::Clock(rest))
    } else if is_word(first, b".names") {
        Ok(names_directive(rest))
    } else if is_word(first, b".latch") {
        latch_directive(rest.as_slice())
    } else if is_word(first, b".end") {
        Ok(Directive::End)
    } else {
        Ok(Directive::Unknown)
    }
}
