//! Strings and comments.

ghost use Rattle.std.specs.Prelude.{◌≡◌, false, ◌≤◌, length, IfOk, IfSome};
ghost use Rattle.vera_lex.specs.Tokens.{string_bytes, meant};
ghost use Rattle.vera_lex.specs.Reading.{string_end, string_front, comment_end, comment_front};
ghost use Rattle.vera_lex.specs.Seen.{found};

use crate::bytes::{ends_line, is_escaped};
use crate::piece::{Found, Piece};
use four_state::{NoMemory, Text};
use std::alloc::Global;

/// How many bytes a string has behind its first `"`. E01 where an escape isn't listed, E02 where it isn't closed.
fn string_end(bytes: &[u8]) -> Result<usize, u8>
    ensures value { result ≡ string_end false bytes.now }
    ensures within { IfOk result (λ n. (1 ≤ n) × (n ≤ length bytes.now)) }
{
    let mut escape = false;
    for (i, byte) in bytes.iter().enumerate() {
        if escape {
            if !is_escaped(*byte) {
                return Err(1);
            }
            escape = false;
        } else {
            if *byte == b'"' {
                return Ok(i + 1);
            }
            if ends_line(*byte) {
                return Err(2);
            }
            escape = *byte == b'\\';
        }
    }
    if escape { Err(1) } else { Err(2) }
}

/// The string at the front.
#[tactic(auto, unfolding(crate::specs::Reading::string_front))]
pub fn string_front<'a>(text: &'a [u8]) -> Result<Found<'a>, u8>
    requires { 1 ≤ length text.now }
    ensures { found result ≡ string_front text.now }
{
    let bytes = &text[1..];
    let count = string_end(bytes)?;
    Ok(Found {
        piece: Piece::Str(&bytes[..count - 1]),
        count: count + 1,
    })
}

/// What an escape means.
fn meant(byte: u8) -> u8
    ensures { result ≡ meant byte }
{
    match byte {
        b'n' => 10,
        b't' => 9,
        _ => byte,
    }
}

/// The bytes that those between the `"` stand for.
pub fn string_text(alloc: Global, inner: &[u8]) -> Result<Text, NoMemory>
    ensures { IfOk result (λ t. t ≡ string_bytes false inner.now) }
{
    let mut bytes = Vec::new(alloc);
    let mut escape = false;
    for byte in inner {
        if escape {
            bytes.push(meant(*byte))?;
            escape = false;
        } else if *byte == b'\\' {
            escape = true;
        } else {
            bytes.push(*byte)?;
        }
    }
    Ok(Text::of(bytes))
}

/// How many bytes a comment has behind its `/*`.
fn comment_end(bytes: &[u8]) -> Option<usize>
    ensures value { result ≡ comment_end 0 bytes.now }
    ensures within { IfSome result (λ n. n ≤ length bytes.now) }
{
    let mut before = 0;
    for (i, byte) in bytes.iter().enumerate() {
        if before == b'*' && *byte == b'/' {
            return Some(i + 1);
        }
        before = *byte;
    }
    None
}

/// The comment of `/*` at the front. E02 where it isn't closed.
#[tactic(auto, unfolding(crate::specs::Reading::comment_front))]
pub fn comment_front<'a>(text: &'a [u8]) -> Result<Found<'a>, u8>
    requires { 2 ≤ length text.now }
    ensures { found result ≡ comment_front text.now }
{
    match comment_end(&text[2..]) {
        None => Err(2),
        Some(count) => Ok(Found {
            piece: Piece::Gap,
            count: count + 2,
        }),
    }
}
