//! Tokens, each with its line and its number.

use super::Out;
use four_state::{NoMemory, Vec4};
use vera_ast::{Token, TokenKind, code};

/// `1:59 integer, 1:48 a, 2:6` are two words and a sign.
pub fn token_list(out: &mut Out, tokens: &[Token]) -> Result<(), NoMemory> {
    for (at, item) in tokens.iter().enumerate() {
        if at > 0 {
            out.put(b", ")?;
        }
        token(out, item)?;
    }
    out.put(b"\n")
}

/// `3 2:6` are three tokens, of which the last is the sign.
pub fn last_token(out: &mut Out, tokens: &[Token]) -> Result<(), NoMemory> {
    out.number(tokens.len() as u64)?;
    if let Some(item) = tokens.last() {
        out.put(b" ")?;
        token(out, item)?;
    }
    out.put(b"\n")
}

/// The line, the number of the kind, and what a sign doesn't have: the word, the string or the value.
fn token(out: &mut Out, token: &Token) -> Result<(), NoMemory> {
    out.line(token.line)?;
    out.number(u64::from(code(&token.kind)))?;
    match &token.kind {
        TokenKind::Punct(_) => Ok(()),
        TokenKind::Word(word) => {
            out.put(b" ")?;
            out.name(word)
        }
        TokenKind::Str(text) => {
            out.put(b" ")?;
            out.string(text)
        }
        TokenKind::Number(value, is_decimal) => {
            out.put(b" ")?;
            number(out, value, *is_decimal)
        }
    }
}

/// `integer 32'd7` is an unsized decimal, `4'b10x1` another literal: the width, and the number or the bits.
fn number(out: &mut Out, value: &Vec4, is_decimal: bool) -> Result<(), NoMemory> {
    if is_decimal {
        out.put(b"integer ")?;
    }
    out.number(u64::from(value.width()))?;
    let digits = if is_decimal {
        out.put(b"'d")?;
        value.to_decimal_text(out.alloc, false)?
    } else {
        out.put(b"'b")?;
        value.to_binary_text(out.alloc)?
    };
    out.name(&digits)
}
