//! One line of input, and what is answered to it.

use crate::show::Out;
use crate::show::items::tree;
use crate::show::tokens::{last_token, token_list};
use crate::source::source_of;
use four_state::NoMemory;
use not_built::{not_built, not_checked};
use std::alloc::{AllocError, Global};
use vera_ast::{FrontError, Refusal, Token};
use vera_lex::lex;
use vera_parse::parse;
use vera_types::check;

/// The answer to a line of input.
pub fn answer(alloc: Global, line: &[u8]) -> Result<Vec<u8>, AllocError> {
    match written(alloc, line) {
        Ok(text) => Ok(text),
        Err(_) => Vec::from_slice(alloc, b"out of memory\n"),
    }
}

fn written(alloc: Global, line: &[u8]) -> Result<Vec<u8>, NoMemory> {
    let mut out = Out::new(alloc);
    if line.len() < 2 {
        out.put(b"?\n")?;
        return Ok(out.text);
    }
    let kind = line[0];
    let source = source_of(alloc, kind, &line[2..])?;
    match lexed(alloc, source.as_slice()) {
        Err(error) => refusal(&mut out, error)?,
        Ok(tokens) => answered(&mut out, kind, tokens.as_slice())?,
    }
    Ok(out.text)
}

/// The answer to these tokens in a line of this kind.
fn answered(out: &mut Out, kind: u8, tokens: &[Token]) -> Result<(), NoMemory> {
    match kind {
        b';' => token_list(out, tokens),
        b'#' => last_token(out, tokens),
        b'<' => fronts(out, tokens),
        b'?' => checked(out, tokens),
        b'!' => built(out, tokens),
        _ => parsed(out, tokens),
    }
}

/// The tokens of a source that isn't over the lexer's bound.
fn lexed(alloc: Global, source: &[u8]) -> Result<Vec<Token>, FrontError> {
    if source.len() < 4_294_967_295 {
        lex(alloc, source)
    } else {
        Err(FrontError::NoMemory)
    }
}

/// What is answered to each front of these tokens, the whole among them: the number of its tokens, and the answer.
fn fronts(out: &mut Out, tokens: &[Token]) -> Result<(), NoMemory> {
    for count in 0..=tokens.len() {
        out.number(count as u64)?;
        out.put(b" ")?;
        parsed(out, &tokens[..count])?;
    }
    Ok(())
}

fn parsed(out: &mut Out, tokens: &[Token]) -> Result<(), NoMemory> {
    match parse(out.alloc, tokens) {
        Ok(file) => {
            tree(out, &file)?;
            out.put(b"\n")
        }
        Err(error) => refusal(out, error),
    }
}

/// Whether the checker accepts the tree of these tokens, or the first refusal.
fn checked(out: &mut Out, tokens: &[Token]) -> Result<(), NoMemory> {
    let file = match parse(out.alloc, tokens) {
        Ok(file) => file,
        Err(error) => return refusal(out, error),
    };
    match check(out.alloc, &file) {
        Ok(_) => out.put(b"accepted\n"),
        Err(error) => refusal(out, error),
    }
}

/// What isn't built yet of the tree of these tokens: for a run, and for the checker alone.
fn built(out: &mut Out, tokens: &[Token]) -> Result<(), NoMemory> {
    let file = match parse(out.alloc, tokens) {
        Ok(file) => file,
        Err(error) => return refusal(out, error),
    };
    construct(out, not_built(&file))?;
    out.put(b", ")?;
    construct(out, not_checked(&file))?;
    out.put(b"\n")
}

/// `E90 7` where a construct that begins on line 7 isn't built.
fn construct(out: &mut Out, line: Option<u32>) -> Result<(), NoMemory> {
    match line {
        None => out.put(b"built"),
        Some(line) => {
            out.put(b"E90 ")?;
            out.number(u64::from(line))
        }
    }
}

/// `E10 7` is the refusal E10 on line 7.
fn refusal(out: &mut Out, error: FrontError) -> Result<(), NoMemory> {
    match error {
        FrontError::Refused(Refusal { code, line }) => {
            out.put(if code < 10 { b"E0" } else { b"E" })?;
            out.number(u64::from(code))?;
            out.put(b" ")?;
            out.number(u64::from(line))?;
            out.put(b"\n")
        }
        FrontError::NoMemory => Err(NoMemory),
    }
}
