//! The tokens so far, the defined names, and the line.

ghost use Rattle.std.specs.Prelude.{◌≡◌, ◌+◌, ◌<◌, ◌≤◌, ◌^◌, ◌++◌, length, map, IfOk, OnOk, [], ◌∷◌};
ghost use Rattle.vera_lex.specs.Tokens as spec;
ghost use Rattle.vera_lex.specs.Directives.{include, define};
ghost use Rattle.vera_lex.specs.Seen.{Shows, Takes, Adds, Ends, GoesBehind, IsMeaning, Steps, IsAnswer, seen};

use crate::bytes::is_blank;
use crate::front::front;
use crate::piece::Piece;
use crate::strings::string_text;
use four_state::{NoMemory, Text};
use std::alloc::Global;
use std::collections::HashMap;
use vera_ast::{FrontError, Refusal, Token, TokenKind};

/// The most tokens of a testbench.
const MOST_TOKENS: usize = 1_048_576;

/// The most tokens of a definition.
const MOST_DEFINED: usize = 16;

/// A definition whose line isn't over.
#[derive(Drop)]
pub struct Definition<'a> {
    pub name: &'a [u8],
    pub kinds: Vec<TokenKind>,
}

/// What the text so far has given.
#[derive(Drop)]
pub struct Lexer<'a> {
    pub tokens: Vec<Token>,
    /// What each defined name stands for.
    pub names: HashMap<&'a [u8], Vec<TokenKind>>,
    pub defining: Option<Definition<'a>>,
    pub line: u32,
    /// Whether nothing but blanks stands on the line yet.
    pub is_fresh: bool,
}

/// A copy of what a token is.
fn copy_kind(kind: &TokenKind) -> Result<TokenKind, NoMemory>
    ensures { IfOk result (λ k. k ≡ kind.now) }
{
    match kind {
        TokenKind::Word(text) => Ok(TokenKind::Word(text.copy()?)),
        TokenKind::Number(bits, is_decimal) => Ok(TokenKind::Number(*bits, *is_decimal)),
        TokenKind::Str(text) => Ok(TokenKind::Str(text.copy()?)),
        TokenKind::Punct(number) => Ok(TokenKind::Punct(*number)),
    }
}

fn copy_kinds(alloc: Global, kinds: &[TokenKind]) -> Result<Vec<TokenKind>, NoMemory>
    ensures { IfOk result (λ ks. ks.items ≡ kinds.now) }
{
    let mut copies = Vec::new(alloc);
    for kind in kinds {
        copies.push(copy_kind(kind)?)?;
    }
    Ok(copies)
}

/// The list of one token.
fn single(alloc: Global, kind: TokenKind) -> Result<Vec<TokenKind>, NoMemory>
    ensures { IfOk result (λ ks. ks.items ≡ kind ∷ []) }
{
    let mut kinds = Vec::new(alloc);
    kinds.push(kind)?;
    Ok(kinds)
}

/// How many newlines stand in the bytes.
fn newlines(bytes: &[u8]) -> u32
    requires { length bytes.now < 4294967295 }
    ensures value { result ≡ spec.newlines bytes.now }
    ensures within { result ≤ length bytes.now }
{
    let mut count = 0;
    for byte in bytes {
        if *byte == b'\n' {
            count += 1;
        }
    }
    count
}

/// Whether nothing but blanks stands on the line behind these bytes.
fn fresh_after(before: bool, bytes: &[u8]) -> bool
    ensures { result ≡ spec.fresh_after before bytes.now }
{
    let mut fresh = before;
    for byte in bytes {
        fresh = *byte == b'\n' || (fresh && is_blank(*byte));
    }
    fresh
}

/// Adds tokens of one line.
fn put(tokens: &mut Vec<Token>, kinds: Vec<TokenKind>, line: u32) -> Result<(), NoMemory>
    ensures { OnOk result (tokens.new.items ≡ tokens.old.items ++ map (spec.on_line line) kinds.items) }
{
    for kind in kinds {
        tokens.push(Token { kind, line })?;
    }
    Ok(())
}

/// Adds tokens to a definition.
fn join(kinds: &mut Vec<TokenKind>, more: Vec<TokenKind>) -> Result<(), NoMemory>
    ensures { OnOk result (kinds.new.items ≡ kinds.old.items ++ more.items) }
{
    let mut more = more;
    kinds.append(&mut more)?;
    Ok(())
}

impl<'a> Lexer<'a> {
    fn new(alloc: Global) -> Lexer<'a>
        ensures { Shows result spec.at_start }
    {
        Lexer {
            tokens: Vec::new(alloc),
            names: HashMap::new(alloc),
            defining: None,
            line: 1,
            is_fresh: true,
        }
    }

    /// What a word is replaced by.
    fn meaning(&self, alloc: Global, word: &[u8]) -> Result<Vec<TokenKind>, NoMemory>
        ensures { IfOk result (λ ks. IsMeaning self.now word.now ks.items) }
    {
        match self.names.get(word) {
            Some(kinds) => copy_kinds(alloc, kinds),
            None => single(alloc, TokenKind::Word(Text::from_slice(alloc, word)?)),
        }
    }

    /// Adds the tokens of a place to the text's, or to those of the definition whose line it is.
    fn add(&mut self, kinds: Vec<TokenKind>) -> Result<(), FrontError>
        ensures { Adds self.old kinds.items self.new result }
    {
        match &mut self.defining {
            None => {
                if self.tokens.len() + kinds.len() > MOST_TOKENS {
                    return Err(refused(5, self.line));
                }
                put(&mut self.tokens, kinds, self.line)?;
            }
            Some(definition) => {
                if definition.kinds.len() + kinds.len() > MOST_DEFINED {
                    return Err(refused(4, self.line));
                }
                join(&mut definition.kinds, kinds)?;
            }
        }
        Ok(())
    }

    /// Begins a definition.
    fn define(&mut self, alloc: Global, name: &'a [u8]) -> Result<(), FrontError>
        ensures { Takes self.old (spec.directive (define name.now)) self.new result }
    {
        if !self.is_fresh || self.names.contains_key(name) {
            return Err(refused(4, self.line));
        }
        self.defining = Some(Definition {
            name,
            kinds: Vec::new(alloc),
        });
        Ok(())
    }

    fn include(&self) -> Result<(), FrontError>
        ensures { Takes self.now (spec.directive include) self.now result }
    {
        if self.is_fresh {
            Ok(())
        } else {
            Err(refused(4, self.line))
        }
    }

    /// Takes a piece.
    fn place(&mut self, alloc: Global, piece: Piece<'a>) -> Result<(), FrontError>
        ensures { Takes self.old (seen piece.entry) self.new result }
    {
        match piece {
            Piece::Gap => Ok(()),
            Piece::Include => self.include(),
            Piece::Define(name) => self.define(alloc, name),
            Piece::Word(word) => {
                let kinds = self.meaning(alloc, word)?;
                self.add(kinds)
            }
            Piece::Number(bits, is_decimal) => self.add(single(
                alloc,
                TokenKind::Number(bits, is_decimal),
            )?),
            Piece::Str(inner) => self.add(single(
                alloc,
                TokenKind::Str(string_text(alloc, inner)?),
            )?),
            Piece::Sign(number) => self.add(single(alloc, TokenKind::Punct(number))?),
        }
    }

    /// Ends the definition whose line it is, where so many newlines end it.
    fn end_definition(&mut self, lines: u32) -> Result<(), FrontError>
        ensures state { Ends self.old lines self.new result }
        ensures line { OnOk result (self.new.line ≡ self.old.line) }
    {
        if lines == 0 {
            return Ok(());
        }
        if let Some(definition) = self.defining.take() {
            self.names.insert(definition.name, definition.kinds)?;
        }
        Ok(())
    }

    /// Goes on behind these bytes.
    fn go_behind(&mut self, bytes: &[u8]) -> Result<(), FrontError>
        requires count { length bytes.now < 4294967295 }
        requires lines { self.old.line + length bytes.now < 2 ^ 32 }
        ensures state { GoesBehind self.old bytes.now self.new result }
        ensures lines { OnOk result (self.new.line ≤ self.old.line + length bytes.now) }
    {
        let lines = newlines(bytes);
        self.end_definition(lines)?;
        self.line += lines;
        self.is_fresh = fresh_after(self.is_fresh, bytes);
        Ok(())
    }

    /// Takes the piece at the front of the text; the answer is how many bytes it has.
    fn step(&mut self, alloc: Global, text: &'a [u8]) -> Result<usize, FrontError>
        requires some { 0 < length text.now }
        requires count { length text.now < 4294967295 }
        requires lines { self.old.line + length text.now < 2 ^ 32 }
        ensures state { Steps self.old text.now self.new result }
        ensures within { IfOk result (λ n. (0 < n) × (n ≤ length text.now)) }
        ensures lines { IfOk result (λ n. self.new.line ≤ self.old.line + n) }
    {
        match front(text) {
            Err(code) => Err(refused(code, self.line)),
            Ok(found) => {
                self.place(alloc, found.piece)?;
                self.go_behind(&text[..found.count])?;
                Ok(found.count)
            }
        }
    }
}

fn refused(code: u8, line: u32) -> FrontError
    ensures { result ≡ FrontError.Refused (spec.refusal code line) }
{
    FrontError::Refused(Refusal { code, line })
}

/// The tokens of a testbench, its defined names replaced.
pub fn lex(alloc: Global, bytes: &[u8]) -> Result<Vec<Token>, FrontError>
    requires { length bytes.now < 4294967295 }
    ensures { IsAnswer bytes.now result }
{
    let mut lexer = Lexer::new(alloc);
    let mut rest = bytes;
    'pieces: while !rest.is_empty() {
        let count = lexer.step(alloc, rest)?;
        rest = &rest[count..];
    }
    let Lexer { tokens, .. } = lexer;
    Ok(tokens)
}
