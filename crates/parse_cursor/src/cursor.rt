//! What is left of the tokens, and its first one.

ghost use Rattle.std.specs.Prelude.{◌≡◌, ℕ, length, List, IfOk};
ghost use Rattle.grammar_laws.specs.Words.{member, begins, behind};
ghost use Rattle.grammar_laws.specs.Readers.{Reads, fault_at};
ghost use Rattle.parse_cursor.specs.Tokens.{kind_of, text_of, literal_of};
ghost use Rattle.parse_cursor.specs.TokenReading as reading;
ghost use Rattle.parse_cursor.specs.TokenReading.{meaning_of, codes_of};

use crate::trees::{Name, Numeral};
use four_state::{Text, Vec4};
use grammar_laws::{Fault, Why};
use std::alloc::{AllocError, Global};
use vera_ast::codes::{NAME, NUMBER, STRING_LITERAL};
use vera_ast::{Number, Token, TokenKind, code};

/// What is left of the tokens.
#[derive(Drop)]
pub struct Cursor<'a> {
    pub rest: &'a [Token],
}

/// Whether a code is one of these.
fn member(codes: &[u8], c: u8) -> bool
    ensures { result ≡ member codes.now c }
{
    let mut rest = codes;
    'codes: while let [first, others @ ..] = rest {
        if *first == c {
            return true;
        }
        rest = others;
    }
    false
}

/// What a token with this code means in a table.
fn meaning_of<T: Copy>(table: &[(u8, T)], c: u8) -> Option<T>
    ensures { result ≡ meaning_of table.now c }
{
    let mut rest = table;
    'table: while let [(one, meaning), others @ ..] = rest {
        if *one == c {
            return Some(*meaning);
        }
        rest = others;
    }
    None
}

/// The bytes of a word or a string.
fn text_of(alloc: Global, kind: &TokenKind) -> Result<Text, AllocError>
    ensures { IfOk result (λ text. text ≡ text_of kind.now) }
{
    match kind {
        TokenKind::Word(text) => Ok(Text::of(Vec::from_slice(alloc, text.as_slice())?)),
        TokenKind::Str(text) => Ok(Text::of(Vec::from_slice(alloc, text.as_slice())?)),
        _ => Ok(Text::empty(alloc)),
    }
}

/// The value of a number literal.
fn literal_of(kind: &TokenKind) -> Number
    ensures { result ≡ literal_of kind.now }
{
    match kind {
        TokenKind::Number(value, is_decimal) => Number {
            value: *value,
            is_decimal: *is_decimal,
        },
        _ => Number {
            value: Vec4::all_x(1),
            is_decimal: false,
        },
    }
}

impl<'a> Cursor<'a> {
    /// What is left behind the next token.
    pub fn behind(&self) -> Cursor<'a>
        ensures { result.rest.now ≡ behind self.now.rest.now }
    {
        match self.rest {
            [] => Cursor { rest: self.rest },
            [_, others @ ..] => Cursor { rest: others },
        }
    }

    /// Whether there is a next token and its code is one of these.
    pub fn begins(&self, codes: &[u8]) -> bool
        ensures { result ≡ begins kind_of codes.now self.now.rest.now }
    {
        match self.rest {
            [] => false,
            [first, ..] => member(codes, code(&first.kind)),
        }
    }

    /// Whether there is a next token and it is one of a table's.
    #[tactic(auto, using(crate::proofs::OneOf::means_something))]
    pub fn begins_sign<T: Copy>(&self, table: &[(u8, T)]) -> bool
        ensures { result ≡ begins kind_of (codes_of table.now) self.now.rest.now }
    {
        match self.rest {
            [] => false,
            [first, ..] => meaning_of(table, code(&first.kind)).is_some(),
        }
    }

    /// That reading stops here.
    pub fn stop(&self, why: Why) -> Fault
        ensures { result ≡ Fault.Stop why (length self.now.rest.now) }
    {
        Fault::Stop(why, self.rest.len())
    }

    /// Why reading stops here where no depth is left, for what begins with one of these codes.
    #[tactic(auto, unfolding(grammar_laws::specs::Readers::fault_at))]
    pub fn fault(&self, codes: &[u8]) -> Fault
        ensures { result ≡ fault_at kind_of codes.now self.now.rest.now }
    {
        if self.begins(codes) {
            self.stop(Why::Depth)
        } else {
            self.stop(Why::Syntax)
        }
    }

    /// Takes the token with this code, and gives its line.
    #[tactic(auto, unfolding(crate::specs::TokenReading::word, grammar_laws::specs::Readers::word, grammar_laws::specs::Readers::and_then))]
    pub fn word(&mut self, c: u8) -> Result<u32, Fault>
        ensures { Reads (reading.word c self.old.rest.now) result self.new.rest.now }
    {
        match self.rest {
            [first, others @ ..] => {
                if code(&first.kind) == c {
                    self.rest = others;
                    Ok(first.line)
                } else {
                    Err(self.stop(Why::Syntax))
                }
            }
            [] => Err(Fault::Stop(Why::Syntax, 0)),
        }
    }

    /// Takes a word with one of these codes, as a name.
    #[tactic(auto, using(crate::proofs::OneOf::name_of_first, crate::proofs::OneOf::name_of_none, crate::proofs::OneOf::name_of_end))]
    pub fn name_of(&mut self, alloc: Global, codes: &[u8]) -> Result<Name, Fault>
        ensures { Reads (reading.name_of codes.now self.old.rest.now) result self.new.rest.now }
    {
        match self.rest {
            [first, others @ ..] => {
                if !member(codes, code(&first.kind)) {
                    return Err(self.stop(Why::Syntax));
                }
                self.rest = others;
                Ok(Name {
                    line: first.line,
                    text: text_of(alloc, &first.kind)?,
                })
            }
            [] => Err(Fault::Stop(Why::Syntax, 0)),
        }
    }

    /// Takes a name.
    #[tactic(auto, unfolding(crate::specs::TokenReading::name, crate::specs::TokenReading::name_of, crate::specs::TokenReading::one_of))]
    pub fn name(&mut self, alloc: Global) -> Result<Name, Fault>
        ensures { Reads (reading.name self.old.rest.now) result self.new.rest.now }
    {
        self.name_of(alloc, &[NAME])
    }

    /// Takes a string.
    #[tactic(auto, unfolding(crate::specs::TokenReading::string, crate::specs::TokenReading::name_of, crate::specs::TokenReading::one_of))]
    pub fn string(&mut self, alloc: Global) -> Result<Name, Fault>
        ensures { Reads (reading.string self.old.rest.now) result self.new.rest.now }
    {
        self.name_of(alloc, &[STRING_LITERAL])
    }

    /// Takes a number literal.
    #[tactic(auto, unfolding(crate::specs::TokenReading::number, grammar_laws::specs::Readers::word, grammar_laws::specs::Readers::and_then))]
    pub fn number(&mut self) -> Result<Numeral, Fault>
        ensures { Reads (reading.number self.old.rest.now) result self.new.rest.now }
    {
        match self.rest {
            [first, others @ ..] => {
                if code(&first.kind) != NUMBER {
                    return Err(self.stop(Why::Syntax));
                }
                self.rest = others;
                Ok(Numeral {
                    line: first.line,
                    number: literal_of(&first.kind),
                })
            }
            [] => Err(Fault::Stop(Why::Syntax, 0)),
        }
    }

    /// Takes one of a table's quoted tokens, and gives its line and its meaning.
    #[tactic(auto, using(crate::proofs::OneOf::sign_first, crate::proofs::OneOf::sign_none, crate::proofs::OneOf::sign_end))]
    pub fn sign<T: Copy>(&mut self, table: &[(u8, T)]) -> Result<(u32, T), Fault>
        ensures { Reads (reading.sign table.now self.old.rest.now) result self.new.rest.now }
    {
        match self.rest {
            [first, others @ ..] => match meaning_of(table, code(&first.kind)) {
                Some(meaning) => {
                    self.rest = others;
                    Ok((first.line, meaning))
                }
                None => Err(self.stop(Why::Syntax)),
            },
            [] => Err(Fault::Stop(Why::Syntax, 0)),
        }
    }
}
