//! The whole file.

ghost use Rattle.std.specs.Prelude.{◌≡◌, IfOk, IfErr};
ghost use Rattle.grammar_laws.specs.Readers.{Reads, finished};
ghost use Rattle.grammar_laws.specs.Lines.{last_line};
ghost use Rattle.vera_ast.specs.declared.refusal.FrontError.TheVariants as error;
ghost use Rattle.vera_ast.specs.declared.token.Token.{Token as TokenOf};
ghost use Rattle.vera_ast.specs.declared.tree.items.Tree.{Tree as TreeOf};
ghost use Rattle.vera_parse.specs.Answer.{Parses, IsTreeOf, IsRefusal, line_at};
ghost use Rattle.vera_parse.specs.Reading as reading;

use crate::items::items;
use grammar_laws::{Fault, Why};
use parse_cursor::cursor::Cursor;
use std::alloc::Global;
use vera_ast::{FrontError, Refusal, Token, Tree, with};

/// How many of the productions `stmt`, `expr` and `unary` a token may lie in.
const LIMIT: usize = 200;

/// Whether no token is left.
#[tactic(auto, unfolding(grammar_laws::specs::Readers::finished))]
fn finished(tokens: &mut Cursor<'_>) -> Result<(), Fault>
    ensures { Reads (finished tokens.old.rest.now) result tokens.new.rest.now }
{
    match tokens.rest {
        [] => Ok(()),
        _ => Err(tokens.stop(Why::Syntax)),
    }
}

/// `file = { item }`, to the tokens' end.
#[tactic(auto, unfolding(crate::specs::Reading::file, grammar_laws::specs::Readers::whole, grammar_laws::specs::Readers::and_then))]
fn file(alloc: Global, tokens: &mut Cursor<'_>, depth: usize) -> Result<Tree, Fault>
    ensures { Reads (reading.file depth tokens.old.rest.now) result tokens.new.rest.now }
{
    let tree = items(alloc, tokens, depth)?;
    let (tree, ()) = with(tree, finished(tokens))?;
    Ok(tree)
}

/// The line of the last token, or 1.
fn last_line(tokens: &[Token]) -> u32
    ensures { result ≡ last_line (λ (t : TokenOf). t.line) 1 tokens.now }
{
    let mut last = 1;
    for token in tokens {
        last = token.line;
    }
    last
}

/// The line of the token at which so many are left; at the end that of the last token, and 1 where there is none.
fn line_at(tokens: &[Token], left: usize) -> u32
    ensures { result ≡ line_at tokens.now left }
{
    match tokens.get(tokens.len().saturating_sub(left)) {
        Some(token) => token.line,
        None => last_line(tokens),
    }
}

/// The refusal with this number at the place at which so many tokens are left.
fn refused(tokens: &[Token], code: u8, left: usize) -> FrontError
    ensures { result ≡ error.Refused (record { code = code; line = line_at tokens.now left }) }
{
    FrontError::Refused(Refusal {
        code,
        line: line_at(tokens, left),
    })
}

/// The syntax tree of a testbench's tokens. Tokens that are no testbench are refused:
///
/// - E10 where no testbench begins with the tokens before a place and the next one, at that token's line; where the
///   tokens begin a testbench but aren't one, at the last token's line.
/// - E11 where before that place a token lies in more than 200 of the productions `stmt`, `expr` and `unary`, at the
///   first such token's line.
///
/// It takes memory for the tree.
pub fn parse(alloc: Global, tokens: &[Token]) -> Result<Tree, FrontError>
    ensures found { IfOk result (λ tree. Parses tokens.now tree) }
    ensures only { (tree : TreeOf) → Parses tokens.now tree → IsTreeOf tree result }
    ensures refused { IfErr result (IsRefusal tokens.now) }
{
    match file(alloc, &mut Cursor { rest: tokens }, LIMIT) {
        Ok(tree) => Ok(tree),
        Err(Fault::NoMemory) => Err(FrontError::NoMemory),
        Err(Fault::Stop(Why::Syntax, left)) => Err(refused(tokens, 10, left)),
        Err(Fault::Stop(Why::Depth, left)) => Err(refused(tokens, 11, left)),
    }
}
