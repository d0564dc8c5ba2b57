ghost use Rattle.std.specs.Prelude.{◌≡◌, ◌<◌, length, IfOk, Result};
ghost use Rattle.vera_ast.specs.declared.refusal.Refusal.{Refusal as RefusalOf};
ghost use Rattle.vera_ast.specs.declared.typed.file.TypedTree.{TypedTree as TypedTreeOf};
ghost use Rattle.vera_ast.specs.Signals.{signals_in, AreApart};
ghost use Rattle.typing_rules.specs.Answers.{Answers};
ghost use Rattle.typing_laws.specs.Trees.{HasOneProgram, NamesItsSignals};
ghost use Rattle.front_end.specs.Answer.{ReadsSource, ReadsTokens};
ghost use Rattle.front_end.specs.Sources.{IsSource, left_out, typed_unless};

use crate::purpose::Purpose;
use not_built::{not_built, not_checked};
use std::alloc::Global;
use vera_ast::{FrontError, Refusal, Token, Tree, TypedTree};
use vera_lex::lex;
use vera_parse::parse;
use vera_types::check;

/// The line of the first construct that isn't built for this purpose.
fn left_out(tree: &Tree, purpose: Purpose) -> Option<u32>
    ensures { result ≡ left_out purpose tree.now }
{
    match purpose {
        Purpose::Check => not_checked(tree),
        Purpose::Run => not_built(tree),
    }
}

/// The typed tree of a syntax tree, unless a construct isn't built.
fn typed(alloc: Global, tree: &Tree, purpose: Purpose) -> Result<TypedTree, FrontError>
    ensures { Answers (typed_unless (left_out purpose tree.now) tree.now) result }
{
    match left_out(tree, purpose) {
        Some(line) => Err(FrontError::Refused(Refusal { code: 90, line })),
        None => check(alloc, tree),
    }
}

/// What comes of the tokens.
fn of_tokens(alloc: Global, tokens: &[Token], purpose: Purpose) -> Result<TypedTree, FrontError>
    ensures { ReadsTokens purpose tokens.now result }
{
    let tree = parse(alloc, tokens)?;
    typed(alloc, &tree, purpose)
}

/// What comes of the bytes.
fn of_bytes(alloc: Global, bytes: &[u8], purpose: Purpose) -> Result<TypedTree, FrontError>
    requires { length bytes.now < 4294967295 }
    ensures { ReadsSource purpose bytes.now result }
{
    let tokens = lex(alloc, bytes)?;
    of_tokens(alloc, tokens.as_slice(), purpose)
}

/// The typed tree of a testbench, or the first refusal, with the line that it is told at. Steps go in this order, and
/// each refuses the whole testbench before the next begins:
///
/// - E01 to E05: the bytes aren't tokens;
/// - E10 and E11: the tokens aren't a testbench, or are nested too deep;
/// - E90: a construct isn't built for this purpose, at the line of the first one;
/// - E30 to E39: the rules of names and types.
pub fn read_source(alloc: Global, bytes: &[u8], purpose: Purpose) -> Result<TypedTree, FrontError>
    requires { length bytes.now < 4294967295 }
    ensures source { ReadsSource purpose bytes.now result }

    // No other answer would be right, unless memory runs out.
    ensures only { (answer : Result TypedTreeOf RefusalOf) → IsSource purpose bytes.now answer → Answers answer result }

    // The tree has one program, each drive of which names an output; the names of the outputs differ.
    ensures program { IfOk result HasOneProgram }
    ensures names { IfOk result NamesItsSignals }
    ensures apart { IfOk result (λ tree. AreApart (signals_in tree.items)) }
{
    of_bytes(alloc, bytes, purpose)
}
