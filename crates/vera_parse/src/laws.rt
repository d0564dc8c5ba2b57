//! The laws of the grammar and of its answers.

ghost use Rattle.std.specs.Prelude.{◌≡◌, ℕ, List, []};
ghost use Rattle.grammar_laws.specs.Answers.{IsTooDeep, Reach, LeastIsDeep};
ghost use Rattle.grammar_laws.specs.Words.{Cell, bare};
ghost use Rattle.vera_ast.specs.declared.refusal.FrontError.TheVariants as error;
ghost use Rattle.vera_ast.specs.declared.refusal.Refusal.{Refusal};
ghost use Rattle.vera_ast.specs.declared.token.Token.{Token as TokenOf};
ghost use Rattle.vera_ast.specs.declared.tree.items.Tree.{Tree};
ghost use Rattle.vera_parse.specs.Answer.{IsFile, Parses, IsRefusal, limit};

use vera_ast::Token;

/// Tokens have at most one tree, however deep they are.
pub fn one_tree(_tokens: &[Token])
    ensures { (one two : List (Cell TokenOf)) (a b : Tree) → IsFile one a → IsFile two b → bare one ≡ _tokens.now → bare two ≡ _tokens.now → a ≡ b }
{}

/// Tokens have one answer at most: a tree, or one refusal with its number and line.
pub fn one_answer(_tokens: &[Token])
    ensures tree { (a b : Tree) → Parses _tokens.now a → Parses _tokens.now b → a ≡ b }
    ensures apart { (tree : Tree) (r : Refusal) → Parses _tokens.now tree → IsRefusal _tokens.now (error.Refused r) → ⊥ }
    ensures refusal { (r s : Refusal) → IsRefusal _tokens.now (error.Refused r) → IsRefusal _tokens.now (error.Refused s) → r ≡ s }
{}

/// A token that is told as too deep is the first of which this holds: the least of its depths, over all files that
/// begin with the tokens up to the syntax place, passes the limit.
pub fn least_depth(_tokens: &[Token])
    ensures { (left : ℕ) (reach : List TokenOf) → IsTooDeep IsFile limit _tokens.now left → Reach IsFile _tokens.now reach → LeastIsDeep IsFile limit _tokens.now reach left }
{}

/// No token at all is a testbench without items.
pub fn nothing_is_a_file()
    ensures { Parses [] (record { items = [] }) }
{}
