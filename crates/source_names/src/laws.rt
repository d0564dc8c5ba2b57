//! The laws.

ghost use Rattle.std.specs.Prelude.{ℕ, List, Ok};
ghost use Rattle.vera_ast.specs.declared.token.Token.{Token};
ghost use Rattle.vera_ast.specs.declared.tree.items.Tree.{Tree};
ghost use Rattle.vera_lex.specs.Tokens.{IsLexed};
ghost use Rattle.vera_parse.specs.Answer.{Parses};
ghost use Rattle.typing_laws.specs.Trees.{HasPlainSignals};
ghost use Rattle.source_names.specs.Words.{HasPlainWords};

/// Each word among the tokens of a text is plain.
pub fn words_are_plain()
    ensures { (bytes : List ℕ) (tokens : List Token) → IsLexed bytes (Ok tokens) → HasPlainWords tokens }
{}

/// The names of a source's signals are plain, where the words among its tokens are.
pub fn signal_names_are_plain()
    ensures { (tokens : List Token) (tree : Tree) → HasPlainWords tokens → Parses tokens tree → HasPlainSignals tree }
{}
