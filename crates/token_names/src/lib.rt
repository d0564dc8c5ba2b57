//! The law that the names of token numbers, by which the grammar speaks of tokens, stand for their words and signs.
#![tactic(auto)]

ghost use Rattle.std.specs.Prelude.{◌≡◌};
ghost use Rattle.vera_ast.specs.Signs.{signs};
ghost use Rattle.vera_ast.specs.Words.{reserved_words};
ghost use Rattle.token_names.specs.Names.{named_words, named_signs, texts_of, AreWords, AreSigns};

/// Each reserved word has the number that is named for it, and so has each sign; none is left out.
pub fn names_stand_for_their_tokens()
    ensures words { AreWords named_words }
    ensures all_words { texts_of named_words ≡ reserved_words }
    ensures signs { AreSigns named_signs }
    ensures all_signs { texts_of named_signs ≡ signs }
{}
