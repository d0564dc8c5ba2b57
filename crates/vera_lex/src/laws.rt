//! The laws of the definition.

ghost use Rattle.vera_lex.specs.Laws.{HasOneResult};

/// The law that a text has at most one result: one list of tokens, or one refusal with its line.
pub fn one_result(_bytes: &[u8])
    ensures { HasOneResult _bytes.now }
{}
