//! Which of the two kinds of a block's items comes: declarations and statements may both begin with a name, and the
//! token behind the name decides.

ghost use Rattle.std.specs.Prelude.{◌≡◌};
ghost use Rattle.grammar_laws.specs.Readers.{first_kind, stray};
ghost use Rattle.vera_ast.specs.declared.codes.TheConstants as codes;
ghost use Rattle.parse_exprs.specs.Sets.{first_own_type};
ghost use Rattle.parse_stmts.specs.StatementSets.{after_name};
ghost use Rattle.parse_cursor.specs.Tokens.{kind_of};

use parse_cursor::cursor::Cursor;
use vera_ast::codes::{
    BIT, DOT, EQUAL, EQUALS, EVENT, INTEGER, LEFT_BRACKET, LEFT_PARENTHESIS, LESS_EQUAL,
    MINUS_EQUALS, MINUS_MINUS, NAME, NOT_EQUAL, PLUS_EQUALS, PLUS_PLUS, REG, SEMICOLON, STRING,
};

/// Whether a declaration comes: a word of a type, or two names.
pub fn begins_decl(tokens: &Cursor<'_>) -> bool
    ensures { result ≡ first_kind kind_of first_own_type codes.NAME tokens.now.rest.now }
{
    tokens.begins(&[INTEGER, BIT, REG, STRING, EVENT])
        || (tokens.begins(&[NAME]) && tokens.behind().begins(&[NAME]))
}

/// Whether a name comes that begins no statement.
pub fn is_stray(tokens: &Cursor<'_>) -> bool
    ensures { result ≡ stray kind_of codes.NAME after_name tokens.now.rest.now }
{
    tokens.begins(&[NAME])
        && !tokens.behind().begins(&[
            DOT,
            LEFT_BRACKET,
            LEFT_PARENTHESIS,
            EQUALS,
            PLUS_EQUALS,
            MINUS_EQUALS,
            PLUS_PLUS,
            MINUS_MINUS,
            SEMICOLON,
            LESS_EQUAL,
            EQUAL,
            NOT_EQUAL,
        ])
}
