use four_state::{Text, Vec4};

/// A token, and the line that it stands on, counted from 1. A token that replaces a defined name has the line of
/// the use.
#[derive(Drop)]
pub struct Token {
    pub kind: TokenKind,
    pub line: u32,
}

/// What a token is.
#[derive(Drop)]
pub enum TokenKind {
    /// A letter or `_`, then letters, digits and `_`: a reserved word or a name.
    Word(Text),
    /// The value of a literal, and whether it is an unsized decimal: an `integer` of 32 bits. Every other literal is a
    /// `bit` vector.
    Number(Vec4, bool),
    /// The bytes of a string, its escapes replaced.
    Str(Text),
    /// A sign, by its number in the table of signs, from 0.
    Punct(u8),
}
