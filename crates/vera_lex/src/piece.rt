//! The pieces that a text is cut into.

use four_state::Vec4;

/// A piece of the text.
#[derive(Clone, Copy, Drop)]
pub enum Piece<'a> {
    /// A blank or a comment.
    Gap,
    /// `#include <vera_defines.vrh>`.
    Include,
    /// `#define` and the name.
    Define(&'a [u8]),
    /// A word.
    Word(&'a [u8]),
    /// A literal's value, and whether it is an unsized decimal.
    Number(Vec4, bool),
    /// The bytes between the `"` of a string.
    Str(&'a [u8]),
    /// The number of a sign.
    Sign(u8),
}

/// A piece at the front of a text, and how many bytes it has.
#[derive(Clone, Copy, Drop)]
pub struct Found<'a> {
    pub piece: Piece<'a>,
    pub count: usize,
}
