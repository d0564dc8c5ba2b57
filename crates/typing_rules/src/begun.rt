use vera_ast::Conversion;

/// How far a conversion has been read.
#[derive(Clone, Copy, PartialEq, Eq)]
pub enum Begun {
    /// No conversion is open.
    Nothing,
    /// Its `%` alone.
    Percent,
    /// Whether a `0` stands behind the `%`, and the width behind it.
    Sized(bool, Option<u16>),
}

/// What a byte of a format does.
#[derive(Clone, Copy)]
pub enum Turn {
    /// It is printed.
    Byte(u8),
    /// It ends this conversion.
    Ends(Conversion),
    /// It belongs to a conversion, which goes on.
    GoesOn(Begun),
    /// It has no place there.
    Wrong,
}
