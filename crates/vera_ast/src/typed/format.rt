use four_state::Text;

/// A piece of a format: bytes that are printed as they stand, or a conversion that prints an argument.
#[derive(Drop)]
pub enum FormatPart {
    Bytes(Text),
    Conversion(Conversion),
}

/// `%`, an optional `0`, an optional width, and a letter.
#[derive(Clone, Copy, PartialEq, Eq)]
pub struct Conversion {
    /// Whether a `0` stands before the width.
    pub zero: bool,
    /// The least number of bytes, 1 to 999.
    pub width: Option<u16>,
    pub letter: ConversionLetter,
}

/// The letter of a conversion: what it prints.
#[derive(Clone, Copy, PartialEq, Eq)]
pub enum ConversionLetter {
    /// `d`: the decimal number.
    Decimal,
    /// `b`: a digit for each bit.
    Binary,
    /// `h` or `x`: a digit for each four bits.
    Hexadecimal,
    /// `s`: a string.
    Str,
}
