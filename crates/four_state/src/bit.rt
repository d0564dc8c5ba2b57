/// One bit of a vector.
#[derive(Clone, Copy, Debug, PartialEq, Eq)]
pub enum Bit {
    Zero,
    One,
    X,
    Z,
}

impl Bit {
    ghost use Rattle.std.specs.Prelude.{◌≡◌};
    ghost use Rattle.four_state.specs.Texts.{bit_glyph};

    /// Its digit: `0`, `1`, `x` or `z`.
    pub fn glyph(self) -> u8
        ensures { result ≡ bit_glyph self }
    {
        match self {
            Bit::Zero => b'0',
            Bit::One => b'1',
            Bit::X => b'x',
            Bit::Z => b'z',
        }
    }
}

/// A logical value: known, or x.
#[derive(Clone, Copy, Debug, PartialEq, Eq)]
pub enum Bit3 {
    Zero,
    One,
    X,
}

impl Bit3 {
    ghost use Rattle.std.specs.Prelude.{◌≡◌};
    ghost use Rattle.four_state.specs.Logic.{and_logic, or_logic, not_logic};

    /// Zero where either is Zero, One where both are One, else X.
    pub fn and(self, other: Bit3) -> Bit3
        ensures { result ≡ and_logic self other }
    {
        match (self, other) {
            (Bit3::Zero, _) | (_, Bit3::Zero) => Bit3::Zero,
            (Bit3::One, Bit3::One) => Bit3::One,
            _ => Bit3::X,
        }
    }

    /// One where either is One, Zero where both are Zero, else X.
    pub fn or(self, other: Bit3) -> Bit3
        ensures { result ≡ or_logic self other }
    {
        match (self, other) {
            (Bit3::One, _) | (_, Bit3::One) => Bit3::One,
            (Bit3::Zero, Bit3::Zero) => Bit3::Zero,
            _ => Bit3::X,
        }
    }

    /// The other one of Zero and One; X of X.
    pub fn not(self) -> Bit3
        ensures { result ≡ not_logic self }
    {
        match self {
            Bit3::Zero => Bit3::One,
            Bit3::One => Bit3::Zero,
            Bit3::X => Bit3::X,
        }
    }
}
