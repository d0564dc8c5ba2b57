ghost use Rattle.std.specs.Prelude.{◌≡◌, ◌≤◌};

/// How many bits a vector has: 1 to 128.
#[derive(Clone, Copy, PartialEq, Eq)]
pub struct Width {
    pub bits: u8,
    pub ghost not_empty: { 1 ≤ bits },
    pub ghost within: { bits ≤ 128 },
}

impl Width {
    ghost use Rattle.vera_ast.specs.Types.{one, of_integer, wider};

    /// The width of a single bit.
    pub fn one() -> Width
        ensures { result ≡ one }
    {
        Width { bits: 1 }
    }

    fn of_integer() -> Width
        ensures { result ≡ of_integer }
    {
        Width { bits: 32 }
    }

    fn wider(self, other: Width) -> Width
        ensures { result ≡ wider self other }
    {
        if self.bits <= other.bits { other } else { self }
    }
}

/// The type of a vector.
#[derive(Clone, Copy, PartialEq, Eq)]
pub enum VectorType {
    /// `integer`: 32 bits, read in two's complement and extended by its top bit.
    Integer,
    /// `bit` or `reg`: so many bits, read as an unsigned number and extended by 0.
    Bits(Width),
}

impl VectorType {
    ghost use Rattle.vera_ast.specs.Types.{width_of, is_signed, common};

    /// The number of bits, 1 to 128.
    pub fn width(self) -> u8
        ensures value { result ≡ width_of self }
        ensures not_empty { 1 ≤ result }
        ensures within { result ≤ 128 }
    {
        match self {
            VectorType::Integer => 32,
            VectorType::Bits(width) => width.bits,
        }
    }

    /// Whether values are read in two's complement.
    pub fn is_signed(self) -> bool
        ensures { result ≡ is_signed self }
    {
        matches!(self, VectorType::Integer)
    }

    /// The type in which an operator between two operands works: the wider one's width, and an `integer` where both are.
    pub fn common(self, other: VectorType) -> VectorType
        ensures { result ≡ common self other }
    {
        match (self, other) {
            (VectorType::Integer, VectorType::Integer) => VectorType::Integer,
            (VectorType::Integer, VectorType::Bits(width)) => VectorType::Bits(
                Width::of_integer().wider(width),
            ),
            (VectorType::Bits(width), VectorType::Integer) => VectorType::Bits(width.wider(
                Width::of_integer(),
            )),
            (VectorType::Bits(one), VectorType::Bits(two)) => VectorType::Bits(one.wider(two)),
        }
    }
}

/// The type of a value.
#[derive(Clone, Copy, PartialEq, Eq)]
pub enum ValueType {
    Vector(VectorType),
    Str,
    Event,
    Enumeration(u32),
    /// An object of this class or of a descendant, or `null`.
    Class(u32),
    /// An instance of a coverage group.
    Group(u32),
    /// `null` itself.
    Null,
}

impl ValueType {
    ghost use Rattle.vera_ast.specs.Types.{vector_of};

    /// The type in which an operator reads a value of this type: an enumeration is an `integer` there. `None` where it
    /// is no vector.
    pub fn vector(self) -> Option<VectorType>
        ensures { result ≡ vector_of self }
    {
        match self {
            ValueType::Vector(of) => Some(of),
            ValueType::Enumeration(_) => Some(VectorType::Integer),
            ValueType::Str
            | ValueType::Event
            | ValueType::Class(_)
            | ValueType::Group(_)
            | ValueType::Null => None,
        }
    }
}

/// The type of a variable: that of its value, or an array of elements of a type.
#[derive(Clone, Copy, PartialEq, Eq)]
pub enum VariableType {
    Value(ValueType),
    Array(ValueType, ArrayLength),
}

/// Which elements an array has.
#[derive(Clone, Copy, PartialEq, Eq)]
pub enum ArrayLength {
    /// So many, 1 to 65,536, numbered from 0.
    Fixed(u32),
    /// Elements by key. No source gives it yet.
    Keys,
}
