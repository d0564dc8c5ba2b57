//! How values of a type are read.
ghost use Rattle.std.specs.Prelude.{◌≡◌, ◌≤◌};
ghost use Rattle.vera_meaning.specs.Operators.{read_as, width_at, is_signed_at, unknown};

use four_state::Vec4;
use vera_ast::{ValueType, VectorType, Width};

/// The vector type as which they are read: one bit where they are no vectors.
fn read_as(of: ValueType) -> VectorType
    ensures { result ≡ read_as of }
{
    match of.vector() {
        Some(vector) => vector,
        None => VectorType::Bits(Width::one()),
    }
}

/// How many bits they have, 1 to 128.
pub fn width(of: ValueType) -> u8
    ensures value { result ≡ width_at of }
    ensures not_empty { 1 ≤ result }
    ensures within { result ≤ 128 }
{
    read_as(of).width()
}

/// Whether they are read in two's complement.
pub fn is_signed(of: ValueType) -> bool
    ensures { result ≡ is_signed_at of }
{
    read_as(of).is_signed()
}

/// The one without a known bit.
pub fn unknown(of: ValueType) -> Vec4
    ensures { result ≡ unknown of }
{
    Vec4::all_x(width(of))
}
