//! Number literals without a 1, and numbers that are counted up.

ghost use Rattle.std.specs.Prelude.{◌≡◌, ◌+◌, ◌==◌, IfOk};
ghost use Rattle.four_state.specs.Numbers.{number_of};

use four_state::{Bit3, NoMemory};
use vera_ast::Number;

/// Whether the bits of a number literal that are known are all 0.
pub fn is_nothing(number: &Number) -> bool
    ensures { result ≡ (number_of number.now.value == 0) }
{
    match number.value.logic() {
        Bit3::One => false,
        Bit3::Zero => true,
        Bit3::X => true,
    }
}

/// The next number. Where there is none of 32 bits, it is answered as want of memory: what is counted takes more.
pub fn following(number: u32) -> Result<u32, NoMemory>
    ensures { IfOk result (λ next. next ≡ number + 1) }
{
    match number.checked_add(1) {
        Some(next) => Ok(next),
        None => Err(NoMemory),
    }
}
