ghost use Rattle.std.specs.Prelude.{◌≡◌, ◌*◌, ◌<◌, length, slice_index, false, IfOk};
ghost use Rattle.std.specs.Fmt.{digit_glyph};
ghost use Rattle.four_state.specs.Texts.{decimal_text, binary_text, hex_digits, hex_text};

use super::Vec4;
use crate::{NoMemory, Text};
use itoa::Buffer;
use std::alloc::Global;

impl Vec4 {
    /// The decimal number, in two's complement and with `-` below 0 where `signed`; `x` where a bit is x or z.
    pub fn to_decimal_text(&self, alloc: Global, signed: bool) -> Result<Text, NoMemory>
        ensures { IfOk result (λ t. t ≡ decimal_text signed self.now) }
    {
        if !self.is_known() {
            return Text::from_slice(alloc, b"x");
        }
        let mut buffer = Buffer::new();
        let digits = if signed {
            buffer.format(self.signed_number())
        } else {
            buffer.format(self.number())
        };
        Text::from_slice(alloc, digits.as_bytes())
    }

    /// One digit per bit, the highest first.
    pub fn to_binary_text(&self, alloc: Global) -> Result<Text, NoMemory>
        ensures { IfOk result (λ t. t ≡ binary_text self.now) }
    {
        let width = self.width();
        let mut digits = Vec::with_capacity(alloc, usize::from(width))?;
        for at in (0..width).rev() {
            digits.push(self.bit(at).glyph())?;
        }
        Ok(Text::of(digits))
    }

    /// One lower-case hexadecimal digit per four bits, the highest first, the top group filled by 0: `z` where all four
    /// bits are z, `x` where another one is x or z.
    pub fn to_hex_text(&self, alloc: Global) -> Result<Text, NoMemory>
        ensures { IfOk result (λ t. t ≡ hex_text self.now) }
    {
        let groups = self.width().div_ceil(4);
        let mut digits = Vec::with_capacity(alloc, usize::from(groups))?;
        for group in (0..groups).rev() {
            digits.push(self.hex_digit(group))?;
        }
        Ok(Text::of(digits))
    }

    /// The digit of a group of four bits, counted from the lowest.
    fn hex_digit(&self, group: u8) -> u8
        requires { 4 * group < length self.now }
        ensures { result ≡ slice_index (hex_digits self.now) group }
    {
        let ones = (self.ones >> (4 * group)) & 0xf;
        let unknown = (self.unknown >> (4 * group)) & 0xf;
        if unknown == 0 {
            hex_glyph(ones as u8)
        } else if ones == 0xf && unknown == 0xf {
            b'z'
        } else {
            b'x'
        }
    }
}

/// The lower-case hexadecimal digit of a number below 16.
fn hex_glyph(digit: u8) -> u8
    requires { digit < 16 }
    ensures { result ≡ digit_glyph false digit }
{
    if digit < 10 {
        b'0' + digit
    } else {
        b'a' - 10 + digit
    }
}
