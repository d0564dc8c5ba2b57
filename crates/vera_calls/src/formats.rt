//! Formats: `%`, an optional `0`, an optional width of 1 to 999, and a letter; `%%` is a percent sign.

ghost use Rattle.std.specs.Prelude.{◌≡◌, ◌≤◌, ℕ, false, List as ListOf, Option as OptionOf, Some as SomeOf, ◌∷◌, [], IfOk, option_map, is_some};
ghost use Rattle.vera_ast.specs.declared.typed.format.FormatPart.{FormatPart as Part};
ghost use Rattle.vera_ast.specs.declared.typed.format.FormatPart.TheVariants as part;
ghost use Rattle.typing_rules.specs.Formats as spec;
ghost use Rattle.vera_calls.specs.FormatSteps.{told, joined};
ghost use Rattle.typing_rules.specs.declared.begun.Begun.TheVariants.{Percent, Sized};

use four_state::{List, NoMemory, Text};
use std::alloc::Global;
use typing_rules::begun::{Begun, Turn};
use vera_ast::{Conversion, ConversionLetter, FormatPart};

fn letter_of(byte: u8) -> Option<ConversionLetter>
    ensures { result ≡ spec.letter_of byte }
{
    match byte {
        b'd' => Some(ConversionLetter::Decimal),
        b'b' => Some(ConversionLetter::Binary),
        b'h' | b'x' => Some(ConversionLetter::Hexadecimal),
        b's' => Some(ConversionLetter::Str),
        _ => None,
    }
}

fn is_digit(byte: u8) -> bool
    ensures { result ≡ spec.is_digit byte }
{
    byte >= b'0' && byte <= b'9'
}

/// A width with one more digit: none begins with 0, and one of three digits takes no further one.
fn widened(width: Option<u16>, digit: u8) -> Option<u16>
    requires low { 48 ≤ digit }
    requires high { digit ≤ 57 }
    ensures { result ≡ spec.widened width digit }
{
    let value = u16::from(digit - b'0');
    match width {
        None if digit == b'0' => None,
        None => Some(value),
        Some(width) if width < 100 => Some(10 * width + value),
        Some(_) => None,
    }
}

/// A byte where a conversion's letter is due.
#[tactic(auto, unfolding(typing_rules::specs::Formats::parts_from))]
fn at_letter(zero: bool, width: Option<u16>, byte: u8) -> Turn
    requires { spec.is_digit byte ≡ false }
    ensures { (rest : ListOf ℕ) → told result rest ≡ spec.parts_from (Sized zero width) (byte ∷ rest) }
{
    match letter_of(byte) {
        Some(letter) => Turn::Ends(Conversion {
            zero,
            width,
            letter,
        }),
        None => Turn::Wrong,
    }
}

/// A byte behind a `%`, with or without a `0` and a width.
#[tactic(auto, unfolding(typing_rules::specs::Formats::parts_from))]
fn in_width(zero: bool, width: Option<u16>, byte: u8) -> Turn
    ensures { (rest : ListOf ℕ) → told result rest ≡ spec.parts_from (Sized zero width) (byte ∷ rest) }
{
    if !is_digit(byte) {
        return at_letter(zero, width, byte);
    }
    match widened(width, byte) {
        Some(width) => Turn::GoesOn(Begun::Sized(zero, Some(width))),
        None => Turn::Wrong,
    }
}

/// A byte right behind a `%`.
#[tactic(auto, unfolding(typing_rules::specs::Formats::parts_from))]
fn behind_percent(byte: u8) -> Turn
    ensures { (rest : ListOf ℕ) → told result rest ≡ spec.parts_from Percent (byte ∷ rest) }
{
    match byte {
        b'%' => Turn::Byte(b'%'),
        b'0' => Turn::GoesOn(Begun::Sized(true, None)),
        _ => in_width(false, None, byte),
    }
}

/// What a byte does.
#[tactic(auto, unfolding(typing_rules::specs::Formats::parts_from))]
fn turn(begun: Begun, byte: u8) -> Turn
    ensures { (rest : ListOf ℕ) → told result rest ≡ spec.parts_from begun (byte ∷ rest) }
{
    match begun {
        Begun::Nothing if byte == b'%' => Turn::GoesOn(Begun::Percent),
        Begun::Nothing => Turn::Byte(byte),
        Begun::Percent => behind_percent(byte),
        Begun::Sized(zero, width) => in_width(zero, width, byte),
    }
}

/// The parts of a format so far, and the bytes behind them that are printed.
#[derive(Drop)]
struct Parts {
    parts: Vec<FormatPart>,
    bytes: Vec<u8>,
}

impl Parts {
    /// All parts, the last bytes among them.
    fn all(self) -> Result<Vec<FormatPart>, NoMemory>
        ensures { IfOk result (λ all. SomeOf all.items ≡ joined self.parts.items self.bytes.items (SomeOf [])) }
    {
        let Parts { mut parts, bytes } = self;
        if bytes.is_empty() {
            return Ok(parts);
        }
        parts.push(FormatPart::Bytes(Text::of(bytes)))?;
        Ok(parts)
    }

    /// The parts with a byte that is printed.
    fn with_byte(self, byte: u8) -> Result<Parts, NoMemory>
        ensures { IfOk result (λ new. (behind : OptionOf (ListOf Part)) → joined new.parts.items new.bytes.items behind ≡ joined self.parts.items self.bytes.items (option_map (spec.byte_before byte) behind)) }
    {
        let Parts { parts, mut bytes } = self;
        bytes.push(byte)?;
        Ok(Parts { parts, bytes })
    }

    /// The parts with a conversion.
    fn with_conversion(self, alloc: Global, conversion: Conversion) -> Result<Parts, NoMemory>
        ensures { IfOk result (λ new. (behind : OptionOf (ListOf Part)) → joined new.parts.items new.bytes.items behind ≡ joined self.parts.items self.bytes.items (option_map (λ more. part.Conversion conversion ∷ more) behind)) }
    {
        let mut parts = self.all()?;
        parts.push(FormatPart::Conversion(conversion))?;
        Ok(Parts {
            parts,
            bytes: Vec::new(alloc),
        })
    }
}

/// All parts where the bytes end, or None where a conversion is open there.
#[tactic(auto, unfolding(typing_rules::specs::Formats::parts_from))]
fn closed(read: Parts, begun: Begun) -> Result<Option<List<FormatPart>>, NoMemory>
    ensures { IfOk result (λ parts. parts ≡ joined read.parts.items read.bytes.items (spec.parts_from begun [])) }
{
    match begun {
        Begun::Nothing => Ok(Some(List::of(read.all()?))),
        Begun::Percent | Begun::Sized(_, _) => Ok(None),
    }
}

/// The parts of a format, or None where a conversion isn't one.
#[tactic(auto, unfolding(typing_rules::specs::Formats::format))]
pub fn format(alloc: Global, bytes: &[u8]) -> Result<Option<List<FormatPart>>, NoMemory>
    ensures { IfOk result (λ parts. parts ≡ spec.format bytes.now) }
{
    let mut read = Parts {
        parts: Vec::new(alloc),
        bytes: Vec::new(alloc),
    };
    let mut begun = Begun::Nothing;
    for byte in bytes {
        match turn(begun, *byte) {
            Turn::Byte(byte) => {
                read = read.with_byte(byte)?;
                begun = Begun::Nothing;
            }
            Turn::Ends(conversion) => {
                read = read.with_conversion(alloc, conversion)?;
                begun = Begun::Nothing;
            }
            Turn::GoesOn(further) => begun = further,
            Turn::Wrong => return Ok(None),
        }
    }
    closed(read, begun)
}

/// Whether the bytes can end there: no conversion is open.
#[tactic(auto, unfolding(typing_rules::specs::Formats::parts_from))]
fn is_closed(begun: Begun) -> bool
    ensures { result ≡ is_some (spec.parts_from begun []) }
{
    matches!(begun, Begun::Nothing)
}

/// Whether bytes are a format.
#[tactic(auto, unfolding(typing_rules::specs::Formats::format))]
pub fn is_format(bytes: &[u8]) -> bool
    ensures { result ≡ is_some (spec.format bytes.now) }
{
    let mut begun = Begun::Nothing;
    for byte in bytes {
        match turn(begun, *byte) {
            Turn::Byte(_) | Turn::Ends(_) => begun = Begun::Nothing,
            Turn::GoesOn(further) => begun = further,
            Turn::Wrong => return false,
        }
    }
    is_closed(begun)
}
