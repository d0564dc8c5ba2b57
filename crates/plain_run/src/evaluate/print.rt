ghost use Rattle.std.specs.Prelude.{◌≡◌, ◌++◌, IfOk, OnOk, map};
ghost use Rattle.vera_meaning.specs.Formats.{formatted, converted};
ghost use Rattle.plain_run.specs.Printing.{GivesAll, argument_of};
ghost use Rattle.plain_run.specs.Values.{contents_of};

use super::expr::{self, Typed};
use super::types::is_signed;
use super::values::Values;
use four_state::NoMemory;
use std::alloc::Global;
use vera_ast::{Conversion, ConversionLetter, FormatPart, TypedExpr};

/// The values of arguments, in order.
pub fn values(
    alloc: Global,
    arguments: &[TypedExpr],
    contents: &Values,
) -> Result<Vec<Typed>, NoMemory>
    ensures { IfOk result (λ values. GivesAll arguments.now (contents_of contents.now) values.items) }
{
    let mut values = Vec::new(alloc);
    for argument in arguments {
        values.push(expr::value(argument, contents))?;
    }
    Ok(values)
}

/// Prints a format with the values of its arguments.
pub fn write_format(
    alloc: Global,
    format: &[FormatPart],
    values: &[Typed],
    printed: &mut Vec<u8>,
) -> Result<(), NoMemory>
    ensures { OnOk result (printed.new.items ≡ printed.old.items ++ formatted format.now (map argument_of values.now)) }
{
    let mut taken = 0;
    for part in format {
        match part {
            FormatPart::Bytes(bytes) => printed.extend_from_slice(bytes.as_slice())?,
            FormatPart::Conversion(conversion) => {
                if taken < values.len() {
                    convert(alloc, conversion, &values[taken], printed)?;
                    taken += 1;
                }
            }
        }
    }
    Ok(())
}

/// Prints a value by a conversion. Others than the plain decimal number aren't built: they print nothing.
fn convert(
    alloc: Global,
    conversion: &Conversion,
    value: &Typed,
    printed: &mut Vec<u8>,
) -> Result<(), NoMemory>
    ensures { OnOk result (printed.new.items ≡ printed.old.items ++ converted conversion.now.width conversion.now.letter (argument_of value.now)) }
{
    match conversion.width {
        Some(_) => Ok(()),
        None => match conversion.letter {
            ConversionLetter::Decimal => {
                let text = value.bits.to_decimal_text(alloc, is_signed(value.of))?;
                printed.extend_from_slice(text.as_slice())?;
                Ok(())
            }
            _ => Ok(()),
        },
    }
}
