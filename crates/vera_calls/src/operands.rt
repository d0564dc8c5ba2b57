//! What a typed call takes of its arguments.

ghost use Rattle.std.specs.Prelude.{◌≡◌, ◌≤◌, ◌++◌, length, IfOk};
ghost use Rattle.typing_rules.specs.Arguments as arguments;
ghost use Rattle.typing_rules.specs.Formats as formats;
ghost use Rattle.typing_rules.specs.Operands as spec;

use crate::formats::format;
use four_state::{List, NoMemory};
use sqlite_items::Items;
use std::alloc::Global;
use typing_rules::head::Argument;
use typing_rules::words::Mode;
use vera_ast::{ConversionLetter, FormatPart, TypedArgument, ValueType};
use vera_values::arguments::prints;
use vera_values::heads::place;
use vera_values::lists::items_with;

/// Whether it is a mode word.
pub fn is_mode(argument: &Argument) -> bool
    ensures { result ≡ arguments.is_mode argument.now }
{
    matches!(argument, Argument::Mode(_))
}

/// The mode word among the arguments of a built-in call.
#[tactic(auto, unfolding(typing_rules::specs::Operands::mode_in))]
pub fn mode_in(arguments: &[Argument]) -> Option<Mode>
    ensures { result ≡ spec.mode_in arguments.now }
{
    for argument in arguments {
        if let Argument::Mode(mode) = argument {
            return Some(*mode);
        }
    }
    None
}

/// How many arguments there are, mode words left out.
#[tactic(auto, unfolding(typing_rules::specs::Operands::count_in))]
pub fn count_in(arguments: &[Argument]) -> usize
    ensures value { result ≡ spec.count_in arguments.now }
    ensures within { result ≤ length arguments.now }
{
    let mut count = 0;
    for argument in arguments {
        if !is_mode(argument) {
            count += 1;
        }
    }
    count
}

/// The types of the values among the arguments of a built-in call.
#[tactic(auto, unfolding(typing_rules::specs::Operands::types_in))]
pub fn types_in(alloc: Global, arguments: &[Argument]) -> Result<Vec<ValueType>, NoMemory>
    ensures { IfOk result (λ types. types.items ≡ spec.types_in arguments.now) }
{
    let mut types = Vec::new(alloc);
    for argument in arguments {
        if let Argument::Value(value) = argument {
            types.push(value.of)?;
        }
    }
    Ok(types)
}

/// The arguments behind a format.
#[tactic(auto, unfolding(typing_rules::specs::Operands::behind_format))]
pub fn behind_format(arguments: &[Argument]) -> &[Argument]
    ensures { result.now ≡ spec.behind_format arguments.now }
{
    for (at, argument) in arguments.iter().enumerate() {
        if matches!(argument, Argument::Literal(_)) {
            return &arguments[at + 1..];
        }
    }
    &arguments[arguments.len()..]
}

/// The format among the arguments of a built-in call.
#[tactic(auto, unfolding(typing_rules::specs::Operands::format_in))]
pub fn format_in(
    alloc: Global,
    arguments: &[Argument],
) -> Result<Option<List<FormatPart>>, NoMemory>
    ensures { IfOk result (λ parts. parts ≡ spec.format_in arguments.now) }
{
    for argument in arguments {
        if let Argument::Literal(text) = argument {
            return format(alloc, text.as_slice());
        }
    }
    Ok(None)
}

/// What the conversions of a format print.
#[tactic(auto, unfolding(typing_rules::specs::Formats::conversions))]
pub fn conversions(alloc: Global, parts: &[FormatPart]) -> Result<Vec<ConversionLetter>, NoMemory>
    ensures { IfOk result (λ letters. letters.items ≡ formats.conversions parts.now) }
{
    let mut letters = Vec::new(alloc);
    for part in parts {
        if let FormatPart::Conversion(conversion) = part {
            letters.push(conversion.letter)?;
        }
    }
    Ok(letters)
}

/// Whether each conversion prints the value at its place; their numbers aren't compared here.
#[tactic(auto, unfolding(typing_rules::specs::Formats::all_print))]
fn all_print(letters: &[ConversionLetter], types: &[ValueType]) -> bool
    ensures { result ≡ formats.all_print letters.now types.now }
{
    for (at, letter) in letters.iter().enumerate() {
        match types.get(at) {
            Some(of) if !prints(*letter, *of) => return false,
            Some(_) => {}
            None => return true,
        }
    }
    true
}

/// Whether the values behind a format are printed by its conversions, and whether there are as many.
#[derive(Drop)]
pub struct Printing {
    pub types: bool,
    pub count: bool,
}

/// Whether the values behind a format are printed by its conversions, and whether there are as many.
pub fn is_printed(
    alloc: Global,
    format: &Option<List<FormatPart>>,
    arguments: &[Argument],
) -> Result<Printing, NoMemory>
    ensures { IfOk result (λ p. (p.types ≡ spec.types_printed format.now (spec.types_in arguments.now)) × (p.count ≡ spec.count_printed format.now (spec.types_in arguments.now))) }
{
    match format {
        Some(parts) => {
            let letters = conversions(alloc, parts.as_slice())?;
            let types = types_in(alloc, arguments)?;
            Ok(Printing {
                types: all_print(letters.as_slice(), types.as_slice()),
                count: letters.len() == types.len(),
            })
        }
        None => Ok(Printing {
            types: true,
            count: true,
        }),
    }
}

/// With one more argument.
fn with_argument(
    typed: Items<TypedArgument>,
    argument: Argument,
) -> Result<Items<TypedArgument>, NoMemory>
    ensures { IfOk result (λ new. new ≡ typed ++ spec.typed_argument argument) }
{
    match argument {
        Argument::Value(value) => items_with(typed, TypedArgument::Value(value.expr)),
        Argument::Whole(whole) => items_with(typed, TypedArgument::Variable(place(whole))),
        _ => Ok(typed),
    }
}

/// What a user's task or function takes of its arguments.
#[tactic(auto, unfolding(typing_rules::specs::Operands::typed_arguments))]
pub fn typed_arguments(
    alloc: Global,
    arguments: Vec<Argument>,
) -> Result<Items<TypedArgument>, NoMemory>
    ensures { IfOk result (λ typed. typed ≡ spec.typed_arguments arguments.items) }
{
    let mut typed = Items::new(alloc);
    for argument in arguments {
        typed = with_argument(typed, argument)?;
    }
    Ok(typed)
}
