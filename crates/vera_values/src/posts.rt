//! What a `post` stands for: names, and what a suffix makes of what stands before it.

ghost use Rattle.std.specs.Prelude.{◌≡◌, ◌-◌, ◌≤◌, suc, if◌then◌else◌, None, Ok as Given};
ghost use Rattle.typing_rules.specs.Answers.{Answers, answered};
ghost use Rattle.typing_rules.specs.Heads as heads;
ghost use Rattle.typing_rules.specs.Posts as spec;
ghost use Rattle.typing_rules.specs.Scopes as names;
ghost use Rattle.vera_values.specs.Steps.{cut_behind, wide_cut};
ghost use Rattle.typing_rules.specs.Types as types;
ghost use Rattle.typing_rules.specs.declared.head.Head.TheVariants as head;
ghost use Rattle.typing_rules.specs.declared.head.Whole.TheVariants as whole;

use crate::arguments::is_str;
use crate::heads::{is_output, whole_type};
use crate::sight::Sight;
use crate::values::{cut_value, value_of, whole_value};
use sqlite_items::Boxed;
use std::alloc::Global;
use typing_rules::head::{Cut, Head, Stand, Typed, Whole};
use typing_rules::names::{KnownSignal, Meaning};
use vera_ast::{
    ArrayLength, BitRange, Direction, FrontError, TypedArray, TypedElement, TypedExpr,
    TypedSignalName, TypedVariable, ValueType, VariableType, Width, with,
};
use vera_names::codes::{PAST_LIMIT, UNKNOWN_NAME, WRONG_SIGNAL, WRONG_TYPE, refuse, refused};
use vera_names::fitting::{is_vector, width_from};
use vera_names::reserved::{built_in, mode};
use vera_names::scope::Scopes;

/// What a name stands for that is no built-in call and no mode word.
fn named(means: Meaning) -> Head
    ensures { result ≡ spec.named means }
{
    match means {
        Meaning::Variable(place, VariableType::Value(of)) => Head::Whole(Whole::Variable(
            TypedVariable { place, of },
        )),
        Meaning::Variable(place, VariableType::Array(of, length)) => {
            Head::Array(TypedArray::Variable(place), length, of)
        }
        Meaning::Result(variable) => Head::Whole(Whole::Variable(variable)),
        Meaning::EnumName(name) => Head::Value(Typed {
            expr: TypedExpr::EnumName(name),
            of: ValueType::Enumeration(name.enumeration),
        }),
        _ => Head::Named(means),
    }
}

/// What a name means, by whether arguments follow it.
fn meaning(scopes: &Scopes<'_>, is_callee: bool, word: &[u8]) -> Option<Meaning>
    ensures { result ≡ (if is_callee then names.callee_of scopes.now word.now else names.meaning_of scopes.now word.now) }
{
    if is_callee {
        scopes.callee(word)
    } else {
        scopes.meaning(word)
    }
}

/// A name, by whether arguments follow it.
#[tactic(auto, using(crate::proofs::PostSteps::name_word, crate::proofs::PostSteps::name_mode, crate::proofs::PostSteps::name_found, crate::proofs::PostSteps::name_missing))]
pub fn name(sight: &Sight<'_>, is_callee: bool, line: u32, word: &[u8]) -> Result<Head, FrontError>
    ensures { result ≡ answered (spec.name sight.now is_callee line word.now) }
{
    if let Some(call) = built_in(word) {
        return Ok(Head::Word(call));
    }
    if let Some(mode) = mode(word) {
        return Ok(Head::Mode(mode));
    }
    match meaning(sight.scopes(), is_callee, word) {
        Some(means) => Ok(named(means)),
        None => Err(refused(UNKNOWN_NAME, line)),
    }
}

/// The string that a value is.
fn str_of(value: Typed) -> Option<TypedExpr>
    ensures { result ≡ spec.str_of value }
{
    if is_str(value.of) {
        Some(value.expr)
    } else {
        None
    }
}

/// What is no string is let go.
fn no_str(head: Head) -> Option<TypedExpr>
    ensures { result ≡ None }
{
    drop(head);
    None
}

/// The string that a head is.
#[tactic(auto, using(crate::proofs::PostSteps::no_str_in))]
fn str_in(head: Head) -> Option<TypedExpr>
    ensures { result ≡ spec.str_in head }
{
    match head {
        Head::Str(text) => Some(TypedExpr::Str(text)),
        Head::Value(value) => str_of(value),
        Head::Whole(whole) => str_of(whole_value(whole)),
        head => no_str(head),
    }
}

/// The length of a string, by the word behind its `.`.
#[tactic(auto, unfolding(typing_rules::specs::Checked::refuse))]
fn length_of(line: u32, word: &[u8], found: Option<TypedExpr>) -> Result<Head, FrontError>
    ensures { result ≡ answered (spec.length_of line word.now found) }
{
    match found {
        Some(text) if word == b"len".as_slice() => Ok(Head::Length(text)),
        found => refuse(found, WRONG_TYPE, line),
    }
}

fn signal_head(signal: &KnownSignal) -> Head
    ensures { result ≡ spec.signal_head signal.now }
{
    Head::Signal(signal.is, signal.direction)
}

/// What follows a name behind a `.`: a signal, where the name is an interface's.
#[tactic(auto, using(crate::proofs::PostSteps::member_found, crate::proofs::PostSteps::member_missing), unfolding(typing_rules::specs::Posts::member, typing_rules::specs::Checked::refuse))]
fn member_of_name(
    sight: &Sight<'_>,
    line: u32,
    means: Meaning,
    word: &[u8],
) -> Result<Head, FrontError>
    ensures { result ≡ answered (spec.member sight.now line (head.Named means) word.now) }
{
    match means {
        Meaning::Interface(interface) => match sight.outline().signal_named(interface, word) {
            Some(signal) => Ok(signal_head(signal)),
            None => Err(refused(UNKNOWN_NAME, line)),
        },
        _ => Err(refused(WRONG_TYPE, line)),
    }
}

/// A signal of an interface, or the length of a string.
#[tactic(auto, using(crate::proofs::PostSteps::member_other))]
pub fn member(sight: &Sight<'_>, line: u32, head: Head, word: &[u8]) -> Result<Head, FrontError>
    ensures { result ≡ answered (spec.member sight.now line head word.now) }
{
    match head {
        Head::Named(means) => member_of_name(sight, line, means, word),
        _ => length_of(line, word, str_in(head)),
    }
}

fn is_plain_vector(of: ValueType) -> bool
    ensures { result ≡ spec.is_plain_vector of }
{
    matches!(of, ValueType::Vector(_))
}

/// Bits of a value that is no place: they are a value.
#[tactic(auto, using(crate::proofs::CutSteps::cut_wrong, crate::proofs::CutSteps::cut_right))]
fn value_cut(alloc: Global, line: u32, value: Typed, cut: Cut) -> Result<Head, FrontError>
    ensures { Answers (spec.value_cut line value cut) result }
{
    let Typed { expr, of } = value;
    if !is_vector(of) {
        return refuse((expr, cut), WRONG_TYPE, line);
    }
    Ok(Head::Value(cut_value(alloc, expr, cut)?))
}

/// Whether taking bits of a signal reads an output: not where a place is taken.
fn reads_output(stand: Stand, direction: Direction) -> bool
    ensures { result ≡ spec.reads_output stand direction }
{
    !matches!(stand, Stand::Place) && is_output(direction)
}

/// Bits of the sample of a signal that bits are taken of.
#[tactic(auto, using(crate::proofs::CutSteps::part_wrong, crate::proofs::CutSteps::part_right))]
fn part_in(
    alloc: Global,
    stand: Stand,
    line: u32,
    signal: TypedSignalName,
    direction: Direction,
    cut: Cut,
) -> Result<Typed, FrontError>
    ensures { Answers (spec.value_in stand line (head.SignalPart signal direction cut)) result }
{
    if reads_output(stand, direction) {
        return refuse(cut, WRONG_SIGNAL, line);
    }
    Ok(cut_value(alloc, TypedExpr::Sample(signal), cut)?)
}

/// The value that bits are taken of: bits of a signal whose bits are taken as a place aren't read.
fn value_in(alloc: Global, stand: Stand, line: u32, head: Head) -> Result<Typed, FrontError>
    ensures { Answers (spec.value_in stand line head) result }
{
    match head {
        Head::SignalPart(signal, direction, cut) => {
            part_in(alloc, stand, line, signal, direction, cut)
        }
        _ => value_of(alloc, line, head),
    }
}

/// Bits of a variable, field or element: a vector's can be assigned, any other ones are a value.
fn whole_cut(alloc: Global, line: u32, whole: Whole, cut: Cut) -> Result<Head, FrontError>
    ensures { Answers (if spec.is_plain_vector (heads.whole_type whole) then Ok (head.Part whole cut) else spec.value_cut line (heads.typed (heads.read whole) (heads.whole_type whole)) cut) result }
{
    if is_plain_vector(whole_type(&whole)) {
        return Ok(Head::Part(whole, cut));
    }
    value_cut(alloc, line, whole_value(whole), cut)
}

/// Bits of what is read: they are a value.
#[tactic(auto, using(crate::proofs::CutSteps::behind_wrong, crate::proofs::CutSteps::behind_right))]
fn other_cut(
    alloc: Global,
    stand: Stand,
    line: u32,
    head: Head,
    cut: Cut,
) -> Result<Head, FrontError>
    ensures { Answers (cut_behind line (spec.value_in stand line head) cut) result }
{
    let (cut, value) = with(cut, value_in(alloc, stand, line, head))?;
    value_cut(alloc, line, value, cut)
}

/// Bits of what stands before them.
#[tactic(auto, unfolding(typing_rules::specs::Posts::cut_head))]
pub fn cut_head(
    alloc: Global,
    stand: Stand,
    line: u32,
    head: Head,
    cut: Cut,
) -> Result<Head, FrontError>
    ensures { Answers (spec.cut_head stand line head cut) result }
{
    match head {
        Head::Whole(whole) => whole_cut(alloc, line, whole, cut),
        Head::Signal(signal, direction) => Ok(Head::SignalPart(signal, direction, cut)),
        _ => other_cut(alloc, stand, line, head, cut),
    }
}

/// An element of an array.
fn element(
    alloc: Global,
    array: TypedArray,
    length: ArrayLength,
    of: ValueType,
    index: TypedExpr,
) -> Result<Head, FrontError>
    ensures { Answers (Given (head.Whole (whole.Element (record { array = array; length = length; index = index; of = of })))) result }
{
    let index = Boxed::new(alloc, index)?;
    Ok(Head::Whole(Whole::Element(TypedElement {
        array,
        length,
        index,
        of,
    })))
}

/// An element of an array, or a bit.
#[tactic(auto, using(crate::proofs::CutSteps::indexed_other))]
fn indexed(
    alloc: Global,
    stand: Stand,
    line: u32,
    head: Head,
    index: TypedExpr,
) -> Result<Head, FrontError>
    ensures { Answers (spec.indexed stand line head index) result }
{
    match head {
        Head::Array(array, length, of) => element(alloc, array, length, of, index),
        _ => cut_head(alloc, stand, line, head, Cut::Bit(index)),
    }
}

/// `[index]`: an element of an array, or a bit.
#[tactic(auto, using(crate::proofs::CutSteps::index_wrong, crate::proofs::CutSteps::index_right))]
pub fn index(
    alloc: Global,
    stand: Stand,
    line: u32,
    head: Head,
    index: Typed,
) -> Result<Head, FrontError>
    ensures { Answers (spec.index stand line head index) result }
{
    let Typed { expr, of } = index;
    if !is_vector(of) {
        return refuse((head, expr), WRONG_TYPE, line);
    }
    indexed(alloc, stand, line, head, expr)
}

fn range_cut(low: u32, width: Width) -> Cut
    ensures { result ≡ spec.range_cut low width }
{
    Cut::Bits(BitRange { low, width })
}

/// The rule that too many bits break first: an output isn't read.
fn too_wide(stand: Stand, head: &Head) -> u8
    ensures { result ≡ spec.too_wide stand head.now }
{
    match head {
        Head::Signal(_, direction) if reads_output(stand, *direction) => WRONG_SIGNAL,
        _ => PAST_LIMIT,
    }
}

/// The width of the bits from `low` to `high`, where there are 1 to 128.
#[tactic(auto, using(crate::proofs::ProductionSteps::too_wide))]
fn range_width(high: u32, low: u32) -> Option<Width>
    requires { low ≤ high }
    ensures { result ≡ types.width_from (suc (high - low)) }
{
    if high - low >= 128 {
        return None;
    }
    width_from(high - low + 1)
}

/// More bits than 128: the rules of what they are bits of come before that of their number.
#[tactic(auto, using(crate::proofs::PostSteps::wide_refused, crate::proofs::PostSteps::wide_right))]
fn too_many(
    alloc: Global,
    stand: Stand,
    line: u32,
    head: Head,
    low: u32,
) -> Result<Head, FrontError>
    ensures { Answers (wide_cut stand line head low) result }
{
    let code = too_wide(stand, &head);
    let cut = cut_head(alloc, stand, line, head, range_cut(low, Width::one()))?;
    refuse(cut, code, line)
}

/// `[high:low]`. The rules of the bits' order and of what they are bits of come before that of their number.
#[tactic(auto, using(crate::proofs::PostSteps::bits_order, crate::proofs::PostSteps::bits_right, crate::proofs::PostSteps::bits_many))]
pub fn bits(
    alloc: Global,
    stand: Stand,
    line: u32,
    head: Head,
    high: u32,
    low: u32,
) -> Result<Head, FrontError>
    ensures { Answers (spec.bits stand line head high low) result }
{
    if high < low {
        return refuse(head, WRONG_TYPE, line);
    }
    match range_width(high, low) {
        Some(width) => cut_head(alloc, stand, line, head, range_cut(low, width)),
        None => too_many(alloc, stand, line, head, low),
    }
}
