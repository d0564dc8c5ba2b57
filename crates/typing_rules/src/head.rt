use super::names::Meaning;
use super::words::{BuiltIn, Mode};
use four_state::{List, Text};
use vera_ast::tree::expressions::Number;
use vera_ast::tree::interfaces::Direction;
use vera_ast::typed::builtin::BuiltInTask;
use vera_ast::typed::expr::TypedExpr;
use vera_ast::typed::format::FormatPart;
use vera_ast::typed::invocation::TypedCall;
use vera_ast::typed::names::{TypedSignalName, TypedVariable};
use vera_ast::typed::place::{BitRange, TypedArray, TypedElement, TypedField, TypedPlace};
use vera_ast::typed::stmt::WaitingCall;
use vera_ast::typed::types::{ArrayLength, ValueType};

/// An expression with its type.
#[derive(Drop)]
pub struct Typed {
    pub expr: TypedExpr,
    pub of: ValueType,
}

/// A variable, a field or an element of an array.
#[derive(Drop)]
pub enum Whole {
    Variable(TypedVariable),
    Field(TypedField),
    Element(TypedElement),
}

/// Which bits of a vector: one by its index, or a range.
#[derive(Drop)]
pub enum Cut {
    Bit(TypedExpr),
    Bits(BitRange),
}

/// What a `post` stands for, up to one of its suffixes.
#[derive(Drop)]
pub enum Head {
    /// A number literal alone.
    Number(Number),
    /// A string literal alone.
    Str(Text),
    /// A value that is no place.
    Value(Typed),
    Whole(Whole),
    /// Bits of a variable, field or element that is a vector.
    Part(Whole, Cut),
    /// An array, which is used by element.
    Array(TypedArray, ArrayLength, ValueType),
    Signal(TypedSignalName, Direction),
    SignalPart(TypedSignalName, Direction, Cut),
    /// `string.len`, before it is called.
    Length(TypedExpr),
    /// A call that may wait.
    Waits(WaitingCall),
    /// A call of a task.
    Task(TypedCall),
    /// A built-in call that gives nothing: its operands, and the places that it assigns or waits for.
    BuiltIn(BuiltInTask, List<TypedExpr>, List<TypedPlace>),
    Prints(List<FormatPart>, List<TypedExpr>),
    PrintsInto(TypedPlace, List<FormatPart>, List<TypedExpr>),
    /// A task, function, type, interface or program.
    Named(Meaning),
    /// The name of a built-in call, before it is called.
    Word(BuiltIn),
    Mode(Mode),
    New,
}

/// An argument, as the rules of its call see it.
#[derive(Drop)]
pub enum Argument {
    Value(Typed),
    /// A variable, field or element, where the call wants one.
    Whole(Whole),
    /// Bits, or a signal, where the call wants a variable: its type.
    NoVariable(ValueType),
    /// A string literal where the call wants a format.
    Literal(Text),
    /// The literal `0` where the call wants it.
    Zero,
    Mode(Mode),
}

/// Where an expression stands.
#[derive(Clone, Copy, PartialEq, Eq)]
pub enum Stand {
    /// Within another expression, or anywhere that isn't one of the others.
    Inside,
    /// As a left side, as the signal of a term, or as an argument that is to be a variable: what it names isn't read.
    Place,
    /// As a statement.
    Statement,
    /// As the whole right side of an assignment.
    Assigned,
    /// As the whole right side of `void =`.
    Dropped,
}

/// The whole right side of an assignment.
#[derive(Drop)]
pub enum Right {
    Value(Typed),
    /// A call that may wait, which gives an `integer`.
    Waits(WaitingCall),
}
