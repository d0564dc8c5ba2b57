use four_state::{List, Text};
use vera_ast::tree::interfaces::Direction;
use vera_ast::typed::interface::TypedSignalKind;
use vera_ast::typed::names::{EnumName, TypedSignalName, TypedVariable, VariablePlace};
use vera_ast::typed::types::{ValueType, VariableType};

/// What a name stands for.
#[derive(Clone, Copy)]
pub enum Meaning {
    /// A variable whose type isn't told yet: the walk through the declarations knows no more of it.
    Later,
    /// A variable or a parameter.
    Variable(VariablePlace, VariableType),
    /// The variable of a function's name in the function's body, which has the result.
    Result(TypedVariable),
    EnumName(EnumName),
    /// An enumeration, by its number among the enumerations in text order; and so for each of the next ones.
    Enumeration(u32),
    Class(u32),
    Group(u32),
    Interface(u32),
    Task(u32),
    Function(u32),
    Program,
}

/// A name of a scope.
#[derive(Drop)]
pub struct Declared {
    pub name: Text,
    pub means: Meaning,
}

/// A parameter of a task or function, as its calls see it.
#[derive(Clone, Copy)]
pub struct Expected {
    pub is_var: bool,
    pub of: ValueType,
}

/// A task or function, as its calls see it: its parameters, and of a function the type of its result.
#[derive(Drop)]
pub struct Routine {
    pub parameters: List<Expected>,
    pub gives: Option<ValueType>,
}

/// A signal of an interface, as its uses see it.
#[derive(Drop)]
pub struct KnownSignal {
    pub name: Text,
    pub is: TypedSignalName,
    pub direction: Direction,
    pub kind: TypedSignalKind,
}
