use super::class::TypedClass;
use super::group::TypedGroup;
use super::interface::TypedInterface;
use super::names::{TypedVariable, VariablePlace};
use super::stmt::TypedBlock;
use super::types::ValueType;
use crate::tree::items::TaskName;
use four_state::{List, Text};

/// A testbench: its items in text order.
#[derive(Drop)]
pub struct TypedTree {
    pub items: List<TypedItem>,
}

#[derive(Drop)]
pub enum TypedItem {
    Enumeration(TypedEnumeration),
    Class(TypedClass),
    Interface(TypedInterface),
    Group(TypedGroup),
    Task(TypedTask),
    Function(TypedFunction),
    Program(TypedProgram),
}

/// `enum name = values`.
#[derive(Drop)]
pub struct TypedEnumeration {
    pub line: u32,
    pub name: Text,
    /// The names of the values 0, 1, 2 and so on, at least one.
    pub values: List<Text>,
}

/// `task name(parameters) block`.
#[derive(Drop)]
pub struct TypedTask {
    pub line: u32,
    pub name: TaskName,
    pub parameters: List<TypedParameter>,
    pub block: TypedBlock,
}

/// `function type name(parameters) block`.
#[derive(Drop)]
pub struct TypedFunction {
    pub line: u32,
    pub name: Text,
    /// The variable of its name, which has the result.
    pub result: TypedVariable,
    pub parameters: List<TypedParameter>,
    pub block: TypedBlock,
}

/// A parameter. A `var` one is a reference.
#[derive(Clone, Copy)]
pub struct TypedParameter {
    pub line: u32,
    pub place: VariablePlace,
    pub of: ValueType,
}

/// `program name block`.
#[derive(Drop)]
pub struct TypedProgram {
    pub line: u32,
    pub name: Text,
    pub block: TypedBlock,
}
