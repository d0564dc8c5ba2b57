use super::types::{ValueType, Width};

/// Where a variable's value is kept.
#[derive(Clone, Copy, PartialEq, Eq)]
pub enum VariablePlace {
    /// A variable of the program's outermost block: its number, from 0 in text order.
    Program(u32),
    /// A variable of a task, function, method or inner block: its place among those of the same body that are in sight
    /// there, the outermost first, from 0. Whether several threads share it follows from the body.
    Local(u32),
    /// A `var` parameter: its place as a local one. It stands for its argument's variable.
    Reference(u32),
}

/// A name that stands for a variable that is no array: the variable's place and its type.
#[derive(Clone, Copy, PartialEq, Eq)]
pub struct TypedVariable {
    pub place: VariablePlace,
    pub of: ValueType,
}

/// A name that stands for a signal: its number among all signals of the file, from 0 in text order, and its width.
#[derive(Clone, Copy, PartialEq, Eq)]
pub struct TypedSignalName {
    pub number: u32,
    pub width: Width,
}

/// A name of an enumeration: the enumeration, and the name's value.
#[derive(Clone, Copy, PartialEq, Eq)]
pub struct EnumName {
    pub enumeration: u32,
    pub value: u32,
}

/// A method: the class that has its body, and its number among that class's methods, from 0 in text order.
#[derive(Clone, Copy, PartialEq, Eq)]
pub struct MethodName {
    pub class: u32,
    pub number: u32,
}
