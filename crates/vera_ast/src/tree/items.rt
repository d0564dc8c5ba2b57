use super::classes::Class;
use super::coverage::CoverageGroup;
use super::declarations::DataType;
use super::interfaces::Interface;
use super::statements::Block;
use four_state::{List, Text};

/// A source: `file = { item }`.
#[derive(Drop)]
pub struct Tree {
    pub items: List<Item>,
}

/// `item = enum | class | iface | group | task | func | prog`.
#[derive(Drop)]
pub enum Item {
    Enumeration(Enumeration),
    Class(Class),
    Interface(Interface),
    Group(CoverageGroup),
    Task(Task),
    Function(Function),
    Program(Program),
}

/// `enum = "enum" name "=" name { "," name } ";"`.
#[derive(Drop)]
pub struct Enumeration {
    pub line: u32,
    pub name: Text,
    /// The names of its values, at least one.
    pub values: List<Text>,
}

/// `task = "task" ( name | "new" ) "(" [ params ] ")" block`.
#[derive(Drop)]
pub struct Task {
    pub line: u32,
    pub name: TaskName,
    pub parameters: List<Parameter>,
    pub block: Block,
}

/// What a task is called: a name, or `new`.
#[derive(Drop)]
pub enum TaskName {
    Named(Text),
    New,
}

/// `func = "function" type name "(" [ params ] ")" block`.
#[derive(Drop)]
pub struct Function {
    pub line: u32,
    pub result: DataType,
    pub name: Text,
    pub parameters: List<Parameter>,
    pub block: Block,
}

/// `param = [ "var" ] type name`.
#[derive(Drop)]
pub struct Parameter {
    pub line: u32,
    /// Whether `var` stands before it: the parameter stands for its argument's variable.
    pub is_var: bool,
    pub of: DataType,
    pub name: Text,
}

/// `prog = "program" name block`.
#[derive(Drop)]
pub struct Program {
    pub line: u32,
    pub name: Text,
    pub block: Block,
}
