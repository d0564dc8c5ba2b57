use super::file::{TypedFunction, TypedParameter, TypedTask};
use super::stmt::TypedBlock;
use super::types::VariableType;
use four_state::{List, Text};

/// `class name extends parent { fields methods }`.
#[derive(Drop)]
pub struct TypedClass {
    pub line: u32,
    pub name: Text,
    pub parent: Option<u32>,
    /// The types of its own fields in text order. They are numbered behind those of its ancestors.
    pub fields: List<VariableType>,
    pub constructor: Option<TypedConstructor>,
    /// Its own methods but `new`, in text order.
    pub methods: List<TypedMethod>,
}

/// `task new(parameters) block`.
#[derive(Drop)]
pub struct TypedConstructor {
    pub line: u32,
    pub parameters: List<TypedParameter>,
    /// The ancestor whose `new` is called before the block is entered: there is one where the block doesn't begin
    /// with `super.new`.
    pub before: Option<u32>,
    pub block: TypedBlock,
}

/// A method. A virtual one has a slot: that of the method that it overrides, or the next one behind those of the
/// ancestors and of the class's methods before it.
#[derive(Drop)]
pub enum TypedMethod {
    Task(Option<u32>, TypedTask),
    Function(Option<u32>, TypedFunction),
}
