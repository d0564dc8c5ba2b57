use super::expr::TypedExpr;
use super::names::MethodName;
use super::place::TypedPlace;
use sqlite_items::{Boxed, Items};

/// A call: what is called, and an argument for each of its parameters.
#[cycle(typed_expr)]
#[derive(Drop)]
pub struct TypedCall {
    pub callee: TypedCallee,
    pub arguments: Items<TypedArgument>,
}

/// What is called.
#[cycle(typed_expr)]
#[derive(Drop)]
pub enum TypedCallee {
    /// A task of the file.
    Task(u32),
    /// A function of the file.
    Function(u32),
    /// A method of an object that isn't virtual, or one that `super` names.
    Method(Boxed<TypedExpr>, MethodName),
    /// A virtual method of an object: the method's slot. The object's own class says which body is run.
    Virtual(Boxed<TypedExpr>, u32),
    /// `super.new`: the `new` of an ancestor, on `this`. The class that has it.
    SuperNew(u32),
}

/// An argument.
#[cycle(typed_expr)]
#[derive(Drop)]
pub enum TypedArgument {
    Value(TypedExpr),
    /// The argument of a `var` parameter, which stands for this variable.
    Variable(TypedPlace),
}

/// `new` of a class.
#[cycle(typed_expr)]
#[derive(Drop)]
pub struct TypedNew {
    pub class: u32,
    /// The class whose `new` is called: this one or its nearest ancestor that has one.
    pub constructor: Option<u32>,
    pub arguments: Items<TypedArgument>,
}
