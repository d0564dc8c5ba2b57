use super::expressions::Expr;
use four_state::{List, Text};

/// `type = "integer" | ( "bit" | "reg" ) [ range ] | "string" | "event" | name`.
#[derive(Drop)]
pub struct DataType {
    pub line: u32,
    pub form: TypeForm,
}

/// The alternatives of a type.
#[derive(Drop)]
pub enum TypeForm {
    Integer,
    Bit(Option<Range>),
    Reg(Option<Range>),
    Str,
    Event,
    /// A class, an enumeration or a coverage group.
    Named(Text),
}

/// `range = "[" expr ":" expr "]"`.
#[derive(Drop)]
pub struct Range {
    pub line: u32,
    pub high: Expr,
    pub low: Expr,
}

/// `decl = type var { "," var } ";"`.
#[derive(Drop)]
pub struct Decl {
    pub line: u32,
    pub of: DataType,
    /// At least one.
    pub variables: List<Variable>,
}

/// `var = name [ "[" expr "]" ] [ "=" expr ]`.
#[derive(Drop)]
pub struct Variable {
    pub line: u32,
    pub name: Text,
    pub bracket: Bracket,
    pub value: Option<Expr>,
}

/// What stands in brackets behind a variable's name.
#[derive(Drop)]
pub enum Bracket {
    /// No brackets: the variable is no array.
    None,
    /// The number of elements.
    Fixed(Expr),
    /// Nothing between the brackets: elements by key. No source gives it yet.
    Keys,
}
