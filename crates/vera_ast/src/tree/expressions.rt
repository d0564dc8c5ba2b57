ghost use Rattle.std.specs.Prelude.{◌≡◌};
ghost use Rattle.vera_ast.specs.Lines.{line_of};

use four_state::{Text, Vec4};
use sqlite_items::{Boxed, Items};

/// An expression. A production that only passes another one on leaves no node: an expression without `?` is its
/// chain, a chain without an operator is its operand, and so on.
#[cycle(tree_expr)]
#[derive(Drop)]
pub enum Expr {
    Conditional(Conditional),
    /// A level of the chain of operators, with at least one operator: the first operand, and the operators that
    /// follow with their right operands. They group from the left.
    Chain {
        line: u32,
        first: Boxed<Expr>,
        links: Items<Link>,
    },
    Unary(Unary),
    Postfix(Postfix),
}

impl Expr {
    /// The line of its first token.
    #[tactic(auto, using(crate::proofs::Lines::conditional_line, crate::proofs::Lines::chain_line, crate::proofs::Lines::unary_line, crate::proofs::Lines::postfix_line))]
    pub fn line(&self) -> u32
        ensures { result ≡ line_of self.now }
    {
        match self {
            Expr::Conditional(conditional) => conditional.line,
            Expr::Chain { line, .. } => *line,
            Expr::Unary(unary) => unary.line,
            Expr::Postfix(postfix) => postfix.line,
        }
    }
}

/// `expr = lor [ "?" expr ":" expr ]`, where the `?` stands.
#[cycle(tree_expr)]
#[derive(Drop)]
pub struct Conditional {
    pub line: u32,
    pub condition: Boxed<Expr>,
    pub when_true: Boxed<Expr>,
    pub when_false: Boxed<Expr>,
}

/// An operator of a chain, and the operand on its right.
#[cycle(tree_expr)]
#[derive(Drop)]
pub struct Link {
    pub operator: ChainOperator,
    pub operand: Expr,
}

/// The operators that stand between two operands, the loosest first.
#[derive(Clone, Copy, PartialEq, Eq)]
pub enum ChainOperator {
    LogicalOr,
    LogicalAnd,
    Or,
    Xor,
    Xnor,
    And,
    Equal,
    NotEqual,
    CaseEqual,
    CaseNotEqual,
    WildEqual,
    WildNotEqual,
    Less,
    LessEqual,
    Greater,
    GreaterEqual,
    ShiftLeft,
    ShiftRight,
    Add,
    Subtract,
    Multiply,
    Divide,
    Remainder,
}

/// `unary = ( "!" | "~" | "-" | "+" | "&" | "|" | "^" | "~&" | "~|" | "~^" ) unary`.
#[cycle(tree_expr)]
#[derive(Drop)]
pub struct Unary {
    pub line: u32,
    pub operator: UnaryOperator,
    pub operand: Boxed<Expr>,
}

/// The operators that stand before their operand.
#[derive(Clone, Copy, PartialEq, Eq)]
pub enum UnaryOperator {
    LogicalNot,
    Not,
    Minus,
    Plus,
    And,
    Or,
    Xor,
    Nand,
    Nor,
    Xnor,
}

/// `post = prim { suffix }`.
#[cycle(tree_expr)]
#[derive(Drop)]
pub struct Postfix {
    pub line: u32,
    pub primary: Primary,
    pub suffixes: Items<Suffix>,
}

/// What may follow in `post`: `"." name`, `"." "new"`, `"[" expr [ ":" expr ] "]"` or
/// `"(" [ expr { "," expr } ] ")"`.
#[cycle(tree_expr)]
#[derive(Drop)]
pub enum Suffix {
    Member(Text),
    New,
    /// An element of an array, or a bit.
    Index(Boxed<Expr>),
    /// Bits from the first, the highest, to the second.
    Bits(Boxed<Expr>, Boxed<Expr>),
    Call(Items<Expr>),
}

/// `prim`, with the line of its first token.
#[cycle(tree_expr)]
#[derive(Drop)]
pub struct Primary {
    pub line: u32,
    pub form: PrimaryForm,
}

/// `prim = number | string | name | "null" | "this" | "super" | "new" | "(" expr ")"
///       | "{" expr { "," expr } "}" | "{" expr "{" expr { "," expr } "}" "}"`.
#[cycle(tree_expr)]
#[derive(Drop)]
pub enum PrimaryForm {
    Number(Number),
    Str(Text),
    /// A name, the name of a built-in call, or a mode word.
    Name(Text),
    Null,
    This,
    Super,
    New,
    Parentheses(Boxed<Expr>),
    /// `{ a, b }`: at least one part.
    Concatenation(Items<Expr>),
    /// `{ n { a, b } }`: the count, and at least one part.
    Replication(Boxed<Expr>, Items<Expr>),
}

/// A number literal: its value, and whether it is an unsized decimal. Such a one is an `integer`, and every other
/// literal is a `bit` vector.
#[derive(Clone, Copy)]
pub struct Number {
    pub value: Vec4,
    pub is_decimal: bool,
}
