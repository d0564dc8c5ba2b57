ghost use Rattle.std.specs.Prelude.{◌≡◌};
ghost use Rattle.vera_ast.specs.Lines.{stmt_line};

use super::declarations::Decl;
use super::expressions::{Expr, Number, Postfix};
use four_state::{List, Text};
use sqlite_items::{Boxed, Items};

/// `block = "{" { decl } { stmt } "}"`.
#[cycle(tree_stmt)]
#[derive(Drop)]
pub struct Block {
    pub line: u32,
    pub decls: List<Decl>,
    pub stmts: Items<Stmt>,
}

/// `edge = "@" "(" "posedge" ( "CLOCK" | name "." name ) ")"`.
#[derive(Drop)]
pub struct Edge {
    pub line: u32,
    /// Whether it is the edge at which the clock falls. No source gives it yet.
    pub negative: bool,
    pub clock: EdgeClock,
}

/// The clock of an edge: the system clock, or an interface's signal.
#[derive(Drop)]
pub enum EdgeClock {
    Clock,
    Signal(Text, Text),
}

/// The alternatives of `stmt`, in their order.
#[cycle(tree_stmt)]
#[derive(Drop)]
pub enum Stmt {
    Block(Block),
    /// `;`, with its line.
    Empty(u32),
    /// `step ";"`.
    Step(Step),
    /// `"void" "=" post ";"`.
    Void(Void),
    /// `post ";"`.
    Call(Postfix),
    /// `edge ";"`.
    Edge(Edge),
    If(If),
    While(While),
    Repeat(Repeat),
    For(For),
    /// `"case" "(" expr ")" "{" { arm } "}"`.
    Case {
        line: u32,
        value: Expr,
        arms: Items<Arm>,
    },
    /// `"break" ";"`, with its line.
    Break(u32),
    /// `"continue" ";"`, with its line.
    Continue(u32),
    /// `"return" ";"`, with its line.
    Return(u32),
    /// `"terminate" ";"`, with its line.
    Terminate(u32),
    Fork(Fork),
    Drive(Drive),
    Expect(Expect),
}

impl Stmt {
    /// The line of its first token.
    #[tactic(auto, using(crate::proofs::Lines::block_line, crate::proofs::Lines::if_line, crate::proofs::Lines::while_line, crate::proofs::Lines::repeat_line, crate::proofs::Lines::for_line, crate::proofs::Lines::case_line, crate::proofs::Lines::fork_line))]
    pub fn line(&self) -> u32
        ensures { result ≡ stmt_line self.now }
    {
        match self {
            Stmt::Block(block) => block.line,
            Stmt::Empty(line)
            | Stmt::Case { line, .. }
            | Stmt::Break(line)
            | Stmt::Continue(line)
            | Stmt::Return(line)
            | Stmt::Terminate(line) => *line,
            Stmt::Step(step) => step.line,
            Stmt::Void(void) => void.line,
            Stmt::Call(value) => value.line,
            Stmt::Edge(edge) => edge.line,
            Stmt::If(choice) => choice.line,
            Stmt::While(turns) => turns.line,
            Stmt::Repeat(turns) => turns.line,
            Stmt::For(turns) => turns.line,
            Stmt::Fork(fork) => fork.line,
            Stmt::Drive(drive) => drive.line,
            Stmt::Expect(expect) => expect.line,
        }
    }
}

/// `"void" "=" post ";"`: the value is dropped.
#[derive(Drop)]
pub struct Void {
    pub line: u32,
    pub value: Postfix,
}

/// `"if" "(" expr ")" stmt [ "else" stmt ]`.
#[cycle(tree_stmt)]
#[derive(Drop)]
pub struct If {
    pub line: u32,
    pub condition: Expr,
    pub when_true: Boxed<Stmt>,
    pub when_false: Option<Boxed<Stmt>>,
}

/// `"while" "(" expr ")" stmt`.
#[cycle(tree_stmt)]
#[derive(Drop)]
pub struct While {
    pub line: u32,
    pub condition: Expr,
    pub body: Boxed<Stmt>,
}

/// `"repeat" "(" expr ")" stmt`.
#[cycle(tree_stmt)]
#[derive(Drop)]
pub struct Repeat {
    pub line: u32,
    pub count: Expr,
    pub body: Boxed<Stmt>,
}

/// `"for" "(" step ";" expr ";" step ")" stmt`.
#[cycle(tree_stmt)]
#[derive(Drop)]
pub struct For {
    pub line: u32,
    pub start: Step,
    pub condition: Expr,
    pub step: Step,
    pub body: Boxed<Stmt>,
}

/// `arm = ( expr { "," expr } | "default" ) ":" stmt`.
#[cycle(tree_stmt)]
#[derive(Drop)]
pub struct Arm {
    pub line: u32,
    pub label: ArmLabel,
    pub body: Stmt,
}

/// What a case's value is compared with.
#[derive(Drop)]
pub enum ArmLabel {
    /// At least one.
    Values(List<Expr>),
    Default,
}

/// `"fork" stmt { stmt } "join" [ "all" | "any" | "none" ]`.
#[cycle(tree_stmt)]
#[derive(Drop)]
pub struct Fork {
    pub line: u32,
    /// At least one.
    pub branches: Items<Stmt>,
    pub join: Join,
}

/// For which of its branches a fork waits. A plain `join` waits for all.
#[derive(Clone, Copy, PartialEq, Eq)]
pub enum Join {
    All,
    Any,
    None,
}

/// `[ "@" delay ] post ( "=" | "<=" ) expr ";"`. With `=` a delay stands before it: without one, `post = expr` is a
/// step.
#[derive(Drop)]
pub struct Drive {
    pub line: u32,
    /// Where it is missing, the delay is 0.
    pub delay: Option<Delay>,
    pub signal: Postfix,
    pub operator: DriveOperator,
    pub value: Expr,
}

/// The sign between a drive's signal and its value.
#[derive(Clone, Copy, PartialEq, Eq)]
pub enum DriveOperator {
    /// `=`.
    Assign,
    /// `<=`.
    Arrow,
}

/// `[ ( "@" | "@@" | "@@@" ) delay [ "," delay ] ] [ "soft" ] term { "," term } [ "soft" ] ";"`.
#[derive(Drop)]
pub struct Expect {
    pub line: u32,
    /// Where it is missing, it is `@0`.
    pub window: Option<Window>,
    /// Whether `soft` stands before the terms.
    pub soft_before: bool,
    /// At least one.
    pub terms: List<Term>,
    /// Whether `soft` stands behind the terms.
    pub soft_after: bool,
}

/// `( "@" | "@@" | "@@@" ) delay [ "," delay ]`.
#[derive(Drop)]
pub struct Window {
    pub line: u32,
    pub kind: WindowKind,
    pub first: Delay,
    /// Where it is missing, it is 0.
    pub second: Option<Delay>,
}

/// When the terms of an expect have to hold in its window.
#[derive(Clone, Copy, PartialEq, Eq)]
pub enum WindowKind {
    /// `@`: at some cycle.
    Simple,
    /// `@@`: at every cycle.
    Full,
    /// `@@@`: at every cycle, without a change.
    Restricted,
}

/// `delay = number | name | "(" expr ")"`.
#[derive(Drop)]
pub struct Delay {
    pub line: u32,
    pub form: DelayForm,
}

/// The alternatives of a delay.
#[derive(Drop)]
pub enum DelayForm {
    Number(Number),
    Name(Text),
    Parentheses(Expr),
}

/// `term = post ( "==" | "!=" ) expr`.
#[derive(Drop)]
pub struct Term {
    pub line: u32,
    pub signal: Postfix,
    pub operator: TermOperator,
    pub value: Expr,
}

/// The sign between a term's signal and its value.
#[derive(Clone, Copy, PartialEq, Eq)]
pub enum TermOperator {
    /// `==`.
    Equal,
    /// `!=`.
    NotEqual,
}

/// `step = post ( "=" | "+=" | "-=" ) expr | post ( "++" | "--" )`.
#[derive(Drop)]
pub struct Step {
    pub line: u32,
    pub target: Postfix,
    pub change: Change,
}

/// What a step does to its target.
#[derive(Drop)]
pub enum Change {
    /// `= expr`.
    Assign(Expr),
    /// `+= expr`.
    Add(Expr),
    /// `-= expr`.
    Subtract(Expr),
    /// `++`.
    Increment,
    /// `--`.
    Decrement,
}
