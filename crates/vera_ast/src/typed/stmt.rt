ghost use Rattle.std.specs.Prelude.{◌≡◌};
ghost use Rattle.vera_ast.specs.TypedLines.{typed_line};

use super::builtin::{BuiltInTask, WaitingFunction};
use super::expr::TypedExpr;
use super::format::FormatPart;
use super::invocation::TypedCall;
use super::names::{TypedSignalName, VariablePlace};
use super::place::TypedPlace;
use super::types::VariableType;
use crate::tree::statements::{DriveOperator, Join, TermOperator, WindowKind};
use four_state::List;
use sqlite_items::{Boxed, Items};

/// `{ declarations statements }`.
#[cycle(typed_stmt)]
#[derive(Drop)]
pub struct TypedBlock {
    pub line: u32,
    pub decls: List<TypedDecl>,
    pub stmts: Items<TypedStmt>,
}

/// A declaration: the variables that it makes, in text order. With a value it is a statement too.
#[derive(Drop)]
pub struct TypedDecl {
    pub line: u32,
    pub vars: List<DeclaredVariable>,
}

/// A variable of a declaration.
#[derive(Drop)]
pub struct DeclaredVariable {
    pub place: VariablePlace,
    pub of: VariableType,
    pub value: Option<InitialValue>,
}

/// The value of a variable's declaration.
#[derive(Drop)]
pub enum InitialValue {
    Value(TypedExpr),
    Wait(WaitingCall),
}

/// The alternatives of a statement, in the grammar's order.
#[cycle(typed_stmt)]
#[derive(Drop)]
pub enum TypedStmt {
    Block(TypedBlock),
    /// `;`, with its line.
    Empty(u32),
    Step(TypedStep),
    Void(TypedVoid),
    Call(TypedTaskCall),
    BuiltIn(TypedBuiltIn),
    Wait(TypedWait),
    Printf(TypedPrintf),
    Sprintf(TypedSprintf),
    Edge(TypedEdge),
    If(TypedIf),
    While(TypedWhile),
    Repeat(TypedRepeat),
    For(TypedFor),
    /// `case (value) { arms }`.
    Case {
        line: u32,
        value: TypedExpr,
        arms: Items<TypedArm>,
    },
    /// `break;`, with its line.
    Break(u32),
    /// `continue;`, with its line.
    Continue(u32),
    /// `return;`, with its line.
    Return(u32),
    /// `terminate;`, with its line.
    Terminate(u32),
    Fork(TypedFork),
    Drive(TypedDrive),
    Expect(TypedExpect),
}

impl TypedStmt {
    /// The line of its first token.
    pub fn line(&self) -> u32
        ensures { result ≡ typed_line self.now }
    {
        match self {
            TypedStmt::Block(block) => block.line,
            TypedStmt::Empty(line)
            | TypedStmt::Case { line, .. }
            | TypedStmt::Break(line)
            | TypedStmt::Continue(line)
            | TypedStmt::Return(line)
            | TypedStmt::Terminate(line) => *line,
            TypedStmt::Step(step) => step.line,
            TypedStmt::Void(void) => void.line,
            TypedStmt::Call(call) => call.line,
            TypedStmt::BuiltIn(call) => call.line,
            TypedStmt::Wait(wait) => wait.line,
            TypedStmt::Printf(printf) => printf.line,
            TypedStmt::Sprintf(sprintf) => sprintf.line,
            TypedStmt::Edge(edge) => edge.line,
            TypedStmt::If(choice) => choice.line,
            TypedStmt::While(turns) => turns.line,
            TypedStmt::Repeat(turns) => turns.line,
            TypedStmt::For(turns) => turns.line,
            TypedStmt::Fork(fork) => fork.line,
            TypedStmt::Drive(drive) => drive.line,
            TypedStmt::Expect(expect) => expect.line,
        }
    }
}

/// A statement that changes a place.
#[derive(Drop)]
pub struct TypedStep {
    pub line: u32,
    pub target: TypedPlace,
    pub change: TypedChange,
}

/// What a step does to its target.
#[derive(Drop)]
pub enum TypedChange {
    /// `= value`.
    Assign(TypedExpr),
    /// `= call`, where the call may wait.
    Wait(WaitingCall),
    /// `+= value`.
    Add(TypedExpr),
    /// `-= value`.
    Subtract(TypedExpr),
    /// `++`.
    Increment,
    /// `--`.
    Decrement,
}

/// `void = value`, or a value as a statement: the value is dropped.
#[derive(Drop)]
pub struct TypedVoid {
    pub line: u32,
    pub value: TypedExpr,
}

/// A call of a task, of a method that is one, or `super.new`.
#[derive(Drop)]
pub struct TypedTaskCall {
    pub line: u32,
    pub call: TypedCall,
}

/// A built-in call that gives nothing: its operands in order, and the places that it assigns or waits for.
#[derive(Drop)]
pub struct TypedBuiltIn {
    pub line: u32,
    pub task: BuiltInTask,
    pub operands: List<TypedExpr>,
    pub targets: List<TypedPlace>,
}

/// A built-in call that may wait: its operands in order, and the place that it assigns.
#[derive(Drop)]
pub struct WaitingCall {
    pub function: WaitingFunction,
    pub operands: List<TypedExpr>,
    pub target: Option<TypedPlace>,
}

/// A call that may wait, whose number is dropped.
#[derive(Drop)]
pub struct TypedWait {
    pub line: u32,
    pub call: WaitingCall,
}

/// `printf(format, arguments)`; the format has one conversion for each argument.
#[derive(Drop)]
pub struct TypedPrintf {
    pub line: u32,
    pub format: List<FormatPart>,
    pub arguments: List<TypedExpr>,
}

/// `sprintf(target, format, arguments)`.
#[derive(Drop)]
pub struct TypedSprintf {
    pub line: u32,
    pub target: TypedPlace,
    pub format: List<FormatPart>,
    pub arguments: List<TypedExpr>,
}

/// `@(posedge ..)`: the thread waits for the next edge of the clock. All edges are those of the one clock.
#[derive(Clone, Copy)]
pub struct TypedEdge {
    pub line: u32,
    /// Whether it is the edge at which the clock falls. No source gives it yet.
    pub negative: bool,
}

/// `if (condition) when_true else when_false`.
#[cycle(typed_stmt)]
#[derive(Drop)]
pub struct TypedIf {
    pub line: u32,
    pub condition: TypedExpr,
    pub when_true: Boxed<TypedStmt>,
    pub when_false: Option<Boxed<TypedStmt>>,
}

/// `while (condition) body`.
#[cycle(typed_stmt)]
#[derive(Drop)]
pub struct TypedWhile {
    pub line: u32,
    pub condition: TypedExpr,
    pub body: Boxed<TypedStmt>,
}

/// `repeat (count) body`.
#[cycle(typed_stmt)]
#[derive(Drop)]
pub struct TypedRepeat {
    pub line: u32,
    pub count: TypedExpr,
    pub body: Boxed<TypedStmt>,
}

/// `for (start; condition; step) body`. Its steps are statements.
#[cycle(typed_stmt)]
#[derive(Drop)]
pub struct TypedFor {
    pub line: u32,
    pub start: Boxed<TypedStmt>,
    pub condition: TypedExpr,
    pub step: Boxed<TypedStmt>,
    pub body: Boxed<TypedStmt>,
}

/// An arm of a case.
#[cycle(typed_stmt)]
#[derive(Drop)]
pub struct TypedArm {
    pub line: u32,
    pub label: TypedArmLabel,
    pub body: TypedStmt,
}

/// What a case's value is compared with.
#[derive(Drop)]
pub enum TypedArmLabel {
    /// At least one.
    Values(List<TypedExpr>),
    Default,
}

/// `fork branches join`.
#[cycle(typed_stmt)]
#[derive(Drop)]
pub struct TypedFork {
    pub line: u32,
    /// At least one.
    pub branches: Items<TypedStmt>,
    pub join: Join,
}

/// `@delay interface.signal = value`, or the same with `<=`: a drive of an output signal.
#[derive(Drop)]
pub struct TypedDrive {
    pub line: u32,
    /// Where it is missing, it is 0: the drive is one of the present cycle.
    pub delay: Option<TypedExpr>,
    pub target: TypedSignalName,
    pub operator: DriveOperator,
    pub value: TypedExpr,
}

/// `window soft terms soft`.
#[derive(Drop)]
pub struct TypedExpect {
    pub line: u32,
    /// Where it is missing, it is `@0`.
    pub window: Option<TypedWindow>,
    /// Whether `soft` stands before the terms.
    pub soft_before: bool,
    /// At least one.
    pub terms: List<TypedTerm>,
    /// Whether `soft` stands behind the terms.
    pub soft_after: bool,
}

/// `@ first, second`, where `@` is the sign of the window's kind.
#[derive(Drop)]
pub struct TypedWindow {
    pub kind: WindowKind,
    pub first: TypedExpr,
    /// Where it is missing, it is 0.
    pub second: Option<TypedExpr>,
}

/// `interface.signal == value`, or the same with `!=`.
#[derive(Drop)]
pub struct TypedTerm {
    pub line: u32,
    pub signal: TypedSignalName,
    pub operator: TermOperator,
    pub value: TypedExpr,
}
