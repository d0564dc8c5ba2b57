//! Blocks and statements.

use super::Out;
use super::declarations::decl;
use super::expressions::{expr, exprs, postfix};
use super::parts::{delay, edge, step, term, window};
use four_state::NoMemory;
use vera_ast::{
    Arm, ArmLabel, Block, Drive, DriveOperator, Expect, For, Fork, If, Join, Repeat, Stmt, While,
};

/// `2:{DECL .. STMT ..}`.
#[cycle(show_stmt)]
pub fn block(out: &mut Out, node: &Block) -> Result<(), NoMemory> {
    out.line(node.line)?;
    out.put(b"{")?;
    for item in node.decls.as_slice() {
        decl(out, item)?;
        out.put(b" ")?;
    }
    out.put(b"/")?;
    stmts(out, node.stmts.as_slice())?;
    out.put(b"}")
}

/// Statements, each after a blank.
#[cycle(show_stmt)]
fn stmts(out: &mut Out, nodes: &[Stmt]) -> Result<(), NoMemory> {
    for node in nodes {
        out.put(b" ")?;
        stmt(out, node)?;
    }
    Ok(())
}

#[cycle(show_stmt)]
pub fn stmt(out: &mut Out, node: &Stmt) -> Result<(), NoMemory> {
    match node {
        Stmt::Block(node) => block(out, node),
        Stmt::Empty(line) => lone(out, *line, b";"),
        Stmt::Step(node) => step(out, node),
        Stmt::Void(node) => {
            out.line(node.line)?;
            out.put(b"(void ")?;
            postfix(out, &node.value)?;
            out.put(b")")
        }
        Stmt::Call(node) => {
            out.put(b"(call ")?;
            postfix(out, node)?;
            out.put(b")")
        }
        Stmt::Edge(node) => edge(out, node),
        Stmt::If(node) => if_stmt(out, node),
        Stmt::While(node) => while_stmt(out, node),
        Stmt::Repeat(node) => repeat_stmt(out, node),
        Stmt::For(node) => for_stmt(out, node),
        Stmt::Case { line, value, arms } => {
            out.line(*line)?;
            out.put(b"(case ")?;
            expr(out, value)?;
            for item in arms.as_slice() {
                out.put(b" ")?;
                arm(out, item)?;
            }
            out.put(b")")
        }
        Stmt::Break(line) => lone(out, *line, b"break"),
        Stmt::Continue(line) => lone(out, *line, b"continue"),
        Stmt::Return(line) => lone(out, *line, b"return"),
        Stmt::Terminate(line) => lone(out, *line, b"terminate"),
        Stmt::Fork(node) => fork(out, node),
        Stmt::Drive(node) => drive(out, node),
        Stmt::Expect(node) => expect(out, node),
    }
}

fn lone(out: &mut Out, line: u32, word: &[u8]) -> Result<(), NoMemory> {
    out.line(line)?;
    out.put(word)
}

#[cycle(show_stmt)]
fn if_stmt(out: &mut Out, node: &If) -> Result<(), NoMemory> {
    out.line(node.line)?;
    out.put(b"(if ")?;
    expr(out, &node.condition)?;
    out.put(b" ")?;
    stmt(out, node.when_true.get())?;
    if let Some(other) = &node.when_false {
        out.put(b" else ")?;
        stmt(out, other.get())?;
    }
    out.put(b")")
}

#[cycle(show_stmt)]
fn while_stmt(out: &mut Out, node: &While) -> Result<(), NoMemory> {
    out.line(node.line)?;
    out.put(b"(while ")?;
    expr(out, &node.condition)?;
    out.put(b" ")?;
    stmt(out, node.body.get())?;
    out.put(b")")
}

#[cycle(show_stmt)]
fn repeat_stmt(out: &mut Out, node: &Repeat) -> Result<(), NoMemory> {
    out.line(node.line)?;
    out.put(b"(repeat ")?;
    expr(out, &node.count)?;
    out.put(b" ")?;
    stmt(out, node.body.get())?;
    out.put(b")")
}

#[cycle(show_stmt)]
fn for_stmt(out: &mut Out, node: &For) -> Result<(), NoMemory> {
    out.line(node.line)?;
    out.put(b"(for ")?;
    step(out, &node.start)?;
    out.put(b" ")?;
    expr(out, &node.condition)?;
    out.put(b" ")?;
    step(out, &node.step)?;
    out.put(b" ")?;
    stmt(out, node.body.get())?;
    out.put(b")")
}

/// `7:(7:1, 9:2 -> STMT)`, `7:(default -> STMT)`.
#[cycle(show_stmt)]
fn arm(out: &mut Out, node: &Arm) -> Result<(), NoMemory> {
    out.line(node.line)?;
    out.put(b"(")?;
    match &node.label {
        ArmLabel::Values(values) => exprs(out, values.as_slice())?,
        ArmLabel::Default => out.put(b"default")?,
    }
    out.put(b" -> ")?;
    stmt(out, &node.body)?;
    out.put(b")")
}

#[cycle(show_stmt)]
fn fork(out: &mut Out, node: &Fork) -> Result<(), NoMemory> {
    out.line(node.line)?;
    out.put(b"(fork")?;
    stmts(out, node.branches.as_slice())?;
    out.put(match node.join {
        Join::All => b" all)",
        Join::Any => b" any)",
        Join::None => b" none)",
    })
}

/// `5:(drive @6:1 7:t.d = 11:1)`, `5:(drive 5:t.d <= 9:1)`.
fn drive(out: &mut Out, node: &Drive) -> Result<(), NoMemory> {
    out.line(node.line)?;
    out.put(b"(drive ")?;
    if let Some(value) = &node.delay {
        out.put(b"@")?;
        delay(out, value)?;
        out.put(b" ")?;
    }
    postfix(out, &node.signal)?;
    out.put(match node.operator {
        DriveOperator::Assign => b" = ",
        DriveOperator::Arrow => b" <= ",
    })?;
    expr(out, &node.value)?;
    out.put(b")")
}

/// `5:(expect 5:(@ 6:0) soft TERM TERM soft)`.
fn expect(out: &mut Out, node: &Expect) -> Result<(), NoMemory> {
    out.line(node.line)?;
    out.put(b"(expect")?;
    if let Some(value) = &node.window {
        out.put(b" ")?;
        window(out, value)?;
    }
    out.put(if node.soft_before { b" soft" } else { b"" })?;
    for item in node.terms.as_slice() {
        out.put(b" ")?;
        term(out, item)?;
    }
    out.put(if node.soft_after { b" soft)" } else { b")" })
}
