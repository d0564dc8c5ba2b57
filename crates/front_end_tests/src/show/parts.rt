//! Edges, delays, windows, steps and terms.

use super::Out;
use super::expressions::{expr, number, postfix};
use four_state::NoMemory;
use vera_ast::{
    Change, Delay, DelayForm, Edge, EdgeClock, Step, Term, TermOperator, Window, WindowKind,
};

/// `5:(posedge t.clock)`.
pub fn edge(out: &mut Out, node: &Edge) -> Result<(), NoMemory> {
    out.line(node.line)?;
    out.put(if node.negative {
        b"(negedge "
    } else {
        b"(posedge "
    })?;
    match &node.clock {
        EdgeClock::Clock => out.put(b"CLOCK")?,
        EdgeClock::Signal(interface, signal) => {
            out.name(interface)?;
            out.put(b".")?;
            out.name(signal)?;
        }
    }
    out.put(b")")
}

pub fn delay(out: &mut Out, node: &Delay) -> Result<(), NoMemory> {
    out.line(node.line)?;
    match &node.form {
        DelayForm::Number(value) => number(out, value),
        DelayForm::Name(name) => out.name(name),
        DelayForm::Parentheses(value) => {
            out.put(b"par(")?;
            expr(out, value)?;
            out.put(b")")
        }
    }
}

/// `5:(@@ 6:0 8:4)`.
pub fn window(out: &mut Out, node: &Window) -> Result<(), NoMemory> {
    out.line(node.line)?;
    out.put(match node.kind {
        WindowKind::Simple => b"(@ ",
        WindowKind::Full => b"(@@ ",
        WindowKind::Restricted => b"(@@@ ",
    })?;
    delay(out, &node.first)?;
    if let Some(second) = &node.second {
        out.put(b" ")?;
        delay(out, second)?;
    }
    out.put(b")")
}

/// `5:(= 5:a 7:1)`, `5:(++ 5:a)`.
pub fn step(out: &mut Out, node: &Step) -> Result<(), NoMemory> {
    out.line(node.line)?;
    out.put(match &node.change {
        Change::Assign(_) => b"(= ",
        Change::Add(_) => b"(+= ",
        Change::Subtract(_) => b"(-= ",
        Change::Increment => b"(++ ",
        Change::Decrement => b"(-- ",
    })?;
    postfix(out, &node.target)?;
    match &node.change {
        Change::Assign(value) | Change::Add(value) | Change::Subtract(value) => {
            out.put(b" ")?;
            expr(out, value)?;
        }
        Change::Increment | Change::Decrement => {}
    }
    out.put(b")")
}

/// `5:(== 5:t.q 9:1)`.
pub fn term(out: &mut Out, node: &Term) -> Result<(), NoMemory> {
    out.line(node.line)?;
    out.put(match node.operator {
        TermOperator::Equal => b"(== ",
        TermOperator::NotEqual => b"(!= ",
    })?;
    postfix(out, &node.signal)?;
    out.put(b" ")?;
    expr(out, &node.value)?;
    out.put(b")")
}
