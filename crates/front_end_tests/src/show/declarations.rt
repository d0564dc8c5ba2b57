//! Types, declarations and parameters.

use super::Out;
use super::expressions::expr;
use four_state::NoMemory;
use vera_ast::{Bracket, DataType, Decl, Parameter, Range, TypeForm, Variable};

/// `3:(decl 3:integer 4:i 6:j[8:4] = 11:1)`.
pub fn decl(out: &mut Out, node: &Decl) -> Result<(), NoMemory> {
    out.line(node.line)?;
    out.put(b"(decl ")?;
    data_type(out, &node.of)?;
    for item in node.variables.as_slice() {
        out.put(b" ")?;
        variable(out, item)?;
    }
    out.put(b")")
}

fn variable(out: &mut Out, node: &Variable) -> Result<(), NoMemory> {
    out.line(node.line)?;
    out.name(&node.name)?;
    match &node.bracket {
        Bracket::None => {}
        Bracket::Fixed(size) => {
            out.put(b"[")?;
            expr(out, size)?;
            out.put(b"]")?;
        }
        Bracket::Keys => out.put(b"[]")?,
    }
    if let Some(value) = &node.value {
        out.put(b" = ")?;
        expr(out, value)?;
    }
    Ok(())
}

pub fn data_type(out: &mut Out, node: &DataType) -> Result<(), NoMemory> {
    out.line(node.line)?;
    match &node.form {
        TypeForm::Integer => out.put(b"integer"),
        TypeForm::Bit(bounds) => {
            out.put(b"bit")?;
            maybe_range(out, bounds)
        }
        TypeForm::Reg(bounds) => {
            out.put(b"reg")?;
            maybe_range(out, bounds)
        }
        TypeForm::Str => out.put(b"string"),
        TypeForm::Event => out.put(b"event"),
        TypeForm::Named(name) => {
            out.put(b"type ")?;
            out.name(name)
        }
    }
}

/// ` 3:[4:1 : 6:0]`, or nothing.
pub fn maybe_range(out: &mut Out, bounds: &Option<Range>) -> Result<(), NoMemory> {
    let Some(bounds) = bounds else {
        return Ok(());
    };
    out.put(b" ")?;
    out.line(bounds.line)?;
    out.put(b"[")?;
    expr(out, &bounds.high)?;
    out.put(b" : ")?;
    expr(out, &bounds.low)?;
    out.put(b"]")
}

/// `(5:var 6:integer a, 9:integer b)`.
pub fn parameters(out: &mut Out, nodes: &[Parameter]) -> Result<(), NoMemory> {
    out.put(b"(")?;
    for (at, node) in nodes.iter().enumerate() {
        if at > 0 {
            out.put(b", ")?;
        }
        out.line(node.line)?;
        out.put(if node.is_var { b"var " } else { b"" })?;
        data_type(out, &node.of)?;
        out.put(b" ")?;
        out.name(&node.name)?;
    }
    out.put(b")")
}
