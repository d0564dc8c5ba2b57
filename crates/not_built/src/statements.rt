//! Declarations and statements: `integer` variables, blocks, assignments, drives, `while`, clock edges and one form of
//! `printf` are built.

ghost use Rattle.std.specs.Prelude.{◌≡◌};
ghost use Rattle.not_built.specs.Lines.{first};
ghost use Rattle.not_built.specs.Passing as passing;
ghost use Rattle.not_built.specs.Statements as spec;

use crate::expressions::{in_expr, is_variable};
use vera_ast::{
    Block, Bracket, Change, Decl, Edge, Expr, Postfix, PrimaryForm, Step, Stmt, Suffix, TypeForm,
    Variable,
};

const PRINTF: &[u8] = b"printf";

const FORMAT: &[u8] = b"%0d\n";

fn has_bracket(bracket: &Bracket) -> bool
    ensures { result ≡ spec.has_bracket bracket.now }
{
    match bracket {
        Bracket::None => false,
        Bracket::Fixed(_) | Bracket::Keys => true,
    }
}

fn is_integer(form: &TypeForm) -> bool
    ensures { result ≡ spec.is_integer form.now }
{
    matches!(form, TypeForm::Integer)
}

#[tactic(auto, unfolding(crate::specs::Statements::variable_lines))]
fn in_variable(variable: &Variable) -> Option<u32>
    ensures { result ≡ first (spec.variable_lines variable.now) }
{
    if has_bracket(&variable.bracket) || variable.value.is_some() {
        Some(variable.line)
    } else {
        None
    }
}

fn in_variables(variables: &[Variable]) -> Option<u32>
    ensures { result ≡ passing.first_in spec.variable_lines variables.now }
{
    for variable in variables {
        if let Some(line) = in_variable(variable) {
            return Some(line);
        }
    }
    None
}

#[tactic(auto, using(crate::proofs::StmtFirsts::decl_first))]
fn in_decl(decl: &Decl) -> Option<u32>
    ensures { result ≡ first (spec.decl_lines decl.now) }
{
    if !is_integer(&decl.of.form) {
        return Some(decl.line);
    }
    in_variables(decl.variables.as_slice())
}

fn in_decls(decls: &[Decl]) -> Option<u32>
    ensures { result ≡ passing.first_in spec.decl_lines decls.now }
{
    for decl in decls {
        if let Some(line) = in_decl(decl) {
            return Some(line);
        }
    }
    None
}

/// What a step that begins on a line does: it assigns, or isn't built.
fn in_change(line: u32, change: &Change) -> Option<u32>
    ensures { result ≡ first (spec.change_lines line change.now) }
{
    match change {
        Change::Assign(value) => in_expr(value),
        Change::Add(_) | Change::Subtract(_) | Change::Increment | Change::Decrement => Some(line),
    }
}

#[tactic(auto, using(crate::proofs::StmtFirsts::step_first))]
fn in_step(step: &Step) -> Option<u32>
    ensures { result ≡ first (spec.step_lines step.now) }
{
    if !is_variable(&step.target) {
        return Some(step.line);
    }
    in_change(step.line, &step.change)
}

fn is_printf(form: &PrimaryForm) -> bool
    ensures { result ≡ spec.is_printf form.now }
{
    match form {
        PrimaryForm::Name(word) => word.as_slice() == PRINTF,
        _ => false,
    }
}

fn is_format_text(form: &PrimaryForm) -> bool
    ensures { result ≡ spec.is_format_text form.now }
{
    match form {
        PrimaryForm::Str(text) => text.as_slice() == FORMAT,
        _ => false,
    }
}

/// Whether it is the string `"%0d\n"`.
#[tactic(auto, using(crate::proofs::StmtFirsts::postfix_format, crate::proofs::StmtFirsts::conditional_format, crate::proofs::StmtFirsts::chain_format, crate::proofs::StmtFirsts::unary_format))]
fn is_format(expr: &Expr) -> bool
    ensures { result ≡ spec.is_format expr.now }
{
    match expr {
        Expr::Postfix(post) => is_format_text(&post.primary.form) && post.suffixes.is_empty(),
        Expr::Conditional(_) | Expr::Chain { .. } | Expr::Unary(_) => false,
    }
}

/// The arguments of a `printf` that begins on a line: the format `"%0d\n"` and one value.
fn in_arguments(line: u32, arguments: &[Expr]) -> Option<u32>
    ensures { result ≡ passing.printed line arguments.now }
{
    match arguments {
        [format, value] => {
            if is_format(format) {
                in_expr(value)
            } else {
                Some(line)
            }
        }
        _ => Some(line),
    }
}

/// What follows the name of a `printf` that begins on a line.
#[tactic(auto, using(crate::proofs::StmtFirsts::call_first, crate::proofs::StmtFirsts::index_first, crate::proofs::StmtFirsts::bits_first))]
fn in_suffix(line: u32, suffix: &Suffix) -> Option<u32>
    ensures { result ≡ first (spec.suffix_lines line suffix.now) }
{
    match suffix {
        Suffix::Call(arguments) => in_arguments(line, arguments.as_slice()),
        Suffix::Member(_) | Suffix::New | Suffix::Index(_) | Suffix::Bits(_, _) => Some(line),
    }
}

fn in_suffixes(line: u32, suffixes: &[Suffix]) -> Option<u32>
    ensures { result ≡ first (spec.called_lines line suffixes.now) }
{
    match suffixes {
        [suffix] => in_suffix(line, suffix),
        _ => Some(line),
    }
}

/// A call that is a statement: `printf("%0d\n", ..)` alone is built.
#[tactic(auto, unfolding(crate::specs::Statements::call_lines))]
fn in_call(call: &Postfix) -> Option<u32>
    ensures { result ≡ first (spec.call_lines call.now) }
{
    if !is_printf(&call.primary.form) {
        return Some(call.line);
    }
    in_suffixes(call.line, call.suffixes.as_slice())
}

#[tactic(auto, unfolding(crate::specs::Statements::edge_lines))]
fn in_edge(edge: &Edge) -> Option<u32>
    ensures { result ≡ first (spec.edge_lines edge.now) }
{
    if edge.negative { Some(edge.line) } else { None }
}

/// The line of the first construct in a statement that isn't built.
#[tactic(auto, using(crate::proofs::StmtFirsts::inner_block_first, crate::proofs::StmtFirsts::while_first, crate::proofs::StmtFirsts::if_first, crate::proofs::StmtFirsts::repeat_first, crate::proofs::StmtFirsts::for_first, crate::proofs::StmtFirsts::case_first, crate::proofs::StmtFirsts::fork_first), unfolding(crate::specs::Statements::stmt_lines))]
#[cycle(statements)]
fn in_stmt(stmt: &Stmt) -> Option<u32>
    ensures { result ≡ first (spec.stmt_lines stmt.now) }
{
    match stmt {
        Stmt::Block(block) => in_inner_block(block),
        Stmt::Step(step) => in_step(step),
        Stmt::Call(call) => in_call(call),
        Stmt::Edge(edge) => in_edge(edge),
        Stmt::While(turns) => match in_expr(&turns.condition) {
            Some(line) => Some(line),
            None => in_stmt(turns.body.get()),
        },
        Stmt::Empty(_)
        | Stmt::Void(_)
        | Stmt::If(_)
        | Stmt::Repeat(_)
        | Stmt::For(_)
        | Stmt::Case { .. }
        | Stmt::Break(_)
        | Stmt::Continue(_)
        | Stmt::Return(_)
        | Stmt::Terminate(_)
        | Stmt::Fork(_)
        | Stmt::Drive(_)
        | Stmt::Expect(_) => Some(stmt.line()),
    }
}

#[cycle(statements)]
fn in_stmts(stmts: &[Stmt]) -> Option<u32>
    ensures { result ≡ passing.first_in spec.stmt_lines stmts.now }
{
    for stmt in stmts {
        if let Some(line) = in_stmt(stmt) {
            return Some(line);
        }
    }
    None
}

/// A block that is a statement: no declaration of it is built.
#[cycle(statements)]
fn in_inner_block(block: &Block) -> Option<u32>
    ensures { result ≡ passing.inner_first block.now }
{
    match block.decls.as_slice() {
        [] => in_stmts(block.stmts.as_slice()),
        [first, ..] => Some(first.line),
    }
}

/// The line of the first construct in a program's block that isn't built.
#[tactic(auto, using(crate::proofs::StmtFirsts::block_first))]
pub fn in_block(block: &Block) -> Option<u32>
    ensures { result ≡ first (spec.block_lines block.now) }
{
    match in_decls(block.decls.as_slice()) {
        Some(line) => Some(line),
        None => in_stmts(block.stmts.as_slice()),
    }
}
