//! Statements, one function a production, in text order.

ghost use Rattle.std.specs.Prelude.{◌≡◌, ◌∷◌, []};
ghost use Rattle.vera_ast.specs.declared.tree.statements.Stmt.TheVariants as views;
ghost use Rattle.vera_ast.specs.declared.typed.stmt.TypedStmt.TheVariants as typed;
ghost use Rattle.typing_rules.specs.Answers.{Answers};
ghost use Rattle.typing_rules.specs.Assignments as assignments;
ghost use Rattle.typing_rules.specs.Blocks as blocks;
ghost use Rattle.typing_rules.specs.Bodies as bodies;
ghost use Rattle.typing_rules.specs.Checked as checked;
ghost use Rattle.typing_rules.specs.Statements as spec;
ghost use Rattle.vera_types.specs.StmtForms as lists;

use crate::blocks::{PlacedDecl, local_decls, number_behind, scope_of, typed_decls};
use sqlite_items::{Boxed, Items};
use std::alloc::Global;
use typing_rules::head::{Head, Stand, Typed};
use vera_ast::{
    Arm, Block, Expr, For, Fork, FrontError, If, Postfix, Repeat, Step, Stmt, TypedArm, TypedBlock,
    TypedBuiltIn, TypedExpr, TypedFor, TypedFork, TypedIf, TypedPrintf, TypedRepeat, TypedSprintf,
    TypedStmt, TypedTaskCall, TypedVoid, TypedWait, TypedWhile, Void, While, with,
};
use vera_calls::calls::is_function;
use vera_exprs::expressions::{expr, walk_post};
use vera_names::codes::{NOT_HERE, PAST_LIMIT, WRONG_TYPE};
use vera_names::fitting::is_vector;
use vera_names::rules::{answered, keeps};
use vera_names::scope::{Scope, Scopes};
use vera_steps::assignments::step;
use vera_steps::drives::drive_stmt;
use vera_steps::labels::arm_label;
use vera_steps::waits::{edge_stmt, expect_stmt};
use vera_values::lists::items_with;
use vera_values::sight::Sight;
use vera_values::values::value_of;

/// An expression that is a vector, for the part that begins on a line.
#[tactic(auto, unfolding(vera_names::proofs::StepsOpened::rules, typing_rules::specs::Statements::vector))]
fn vector(
    alloc: Global,
    sight: &Sight<'_>,
    line: u32,
    value: &Expr,
) -> Result<TypedExpr, FrontError>
    ensures { Answers (spec.vector sight.now line value.now) result }
{
    let Typed { expr: value, of } = expr(alloc, sight, value)?;
    let kept = answered(keeps(line, &[(WRONG_TYPE, !is_vector(of))]));
    let (value, ()) = with(value, kept)?;
    Ok(value)
}

/// What becomes of a `post` that is a statement; its value is dropped.
#[tactic(auto, unfolding(vera_names::proofs::StepsOpened::rules))]
fn alone(alloc: Global, line: u32, post_line: u32, head: Head) -> Result<TypedStmt, FrontError>
    ensures { Answers (spec.alone line post_line head) result }
{
    match head {
        Head::Task(call) => Ok(TypedStmt::Call(TypedTaskCall { line, call })),
        Head::BuiltIn(task, operands, targets) => Ok(TypedStmt::BuiltIn(TypedBuiltIn {
            line,
            task,
            operands,
            targets,
        })),
        Head::Waits(call) => Ok(TypedStmt::Wait(TypedWait { line, call })),
        Head::Prints(format, arguments) => Ok(TypedStmt::Printf(TypedPrintf {
            line,
            format,
            arguments,
        })),
        Head::PrintsInto(target, format, arguments) => Ok(TypedStmt::Sprintf(TypedSprintf {
            line,
            target,
            format,
            arguments,
        })),
        head => Ok(TypedStmt::Void(TypedVoid {
            line,
            value: value_of(alloc, post_line, head)?.expr,
        })),
    }
}

/// `post ";"`.
#[tactic(auto, unfolding(vera_names::proofs::StepsOpened::rules, typing_rules::specs::Statements::call_stmt))]
fn call_stmt(alloc: Global, sight: &Sight<'_>, post: &Postfix) -> Result<TypedStmt, FrontError>
    ensures { Answers (spec.call_stmt sight.now post.now) result }
{
    let head = walk_post(alloc, sight, Stand::Statement, post)?;
    alone(alloc, post.line, post.line, head)
}

/// `"void" "=" post ";"`.
#[tactic(auto, unfolding(vera_names::proofs::StepsOpened::rules, typing_rules::specs::Statements::void_stmt))]
fn void_stmt(alloc: Global, sight: &Sight<'_>, void: &Void) -> Result<TypedStmt, FrontError>
    ensures { Answers (spec.void_stmt sight.now void.now) result }
{
    let head = walk_post(alloc, sight, Stand::Dropped, &void.value)?;
    alone(alloc, void.line, void.value.line, head)
}

#[tactic(auto, unfolding(vera_names::proofs::StepsOpened::rules))]
fn break_stmt(sight: &Sight<'_>, line: u32) -> Result<TypedStmt, FrontError>
    ensures { Answers (lists.in_loop_only sight.now line (typed.Break line)) result }
{
    answered(keeps(line, &[(WRONG_TYPE, !sight.is_in_loop())]))?;
    Ok(TypedStmt::Break(line))
}

#[tactic(auto, unfolding(vera_names::proofs::StepsOpened::rules))]
fn continue_stmt(sight: &Sight<'_>, line: u32) -> Result<TypedStmt, FrontError>
    ensures { Answers (lists.in_loop_only sight.now line (typed.Continue line)) result }
{
    answered(keeps(line, &[(WRONG_TYPE, !sight.is_in_loop())]))?;
    Ok(TypedStmt::Continue(line))
}

#[tactic(auto, unfolding(vera_names::proofs::StepsOpened::rules, typing_rules::specs::Statements::walk_stmt))]
fn terminate(sight: &Sight<'_>, line: u32) -> Result<TypedStmt, FrontError>
    ensures { Answers (spec.walk_stmt sight.now (views.Terminate line)) result }
{
    answered(keeps(line, &[(NOT_HERE, is_function(sight.body()))]))?;
    Ok(TypedStmt::Terminate(line))
}

/// `stmt`: its alternatives.
#[tactic(auto, using(crate::proofs::StmtWalks::block_walks), unfolding(vera_names::proofs::StepsOpened::rules))]
#[cycle(walk)]
pub fn walk_stmt(alloc: Global, sight: &Sight<'_>, stmt: &Stmt) -> Result<TypedStmt, FrontError>
    ensures { Answers (spec.walk_stmt sight.now stmt.now) result }
{
    match stmt {
        Stmt::Block(inner) => Ok(TypedStmt::Block(block(alloc, sight, inner)?)),
        Stmt::Empty(line) => Ok(TypedStmt::Empty(*line)),
        Stmt::Step(change) => step(alloc, sight, change),
        Stmt::Void(void) => void_stmt(alloc, sight, void),
        Stmt::Call(post) => call_stmt(alloc, sight, post),
        Stmt::Edge(edge) => answered(edge_stmt(sight, edge)),
        Stmt::If(choice) => if_stmt(alloc, sight, choice),
        Stmt::While(turns) => while_stmt(alloc, sight, turns),
        Stmt::Repeat(turns) => repeat_stmt(alloc, sight, turns),
        Stmt::For(turns) => for_stmt(alloc, sight, turns),
        Stmt::Case { line, value, arms } => case_stmt(alloc, sight, *line, arms.as_slice(), value),
        Stmt::Break(line) => break_stmt(sight, *line),
        Stmt::Continue(line) => continue_stmt(sight, *line),
        Stmt::Return(line) => Ok(TypedStmt::Return(*line)),
        Stmt::Terminate(line) => terminate(sight, *line),
        Stmt::Fork(fork) => fork_stmt(alloc, sight, fork),
        Stmt::Drive(drive) => drive_stmt(alloc, sight, drive),
        Stmt::Expect(expect) => expect_stmt(alloc, sight, expect),
    }
}

/// A statement inside another one.
#[cycle(walk)]
fn walk_boxed(alloc: Global, sight: &Sight<'_>, stmt: &Stmt) -> Result<Boxed<TypedStmt>, FrontError>
    ensures { Answers (spec.walk_stmt sight.now stmt.now) result }
{
    let stmt = walk_stmt(alloc, sight, stmt)?;
    Ok(Boxed::new(alloc, stmt)?)
}

#[cycle(walk)]
fn walk_stmts(
    alloc: Global,
    sight: &Sight<'_>,
    stmts: &[Stmt],
) -> Result<Items<TypedStmt>, FrontError>
    ensures { Answers (checked.each (spec.walk_stmt sight.now) stmts.now) result }
{
    let mut typed = Items::new(alloc);
    for stmt in stmts {
        let (before, next) = with(typed, walk_stmt(alloc, sight, stmt))?;
        typed = items_with(before, next)?;
    }
    Ok(typed)
}

/// A block whose variables are these, and in sight already.
#[tactic(auto, unfolding(vera_names::proofs::StepsOpened::rules, typing_rules::specs::Bodies::block_with))]
#[cycle(walk)]
pub fn block_with(
    alloc: Global,
    sight: &Sight<'_>,
    variables: &[PlacedDecl<'_>],
    block: &Block,
) -> Result<TypedBlock, FrontError>
    ensures { Answers (bodies.block_with sight.now variables.now block.now) result }
{
    let decls = typed_decls(alloc, sight, variables)?;
    let (decls, stmts) = with(decls, walk_stmts(alloc, sight, block.stmts.as_slice()))?;
    Ok(TypedBlock {
        line: block.line,
        decls,
        stmts,
    })
}

/// A block where these scopes are in sight, and so many variables of its body.
#[cycle(walk)]
fn block_in<'a>(
    alloc: Global,
    sight: &'a Sight<'a>,
    scopes: &'a Scopes<'a>,
    slots: u32,
    variables: &[PlacedDecl<'_>],
    block: &Block,
) -> Result<TypedBlock, FrontError>
    ensures { Answers (bodies.block_with (record sight.now { scopes = scopes.now; slots = slots }) variables.now block.now) result }
{
    let inner = sight.inside(scopes, slots);
    block_with(alloc, &inner, variables, block)
}

/// A block whose names are in sight beside those around it, and so many variables of its body.
#[cycle(walk)]
fn block_among<'a>(
    alloc: Global,
    sight: &'a Sight<'a>,
    scope: &'a Scope<'a>,
    slots: u32,
    variables: &[PlacedDecl<'_>],
    block: &Block,
) -> Result<TypedBlock, FrontError>
    ensures { Answers (bodies.block_with (record sight.now { scopes = scope.now ∷ sight.now.scopes; slots = slots }) variables.now block.now) result }
{
    let scopes = Scopes::inside(alloc, scope, sight.scopes())?;
    block_in(alloc, &*sight, &scopes, slots, variables, block)
}

/// A block whose variables are these, which nothing sees yet.
#[tactic(auto, unfolding(vera_names::proofs::StepsOpened::rules, typing_rules::specs::Blocks::inside))]
#[cycle(walk)]
fn block_of(
    alloc: Global,
    sight: &Sight<'_>,
    variables: &[PlacedDecl<'_>],
    block: &Block,
) -> Result<TypedBlock, FrontError>
    ensures { Answers (bodies.block_with (blocks.inside sight.now variables.now) variables.now block.now) result }
{
    let scope = scope_of(alloc, variables)?;
    let slots = number_behind(sight.slots(), scope.len())?;
    block_among(alloc, &*sight, &scope, slots, variables, block)
}

/// `block = "{" { decl } { stmt } "}"`.
#[tactic(auto, unfolding(vera_names::proofs::StepsOpened::rules, typing_rules::specs::Bodies::block))]
#[cycle(walk)]
pub fn block(alloc: Global, sight: &Sight<'_>, block: &Block) -> Result<TypedBlock, FrontError>
    ensures { Answers (bodies.block sight.now block.now) result }
{
    let variables = local_decls(alloc, sight, block.decls.as_slice())?;
    block_of(alloc, &*sight, variables.as_slice(), block)
}

/// `"if" "(" expr ")" stmt [ "else" stmt ]`.
#[tactic(auto, unfolding(vera_names::proofs::StepsOpened::rules, crate::specs::StmtForms::if_stmt))]
#[cycle(walk)]
fn if_stmt(alloc: Global, sight: &Sight<'_>, choice: &If) -> Result<TypedStmt, FrontError>
    ensures { Answers (lists.if_stmt sight.now choice.now) result }
{
    let condition = vector(alloc, sight, choice.line, &choice.condition)?;
    let when_true = walk_boxed(alloc, sight, choice.when_true.get());
    let (condition, when_true) = with(condition, when_true)?;
    let when_false = walk_otherwise(alloc, sight, &choice.when_false);
    let ((condition, when_true), when_false) = with((condition, when_true), when_false)?;
    Ok(TypedStmt::If(TypedIf {
        line: choice.line,
        condition,
        when_true,
        when_false,
    }))
}

/// What follows an `else`.
#[tactic(auto, unfolding(vera_names::proofs::StepsOpened::rules))]
#[cycle(walk)]
fn walk_otherwise(
    alloc: Global,
    sight: &Sight<'_>,
    otherwise: &Option<Boxed<Stmt>>,
) -> Result<Option<Boxed<TypedStmt>>, FrontError>
    ensures { Answers (checked.perhaps (spec.walk_stmt sight.now) otherwise.now) result }
{
    match otherwise {
        Some(body) => Ok(Some(walk_boxed(alloc, sight, body.get())?)),
        None => Ok(None),
    }
}

/// `"while" "(" expr ")" stmt`.
#[tactic(auto, unfolding(vera_names::proofs::StepsOpened::rules, crate::specs::StmtForms::while_stmt))]
#[cycle(walk)]
fn while_stmt(alloc: Global, sight: &Sight<'_>, turns: &While) -> Result<TypedStmt, FrontError>
    ensures { Answers (lists.while_stmt sight.now turns.now) result }
{
    let condition = vector(alloc, sight, turns.line, &turns.condition)?;
    let body = walk_boxed(alloc, &sight.in_loop(), turns.body.get());
    let (condition, body) = with(condition, body)?;
    Ok(TypedStmt::While(TypedWhile {
        line: turns.line,
        condition,
        body,
    }))
}

/// `"repeat" "(" expr ")" stmt`.
#[tactic(auto, unfolding(vera_names::proofs::StepsOpened::rules, crate::specs::StmtForms::repeat_stmt))]
#[cycle(walk)]
fn repeat_stmt(alloc: Global, sight: &Sight<'_>, turns: &Repeat) -> Result<TypedStmt, FrontError>
    ensures { Answers (lists.repeat_stmt sight.now turns.now) result }
{
    let count = vector(alloc, sight, turns.line, &turns.count)?;
    let body = walk_boxed(alloc, &sight.in_loop(), turns.body.get());
    let (count, body) = with(count, body)?;
    Ok(TypedStmt::Repeat(TypedRepeat {
        line: turns.line,
        count,
        body,
    }))
}

/// A step of a loop.
fn boxed_step(
    alloc: Global,
    sight: &Sight<'_>,
    change: &Step,
) -> Result<Boxed<TypedStmt>, FrontError>
    ensures { Answers (assignments.step sight.now change.now) result }
{
    let stmt = step(alloc, sight, change)?;
    Ok(Boxed::new(alloc, stmt)?)
}

/// `"for" "(" step ";" expr ";" step ")" stmt`.
#[tactic(auto, unfolding(vera_names::proofs::StepsOpened::rules, crate::specs::StmtForms::for_stmt))]
#[cycle(walk)]
fn for_stmt(alloc: Global, sight: &Sight<'_>, turns: &For) -> Result<TypedStmt, FrontError>
    ensures { Answers (lists.for_stmt sight.now turns.now) result }
{
    let start = boxed_step(alloc, sight, &turns.start)?;
    let condition = vector(alloc, sight, turns.line, &turns.condition);
    let (start, condition) = with(start, condition)?;
    let next = boxed_step(alloc, sight, &turns.step);
    let ((start, condition), next) = with((start, condition), next)?;
    let body = walk_boxed(alloc, &sight.in_loop(), turns.body.get());
    let ((start, condition, next), body) = with((start, condition, next), body)?;
    Ok(TypedStmt::For(TypedFor {
        line: turns.line,
        start,
        condition,
        step: next,
        body,
    }))
}

/// `"case" "(" expr ")" "{" { arm } "}"`.
#[tactic(auto, unfolding(vera_names::proofs::StepsOpened::rules, crate::specs::StmtForms::case_stmt))]
#[cycle(walk)]
fn case_stmt(
    alloc: Global,
    sight: &Sight<'_>,
    line: u32,
    arms: &[Arm],
    value: &Expr,
) -> Result<TypedStmt, FrontError>
    ensures { Answers (lists.case_stmt sight.now line value.now arms.now) result }
{
    let value = vector(alloc, sight, line, value)?;
    let (value, arms) = with(value, walk_arms(alloc, sight, arms))?;
    Ok(TypedStmt::Case { line, value, arms })
}

#[cycle(walk)]
fn walk_arms(alloc: Global, sight: &Sight<'_>, arms: &[Arm]) -> Result<Items<TypedArm>, FrontError>
    ensures { Answers (checked.each (lists.arm sight.now) arms.now) result }
{
    let mut typed = Items::new(alloc);
    for arm in arms {
        let (before, next) = with(typed, walk_arm(alloc, sight, arm))?;
        typed = items_with(before, next)?;
    }
    Ok(typed)
}

/// `arm = ( expr { "," expr } | "default" ) ":" stmt`.
#[tactic(auto, unfolding(vera_names::proofs::StepsOpened::rules, crate::specs::StmtForms::arm))]
#[cycle(walk)]
fn walk_arm(alloc: Global, sight: &Sight<'_>, arm: &Arm) -> Result<TypedArm, FrontError>
    ensures { Answers (lists.arm sight.now arm.now) result }
{
    let label = arm_label(alloc, sight, arm.line, &arm.label)?;
    let (label, body) = with(label, walk_stmt(alloc, sight, &arm.body))?;
    Ok(TypedArm {
        line: arm.line,
        label,
        body,
    })
}

/// `"fork" stmt { stmt } "join" [ "all" | "any" | "none" ]`: at most 4,096 branches, which don't stand in a function.
#[tactic(auto, unfolding(vera_names::proofs::StepsOpened::rules, crate::specs::StmtForms::fork_stmt))]
#[cycle(walk)]
fn fork_stmt(alloc: Global, sight: &Sight<'_>, fork: &Fork) -> Result<TypedStmt, FrontError>
    ensures { Answers (lists.fork_stmt sight.now fork.now) result }
{
    answered(keeps(
        fork.line,
        &[
            (NOT_HERE, is_function(sight.body())),
            (PAST_LIMIT, fork.branches.len() > 4096),
        ],
    ))?;
    let branches = walk_stmts(alloc, &sight.in_branch(), fork.branches.as_slice())?;
    Ok(TypedStmt::Fork(TypedFork {
        line: fork.line,
        branches,
        join: fork.join,
    }))
}
