//! Blocks, and those in their statements.

ghost use Rattle.std.specs.Prelude.{◌≡◌, ◌≤◌, ◌++◌, ◌∷◌, []};
ghost use Rattle.typing_rules.specs.DataTypes as types;
ghost use Rattle.typing_rules.specs.Declarations as spec;
ghost use Rattle.typing_rules.specs.Scopes.{later};
ghost use Rattle.vera_decls.specs.Walks.{CountsTo, arm_list_parts, block_inside};

use super::variables::decls;
use std::alloc::Global;
use vera_ast::{Arm, Block, Decl, FrontError, Stmt};
use vera_names::name_sets::variables_later;
use vera_names::scope::{Scope, Scopes};

/// The blocks in a statement.
#[tactic(auto, using(crate::proofs::BlockWalks::no_parts), unfolding(typing_rules::specs::Declarations::stmt_parts))]
#[cycle(blocks)]
fn stmt(alloc: Global, scopes: &Scopes<'_>, count: u32, stmt: &Stmt) -> Result<u32, FrontError>
    requires { count ≤ 65535 }
    ensures { CountsTo count (spec.stmt_parts scopes.now stmt.now) result }
{
    match stmt {
        Stmt::Block(block) => inner_block(
            alloc,
            scopes,
            count,
            block.decls.as_slice(),
            block.stmts.as_slice(),
        ),
        Stmt::If(choice) => {
            let count = self::stmt(alloc, scopes, count, choice.when_true.get())?;
            match &choice.when_false {
                Some(otherwise) => self::stmt(alloc, scopes, count, otherwise.get()),
                None => Ok(count),
            }
        }
        Stmt::While(turns) => self::stmt(alloc, scopes, count, turns.body.get()),
        Stmt::Repeat(turns) => self::stmt(alloc, scopes, count, turns.body.get()),
        Stmt::For(turns) => self::stmt(alloc, scopes, count, turns.body.get()),
        Stmt::Case { arms, .. } => self::arms(alloc, scopes, count, arms.as_slice()),
        Stmt::Fork(fork) => stmts(alloc, scopes, count, fork.branches.as_slice()),
        Stmt::Empty(_)
        | Stmt::Step(_)
        | Stmt::Void(_)
        | Stmt::Call(_)
        | Stmt::Edge(_)
        | Stmt::Break(_)
        | Stmt::Continue(_)
        | Stmt::Return(_)
        | Stmt::Terminate(_)
        | Stmt::Drive(_)
        | Stmt::Expect(_) => Ok(count),
    }
}

#[cycle(blocks)]
fn stmts(alloc: Global, scopes: &Scopes<'_>, count: u32, stmts: &[Stmt]) -> Result<u32, FrontError>
    requires { count ≤ 65535 }
    ensures { CountsTo count (spec.each_parts scopes.now stmts.now) result }
{
    let mut count = count;
    for next in stmts {
        count = stmt(alloc, scopes, count, next)?;
    }
    Ok(count)
}

#[cycle(blocks)]
fn arms(alloc: Global, scopes: &Scopes<'_>, count: u32, arms: &[Arm]) -> Result<u32, FrontError>
    requires { count ≤ 65535 }
    ensures { CountsTo count (arm_list_parts scopes.now arms.now) result }
{
    let mut count = count;
    for arm in arms {
        count = stmt(alloc, scopes, count, &arm.body)?;
    }
    Ok(count)
}

/// A block in a statement, where its variables are in sight beside the names around them.
#[cycle(blocks)]
fn block_among<'a>(
    alloc: Global,
    names: &'a Scope<'a>,
    outer: &'a Scopes<'a>,
    count: u32,
    decls: &[Decl],
    stmts: &[Stmt],
) -> Result<u32, FrontError>
    requires { count ≤ 65535 }
    ensures { CountsTo count (spec.decl_parts (names.now ∷ outer.now) [] decls.now ++ spec.each_parts (names.now ∷ outer.now) stmts.now) result }
{
    let inner = Scopes::inside(alloc, names, outer)?;
    let count = super::variables::decls(alloc, &inner, count, decls)?;
    self::stmts(alloc, &inner, count, stmts)
}

/// A block in a statement, whose variables come into sight.
#[cycle(blocks)]
fn inner_block(
    alloc: Global,
    scopes: &Scopes<'_>,
    count: u32,
    decls: &[Decl],
    stmts: &[Stmt],
) -> Result<u32, FrontError>
    requires { count ≤ 65535 }
    ensures { CountsTo count (block_inside scopes.now decls.now stmts.now) result }
{
    let names = variables_later(alloc, decls)?;
    block_among(alloc, &names, &*scopes, count, decls, stmts)
}

/// A block whose variables are in sight in these scopes already.
pub fn block(
    alloc: Global,
    scopes: &Scopes<'_>,
    count: u32,
    block: &Block,
) -> Result<u32, FrontError>
    requires { count ≤ 65535 }
    ensures { CountsTo count (spec.block_parts scopes.now block.now) result }
{
    let count = decls(alloc, scopes, count, block.decls.as_slice())?;
    stmts(alloc, scopes, count, block.stmts.as_slice())
}

/// The block of a task or function, whose variables come into sight.
pub fn body(
    alloc: Global,
    scopes: &Scopes<'_>,
    count: u32,
    block: &Block,
) -> Result<u32, FrontError>
    requires { count ≤ 65535 }
    ensures { CountsTo count (spec.body_parts scopes.now block.now) result }
{
    inner_block(
        alloc,
        scopes,
        count,
        block.decls.as_slice(),
        block.stmts.as_slice(),
    )
}
