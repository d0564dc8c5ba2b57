ghost use Rattle.std.specs.Prelude.{◌≡◌, ◌++◌, ◌∷◌, [], map, OnOk, IfOk};
ghost use Rattle.vera_meaning.specs.Rests.{Do};
ghost use Rattle.plain_run.specs.Work.{agenda_of, item_of, IsFront};
ghost use Rattle.plain_run.specs.Next.{FindsNext};

use four_state::NoMemory;
use vera_ast::{TypedBlock, TypedDrive, TypedEdge, TypedPrintf, TypedStep, TypedStmt, TypedWhile};

/// One thing that is still to do.
#[derive(Clone, Copy)]
pub enum Work<'a> {
    /// The program's block.
    Block(&'a TypedBlock),
    /// A statement.
    Do(&'a TypedStmt),
    /// A loop at its next test.
    Again(&'a TypedWhile),
}

/// One thing that takes a tick.
#[derive(Clone, Copy)]
pub enum Timed<'a> {
    Step(&'a TypedStep),
    While(&'a TypedWhile),
    Printf(&'a TypedPrintf),
    Drive(&'a TypedDrive),
    Edge(&'a TypedEdge),
    Test(&'a TypedWhile),
}

/// What a piece of work is at its front: a block, something that takes a tick, or nothing. An empty statement is
/// nothing, and so is one that isn't built.
enum Front<'a> {
    Block(&'a TypedBlock),
    Timed(Timed<'a>),
    Nothing,
}

/// Puts a block's statements in front of what is to do.
pub fn push_all<'a>(agenda: &mut Vec<Work<'a>>, block: &'a TypedBlock) -> Result<(), NoMemory>
    ensures { OnOk result (agenda_of agenda.new.items ≡ map Do block.now.stmts ++ agenda_of agenda.old.items) }
{
    let stmts = block.stmts.as_slice();
    let mut left = stmts.len();
    while left > 0 {
        left -= 1;
        agenda.push(Work::Do(&stmts[left]))?;
    }
    Ok(())
}

fn front_of(work: Work<'_>) -> Front<'_>
    ensures { IsFront result (item_of work.entry) }
{
    match work {
        Work::Block(block) => Front::Block(block),
        Work::Again(test) => Front::Timed(Timed::Test(test)),
        Work::Do(stmt) => match stmt {
            TypedStmt::Block(block) => Front::Block(block),
            TypedStmt::Step(step) => Front::Timed(Timed::Step(step)),
            TypedStmt::While(loop_) => Front::Timed(Timed::While(loop_)),
            TypedStmt::Printf(printf) => Front::Timed(Timed::Printf(printf)),
            TypedStmt::Drive(drive) => Front::Timed(Timed::Drive(drive)),
            TypedStmt::Edge(edge) => Front::Timed(Timed::Edge(edge)),
            _ => Front::Nothing,
        },
    }
}

/// Takes the first thing that takes a tick off the list, and opens the blocks in front of it. None where nothing is
/// left to do.
pub fn next_timed<'a>(agenda: &mut Vec<Work<'a>>) -> Result<Option<Timed<'a>>, NoMemory>
    ensures { IfOk result (λ found. FindsNext (agenda_of agenda.old.items) found (agenda_of agenda.new.items)) }
{
    while let Some(work) = agenda.pop() {
        match front_of(work) {
            Front::Block(block) => push_all(agenda, block)?,
            Front::Timed(timed) => return Ok(Some(timed)),
            Front::Nothing => {}
        }
    }
    Ok(None)
}
