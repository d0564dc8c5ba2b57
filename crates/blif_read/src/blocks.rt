//! Lines to directives with the rows behind them.
ghost use Rattle.std.specs.Prelude.{◌≡◌, IfOk, OnOk, ◌++◌, ◌∷◌, [], position};
ghost use Rattle.blif_read.specs.Directives.{row, blocks, up_to_end, is_end, directive};
ghost use Rattle.blif_read.specs.Grouping.{with_row};

use crate::directives::{Block, Row};
use crate::lines::Line;
use crate::words::{directive, is_end, is_row, row_parts};
use four_state::{List, NoMemory, Text};
use std::alloc::Global;

fn end_place(lines: &[Line]) -> Option<usize>
    ensures { result ≡ position is_end lines.now }
{
    lines.iter().position(is_end)
}

/// Leaves the lines up to the first `.end`.
pub fn up_to_end(lines: &mut Vec<Line>)
    ensures { lines.new.items ≡ up_to_end lines.old.items }
{
    if let Some(end) = end_place(lines) {
        lines.truncate(end + 1);
    }
}

#[tactic(auto, unfolding(crate::specs::Directives::row))]
fn row(alloc: Global, line: Line) -> Row
    ensures { result ≡ row line }
{
    Row {
        line: line.number,
        parts: row_parts(alloc, line.first, line.rest.as_slice()),
    }
}

fn block(alloc: Global, line: Line) -> Result<Block<Text>, NoMemory>
    ensures { IfOk result (λ b. b ≡ record { line = line.number; directive = directive line.first line.rest; rows = [] }) }
{
    let Line {
        number,
        first,
        rest,
    } = line;
    Ok(Block {
        line: number,
        directive: directive(&first, rest)?,
        rows: List::empty(alloc),
    })
}

/// Adds a row to the last block.
fn push_row(blocks: &mut Vec<Block<Text>>, row: Row) -> Result<(), NoMemory>
    ensures { OnOk result (blocks.new.items ≡ with_row row blocks.old.items) }
{
    if !blocks.is_empty() {
        let last = blocks.len() - 1;
        blocks[last].rows.push(row)?;
    }
    Ok(())
}

/// Each directive with the rows right behind it.
pub fn blocks(alloc: Global, lines: Vec<Line>) -> Result<Vec<Block<Text>>, NoMemory>
    ensures { IfOk result (λ found. found.items ≡ blocks lines.items) }
{
    let mut found = Vec::new(alloc);
    for line in lines {
        if is_row(&line) {
            push_row(&mut found, row(alloc, line))?;
        } else {
            found.push(block(alloc, line)?)?;
        }
    }
    Ok(found)
}
