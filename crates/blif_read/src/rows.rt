//! The refusals of a cover's rows.
ghost use Rattle.std.specs.Prelude.{◌≡◌, ℕ, List, flat_map};
ghost use Rattle.std.specs.List.{list_all};
ghost use Rattle.blif_read.specs.Refusals.{is_literal, parts_fit, is_wrong_row, is_other_bit, bit_of, cover_bit, row_refusals};
ghost use Rattle.blif_read.specs.Checking.{first};

use crate::directives::{Block, Directive, Row};
use crate::refusals::Refusal;
use four_state::Text;

fn is_literal(byte: u8) -> bool
    ensures { result ≡ is_literal byte }
{
    byte == b'0' || byte == b'1' || byte == b'-'
}

fn are_literals(bytes: &[u8]) -> bool
    ensures { result ≡ list_all is_literal bytes.now }
{
    bytes.iter().all(|byte| is_literal(*byte))
}

/// Whether a row has a character for each of so many inputs.
fn parts_fit(inputs: usize, parts: &Option<(Text, bool)>) -> bool
    ensures { result ≡ parts_fit inputs parts.now }
{
    match parts {
        Some((literals, _)) => literals.len() == inputs && are_literals(literals.as_slice()),
        None => false,
    }
}

#[tactic(auto, unfolding(crate::specs::Refusals::is_wrong_row))]
fn is_wrong_row(directive: &Directive<usize>, row: &Row) -> bool
    ensures { result ≡ is_wrong_row directive.now row.now }
{
    match directive {
        Directive::Names(inputs, _) => !parts_fit(inputs.len(), &row.parts),
        _ => true,
    }
}

fn bit_of(row: &Row) -> bool
    ensures { result ≡ bit_of row.now.parts }
{
    match &row.parts {
        Some((_, bit)) => *bit,
        None => false,
    }
}

/// The bit of a cover's first row, and 1 without rows.
pub fn cover_bit(rows: &[Row]) -> bool
    ensures { result ≡ cover_bit rows.now }
{
    match rows {
        [first, ..] => bit_of(first),
        [] => true,
    }
}

#[tactic(auto, unfolding(crate::specs::Refusals::is_other_bit))]
fn is_other_bit(rows: &[Row], row: &Row) -> bool
    ensures { result ≡ is_other_bit rows.now row.now }
{
    if cover_bit(rows) {
        !bit_of(row)
    } else {
        bit_of(row)
    }
}

#[tactic(auto, unfolding(crate::specs::Refusals::row_refusals))]
fn row_refusal(block: &Block<usize>, row: &Row) -> Option<Refusal>
    ensures { result ≡ first (row_refusals block.now row.now) }
{
    if is_wrong_row(&block.directive, row) {
        Some(Refusal {
            code: 4,
            line: row.line,
        })
    } else if is_other_bit(block.rows.as_slice(), row) {
        Some(Refusal {
            code: 5,
            line: row.line,
        })
    } else {
        None
    }
}

/// The first refusal of a block's rows.
pub fn rows_refusal(block: &Block<usize>) -> Option<Refusal>
    ensures { result ≡ first (flat_map (row_refusals block.now) block.now.rows) }
{
    for row in block.rows.as_slice() {
        if let Some(refusal) = row_refusal(block, row) {
            return Some(refusal);
        }
    }
    None
}
