//! Nets that nothing drives.
ghost use Rattle.std.specs.Prelude.{◌≡◌, ℕ, List, length, IfOk};
ghost use Rattle.blif_read.specs.declared.directives.Block.{Block as BlockOf};
ghost use Rattle.blif_read.specs.Nets.{names};
ghost use Rattle.blif_read.specs.Sets.{IsSet, AllBelow};
ghost use Rattle.blif_read.specs.Checking.{NetsBelow, first};
ghost use Rattle.blif_read.specs.Refusals.{is_undriven, refusal_if, undriven_refusals, drivers, each};

use crate::directives::{Block, Directive};
use crate::refusals::Refusal;
use crate::roles::{clocks, controls, gates, inputs, outputs, reads};
use crate::sets::NetSet;
use four_state::NoMemory;
use std::alloc::Global;

/// What these directives drive.
fn drivers(alloc: Global, blocks: &[Block<usize>], count: usize) -> Result<NetSet, NoMemory>
    requires { NetsBelow count blocks.now }
    ensures size { IfOk result (λ s. length s ≡ count) }
    ensures set { IfOk result (λ s. IsSet s (each drivers blocks.now)) }
{
    let mut found = NetSet::new(alloc, count)?;
    for block in blocks {
        found.insert_all(inputs(&block.directive));
        found.insert_all(gates(&block.directive));
        found.insert_all(clocks(&block.directive));
    }
    Ok(found)
}

/// N03, where these nets are driven.
#[tactic(auto, unfolding(crate::specs::Refusals::is_undriven))]
fn is_undriven(driven: &NetSet, directive: &Directive<usize>) -> bool
    requires { AllBelow (length driven.now) (names directive.now) }
    ensures { (all : List (BlockOf ℕ)) → IsSet driven.now (each drivers all) → result ≡ is_undriven all directive.now }
{
    if driven.lacks_any(reads(directive)) {
        return true;
    }
    if driven.lacks_any(outputs(directive)) {
        return true;
    }
    driven.lacks_any(controls(directive))
}

fn directive_undriven(driven: &NetSet, block: &Block<usize>) -> Option<Refusal>
    requires { AllBelow (length driven.now) (names block.now.directive) }
    ensures { (all : List (BlockOf ℕ)) → IsSet driven.now (each drivers all) → result ≡ first (refusal_if (is_undriven all block.now.directive) 3 block.now.line) }
{
    if is_undriven(driven, &block.directive) {
        return Some(Refusal {
            code: 3,
            line: block.line,
        });
    }
    None
}

/// The first refusal of N03, of directives over nets below `count`.
pub fn undriven_refusal(
    alloc: Global,
    blocks: &[Block<usize>],
    count: usize,
) -> Result<Option<Refusal>, NoMemory>
    requires { NetsBelow count blocks.now }
    ensures { IfOk result (λ found. found ≡ first (undriven_refusals blocks.now blocks.now)) }
{
    let driven = drivers(alloc, blocks, count)?;
    for block in blocks {
        if let Some(refusal) = directive_undriven(&driven, block) {
            return Ok(Some(refusal));
        }
    }
    Ok(None)
}
