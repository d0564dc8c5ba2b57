//! The refusals of a netlist, line by line.
ghost use Rattle.std.specs.Prelude.{◌≡◌, ℕ, ◌<◌, ◌∷◌, [], ◌++◌, List, length, IfOk, IfNone, Option, option_map, not, ◌==◌, nat_le};
ghost use Rattle.std.specs.Bool.{OnFalse};
ghost use Rattle.std.specs.List.{list_any, slice_get};
ghost use Rattle.blif_read.specs.declared.directives.Block.{Block as BlockOf};
ghost use Rattle.blif_read.specs.Nets.{names};
ghost use Rattle.blif_read.specs.Sets.{IsSet, AllBelow};
ghost use Rattle.blif_read.specs.Checking.{NetsBelow, first};
ghost use Rattle.blif_read.specs.Refusals.{is_model, is_unknown, is_bad_latch, is_second_clock, is_driven_again, is_past_last_net, most_nets, directive_refusals, block_refusals, line_refusals, clock_names, sources, each};

use crate::directives::{Block, Directive};
use crate::roles::{clock_names, clocks, controls, gates, inputs};
use crate::rows::rows_refusal;
use crate::sets::NetSet;
use four_state::NoMemory;
use std::alloc::Global;

/// The most nets of a netlist.
const MOST_NETS: usize = 65536;

/// A number of N01 to N09 and a line.
#[derive(Clone, Copy, Debug)]
pub struct Refusal {
    pub code: u8,
    pub line: u32,
}

/// What is noted of the directives so far.
#[derive(Drop)]
pub struct Seen {
    /// The nets that are driven by an input, a latch or a cover.
    driven: NetSet,
    /// The outputs of latches and covers.
    gated: NetSet,
    /// The nets of a `.clock`.
    clocked: NetSet,
    /// The inputs and the nets of a `.clock` of the whole file.
    sources: NetSet,
    has_model: bool,
    /// The first name of the clock.
    clock: Option<usize>,
}

fn is_model(directive: &Directive<usize>) -> bool
    ensures { result ≡ is_model directive.now }
{
    matches!(directive, Directive::Model(_))
}

/// Whether a net isn't the first.
fn is_any_other(nets: &[usize], first: usize) -> bool
    ensures { result ≡ list_any (λ net. not (net == first)) nets.now }
{
    nets.iter().any(|net| *net != first)
}

impl Seen {
    ghost use Rattle.blif_read.specs.Checking.{HasSize, Knows, refusal_at};

    /// N06.
    #[tactic(auto, unfolding(crate::specs::Refusals::is_unknown))]
    fn is_unknown(&self, directive: &Directive<usize>) -> bool
        ensures { (before : List (BlockOf ℕ)) → self.now.has_model ≡ list_any (λ b. is_model b.directive) before → result ≡ is_unknown before directive.now }
    {
        match directive {
            Directive::Model(words) => *words > 1 || self.has_model,
            Directive::Unknown => true,
            _ => false,
        }
    }

    /// N07.
    #[tactic(auto, unfolding(crate::specs::Refusals::is_bad_latch))]
    fn is_bad_latch(&self, directive: &Directive<usize>) -> bool
        requires { AllBelow (length self.now.sources) (names directive.now) }
        ensures { (all : List (BlockOf ℕ)) → IsSet self.now.sources (each sources all) → result ≡ is_bad_latch all directive.now }
    {
        match directive {
            Directive::BadLatch => true,
            Directive::Latch(_, _, Some(control), _) => !self.sources.has(*control),
            _ => false,
        }
    }

    /// The first name of the clock, also of these names.
    fn first_clock(&self, names: &[usize]) -> Option<usize>
        ensures { (before : List ℕ) → self.now.clock ≡ slice_get before 0 → result ≡ slice_get (before ++ names.now) 0 }
    {
        self.clock.or(names.first().copied())
    }

    /// N08.
    #[tactic(auto, unfolding(crate::specs::Refusals::is_second_clock))]
    fn is_second_clock(&self, directive: &Directive<usize>) -> bool
        ensures { (before : List (BlockOf ℕ)) → self.now.clock ≡ slice_get (each clock_names before) 0 → result ≡ is_second_clock before directive.now }
    {
        let names = clock_names(directive);
        is_any_other(names, self.first_clock(names).unwrap_or(0))
    }

    /// N02. Marks what the directive drives.
    fn is_driven_again(&mut self, block: &Block<usize>) -> bool
        requires size { HasSize (length self.old.driven) self.old }
        requires below { AllBelow (length self.old.driven) (names block.now.directive) }
        ensures size { HasSize (length self.old.driven) self.new }
        ensures again { (all before : List (BlockOf ℕ)) → Knows self.old all before before → result ≡ is_driven_again before block.now.directive }
        ensures driven { OnFalse result ((all before : List (BlockOf ℕ)) → Knows self.old all before before → Knows self.new all before (before ++ block.now ∷ [])) }
    {
        let directive = &block.directive;
        if !self.driven.insert_both(inputs(directive), gates(directive)) {
            return true;
        }
        self.clocked.has_any(gates(directive)) || self.gated.has_any(clocks(directive))
    }

    /// Notes the rest of the directive.
    fn note(&mut self, block: &Block<usize>)
        requires size { HasSize (length self.old.driven) self.old }
        requires below { AllBelow (length self.old.driven) (names block.now.directive) }
        ensures size { HasSize (length self.old.driven) self.new }
        ensures knows { (all before : List (BlockOf ℕ)) → Knows self.old all before (before ++ block.now ∷ []) → Knows self.new all (before ++ block.now ∷ []) (before ++ block.now ∷ []) }
    {
        let directive = &block.directive;
        self.gated.insert_all(gates(directive));
        self.clocked.insert_all(clocks(directive));
        self.has_model = self.has_model || is_model(directive);
        self.clock = self.first_clock(clock_names(directive));
    }

    fn new(alloc: Global, blocks: &[Block<usize>], count: usize) -> Result<Seen, NoMemory>
        requires { NetsBelow count blocks.now }
        ensures size { IfOk result (λ s. HasSize count s) }
        ensures knows { IfOk result (λ s. Knows s blocks.now [] []) }
    {
        Ok(Seen {
            driven: NetSet::new(alloc, count)?,
            gated: NetSet::new(alloc, count)?,
            clocked: NetSet::new(alloc, count)?,
            sources: sources(alloc, blocks, count)?,
            has_model: false,
            clock: None,
        })
    }

    /// The lowest number that the directive's own line has, and notes the directive where it has none.
    fn directive_refusal(&mut self, block: &Block<usize>) -> Option<u8>
        requires size { HasSize (length self.old.driven) self.old }
        requires below { AllBelow (length self.old.driven) (names block.now.directive) }
        ensures size { HasSize (length self.old.driven) self.new }
        ensures refusal { (all before : List (BlockOf ℕ)) → Knows self.old all before before → option_map (refusal_at block.now.line) result ≡ first (directive_refusals all before block.now) }
        ensures knows { IfNone result ((all before : List (BlockOf ℕ)) → Knows self.old all before before → Knows self.new all (before ++ block.now ∷ []) (before ++ block.now ∷ [])) }
    {
        let directive = &block.directive;
        if self.is_driven_again(block) {
            return Some(2);
        }
        if self.is_unknown(directive) {
            return Some(6);
        }
        if self.is_bad_latch(directive) {
            return Some(7);
        }
        if self.is_second_clock(directive) {
            return Some(8);
        }
        if is_past_last_net(directive) {
            return Some(9);
        }
        self.note(block);
        None
    }

    /// The first refusal of a directive and its rows, and notes the directive where there is none.
    #[tactic(auto, unfolding(crate::specs::Refusals::block_refusals))]
    fn block_refusal(&mut self, block: &Block<usize>) -> Option<Refusal>
        requires size { HasSize (length self.old.driven) self.old }
        requires below { AllBelow (length self.old.driven) (names block.now.directive) }
        ensures size { HasSize (length self.old.driven) self.new }
        ensures refusal { (all before : List (BlockOf ℕ)) → Knows self.old all before before → result ≡ first (block_refusals all before block.now) }
        ensures knows { IfNone result ((all before : List (BlockOf ℕ)) → Knows self.old all before before → Knows self.new all (before ++ block.now ∷ []) (before ++ block.now ∷ [])) }
    {
        match self.directive_refusal(block) {
            Some(code) => Some(Refusal {
                code,
                line: block.line,
            }),
            None => rows_refusal(block),
        }
    }
}

/// N09.
#[tactic(auto, using(crate::proofs::Marks::any_push), unfolding(crate::specs::Refusals::is_past_last_net))]
fn is_past_last_net(directive: &Directive<usize>) -> bool
    ensures { result ≡ is_past_last_net directive.now }
{
    match directive {
        Directive::Inputs(nets) => is_any_past(nets.as_slice()),
        Directive::Outputs(nets) => is_any_past(nets.as_slice()),
        Directive::Clock(nets) => is_any_past(nets.as_slice()),
        Directive::Names(inputs, output) => is_any_past(inputs.as_slice()) || *output >= MOST_NETS,
        Directive::Latch(input, output, _, _) => {
            if *input >= MOST_NETS || *output >= MOST_NETS {
                return true;
            }
            is_any_past(controls(directive))
        }
        _ => false,
    }
}

fn is_any_past(nets: &[usize]) -> bool
    ensures { result ≡ list_any (nat_le most_nets) nets.now }
{
    nets.iter().any(|net| *net >= MOST_NETS)
}

/// The inputs and the nets of a `.clock` of these directives.
fn sources(alloc: Global, blocks: &[Block<usize>], count: usize) -> Result<NetSet, NoMemory>
    requires { NetsBelow count blocks.now }
    ensures size { IfOk result (λ s. length s ≡ count) }
    ensures set { IfOk result (λ s. IsSet s (each sources blocks.now)) }
{
    let mut found = NetSet::new(alloc, count)?;
    for block in blocks {
        found.insert_all(inputs(&block.directive));
        found.insert_all(clocks(&block.directive));
    }
    Ok(found)
}

/// The first refusal of N02 and N04 to N09, of directives over nets below `count`.
pub fn line_refusal(
    alloc: Global,
    blocks: &[Block<usize>],
    count: usize,
) -> Result<Option<Refusal>, NoMemory>
    requires { NetsBelow count blocks.now }
    ensures { IfOk result (λ found. found ≡ first (line_refusals blocks.now [] blocks.now)) }
{
    let mut seen = Seen::new(alloc, blocks, count)?;
    for block in blocks {
        if let Some(refusal) = seen.block_refusal(block) {
            return Ok(Some(refusal));
        }
    }
    Ok(None)
}
