//! Net names to numbers.
ghost use Rattle.std.specs.Prelude.{◌≡◌, IfOk, map, []};
ghost use Rattle.blif_read.specs.Nets.{nets, numbered};

use crate::directives::{Block, Directive};
use four_state::{List, NoMemory, Text};
use std::alloc::Global;
use std::collections::HashMap;

/// The names that have appeared so far, in order, and the number of each.
#[derive(Drop)]
pub struct Nets {
    known: Vec<Text>,
    numbers: HashMap<Vec<u8>, usize>,
}

impl Nets {
    ghost use Rattle.blif_read.specs.Known.{IsIndex, Numbers, NumbersAll, NumbersDirective};

    fn new(alloc: Global) -> Nets
        ensures known { result.known.items ≡ [] }
        ensures index { IsIndex result }
    {
        Nets {
            known: Vec::new(alloc),
            numbers: HashMap::new(alloc),
        }
    }

    /// The number of a name, which is a new one where it hasn't appeared before.
    fn number(&mut self, alloc: Global, name: &[u8]) -> Result<usize, NoMemory>
        requires { IsIndex self.old }
        ensures { IfOk result (λ n. Numbers self.old self.new name.now n) }
    {
        if let Some(number) = self.numbers.get(name) {
            return Ok(*number);
        }
        let number = self.known.len();
        self.numbers.insert(Vec::from_slice(alloc, name)?, number)?;
        self.known.push(Text::from_slice(alloc, name)?)?;
        Ok(number)
    }

    fn numbers(&mut self, alloc: Global, names: &[Text]) -> Result<List<usize>, NoMemory>
        requires { IsIndex self.old }
        ensures { IfOk result (λ ns. NumbersAll self.old self.new names.now ns) }
    {
        let mut numbers = Vec::new(alloc);
        for name in names {
            numbers.push(self.number(alloc, name.as_slice())?)?;
        }
        Ok(List::of(numbers))
    }

    #[tactic(auto, using(crate::proofs::Numbered::model_numbers, crate::proofs::Numbered::inputs_numbers, crate::proofs::Numbered::outputs_numbers, crate::proofs::Numbered::clock_numbers, crate::proofs::Numbered::bad_latch_numbers, crate::proofs::Numbered::end_numbers, crate::proofs::Numbered::unknown_numbers))]
    fn directive(
        &mut self,
        alloc: Global,
        directive: Directive<Text>,
    ) -> Result<Directive<usize>, NoMemory>
        requires { IsIndex self.old }
        ensures { IfOk result (λ d. NumbersDirective self.old self.new directive d) }
    {
        match directive {
            Directive::Model(words) => Ok(Directive::Model(words)),
            Directive::Inputs(nets) => Ok(Directive::Inputs(self.numbers(alloc, nets.as_slice())?)),
            Directive::Outputs(nets) => Ok(Directive::Outputs(self.numbers(
                alloc,
                nets.as_slice(),
            )?)),
            Directive::Clock(nets) => Ok(Directive::Clock(self.numbers(alloc, nets.as_slice())?)),
            Directive::Names(inputs, output) => {
                let inputs = self.numbers(alloc, inputs.as_slice())?;
                let output = self.number(alloc, output.as_slice())?;
                Ok(Directive::Names(inputs, output))
            }
            Directive::Latch(input, output, control, init) => {
                let input = self.number(alloc, input.as_slice())?;
                let output = self.number(alloc, output.as_slice())?;
                match control {
                    Some(control) => {
                        let control = self.number(alloc, control.as_slice())?;
                        Ok(Directive::Latch(input, output, Some(control), init))
                    }
                    None => Ok(Directive::Latch(input, output, None, init)),
                }
            }
            Directive::BadLatch => Ok(Directive::BadLatch),
            Directive::End => Ok(Directive::End),
            Directive::Unknown => Ok(Directive::Unknown),
        }
    }

    /// The names in order of first appearance.
    fn into_names(self) -> Vec<Text>
        ensures { result.items ≡ self.known.items }
    {
        self.known
    }
}

/// The nets of these directives in order of first appearance, and the directives over their numbers.
pub fn numbered(
    alloc: Global,
    blocks: Vec<Block<Text>>,
) -> Result<(Vec<Text>, Vec<Block<usize>>), NoMemory>
    ensures nets { IfOk result (λ found. found.0.items ≡ nets blocks.items) }
    ensures numbered { IfOk result (λ found. found.1.items ≡ map (numbered (nets blocks.items)) blocks.items) }
{
    let mut nets = Nets::new(alloc);
    let mut found = Vec::new(alloc);
    for block in blocks {
        let Block {
            line,
            directive,
            rows,
        } = block;
        let directive = nets.directive(alloc, directive)?;
        found.push(Block {
            line,
            directive,
            rows,
        })?;
    }
    Ok((nets.into_names(), found))
}
