//! The nets that a directive names, by what it says of them.
ghost use Rattle.std.specs.Prelude.{◌≡◌, ℕ};
ghost use Rattle.blif_read.specs.Nets.{names};
ghost use Rattle.blif_read.specs.Sets.{AllBelow};
ghost use Rattle.blif_read.specs.Refusals.{inputs, outputs, clocks, gates, reads, controls, clock_names};

use crate::directives::Directive;
use std::slice;

/// The inputs of an `.inputs`.
pub fn inputs(directive: &Directive<usize>) -> &[usize]
    ensures nets { result.now ≡ inputs directive.now }
    ensures below { (count : ℕ) → AllBelow count (names directive.now) → AllBelow count result.now }
{
    match directive {
        Directive::Inputs(nets) => nets.as_slice(),
        _ => &[],
    }
}

/// The outputs of an `.outputs`.
pub fn outputs(directive: &Directive<usize>) -> &[usize]
    ensures nets { result.now ≡ outputs directive.now }
    ensures below { (count : ℕ) → AllBelow count (names directive.now) → AllBelow count result.now }
{
    match directive {
        Directive::Outputs(nets) => nets.as_slice(),
        _ => &[],
    }
}

/// The nets of a `.clock`.
pub fn clocks(directive: &Directive<usize>) -> &[usize]
    ensures nets { result.now ≡ clocks directive.now }
    ensures below { (count : ℕ) → AllBelow count (names directive.now) → AllBelow count result.now }
{
    match directive {
        Directive::Clock(nets) => nets.as_slice(),
        _ => &[],
    }
}

/// The output of a latch or a cover.
pub fn gates(directive: &Directive<usize>) -> &[usize]
    ensures nets { result.now ≡ gates directive.now }
    ensures below { (count : ℕ) → AllBelow count (names directive.now) → AllBelow count result.now }
{
    match directive {
        Directive::Names(_, output) => slice::from_ref(output),
        Directive::Latch(_, output, _, _) => slice::from_ref(output),
        _ => &[],
    }
}

/// What a latch or a cover reads.
pub fn reads(directive: &Directive<usize>) -> &[usize]
    ensures nets { result.now ≡ reads directive.now }
    ensures below { (count : ℕ) → AllBelow count (names directive.now) → AllBelow count result.now }
{
    match directive {
        Directive::Names(inputs, _) => inputs.as_slice(),
        Directive::Latch(input, _, _, _) => slice::from_ref(input),
        _ => &[],
    }
}

/// The control of a latch.
pub fn controls(directive: &Directive<usize>) -> &[usize]
    ensures nets { result.now ≡ controls directive.now }
    ensures below { (count : ℕ) → AllBelow count (names directive.now) → AllBelow count result.now }
{
    match directive {
        Directive::Latch(_, _, Some(control), _) => slice::from_ref(control),
        _ => &[],
    }
}

/// The nets of a `.clock`, or the control of a latch.
pub fn clock_names(directive: &Directive<usize>) -> &[usize]
    ensures nets { result.now ≡ clock_names directive.now }
    ensures below { (count : ℕ) → AllBelow count (names directive.now) → AllBelow count result.now }
{
    match directive {
        Directive::Clock(nets) => nets.as_slice(),
        _ => controls(directive),
    }
}
