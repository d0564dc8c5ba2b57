//! Interfaces and coverage groups.

use super::Out;
use super::declarations::maybe_range;
use super::expressions::{expr, number};
use super::parts::edge;
use four_state::NoMemory;
use vera_ast::{
    Bin, BinKind, BinValue, CoverageGroup, Direction, GroupEvent, Interface, Sample, Signal,
    SignalForm, SignalTime,
};

/// `1:(interface t SIGNAL ..)`.
pub fn interface(out: &mut Out, node: &Interface) -> Result<(), NoMemory> {
    out.line(node.line)?;
    out.put(b"(interface ")?;
    out.name(&node.name)?;
    for item in node.signals.as_slice() {
        out.put(b" ")?;
        signal(out, item)?;
    }
    out.put(b")")
}

/// `4:(input 5:[6:1 : 8:0] q 11:PSAMPLE #-1)`.
fn signal(out: &mut Out, node: &Signal) -> Result<(), NoMemory> {
    out.line(node.line)?;
    out.put(match node.direction {
        Direction::Input => b"(input",
        Direction::Output => b"(output",
    })?;
    maybe_range(out, &node.range)?;
    out.put(b" ")?;
    out.name(&node.name)?;
    out.put(b" ")?;
    out.line(node.kind.line)?;
    match &node.kind.form {
        SignalForm::Clock => out.put(b"CLOCK")?,
        SignalForm::Timed(time, skew) => {
            out.put(match time {
                SignalTime::PositiveHold => b"PHOLD",
                SignalTime::PositiveSample => b"PSAMPLE",
                SignalTime::NegativeHold => b"NHOLD",
                SignalTime::NegativeSample => b"NSAMPLE",
            })?;
            if let Some(skew) = skew {
                out.put(if skew.is_negative { b" #-" } else { b" #" })?;
                number(out, &skew.amount)?;
            }
        }
    }
    out.put(b")")
}

/// `1:(coverage_group g EVENT SAMPLE ..)`.
pub fn group(out: &mut Out, node: &CoverageGroup) -> Result<(), NoMemory> {
    out.line(node.line)?;
    out.put(b"(coverage_group ")?;
    out.name(&node.name)?;
    out.put(b" ")?;
    match &node.event {
        GroupEvent::Edge(event) => edge(out, event)?,
        GroupEvent::Sync(event) => {
            out.line(event.line)?;
            out.put(b"(sync ")?;
            out.name(&event.name)?;
            out.put(b")")?;
        }
    }
    for item in node.samples.as_slice() {
        out.put(b" ")?;
        sample(out, item)?;
    }
    out.put(b")")
}

/// `9:(sample t.q BIN ..)`.
fn sample(out: &mut Out, node: &Sample) -> Result<(), NoMemory> {
    out.line(node.line)?;
    out.put(b"(sample ")?;
    out.name(&node.name)?;
    if let Some(signal) = &node.signal {
        out.put(b".")?;
        out.name(signal)?;
    }
    for item in node.bins.as_slice() {
        out.put(b" ")?;
        bin(out, item)?;
    }
    out.put(b")")
}

/// `12:(state n 15:15:1 17:17:2..19:3)`.
fn bin(out: &mut Out, node: &Bin) -> Result<(), NoMemory> {
    out.line(node.line)?;
    out.put(match node.kind {
        BinKind::State => b"(state ",
        BinKind::BadState => b"(bad_state ",
        BinKind::Transition => b"(trans ",
        BinKind::BadTransition => b"(bad_trans ",
    })?;
    out.name(&node.name)?;
    for item in node.values.as_slice() {
        out.put(b" ")?;
        bin_value(out, item)?;
    }
    out.put(b")")
}

fn bin_value(out: &mut Out, node: &BinValue) -> Result<(), NoMemory> {
    out.line(node.line)?;
    expr(out, &node.first)?;
    if let Some(last) = &node.last {
        out.put(b"..")?;
        expr(out, last)?;
    }
    Ok(())
}
