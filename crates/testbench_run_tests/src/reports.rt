//! Reports and statuses that no run has yet.

use crate::asked::parted;
use crate::problem::Problem;
use four_state::{Text, Vec4};
use run_rules::{Drive, End};
use std::alloc::Global;
use testbench_run::{Status, report};

/// A drive of this signal in cycle 1, to these bits, the highest first.
fn drive(signal: u32, bits: &str) -> Result<Drive, Problem> {
    let width = u8::try_from(bits.len()).map_err(|_| Problem::Unsupported)?;
    if !bits.bytes().any(|bit| bit != b'_') {
        return Err(Problem::Unsupported);
    }
    Ok(Drive {
        cycle: 1,
        signal,
        bits: Vec4::from_digits(width, 2, bits.as_bytes()).ok_or(Problem::Unsupported)?,
    })
}

/// The report of two drives of two signals, or of a run that did nothing.
pub fn ended(alloc: Global, words: Option<&str>) -> Result<Vec<u8>, Problem> {
    let words = parted(alloc, words)?;
    let end = match words.as_slice() {
        ["empty"] => return Ok(report(alloc, &[], b"", &[], End::Finished, 0)?),
        ["finished"] => End::Finished,
        ["limit"] => End::Limit,
        ["fault", number, line] => End::Fault(number.parse()?, line.parse()?),
        ["slice"] => End::SpentSlice,
        ["turns"] => End::SpentTurns,
        _ => return Err(Problem::Unsupported),
    };
    let mut names = Vec::new(alloc);
    names.push(Text::from_slice(alloc, b"t.a")?)?;
    names.push(Text::from_slice(alloc, b"t.d")?)?;
    let mut drives = Vec::new(alloc);
    drives.push(drive(1, "1x0z")?)?;
    drives.push(drive(0, "0")?)?;
    Ok(report(alloc, names.as_slice(), b"hi", drives.as_slice(), end, 12)?)
}

/// The statuses by name, each with its number.
pub fn statuses(alloc: Global) -> Result<Vec<u8>, Problem> {
    let mut text = String::new(alloc);
    for status in [
        Status::Passed,
        Status::Words,
        Status::Source,
        Status::Netlist,
        Status::Link,
        Status::Fault,
        Status::Spent,
        Status::ReadFault,
        Status::WriteFault,
        Status::NoMemory,
        Status::TooLong,
    ] {
        let line = format!(in alloc; "{status:?} {}\n", status.number())?;
        text.push_str(line.as_str())?;
    }
    Ok(text.into_bytes())
}
