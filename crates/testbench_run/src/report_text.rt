ghost use Rattle.std.specs.Prelude.{◌≡◌, ◌++◌, [], List, IfOk, OnOk, Some, map, decimal, codes, if◌then◌else◌};
ghost use Rattle.vera_ast.specs.Signals.{NamedSignal};
ghost use Rattle.run_rules.specs.Reports.{report_text, ends_within_line, end_line, end_words, newline, signal_name, two_digits};
ghost use Rattle.testbench_run.specs.DriveLines.{named, named_drive_line, named_drive_lines};

use four_state::{NoMemory, Text};
use itoa::Buffer;
use run_rules::{Drive, End};
use std::alloc::Global;

/// The report of a run: what it printed, the drives that were applied, and how it ended in this cycle. `names` are
/// those of the signals, `INTERFACE.SIGNAL`, by their numbers.
pub fn report(
    alloc: Global,
    names: &[Text],
    printed: &[u8],
    drives: &[Drive],
    end: End,
    cycle: u64,
) -> Result<Vec<u8>, NoMemory>
    ensures { IfOk result (λ text. (signals : List NamedSignal) → names.now ≡ map (λ s. signal_name (Some s)) signals → text.items ≡ report_text signals printed.now drives.now end cycle) }
{
    let mut text = Vec::from_slice(alloc, b"text ")?;
    push_number(&mut text, printed.len() as u64)?;
    text.extend_from_slice(b"\n")?;
    text.extend_from_slice(printed)?;
    end_the_line(&mut text, printed)?;
    text.extend_from_slice(b"drives ")?;
    push_number(&mut text, drives.len() as u64)?;
    text.extend_from_slice(b"\n")?;
    push_drives(&mut text, alloc, names, drives)?;
    text.extend_from_slice(b"verdicts 0\ncoverage 0\n")?;
    push_end(&mut text, end, cycle)?;
    Ok(text)
}

/// Adds a number's decimal digits.
fn push_number(text: &mut Vec<u8>, number: u64) -> Result<(), NoMemory>
    ensures { OnOk result (text.new.items ≡ text.old.items ++ decimal number) }
{
    let mut buffer = Buffer::new();
    text.extend_from_slice(buffer.format(number).as_bytes())?;
    Ok(())
}

/// Adds a newline behind printed bytes that end within a line.
fn end_the_line(text: &mut Vec<u8>, printed: &[u8]) -> Result<(), NoMemory>
    ensures { OnOk result (text.new.items ≡ text.old.items ++ (if ends_within_line printed.now then newline else [])) }
{
    if ends_within_line(printed) {
        text.extend_from_slice(b"\n")?;
    }
    Ok(())
}

/// Adds a line for each drive, in order.
fn push_drives(
    text: &mut Vec<u8>,
    alloc: Global,
    names: &[Text],
    drives: &[Drive],
) -> Result<(), NoMemory>
    ensures { OnOk result (text.new.items ≡ text.old.items ++ named_drive_lines names.now drives.now) }
{
    for drive in drives {
        push_drive(text, alloc, names, drive)?;
    }
    Ok(())
}

/// Adds the line of a drive: its cycle, its signal's name, and its bits, the highest first.
fn push_drive(
    text: &mut Vec<u8>,
    alloc: Global,
    names: &[Text],
    drive: &Drive,
) -> Result<(), NoMemory>
    ensures { OnOk result (text.new.items ≡ text.old.items ++ (named_drive_line names.now drive.now ++ newline)) }
{
    push_number(text, drive.cycle)?;
    text.extend_from_slice(b" ")?;
    push_name(text, names, drive.signal)?;
    text.extend_from_slice(b" = ")?;
    let bits = drive.bits.to_binary_text(alloc)?;
    text.extend_from_slice(bits.as_slice())?;
    text.extend_from_slice(b"\n")?;
    Ok(())
}

/// Adds the name of the signal of this number; a number that is no signal's adds nothing.
fn push_name(text: &mut Vec<u8>, names: &[Text], signal: u32) -> Result<(), NoMemory>
    ensures { OnOk result (text.new.items ≡ text.old.items ++ named names.now signal) }
{
    if let Some(name) = names.get(signal as usize) {
        text.extend_from_slice(name.as_slice())?;
    }
    Ok(())
}

/// Adds the line of the end.
fn push_end(text: &mut Vec<u8>, end: End, cycle: u64) -> Result<(), NoMemory>
    ensures { OnOk result (text.new.items ≡ text.old.items ++ end_line end cycle) }
{
    text.extend_from_slice(b"end ")?;
    push_end_words(text, end)?;
    text.extend_from_slice(b" cycle ")?;
    push_number(text, cycle)?;
    text.extend_from_slice(b"\n")?;
    Ok(())
}

/// Adds how a run ended.
fn push_end_words(text: &mut Vec<u8>, end: End) -> Result<(), NoMemory>
    ensures { OnOk result (text.new.items ≡ text.old.items ++ end_words end) }
{
    match end {
        End::Finished => text.extend_from_slice(b"finished")?,
        End::Limit => text.extend_from_slice(b"limit")?,
        End::Fault(code, line) => push_fault(text, code, line)?,
        End::SpentSlice => text.extend_from_slice(b"spent slice")?,
        End::SpentTurns => text.extend_from_slice(b"spent turns")?,
    }
    Ok(())
}

/// Adds a fault's number, with two digits at least, and its line.
fn push_fault(text: &mut Vec<u8>, code: u8, line: u32) -> Result<(), NoMemory>
    ensures { OnOk result (text.new.items ≡ text.old.items ++ (codes "fault F" ++ two_digits code ++ codes " line " ++ decimal line)) }
{
    text.extend_from_slice(b"fault F")?;
    push_two_digits(text, code)?;
    text.extend_from_slice(b" line ")?;
    push_number(text, line as u64)
}

/// Adds a number with two digits at least.
fn push_two_digits(text: &mut Vec<u8>, number: u8) -> Result<(), NoMemory>
    ensures { OnOk result (text.new.items ≡ text.old.items ++ two_digits number) }
{
    if number < 10 {
        text.extend_from_slice(b"0")?;
    }
    push_number(text, number as u64)
}

/// Whether a text isn't empty and its last byte is no newline.
fn ends_within_line(text: &[u8]) -> bool
    ensures { result ≡ ends_within_line text.now }
{
    match text.last() {
        Some(byte) => *byte != b'\n',
        None => false,
    }
}
