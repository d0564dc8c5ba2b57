//! Answers of one line.
ghost use Rattle.std.specs.Prelude.{◌≡◌, ◌++◌, codes, decimal, IfOk, OnOk};
ghost use Rattle.run_rules.specs.Reports.{two_digits};
ghost use Rattle.testbench_run.specs.Refusals.{accepted_answer, words_answer, source_answer, netlist_answer, ring_answer, read_answer, long_answer, refusal_text};

use crate::answer::Answer;
use four_state::{NoMemory, Text};
use itoa::Buffer;
use run_rules::Status;
use std::alloc::Global;
use vera_ast::Refusal;

/// An answer whose text is this line.
fn line_answer(alloc: Global, status: Status, line: &[u8]) -> Result<Answer, NoMemory>
    ensures { IfOk result (λ answer. answer ≡ record { status = status; text = line.now }) }
{
    Ok(Answer {
        status,
        text: Text::from_slice(alloc, line)?,
    })
}

/// The words ask for nothing that there is.
pub fn words_refusal(alloc: Global) -> Result<Answer, NoMemory>
    ensures { IfOk result (λ answer. answer ≡ words_answer) }
{
    line_answer(alloc, Status::Words, b"error words\n")
}

/// The files are accepted, and nothing more was asked for.
pub fn accepted(alloc: Global) -> Result<Answer, NoMemory>
    ensures { IfOk result (λ answer. answer ≡ accepted_answer) }
{
    line_answer(alloc, Status::Passed, b"accepted\n")
}

/// An answer whose line names something: a file, a net or a signal.
fn naming_answer(
    alloc: Global,
    status: Status,
    words: &[u8],
    name: &[u8],
) -> Result<Answer, NoMemory>
    ensures { IfOk result (λ answer. answer ≡ record { status = status; text = words.now ++ name.now ++ codes "\n" }) }
{
    let mut text = Text::from_slice(alloc, words)?;
    text.push_slice(name)?;
    text.push_slice(b"\n")?;
    Ok(Answer { status, text })
}

/// A file could not be read. It is named by what it is for, `testbench` or `netlist`.
pub fn read_refusal(alloc: Global, file: &[u8]) -> Result<Answer, NoMemory>
    ensures { IfOk result (λ answer. answer ≡ read_answer file.now) }
{
    naming_answer(alloc, Status::ReadFault, b"error read ", file)
}

/// A file has more bytes than a file may have.
pub fn long_refusal(alloc: Global, file: &[u8]) -> Result<Answer, NoMemory>
    ensures { IfOk result (λ answer. answer ≡ long_answer file.now) }
{
    naming_answer(alloc, Status::TooLong, b"error long ", file)
}

/// Nets depend on each other in a ring, of which this is the net to name.
pub fn ring_refusal(alloc: Global, net: &[u8]) -> Result<Answer, NoMemory>
    ensures { IfOk result (λ answer. answer ≡ ring_answer net.now) }
{
    naming_answer(alloc, Status::Netlist, b"error N10 net ", net)
}

/// A signal of this name, `INTERFACE.SIGNAL`, doesn't link.
pub fn link_refusal(alloc: Global, signal: &[u8]) -> Result<Answer, NoMemory>
    ensures { IfOk result (λ answer. answer ≡ record { status = Status.Link; text = codes "error link " ++ signal.now ++ codes "\n" }) }
{
    naming_answer(alloc, Status::Link, b"error link ", signal)
}

/// An answer whose line tells a refusal: a letter with two digits, and a line of the file.
fn refusal_answer(
    alloc: Global,
    status: Status,
    letter: &[u8],
    code: u8,
    line: u32,
) -> Result<Answer, NoMemory>
    ensures { IfOk result (λ answer. answer ≡ record { status = status; text = refusal_text letter.now code line }) }
{
    let mut text = Text::from_slice(alloc, b"error ")?;
    text.push_slice(letter)?;
    push_two_digits(&mut text, code)?;
    text.push_slice(b" line ")?;
    push_number(&mut text, line)?;
    text.push_slice(b"\n")?;
    Ok(Answer { status, text })
}

/// The testbench is refused: a number of 1 to 90, and a line.
pub fn source_refusal(alloc: Global, refusal: Refusal) -> Result<Answer, NoMemory>
    ensures { IfOk result (λ answer. answer ≡ source_answer refusal) }
{
    refusal_answer(alloc, Status::Source, b"E", refusal.code, refusal.line)
}

/// The netlist has a refusal of this number, 1 to 9, in this line.
pub fn netlist_refusal(alloc: Global, code: u8, line: u32) -> Result<Answer, NoMemory>
    ensures { IfOk result (λ answer. answer ≡ netlist_answer (record { code = code; line = line })) }
{
    refusal_answer(alloc, Status::Netlist, b"N", code, line)
}

/// Adds a number's decimal digits, at least two of them.
fn push_two_digits(text: &mut Text, number: u8) -> Result<(), NoMemory>
    ensures { OnOk result (text.new ≡ text.old ++ two_digits number) }
{
    if number < 10 {
        text.push_slice(b"0")?;
    }
    push_number(text, u32::from(number))
}

/// Adds a number's decimal digits.
fn push_number(text: &mut Text, number: u32) -> Result<(), NoMemory>
    ensures { OnOk result (text.new ≡ text.old ++ decimal number) }
{
    let mut buffer = Buffer::new();
    text.push_slice(buffer.format(number).as_bytes())
}
