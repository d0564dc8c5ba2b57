//! Words that are asked, and how answers are written.

use crate::problem::Problem;
use run_words::read_words;
use std::alloc::Global;
use testbench_run::Status;

/// A line as it stands.
pub fn line_of(alloc: Global, text: &str) -> Result<Vec<u8>, Problem> {
    Ok(format!(in alloc; "{text}\n")?.into_bytes())
}

/// Words that single blanks part; an empty text is one empty word.
pub fn parted<'a>(alloc: Global, text: Option<&'a str>) -> Result<Vec<&'a str>, Problem> {
    match text {
        None => Ok(Vec::new(alloc)),
        Some(text) => Ok(text.split(' ').collect(alloc)?),
    }
}

/// What words ask for.
pub fn request(alloc: Global, words: Option<&str>) -> Result<Vec<u8>, Problem> {
    let words = parted(alloc, words)?;
    match read_words(words.as_slice()) {
        None => line_of(alloc, "refused"),
        Some(request) => {
            let limits = request.limits;
            let netlist = request.netlist.unwrap_or("-");
            let text = format!(in alloc;
                "{:?} {} {netlist} {} {} {}\n",
                request.mode, request.testbench, limits.cycles, limits.budget, limits.turns
            )?;
            Ok(text.into_bytes())
        }
    }
}

/// A status, and what was taken, or its last line alone.
pub fn taken(
    alloc: Global,
    status: Status,
    bytes: &[u8],
    is_short: bool,
) -> Result<Vec<u8>, Problem> {
    let mut text = format!(in alloc; "status {}\n", status.number())?.into_bytes();
    let bytes = if is_short { last_line(bytes) } else { bytes };
    text.extend_from_slice(bytes)?;
    if !bytes.is_empty() && bytes[bytes.len() - 1] != b'\n' {
        text.extend_from_slice(b"\n(no line feed)\n")?;
    }
    Ok(text)
}

/// The last line, with its line feed.
fn last_line(bytes: &[u8]) -> &[u8] {
    let mut start = 0;
    for at in 1..bytes.len() {
        if bytes[at - 1] == b'\n' {
            start = at;
        }
    }
    bytes.get(start..).unwrap_or(bytes)
}
