//! Asks the top call what its input says, and writes what comes of it: that calls succeed, and whole answers, which
//! were written by hand from the rules.
//!
//! A line of input is one of these:
//!
//! - `# WORDS`, a heading: it is written as it stands
//! - `new`: an empty shelf, on which nothing fails, and a sink that takes all
//! - `file NAME`: a file of that name, into which the lines behind it go: `| TEXT` is a line of it, and `times COUNT TEXT`
//!   is TEXT so many times, with no line feed
//! - `shelf_fails CALL`, `sink_fails CALL`: that call fails, counted from 1; `step COUNT`: the sink takes at most so many
//!   bytes a call
//! - `> WORD ..`: the top call with these words, parted by single blanks; the answer is its status and all that the sink
//!   took. `ends WORD ..` is the same, and of what the sink took only the last line is written
//! - `asks WORD ..`: what these words ask for: the mode, the testbench, the netlist or `-`, then the last cycle, the budget
//!   and the turns; or `refused`
//! - `report END ..`: the report of two drives that ended so in cycle 12: `finished`, `limit`, `fault NUMBER LINE`, `slice`,
//!   `turns`; `empty`: the report of a run that did nothing
//! - `statuses`: the number of each status
#![tactic(auto)]

mod asked;
mod problem;
mod reports;
mod script;

use script::Script;
use std::io;
use std::io::Write;

fn main(rt: HostRuntime) -> io::Result<()> {
    let mut script = Script::new(rt.alloc());
    for line in rt.lines(rt.alloc()) {
        let line = line?;
        match script.answer(line.as_str()) {
            Ok(answer) => io::writer(&rt).write_all(answer.as_slice())?,
            Err(problem) => io::writer(&rt).write_all(problem.text())?,
        }
    }
    Ok(())
}
