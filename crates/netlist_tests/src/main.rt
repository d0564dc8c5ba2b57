//! Follows a script of netlists and testbenches, and writes the answers. What a line adds to is there until the next
//! `netlist` or `testbench`.
//!
//! A line that makes something has no answer:
//!
//! - `netlist`: the next netlist begins, with no text; `netlist empty`: `Netlist::empty` is the netlist, without a text
//! - `| TEXT` adds TEXT and a line feed to the netlist's text (`|` alone: an empty line), and `~ TEXT` adds TEXT alone;
//!   in both `\xHH`, with two lower-case hexadecimal digits, stands for that byte. `times COUNT TEXT` adds TEXT so many
//!   times, with the number of the repeat, from 0, for each `$` in it
//! - `testbench`: the next testbench begins, with no interface
//! - `interface NAME SIGNAL, SIGNAL, ..` adds an interface. A signal is `input WIDTH NAME KIND`, where KIND is `clock`
//!   or `sample`, or `output WIDTH NAME hold`, at positive edges; `times COUNT` before it makes so many of it, with the
//!   number of the repeat for each `$` in NAME
//!
//! A line that asks has an answer. Where it asks of a netlist that is refused, that is `N04 line 3`:
//!
//! - `read`: the parts of a copy of the netlist. Nets stand by their numbers, which count from 0 in the order of
//!   `nets`. Behind the output of a cover stands whether its rows are the `on` or the `off` set, and behind that of a
//!   latch its first value
//! - `count`: how many of each part there are
//! - `run WORD ..`: the values of all nets, in order, behind these words. A word has a digit (`0`, `1`, `x`) for each
//!   input, and drives them; then the device settles and has an edge. Behind the last word it settles. Where the device
//!   is refused, the answer is `loop v`, with the net's name. `outputs WORD ..`: the values of the outputs alone
//! - `link`: a line for each signal of the testbench, its direction and its nets, or `unlinked t.q`; `linked`: how many
//!   signals link, and the line of the last one
//! - `names`: the names of the testbench's signals
//!
//! A line `# WORDS` is a heading, and is written as it stands. To any other line the answer is `unsupported line`.
#![tactic(auto)]

mod devices;
mod links;
mod out;
mod parts;
mod problem;
mod script;
mod signals;
mod texts;

use crate::script::Script;
use std::io;
use std::io::Write;

fn main(rt: HostRuntime) -> io::Result<()> {
    let mut script = Script::new(rt.alloc());
    for line in rt.lines(rt.alloc()) {
        let line = line?;
        match script.answer(line.as_str()) {
            Ok(answer) => io::writer(&rt).write_all(answer.as_slice())?,
            Err(problem) => io::writer(&rt).write_all(problem.text())?,
        }
    }
    Ok(())
}
