//! Lexes each source of its input, or parses it, or parses and checks it, and writes the tokens, the tree or the answer,
//! one a line.
//!
//! A line of input is `. SOURCE`, whose blanks stand for line feeds, so that each token has a line of its own, or
//! `= SOURCE`, whose tabs do, or `< SOURCE`, as the latter, of which each front of the tokens is parsed by itself, or
//! `? SOURCE`, as the latter, which is parsed and then checked: the answer is `accepted` or the first refusal, or
//! `! SOURCE`, as the latter, of which is told what isn't built yet for a run, and for the checker alone. Between two
//! backquotes stands a number and what is repeated so many times, with the number of the repeat for each `$`.
//!
//! It is also `; SOURCE`, as `= SOURCE`, whose tokens are the answer, or `# SOURCE`, as the latter, of which their number
//! and the last one are. In these two `\xHH`, with two lower-case hexadecimal digits, stands for the byte HH, as a tab,
//! a backquote or a `$` that is repeated: it is read last, and so `\x5c` is a backslash that begins no such byte.
//!
//! A token is `LINE:CODE`, and behind it a word as it is, a string in quotes, and of a number the width and the value:
//! `1:6` is a semicolon on line 1, `2:48 a` a name, `2:50 "s\n"` a string, `2:49 integer 32'd7` an unsized decimal and
//! `2:49 4'b10x1` another literal. The codes in `stdout` weren't taken from an answer: those of signs are their places in
//! the table of signs, from 0, names, numbers and strings have the three behind these, and a reserved word has the
//! number of the constant of its name in `codes` of `vera_ast`, where `ANY` and `ALL` are `ANY_MODE` and `ALL_MODE`. The
//! other parts follow from the rules of tokens and directives.
#![tactic(auto)]

mod cases;
mod show;
mod source;

use std::io;
use std::io::Write;

fn main(rt: HostRuntime) -> io::Result<()> {
    for line in rt.lines(rt.alloc()) {
        let line = line?;
        let answer = cases::answer(rt.alloc(), line.as_str().as_bytes())?;
        io::writer(&rt).write_all(answer.as_slice())?;
    }
    Ok(())
}
