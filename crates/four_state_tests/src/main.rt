//! Computes the operation that each line of its input names, and writes the answer, one a line: what no clause says is
//! that the definitions are those of the language. The first answers are Icarus Verilog's.
//!
//! A line is `OPERATION OPERAND ..`, parted by single blanks, with `signed` before it where the method is told so. An
//! operation has the name of the method that it calls, or almost. A vector is written as its bits, highest first, of `0`,
//! `1`, `x` and `z`, and other numbers are decimal. The operations:
//!
//! - of one vector: `neg`, `bit_not`, `logic_not`, `red_and` and the other reductions; `hex`, `decimal` (which may be
//!   signed), `logic`, `parts` (the width, the ones, the unknown), `is_known`, `number`, `signed_number`
//! - of two vectors: `concat`, `equals`, `logic_and`, `logic_or`; `shl` and `shr`; of one width `add`, `sub`, `mul`,
//!   `div`, `rem`, `bit_and`, `bit_or`, `bit_xor`, `bit_xnor`, `less`, `less_equal`, `greater`, `greater_equal`, `equal`,
//!   `not_equal`, `case_eq`, `case_ne`, `wild_eq`, `wild_ne`
//! - of places: `bit PLACE VECTOR` and the digit `glyph PLACE VECTOR`; `select HIGH LOW VECTOR`; `extend WIDTH VECTOR`
//! - that make a vector: `all_x WIDTH`, `of_number WIDTH NUMBER`, `new WIDTH ONES UNKNOWN`, `literal WIDTH BASE DIGITS`
//! - of texts: `text_copy`, `text_len`, `text_is_empty`, `text_is_the_empty`, `text_push_slice TEXT TEXT`,
//!   `text_equals TEXT TEXT`
//! - of lists, whose items are the operand's bytes: `list_is_empty` of no operand, `list_as_slice`, `list_into_vec`,
//!   `list_len`, `list_get PLACE LIST`, `list_equals LIST LIST`
//!
//! The answer is `-` where the method answers None, and `unsupported operation` for what isn't one of these. A line that
//! begins with `#` is a heading, and is written as it stands.
#![tactic(auto)]

mod cases;
mod operands;
mod operators;
mod places;
mod problem;
mod texts;

use std::io;
use std::io::Write;

fn main(rt: HostRuntime) -> io::Result<()> {
    for line in rt.lines(rt.alloc()) {
        let line = line?;
        match cases::answer(rt.alloc(), line.as_str()) {
            Ok(answer) => io::writer(&rt).write_all(answer.as_slice())?,
            Err(problem) => io::writer(&rt).write_all(problem.text())?,
        }
        io::writer(&rt).write_all(b"\n")?;
    }
    Ok(())
}
