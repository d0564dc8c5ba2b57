ghost use Rattle.std.specs.Prelude.{◌≡◌, ℕ, ◌+◌, ◌<◌, List, [], ◌∷◌, ◌++◌, length, IfOk, OnOk, None, IfSome, position, ◌==◌};
ghost use Rattle.std.specs.Option.{option_to_list, is_some};
ghost use Rattle.blif_read.specs.Lines.{is_blank, is_newline, is_continued, without_last, without_return, before_comment, cleaned, words, line_of_words, line_of, net_lines};

use four_state::{List, NoMemory, Text};
use std::alloc::Global;

/// A joined line that has a word, by the number of its first line in the file.
#[derive(Debug, Drop)]
pub struct Line {
    pub number: u32,
    pub first: Text,
    pub rest: List<Text>,
}

fn is_blank(byte: u8) -> bool
    ensures { result ≡ is_blank byte }
{
    byte == b'\t' || byte == b'\n' || byte == b'\r' || byte == b' '
}

fn is_newline(byte: u8) -> bool
    ensures { result ≡ is_newline byte }
{
    byte == b'\n'
}

fn without_return(line: &[u8]) -> &[u8]
    ensures { result.now ≡ without_return line.now }
{
    match line {
        [front @ .., b'\r'] => front,
        _ => line,
    }
}

/// Where the comment begins, where there is one.
fn comment_place(line: &[u8]) -> Option<usize>
    ensures { result ≡ position (λ b. b == 35) line.now }
{
    line.iter().position(|byte| *byte == b'#')
}

fn before_comment(line: &[u8]) -> &[u8]
    ensures { result.now ≡ before_comment line.now }
{
    match comment_place(line) {
        Some(comment) => &line[..comment],
        None => line,
    }
}

#[tactic(auto, unfolding(crate::specs::Lines::cleaned))]
fn cleaned(line: &[u8]) -> &[u8]
    ensures { result.now ≡ cleaned line.now }
{
    before_comment(without_return(line))
}

/// What stands before the backslash at the end of a line that the next one belongs to.
fn continued(line: &[u8]) -> Option<&[u8]>
    ensures front { IfSome result (λ front. front.now ≡ without_last line.now) }
    ensures ends { is_some result ≡ is_continued line.now }
{
    match line {
        [front @ .., b'\\'] => Some(front),
        _ => None,
    }
}

/// What stands between blanks.
fn words(alloc: Global, text: &[u8]) -> Result<Vec<Text>, NoMemory>
    ensures { IfOk result (λ found. found.items ≡ words text.now) }
{
    let mut found = Vec::new(alloc);
    for word in text.split(|byte| is_blank(*byte)) {
        if !word.is_empty() {
            found.push(Text::from_slice(alloc, word)?)?;
        }
    }
    Ok(found)
}

/// The line of these words, where there is one.
fn line_of_words(number: u32, mut words: Vec<Text>) -> Option<Line>
    ensures { result ≡ line_of_words number words.items }
{
    if words.is_empty() {
        return None;
    }
    let first = words.remove(0);
    Some(Line {
        number,
        first,
        rest: List::of(words),
    })
}

/// The line of the words of this text, where it has one.
#[tactic(auto, unfolding(crate::specs::Lines::line_of))]
fn line_of(alloc: Global, number: u32, text: &[u8]) -> Result<Option<Line>, NoMemory>
    ensures { IfOk result (λ line. line ≡ line_of (number, text.now)) }
{
    Ok(line_of_words(number, words(alloc, text)?))
}

/// The joined lines so far, and the one that the next line belongs to.
#[derive(Drop)]
struct Joiner {
    lines: Vec<Line>,
    /// What the open line has so far.
    text: Vec<u8>,
    /// The number of the open line's first line.
    begun: Option<u32>,
    /// The number of the last line.
    number: u32,
}

impl Joiner {
    ghost use Rattle.blif_read.specs.Joining.{gathered, IsTidy, Joins};

    fn new(alloc: Global) -> Joiner
        ensures lines { result.lines.items ≡ [] }
        ensures text { result.text.items ≡ [] }
        ensures begun { result.begun ≡ None }
        ensures number { result.number ≡ 0 }
    {
        Joiner {
            lines: Vec::new(alloc),
            text: Vec::new(alloc),
            begun: None,
            number: 0,
        }
    }

    /// Ends the open line, whose first line has this number.
    fn close(&mut self, alloc: Global, first: u32) -> Result<(), NoMemory>
        ensures lines { OnOk result (self.new.lines.items ≡ self.old.lines.items ++ option_to_list (line_of (first, self.old.text.items))) }
        ensures text { OnOk result (self.new.text.items ≡ []) }
        ensures begun { OnOk result (self.new.begun ≡ None) }
        ensures number { OnOk result (self.new.number ≡ self.old.number) }
    {
        if let Some(line) = line_of(alloc, first, self.text.as_slice())? {
            self.lines.push(line)?;
        }
        self.text.clear();
        self.begun = None;
        Ok(())
    }

    /// Takes one more line, without its comment.
    fn add(&mut self, alloc: Global, line: &[u8]) -> Result<(), NoMemory>
        requires tidy { IsTidy self.old }
        requires fits { self.old.number + 1 < 4294967296 }
        ensures { OnOk result (Joins self.old self.new line.now) }
    {
        self.number += 1;
        let first = self.begun.unwrap_or(self.number);
        match continued(line) {
            Some(front) => {
                self.text.extend_from_slice(front)?;
                self.begun = Some(first);
                Ok(())
            }
            None => {
                self.text.extend_from_slice(line)?;
                self.close(alloc, first)?;
                Ok(())
            }
        }
    }

    /// Ends the last line, and gives all of them.
    fn finish(mut self, alloc: Global) -> Result<Vec<Line>, NoMemory>
        requires { IsTidy self }
        ensures { IfOk result (λ lines. lines.items ≡ gathered self []) }
    {
        if let Some(first) = self.begun {
            self.close(alloc, first)?;
        }
        Ok(self.lines)
    }
}

/// The joined lines of a netlist that have a word.
pub fn net_lines(alloc: Global, bytes: &[u8]) -> Result<Vec<Line>, NoMemory>
    requires { length bytes.now < 4294967295 }
    ensures { IfOk result (λ lines. lines.items ≡ net_lines bytes.now) }
{
    let mut joiner = Joiner::new(alloc);
    for line in bytes.split(|byte| is_newline(*byte)) {
        joiner.add(alloc, cleaned(line))?;
    }
    joiner.finish(alloc)
}
