//! What the lines so far have set up, and the answer to the next one.

use crate::problem::Problem;
use crate::{asked, reports};
use four_state::Text;
use std::alloc::Global;
use testbench_run::top_plain;
use vera_io::{MemoryShelf, MemorySink};

/// How many bytes the sink has room for.
const ROOM: usize = 16_000_000;

/// The files of the shelf, and what fails.
#[derive(Drop)]
pub struct Script {
    alloc: Global,
    files: Vec<(Text, Vec<u8>)>,
    shelf_fails: Vec<u64>,
    sink_fails: Vec<u64>,
    step: usize,
}

impl Script {
    pub fn new(alloc: Global) -> Script {
        Script {
            alloc,
            files: Vec::new(alloc),
            shelf_fails: Vec::new(alloc),
            sink_fails: Vec::new(alloc),
            step: ROOM,
        }
    }

    /// What is written for a line of input.
    pub fn answer(&mut self, line: &str) -> Result<Vec<u8>, Problem> {
        let (word, rest) = match line.split_once(' ') {
            Some((word, rest)) => (word, Some(rest)),
            None => (line, None),
        };
        match word {
            "#" => asked::line_of(self.alloc, line),
            ">" => self.run(rest, false),
            "ends" => self.run(rest, true),
            "asks" => asked::request(self.alloc, rest),
            "report" => reports::ended(self.alloc, rest),
            "statuses" => reports::statuses(self.alloc),
            _ => {
                self.set_up(word, rest.unwrap_or(""))?;
                Ok(Vec::new(self.alloc))
            }
        }
    }

    fn set_up(&mut self, word: &str, rest: &str) -> Result<(), Problem> {
        match word {
            "new" => self.clear(),
            "file" => {
                let name = Text::from_slice(self.alloc, rest.as_bytes())?;
                self.files.push((name, Vec::new(self.alloc)))?;
            }
            "|" => {
                self.add(rest)?;
                self.add("\n")?;
            }
            "times" => self.add_times(rest)?,
            "shelf_fails" => self.shelf_fails.push(rest.parse()?)?,
            "sink_fails" => self.sink_fails.push(rest.parse()?)?,
            "step" => self.step = rest.parse()?,
            _ => return Err(Problem::Unsupported),
        }
        Ok(())
    }

    fn clear(&mut self) {
        self.files.clear();
        self.shelf_fails.clear();
        self.sink_fails.clear();
        self.step = ROOM;
    }

    /// Puts a text behind the last file's.
    fn add(&mut self, text: &str) -> Result<(), Problem> {
        match self.files.last_mut() {
            Some((_, bytes)) => Ok(bytes.extend_from_slice(text.as_bytes())?),
            None => Err(Problem::Unsupported),
        }
    }

    fn add_times(&mut self, rest: &str) -> Result<(), Problem> {
        let (count, text) = rest.split_once(' ').ok_or(Problem::Unsupported)?;
        for _ in 0..count.parse::<u32>()? {
            self.add(text)?;
        }
        Ok(())
    }

    /// What the top call does with these words.
    fn run(&self, words: Option<&str>, is_short: bool) -> Result<Vec<u8>, Problem> {
        let words = asked::parted(self.alloc, words)?;
        let mut shelf = self.shelf()?;
        let fails = Vec::from_slice(self.alloc, self.sink_fails.as_slice())?;
        let mut sink = MemorySink::new(self.alloc, ROOM, self.step, fails)?;
        let status = top_plain(self.alloc, words.as_slice(), &mut shelf, &mut sink);
        asked::taken(self.alloc, status, sink.taken(), is_short)
    }

    /// A shelf with a copy of each file.
    fn shelf(&self) -> Result<MemoryShelf, Problem> {
        let mut files = Vec::new(self.alloc);
        for (name, bytes) in self.files.as_slice() {
            files.push((name.copy()?, Vec::from_slice(self.alloc, bytes.as_slice())?))?;
        }
        let fails = Vec::from_slice(self.alloc, self.shelf_fails.as_slice())?;
        Ok(MemoryShelf::new(files, fails))
    }
}
