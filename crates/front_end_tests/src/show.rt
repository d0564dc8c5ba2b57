//! The text of a tree or of tokens, compact, with the line of each node or token before it.

pub mod coverage;
pub mod declarations;
pub mod expressions;
pub mod items;
pub mod parts;
pub mod statements;
pub mod tokens;

use four_state::{NoMemory, Text};
use std::alloc::Global;

/// What is written.
#[derive(Drop)]
pub struct Out {
    pub alloc: Global,
    pub text: Vec<u8>,
}

impl Out {
    pub fn new(alloc: Global) -> Out {
        Out {
            alloc,
            text: Vec::new(alloc),
        }
    }

    pub fn put(&mut self, bytes: &[u8]) -> Result<(), NoMemory> {
        self.text.extend_from_slice(bytes)?;
        Ok(())
    }

    /// A name.
    pub fn name(&mut self, name: &Text) -> Result<(), NoMemory> {
        self.put(name.as_slice())
    }

    /// A string as a source has it.
    pub fn string(&mut self, text: &Text) -> Result<(), NoMemory> {
        self.put(b"\"")?;
        for byte in text.as_slice() {
            match byte {
                b'\n' => self.put(b"\\n")?,
                b'\t' => self.put(b"\\t")?,
                b'"' => self.put(b"\\\"")?,
                b'\\' => self.put(b"\\\\")?,
                other => self.put(&[*other])?,
            }
        }
        self.put(b"\"")
    }

    pub fn number(&mut self, number: u64) -> Result<(), NoMemory> {
        let digits = format!(in self.alloc; "{number}")?;
        self.put(digits.as_str().as_bytes())
    }

    /// The line of the node that follows.
    pub fn line(&mut self, line: u32) -> Result<(), NoMemory> {
        self.number(u64::from(line))?;
        self.put(b":")
    }
}
