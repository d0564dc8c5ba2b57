//! What is written.

use four_state::{NoMemory, Text};
use std::alloc::Global;

#[derive(Drop)]
pub struct Out {
    pub alloc: Global,
    pub text: Vec<u8>,
}

impl Out {
    pub fn new(alloc: Global) -> Out {
        Out {
            alloc,
            text: Vec::new(alloc),
        }
    }

    pub fn put(&mut self, bytes: &[u8]) -> Result<(), NoMemory> {
        self.text.extend_from_slice(bytes)?;
        Ok(())
    }

    /// The name at a place, where there is one.
    pub fn name(&mut self, names: &[Text], place: u32) -> Result<(), NoMemory> {
        match names.get(place as usize) {
            Some(name) => self.put(name.as_slice()),
            None => Ok(()),
        }
    }

    /// Names, each behind a blank.
    pub fn names(&mut self, names: &[Text]) -> Result<(), NoMemory> {
        for name in names {
            self.put(b" ")?;
            self.put(name.as_slice())?;
        }
        Ok(())
    }

    /// Numbers, each behind a blank.
    pub fn numbers(&mut self, numbers: &[u32]) -> Result<(), NoMemory> {
        for number in numbers {
            let digits = format!(in self.alloc; " {number}")?;
            self.put(digits.as_bytes())?;
        }
        Ok(())
    }
}
