ghost use Rattle.std.specs.Prelude.{◌≡◌, ◌-◌, length, drop, min, is_ok, IfOk, IfSome, OnErr};
ghost use Rattle.std.specs.List.{find};
ghost use Rattle.std.specs.Option.{option_copied};
ghost use Rattle.std.specs.Str.{bytes_eq};
ghost use Rattle.vera_io.specs.Faults.{capped-fits};
ghost use Rattle.vera_io.specs.Shelf.{ReadsFrom};
ghost use Rattle.vera_io.specs.MemoryShelf.{file_of, contents_of};

use crate::{Shelf, ShelfFailed};
use four_state::Text;
use std::marker::Model;

/// Files in memory, which can be told to fail: for tests, and for whoever has the bytes already.
#[derive(Debug, Drop)]
pub struct MemoryShelf {
    files: Vec<(Text, Vec<u8>)>,
    failing: Vec<u64>,
    calls: u64,
    found_faults: u64,
    missing_faults: u64,
}

impl Model for MemoryShelf {
    ghost use Rattle.vera_io.specs.MemoryShelf.{ShelfState, contents_of};

    ghost Value = { ShelfState };

    ghost view = { λ s. record {
      files = contents_of s.files.items;
      failing = s.failing.items;
      calls = s.calls;
      found_faults = s.found_faults;
      missing_faults = s.missing_faults;
    } };
}

impl MemoryShelf {
    /// A shelf with these files, by their names; of two equal names the first counts. Calls are counted
    /// from 1, and those whose numbers are in `failing` fail.
    pub fn new(files: Vec<(Text, Vec<u8>)>, failing: Vec<u64>) -> MemoryShelf
        ensures { result ≡ record {
          files = contents_of files.items;
          failing = failing.items;
          calls = 0;
          found_faults = 0;
          missing_faults = 0;
        } }
    {
        MemoryShelf {
            files,
            failing,
            calls: 0,
            found_faults: 0,
            missing_faults: 0,
        }
    }
}

impl Shelf for MemoryShelf {
    ghost use Rattle.vera_io.specs.MemoryShelf.{fault_count, can_read, after_call};

    ghost bytes_of = { λ shelf name. file_of shelf.files name };

    ghost faults_of = { fault_count };

    ghost counts_fit = { λ shelf name. capped-fits _ };

    /// Reads as every shelf does. It fails exactly where the call's number is among the failing ones or the
    /// name has no file, and leaves the buffer as it was then.
    fn read_at(&mut self, name: &[u8], at: u64, buf: &mut [u8]) -> Result<usize, ShelfFailed>
        ensures ok { is_ok result ≡ can_read self.old name.now }
        ensures after { self.new ≡ after_call self.old name.now }
        ensures count { IfOk result (λ n.
            IfSome (file_of self.old.files name.now) (λ file. n ≡ min (length buf.old) (length file - at))) }
        ensures read { IfOk result (λ n.
            IfSome (file_of self.old.files name.now) (λ file. ReadsFrom file at n buf.new)) }
        ensures rest { IfOk result (λ n. drop n buf.new ≡ drop n buf.old) }
        ensures untouched { OnErr result (buf.new ≡ buf.old) }
    {
        self.calls = self.calls.saturating_add(1);
        if self.failing.contains(&self.calls) {
            self.found_faults = self.found_faults.saturating_add(1);
            self.missing_faults = self.missing_faults.saturating_add(1);
            return Err(ShelfFailed);
        }
        match bytes_of(&self.files, name) {
            Some(file) => Ok(copy_from(file, at, buf)),
            None => {
                self.missing_faults = self.missing_faults.saturating_add(1);
                Err(ShelfFailed)
            }
        }
    }
}

/// The bytes of the first file of this name.
#[tactic(auto, using(crate::proofs::Contents::file_of_pairs))]
fn bytes_of<'a>(files: &'a [(Text, Vec<u8>)], name: &[u8]) -> Option<&'a [u8]>
    ensures { option_copied result ≡ file_of (contents_of files.now) name.now }
{
    let file = find_file(files, name)?;
    Some(file.1.as_slice())
}

/// The first file of this name.
fn find_file<'a>(files: &'a [(Text, Vec<u8>)], name: &[u8]) -> Option<&'a (Text, Vec<u8>)>
    ensures { option_copied result ≡ find (λ file. bytes_eq file.0 name.now) files.now }
{
    files.iter().find(|file| file.0.as_slice() == name)
}

/// Copies bytes of the file from a place on into the front of the buffer, and gives how many.
fn copy_from(file: &[u8], at: u64, buf: &mut [u8]) -> usize
    ensures count { result ≡ min (length buf.old) (length file.now - at) }
    ensures read { ReadsFrom file.now at result buf.new }
    ensures rest { drop result buf.new ≡ drop result buf.old }
{
    let start = at.min(file.len() as u64) as usize;
    let rest = &file[start..];
    let count = rest.len().min(buf.len());
    buf[..count].copy_from_slice(&rest[..count]);
    count
}
