//! Reading the files that are asked for.
ghost use Rattle.std.specs.Prelude.{◌≡◌, ◌≤◌, ℕ, List, IfOk};
ghost use Rattle.testbench_run.specs.Readings.{IsFileRead};

use crate::answer::Answer;
use crate::refusals::{long_refusal, read_refusal};
use four_state::NoMemory;
use std::alloc::Global;
use vera_io::{ReadAll, Shelf, read_all};

/// How many bytes a file may have.
pub const FILE_LIMIT: u64 = 4_194_304;

/// What the reading of a file gave.
#[derive(Drop)]
pub enum FileRead {
    /// Its bytes, which are not too many.
    Bytes(Vec<u8>),
    /// The answer that is due in their place.
    Refused(Answer),
}

/// Reads the file of this name. `file` is what it is for, as answers name it: `testbench` or `netlist`.
pub fn read_file<S: Shelf>(
    alloc: Global,
    shelf: &mut S,
    name: &str,
    file: &[u8],
) -> Result<FileRead, NoMemory>
    ensures read { IfOk result (IsFileRead name.now file.now (S.bytes_of shelf.old) (S.faults_of shelf.old) (S.faults_of shelf.new)) }
    // What a shelf holds, and whether it tells it, stays; a count never falls.
    ensures kept { (other : List ℕ) → S.bytes_of shelf.new other ≡ S.bytes_of shelf.old other }
    ensures counts { (other : List ℕ) → S.faults_of shelf.old other ≤ S.faults_of shelf.new other }
{
    match read_all(alloc, shelf, name.as_bytes(), FILE_LIMIT) {
        Ok(bytes) => Ok(FileRead::Bytes(bytes)),
        Err(ReadAll::Failed) => Ok(FileRead::Refused(read_refusal(alloc, file)?)),
        Err(ReadAll::TooLong) => Ok(FileRead::Refused(long_refusal(alloc, file)?)),
        Err(ReadAll::NoMemory) => Err(NoMemory),
    }
}
