//! From the words to the answer.
ghost use Rattle.std.specs.Prelude.{◌≡◌, ◌≤◌, ℕ, List, length, map, IfOk, Some, option_map};
ghost use Rattle.run_words.specs.Ranges.{AreTaken};
ghost use Rattle.run_words.specs.Views.{seen_request};
ghost use Rattle.run_words.specs.Words.{request_of};
ghost use Rattle.testbench_run.specs.Answers.{IsDue};
ghost use Rattle.testbench_run.specs.Readings.{IsDueBehind};

use crate::answer::Answer;
use crate::files::files_answer;
use crate::reading::{FILE_LIMIT, FileRead, read_file};
use crate::refusals::words_refusal;
use four_state::NoMemory;
use run_rules::Limits;
use run_words::{Mode, Request, read_words};
use std::alloc::Global;
use vera_io::Shelf;

/// The answer to the words: they are looked at first, then the files are read, and then the testbench is run.
pub fn answer_to<S: Shelf>(alloc: Global, words: &[&str], shelf: &mut S) -> Result<Answer, NoMemory>
    ensures due { IfOk result (IsDue (request_of (map (λ word. word.now) words.now)) (S.bytes_of shelf.old) (S.faults_of shelf.old) (S.faults_of shelf.new)) }
    ensures counts { (name : List ℕ) → S.faults_of shelf.old name ≤ S.faults_of shelf.new name }
{
    match read_words(words) {
        None => words_refusal(alloc),
        Some(request) => request_answer(alloc, &request, shelf),
    }
}

/// The answer to what is asked for: the testbench is read before the netlist.
fn request_answer<S: Shelf>(
    alloc: Global,
    request: &Request<'_>,
    shelf: &mut S,
) -> Result<Answer, NoMemory>
    requires { AreTaken request.now.limits }
    ensures due { IfOk result (IsDue (Some (seen_request request.now)) (S.bytes_of shelf.old) (S.faults_of shelf.old) (S.faults_of shelf.new)) }
    ensures counts { (name : List ℕ) → S.faults_of shelf.old name ≤ S.faults_of shelf.new name }
{
    match read_file(alloc, shelf, request.testbench, b"testbench")? {
        FileRead::Refused(answer) => Ok(answer),
        FileRead::Bytes(source) => {
            behind_testbench(
                alloc,
                request.mode,
                request.limits,
                source.as_slice(),
                request.netlist,
                shelf,
            )
        }
    }
}

/// The answer behind a testbench of these bytes: the netlist is read, where one is named.
fn behind_testbench<S: Shelf>(
    alloc: Global,
    mode: Mode,
    limits: Limits,
    source: &[u8],
    netlist: Option<&str>,
    shelf: &mut S,
) -> Result<Answer, NoMemory>
    requires limits { AreTaken limits }
    requires source { length source.now ≤ FILE_LIMIT }
    ensures due { IfOk result (IsDueBehind (option_map (λ name. name.now) netlist.entry) mode limits source.now (S.bytes_of shelf.old) (S.faults_of shelf.old) (S.faults_of shelf.new)) }
    ensures counts { (name : List ℕ) → S.faults_of shelf.old name ≤ S.faults_of shelf.new name }
{
    match netlist {
        None => files_answer(alloc, mode, limits, source, None),
        Some(name) => match read_file(alloc, shelf, name, b"netlist")? {
            FileRead::Refused(answer) => Ok(answer),
            FileRead::Bytes(netlist) => {
                files_answer(alloc, mode, limits, source, Some(netlist.as_slice()))
            }
        },
    }
}
