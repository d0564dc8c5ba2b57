//! `verarun plain TESTBENCH [NETLIST]` runs a testbench and writes its report to standard output; `verarun check ..`
//! only tells whether the files are accepted.
#![tactic(auto)]

use four_state::NoMemory;
use std::process::ExitCode;
use std::rt::{Env, Files};
use std::{env, io};
use testbench_run::{Status, top_plain};
use vera_io::{DirShelf, StreamSink};

/// Ends with the number of the status.
fn main(rt: HostRuntime) -> ExitCode {
    ExitCode::from(run(&rt).number())
}

/// Runs the words that stand after the program's name. Words that aren't text ask for nothing that there is.
fn run<R: Env + Files + Print + AllocGlobal>(rt: &R) -> Status {
    let run = match words(rt) {
        Ok(words) => run_words(rt, words.as_slice()),
        Err(error) if error.kind() == io::ErrorKind::OutOfMemory => Err(NoMemory),
        Err(_) => run_words(rt, &[]),
    };
    match run {
        Ok(status) => status,
        Err(NoMemory) => Status::NoMemory,
    }
}

/// The words after the program's name.
fn words<R: Env + AllocGlobal>(rt: &R) -> io::Result<Vec<String>> {
    let mut words = Vec::new(rt.alloc());
    for word in env::args(rt)?.skip(1) {
        words.push(word)?;
    }
    Ok(words)
}

/// Runs these words on the files below the present folder and on standard output.
fn run_words<R: Files + Print + AllocGlobal>(rt: &R, words: &[String]) -> Result<Status, NoMemory> {
    let mut texts = Vec::new(rt.alloc());
    for word in words {
        texts.push(word.as_str())?;
    }
    let mut shelf = DirShelf::new(rt.alloc(), rt)?;
    let mut out = StreamSink::new(io::writer(rt));
    Ok(top_plain(rt.alloc(), texts.as_slice(), &mut shelf, &mut out))
}
