ghost use Rattle.std.specs.Prelude.{◌≡◌, ℕ, List, Some, None, map};
ghost use Rattle.vera_io.specs.Faults.{Rose};
ghost use Rattle.run_words.specs.Words.{Request, request_of};
ghost use Rattle.testbench_run.specs.Answers.{IsAnswer, ReadBytes};
ghost use Rattle.testbench_run.specs.Refusals.{words_answer};
ghost use Rattle.testbench_run.specs.Top.{Tells, WritesWhole, ReadingRose, FileRose, TellsFiles};

use crate::answering::answer_to;
use run_rules::Status;
use std::alloc::Global;
use vera_io::{Shelf, Sink, write_all};

/// Does what the words ask for: it reads the testbench and, where one is named, the netlist from the shelf, checks the
/// testbench or runs it against the netlist, and writes `accepted` or the report, or the line that says why there is
/// none, to the sink.
///
/// Steps go in this order, and the first that refuses is told. Words that ask for nothing give `Words`. A file that
/// can't be read gives `ReadFault`, and one of more than 4,194,304 bytes `TooLong`: the testbench is read before the
/// netlist, and both before anything is said of what they hold. A testbench that is refused (E01 to E90) gives
/// `Source`; a netlist that is refused (N01 to N09), or has a ring of nets (N10), `Netlist`; a signal that doesn't link
/// to the netlist `Link`, where a check without a netlist doesn't link. A run that ends by a fault gives `Fault`, one
/// whose budget of ticks or of slices is spent `Spent`, and another one, and a check, `Passed`. A sink that fails gives `WriteFault` in place of each of these, and has taken a front of the
/// text; want of memory gives `NoMemory`, and nothing is written.
pub fn top_plain<S: Shelf, K: Sink>(
    alloc: Global,
    words: &[&str],
    shelf: &mut S,
    out: &mut K,
) -> Status
    // The status and what was taken are those of an answer that is due, or the sink failed, or memory was wanting.
    ensures told { Tells (request_of (map (λ word. word.now) words.now)) (S.bytes_of shelf.old) (S.faults_of shelf.old) (S.faults_of shelf.new)
        (K.faults out.old) (K.faults out.new) (K.bytes_taken out.old) (K.bytes_taken out.new) result }

    // Each refusal has its cause in this call.
    ensures words { result ≡ Status.Words → request_of (map (λ word. word.now) words.now) ≡ None }
    ensures read_fault { result ≡ Status.ReadFault → ReadingRose (request_of (map (λ word. word.now) words.now)) (S.faults_of shelf.old) (S.faults_of shelf.new) }
    ensures write_fault { result ≡ Status.WriteFault → Rose (K.faults out.old) (K.faults out.new) }
    ensures no_memory { result ≡ Status.NoMemory → K.bytes_taken out.new ≡ K.bytes_taken out.old }

    // Where no count rose, the answer is written whole, or memory was wanting.
    ensures other_words { request_of (map (λ word. word.now) words.now) ≡ None → ¬ (Rose (K.faults out.old) (K.faults out.new))
        → WritesWhole (λ answer. answer ≡ words_answer) (K.bytes_taken out.old) (K.bytes_taken out.new) result }
    ensures complete { (request : Request) (source netlist : List ℕ) → request_of (map (λ word. word.now) words.now) ≡ Some request
        → TellsFiles request (S.bytes_of shelf.old) source netlist → ¬ (FileRose request (S.faults_of shelf.old) (S.faults_of shelf.new))
        → ¬ (Rose (K.faults out.old) (K.faults out.new))
        → WritesWhole (IsAnswer (Some request) (ReadBytes source) (ReadBytes netlist)) (K.bytes_taken out.old) (K.bytes_taken out.new) result }
{
    match answer_to(alloc, words, shelf) {
        Err(_) => Status::NoMemory,
        Ok(answer) => match write_all(out, answer.text.as_slice()) {
            Ok(()) => answer.status,
            Err(_) => Status::WriteFault,
        },
    }
}
