//! The program's call: reads its words and what they ask for, builds the whole text, then writes.

ghost use Rattle.std.specs.Prelude.{◌≡◌, List, ℕ, Some, map, string_bytes};
ghost use Rattle.rv_command.specs.declared.words.Request.TheVariants.{Listing, Generated};
ghost use Rattle.rv_command.specs.Words.{asked};
ghost use Rattle.rv_command.specs.Outcomes.{call, AsksNoListing, Ended, IsSettled, RunsFully, Writes};

use crate::answer::{Answer, answer_of_input, answer_of_job, too_long, usage};
use crate::outcome::{Ending, Outcome};
use crate::words::{Request, WordsError, read_words};
use rv_base::OutOfMemory;
use rv_gen::gen_job;
use rv_stream::{ReadAllError, Sink, Source, WriteError, read_all, write_all};
use std::alloc::Global;

/// An outcome of which nothing more is said.
fn unexplained(outcome: Outcome) -> Ending
    ensures { result.outcome ≡ outcome }
{
    Ending {
        outcome,
        note: None,
    }
}

/// Writes the text of an answer, and returns how the call ends.
fn write_answer<K: Sink>(sink: &mut K, answer: Result<Answer, OutOfMemory>) -> Ending
    ensures { Writes answer (K.taken sink.old) (K.taken sink.new) (K.faults sink.old) (K.faults sink.new) result.outcome }
{
    let Ok(answer) = answer else {
        return unexplained(Outcome::OutOfMemory);
    };
    match write_all(sink, answer.text.as_slice()) {
        Ok(()) => Ending {
            outcome: answer.outcome,
            note: answer.note,
        },
        Err(WriteError::Failed) => unexplained(Outcome::WriteFault),
        Err(WriteError::OutOfMemory) => unexplained(Outcome::OutOfMemory),
    }
}

fn outcome_of_number<K: Sink>(alloc: Global, number: u64, sink: &mut K) -> Ending
    ensures { (words : List (List ℕ)) (left : _) (faults : ℕ) → asked words ≡ Some (Generated number) → Ended (call words left left faults faults (K.taken sink.old) (K.taken sink.new) (K.faults sink.old) (K.faults sink.new)) result.outcome }
{
    match gen_job(alloc, number) {
        Ok(job) => write_answer(
            sink,
            answer_of_job(alloc, Request::Generated { number }, job, None),
        ),
        Err(OutOfMemory) => unexplained(Outcome::OutOfMemory),
    }
}

fn outcome_of_listing<S: Source, K: Sink>(
    alloc: Global,
    texts: bool,
    source: &mut S,
    sink: &mut K,
) -> Ending
    ensures { (words : List (List ℕ)) → asked words ≡ Some (Listing texts) → Ended (call words (S.left source.old) (S.left source.new) (S.faults source.old) (S.faults source.new) (K.taken sink.old) (K.taken sink.new) (K.faults sink.old) (K.faults sink.new)) result.outcome }
{
    match read_all(alloc, source) {
        Ok(input) => write_answer(
            sink,
            answer_of_input(alloc, Request::Listing { texts }, input),
        ),
        Err(ReadAllError::Failed) => unexplained(Outcome::ReadFault),
        Err(ReadAllError::TooLong) => write_answer(sink, too_long(alloc)),
        Err(ReadAllError::OutOfMemory) => unexplained(Outcome::OutOfMemory),
    }
}

fn outcome_of_call<S: Source, K: Sink>(
    alloc: Global,
    words: &[String],
    source: &mut S,
    sink: &mut K,
) -> Ending
    ensures ended { Ended (call (map string_bytes words.now) (S.left source.old) (S.left source.new) (S.faults source.old) (S.faults source.new) (K.taken sink.old) (K.taken sink.new) (K.faults sink.old) (K.faults sink.new)) result.outcome }
    ensures unread { AsksNoListing (asked (map string_bytes words.now)) → source.new ≡ source.old }
{
    match read_words(alloc, words) {
        Ok(Request::Listing { texts }) => outcome_of_listing(alloc, texts, source, sink),
        Ok(Request::Generated { number }) => outcome_of_number(alloc, number, sink),
        Err(WordsError::Usage) => write_answer(sink, usage(alloc)),
        Err(WordsError::OutOfMemory) => unexplained(Outcome::OutOfMemory),
    }
}

/// Does what `run` does, and says what to mend where there is no report: the line of the text, its words and why.
pub fn run_explained<S: Source, K: Sink>(
    alloc: Global,
    words: &[String],
    source: &mut S,
    sink: &mut K,
) -> Ending
    ensures ended { Ended (call (map string_bytes words.now) (S.left source.old) (S.left source.new) (S.faults source.old) (S.faults source.new) (K.taken sink.old) (K.taken sink.new) (K.faults sink.old) (K.faults sink.new)) result.outcome }
    ensures unread { AsksNoListing (asked (map string_bytes words.now)) → source.new ≡ source.old }
    ensures full_runs { RunsFully (call (map string_bytes words.now) (S.left source.old) (S.left source.new) (S.faults source.old) (S.faults source.new) (K.taken sink.old) (K.taken sink.new) (K.faults sink.old) (K.faults sink.new)) result.outcome }
    ensures settled { IsSettled (call (map string_bytes words.now) (S.left source.old) (S.left source.new) (S.faults source.old) (S.faults source.new) (K.taken sink.old) (K.taken sink.new) (K.faults sink.old) (K.faults sink.new)) result.outcome }
{
    outcome_of_call(alloc, words, source, sink)
}

/// Reads a listing, assembles it, and writes its report, or one line that says why there is none; or what else the words ask for, which
/// are those after the program's name: with `--text` the report has the texts of the instructions, too, and with `--gen N` the summary of
/// the generated job N is written, and nothing is read.
pub fn run<S: Source, K: Sink>(
    alloc: Global,
    words: &[String],
    source: &mut S,
    sink: &mut K,
) -> Outcome
    ensures ended { Ended (call (map string_bytes words.now) (S.left source.old) (S.left source.new) (S.faults source.old) (S.faults source.new) (K.taken sink.old) (K.taken sink.new) (K.faults sink.old) (K.faults sink.new)) result }
    ensures unread { AsksNoListing (asked (map string_bytes words.now)) → source.new ≡ source.old }
    ensures full_runs { RunsFully (call (map string_bytes words.now) (S.left source.old) (S.left source.new) (S.faults source.old) (S.faults source.new) (K.taken sink.old) (K.taken sink.new) (K.faults sink.old) (K.faults sink.new)) result }
    ensures settled { IsSettled (call (map string_bytes words.now) (S.left source.old) (S.left source.new) (S.faults source.old) (S.faults source.new) (K.taken sink.old) (K.taken sink.new) (K.faults sink.old) (K.faults sink.new)) result }
{
    let Ending { outcome, note: _ } = run_explained(alloc, words, source, sink);
    outcome
}
