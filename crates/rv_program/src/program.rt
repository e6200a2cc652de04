//! A program: asks its words, reads all input where they need it, and then writes its answer.

ghost use Rattle.std.specs.Prelude.{◌≡◌, List, ℕ, IfOk, map, string_bytes};
ghost use Rattle.std.specs.Process.{exit_status};
ghost use Rattle.rv_program.specs.declared.ending.Ending.{Ending};
ghost use Rattle.rv_program.specs.declared.answer.Answer.{Answer as Answered};
ghost use Rattle.rv_program.specs.declared.answer.Asked.{Asked as Asks};
ghost use Rattle.rv_program.specs.declared.answer.Asked.TheVariants as asked;
ghost use Rattle.rv_program.specs.Endings.{Call, call, meaning, stream, status_of, AsksJob, Ended, Started};

use crate::answer::{Answer, Asked};
use crate::ending::{Ending, Fault};
use crate::words::{WordsFault, command_words};
use crate::writing::{conclude, fail};
use rv_base::OutOfMemory;
use rv_stream::{ReadAllError, Sink, Source, StdSink, StdSource, read_all};
use std::alloc::Global;
use std::process::ExitCode;

/// What a program makes of its words and of its input.
pub trait Program {
    /// What words ask for that needs the input.
    type Job: Drop;

    /// The name with which the program reports a fault.
    ghost name: { List ℕ };

    /// What words ask for.
    ghost asks: { List (List ℕ) → Asks Self.Job → Type 0 };

    /// What answers a job's input.
    ghost answers: { Self.Job → List ℕ → Answered → Type 0 };

    fn name(&self) -> &'static str
        ensures { result.now ≡ name };

    /// What these words ask for, which are those after the program's name.
    fn ask(&self, alloc: Global, words: &[String]) -> Result<Asked<Self::Job>, OutOfMemory>
        ensures { IfOk result (asks (map string_bytes words.now)) };

    /// The answer to the whole input.
    fn answer(&self, alloc: Global, job: &Self::Job, input: &[u8]) -> Result<Answer, OutOfMemory>
        ensures { IfOk result (answers job.now input.now) };
}

// Answers the whole input, and writes that.
fn run_job<P: Program, S: Source, K: Sink, E: Sink>(
    alloc: Global,
    program: &P,
    job: &P::Job,
    source: &mut S,
    sink: &mut K,
    errors: &mut E,
) -> Ending
    ensures { (words : List (List ℕ)) → P.asks words (asked.Job job.now) → Ended (meaning P.name P.asks P.answers) (call words (stream (S.left source.old) (S.left source.new) (S.faults source.old) (S.faults source.new)) (stream (K.taken sink.old) (K.taken sink.new) (K.faults sink.old) (K.faults sink.new)) (stream (E.taken errors.old) (E.taken errors.new) (E.faults errors.old) (E.faults errors.new))) result }
{
    match read_all(alloc, source) {
        Ok(input) => match program.answer(alloc, job, &input) {
            Ok(answer) => conclude(program.name(), sink, errors, &answer),
            Err(OutOfMemory) => fail(program.name(), errors, Fault::OutOfMemory),
        },
        Err(ReadAllError::Failed) => fail(program.name(), errors, Fault::Read),
        Err(ReadAllError::TooLong) => fail(program.name(), errors, Fault::TooLong),
        Err(ReadAllError::OutOfMemory) => fail(program.name(), errors, Fault::OutOfMemory),
    }
}

/// Does what the words ask for: reads all input where they need it, and then writes the answer, or why there is none.
pub fn run<P: Program, S: Source, K: Sink, E: Sink>(
    alloc: Global,
    program: &P,
    words: &[String],
    source: &mut S,
    sink: &mut K,
    errors: &mut E,
) -> Ending
    ensures ended { Ended (meaning P.name P.asks P.answers) (call (map string_bytes words.now) (stream (S.left source.old) (S.left source.new) (S.faults source.old) (S.faults source.new)) (stream (K.taken sink.old) (K.taken sink.new) (K.faults sink.old) (K.faults sink.new)) (stream (E.taken errors.old) (E.taken errors.new) (E.faults errors.old) (E.faults errors.new))) result }
    ensures unread { ¬ AsksJob (meaning P.name P.asks P.answers) (map string_bytes words.now) → source.new ≡ source.old }
{
    match program.ask(alloc, words) {
        Ok(Asked::Job { job }) => run_job(alloc, program, &job, source, sink, errors),
        Ok(Asked::Done { answer }) => conclude(program.name(), sink, errors, &answer),
        Err(OutOfMemory) => fail(program.name(), errors, Fault::OutOfMemory),
    }
}

// The same call, of whose streams nothing more is known.
fn run_on<P: Program, S: Source, K: Sink, E: Sink>(
    alloc: Global,
    program: &P,
    words: &[String],
    source: &mut S,
    sink: &mut K,
    errors: &mut E,
) -> Ending
    ensures { Started (meaning P.name P.asks P.answers) result }
{
    run(alloc, program, words, source, sink, errors)
}

// The call of the process, without words or with these.
fn call_of<P: Program>(rt: &HostRuntime, program: &P) -> Ending
    ensures { Started (meaning P.name P.asks P.answers) result }
{
    match command_words(rt) {
        Ok(words) => run_on(
            rt.alloc(),
            program,
            &words,
            &mut StdSource::new(rt.stdin()),
            &mut StdSink::new(rt.stdout()),
            &mut StdSink::new(rt.stderr()),
        ),
        Err(fault) => without_words(rt, program.name(), fault),
    }
}

fn without_words(rt: &HostRuntime, name: &str, fault: WordsFault) -> Ending
    ensures { result ≡ Ending.NoWords fault }
{
    let _ = eprintln!(rt; "{name}: {fault}");
    Ending::NoWords { fault }
}

/// The whole of a program, which `main` returns: its call with the words and the streams of the process, and the status of that.
pub fn start<P: Program>(rt: &HostRuntime, program: &P) -> ExitCode
    ensures { (ending : Ending) × Started (meaning P.name P.asks P.answers) ending × (exit_status result ≡ status_of ending) }
{
    call_of(rt, program).exit_code()
}
