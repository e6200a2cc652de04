//! What a call writes, and how it ends by that.

ghost use Rattle.std.specs.Prelude.{◌≡◌, ℕ, ◌≤◌, ◌++◌, List, Option, OnOk, IsErrOf};
ghost use Rattle.std.specs.Io.KnownBytes.{Appends};
ghost use Rattle.rv_stream.specs.Ends.{Rose, TookFront};
ghost use Rattle.rv_program.specs.Endings.{stream, fault_text, ending_of, ending_of_fault, Writes, Tells, Concludes};

use crate::answer::Answer;
use crate::ending::{Ending, Fault, fault_text};
use rv_stream::{Sink, WriteError};

// Writes a text, and counts what failed.
fn write<K: Sink>(sink: &mut K, text: &[u8]) -> Result<(), WriteError>
    ensures all { OnOk result (Appends (K.taken sink.old) (K.taken sink.new) text.now) }
    ensures front { TookFront (K.taken sink.old) (K.taken sink.new) text.now }
    ensures failed { IsErrOf result WriteError.Failed → Rose (K.faults sink.old) (K.faults sink.new) }
    ensures later { K.faults sink.old ≤ K.faults sink.new }
{
    let mut rest = text;
    'writing: while !rest.is_empty() {
        let n = sink.write(rest)?;
        rest = &rest[n..];
    }
    Ok(())
}

// Writes a text after another that was written so, or was not.
fn write_on<K: Sink>(
    sink: &mut K,
    first: Result<(), WriteError>,
    text: &[u8],
) -> Result<(), WriteError>
    ensures { (before : Option (List ℕ)) (faults : ℕ) (xs : List ℕ) → Writes (stream before (K.taken sink.old) faults (K.faults sink.old)) xs first → Writes (stream before (K.taken sink.new) faults (K.faults sink.new)) (xs ++ text.now) result }
{
    match first {
        Ok(()) => write(sink, text),
        Err(error) => Err(error),
    }
}

// Writes why there is no more, after notes that were written so.
fn write_fault<E: Sink>(
    name: &str,
    errors: &mut E,
    noted: Result<(), WriteError>,
    fault: Fault,
) -> Result<(), WriteError>
    ensures { (before : Option (List ℕ)) (faults : ℕ) (notes : List ℕ) → Writes (stream before (E.taken errors.old) faults (E.faults errors.old)) notes noted → Writes (stream before (E.taken errors.new) faults (E.faults errors.new)) (notes ++ (name.now ++ fault_text fault)) result }
{
    let named = write_on(errors, noted, name.as_bytes());
    write_on(errors, named, fault_text(fault).as_bytes())
}

fn ending_of_fault(fault: Fault) -> Ending
    ensures { result ≡ ending_of_fault fault }
{
    match fault {
        Fault::Read => Ending::ReadFault,
        Fault::Write => Ending::WriteFault,
        Fault::TooLong => Ending::TooLong,
        Fault::OutOfMemory => Ending::OutOfMemory,
    }
}

/// Writes why there is no output, and returns how the call ends.
pub(crate) fn fail<E: Sink>(name: &str, errors: &mut E, fault: Fault) -> Ending
    ensures ending { result ≡ ending_of_fault fault }
    ensures says { TookFront (E.taken errors.old) (E.taken errors.new) (name.now ++ fault_text fault) }
{
    let named = write(errors, name.as_bytes());
    let _ = write_on(errors, named, fault_text(fault).as_bytes());
    ending_of_fault(fault)
}

// How a call ends whose output was written, by how what is said of it was.
fn ending_of(told: Result<(), WriteError>, status: u8) -> Ending
    ensures { result ≡ ending_of told status }
{
    match told {
        Ok(()) => Ending::Answered { status },
        Err(WriteError::Failed) if status == 0 => Ending::WriteFault,
        Err(WriteError::Failed) => Ending::Answered { status },
        Err(WriteError::OutOfMemory) if status == 0 => Ending::OutOfMemory,
        Err(WriteError::OutOfMemory) => Ending::Answered { status },
    }
}

// Writes what is left to say of an answer whose output was written, after notes that were written so.
fn tell<E: Sink>(errors: &mut E, noted: Result<(), WriteError>, answer: &Answer) -> Ending
    ensures { (before : Option (List ℕ)) (faults : ℕ) → Writes (stream before (E.taken errors.old) faults (E.faults errors.old)) answer.now.notes noted → Tells answer.now (stream before (E.taken errors.new) faults (E.faults errors.new)) result }
{
    let told = write_on(errors, noted, answer.error.as_slice());
    ending_of(told, answer.status)
}

/// Writes an answer, and returns how the call ends.
pub(crate) fn conclude<K: Sink, E: Sink>(
    name: &str,
    sink: &mut K,
    errors: &mut E,
    answer: &Answer,
) -> Ending
    ensures { Concludes name.now answer.now (stream (K.taken sink.old) (K.taken sink.new) (K.faults sink.old) (K.faults sink.new)) (stream (E.taken errors.old) (E.taken errors.new) (E.faults errors.old) (E.faults errors.new)) result }
{
    let noted = write(errors, answer.notes.as_slice());
    match write(sink, answer.output.as_slice()) {
        Ok(()) => tell(errors, noted, answer),
        Err(WriteError::Failed) => {
            let _ = write_fault(name, errors, noted, Fault::Write);
            Ending::WriteFault
        }
        Err(WriteError::OutOfMemory) => {
            let _ = write_fault(name, errors, noted, Fault::OutOfMemory);
            Ending::OutOfMemory
        }
    }
}
