//! Reading all that a source has, and writing a whole text to a sink.

ghost use Rattle.std.specs.Prelude.{◌≡◌, ℕ, ◌<◌, ◌≤◌, List, [], length, IfOk, IfSome, OnOk, IsErrOf};
ghost use Rattle.std.specs.Io.KnownBytes.{Appends, IsAtEnd};
ghost use Rattle.rv_stream.specs.Ends.{Rose, TookFront, Gave};

use crate::ends::{Sink, Source, WriteError};
use std::alloc::{AllocError, Global};
use thiserror::Error;

/// Why not all of a source was read.
#[derive(Clone, Copy, Debug, PartialEq, Eq, Error)]
pub enum ReadAllError {
    #[error("a read failed")]
    Failed,
    /// The source has more than 16777216 bytes (16 MiB).
    #[error("longer than 16777216 bytes")]
    TooLong,
    #[error("out of memory")]
    OutOfMemory,
}

/// The most bytes that are read: 16 MiB.
const LIMIT: usize = 16777216;

/// How many bytes one read may give: 64 KiB.
const CHUNK: usize = 65536;

// Room for one read.
fn new_chunk(alloc: Global) -> Result<Vec<u8>, AllocError>
    ensures { IfOk result (λ chunk. 0 < length chunk.items) }
{
    Vec::from_elem(alloc, 0u8, CHUNK)
}

// Reads to the end, or until there is too much.
fn read_on<S: Source>(
    source: &mut S,
    chunk: &mut [u8],
    text: &mut Vec<u8>,
) -> Result<(), ReadAllError>
    requires room { 0 < length chunk.old }
    requires fresh { text.old.items ≡ [] }
    ensures all { OnOk result (IfSome (S.left source.old) (λ xs. text.new.items ≡ xs)) }
    ensures end { OnOk result (IsAtEnd (S.left source.new)) }
    ensures short { OnOk result (length text.new.items ≤ 16777216) }
    ensures long { IsErrOf result ReadAllError.TooLong → Gave (λ n. 16777216 < n) (S.left source.old) (S.left source.new) }
    ensures failed { IsErrOf result ReadAllError.Failed → Rose (S.faults source.old) (S.faults source.new) }
    ensures early { IsErrOf result ReadAllError.Failed → Gave (λ n. n ≤ 16777216) (S.left source.old) (S.left source.new) }
{
    'reading: while text.len() <= LIMIT {
        match source.read(chunk) {
            Err(_) => return Err(ReadAllError::Failed),
            Ok(0) => return Ok(()),
            Ok(n) => {
                let kept = text.extend_from_slice(&chunk[..n]);
                match kept {
                    Ok(()) => {}
                    Err(_) => return Err(ReadAllError::OutOfMemory),
                }
            }
        }
    }
    Err(ReadAllError::TooLong)
}

/// All that the source has, to its end, up to 16777216 bytes. It is too long once it gave more of them, whatever comes after; a failure comes before.
pub fn read_all<S: Source>(alloc: Global, source: &mut S) -> Result<Vec<u8>, ReadAllError>
    ensures all { IfOk result (λ text. IfSome (S.left source.old) (λ xs. text.items ≡ xs)) }
    ensures end { OnOk result (IsAtEnd (S.left source.new)) }
    ensures short { IfOk result (λ text. length text.items ≤ 16777216) }
    ensures long { IsErrOf result ReadAllError.TooLong → Gave (λ n. 16777216 < n) (S.left source.old) (S.left source.new) }
    ensures failed { IsErrOf result ReadAllError.Failed → Rose (S.faults source.old) (S.faults source.new) }
    ensures early { IsErrOf result ReadAllError.Failed → Gave (λ n. n ≤ 16777216) (S.left source.old) (S.left source.new) }
{
    let mut text = Vec::new(alloc);
    match new_chunk(alloc) {
        Err(_) => Err(ReadAllError::OutOfMemory),
        Ok(mut chunk) => match read_on(source, &mut chunk, &mut text) {
            Ok(()) => Ok(text),
            Err(error) => Err(error),
        },
    }
}

/// Writes all of the text to the sink. After an error a front of it was taken.
pub fn write_all<K: Sink>(sink: &mut K, text: &[u8]) -> Result<(), WriteError>
    ensures ok { OnOk result (Appends (K.taken sink.old) (K.taken sink.new) text.now) }
    ensures front { TookFront (K.taken sink.old) (K.taken sink.new) text.now }
    ensures failed { IsErrOf result WriteError.Failed → Rose (K.faults sink.old) (K.faults sink.new) }
{
    let mut rest = text;
    'writing: while !rest.is_empty() {
        let n = sink.write(rest)?;
        rest = &rest[n..];
    }
    Ok(())
}
