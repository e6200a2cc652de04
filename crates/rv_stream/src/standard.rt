//! A reader and a writer of std as a source and a sink. Of standard input and output no bytes are known.

ghost use Rattle.std.specs.Prelude.{◌≡◌, ℕ, ◌<◌, ◌≤◌, List, Option, None, IfOk, IsErr, IsErrOf, is_err, length};
ghost use Rattle.std.specs.Io.KnownBytes.{ReadConsumes, WriteAppends};
ghost use Rattle.rv_stream.specs.Ends.{Counts, counted};
ghost use Rattle.rv_stream.specs.Standard.{Counted, fresh};

use crate::ends::{Failed, Sink, Source, WriteError};
use std::io::{Read, Write};
use std::marker::Model;

/// A reader, as standard input, and how many of its reads failed, up to 2^64 - 1.
#[derive(Drop)]
pub struct StdSource<R: Read> {
    input: R,
    faults: u64,
}

impl<R: Read> Model for StdSource<R> {
    ghost Value = { Counted };

    ghost view = { λ s. record { bytes = R.remaining s.input; faults = s.faults } };

    ghost invariant = { λ s. s.faults < 18446744073709551616 };
}

impl<R: Read> StdSource<R> {
    pub fn new(input: R) -> StdSource<R>
        ensures { result ≡ fresh (R.remaining input) }
    {
        StdSource { input, faults: 0 }
    }
}

impl<R: Read> Source for StdSource<R> {
    ghost left = { λ s. s.bytes };

    ghost faults = { λ s. s.faults };

    fn read(&mut self, buf: &mut [u8]) -> Result<usize, Failed>
        requires { 0 < length buf.old }
        ensures bound { IfOk result (λ n. n ≤ length buf.new) }
        ensures bytes { ReadConsumes self.old.bytes self.new.bytes result buf.new }
        ensures count { Counts self.old.faults self.new.faults (IsErr result) }
        ensures exact { self.new.faults ≡ counted self.old.faults (is_err result) }
    {
        let faults = self.faults;
        match self.input.read(buf) {
            Ok(n) => Ok(n),
            Err(_) => {
                self.faults = faults.saturating_add(1);
                Err(Failed)
            }
        }
    }
}

/// A writer, as standard output, and how many of its writes failed, up to 2^64 - 1; a write that takes nothing has
/// failed.
#[derive(Drop)]
pub struct StdSink<W: Write> {
    output: W,
    faults: u64,
}

impl<W: Write> Model for StdSink<W> {
    ghost Value = { Counted };

    ghost view = { λ s. record { bytes = W.contents s.output; faults = s.faults } };

    ghost invariant = { λ s. s.faults < 18446744073709551616 };
}

impl<W: Write> StdSink<W> {
    pub fn new(output: W) -> StdSink<W>
        ensures { result ≡ fresh (W.contents output) }
    {
        StdSink { output, faults: 0 }
    }
}

impl<W: Write> Sink for StdSink<W> {
    ghost taken = { λ s. s.bytes };

    ghost faults = { λ s. s.faults };

    fn write(&mut self, piece: &[u8]) -> Result<usize, WriteError>
        requires { 0 < length piece.now }
        ensures some { IfOk result (λ n. 0 < n) }
        ensures bound { IfOk result (λ n. n ≤ length piece.now) }
        ensures bytes { WriteAppends self.old.bytes self.new.bytes result piece.now }
        ensures count { Counts self.old.faults self.new.faults (IsErrOf result WriteError.Failed) }
        ensures exact { self.new.faults ≡ counted self.old.faults (is_err result) }
    {
        let faults = self.faults;
        match self.output.write(piece) {
            Ok(n) if 0 < n => Ok(n),
            _ => {
                self.faults = faults.saturating_add(1);
                Err(WriteError::Failed)
            }
        }
    }
}
