//! Sources and sinks in memory: some without a fault, some whose calls move few bytes at a time and fail by number.

ghost use Rattle.std.specs.Prelude.{◌≡◌, ℕ, ◌<◌, ◌≤◌, [], List, Some, IfOk, IsErr, IsErrOf, length};
ghost use Rattle.std.specs.Io.KnownBytes.{ReadConsumes, WriteAppends};
ghost use Rattle.rv_stream.specs.Ends.{Counts};
ghost use Rattle.rv_stream.specs.InMemory.{Metered, start, Gives, TakesIn};

use crate::ends::{Failed, Sink, Source, WriteError};
use std::alloc::Global;
use std::marker::Model;

/// Bytes that are read without a fault.
#[derive(Drop)]
pub struct SureSource<'a> {
    rest: &'a [u8],
}

impl<'a> Model for SureSource<'a> {
    ghost Value = { List ℕ };

    ghost view = { λ s. s.rest.now };
}

impl<'a> SureSource<'a> {
    pub fn new(bytes: &'a [u8]) -> SureSource<'a>
        ensures { result ≡ bytes.now }
    {
        SureSource { rest: bytes }
    }
}

impl<'a> Source for SureSource<'a> {
    ghost left = { λ s. Some s };

    ghost faults = { λ _. 0 };

    fn read(&mut self, buf: &mut [u8]) -> Result<usize, Failed> {
        let n = buf.len().min(self.rest.len());
        let (front, rest) = self.rest.split_at(n);
        buf[..n].copy_from_slice(front);
        self.rest = rest;
        Ok(n)
    }
}

/// Takes all that is written, without a fault.
#[derive(Drop)]
pub struct SureSink {
    taken: Vec<u8>,
}

impl Model for SureSink {
    ghost Value = { List ℕ };

    ghost view = { λ s. s.taken.items };
}

impl SureSink {
    /// A sink that took nothing. Takes no memory.
    pub fn new(alloc: Global) -> SureSink
        ensures { result ≡ [] }
    {
        SureSink {
            taken: Vec::new(alloc),
        }
    }

    /// What was taken.
    pub fn bytes(&self) -> &[u8]
        ensures { result.now ≡ self.now }
    {
        &self.taken
    }
}

impl Sink for SureSink {
    ghost taken = { λ s. Some s };

    ghost faults = { λ _. 0 };

    fn write(&mut self, piece: &[u8]) -> Result<usize, WriteError> {
        match self.taken.extend_from_slice(piece) {
            Ok(()) => Ok(piece.len()),
            Err(_) => Err(WriteError::OutOfMemory),
        }
    }
}

/// Bytes that are read at most `chunk` a call. The calls of the listed numbers, counted from 0, fail.
#[derive(Drop)]
pub struct MemSource<'a> {
    rest: &'a [u8],
    chunk: usize,
    failing: &'a [usize],
    call: usize,
    faults: u64,
}

impl<'a> Model for MemSource<'a> {
    ghost Value = { Metered };

    ghost view = { λ s. record { bytes = s.rest.now; chunk = s.chunk; failing = s.failing.now; call = s.call; faults = s.faults } };

    ghost invariant = { λ s. 0 < s.chunk };
}

impl<'a> MemSource<'a> {
    /// The chunk is at least 1.
    pub fn new(bytes: &'a [u8], chunk: usize, failing: &'a [usize]) -> MemSource<'a>
        requires { 0 < chunk }
        ensures { result ≡ start bytes.now chunk failing.now }
    {
        MemSource {
            rest: bytes,
            chunk,
            failing,
            call: 0,
            faults: 0,
        }
    }
}

impl<'a> Source for MemSource<'a> {
    ghost left = { λ s. Some s.bytes };

    ghost faults = { λ s. s.faults };

    fn read(&mut self, buf: &mut [u8]) -> Result<usize, Failed>
        requires { 0 < length buf.old }
        ensures bound { IfOk result (λ n. n ≤ length buf.new) }
        ensures bytes { ReadConsumes (Some self.old.bytes) (Some self.new.bytes) result buf.new }
        ensures count { Counts self.old.faults self.new.faults (IsErr result) }
        ensures exact { Gives self.old self.new buf.new result }
    {
        let call = self.call;
        self.call = call.saturating_add(1);
        if self.failing.contains(&call) {
            self.faults = self.faults.saturating_add(1);
            return Err(Failed);
        }
        let n = buf.len().min(self.rest.len()).min(self.chunk);
        let (front, rest) = self.rest.split_at(n);
        buf[..n].copy_from_slice(front);
        self.rest = rest;
        Ok(n)
    }
}

/// Takes at most `chunk` bytes a call. The calls of the listed numbers, counted from 0, fail.
#[derive(Drop)]
pub struct MemSink<'a> {
    taken: Vec<u8>,
    chunk: usize,
    failing: &'a [usize],
    call: usize,
    faults: u64,
}

impl<'a> Model for MemSink<'a> {
    ghost Value = { Metered };

    ghost view = { λ s. record { bytes = s.taken.items; chunk = s.chunk; failing = s.failing.now; call = s.call; faults = s.faults } };

    ghost invariant = { λ s. 0 < s.chunk };
}

impl<'a> MemSink<'a> {
    /// The chunk is at least 1. Takes no memory.
    pub fn new(alloc: Global, chunk: usize, failing: &'a [usize]) -> MemSink<'a>
        requires { 0 < chunk }
        ensures { result ≡ start [] chunk failing.now }
    {
        MemSink {
            taken: Vec::new(alloc),
            chunk,
            failing,
            call: 0,
            faults: 0,
        }
    }

    /// What was taken.
    pub fn bytes(&self) -> &[u8]
        ensures { result.now ≡ self.now.bytes }
    {
        &self.taken
    }
}

impl<'a> Sink for MemSink<'a> {
    ghost taken = { λ s. Some s.bytes };

    ghost faults = { λ s. s.faults };

    fn write(&mut self, piece: &[u8]) -> Result<usize, WriteError>
        requires { 0 < length piece.now }
        ensures some { IfOk result (λ n. 0 < n) }
        ensures bound { IfOk result (λ n. n ≤ length piece.now) }
        ensures bytes { WriteAppends (Some self.old.bytes) (Some self.new.bytes) result piece.now }
        ensures count { Counts self.old.faults self.new.faults (IsErrOf result WriteError.Failed) }
        ensures exact { TakesIn self.old self.new piece.now result }
    {
        let call = self.call;
        self.call = call.saturating_add(1);
        if self.failing.contains(&call) {
            self.faults = self.faults.saturating_add(1);
            return Err(WriteError::Failed);
        }
        let n = piece.len().min(self.chunk);
        if self.taken.extend_from_slice(&piece[..n]).is_err() {
            return Err(WriteError::OutOfMemory);
        }
        Ok(n)
    }
}
