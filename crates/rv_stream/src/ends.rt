//! Sources and sinks: what a read and a write do, and what their counts of faults mean.

ghost use Rattle.std.specs.Prelude.{◌≡◌, ℕ, ◌<◌, ◌≤◌, List, length, Option, IfOk, IsErr, IsErrOf};
ghost use Rattle.std.specs.Io.KnownBytes.{ReadConsumes, WriteAppends};
ghost use Rattle.rv_stream.specs.Ends.{Counts};

use thiserror::Error;

/// A read that failed.
#[derive(Clone, Copy, Debug, PartialEq, Eq, Error)]
#[error("the read failed")]
pub struct Failed;

/// Why a write took no byte.
#[derive(Clone, Copy, Debug, PartialEq, Eq, Error)]
pub enum WriteError {
    #[error("the write failed")]
    Failed,
    #[error("out of memory")]
    OutOfMemory,
}

/// Where bytes are read from.
pub trait Source {
    /// The bytes that are left, where they are known.
    ghost left: { Self → Option (List ℕ) };

    /// How often reading has failed, at most 2 ^ 64 - 1.
    ghost faults: { Self → ℕ };

    /// Reads bytes to the front of the buffer, and returns how many; 0 only at the end.
    fn read(&mut self, buf: &mut [u8]) -> Result<usize, Failed>
        requires { 0 < length buf.old }
        ensures bound { IfOk result (λ n. n ≤ length buf.new) }
        ensures bytes { ReadConsumes (left self.old) (left self.new) result buf.new }
        ensures count { Counts (faults self.old) (faults self.new) (IsErr result) };
}

/// Where bytes are written to.
pub trait Sink {
    /// The bytes that were taken, where they are known.
    ghost taken: { Self → Option (List ℕ) };

    /// How often writing has failed, at most 2 ^ 64 - 1.
    ghost faults: { Self → ℕ };

    /// Takes bytes from the front of the piece, at least one, and returns how many.
    fn write(&mut self, piece: &[u8]) -> Result<usize, WriteError>
        requires { 0 < length piece.now }
        ensures some { IfOk result (λ n. 0 < n) }
        ensures bound { IfOk result (λ n. n ≤ length piece.now) }
        ensures bytes { WriteAppends (taken self.old) (taken self.new) result piece.now }
        ensures count { Counts (faults self.old) (faults self.new) (IsErrOf result WriteError.Failed) };
}
