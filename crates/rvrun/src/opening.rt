//! A source that keeps how its bytes begin.

use rv_stream::{Failed, Source};
use std::alloc::Global;

/// How many bytes are kept: one more than the longest line with which `rvemit` refuses may have.
const MOST: usize = 81;

/// A source, and the first bytes that were read from it.
#[derive(Drop)]
pub(crate) struct Opening<S: Source> {
    source: S,
    kept: Vec<u8>,
}

impl<S: Source> Opening<S> {
    pub(crate) fn new(alloc: Global, source: S) -> Opening<S> {
        Opening {
            source,
            kept: Vec::new(alloc),
        }
    }

    /// The first bytes that were read, as far as there was memory.
    pub(crate) fn kept(&self) -> &[u8] {
        &self.kept
    }
}

/// Keeps of these bytes as many as are still kept.
fn keep(kept: &mut Vec<u8>, bytes: &[u8]) {
    if kept.len() < MOST {
        for byte in bytes.iter().take(MOST) {
            let _ = kept.push(*byte);
        }
    }
}

impl<S: Source> Source for Opening<S> {
    ghost left = { λ s. S.left s.source };

    ghost faults = { λ s. S.faults s.source };

    fn read(&mut self, buf: &mut [u8]) -> Result<usize, Failed> {
        let read = self.source.read(buf);
        if let Ok(count) = read {
            keep(&mut self.kept, &buf[..count]);
        }
        read
    }
}
