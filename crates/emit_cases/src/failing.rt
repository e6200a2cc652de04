//! Calls over a listing of four lines whose source gives eight bytes a read and whose sink takes four a write, one of which fails: which
//! it is, from 0, and what it is, `read 3` or `write 3`, stand in a row.

use crate::status_of;
use case_files::{CaseError, first_word, status_and_text};
use rv_stream::{MemSink, MemSource, SureSink, SureSource};
use std::alloc::{AllocError, Global};

const COUNTDOWN: &str = "Bind L0\nAluRRImm12 addi a0 a0 -1\nCondBr ne a0 zero L0 -\nRet\n";

/// The status of a call, a space, and what it writes, where the read of this number fails.
fn with_failing_read(alloc: Global, call: usize) -> Result<String, AllocError> {
    let failing = [call];
    let mut source = MemSource::new(COUNTDOWN.as_bytes(), 8, &failing);
    let mut sink = SureSink::new(alloc);
    let status = status_of(alloc, &[], &mut source, &mut sink);
    status_and_text(alloc, status, sink.bytes())
}

/// The same where the write of this number fails.
fn with_failing_write(alloc: Global, call: usize) -> Result<String, AllocError> {
    let failing = [call];
    let mut source = SureSource::new(COUNTDOWN.as_bytes());
    let mut sink = MemSink::new(alloc, 4, &failing);
    let status = status_of(alloc, &[], &mut source, &mut sink);
    status_and_text(alloc, status, sink.bytes())
}

/// What comes of the call of a row.
pub(crate) fn given_by_row(alloc: Global, row: &str) -> Result<String, CaseError> {
    let (stream, digits) = first_word(row);
    match (stream, usize::from_str_radix(digits, 10)) {
        ("read", Ok(call)) => Ok(with_failing_read(alloc, call)?),
        ("write", Ok(call)) => Ok(with_failing_write(alloc, call)?),
        _ => Err(CaseError::Form {
            text: format!(in alloc; "{row}: no call of a stream")?,
        }),
    }
}
