//! Whole calls of rvrun.

use case_files::{CaseError, first_line, first_word, read, status_and_text, words_of};
use rv_run::run;
use rv_steps::Silent;
use rv_stream::{Sink, Source, SureSink, SureSource};
use std::alloc::{AllocError, Global};

/// The status of a call with these words.
pub(crate) fn status_of<S: Source, K: Sink, E: Sink>(
    alloc: Global,
    words: &str,
    source: &mut S,
    sink: &mut K,
    errors: &mut E,
) -> Result<u8, AllocError> {
    let words = words_of(alloc, words)?;
    Ok(run(alloc, &words, source, sink, errors, &mut Silent).status())
}

/// The status of a call with these words over an input, a space, and its text on either sink.
pub(crate) fn called(alloc: Global, words: &str, input: &str) -> Result<String, AllocError> {
    let mut sink = SureSink::new(alloc);
    let mut errors = SureSink::new(alloc);
    let status = status_of(
        alloc,
        words,
        &mut SureSource::new(input.as_bytes()),
        &mut sink,
        &mut errors,
    )?;
    let mut text = status_and_text(alloc, status, sink.bytes())?;
    text.push_str(&String::from_utf8_lossy(alloc, errors.bytes())?)?;
    Ok(text)
}

/// What `rvrun WORDS < FILE` gives, or `rvrun WORDS` over the lines after it.
pub(crate) fn commanded(rt: &HostRuntime, given: &str) -> Result<String, CaseError> {
    let (command, input) = first_line(given);
    let (_, words) = first_word(command);
    match words.split_once("< ") {
        Some((words, path)) => Ok(called(rt.alloc(), words, &read(rt, path)?)?),
        None => Ok(called(rt.alloc(), words, input)?),
    }
}
