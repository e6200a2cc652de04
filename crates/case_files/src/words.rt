//! Words and lines of what is given, and what comes of a call with words.

use std::alloc::{AllocError, Global};

/// The first word of a text, and what stands after the space at its end.
pub fn first_word(text: &str) -> (&str, &str) {
    text.split_once(' ').unwrap_or((text, ""))
}

/// The first line of a text, and the lines after it.
pub fn first_line(text: &str) -> (&str, &str) {
    text.split_once('\n').unwrap_or((text, ""))
}

/// The words between the spaces of a text.
pub fn words_of(alloc: Global, text: &str) -> Result<Vec<String>, AllocError> {
    let mut words = Vec::new(alloc);
    for word in text.split(' ') {
        if !word.is_empty() {
            words.push(String::from_str(alloc, word)?)?;
        }
    }
    Ok(words)
}

/// The status of a call, a space, and the text that it wrote.
pub fn status_and_text(alloc: Global, status: u8, bytes: &[u8]) -> Result<String, AllocError> {
    let mut text = format!(in alloc; "{status} ")?;
    text.push_str(&String::from_utf8_lossy(alloc, bytes)?)?;
    Ok(text)
}
