//! A name that may be meant: one that differs from a word by the case of its letters, or by one letter.

use crate::forms::{Kind, is_name, name_in_case};
use crate::kinds::takes;
use rv_base::OutOfMemory;
use std::alloc::Global;

/// What a word may be meant as.
#[derive(Clone, Copy, Debug, PartialEq, Eq)]
pub(crate) enum Meant {
    /// The name that begins a line.
    Name,
    /// The word of a field.
    Field(Kind),
}

/// The letters of names.
const LETTERS: &str = "abcdefghijklmnopqrstuvwxyz0123456789_ABCDEFGHIJKLMNOPQRSTUVWXYZ";

/// Words longer than any name.
const MOST: usize = 24;

fn is_meant(meant: Meant, word: &str) -> bool {
    match meant {
        Meant::Name => is_name(word),
        Meant::Field(kind) => word != "-" && !word.starts_with("user") && takes(kind, word),
    }
}

/// A word with the letters in place of those from one place to another.
fn replaced(
    alloc: Global,
    word: &str,
    from: usize,
    to: usize,
    letter: Option<char>,
) -> Result<String, OutOfMemory> {
    let mut made: String = word.chars().take(from).collect(alloc)?;
    if let Some(letter) = letter {
        made.push(letter)?;
    }
    for c in word.chars().skip(to) {
        made.push(c)?;
    }
    Ok(made)
}

/// The word, where it is one that may be meant.
fn kept(meant: Meant, word: String) -> Option<String> {
    if is_meant(meant, &word) {
        Some(word)
    } else {
        None
    }
}

/// A word with each letter in turn at a place: before the letter there, or instead of it.
fn with_letter(
    alloc: Global,
    meant: Meant,
    word: &str,
    from: usize,
    to: usize,
) -> Result<Option<String>, OutOfMemory> {
    for letter in LETTERS.chars() {
        let made = replaced(alloc, word, from, to, Some(letter))?;
        if let Some(made) = kept(meant, made) {
            return Ok(Some(made));
        }
    }
    Ok(None)
}

/// A name that has one letter less.
fn shorter(alloc: Global, meant: Meant, word: &str) -> Result<Option<String>, OutOfMemory> {
    for at in 0..word.len() {
        let made = replaced(alloc, word, at, at.saturating_add(1), None)?;
        if let Some(made) = kept(meant, made) {
            return Ok(Some(made));
        }
    }
    Ok(None)
}

/// A name that has another letter in one place.
fn changed(alloc: Global, meant: Meant, word: &str) -> Result<Option<String>, OutOfMemory> {
    for at in 0..word.len() {
        if let Some(made) = with_letter(alloc, meant, word, at, at.saturating_add(1))? {
            return Ok(Some(made));
        }
    }
    Ok(None)
}

/// A name that has one letter more.
fn longer(alloc: Global, meant: Meant, word: &str) -> Result<Option<String>, OutOfMemory> {
    for at in 0..=word.len() {
        if let Some(made) = with_letter(alloc, meant, word, at, at)? {
            return Ok(Some(made));
        }
    }
    Ok(None)
}

/// A name that is the word in small letters, or with a capital before them.
fn in_case(alloc: Global, meant: Meant, word: &str) -> Result<Option<String>, OutOfMemory> {
    let small: String = word.chars().map(|c| c.to_ascii_lowercase()).collect(alloc)?;
    let capital = word.chars().next().map(|c| c.to_ascii_uppercase());
    let large = replaced(alloc, &small, 0, 1, capital)?;
    match kept(meant, small) {
        Some(small) => Ok(Some(small)),
        None => Ok(kept(meant, large)),
    }
}

/// A name that differs by one letter.
fn by_letter(alloc: Global, meant: Meant, word: &str) -> Result<Option<String>, OutOfMemory> {
    if let Some(made) = shorter(alloc, meant, word)? {
        return Ok(Some(made));
    }
    if let Some(made) = longer(alloc, meant, word)? {
        return Ok(Some(made));
    }
    changed(alloc, meant, word)
}

/// The name that may be meant by a word that is none.
pub(crate) fn nearest(
    alloc: Global,
    meant: Meant,
    word: &str,
) -> Result<Option<String>, OutOfMemory> {
    if word.len() > MOST {
        return Ok(None);
    }
    if let (Meant::Name, Some(name)) = (meant, name_in_case(word)) {
        return Ok(Some(String::from_str(alloc, name)?));
    }
    if let Some(made) = in_case(alloc, meant, word)? {
        return Ok(Some(made));
    }
    if word.len() < 2 {
        return Ok(None);
    }
    by_letter(alloc, meant, word)
}
