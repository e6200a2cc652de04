//! The words after a program's name.

ghost use Rattle.std.specs.Prelude.{◌≡◌};

use std::env;
use std::io::{self, ErrorKind};
use thiserror::Error;

/// Why the words of a command line can't be had.
#[derive(Clone, Copy, Debug, PartialEq, Eq, Error)]
pub enum WordsFault {
    #[error("a word of the command line isn't UTF-8")]
    NotText,
    #[error("the words of the command line can't be read")]
    Unread,
}

impl WordsFault {
    ghost use Rattle.rv_program.specs.Words.{status_of};

    /// The status with which a program ends that has no words: as for words that are none of its own, or as where memory runs out.
    pub fn status(self) -> u8
        ensures { result ≡ status_of self }
    {
        match self {
            WordsFault::NotText => 2,
            WordsFault::Unread => 8,
        }
    }
}

fn all_words(rt: &HostRuntime) -> io::Result<Vec<String>> {
    let mut words = Vec::new(rt.alloc());
    for word in env::args(rt)?.skip(1) {
        words.push(word)?;
    }
    Ok(words)
}

/// The words after the program's name.
pub fn command_words(rt: &HostRuntime) -> Result<Vec<String>, WordsFault> {
    match all_words(rt) {
        Ok(words) => Ok(words),
        Err(error) if error.kind() == ErrorKind::InvalidData => Err(WordsFault::NotText),
        Err(_) => Err(WordsFault::Unread),
    }
}
