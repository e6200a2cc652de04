//! A word: an instruction of 32 bits, or of 16.

ghost use Rattle.std.specs.Prelude.{◌≡◌};
ghost use Rattle.rv_disasm.specs.Text.{word_at};

/// The bits of an instruction, and its length.
#[derive(Clone, Copy, Debug, PartialEq, Eq)]
pub struct Word {
    /// The instruction, whose lowest bits come first in memory.
    pub bits: u32,
    /// In bytes: 4 where the two lowest bits are 11, else 2, and the bits are below 2 ^ 16.
    pub len: u8,
}

/// The instruction that a word begins with.
pub fn word_at(word: u32) -> Word
    ensures { result ≡ word_at word }
{
    if word % 4 == 3 {
        Word { bits: word, len: 4 }
    } else {
        Word {
            bits: word & 0xffff,
            len: 2,
        }
    }
}
