//! Where code stands in memory, and why a run goes no further.

/// The memory that the code takes: its first address, and its length in bytes.
#[derive(Clone, Copy, Debug, PartialEq, Eq)]
pub struct Place {
    pub base: u64,
    pub len: u64,
}

/// Why a run goes no further. Offsets are in bytes from the code's start.
#[derive(Clone, Copy, Debug, PartialEq, Eq)]
pub enum Ending {
    /// The program counter is outside the code.
    Left { address: u64 },
    /// As many steps were done as were allowed.
    Limit,
    /// The word here is `ebreak`.
    Break { offset: u64 },
    /// There is no operation here that the machine has.
    NoOperation { offset: u64, word: u32 },
    /// The operation here takes an answer, and the first of those left isn't of its kind, or there is none.
    NeedsAnswer { offset: u64, word: u32 },
}
