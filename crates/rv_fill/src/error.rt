//! Why code can't be placed.

use rv_base::OutOfMemory;
use thiserror::Error;

/// Why code can't stand at a base, with these addresses of symbols and slots. Relocations are counted from 0.
#[derive(Clone, Copy, Debug, PartialEq, Eq, Error)]
pub enum PlaceError {
    /// The base is no multiple of four, or the code ends above 2^64.
    #[error("the base is no multiple of 4, or the code ends above 2^64")]
    BadBase,
    /// The bytes that a relocation fills aren't all in the code, or an earlier one fills some of them; or it is a lower part and names
    /// no place of an upper part, or of another kind and names a place.
    #[error("relocation {index} is none that code of a listing has")]
    BadRecord { index: usize },
    /// The name of a relocation has no address, or, of the upper part of a slot's distance, no slot.
    #[error("the name of relocation {index} has no address")]
    NoSymbol { index: usize },
    /// Where a relocation leads is too far for an upper and a lower part of twenty and twelve bits.
    #[error("relocation {index} leads too far")]
    OutOfReach { index: usize },
    #[error("out of memory")]
    OutOfMemory,
}

impl From<OutOfMemory> for PlaceError {
    ghost use Rattle.std.specs.Prelude.{◌≡◌};
    ghost use Rattle.rv_fill.specs.declared.error.PlaceError.TheVariants as errors;

    ghost from_gives = { λ _ e. e ≡ errors.OutOfMemory };

    fn from(_error: OutOfMemory) -> PlaceError {
        PlaceError::OutOfMemory
    }
}
