//! Bytes in hexadecimal digits.

ghost use Rattle.std.specs.Prelude.{◌≡◌, ℕ, List as AList};
ghost use Rattle.rv_listing.specs.Fields.{Makes};
ghost use Rattle.rv_listing.specs.HexDigits.{hex_bytes, some_bytes};

use crate::fields::LineError;
use crate::form_fields::FormField;
use hex::FromHexError;
use rv_base::List;
use std::alloc::Global;

/// The bytes of digits in pairs, of either case.
pub fn hex_bytes(alloc: Global, w: &[u8]) -> Result<List<u8>, LineError>
    ensures { Makes result (hex_bytes w.now) }
{
    match hex::decode(alloc, w) {
        Ok(bytes) => Ok(List::from_vec(bytes)),
        Err(FromHexError::OutOfMemory) => Err(LineError::OutOfMemory),
        Err(_) => Err(LineError::NotAllowed),
    }
}

/// The same, one byte at least.
#[tactic(auto, unfolding(crate::specs::HexDigits::some_bytes))]
pub fn some_bytes(alloc: Global, w: &[u8]) -> Result<List<u8>, LineError>
    ensures { Makes result (some_bytes w.now) }
{
    let bytes = hex_bytes(alloc, w)?;
    if bytes.is_empty() {
        Err(LineError::NotAllowed)
    } else {
        Ok(bytes)
    }
}

/// The bytes of a field: one at least.
#[derive(Drop)]
pub(crate) struct SomeBytes {
    pub(crate) bytes: List<u8>,
}

impl FormField for SomeBytes {
    ghost Value = { AList ℕ };

    ghost reads = { some_bytes };

    ghost value = { λ x. x.bytes };

    fn of_word(alloc: Global, w: &[u8]) -> Result<SomeBytes, LineError> {
        let bytes = some_bytes(alloc, w)?;
        Ok(SomeBytes { bytes })
    }
}
