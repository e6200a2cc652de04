//! The header line of a constant.

ghost use Rattle.std.specs.Prelude.{◌≡◌};
ghost use Rattle.rv_listing.specs.Tokens.{words_after};
ghost use Rattle.rv_listing.specs.Fields.{Makes};
ghost use Rattle.rv_listing.specs.ConstantHeader.{alignment, constant_form};

use crate::fields::{LineError, Token, allowed, field, whole};
use crate::hex_digits::some_bytes;
use crate::tokens::{natural, next_word};
use rv_base::{ConstAlign, Constant};
use std::alloc::Global;

impl Token for ConstAlign {
    ghost reads = { alignment };

    #[tactic(auto, unfolding(crate::specs::ConstantHeader::alignment))]
    fn read(w: &[u8]) -> Option<ConstAlign> {
        match natural(w)? {
            1 => Some(ConstAlign::A1),
            2 => Some(ConstAlign::A2),
            4 => Some(ConstAlign::A4),
            8 => Some(ConstAlign::A8),
            16 => Some(ConstAlign::A16),
            _ => None,
        }
    }
}

/// The constant of a header line, with these fields after its name.
#[tactic(auto, unfolding(crate::specs::ConstantHeader::constant_form))]
pub fn constant(alloc: Global, rest: &[u8]) -> Result<Constant, LineError>
    ensures { Makes result (constant_form (words_after rest.now)) }
{
    let (align, rest) = allowed(field(rest))?;
    let Some((w, rest)) = next_word(rest) else {
        return Err(LineError::NotAllowed);
    };
    let bytes = some_bytes(alloc, w)?;
    allowed(whole(Constant { bytes, align }, rest))
}
