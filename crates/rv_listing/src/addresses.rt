//! Addresses of loads and stores.

ghost use Rattle.std.specs.Prelude.{◌≡◌};
ghost use Rattle.rv_listing.specs.Addresses.{amode, by_kind, from_register};

use crate::fields::Token;
use crate::registers::register;
use crate::tokens::{first_part, is, next_part};
use rv_base::{AMode, MachLabel, VCodeConstant};

/// The address of one part after its kind.
#[tactic(auto, unfolding(crate::specs::Addresses::by_kind))]
fn by_kind(kind: &[u8], w: &[u8]) -> Option<AMode>
    ensures { result ≡ by_kind kind.now w.now }
{
    if is(b"sp", kind) {
        Some(AMode::SPOffset(i64::read(w)?))
    } else if is(b"fp", kind) {
        Some(AMode::FPOffset(i64::read(w)?))
    } else if is(b"slot", kind) {
        Some(AMode::SlotOffset(i64::read(w)?))
    } else if is(b"in", kind) {
        Some(AMode::IncomingArg(i64::read(w)?))
    } else if is(b"const", kind) {
        let number = u32::read(w)?;
        Some(AMode::Const(VCodeConstant { number }))
    } else if is(b"label", kind) {
        Some(AMode::Label(MachLabel::read(w)?))
    } else {
        None
    }
}

/// The address of a register and an offset.
#[tactic(auto, unfolding(crate::specs::Addresses::from_register))]
fn from_register(kind: &[u8], base: &[u8], w: &[u8]) -> Option<AMode>
    ensures { result ≡ from_register kind.now base.now w.now }
{
    if !is(b"r", kind) {
        return None;
    }
    let base = register(base)?;
    let offset = i64::read(w)?;
    Some(AMode::RegOffset(base, offset))
}

impl Token for AMode {
    ghost reads = { amode };

    #[tactic(auto, unfolding(crate::specs::Addresses::amode))]
    fn read(w: &[u8]) -> Option<AMode> {
        let (kind, rest) = first_part(b':', w);
        let (first, rest) = next_part(b':', rest)?;
        let Some((second, rest)) = next_part(b':', rest) else {
            return by_kind(kind, first);
        };
        match next_part(b':', rest) {
            None => from_register(kind, first, second),
            Some(_) => None,
        }
    }
}
