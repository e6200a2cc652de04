//! The parts of an address, and what is asked of them.

ghost use Rattle.std.specs.Prelude.{◌≡◌, slice_get};
ghost use Rattle.std.specs.List.{list_any};
ghost use Rattle.rv_base.specs.AMode.{registers_of, own_offset};
ghost use Rattle.rv_inst.specs.Addresses.{is_distant};
ghost use Rattle.rv_inst.specs.Operands.{address_targets};
ghost use Rattle.rv_inst.specs.RegisterTests.{test_of};
ghost use Rattle.rv_inst.specs.Faults.{lacks_constant};
ghost use Rattle.rv_inst.specs.Rules.{is_shorter};

use crate::inst::Inst;
use crate::registers::{RegisterTest, holds};
use crate::targets::Targets;
use rv_base::{AMode, Constant, VCodeConstant};

/// The label of an address, or the constant and how many bytes of it are read, where it has one.
pub fn address_targets(read: u32, mode: AMode) -> Targets
    ensures { result ≡ address_targets read mode }
{
    match mode {
        AMode::Label(label) => Targets::Refers(label),
        AMode::Const(constant) => Targets::RefersConstant(constant, read),
        AMode::RegOffset(_, _)
        | AMode::SPOffset(_)
        | AMode::FPOffset(_)
        | AMode::SlotOffset(_)
        | AMode::IncomingArg(_) => Targets::Nowhere,
    }
}

/// Returns whether the test holds of the register that an address holds, where it holds one.
pub fn address_has(test: RegisterTest, mode: AMode) -> bool
    ensures { result ≡ list_any (test_of test) (registers_of mode) }
{
    match mode {
        AMode::RegOffset(reg, _) => holds(test, reg),
        AMode::SPOffset(_)
        | AMode::FPOffset(_)
        | AMode::SlotOffset(_)
        | AMode::IncomingArg(_)
        | AMode::Const(_)
        | AMode::Label(_) => false,
    }
}

/// Returns whether the offset of an address is below -2^62 or above 2^62.
pub fn is_distant(mode: AMode) -> bool
    ensures { result ≡ is_distant (own_offset mode) }
{
    let offset = own_offset(mode);
    offset < -(1 << 62) || offset > 1 << 62
}

/// The offset as it is written; 0 where none is.
fn own_offset(mode: AMode) -> i64
    ensures { result ≡ own_offset mode }
{
    match mode {
        AMode::RegOffset(_, offset) => offset,
        AMode::SPOffset(offset) => offset,
        AMode::FPOffset(offset) => offset,
        AMode::SlotOffset(offset) => offset,
        AMode::IncomingArg(offset) => offset,
        AMode::Const(_) | AMode::Label(_) => 0,
    }
}

fn is_shorter(constants: &[Constant], constant: VCodeConstant, read: u32) -> bool
    ensures { result ≡ is_shorter (slice_get constants.now constant.number) read }
{
    match constants.get(constant.number as usize) {
        Some(constant) => constant.bytes.len() < read as usize,
        None => true,
    }
}

/// Returns whether the instruction names a constant that isn't among these, or reads more bytes than it has.
pub fn lacks_constant(inst: &Inst, constants: &[Constant]) -> bool
    ensures { result ≡ lacks_constant constants.now inst.now }
{
    match inst.targets() {
        Targets::RefersConstant(constant, read) => is_shorter(constants, constant, read),
        Targets::Nowhere | Targets::Jumps(_) | Targets::Branches(_, _) | Targets::Refers(_) =>
            false,
    }
}
