//! The tokens for registers, numbers, labels, symbols and targets.

ghost use Rattle.std.specs.Prelude.{◌≡◌, ◌<◌, ◌^◌, ◌++◌, Bool, Some, codes};
ghost use Rattle.std.specs.Fmt.{decimal as written};
ghost use Rattle.rv_base.specs.declared.external_name.ExternalName.{ExternalName as AName};
ghost use Rattle.rv_base.specs.Regs.{real_of};
ghost use Rattle.rv_listing.specs.Tokens.{natural};
ghost use Rattle.rv_listing.specs.Registers.{register};
ghost use Rattle.rv_listing.specs.Operands.{writable, real_register, imm12_of, imm12, imm20_of, imm20, uimm5_of, uimm5, natural_8, natural_32, offset_of, offset, label, symbol, target, signedness, leading};

use crate::fields::{LineError, Token, allowed, either};
use crate::form_fields::FormField;
use crate::registers::register;
use crate::tokens::{decimal, is, natural, number, signed, starts};
use rv_base::{ExternalName, MachLabel, PReg, Reg, Writable};
use rv_imms::{Imm12, Imm20, UImm5};
use rv_inst::CondBrTarget;
use std::alloc::Global;

impl Token for Reg {
    ghost reads = { register };

    fn read(w: &[u8]) -> Option<Reg> {
        register(w)
    }
}

impl Token for Writable<Reg> {
    ghost reads = { writable };

    #[tactic(auto, unfolding(crate::specs::Operands::writable))]
    fn read(w: &[u8]) -> Option<Writable<Reg>> {
        Some(Writable { reg: register(w)? })
    }
}

impl Token for PReg {
    ghost reads = { real_register };

    fn read(w: &[u8]) -> Option<PReg> {
        real_register(w)
    }
}

/// The machine's register of this name.
#[tactic(auto, unfolding(crate::specs::Operands::real_register))]
pub fn real_register(w: &[u8]) -> Option<PReg>
    ensures { result ≡ real_register w.now }
{
    register(w)?.to_real_reg()
}

#[tactic(auto, unfolding(crate::specs::Operands::imm12_of))]
fn imm12_of(n: i128) -> Option<Imm12>
    ensures { result ≡ imm12_of n }
{
    if n < -2048 {
        None
    } else if n <= 2047 {
        Some(Imm12 { value: n as i16 })
    } else {
        None
    }
}

impl Token for Imm12 {
    ghost reads = { imm12 };

    #[tactic(auto, unfolding(crate::specs::Operands::imm12))]
    fn read(w: &[u8]) -> Option<Imm12> {
        imm12_of(signed(w)?)
    }
}

#[tactic(auto, unfolding(crate::specs::Operands::imm20_of))]
fn imm20_of(n: i128) -> Option<Imm20>
    ensures { result ≡ imm20_of n }
{
    if n < -524288 {
        None
    } else if n <= 524287 {
        Some(Imm20 { value: n as i32 })
    } else {
        None
    }
}

impl Token for Imm20 {
    ghost reads = { imm20 };

    #[tactic(auto, unfolding(crate::specs::Operands::imm20))]
    fn read(w: &[u8]) -> Option<Imm20> {
        imm20_of(signed(w)?)
    }
}

#[tactic(auto, unfolding(crate::specs::Operands::uimm5_of))]
fn uimm5_of(n: u64) -> Option<UImm5>
    ensures { result ≡ uimm5_of n }
{
    if n < 32 {
        Some(UImm5 { value: n as u8 })
    } else {
        None
    }
}

impl Token for UImm5 {
    ghost reads = { uimm5 };

    #[tactic(auto, unfolding(crate::specs::Operands::uimm5))]
    fn read(w: &[u8]) -> Option<UImm5> {
        uimm5_of(natural(w)?)
    }
}

impl Token for u8 {
    ghost reads = { natural_8 };

    #[tactic(auto, unfolding(crate::specs::Operands::natural_8))]
    fn read(w: &[u8]) -> Option<u8> {
        let n = natural(w)?;
        if n < 0x100 { Some(n as u8) } else { None }
    }
}

impl Token for u32 {
    ghost reads = { natural_32 };

    #[tactic(auto, unfolding(crate::specs::Operands::natural_32))]
    fn read(w: &[u8]) -> Option<u32> {
        let n = natural(w)?;
        if n < 0x1_0000_0000 {
            Some(n as u32)
        } else {
            None
        }
    }
}

impl Token for u64 {
    ghost reads = { natural };

    fn read(w: &[u8]) -> Option<u64> {
        natural(w)
    }
}

#[tactic(auto, unfolding(crate::specs::Operands::offset_of))]
fn offset_of(n: i128) -> Option<i64>
    ensures { result ≡ offset_of n }
{
    if n < -0x8000_0000_0000_0000 {
        None
    } else if n <= 0x7fff_ffff_ffff_ffff {
        Some(n as i64)
    } else {
        None
    }
}

impl Token for i64 {
    ghost reads = { offset };

    #[tactic(auto, unfolding(crate::specs::Operands::offset))]
    fn read(w: &[u8]) -> Option<i64> {
        offset_of(signed(w)?)
    }
}

impl Token for MachLabel {
    ghost reads = { label };

    #[tactic(auto, unfolding(crate::specs::Operands::label))]
    fn read(w: &[u8]) -> Option<MachLabel> {
        if !starts(b'L', w) {
            return None;
        }
        let n = number(w)?;
        if n < 0x1_0000_0000 {
            Some(MachLabel { number: n as u32 })
        } else {
            None
        }
    }
}

#[tactic(auto, unfolding(crate::specs::Operands::symbol))]
fn find_symbol(w: &[u8]) -> Option<ExternalName>
    ensures { result ≡ symbol w.now }
{
    let digits = w.strip_prefix(b"userextname")?;
    let n = decimal(digits)?;
    if n < 0x1_0000_0000 {
        Some(ExternalName { number: n as u32 })
    } else {
        None
    }
}

/// The symbol of this name.
pub fn symbol_named(w: &[u8]) -> Option<ExternalName>
    ensures reads { result ≡ symbol w.now }
    ensures named { (name : AName) → name.number < 2 ^ 32 → w.now ≡ codes "userextname" ++ written name.number → result ≡ Some name }
{
    find_symbol(w)
}

impl Token for ExternalName {
    ghost reads = { symbol };

    fn read(w: &[u8]) -> Option<ExternalName> {
        symbol_named(w)
    }
}

impl Token for CondBrTarget {
    ghost reads = { target };

    #[tactic(auto, unfolding(crate::specs::Operands::target))]
    fn read(w: &[u8]) -> Option<CondBrTarget> {
        if is(b"-", w) {
            return Some(CondBrTarget::Fallthrough);
        }
        Some(CondBrTarget::Label(MachLabel::read(w)?))
    }
}

/// Whether a value has a sign.
#[derive(Clone, Copy)]
pub(crate) struct Signedness {
    pub(crate) signed: bool,
}

impl FormField for Signedness {
    ghost Value = { Bool };

    ghost reads = { signedness };

    ghost value = { λ x. x.signed };

    #[tactic(auto, unfolding(crate::specs::Operands::signedness))]
    fn of_word(_alloc: Global, w: &[u8]) -> Result<Signedness, LineError> {
        let signed = allowed(either(b"s", b"u", w))?;
        Ok(Signedness { signed })
    }
}

/// Whether the leading zeros are counted, or the trailing ones.
#[derive(Clone, Copy)]
pub(crate) struct Zeros {
    pub(crate) leading: bool,
}

impl FormField for Zeros {
    ghost Value = { Bool };

    ghost reads = { leading };

    ghost value = { λ x. x.leading };

    #[tactic(auto, unfolding(crate::specs::Operands::leading))]
    fn of_word(_alloc: Global, w: &[u8]) -> Result<Zeros, LineError> {
        let leading = allowed(either(b"1", b"0", w))?;
        Ok(Zeros { leading })
    }
}
