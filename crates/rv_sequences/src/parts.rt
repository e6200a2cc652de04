//! The code of parts of registers, so many bits from a bit on that another register gives: taken out, cleared and put.

ghost use Rattle.std.specs.Prelude.{◌≡◌, ◌+◌, ◌<◌, ◌≤◌, length, pos, negsuc, OnOk, OnErr, true};
ghost use Rattle.rv_base.specs.LabelUse.{code_limit};
ghost use Rattle.rv_base.specs.Regs.{number_of};
ghost use Rattle.rv_encode.specs.Registers.{IsIntRegister};
ghost use Rattle.mach_buffer.specs.Buffer.{bytes_of, spoiled_of};
ghost use Rattle.rv_code.specs.AtomicLoops.{extract_pieces, mask_pieces, merge_pieces, set_pieces, unset_pieces};
ghost use Rattle.rv_code.specs.Pieces.{slots_of};
ghost use Rattle.rv_sequences.specs.Emitted.{IsSoundBuffer};
ghost use Rattle.rv_sequences.specs.Parts.{PutsAlone};

use crate::choices::{low_byte, put_extend};
use crate::shortest::{put_rri, put_rrr};
use mach_buffer::MachBuffer;
use rv_base::{IsaFlags, OutOfMemory, Reg, WritableReg, zero_reg};
use rv_imms::Imm12;
use rv_inst::LabelUse;
use rv_ops::{AluOPRRI, AluOPRRR};

/// A part of `rs`, sign-extended or zero-extended.
pub(crate) fn put_extract(
    sink: &mut MachBuffer<LabelUse>,
    flags: IsaFlags,
    rd: WritableReg,
    offset: Reg,
    rs: Reg,
    signed: bool,
    bits: u8,
) -> Result<(), OutOfMemory>
    requires rd { IsIntRegister rd.reg }
    requires offset { IsIntRegister offset }
    requires rs { IsIntRegister rs }
    requires some { 1 ≤ bits }
    requires few { bits ≤ 64 }
    requires room { length (bytes_of sink.old) + 12 < code_limit }
    requires sound { IsSoundBuffer sink.old }
    ensures slots { OnOk result (PutsAlone flags (slots_of flags (extract_pieces (number_of rd.reg) (number_of offset) (number_of rs) signed bits)) sink.old sink.new) }
    ensures refused { OnErr result (spoiled_of sink.new ≡ true) }
{
    put_rrr(sink, flags, AluOPRRR::Srl, rd, rs, offset)?;
    put_extend(sink, flags, rd, rd.reg, signed, bits)?;
    Ok(())
}

/// The part of `rd` is replaced by the low bits of `rs`.
pub(crate) fn put_merge(
    sink: &mut MachBuffer<LabelUse>,
    flags: IsaFlags,
    rd: WritableReg,
    tmp: WritableReg,
    offset: Reg,
    rs: Reg,
    bits: u8,
) -> Result<(), OutOfMemory>
    requires rd { IsIntRegister rd.reg }
    requires tmp { IsIntRegister tmp.reg }
    requires offset { IsIntRegister offset }
    requires rs { IsIntRegister rs }
    requires some { 1 ≤ bits }
    requires few { bits ≤ 64 }
    requires room { length (bytes_of sink.old) + 40 < code_limit }
    requires sound { IsSoundBuffer sink.old }
    ensures slots { OnOk result (PutsAlone flags (slots_of flags (merge_pieces (number_of rd.reg) (number_of tmp.reg) (number_of offset) (number_of rs) bits)) sink.old sink.new) }
    ensures refused { OnErr result (spoiled_of sink.new ≡ true) }
{
    put_unset(sink, flags, rd, tmp, offset, bits)?;
    put_set(sink, flags, rd, tmp, offset, rs, bits)?;
    Ok(())
}

/// The part of `rd` is cleared, by the complement of its mask.
fn put_unset(
    sink: &mut MachBuffer<LabelUse>,
    flags: IsaFlags,
    rd: WritableReg,
    tmp: WritableReg,
    offset: Reg,
    bits: u8,
) -> Result<(), OutOfMemory>
    requires rd { IsIntRegister rd.reg }
    requires tmp { IsIntRegister tmp.reg }
    requires offset { IsIntRegister offset }
    requires some { 1 ≤ bits }
    requires few { bits ≤ 64 }
    requires room { length (bytes_of sink.old) + 24 < code_limit }
    requires sound { IsSoundBuffer sink.old }
    ensures slots { OnOk result (PutsAlone flags (slots_of flags (unset_pieces (number_of rd.reg) (number_of tmp.reg) (number_of offset) bits)) sink.old sink.new) }
    ensures long { OnOk result (length (bytes_of sink.new) ≤ length (bytes_of sink.old) + 24) }
    ensures sound { OnOk result (IsSoundBuffer sink.new) }
    ensures refused { OnErr result (spoiled_of sink.new ≡ true) }
{
    put_mask(sink, flags, tmp, bits)?;
    put_rrr(sink, flags, AluOPRRR::Sll, tmp, tmp.reg, offset)?;
    put_rri(sink, flags, AluOPRRI::Xori, tmp, tmp.reg, minus_one())?;
    put_rrr(sink, flags, AluOPRRR::And, rd, rd.reg, tmp.reg)?;
    Ok(())
}

/// The low bits of `rs` are put over the part of `rd`.
fn put_set(
    sink: &mut MachBuffer<LabelUse>,
    flags: IsaFlags,
    rd: WritableReg,
    tmp: WritableReg,
    offset: Reg,
    rs: Reg,
    bits: u8,
) -> Result<(), OutOfMemory>
    requires rd { IsIntRegister rd.reg }
    requires tmp { IsIntRegister tmp.reg }
    requires offset { IsIntRegister offset }
    requires rs { IsIntRegister rs }
    requires some { 1 ≤ bits }
    requires few { bits ≤ 64 }
    requires room { length (bytes_of sink.old) + 16 < code_limit }
    requires sound { IsSoundBuffer sink.old }
    ensures slots { OnOk result (PutsAlone flags (slots_of flags (set_pieces (number_of rd.reg) (number_of tmp.reg) (number_of offset) (number_of rs) bits)) sink.old sink.new) }
    ensures refused { OnErr result (spoiled_of sink.new ≡ true) }
{
    put_extend(sink, flags, tmp, rs, false, bits)?;
    put_rrr(sink, flags, AluOPRRR::Sll, tmp, tmp.reg, offset)?;
    put_rrr(sink, flags, AluOPRRR::Or, rd, rd.reg, tmp.reg)?;
    Ok(())
}

/// As many ones as a part has bits.
fn put_mask(
    sink: &mut MachBuffer<LabelUse>,
    flags: IsaFlags,
    rd: WritableReg,
    bits: u8,
) -> Result<(), OutOfMemory>
    requires rd { IsIntRegister rd.reg }
    requires some { 1 ≤ bits }
    requires few { bits ≤ 64 }
    requires room { length (bytes_of sink.old) + 12 < code_limit }
    requires sound { IsSoundBuffer sink.old }
    ensures slots { OnOk result (PutsAlone flags (slots_of flags (mask_pieces (number_of rd.reg) bits)) sink.old sink.new) }
    ensures long { OnOk result (length (bytes_of sink.new) ≤ length (bytes_of sink.old) + 12) }
    ensures sound { OnOk result (IsSoundBuffer sink.new) }
    ensures refused { OnErr result (spoiled_of sink.new ≡ true) }
{
    if bits == 8 {
        return put_rri(sink, flags, AluOPRRI::Addi, rd, zero_reg(), low_byte());
    }
    if bits == 64 {
        return put_rri(sink, flags, AluOPRRI::Addi, rd, zero_reg(), minus_one());
    }
    put_rri(sink, flags, AluOPRRI::Addi, rd, zero_reg(), minus_one())?;
    put_extend(sink, flags, rd, rd.reg, false, bits)?;
    Ok(())
}

/// All bits of a register.
pub(crate) fn minus_one() -> Imm12
    ensures { result.value ≡ negsuc 0 }
{
    Imm12::from_i16(-1)
}
