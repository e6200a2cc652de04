//! Operations, each put in the shortest form that the flags allow.

ghost use Rattle.std.specs.Prelude.{◌≡◌, [], ◌∷◌, ◌+◌, ◌%◌, ◌<◌, ◌≤◌, length, pos, OnOk, OnErr, true};
ghost use Rattle.rv_base.specs.declared.flags.IsaFlags.{IsaFlags};
ghost use Rattle.rv_machine.specs.declared.decoding.Decoded.{Decoded};
ghost use Rattle.rv_base.specs.LabelUse.{code_limit};
ghost use Rattle.rv_base.specs.Regs.{number_of};
ghost use Rattle.rv_encode.specs.Registers.{IsIntRegister, IsRealRegister};
ghost use Rattle.rv_encode.specs.Layouts.{IsEven};
ghost use Rattle.rv_encode.specs.Operations.{has_load, has_store};
ghost use Rattle.rv_inst.specs.Forms.{IsOwnForm, short_rrr, short_rri, short_lui, short_jalr, short_ebreak, short_load, short_store};
ghost use Rattle.mach_buffer.specs.Buffer.{bytes_of, spoiled_of};
ghost use Rattle.rv_sequences.specs.Emitted.{IsSoundBuffer};
ghost use Rattle.rv_sequences.specs.Parts.{PutsAlone};
ghost use Rattle.rv_compress.specs.Encoded.{Holds, IsHalf, WhereHalf};
ghost use Rattle.rv_code.specs.Operations.{short_jump};
ghost use Rattle.rv_code.specs.Slots.{Op};

use crate::words::put_word;
use mach_buffer::MachBuffer;
use rv_base::{IsaFlags, OutOfMemory, Reg, WritableReg, writable_zero_reg};
use rv_compress::{
    Encoded, encoded_ebreak, encoded_jalr, encoded_load, encoded_lui, encoded_rri, encoded_rrr,
    encoded_store,
};
use rv_encode::{encode_cj_type, encode_jal};
use rv_imms::{Imm12, Imm20};
use rv_inst::LabelUse;
use rv_ops::{AluOPRRI, AluOPRRR, CjOp, LoadOP, StoreOP};

/// Puts an instruction.
pub(crate) fn put_encoded(
    sink: &mut MachBuffer<LabelUse>,
    encoded: Encoded,
) -> Result<(), OutOfMemory>
    requires room { length (bytes_of sink.old) + 4 < code_limit }
    requires sound { IsSoundBuffer sink.old }
    ensures slot { OnOk result ((flags : IsaFlags) (d : Decoded) → Holds flags encoded d → WhereHalf encoded (IsOwnForm d) → PutsAlone flags (Op d ∷ []) sink.old sink.new) }
    ensures long { OnOk result (length (bytes_of sink.new) ≤ length (bytes_of sink.old) + 4) }
    ensures sound { OnOk result (IsSoundBuffer sink.new) }
    ensures refused { OnErr result (spoiled_of sink.new ≡ true) }
{
    match encoded {
        Encoded::Half(half) => put_half(sink, half),
        Encoded::Word(word) => put_word(sink, word),
    }
}

/// Puts an instruction of sixteen bits.
fn put_half(sink: &mut MachBuffer<LabelUse>, half: u16) -> Result<(), OutOfMemory>
    requires room { length (bytes_of sink.old) + 4 < code_limit }
    requires sound { IsSoundBuffer sink.old }
    ensures slot { OnOk result ((flags : IsaFlags) (d : Decoded) → IsHalf flags half d → IsOwnForm d half → PutsAlone flags (Op d ∷ []) sink.old sink.new) }
    ensures long { OnOk result (length (bytes_of sink.new) ≤ length (bytes_of sink.old) + 4) }
    ensures sound { OnOk result (IsSoundBuffer sink.new) }
    ensures refused { OnErr result (spoiled_of sink.new ≡ true) }
{
    sink.put2(half)?;
    Ok(())
}

/// An operation of two registers.
pub fn put_rrr(
    sink: &mut MachBuffer<LabelUse>,
    flags: IsaFlags,
    op: AluOPRRR,
    rd: WritableReg,
    rs1: Reg,
    rs2: Reg,
) -> Result<(), OutOfMemory>
    requires rd { IsIntRegister rd.reg }
    requires rs1 { IsIntRegister rs1 }
    requires rs2 { IsIntRegister rs2 }
    requires room { length (bytes_of sink.old) + 4 < code_limit }
    requires sound { IsSoundBuffer sink.old }
    ensures slots { OnOk result (PutsAlone flags (Op (short_rrr flags op (number_of rd.reg) (number_of rs1) (number_of rs2)) ∷ []) sink.old sink.new) }
    ensures long { OnOk result (length (bytes_of sink.new) ≤ length (bytes_of sink.old) + 4) }
    ensures sound { OnOk result (IsSoundBuffer sink.new) }
    ensures refused { OnErr result (spoiled_of sink.new ≡ true) }
{
    put_encoded(sink, encoded_rrr(flags, op, rd, rs1, rs2))
}

/// An operation of a register and an immediate.
pub fn put_rri(
    sink: &mut MachBuffer<LabelUse>,
    flags: IsaFlags,
    op: AluOPRRI,
    rd: WritableReg,
    rs: Reg,
    imm: Imm12,
) -> Result<(), OutOfMemory>
    requires rd { IsIntRegister rd.reg }
    requires rs { IsIntRegister rs }
    requires room { length (bytes_of sink.old) + 4 < code_limit }
    requires sound { IsSoundBuffer sink.old }
    ensures slots { OnOk result (PutsAlone flags (Op (short_rri flags op (number_of rd.reg) (number_of rs) imm.value) ∷ []) sink.old sink.new) }
    ensures long { OnOk result (length (bytes_of sink.new) ≤ length (bytes_of sink.old) + 4) }
    ensures sound { OnOk result (IsSoundBuffer sink.new) }
    ensures refused { OnErr result (spoiled_of sink.new ≡ true) }
{
    put_encoded(sink, encoded_rri(flags, op, rd, rs, imm))
}

/// An upper immediate.
pub fn put_lui(
    sink: &mut MachBuffer<LabelUse>,
    flags: IsaFlags,
    rd: WritableReg,
    imm: Imm20,
) -> Result<(), OutOfMemory>
    requires rd { IsIntRegister rd.reg }
    requires room { length (bytes_of sink.old) + 4 < code_limit }
    requires sound { IsSoundBuffer sink.old }
    ensures slots { OnOk result (PutsAlone flags (Op (short_lui flags (number_of rd.reg) imm.value) ∷ []) sink.old sink.new) }
    ensures long { OnOk result (length (bytes_of sink.new) ≤ length (bytes_of sink.old) + 4) }
    ensures sound { OnOk result (IsSoundBuffer sink.new) }
    ensures refused { OnErr result (spoiled_of sink.new ≡ true) }
{
    put_encoded(sink, encoded_lui(flags, rd, imm))
}

/// A jump to a register's address plus an offset, with a link.
pub fn put_jalr(
    sink: &mut MachBuffer<LabelUse>,
    flags: IsaFlags,
    rd: WritableReg,
    base: Reg,
    offset: Imm12,
) -> Result<(), OutOfMemory>
    requires rd { IsIntRegister rd.reg }
    requires base { IsIntRegister base }
    requires room { length (bytes_of sink.old) + 4 < code_limit }
    requires sound { IsSoundBuffer sink.old }
    ensures slots { OnOk result (PutsAlone flags (Op (short_jalr flags (number_of rd.reg) (number_of base) offset.value) ∷ []) sink.old sink.new) }
    ensures refused { OnErr result (spoiled_of sink.new ≡ true) }
{
    put_encoded(sink, encoded_jalr(flags, rd, base, offset))
}

/// A breakpoint.
pub fn put_ebreak(sink: &mut MachBuffer<LabelUse>, flags: IsaFlags) -> Result<(), OutOfMemory>
    requires room { length (bytes_of sink.old) + 4 < code_limit }
    requires sound { IsSoundBuffer sink.old }
    ensures slots { OnOk result (PutsAlone flags (Op (short_ebreak flags) ∷ []) sink.old sink.new) }
    ensures refused { OnErr result (spoiled_of sink.new ≡ true) }
{
    put_encoded(sink, encoded_ebreak(flags))
}

/// A load from a register's address plus an offset.
pub(crate) fn put_load_word(
    sink: &mut MachBuffer<LabelUse>,
    flags: IsaFlags,
    op: LoadOP,
    rd: WritableReg,
    base: Reg,
    offset: Imm12,
) -> Result<(), OutOfMemory>
    requires has { has_load flags op ≡ true }
    requires rd { IsRealRegister rd.reg }
    requires base { IsIntRegister base }
    requires room { length (bytes_of sink.old) + 4 < code_limit }
    requires sound { IsSoundBuffer sink.old }
    ensures slots { OnOk result (PutsAlone flags (Op (short_load flags op (number_of rd.reg) (number_of base) offset.value) ∷ []) sink.old sink.new) }
    ensures refused { OnErr result (spoiled_of sink.new ≡ true) }
{
    put_encoded(sink, encoded_load(flags, op, rd, base, offset))
}

/// A store to a register's address plus an offset.
pub(crate) fn put_store_word(
    sink: &mut MachBuffer<LabelUse>,
    flags: IsaFlags,
    op: StoreOP,
    base: Reg,
    src: Reg,
    offset: Imm12,
) -> Result<(), OutOfMemory>
    requires has { has_store flags op ≡ true }
    requires base { IsIntRegister base }
    requires src { IsRealRegister src }
    requires room { length (bytes_of sink.old) + 4 < code_limit }
    requires sound { IsSoundBuffer sink.old }
    ensures slots { OnOk result (PutsAlone flags (Op (short_store flags op (number_of base) (number_of src) offset.value) ∷ []) sink.old sink.new) }
    ensures refused { OnErr result (spoiled_of sink.new ≡ true) }
{
    put_encoded(sink, encoded_store(flags, op, base, src, offset))
}

/// A jump by an even distance.
pub(crate) fn put_short_jump(
    sink: &mut MachBuffer<LabelUse>,
    flags: IsaFlags,
    distance: Imm12,
) -> Result<(), OutOfMemory>
    requires even { IsEven distance.value }
    requires room { length (bytes_of sink.old) + 4 < code_limit }
    requires sound { IsSoundBuffer sink.old }
    ensures slots { OnOk result (PutsAlone flags (Op (short_jump flags distance.value) ∷ []) sink.old sink.new) }
    ensures long { OnOk result (length (bytes_of sink.new) ≤ length (bytes_of sink.old) + 4) }
    ensures sound { OnOk result (IsSoundBuffer sink.new) }
    ensures refused { OnErr result (spoiled_of sink.new ≡ true) }
{
    put_encoded(sink, encoded_jump(flags, distance))
}

/// A jump by an even distance, as a halfword or a word.
fn encoded_jump(flags: IsaFlags, distance: Imm12) -> Encoded
    requires { IsEven distance.value }
    ensures { Holds flags result (short_jump flags distance.value) }
{
    if flags.has_zca {
        Encoded::Half(encode_cj_type(CjOp::CJ, distance))
    } else {
        Encoded::Word(encode_jal(writable_zero_reg(), i32::from(distance.as_i16())))
    }
}
