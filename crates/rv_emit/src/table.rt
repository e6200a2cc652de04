//! The sequence of a branch by a table.

ghost use Rattle.std.specs.Prelude.{◌≡◌, [], ◌∷◌, ◌+◌, ◌*◌, ◌<◌, ◌≤◌, length, map, pos, Some, OnOk, OnErr, true};
ghost use Rattle.rv_base.specs.declared.flags.IsaFlags.{IsaFlags};
ghost use Rattle.rv_base.specs.LabelUse.{code_limit};
ghost use Rattle.rv_base.specs.Regs.{number_of};
ghost use Rattle.rv_encode.specs.Layouts.{IsIType};
ghost use Rattle.rv_encode.specs.Operations.{decoded_rri};
ghost use Rattle.rv_encode.specs.Registers.{IsIntRegister};
ghost use Rattle.rv_machine.specs.Decode.{decode};
ghost use Rattle.rv_machine.specs.Opcodes.{JALR};
ghost use Rattle.rv_ops.specs.declared.alu.AluOPRRI.TheVariants.{Slli};
ghost use Rattle.mach_uses.specs.Labels.{inner_count};
ghost use Rattle.mach_buffer.specs.Buffer.{bytes_of, allocated_of, spoiled_of};
ghost use Rattle.rv_sequences.specs.Emitted.{IsSoundBuffer};
ghost use Rattle.rv_sequences.specs.Parts.{PutsAlone};
ghost use Rattle.rv_code.specs.InstParts.{table_slots};
ghost use Rattle.rv_code.specs.Operations.{decoded_jalr};
ghost use Rattle.rv_code.specs.Slots.{Op};
ghost use Rattle.rv_code.specs.Tables.{bound_op, enter_ops, far_jump, jump_slots};
ghost use Rattle.rv_code.specs.Usable.{AreListed, IsListed};

use mach_buffer::MachBuffer;
use rv_base::{
    IntCC, IsaFlags, MachLabel, OutOfMemory, Reg, WritableReg, spilltmp_reg, writable_spilltmp_reg,
    writable_zero_reg,
};
use rv_encode::{
    enc_auipc, enc_jalr, encode_alu_rr_imm12, encode_alu_rrr, encode_branch, encode_i_type,
};
use rv_imms::{Imm12, Imm20};
use rv_inst::LabelUse;
use rv_machine::JALR;
use rv_ops::{AluOPRRI, AluOPRRR, IntegerCompare};
use rv_sequences::{put_extend, put_number, put_use, put_word};

/// Goes to the label of an index, which is the low 32 bits of a register; the first of the labels is the default.
pub(crate) fn put_table(
    sink: &mut MachBuffer<LabelUse>,
    flags: IsaFlags,
    index: Reg,
    tmp1: WritableReg,
    tmp2: WritableReg,
    targets: &[MachLabel],
) -> Result<(), OutOfMemory>
    requires index { IsIntRegister index }
    requires tmp1 { IsIntRegister tmp1.reg }
    requires tmp2 { IsIntRegister tmp2.reg }
    requires listed { AreListed targets.now }
    requires some { 1 ≤ length targets.now }
    requires allocated { allocated_of sink.old + 2 < inner_count }
    requires room { length (bytes_of sink.old) + 40 + 8 * length targets.now < code_limit }
    requires sound { IsSoundBuffer sink.old }
    ensures slots { OnOk result (PutsAlone flags (table_slots flags (number_of index) (number_of tmp1.reg) (number_of tmp2.reg) targets.now) sink.old sink.new) }
    ensures refused { OnErr result (spoiled_of sink.new ≡ true) }
{
    let default = targets[0];
    let labels = &targets[1..];
    put_extend(sink, flags, writable_spilltmp_reg(), index, false, 32)?;
    put_number(sink, flags, tmp2, labels.len() as u64)?;
    put_jumps(sink, flags, tmp1, tmp2, default, labels)?;
    Ok(())
}

/// Goes to the default where x31 isn't below the number of the labels in `tmp2`, else to the label of that index.
fn put_jumps(
    sink: &mut MachBuffer<LabelUse>,
    flags: IsaFlags,
    tmp1: WritableReg,
    tmp2: WritableReg,
    default: MachLabel,
    labels: &[MachLabel],
) -> Result<(), OutOfMemory>
    requires tmp1 { IsIntRegister tmp1.reg }
    requires tmp2 { IsIntRegister tmp2.reg }
    requires default { IsListed default }
    requires listed { AreListed labels.now }
    requires room { length (bytes_of sink.old) + 28 + 8 * length labels.now < code_limit }
    requires sound { IsSoundBuffer sink.old }
    ensures slots { OnOk result (PutsAlone flags (jump_slots (number_of tmp1.reg) (number_of tmp2.reg) default labels.now) sink.old sink.new) }
    ensures refused { OnErr result (spoiled_of sink.new ≡ true) }
{
    put_word(sink, bound_word(tmp2.reg))?;
    put_far_jump(sink, flags, tmp2, default)?;
    put_entry(sink, flags, tmp1, tmp2)?;
    put_far_jumps(sink, flags, tmp2, labels)?;
    Ok(())
}

/// Over the jump to the default where x31 is below the number of the other labels.
fn bound_word(tmp2: Reg) -> u32
    requires { IsIntRegister tmp2 }
    ensures { (flags : IsaFlags) → decode flags result ≡ Some (bound_op (number_of tmp2)) }
{
    let is_below = IntegerCompare {
        kind: IntCC::UnsignedLessThan,
        rs1: spilltmp_reg(),
        rs2: tmp2,
    };
    encode_branch(is_below, 12)
}

/// A jump in eight bytes, to anywhere in code.
fn put_far_jump(
    sink: &mut MachBuffer<LabelUse>,
    flags: IsaFlags,
    tmp: WritableReg,
    label: MachLabel,
) -> Result<(), OutOfMemory>
    requires tmp { IsIntRegister tmp.reg }
    requires label { IsListed label }
    requires room { length (bytes_of sink.old) + 8 < code_limit }
    requires sound { IsSoundBuffer sink.old }
    ensures slots { OnOk result (PutsAlone flags (far_jump (number_of tmp.reg) label ∷ []) sink.old sink.new) }
    ensures refused { OnErr result (spoiled_of sink.new ≡ true) }
{
    put_use(sink, enc_auipc(tmp, Imm20::ZERO), label, LabelUse::PCRel32)?;
    sink.put4(far_word(writable_zero_reg(), tmp.reg))?;
    Ok(())
}

/// The word of a jump past a register, which links by another, and whose immediate is still to come.
pub(crate) fn far_word(link: WritableReg, tmp: Reg) -> u32
    requires link { IsIntRegister link.reg }
    requires tmp { IsIntRegister tmp }
    ensures { IsIType result JALR (number_of link.reg) 0 (number_of tmp) 0 }
{
    encode_i_type(JALR, link, 0, tmp, Imm12::ZERO)
}

/// Into the table that comes next, where each label has a jump in eight bytes.
fn put_entry(
    sink: &mut MachBuffer<LabelUse>,
    flags: IsaFlags,
    tmp1: WritableReg,
    tmp2: WritableReg,
) -> Result<(), OutOfMemory>
    requires tmp1 { IsIntRegister tmp1.reg }
    requires tmp2 { IsIntRegister tmp2.reg }
    requires room { length (bytes_of sink.old) + 16 < code_limit }
    requires sound { IsSoundBuffer sink.old }
    ensures slots { OnOk result (PutsAlone flags (map Op (enter_ops (number_of tmp1.reg) (number_of tmp2.reg))) sink.old sink.new) }
    ensures refused { OnErr result (spoiled_of sink.new ≡ true) }
{
    put_word(sink, enc_auipc(tmp1, Imm20::ZERO))?;
    put_word(sink, eights_word(tmp2))?;
    put_word(
        sink,
        encode_alu_rrr(AluOPRRR::Add, tmp1, tmp1.reg, tmp2.reg),
    )?;
    put_word(sink, enter_word(tmp1.reg))?;
    Ok(())
}

/// Eight times the index in x31.
fn eights_word(tmp2: WritableReg) -> u32
    requires { IsIntRegister tmp2.reg }
    ensures { (flags : IsaFlags) → decode flags result ≡ Some (decoded_rri Slli (number_of tmp2.reg) 31 (pos 3)) }
{
    encode_alu_rr_imm12(AluOPRRI::Slli, tmp2, spilltmp_reg(), Imm12::from_i16(3))
}

/// Past the four words that make the jump into the table.
fn enter_word(tmp1: Reg) -> u32
    requires { IsIntRegister tmp1 }
    ensures { (flags : IsaFlags) → decode flags result ≡ Some (decoded_jalr 0 (number_of tmp1) (pos 16)) }
{
    enc_jalr(writable_zero_reg(), tmp1, Imm12::from_i16(16))
}

/// The table: a jump to each of the labels.
fn put_far_jumps(
    sink: &mut MachBuffer<LabelUse>,
    flags: IsaFlags,
    tmp: WritableReg,
    labels: &[MachLabel],
) -> Result<(), OutOfMemory>
    requires tmp { IsIntRegister tmp.reg }
    requires listed { AreListed labels.now }
    requires room { length (bytes_of sink.old) + 8 * length labels.now < code_limit }
    requires sound { IsSoundBuffer sink.old }
    ensures slots { OnOk result (PutsAlone flags (map (far_jump (number_of tmp.reg)) labels.now) sink.old sink.new) }
    ensures refused { OnErr result (spoiled_of sink.new ≡ true) }
{
    for label in labels {
        put_far_jump(sink, flags, tmp, *label)?;
    }
    Ok(())
}
