//! Instructions that become several pieces of code: traps, constants among the code, and data.

ghost use Rattle.std.specs.Prelude.{◌≡◌, ◌⊎◌, [], ◌∷◌, ◌++◌, ◌+◌, ◌*◌, ◌%◌, ◌^◌, ◌<◌, length, pos, OnOk, OnErr, Some, true, false};
ghost use Rattle.std.specs.Int.{to_le_bytes};
ghost use mir.Syntax.{w32};
ghost use Rattle.rv_base.specs.declared.flags.IsaFlags.{IsaFlags};
ghost use Rattle.rv_base.specs.Regs.{number_of};
ghost use Rattle.rv_base.specs.LabelUse.{code_limit};
ghost use Rattle.rv_ops.specs.declared.memory.LoadOP.TheVariants as loads;
ghost use Rattle.rv_ops.specs.Memory.{is_float_load};
ghost use Rattle.rv_encode.specs.Registers.{IsIntRegister};
ghost use Rattle.rv_encode.specs.Layouts.{IsEven};
ghost use Rattle.rv_inst.specs.Forms.{jump_size};
ghost use Rattle.mach_buffer.specs.Buffer.{bytes_of, allocated_of, spoiled_of};
ghost use Rattle.rv_sequences.specs.Emitted.{IsSoundBuffer};
ghost use Rattle.rv_sequences.specs.Parts.{PutsAlone};
ghost use Rattle.rv_code.specs.Slots.{Data};
ghost use Rattle.rv_code.specs.Pieces.{Word64, literal_slots, slots_of};
ghost use Rattle.rv_code.specs.Traps.{trap_if_pieces};
ghost use Rattle.rv_sequences.specs.Code.{code_most, pieces_of, AreSound, IsLabelled};
ghost use Rattle.rv_code.specs.InstParts.{trap_slots, load_over, literal_of};

use crate::code::{CodePiece, bind, branch, put_code};
use crate::shortest::put_short_jump;
use crate::words::put_word;
use mach_buffer::MachBuffer;
use rv_base::{IrType, IsaFlags, OutOfMemory, TrapCode, WritableReg};
use rv_encode::{enc_auipc, encode_load};
use rv_imms::{Imm12, Imm20};
use rv_inst::LabelUse;
use rv_ops::{IntegerCompare, LoadOP};

/// Four or eight bytes among the code.
pub fn put_bytes(sink: &mut MachBuffer<LabelUse>, bytes: &[u8]) -> Result<(), OutOfMemory>
    requires size { (length bytes.now ≡ 4) ⊎ (length bytes.now ≡ 8) }
    requires room { length (bytes_of sink.old) + 8 < code_limit }
    requires sound { IsSoundBuffer sink.old }
    ensures slots { OnOk result ((flags : IsaFlags) → PutsAlone flags (Data bytes.now ∷ []) sink.old sink.new) }
    ensures refused { OnErr result (spoiled_of sink.new ≡ true) }
{
    sink.put_data(bytes)?;
    Ok(())
}

/// Bytes that are no operation, and the record of their trap.
pub fn put_trap(
    sink: &mut MachBuffer<LabelUse>,
    flags: IsaFlags,
    code: TrapCode,
) -> Result<(), OutOfMemory>
    requires room { length (bytes_of sink.old) + 4 < code_limit }
    requires sound { IsSoundBuffer sink.old }
    ensures slots { OnOk result (PutsAlone flags (trap_slots flags code) sink.old sink.new) }
    ensures refused { OnErr result (spoiled_of sink.new ≡ true) }
{
    sink.add_trap(code)?;
    if flags.has_zca {
        sink.put2(0)?;
        return Ok(());
    }
    sink.put4(0)?;
    Ok(())
}

/// A trap where the comparison holds. Label 0 stands after it.
#[inline(never)]
pub fn put_trap_if(
    sink: &mut MachBuffer<LabelUse>,
    flags: IsaFlags,
    cmp: IntegerCompare,
    code: TrapCode,
) -> Result<(), OutOfMemory>
    requires rs1 { IsIntRegister cmp.rs1 }
    requires rs2 { IsIntRegister cmp.rs2 }
    requires few { allocated_of sink.old < 2 ^ 29 }
    requires room { length (bytes_of sink.old) + 12 < code_limit }
    requires sound { IsSoundBuffer sink.old }
    ensures slots { OnOk result (PutsAlone flags (slots_of flags (trap_if_pieces cmp code)) sink.old sink.new) }
    ensures refused { OnErr result (spoiled_of sink.new ≡ true) }
{
    put_code(sink, flags, &trap_if_code(cmp, code))
}

fn trap_if_code(cmp: IntegerCompare, code: TrapCode) -> [CodePiece; 4]
    requires rs1 { IsIntRegister cmp.rs1 }
    requires rs2 { IsIntRegister cmp.rs2 }
    ensures pieces { pieces_of result ≡ trap_if_pieces cmp code }
    ensures registers { AreSound result }
    ensures labels { IsLabelled 0 [] result }
    ensures few { code_most result ≡ 8 }
{
    [
        CodePiece::New,
        branch(cmp.inverse(), 0),
        CodePiece::Trap { code },
        bind(0),
    ]
}

/// A constant among the code, and before it the code that loads it and jumps over it.
#[inline(never)]
pub fn put_constant(
    sink: &mut MachBuffer<LabelUse>,
    flags: IsaFlags,
    rd: WritableReg,
    ty: IrType,
    imm: u64,
) -> Result<(), OutOfMemory>
    requires rd { IsIntRegister rd.reg }
    requires room { length (bytes_of sink.old) + 20 < code_limit }
    requires sound { IsSoundBuffer sink.old }
    ensures slots { OnOk result (PutsAlone flags (literal_slots flags (number_of rd.reg) (literal_of ty imm)) sink.old sink.new) }
    ensures refused { OnErr result (spoiled_of sink.new ≡ true) }
{
    if ty.bits() == 32 {
        put_word_constant(sink, flags, rd, (imm % 4_294_967_296) as u32)
    } else {
        put_double_constant(sink, flags, rd, imm)
    }
}

/// A constant of four bytes.
fn put_word_constant(
    sink: &mut MachBuffer<LabelUse>,
    flags: IsaFlags,
    rd: WritableReg,
    imm: u32,
) -> Result<(), OutOfMemory>
    requires rd { IsIntRegister rd.reg }
    requires room { length (bytes_of sink.old) + 20 < code_limit }
    requires sound { IsSoundBuffer sink.old }
    ensures slots { OnOk result (PutsAlone flags (load_over flags (number_of rd.reg) loads.Lw 4 ++ Data (to_le_bytes w32 imm) ∷ []) sink.old sink.new) }
    ensures refused { OnErr result (spoiled_of sink.new ≡ true) }
{
    put_load_over(sink, flags, rd, LoadOP::Lw, 4)?;
    sink.put4(imm)?;
    Ok(())
}

/// A constant of eight bytes.
pub(crate) fn put_double_constant(
    sink: &mut MachBuffer<LabelUse>,
    flags: IsaFlags,
    rd: WritableReg,
    imm: u64,
) -> Result<(), OutOfMemory>
    requires rd { IsIntRegister rd.reg }
    requires room { length (bytes_of sink.old) + 20 < code_limit }
    requires sound { IsSoundBuffer sink.old }
    ensures slots { OnOk result (PutsAlone flags (literal_slots flags (number_of rd.reg) (Word64 imm)) sink.old sink.new) }
    ensures refused { OnErr result (spoiled_of sink.new ≡ true) }
{
    put_load_over(sink, flags, rd, LoadOP::Ld, 8)?;
    sink.put8(imm)?;
    Ok(())
}

/// A load of what stands after this code, and a jump over it.
pub fn put_load_over(
    sink: &mut MachBuffer<LabelUse>,
    flags: IsaFlags,
    rd: WritableReg,
    op: LoadOP,
    size: u8,
) -> Result<(), OutOfMemory>
    requires integer { is_float_load op ≡ false }
    requires rd { IsIntRegister rd.reg }
    requires size { (size ≡ 4) ⊎ (size ≡ 8) }
    requires room { length (bytes_of sink.old) + 12 < code_limit }
    requires sound { IsSoundBuffer sink.old }
    ensures slots { OnOk result (PutsAlone flags (load_over flags (number_of rd.reg) op size) sink.old sink.new) }
    ensures refused { OnErr result (spoiled_of sink.new ≡ true) }
{
    put_word(sink, enc_auipc(rd, Imm20::ZERO))?;
    put_word(sink, encode_load(op, rd, rd.reg, over_jump(flags, 8)))?;
    put_short_jump(sink, flags, over_jump(flags, size))?;
    Ok(())
}

/// How far it is over so many bytes and a jump.
fn over_jump(flags: IsaFlags, size: u8) -> Imm12
    requires { (size ≡ 4) ⊎ (size ≡ 8) }
    ensures value { result.value ≡ pos (size + jump_size flags) }
    ensures even { IsEven result.value }
{
    if flags.has_zca {
        Imm12::from_i16(i16::from(size) + 2)
    } else {
        Imm12::from_i16(i16::from(size) + 4)
    }
}
