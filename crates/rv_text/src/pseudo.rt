//! The texts of instructions that compute nothing.

ghost use Rattle.std.specs.Prelude.{◌≡◌, ◌++◌, OnOk, length, string_bytes, codes};
ghost use Rattle.std.specs.List.{flat_map};
ghost use Rattle.std.specs.Fmt.{decimal};
ghost use Rattle.std.specs.Int.{w32, w64, from_le_bytes};
ghost use Rattle.rv_inst.specs.Operands.{family_of};
ghost use Rattle.rv_inst.specs.declared.inst.Family.TheVariants.{Pseudo};
ghost use Rattle.rv_base.specs.RegNames.{name_of};
ghost use Rattle.rv_text.specs.Operands.{pair_text, arg_text, ret_text, unwind_text, hex, listed, after_comma};
ghost use Rattle.rv_text.specs.Texts.{text_of, data_text};

use crate::operands::put;
use rv_base::{ArgPair, OutOfMemory, Reg, RetPair, UnwindInst};
use rv_inst::Inst;
use std::fmt::Write;

/// A virtual register, and the machine's that stands for it.
pub(crate) fn put_pair(out: &mut String, vreg: Reg, preg: Reg) -> Result<(), OutOfMemory>
    ensures { OnOk result (string_bytes out.new ≡ string_bytes out.old ++ pair_text vreg preg) }
{
    write!(out, " {vreg}={preg}")?;
    Ok(())
}

fn put_args(out: &mut String, args: &[ArgPair]) -> Result<(), OutOfMemory>
    ensures { OnOk result (string_bytes out.new ≡ string_bytes out.old ++ flat_map arg_text args.now) }
{
    for pair in args {
        put_pair(out, pair.vreg.reg, pair.preg)?;
    }
    Ok(())
}

fn put_rets(out: &mut String, rets: &[RetPair]) -> Result<(), OutOfMemory>
    ensures { OnOk result (string_bytes out.new ≡ string_bytes out.old ++ flat_map ret_text rets.now) }
{
    for pair in rets {
        put_pair(out, pair.vreg, pair.preg)?;
    }
    Ok(())
}

fn put_push(out: &mut String, up: u32) -> Result<(), OutOfMemory>
    ensures { OnOk result (string_bytes out.new ≡ string_bytes out.old ++ codes "PushFrameRegs { offset_upward_to_caller_sp: " ++ decimal up ++ codes " }") }
{
    write!(out, "PushFrameRegs {{ offset_upward_to_caller_sp: {up} }}")?;
    Ok(())
}

fn put_frame(out: &mut String, up: u32, down: u32) -> Result<(), OutOfMemory>
    ensures { OnOk result (string_bytes out.new ≡ string_bytes out.old ++ codes "DefineNewFrame { offset_upward_to_caller_sp: " ++ decimal up ++ codes ", offset_downward_to_clobbers: " ++ decimal down ++ codes " }") }
{
    write!(
        out,
        "DefineNewFrame {{ offset_upward_to_caller_sp: {up}, offset_downward_to_clobbers: {down} }}"
    )?;
    Ok(())
}

fn put_alloc(out: &mut String, size: u32) -> Result<(), OutOfMemory>
    ensures { OnOk result (string_bytes out.new ≡ string_bytes out.old ++ codes "StackAlloc { size: " ++ decimal size ++ codes " }") }
{
    write!(out, "StackAlloc {{ size: {size} }}")?;
    Ok(())
}

fn put_save(out: &mut String, above: u32, reg: Reg) -> Result<(), OutOfMemory>
    ensures { OnOk result (string_bytes out.new ≡ string_bytes out.old ++ codes "SaveReg { clobber_offset: " ++ decimal above ++ codes ", reg: " ++ name_of reg ++ codes " }") }
{
    write!(out, "SaveReg {{ clobber_offset: {above}, reg: {reg} }}")?;
    Ok(())
}

fn put_step(out: &mut String, step: UnwindInst) -> Result<(), OutOfMemory>
    ensures { OnOk result (string_bytes out.new ≡ string_bytes out.old ++ unwind_text step) }
{
    match step {
        UnwindInst::PushFrameRegs {
            offset_upward_to_caller_sp,
        } => put_push(out, offset_upward_to_caller_sp),
        UnwindInst::DefineNewFrame {
            offset_upward_to_caller_sp,
            offset_downward_to_clobbers,
        } => put_frame(out, offset_upward_to_caller_sp, offset_downward_to_clobbers),
        UnwindInst::StackAlloc { size } => put_alloc(out, size),
        UnwindInst::SaveReg {
            clobber_offset,
            reg,
        } => put_save(out, clobber_offset, reg),
    }
}

fn put_byte(out: &mut String, byte: u8) -> Result<(), OutOfMemory>
    ensures { OnOk result (string_bytes out.new ≡ string_bytes out.old ++ decimal byte) }
{
    write!(out, "{byte}")?;
    Ok(())
}

fn put_further_byte(out: &mut String, byte: u8) -> Result<(), OutOfMemory>
    ensures { OnOk result (string_bytes out.new ≡ string_bytes out.old ++ after_comma decimal byte) }
{
    write!(out, ", {byte}")?;
    Ok(())
}

fn put_further_bytes(out: &mut String, bytes: &[u8]) -> Result<(), OutOfMemory>
    ensures { OnOk result (string_bytes out.new ≡ string_bytes out.old ++ flat_map (after_comma decimal) bytes.now) }
{
    for byte in bytes {
        put_further_byte(out, *byte)?;
    }
    Ok(())
}

fn put_bytes(out: &mut String, bytes: &[u8]) -> Result<(), OutOfMemory>
    ensures { OnOk result (string_bytes out.new ≡ string_bytes out.old ++ listed decimal bytes.now) }
{
    match bytes {
        [] => Ok(()),
        [first, further @ ..] => {
            put_byte(out, *first)?;
            put_further_bytes(out, further)
        }
    }
}

fn put_four(out: &mut String, bytes: &[u8]) -> Result<(), OutOfMemory>
    requires { length bytes.now ≡ 4 }
    ensures { OnOk result (string_bytes out.new ≡ string_bytes out.old ++ (codes ".4byte " ++ hex (from_le_bytes w32 bytes.now))) }
{
    let number = u32::from_le_bytes([bytes[0], bytes[1], bytes[2], bytes[3]]);
    write!(out, ".4byte 0x{number:x}")?;
    Ok(())
}

fn put_eight(out: &mut String, bytes: &[u8]) -> Result<(), OutOfMemory>
    requires { length bytes.now ≡ 8 }
    ensures { OnOk result (string_bytes out.new ≡ string_bytes out.old ++ (codes ".8byte " ++ hex (from_le_bytes w64 bytes.now))) }
{
    let number = u64::from_le_bytes([
        bytes[0], bytes[1], bytes[2], bytes[3], bytes[4], bytes[5], bytes[6], bytes[7],
    ]);
    write!(out, ".8byte 0x{number:x}")?;
    Ok(())
}

fn put_others(out: &mut String, bytes: &[u8]) -> Result<(), OutOfMemory>
    ensures { OnOk result (string_bytes out.new ≡ string_bytes out.old ++ (codes ".data [" ++ listed decimal bytes.now ++ codes "]")) }
{
    put(out, ".data [")?;
    put_bytes(out, bytes)?;
    put(out, "]")?;
    Ok(())
}

fn put_data(out: &mut String, bytes: &[u8]) -> Result<(), OutOfMemory>
    ensures { OnOk result (string_bytes out.new ≡ string_bytes out.old ++ data_text bytes.now) }
{
    if bytes.len() == 4 {
        put_four(out, bytes)
    } else if bytes.len() == 8 {
        put_eight(out, bytes)
    } else {
        put_others(out, bytes)
    }
}

fn put_dummy_use(out: &mut String, reg: Reg) -> Result<(), OutOfMemory>
    ensures { OnOk result (string_bytes out.new ≡ string_bytes out.old ++ codes "dummy_use " ++ name_of reg) }
{
    write!(out, "dummy_use {reg}")?;
    Ok(())
}

fn put_island(out: &mut String, needed_space: u32) -> Result<(), OutOfMemory>
    ensures { OnOk result (string_bytes out.new ≡ string_bytes out.old ++ codes "emit_island " ++ decimal needed_space) }
{
    write!(out, "emit_island {needed_space}")?;
    Ok(())
}

/// Appends the text of an instruction of this family; of others nothing.
pub(crate) fn put_pseudo(out: &mut String, inst: &Inst) -> Result<(), OutOfMemory>
    ensures { family_of inst.now ≡ Pseudo → OnOk result (string_bytes out.new ≡ string_bytes out.old ++ text_of inst.now) }
{
    match inst {
        Inst::Nop0 => put(out, "##zero length nop"),
        Inst::Nop4 => put(out, "##fixed 4-size nop"),
        Inst::EBreak => put(out, "ebreak"),
        Inst::SequencePoint => put(out, "sequence_point"),
        Inst::Args { args } => {
            put(out, "args")?;
            put_args(out, args.as_slice())
        }
        Inst::Rets { rets } => {
            put(out, "rets")?;
            put_rets(out, rets.as_slice())
        }
        Inst::DummyUse { reg } => put_dummy_use(out, *reg),
        Inst::Unwind { inst } => {
            put(out, "unwind ")?;
            put_step(out, *inst)
        }
        Inst::EmitIsland { needed_space } => put_island(out, *needed_space),
        Inst::RawData { bytes } => put_data(out, bytes.as_slice()),
        _ => Ok(()),
    }
}
