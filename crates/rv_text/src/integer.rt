//! The texts of instructions that compute an integer register.

ghost use Rattle.std.specs.Prelude.{◌≡◌, ◌++◌, OnOk, string_bytes, codes};
ghost use Rattle.std.specs.Fmt.{decimal};
ghost use Rattle.rv_base.specs.RegNames.{name_of};
ghost use Rattle.rv_inst.specs.Operands.{family_of};
ghost use Rattle.rv_inst.specs.declared.inst.Family.TheVariants.{Integer};
ghost use Rattle.rv_ops.specs.Alu.{rri_name, rri_numbers, funct12_of};
ghost use Rattle.rv_text.specs.Operands.{three, hex, value_text, written};
ghost use Rattle.rv_text.specs.Texts.{text_of, inline_text, rrr_text, with_immediate, rri_text, move_name, shift_of, shifts_text, extend_text, select_text};

use crate::operands::{
    is_zero, put, put_compare, put_immediate, put_number, put_three, put_two, put_value,
};
use rv_base::{IrType, OutOfMemory, Reg, ValueRegs, WritableReg};
use rv_inst::{Inst, SelectInfo};
use rv_ops::{AluOPRRI, AluOPRRR};
use std::fmt::Write;

fn put_hex(out: &mut String, n: u64) -> Result<(), OutOfMemory>
    ensures { OnOk result (string_bytes out.new ≡ string_bytes out.old ++ hex n) }
{
    write!(out, "0x{n:x}")?;
    Ok(())
}

fn put_inline(out: &mut String, rd: Reg, imm: u64) -> Result<(), OutOfMemory>
    ensures { OnOk result (string_bytes out.new ≡ string_bytes out.old ++ inline_text rd imm) }
{
    write!(out, "auipc {rd},0; ld {rd},12({rd}); j 12; .8byte ")?;
    put_hex(out, imm)?;
    Ok(())
}

fn put_rrr(out: &mut String, op: AluOPRRR, rd: Reg, rs1: Reg, rs2: Reg) -> Result<(), OutOfMemory>
    ensures { OnOk result (string_bytes out.new ≡ string_bytes out.old ++ rrr_text op rd rs1 rs2) }
{
    match op {
        AluOPRRR::Adduw if is_zero(rs2) => put_two(out, "zext.w", rd, rs1),
        op => put_three(out, op.op_name(), rd, rs1, rs2),
    }
}

// The operation, with its immediate where it takes one.
fn put_operation(
    out: &mut String,
    op: AluOPRRI,
    rd: Reg,
    rs: Reg,
    imm: i64,
) -> Result<(), OutOfMemory>
    ensures { OnOk result (string_bytes out.new ≡ string_bytes out.old ++ with_immediate (funct12_of (rri_numbers op).upper) (rri_name op) rd rs imm) }
{
    match op.option_funct12() {
        Some(_) => put_two(out, op.op_name(), rd, rs),
        None => put_immediate(out, op.op_name(), rd, rs, imm),
    }
}

fn put_rri(out: &mut String, op: AluOPRRI, rd: Reg, rs: Reg, imm: i64) -> Result<(), OutOfMemory>
    ensures { OnOk result (string_bytes out.new ≡ string_bytes out.old ++ rri_text op rd rs imm) }
{
    match op {
        AluOPRRI::Addi if is_zero(rs) => put_number(out, "li", rd, imm),
        AluOPRRI::Addiw if imm == 0 => put_two(out, "sext.w", rd, rs),
        AluOPRRI::Xori if imm == -1 => put_two(out, "not", rd, rs),
        AluOPRRI::SltiU if imm == 1 => put_two(out, "seqz", rd, rs),
        op => put_operation(out, op, rd, rs, imm),
    }
}

fn move_name(ty: IrType) -> &'static str
    ensures { result.now ≡ move_name ty }
{
    match ty {
        IrType::F16 => "fmv.h",
        IrType::F32 => "fmv.s",
        IrType::F64 => "fmv.d",
        IrType::Vector(_) => "vmv1r.v",
        IrType::I8 | IrType::I16 | IrType::I32 | IrType::I64 | IrType::I128 | IrType::F128 => "mv",
    }
}

fn put_shift(out: &mut String, name: &str, rd: Reg, rn: Reg, shift: u16) -> Result<(), OutOfMemory>
    ensures { OnOk result (string_bytes out.new ≡ string_bytes out.old ++ three name.now (name_of rd) (name_of rn) (decimal shift)) }
{
    write!(out, "{name} {rd},{rn},{shift}")?;
    Ok(())
}

fn put_shifts(out: &mut String, name: &str, rd: Reg, rn: Reg, shift: u16) -> Result<(), OutOfMemory>
    ensures { OnOk result (string_bytes out.new ≡ string_bytes out.old ++ shifts_text name.now rd rn shift) }
{
    put_shift(out, "slli", rd, rn, shift)?;
    put(out, "; ")?;
    put_shift(out, name, rd, rd, shift)?;
    Ok(())
}

fn put_extend(
    out: &mut String,
    rd: Reg,
    rn: Reg,
    signed: bool,
    from_bits: u8,
) -> Result<(), OutOfMemory>
    ensures { OnOk result (string_bytes out.new ≡ string_bytes out.old ++ extend_text rd rn signed from_bits) }
{
    let shift = (320 - u16::from(from_bits)) % 256;
    if signed {
        put_shifts(out, "srai", rd, rn, shift)
    } else if from_bits == 8 {
        put_two(out, "andi", rd, rn)
    } else {
        put_shifts(out, "srli", rd, rn, shift)
    }
}

fn written(dst: ValueRegs<WritableReg>) -> ValueRegs<Reg>
    ensures { result ≡ written dst }
{
    match dst {
        ValueRegs::One(r) => ValueRegs::One(r.reg),
        ValueRegs::Two(r, s) => ValueRegs::Two(r.reg, s.reg),
    }
}

fn put_choice(
    out: &mut String,
    dst: ValueRegs<Reg>,
    x: ValueRegs<Reg>,
    y: ValueRegs<Reg>,
) -> Result<(), OutOfMemory>
    ensures { OnOk result (string_bytes out.new ≡ string_bytes out.old ++ three (codes "select") (value_text dst) (value_text x) (value_text y)) }
{
    put(out, "select ")?;
    put_value(out, dst)?;
    put(out, ",")?;
    put_value(out, x)?;
    put(out, ",")?;
    put_value(out, y)?;
    Ok(())
}

fn put_select(out: &mut String, select: &SelectInfo) -> Result<(), OutOfMemory>
    ensures { OnOk result (string_bytes out.new ≡ string_bytes out.old ++ select_text select.now) }
{
    put_choice(out, written(select.dst), select.x, select.y)?;
    put(out, "##condition=")?;
    put_compare(out, &select.condition)?;
    Ok(())
}

/// Appends the text of an instruction of this family; of others nothing.
pub(crate) fn put_integer(out: &mut String, inst: &Inst) -> Result<(), OutOfMemory>
    ensures { family_of inst.now ≡ Integer → OnOk result (string_bytes out.new ≡ string_bytes out.old ++ text_of inst.now) }
{
    match inst {
        Inst::Lui { rd, imm } => put_number(out, "lui", rd.reg, i64::from(imm.as_i32())),
        Inst::Auipc { rd, imm } => put_number(out, "auipc", rd.reg, i64::from(imm.as_i32())),
        Inst::LoadInlineConst { rd, ty: _, imm } => put_inline(out, rd.reg, *imm),
        Inst::AluRRR {
            alu_op,
            rd,
            rs1,
            rs2,
        } => put_rrr(out, *alu_op, rd.reg, *rs1, *rs2),
        Inst::AluRRImm12 {
            alu_op,
            rd,
            rs,
            imm12,
        } => put_rri(out, *alu_op, rd.reg, *rs, i64::from(imm12.as_i16())),
        Inst::Mov { rd, rm, ty } => put_two(out, move_name(*ty), rd.reg, *rm),
        Inst::MovFromPReg { rd, rm } => put_two(out, "mv", rd.reg, Reg::from_preg(*rm)),
        Inst::Extend {
            rd,
            rn,
            signed,
            from_bits,
            to_bits: _,
        } => put_extend(out, rd.reg, *rn, *signed, *from_bits),
        Inst::Select { info } => put_select(out, info.as_ref()),
        _ => Ok(()),
    }
}
