//! The texts of floating-point instructions, and of those on their control register.

ghost use Rattle.std.specs.Prelude.{◌≡◌, ◌++◌, OnOk, string_bytes};
ghost use Rattle.rv_base.specs.RegNames.{name_of};
ghost use Rattle.rv_ops.specs.Fpu.{name_with_width};
ghost use Rattle.rv_inst.specs.Operands.{family_of};
ghost use Rattle.rv_inst.specs.declared.inst.Family.TheVariants.{Float};
ghost use Rattle.rv_text.specs.Operands.{three};
ghost use Rattle.rv_text.specs.Texts.{text_of, mode_text, constant_text, fpu_rr_text, plain_fpu_rrr_text, same_source_text, fpu_rrr_text, fpu_rrrr_text, csr_reg_text, csr_imm_text};

use crate::atomics::put_atomic;
use crate::operands::is_zero;
use rv_base::{OutOfMemory, Reg};
use rv_imms::UImm5;
use rv_inst::{Inst, same_register};
use rv_ops::{CSR, CsrImmOP, CsrRegOP, FRM, FliConstant, FpuOPRR, FpuOPRRR, FpuOPRRRR, FpuOPWidth};
use std::fmt::Write;

// A name of one source.
fn put_same_source(
    out: &mut String,
    name: &str,
    width: FpuOPWidth,
    rd: Reg,
    rs: Reg,
) -> Result<(), OutOfMemory>
    ensures { OnOk result (string_bytes out.new ≡ string_bytes out.old ++ same_source_text name.now width rd rs) }
{
    write!(out, "{name}.{width} {rd},{rs}")?;
    Ok(())
}

fn put_mode(out: &mut String, shown: bool, frm: FRM) -> Result<(), OutOfMemory>
    ensures { OnOk result (string_bytes out.new ≡ string_bytes out.old ++ mode_text shown frm) }
{
    if shown {
        let mode = frm.to_static_str();
        write!(out, ",{mode}")?;
    }
    Ok(())
}

fn put_named(
    out: &mut String,
    name: &str,
    width: FpuOPWidth,
    rd: Reg,
    rs1: Reg,
    rs2: Reg,
) -> Result<(), OutOfMemory>
    ensures { OnOk result (string_bytes out.new ≡ string_bytes out.old ++ three (name_with_width name.now width) (name_of rd) (name_of rs1) (name_of rs2)) }
{
    write!(out, "{name}.{width} {rd},{rs1},{rs2}")?;
    Ok(())
}

fn put_plain(
    out: &mut String,
    op: FpuOPRRR,
    width: FpuOPWidth,
    frm: FRM,
    rd: Reg,
    rs1: Reg,
    rs2: Reg,
) -> Result<(), OutOfMemory>
    ensures { OnOk result (string_bytes out.new ≡ string_bytes out.old ++ plain_fpu_rrr_text op width frm rd rs1 rs2) }
{
    put_named(out, op.stem(), width, rd, rs1, rs2)?;
    put_mode(out, op.has_frm(), frm)?;
    Ok(())
}

fn put_fpu_rrr(
    out: &mut String,
    op: FpuOPRRR,
    width: FpuOPWidth,
    frm: FRM,
    rd: Reg,
    rs1: Reg,
    rs2: Reg,
) -> Result<(), OutOfMemory>
    ensures { OnOk result (string_bytes out.new ≡ string_bytes out.old ++ fpu_rrr_text op width frm rd rs1 rs2) }
{
    match op {
        FpuOPRRR::Fsgnj if same_register(rs1, rs2) => put_same_source(out, "fmv", width, rd, rs1),
        FpuOPRRR::Fsgnjn if same_register(rs1, rs2) => put_same_source(out, "fneg", width, rd, rs1),
        FpuOPRRR::Fsgnjx if same_register(rs1, rs2) => put_same_source(out, "fabs", width, rd, rs1),
        op => put_plain(out, op, width, frm, rd, rs1, rs2),
    }
}

fn put_constant(
    out: &mut String,
    width: FpuOPWidth,
    rd: Reg,
    imm: FliConstant,
) -> Result<(), OutOfMemory>
    ensures { OnOk result (string_bytes out.new ≡ string_bytes out.old ++ constant_text width rd imm) }
{
    write!(out, "fli.{width} {rd},{imm}")?;
    Ok(())
}

fn put_fpu_rr(
    out: &mut String,
    op: FpuOPRR,
    width: FpuOPWidth,
    frm: FRM,
    rd: Reg,
    rs: Reg,
) -> Result<(), OutOfMemory>
    ensures { OnOk result (string_bytes out.new ≡ string_bytes out.old ++ fpu_rr_text op width frm rd rs) }
{
    let name = op.op_name(*out.allocator(), width)?;
    write!(out, "{name} {rd},{rs}")?;
    put_mode(out, op.has_frm(), frm)?;
    Ok(())
}

fn put_fpu_rrrr(
    out: &mut String,
    op: FpuOPRRRR,
    width: FpuOPWidth,
    frm: FRM,
    rd: Reg,
    rs1: Reg,
    rs2: Reg,
    rs3: Reg,
) -> Result<(), OutOfMemory>
    ensures { OnOk result (string_bytes out.new ≡ string_bytes out.old ++ fpu_rrrr_text op width frm rd rs1 rs2 rs3) }
{
    let name = op.op_name(*out.allocator(), width)?;
    write!(out, "{name} {rd},{rs1},{rs2},{rs3}")?;
    put_mode(out, true, frm)?;
    Ok(())
}

fn put_csr_reg(
    out: &mut String,
    op: CsrRegOP,
    rd: Reg,
    rs: Reg,
    csr: CSR,
) -> Result<(), OutOfMemory>
    ensures { OnOk result (string_bytes out.new ≡ string_bytes out.old ++ csr_reg_text op rd rs csr) }
{
    match (op, csr) {
        (CsrRegOP::CsrRW, CSR::Frm) if is_zero(rd) => write!(out, "fsrm {rs}")?,
        (op, csr) => write!(out, "{op} {rd},{csr},{rs}")?,
    }
    Ok(())
}

fn put_csr_imm(
    out: &mut String,
    op: CsrImmOP,
    rd: Reg,
    csr: CSR,
    imm: UImm5,
) -> Result<(), OutOfMemory>
    ensures { OnOk result (string_bytes out.new ≡ string_bytes out.old ++ csr_imm_text op rd csr imm) }
{
    match (op, csr) {
        (CsrImmOP::CsrRWI, CSR::Frm) if !is_zero(rd) => write!(out, "fsrmi {rd},{imm}")?,
        (op, csr) => write!(out, "{op} {rd},{csr},{imm}")?,
    }
    Ok(())
}

/// Appends the text of an instruction of this family; of others nothing.
pub(crate) fn put_float(out: &mut String, inst: &Inst) -> Result<(), OutOfMemory>
    ensures { family_of inst.now ≡ Float → OnOk result (string_bytes out.new ≡ string_bytes out.old ++ text_of inst.now) }
{
    match inst {
        Inst::Fli { width, imm, rd } => put_constant(out, *width, rd.reg, *imm),
        Inst::FpuRR {
            alu_op,
            width,
            frm,
            rd,
            rs,
        } => put_fpu_rr(out, *alu_op, *width, *frm, rd.reg, *rs),
        Inst::FpuRRR {
            alu_op,
            width,
            frm,
            rd,
            rs1,
            rs2,
        } => put_fpu_rrr(out, *alu_op, *width, *frm, rd.reg, *rs1, *rs2),
        Inst::FpuRRRR {
            alu_op,
            width,
            frm,
            rd,
            rs1,
            rs2,
            rs3,
        } => put_fpu_rrrr(out, *alu_op, *width, *frm, rd.reg, *rs1, *rs2, *rs3),
        Inst::CsrReg { op, rd, rs, csr } => put_csr_reg(out, *op, rd.reg, *rs, *csr),
        Inst::CsrImm { op, rd, csr, imm } => put_csr_imm(out, *op, rd.reg, *csr, *imm),
        Inst::Atomic {
            op,
            rd,
            addr,
            src,
            amo,
        } => put_atomic(out, *op, *amo, rd.reg, *addr, *src),
        _ => Ok(()),
    }
}
