//! Parts of a register, so many bits from a bit on that another register gives: taken out, cleared and put.

ghost use Rattle.std.specs.Prelude.{◌≡◌, false, true, IsOk, IfOk, IsTrue, OnOk, ◌++◌, ◌+◌, ◌-◌, ◌^◌, ◌≤◌, length};
ghost use Rattle.smallvec.specs.SmallVec.{HasRoomFor};
ghost use Rattle.rv_base.specs.IrType.{bits_of};
ghost use Rattle.rv_base.specs.Regs.{number_of};
ghost use Rattle.rv_inst.specs.Classes.{is_int_type};
ghost use Rattle.rv_inst.specs.Fields.{not_of, extend_of, mask_insts, extract_insts, unset_insts, set_insts, merge_insts, Extracts, Unsets, Sets, Merges};
ghost use Rattle.rv_inst.specs.Sequences.{SetsRegister};
ghost use Rattle.rv_inst.specs.declared.inst.Inst.TheVariants.{AluRRR};

use crate::generators::SmallInstVec;
use crate::inst::Inst;
use rv_base::{IrType, OutOfMemory, Reg, WritableReg};
use rv_imms::Imm12;
use rv_ops::{AluOPRRI, AluOPRRR};
use smallvec::SmallVec;
use std::alloc::Global;

impl Inst {
    /// The instructions that put a mask into a register: as many ones in its low bits as the type has, which is an integer of 8, 16, 32
    /// or 64 bits. They are `addi` from x0 and, for 16 and 32 bits, an `Extend` of its result.
    pub fn load_int_mask(
        alloc: Global,
        rd: WritableReg,
        ty: IrType,
    ) -> Result<SmallInstVec, OutOfMemory>
        requires { IsTrue (is_int_type ty) }
        ensures insts { IfOk result (λ insts. insts.items ≡ mask_insts rd ty) }
        ensures sets { IfOk result (λ insts. SetsRegister insts.items (number_of rd.reg) (2 ^ bits_of ty - 1)) }
        ensures succeeds { IsOk result }
    {
        let mut insts = SmallVec::new(alloc);
        put_int_mask(&mut insts, rd, ty)?;
        Ok(insts)
    }

    /// The instruction that puts the complement of a register, each bit the other, into one: `xori` with -1, the manual's `not`
    /// (the chapter "RV32I Base Integer Instruction Set", "Integer Register-Immediate Instructions").
    pub fn construct_bit_not(rd: WritableReg, rs: Reg) -> Inst
        ensures { result ≡ not_of rd rs }
    {
        Inst::AluRRImm12 {
            alu_op: AluOPRRI::Xori,
            rd,
            rs,
            imm12: Imm12::from_i16(-1),
        }
    }

    /// The instructions that put a part of `rs`, as many bits as the type has, into `rd`, zero-extended. The part begins at the bit
    /// that the low 6 bits of `offset` say.
    pub fn extract(
        alloc: Global,
        rd: WritableReg,
        offset: Reg,
        rs: Reg,
        ty: IrType,
    ) -> Result<SmallInstVec, OutOfMemory>
        requires { IsTrue (is_int_type ty) }
        ensures insts { IfOk result (λ insts. insts.items ≡ extract_insts false rd offset rs ty) }
        ensures extracts { IfOk result (λ insts. Extracts false rd offset rs ty insts.items) }
        ensures succeeds { IsOk result }
    {
        extract_insts(alloc, false, rd, offset, rs, ty)
    }

    /// The instructions of `extract`, but that the part is sign-extended.
    pub fn extract_sext(
        alloc: Global,
        rd: WritableReg,
        offset: Reg,
        rs: Reg,
        ty: IrType,
    ) -> Result<SmallInstVec, OutOfMemory>
        requires { IsTrue (is_int_type ty) }
        ensures insts { IfOk result (λ insts. insts.items ≡ extract_insts true rd offset rs ty) }
        ensures extracts { IfOk result (λ insts. Extracts true rd offset rs ty insts.items) }
        ensures succeeds { IsOk result }
    {
        extract_insts(alloc, true, rd, offset, rs, ty)
    }

    /// The instructions that clear a part of `rd`, as many bits as the type has, from the bit on that the low 6 bits of `offset` say.
    /// `tmp` is another register than these two and x0. Four instructions, which need no allocation, or five for 16 and 32 bits.
    pub fn unset(
        alloc: Global,
        rd: WritableReg,
        tmp: WritableReg,
        offset: Reg,
        ty: IrType,
    ) -> Result<SmallInstVec, OutOfMemory>
        requires { IsTrue (is_int_type ty) }
        ensures insts { IfOk result (λ insts. insts.items ≡ unset_insts rd tmp offset ty) }
        ensures unsets { IfOk result (λ insts. Unsets rd tmp offset ty insts.items) }
        ensures succeeds { length (unset_insts rd tmp offset ty) ≤ 4 → IsOk result }
    {
        let mut insts = SmallVec::new(alloc);
        put_unset(&mut insts, rd, tmp, offset, ty)?;
        Ok(insts)
    }

    /// The instructions that put the low bits of `rs`, as many as the type has, over those of `rd` from the bit on that the low 6
    /// bits of `offset` say: a one stays where either has one. `tmp` is another register than `rd`, `offset` and x0.
    pub fn set(
        alloc: Global,
        rd: WritableReg,
        tmp: WritableReg,
        offset: Reg,
        rs: Reg,
        ty: IrType,
    ) -> Result<SmallInstVec, OutOfMemory>
        requires { IsTrue (is_int_type ty) }
        ensures insts { IfOk result (λ insts. insts.items ≡ set_insts rd tmp offset rs ty) }
        ensures sets { IfOk result (λ insts. Sets rd tmp offset rs ty insts.items) }
        ensures succeeds { IsOk result }
    {
        let mut insts = SmallVec::new(alloc);
        put_set(&mut insts, rd, tmp, offset, rs, ty)?;
        Ok(insts)
    }

    /// The instructions that replace a part of `rd`, as many bits as the type has, from the bit on that the low 6 bits of `offset`
    /// say, by the low bits of `rs`: those of `unset`, and then those of `set`. `tmp` is another register than the others and x0, and
    /// `rd` another than `offset` and `rs`.
    pub fn merge(
        alloc: Global,
        rd: WritableReg,
        tmp: WritableReg,
        offset: Reg,
        rs: Reg,
        ty: IrType,
    ) -> Result<SmallInstVec, OutOfMemory>
        requires { IsTrue (is_int_type ty) }
        ensures insts { IfOk result (λ insts. insts.items ≡ merge_insts rd tmp offset rs ty) }
        ensures merges { IfOk result (λ insts. Merges rd tmp offset rs ty insts.items) }
    {
        let mut insts = SmallVec::new(alloc);
        put_unset(&mut insts, rd, tmp, offset, ty)?;
        put_set(&mut insts, rd, tmp, offset, rs, ty)?;
        Ok(insts)
    }
}

/// The instructions that take a part out.
fn extract_insts(
    alloc: Global,
    signed: bool,
    rd: WritableReg,
    offset: Reg,
    rs: Reg,
    ty: IrType,
) -> Result<SmallInstVec, OutOfMemory>
    requires { IsTrue (is_int_type ty) }
    ensures insts { IfOk result (λ insts. insts.items ≡ extract_insts signed rd offset rs ty) }
    ensures succeeds { IsOk result }
{
    let mut insts = SmallVec::new(alloc);
    insts.push(alu(AluOPRRR::Srl, rd, rs, offset))?;
    insts.push(extend(signed, ty, rd, rd.to_reg()))?;
    Ok(insts)
}

/// Appends those that put a mask into a register.
fn put_int_mask(insts: &mut SmallInstVec, rd: WritableReg, ty: IrType) -> Result<(), OutOfMemory>
    requires { IsTrue (is_int_type ty) }
    ensures insts { OnOk result (insts.new.items ≡ insts.old.items ++ mask_insts rd ty) }
    ensures room { insts.old.capacity ≤ insts.new.capacity }
    ensures succeeds { HasRoomFor insts.old (length (mask_insts rd ty)) → IsOk result }
{
    match ty {
        IrType::I8 => insts.push(Inst::load_imm12(rd, Imm12::from_i16(255)))?,
        IrType::I64 => insts.push(Inst::load_imm12(rd, Imm12::from_i16(-1)))?,
        IrType::I16 | IrType::I32 => {
            insts.push(Inst::load_imm12(rd, Imm12::from_i16(-1)))?;
            insts.push(extend(false, ty, rd, rd.to_reg()))?;
        }
        _ => unreachable!(),
    }
    Ok(())
}

/// Appends those that clear a part.
fn put_unset(
    insts: &mut SmallInstVec,
    rd: WritableReg,
    tmp: WritableReg,
    offset: Reg,
    ty: IrType,
) -> Result<(), OutOfMemory>
    requires { IsTrue (is_int_type ty) }
    ensures insts { OnOk result (insts.new.items ≡ insts.old.items ++ unset_insts rd tmp offset ty) }
    ensures succeeds { HasRoomFor insts.old (length (unset_insts rd tmp offset ty)) → IsOk result }
{
    let mask = tmp.to_reg();
    put_int_mask(insts, tmp, ty)?;
    insts.push(alu(AluOPRRR::Sll, tmp, mask, offset))?;
    insts.push(Inst::construct_bit_not(tmp, mask))?;
    insts.push(alu(AluOPRRR::And, rd, rd.to_reg(), mask))?;
    Ok(())
}

/// Appends those that put low bits over a part.
fn put_set(
    insts: &mut SmallInstVec,
    rd: WritableReg,
    tmp: WritableReg,
    offset: Reg,
    rs: Reg,
    ty: IrType,
) -> Result<(), OutOfMemory>
    requires { IsTrue (is_int_type ty) }
    ensures insts { OnOk result (insts.new.items ≡ insts.old.items ++ set_insts rd tmp offset rs ty) }
    ensures succeeds { HasRoomFor insts.old 3 → IsOk result }
{
    let part = tmp.to_reg();
    insts.push(extend(false, ty, tmp, rs))?;
    insts.push(alu(AluOPRRR::Sll, tmp, part, offset))?;
    insts.push(alu(AluOPRRR::Or, rd, rd.to_reg(), part))?;
    Ok(())
}

fn alu(alu_op: AluOPRRR, rd: WritableReg, rs1: Reg, rs2: Reg) -> Inst
    ensures { result ≡ AluRRR alu_op rd rs1 rs2 }
{
    Inst::AluRRR {
        alu_op,
        rd,
        rs1,
        rs2,
    }
}

/// The extension of as many low bits as a type has to 64.
fn extend(signed: bool, ty: IrType, rd: WritableReg, rn: Reg) -> Inst
    requires { IsTrue (is_int_type ty) }
    ensures { result ≡ extend_of signed ty rd rn }
{
    Inst::Extend {
        rd,
        rn,
        signed,
        from_bits: ty.bits() as u8,
        to_bits: 64,
    }
}
