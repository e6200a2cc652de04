//! Instructions by what they are for: a constant in a register, a jump by an offset, a load or a store of a type, and moves of
//! registers.

ghost use Rattle.std.specs.Prelude.{◌≡◌, IsOk, IfOk, OnOk, IsSome, IfSome, ◌++◌, ◌≤◌, length};
ghost use Rattle.std.specs.Int.{cast_signed, w64};
ghost use Rattle.smallvec.specs.SmallVec.{HasRoomFor};
ghost use Rattle.rv_base.specs.declared.ir_type.IrType.TheVariants.{I32, I64};
ghost use Rattle.rv_ops.specs.Memory.{load_of, store_of};
ghost use Rattle.rv_imms.specs.Splitting.{IsSplittable};
ghost use Rattle.rv_base.specs.Regs.{number_of};
ghost use Rattle.rv_inst.specs.Sequences.{SetsRegister, left_of, JumpsBy};
ghost use Rattle.rv_inst.specs.Generators.{zero_register, addi_of, split_insts, AreConstant, AreJump, canonical_type, move_of, moves_of};
ghost use Rattle.rv_inst.specs.declared.inst.Inst.TheVariants.{Load, Store};

use crate::inst::Inst;
use rv_base::{
    AMode, IrType, LaneType, MemFlagsData, OutOfMemory, Reg, RegClass, VectorType, WritableReg,
    writable_zero_reg, zero_reg,
};
use rv_imms::{Imm12, Imm20, generate_imm};
use rv_ops::{AluOPRRI, LoadOP, StoreOP};
use smallvec::SmallVec;
use std::alloc::Global;

/// Instructions in order, of which up to four need no allocation.
pub type SmallInstVec = SmallVec<Inst, 4>;

impl Inst {
    /// The instruction that puts an immediate from -2048 to 2047 into a register, sign-extended to 64 bits: `addi` from x0 (the
    /// manual's chapter "RV32I Base Integer Instruction Set", "Integer Register-Immediate Instructions").
    pub fn load_imm12(rd: WritableReg, imm: Imm12) -> Inst
        ensures { result ≡ addi_of rd zero_register imm }
    {
        Inst::AluRRImm12 {
            alu_op: AluOPRRI::Addi,
            rd,
            rs: zero_reg(),
            imm12: imm,
        }
    }

    /// The instructions that put a constant into a register: at most two, so that it never runs out of memory. The constant
    /// is `value`, as 64 bits in two's complement.
    ///
    /// From -2^31 - 2^11 to 2^31 - 2^11 - 1 they are `lui` of its upper immediate, where that isn't 0, and `addi` of its lower
    /// one, where that isn't 0 or there is no `lui` (the manual's chapters "RV32I" and "RV64I Base Integer Instruction Set",
    /// "Integer Register-Immediate Instructions" and "Integer Computational Instructions"). Any other stands among the code as
    /// an `i32`: the register has its low 32 bits, sign-extended.
    pub fn load_constant_u32(
        alloc: Global,
        rd: WritableReg,
        value: u64,
    ) -> Result<SmallInstVec, OutOfMemory>
        ensures insts { IfOk result (λ insts. AreConstant I32 rd value insts.items) }
        ensures sets { IfOk result (λ insts. SetsRegister insts.items (number_of rd.reg) (left_of I32 value)) }
        ensures succeeds { IsOk result }
    {
        load_constant(alloc, rd, IrType::I32, value)
    }

    /// The instructions that put a constant into a register, as `load_constant_u32` makes them; one that stands among the code
    /// is an `i64` there, so that the register has all its 64 bits.
    pub fn load_constant_u64(
        alloc: Global,
        rd: WritableReg,
        value: u64,
    ) -> Result<SmallInstVec, OutOfMemory>
        ensures insts { IfOk result (λ insts. AreConstant I64 rd value insts.items) }
        ensures sets { IfOk result (λ insts. SetsRegister insts.items (number_of rd.reg) value) }
        ensures succeeds { IsOk result }
    {
        load_constant(alloc, rd, IrType::I64, value)
    }

    /// `auipc` of an offset's upper immediate into `tmp`, and `jalr` from there by its lower one: together they jump so many bytes
    /// from the first of them, and leave in `link`, where there is one, the address after both (the manual's chapter "RV32I Base
    /// Integer Instruction Set", "Integer Register-Immediate Instructions" and "Unconditional Jumps"). The offset is from `imm_min()`
    /// to `imm_max()`.
    pub fn construct_auipc_and_jalr(
        link: Option<WritableReg>,
        tmp: WritableReg,
        offset: i64,
    ) -> [Inst; 2]
        requires { IsSplittable offset }
        ensures insts { AreJump link tmp offset result }
        ensures runs { JumpsBy link tmp offset result }
    {
        let Some((upper, lower)) = generate_imm(offset.cast_unsigned()) else {
            unreachable!()
        };
        let auipc = Inst::Auipc {
            rd: tmp,
            imm: upper,
        };
        let jalr = Inst::Jalr {
            rd: link.unwrap_or(writable_zero_reg()),
            base: tmp.to_reg(),
            offset: lower,
        };
        [auipc, jalr]
    }

    /// The load of an integer of 8, 16, 32 or 64 bits, sign-extended to 64 bits (the manual's chapters "RV32I" and "RV64I Base
    /// Integer Instruction Set", "Load and Store Instructions"), or of a floating-point number of 16, 32 or 64 bits (the chapters
    /// "F", "D" and "Zfhmin").
    pub fn gen_load(into_reg: WritableReg, mem: AMode, ty: IrType, flags: MemFlagsData) -> Inst
        requires { IsSome (load_of ty) }
        ensures { IfSome (load_of ty) (λ op. result ≡ Load into_reg op flags mem) }
    {
        Inst::Load {
            rd: into_reg,
            op: LoadOP::from_type(ty),
            flags,
            from: mem,
        }
    }

    /// The store of an integer of 8, 16, 32 or 64 bits, or of a floating-point number of 16, 32 or 64 bits: the low bits of the register,
    /// as many as the type has (the manual's chapters "RV32I" and "RV64I Base Integer Instruction Set", "Load and Store
    /// Instructions", and "F" and "D").
    pub fn gen_store(mem: AMode, from_reg: Reg, ty: IrType, flags: MemFlagsData) -> Inst
        requires { IsSome (store_of ty) }
        ensures { IfSome (store_of ty) (λ op. result ≡ Store from_reg op flags mem) }
    {
        Inst::Store {
            to: mem,
            op: StoreOP::from_type(ty),
            flags,
            src: from_reg,
        }
    }

    /// The type of whole registers of a class, which a move of any value of that class has.
    pub fn canonical_type_for_rc(rc: RegClass) -> IrType
        ensures { result ≡ canonical_type rc }
    {
        match rc {
            RegClass::Int => IrType::I64,
            RegClass::Float => IrType::F64,
            RegClass::Vector => IrType::Vector(VectorType {
                lane: LaneType::I8,
                lanes: 16,
            }),
        }
    }
}

/// A move of each register of `src` to the one of `rd` at its index, one after the other: none may be read after it is written.
pub fn gen_moves(
    alloc: Global,
    rd: &[WritableReg],
    src: &[Reg],
) -> Result<SmallInstVec, OutOfMemory>
    requires same { length rd.now ≡ length src.now }
    requires some { 1 ≤ length rd.now }
    ensures moves { IfOk result (λ insts. insts.items ≡ moves_of rd.now src.now) }
    ensures succeeds { length rd.now ≤ 4 → IsOk result }
{
    let mut insts = SmallVec::with_capacity(alloc, rd.len())?;
    put_moves(&mut insts, rd, src);
    Ok(insts)
}

/// Appends a move for each pair.
fn put_moves(insts: &mut SmallInstVec, rd: &[WritableReg], src: &[Reg])
    requires same { length rd.now ≡ length src.now }
    requires room { HasRoomFor insts.old (length rd.now) }
    ensures { insts.new.items ≡ insts.old.items ++ moves_of rd.now src.now }
{
    for (dst, rm) in rd.iter().zip(src) {
        insts.push_reserved(gen_move(*dst, *rm));
    }
}

fn gen_move(rd: WritableReg, rm: Reg) -> Inst
    ensures { result ≡ move_of rd rm }
{
    Inst::Mov {
        rd,
        rm,
        ty: Inst::canonical_type_for_rc(rd.to_reg().class()),
    }
}

/// The instructions of a constant; one that stands among the code is of this type.
fn load_constant(
    alloc: Global,
    rd: WritableReg,
    ty: IrType,
    value: u64,
) -> Result<SmallInstVec, OutOfMemory>
    ensures insts { IfOk result (λ insts. AreConstant ty rd value insts.items) }
    ensures succeeds { IsOk result }
{
    let mut insts = SmallVec::new(alloc);
    match generate_imm(value) {
        None => insts.push(Inst::LoadInlineConst { rd, ty, imm: value })?,
        Some((upper, lower)) => put_split(&mut insts, rd, upper, lower)?,
    }
    Ok(insts)
}

/// Appends those of two immediates.
fn put_split(
    insts: &mut SmallInstVec,
    rd: WritableReg,
    upper: Imm20,
    lower: Imm12,
) -> Result<(), OutOfMemory>
    ensures insts { OnOk result (insts.new.items ≡ insts.old.items ++ split_insts rd upper lower) }
    ensures succeeds { HasRoomFor insts.old 2 → IsOk result }
{
    if upper.as_i32() == 0 {
        insts.push(Inst::load_imm12(rd, lower))?;
        return Ok(());
    }
    insts.push(Inst::Lui { rd, imm: upper })?;
    if lower.as_i16() != 0 {
        insts.push(Inst::AluRRImm12 {
            alu_op: AluOPRRI::Addi,
            rd,
            rs: rd.to_reg(),
            imm12: lower,
        })?;
    }
    Ok(())
}
