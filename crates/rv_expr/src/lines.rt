//! The listing of a program.

ghost use Rattle.std.specs.Prelude.{◌≡◌, ◌<◌, ◌++◌, ◌∷◌, [], IfOk, OnOk, None};
ghost use Rattle.rv_base.specs.declared.amode.AMode.TheVariants.{SPOffset};
ghost use Rattle.rv_expr.specs.Listing as listed;
ghost use Rattle.rv_expr.specs.Refusal.{fault_of, refusal};

use crate::ops::{BinOp, ExprOp};
use rv_base::{
    AMode, IntCC, IrType, MemFlagsData, OutOfMemory, Reg, ValueRegs, Writable, x_reg, zero_reg,
};
use rv_inst::{Boxed, Inst, Line, SelectInfo};
use rv_ops::{AluOPRRR, IntegerCompare, LoadOP, StoreOP};
use std::alloc::Global;

/// The lines of a program that isn't refused. They use t0 to t2, and a place of eight bytes below the stack pointer for each operation.
pub(crate) fn lines_of(alloc: Global, ops: &[ExprOp]) -> Result<Vec<Line>, OutOfMemory>
    requires { refusal ops.now ≡ None }
    ensures { IfOk result (λ lines. lines.items ≡ listed.listing ops.now) }
{
    let mut lines = Vec::new(alloc);
    for (index, op) in ops.iter().enumerate() {
        put_operation(alloc, &mut lines, index as u32, *op)?;
    }
    lines.push(load(a0(), (ops.len() - 1) as u32))?;
    lines.push(Line::Inst(Inst::Ret))?;
    Ok(lines)
}

/// Appends the lines of the operation of a number.
fn put_operation(
    alloc: Global,
    lines: &mut Vec<Line>,
    index: u32,
    op: ExprOp,
) -> Result<(), OutOfMemory>
    requires { fault_of index op ≡ None }
    ensures { OnOk result (lines.new.items ≡ lines.old.items ++ listed.op_lines index op) }
{
    match op {
        ExprOp::Const(value) => put_constant(lines, index, value),
        ExprOp::Arg(argument) => put_argument(lines, index, argument),
        ExprOp::Bin(op, x, y) => put_binary(lines, index, op, x, y),
        ExprOp::Pick(c, x, y) => put_pick(alloc, lines, index, c, x, y),
    }
}

fn put_constant(lines: &mut Vec<Line>, index: u32, value: u64) -> Result<(), OutOfMemory>
    ensures { OnOk result (lines.new.items ≡ lines.old.items ++ listed.constant value ∷ listed.store_to listed.t0 index ∷ []) }
{
    lines.push(constant(value))?;
    lines.push(store(t0(), index))?;
    Ok(())
}

fn put_argument(lines: &mut Vec<Line>, index: u32, argument: u8) -> Result<(), OutOfMemory>
    requires { argument < 8 }
    ensures { OnOk result (lines.new.items ≡ lines.old.items ++ listed.store_to (listed.argument argument) index ∷ []) }
{
    lines.push(store(argument_register(argument), index))?;
    Ok(())
}

fn put_binary(
    lines: &mut Vec<Line>,
    index: u32,
    op: BinOp,
    x: u32,
    y: u32,
) -> Result<(), OutOfMemory>
    ensures { OnOk result (lines.new.items ≡ lines.old.items ++ listed.load_from listed.t0 x ∷ listed.load_from listed.t1 y ∷ listed.alu op ∷ listed.store_to listed.t0 index ∷ []) }
{
    lines.push(load(t0(), x))?;
    lines.push(load(t1(), y))?;
    lines.push(alu(op))?;
    lines.push(store(t0(), index))?;
    Ok(())
}

fn put_pick(
    alloc: Global,
    lines: &mut Vec<Line>,
    index: u32,
    c: u32,
    x: u32,
    y: u32,
) -> Result<(), OutOfMemory>
    ensures { OnOk result (lines.new.items ≡ lines.old.items ++ listed.load_from listed.t0 c ∷ listed.load_from listed.t1 x ∷ listed.load_from listed.t2 y ∷ listed.choice ∷ listed.store_to listed.t1 index ∷ []) }
{
    lines.push(load(t0(), c))?;
    lines.push(load(t1(), x))?;
    lines.push(load(t2(), y))?;
    lines.push(choice(alloc)?)?;
    lines.push(store(t1(), index))?;
    Ok(())
}

/// The line that puts a number into t0.
fn constant(value: u64) -> Line
    ensures { result ≡ listed.constant value }
{
    Line::Inst(Inst::LoadInlineConst {
        rd: Writable::from_reg(t0()),
        ty: IrType::I64,
        imm: value,
    })
}

/// The line that puts the operation of t0 and t1 into t0.
fn alu(op: BinOp) -> Line
    ensures { result ≡ listed.alu op }
{
    Line::Inst(Inst::AluRRR {
        alu_op: alu_of(op),
        rd: Writable::from_reg(t0()),
        rs1: t0(),
        rs2: t1(),
    })
}

/// The line after which t1 is t2, where t0 is 0.
fn choice(alloc: Global) -> Result<Line, OutOfMemory>
    ensures { IfOk result (λ line. line ≡ listed.choice) }
{
    let info = SelectInfo {
        dst: ValueRegs::One(Writable::from_reg(t1())),
        condition: IntegerCompare {
            kind: IntCC::NotEqual,
            rs1: t0(),
            rs2: zero(),
        },
        x: ValueRegs::One(t1()),
        y: ValueRegs::One(t2()),
    };
    Ok(Line::Inst(Inst::Select {
        info: Boxed::new(alloc, info)?,
    }))
}

/// The line that loads the value of an operation.
fn load(rd: Reg, operation: u32) -> Line
    ensures { result ≡ listed.load_from rd operation }
{
    Line::Inst(Inst::Load {
        rd: Writable::from_reg(rd),
        op: LoadOP::Ld,
        flags: MemFlagsData::trusted(),
        from: place(operation),
    })
}

/// The line that stores the value of an operation.
fn store(src: Reg, operation: u32) -> Line
    ensures { result ≡ listed.store_to src operation }
{
    Line::Inst(Inst::Store {
        src,
        op: StoreOP::Sd,
        flags: MemFlagsData::trusted(),
        to: place(operation),
    })
}

/// The eight bytes that hold the value of an operation.
fn place(operation: u32) -> AMode
    ensures { result ≡ SPOffset (listed.place_offset operation) }
{
    AMode::SPOffset(-8 * (i64::from(operation) + 1))
}

/// The machine's operation.
fn alu_of(op: BinOp) -> AluOPRRR
    ensures { result ≡ listed.alu_of op }
{
    match op {
        BinOp::Add => AluOPRRR::Add,
        BinOp::Sub => AluOPRRR::Sub,
        BinOp::Mul => AluOPRRR::Mul,
        BinOp::And => AluOPRRR::And,
        BinOp::Or => AluOPRRR::Or,
        BinOp::Xor => AluOPRRR::Xor,
        BinOp::Shl => AluOPRRR::Sll,
        BinOp::Shr => AluOPRRR::Srl,
        BinOp::Sar => AluOPRRR::Sra,
        BinOp::DivU => AluOPRRR::DivU,
        BinOp::RemU => AluOPRRR::RemU,
        BinOp::Ltu => AluOPRRR::SltU,
    }
}

fn zero() -> Reg
    ensures { result ≡ listed.zero }
{
    zero_reg()
}

fn t0() -> Reg
    ensures { result ≡ listed.t0 }
{
    x_reg(5)
}

fn t1() -> Reg
    ensures { result ≡ listed.t1 }
{
    x_reg(6)
}

fn t2() -> Reg
    ensures { result ≡ listed.t2 }
{
    x_reg(7)
}

fn a0() -> Reg
    ensures { result ≡ listed.a0 }
{
    x_reg(10)
}

/// One of a0 to a7, in which the argument of a number is.
fn argument_register(argument: u8) -> Reg
    requires { argument < 8 }
    ensures { result ≡ listed.argument argument }
{
    x_reg(10 + usize::from(argument))
}
