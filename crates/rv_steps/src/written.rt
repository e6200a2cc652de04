//! What a step of a unit wrote.

ghost use Rattle.std.specs.Prelude.{◌≡◌, ◌++◌, ◌<◌, length, IfOk, OnOk, codes, string_bytes};
ghost use Rattle.std.specs.Fmt.{signed_decimal};
ghost use Rattle.std.specs.Int.{w64, cast_signed};
ghost use Rattle.rv_base.specs.RegNames.{real_name};
ghost use Rattle.rv_base.specs.declared.regs.RegClass.TheVariants.{Int};
ghost use Rattle.rv_trace.specs.Instruction.{written_text};
ghost use Rattle.rv_machine.specs.Layout.{HasFileRegisters};
ghost use Rattle.rv_steps.specs.Written.{of_target, of_float, of_vector, of_memory, written_by, values_written, unit_written};

use crate::files::{Style, put_float, put_vectors};
use rv_base::{OutOfMemory, PReg, Reg, RegClass};
use rv_full::{FloatShape, FullMachine, Target, VectorShape, float_shape, vector_shape};
use rv_machine::{Decoded, MOp, VecMemOp};
use std::alloc::Global;

/// What an operation writes, memory aside.
#[derive(Clone, Copy, Debug, PartialEq, Eq)]
pub enum Written {
    /// The integer register rd.
    Integer,
    /// The floating-point register rd.
    Floating,
    /// Vector registers.
    Vectors,
    Nothing,
}

fn of_target(target: Target) -> Written
    ensures { result ≡ of_target target }
{
    match target {
        Target::Integer => Written::Integer,
        Target::Float => Written::Floating,
    }
}

fn of_float(shape: FloatShape) -> Written
    ensures { result ≡ of_float shape }
{
    match shape {
        FloatShape::Answered(_, target) => of_target(target),
        FloatShape::ToInteger => Written::Integer,
        FloatShape::ToFloat | FloatShape::Sign => Written::Floating,
    }
}

fn of_vector(shape: VectorShape) -> Written
    ensures { result ≡ of_vector shape }
{
    match shape {
        VectorShape::Arithmetic | VectorShape::Move => Written::Vectors,
        VectorShape::ToInteger => Written::Integer,
        VectorShape::ToFloat => Written::Floating,
    }
}

fn of_memory(op: VecMemOp) -> Written
    ensures { result ≡ of_memory op }
{
    match op {
        VecMemOp::Vsetivli => Written::Integer,
        VecMemOp::Vle8 | VecMemOp::Vle16 | VecMemOp::Vle32 | VecMemOp::Vle64 => Written::Vectors,
        VecMemOp::Vse8 | VecMemOp::Vse16 | VecMemOp::Vse32 | VecMemOp::Vse64 => Written::Nothing,
    }
}

fn written_by(op: MOp) -> Written
    ensures { result ≡ written_by op }
{
    match op {
        MOp::Base(_) | MOp::Load(_) | MOp::Store(_) | MOp::Alu(_) | MOp::FloatStore(_) =>
            Written::Nothing,
        MOp::Carry(_) | MOp::Atomic(_, _) | MOp::Csr(_) => Written::Integer,
        MOp::FloatLoad(_) => Written::Floating,
        MOp::Float(_, op) => of_float(float_shape(op)),
        MOp::VecMem(op) => of_memory(op),
        MOp::Vec { funct6, funct3 } => of_vector(vector_shape(funct6, funct3)),
    }
}

/// Puts what was written to an integer register, if it is one.
pub(crate) fn put_integer(
    alloc: Global,
    out: &mut Vec<u8>,
    rd: u8,
    value: u64,
) -> Result<(), OutOfMemory>
    requires { rd < 32 }
    ensures { OnOk result (out.new.items ≡ out.old.items ++ written_text rd value) }
{
    if rd == 0 {
        return Ok(());
    }
    let text = integer_text(alloc, rd, value)?;
    out.extend_from_slice(text.as_bytes())?;
    Ok(())
}

fn integer_text(alloc: Global, rd: u8, value: u64) -> Result<String, OutOfMemory>
    requires { rd < 32 }
    ensures { IfOk result (λ text. string_bytes text ≡ codes "  " ++ real_name Int rd ++ codes "=" ++ signed_decimal (cast_signed w64 value)) }
{
    let register = Reg::Real(PReg::new(rd, RegClass::Int));
    let signed = value.cast_signed();
    Ok(format!(in alloc; "  {register}={signed}")?)
}

/// What a unit's operation wrote; the vector registers are those before the step, and the machine stands after it.
pub(crate) fn put_unit_written(
    alloc: Global,
    out: &mut Vec<u8>,
    d: Decoded,
    vectors: &[u128],
    machine: &FullMachine,
) -> Result<(), OutOfMemory>
    requires registers { HasFileRegisters d }
    requires count { length vectors.now ≡ 32 }
    ensures { OnOk result (out.new.items ≡ out.old.items ++ unit_written d vectors.now machine.now.full) }
{
    match written_by(d.op) {
        Written::Integer => put_integer(alloc, out, d.rd, machine.reg(d.rd)),
        Written::Floating => put_float(alloc, out, Style::Step, d.rd, machine.freg(d.rd)),
        Written::Vectors => put_vectors(alloc, out, Style::Step, vectors, machine.vectors()),
        Written::Nothing => Ok(()),
    }
}
