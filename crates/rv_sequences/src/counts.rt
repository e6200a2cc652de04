//! The code that counts bits of a register in a loop. Label 0 is the loop's, 1 the end's, and 2 stands past the operation that counts.

ghost use Rattle.std.specs.Prelude.{◌≡◌, [], ◌+◌, ◌-◌, ◌<◌, ◌≤◌, ◌^◌, length, pos, negsuc, OnOk, OnErr, true, false};
ghost use Rattle.rv_base.specs.IrType.{bits_of};
ghost use Rattle.rv_base.specs.LabelUse.{code_limit};
ghost use Rattle.rv_base.specs.Regs.{number_of};
ghost use Rattle.rv_base.specs.declared.condcodes.IntCC.TheVariants.{Equal, NotEqual, SignedGreaterThanOrEqual};
ghost use Rattle.rv_encode.specs.Registers.{IsIntRegister};
ghost use Rattle.rv_inst.specs.Rules.{is_int_type};
ghost use Rattle.mach_buffer.specs.Buffer.{bytes_of, allocated_of, spoiled_of};
ghost use Rattle.rv_code.specs.Pieces.{slots_of};
ghost use Rattle.rv_code.specs.Sequences.{ones_pieces, sequence_pieces, zeros_pieces};
ghost use Rattle.rv_code.specs.Usable.{IsFineSequence};
ghost use Rattle.rv_sequences.specs.Code.{code_most, pieces_of, AreSound, IsLabelled};
ghost use Rattle.rv_sequences.specs.Emitted.{IsSoundBuffer};
ghost use Rattle.rv_sequences.specs.Parts.{PutsAlone};

use crate::code::{CodePiece, bind, branch, jump, put_code, rri, rrr};
use crate::reverse::reverse_code;
use mach_buffer::MachBuffer;
use rv_base::{
    IntCC, IrType, IsaFlags, OutOfMemory, Reg, WritableReg, spilltmp_reg2, writable_spilltmp_reg2,
    zero_reg,
};
use rv_imms::Imm12;
use rv_inst::{Computation, LabelUse, Sequence};
use rv_ops::{AluOPRRI, AluOPRRR, IntegerCompare};

/// Puts a sequence that computes one register of another: of its low bits, as many as its type has. The first two temporaries hold
/// how many of them are left and which is the next one.
pub fn put_computation(
    sink: &mut MachBuffer<LabelUse>,
    flags: IsaFlags,
    sequence: Sequence,
) -> Result<(), OutOfMemory>
    requires fine { IsFineSequence sequence }
    requires few { allocated_of sink.old < 2 ^ 29 }
    requires room { length (bytes_of sink.old) + 80 < code_limit }
    requires sound { IsSoundBuffer sink.old }
    ensures slots { OnOk result (PutsAlone flags (slots_of flags (sequence_pieces sequence)) sink.old sink.new) }
    ensures refused { OnErr result (spoiled_of sink.new ≡ true) }
{
    let (rd, tmp1, tmp2) = (sequence.rd, sequence.tmp1, sequence.tmp2);
    let (rs, ty) = (sequence.rs, sequence.ty);
    match sequence.computation {
        Computation::Ones => put_code(sink, flags, &popcnt_code(rd, tmp1, tmp2, rs, ty)),
        Computation::Zeros { leading } => put_zeros(sink, flags, leading, rd, tmp1, tmp2, rs, ty),
        Computation::ReversedBytes => {
            let tmp3 = sequence.tmp3.unwrap_or(tmp2);
            put_code(sink, flags, &reverse_code(rd, tmp2, tmp3, tmp1, rs, ty))
        }
    }
}

// ---- the ones

/// The ones are counted, from the highest bit on.
fn popcnt_code(
    sum: WritableReg,
    tmp: WritableReg,
    step: WritableReg,
    rs: Reg,
    ty: IrType,
) -> [CodePiece; 17]
    requires sum { IsIntRegister sum.reg }
    requires tmp { IsIntRegister tmp.reg }
    requires step { IsIntRegister step.reg }
    requires rs { IsIntRegister rs }
    requires ty { is_int_type ty ≡ true }
    ensures pieces { pieces_of result ≡ ones_pieces (number_of sum.reg) (number_of tmp.reg) (number_of step.reg) (number_of rs) (bits_of ty) }
    ensures registers { AreSound result }
    ensures labels { IsLabelled 0 [] result }
    ensures few { code_most result ≡ 44 }
{
    [
        CodePiece::New,
        CodePiece::New,
        CodePiece::New,
        rri(AluOPRRI::Addi, sum, zero_reg(), Imm12::ZERO),
        rri(AluOPRRI::Addi, step, zero_reg(), width(ty)),
        rri(AluOPRRI::Addi, tmp, zero_reg(), Imm12::ONE),
        rri(AluOPRRI::Slli, tmp, tmp.reg, highest(ty)),
        bind(0),
        branch(none_left(step.reg), 1),
        rrr(AluOPRRR::And, writable_spilltmp_reg2(), tmp.reg, rs),
        branch(is_zero_bit(), 2),
        rri(AluOPRRI::Addi, sum, sum.reg, Imm12::ONE),
        bind(2),
        rri(AluOPRRI::Addi, step, step.reg, less()),
        rri(AluOPRRI::Srli, tmp, tmp.reg, Imm12::ONE),
        jump(0),
        bind(1),
    ]
}

// ---- the zeros before the first one

/// The zeros are counted, from the highest bit on or from the lowest, until one is a one.
fn put_zeros(
    sink: &mut MachBuffer<LabelUse>,
    flags: IsaFlags,
    leading: bool,
    sum: WritableReg,
    tmp: WritableReg,
    step: WritableReg,
    rs: Reg,
    ty: IrType,
) -> Result<(), OutOfMemory>
    requires sum { IsIntRegister sum.reg }
    requires tmp { IsIntRegister tmp.reg }
    requires step { IsIntRegister step.reg }
    requires rs { IsIntRegister rs }
    requires ty { is_int_type ty ≡ true }
    requires few { allocated_of sink.old < 2 ^ 29 }
    requires room { length (bytes_of sink.old) + 48 < code_limit }
    requires sound { IsSoundBuffer sink.old }
    ensures slots { OnOk result (PutsAlone flags (slots_of flags (zeros_pieces leading (number_of sum.reg) (number_of tmp.reg) (number_of step.reg) (number_of rs) (bits_of ty))) sink.old sink.new) }
    ensures refused { OnErr result (spoiled_of sink.new ≡ true) }
{
    if leading {
        put_code(sink, flags, &leading_zeros_code(sum, tmp, step, rs, ty))
    } else {
        put_code(sink, flags, &trailing_zeros_code(sum, tmp, step, rs, ty))
    }
}

fn leading_zeros_code(
    sum: WritableReg,
    tmp: WritableReg,
    step: WritableReg,
    rs: Reg,
    ty: IrType,
) -> [CodePiece; 15]
    requires sum { IsIntRegister sum.reg }
    requires tmp { IsIntRegister tmp.reg }
    requires step { IsIntRegister step.reg }
    requires rs { IsIntRegister rs }
    requires ty { is_int_type ty ≡ true }
    ensures pieces { pieces_of result ≡ zeros_pieces true (number_of sum.reg) (number_of tmp.reg) (number_of step.reg) (number_of rs) (bits_of ty) }
    ensures registers { AreSound result }
    ensures labels { IsLabelled 0 [] result }
    ensures few { code_most result ≡ 44 }
{
    [
        CodePiece::New,
        CodePiece::New,
        rri(AluOPRRI::Addi, sum, zero_reg(), Imm12::ZERO),
        rri(AluOPRRI::Addi, step, zero_reg(), width(ty)),
        rri(AluOPRRI::Addi, tmp, zero_reg(), Imm12::ONE),
        rri(AluOPRRI::Slli, tmp, tmp.reg, highest(ty)),
        bind(0),
        branch(none_left(step.reg), 1),
        rrr(AluOPRRR::And, writable_spilltmp_reg2(), tmp.reg, rs),
        branch(is_one_bit(), 1),
        rri(AluOPRRI::Addi, sum, sum.reg, Imm12::ONE),
        rri(AluOPRRI::Addi, step, step.reg, less()),
        rri(AluOPRRI::Srli, tmp, tmp.reg, Imm12::ONE),
        jump(0),
        bind(1),
    ]
}

fn trailing_zeros_code(
    sum: WritableReg,
    tmp: WritableReg,
    step: WritableReg,
    rs: Reg,
    ty: IrType,
) -> [CodePiece; 14]
    requires sum { IsIntRegister sum.reg }
    requires tmp { IsIntRegister tmp.reg }
    requires step { IsIntRegister step.reg }
    requires rs { IsIntRegister rs }
    requires ty { is_int_type ty ≡ true }
    ensures pieces { pieces_of result ≡ zeros_pieces false (number_of sum.reg) (number_of tmp.reg) (number_of step.reg) (number_of rs) (bits_of ty) }
    ensures registers { AreSound result }
    ensures labels { IsLabelled 0 [] result }
    ensures few { code_most result ≡ 40 }
{
    [
        CodePiece::New,
        CodePiece::New,
        rri(AluOPRRI::Addi, sum, zero_reg(), Imm12::ZERO),
        rri(AluOPRRI::Addi, step, zero_reg(), width(ty)),
        rri(AluOPRRI::Addi, tmp, zero_reg(), Imm12::ONE),
        bind(0),
        branch(none_left(step.reg), 1),
        rrr(AluOPRRR::And, writable_spilltmp_reg2(), tmp.reg, rs),
        branch(is_one_bit(), 1),
        rri(AluOPRRI::Addi, sum, sum.reg, Imm12::ONE),
        rri(AluOPRRI::Addi, step, step.reg, less()),
        rri(AluOPRRI::Slli, tmp, tmp.reg, Imm12::ONE),
        jump(0),
        bind(1),
    ]
}

// ---- immediates

/// How many bits an integer type of at most 64 bits has.
pub(crate) fn bits(ty: IrType) -> i16
    requires ty { is_int_type ty ≡ true }
    ensures value { result ≡ pos (bits_of ty) }
    ensures some { 1 ≤ bits_of ty }
    ensures few { bits_of ty ≤ 64 }
{
    match ty {
        IrType::I8 => 8,
        IrType::I16 => 16,
        IrType::I32 => 32,
        _ => 64,
    }
}

/// The same as an immediate.
pub(crate) fn width(ty: IrType) -> Imm12
    requires ty { is_int_type ty ≡ true }
    ensures { result.value ≡ pos (bits_of ty) }
{
    Imm12::from_i16(bits(ty))
}

/// The index of the highest of them.
pub(crate) fn highest(ty: IrType) -> Imm12
    requires ty { is_int_type ty ≡ true }
    ensures { result.value ≡ pos (bits_of ty - 1) }
{
    Imm12::from_i16(bits(ty) - 1)
}

/// One less.
pub(crate) fn less() -> Imm12
    ensures { result.value ≡ negsuc 0 }
{
    Imm12::from_i16(-1)
}

// ---- comparisons

/// No bit is left.
pub(crate) fn none_left(step: Reg) -> IntegerCompare
    requires { IsIntRegister step }
    ensures kind { result.kind ≡ SignedGreaterThanOrEqual }
    ensures zero { number_of result.rs1 ≡ 0 }
    ensures step { result.rs2 ≡ step }
    ensures rs1 { IsIntRegister result.rs1 }
{
    IntegerCompare {
        kind: IntCC::SignedGreaterThanOrEqual,
        rs1: zero_reg(),
        rs2: step,
    }
}

/// The next bit, which is in x30, is a one.
fn is_one_bit() -> IntegerCompare
    ensures kind { result.kind ≡ NotEqual }
    ensures zero { number_of result.rs1 ≡ 0 }
    ensures spare { number_of result.rs2 ≡ 30 }
    ensures rs1 { IsIntRegister result.rs1 }
    ensures rs2 { IsIntRegister result.rs2 }
{
    IntegerCompare {
        kind: IntCC::NotEqual,
        rs1: zero_reg(),
        rs2: spilltmp_reg2(),
    }
}

/// It is a zero.
pub(crate) fn is_zero_bit() -> IntegerCompare
    ensures kind { result.kind ≡ Equal }
    ensures zero { number_of result.rs1 ≡ 0 }
    ensures spare { number_of result.rs2 ≡ 30 }
    ensures rs1 { IsIntRegister result.rs1 }
    ensures rs2 { IsIntRegister result.rs2 }
{
    IntegerCompare {
        kind: IntCC::Equal,
        rs1: zero_reg(),
        rs2: spilltmp_reg2(),
    }
}
