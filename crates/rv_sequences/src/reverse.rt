//! The code that reverses the bits of a register's bytes. Label 0 is the loop's, 1 the end's, 2 stands past the operation that sets a
//! bit, 3 where the next bit goes on in its byte, and 4 where a turn ends.

ghost use Rattle.std.specs.Prelude.{◌≡◌, [], ◌-◌, pos, true};
ghost use Rattle.rv_base.specs.IrType.{bits_of};
ghost use Rattle.rv_base.specs.Regs.{number_of};
ghost use Rattle.rv_base.specs.declared.condcodes.IntCC.TheVariants.{NotEqual};
ghost use Rattle.rv_encode.specs.Registers.{IsIntRegister};
ghost use Rattle.rv_inst.specs.Rules.{is_int_type};
ghost use Rattle.rv_code.specs.Sequences.{reverse_pieces};
ghost use Rattle.rv_sequences.specs.Code.{code_most, pieces_of, AreSound, IsLabelled};

use crate::code::{CodePiece, bind, branch, jump, rri, rrr};
use crate::counts::{bits, highest, is_zero_bit, less, none_left, width};
use rv_base::{IntCC, IrType, Reg, WritableReg, spilltmp_reg2, writable_spilltmp_reg2, zero_reg};
use rv_imms::Imm12;
use rv_ops::{AluOPRRI, AluOPRRR, IntegerCompare};

/// The bits of a register's low bytes are set in reverse order, from the highest bit on: `step` counts the bits that are left, `tmp`
/// holds the next one, and `tmp2` the one to which it goes.
pub(crate) fn reverse_code(
    rd: WritableReg,
    tmp: WritableReg,
    tmp2: WritableReg,
    step: WritableReg,
    rs: Reg,
    ty: IrType,
) -> [CodePiece; 29]
    requires rd { IsIntRegister rd.reg }
    requires tmp { IsIntRegister tmp.reg }
    requires tmp2 { IsIntRegister tmp2.reg }
    requires step { IsIntRegister step.reg }
    requires rs { IsIntRegister rs }
    requires ty { is_int_type ty ≡ true }
    ensures pieces { pieces_of result ≡ reverse_pieces (number_of rd.reg) (number_of tmp.reg) (number_of tmp2.reg) (number_of step.reg) (number_of rs) (bits_of ty) }
    ensures registers { AreSound result }
    ensures labels { IsLabelled 0 [] result }
    ensures few { code_most result ≡ 76 }
{
    [
        CodePiece::New,
        CodePiece::New,
        CodePiece::New,
        CodePiece::New,
        CodePiece::New,
        rri(AluOPRRI::Addi, rd, zero_reg(), Imm12::ZERO),
        rri(AluOPRRI::Addi, step, zero_reg(), width(ty)),
        rri(AluOPRRI::Addi, tmp, zero_reg(), Imm12::ONE),
        rri(AluOPRRI::Slli, tmp, tmp.reg, highest(ty)),
        rri(AluOPRRI::Addi, tmp2, zero_reg(), Imm12::ONE),
        rri(AluOPRRI::Slli, tmp2, tmp2.reg, top_byte(ty)),
        bind(0),
        branch(none_left(step.reg), 1),
        rrr(AluOPRRR::And, writable_spilltmp_reg2(), tmp.reg, rs),
        branch(is_zero_bit(), 2),
        rrr(AluOPRRR::Or, rd, rd.reg, tmp2.reg),
        bind(2),
        rri(AluOPRRI::Addi, step, step.reg, less()),
        rri(AluOPRRI::Srli, tmp, tmp.reg, Imm12::ONE),
        rri(
            AluOPRRI::Addi,
            writable_spilltmp_reg2(),
            zero_reg(),
            eight(),
        ),
        rrr(
            AluOPRRR::Rem,
            writable_spilltmp_reg2(),
            step.reg,
            spilltmp_reg2(),
        ),
        branch(is_within(), 3),
        rri(AluOPRRI::Srli, tmp2, tmp2.reg, fifteen()),
        jump(4),
        bind(3),
        rri(AluOPRRI::Slli, tmp2, tmp2.reg, Imm12::ONE),
        bind(4),
        jump(0),
        bind(1),
    ]
}

/// The index of the lowest bit of the highest byte.
fn top_byte(ty: IrType) -> Imm12
    requires ty { is_int_type ty ≡ true }
    ensures { result.value ≡ pos (bits_of ty - 8) }
{
    Imm12::from_i16(bits(ty) - 8)
}

/// How many bits a byte has.
fn eight() -> Imm12
    ensures { result.value ≡ pos 8 }
{
    Imm12::from_i16(8)
}

/// How far the lowest bit of the byte below is from the highest of a byte.
fn fifteen() -> Imm12
    ensures { result.value ≡ pos 15 }
{
    Imm12::from_i16(15)
}

/// Bits are left of the next one's byte: how many is in x30.
fn is_within() -> IntegerCompare
    ensures kind { result.kind ≡ NotEqual }
    ensures spare { number_of result.rs1 ≡ 30 }
    ensures zero { number_of result.rs2 ≡ 0 }
    ensures rs1 { IsIntRegister result.rs1 }
    ensures rs2 { IsIntRegister result.rs2 }
{
    IntegerCompare {
        kind: IntCC::NotEqual,
        rs1: spilltmp_reg2(),
        rs2: zero_reg(),
    }
}
