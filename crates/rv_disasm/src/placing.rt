//! Where each field of a row stands in a word, or in an instruction of 16 bits: "2.3 Immediate Encoding Variants" and "Compressed
//! Instruction Formats".

ghost use Rattle.std.specs.Prelude.{◌≡◌, ◌<◌, ◌^◌};
ghost use Rattle.rv_disasm.specs.Placing.{i_place, s_place, b_place, u_place, j_place, base_place, imm_place, word_place, low_place, high_place, rs2_place, rd_place, ci_place, addi16sp_place, lwsp_place, ldsp_place, swsp_place, sdsp_place, ciw_place, lw_place, ld_place, lb_place, lh_place, cj_place, half_rd_place, half_rs1_place, half_rs2_place, half_imm_place, half_place, place, form_fixed};

use crate::fixed::{fixed_of, half_fixed};
use crate::forms::Form;
use crate::halfwords::HalfOp;
use crate::layouts::Field;
use rv_machine::{BaseOp, MOp};

fn i_place(n: u64) -> u64
    ensures value { result ≡ i_place n }
    ensures small { result < 2 ^ 32 }
{
    n % 0x1000 * 0x10_0000
}

fn s_place(n: u64) -> u64
    ensures value { result ≡ s_place n }
    ensures small { result < 2 ^ 32 }
{
    n % 0x20 * 0x80 + n / 0x20 % 0x80 * 0x200_0000
}

fn b_place(n: u64) -> u64
    ensures value { result ≡ b_place n }
    ensures small { result < 2 ^ 32 }
{
    n / 0x800 % 2 * 0x80
        + n / 2 % 0x10 * 0x100
        + n / 0x20 % 0x40 * 0x200_0000
        + n / 0x1000 % 2 * 0x8000_0000
}

fn u_place(n: u64) -> u64
    ensures value { result ≡ u_place n }
    ensures small { result < 2 ^ 32 }
{
    n % 0x10_0000 * 0x1000
}

fn j_place(n: u64) -> u64
    ensures value { result ≡ j_place n }
    ensures small { result < 2 ^ 32 }
{
    n / 0x1000 % 0x100 * 0x1000
        + n / 0x800 % 2 * 0x10_0000
        + n / 2 % 0x400 * 0x20_0000
        + n / 0x10_0000 % 2 * 0x8000_0000
}

fn low_place(n: u64) -> u64
    ensures value { result ≡ low_place n }
    ensures small { result < 2 ^ 16 }
{
    n % 0x8 * 0x4
}

fn high_place(n: u64) -> u64
    ensures value { result ≡ high_place n }
    ensures small { result < 2 ^ 16 }
{
    n % 0x8 * 0x80
}

fn rs2_place(n: u64) -> u64
    ensures value { result ≡ rs2_place n }
    ensures small { result < 2 ^ 16 }
{
    n % 0x20 * 0x4
}

fn rd_place(n: u64) -> u64
    ensures value { result ≡ rd_place n }
    ensures small { result < 2 ^ 16 }
{
    n % 0x20 * 0x80
}

fn ci_place(n: u64) -> u64
    ensures value { result ≡ ci_place n }
    ensures small { result < 2 ^ 16 }
{
    n % 0x20 * 0x4 + n / 0x20 % 2 * 0x1000
}

fn addi16sp_place(n: u64) -> u64
    ensures value { result ≡ addi16sp_place n }
    ensures small { result < 2 ^ 16 }
{
    n / 0x20 % 2 * 0x4
        + n / 0x80 % 0x4 * 0x8
        + n / 0x40 % 2 * 0x20
        + n / 0x10 % 2 * 0x40
        + n / 0x200 % 2 * 0x1000
}

fn lwsp_place(n: u64) -> u64
    ensures value { result ≡ lwsp_place n }
    ensures small { result < 2 ^ 16 }
{
    n / 0x40 % 0x4 * 0x4 + n / 0x4 % 0x8 * 0x10 + n / 0x20 % 2 * 0x1000
}

fn ldsp_place(n: u64) -> u64
    ensures value { result ≡ ldsp_place n }
    ensures small { result < 2 ^ 16 }
{
    n / 0x40 % 0x8 * 0x4 + n / 0x8 % 0x4 * 0x20 + n / 0x20 % 2 * 0x1000
}

fn swsp_place(n: u64) -> u64
    ensures value { result ≡ swsp_place n }
    ensures small { result < 2 ^ 16 }
{
    n / 0x40 % 0x4 * 0x80 + n / 0x4 % 0x10 * 0x200
}

fn sdsp_place(n: u64) -> u64
    ensures value { result ≡ sdsp_place n }
    ensures small { result < 2 ^ 16 }
{
    n / 0x40 % 0x8 * 0x80 + n / 0x8 % 0x8 * 0x400
}

fn ciw_place(n: u64) -> u64
    ensures value { result ≡ ciw_place n }
    ensures small { result < 2 ^ 16 }
{
    n / 0x8 % 2 * 0x20 + n / 0x4 % 2 * 0x40 + n / 0x40 % 0x10 * 0x80 + n / 0x10 % 0x4 * 0x800
}

fn lw_place(n: u64) -> u64
    ensures value { result ≡ lw_place n }
    ensures small { result < 2 ^ 16 }
{
    n / 0x40 % 2 * 0x20 + n / 0x4 % 2 * 0x40 + n / 0x8 % 0x8 * 0x400
}

fn ld_place(n: u64) -> u64
    ensures value { result ≡ ld_place n }
    ensures small { result < 2 ^ 16 }
{
    n / 0x40 % 0x4 * 0x20 + n / 0x8 % 0x8 * 0x400
}

fn lb_place(n: u64) -> u64
    ensures value { result ≡ lb_place n }
    ensures small { result < 2 ^ 16 }
{
    n / 2 % 2 * 0x20 + n % 2 * 0x40
}

fn lh_place(n: u64) -> u64
    ensures value { result ≡ lh_place n }
    ensures small { result < 2 ^ 16 }
{
    n / 2 % 2 * 0x20
}

fn cj_place(n: u64) -> u64
    ensures value { result ≡ cj_place n }
    ensures small { result < 2 ^ 16 }
{
    n / 0x20 % 2 * 0x4
        + n / 2 % 0x8 * 0x8
        + n / 0x80 % 2 * 0x40
        + n / 0x40 % 2 * 0x80
        + n / 0x400 % 2 * 0x100
        + n / 0x100 % 0x4 * 0x200
        + n / 0x10 % 2 * 0x800
        + n / 0x800 % 2 * 0x1000
}

fn base_place(op: BaseOp, n: u64) -> u64
    ensures value { result ≡ base_place op n }
    ensures small { result < 2 ^ 32 }
{
    match op {
        BaseOp::Lui | BaseOp::Auipc => u_place(n),
        BaseOp::Jal => j_place(n),
        BaseOp::Beq | BaseOp::Bne | BaseOp::Blt | BaseOp::Bge | BaseOp::Bltu | BaseOp::Bgeu =>
            b_place(n),
        BaseOp::Jalr | BaseOp::Fence | BaseOp::Ebreak => i_place(n),
    }
}

fn imm_place(op: MOp, n: u64) -> u64
    ensures value { result ≡ imm_place op n }
    ensures small { result < 2 ^ 32 }
{
    match op {
        MOp::Base(op) => base_place(op, n),
        MOp::Store(_) | MOp::FloatStore(_) => s_place(n),
        MOp::Load(_)
        | MOp::Alu(_)
        | MOp::Carry(_)
        | MOp::Atomic(_, _)
        | MOp::Csr(_)
        | MOp::FloatLoad(_)
        | MOp::Float(_, _)
        | MOp::VecMem(_)
        | MOp::Vec { .. } => i_place(n),
    }
}

fn word_place(op: MOp, field: Field, n: u64) -> u64
    ensures value { result ≡ word_place op field n }
    ensures small { result < 2 ^ 32 }
{
    match field {
        Field::Rd(_) => n % 0x20 * 0x80,
        Field::Rs1(_) => n % 0x20 * 0x8000,
        Field::Rs2(_) => n % 0x20 * 0x10_0000,
        Field::Rs3(_) => n % 0x20 * 0x800_0000,
        Field::Imm => imm_place(op, n),
        Field::Rounding | Field::Funct3 => n % 8 * 0x1000,
        Field::Ordering => n % 4 * 0x200_0000,
        Field::Mask => n % 2 * 0x200_0000,
        Field::Pred => n % 0x10 * 0x100_0000,
        Field::Succ => n % 0x10 * 0x10_0000,
        Field::Funct6 => n % 0x40 * 0x400_0000,
    }
}

fn half_rd_place(op: HalfOp, n: u64) -> u64
    ensures value { result ≡ half_rd_place op n }
    ensures small { result < 2 ^ 16 }
{
    match op {
        HalfOp::Addi4spn
        | HalfOp::Fld
        | HalfOp::Lw
        | HalfOp::Ld
        | HalfOp::Lbu
        | HalfOp::Lhu
        | HalfOp::Lh => low_place(n),
        HalfOp::Sb
        | HalfOp::Sh
        | HalfOp::Fsd
        | HalfOp::Sw
        | HalfOp::Sd
        | HalfOp::Addi
        | HalfOp::Addiw
        | HalfOp::Li
        | HalfOp::Addi16sp
        | HalfOp::Lui
        | HalfOp::J
        | HalfOp::Slli
        | HalfOp::Fldsp
        | HalfOp::Lwsp
        | HalfOp::Ldsp
        | HalfOp::Jr
        | HalfOp::Mv
        | HalfOp::Ebreak
        | HalfOp::Jalr
        | HalfOp::Add
        | HalfOp::Fsdsp
        | HalfOp::Swsp
        | HalfOp::Sdsp => rd_place(n),
        HalfOp::Srli
        | HalfOp::Srai
        | HalfOp::Andi
        | HalfOp::Sub
        | HalfOp::Xor
        | HalfOp::Or
        | HalfOp::And
        | HalfOp::Subw
        | HalfOp::Addw
        | HalfOp::Mul
        | HalfOp::ZextB
        | HalfOp::SextB
        | HalfOp::ZextH
        | HalfOp::SextH
        | HalfOp::ZextW
        | HalfOp::Not => high_place(n),
    }
}

fn half_rs1_place(op: HalfOp, n: u64) -> u64
    ensures value { result ≡ half_rs1_place op n }
    ensures small { result < 2 ^ 16 }
{
    match op {
        HalfOp::Addi4spn
        | HalfOp::Addi
        | HalfOp::Addiw
        | HalfOp::Li
        | HalfOp::Addi16sp
        | HalfOp::Lui
        | HalfOp::Srli
        | HalfOp::Srai
        | HalfOp::Andi
        | HalfOp::Sub
        | HalfOp::Xor
        | HalfOp::Or
        | HalfOp::And
        | HalfOp::Subw
        | HalfOp::Addw
        | HalfOp::Mul
        | HalfOp::ZextB
        | HalfOp::SextB
        | HalfOp::ZextH
        | HalfOp::SextH
        | HalfOp::ZextW
        | HalfOp::Not
        | HalfOp::J
        | HalfOp::Slli
        | HalfOp::Fldsp
        | HalfOp::Lwsp
        | HalfOp::Ldsp
        | HalfOp::Jr
        | HalfOp::Mv
        | HalfOp::Ebreak
        | HalfOp::Jalr
        | HalfOp::Add
        | HalfOp::Fsdsp
        | HalfOp::Swsp
        | HalfOp::Sdsp => rd_place(n),
        HalfOp::Fld
        | HalfOp::Lw
        | HalfOp::Ld
        | HalfOp::Lbu
        | HalfOp::Lhu
        | HalfOp::Lh
        | HalfOp::Sb
        | HalfOp::Sh
        | HalfOp::Fsd
        | HalfOp::Sw
        | HalfOp::Sd => high_place(n),
    }
}

fn half_rs2_place(op: HalfOp, n: u64) -> u64
    ensures value { result ≡ half_rs2_place op n }
    ensures small { result < 2 ^ 16 }
{
    match op {
        HalfOp::Addi4spn
        | HalfOp::Fld
        | HalfOp::Lw
        | HalfOp::Ld
        | HalfOp::Lbu
        | HalfOp::Lhu
        | HalfOp::Lh
        | HalfOp::Addi
        | HalfOp::Addiw
        | HalfOp::Li
        | HalfOp::Addi16sp
        | HalfOp::Lui
        | HalfOp::Srli
        | HalfOp::Srai
        | HalfOp::Andi
        | HalfOp::ZextB
        | HalfOp::SextB
        | HalfOp::ZextH
        | HalfOp::SextH
        | HalfOp::ZextW
        | HalfOp::Not
        | HalfOp::J
        | HalfOp::Slli
        | HalfOp::Fldsp
        | HalfOp::Lwsp
        | HalfOp::Ldsp
        | HalfOp::Jr
        | HalfOp::Mv
        | HalfOp::Ebreak
        | HalfOp::Jalr
        | HalfOp::Add
        | HalfOp::Fsdsp
        | HalfOp::Swsp
        | HalfOp::Sdsp => rs2_place(n),
        HalfOp::Sb
        | HalfOp::Sh
        | HalfOp::Fsd
        | HalfOp::Sw
        | HalfOp::Sd
        | HalfOp::Sub
        | HalfOp::Xor
        | HalfOp::Or
        | HalfOp::And
        | HalfOp::Subw
        | HalfOp::Addw
        | HalfOp::Mul => low_place(n),
    }
}

fn half_imm_place(op: HalfOp, n: u64) -> u64
    ensures value { result ≡ half_imm_place op n }
    ensures small { result < 2 ^ 16 }
{
    match op {
        HalfOp::Addi4spn => ciw_place(n),
        HalfOp::Fld | HalfOp::Ld | HalfOp::Fsd | HalfOp::Sd => ld_place(n),
        HalfOp::Lw | HalfOp::Sw => lw_place(n),
        HalfOp::Lbu | HalfOp::Sb => lb_place(n),
        HalfOp::Lhu | HalfOp::Lh | HalfOp::Sh => lh_place(n),
        HalfOp::Addi
        | HalfOp::Addiw
        | HalfOp::Li
        | HalfOp::Lui
        | HalfOp::Srli
        | HalfOp::Srai
        | HalfOp::Andi
        | HalfOp::Sub
        | HalfOp::Xor
        | HalfOp::Or
        | HalfOp::And
        | HalfOp::Subw
        | HalfOp::Addw
        | HalfOp::Mul
        | HalfOp::ZextB
        | HalfOp::SextB
        | HalfOp::ZextH
        | HalfOp::SextH
        | HalfOp::ZextW
        | HalfOp::Not
        | HalfOp::Slli
        | HalfOp::Jr
        | HalfOp::Mv
        | HalfOp::Ebreak
        | HalfOp::Jalr
        | HalfOp::Add => ci_place(n),
        HalfOp::Addi16sp => addi16sp_place(n),
        HalfOp::J => cj_place(n),
        HalfOp::Fldsp | HalfOp::Ldsp => ldsp_place(n),
        HalfOp::Lwsp => lwsp_place(n),
        HalfOp::Fsdsp | HalfOp::Sdsp => sdsp_place(n),
        HalfOp::Swsp => swsp_place(n),
    }
}

fn half_place(op: HalfOp, field: Field, n: u64) -> u64
    ensures value { result ≡ half_place op field n }
    ensures small { result < 2 ^ 16 }
{
    match field {
        Field::Rd(_) => half_rd_place(op, n),
        Field::Rs1(_) => half_rs1_place(op, n),
        Field::Rs2(_) => half_rs2_place(op, n),
        Field::Imm => half_imm_place(op, n),
        Field::Rs3(_)
        | Field::Rounding
        | Field::Ordering
        | Field::Mask
        | Field::Pred
        | Field::Succ
        | Field::Funct6
        | Field::Funct3 => 0,
    }
}

impl Form {
    /// The bits that a field's number has in the word.
    pub(crate) fn place(self, field: Field, n: u64) -> u64
        ensures value { result ≡ place self field n }
        ensures small { result < 2 ^ 32 }
    {
        match self {
            Form::Word(op) => word_place(op, field, n),
            Form::Half(op) => half_place(op, field, n),
        }
    }

    /// The bits that the row fixes.
    pub(crate) fn fixed(self) -> u64
        ensures value { result ≡ form_fixed self }
        ensures small { result < 2 ^ 33 }
    {
        match self {
            Form::Word(op) => fixed_of(op),
            Form::Half(op) => half_fixed(op),
        }
    }
}
