//! The code that extends a number, and that chooses one of two values. Label 0 stands past the second moves of a choice.

ghost use Rattle.std.specs.Prelude.{◌≡◌, [], ◌∷◌, ◌+◌, ◌-◌, ◌<◌, ◌≤◌, ◌^◌, length, map, pos, OnOk, OnErr, true};
ghost use Rattle.rv_base.specs.LabelUse.{code_limit};
ghost use Rattle.rv_base.specs.Regs.{class_of, number_of};
ghost use Rattle.rv_ops.specs.declared.alu.AluOPRRI.TheVariants.{Slli};
ghost use Rattle.rv_encode.specs.Registers.{IsIntRegister};
ghost use Rattle.mach_buffer.specs.Buffer.{bytes_of, allocated_of, spoiled_of};
ghost use Rattle.rv_inst.specs.Generators.{canonical_type};
ghost use Rattle.rv_inst.specs.Operands.{all_of, written_in};
ghost use Rattle.rv_inst.specs.Sizes as sizes;
ghost use Rattle.rv_code.specs.Choices.{choice_pieces, chosen_pieces, extend_pieces, same_numbers};
ghost use Rattle.rv_code.specs.Pieces.{Rri, Do, slots_of};
ghost use Rattle.rv_code.specs.Usable.{IsFineChoice, IsMove};
ghost use Rattle.rv_sequences.specs.Code.{code_most, pieces_of, AreSound, IsLabelled};
ghost use Rattle.rv_sequences.specs.Emitted.{IsSoundBuffer};
ghost use Rattle.rv_sequences.specs.Parts.{PutsAlone};

use crate::code::{CodePiece, bind, branch, copy, put_code};
use crate::shortest::put_rri;
use mach_buffer::MachBuffer;
use rv_base::{IsaFlags, OutOfMemory, Reg, ValueRegs, WritableReg};
use rv_encode::number_of;
use rv_imms::Imm12;
use rv_inst::LabelUse;
use rv_ops::{AluOPRRI, IntegerCompare};

// ---- an extension

/// The low bits of a register, as many as these, sign-extended or zero-extended: by `andi` of 255 for a byte that is
/// zero-extended, and else by a shift to the left and one back.
#[inline(never)]
pub fn put_extend(
    sink: &mut MachBuffer<LabelUse>,
    flags: IsaFlags,
    rd: WritableReg,
    rn: Reg,
    signed: bool,
    from_bits: u8,
) -> Result<(), OutOfMemory>
    requires rd { IsIntRegister rd.reg }
    requires rn { IsIntRegister rn }
    requires some { 1 ≤ from_bits }
    requires few { from_bits ≤ 64 }
    requires room { length (bytes_of sink.old) + 8 < code_limit }
    requires sound { IsSoundBuffer sink.old }
    ensures slots { OnOk result (PutsAlone flags (slots_of flags (extend_pieces (number_of rd.reg) (number_of rn) signed from_bits)) sink.old sink.new) }
    ensures long { OnOk result (length (bytes_of sink.new) ≤ length (bytes_of sink.old) + 8) }
    ensures sound { OnOk result (IsSoundBuffer sink.new) }
    ensures refused { OnErr result (spoiled_of sink.new ≡ true) }
{
    if is_byte(signed, from_bits) {
        put_rri(sink, flags, AluOPRRI::Andi, rd, rn, low_byte())
    } else {
        put_shifts(sink, flags, rd, rn, right_shift(signed), others(from_bits))
    }
}

/// Returns whether a byte is zero-extended.
fn is_byte(signed: bool, from_bits: u8) -> bool
    ensures { result ≡ sizes.is_byte signed from_bits }
{
    !signed && from_bits == 8
}

/// All bits of a byte.
pub(crate) fn low_byte() -> Imm12
    ensures { result.value ≡ pos 255 }
{
    Imm12::from_i16(255)
}

/// A shift to the left, and one back.
fn put_shifts(
    sink: &mut MachBuffer<LabelUse>,
    flags: IsaFlags,
    rd: WritableReg,
    rn: Reg,
    back: AluOPRRI,
    amount: Imm12,
) -> Result<(), OutOfMemory>
    requires rd { IsIntRegister rd.reg }
    requires rn { IsIntRegister rn }
    requires room { length (bytes_of sink.old) + 8 < code_limit }
    requires sound { IsSoundBuffer sink.old }
    ensures slots { OnOk result (PutsAlone flags (slots_of flags (Do (Rri Slli (number_of rd.reg) (number_of rn) amount.value) ∷ Do (Rri back (number_of rd.reg) (number_of rd.reg) amount.value) ∷ [])) sink.old sink.new) }
    ensures long { OnOk result (length (bytes_of sink.new) ≤ length (bytes_of sink.old) + 8) }
    ensures sound { OnOk result (IsSoundBuffer sink.new) }
    ensures refused { OnErr result (spoiled_of sink.new ≡ true) }
{
    put_rri(sink, flags, AluOPRRI::Slli, rd, rn, amount)?;
    put_rri(sink, flags, back, rd, rd.reg, amount)?;
    Ok(())
}

/// The shift to the right that extends a number.
fn right_shift(signed: bool) -> AluOPRRI
    ensures { result ≡ sizes.right_shift signed }
{
    if signed {
        AluOPRRI::Srai
    } else {
        AluOPRRI::Srli
    }
}

/// How many of a register's bits are others than its low ones.
fn others(bits: u8) -> Imm12
    requires { bits ≤ 64 }
    ensures { result.value ≡ pos (64 - bits) }
{
    Imm12::from_i16(i16::from(64 - bits))
}

// ---- a choice

/// The registers of one value or of another: the one is moved, and then the other, unless a branch leads over that. Where the
/// results are the other's registers already, the two change places.
#[inline(never)]
pub fn put_select(
    sink: &mut MachBuffer<LabelUse>,
    flags: IsaFlags,
    dst: ValueRegs<WritableReg>,
    condition: IntegerCompare,
    x: ValueRegs<Reg>,
    y: ValueRegs<Reg>,
) -> Result<(), OutOfMemory>
    requires fine { IsFineChoice dst condition x y }
    requires allocated { allocated_of sink.old < 2 ^ 29 }
    requires room { length (bytes_of sink.old) + 24 < code_limit }
    requires sound { IsSoundBuffer sink.old }
    ensures slots { OnOk result (PutsAlone flags (slots_of flags (chosen_pieces (written_in dst) condition.kind (number_of condition.rs1) (number_of condition.rs2) (all_of x) (all_of y))) sink.old sink.new) }
    ensures refused { OnErr result (spoiled_of sink.new ≡ true) }
{
    if are_results(y, dst) {
        put_choice(sink, flags, dst, condition.inverse(), y, x)
    } else {
        put_choice(sink, flags, dst, condition, x, y)
    }
}

/// Returns whether the registers of a value are those of the results.
fn are_results(value: ValueRegs<Reg>, dst: ValueRegs<WritableReg>) -> bool
    ensures { result ≡ same_numbers (map number_of (all_of value)) (map number_of (written_in dst)) }
{
    match (value, dst) {
        (ValueRegs::One(r), ValueRegs::One(rd)) => number_of(r) == number_of(rd.reg),
        (ValueRegs::Two(r, s), ValueRegs::Two(rd, sd)) => {
            number_of(r) == number_of(rd.reg) && number_of(s) == number_of(sd.reg)
        }
        (ValueRegs::One(_), ValueRegs::Two(_, _)) => false,
        (ValueRegs::Two(_, _), ValueRegs::One(_)) => false,
    }
}

/// One value is moved, and then the other, unless a branch leads over that.
fn put_choice(
    sink: &mut MachBuffer<LabelUse>,
    flags: IsaFlags,
    dst: ValueRegs<WritableReg>,
    skip: IntegerCompare,
    first: ValueRegs<Reg>,
    second: ValueRegs<Reg>,
) -> Result<(), OutOfMemory>
    requires fine { IsFineChoice dst skip first second }
    requires allocated { allocated_of sink.old < 2 ^ 29 }
    requires room { length (bytes_of sink.old) + 24 < code_limit }
    requires sound { IsSoundBuffer sink.old }
    ensures slots { OnOk result (PutsAlone flags (slots_of flags (choice_pieces (written_in dst) (all_of first) (all_of second) skip.kind (number_of skip.rs1) (number_of skip.rs2))) sink.old sink.new) }
    ensures refused { OnErr result (spoiled_of sink.new ≡ true) }
{
    match (dst, first, second) {
        (ValueRegs::One(rd), ValueRegs::One(r), ValueRegs::One(s)) => {
            put_code(sink, flags, &choice_of_one(rd, skip, r, s))
        }
        (ValueRegs::Two(rd, sd), ValueRegs::Two(r, s), ValueRegs::Two(t, u)) => {
            put_code(sink, flags, &choice_of_two(rd, sd, skip, r, s, t, u))
        }
        _ => Ok(()),
    }
}

fn choice_of_one(rd: WritableReg, skip: IntegerCompare, r: Reg, s: Reg) -> [CodePiece; 5]
    requires rs1 { IsIntRegister skip.rs1 }
    requires rs2 { IsIntRegister skip.rs2 }
    requires r { IsMove rd.reg r (canonical_type (class_of rd.reg)) }
    requires s { IsMove rd.reg s (canonical_type (class_of rd.reg)) }
    ensures pieces { pieces_of result ≡ choice_pieces (rd.reg ∷ []) (r ∷ []) (s ∷ []) skip.kind (number_of skip.rs1) (number_of skip.rs2) }
    ensures registers { AreSound result }
    ensures labels { IsLabelled 0 [] result }
    ensures few { code_most result ≡ 12 }
{
    [
        CodePiece::New,
        copy(rd, r),
        branch(skip, 0),
        copy(rd, s),
        bind(0),
    ]
}

fn choice_of_two(
    rd: WritableReg,
    sd: WritableReg,
    skip: IntegerCompare,
    r: Reg,
    s: Reg,
    t: Reg,
    u: Reg,
) -> [CodePiece; 7]
    requires rs1 { IsIntRegister skip.rs1 }
    requires rs2 { IsIntRegister skip.rs2 }
    requires r { IsMove rd.reg r (canonical_type (class_of rd.reg)) }
    requires s { IsMove sd.reg s (canonical_type (class_of sd.reg)) }
    requires t { IsMove rd.reg t (canonical_type (class_of rd.reg)) }
    requires u { IsMove sd.reg u (canonical_type (class_of sd.reg)) }
    ensures pieces { pieces_of result ≡ choice_pieces (rd.reg ∷ sd.reg ∷ []) (r ∷ s ∷ []) (t ∷ u ∷ []) skip.kind (number_of skip.rs1) (number_of skip.rs2) }
    ensures registers { AreSound result }
    ensures labels { IsLabelled 0 [] result }
    ensures few { code_most result ≡ 20 }
{
    [
        CodePiece::New,
        copy(rd, r),
        copy(sd, s),
        branch(skip, 0),
        copy(rd, t),
        copy(sd, u),
        bind(0),
    ]
}
