//! The code of atomic loops. Label 0 is the loop's; of a choice, 1 stands before the move of the field and 2 after it; of a swap, 1 is the
//! end's.

ghost use Rattle.std.specs.Prelude.{◌≡◌, [], ◌∷◌, ◌++◌, ◌+◌, ◌<◌, ◌≤◌, ◌^◌, ℕ, length, pos, OnOk, OnErr, false, true};
ghost use Rattle.rv_base.specs.IrType.{bits_of};
ghost use Rattle.rv_base.specs.LabelUse.{code_limit};
ghost use Rattle.rv_base.specs.Regs.{number_of};
ghost use Rattle.rv_base.specs.declared.condcodes.IntCC.TheVariants.{NotEqual};
ghost use Rattle.rv_machine.specs.UnitDecode.{is_source};
ghost use Rattle.rv_ops.specs.Atomic.{atomic_op};
ghost use Rattle.rv_ops.specs.declared.alu.AluOPRRI.TheVariants.{Addi};
ghost use Rattle.rv_ops.specs.declared.atomic.AMO.TheVariants.{SeqCst};
ghost use Rattle.rv_ops.specs.declared.atomic.AtomicRmwOp.TheVariants as rmw;
ghost use Rattle.rv_encode.specs.Operations.{decoded_atomic};
ghost use Rattle.rv_encode.specs.Registers.{IsIntRegister};
ghost use Rattle.mach_buffer.specs.Buffer.{allocated_of, bytes_of, spoiled_of};
ghost use Rattle.rv_inst.specs.AtomicLoops.{is_wide};
ghost use Rattle.rv_inst.specs.Classes.{is_int_type};
ghost use Rattle.rv_code.specs.AtomicLoops.{choose_pieces, combine_pieces, combining, extract_pieces, labels_for, load_reserved, loop_load, loop_pieces, loop_store, merge_pieces, store_and_retry, store_conditional, swapping, take_field, width_for};
ghost use Rattle.rv_code.specs.Choices.{extend_pieces};
ghost use Rattle.rv_code.specs.Pieces.{Bind, Branch, Do, New, Rri, Rrr, slots_of};
ghost use Rattle.rv_code.specs.Slots.{Op};
ghost use Rattle.rv_code.specs.Usable.{IsFineAtomicLoop};
ghost use Rattle.rv_sequences.specs.Code.{code_most, pieces_of, shown, AreSound, IsLabelled, IsSound, most_of};
ghost use Rattle.rv_sequences.specs.Emitted.{IsSoundBuffer};
ghost use Rattle.rv_sequences.specs.Parts.{PutsAlone};
ghost use Rattle.rv_sequences.specs.declared.code.CodePiece.TheVariants as code;

use crate::code::{
    CodePiece, atomic, bind, branch, extend, extract, jump, merge, put_code, rri, rrr,
};
use crate::parts::minus_one;
use crate::words::put_word;
use mach_buffer::MachBuffer;
use rv_base::{
    IntCC, IrType, IsaFlags, OutOfMemory, Reg, WritableReg, spilltmp_reg2, writable_spilltmp_reg,
    writable_spilltmp_reg2, zero_reg,
};
use rv_encode::encode_atomic;
use rv_imms::Imm12;
use rv_inst::{AtomicLoop, Change, LabelUse};
use rv_ops::{AMO, AluOPRRI, AluOPRRR, AtomicOP, AtomicRmwOp, IntegerCompare};

/// An atomic operation with both ordering bits. A load-reserved has no source: its `src` is x0.
pub(crate) fn put_ordered(
    sink: &mut MachBuffer<LabelUse>,
    flags: IsaFlags,
    op: AtomicOP,
    rd: WritableReg,
    addr: Reg,
    src: Reg,
) -> Result<(), OutOfMemory>
    requires rd { IsIntRegister rd.reg }
    requires addr { IsIntRegister addr }
    requires src { IsIntRegister src }
    requires source { is_source (atomic_op op) (number_of src) ≡ true }
    requires room { length (bytes_of sink.old) + 4 < code_limit }
    requires sound { IsSoundBuffer sink.old }
    ensures slots { OnOk result (PutsAlone flags (Op (decoded_atomic op SeqCst (number_of rd.reg) (number_of addr) (number_of src)) ∷ []) sink.old sink.new) }
    ensures refused { OnErr result (spoiled_of sink.new ≡ true) }
{
    put_word(sink, encode_atomic(op, rd, addr, src, AMO::SeqCst))
}

/// Puts an atomic loop.
pub fn put_atomic_loop(
    sink: &mut MachBuffer<LabelUse>,
    flags: IsaFlags,
    l: AtomicLoop,
) -> Result<(), OutOfMemory>
    requires fine { IsFineAtomicLoop l }
    requires few { allocated_of sink.old < 2 ^ 29 }
    requires room { length (bytes_of sink.old) + 84 < code_limit }
    requires sound { IsSoundBuffer sink.old }
    ensures slots { OnOk result (PutsAlone flags (slots_of flags (loop_pieces l)) sink.old sink.new) }
    ensures refused { OnErr result (spoiled_of sink.new ≡ true) }
{
    match l.change {
        Change::Combines { op } => put_combination(sink, flags, op, l),
        Change::Swaps { expected } => put_swap(sink, flags, expected, l),
    }
}

// ---- the number is combined

/// Puts the loop of a number that is combined with the operand.
fn put_combination(
    sink: &mut MachBuffer<LabelUse>,
    flags: IsaFlags,
    op: AtomicRmwOp,
    l: AtomicLoop,
) -> Result<(), OutOfMemory>
    requires offset { IsIntRegister l.offset }
    requires address { IsIntRegister l.address }
    requires operand { IsIntRegister l.operand }
    requires t0 { IsIntRegister l.t0.reg }
    requires dst { IsIntRegister l.dst.reg }
    requires ty { is_int_type l.ty ≡ true }
    requires few { allocated_of sink.old < 2 ^ 29 }
    requires room { length (bytes_of sink.old) + 84 < code_limit }
    requires sound { IsSoundBuffer sink.old }
    ensures slots { OnOk result (PutsAlone flags (slots_of flags (labels_for op ++ Bind 0 ∷ loop_load (bits_of l.ty) (number_of l.dst.reg) (number_of l.address) ∷ combining op (bits_of l.ty) (number_of l.dst.reg) (number_of l.offset) (number_of l.address) (number_of l.operand) (number_of l.t0.reg))) sink.old sink.new) }
    ensures refused { OnErr result (spoiled_of sink.new ≡ true) }
{
    match op {
        AtomicRmwOp::Add => put_code(sink, flags, &simple_code(l, AluOPRRR::Add)),
        AtomicRmwOp::Sub => put_code(sink, flags, &simple_code(l, AluOPRRR::Sub)),
        AtomicRmwOp::And => put_code(sink, flags, &simple_code(l, AluOPRRR::And)),
        AtomicRmwOp::Nand => put_nand(sink, flags, l),
        AtomicRmwOp::Or => put_code(sink, flags, &simple_code(l, AluOPRRR::Or)),
        AtomicRmwOp::Xor => put_code(sink, flags, &simple_code(l, AluOPRRR::Xor)),
        AtomicRmwOp::Xchg => put_code(sink, flags, &exchange_code(l)),
        AtomicRmwOp::Umin => put_choice(sink, flags, IntCC::UnsignedLessThan, false, l),
        AtomicRmwOp::Umax => put_choice(sink, flags, IntCC::UnsignedGreaterThan, false, l),
        AtomicRmwOp::Smin => put_choice(sink, flags, IntCC::SignedLessThan, true, l),
        AtomicRmwOp::Smax => put_choice(sink, flags, IntCC::SignedGreaterThan, true, l),
    }
}

/// By one operation.
fn simple_code(l: AtomicLoop, op: AluOPRRR) -> [CodePiece; 9]
    requires offset { IsIntRegister l.offset }
    requires address { IsIntRegister l.address }
    requires operand { IsIntRegister l.operand }
    requires t0 { IsIntRegister l.t0.reg }
    requires dst { IsIntRegister l.dst.reg }
    requires ty { is_int_type l.ty ≡ true }
    ensures pieces { pieces_of result ≡ New ∷ Bind 0 ∷ loop_load (bits_of l.ty) (number_of l.dst.reg) (number_of l.address) ∷ (take_field (number_of l.dst.reg) (number_of l.offset) false (bits_of l.ty) ++ ((Do (Rrr op (number_of l.t0.reg) (number_of l.dst.reg) (number_of l.operand)) ∷ []) ++ (merge_pieces 30 31 (number_of l.offset) (number_of l.t0.reg) (bits_of l.ty) ++ store_and_retry (bits_of l.ty) (number_of l.t0.reg) (number_of l.address) 30 []))) }
    ensures registers { AreSound result }
    ensures labels { IsLabelled 0 [] result }
    ensures few { code_most result ≡ 72 }
{
    [
        CodePiece::New,
        bind(0),
        atomic(load_op(l.ty), l.dst, l.address, zero_reg()),
        rri(
            AluOPRRI::Addi,
            writable_spilltmp_reg2(),
            l.dst.reg,
            Imm12::ZERO,
        ),
        extract(l.dst, l.offset, l.dst.reg, false, field_bits(l.ty)),
        rrr(op, l.t0, l.dst.reg, l.operand),
        merge(
            writable_spilltmp_reg2(),
            writable_spilltmp_reg(),
            l.offset,
            l.t0.reg,
            field_bits(l.ty),
        ),
        atomic(store_op(l.ty), l.t0, l.address, spilltmp_reg2()),
        branch(compare(IntCC::NotEqual, l.t0.reg, zero_reg()), 0),
    ]
}

/// By the operand in its place.
fn exchange_code(l: AtomicLoop) -> [CodePiece; 8]
    requires offset { IsIntRegister l.offset }
    requires address { IsIntRegister l.address }
    requires operand { IsIntRegister l.operand }
    requires t0 { IsIntRegister l.t0.reg }
    requires dst { IsIntRegister l.dst.reg }
    requires ty { is_int_type l.ty ≡ true }
    ensures pieces { pieces_of result ≡ New ∷ Bind 0 ∷ loop_load (bits_of l.ty) (number_of l.dst.reg) (number_of l.address) ∷ (take_field (number_of l.dst.reg) (number_of l.offset) false (bits_of l.ty) ++ (merge_pieces 30 31 (number_of l.offset) (number_of l.operand) (bits_of l.ty) ++ store_and_retry (bits_of l.ty) (number_of l.t0.reg) (number_of l.address) 30 [])) }
    ensures registers { AreSound result }
    ensures labels { IsLabelled 0 [] result }
    ensures few { code_most result ≡ 68 }
{
    [
        CodePiece::New,
        bind(0),
        atomic(load_op(l.ty), l.dst, l.address, zero_reg()),
        rri(
            AluOPRRI::Addi,
            writable_spilltmp_reg2(),
            l.dst.reg,
            Imm12::ZERO,
        ),
        extract(l.dst, l.offset, l.dst.reg, false, field_bits(l.ty)),
        merge(
            writable_spilltmp_reg2(),
            writable_spilltmp_reg(),
            l.offset,
            l.operand,
            field_bits(l.ty),
        ),
        atomic(store_op(l.ty), l.t0, l.address, spilltmp_reg2()),
        branch(compare(IntCC::NotEqual, l.t0.reg, zero_reg()), 0),
    ]
}

/// By nand: a whole number where it has 32 or 64 bits.
fn put_nand(
    sink: &mut MachBuffer<LabelUse>,
    flags: IsaFlags,
    l: AtomicLoop,
) -> Result<(), OutOfMemory>
    requires offset { IsIntRegister l.offset }
    requires address { IsIntRegister l.address }
    requires operand { IsIntRegister l.operand }
    requires t0 { IsIntRegister l.t0.reg }
    requires dst { IsIntRegister l.dst.reg }
    requires ty { is_int_type l.ty ≡ true }
    requires few { allocated_of sink.old < 2 ^ 29 }
    requires room { length (bytes_of sink.old) + 84 < code_limit }
    requires sound { IsSoundBuffer sink.old }
    ensures slots { OnOk result (PutsAlone flags (slots_of flags (labels_for rmw.Nand ++ Bind 0 ∷ loop_load (bits_of l.ty) (number_of l.dst.reg) (number_of l.address) ∷ combining rmw.Nand (bits_of l.ty) (number_of l.dst.reg) (number_of l.offset) (number_of l.address) (number_of l.operand) (number_of l.t0.reg))) sink.old sink.new) }
    ensures refused { OnErr result (spoiled_of sink.new ≡ true) }
{
    if l.ty.bits() >= 32 {
        put_code(sink, flags, &whole_nand_code(l))
    } else {
        put_code(sink, flags, &nand_code(l))
    }
}

fn nand_code(l: AtomicLoop) -> [CodePiece; 10]
    requires offset { IsIntRegister l.offset }
    requires address { IsIntRegister l.address }
    requires operand { IsIntRegister l.operand }
    requires t0 { IsIntRegister l.t0.reg }
    requires dst { IsIntRegister l.dst.reg }
    requires ty { is_int_type l.ty ≡ true }
    ensures pieces { pieces_of result ≡ New ∷ Bind 0 ∷ loop_load (bits_of l.ty) (number_of l.dst.reg) (number_of l.address) ∷ (take_field (number_of l.dst.reg) (number_of l.offset) false (bits_of l.ty) ++ (combine_pieces rmw.Nand (number_of l.t0.reg) (number_of l.dst.reg) (number_of l.operand) ++ (merge_pieces 30 31 (number_of l.offset) (number_of l.t0.reg) (bits_of l.ty) ++ store_and_retry (bits_of l.ty) (number_of l.t0.reg) (number_of l.address) 30 []))) }
    ensures registers { AreSound result }
    ensures labels { IsLabelled 0 [] result }
    ensures few { code_most result ≡ 76 }
{
    [
        CodePiece::New,
        bind(0),
        atomic(load_op(l.ty), l.dst, l.address, zero_reg()),
        rri(
            AluOPRRI::Addi,
            writable_spilltmp_reg2(),
            l.dst.reg,
            Imm12::ZERO,
        ),
        extract(l.dst, l.offset, l.dst.reg, false, field_bits(l.ty)),
        rrr(AluOPRRR::And, l.t0, l.operand, l.dst.reg),
        rri(AluOPRRI::Xori, l.t0, l.t0.reg, minus_one()),
        merge(
            writable_spilltmp_reg2(),
            writable_spilltmp_reg(),
            l.offset,
            l.t0.reg,
            field_bits(l.ty),
        ),
        atomic(store_op(l.ty), l.t0, l.address, spilltmp_reg2()),
        branch(compare(IntCC::NotEqual, l.t0.reg, zero_reg()), 0),
    ]
}

fn whole_nand_code(l: AtomicLoop) -> [CodePiece; 7]
    requires offset { IsIntRegister l.offset }
    requires address { IsIntRegister l.address }
    requires operand { IsIntRegister l.operand }
    requires t0 { IsIntRegister l.t0.reg }
    requires dst { IsIntRegister l.dst.reg }
    requires ty { is_int_type l.ty ≡ true }
    ensures pieces { pieces_of result ≡ New ∷ Bind 0 ∷ loop_load (bits_of l.ty) (number_of l.dst.reg) (number_of l.address) ∷ combine_pieces rmw.Nand (number_of l.t0.reg) (number_of l.dst.reg) (number_of l.operand) ++ store_and_retry (bits_of l.ty) (number_of l.t0.reg) (number_of l.address) (number_of l.t0.reg) [] }
    ensures registers { AreSound result }
    ensures labels { IsLabelled 0 [] result }
    ensures few { code_most result ≡ 20 }
{
    [
        CodePiece::New,
        bind(0),
        atomic(load_op(l.ty), l.dst, l.address, zero_reg()),
        rrr(AluOPRRR::And, l.t0, l.operand, l.dst.reg),
        rri(AluOPRRI::Xori, l.t0, l.t0.reg, minus_one()),
        atomic(store_op(l.ty), l.t0, l.address, l.t0.reg),
        branch(compare(IntCC::NotEqual, l.t0.reg, zero_reg()), 0),
    ]
}

/// By the one of the two that compares so with the other.
fn put_choice(
    sink: &mut MachBuffer<LabelUse>,
    flags: IsaFlags,
    how: IntCC,
    signed: bool,
    l: AtomicLoop,
) -> Result<(), OutOfMemory>
    requires offset { IsIntRegister l.offset }
    requires address { IsIntRegister l.address }
    requires operand { IsIntRegister l.operand }
    requires t0 { IsIntRegister l.t0.reg }
    requires dst { IsIntRegister l.dst.reg }
    requires ty { is_int_type l.ty ≡ true }
    requires few { allocated_of sink.old < 2 ^ 29 }
    requires room { length (bytes_of sink.old) + 84 < code_limit }
    requires sound { IsSoundBuffer sink.old }
    ensures slots { OnOk result (PutsAlone flags (slots_of flags (New ∷ New ∷ New ∷ Bind 0 ∷ loop_load (bits_of l.ty) (number_of l.dst.reg) (number_of l.address) ∷ (take_field (number_of l.dst.reg) (number_of l.offset) signed (bits_of l.ty) ++ (choose_pieces how (number_of l.t0.reg) (number_of l.dst.reg) (number_of l.operand) ++ (merge_pieces 30 31 (number_of l.offset) (number_of l.t0.reg) (bits_of l.ty) ++ store_and_retry (bits_of l.ty) (number_of l.t0.reg) (number_of l.address) 30 []))))) sink.old sink.new) }
    ensures refused { OnErr result (spoiled_of sink.new ≡ true) }
{
    put_code(sink, flags, &choice_code(l, how, signed))
}

fn choice_code(l: AtomicLoop, how: IntCC, signed: bool) -> [CodePiece; 16]
    requires offset { IsIntRegister l.offset }
    requires address { IsIntRegister l.address }
    requires operand { IsIntRegister l.operand }
    requires t0 { IsIntRegister l.t0.reg }
    requires dst { IsIntRegister l.dst.reg }
    requires ty { is_int_type l.ty ≡ true }
    ensures pieces { pieces_of result ≡ New ∷ New ∷ New ∷ Bind 0 ∷ loop_load (bits_of l.ty) (number_of l.dst.reg) (number_of l.address) ∷ (take_field (number_of l.dst.reg) (number_of l.offset) signed (bits_of l.ty) ++ (choose_pieces how (number_of l.t0.reg) (number_of l.dst.reg) (number_of l.operand) ++ (merge_pieces 30 31 (number_of l.offset) (number_of l.t0.reg) (bits_of l.ty) ++ store_and_retry (bits_of l.ty) (number_of l.t0.reg) (number_of l.address) 30 []))) }
    ensures registers { AreSound result }
    ensures labels { IsLabelled 0 [] result }
    ensures few { code_most result ≡ 84 }
{
    [
        CodePiece::New,
        CodePiece::New,
        CodePiece::New,
        bind(0),
        atomic(load_op(l.ty), l.dst, l.address, zero_reg()),
        rri(
            AluOPRRI::Addi,
            writable_spilltmp_reg2(),
            l.dst.reg,
            Imm12::ZERO,
        ),
        extract(l.dst, l.offset, l.dst.reg, signed, field_bits(l.ty)),
        branch(compare(how, l.dst.reg, l.operand), 1),
        rri(AluOPRRI::Addi, l.t0, l.operand, Imm12::ZERO),
        jump(2),
        bind(1),
        rri(AluOPRRI::Addi, l.t0, l.dst.reg, Imm12::ZERO),
        bind(2),
        merge(
            writable_spilltmp_reg2(),
            writable_spilltmp_reg(),
            l.offset,
            l.t0.reg,
            field_bits(l.ty),
        ),
        atomic(store_op(l.ty), l.t0, l.address, spilltmp_reg2()),
        branch(compare(IntCC::NotEqual, l.t0.reg, zero_reg()), 0),
    ]
}

// ---- the number is swapped

/// Puts the loop of a number in whose place the operand comes, where it is the expected one.
fn put_swap(
    sink: &mut MachBuffer<LabelUse>,
    flags: IsaFlags,
    expected: Reg,
    l: AtomicLoop,
) -> Result<(), OutOfMemory>
    requires offset { IsIntRegister l.offset }
    requires address { IsIntRegister l.address }
    requires operand { IsIntRegister l.operand }
    requires t0 { IsIntRegister l.t0.reg }
    requires dst { IsIntRegister l.dst.reg }
    requires ty { is_int_type l.ty ≡ true }
    requires expected { IsIntRegister expected }
    requires few { allocated_of sink.old < 2 ^ 29 }
    requires room { length (bytes_of sink.old) + 84 < code_limit }
    requires sound { IsSoundBuffer sink.old }
    ensures slots { OnOk result (PutsAlone flags (slots_of flags (New ∷ New ∷ Bind 0 ∷ loop_load (bits_of l.ty) (number_of l.dst.reg) (number_of l.address) ∷ swapping (number_of expected) (bits_of l.ty) (number_of l.dst.reg) (number_of l.offset) (number_of l.address) (number_of l.operand) (number_of l.t0.reg))) sink.old sink.new) }
    ensures refused { OnErr result (spoiled_of sink.new ≡ true) }
{
    let bits = field_bits(l.ty);
    if bits == 64 {
        return put_code(sink, flags, &doubleword_code(l, expected));
    }
    if bits == 32 {
        return put_code(sink, flags, &word_code(l, expected));
    }
    put_code(sink, flags, &swap_code(l, expected))
}

/// Of a field of 8 or 16 bits.
fn swap_code(l: AtomicLoop, expected: Reg) -> [CodePiece; 11]
    requires offset { IsIntRegister l.offset }
    requires address { IsIntRegister l.address }
    requires operand { IsIntRegister l.operand }
    requires t0 { IsIntRegister l.t0.reg }
    requires dst { IsIntRegister l.dst.reg }
    requires ty { is_int_type l.ty ≡ true }
    requires expected { IsIntRegister expected }
    ensures pieces { pieces_of result ≡ New ∷ New ∷ Bind 0 ∷ loop_load (bits_of l.ty) (number_of l.dst.reg) (number_of l.address) ∷ (take_field (number_of l.dst.reg) (number_of l.offset) false (bits_of l.ty) ++ (Branch NotEqual (number_of expected) (number_of l.dst.reg) 1 ∷ (merge_pieces 30 31 (number_of l.offset) (number_of l.operand) (bits_of l.ty) ++ store_and_retry (bits_of l.ty) (number_of l.t0.reg) (number_of l.address) 30 (Bind 1 ∷ [])))) }
    ensures registers { AreSound result }
    ensures labels { IsLabelled 0 [] result }
    ensures few { code_most result ≡ 72 }
{
    [
        CodePiece::New,
        CodePiece::New,
        bind(0),
        atomic(load_op(l.ty), l.dst, l.address, zero_reg()),
        rri(
            AluOPRRI::Addi,
            writable_spilltmp_reg2(),
            l.dst.reg,
            Imm12::ZERO,
        ),
        extract(l.dst, l.offset, l.dst.reg, false, field_bits(l.ty)),
        branch(compare(IntCC::NotEqual, expected, l.dst.reg), 1),
        merge(
            writable_spilltmp_reg2(),
            writable_spilltmp_reg(),
            l.offset,
            l.operand,
            field_bits(l.ty),
        ),
        atomic(store_op(l.ty), l.t0, l.address, spilltmp_reg2()),
        branch(compare(IntCC::NotEqual, l.t0.reg, zero_reg()), 0),
        bind(1),
    ]
}

/// Of a word, which is compared zero-extended.
fn word_code(l: AtomicLoop, expected: Reg) -> [CodePiece; 9]
    requires offset { IsIntRegister l.offset }
    requires address { IsIntRegister l.address }
    requires operand { IsIntRegister l.operand }
    requires t0 { IsIntRegister l.t0.reg }
    requires dst { IsIntRegister l.dst.reg }
    requires ty { is_int_type l.ty ≡ true }
    requires expected { IsIntRegister expected }
    ensures pieces { pieces_of result ≡ New ∷ New ∷ Bind 0 ∷ loop_load (bits_of l.ty) (number_of l.dst.reg) (number_of l.address) ∷ extend_pieces (number_of l.dst.reg) (number_of l.dst.reg) false (bits_of l.ty) ++ Branch NotEqual (number_of expected) (number_of l.dst.reg) 1 ∷ store_and_retry (bits_of l.ty) (number_of l.t0.reg) (number_of l.address) (number_of l.operand) (Bind 1 ∷ []) }
    ensures registers { AreSound result }
    ensures labels { IsLabelled 0 [] result }
    ensures few { code_most result ≡ 24 }
{
    [
        CodePiece::New,
        CodePiece::New,
        bind(0),
        atomic(load_op(l.ty), l.dst, l.address, zero_reg()),
        extend(l.dst, l.dst.reg, false, field_bits(l.ty)),
        branch(compare(IntCC::NotEqual, expected, l.dst.reg), 1),
        atomic(store_op(l.ty), l.t0, l.address, l.operand),
        branch(compare(IntCC::NotEqual, l.t0.reg, zero_reg()), 0),
        bind(1),
    ]
}

fn doubleword_code(l: AtomicLoop, expected: Reg) -> [CodePiece; 8]
    requires offset { IsIntRegister l.offset }
    requires address { IsIntRegister l.address }
    requires operand { IsIntRegister l.operand }
    requires t0 { IsIntRegister l.t0.reg }
    requires dst { IsIntRegister l.dst.reg }
    requires ty { is_int_type l.ty ≡ true }
    requires expected { IsIntRegister expected }
    ensures pieces { pieces_of result ≡ New ∷ New ∷ Bind 0 ∷ loop_load (bits_of l.ty) (number_of l.dst.reg) (number_of l.address) ∷ Branch NotEqual (number_of expected) (number_of l.dst.reg) 1 ∷ store_and_retry (bits_of l.ty) (number_of l.t0.reg) (number_of l.address) (number_of l.operand) (Bind 1 ∷ []) }
    ensures registers { AreSound result }
    ensures labels { IsLabelled 0 [] result }
    ensures few { code_most result ≡ 16 }
{
    [
        CodePiece::New,
        CodePiece::New,
        bind(0),
        atomic(load_op(l.ty), l.dst, l.address, zero_reg()),
        branch(compare(IntCC::NotEqual, expected, l.dst.reg), 1),
        atomic(store_op(l.ty), l.t0, l.address, l.operand),
        branch(compare(IntCC::NotEqual, l.t0.reg, zero_reg()), 0),
        bind(1),
    ]
}

// ---- operations, comparisons and widths

/// The load that reserves a word, or a doubleword for a number of 64 bits.
fn load_op(ty: IrType) -> AtomicOP
    requires { is_int_type ty ≡ true }
    ensures op { result ≡ load_reserved (width_for (bits_of ty)) }
    ensures source { is_source (atomic_op result) 0 ≡ true }
{
    if ty.bits() == 64 {
        AtomicOP::LrD
    } else {
        AtomicOP::LrW
    }
}

/// The store that fails where the reservation is gone.
fn store_op(ty: IrType) -> AtomicOP
    requires { is_int_type ty ≡ true }
    ensures op { result ≡ store_conditional (width_for (bits_of ty)) }
    ensures source { (n : ℕ) → is_source (atomic_op result) n ≡ true }
{
    if ty.bits() == 64 {
        AtomicOP::ScD
    } else {
        AtomicOP::ScW
    }
}

fn compare(kind: IntCC, rs1: Reg, rs2: Reg) -> IntegerCompare
    requires rs1 { IsIntRegister rs1 }
    requires rs2 { IsIntRegister rs2 }
    ensures kind { result.kind ≡ kind }
    ensures first { result.rs1 ≡ rs1 }
    ensures second { result.rs2 ≡ rs2 }
    ensures rs1 { IsIntRegister result.rs1 }
    ensures rs2 { IsIntRegister result.rs2 }
{
    IntegerCompare { kind, rs1, rs2 }
}

/// How many bits a field has.
fn field_bits(ty: IrType) -> u8
    requires { is_int_type ty ≡ true }
    ensures value { result ≡ bits_of ty }
    ensures some { 1 ≤ result }
    ensures few { result ≤ 64 }
{
    match ty {
        IrType::I8 => 8,
        IrType::I16 => 16,
        IrType::I32 => 32,
        _ => 64,
    }
}
