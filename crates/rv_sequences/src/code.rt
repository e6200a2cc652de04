//! The code of an instruction as a value, and the one function that puts it into a buffer.

ghost use Rattle.std.specs.Prelude.{◌≡◌, ℕ, [], ◌∷◌, ◌+◌, ◌<◌, ◌≤◌, ◌^◌, length, false, None, IfOk, OnOk, OnErr, true};
ghost use Rattle.rv_base.specs.declared.flags.IsaFlags.{IsaFlags};
ghost use Rattle.rv_base.specs.LabelUse.{code_limit};
ghost use Rattle.rv_base.specs.Regs.{class_of, number_of};
ghost use Rattle.rv_machine.specs.UnitDecode.{is_source};
ghost use Rattle.rv_ops.specs.Atomic.{atomic_op};
ghost use Rattle.rv_encode.specs.Registers.{IsIntRegister};
ghost use Rattle.mach_labels.specs.Table.{first_inner};
ghost use Rattle.mach_uses.specs.Labels.{inner_count};
ghost use Rattle.mach_buffer.specs.Buffer.{shape_of, bytes_of, allocated_of, spoiled_of};
ghost use Rattle.mach_buffer.specs.Shape.{IsKnown, with_allocated, with_label};
ghost use Rattle.rv_sequences.specs.Code.{shown, pieces_of, most_of, code_most, IsSound, AreSound, IsLabelled, IsUsableAt, IsBaseFor, IsNext};
ghost use Rattle.rv_sequences.specs.Emitted.{IsSoundBuffer};
ghost use Rattle.rv_sequences.specs.Parts.{PutsAlone, PutsSlots};
ghost use Rattle.rv_inst.specs.Generators.{canonical_type};
ghost use Rattle.rv_code.specs.Choices.{move_pieces};
ghost use Rattle.rv_code.specs.Usable.{IsMove};
ghost use Rattle.rv_code.specs.InstParts.{jump_to};
ghost use Rattle.rv_code.specs.Pieces.{slots_of};
ghost use Rattle.rv_ops.specs.Memory.{is_float_load, is_float_store};
ghost use Rattle.rv_sequences.specs.Puts.{Puts};
ghost use Rattle.rv_code.specs.Slots.{Label};
ghost use Rattle.rv_sequences.specs.declared.code.CodePiece.TheVariants as code;

use crate::atomics::put_ordered;
use crate::choices::put_extend;
use crate::expansions::put_trap;
use crate::fences::put_fence;
use crate::moves::put_move;
use crate::numbers::put_number;
use crate::parts::{put_extract, put_merge};
use crate::shortest::{put_load_word, put_rri, put_rrr, put_store_word};
use crate::words::{put_compare, put_wide_jump};
use mach_buffer::MachBuffer;
use rv_base::{IsaFlags, MachLabel, OutOfMemory, Reg, TrapCode, WritableReg};
use rv_encode::encode_cj_type;
use rv_imms::Imm12;
use rv_inst::{Inst, LabelUse};
use rv_ops::{AluOPRRI, AluOPRRR, AtomicOP, CjOp, IntegerCompare, LoadOP, StoreOP};

/// A piece of an instruction's code. A label is one of the sequence's own, by its number among those.
#[derive(Clone, Copy)]
pub(crate) enum CodePiece {
    Rrr {
        op: AluOPRRR,
        rd: WritableReg,
        rs1: Reg,
        rs2: Reg,
    },
    Rri {
        op: AluOPRRI,
        rd: WritableReg,
        rs: Reg,
        imm: Imm12,
    },
    /// Between two sets of accesses, of four bits each.
    Fence {
        pred: u8,
        succ: u8,
    },
    Load {
        op: LoadOP,
        rd: WritableReg,
        base: Reg,
        offset: Imm12,
    },
    Store {
        op: StoreOP,
        base: Reg,
        src: Reg,
        offset: Imm12,
    },
    /// By immediates, or from among the code.
    Number {
        rd: WritableReg,
        value: u64,
    },
    /// Of the low bits of a register, as many as these.
    Extend {
        rd: WritableReg,
        rn: Reg,
        signed: bool,
        bits: u8,
    },
    /// A part of `rs`, so many bits from the bit on that `offset` says.
    Extract {
        rd: WritableReg,
        offset: Reg,
        rs: Reg,
        signed: bool,
        bits: u8,
    },
    /// The low bits of `rs` in place of such a part of `rd`.
    Merge {
        rd: WritableReg,
        tmp: WritableReg,
        offset: Reg,
        rs: Reg,
        bits: u8,
    },
    /// With both ordering bits.
    Atomic {
        op: AtomicOP,
        rd: WritableReg,
        addr: Reg,
        src: Reg,
    },
    /// Of a whole register to another of its class; none to the same one.
    Move {
        rd: WritableReg,
        rs: Reg,
    },
    Branch {
        kind: IntegerCompare,
        label: u8,
    },
    Jump {
        label: u8,
    },
    New,
    Bind {
        label: u8,
    },
    Trap {
        code: TrapCode,
    },
}

/// Puts a sequence's code.
pub(crate) fn put_code(
    sink: &mut MachBuffer<LabelUse>,
    flags: IsaFlags,
    code: &[CodePiece],
) -> Result<(), OutOfMemory>
    requires registers { AreSound code.now }
    requires labels { IsLabelled 0 [] code.now }
    requires few { allocated_of sink.old + length code.now < inner_count }
    requires room { length (bytes_of sink.old) + code_most code.now < code_limit }
    requires sound { IsSoundBuffer sink.old }
    ensures slots { OnOk result (PutsAlone flags (slots_of flags (pieces_of code.now)) sink.old sink.new) }
    ensures refused { OnErr result (spoiled_of sink.new ≡ true) }
{
    let mut own = OwnLabels { base: 0, count: 0 };
    for piece in code {
        own = put_next(sink, flags, own, *piece)?;
    }
    Ok(())
}

/// The labels that a sequence has allocated so far: the number of the first, if there is one, and how many.
#[derive(Clone, Copy)]
struct OwnLabels {
    base: u32,
    count: u32,
}

/// Puts a piece.
fn put_next(
    sink: &mut MachBuffer<LabelUse>,
    flags: IsaFlags,
    own: OwnLabels,
    piece: CodePiece,
) -> Result<OwnLabels, OutOfMemory>
    requires piece { IsSound piece }
    requires usable { IsUsableAt own.base piece (shape_of sink.old) }
    requires base { own.base < 2 ^ 31 }
    requires count { own.count ≤ allocated_of sink.old }
    requires few { allocated_of sink.old < inner_count }
    requires room { length (bytes_of sink.old) + most_of piece < code_limit }
    requires sound { IsSoundBuffer sink.old }
    ensures slot { OnOk result ((allocated : ℕ) → IsBaseFor own.base allocated piece → Puts flags allocated (slots_of flags (shown piece)) (shape_of sink.old) (shape_of sink.new)) }
    ensures next { IfOk result (λ next. IsNext own next piece (shape_of sink.old) (shape_of sink.new)) }
    ensures sound { OnOk result (IsSoundBuffer sink.new) }
    ensures refused { OnErr result (spoiled_of sink.new ≡ true) }
{
    match piece {
        CodePiece::New => put_new(sink, own),
        _ => {
            put_piece(sink, flags, own.base, piece)?;
            Ok(own)
        }
    }
}

/// Allocates a label of the sequence's own.
fn put_new(sink: &mut MachBuffer<LabelUse>, own: OwnLabels) -> Result<OwnLabels, OutOfMemory>
    requires count { own.count ≤ allocated_of sink.old }
    requires few { allocated_of sink.old < inner_count }
    requires sound { IsSoundBuffer sink.old }
    ensures slot { OnOk result (shape_of sink.new ≡ with_allocated (shape_of sink.old)) }
    ensures next { IfOk result (λ next. IsNext own next code.New (shape_of sink.old) (shape_of sink.new)) }
    ensures sound { OnOk result (IsSoundBuffer sink.new) }
    ensures refused { OnErr result (spoiled_of sink.new ≡ true) }
{
    let label = sink.get_label()?;
    Ok(OwnLabels {
        base: label.as_u32() - own.count,
        count: own.count + 1,
    })
}

/// Puts a piece that allocates no label, where the sequence's first own label has that number.
fn put_piece(
    sink: &mut MachBuffer<LabelUse>,
    flags: IsaFlags,
    first: u32,
    piece: CodePiece,
) -> Result<(), OutOfMemory>
    requires piece { IsSound piece }
    requires usable { IsUsableAt first piece (shape_of sink.old) }
    requires base { first < 2 ^ 31 }
    requires few { allocated_of sink.old < inner_count }
    requires room { length (bytes_of sink.old) + most_of piece < code_limit }
    requires sound { IsSoundBuffer sink.old }
    ensures slot { OnOk result ((allocated : ℕ) → IsBaseFor first allocated piece → Puts flags allocated (slots_of flags (shown piece)) (shape_of sink.old) (shape_of sink.new)) }
    ensures sound { OnOk result (IsSoundBuffer sink.new) }
    ensures refused { OnErr result (spoiled_of sink.new ≡ true) }
{
    match piece {
        CodePiece::Rrr { op, rd, rs1, rs2 } => put_rrr(sink, flags, op, rd, rs1, rs2),
        CodePiece::Rri { op, rd, rs, imm } => put_rri(sink, flags, op, rd, rs, imm),
        CodePiece::Fence { pred, succ } => put_fence(sink, flags, pred, succ),
        CodePiece::Load {
            op,
            rd,
            base,
            offset,
        } => put_load_word(sink, flags, op, rd, base, offset),
        CodePiece::Store {
            op,
            base,
            src,
            offset,
        } => put_store_word(sink, flags, op, base, src, offset),
        CodePiece::Number { rd, value } => put_number(sink, flags, rd, value),
        CodePiece::Extend {
            rd,
            rn,
            signed,
            bits,
        } => put_extend(sink, flags, rd, rn, signed, bits),
        CodePiece::Extract {
            rd,
            offset,
            rs,
            signed,
            bits,
        } => put_extract(sink, flags, rd, offset, rs, signed, bits),
        CodePiece::Merge {
            rd,
            tmp,
            offset,
            rs,
            bits,
        } => put_merge(sink, flags, rd, tmp, offset, rs, bits),
        CodePiece::Atomic { op, rd, addr, src } => put_ordered(sink, flags, op, rd, addr, src),
        CodePiece::Move { rd, rs } => put_whole_move(sink, flags, rd, rs),
        CodePiece::Branch { kind, label } => put_compare(sink, kind, own_label(first, label)),
        CodePiece::Jump { label } => put_own_jump(sink, flags, own_label(first, label)),
        CodePiece::New => put_unused(sink),
        CodePiece::Bind { label } => put_bind(sink, own_label(first, label)),
        CodePiece::Trap { code } => put_trap(sink, flags, code),
    }
}

/// A move of a whole register.
fn put_whole_move(
    sink: &mut MachBuffer<LabelUse>,
    flags: IsaFlags,
    rd: WritableReg,
    rs: Reg,
) -> Result<(), OutOfMemory>
    requires fine { IsMove rd.reg rs (canonical_type (class_of rd.reg)) }
    requires room { length (bytes_of sink.old) + 4 < code_limit }
    requires sound { IsSoundBuffer sink.old }
    ensures slots { OnOk result (PutsAlone flags (slots_of flags (move_pieces (class_of rd.reg) (canonical_type (class_of rd.reg)) (number_of rd.reg) (number_of rs))) sink.old sink.new) }
    ensures refused { OnErr result (spoiled_of sink.new ≡ true) }
{
    let ty = Inst::canonical_type_for_rc(rd.reg.class());
    put_move(sink, flags, rd, rs, ty)
}

/// A label of the sequence's own.
fn own_label(base: u32, label: u8) -> MachLabel
    requires { base < 2 ^ 31 }
    ensures { result.number ≡ base + label }
{
    MachLabel::from_u32(base + u32::from(label))
}

/// A jump to a label, in the shortest form.
fn put_own_jump(
    sink: &mut MachBuffer<LabelUse>,
    flags: IsaFlags,
    label: MachLabel,
) -> Result<(), OutOfMemory>
    requires known { IsKnown label.number (allocated_of sink.old) }
    requires room { length (bytes_of sink.old) + 4 < code_limit }
    requires sound { IsSoundBuffer sink.old }
    ensures slot { OnOk result (PutsSlots flags (jump_to flags (Label label) ∷ []) sink.old sink.new) }
    ensures sound { OnOk result (IsSoundBuffer sink.new) }
    ensures refused { OnErr result (spoiled_of sink.new ≡ true) }
{
    if flags.has_zca {
        return put_own_half(sink, flags, label);
    }
    put_wide_jump(sink, label)?;
    Ok(())
}

/// In a halfword.
fn put_own_half(
    sink: &mut MachBuffer<LabelUse>,
    flags: IsaFlags,
    label: MachLabel,
) -> Result<(), OutOfMemory>
    requires half { flags.has_zca ≡ true }
    requires known { IsKnown label.number (allocated_of sink.old) }
    requires room { length (bytes_of sink.old) + 4 < code_limit }
    requires sound { IsSoundBuffer sink.old }
    ensures slot { OnOk result (PutsSlots flags (jump_to flags (Label label) ∷ []) sink.old sink.new) }
    ensures sound { OnOk result (IsSoundBuffer sink.new) }
    ensures refused { OnErr result (spoiled_of sink.new ≡ true) }
{
    let here = sink.cur_offset();
    sink.use_label_at_offset(here, label, LabelUse::RVCJump)?;
    sink.put2(half_word())?;
    Ok(())
}

/// A `c.j` whose distance is still to come.
fn half_word() -> u16
    ensures { result ≡ 0xa001 }
{
    encode_cj_type(CjOp::CJ, Imm12::ZERO)
}

/// Binds a label here.
fn put_bind(sink: &mut MachBuffer<LabelUse>, label: MachLabel) -> Result<(), OutOfMemory>
    requires known { IsKnown label.number (allocated_of sink.old) }
    requires unbound { (shape_of sink.old).place label.number ≡ None }
    requires sound { IsSoundBuffer sink.old }
    ensures slot { OnOk result (shape_of sink.new ≡ with_label label (shape_of sink.old)) }
    ensures sound { OnOk result (IsSoundBuffer sink.new) }
    ensures refused { OnErr result (spoiled_of sink.new ≡ true) }
{
    sink.bind_label(label)?;
    Ok(())
}

/// Allocates a label.
fn put_unused(sink: &mut MachBuffer<LabelUse>) -> Result<(), OutOfMemory>
    requires few { allocated_of sink.old < inner_count }
    requires sound { IsSoundBuffer sink.old }
    ensures slot { OnOk result (shape_of sink.new ≡ with_allocated (shape_of sink.old)) }
    ensures sound { OnOk result (IsSoundBuffer sink.new) }
    ensures refused { OnErr result (spoiled_of sink.new ≡ true) }
{
    sink.get_label()?;
    Ok(())
}

// ---- pieces

pub(crate) fn rri(op: AluOPRRI, rd: WritableReg, rs: Reg, imm: Imm12) -> CodePiece
    requires rd { IsIntRegister rd.reg }
    requires rs { IsIntRegister rs }
    ensures is { result ≡ code.Rri op rd rs imm }
    ensures sound { IsSound result }
{
    CodePiece::Rri { op, rd, rs, imm }
}

pub(crate) fn rrr(op: AluOPRRR, rd: WritableReg, rs1: Reg, rs2: Reg) -> CodePiece
    requires rd { IsIntRegister rd.reg }
    requires rs1 { IsIntRegister rs1 }
    requires rs2 { IsIntRegister rs2 }
    ensures is { result ≡ code.Rrr op rd rs1 rs2 }
    ensures sound { IsSound result }
{
    CodePiece::Rrr { op, rd, rs1, rs2 }
}

pub(crate) fn fence(pred: u8, succ: u8) -> CodePiece
    requires pred { pred < 2 ^ 4 }
    requires succ { succ < 2 ^ 4 }
    ensures is { result ≡ code.Fence pred succ }
    ensures sound { IsSound result }
{
    CodePiece::Fence { pred, succ }
}

pub(crate) fn load(op: LoadOP, rd: WritableReg, base: Reg, offset: Imm12) -> CodePiece
    requires op { is_float_load op ≡ false }
    requires rd { IsIntRegister rd.reg }
    requires base { IsIntRegister base }
    ensures is { result ≡ code.Load op rd base offset }
    ensures sound { IsSound result }
{
    CodePiece::Load {
        op,
        rd,
        base,
        offset,
    }
}

pub(crate) fn store(op: StoreOP, base: Reg, src: Reg, offset: Imm12) -> CodePiece
    requires op { is_float_store op ≡ false }
    requires base { IsIntRegister base }
    requires src { IsIntRegister src }
    ensures is { result ≡ code.Store op base src offset }
    ensures sound { IsSound result }
{
    CodePiece::Store {
        op,
        base,
        src,
        offset,
    }
}

pub(crate) fn number(rd: WritableReg, value: u64) -> CodePiece
    requires rd { IsIntRegister rd.reg }
    ensures is { result ≡ code.Number rd value }
    ensures sound { IsSound result }
{
    CodePiece::Number { rd, value }
}

/// The low bits of a register, as many as a part has, sign-extended or zero-extended.
pub(crate) fn extend(rd: WritableReg, rn: Reg, signed: bool, bits: u8) -> CodePiece
    requires rd { IsIntRegister rd.reg }
    requires rn { IsIntRegister rn }
    requires some { 1 ≤ bits }
    requires few { bits ≤ 64 }
    ensures is { result ≡ code.Extend rd rn signed bits }
    ensures sound { IsSound result }
{
    CodePiece::Extend {
        rd,
        rn,
        signed,
        bits,
    }
}

pub(crate) fn extract(rd: WritableReg, offset: Reg, rs: Reg, signed: bool, bits: u8) -> CodePiece
    requires rd { IsIntRegister rd.reg }
    requires offset { IsIntRegister offset }
    requires rs { IsIntRegister rs }
    requires some { 1 ≤ bits }
    requires few { bits ≤ 64 }
    ensures is { result ≡ code.Extract rd offset rs signed bits }
    ensures sound { IsSound result }
{
    CodePiece::Extract {
        rd,
        offset,
        rs,
        signed,
        bits,
    }
}

pub(crate) fn merge(rd: WritableReg, tmp: WritableReg, offset: Reg, rs: Reg, bits: u8) -> CodePiece
    requires rd { IsIntRegister rd.reg }
    requires tmp { IsIntRegister tmp.reg }
    requires offset { IsIntRegister offset }
    requires rs { IsIntRegister rs }
    requires some { 1 ≤ bits }
    requires few { bits ≤ 64 }
    ensures is { result ≡ code.Merge rd tmp offset rs bits }
    ensures sound { IsSound result }
{
    CodePiece::Merge {
        rd,
        tmp,
        offset,
        rs,
        bits,
    }
}

pub(crate) fn atomic(op: AtomicOP, rd: WritableReg, addr: Reg, src: Reg) -> CodePiece
    requires rd { IsIntRegister rd.reg }
    requires addr { IsIntRegister addr }
    requires src { IsIntRegister src }
    requires source { is_source (atomic_op op) (number_of src) ≡ true }
    ensures is { result ≡ code.Atomic op rd addr src }
    ensures sound { IsSound result }
{
    CodePiece::Atomic { op, rd, addr, src }
}

/// A move of one whole register to another of its class; none to itself.
pub(crate) fn copy(rd: WritableReg, rs: Reg) -> CodePiece
    requires fine { IsMove rd.reg rs (canonical_type (class_of rd.reg)) }
    ensures is { result ≡ code.Move rd rs }
    ensures sound { IsSound result }
{
    CodePiece::Move { rd, rs }
}

pub(crate) fn branch(kind: IntegerCompare, label: u8) -> CodePiece
    requires rs1 { IsIntRegister kind.rs1 }
    requires rs2 { IsIntRegister kind.rs2 }
    ensures is { result ≡ code.Branch kind label }
    ensures sound { IsSound result }
{
    CodePiece::Branch { kind, label }
}

pub(crate) fn jump(label: u8) -> CodePiece
    ensures is { result ≡ code.Jump label }
    ensures sound { IsSound result }
{
    CodePiece::Jump { label }
}

pub(crate) fn bind(label: u8) -> CodePiece
    ensures is { result ≡ code.Bind label }
    ensures sound { IsSound result }
{
    CodePiece::Bind { label }
}
