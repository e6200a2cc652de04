//! Loads, stores and addresses.

ghost use Rattle.std.specs.Prelude.{◌≡◌, [], ◌∷◌, ◌++◌, ◌+◌, ◌^◌, ◌<◌, length, pos, OnOk, OnErr, IfOk, true, false};
ghost use Rattle.rv_base.specs.declared.flags.IsaFlags.{IsaFlags};
ghost use Rattle.rv_base.specs.Frame.{sp_to_args_end};
ghost use Rattle.rv_base.specs.LabelUse.{code_limit};
ghost use Rattle.rv_base.specs.Regs.{number_of};
ghost use Rattle.mach_buffer.specs.Buffer.{shape_of, bytes_of, registered_of, spoiled_of};
ghost use Rattle.mach_buffer.specs.Shape.{IsUsable};
ghost use Rattle.rv_machine.specs.Opcodes.{OP_IMM};
ghost use Rattle.rv_ops.specs.Memory.{is_float_load, load_funct3, load_opcode};
ghost use Rattle.rv_encode.specs.Layouts.{IsIType};
ghost use Rattle.rv_encode.specs.Operations.{has_load, has_store};
ghost use Rattle.rv_encode.specs.Registers.{IsIntRegister, IsRealRegister};
ghost use Rattle.rv_ops.specs.declared.alu.AluOPRRR.TheVariants.{Add};
ghost use Rattle.rv_inst.specs.Addresses.{Based, AtLabel, location_of};
ghost use Rattle.rv_sequences.specs.Parts.{PutsAlone};
ghost use Rattle.rv_sequences.specs.Emitted.{IsSoundBuffer};
ghost use Rattle.rv_code.specs.InstParts.{access_slots, address_slots, far_store_slots, immediate_slots, label_base, label_load_slots, labelled, load_slots, lower_slots, naming_slots, offset_slots, store_slots, upper_at};
ghost use Rattle.rv_sequences.specs.Places.{location_at, IsFinePlace};
ghost use Rattle.rv_code.specs.Accesses.{access_pieces, far_pieces};
ghost use Rattle.rv_code.specs.Pieces.{Rrr, Load, Store, Do, offset_pieces, slots_of};
ghost use Rattle.rv_code.specs.Usable.{IsFineAddress};

use crate::expansions::put_double_constant;
use crate::shortest::{put_load_word, put_lui, put_rri, put_rrr, put_store_word};
use crate::words::{put_use, put_word};
use mach_buffer::MachBuffer;
use rv_base::{
    AMode, FrameLayout, IsaFlags, MachLabel, OutOfMemory, Reg, TrapCode, WritableReg, fp_reg,
    spilltmp_reg, stack_reg, writable_spilltmp_reg,
};
use rv_encode::{enc_auipc, encode_i_type, encode_load, encode_store};
use rv_imms::{Imm12, Imm20, generate_imm};
use rv_inst::LabelUse;
use rv_ops::{AluOPRRI, AluOPRRR, LoadOP, StoreOP};

/// Where an address is.
#[derive(Clone, Copy, Debug)]
pub enum Place {
    /// A register plus an offset in bytes.
    Based(Reg, i64),
    /// A label, which may be that of a constant.
    AtLabel(MachLabel),
}

/// Where an address is in a frame. A constant is where its label is, which is got here, before any code that names it.
pub fn resolved_address(
    sink: &mut MachBuffer<LabelUse>,
    frame: &FrameLayout,
    mode: AMode,
) -> Result<Place, OutOfMemory>
    requires frame { sp_to_args_end frame.now < 2 ^ 31 }
    requires fine { IsFineAddress (registered_of sink.old) mode }
    requires sound { IsSoundBuffer sink.old }
    ensures place { IfOk result (λ place. location_at place ≡ labelled (location_of frame.now mode)) }
    ensures fine { IfOk result (λ place. IsFinePlace (shape_of sink.new) place) }
    ensures slots { OnOk result ((flags : IsaFlags) → PutsAlone flags (naming_slots (location_of frame.now mode)) sink.old sink.new) }
    ensures bytes { OnOk result (bytes_of sink.new ≡ bytes_of sink.old) }
    ensures sound { OnOk result (IsSoundBuffer sink.new) }
    ensures refused { OnErr result (spoiled_of sink.new ≡ true) }
{
    match mode {
        AMode::RegOffset(reg, offset) => Ok(Place::Based(reg, offset)),
        AMode::SPOffset(offset) => Ok(Place::Based(stack_reg(), offset)),
        AMode::FPOffset(offset) => Ok(Place::Based(fp_reg(), offset)),
        AMode::SlotOffset(_) => Ok(Place::Based(stack_reg(), mode.get_offset(frame))),
        AMode::IncomingArg(_) => Ok(Place::Based(stack_reg(), mode.get_offset(frame))),
        AMode::Const(constant) => {
            let label = sink.get_label_for_constant(constant)?;
            Ok(Place::AtLabel(label))
        }
        AMode::Label(label) => Ok(Place::AtLabel(label)),
    }
}

/// A load: of a place far from its register by x31, of a label by `rd`, or by x31 where that is a floating-point register.
pub(crate) fn put_load(
    sink: &mut MachBuffer<LabelUse>,
    flags: IsaFlags,
    rd: WritableReg,
    op: LoadOP,
    trap: Option<TrapCode>,
    place: Place,
) -> Result<(), OutOfMemory>
    requires has { has_load flags op ≡ true }
    requires rd { IsRealRegister rd.reg }
    requires base { is_float_load op ≡ false → IsIntRegister rd.reg }
    requires fine { IsFinePlace (shape_of sink.old) place }
    requires room { length (bytes_of sink.old) + 28 < code_limit }
    requires sound { IsSoundBuffer sink.old }
    ensures slots { OnOk result (PutsAlone flags (load_slots flags (number_of rd.reg) op trap (location_at place)) sink.old sink.new) }
    ensures refused { OnErr result (spoiled_of sink.new ≡ true) }
{
    match place {
        Place::Based(base, offset) => put_based_load(sink, flags, rd, op, trap, base, offset),
        Place::AtLabel(label) => put_label_load(sink, label_base(op, rd), rd, op, trap, label),
    }
}

pub fn put_based_load(
    sink: &mut MachBuffer<LabelUse>,
    flags: IsaFlags,
    rd: WritableReg,
    op: LoadOP,
    trap: Option<TrapCode>,
    base: Reg,
    offset: i64,
) -> Result<(), OutOfMemory>
    requires has { has_load flags op ≡ true }
    requires rd { IsRealRegister rd.reg }
    requires base { IsIntRegister base }
    requires room { length (bytes_of sink.old) + 28 < code_limit }
    requires sound { IsSoundBuffer sink.old }
    ensures slots { OnOk result (PutsAlone flags (load_slots flags (number_of rd.reg) op trap (Based (number_of base) offset)) sink.old sink.new) }
    ensures refused { OnErr result (spoiled_of sink.new ≡ true) }
{
    match Imm12::maybe_from_i64(offset) {
        Some(offset) => put_near_load(sink, flags, rd, op, trap, base, offset),
        None => put_far_load(sink, flags, rd, op, trap, base, offset),
    }
}

/// A load whose offset is in it.
fn put_near_load(
    sink: &mut MachBuffer<LabelUse>,
    flags: IsaFlags,
    rd: WritableReg,
    op: LoadOP,
    trap: Option<TrapCode>,
    base: Reg,
    offset: Imm12,
) -> Result<(), OutOfMemory>
    requires has { has_load flags op ≡ true }
    requires rd { IsRealRegister rd.reg }
    requires base { IsIntRegister base }
    requires room { length (bytes_of sink.old) + 4 < code_limit }
    requires sound { IsSoundBuffer sink.old }
    ensures slots { OnOk result (PutsAlone flags (slots_of flags (access_pieces trap ++ Do (Load op (number_of rd.reg) (number_of base) offset.value) ∷ [])) sink.old sink.new) }
    ensures refused { OnErr result (spoiled_of sink.new ≡ true) }
{
    put_access(sink, trap)?;
    put_load_word(sink, flags, op, rd, base, offset)?;
    Ok(())
}

/// A load by an address in x31.
fn put_far_load(
    sink: &mut MachBuffer<LabelUse>,
    flags: IsaFlags,
    rd: WritableReg,
    op: LoadOP,
    trap: Option<TrapCode>,
    base: Reg,
    offset: i64,
) -> Result<(), OutOfMemory>
    requires has { has_load flags op ≡ true }
    requires rd { IsRealRegister rd.reg }
    requires base { IsIntRegister base }
    requires room { length (bytes_of sink.old) + 28 < code_limit }
    requires sound { IsSoundBuffer sink.old }
    ensures slots { OnOk result (PutsAlone flags (slots_of flags (far_pieces (Load op (number_of rd.reg)) trap (Based (number_of base) offset))) sink.old sink.new) }
    ensures refused { OnErr result (spoiled_of sink.new ≡ true) }
{
    put_based_address(sink, flags, writable_spilltmp_reg(), base, offset)?;
    put_spilled_load(sink, rd, op, trap)?;
    Ok(())
}

/// The word of a load by x31.
fn put_spilled_load(
    sink: &mut MachBuffer<LabelUse>,
    rd: WritableReg,
    op: LoadOP,
    trap: Option<TrapCode>,
) -> Result<(), OutOfMemory>
    requires rd { IsRealRegister rd.reg }
    requires room { length (bytes_of sink.old) + 4 < code_limit }
    requires sound { IsSoundBuffer sink.old }
    ensures slots { OnOk result ((flags : IsaFlags) → has_load flags op ≡ true → PutsAlone flags (slots_of flags (access_pieces trap ++ Do (Load op (number_of rd.reg) 31 (pos 0)) ∷ [])) sink.old sink.new) }
    ensures refused { OnErr result (spoiled_of sink.new ≡ true) }
{
    put_access(sink, trap)?;
    put_word(sink, encode_load(op, rd, spilltmp_reg(), Imm12::ZERO))?;
    Ok(())
}

/// A load from a label: the lower part of its distance is in the load's word.
fn put_label_load(
    sink: &mut MachBuffer<LabelUse>,
    base: WritableReg,
    rd: WritableReg,
    op: LoadOP,
    trap: Option<TrapCode>,
    label: MachLabel,
) -> Result<(), OutOfMemory>
    requires base { IsIntRegister base.reg }
    requires rd { IsRealRegister rd.reg }
    requires label { IsUsable (shape_of sink.old) label.number }
    requires room { length (bytes_of sink.old) + 8 < code_limit }
    requires sound { IsSoundBuffer sink.old }
    ensures slots { OnOk result ((flags : IsaFlags) → has_load flags op ≡ true → PutsAlone flags (label_load_slots (number_of base.reg) (number_of rd.reg) op trap label) sink.old sink.new) }
    ensures refused { OnErr result (spoiled_of sink.new ≡ true) }
{
    put_upper(sink, base, label)?;
    put_access(sink, trap)?;
    put_use(
        sink,
        load_word(op, rd, base.reg),
        label,
        LabelUse::PCRelLo12I,
    )?;
    Ok(())
}

/// The register in which a load from a label has the upper part of its distance.
fn label_base(op: LoadOP, rd: WritableReg) -> WritableReg
    requires { is_float_load op ≡ false → IsIntRegister rd.reg }
    ensures register { IsIntRegister result.reg }
    ensures number { number_of result.reg ≡ label_base op (number_of rd.reg) }
{
    if op.is_float() {
        writable_spilltmp_reg()
    } else {
        rd
    }
}

/// The word of a load whose offset is still to come.
pub fn load_word(op: LoadOP, rd: WritableReg, base: Reg) -> u32
    requires rd { IsRealRegister rd.reg }
    requires base { IsIntRegister base }
    ensures { IsIType result (load_opcode op) (number_of rd.reg) (load_funct3 op) (number_of base) 0 }
{
    encode_i_type(op.op_code(), rd, op.funct3(), base, Imm12::ZERO)
}

/// A store: to a place far from its register, or to a label, by x31.
pub(crate) fn put_store(
    sink: &mut MachBuffer<LabelUse>,
    flags: IsaFlags,
    op: StoreOP,
    src: Reg,
    trap: Option<TrapCode>,
    place: Place,
) -> Result<(), OutOfMemory>
    requires has { has_store flags op ≡ true }
    requires src { IsRealRegister src }
    requires fine { IsFinePlace (shape_of sink.old) place }
    requires room { length (bytes_of sink.old) + 28 < code_limit }
    requires sound { IsSoundBuffer sink.old }
    ensures slots { OnOk result (PutsAlone flags (store_slots flags op (number_of src) trap (location_at place)) sink.old sink.new) }
    ensures refused { OnErr result (spoiled_of sink.new ≡ true) }
{
    match place {
        Place::Based(base, offset) => put_based_store(sink, flags, op, src, trap, base, offset),
        Place::AtLabel(_) => put_far_store(sink, flags, op, src, trap, place),
    }
}

fn put_based_store(
    sink: &mut MachBuffer<LabelUse>,
    flags: IsaFlags,
    op: StoreOP,
    src: Reg,
    trap: Option<TrapCode>,
    base: Reg,
    offset: i64,
) -> Result<(), OutOfMemory>
    requires has { has_store flags op ≡ true }
    requires src { IsRealRegister src }
    requires base { IsIntRegister base }
    requires room { length (bytes_of sink.old) + 28 < code_limit }
    requires sound { IsSoundBuffer sink.old }
    ensures slots { OnOk result (PutsAlone flags (store_slots flags op (number_of src) trap (Based (number_of base) offset)) sink.old sink.new) }
    ensures refused { OnErr result (spoiled_of sink.new ≡ true) }
{
    match Imm12::maybe_from_i64(offset) {
        Some(offset) => put_near_store(sink, flags, op, src, trap, base, offset),
        None => put_far_store(sink, flags, op, src, trap, Place::Based(base, offset)),
    }
}

/// A store whose offset is in it.
fn put_near_store(
    sink: &mut MachBuffer<LabelUse>,
    flags: IsaFlags,
    op: StoreOP,
    src: Reg,
    trap: Option<TrapCode>,
    base: Reg,
    offset: Imm12,
) -> Result<(), OutOfMemory>
    requires has { has_store flags op ≡ true }
    requires src { IsRealRegister src }
    requires base { IsIntRegister base }
    requires room { length (bytes_of sink.old) + 4 < code_limit }
    requires sound { IsSoundBuffer sink.old }
    ensures slots { OnOk result (PutsAlone flags (slots_of flags (access_pieces trap ++ Do (Store op (number_of base) (number_of src) offset.value) ∷ [])) sink.old sink.new) }
    ensures refused { OnErr result (spoiled_of sink.new ≡ true) }
{
    put_access(sink, trap)?;
    put_store_word(sink, flags, op, base, src, offset)?;
    Ok(())
}

/// A store by an address in x31.
fn put_far_store(
    sink: &mut MachBuffer<LabelUse>,
    flags: IsaFlags,
    op: StoreOP,
    src: Reg,
    trap: Option<TrapCode>,
    place: Place,
) -> Result<(), OutOfMemory>
    requires has { has_store flags op ≡ true }
    requires src { IsRealRegister src }
    requires fine { IsFinePlace (shape_of sink.old) place }
    requires room { length (bytes_of sink.old) + 28 < code_limit }
    requires sound { IsSoundBuffer sink.old }
    ensures slots { OnOk result (PutsAlone flags (far_store_slots flags op (number_of src) trap (location_at place)) sink.old sink.new) }
    ensures refused { OnErr result (spoiled_of sink.new ≡ true) }
{
    put_address(sink, flags, writable_spilltmp_reg(), place)?;
    put_spilled_store(sink, op, src, trap)?;
    Ok(())
}

/// The word of a store by x31.
fn put_spilled_store(
    sink: &mut MachBuffer<LabelUse>,
    op: StoreOP,
    src: Reg,
    trap: Option<TrapCode>,
) -> Result<(), OutOfMemory>
    requires src { IsRealRegister src }
    requires room { length (bytes_of sink.old) + 4 < code_limit }
    requires sound { IsSoundBuffer sink.old }
    ensures slots { OnOk result ((flags : IsaFlags) → has_store flags op ≡ true → PutsAlone flags (slots_of flags (access_pieces trap ++ Do (Store op 31 (number_of src) (pos 0)) ∷ [])) sink.old sink.new) }
    ensures refused { OnErr result (spoiled_of sink.new ≡ true) }
{
    put_access(sink, trap)?;
    put_word(sink, encode_store(op, spilltmp_reg(), src, Imm12::ZERO))?;
    Ok(())
}

/// The address of a place in a register.
pub fn put_address(
    sink: &mut MachBuffer<LabelUse>,
    flags: IsaFlags,
    rd: WritableReg,
    place: Place,
) -> Result<(), OutOfMemory>
    requires rd { IsIntRegister rd.reg }
    requires fine { IsFinePlace (shape_of sink.old) place }
    requires room { length (bytes_of sink.old) + 24 < code_limit }
    requires sound { IsSoundBuffer sink.old }
    ensures slots { OnOk result (PutsAlone flags (address_slots flags (number_of rd.reg) (location_at place)) sink.old sink.new) }
    ensures refused { OnErr result (spoiled_of sink.new ≡ true) }
{
    match place {
        Place::Based(base, offset) => put_based_address(sink, flags, rd, base, offset),
        Place::AtLabel(label) => put_label_address(sink, rd, label),
    }
}

fn put_based_address(
    sink: &mut MachBuffer<LabelUse>,
    flags: IsaFlags,
    rd: WritableReg,
    base: Reg,
    offset: i64,
) -> Result<(), OutOfMemory>
    requires rd { IsIntRegister rd.reg }
    requires base { IsIntRegister base }
    requires room { length (bytes_of sink.old) + 24 < code_limit }
    requires sound { IsSoundBuffer sink.old }
    ensures slots { OnOk result (PutsAlone flags (address_slots flags (number_of rd.reg) (Based (number_of base) offset)) sink.old sink.new) }
    ensures refused { OnErr result (spoiled_of sink.new ≡ true) }
{
    match Imm12::maybe_from_i64(offset) {
        Some(offset) => put_rri(sink, flags, AluOPRRI::Addi, rd, base, offset),
        None => put_far_address(sink, flags, rd, base, offset),
    }
}

/// The sum of a register and an offset that no word of an addition holds.
fn put_far_address(
    sink: &mut MachBuffer<LabelUse>,
    flags: IsaFlags,
    rd: WritableReg,
    base: Reg,
    offset: i64,
) -> Result<(), OutOfMemory>
    requires rd { IsIntRegister rd.reg }
    requires base { IsIntRegister base }
    requires room { length (bytes_of sink.old) + 24 < code_limit }
    requires sound { IsSoundBuffer sink.old }
    ensures slots { OnOk result (PutsAlone flags (slots_of flags (offset_pieces (number_of rd.reg) offset ++ Do (Rrr Add (number_of rd.reg) (number_of rd.reg) (number_of base)) ∷ [])) sink.old sink.new) }
    ensures refused { OnErr result (spoiled_of sink.new ≡ true) }
{
    put_offset(sink, flags, rd, offset)?;
    put_rrr(sink, flags, AluOPRRR::Add, rd, rd.reg, base)?;
    Ok(())
}

/// The address of a label in a register.
pub fn put_label_address(
    sink: &mut MachBuffer<LabelUse>,
    rd: WritableReg,
    label: MachLabel,
) -> Result<(), OutOfMemory>
    requires rd { IsIntRegister rd.reg }
    requires label { IsUsable (shape_of sink.old) label.number }
    requires room { length (bytes_of sink.old) + 8 < code_limit }
    requires sound { IsSoundBuffer sink.old }
    ensures slots { OnOk result ((flags : IsaFlags) → PutsAlone flags (address_slots flags (number_of rd.reg) (AtLabel label)) sink.old sink.new) }
    ensures refused { OnErr result (spoiled_of sink.new ≡ true) }
{
    put_upper(sink, rd, label)?;
    put_use(sink, addition_word(rd), label, LabelUse::PCRelLo12I)?;
    Ok(())
}

/// The word of an addition to a register whose immediate is still to come.
pub fn addition_word(rd: WritableReg) -> u32
    requires { IsIntRegister rd.reg }
    ensures { IsIType result OP_IMM (number_of rd.reg) 0 (number_of rd.reg) 0 }
{
    encode_i_type(
        AluOPRRI::Addi.op_code(),
        rd,
        AluOPRRI::Addi.funct3(),
        rd.reg,
        Imm12::ZERO,
    )
}

/// The upper part of a label's distance in a register, added to the address of this word.
fn put_upper(
    sink: &mut MachBuffer<LabelUse>,
    rd: WritableReg,
    label: MachLabel,
) -> Result<(), OutOfMemory>
    requires rd { IsIntRegister rd.reg }
    requires label { IsUsable (shape_of sink.old) label.number }
    requires room { length (bytes_of sink.old) + 4 < code_limit }
    requires sound { IsSoundBuffer sink.old }
    ensures slots { OnOk result ((flags : IsaFlags) → PutsAlone flags (upper_at (number_of rd.reg) label ∷ []) sink.old sink.new) }
    ensures refused { OnErr result (spoiled_of sink.new ≡ true) }
{
    put_use(sink, enc_auipc(rd, Imm20::ZERO), label, LabelUse::PCRelHi20)?;
    Ok(())
}

/// The record of the trap of an access, or of a unit's operation, where it may trap.
pub fn put_access(
    sink: &mut MachBuffer<LabelUse>,
    trap: Option<TrapCode>,
) -> Result<(), OutOfMemory>
    requires sound { IsSoundBuffer sink.old }
    ensures slots { OnOk result ((flags : IsaFlags) → PutsAlone flags (access_slots trap) sink.old sink.new) }
    ensures refused { OnErr result (spoiled_of sink.new ≡ true) }
{
    match trap {
        Some(code) => {
            sink.add_trap(code)?;
            Ok(())
        }
        None => Ok(()),
    }
}

/// An offset that isn't of twelve bits, signed, in a register.
fn put_offset(
    sink: &mut MachBuffer<LabelUse>,
    flags: IsaFlags,
    rd: WritableReg,
    offset: i64,
) -> Result<(), OutOfMemory>
    requires rd { IsIntRegister rd.reg }
    requires room { length (bytes_of sink.old) + 20 < code_limit }
    requires sound { IsSoundBuffer sink.old }
    ensures slots { OnOk result (PutsAlone flags (offset_slots flags (number_of rd.reg) offset) sink.old sink.new) }
    ensures refused { OnErr result (spoiled_of sink.new ≡ true) }
{
    match generate_imm(offset.cast_unsigned()) {
        Some((upper, lower)) => put_immediates(sink, flags, rd, upper, lower),
        None => put_double_constant(sink, flags, rd, offset.cast_unsigned()),
    }
}

/// The number that an upper and a lower immediate make in a register.
pub(crate) fn put_immediates(
    sink: &mut MachBuffer<LabelUse>,
    flags: IsaFlags,
    rd: WritableReg,
    upper: Imm20,
    lower: Imm12,
) -> Result<(), OutOfMemory>
    requires rd { IsIntRegister rd.reg }
    requires room { length (bytes_of sink.old) + 8 < code_limit }
    requires sound { IsSoundBuffer sink.old }
    ensures slots { OnOk result (PutsAlone flags (immediate_slots flags (number_of rd.reg) upper.value lower.value) sink.old sink.new) }
    ensures refused { OnErr result (spoiled_of sink.new ≡ true) }
{
    put_lui(sink, flags, rd, upper)?;
    put_lower_immediate(sink, flags, rd, lower)?;
    Ok(())
}

/// The addition of a lower immediate; none of 0.
fn put_lower_immediate(
    sink: &mut MachBuffer<LabelUse>,
    flags: IsaFlags,
    rd: WritableReg,
    lower: Imm12,
) -> Result<(), OutOfMemory>
    requires rd { IsIntRegister rd.reg }
    requires room { length (bytes_of sink.old) + 4 < code_limit }
    requires sound { IsSoundBuffer sink.old }
    ensures slots { OnOk result (PutsAlone flags (lower_slots flags (number_of rd.reg) lower.value) sink.old sink.new) }
    ensures refused { OnErr result (spoiled_of sink.new ≡ true) }
{
    if lower.value == 0 {
        return Ok(());
    }
    put_rri(sink, flags, AluOPRRI::Addi, rd, rd.reg, lower)
}
