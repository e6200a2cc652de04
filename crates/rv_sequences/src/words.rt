//! Words, and those that use a label: jumps and branches.

ghost use Rattle.std.specs.Prelude.{◌≡◌, [], ◌∷◌, ◌+◌, ◌<◌, length, OnOk, OnErr, Some, true};
ghost use Rattle.rv_base.specs.declared.flags.IsaFlags.{IsaFlags};
ghost use Rattle.rv_base.specs.LabelUse.{code_limit};
ghost use Rattle.mach_labels.specs.Table.{first_inner};
ghost use Rattle.rv_machine.specs.declared.decoding.Decoded.{Decoded};
ghost use Rattle.rv_machine.specs.Decode.{decode};
ghost use Rattle.rv_ops.specs.Compare.{branch_word};
ghost use Rattle.rv_encode.specs.Registers.{IsIntRegister};
ghost use Rattle.rv_inst.specs.declared.label_use.LabelUse.TheVariants.{Jal20, B12};
ghost use Rattle.rv_inst.specs.LabelUseWords.{word_bytes};
ghost use Rattle.mach_buffer.specs.Buffer.{shape_of, bytes_of, allocated_of, spoiled_of};
ghost use Rattle.mach_buffer.specs.Shape.{IsKnown, IsUsable, with_bytes, with_use};
ghost use Rattle.rv_code.specs.Usable.{IsFineBranch};
ghost use Rattle.rv_sequences.specs.Emitted.{IsSoundBuffer};
ghost use Rattle.rv_sequences.specs.Parts.{PutsAlone, PutsSlots};
ghost use Rattle.rv_code.specs.Slots.{Label, Op};
ghost use Rattle.rv_code.specs.InstParts.{jump_to, wide_jump_to, branch_to, branch_slots};
ghost use Rattle.rv_code.specs.Operations.{jump_word};
ghost use Rattle.rv_inst.specs.Uses.{use_at};

use mach_buffer::MachBuffer;
use rv_base::{IsaFlags, MachLabel, OutOfMemory, writable_zero_reg};
use rv_encode::{encode_branch, encode_cj_type, encode_jal};
use rv_imms::Imm12;
use rv_inst::{CondBrTarget, LabelUse};
use rv_ops::{CjOp, IntegerCompare};

/// A branch to a label where a comparison holds, and a jump to another one, where there is one, where it doesn't.
pub fn put_branch(
    sink: &mut MachBuffer<LabelUse>,
    flags: IsaFlags,
    kind: IntegerCompare,
    taken: CondBrTarget,
    not_taken: CondBrTarget,
) -> Result<(), OutOfMemory>
    requires fine { IsFineBranch kind taken not_taken }
    requires room { length (bytes_of sink.old) + 8 < code_limit }
    requires sound { IsSoundBuffer sink.old }
    ensures slots { OnOk result (PutsAlone flags (branch_slots flags kind taken not_taken) sink.old sink.new) }
    ensures refused { OnErr result (spoiled_of sink.new ≡ true) }
{
    match (taken, not_taken) {
        (CondBrTarget::Fallthrough, _) => Ok(()),
        (CondBrTarget::Label(label), CondBrTarget::Fallthrough) => put_compare(sink, kind, label),
        (CondBrTarget::Label(first), CondBrTarget::Label(second)) => {
            put_compare_and_jump(sink, flags, kind, first, second)
        }
    }
}

/// A branch to a label where a comparison holds, and a jump to another one where it doesn't.
fn put_compare_and_jump(
    sink: &mut MachBuffer<LabelUse>,
    flags: IsaFlags,
    kind: IntegerCompare,
    taken: MachLabel,
    not_taken: MachLabel,
) -> Result<(), OutOfMemory>
    requires rs1 { IsIntRegister kind.rs1 }
    requires rs2 { IsIntRegister kind.rs2 }
    requires taken { taken.number < first_inner }
    requires not_taken { not_taken.number < first_inner }
    requires room { length (bytes_of sink.old) + 8 < code_limit }
    requires sound { IsSoundBuffer sink.old }
    ensures slots { OnOk result (PutsSlots flags (branch_to kind (Label taken) ∷ jump_to flags (Label not_taken) ∷ []) sink.old sink.new) }
    ensures refused { OnErr result (spoiled_of sink.new ≡ true) }
{
    put_compare(sink, kind, taken)?;
    put_jump(sink, flags, not_taken)?;
    Ok(())
}

/// A branch to a label, where a comparison holds.
pub(crate) fn put_compare(
    sink: &mut MachBuffer<LabelUse>,
    kind: IntegerCompare,
    label: MachLabel,
) -> Result<(), OutOfMemory>
    requires rs1 { IsIntRegister kind.rs1 }
    requires rs2 { IsIntRegister kind.rs2 }
    requires known { IsKnown label.number (allocated_of sink.old) }
    requires room { length (bytes_of sink.old) + 4 < code_limit }
    requires sound { IsSoundBuffer sink.old }
    ensures slot { OnOk result ((flags : IsaFlags) → PutsSlots flags (branch_to kind (Label label) ∷ []) sink.old sink.new) }
    ensures word { OnOk result (shape_of sink.new ≡ with_bytes (word_bytes (branch_word kind)) (with_use (use_at (length (bytes_of sink.old)) label B12) (shape_of sink.old))) }
    ensures sound { OnOk result (IsSoundBuffer sink.new) }
    ensures refused { OnErr result (spoiled_of sink.new ≡ true) }
{
    put_use(sink, compare_word(kind), label, LabelUse::B12)?;
    Ok(())
}

/// The word of a branch whose distance is still to come.
fn compare_word(kind: IntegerCompare) -> u32
    requires rs1 { IsIntRegister kind.rs1 }
    requires rs2 { IsIntRegister kind.rs2 }
    ensures { result ≡ branch_word kind }
{
    encode_branch(kind, 0)
}

/// The word of a jump whose distance is still to come.
fn jump_word() -> u32
    ensures { result ≡ jump_word }
{
    encode_jal(writable_zero_reg(), 0)
}

/// A jump to a label.
pub fn put_jump(
    sink: &mut MachBuffer<LabelUse>,
    flags: IsaFlags,
    label: MachLabel,
) -> Result<(), OutOfMemory>
    requires label { label.number < first_inner }
    requires room { length (bytes_of sink.old) + 4 < code_limit }
    requires sound { IsSoundBuffer sink.old }
    ensures slot { OnOk result (PutsSlots flags (jump_to flags (Label label) ∷ []) sink.old sink.new) }
    ensures refused { OnErr result (spoiled_of sink.new ≡ true) }
{
    if flags.has_zca {
        put_half_jump(sink, label)?;
        return Ok(());
    }
    put_wide_jump(sink, label)?;
    Ok(())
}

/// A jump to a label, in a halfword.
fn put_half_jump(sink: &mut MachBuffer<LabelUse>, label: MachLabel) -> Result<(), OutOfMemory>
    requires label { label.number < first_inner }
    requires room { length (bytes_of sink.old) + 4 < code_limit }
    requires sound { IsSoundBuffer sink.old }
    ensures slot { OnOk result ((flags : IsaFlags) → flags.has_zca ≡ true → PutsSlots flags (jump_to flags (Label label) ∷ []) sink.old sink.new) }
    ensures refused { OnErr result (spoiled_of sink.new ≡ true) }
{
    let here = sink.cur_offset();
    sink.use_label_at_offset(here, label, LabelUse::RVCJump)?;
    sink.put2(jump_half())?;
    Ok(())
}

/// The halfword of a `c.j` whose distance is still to come.
fn jump_half() -> u16
    ensures { result ≡ 0xa001 }
{
    encode_cj_type(CjOp::CJ, Imm12::ZERO)
}

/// A jump to a label, in a word of four bytes whatever the flags are.
pub fn put_wide_jump(sink: &mut MachBuffer<LabelUse>, label: MachLabel) -> Result<(), OutOfMemory>
    requires known { IsKnown label.number (allocated_of sink.old) }
    requires room { length (bytes_of sink.old) + 4 < code_limit }
    requires sound { IsSoundBuffer sink.old }
    ensures slot { OnOk result ((flags : IsaFlags) → PutsSlots flags (wide_jump_to (Label label) ∷ []) sink.old sink.new) }
    ensures word { OnOk result (shape_of sink.new ≡ with_bytes (word_bytes jump_word) (with_use (use_at (length (bytes_of sink.old)) label Jal20) (shape_of sink.old))) }
    ensures sound { OnOk result (IsSoundBuffer sink.new) }
    ensures refused { OnErr result (spoiled_of sink.new ≡ true) }
{
    put_use(sink, jump_word(), label, LabelUse::Jal20)?;
    Ok(())
}

/// Puts a word whose distance to a label is still to come, and the use of that label.
pub fn put_use(
    sink: &mut MachBuffer<LabelUse>,
    word: u32,
    label: MachLabel,
    kind: LabelUse,
) -> Result<(), OutOfMemory>
    requires usable { IsUsable (shape_of sink.old) label.number }
    requires room { length (bytes_of sink.old) + 4 < code_limit }
    requires sound { IsSoundBuffer sink.old }
    ensures added { OnOk result (shape_of sink.new ≡ with_bytes (word_bytes word) (with_use (use_at (length (bytes_of sink.old)) label kind) (shape_of sink.old))) }
    ensures sound { OnOk result (IsSoundBuffer sink.new) }
    ensures refused { OnErr result (spoiled_of sink.new ≡ true) }
{
    let here = sink.cur_offset();
    sink.use_label_at_offset(here, label, kind)?;
    sink.put4(word)
}

/// Puts a word that names no label.
pub fn put_word(sink: &mut MachBuffer<LabelUse>, word: u32) -> Result<(), OutOfMemory>
    requires room { length (bytes_of sink.old) + 4 < code_limit }
    requires sound { IsSoundBuffer sink.old }
    ensures slot { OnOk result ((flags : IsaFlags) (d : Decoded) → d.len ≡ 4 → decode flags word ≡ Some d → PutsAlone flags (Op d ∷ []) sink.old sink.new) }
    ensures long { OnOk result (length (bytes_of sink.new) ≡ length (bytes_of sink.old) + 4) }
    ensures sound { OnOk result (IsSoundBuffer sink.new) }
    ensures refused { OnErr result (spoiled_of sink.new ≡ true) }
{
    sink.put4(word)?;
    Ok(())
}
