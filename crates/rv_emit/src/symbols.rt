//! Addresses of symbols and jumps to them, whose bytes a linker fills; call sites, and steps in the making of a frame.

ghost use Rattle.std.specs.Prelude.{◌≡◌, [], ◌∷◌, ◌+◌, ◌<◌, length, OnOk, OnErr, true};
ghost use Rattle.rv_base.specs.declared.flags.IsaFlags.{IsaFlags};
ghost use Rattle.rv_base.specs.LabelUse.{code_limit};
ghost use Rattle.rv_base.specs.Regs.{number_of};
ghost use Rattle.rv_encode.specs.Registers.{IsIntRegister};
ghost use Rattle.rv_inst.specs.LabelUseWords.{word_bytes};
ghost use Rattle.rv_inst.specs.Limits.{sequence_limit};
ghost use Rattle.rv_inst.specs.Operands.{family_of};
ghost use Rattle.rv_inst.specs.declared.inst.Family.TheVariants.{Symbols};
ghost use Rattle.rv_code.specs.Usable.{KeepsRules};
ghost use Rattle.rv_emit.specs.Emission.{EmitsAnyhow};
ghost use Rattle.mach_records.specs.declared.records.Event.TheVariants.{CallSite, Reloc as Relocates, Unwind as Unwinds};
ghost use Rattle.mach_records.specs.declared.records.FinalizedRelocTarget.TheVariants.{ExternalName as ToName};
ghost use Rattle.mach_buffer.specs.Buffer.{shape_of, bytes_of, registered_of, spoiled_of};
ghost use Rattle.mach_buffer.specs.Shape.{with_bytes, with_record};
ghost use Rattle.rv_sequences.specs.Parts.{PutsAlone};
ghost use Rattle.rv_sequences.specs.Emitted.{IsSoundBuffer};
ghost use Rattle.rv_code.specs.InstParts.{call_to};
ghost use Rattle.rv_sequences.specs.Puts.{eight_zeros};
ghost use Rattle.rv_code.specs.Slots.{Records, address_event, call_event, lower_event};

use crate::table::far_word;
use mach_buffer::MachBuffer;
use rv_base::{ExternalName, IsaFlags, OutOfMemory, Reloc, RelocTarget, UnwindInst, WritableReg};
use rv_encode::enc_auipc;
use rv_imms::Imm20;
use rv_inst::{Inst, LabelUse};
use rv_ops::LoadOP;
use rv_sequences::{addition_word, load_word, put_load_over};

/// What an instruction takes of a symbol.
#[inline(never)]
pub(crate) fn put_symbol(
    sink: &mut MachBuffer<LabelUse>,
    flags: IsaFlags,
    inst: &Inst,
) -> Result<(), OutOfMemory>
    requires rule { KeepsRules (registered_of sink.old) inst.now }
    requires room { length (bytes_of sink.old) + sequence_limit < code_limit }
    requires sound { IsSoundBuffer sink.old }
    ensures parts { family_of inst.now ≡ Symbols → OnOk result (EmitsAnyhow flags inst.now sink.old sink.new) }
    ensures refused { OnErr result (spoiled_of sink.new ≡ true) }
{
    match inst {
        // What stands in its slot, which is its address, by the distance to the slot.
        Inst::LoadExtNameGot { rd, name } => {
            let upper = enc_auipc(*rd, Imm20::ZERO);
            let lower = load_word(LoadOP::Ld, *rd, rd.reg);
            put_pair(sink, Reloc::RiscvGotHi20, *name, 0, upper, lower)?;
            Ok(())
        }
        // Its address plus an offset, by the distance to it.
        Inst::LoadExtNameNear { rd, name, offset } => {
            let upper = enc_auipc(*rd, Imm20::ZERO);
            let lower = addition_word(*rd);
            put_pair(sink, Reloc::RiscvPCRelHi20, *name, *offset, upper, lower)?;
            Ok(())
        }
        // Its address plus an offset, from among the code, which jumps over it.
        Inst::LoadExtNameFar { rd, name, offset } => {
            put_load_over(sink, flags, *rd, LoadOP::Ld, 8)?;
            put_symbol_bytes(sink, *name, *offset)?;
            Ok(())
        }
        _ => Ok(()),
    }
}

/// Puts two words that a linker fills with the upper and the lower part of the distance from the first one to a symbol plus an
/// addend, or to its slot. They are of four bytes each whatever the flags are. The relocation of the second names the place of the
/// first, whose distance is the one that it has the lower part of.
fn put_pair(
    sink: &mut MachBuffer<LabelUse>,
    kind: Reloc,
    name: ExternalName,
    addend: i64,
    upper: u32,
    lower: u32,
) -> Result<(), OutOfMemory>
    requires room { length (bytes_of sink.old) + 8 < code_limit }
    requires sound { IsSoundBuffer sink.old }
    ensures put { OnOk result (shape_of sink.new ≡ with_bytes (word_bytes lower) (with_record (lower_event (length (bytes_of sink.old))) (with_bytes (word_bytes upper) (with_record (Relocates kind (ToName name) addend) (shape_of sink.old))))) }
    ensures sound { OnOk result (IsSoundBuffer sink.new) }
    ensures refused { OnErr result (spoiled_of sink.new ≡ true) }
{
    let start = sink.cur_offset();
    sink.add_reloc(kind, RelocTarget::Name(name), addend)?;
    sink.put4(upper)?;
    sink.add_reloc_to(Reloc::RiscvPCRelLo12I, start, 0)?;
    sink.put4(lower)?;
    Ok(())
}

/// Eight bytes that a linker fills with a symbol's address plus an offset.
fn put_symbol_bytes(
    sink: &mut MachBuffer<LabelUse>,
    name: ExternalName,
    offset: i64,
) -> Result<(), OutOfMemory>
    requires room { length (bytes_of sink.old) + 8 < code_limit }
    requires sound { IsSoundBuffer sink.old }
    ensures put { OnOk result (shape_of sink.new ≡ with_bytes eight_zeros (with_record (address_event name offset) (shape_of sink.old))) }
    ensures sound { OnOk result (IsSoundBuffer sink.new) }
    ensures refused { OnErr result (spoiled_of sink.new ≡ true) }
{
    sink.add_reloc(Reloc::Abs8, RelocTarget::Name(name), offset)?;
    sink.put8(0)?;
    Ok(())
}

/// To a symbol, by the distance to it, by way of a register; the link is the address after it. Both words are of four bytes
/// whatever the flags are.
pub(crate) fn put_call_to(
    sink: &mut MachBuffer<LabelUse>,
    link: WritableReg,
    tmp: WritableReg,
    name: ExternalName,
) -> Result<(), OutOfMemory>
    requires link { IsIntRegister link.reg }
    requires tmp { IsIntRegister tmp.reg }
    requires room { length (bytes_of sink.old) + 8 < code_limit }
    requires sound { IsSoundBuffer sink.old }
    ensures slots { OnOk result ((flags : IsaFlags) → PutsAlone flags (call_to (number_of link.reg) (number_of tmp.reg) name ∷ []) sink.old sink.new) }
    ensures refused { OnErr result (spoiled_of sink.new ≡ true) }
{
    sink.add_reloc(Reloc::RiscvCallPlt, RelocTarget::Name(name), 0)?;
    sink.put4(enc_auipc(tmp, Imm20::ZERO))?;
    sink.put4(far_word(link, tmp.reg))?;
    Ok(())
}

/// The record of a call site.
pub(crate) fn put_call_site(sink: &mut MachBuffer<LabelUse>) -> Result<(), OutOfMemory>
    requires sound { IsSoundBuffer sink.old }
    ensures slots { OnOk result ((flags : IsaFlags) → PutsAlone flags (Records CallSite ∷ []) sink.old sink.new) }
    ensures refused { OnErr result (spoiled_of sink.new ≡ true) }
{
    sink.add_call_site()?;
    Ok(())
}

/// The record of a step in the making of a frame.
pub(crate) fn put_unwind(
    sink: &mut MachBuffer<LabelUse>,
    inst: UnwindInst,
) -> Result<(), OutOfMemory>
    requires sound { IsSoundBuffer sink.old }
    ensures slots { OnOk result ((flags : IsaFlags) → PutsAlone flags (Records (Unwinds inst) ∷ []) sink.old sink.new) }
    ensures refused { OnErr result (spoiled_of sink.new ≡ true) }
{
    sink.add_unwind(inst)?;
    Ok(())
}
