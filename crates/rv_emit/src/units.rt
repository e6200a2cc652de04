//! Instructions that are one word of a unit: the word, after the record of the trap that it may take.

ghost use Rattle.std.specs.Prelude.{◌≡◌, ◌+◌, ◌<◌, length, OnOk, OnErr, true};
ghost use Rattle.rv_base.specs.declared.flags.IsaFlags.{IsaFlags};
ghost use Rattle.rv_base.specs.LabelUse.{code_limit};
ghost use Rattle.mach_buffer.specs.Buffer.{bytes_of, registered_of, spoiled_of};
ghost use Rattle.rv_inst.specs.Operands.{family_of};
ghost use Rattle.rv_inst.specs.Limits.{sequence_limit};
ghost use Rattle.rv_inst.specs.declared.inst.Family.TheVariants.{Float};
ghost use Rattle.rv_code.specs.Usable.{KeepsRules};
ghost use Rattle.rv_emit.specs.Emission.{EmitsAnyhow};
ghost use Rattle.rv_sequences.specs.Emitted.{IsSoundBuffer};

use mach_buffer::MachBuffer;
use rv_base::OutOfMemory;
use rv_inst::{Inst, LabelUse};
use rv_sequences::{put_access, put_word};

/// One word, whatever the flags are.
#[inline(never)]
pub(crate) fn put_unit(sink: &mut MachBuffer<LabelUse>, inst: &Inst) -> Result<(), OutOfMemory>
    requires rule { KeepsRules (registered_of sink.old) inst.now }
    requires room { length (bytes_of sink.old) + sequence_limit < code_limit }
    requires sound { IsSoundBuffer sink.old }
    ensures parts { family_of inst.now ≡ Float → (flags : IsaFlags) → OnOk result (EmitsAnyhow flags inst.now sink.old sink.new) }
    ensures refused { OnErr result (spoiled_of sink.new ≡ true) }
{
    put_access(sink, inst.unit_trap())?;
    put_word(sink, inst.unit_bits())?;
    Ok(())
}
