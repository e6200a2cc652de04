//! Numbers that are put into registers.

ghost use Rattle.std.specs.Prelude.{◌≡◌, ◌+◌, ◌<◌, length, OnOk, OnErr, true};
ghost use Rattle.std.specs.Int.{cast_signed};
ghost use mir.Syntax.{w64};
ghost use Rattle.rv_base.specs.LabelUse.{code_limit};
ghost use Rattle.rv_base.specs.Regs.{number_of};
ghost use Rattle.rv_encode.specs.Registers.{IsIntRegister};
ghost use Rattle.rv_imms.specs.Splitting.{value_of};
ghost use Rattle.mach_buffer.specs.Buffer.{bytes_of, spoiled_of};
ghost use Rattle.rv_sequences.specs.Emitted.{IsSoundBuffer};
ghost use Rattle.rv_sequences.specs.Parts.{PutsAlone};
ghost use Rattle.rv_code.specs.InstParts.{number_slots};

use crate::expansions::put_double_constant;
use crate::memory::put_immediates;
use crate::shortest::put_rri;
use mach_buffer::MachBuffer;
use rv_base::{IsaFlags, OutOfMemory, WritableReg, zero_reg};
use rv_imms::{Imm12, Imm20, generate_imm};
use rv_inst::LabelUse;
use rv_ops::AluOPRRI;

/// 64 bits in a register: by immediates where they make the number that the bits are in two's complement, else from among the code.
pub fn put_number(
    sink: &mut MachBuffer<LabelUse>,
    flags: IsaFlags,
    rd: WritableReg,
    value: u64,
) -> Result<(), OutOfMemory>
    requires rd { IsIntRegister rd.reg }
    requires room { length (bytes_of sink.old) + 20 < code_limit }
    requires sound { IsSoundBuffer sink.old }
    ensures slots { OnOk result (PutsAlone flags (number_slots flags (number_of rd.reg) (cast_signed w64 value)) sink.old sink.new) }
    ensures refused { OnErr result (spoiled_of sink.new ≡ true) }
{
    match generate_imm(value) {
        Some((upper, lower)) => put_made_number(sink, flags, rd, upper, lower),
        None => put_double_constant(sink, flags, rd, value),
    }
}

/// The number that an upper and a lower immediate make: by the lower one alone where the upper one is 0.
fn put_made_number(
    sink: &mut MachBuffer<LabelUse>,
    flags: IsaFlags,
    rd: WritableReg,
    upper: Imm20,
    lower: Imm12,
) -> Result<(), OutOfMemory>
    requires rd { IsIntRegister rd.reg }
    requires room { length (bytes_of sink.old) + 8 < code_limit }
    requires sound { IsSoundBuffer sink.old }
    ensures slots { OnOk result (PutsAlone flags (number_slots flags (number_of rd.reg) (value_of upper.value lower.value)) sink.old sink.new) }
    ensures refused { OnErr result (spoiled_of sink.new ≡ true) }
{
    if upper.value == 0 {
        return put_rri(sink, flags, AluOPRRI::Addi, rd, zero_reg(), lower);
    }
    put_immediates(sink, flags, rd, upper, lower)
}
