//! A move of one register to another of its class.

ghost use Rattle.std.specs.Prelude.{◌≡◌, [], ◌∷◌, ◌+◌, ◌<◌, length, unwrap_or, OnOk, OnErr, true};
ghost use Rattle.rv_base.specs.LabelUse.{code_limit};
ghost use Rattle.rv_base.specs.declared.regs.RegClass.TheVariants.{Float};
ghost use Rattle.rv_base.specs.Regs.{class_of, number_of};
ghost use Rattle.rv_ops.specs.declared.float_fields.FpuOPWidth.TheVariants.{D};
ghost use Rattle.rv_ops.specs.FloatFields.{width_of};
ghost use Rattle.rv_inst.specs.Sizes.{move_op};
ghost use Rattle.rv_code.specs.Choices.{move_pieces};
ghost use Rattle.rv_code.specs.Pieces.{slots_of};
ghost use Rattle.rv_code.specs.Slots.{Op};
ghost use Rattle.rv_code.specs.Usable.{IsMove};
ghost use Rattle.mach_buffer.specs.Buffer.{bytes_of, spoiled_of};
ghost use Rattle.rv_sequences.specs.Parts.{PutsAlone};
ghost use Rattle.rv_sequences.specs.Emitted.{IsSoundBuffer};

use crate::shortest::put_rri;
use crate::words::put_word;
use mach_buffer::MachBuffer;
use rv_base::{IrType, IsaFlags, OutOfMemory, Reg, RegClass, WritableReg};
use rv_encode::{encode_fp_rrr, number_of};
use rv_imms::Imm12;
use rv_inst::LabelUse;
use rv_ops::{AluOPRRI, FRM, FpuOPRRR, FpuOPWidth};
use std::convert::TryFrom;

/// A move of one register to another, of a value of a type; none to itself.
pub fn put_move(
    sink: &mut MachBuffer<LabelUse>,
    flags: IsaFlags,
    rd: WritableReg,
    rm: Reg,
    ty: IrType,
) -> Result<(), OutOfMemory>
    requires fine { IsMove rd.reg rm ty }
    requires room { length (bytes_of sink.old) + 4 < code_limit }
    requires sound { IsSoundBuffer sink.old }
    ensures slots { OnOk result (PutsAlone flags (slots_of flags (move_pieces (class_of rd.reg) ty (number_of rd.reg) (number_of rm))) sink.old sink.new) }
    ensures refused { OnErr result (spoiled_of sink.new ≡ true) }
{
    if number_of(rd.reg) == number_of(rm) {
        return Ok(());
    }
    put_other(sink, flags, rd, rm, ty)
}

/// A move to another register.
fn put_other(
    sink: &mut MachBuffer<LabelUse>,
    flags: IsaFlags,
    rd: WritableReg,
    rm: Reg,
    ty: IrType,
) -> Result<(), OutOfMemory>
    requires fine { IsMove rd.reg rm ty }
    requires room { length (bytes_of sink.old) + 4 < code_limit }
    requires sound { IsSoundBuffer sink.old }
    ensures slots { OnOk result (PutsAlone flags (Op (move_op flags (class_of rd.reg) ty (number_of rd.reg) (number_of rm)) ∷ []) sink.old sink.new) }
    ensures refused { OnErr result (spoiled_of sink.new ≡ true) }
{
    match rd.reg.class() {
        RegClass::Float => put_float_move(sink, flags, rd, rm, ty),
        RegClass::Int | RegClass::Vector => {
            put_rri(sink, flags, AluOPRRI::Addi, rd, rm, Imm12::ZERO)
        }
    }
}

/// A move of a floating-point register: `fsgnj` of equal sources, which has no form in sixteen bits.
fn put_float_move(
    sink: &mut MachBuffer<LabelUse>,
    flags: IsaFlags,
    rd: WritableReg,
    rm: Reg,
    ty: IrType,
) -> Result<(), OutOfMemory>
    requires fine { IsMove rd.reg rm ty }
    requires class { class_of rd.reg ≡ Float }
    requires room { length (bytes_of sink.old) + 4 < code_limit }
    requires sound { IsSoundBuffer sink.old }
    ensures slots { OnOk result (PutsAlone flags (Op (move_op flags Float ty (number_of rd.reg) (number_of rm)) ∷ []) sink.old sink.new) }
    ensures refused { OnErr result (spoiled_of sink.new ≡ true) }
{
    put_word(
        sink,
        encode_fp_rrr(FpuOPRRR::Fsgnj, width_for(ty), FRM::RNE, rd, rm, rm),
    )
}

/// The format of a floating-point type; any other is none of such a move.
fn width_for(ty: IrType) -> FpuOPWidth
    ensures { result ≡ unwrap_or (width_of ty) D }
{
    match FpuOPWidth::try_from(ty) {
        Ok(width) => width,
        Err(_) => FpuOPWidth::D,
    }
}
