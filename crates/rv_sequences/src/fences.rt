//! Fences, and loads and stores of integers among them.

ghost use Rattle.std.specs.Prelude.{◌≡◌, [], ◌∷◌, ◌+◌, ◌<◌, ◌^◌, length, OnOk, OnErr, true};
ghost use Rattle.rv_base.specs.LabelUse.{code_limit};
ghost use Rattle.rv_base.specs.Regs.{number_of};
ghost use Rattle.rv_encode.specs.Operations.{decoded_fence};
ghost use Rattle.rv_encode.specs.Registers.{IsIntRegister};
ghost use Rattle.mach_buffer.specs.Buffer.{allocated_of, bytes_of, spoiled_of};
ghost use Rattle.mach_uses.specs.Labels.{inner_count};
ghost use Rattle.rv_inst.specs.Classes.{is_int_type};
ghost use Rattle.rv_sequences.specs.Code.{code_most, pieces_of, AreSound, IsLabelled};
ghost use Rattle.rv_sequences.specs.Emitted.{IsSoundBuffer};
ghost use Rattle.rv_sequences.specs.Parts.{PutsAlone};
ghost use Rattle.rv_code.specs.Accesses.{atomic_load_pieces, atomic_store_pieces};
ghost use Rattle.rv_code.specs.Pieces.{slots_of};
ghost use Rattle.rv_code.specs.Slots.{Op};

use crate::code::{CodePiece, fence, load, put_code, store};
use crate::words::put_word;
use mach_buffer::MachBuffer;
use rv_base::{IrType, IsaFlags, OutOfMemory, Reg, WritableReg};
use rv_encode::encode_fence;
use rv_imms::Imm12;
use rv_inst::{Inst, LabelUse};
use rv_ops::{LoadOP, StoreOP};

/// The sets of accesses of a fence.
const READS: u8 = Inst::FENCE_REQ_R;

const WRITES: u8 = Inst::FENCE_REQ_W;

const READS_AND_WRITES: u8 = READS | WRITES;

/// A fence, between two sets of accesses.
pub fn put_fence(
    sink: &mut MachBuffer<LabelUse>,
    flags: IsaFlags,
    pred: u8,
    succ: u8,
) -> Result<(), OutOfMemory>
    requires pred { pred < 2 ^ 4 }
    requires succ { succ < 2 ^ 4 }
    requires room { length (bytes_of sink.old) + 4 < code_limit }
    requires sound { IsSoundBuffer sink.old }
    ensures slots { OnOk result (PutsAlone flags (Op (decoded_fence pred succ) ∷ []) sink.old sink.new) }
    ensures refused { OnErr result (spoiled_of sink.new ≡ true) }
{
    put_word(sink, encode_fence(pred, succ))
}

/// The load of an integer type after all that was read and written, and before all else.
pub fn put_atomic_load(
    sink: &mut MachBuffer<LabelUse>,
    flags: IsaFlags,
    rd: WritableReg,
    ty: IrType,
    p: Reg,
) -> Result<(), OutOfMemory>
    requires ty { is_int_type ty ≡ true }
    requires rd { IsIntRegister rd.reg }
    requires p { IsIntRegister p }
    requires few { allocated_of sink.old + 3 < inner_count }
    requires room { length (bytes_of sink.old) + 12 < code_limit }
    requires sound { IsSoundBuffer sink.old }
    ensures slots { OnOk result (PutsAlone flags (slots_of flags (atomic_load_pieces ty (number_of rd.reg) (number_of p))) sink.old sink.new) }
    ensures refused { OnErr result (spoiled_of sink.new ≡ true) }
{
    put_code(sink, flags, &atomic_load_code(rd, ty, p))
}

fn atomic_load_code(rd: WritableReg, ty: IrType, p: Reg) -> [CodePiece; 3]
    requires ty { is_int_type ty ≡ true }
    requires rd { IsIntRegister rd.reg }
    requires p { IsIntRegister p }
    ensures pieces { pieces_of result ≡ atomic_load_pieces ty (number_of rd.reg) (number_of p) }
    ensures registers { AreSound result }
    ensures labels { IsLabelled 0 [] result }
    ensures few { code_most result ≡ 12 }
{
    [
        fence(READS_AND_WRITES, READS_AND_WRITES),
        load(LoadOP::from_type(ty), rd, p, Imm12::ZERO),
        fence(READS, READS_AND_WRITES),
    ]
}

/// The store of an integer type after all that was read and written.
pub fn put_atomic_store(
    sink: &mut MachBuffer<LabelUse>,
    flags: IsaFlags,
    src: Reg,
    ty: IrType,
    p: Reg,
) -> Result<(), OutOfMemory>
    requires ty { is_int_type ty ≡ true }
    requires src { IsIntRegister src }
    requires p { IsIntRegister p }
    requires few { allocated_of sink.old + 2 < inner_count }
    requires room { length (bytes_of sink.old) + 8 < code_limit }
    requires sound { IsSoundBuffer sink.old }
    ensures slots { OnOk result (PutsAlone flags (slots_of flags (atomic_store_pieces ty (number_of src) (number_of p))) sink.old sink.new) }
    ensures refused { OnErr result (spoiled_of sink.new ≡ true) }
{
    put_code(sink, flags, &atomic_store_code(src, ty, p))
}

fn atomic_store_code(src: Reg, ty: IrType, p: Reg) -> [CodePiece; 2]
    requires ty { is_int_type ty ≡ true }
    requires src { IsIntRegister src }
    requires p { IsIntRegister p }
    ensures pieces { pieces_of result ≡ atomic_store_pieces ty (number_of src) (number_of p) }
    ensures registers { AreSound result }
    ensures labels { IsLabelled 0 [] result }
    ensures few { code_most result ≡ 8 }
{
    [
        fence(READS_AND_WRITES, WRITES),
        store(StoreOP::from_type(ty), p, src, Imm12::ZERO),
    ]
}
