//! Loads and stores by their operation: one instruction, or, where the machine has none of halves ("Zfhmin"), a half by integer
//! registers.

ghost use Rattle.std.specs.Prelude.{◌≡◌, ◌+◌, ◌<◌, length, OnOk, OnErr, Some, true, false};
ghost use Rattle.rv_base.specs.declared.flags.IsaFlags.{IsaFlags};
ghost use Rattle.rv_base.specs.LabelUse.{code_limit};
ghost use Rattle.rv_base.specs.Regs.{number_of};
ghost use Rattle.mach_buffer.specs.Buffer.{shape_of, bytes_of, spoiled_of};
ghost use Rattle.rv_machine.specs.Decode.{decode};
ghost use Rattle.rv_ops.specs.Memory.{is_float_load};
ghost use Rattle.rv_encode.specs.Operations.{has_load, has_store};
ghost use Rattle.rv_encode.specs.Registers.{IsIntRegister, IsRealRegister};
ghost use Rattle.rv_sequences.specs.Parts.{PutsAlone};
ghost use Rattle.rv_sequences.specs.Emitted.{IsSoundBuffer};
ghost use Rattle.rv_sequences.specs.Places.{location_at, IsFinePlace};
ghost use Rattle.rv_code.specs.InstParts.{boxing_slots, half_load_slots, half_store_slots, load_line_slots, moved_to_float, moved_to_integer, store_line_slots};

use crate::memory::{Place, put_load, put_store};
use crate::shortest::{put_lui, put_rrr};
use crate::words::put_word;
use mach_buffer::MachBuffer;
use rv_base::{
    IsaFlags, OutOfMemory, Reg, TrapCode, WritableReg, spilltmp_reg, spilltmp_reg2,
    writable_spilltmp_reg, writable_spilltmp_reg2,
};
use rv_encode::encode_fp_rr;
use rv_imms::Imm20;
use rv_inst::LabelUse;
use rv_ops::{AluOPRRR, FRM, FpuOPRR, FpuOPWidth, LoadOP, StoreOP};

/// Returns whether the machine has a load.
pub fn has_load(flags: IsaFlags, op: LoadOP) -> bool
    ensures { result ≡ has_load flags op }
{
    match op {
        LoadOP::Flh => flags.has_zfhmin,
        _ => true,
    }
}

/// Returns whether the machine has a store.
fn has_store(flags: IsaFlags, op: StoreOP) -> bool
    ensures { result ≡ has_store flags op }
{
    match op {
        StoreOP::Fsh => flags.has_zfhmin,
        _ => true,
    }
}

// ---- loads

/// A load from a place.
pub fn put_load_line(
    sink: &mut MachBuffer<LabelUse>,
    flags: IsaFlags,
    rd: WritableReg,
    op: LoadOP,
    trap: Option<TrapCode>,
    place: Place,
) -> Result<(), OutOfMemory>
    requires rd { IsRealRegister rd.reg }
    requires base { is_float_load op ≡ false → IsIntRegister rd.reg }
    requires fine { IsFinePlace (shape_of sink.old) place }
    requires room { length (bytes_of sink.old) + 40 < code_limit }
    requires sound { IsSoundBuffer sink.old }
    ensures slots { OnOk result (PutsAlone flags (load_line_slots flags (number_of rd.reg) op trap (location_at place)) sink.old sink.new) }
    ensures refused { OnErr result (spoiled_of sink.new ≡ true) }
{
    if has_load(flags, op) {
        put_load(sink, flags, rd, op, trap, place)
    } else {
        put_half_load(sink, flags, rd, trap, place)
    }
}

/// A half goes to x31, gets ones above it there, and is moved to its register.
pub fn put_half_load(
    sink: &mut MachBuffer<LabelUse>,
    flags: IsaFlags,
    rd: WritableReg,
    trap: Option<TrapCode>,
    place: Place,
) -> Result<(), OutOfMemory>
    requires rd { IsRealRegister rd.reg }
    requires fine { IsFinePlace (shape_of sink.old) place }
    requires room { length (bytes_of sink.old) + 40 < code_limit }
    requires sound { IsSoundBuffer sink.old }
    ensures slots { OnOk result (PutsAlone flags (half_load_slots flags (number_of rd.reg) trap (location_at place)) sink.old sink.new) }
    ensures refused { OnErr result (spoiled_of sink.new ≡ true) }
{
    let half = writable_spilltmp_reg();
    put_load(sink, flags, half, LoadOP::Lh, trap, place)?;
    put_boxing(sink, flags, rd)?;
    Ok(())
}

/// The half in x31 gets ones above it, and goes to a floating-point register as a number of four bytes.
fn put_boxing(
    sink: &mut MachBuffer<LabelUse>,
    flags: IsaFlags,
    rd: WritableReg,
) -> Result<(), OutOfMemory>
    requires rd { IsRealRegister rd.reg }
    requires room { length (bytes_of sink.old) + 12 < code_limit }
    requires sound { IsSoundBuffer sink.old }
    ensures slots { OnOk result (PutsAlone flags (boxing_slots flags (number_of rd.reg)) sink.old sink.new) }
    ensures refused { OnErr result (spoiled_of sink.new ≡ true) }
{
    put_lui(sink, flags, writable_spilltmp_reg2(), Imm20::from_i32(-16))?;
    put_rrr(
        sink,
        flags,
        AluOPRRR::Or,
        writable_spilltmp_reg(),
        spilltmp_reg(),
        spilltmp_reg2(),
    )?;
    put_word(sink, word_to_float(rd))?;
    Ok(())
}

/// The move of the low four bytes of x31 to a floating-point register.
fn word_to_float(rd: WritableReg) -> u32
    requires { IsRealRegister rd.reg }
    ensures { (flags : IsaFlags) → decode flags result ≡ Some (moved_to_float (number_of rd.reg) 31) }
{
    encode_fp_rr(
        FpuOPRR::FmvFmtX,
        FpuOPWidth::S,
        FRM::RNE,
        rd,
        spilltmp_reg(),
    )
}

// ---- stores

/// A store to a place.
pub fn put_store_line(
    sink: &mut MachBuffer<LabelUse>,
    flags: IsaFlags,
    op: StoreOP,
    src: Reg,
    trap: Option<TrapCode>,
    place: Place,
) -> Result<(), OutOfMemory>
    requires src { IsRealRegister src }
    requires fine { IsFinePlace (shape_of sink.old) place }
    requires room { length (bytes_of sink.old) + 32 < code_limit }
    requires sound { IsSoundBuffer sink.old }
    ensures slots { OnOk result (PutsAlone flags (store_line_slots flags op (number_of src) trap (location_at place)) sink.old sink.new) }
    ensures refused { OnErr result (spoiled_of sink.new ≡ true) }
{
    if has_store(flags, op) {
        put_store(sink, flags, op, src, trap, place)
    } else {
        put_half_store(sink, flags, src, trap, place)
    }
}

/// A half goes to x30, and from there to the memory.
fn put_half_store(
    sink: &mut MachBuffer<LabelUse>,
    flags: IsaFlags,
    src: Reg,
    trap: Option<TrapCode>,
    place: Place,
) -> Result<(), OutOfMemory>
    requires src { IsRealRegister src }
    requires fine { IsFinePlace (shape_of sink.old) place }
    requires room { length (bytes_of sink.old) + 32 < code_limit }
    requires sound { IsSoundBuffer sink.old }
    ensures slots { OnOk result (PutsAlone flags (half_store_slots flags (number_of src) trap (location_at place)) sink.old sink.new) }
    ensures refused { OnErr result (spoiled_of sink.new ≡ true) }
{
    put_word(sink, word_to_integer(src))?;
    put_store(sink, flags, StoreOP::Sh, spilltmp_reg2(), trap, place)?;
    Ok(())
}

/// The move of the low four bytes of a floating-point register to x30.
fn word_to_integer(src: Reg) -> u32
    requires { IsRealRegister src }
    ensures { (flags : IsaFlags) → decode flags result ≡ Some (moved_to_integer 30 (number_of src)) }
{
    encode_fp_rr(
        FpuOPRR::FmvXFmt,
        FpuOPWidth::S,
        FRM::RNE,
        writable_spilltmp_reg2(),
        src,
    )
}
