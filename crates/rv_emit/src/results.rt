//! Results that a callee leaves on the stack.

ghost use Rattle.std.specs.Prelude.{◌≡◌, ◌∷◌, ◌++◌, [], ◌+◌, ◌*◌, ◌^◌, ◌<◌, length, count_by, OnOk, OnErr, IsSome, true};
ghost use Rattle.rv_base.specs.LabelUse.{code_limit};
ghost use Rattle.rv_base.specs.Regs.{number_of};
ghost use Rattle.rv_encode.specs.Registers.{IsRealRegister};
ghost use Rattle.mach_buffer.specs.Buffer.{shape_of, bytes_of, allocated_of, spoiled_of};
ghost use Rattle.mach_buffer.specs.Constants.{reserve_of};
ghost use Rattle.mach_uses.specs.Reach.{CanReach};
ghost use Rattle.mach_uses.specs.Labels.{inner_count};
ghost use Rattle.rv_inst.specs.Returns.{location_loads, result_load, result_loads, typed_loads};
ghost use Rattle.rv_inst.specs.Rules.{is_stacked};
ghost use Rattle.rv_inst.specs.Sizes.{results_space};
ghost use Rattle.rv_sequences.specs.Parts.{PutsAlone, PutsParts};
ghost use Rattle.rv_sequences.specs.Emitted.{IsSoundBuffer, pending};
ghost use Rattle.rv_code.specs.InstParts.{stack_load_slots, result_slots};
ghost use Rattle.rv_code.specs.Slots.{Ask, Slots};
ghost use Rattle.rv_code.specs.Usable.{AreFineResults, IsFineResult, IsFineTry};

use crate::calls::put_continuation;
use crate::island::emit_island_if_needed;
use crate::stack::put_stack_load;
use mach_buffer::MachBuffer;
use rv_base::{CallRetPair, IrType, IsaFlags, OutOfMemory, RetLocation, TryCallInfo, WritableReg};
use rv_inst::{LabelUse, is_on_stack};
use rv_ops::LoadOP;

/// Loads results, after an island where one is needed before the loads and the jump to where the call goes on.
pub(crate) fn put_results(
    sink: &mut MachBuffer<LabelUse>,
    flags: IsaFlags,
    defs: &[CallRetPair],
    try_call_info: &Option<TryCallInfo>,
) -> Result<(), OutOfMemory>
    requires results { AreFineResults defs.now }
    requires fine { IsFineTry try_call_info.now }
    requires reach { CanReach (length (bytes_of sink.old)) (pending sink.old) }
    requires few { allocated_of sink.old < inner_count }
    requires room { length (bytes_of sink.old) + 32 * count_by is_stacked defs.now + reserve_of (shape_of sink.old) + 8 * length (pending sink.old) + 64 < code_limit }
    requires sound { IsSoundBuffer sink.old }
    ensures parts { OnOk result (PutsParts flags (Ask (results_space (result_loads defs.now)) ∷ Slots (result_slots flags (result_loads defs.now) try_call_info.now) ∷ []) sink.old sink.new) }
    ensures refused { OnErr result (spoiled_of sink.new ≡ true) }
{
    let space = results_space(defs);
    emit_island_if_needed(sink, space)?;
    put_loads(sink, flags, defs)?;
    put_continuation(sink, flags, try_call_info)?;
    Ok(())
}

/// How many bytes the loads, and the jump, may need.
fn results_space(defs: &[CallRetPair]) -> u32
    requires results { AreFineResults defs.now }
    requires few { 32 * count_by is_stacked defs.now < 2 ^ 32 }
    ensures { result ≡ results_space (result_loads defs.now) }
{
    32 * (on_stack(defs) as u32)
}

/// How many results are on the stack.
fn on_stack(defs: &[CallRetPair]) -> usize
    ensures { result ≡ count_by is_stacked defs.now }
{
    defs.iter().filter(|d| is_on_stack(d.location)).count()
}

/// Loads results, in order.
fn put_loads(
    sink: &mut MachBuffer<LabelUse>,
    flags: IsaFlags,
    defs: &[CallRetPair],
) -> Result<(), OutOfMemory>
    requires results { AreFineResults defs.now }
    requires room { length (bytes_of sink.old) + 28 * count_by is_stacked defs.now + 40 < code_limit }
    requires sound { IsSoundBuffer sink.old }
    ensures slots { OnOk result (PutsAlone flags (stack_load_slots flags (result_loads defs.now)) sink.old sink.new) }
    ensures refused { OnErr result (spoiled_of sink.new ≡ true) }
{
    for def in defs {
        put_result(sink, flags, *def)?;
    }
    Ok(())
}

/// Loads a result that is on the stack.
fn put_result(
    sink: &mut MachBuffer<LabelUse>,
    flags: IsaFlags,
    def: CallRetPair,
) -> Result<(), OutOfMemory>
    requires fine { IsFineResult def.vreg.reg def.location }
    requires room { length (bytes_of sink.old) + 40 < code_limit }
    requires sound { IsSoundBuffer sink.old }
    ensures slots { OnOk result (PutsAlone flags (stack_load_slots flags (location_loads def.vreg.reg def.location)) sink.old sink.new) }
    ensures refused { OnErr result (spoiled_of sink.new ≡ true) }
{
    match def.location {
        RetLocation::Reg(_) => Ok(()),
        RetLocation::Stack { offset, ty } => put_typed(sink, flags, def.vreg, offset, ty),
    }
}

/// Loads a result from so far above the stack pointer, by its type.
fn put_typed(
    sink: &mut MachBuffer<LabelUse>,
    flags: IsaFlags,
    rd: WritableReg,
    offset: u32,
    ty: IrType,
) -> Result<(), OutOfMemory>
    requires rd { IsRealRegister rd.reg }
    requires typed { IsSome (result_load ty) }
    requires room { length (bytes_of sink.old) + 40 < code_limit }
    requires sound { IsSoundBuffer sink.old }
    ensures slots { OnOk result (PutsAlone flags (stack_load_slots flags (typed_loads (number_of rd.reg) offset (result_load ty))) sink.old sink.new) }
    ensures refused { OnErr result (spoiled_of sink.new ≡ true) }
{
    put_stack_load(sink, flags, rd, LoadOP::from_type(ty), i64::from(offset))
}
