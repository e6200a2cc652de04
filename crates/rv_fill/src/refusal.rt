//! Why code can't be placed.

ghost use Rattle.std.specs.Prelude.{◌≡◌, ◌+◌, ◌<◌, ◌≤◌, length, not};
ghost use Rattle.std.specs.List.{list_any};
ghost use Rattle.rv_machine.specs.State.{wrap};
ghost use Rattle.rv_inst.specs.Addresses.{is_splittable};
ghost use Rattle.rv_inst.specs.Relocations.{field_size};
ghost use Rattle.rv_fill.specs.Filled.{table_of, is_upper_at, distance};
ghost use Rattle.rv_fill.specs.Refusal.{is_bad_base, meets, is_bad_target, is_bad_record, is_far, target_refusal, record_refusal, records_refusal, refusal, Finds};

use crate::addresses::{goal_in, is_upper_at};
use crate::error::PlaceError;
use crate::fields::field_size;
use mach_records::{FinalizedRelocTarget, MachReloc};
use rv_base::{ExternalName, Reloc};

fn is_bad_base(base: u64, count: usize) -> bool
    ensures { result ≡ is_bad_base base count }
{
    base % 4 != 0 || u128::from(base) + count as u128 > 1 << 64
}

/// The offset after the last byte that a relocation fills.
fn end_of(reloc: &MachReloc) -> u64
    ensures { result ≡ reloc.now.offset + field_size reloc.now.kind }
{
    u64::from(reloc.offset) + u64::from(field_size(reloc.kind))
}

fn meets(reloc: &MachReloc, other: &MachReloc) -> bool
    ensures { result ≡ meets reloc.now other.now }
{
    u64::from(reloc.offset) < end_of(other) && u64::from(other.offset) < end_of(reloc)
}

fn meets_any(reloc: &MachReloc, earlier: &[MachReloc]) -> bool
    ensures { result ≡ list_any (meets reloc.now) earlier.now }
{
    earlier.iter().any(|other| meets(reloc, other))
}

fn has_upper(relocs: &[MachReloc], at: u32) -> bool
    ensures { result ≡ list_any (is_upper_at at) relocs.now }
{
    relocs.iter().any(|upper| is_upper_at(at, upper))
}

fn is_bad_target(relocs: &[MachReloc], kind: Reloc, target: FinalizedRelocTarget) -> bool
    ensures { result ≡ is_bad_target relocs.now kind target }
{
    match (kind, target) {
        (Reloc::RiscvPCRelLo12I, FinalizedRelocTarget::Func(at)) => !has_upper(relocs, at),
        (Reloc::RiscvPCRelLo12I, FinalizedRelocTarget::ExternalName(_)) => true,
        (_, FinalizedRelocTarget::Func(_)) => true,
        (_, FinalizedRelocTarget::ExternalName(_)) => false,
    }
}

fn is_bad_record(count: usize, relocs: &[MachReloc], index: usize, reloc: &MachReloc) -> bool
    requires { index ≤ length relocs.now }
    ensures { result ≡ is_bad_record count relocs.now index reloc.now }
{
    end_of(reloc) > count as u64
        || meets_any(reloc, &relocs[..index])
        || is_bad_target(relocs, reloc.kind, reloc.target)
}

/// Returns whether two words can't hold the distance between two addresses.
fn is_too_far(from: u64, to: u64) -> bool
    ensures { is_splittable (distance from to) ≡ not result }
{
    let distance = to.wrapping_sub(from).cast_signed();
    distance < -2147485696 || 2147481599 < distance
}

fn is_far(kind: Reloc, from: u64, to: u64) -> bool
    ensures { result ≡ is_far kind from to }
{
    match kind {
        Reloc::RiscvCallPlt | Reloc::RiscvGotHi20 | Reloc::RiscvPCRelHi20 => is_too_far(from, to),
        Reloc::RiscvPCRelLo12I | Reloc::Abs8 => false,
    }
}

/// Refuses a relocation whose name has no address, or that leads too far.
fn refuse_target(
    base: u64,
    symbols: &[(ExternalName, u64)],
    slots: &[(ExternalName, u64)],
    index: usize,
    reloc: &MachReloc,
) -> Result<(), PlaceError>
    ensures { Finds (target_refusal base (table_of symbols.now) (table_of slots.now) index reloc.now reloc.now.target) result }
{
    let name = match reloc.target {
        FinalizedRelocTarget::ExternalName(name) => name,
        FinalizedRelocTarget::Func(_) => return Ok(()),
    };
    let Some(to) = goal_in(symbols, slots, reloc.kind, name, reloc.addend) else {
        return Err(PlaceError::NoSymbol { index });
    };
    if is_far(reloc.kind, base.wrapping_add(u64::from(reloc.offset)), to) {
        return Err(PlaceError::OutOfReach { index });
    }
    Ok(())
}

fn refuse_record(
    count: usize,
    relocs: &[MachReloc],
    base: u64,
    symbols: &[(ExternalName, u64)],
    slots: &[(ExternalName, u64)],
    index: usize,
    reloc: &MachReloc,
) -> Result<(), PlaceError>
    requires { index ≤ length relocs.now }
    ensures { Finds (record_refusal count relocs.now base (table_of symbols.now) (table_of slots.now) index reloc.now) result }
{
    if is_bad_record(count, relocs, index, reloc) {
        return Err(PlaceError::BadRecord { index });
    }
    refuse_target(base, symbols, slots, index, reloc)
}

fn refuse_records(
    count: usize,
    relocs: &[MachReloc],
    base: u64,
    symbols: &[(ExternalName, u64)],
    slots: &[(ExternalName, u64)],
) -> Result<(), PlaceError>
    ensures { Finds (records_refusal count relocs.now base (table_of symbols.now) (table_of slots.now) 0 relocs.now) result }
{
    for (index, reloc) in relocs.iter().enumerate() {
        refuse_record(count, relocs, base, symbols, slots, index, reloc)?;
    }
    Ok(())
}

/// Refuses code of so many bytes for the first cause why it can't stand at a base, where it has one.
#[tactic(auto, unfolding(crate::specs::Refusal::refusal))]
pub(crate) fn refuse(
    count: usize,
    relocs: &[MachReloc],
    base: u64,
    symbols: &[(ExternalName, u64)],
    slots: &[(ExternalName, u64)],
) -> Result<(), PlaceError>
    ensures { Finds (refusal count relocs.now base (table_of symbols.now) (table_of slots.now)) result }
{
    if is_bad_base(base, count) {
        return Err(PlaceError::BadBase);
    }
    refuse_records(count, relocs, base, symbols, slots)
}
