//! Where relocations lead, by the addresses of symbols and slots.

ghost use Rattle.std.specs.Prelude.{◌≡◌, ◌&&◌, ◌==◌, find};
ghost use Rattle.rv_fill.specs.Filled.{table_of, address_in, sum_in, goal_in, is_upper, is_upper_at, course_to, course_of_upper, course_of};

use mach_records::{FinalizedRelocTarget, MachReloc};
use rv_base::{ExternalName, Reloc};

fn address_in(table: &[(ExternalName, u64)], name: ExternalName) -> Option<u64>
    ensures { result ≡ address_in (table_of table.now) name.number }
{
    for (other, address) in table {
        if other.number == name.number {
            return Some(*address);
        }
    }
    None
}

fn sum_in(symbols: &[(ExternalName, u64)], name: ExternalName, addend: i64) -> Option<u64>
    ensures { result ≡ sum_in (table_of symbols.now) name.number addend }
{
    let address = address_in(symbols, name)?;
    Some(address.wrapping_add(addend.cast_unsigned()))
}

/// Where a relocation of a name leads.
pub(crate) fn goal_in(
    symbols: &[(ExternalName, u64)],
    slots: &[(ExternalName, u64)],
    kind: Reloc,
    name: ExternalName,
    addend: i64,
) -> Option<u64>
    ensures { result ≡ goal_in (table_of symbols.now) (table_of slots.now) kind name.number addend }
{
    match kind {
        Reloc::RiscvGotHi20 => address_in(slots, name),
        Reloc::RiscvCallPlt | Reloc::RiscvPCRelHi20 | Reloc::RiscvPCRelLo12I | Reloc::Abs8 =>
            sum_in(symbols, name, addend),
    }
}

fn is_upper(kind: Reloc) -> bool
    ensures { result ≡ is_upper kind }
{
    match kind {
        Reloc::RiscvGotHi20 | Reloc::RiscvPCRelHi20 => true,
        Reloc::RiscvCallPlt | Reloc::RiscvPCRelLo12I | Reloc::Abs8 => false,
    }
}

/// Returns whether an upper part stands at this offset.
pub(crate) fn is_upper_at(at: u32, reloc: &MachReloc) -> bool
    ensures { result ≡ is_upper_at at reloc.now }
{
    is_upper(reloc.kind) && reloc.offset == at
}

fn course_to(
    symbols: &[(ExternalName, u64)],
    slots: &[(ExternalName, u64)],
    reloc: &MachReloc,
) -> Option<(u32, u64)>
    ensures { result ≡ course_to (table_of symbols.now) (table_of slots.now) reloc.now reloc.now.target }
{
    match reloc.target {
        FinalizedRelocTarget::ExternalName(name) => {
            let to = goal_in(symbols, slots, reloc.kind, name, reloc.addend)?;
            Some((reloc.offset, to))
        }
        FinalizedRelocTarget::Func(_) => None,
    }
}

/// The upper part that stands at this offset.
fn upper_at(relocs: &[MachReloc], at: u32) -> Option<MachReloc>
    ensures { result ≡ find (is_upper_at at) relocs.now }
{
    for upper in relocs {
        if is_upper_at(at, upper) {
            return Some(*upper);
        }
    }
    None
}

/// The offset from which a relocation's distance counts, and the address that it leads to.
pub(crate) fn course_of(
    relocs: &[MachReloc],
    symbols: &[(ExternalName, u64)],
    slots: &[(ExternalName, u64)],
    reloc: &MachReloc,
) -> Option<(u32, u64)>
    ensures { result ≡ course_of relocs.now (table_of symbols.now) (table_of slots.now) reloc.now }
{
    match reloc.target {
        FinalizedRelocTarget::ExternalName(_) => course_to(symbols, slots, reloc),
        FinalizedRelocTarget::Func(at) => match upper_at(relocs, at) {
            Some(upper) => course_to(symbols, slots, &upper),
            None => None,
        },
    }
}
