//! The image of code at a base.

ghost use Rattle.std.specs.Prelude.{◌≡◌, ◌+◌, ◌≤◌, length, None, IfOk};
ghost use Rattle.rv_inst.specs.Relocations.{field_size};
ghost use Rattle.rv_fill.specs.Filled.{table_of, IsFilled};
ghost use Rattle.rv_fill.specs.Refusal.{refusal, Finds};
ghost use Rattle.rv_fill.specs.Steps.{put_field, put_fields};

use crate::addresses::course_of;
use crate::error::PlaceError;
use crate::fields::{field_size, fill_field};
use crate::refusal::refuse;
use mach_records::MachReloc;
use rv_base::{ExternalName, List, OutOfMemory};
use std::alloc::Global;

/// Fills the field of one relocation.
#[tactic(auto, unfolding(crate::specs::Steps::put_field))]
fn put_field(
    image: &mut [u8],
    relocs: &[MachReloc],
    base: u64,
    symbols: &[(ExternalName, u64)],
    slots: &[(ExternalName, u64)],
    reloc: &MachReloc,
)
    requires { reloc.now.offset + field_size reloc.now.kind ≤ length image.old }
    ensures { image.new ≡ put_field relocs.now base (table_of symbols.now) (table_of slots.now) reloc.now image.old }
{
    let Some((from, to)) = course_of(relocs, symbols, slots, reloc) else {
        return;
    };
    let start = reloc.offset as usize;
    let end = start + field_size(reloc.kind) as usize;
    fill_field(
        &mut image[start..end],
        reloc.kind,
        base.wrapping_add(u64::from(from)),
        to,
    );
}

/// Fills the fields of all relocations.
fn put_fields(
    image: &mut [u8],
    relocs: &[MachReloc],
    base: u64,
    symbols: &[(ExternalName, u64)],
    slots: &[(ExternalName, u64)],
)
    requires { refusal (length image.old) relocs.now base (table_of symbols.now) (table_of slots.now) ≡ None }
    ensures { image.new ≡ put_fields relocs.now base (table_of symbols.now) (table_of slots.now) relocs.now image.old }
{
    for reloc in relocs {
        put_field(image, relocs, base, symbols, slots, reloc);
    }
}

fn image_of(
    alloc: Global,
    bytes: &[u8],
    relocs: &[MachReloc],
    base: u64,
    symbols: &[(ExternalName, u64)],
    slots: &[(ExternalName, u64)],
) -> Result<List<u8>, OutOfMemory>
    requires { refusal (length bytes.now) relocs.now base (table_of symbols.now) (table_of slots.now) ≡ None }
    ensures { IfOk result (IsFilled bytes.now relocs.now base (table_of symbols.now) (table_of slots.now)) }
{
    let mut image = Vec::from_slice(alloc, bytes)?;
    put_fields(&mut image, relocs, base, symbols, slots);
    Ok(List::from_vec(image))
}

/// The bytes that code with these relocations has where it stands at a base: those of the code, with the field of each relocation
/// filled, by the addresses of symbols and of the slots that hold such addresses. Of a name that stands twice the first counts.
pub fn fill(
    alloc: Global,
    bytes: &[u8],
    relocs: &[MachReloc],
    base: u64,
    symbols: &[(ExternalName, u64)],
    slots: &[(ExternalName, u64)],
) -> Result<List<u8>, PlaceError>
    ensures filled { IfOk result (IsFilled bytes.now relocs.now base (table_of symbols.now) (table_of slots.now)) }
    ensures refused { Finds (refusal (length bytes.now) relocs.now base (table_of symbols.now) (table_of slots.now)) result }
{
    refuse(bytes.len(), relocs, base, symbols, slots)?;
    Ok(image_of(alloc, bytes, relocs, base, symbols, slots)?)
}
