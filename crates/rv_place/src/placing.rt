//! The image of code, placed.

ghost use Rattle.std.specs.Prelude.{◌≡◌, ℕ, ◌<◌, length, slice_index, IfOk, IfErr};
ghost use Rattle.rv_inst.specs.declared.job.Job.{Job};
ghost use Rattle.rv_fill.specs.Filled.{table_of, IsFilled};
ghost use Rattle.rv_fill.specs.Refusal.{refusal, Finds};
ghost use Rattle.rv_asm.specs.Reported.{Reported};
ghost use Rattle.rv_asm.specs.Simulation.{RunsAsListed};
ghost use Rattle.rv_asm.specs.FullSimulation.{FullRuns};
ghost use Rattle.rv_place.specs.Images.{PlacesIn, RunsIn, RunsFullyIn, IsOfPlace};

use rv_base::{ExternalName, List};
use rv_fill::{PlaceError, fill};
use rv_inst::Code;
use std::alloc::Global;

/// The bytes of code with its relocations filled, for the address at which they are to stand.
#[derive(Drop)]
pub struct Image {
    pub base: u64,
    pub bytes: List<u8>,
}

/// The image of code at a base, for these addresses of symbols and of the slots that hold such addresses. Of a name that stands twice
/// in a list the first counts. The code of a listing runs as its lines say in every memory in which the image's bytes stand from the
/// base on.
pub fn place(
    alloc: Global,
    code: &Code,
    base: u64,
    syms: &[(ExternalName, u64)],
    slots: &[(ExternalName, u64)],
) -> Result<Image, PlaceError>
    ensures based { IfOk result (λ image. image.base ≡ base) }
    ensures filled { IfOk result (λ image. IsFilled code.now.bytes code.now.relocs base (table_of syms.now) (table_of slots.now) image.bytes) }
    ensures placed { IfOk result (λ image. PlacesIn code.now base (table_of syms.now) (table_of slots.now) image.bytes) }
    ensures runs { (job : Job) → RunsAsListed job code.now → IfOk result (λ image. RunsIn job code.now base (table_of syms.now) (table_of slots.now) image.bytes) }
    ensures full_runs { (job : Job) → FullRuns job code.now → IfOk result (λ image. RunsFullyIn job code.now base (table_of syms.now) (table_of slots.now) image.bytes) }
    ensures refused { Finds (refusal (length code.now.bytes) code.now.relocs base (table_of syms.now) (table_of slots.now)) result }
    ensures sound { (job : Job) → Reported job code.now → IfErr result IsOfPlace }
{
    bytes_fit(code.bytes.as_slice());
    match filled(alloc, code, base, syms, slots) {
        Ok(bytes) => Ok(Image { base, bytes }),
        Err(error) => Err(error),
    }
}

fn filled(
    alloc: Global,
    code: &Code,
    base: u64,
    syms: &[(ExternalName, u64)],
    slots: &[(ExternalName, u64)],
) -> Result<List<u8>, PlaceError>
    ensures filled { IfOk result (IsFilled code.now.bytes code.now.relocs base (table_of syms.now) (table_of slots.now)) }
    ensures refused { Finds (refusal (length code.now.bytes) code.now.relocs base (table_of syms.now) (table_of slots.now)) result }
    ensures bytes { IfOk result (λ bytes. (k : ℕ) → slice_index bytes k < 256) }
{
    let bytes = fill(
        alloc,
        code.bytes.as_slice(),
        code.relocs.as_slice(),
        base,
        syms,
        slots,
    )?;
    bytes_fit(bytes.as_slice());
    Ok(bytes)
}

/// Bytes are below 256: what the proof needs, and nothing when it runs.
fn bytes_fit(bytes: &[u8])
    ensures { (k : ℕ) → slice_index bytes.now k < 256 }
{}
