//! Islands: where one is needed, a jump over it, the veneers of all that is pending, and the constants that don't stand yet.

ghost use Rattle.std.specs.Prelude.{◌≡◌, ◌+◌, ◌*◌, ◌<◌, ◌^◌, length, IfOk, OnOk, OnErr, true, false};
ghost use Rattle.rv_base.specs.LabelUse.{code_limit};
ghost use Rattle.mach_uses.specs.Reach.{CanReach};
ghost use Rattle.mach_buffer.specs.Buffer.{shape_of, bytes_of, allocated_of, spoiled_of};
ghost use Rattle.mach_uses.specs.Labels.{inner_count};
ghost use Rattle.mach_buffer.specs.Constants.{reserve_of};
ghost use Rattle.rv_sequences.specs.Emitted.{IsSoundBuffer, pending, AppendsIsland, IslandIfNeeded};
ghost use Rattle.rv_emit.specs.EmitRuns.{IsBuilt, GapLeads};

use mach_buffer::MachBuffer;
use rv_base::OutOfMemory;
use rv_inst::LabelUse;
use rv_sequences::put_wide_jump;

/// Puts an island where one is needed before so many bytes. Returns whether one was put.
pub fn emit_island_if_needed(
    sink: &mut MachBuffer<LabelUse>,
    distance: u32,
) -> Result<bool, OutOfMemory>
    requires sound { IsSoundBuffer sink.old }
    requires reach { CanReach (length (bytes_of sink.old)) (pending sink.old) }
    requires few { allocated_of sink.old < inner_count }
    requires room { length (bytes_of sink.old) + reserve_of (shape_of sink.old) + 8 * length (pending sink.old) + 32 < code_limit }
    ensures made { IfOk result (λ made. IslandIfNeeded distance sink.old sink.new made) }
    ensures promised { OnOk result (IsBuilt sink.old → GapLeads sink.old sink.new) }
    ensures refused { OnErr result (spoiled_of sink.new ≡ true) }
{
    if !sink.island_needed(distance) {
        return Ok(false);
    }
    put_island(sink)?;
    Ok(true)
}

/// Puts an island.
#[inline(never)]
fn put_island(sink: &mut MachBuffer<LabelUse>) -> Result<(), OutOfMemory>
    requires sound { IsSoundBuffer sink.old }
    requires reach { CanReach (length (bytes_of sink.old)) (pending sink.old) }
    requires few { allocated_of sink.old < inner_count }
    requires room { length (bytes_of sink.old) + reserve_of (shape_of sink.old) + 8 * length (pending sink.old) + 32 < code_limit }
    ensures island { OnOk result (AppendsIsland sink.old sink.new) }
    ensures unspoiled { OnOk result (spoiled_of sink.old ≡ false) }
    ensures refused { OnErr result (spoiled_of sink.new ≡ true) }
{
    let after_island = sink.get_label()?;
    put_wide_jump(sink, after_island)?;
    sink.emit_island(after_island)?;
    Ok(())
}
