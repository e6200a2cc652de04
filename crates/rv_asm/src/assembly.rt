//! From lines to the code that runs as they say.

ghost use Rattle.std.specs.Prelude.{◌≡◌, false, None, IfOk};
ghost use Rattle.rv_listing.specs.CodeRanges.{CodeFits};
ghost use Rattle.rv_asm.specs.Job.{job_of};
ghost use Rattle.rv_asm.specs.Refusal.{has_bad_frame, lines_refusal, refusal, Finds};
ghost use Rattle.rv_asm.specs.Reported.{Reported};
ghost use Rattle.rv_asm.specs.Simulation.{RunsAsListed, HasOperations};
ghost use Rattle.rv_asm.specs.FullSimulation.{FullRuns, HasFullOperations};
ghost use Rattle.rv_asm.specs.FinishedCode.{IsFinished};

use crate::frame::copy_of;
use crate::lines::put_line;
use crate::refusal::refuse;
use crate::returns::add_return;
use mach_buffer::MachBuffer;
use rv_base::{Constant, FrameLayout, IsaFlags, List, OutOfMemory};
use rv_emit::{EmitInfo, EmitState, MachInstEmitState};
use rv_inst::{Code, Context, EmitError, LabelUse, Line};
use std::alloc::Global;

/// The code of a listing, for a machine with these flags, in this frame and with these constants. It runs as its lines say. With `has_zca`
/// an instruction that has a form of sixteen bits is put in it.
pub fn assemble(
    alloc: Global,
    lines: &[Line],
    flags: IsaFlags,
    frame: &FrameLayout,
    constants: &[Constant],
) -> Result<Code, EmitError>
    ensures reported { IfOk result (λ code. Reported (job_of lines.now flags frame.now constants.now) code) }
    ensures runs { IfOk result (λ code. RunsAsListed (job_of lines.now flags frame.now constants.now) code) }
    ensures full_runs { IfOk result (λ code. FullRuns (job_of lines.now flags frame.now constants.now) code) }
    ensures operations { IfOk result (λ code. HasOperations (job_of lines.now flags frame.now constants.now) code) }
    ensures full_operations { IfOk result (λ code. HasFullOperations (job_of lines.now flags frame.now constants.now) code) }
    ensures ranges { IfOk result CodeFits }
    ensures refused { Finds (refusal (job_of lines.now flags frame.now constants.now)) result }
{
    check_lines(alloc, lines, flags, frame, constants)?;
    match assemble_checked(alloc, lines, flags, frame, constants) {
        Ok(code) => Ok(code),
        Err(OutOfMemory) => Err(EmitError::OutOfMemory),
    }
}

/// Refuses a listing for its first cause, where it has one: the first half of `assemble`, for who lets go of something before the second.
pub fn check_lines(
    alloc: Global,
    lines: &[Line],
    flags: IsaFlags,
    frame: &FrameLayout,
    constants: &[Constant],
) -> Result<(), EmitError>
    ensures { Finds (refusal (job_of lines.now flags frame.now constants.now)) result }
{
    let context = Context {
        flags,
        frame,
        constants,
    };
    refuse(alloc, lines, &context)
}

/// The code of a listing that isn't refused: the second half of `assemble`.
pub fn assemble_checked(
    alloc: Global,
    lines: &[Line],
    flags: IsaFlags,
    frame: &FrameLayout,
    constants: &[Constant],
) -> Result<Code, OutOfMemory>
    requires accepted { refusal (job_of lines.now flags frame.now constants.now) ≡ None }
    ensures reported { IfOk result (λ code. Reported (job_of lines.now flags frame.now constants.now) code) }
    ensures runs { IfOk result (λ code. RunsAsListed (job_of lines.now flags frame.now constants.now) code) }
    ensures full_runs { IfOk result (λ code. FullRuns (job_of lines.now flags frame.now constants.now) code) }
    ensures operations { IfOk result (λ code. HasOperations (job_of lines.now flags frame.now constants.now) code) }
    ensures full_operations { IfOk result (λ code. HasFullOperations (job_of lines.now flags frame.now constants.now) code) }
    ensures ranges { IfOk result CodeFits }
{
    let context = Context {
        flags,
        frame,
        constants,
    };
    build(alloc, lines, &context)
}

/// The code of lines that aren't refused.
fn build(alloc: Global, lines: &[Line], context: &Context<'_>) -> Result<Code, OutOfMemory>
    requires frame { has_bad_frame context.now.frame lines.now ≡ false }
    requires accepted { lines_refusal context.now lines.now ≡ None }
    ensures { IfOk result (IsFinished context.now lines.now) }
{
    let info = EmitInfo::new(context.flags);
    let mut state = EmitState::new(copy_of(alloc, context.frame)?);
    let mut sink = MachBuffer::<LabelUse>::new(alloc);
    sink.register_constants(context.constants)?;
    let mut spans = Vec::with_capacity(alloc, lines.len())?;
    let mut returns = Vec::new(alloc);
    for (index, line) in lines.iter().enumerate() {
        let span = put_line(alloc, &mut sink, &info, &mut state, index, line)?;
        spans.push(span)?;
        add_return(&mut returns, context.flags, span, line)?;
    }
    let end = sink.cur_offset();
    let finished = sink.finish(context.constants)?;
    Ok(Code {
        bytes: finished.bytes,
        lines: List::from_vec(spans),
        returns: List::from_vec(returns),
        labels: finished.labels,
        constants: finished.constants,
        relocs: finished.relocs,
        traps: finished.traps,
        call_sites: finished.call_sites,
        try_call_sites: finished.try_call_sites,
        patchable_call_sites: finished.patchable_call_sites,
        stack_maps: finished.stack_maps,
        unwinds: finished.unwinds,
        end,
    })
}
