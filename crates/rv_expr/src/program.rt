//! From a program to its code.

ghost use Rattle.std.specs.Prelude.{◌≡◌, [], IfOk};
ghost use Rattle.rv_asm.specs.FineLines.{IsOutOfMemory};
ghost use Rattle.rv_expr.specs.Refusal.{refusal, Finds};
ghost use Rattle.rv_expr.specs.Running.{Computes};

use crate::check::refuse;
use crate::error::ExprError;
use crate::lines::lines_of;
use crate::ops::ExprOp;
use rv_asm::assemble;
use rv_base::{FrameLayout, IsaFlags};
use rv_inst::{Code, EmitError};
use std::alloc::Global;

/// The code of a program, for a machine with these flags: called with the arguments in a0 to a7, it returns with the value of the last
/// operation in a0. Below the stack pointer it writes eight bytes for each operation, to a multiple of 16. Nothing of it is left to a linker.
pub fn compile(alloc: Global, flags: IsaFlags, ops: &[ExprOp]) -> Result<Code, ExprError>
    ensures computes { IfOk result (λ code. Computes flags ops.now code) }
    ensures whole { IfOk result (λ code. code.relocs ≡ []) }
    ensures refused { Finds (refusal ops.now) result }
{
    if let Some(error) = refuse(ops) {
        return Err(error);
    }
    let lines = lines_of(alloc, ops)?;
    let frame = FrameLayout::none(alloc);
    match assemble(alloc, &lines, flags, &frame, &[]) {
        Ok(code) => Ok(code),
        Err(error) => Err(no_memory(error)),
    }
}

/// The one error that a valid listing may give.
fn no_memory(error: EmitError) -> ExprError
    requires { IsOutOfMemory error }
    ensures { result ≡ ExprError.OutOfMemory }
{
    match error {
        EmitError::OutOfMemory => ExprError::OutOfMemory,
        EmitError::BadFrame => unreachable!(),
        EmitError::Malformed { index: _, rule: _ } => unreachable!(),
        EmitError::LabelTwice { label: _ } => unreachable!(),
        EmitError::UnboundLabel { label: _ } => unreachable!(),
        EmitError::TooLarge => unreachable!(),
    }
}
