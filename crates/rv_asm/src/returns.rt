//! Where calls return.

ghost use Rattle.std.specs.Prelude.{◌≡◌, ◌++◌, OnOk};
ghost use Rattle.rv_inst.specs.declared.inst.Line.TheVariants.{Inst as Put};
ghost use Rattle.rv_asm.specs.Reported.{line_returns};
ghost use Rattle.rv_asm.specs.LinesInBuffer.{ReturnsWithin};

use rv_base::{IsaFlags, OutOfMemory};
use rv_inst::{CallReturn, Inst, Line, LineSpan};

/// Adds where the call of a line returns, where it is one.
pub fn add_return(
    returns: &mut Vec<CallReturn>,
    flags: IsaFlags,
    span: LineSpan,
    line: &Line,
) -> Result<(), OutOfMemory>
    requires { ReturnsWithin flags line.now span }
    ensures { OnOk result (returns.new.items ≡ returns.old.items ++ line_returns flags span.index span.start line.now) }
{
    match line {
        Line::Inst(inst) => add_inst_return(returns, flags, span, inst),
        Line::Bind(_) => Ok(()),
    }
}

/// Adds where an instruction returns, where it is a call.
fn add_inst_return(
    returns: &mut Vec<CallReturn>,
    flags: IsaFlags,
    span: LineSpan,
    inst: &Inst,
) -> Result<(), OutOfMemory>
    requires { ReturnsWithin flags (Put inst.now) span }
    ensures { OnOk result (returns.new.items ≡ returns.old.items ++ line_returns flags span.index span.start (Put inst.now)) }
{
    match inst.return_offset(flags) {
        Some(offset) => {
            returns.push(CallReturn {
                index: span.index,
                offset: span.start + offset,
            })?;
            Ok(())
        }
        None => Ok(()),
    }
}
