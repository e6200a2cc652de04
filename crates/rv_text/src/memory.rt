//! The texts of loads, stores, addresses and probes of the stack.

ghost use Rattle.std.specs.Prelude.{◌≡◌, ◌++◌, OnOk, string_bytes, codes};
ghost use Rattle.std.specs.Fmt.{decimal};
ghost use Rattle.rv_base.specs.AMode.{text_of as amode_text};
ghost use Rattle.rv_base.specs.RegNames.{name_of};
ghost use Rattle.rv_inst.specs.Operands.{family_of};
ghost use Rattle.rv_inst.specs.declared.inst.Family.TheVariants.{Memory};
ghost use Rattle.rv_text.specs.Operands.{two, label_text};
ghost use Rattle.rv_text.specs.Texts.{text_of};

use crate::atomics::{put_fence, put_typed_access};
use rv_base::{AMode, MachLabel, OutOfMemory, Reg};
use rv_inst::Inst;
use std::fmt::Write;

fn put_access(out: &mut String, name: &str, reg: Reg, mem: AMode) -> Result<(), OutOfMemory>
    ensures { OnOk result (string_bytes out.new ≡ string_bytes out.old ++ two name.now (name_of reg) (amode_text mem)) }
{
    write!(out, "{name} {reg},{mem}")?;
    Ok(())
}

fn put_label_address(out: &mut String, dst: Reg, label: MachLabel) -> Result<(), OutOfMemory>
    ensures { OnOk result (string_bytes out.new ≡ string_bytes out.old ++ codes "label_address " ++ name_of dst ++ codes ", " ++ label_text label) }
{
    write!(out, "label_address {dst}, {label:?}")?;
    Ok(())
}

fn put_probe(
    out: &mut String,
    guard_size: u32,
    probe_count: u32,
    tmp: Reg,
) -> Result<(), OutOfMemory>
    ensures { OnOk result (string_bytes out.new ≡ string_bytes out.old ++ codes "inline_stack_probe##guard_size=" ++ decimal guard_size ++ codes " probe_count=" ++ decimal probe_count ++ codes " tmp=" ++ name_of tmp) }
{
    write!(
        out,
        "inline_stack_probe##guard_size={guard_size} probe_count={probe_count} tmp={tmp}"
    )?;
    Ok(())
}

/// Appends the text of an instruction of this family; of others nothing.
pub(crate) fn put_memory(out: &mut String, inst: &Inst) -> Result<(), OutOfMemory>
    ensures { family_of inst.now ≡ Memory → OnOk result (string_bytes out.new ≡ string_bytes out.old ++ text_of inst.now) }
{
    match inst {
        Inst::Load {
            rd,
            op,
            flags: _,
            from,
        } => put_access(out, op.op_name(), rd.reg, *from),
        Inst::Store {
            src,
            op,
            flags: _,
            to,
        } => put_access(out, op.op_name(), *src, *to),
        Inst::LoadAddr { rd, mem } => put_access(out, "load_addr", rd.reg, *mem),
        Inst::LabelAddress { dst, label } => put_label_address(out, dst.reg, *label),
        Inst::StackProbeLoop {
            guard_size,
            probe_count,
            tmp,
        } => put_probe(out, *guard_size, *probe_count, tmp.reg),
        Inst::Fence { pred, succ } => put_fence(out, *pred, *succ),
        Inst::AtomicLoad { rd, ty, p } => put_typed_access(out, "atomic_load.", *ty, rd.reg, *p),
        Inst::AtomicStore { src, ty, p } => put_typed_access(out, "atomic_store.", *ty, *src, *p),
        _ => Ok(()),
    }
}
