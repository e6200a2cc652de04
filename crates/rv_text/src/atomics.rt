//! The texts of fences, and of atomic operations, loads and stores.

ghost use Rattle.std.specs.Prelude.{◌≡◌, ◌++◌, OnOk, string_bytes, codes};
ghost use Rattle.rv_inst.specs.Fences.{accesses_text};
ghost use Rattle.rv_text.specs.Texts.{atomic_text, typed_access_text};

use rv_base::{IrType, OutOfMemory, Reg};
use rv_inst::put_accesses;
use rv_ops::{AMO, AtomicOP};
use std::fmt::Write;

pub(crate) fn put_fence(out: &mut String, pred: u8, succ: u8) -> Result<(), OutOfMemory>
    ensures { OnOk result (string_bytes out.new ≡ string_bytes out.old ++ codes "fence " ++ accesses_text pred ++ codes "," ++ accesses_text succ) }
{
    write!(out, "fence ")?;
    put_accesses(out, pred)?;
    write!(out, ",")?;
    put_accesses(out, succ)?;
    Ok(())
}

pub(crate) fn put_typed_access(
    out: &mut String,
    name: &str,
    ty: IrType,
    reg: Reg,
    p: Reg,
) -> Result<(), OutOfMemory>
    ensures { OnOk result (string_bytes out.new ≡ string_bytes out.old ++ typed_access_text name.now ty reg p) }
{
    write!(out, "{name}{ty} {reg},({p})")?;
    Ok(())
}

/// A load-reserved has no source.
pub(crate) fn put_atomic(
    out: &mut String,
    op: AtomicOP,
    amo: AMO,
    rd: Reg,
    addr: Reg,
    src: Reg,
) -> Result<(), OutOfMemory>
    ensures { OnOk result (string_bytes out.new ≡ string_bytes out.old ++ atomic_text op amo rd addr src) }
{
    let name = op.name();
    let suffix = amo.to_static_str();
    if op.is_load() {
        write!(out, "{name}{suffix} {rd},({addr})")?;
    } else {
        write!(out, "{name}{suffix} {rd},{src},({addr})")?;
    }
    Ok(())
}
