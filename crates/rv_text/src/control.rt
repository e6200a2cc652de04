//! The texts of instructions that go elsewhere.

ghost use Rattle.std.specs.Prelude.{◌≡◌, ◌++◌, ◌-◌, OnOk, Some, length, slice_get, string_bytes, codes};
ghost use Rattle.std.specs.List.{flat_map};
ghost use Rattle.std.specs.Fmt.{decimal, signed_decimal};
ghost use Rattle.rv_base.specs.RegNames.{name_of};
ghost use Rattle.rv_base.specs.Trap.{name_of as trap_name};
ghost use Rattle.rv_ops.specs.Compare.{branch_name};
ghost use Rattle.rv_inst.specs.Operands.{family_of};
ghost use Rattle.rv_inst.specs.declared.inst.Family.TheVariants.{Control};
ghost use Rattle.rv_text.specs.Operands.{two, three, compare_text, table_label, table_up_to, table_text};
ghost use Rattle.rv_text.specs.Texts.{text_of, both_text, sides_text};

use crate::operands::{put, put_compare, put_two};
use rv_base::{MachLabel, OutOfMemory, Reg, TrapCode};
use rv_inst::{CondBrTarget, Inst};
use rv_ops::IntegerCompare;
use std::fmt::Write;

fn put_trap_if(
    out: &mut String,
    compare: &IntegerCompare,
    code: TrapCode,
) -> Result<(), OutOfMemory>
    ensures { OnOk result (string_bytes out.new ≡ string_bytes out.old ++ codes "trap_if " ++ trap_name code ++ codes "##" ++ compare_text compare.now) }
{
    write!(out, "trap_if {code}##")?;
    put_compare(out, compare)
}

fn put_jump(out: &mut String, label: MachLabel) -> Result<(), OutOfMemory>
    ensures { OnOk result (string_bytes out.new ≡ string_bytes out.old ++ codes "j label" ++ decimal label.number) }
{
    write!(out, "j {label}")?;
    Ok(())
}

fn put_both(
    out: &mut String,
    taken: CondBrTarget,
    not_taken: CondBrTarget,
) -> Result<(), OutOfMemory>
    ensures { OnOk result (string_bytes out.new ≡ string_bytes out.old ++ both_text taken not_taken) }
{
    write!(out, "taken({taken}),not_taken({not_taken})")?;
    Ok(())
}

fn put_sides(
    out: &mut String,
    taken: CondBrTarget,
    not_taken: CondBrTarget,
) -> Result<(), OutOfMemory>
    ensures { OnOk result (string_bytes out.new ≡ string_bytes out.old ++ sides_text taken not_taken) }
{
    match (taken, not_taken) {
        (CondBrTarget::Fallthrough, CondBrTarget::Fallthrough) => put(out, "0"),
        (CondBrTarget::Label(_), _) | (CondBrTarget::Fallthrough, CondBrTarget::Label(_)) => {
            put_both(out, taken, not_taken)
        }
    }
}

fn put_branch(
    out: &mut String,
    kind: &IntegerCompare,
    taken: CondBrTarget,
    not_taken: CondBrTarget,
) -> Result<(), OutOfMemory>
    ensures { OnOk result (string_bytes out.new ≡ string_bytes out.old ++ three (branch_name kind.now.kind) (name_of kind.now.rs1) (name_of kind.now.rs2) (sides_text taken not_taken)) }
{
    put_two(out, kind.op_name(), kind.rs1, kind.rs2)?;
    put(out, ",")?;
    put_sides(out, taken, not_taken)
}

// A label of a table, with a comma after it unless it is the same as the last.
fn put_label(out: &mut String, label: MachLabel, last: MachLabel) -> Result<(), OutOfMemory>
    ensures { OnOk result (string_bytes out.new ≡ string_bytes out.old ++ table_label last.number label) }
{
    if label.number == last.number {
        write!(out, "{label:?}")?
    } else {
        write!(out, "{label:?},")?
    }
    Ok(())
}

fn put_labels(out: &mut String, labels: &[MachLabel], last: MachLabel) -> Result<(), OutOfMemory>
    ensures { OnOk result (string_bytes out.new ≡ string_bytes out.old ++ flat_map (table_label last.number) labels.now) }
{
    for label in labels {
        put_label(out, *label, last)?;
    }
    Ok(())
}

fn last_of(labels: &[MachLabel]) -> Option<MachLabel>
    ensures { result ≡ slice_get labels.now (length labels.now - 1) }
{
    labels.last().copied()
}

fn put_listed(out: &mut String, labels: &[MachLabel], last: MachLabel) -> Result<(), OutOfMemory>
    ensures { OnOk result (string_bytes out.new ≡ string_bytes out.old ++ table_up_to (Some last) labels.now) }
{
    put(out, "[")?;
    put_labels(out, labels, last)?;
    put(out, "]")?;
    Ok(())
}

fn put_targets(out: &mut String, targets: &[MachLabel]) -> Result<(), OutOfMemory>
    ensures { OnOk result (string_bytes out.new ≡ string_bytes out.old ++ table_text targets.now) }
{
    match last_of(targets) {
        None => put(out, "[_]"),
        Some(last) => put_listed(out, targets, last),
    }
}

fn put_table(
    out: &mut String,
    index: Reg,
    tmp1: Reg,
    tmp2: Reg,
    targets: &[MachLabel],
) -> Result<(), OutOfMemory>
    ensures { OnOk result (string_bytes out.new ≡ string_bytes out.old ++ two (codes "br_table") (name_of index) (table_text targets.now) ++ codes "##tmp1=" ++ name_of tmp1 ++ codes ",tmp2=" ++ name_of tmp2) }
{
    write!(out, "br_table {index},")?;
    put_targets(out, targets)?;
    write!(out, "##tmp1={tmp1},tmp2={tmp2}")?;
    Ok(())
}

fn put_undefined(out: &mut String, code: TrapCode) -> Result<(), OutOfMemory>
    ensures { OnOk result (string_bytes out.new ≡ string_bytes out.old ++ codes "udf##trap_code=" ++ trap_name code) }
{
    write!(out, "udf##trap_code={code}")?;
    Ok(())
}

fn put_jalr(out: &mut String, rd: Reg, base: Reg, offset: i16) -> Result<(), OutOfMemory>
    ensures { OnOk result (string_bytes out.new ≡ string_bytes out.old ++ two (codes "jalr") (name_of rd) (signed_decimal offset ++ codes "(" ++ name_of base ++ codes ")")) }
{
    write!(out, "jalr {rd},{offset}({base})")?;
    Ok(())
}

/// Appends the text of an instruction of this family; of others nothing.
pub(crate) fn put_control(out: &mut String, inst: &Inst) -> Result<(), OutOfMemory>
    ensures { family_of inst.now ≡ Control → OnOk result (string_bytes out.new ≡ string_bytes out.old ++ text_of inst.now) }
{
    match inst {
        Inst::Ret => put(out, "ret"),
        Inst::TrapIf { cmp, trap_code } => put_trap_if(out, cmp, *trap_code),
        Inst::Jal { label } => put_jump(out, *label),
        Inst::CondBr {
            taken,
            not_taken,
            kind,
        } => put_branch(out, kind, *taken, *not_taken),
        Inst::BrTable {
            index,
            tmp1,
            tmp2,
            targets,
        } => put_table(out, *index, tmp1.reg, tmp2.reg, targets.as_ref().as_slice()),
        Inst::Udf { trap_code } => put_undefined(out, *trap_code),
        Inst::Jalr { rd, base, offset } => put_jalr(out, rd.reg, *base, offset.as_i16()),
        _ => Ok(()),
    }
}
