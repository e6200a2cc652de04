//! What is handed to a visitor, one register at a time. The register that it gives is kept only where it isn't out of memory.

ghost use Rattle.std.specs.Prelude.{◌≡◌};
ghost use Rattle.rv_base.specs.Regs.{class_of};
ghost use Rattle.rv_base.specs.declared.constraint.Constraint.TheVariants.{RegUse, RegLateUse, RegFixedUse, RegDef, RegEarlyDef, RegFixedDef, AnyDef, RegClobbers};
ghost use Rattle.rv_operands.specs.Visits.{IsHandedOver};

use rv_base::{OperandVisitor, OutOfMemory, PRegSet, Reg, WritableReg};

/// A register that is read as the instruction begins.
pub fn reads<V: OperandVisitor>(r: &mut Reg, collector: &mut V) -> Result<(), OutOfMemory>
    ensures handed { IsHandedOver V.recorded V.given result collector.old collector.new (RegUse r.old) (RegUse r.new) }
    ensures class { class_of r.new ≡ class_of r.old }
{
    let mut given = *r;
    collector.reg_use(&mut given)?;
    *r = given;
    Ok(())
}

/// A register that is read until the instruction ends.
pub fn reads_late<V: OperandVisitor>(r: &mut Reg, collector: &mut V) -> Result<(), OutOfMemory>
    ensures handed { IsHandedOver V.recorded V.given result collector.old collector.new (RegLateUse r.old) (RegLateUse r.new) }
    ensures class { class_of r.new ≡ class_of r.old }
{
    let mut given = *r;
    collector.reg_late_use(&mut given)?;
    *r = given;
    Ok(())
}

/// A register that is read, and has to be `fixed`.
pub fn reads_in<V: OperandVisitor>(
    r: &mut Reg,
    fixed: Reg,
    collector: &mut V,
) -> Result<(), OutOfMemory>
    ensures handed { IsHandedOver V.recorded V.given result collector.old collector.new (RegFixedUse r.old fixed) (RegFixedUse r.new fixed) }
    ensures class { class_of r.new ≡ class_of r.old }
{
    let mut given = *r;
    collector.reg_fixed_use(&mut given, fixed)?;
    *r = given;
    Ok(())
}

/// A register that is written as the instruction ends.
pub fn writes<V: OperandVisitor>(w: &mut WritableReg, collector: &mut V) -> Result<(), OutOfMemory>
    ensures handed { IsHandedOver V.recorded V.given result collector.old collector.new (RegDef w.old) (RegDef w.new) }
    ensures class { class_of w.new.reg ≡ class_of w.old.reg }
{
    let mut given = *w;
    collector.reg_def(&mut given)?;
    *w = given;
    Ok(())
}

/// A register that is written before all others are read.
pub fn writes_early<V: OperandVisitor>(
    w: &mut WritableReg,
    collector: &mut V,
) -> Result<(), OutOfMemory>
    ensures handed { IsHandedOver V.recorded V.given result collector.old collector.new (RegEarlyDef w.old) (RegEarlyDef w.new) }
    ensures class { class_of w.new.reg ≡ class_of w.old.reg }
{
    let mut given = *w;
    collector.reg_early_def(&mut given)?;
    *w = given;
    Ok(())
}

/// A register that is written, and has to be `fixed`.
pub fn writes_in<V: OperandVisitor>(
    w: &mut WritableReg,
    fixed: Reg,
    collector: &mut V,
) -> Result<(), OutOfMemory>
    ensures handed { IsHandedOver V.recorded V.given result collector.old collector.new (RegFixedDef w.old fixed) (RegFixedDef w.new fixed) }
    ensures class { class_of w.new.reg ≡ class_of w.old.reg }
{
    let mut given = *w;
    collector.reg_fixed_def(&mut given, fixed)?;
    *w = given;
    Ok(())
}

/// A value that is written to a register or to memory.
pub fn writes_anywhere<V: OperandVisitor>(
    w: &mut WritableReg,
    collector: &mut V,
) -> Result<(), OutOfMemory>
    ensures handed { IsHandedOver V.recorded V.given result collector.old collector.new (AnyDef w.old) (AnyDef w.new) }
    ensures class { class_of w.new.reg ≡ class_of w.old.reg }
{
    let mut given = *w;
    collector.any_def(&mut given)?;
    *w = given;
    Ok(())
}

/// Registers that the instruction overwrites.
pub fn clobbers<V: OperandVisitor>(set: PRegSet, collector: &mut V) -> Result<(), OutOfMemory>
    ensures { IsHandedOver V.recorded V.given result collector.old collector.new (RegClobbers set) (RegClobbers set) }
{
    collector.reg_clobbers(set)
}
