//! Registers of several places, which are handed over one after the other.

ghost use Rattle.std.specs.Prelude.{◌≡◌, [], ◌∷◌, ◌++◌, map, option_map};
ghost use Rattle.rv_base.specs.Regs.{class_of};
ghost use Rattle.rv_base.specs.declared.constraint.Constraint.TheVariants.{RegUse, RegLateUse, RegDef, RegEarlyDef};
ghost use Rattle.rv_operands.specs.Visits.{AreHandedOver};
ghost use Rattle.rv_operands.specs.Operand.{constraint_of};
ghost use Rattle.rv_operands.specs.Operands.{address_operands, read_operands, written_operands, select_operands, read_request, written_request, early_request, regs_requests, sequence_requests};
ghost use Rattle.rv_operands.specs.Shapes.{address_shape, blank, blanked, blank_regs, compare_shape, read_shape, sequence_shape, written_shape, select_shape};

use crate::visits::{reads, reads_late, writes, writes_early};
use rv_base::{AMode, OperandVisitor, OutOfMemory, Reg, ValueRegs, WritableReg};
use rv_inst::{InstRegs, SelectInfo, Sequence};
use rv_ops::IntegerCompare;

/// One that is read.
pub fn reads_one<V: OperandVisitor>(rs: &mut Reg, collector: &mut V) -> Result<(), OutOfMemory>
    ensures handed { AreHandedOver V.recorded V.given result collector.old collector.new (RegUse rs.old ∷ []) (RegUse rs.new ∷ []) }
    ensures class { class_of rs.new ≡ class_of rs.old }
{
    reads(rs, collector)
}

/// One that is written.
pub fn writes_one<V: OperandVisitor>(
    rd: &mut WritableReg,
    collector: &mut V,
) -> Result<(), OutOfMemory>
    ensures handed { AreHandedOver V.recorded V.given result collector.old collector.new (RegDef rd.old ∷ []) (RegDef rd.new ∷ []) }
    ensures class { class_of rd.new.reg ≡ class_of rd.old.reg }
{
    writes(rd, collector)
}

/// Two that are read.
pub fn reads_two<V: OperandVisitor>(
    rs1: &mut Reg,
    rs2: &mut Reg,
    collector: &mut V,
) -> Result<(), OutOfMemory>
    ensures handed { AreHandedOver V.recorded V.given result collector.old collector.new (RegUse rs1.old ∷ RegUse rs2.old ∷ []) (RegUse rs1.new ∷ RegUse rs2.new ∷ []) }
    ensures class_of_rs1 { class_of rs1.new ≡ class_of rs1.old }
    ensures class_of_rs2 { class_of rs2.new ≡ class_of rs2.old }
{
    reads(rs1, collector)?;
    reads(rs2, collector)
}

/// One that is read, and one that is written.
pub fn reads_and_writes<V: OperandVisitor>(
    rs: &mut Reg,
    rd: &mut WritableReg,
    collector: &mut V,
) -> Result<(), OutOfMemory>
    ensures handed { AreHandedOver V.recorded V.given result collector.old collector.new (RegUse rs.old ∷ RegDef rd.old ∷ []) (RegUse rs.new ∷ RegDef rd.new ∷ []) }
    ensures class_of_rs { class_of rs.new ≡ class_of rs.old }
    ensures class_of_rd { class_of rd.new.reg ≡ class_of rd.old.reg }
{
    reads(rs, collector)?;
    writes(rd, collector)
}

/// Two that are read, and one that is written.
pub fn reads_two_and_writes<V: OperandVisitor>(
    rs1: &mut Reg,
    rs2: &mut Reg,
    rd: &mut WritableReg,
    collector: &mut V,
) -> Result<(), OutOfMemory>
    ensures handed { AreHandedOver V.recorded V.given result collector.old collector.new (RegUse rs1.old ∷ RegUse rs2.old ∷ RegDef rd.old ∷ []) (RegUse rs1.new ∷ RegUse rs2.new ∷ RegDef rd.new ∷ []) }
    ensures class_of_rs1 { class_of rs1.new ≡ class_of rs1.old }
    ensures class_of_rs2 { class_of rs2.new ≡ class_of rs2.old }
    ensures class_of_rd { class_of rd.new.reg ≡ class_of rd.old.reg }
{
    reads(rs1, collector)?;
    reads_and_writes(rs2, rd, collector)
}

/// Two that are written before all are read.
pub fn writes_two_early<V: OperandVisitor>(
    first: &mut WritableReg,
    second: &mut WritableReg,
    collector: &mut V,
) -> Result<(), OutOfMemory>
    ensures handed { AreHandedOver V.recorded V.given result collector.old collector.new (RegEarlyDef first.old ∷ RegEarlyDef second.old ∷ []) (RegEarlyDef first.new ∷ RegEarlyDef second.new ∷ []) }
    ensures class_of_first { class_of first.new.reg ≡ class_of first.old.reg }
    ensures class_of_second { class_of second.new.reg ≡ class_of second.old.reg }
{
    writes_early(first, collector)?;
    writes_early(second, collector)
}

/// One that is read, and two temporaries.
pub fn reads_and_writes_two_early<V: OperandVisitor>(
    rs: &mut Reg,
    first: &mut WritableReg,
    second: &mut WritableReg,
    collector: &mut V,
) -> Result<(), OutOfMemory>
    ensures handed { AreHandedOver V.recorded V.given result collector.old collector.new (RegUse rs.old ∷ RegEarlyDef first.old ∷ RegEarlyDef second.old ∷ []) (RegUse rs.new ∷ RegEarlyDef first.new ∷ RegEarlyDef second.new ∷ []) }
    ensures class_of_rs { class_of rs.new ≡ class_of rs.old }
    ensures class_of_first { class_of first.new.reg ≡ class_of first.old.reg }
    ensures class_of_second { class_of second.new.reg ≡ class_of second.old.reg }
{
    reads(rs, collector)?;
    writes_two_early(first, second, collector)
}

/// The two registers that are compared.
pub fn compares<V: OperandVisitor>(
    compare: &mut IntegerCompare,
    collector: &mut V,
) -> Result<(), OutOfMemory>
    ensures handed { AreHandedOver V.recorded V.given result collector.old collector.new (RegUse compare.old.rs1 ∷ RegUse compare.old.rs2 ∷ []) (RegUse compare.new.rs1 ∷ RegUse compare.new.rs2 ∷ []) }
    ensures same { compare_shape compare.new ≡ compare_shape compare.old }
{
    reads_two(&mut compare.rs1, &mut compare.rs2, collector)
}

/// The register of an address.
fn addresses<V: OperandVisitor>(address: &mut AMode, collector: &mut V) -> Result<(), OutOfMemory>
    ensures handed { AreHandedOver V.recorded V.given result collector.old collector.new (map constraint_of (address_operands address.old)) (map constraint_of (address_operands address.new)) }
    ensures same { address_shape address.new ≡ address_shape address.old }
{
    address.get_operands(collector)
}

/// The register of an address, and one that is read.
pub fn addresses_and_reads<V: OperandVisitor>(
    address: &mut AMode,
    rs: &mut Reg,
    collector: &mut V,
) -> Result<(), OutOfMemory>
    ensures handed { AreHandedOver V.recorded V.given result collector.old collector.new (map constraint_of (address_operands address.old) ++ RegUse rs.old ∷ []) (map constraint_of (address_operands address.new) ++ RegUse rs.new ∷ []) }
    ensures same { address_shape address.new ≡ address_shape address.old }
    ensures class { class_of rs.new ≡ class_of rs.old }
{
    addresses(address, collector)?;
    reads(rs, collector)
}

/// The register of an address, and one that is written.
pub fn addresses_and_writes<V: OperandVisitor>(
    address: &mut AMode,
    rd: &mut WritableReg,
    collector: &mut V,
) -> Result<(), OutOfMemory>
    ensures handed { AreHandedOver V.recorded V.given result collector.old collector.new (map constraint_of (address_operands address.old) ++ RegDef rd.old ∷ []) (map constraint_of (address_operands address.new) ++ RegDef rd.new ∷ []) }
    ensures same { address_shape address.new ≡ address_shape address.old }
    ensures class { class_of rd.new.reg ≡ class_of rd.old.reg }
{
    addresses(address, collector)?;
    writes(rd, collector)
}

/// The register of an address, and one that is written before it is read for the last time.
pub fn addresses_and_writes_early<V: OperandVisitor>(
    address: &mut AMode,
    rd: &mut WritableReg,
    collector: &mut V,
) -> Result<(), OutOfMemory>
    ensures handed { AreHandedOver V.recorded V.given result collector.old collector.new (map constraint_of (address_operands address.old) ++ RegEarlyDef rd.old ∷ []) (map constraint_of (address_operands address.new) ++ RegEarlyDef rd.new ∷ []) }
    ensures same { address_shape address.new ≡ address_shape address.old }
    ensures class { class_of rd.new.reg ≡ class_of rd.old.reg }
{
    addresses(address, collector)?;
    writes_early(rd, collector)
}

/// The registers of a value that is read.
fn reads_value<V: OperandVisitor>(
    value: &mut ValueRegs<Reg>,
    collector: &mut V,
) -> Result<(), OutOfMemory>
    ensures handed { AreHandedOver V.recorded V.given result collector.old collector.new (map constraint_of (read_operands value.old)) (map constraint_of (read_operands value.new)) }
    ensures same { read_shape value.new ≡ read_shape value.old }
{
    match *value {
        ValueRegs::One(mut r) => {
            let handed = reads_one(&mut r, collector);
            *value = ValueRegs::One(r);
            handed
        }
        ValueRegs::Two(mut r, mut s) => {
            let handed = reads_two(&mut r, &mut s, collector);
            *value = ValueRegs::Two(r, s);
            handed
        }
    }
}

/// The registers of a value that is written.
fn writes_value<V: OperandVisitor>(
    value: &mut ValueRegs<WritableReg>,
    collector: &mut V,
) -> Result<(), OutOfMemory>
    ensures handed { AreHandedOver V.recorded V.given result collector.old collector.new (map constraint_of (written_operands value.old)) (map constraint_of (written_operands value.new)) }
    ensures same { written_shape value.new ≡ written_shape value.old }
{
    match *value {
        ValueRegs::One(mut w) => {
            let handed = writes_one(&mut w, collector);
            *value = ValueRegs::One(w);
            handed
        }
        ValueRegs::Two(mut v, mut w) => {
            let handed = writes_two_early(&mut v, &mut w, collector);
            *value = ValueRegs::Two(v, w);
            handed
        }
    }
}

/// Two registers that are read until the instruction ends.
fn reads_two_late<V: OperandVisitor>(
    rs1: &mut Reg,
    rs2: &mut Reg,
    collector: &mut V,
) -> Result<(), OutOfMemory>
    ensures handed { AreHandedOver V.recorded V.given result collector.old collector.new (RegLateUse rs1.old ∷ RegLateUse rs2.old ∷ []) (RegLateUse rs1.new ∷ RegLateUse rs2.new ∷ []) }
    ensures class_of_rs1 { class_of rs1.new ≡ class_of rs1.old }
    ensures class_of_rs2 { class_of rs2.new ≡ class_of rs2.old }
{
    reads_late(rs1, collector)?;
    reads_late(rs2, collector)
}

/// The registers of the values that a choice is between, and of the result.
fn chooses_between<V: OperandVisitor>(
    x: &mut ValueRegs<Reg>,
    y: &mut ValueRegs<Reg>,
    dst: &mut ValueRegs<WritableReg>,
    collector: &mut V,
) -> Result<(), OutOfMemory>
    ensures handed { AreHandedOver V.recorded V.given result collector.old collector.new (map constraint_of (read_operands x.old) ++ (map constraint_of (read_operands y.old) ++ map constraint_of (written_operands dst.old))) (map constraint_of (read_operands x.new) ++ (map constraint_of (read_operands y.new) ++ map constraint_of (written_operands dst.new))) }
    ensures same_x { read_shape x.new ≡ read_shape x.old }
    ensures same_y { read_shape y.new ≡ read_shape y.old }
    ensures same_dst { written_shape dst.new ≡ written_shape dst.old }
{
    reads_value(x, collector)?;
    reads_value(y, collector)?;
    writes_value(dst, collector)
}

/// The registers of a choice. Those that are compared are read until it ends, since a result may be written before.
pub fn chooses<V: OperandVisitor>(
    info: &mut SelectInfo,
    collector: &mut V,
) -> Result<(), OutOfMemory>
    ensures handed { AreHandedOver V.recorded V.given result collector.old collector.new (map constraint_of (select_operands info.old)) (map constraint_of (select_operands info.new)) }
    ensures same { select_shape info.new ≡ select_shape info.old }
{
    reads_two_late(&mut info.condition.rs1, &mut info.condition.rs2, collector)?;
    chooses_between(&mut info.x, &mut info.y, &mut info.dst, collector)
}

/// One that is read, where there is one.
fn reads_any<V: OperandVisitor>(rs: &mut Option<Reg>, collector: &mut V) -> Result<(), OutOfMemory>
    ensures handed { AreHandedOver V.recorded V.given result collector.old collector.new (read_request rs.old) (read_request rs.new) }
    ensures same { option_map blank rs.new ≡ option_map blank rs.old }
{
    match *rs {
        Some(mut r) => {
            let handed = reads_one(&mut r, collector);
            *rs = Some(r);
            handed
        }
        None => Ok(()),
    }
}

/// One that is written, where there is one.
fn writes_any<V: OperandVisitor>(
    rd: &mut Option<WritableReg>,
    collector: &mut V,
) -> Result<(), OutOfMemory>
    ensures handed { AreHandedOver V.recorded V.given result collector.old collector.new (written_request rd.old) (written_request rd.new) }
    ensures same { option_map blanked rd.new ≡ option_map blanked rd.old }
{
    match *rd {
        Some(mut w) => {
            let handed = writes_one(&mut w, collector);
            *rd = Some(w);
            handed
        }
        None => Ok(()),
    }
}

/// The registers of an instruction that is described by them: those that it reads, and then that of its result.
pub fn reads_sources_and_writes<V: OperandVisitor>(
    registers: &mut InstRegs,
    collector: &mut V,
) -> Result<(), OutOfMemory>
    ensures handed { AreHandedOver V.recorded V.given result collector.old collector.new (regs_requests registers.old) (regs_requests registers.new) }
    ensures same { blank_regs registers.new ≡ blank_regs registers.old }
{
    reads_any(&mut registers.rs1, collector)?;
    reads_any(&mut registers.rs2, collector)?;
    reads_any(&mut registers.rs3, collector)?;
    writes_any(&mut registers.rd, collector)
}

/// One that is written before all others are read, where there is one.
fn writes_any_early<V: OperandVisitor>(
    tmp: &mut Option<WritableReg>,
    collector: &mut V,
) -> Result<(), OutOfMemory>
    ensures handed { AreHandedOver V.recorded V.given result collector.old collector.new (early_request tmp.old) (early_request tmp.new) }
    ensures same { option_map blanked tmp.new ≡ option_map blanked tmp.old }
{
    match *tmp {
        Some(mut w) => {
            let handed = writes_one_early(&mut w, collector);
            *tmp = Some(w);
            handed
        }
        None => Ok(()),
    }
}

/// One that is written before all others are read.
fn writes_one_early<V: OperandVisitor>(
    rd: &mut WritableReg,
    collector: &mut V,
) -> Result<(), OutOfMemory>
    ensures handed { AreHandedOver V.recorded V.given result collector.old collector.new (RegEarlyDef rd.old ∷ []) (RegEarlyDef rd.new ∷ []) }
    ensures class { class_of rd.new.reg ≡ class_of rd.old.reg }
{
    writes_early(rd, collector)
}

/// The registers of a sequence: its source, its temporaries, and its result.
pub fn reads_and_computes<V: OperandVisitor>(
    sequence: &mut Sequence,
    collector: &mut V,
) -> Result<(), OutOfMemory>
    ensures handed { AreHandedOver V.recorded V.given result collector.old collector.new (sequence_requests sequence.old) (sequence_requests sequence.new) }
    ensures same { sequence_shape sequence.new ≡ sequence_shape sequence.old }
{
    reads(&mut sequence.rs, collector)?;
    writes_two_early(&mut sequence.tmp1, &mut sequence.tmp2, collector)?;
    writes_any_early(&mut sequence.tmp3, collector)?;
    writes_one_early(&mut sequence.rd, collector)
}
