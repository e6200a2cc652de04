//! The visitor of an instruction's registers, as a register allocator is one.

use crate::out_of_memory::OutOfMemory;
use crate::preg_set::PRegSet;
use crate::regs::{Reg, Writable};

/// Is handed the registers of an instruction, one after another. It may give another register of the same class in the
/// place of each: what the call leaves in `r` is the register that it gave.
pub trait OperandVisitor {
    ghost use Rattle.std.specs.Prelude.{◌≡◌, List, [], ◌∷◌, ◌++◌, OnOk, OnErr};
    ghost use Rattle.rv_base.specs.Regs.{class_of};
    ghost use Rattle.rv_base.specs.declared.regs.Reg.{Reg as Register};
    ghost use Rattle.rv_base.specs.declared.constraint.Constraint.{Constraint as Request};
    ghost use Rattle.rv_base.specs.declared.constraint.Constraint.TheVariants.{RegUse, RegLateUse, RegFixedUse, RegFixedLateUse, RegDef, RegEarlyDef, RegFixedDef, RegReuseDef, AnyDef, RegClobbers};

    /// The requests that were recorded so far, in order.
    ghost recorded: { Self → List Request };

    /// The registers that were given so far, in order: one for each register handed over.
    ghost given: { Self → List Register };

    /// A register that is read as the instruction begins.
    fn reg_use(&mut self, r: &mut Reg) -> Result<(), OutOfMemory>
        ensures ok { OnOk result (recorded self.new ≡ recorded self.old ++ (RegUse r.old) ∷ []) }
        ensures given { OnOk result (given self.new ≡ given self.old ++ r.new ∷ []) }
        ensures err { OnErr result (recorded self.new ≡ recorded self.old) }
        ensures none_given { OnErr result (given self.new ≡ given self.old) }
        ensures class { class_of r.new ≡ class_of r.old };

    /// A register that is read until the instruction ends.
    fn reg_late_use(&mut self, r: &mut Reg) -> Result<(), OutOfMemory>
        ensures ok { OnOk result (recorded self.new ≡ recorded self.old ++ (RegLateUse r.old) ∷ []) }
        ensures given { OnOk result (given self.new ≡ given self.old ++ r.new ∷ []) }
        ensures err { OnErr result (recorded self.new ≡ recorded self.old) }
        ensures none_given { OnErr result (given self.new ≡ given self.old) }
        ensures class { class_of r.new ≡ class_of r.old };

    /// A register that is read, and has to be `fixed`.
    fn reg_fixed_use(&mut self, r: &mut Reg, fixed: Reg) -> Result<(), OutOfMemory>
        ensures ok { OnOk result (recorded self.new ≡ recorded self.old ++ (RegFixedUse r.old fixed) ∷ []) }
        ensures given { OnOk result (given self.new ≡ given self.old ++ r.new ∷ []) }
        ensures err { OnErr result (recorded self.new ≡ recorded self.old) }
        ensures none_given { OnErr result (given self.new ≡ given self.old) }
        ensures class { class_of r.new ≡ class_of r.old };

    /// A register that is read until the instruction ends, and has to be `fixed`.
    fn reg_fixed_late_use(&mut self, r: &mut Reg, fixed: Reg) -> Result<(), OutOfMemory>
        ensures ok { OnOk result (recorded self.new ≡ recorded self.old ++ (RegFixedLateUse r.old fixed) ∷ []) }
        ensures given { OnOk result (given self.new ≡ given self.old ++ r.new ∷ []) }
        ensures err { OnErr result (recorded self.new ≡ recorded self.old) }
        ensures none_given { OnErr result (given self.new ≡ given self.old) }
        ensures class { class_of r.new ≡ class_of r.old };

    /// A register that is written as the instruction ends.
    fn reg_def(&mut self, r: &mut Writable<Reg>) -> Result<(), OutOfMemory>
        ensures ok { OnOk result (recorded self.new ≡ recorded self.old ++ (RegDef r.old) ∷ []) }
        ensures given { OnOk result (given self.new ≡ given self.old ++ r.new.reg ∷ []) }
        ensures err { OnErr result (recorded self.new ≡ recorded self.old) }
        ensures none_given { OnErr result (given self.new ≡ given self.old) }
        ensures class { class_of r.new.reg ≡ class_of r.old.reg };

    /// A register that is written before the instruction's sources are read.
    fn reg_early_def(&mut self, r: &mut Writable<Reg>) -> Result<(), OutOfMemory>
        ensures ok { OnOk result (recorded self.new ≡ recorded self.old ++ (RegEarlyDef r.old) ∷ []) }
        ensures given { OnOk result (given self.new ≡ given self.old ++ r.new.reg ∷ []) }
        ensures err { OnErr result (recorded self.new ≡ recorded self.old) }
        ensures none_given { OnErr result (given self.new ≡ given self.old) }
        ensures class { class_of r.new.reg ≡ class_of r.old.reg };

    /// A register that is written, and has to be `fixed`.
    fn reg_fixed_def(&mut self, r: &mut Writable<Reg>, fixed: Reg) -> Result<(), OutOfMemory>
        ensures ok { OnOk result (recorded self.new ≡ recorded self.old ++ (RegFixedDef r.old fixed) ∷ []) }
        ensures given { OnOk result (given self.new ≡ given self.old ++ r.new.reg ∷ []) }
        ensures err { OnErr result (recorded self.new ≡ recorded self.old) }
        ensures none_given { OnErr result (given self.new ≡ given self.old) }
        ensures class { class_of r.new.reg ≡ class_of r.old.reg };

    /// A register that is written, and is the one of an earlier request: its index among the requests, from 0.
    fn reg_reuse_def(&mut self, r: &mut Writable<Reg>, index: usize) -> Result<(), OutOfMemory>
        ensures ok { OnOk result (recorded self.new ≡ recorded self.old ++ (RegReuseDef r.old index) ∷ []) }
        ensures given { OnOk result (given self.new ≡ given self.old ++ r.new.reg ∷ []) }
        ensures err { OnErr result (recorded self.new ≡ recorded self.old) }
        ensures none_given { OnErr result (given self.new ≡ given self.old) }
        ensures class { class_of r.new.reg ≡ class_of r.old.reg };

    /// A value that is written to a register or to memory.
    fn any_def(&mut self, r: &mut Writable<Reg>) -> Result<(), OutOfMemory>
        ensures ok { OnOk result (recorded self.new ≡ recorded self.old ++ (AnyDef r.old) ∷ []) }
        ensures given { OnOk result (given self.new ≡ given self.old ++ r.new.reg ∷ []) }
        ensures err { OnErr result (recorded self.new ≡ recorded self.old) }
        ensures none_given { OnErr result (given self.new ≡ given self.old) }
        ensures class { class_of r.new.reg ≡ class_of r.old.reg };

    /// Registers that the instruction overwrites with no use for their values.
    fn reg_clobbers(&mut self, set: PRegSet) -> Result<(), OutOfMemory>
        ensures ok { OnOk result (recorded self.new ≡ recorded self.old ++ (RegClobbers set) ∷ []) }
        ensures err { OnErr result (recorded self.new ≡ recorded self.old) }
        ensures none_given { given self.new ≡ given self.old };
}
