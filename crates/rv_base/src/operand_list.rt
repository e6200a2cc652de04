//! A visitor that lists the requests.

ghost use Rattle.std.specs.Prelude.{◌≡◌, [], ◌∷◌, ◌++◌, OnOk, OnErr};

use crate::constraint::Constraint;
use crate::list::List;
use crate::operands::OperandVisitor;
use crate::out_of_memory::OutOfMemory;
use crate::preg_set::PRegSet;
use crate::regs::{Reg, Writable};
use std::alloc::Global;

/// Records each request, and leaves every register as it is.
#[derive(Drop)]
pub struct OperandList {
    constraints: List<Constraint>,
}

impl OperandList {
    /// A visitor that has recorded nothing. Allocates nothing.
    pub fn new(alloc: Global) -> OperandList
        ensures { result.constraints ≡ [] }
    {
        OperandList {
            constraints: List::new(alloc),
        }
    }

    /// The requests that were recorded, in order.
    pub fn constraints(&self) -> &List<Constraint>
        ensures { result.now ≡ self.now.constraints }
    {
        &self.constraints
    }
}

impl OperandVisitor for OperandList {
    ghost use Rattle.rv_base.specs.Operands.{registers_of};

    ghost recorded = { λ visitor. visitor.constraints };

    ghost given = { λ visitor. registers_of visitor.constraints };

    fn reg_use(&mut self, r: &mut Reg) -> Result<(), OutOfMemory>
        ensures ok { OnOk result (self.new.constraints ≡ self.old.constraints ++ (Constraint.RegUse r.old) ∷ []) }
        ensures err { OnErr result (self.new.constraints ≡ self.old.constraints) }
        ensures kept { r.new ≡ r.old }
    {
        self.constraints.push(Constraint::RegUse(*r))
    }

    fn reg_late_use(&mut self, r: &mut Reg) -> Result<(), OutOfMemory>
        ensures ok { OnOk result (self.new.constraints ≡ self.old.constraints ++ (Constraint.RegLateUse r.old) ∷ []) }
        ensures err { OnErr result (self.new.constraints ≡ self.old.constraints) }
        ensures kept { r.new ≡ r.old }
    {
        self.constraints.push(Constraint::RegLateUse(*r))
    }

    fn reg_fixed_use(&mut self, r: &mut Reg, fixed: Reg) -> Result<(), OutOfMemory>
        ensures ok { OnOk result (self.new.constraints ≡ self.old.constraints ++ (Constraint.RegFixedUse r.old fixed) ∷ []) }
        ensures err { OnErr result (self.new.constraints ≡ self.old.constraints) }
        ensures kept { r.new ≡ r.old }
    {
        self.constraints.push(Constraint::RegFixedUse(*r, fixed))
    }

    fn reg_fixed_late_use(&mut self, r: &mut Reg, fixed: Reg) -> Result<(), OutOfMemory>
        ensures ok { OnOk result (self.new.constraints ≡ self.old.constraints ++ (Constraint.RegFixedLateUse r.old fixed) ∷ []) }
        ensures err { OnErr result (self.new.constraints ≡ self.old.constraints) }
        ensures kept { r.new ≡ r.old }
    {
        self.constraints
            .push(Constraint::RegFixedLateUse(*r, fixed))
    }

    fn reg_def(&mut self, r: &mut Writable<Reg>) -> Result<(), OutOfMemory>
        ensures ok { OnOk result (self.new.constraints ≡ self.old.constraints ++ (Constraint.RegDef r.old) ∷ []) }
        ensures err { OnErr result (self.new.constraints ≡ self.old.constraints) }
        ensures kept { r.new ≡ r.old }
    {
        self.constraints.push(Constraint::RegDef(*r))
    }

    fn reg_early_def(&mut self, r: &mut Writable<Reg>) -> Result<(), OutOfMemory>
        ensures ok { OnOk result (self.new.constraints ≡ self.old.constraints ++ (Constraint.RegEarlyDef r.old) ∷ []) }
        ensures err { OnErr result (self.new.constraints ≡ self.old.constraints) }
        ensures kept { r.new ≡ r.old }
    {
        self.constraints.push(Constraint::RegEarlyDef(*r))
    }

    fn reg_fixed_def(&mut self, r: &mut Writable<Reg>, fixed: Reg) -> Result<(), OutOfMemory>
        ensures ok { OnOk result (self.new.constraints ≡ self.old.constraints ++ (Constraint.RegFixedDef r.old fixed) ∷ []) }
        ensures err { OnErr result (self.new.constraints ≡ self.old.constraints) }
        ensures kept { r.new ≡ r.old }
    {
        self.constraints.push(Constraint::RegFixedDef(*r, fixed))
    }

    fn reg_reuse_def(&mut self, r: &mut Writable<Reg>, index: usize) -> Result<(), OutOfMemory>
        ensures ok { OnOk result (self.new.constraints ≡ self.old.constraints ++ (Constraint.RegReuseDef r.old index) ∷ []) }
        ensures err { OnErr result (self.new.constraints ≡ self.old.constraints) }
        ensures kept { r.new ≡ r.old }
    {
        self.constraints.push(Constraint::RegReuseDef(*r, index))
    }

    fn any_def(&mut self, r: &mut Writable<Reg>) -> Result<(), OutOfMemory>
        ensures ok { OnOk result (self.new.constraints ≡ self.old.constraints ++ (Constraint.AnyDef r.old) ∷ []) }
        ensures err { OnErr result (self.new.constraints ≡ self.old.constraints) }
        ensures kept { r.new ≡ r.old }
    {
        self.constraints.push(Constraint::AnyDef(*r))
    }

    fn reg_clobbers(&mut self, set: PRegSet) -> Result<(), OutOfMemory> {
        self.constraints.push(Constraint::RegClobbers(set))
    }
}
