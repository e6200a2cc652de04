//! The labels and constants that instructions name.

ghost use Rattle.std.specs.Prelude.{◌≡◌, option_copied};
ghost use Rattle.rv_inst.specs.Operands.{family_of, handler_label, table_of, targets_of, try_call_of};
ghost use Rattle.rv_inst.specs.declared.inst.Family.TheVariants.{Memory, Control};

use crate::addresses::address_targets;
use crate::inst::{CondBrTarget, Family, Inst};
use crate::units::facts_targets;
use rv_base::{MachLabel, TryCallHandler, TryCallInfo, VCodeConstant};

/// The labels, or the constant, that an instruction names, by what it does with them.
#[derive(Clone, Copy, Debug, PartialEq, Eq)]
pub enum Targets {
    /// It names none.
    Nowhere,
    /// It goes to the label.
    Jumps(MachLabel),
    /// It goes to one or the other target.
    Branches(CondBrTarget, CondBrTarget),
    /// It takes the label's address.
    Refers(MachLabel),
    /// It takes the constant's address, and reads so many bytes there.
    RefersConstant(VCodeConstant, u32),
}

impl Inst {
    /// The labels of the instruction's table, the default first; none where it has no table.
    pub fn table(&self) -> &[MachLabel]
        ensures { result.now ≡ table_of self.now }
    {
        match self {
            Inst::BrTable {
                index: _,
                tmp1: _,
                tmp2: _,
                targets,
            } => targets.as_ref().as_slice(),
            _ => &[],
        }
    }

    /// Where control goes after the call that the instruction is, where that ends its block.
    pub fn try_call(&self) -> Option<&TryCallInfo>
        ensures { option_copied result ≡ try_call_of self.now }
    {
        match self {
            Inst::Call { info } => info.as_ref().try_call_info.as_ref(),
            Inst::CallInd { info } => info.as_ref().try_call_info.as_ref(),
            _ => None,
        }
    }

    /// The labels, or the constant, that the instruction names, but for those of its table and those to which a call goes on.
    pub fn targets(&self) -> Targets
        ensures { result ≡ targets_of self.now }
    {
        match self.family() {
            Family::Pseudo
            | Family::Integer
            | Family::Loop
            | Family::Symbols
            | Family::Calls
            | Family::Float => Targets::Nowhere,
            Family::Memory => memory_targets(self),
            Family::Control => control_targets(self),
        }
    }
}

/// The label to which a handler takes control.
pub fn handler_label(handler: TryCallHandler) -> MachLabel
    ensures { result ≡ handler_label handler }
{
    match handler {
        TryCallHandler::Tag(_, label) | TryCallHandler::Default(label) => label,
    }
}

fn memory_targets(inst: &Inst) -> Targets
    ensures { family_of inst.now ≡ Memory → result ≡ targets_of inst.now }
{
    match inst {
        Inst::Load {
            rd: _,
            op,
            flags: _,
            from,
        } => address_targets(op.size() as u32, *from),
        Inst::Store {
            to,
            op: _,
            flags: _,
            src: _,
        } => address_targets(0, *to),
        Inst::LoadAddr { rd: _, mem } => address_targets(0, *mem),
        _ => facts_targets(inst),
    }
}

fn control_targets(inst: &Inst) -> Targets
    ensures { family_of inst.now ≡ Control → result ≡ targets_of inst.now }
{
    match inst {
        Inst::Jal { label } => Targets::Jumps(*label),
        Inst::CondBr {
            taken,
            not_taken,
            kind: _,
        } => Targets::Branches(*taken, *not_taken),
        _ => Targets::Nowhere,
    }
}
