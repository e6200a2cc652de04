//! Instructions of which one look at their fields tells that they break no rule.

ghost use Rattle.std.specs.Prelude.{◌≡◌, true, not, ◌&&◌, [], ◌∷◌, ◌++◌};
ghost use Rattle.std.specs.List.{list_all, list_any};
ghost use Rattle.rv_inst.specs.Operands.{family_of, target_labels};
ghost use Rattle.rv_inst.specs.Rules.{is_buffer_label, is_fallthrough};
ghost use Rattle.rv_inst.specs.declared.inst.Family.TheVariants.{Integer, Memory, Control};
ghost use Rattle.rv_inst.specs.Plain.{is_usable, is_plain_address, is_plain, IsPlain};

use crate::addresses::is_distant;
use crate::check::{has_inner_target, is_buffer_label, is_fallthrough};
use crate::inst::{CondBrTarget, Family, Inst};
use crate::ranges::{is_amount_beyond, is_int_type};
use crate::registers::is_reserved_x;
use rv_base::{AMode, Reg, RegClass};

/// Returns whether a register is one of which no rule is broken: an integer register of the machine other than x30 and x31.
fn is_usable(reg: Reg) -> bool
    ensures { result ≡ is_usable reg }
{
    match reg {
        Reg::Real(real) => match real.class {
            RegClass::Int => !is_reserved_x(real),
            RegClass::Float | RegClass::Vector => false,
        },
        Reg::Virtual { .. } => false,
    }
}

fn two_are_usable(first: Reg, second: Reg) -> bool
    ensures { result ≡ list_all is_usable (first ∷ second ∷ []) }
{
    is_usable(first) && is_usable(second)
}

fn three_are_usable(first: Reg, second: Reg, third: Reg) -> bool
    ensures { result ≡ list_all is_usable (first ∷ second ∷ third ∷ []) }
{
    is_usable(first) && two_are_usable(second, third)
}

/// Returns whether an address is one from a usable register or in the frame, with an offset in its range.
fn is_plain_address(mode: AMode) -> bool
    ensures { result ≡ is_plain_address mode }
{
    match mode {
        AMode::RegOffset(reg, _) => is_usable(reg) && !is_distant(mode),
        AMode::SPOffset(_) | AMode::FPOffset(_) | AMode::SlotOffset(_) | AMode::IncomingArg(_) =>
            !is_distant(mode),
        AMode::Const(_) | AMode::Label(_) => false,
    }
}

/// Returns whether two targets are those of a branch: the first is a label, and no label is one that a buffer makes for itself.
fn are_targets(taken: CondBrTarget, not_taken: CondBrTarget) -> bool
    ensures { result ≡ (not (is_fallthrough taken) && not (list_any is_buffer_label (target_labels taken ++ target_labels not_taken))) }
{
    !is_fallthrough(taken) && !has_inner_target(taken, not_taken)
}

impl Inst {
    /// Returns whether the instruction is one of the most usual ones, with usable registers and operands in their ranges. Such a one
    /// breaks no rule; of any other `check` tells.
    pub fn is_plain(&self) -> bool
        ensures value { result ≡ is_plain self.now }
        ensures rules { result ≡ true → IsPlain self.now }
    {
        self.is_usual()
    }

    fn is_usual(&self) -> bool
        ensures { result ≡ is_plain self.now }
    {
        match self.family() {
            Family::Integer => integer_is_plain(self),
            Family::Memory => memory_is_plain(self),
            Family::Control => control_is_plain(self),
            Family::Pseudo | Family::Loop | Family::Symbols | Family::Calls | Family::Float =>
                false,
        }
    }
}

fn integer_is_plain(inst: &Inst) -> bool
    ensures { family_of inst.now ≡ Integer → result ≡ is_plain inst.now }
{
    match inst {
        Inst::AluRRR {
            alu_op: _,
            rd,
            rs1,
            rs2,
        } => three_are_usable(rd.reg, *rs1, *rs2),
        Inst::AluRRImm12 {
            alu_op,
            rd,
            rs,
            imm12,
        } => two_are_usable(rd.reg, *rs) && !is_amount_beyond(*alu_op, *imm12),
        Inst::Mov { rd, rm, ty } => two_are_usable(rd.reg, *rm) && is_int_type(*ty),
        Inst::Lui { rd, imm: _ } => is_usable(rd.reg),
        _ => false,
    }
}

fn memory_is_plain(inst: &Inst) -> bool
    ensures { family_of inst.now ≡ Memory → result ≡ is_plain inst.now }
{
    match inst {
        Inst::Load {
            rd,
            op,
            flags: _,
            from,
        } => !op.is_float() && (is_usable(rd.reg) && is_plain_address(*from)),
        Inst::Store {
            to,
            op,
            flags: _,
            src,
        } => !op.is_float() && (is_usable(*src) && is_plain_address(*to)),
        _ => false,
    }
}

fn control_is_plain(inst: &Inst) -> bool
    ensures { family_of inst.now ≡ Control → result ≡ is_plain inst.now }
{
    match inst {
        Inst::Jal { label } => !is_buffer_label(*label),
        Inst::CondBr {
            taken,
            not_taken,
            kind,
        } => two_are_usable(kind.rs1, kind.rs2) && are_targets(*taken, *not_taken),
        _ => false,
    }
}
