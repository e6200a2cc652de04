//! Instructions that one row describes by their registers. Of those that are one word of a unit: their registers, each with the class
//! that its place asks, their fields, their traps, and their words. Of others, of integer registers: what is asked of them.

ghost use Rattle.std.specs.Prelude.{◌≡◌, IfSome, None, Some};
ghost use Rattle.std.specs.List.{list_any};
ghost use Rattle.rv_base.specs.declared.flags.IsaFlags.{IsaFlags};
ghost use Rattle.rv_machine.specs.Decode.{decode};
ghost use Rattle.rv_inst.specs.Faults.{has_bad_rounding, has_bad_width, is_misplaced};
ghost use Rattle.rv_inst.specs.Operands.{family_of, inst_registers};
ghost use Rattle.rv_inst.specs.RegisterTests.{test_of, place_test};
ghost use Rattle.rv_inst.specs.Rules.{facts_faults, is_not_of, is_zero};
ghost use Rattle.rv_inst.specs.Descriptions.{IsFineUnit, UnitWord, all_in, all_replaced, asked_of, conversion_trap, described_regs, facts_of, facts_registers, in_order, is_idle_in, only_regs, place, places_in, registers_in, regs, result_in, source_in, stepwise, trap_in, unit_word, with_registers};
ghost use Rattle.rv_inst.specs.declared.inst.Family.TheVariants.{Float};

use crate::clashes::{any_is_zero, is_stack, same_class};
use crate::inst::Inst;
use crate::ranges::{is_int_type, is_word_type};
use crate::registers::{RegisterTest, any_of, holds};
use crate::targets::Targets;
use rv_base::{Reg, RegClass, TrapCode, WritableReg};
use rv_encode::{
    encode_atomic, encode_csr_imm, encode_csr_reg, encode_fli, encode_fp_rr, encode_fp_rrr,
    encode_fp_rrrr, number_of,
};
use rv_ops::IntegerCompare;

/// A register of an instruction, and the class that its place asks.
#[derive(Clone, Copy, Debug, PartialEq, Eq)]
pub struct PlacedReg {
    pub class: RegClass,
    pub reg: Reg,
}

/// The registers of an instruction, those that it has: that of its result, and those that it reads.
#[derive(Clone, Copy, Debug, PartialEq, Eq)]
pub struct InstRegs {
    pub rd: Option<WritableReg>,
    pub rs1: Option<Reg>,
    pub rs2: Option<Reg>,
    pub rs3: Option<Reg>,
}

/// What the rules, a register allocator and emission ask of an instruction of integer registers, where its description gives it.
#[derive(Clone, Copy)]
pub struct Facts {
    pub regs: InstRegs,
    /// A temporary that its maker chooses, and no register allocator, where it has one: neither x0 nor sp.
    pub scratch: Option<WritableReg>,
    /// Whether its result is computed in steps, and so isn't x0.
    pub in_steps: bool,
    /// Whether it has a type that it doesn't take.
    pub mistyped: bool,
    /// Whether a number is out of its range.
    pub beyond: bool,
    /// The label whose address it takes, where it takes one.
    pub targets: Targets,
    /// Whether its code jumps: over a constant that stands among it, or back.
    pub jumps: bool,
}

/// What is asked of a register in its place.
#[derive(Clone, Copy, Debug, PartialEq, Eq)]
pub enum PlaceTest {
    /// The test holds of the register, wherever it stands.
    Register(RegisterTest),
    /// It has another class than its place asks.
    OutOfPlace,
}

fn placed(class: RegClass, reg: Reg) -> PlacedReg
    ensures { result ≡ place class reg }
{
    PlacedReg { class, reg }
}

/// Returns whether a register is of another class than this.
pub(crate) fn is_not_of(class: RegClass, reg: Reg) -> bool
    ensures { result ≡ is_not_of class reg }
{
    !same_class(reg.class(), class)
}

fn place_has(test: PlaceTest, at: PlacedReg) -> bool
    ensures { result ≡ place_test test at }
{
    match test {
        PlaceTest::Register(test) => holds(test, at.reg),
        PlaceTest::OutOfPlace => is_not_of(at.class, at.reg),
    }
}

fn any_has(test: PlaceTest, places: &[PlacedReg]) -> bool
    ensures { result ≡ list_any (place_test test) places.now }
{
    places.iter().any(|at| place_has(test, *at))
}

/// Returns whether the test holds of a register of an instruction of a unit, in its place; of any other instruction it holds of none.
fn any_place_has(test: PlaceTest, inst: &Inst) -> bool
    ensures { result ≡ list_any (place_test test) (places_in (unit_word inst.now)) }
{
    match inst {
        Inst::Fli { rd, .. } => any_has(test, &[placed(RegClass::Float, rd.reg)]),
        Inst::FpuRR { alu_op, rd, rs, .. } => any_has(
            test,
            &[
                placed(alu_op.dst_regclass(), rd.reg),
                placed(alu_op.src_regclass(), *rs),
            ],
        ),
        Inst::FpuRRR {
            alu_op,
            rd,
            rs1,
            rs2,
            ..
        } => any_has(
            test,
            &[
                placed(alu_op.dst_regclass(), rd.reg),
                placed(RegClass::Float, *rs1),
                placed(RegClass::Float, *rs2),
            ],
        ),
        Inst::FpuRRRR {
            rd,
            rs1,
            rs2,
            rs3,
            ..
        } => any_has(
            test,
            &[
                placed(RegClass::Float, rd.reg),
                placed(RegClass::Float, *rs1),
                placed(RegClass::Float, *rs2),
                placed(RegClass::Float, *rs3),
            ],
        ),
        Inst::CsrReg { rd, rs, .. } => any_has(
            test,
            &[placed(RegClass::Int, rd.reg), placed(RegClass::Int, *rs)],
        ),
        Inst::CsrImm { rd, .. } => any_has(test, &[placed(RegClass::Int, rd.reg)]),
        Inst::Atomic { rd, addr, src, .. } => any_has(
            test,
            &[
                placed(RegClass::Int, rd.reg),
                placed(RegClass::Int, *addr),
                placed(RegClass::Int, *src),
            ],
        ),
        _ => false,
    }
}

/// Returns whether the instruction names a register that its operation doesn't read, and which isn't x0: the source of a load-reserved.
fn has_idle_source(inst: &Inst) -> bool
    ensures { result ≡ is_idle_in (unit_word inst.now) }
{
    match inst {
        Inst::Atomic { op, src, .. } => op.is_load() && number_of(*src) != 0,
        _ => false,
    }
}

/// Returns whether the test holds of a register of an instruction of a unit.
pub fn unit_has(test: RegisterTest, inst: &Inst) -> bool
    ensures { family_of inst.now ≡ Float → result ≡ list_any (test_of test) (inst_registers inst.now) }
{
    any_place_has(PlaceTest::Register(test), inst)
}

/// Returns whether a register of an instruction of a unit has another class than its place asks, or isn't x0 where it isn't read.
pub fn unit_misplaced(inst: &Inst) -> bool
    ensures { family_of inst.now ≡ Float → result ≡ is_misplaced inst.now }
{
    any_place_has(PlaceTest::OutOfPlace, inst) || has_idle_source(inst)
}

/// Returns whether the instruction names a rounding mode that its operation doesn't take.
pub fn has_bad_rounding(inst: &Inst) -> bool
    ensures { result ≡ has_bad_rounding inst.now }
{
    match inst {
        Inst::FpuRR { alu_op, frm, .. } => !alu_op.takes_frm(*frm),
        Inst::FpuRRR { alu_op, frm, .. } => !alu_op.takes_frm(*frm),
        _ => false,
    }
}

/// Returns whether the instruction has a format that its operation hasn't.
pub fn has_bad_width(inst: &Inst) -> bool
    ensures { result ≡ has_bad_width inst.now }
{
    match inst {
        Inst::Fli { width, .. } => !width.is_supported(),
        Inst::FpuRR { alu_op, width, .. } => !alu_op.takes_width(*width),
        Inst::FpuRRR { width, .. } => !width.is_supported(),
        Inst::FpuRRRR { width, .. } => !width.is_supported(),
        _ => false,
    }
}

/// Returns whether the test holds of a result, where there is one.
fn result_has(test: RegisterTest, rd: Option<WritableReg>) -> bool
    ensures { result ≡ list_any (test_of test) (result_in rd) }
{
    match rd {
        Some(rd) => any_of(test, &[rd.reg]),
        None => false,
    }
}

/// Returns whether the test holds of a register that is read, where there is one.
fn source_has(test: RegisterTest, rs: Option<Reg>) -> bool
    ensures { result ≡ list_any (test_of test) (source_in rs) }
{
    match rs {
        Some(rs) => any_of(test, &[rs]),
        None => false,
    }
}

/// Returns whether x0 is a result, where there is one.
fn result_is_zero(rd: Option<WritableReg>) -> bool
    ensures { result ≡ list_any is_zero (result_in rd) }
{
    match rd {
        Some(rd) => any_is_zero(&[rd.reg]),
        None => false,
    }
}

impl InstRegs {
    /// Returns whether the test holds of one of them.
    fn has_register(&self, test: RegisterTest) -> bool
        ensures { result ≡ list_any (test_of test) (all_in self.now) }
    {
        result_has(test, self.rd)
            || (source_has(test, self.rs1)
                || (source_has(test, self.rs2) || source_has(test, self.rs3)))
    }
}

impl Facts {
    /// Returns whether the test holds of a register of the instruction.
    fn has_register(&self, test: RegisterTest) -> bool
        ensures { result ≡ list_any (test_of test) (facts_registers self.now) }
    {
        result_has(test, self.scratch) || self.regs.has_register(test)
    }

    /// Returns whether x0 is its temporary, or a result that is computed in steps.
    fn has_zero(&self) -> bool
        ensures { result ≡ (facts_faults self.now).zeroed }
    {
        result_is_zero(self.scratch) || (self.in_steps && result_is_zero(self.regs.rd))
    }

    /// Returns whether its temporary is the stack pointer.
    fn has_clash(&self) -> bool
        ensures { result ≡ (facts_faults self.now).clashing }
    {
        match self.scratch {
            Some(scratch) => is_stack(scratch.reg),
            None => false,
        }
    }
}

/// Returns whether the test holds of a register of an instruction whose description gives its registers; of any other it holds of none.
#[inline(never)]
pub fn facts_have(test: RegisterTest, inst: &Inst) -> bool
    ensures { result ≡ list_any (test_of test) (facts_registers (asked_of inst.now)) }
{
    inst.asked().has_register(test)
}

/// Returns whether x0 is a result that such an instruction computes in steps, or its temporary.
#[inline(never)]
pub fn facts_have_zero(inst: &Inst) -> bool
    ensures { result ≡ (facts_faults (asked_of inst.now)).zeroed }
{
    inst.asked().has_zero()
}

/// Returns whether the temporary of such an instruction is the stack pointer.
#[inline(never)]
pub fn facts_have_clash(inst: &Inst) -> bool
    ensures { result ≡ (facts_faults (asked_of inst.now)).clashing }
{
    inst.asked().has_clash()
}

/// Returns whether such an instruction has a type that it doesn't take.
#[inline(never)]
pub fn facts_are_mistyped(inst: &Inst) -> bool
    ensures { result ≡ (asked_of inst.now).mistyped }
{
    inst.asked().mistyped
}

/// Returns whether such an instruction has a number that is out of its range.
#[inline(never)]
pub fn facts_are_beyond(inst: &Inst) -> bool
    ensures { result ≡ (asked_of inst.now).beyond }
{
    inst.asked().beyond
}

/// The label that such an instruction names, by what it does with it.
#[inline(never)]
pub fn facts_targets(inst: &Inst) -> Targets
    ensures { result ≡ (asked_of inst.now).targets }
{
    inst.asked().targets
}

impl Inst {
    /// What is asked of an instruction of integer registers, where its description gives it.
    #[inline(always)]
    pub fn facts(&self) -> Option<Facts>
        ensures { result ≡ facts_of self.now }
    {
        match self {
            Inst::Extend {
                rd,
                rn,
                from_bits,
                ..
            } => Some(Facts {
                beyond: *from_bits < 1 || *from_bits > 64,
                ..only_regs(regs(Some(*rd), Some(*rn), None, None))
            }),
            Inst::Auipc { rd, .. } => Some(only_regs(regs(Some(*rd), None, None, None))),
            Inst::LoadInlineConst { rd, ty, .. } => Some(Facts {
                mistyped: !is_word_type(*ty),
                jumps: true,
                ..stepwise(*rd)
            }),
            Inst::LabelAddress { dst, label } => Some(Facts {
                targets: Targets::Refers(*label),
                ..stepwise(*dst)
            }),
            Inst::TrapIf { cmp, .. } => {
                Some(only_regs(regs(None, Some(cmp.rs1), Some(cmp.rs2), None)))
            }
            Inst::StackProbeLoop { tmp, .. } => Some(Facts {
                scratch: Some(*tmp),
                jumps: true,
                ..only_regs(regs(None, None, None, None))
            }),
            Inst::LoadExtNameGot { rd, .. } => Some(stepwise(*rd)),
            Inst::LoadExtNameNear { rd, .. } => Some(stepwise(*rd)),
            Inst::LoadExtNameFar { rd, .. } => Some(Facts {
                jumps: true,
                ..stepwise(*rd)
            }),
            Inst::Fence { pred, succ } => Some(Facts {
                beyond: *pred > 15 || *succ > 15,
                ..only_regs(regs(None, None, None, None))
            }),
            Inst::AtomicLoad { rd, ty, p } => Some(Facts {
                mistyped: !is_int_type(*ty),
                ..only_regs(regs(Some(*rd), Some(*p), None, None))
            }),
            Inst::AtomicStore { src, ty, p } => Some(Facts {
                mistyped: !is_int_type(*ty),
                ..only_regs(regs(None, Some(*src), Some(*p), None))
            }),
            _ => None,
        }
    }

    /// What is asked of such an instruction; of any other nothing is asked here.
    #[inline(always)]
    pub fn asked(&self) -> Facts
        ensures { result ≡ asked_of self.now }
    {
        match self.facts() {
            Some(facts) => facts,
            None => only_regs(regs(None, None, None, None)),
        }
    }

    /// The trap that an instruction of a unit may take, which is recorded at its word: that of a conversion to an integer.
    pub fn unit_trap(&self) -> Option<TrapCode>
        ensures { result ≡ trap_in (unit_word self.now) }
    {
        match self {
            Inst::FpuRR { alu_op, .. } => conversion_trap(alu_op.is_convert_to_int()),
            _ => None,
        }
    }

    /// The word of an instruction of a unit; of any other 0.
    pub fn unit_bits(&self) -> u32
        requires fine { IfSome (unit_word self.now) (λ (w : UnitWord). IsFineUnit w) }
        ensures decodes { (w : UnitWord) → unit_word self.now ≡ Some w → (flags : IsaFlags) → decode flags result ≡ Some w.operation }
        ensures others { unit_word self.now ≡ None → result ≡ 0 }
    {
        match self {
            Inst::Fli { width, imm, rd } => encode_fli(*width, *imm, *rd),
            Inst::FpuRR {
                alu_op,
                width,
                frm,
                rd,
                rs,
            } => encode_fp_rr(*alu_op, *width, *frm, *rd, *rs),
            Inst::FpuRRR {
                alu_op,
                width,
                frm,
                rd,
                rs1,
                rs2,
            } => encode_fp_rrr(*alu_op, *width, *frm, *rd, *rs1, *rs2),
            Inst::FpuRRRR {
                alu_op,
                width,
                frm,
                rd,
                rs1,
                rs2,
                rs3,
            } => encode_fp_rrrr(*alu_op, *width, *frm, *rd, *rs1, *rs2, *rs3),
            Inst::CsrReg { op, rd, rs, csr } => encode_csr_reg(*op, *rd, *rs, *csr),
            Inst::CsrImm { op, rd, csr, imm } => encode_csr_imm(*op, *rd, *csr, *imm),
            Inst::Atomic {
                op,
                rd,
                addr,
                src,
                amo,
            } => encode_atomic(*op, *rd, *addr, *src, *amo),
            _ => 0,
        }
    }

    /// The registers of an instruction that is described by them; any other has none of these.
    #[tactic(auto, using(crate::proofs::Descriptions::regs_without_facts))]
    pub fn described_regs(&self) -> InstRegs
        ensures { result ≡ described_regs self.now }
    {
        match self.facts() {
            Some(facts) => facts.regs,
            None => self.unit_regs(),
        }
    }

    /// The registers of an instruction of a unit; any other has none of these.
    fn unit_regs(&self) -> InstRegs
        ensures { result ≡ in_order (registers_in (places_in (unit_word self.now))) }
    {
        match self {
            Inst::Fli { rd, .. } => regs(Some(*rd), None, None, None),
            Inst::FpuRR { rd, rs, .. } => regs(Some(*rd), Some(*rs), None, None),
            Inst::FpuRRR { rd, rs1, rs2, .. } => regs(Some(*rd), Some(*rs1), Some(*rs2), None),
            Inst::FpuRRRR {
                rd,
                rs1,
                rs2,
                rs3,
                ..
            } => regs(Some(*rd), Some(*rs1), Some(*rs2), Some(*rs3)),
            Inst::CsrReg { rd, rs, .. } => regs(Some(*rd), Some(*rs), None, None),
            Inst::CsrImm { rd, .. } => regs(Some(*rd), None, None, None),
            Inst::Atomic { rd, addr, src, .. } => regs(Some(*rd), Some(*addr), Some(*src), None),
            _ => regs(None, None, None, None),
        }
    }

    /// An instruction that is described by its registers with these in the places that it has, where they are given; any other is as it
    /// was.
    #[tactic(auto, using(crate::proofs::Descriptions::own_put_back, crate::proofs::Descriptions::registers_after))]
    pub fn with_registers(self, registers: InstRegs) -> Inst
        ensures same_kind { result ≡ with_registers self registers }
        ensures given { described_regs result ≡ all_replaced registers (described_regs self) }
        ensures own { registers ≡ described_regs self → result ≡ self }
    {
        match self {
            Inst::Fli { width, imm, rd } => {
                let rd = registers.rd.unwrap_or(rd);
                Inst::Fli { width, imm, rd }
            }
            Inst::FpuRR {
                alu_op,
                width,
                frm,
                rd,
                rs,
            } => Inst::FpuRR {
                alu_op,
                width,
                frm,
                rd: registers.rd.unwrap_or(rd),
                rs: registers.rs1.unwrap_or(rs),
            },
            Inst::FpuRRR {
                alu_op,
                width,
                frm,
                rd,
                rs1,
                rs2,
            } => Inst::FpuRRR {
                alu_op,
                width,
                frm,
                rd: registers.rd.unwrap_or(rd),
                rs1: registers.rs1.unwrap_or(rs1),
                rs2: registers.rs2.unwrap_or(rs2),
            },
            Inst::FpuRRRR {
                alu_op,
                width,
                frm,
                rd,
                rs1,
                rs2,
                rs3,
            } => Inst::FpuRRRR {
                alu_op,
                width,
                frm,
                rd: registers.rd.unwrap_or(rd),
                rs1: registers.rs1.unwrap_or(rs1),
                rs2: registers.rs2.unwrap_or(rs2),
                rs3: registers.rs3.unwrap_or(rs3),
            },
            Inst::CsrReg { op, rd, rs, csr } => Inst::CsrReg {
                op,
                rd: registers.rd.unwrap_or(rd),
                rs: registers.rs1.unwrap_or(rs),
                csr,
            },
            Inst::CsrImm { op, rd, csr, imm } => Inst::CsrImm {
                op,
                rd: registers.rd.unwrap_or(rd),
                csr,
                imm,
            },
            Inst::Atomic {
                op,
                rd,
                addr,
                src,
                amo,
            } => Inst::Atomic {
                op,
                rd: registers.rd.unwrap_or(rd),
                addr: registers.rs1.unwrap_or(addr),
                src: registers.rs2.unwrap_or(src),
                amo,
            },
            Inst::Extend {
                rd,
                rn,
                signed,
                from_bits,
                to_bits,
            } => Inst::Extend {
                rd: registers.rd.unwrap_or(rd),
                rn: registers.rs1.unwrap_or(rn),
                signed,
                from_bits,
                to_bits,
            },
            Inst::Auipc { rd, imm } => Inst::Auipc {
                rd: registers.rd.unwrap_or(rd),
                imm,
            },
            Inst::LoadInlineConst { rd, ty, imm } => Inst::LoadInlineConst {
                rd: registers.rd.unwrap_or(rd),
                ty,
                imm,
            },
            Inst::LabelAddress { dst, label } => Inst::LabelAddress {
                dst: registers.rd.unwrap_or(dst),
                label,
            },
            Inst::TrapIf { cmp, trap_code } => Inst::TrapIf {
                cmp: IntegerCompare {
                    rs1: registers.rs1.unwrap_or(cmp.rs1),
                    rs2: registers.rs2.unwrap_or(cmp.rs2),
                    ..cmp
                },
                trap_code,
            },
            Inst::LoadExtNameGot { rd, name } => Inst::LoadExtNameGot {
                rd: registers.rd.unwrap_or(rd),
                name,
            },
            Inst::LoadExtNameNear { rd, name, offset } => Inst::LoadExtNameNear {
                rd: registers.rd.unwrap_or(rd),
                name,
                offset,
            },
            Inst::LoadExtNameFar { rd, name, offset } => Inst::LoadExtNameFar {
                rd: registers.rd.unwrap_or(rd),
                name,
                offset,
            },
            Inst::AtomicLoad { rd, ty, p } => Inst::AtomicLoad {
                rd: registers.rd.unwrap_or(rd),
                ty,
                p: registers.rs1.unwrap_or(p),
            },
            Inst::AtomicStore { src, ty, p } => Inst::AtomicStore {
                src: registers.rs1.unwrap_or(src),
                ty,
                p: registers.rs2.unwrap_or(p),
            },
            other => other,
        }
    }
}

#[inline(always)]
fn regs(rd: Option<WritableReg>, rs1: Option<Reg>, rs2: Option<Reg>, rs3: Option<Reg>) -> InstRegs
    ensures { result ≡ regs rd rs1 rs2 rs3 }
{
    InstRegs { rd, rs1, rs2, rs3 }
}

#[inline(always)]
fn only_regs(regs: InstRegs) -> Facts
    ensures { result ≡ only_regs regs }
{
    Facts {
        regs,
        scratch: None,
        in_steps: false,
        mistyped: false,
        beyond: false,
        targets: Targets::Nowhere,
        jumps: false,
    }
}

#[inline(always)]
fn stepwise(rd: WritableReg) -> Facts
    ensures { result ≡ stepwise rd }
{
    Facts {
        in_steps: true,
        ..only_regs(regs(Some(rd), None, None, None))
    }
}

fn conversion_trap(converts: bool) -> Option<TrapCode>
    ensures { result ≡ conversion_trap converts }
{
    if converts {
        Some(TrapCode::BAD_CONVERSION_TO_INTEGER)
    } else {
        None
    }
}
