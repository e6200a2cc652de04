//! Instructions that compute one register of another by a sequence of words with a loop: what they compute, and in which registers.

ghost use Rattle.std.specs.Prelude.{◌≡◌, Some, option_map};
ghost use Rattle.std.specs.List.{list_any};
ghost use Rattle.rv_inst.specs.Descriptions.{brev8_info, count_info, counts, registers_by, replaced_by, reverses, sequence_of, sequence_registers, with_sequence};
ghost use Rattle.rv_inst.specs.Faults.{sequence_breaks};
ghost use Rattle.rv_inst.specs.RegisterTests.{test_of};
ghost use Rattle.rv_inst.specs.Rules.{Faults, sequence_faults};

use crate::clashes::{any_is_zero, four_clash, three_clash};
use crate::inst::{Brev8Info, CountInfo, Inst};
use crate::ranges::is_int_type;
use crate::registers::{RegisterTest, any_of};
use rv_base::{IrType, Reg, WritableReg};

/// What a sequence computes of the low bits of a register, of as many as its type has.
#[derive(Clone, Copy, Debug, PartialEq, Eq)]
pub enum Computation {
    /// How many of them are ones.
    Ones,
    /// How many zeros stand above the highest one of them, or below the lowest.
    Zeros { leading: bool },
    /// The bits of each of their bytes in reverse order.
    ReversedBytes,
}

/// A sequence: `rd` is what it computes of `rs`, of as many low bits as the type has, which is an integer of at most 64 bits. Two or
/// three temporaries are written, and `rd` is, while `rs` is still read.
#[derive(Clone, Copy, Debug, PartialEq, Eq)]
pub struct Sequence {
    pub computation: Computation,
    pub rs: Reg,
    pub tmp1: WritableReg,
    pub tmp2: WritableReg,
    pub tmp3: Option<WritableReg>,
    pub rd: WritableReg,
    pub ty: IrType,
}

impl Sequence {
    /// Returns whether the test holds of one of its registers.
    fn has_register(&self, test: RegisterTest) -> bool
        ensures { result ≡ list_any (test_of test) (sequence_registers self.now) }
    {
        let (rs, tmp1, tmp2, rd) = (self.rs, self.tmp1.reg, self.tmp2.reg, self.rd.reg);
        match self.tmp3 {
            Some(tmp3) => any_of(test, &[rs, tmp1, tmp2, tmp3.reg, rd]),
            None => any_of(test, &[rs, tmp1, tmp2, rd]),
        }
    }

    /// Returns whether x0 is one of the registers that it writes.
    fn has_zero(&self) -> bool
        ensures { result ≡ (sequence_faults self.now).zeroed }
    {
        let (tmp1, tmp2, rd) = (self.tmp1.reg, self.tmp2.reg, self.rd.reg);
        match self.tmp3 {
            Some(tmp3) => any_is_zero(&[tmp1, tmp2, tmp3.reg, rd]),
            None => any_is_zero(&[tmp1, tmp2, rd]),
        }
    }

    /// Returns whether two of the registers that it writes are one, or one of them is read.
    fn has_clash(&self) -> bool
        ensures { result ≡ (sequence_faults self.now).clashing }
    {
        let (tmp1, tmp2, rd) = (self.tmp1.reg, self.tmp2.reg, self.rd.reg);
        match self.tmp3 {
            Some(tmp3) => four_clash(tmp1, tmp2, tmp3.reg, rd, self.rs),
            None => three_clash(tmp1, tmp2, rd, self.rs),
        }
    }
}

/// Returns whether the test holds of a register of an instruction that is such a sequence; of any other it holds of none.
#[inline(never)]
pub fn sequence_has(test: RegisterTest, inst: &Inst) -> bool
    ensures { result ≡ list_any (test_of test) (registers_by (sequence_of inst.now)) }
{
    match inst.sequence() {
        Some(sequence) => sequence.has_register(test),
        None => false,
    }
}

/// Returns whether x0 is one of the registers that a sequence writes.
#[inline(never)]
pub fn sequence_has_zero(inst: &Inst) -> bool
    ensures { result ≡ sequence_breaks (λ (f : Faults). f.zeroed) (sequence_of inst.now) }
{
    match inst.sequence() {
        Some(sequence) => sequence.has_zero(),
        None => false,
    }
}

/// Returns whether two of the registers that a sequence writes are one, or one of them is read.
#[inline(never)]
pub fn sequence_has_clash(inst: &Inst) -> bool
    ensures { result ≡ sequence_breaks (λ (f : Faults). f.clashing) (sequence_of inst.now) }
{
    match inst.sequence() {
        Some(sequence) => sequence.has_clash(),
        None => false,
    }
}

/// Returns whether a sequence is of a type that it doesn't take.
#[inline(never)]
pub fn sequence_has_bad_type(inst: &Inst) -> bool
    ensures { result ≡ sequence_breaks (λ (f : Faults). f.type) (sequence_of inst.now) }
{
    match inst.sequence() {
        Some(sequence) => !is_int_type(sequence.ty),
        None => false,
    }
}

fn counts(computation: Computation, info: &CountInfo) -> Sequence
    ensures { result ≡ counts computation info.now }
{
    Sequence {
        computation,
        rs: info.rs,
        tmp1: info.tmp,
        tmp2: info.step,
        tmp3: None,
        rd: info.sum,
        ty: info.ty,
    }
}

fn reverses(info: &Brev8Info) -> Sequence
    ensures { result ≡ reverses info.now }
{
    Sequence {
        computation: Computation::ReversedBytes,
        rs: info.rs,
        tmp1: info.step,
        tmp2: info.tmp,
        tmp3: Some(info.tmp2),
        rd: info.rd,
        ty: info.ty,
    }
}

fn count_info(sequence: &Sequence) -> CountInfo
    ensures { result ≡ count_info sequence.now }
{
    CountInfo {
        sum: sequence.rd,
        tmp: sequence.tmp1,
        step: sequence.tmp2,
        rs: sequence.rs,
        ty: sequence.ty,
    }
}

fn brev8_info(tmp2: WritableReg, sequence: &Sequence) -> Brev8Info
    ensures { result ≡ brev8_info tmp2 sequence.now }
{
    Brev8Info {
        rs: sequence.rs,
        ty: sequence.ty,
        step: sequence.tmp1,
        tmp: sequence.tmp2,
        tmp2: sequence.tmp3.unwrap_or(tmp2),
        rd: sequence.rd,
    }
}

impl Inst {
    /// The sequence that the instruction is, where it computes one register of another by one with a loop: `Popcnt`, `Cltz`, `Brev8`.
    pub fn sequence(&self) -> Option<Sequence>
        ensures { result ≡ sequence_of self.now }
    {
        match self {
            Inst::Popcnt { info } => Some(counts(Computation::Ones, info.as_ref())),
            Inst::Cltz { leading, info } => Some(counts(
                Computation::Zeros { leading: *leading },
                info.as_ref(),
            )),
            Inst::Brev8 { info } => Some(reverses(info.as_ref())),
            _ => None,
        }
    }

    /// An instruction with the registers and the type of this sequence in place of its own; one that is no sequence is as it was.
    #[tactic(auto, using(crate::proofs::Descriptions::own_sequence, crate::proofs::Descriptions::sequence_after))]
    pub fn with_sequence(self, sequence: Sequence) -> Inst
        ensures same_kind { result ≡ with_sequence self sequence }
        ensures given { sequence_of result ≡ option_map (replaced_by sequence) (sequence_of self) }
        ensures own { sequence_of self ≡ Some sequence → result ≡ self }
    {
        match self {
            Inst::Popcnt { mut info } => {
                *info.as_mut() = count_info(&sequence);
                Inst::Popcnt { info }
            }
            Inst::Cltz { leading, mut info } => {
                *info.as_mut() = count_info(&sequence);
                Inst::Cltz { leading, info }
            }
            Inst::Brev8 { mut info } => {
                let tmp2 = info.as_ref().tmp2;
                *info.as_mut() = brev8_info(tmp2, &sequence);
                Inst::Brev8 { info }
            }
            other => other,
        }
    }
}
