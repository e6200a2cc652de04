//! A machine that does one operation at a time: the integer machine, with floating-point and vector registers, the rounding
//! mode, a reservation, the vector setting, answers, and a trace of the steps that took one.

ghost use Rattle.std.specs.Prelude.{◌≡◌, ℕ, ◌+◌, ◌++◌, ◌∷◌, [], ◌<◌, ◌≤◌, length, take, OnOk, OnErr, IfOk, None};
ghost use Rattle.rv_machine.specs.Layout.{HasFileRegisters};
ghost use Rattle.rv_machine.specs.State.{byte, reg};
ghost use Rattle.rv_machine.specs.Steps.{fetch};
ghost use Rattle.rv_full.specs.Units.{IsFullState, values_of, freg, vreg, set_freg, set_vreg, set_setting};
ghost use Rattle.rv_full.specs.UnitRows.{unit_row};
ghost use Rattle.rv_full.specs.declared.machine.FullStep.TheVariants.{Stepped};
ghost use Rattle.rv_full.specs.Steps.{unit_next, fstep, next_of, Acts, with_pc, with_reg, with_bytes, with_own, with_answers, with_full, Answers, FullSteps, Ran};
ghost use Rattle.rv_full.specs.Shared.{foreign, is_reserved};
ghost use Rattle.rv_full.specs.View.{zero_full};

use crate::answer::{Answer, Entry};
use crate::answer_ranges::answer_fits;
use crate::units::{Reservation, Setting};
use rv_base::{IsaFlags, List, OutOfMemory};
use rv_machine::{Decoded, IntMachine, MOp, Step, decode};
use std::alloc::Global;
use std::marker::Model;

/// What a step returns.
#[derive(Clone, Copy, Debug, PartialEq, Eq)]
pub enum FullStep {
    Stepped,
    /// There is no step, whatever the answers are, and nothing changed.
    Stopped,
    /// There is a step where an answer of the operation's kind comes first of those left. Nothing changed.
    NeedsAnswer,
}

/// A hart with integer, floating-point and vector registers.
#[derive(Drop)]
pub struct FullMachine {
    pub(crate) alloc: Global,
    pub(crate) integers: IntMachine,
    /// The registers f0 to f31.
    pub(crate) floats: [u64; 32],
    /// The registers v0 to v31.
    pub(crate) vectors: [u128; 32],
    pub(crate) frm: u8,
    pub(crate) reserved: Option<Reservation>,
    pub(crate) setting: Setting,
    /// All answers that were given, of which so many were taken.
    pub(crate) answers: Vec<Answer>,
    pub(crate) answers_taken: usize,
    pub(crate) trace: List<Entry>,
}

impl Model for FullMachine {
    ghost use Rattle.std.specs.Prelude.{◌≤◌, length};
    ghost use Rattle.std.specs.List.{AllByRecursion};
    ghost use Rattle.rv_full.specs.Units.{AnswerFits, AreUnits};
    ghost use Rattle.rv_full.specs.Steps.{Machine};
    ghost use Rattle.rv_full.specs.View.{machine_code, machine_of, units_of};
    ghost use Rattle.rv_full.specs.contracts.units.Reservation as reservation_row;
    ghost use Rattle.rv_full.specs.contracts.units.Setting as setting_row;
    ghost use Rattle.rv_full.specs.contracts.answer.Entry as entry_row;
    ghost use Rattle.rv_full.specs.contracts.answer.Answer as answer_row;

    ghost Value = { Machine };

    ghost coded = { machine_code reservation_row.the_row.coded setting_row.the_row.coded entry_row.the_row.coded answer_row.the_row.coded };

    ghost view = { λ m. machine_of m.integers (units_of m.floats m.vectors m.frm m.reserved m.setting m.trace) m.answers.items m.answers_taken };

    ghost invariant = { λ m. (m.answers_taken ≤ length m.answers.items) × AllByRecursion AnswerFits m.answers.items × AreUnits (units_of m.floats m.vectors m.frm m.reserved m.setting m.trace) };
}

impl Reservation {
    /// Returns whether a byte is one of those reserved.
    fn has(self, at: u64) -> bool
        ensures { result ≡ is_reserved at self }
    {
        at.wrapping_sub(self.address) < u64::from(self.size)
    }
}

impl FullMachine {
    /// All registers, frm and the setting 0, every byte 0, no reservation, no answer and no entry. Takes no memory.
    pub fn new(alloc: Global, flags: IsaFlags, pc: u64) -> FullMachine
        ensures value { result ≡ record { flags = flags; full = zero_full pc } }
        ensures state { IsFullState result.full }
    {
        FullMachine {
            alloc,
            integers: IntMachine::new(alloc, flags, pc),
            floats: [0; 32],
            vectors: [0; 32],
            frm: 0,
            reserved: None,
            setting: Setting { avl: 0, vtype: 0 },
            answers: Vec::new(alloc),
            answers_taken: 0,
            trace: List::new(alloc),
        }
    }

    fn flags(&self) -> IsaFlags
        ensures { result ≡ self.now.flags }
    {
        self.integers.flags()
    }

    /// The address of the next instruction. What the machine is in is always a state.
    pub fn pc(&self) -> u64
        ensures value { result ≡ self.now.full.state.pc }
        ensures state { IsFullState self.now.full }
    {
        self.integers.pc()
    }

    /// The integer register of this number, below 32.
    pub fn reg(&self, n: u8) -> u64
        requires { n < 32 }
        ensures { result ≡ reg self.now.full.state.values n }
    {
        self.integers.reg(n)
    }

    /// The byte at an address, 0 where nothing was written.
    pub fn byte(&self, at: u64) -> u8
        ensures { result ≡ byte self.now.full.state.values.mem at }
    {
        self.integers.byte(at)
    }

    /// The floating-point register of this number, below 32.
    pub fn freg(&self, n: u8) -> u64
        requires { n < 32 }
        ensures { result ≡ freg self.now.full.units n }
    {
        self.floats[usize::from(n)]
    }

    /// The vector register of this number, below 32.
    pub fn vreg(&self, n: u8) -> u128
        requires { n < 32 }
        ensures { result ≡ vreg self.now.full.units n }
    {
        self.vectors[usize::from(n)]
    }

    /// The rounding mode, of three bits.
    pub fn frm(&self) -> u8
        ensures value { result ≡ self.now.full.units.frm }
        ensures below { result < 8 }
    {
        self.frm
    }

    /// The application's vector length, in elements, and vtype.
    pub fn setting(&self) -> (u8, u8)
        ensures avl { result.0 ≡ self.now.full.units.setting.avl }
        ensures vtype { result.1 ≡ self.now.full.units.setting.vtype }
    {
        (self.setting.avl, self.setting.vtype)
    }

    /// The integer machine within: the integer registers, the memory and the program counter.
    pub fn integers(&self) -> &IntMachine
        ensures { result.now ≡ record { flags = self.now.flags; state = self.now.full.state } }
    {
        &self.integers
    }

    /// The registers f0 to f31.
    pub fn floats(&self) -> &[u64; 32]
        ensures { result.now ≡ self.now.full.units.floats }
    {
        &self.floats
    }

    /// The registers v0 to v31.
    pub fn vectors(&self) -> &[u128; 32]
        ensures { result.now ≡ self.now.full.units.vectors }
    {
        &self.vectors
    }

    /// The steps that took an answer, the earliest first.
    pub fn trace(&self) -> &List<Entry>
        ensures { result.now ≡ self.now.full.units.trace }
    {
        &self.trace
    }

    /// How many answers are left.
    pub fn answers_left(&self) -> usize
        ensures { result ≡ length self.now.full.answers }
    {
        self.answers.len() - self.answers_taken
    }

    pub fn set_pc(&mut self, pc: u64)
        ensures { self.new ≡ with_pc self.old pc }
    {
        self.integers.set_pc(pc);
    }

    /// Writes the integer register of this number, below 32; x0 stays 0.
    pub fn set_reg(&mut self, n: u8, value: u64)
        requires { n < 32 }
        ensures { self.new ≡ with_reg self.old n value }
    {
        self.integers.set_reg(n, value);
    }

    /// Writes the floating-point register of this number, below 32.
    pub fn set_freg(&mut self, n: u8, bits: u64)
        requires { n < 32 }
        ensures { self.new ≡ with_own self.old (set_freg self.old.full.units n bits) }
    {
        self.floats[usize::from(n)] = bits;
    }

    /// Writes the vector register of this number, below 32.
    pub fn set_vreg(&mut self, n: u8, bits: u128)
        requires { n < 32 }
        ensures { self.new ≡ with_own self.old (set_vreg self.old.full.units n bits) }
    {
        self.vectors[usize::from(n)] = bits;
    }

    /// Sets the vector length, below 32, and vtype.
    pub fn set_setting(&mut self, avl: u8, vtype: u8)
        requires { avl < 32 }
        ensures { self.new ≡ with_own self.old (set_setting self.old.full.units (record { avl = avl; vtype = vtype })) }
    {
        self.setting = Setting { avl, vtype };
    }

    /// Writes bytes at an address and on; after the last address comes 0.
    pub fn load_image(&mut self, at: u64, bytes: &[u8]) -> Result<(), OutOfMemory>
        ensures ok { OnOk result (self.new ≡ with_bytes self.old at bytes.now) }
        ensures err { OnErr result ((k : ℕ) × (k < length bytes.now) × (self.new ≡ with_bytes self.old at (take k bytes.now))) }
    {
        self.integers.load_image(at, bytes)
    }

    /// One more answer, after those that are left.
    pub fn give(&mut self, answer: Answer) -> Result<(), OutOfMemory>
        ensures ok { OnOk result (self.new ≡ with_answers self.old (self.old.full.answers ++ answer ∷ [])) }
        ensures err { OnErr result (self.new ≡ self.old) }
    {
        answer_fits(&answer);
        self.answers.push(answer)?;
        Ok(())
    }

    /// Another hart writes a byte, which ends the reservation where that byte is reserved.
    pub fn foreign_write(&mut self, at: u64, byte: u8) -> Result<(), OutOfMemory>
        ensures ok { OnOk result (self.new ≡ with_full self.old (foreign (at, byte) self.old.full)) }
        ensures err { OnErr result (self.new ≡ self.old) }
    {
        self.integers.load_image(at, &[byte])?;
        if let Some(reserved) = self.reserved {
            if reserved.has(at) {
                self.reserved = None;
            }
        }
        Ok(())
    }

    /// The four bytes from an address on, the lowest first; after the last address comes 0.
    pub fn word(&self, at: u64) -> u32
        ensures { result ≡ fetch self.now.full.state.values.mem at }
    {
        self.integers.word(at)
    }

    /// To the address after an operation's word.
    pub(crate) fn go_on(&mut self, d: Decoded) -> FullStep
        ensures stepped { result ≡ Stepped }
        ensures state { self.new ≡ with_pc self.old (next_of d self.old) }
    {
        self.set_pc(self.pc().wrapping_add(u64::from(d.len)));
        FullStep::Stepped
    }

    fn act(&mut self, d: Decoded) -> Result<FullStep, OutOfMemory>
        requires { HasFileRegisters d }
        ensures ok { IfOk result (λ step. Acts step (unit_row d (values_of self.old.full)) d self.old self.new) }
        ensures err { OnErr result (self.new ≡ self.old) }
    {
        match d.op {
            MOp::Base(_) | MOp::Load(_) | MOp::Store(_) | MOp::Alu(_) => Ok(FullStep::Stopped),
            MOp::Carry(op) => Ok(self.act_carry(op, d)),
            MOp::Atomic(op, width) => self.act_atomic(op, width, d),
            MOp::Csr(op) => Ok(self.act_csr(op, d)),
            MOp::FloatLoad(format) => Ok(self.act_float_load(format, d)),
            MOp::FloatStore(format) => self.act_float_store(format, d),
            MOp::Float(format, op) => self.act_float(format, op, d),
            MOp::VecMem(op) => self.act_vector_memory(op, d),
            MOp::Vec { funct6, funct3 } => self.act_vector(funct6, funct3, d),
        }
    }

    fn unit_step(&mut self) -> Result<FullStep, OutOfMemory>
        ensures ok { IfOk result (λ step. Answers step (unit_next self.old.flags self.old.full) self.old self.new) }
        ensures err { OnErr result (self.new ≡ self.old) }
    {
        let pc = self.pc();
        if pc % 2 != 0 {
            return Ok(FullStep::Stopped);
        }
        match decode(self.flags(), self.word(pc)) {
            Some(decoded) => self.act(decoded),
            None => Ok(FullStep::Stopped),
        }
    }

    /// One step, where there is one. After a refusal nothing has changed.
    #[tactic(auto, unfolding(crate::specs::Steps::fnext))]
    pub fn step(&mut self) -> Result<FullStep, OutOfMemory>
        ensures ok { IfOk result (λ step. FullSteps step self.old self.new) }
        ensures err { OnErr result (self.new ≡ self.old) }
    {
        match self.integers.step()? {
            Step::Stepped => Ok(FullStep::Stepped),
            Step::Stopped => self.unit_step(),
        }
    }

    /// At most n steps. Answers how many were done, fewer only where there is no next one or it needs an answer.
    pub fn run(&mut self, n: u64) -> Result<u64, OutOfMemory>
        ensures ran { IfOk result (λ k. Ran k self.old self.new) }
        ensures within { IfOk result (λ k. k ≤ n) }
        ensures stopped { IfOk result (λ k. k < n → fstep self.new.flags self.new.full ≡ None) }
        ensures err { OnErr result ((k : ℕ) × (k < n) × Ran k self.old self.new) }
    {
        for done in 0..n {
            match self.step()? {
                FullStep::Stepped => {}
                FullStep::Stopped | FullStep::NeedsAnswer => return Ok(done),
            }
        }
        Ok(n)
    }
}
