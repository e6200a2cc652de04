//! A machine that does one operation at a time: one hart of "2.1 Programmers' Model", with the integer registers.

ghost use Rattle.std.specs.Prelude.{◌≡◌, ℕ, ◌+◌, ◌^◌, ◌<◌, ◌≤◌, length, take, ◌∷◌, OnOk, OnErr, IfOk, IfSome, None};
ghost use Rattle.std.specs.FinMap as map;
ghost use Rattle.rv_machine.specs.Layout.{HasFileRegisters};
ghost use Rattle.rv_machine.specs.State.{IsState, byte, reg};
ghost use Rattle.rv_machine.specs.declared.machine.Step.TheVariants.{Stepped};
ghost use Rattle.rv_machine.specs.Effects.{x_of, y_of, imm_of, next_of, address_of, puts, writes, links, branches, alu_result, base_act, act};
ghost use Rattle.rv_machine.specs.Memory.{load_bytes, load_result, store_bytes};
ghost use Rattle.rv_machine.specs.Steps.{fetch, istep, Machine, zero_at, with_state, with_pc, with_reg, with_memory, with_bytes, HasBytes, Goes, Steps, Ran};

use crate::arithmetic::is_signed_below;
use crate::bits::bit_result;
use crate::decoding::{Decoded, int_decode};
use crate::int::int_result;
use crate::muldiv::mul_result;
use crate::ops::{AluOp, BaseOp, LoadOp, MOp, StoreOp};
use rv_base::{IsaFlags, OutOfMemory};
use std::alloc::{AllocError, Global};
use std::collections::BTreeMap;
use std::collections::btree_map::Range;
use std::marker::Model;

/// What a step returns.
#[derive(Clone, Copy, Debug, PartialEq, Eq)]
pub enum Step {
    Stepped,
    /// There is no step, and nothing changed.
    Stopped,
}

/// A hart with the integer registers, and a memory of 2^64 bytes that holds only what was written.
#[derive(Drop)]
pub struct IntMachine {
    flags: IsaFlags,
    pc: u64,
    /// The registers x1 to x31.
    regs: [u64; 31],
    bytes: BTreeMap<u64, u8>,
}

impl Model for IntMachine {
    ghost use Rattle.rv_machine.specs.Steps.{Machine};
    ghost use Rattle.rv_machine.specs.View.{machine_code, machine_of};
    ghost use Rattle.rv_machine.specs.State.{IsState};

    ghost Value = { Machine };

    ghost coded = { machine_code };

    ghost view = { λ m. machine_of m.flags m.pc m.regs m.bytes.entries };

    ghost invariant = { λ m. IsState (machine_of m.flags m.pc m.regs m.bytes.entries).state };
}

/// What an operation computes of rs1, rs2 and its immediate.
fn alu_result(op: AluOp, x: u64, y: u64, imm: u64) -> u64
    ensures { result ≡ alu_result op x y imm }
{
    match op {
        AluOp::Int(op) => int_result(op, x, y, imm),
        AluOp::Mul(op) => mul_result(op, x, y),
        AluOp::Bit(op) => bit_result(op, x, y, imm),
    }
}

/// The next byte of those written from some address on, where it is at this address.
fn byte_at(bytes: &mut Range<'_, u64, u8>, at: u64) -> Option<u8>
    ensures { IfSome result (λ byte. bytes.old ≡ (at, byte) ∷ bytes.new) }
{
    match bytes.next() {
        Some((place, byte)) if *place == at => Some(*byte),
        _ => None,
    }
}

impl IntMachine {
    /// All registers 0, and every byte 0. Takes no memory.
    pub fn new(alloc: Global, flags: IsaFlags, pc: u64) -> IntMachine
        ensures value { result ≡ record { flags = flags; state = zero_at pc } }
        ensures state { IsState result.state }
    {
        IntMachine {
            flags,
            pc,
            regs: [0; 31],
            bytes: BTreeMap::new(alloc),
        }
    }

    pub fn flags(&self) -> IsaFlags
        ensures { result ≡ self.now.flags }
    {
        self.flags
    }

    /// The address of the next instruction. What the machine is in is always a state.
    pub fn pc(&self) -> u64
        ensures value { result ≡ self.now.state.pc }
        ensures state { IsState self.now.state }
    {
        self.pc
    }

    /// The register of this number, below 32.
    pub fn reg(&self, n: u8) -> u64
        requires { n < 32 }
        ensures { result ≡ reg self.now.state.values n }
    {
        if n == 0 {
            0
        } else {
            self.regs[usize::from(n) - 1]
        }
    }

    /// The byte at an address, 0 where nothing was written.
    pub fn byte(&self, at: u64) -> u8
        ensures { result ≡ byte self.now.state.values.mem at }
    {
        self.bytes.get(&at).copied().unwrap_or(0)
    }

    pub fn set_pc(&mut self, pc: u64)
        ensures value { self.new ≡ with_pc self.old pc }
        ensures state { IsState self.new.state }
    {
        self.pc = pc;
    }

    /// Writes the register of this number, below 32; x0 stays 0.
    pub fn set_reg(&mut self, n: u8, value: u64)
        requires { n < 32 }
        ensures value { self.new ≡ with_reg self.old n value }
        ensures state { IsState self.new.state }
        ensures written { 0 < n → reg self.new.state.values n ≡ value }
    {
        if n > 0 {
            self.regs[usize::from(n) - 1] = value;
        }
    }

    /// Writes a byte, and returns the one that was written there before, if any was.
    pub fn set_byte(&mut self, at: u64, byte: u8) -> Result<Option<u8>, OutOfMemory>
        ensures ok { OnOk result (self.new ≡ with_memory self.old (map.insert self.old.state.values.mem at byte)) }
        ensures before { IfOk result (λ before. before ≡ map.get self.old.state.values.mem at) }
        ensures absent { OnErr result (map.get self.old.state.values.mem at ≡ None) }
        ensures err { OnErr result (self.new ≡ self.old) }
    {
        let before = self.bytes.insert(at, byte)?;
        Ok(before)
    }

    /// As if nothing were written at an address.
    fn clear_byte(&mut self, at: u64)
        ensures { self.new ≡ with_memory self.old (map.remove self.old.state.values.mem at) }
    {
        let _ = self.bytes.remove(&at);
    }

    /// Undoes a write of a byte.
    pub fn restore_byte(&mut self, at: u64, before: Option<u8>)
        ensures { (m : Machine) (byte : ℕ) → map.get m.state.values.mem at ≡ before → self.old ≡ with_memory m (map.insert m.state.values.mem at byte) → self.new ≡ m }
    {
        match before {
            Some(byte) => {
                // Takes no memory: only the first byte that is written at an address does.
                let _ = self.set_byte(at, byte);
            }
            None => self.clear_byte(at),
        }
    }

    /// Writes bytes at an address and on, all of them or none; after the last address comes 0.
    pub fn store(&mut self, at: u64, bytes: &[u8]) -> Result<(), OutOfMemory>
        ensures ok { OnOk result (self.new ≡ with_bytes self.old at bytes.now) }
        ensures err { OnErr result (self.new ≡ self.old) }
    {
        let Some((byte, rest)) = bytes.split_first() else {
            return Ok(());
        };
        let before = self.set_byte(at, *byte)?;
        let stored = self.store(at.wrapping_add(1), rest);
        if stored.is_err() {
            self.restore_byte(at, before);
        }
        stored
    }

    /// Writes bytes at an address and on; after the last address comes 0.
    pub fn load_image(&mut self, at: u64, bytes: &[u8]) -> Result<(), OutOfMemory>
        ensures ok { OnOk result (self.new ≡ with_bytes self.old at bytes.now) }
        ensures there { OnOk result (at + length bytes.now ≤ 2 ^ 64 → HasBytes self.new at bytes.now) }
        ensures err { OnErr result ((k : ℕ) × (k < length bytes.now) × (self.new ≡ with_bytes self.old at (take k bytes.now))) }
    {
        let mut place = at;
        for byte in bytes {
            self.set_byte(place, *byte)?;
            place = place.wrapping_add(1);
        }
        Ok(())
    }

    fn halfword(&self, at: u64) -> u16
        ensures { result ≡ load_bytes self.now.state.values.mem at 2 }
    {
        u16::from_le_bytes([self.byte(at), self.byte(at.wrapping_add(1))])
    }

    /// The word at an address, found at once: where each of its bytes was written, and none is after the last address.
    fn written_word(&self, at: u64) -> Option<u32>
        ensures { IfSome result (λ word. word ≡ load_bytes self.now.state.values.mem at 4) }
    {
        if at > u64::MAX - 3 {
            return None;
        }
        let mut bytes = self.bytes.range(at..);
        let first = byte_at(&mut bytes, at)?;
        let second = byte_at(&mut bytes, at + 1)?;
        let third = byte_at(&mut bytes, at + 2)?;
        let fourth = byte_at(&mut bytes, at + 3)?;
        Some(u32::from_le_bytes([first, second, third, fourth]))
    }

    /// The four bytes from an address on, the lowest first; after the last address comes 0.
    pub fn word(&self, at: u64) -> u32
        ensures value { result ≡ load_bytes self.now.state.values.mem at 4 }
        ensures fetched { result ≡ fetch self.now.state.values.mem at }
    {
        if let Some(word) = self.written_word(at) {
            return word;
        }
        u32::from_le_bytes([
            self.byte(at),
            self.byte(at.wrapping_add(1)),
            self.byte(at.wrapping_add(2)),
            self.byte(at.wrapping_add(3)),
        ])
    }

    fn doubleword(&self, at: u64) -> u64
        ensures { result ≡ load_bytes self.now.state.values.mem at 8 }
    {
        let low = self.word(at);
        let high = self.word(at.wrapping_add(4));
        u64::from(high) * (1 << 32) + u64::from(low)
    }

    fn put(&mut self, d: Decoded, value: u64) -> Step
        requires { HasFileRegisters d }
        ensures stepped { result ≡ Stepped }
        ensures state { self.new ≡ with_state self.old (puts d self.old.state value) }
    {
        self.set_reg(d.rd, value);
        self.go_on(d)
    }

    fn link(&mut self, d: Decoded, target: u64) -> Step
        requires { HasFileRegisters d }
        ensures stepped { result ≡ Stepped }
        ensures state { self.new ≡ with_state self.old (links d self.old.state target) }
    {
        self.set_reg(d.rd, self.pc().wrapping_add(u64::from(d.len)));
        self.set_pc(target);
        Step::Stepped
    }

    fn branch(&mut self, d: Decoded, taken: bool) -> Step
        ensures stepped { result ≡ Stepped }
        ensures state { self.new ≡ with_state self.old (branches d self.old.state taken) }
    {
        let distance = if taken {
            d.imm.cast_unsigned()
        } else {
            u64::from(d.len)
        };
        self.set_pc(self.pc().wrapping_add(distance));
        Step::Stepped
    }

    /// To the address after the word.
    fn go_on(&mut self, d: Decoded) -> Step
        ensures stepped { result ≡ Stepped }
        ensures state { self.new ≡ with_pc self.old (next_of d self.old.state) }
    {
        self.set_pc(self.pc().wrapping_add(u64::from(d.len)));
        Step::Stepped
    }

    fn act_base(&mut self, op: BaseOp, d: Decoded) -> Step
        requires { HasFileRegisters d }
        ensures { Goes result (base_act op d self.old.state) self.old self.new }
    {
        let pc = self.pc();
        let imm = d.imm.cast_unsigned();
        let x = self.reg(d.rs1);
        let y = self.reg(d.rs2);
        match op {
            BaseOp::Lui => self.put(d, imm << 12),
            BaseOp::Auipc => self.put(d, pc.wrapping_add(imm << 12)),
            BaseOp::Jal => self.link(d, pc.wrapping_add(imm)),
            BaseOp::Jalr => self.link(d, x.wrapping_add(imm) / 2 * 2),
            BaseOp::Beq => self.branch(d, x == y),
            BaseOp::Bne => self.branch(d, x != y),
            BaseOp::Blt => self.branch(d, is_signed_below(x, y)),
            BaseOp::Bge => self.branch(d, !is_signed_below(x, y)),
            BaseOp::Bltu => self.branch(d, x < y),
            BaseOp::Bgeu => self.branch(d, x >= y),
            BaseOp::Fence => self.go_on(d),
            BaseOp::Ebreak => Step::Stopped,
        }
    }

    /// The address of a load or a store.
    fn address(&self, d: Decoded) -> u64
        requires { HasFileRegisters d }
        ensures { result ≡ address_of d self.now.state }
    {
        self.reg(d.rs1).wrapping_add(d.imm.cast_unsigned())
    }

    /// What a load from an address puts in rd.
    fn load_result(&self, op: LoadOp, at: u64) -> u64
        ensures { result ≡ load_result op self.now.state.values.mem at }
    {
        match op {
            LoadOp::Lb => i64::from(self.byte(at).cast_signed()).cast_unsigned(),
            LoadOp::Lh => i64::from(self.halfword(at).cast_signed()).cast_unsigned(),
            LoadOp::Lw => i64::from(self.word(at).cast_signed()).cast_unsigned(),
            LoadOp::Lbu => u64::from(self.byte(at)),
            LoadOp::Lhu => u64::from(self.halfword(at)),
            LoadOp::Lwu => u64::from(self.word(at)),
            LoadOp::Ld => self.doubleword(at),
        }
    }

    fn act_load(&mut self, op: LoadOp, d: Decoded) -> Step
        requires { HasFileRegisters d }
        ensures stepped { result ≡ Stepped }
        ensures state { self.new ≡ with_state self.old (puts d self.old.state (load_result op self.old.state.values.mem (address_of d self.old.state))) }
    {
        let value = self.load_result(op, self.address(d));
        self.put(d, value)
    }

    fn act_store(&mut self, op: StoreOp, d: Decoded) -> Result<Step, OutOfMemory>
        requires { HasFileRegisters d }
        ensures stepped { IfOk result (λ step. step ≡ Stepped) }
        ensures state { OnOk result (self.new ≡ with_state self.old (writes d self.old.state (store_bytes op (y_of d self.old.state)))) }
        ensures err { OnErr result (self.new ≡ self.old) }
    {
        let bytes = self.reg(d.rs2).to_le_bytes();
        self.store(self.address(d), &bytes[..op.width()])?;
        Ok(self.go_on(d))
    }

    fn act_alu(&mut self, op: AluOp, d: Decoded) -> Step
        requires { HasFileRegisters d }
        ensures stepped { result ≡ Stepped }
        ensures state { self.new ≡ with_state self.old (puts d self.old.state (alu_result op (x_of d self.old.state) (y_of d self.old.state) (imm_of d))) }
    {
        let x = self.reg(d.rs1);
        let y = self.reg(d.rs2);
        self.put(d, alu_result(op, x, y, d.imm.cast_unsigned()))
    }

    fn act(&mut self, d: Decoded) -> Result<Step, OutOfMemory>
        requires { HasFileRegisters d }
        ensures ok { IfOk result (λ step. Goes step (act d self.old.state) self.old self.new) }
        ensures err { OnErr result (self.new ≡ self.old) }
    {
        match d.op {
            MOp::Base(op) => Ok(self.act_base(op, d)),
            MOp::Load(op) => Ok(self.act_load(op, d)),
            MOp::Store(op) => self.act_store(op, d),
            MOp::Alu(op) => Ok(self.act_alu(op, d)),
            MOp::Carry(_)
            | MOp::Atomic(_, _)
            | MOp::Csr(_)
            | MOp::FloatLoad(_)
            | MOp::FloatStore(_)
            | MOp::Float(_, _)
            | MOp::VecMem(_)
            | MOp::Vec { .. } => Ok(Step::Stopped),
        }
    }

    /// One step, where there is one. After a refusal nothing has changed.
    #[tactic(auto, unfolding(crate::specs::Steps::istep))]
    pub fn step(&mut self) -> Result<Step, OutOfMemory>
        ensures ok { IfOk result (λ step. Steps step self.old self.new) }
        ensures err { OnErr result (self.new ≡ self.old) }
    {
        if self.pc() % 2 != 0 {
            return Ok(Step::Stopped);
        }
        match int_decode(self.flags(), self.word(self.pc())) {
            Some(decoded) => self.act(decoded),
            None => Ok(Step::Stopped),
        }
    }

    /// At most n steps. Answers how many were done, fewer only where there is no next one.
    pub fn run(&mut self, n: u64) -> Result<u64, OutOfMemory>
        ensures ran { IfOk result (λ k. Ran k self.old self.new) }
        ensures within { IfOk result (λ k. k ≤ n) }
        ensures stopped { IfOk result (λ k. k < n → istep self.new.flags self.new.state ≡ None) }
        ensures err { OnErr result ((k : ℕ) × (k < n) × Ran k self.old self.new) }
    {
        for done in 0..n {
            match self.step()? {
                Step::Stepped => {}
                Step::Stopped => return Ok(done),
            }
        }
        Ok(n)
    }

    /// The addresses at which bytes were written, in order.
    pub fn addresses(&self, alloc: Global) -> Result<Vec<u64>, OutOfMemory>
        ensures { IfOk result (λ addresses. addresses.items ≡ map.keys self.now.state.values.mem) }
    {
        let mut addresses = Vec::new(alloc);
        for address in self.bytes.keys() {
            addresses.push(*address)?;
        }
        Ok(addresses)
    }
}

impl Clone for IntMachine {
    ghost is_clone = { λ machine clone. clone ≡ machine };

    /// A machine in the same state.
    fn clone(&self) -> Result<IntMachine, AllocError> {
        Ok(IntMachine {
            flags: self.flags,
            pc: self.pc,
            regs: self.regs,
            bytes: self.bytes.clone()?,
        })
    }
}
