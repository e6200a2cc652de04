//! What the operations of "V" do.

ghost use Rattle.std.specs.Prelude.{◌≡◌, ◌≤◌, ◌<◌, ◌++◌, true, OnOk, OnErr, IfOk};
ghost use Rattle.rv_machine.specs.Layout.{HasFileRegisters};
ghost use Rattle.rv_full.specs.Units.{values_of};
ghost use Rattle.rv_full.specs.Rows.{all_low, put_units, put_memory, entry_of, noted};
ghost use Rattle.rv_full.specs.Vectors.{is_legal_pair, is_legal, mask_of, first_source, arithmetic_inputs, set_vregs, moved, registers_row, arithmetic_row, vector_row, bytes_at, store_some, memory_inputs, span_of, vector_load_row, bytes_row, vector_store_row, setting_row, vector_memory_row};
ghost use Rattle.rv_full.specs.declared.shapes.VectorShape.TheVariants as shape_of;
ghost use Rattle.rv_full.specs.Steps.{Acts, with_own, goes_on, stored_some};

use crate::answer::Answer;
use crate::machine::{FullMachine, FullStep};
use crate::shapes::{Target, VectorShape, vector_shape};
use rv_base::{List, OutOfMemory};
use rv_machine::{Decoded, VecMemOp};

/// Returns whether a length multiplier and an element width go together.
fn is_legal_pair(multiplier: u8, width: u8) -> bool
    ensures { result ≡ is_legal_pair multiplier width }
{
    if multiplier < 4 {
        return width < 4;
    }
    match multiplier {
        5 => width < 1,
        6 => width < 2,
        7 => width < 3,
        _ => false,
    }
}

/// Returns whether each register's number is below 32.
fn are_low(registers: &[(u8, u128)]) -> bool
    ensures { result ≡ all_low registers.now }
{
    for register in registers {
        if register.0 >= 32 {
            return false;
        }
    }
    true
}

impl FullMachine {
    fn is_legal(&self) -> bool
        ensures { result ≡ is_legal self.now.full.units.setting }
    {
        is_legal_pair(self.setting.vtype % 8, self.setting.vtype / 8 % 8)
    }

    /// The mask, where there is one.
    fn push_mask(&self, d: Decoded, inputs: &mut Vec<u128>) -> Result<(), OutOfMemory>
        ensures { OnOk result (inputs.new.items ≡ inputs.old.items ++ mask_of d self.now.full.units) }
    {
        if !d.vm {
            inputs.push(self.vreg(0))?;
        }
        Ok(())
    }

    fn push_first(&self, funct3: u8, d: Decoded, inputs: &mut Vec<u128>) -> Result<(), OutOfMemory>
        requires { HasFileRegisters d }
        ensures { OnOk result (inputs.new.items ≡ inputs.old.items ++ first_source funct3 d (values_of self.now.full)) }
    {
        match funct3 {
            3 => {}
            4 => inputs.push(u128::from(self.reg(d.rs1)))?,
            5 => inputs.push(u128::from(self.freg(d.rs1)))?,
            6 => inputs.push(u128::from(self.reg(d.rs1)))?,
            _ => inputs.push(self.vreg(d.rs1))?,
        }
        Ok(())
    }

    fn arithmetic_inputs(&self, funct3: u8, d: Decoded) -> Result<List<u128>, OutOfMemory>
        requires { HasFileRegisters d }
        ensures { IfOk result (λ inputs. inputs ≡ arithmetic_inputs funct3 d (values_of self.now.full)) }
    {
        let mut inputs = Vec::new(self.alloc);
        self.push_first(funct3, d, &mut inputs)?;
        inputs.push(self.vreg(d.rs2))?;
        inputs.push(self.vreg(d.rd))?;
        self.push_mask(d, &mut inputs)?;
        Ok(List::from_vec(inputs))
    }

    fn memory_inputs(&self, d: Decoded) -> Result<List<u128>, OutOfMemory>
        requires { HasFileRegisters d }
        ensures { IfOk result (λ inputs. inputs ≡ memory_inputs d (values_of self.now.full)) }
    {
        let mut inputs = Vec::new(self.alloc);
        inputs.push(u128::from(self.reg(d.rs1)))?;
        inputs.push(self.vreg(d.rd))?;
        self.push_mask(d, &mut inputs)?;
        Ok(List::from_vec(inputs))
    }

    fn set_vregs(&mut self, registers: &[(u8, u128)])
        requires { all_low registers.now ≡ true }
        ensures { self.new ≡ with_own self.old (set_vregs self.old.full.units registers.now) }
    {
        for register in registers {
            self.set_vreg(register.0, register.1);
        }
    }

    /// Vector registers are taken, noted and put.
    fn take_registers(
        &mut self,
        inputs: List<u128>,
        span: List<u8>,
        d: Decoded,
    ) -> Result<FullStep, OutOfMemory>
        ensures ok { IfOk result (λ step. Acts step (registers_row inputs span d (values_of self.old.full)) d self.old self.new) }
        ensures err { OnErr result (self.new ≡ self.old) }
    {
        let Some(registers) = self.first_vectors()? else {
            return Ok(FullStep::NeedsAnswer);
        };
        if !are_low(registers.as_slice()) {
            return Ok(FullStep::NeedsAnswer);
        }
        let answer = List::from_slice(self.alloc, registers.as_slice())?;
        self.note(d, inputs, span, Answer::Vectors(answer))?;
        self.take();
        self.set_vregs(registers.as_slice());
        Ok(self.go_on(d))
    }

    /// Registers, one after the other.
    fn move_registers(&mut self, from: u8, to: u8, count: u8)
        requires from { from < 32 }
        requires to { to < 32 }
        requires count { count ≤ 32 }
        ensures { self.new ≡ with_own self.old (moved self.old.full.units from to count) }
    {
        for n in 0..count {
            let bits = self.vreg((from + n) % 32);
            self.set_vreg((to + n) % 32, bits);
        }
    }

    fn act_arithmetic(
        &mut self,
        shape: VectorShape,
        funct3: u8,
        d: Decoded,
    ) -> Result<FullStep, OutOfMemory>
        requires { HasFileRegisters d }
        ensures ok { IfOk result (λ step. Acts step (arithmetic_row shape funct3 d (values_of self.old.full)) d self.old self.new) }
        ensures err { OnErr result (self.new ≡ self.old) }
    {
        let inputs = self.arithmetic_inputs(funct3, d)?;
        match shape {
            VectorShape::Arithmetic => self.take_registers(inputs, List::new(self.alloc), d),
            VectorShape::ToInteger => self.take_number(Target::Integer, inputs, d),
            VectorShape::ToFloat => self.take_number(Target::Float, inputs, d),
            VectorShape::Move => {
                self.move_registers(d.rs2, d.rd, d.rs1 + 1);
                Ok(self.go_on(d))
            }
        }
    }

    pub(crate) fn act_vector(
        &mut self,
        funct6: u8,
        funct3: u8,
        d: Decoded,
    ) -> Result<FullStep, OutOfMemory>
        requires { HasFileRegisters d }
        ensures ok { IfOk result (λ step. Acts step (vector_row funct6 funct3 d (values_of self.old.full)) d self.old self.new) }
        ensures err { OnErr result (self.new ≡ self.old) }
    {
        if !self.is_legal() {
            return Ok(FullStep::Stopped);
        }
        self.act_arithmetic(vector_shape(funct6, funct3), funct3, d)
    }

    /// So many bytes from an address on.
    fn bytes_at(&self, at: u64, count: u64) -> Result<List<u8>, OutOfMemory>
        ensures { IfOk result (λ bytes. bytes ≡ bytes_at self.now.full.state.values.mem at count) }
    {
        let mut bytes = List::new(self.alloc);
        for n in 0..count {
            bytes.push(self.byte(at.wrapping_add(n)))?;
        }
        Ok(bytes)
    }

    /// The length of a load's or a store's span, in bytes.
    fn span(&self, element: u64) -> u64
        requires { element ≤ 8 }
        ensures { result ≡ span_of element (values_of self.now.full) }
    {
        u64::from(self.setting.avl) * element
    }

    fn act_vector_load(&mut self, element: u64, d: Decoded) -> Result<FullStep, OutOfMemory>
        requires registers { HasFileRegisters d }
        requires element { element ≤ 8 }
        ensures ok { IfOk result (λ step. Acts step (vector_load_row element d (values_of self.old.full)) d self.old self.new) }
        ensures err { OnErr result (self.new ≡ self.old) }
    {
        if !self.is_legal() {
            return Ok(FullStep::Stopped);
        }
        let inputs = self.memory_inputs(d)?;
        let span = self.bytes_at(self.reg(d.rs1), self.span(element))?;
        self.take_registers(inputs, span, d)
    }

    /// Writes bytes at an address and on, and notes the store: both or neither.
    fn store_some(
        &mut self,
        at: u64,
        bytes: &[Option<u8>],
        d: Decoded,
        inputs: List<u128>,
        answer: List<Option<u8>>,
    ) -> Result<(), OutOfMemory>
        ensures ok { OnOk result (self.new ≡ stored_some self.old at bytes.now d inputs answer) }
        ensures err { OnErr result (self.new ≡ self.old) }
    {
        let Some((byte, rest)) = bytes.split_first() else {
            return self.note(d, inputs, List::new(self.alloc), Answer::Stored(answer));
        };
        let next = at.wrapping_add(1);
        let Some(byte) = *byte else {
            return self.store_some(next, rest, d, inputs, answer);
        };
        let before = self.integers.set_byte(at, byte)?;
        let stored = self.store_some(next, rest, d, inputs, answer);
        if stored.is_err() {
            self.integers.restore_byte(at, before);
        }
        stored
    }

    fn take_bytes(&mut self, count: u64, d: Decoded) -> Result<FullStep, OutOfMemory>
        requires { HasFileRegisters d }
        ensures ok { IfOk result (λ step. Acts step (bytes_row count d (values_of self.old.full)) d self.old self.new) }
        ensures err { OnErr result (self.new ≡ self.old) }
    {
        let Some(bytes) = self.first_stored()? else {
            return Ok(FullStep::NeedsAnswer);
        };
        if bytes.len() as u64 != count {
            return Ok(FullStep::NeedsAnswer);
        }
        let inputs = self.memory_inputs(d)?;
        let answer = List::from_slice(self.alloc, bytes.as_slice())?;
        self.store_some(self.reg(d.rs1), bytes.as_slice(), d, inputs, answer)?;
        self.take();
        Ok(self.go_on(d))
    }

    fn act_vector_store(&mut self, element: u64, d: Decoded) -> Result<FullStep, OutOfMemory>
        requires registers { HasFileRegisters d }
        requires element { element ≤ 8 }
        ensures ok { IfOk result (λ step. Acts step (vector_store_row element d (values_of self.old.full)) d self.old self.new) }
        ensures err { OnErr result (self.new ≡ self.old) }
    {
        if !self.is_legal() {
            return Ok(FullStep::Stopped);
        }
        self.take_bytes(self.span(element), d)
    }

    fn act_setting(&mut self, d: Decoded) -> FullStep
        requires { HasFileRegisters d }
        ensures { Acts result (setting_row d (values_of self.old.full)) d self.old self.new }
    {
        let Some(length) = self.first_length() else {
            return FullStep::NeedsAnswer;
        };
        if length > d.rs1 {
            return FullStep::NeedsAnswer;
        }
        self.take();
        self.set_setting(d.rs1, (d.imm.cast_unsigned() & 0xff) as u8);
        self.put_x(d, u64::from(length))
    }

    pub(crate) fn act_vector_memory(
        &mut self,
        op: VecMemOp,
        d: Decoded,
    ) -> Result<FullStep, OutOfMemory>
        requires { HasFileRegisters d }
        ensures ok { IfOk result (λ step. Acts step (vector_memory_row op d (values_of self.old.full)) d self.old self.new) }
        ensures err { OnErr result (self.new ≡ self.old) }
    {
        match op {
            VecMemOp::Vsetivli => Ok(self.act_setting(d)),
            VecMemOp::Vle8 => self.act_vector_load(1, d),
            VecMemOp::Vle16 => self.act_vector_load(2, d),
            VecMemOp::Vle32 => self.act_vector_load(4, d),
            VecMemOp::Vle64 => self.act_vector_load(8, d),
            VecMemOp::Vse8 => self.act_vector_store(1, d),
            VecMemOp::Vse16 => self.act_vector_store(2, d),
            VecMemOp::Vse32 => self.act_vector_store(4, d),
            VecMemOp::Vse64 => self.act_vector_store(8, d),
        }
    }
}
