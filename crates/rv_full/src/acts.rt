//! What the operations of "Zbc", "Zbkb", "A", "Zicsr", "F", "D", "Zfh" and "Zfa" do.

ghost use Rattle.std.specs.Prelude.{◌≡◌, ◌≤◌, ◌<◌, ◌∷◌, [], OnOk, OnErr, IfOk, IfSome, Some, None};
ghost use Rattle.rv_machine.specs.Layout.{HasFileRegisters};
ghost use Rattle.rv_machine.specs.Memory.{load_bytes};
ghost use Rattle.rv_full.specs.Units.{IsReservation, values_of, set_frm, set_reserved};
ghost use Rattle.rv_full.specs.Rows.{Does, address_of, put_x, put_f};
ghost use Rattle.rv_full.specs.Carry.{carry_row};
ghost use Rattle.rv_full.specs.Atomics.{width_bytes, number_at, operand, old_of, reservation_of, has_reserved, conditional, exchange, amo_result, amo_row, lr_row, sc_row, atomic_row, csr_result, csr_row, number_put};
ghost use Rattle.rv_full.specs.Floats.{format_bytes, boxed, low_part, extended, float_load_row, float_store_row, inputs_of, put_number, number_row, is_move, shape_row, float_row};
ghost use Rattle.rv_full.specs.declared.machine.FullStep.TheVariants.{Stepped};
ghost use Rattle.rv_full.specs.Steps.{Acts, goes_on, with_bytes, with_own};

use crate::answer::Answer;
use crate::carry::{carry_result, extend_word};
use crate::machine::{FullMachine, FullStep};
use crate::shapes::{FloatShape, Sources, Target, float_shape};
use crate::units::Reservation;
use rv_base::{List, OutOfMemory};
use rv_machine::{AtomicOp, AtomicWidth, CarryOp, CsrOp, Decoded, FloatFormat, FloatOp};

fn width_bytes(width: AtomicWidth) -> usize
    ensures value { result ≡ width_bytes width }
    ensures register { result ≤ 8 }
{
    match width {
        AtomicWidth::W => 4,
        AtomicWidth::D => 8,
    }
}

/// The part of a register that counts, that of a word sign-extended.
fn operand(width: AtomicWidth, y: u64) -> u64
    ensures { result ≡ operand width y }
{
    match width {
        AtomicWidth::W => extend_word(y),
        AtomicWidth::D => y,
    }
}

/// The new number of a read-modify-write operation.
fn amo_result(op: AtomicOp, x: u64, y: u64) -> u64
    ensures { result ≡ amo_result op x y }
{
    match op {
        AtomicOp::Lr => x,
        AtomicOp::Sc => x,
        AtomicOp::Amoswap => y,
        AtomicOp::Amoadd => x.wrapping_add(y),
        AtomicOp::Amoxor => x ^ y,
        AtomicOp::Amoand => x & y,
        AtomicOp::Amoor => x | y,
        AtomicOp::Amomin => if x.cast_signed() < y.cast_signed() {
            x
        } else {
            y
        },
        AtomicOp::Amomax => if x.cast_signed() < y.cast_signed() {
            y
        } else {
            x
        },
        AtomicOp::Amominu => x.min(y),
        AtomicOp::Amomaxu => x.max(y),
    }
}

/// What goes to `frm`, of its old value and a source.
fn csr_result(op: CsrOp, old: u8, x: u64, imm: u8) -> u8
    requires old { old < 8 }
    ensures value { result ≡ csr_result op old x imm }
    ensures below { result < 8 }
{
    let low = (x % 8) as u8;
    match op {
        CsrOp::Csrrw => low,
        CsrOp::Csrrs => old | low,
        CsrOp::Csrrc => old & (7 - low),
        CsrOp::Csrrwi => imm % 8,
        CsrOp::Csrrsi => old | imm % 8,
        CsrOp::Csrrci => old & (7 - imm % 8),
    }
}

fn format_bytes(format: FloatFormat) -> usize
    ensures value { result ≡ format_bytes format }
    ensures register { result ≤ 8 }
{
    match format {
        FloatFormat::H => 2,
        FloatFormat::S => 4,
        FloatFormat::D => 8,
    }
}

/// A register's low bits of a format, with ones above them.
fn boxed_part(format: FloatFormat, x: u64) -> u64
    ensures { result ≡ boxed format (low_part format x) }
{
    match format {
        FloatFormat::H => (x & 0xffff) + 0xffff_ffff_ffff_0000,
        FloatFormat::S => (x & 0xffff_ffff) + 0xffff_ffff_0000_0000,
        FloatFormat::D => x,
    }
}

/// A register's low bits of a format, sign-extended.
fn extended(format: FloatFormat, x: u64) -> u64
    ensures { result ≡ extended format x }
{
    match format {
        FloatFormat::H => i64::from(((x & 0xffff) as u16).cast_signed()).cast_unsigned(),
        FloatFormat::S => i64::from(((x & 0xffff_ffff) as u32).cast_signed()).cast_unsigned(),
        FloatFormat::D => x,
    }
}

/// Returns whether a sign injection of two sources moves all bits.
fn is_move(format: FloatFormat, d: Decoded) -> bool
    ensures { result ≡ is_move format d }
{
    match format {
        FloatFormat::H => false,
        FloatFormat::S => false,
        FloatFormat::D => d.rs1 == d.rs2,
    }
}

impl FullMachine {
    /// A value goes to the integer register rd.
    pub(crate) fn put_x(&mut self, d: Decoded, value: u64) -> FullStep
        requires { HasFileRegisters d }
        ensures stepped { result ≡ Stepped }
        ensures state { self.new ≡ goes_on self.old d (put_x d value (values_of self.old.full)) self.old.full.answers }
    {
        self.set_reg(d.rd, value);
        self.go_on(d)
    }

    /// A value goes to the floating-point register rd.
    fn put_f(&mut self, d: Decoded, value: u64) -> FullStep
        requires { HasFileRegisters d }
        ensures stepped { result ≡ Stepped }
        ensures state { self.new ≡ goes_on self.old d (put_f d value (values_of self.old.full)) self.old.full.answers }
    {
        self.set_freg(d.rd, value);
        self.go_on(d)
    }

    fn halfword(&self, at: u64) -> u16
        ensures { result ≡ load_bytes self.now.full.state.values.mem at 2 }
    {
        u16::from_le_bytes([self.byte(at), self.byte(at.wrapping_add(1))])
    }

    fn low_word(&self, at: u64) -> u32
        ensures { result ≡ load_bytes self.now.full.state.values.mem at 4 }
    {
        self.word(at)
    }

    fn doubleword(&self, at: u64) -> u64
        ensures { result ≡ load_bytes self.now.full.state.values.mem at 8 }
    {
        u64::from_le_bytes([
            self.byte(at),
            self.byte(at.wrapping_add(1)),
            self.byte(at.wrapping_add(2)),
            self.byte(at.wrapping_add(3)),
            self.byte(at.wrapping_add(4)),
            self.byte(at.wrapping_add(5)),
            self.byte(at.wrapping_add(6)),
            self.byte(at.wrapping_add(7)),
        ])
    }

    /// Writes bytes at an address and on, all of them or none.
    fn store(&mut self, at: u64, bytes: &[u8]) -> Result<(), OutOfMemory>
        ensures ok { OnOk result (self.new ≡ with_bytes self.old at bytes.now) }
        ensures err { OnErr result (self.new ≡ self.old) }
    {
        self.integers.store(at, bytes)
    }

    // ---- "Zbc" and "Zbkb"

    pub(crate) fn act_carry(&mut self, op: CarryOp, d: Decoded) -> FullStep
        requires { HasFileRegisters d }
        ensures { Acts result (carry_row op d (values_of self.old.full)) d self.old self.new }
    {
        let x = self.reg(d.rs1);
        let y = self.reg(d.rs2);
        self.put_x(d, carry_result(op, x, y))
    }

    // ---- "A"

    fn number_at(&self, width: AtomicWidth, at: u64) -> u64
        ensures { result ≡ number_at width self.now.full.state.values.mem at }
    {
        match width {
            AtomicWidth::W => i64::from(self.low_word(at).cast_signed()).cast_unsigned(),
            AtomicWidth::D => self.doubleword(at),
        }
    }

    fn set_reserved(&mut self, reserved: Option<Reservation>)
        requires { IfSome reserved IsReservation }
        ensures { self.new ≡ with_own self.old (set_reserved self.old.full.units reserved) }
    {
        self.reserved = reserved;
    }

    fn reservation(&self, width: AtomicWidth, d: Decoded) -> Reservation
        requires { HasFileRegisters d }
        ensures value { result ≡ reservation_of width d (values_of self.now.full) }
        ensures fits { IsReservation result }
    {
        Reservation {
            address: self.reg(d.rs1),
            size: width_bytes(width) as u8,
        }
    }

    fn has_reserved(&self, own: Reservation) -> bool
        ensures { result ≡ has_reserved self.now.full.units.reserved own }
    {
        match self.reserved {
            Some(reserved) => reserved.address == own.address && reserved.size == own.size,
            None => false,
        }
    }

    fn act_lr(&mut self, width: AtomicWidth, d: Decoded) -> FullStep
        requires { HasFileRegisters d }
        ensures { Acts result (lr_row width d (values_of self.old.full)) d self.old self.new }
    {
        let value = self.number_at(width, self.reg(d.rs1));
        let reservation = self.reservation(width, d);
        self.set_reserved(Some(reservation));
        self.put_x(d, value)
    }

    /// Stores where it may and the bytes are still reserved, and ends the reservation.
    fn conditional(
        &mut self,
        width: AtomicWidth,
        d: Decoded,
        goes_through: bool,
    ) -> Result<FullStep, OutOfMemory>
        requires { HasFileRegisters d }
        ensures stepped { IfOk result (λ step. step ≡ Stepped) }
        ensures state { OnOk result (self.new ≡ goes_on self.old d (conditional width d (values_of self.old.full) goes_through) self.old.full.answers) }
        ensures err { OnErr result (self.new ≡ self.old) }
    {
        let reservation = self.reservation(width, d);
        if goes_through && self.has_reserved(reservation) {
            let bytes = self.reg(d.rs2).to_le_bytes();
            self.store(self.reg(d.rs1), &bytes[..width_bytes(width)])?;
            self.set_reserved(None);
            return Ok(self.put_x(d, 0));
        }
        self.set_reserved(None);
        Ok(self.put_x(d, 1))
    }

    fn act_sc(&mut self, width: AtomicWidth, d: Decoded) -> Result<FullStep, OutOfMemory>
        requires { HasFileRegisters d }
        ensures ok { IfOk result (λ step. Acts step (sc_row width d (values_of self.old.full)) d self.old self.new) }
        ensures err { OnErr result (self.new ≡ self.old) }
    {
        let Some(goes_through) = self.first_success() else {
            return Ok(FullStep::NeedsAnswer);
        };
        let step = self.conditional(width, d, goes_through)?;
        self.take();
        Ok(step)
    }

    fn act_amo(
        &mut self,
        op: AtomicOp,
        width: AtomicWidth,
        d: Decoded,
    ) -> Result<FullStep, OutOfMemory>
        requires { HasFileRegisters d }
        ensures ok { IfOk result (λ step. Acts step (amo_row op width d (values_of self.old.full)) d self.old self.new) }
        ensures err { OnErr result (self.new ≡ self.old) }
    {
        let at = self.reg(d.rs1);
        let old = self.number_at(width, at);
        let new = amo_result(op, old, operand(width, self.reg(d.rs2)));
        let bytes = new.to_le_bytes();
        self.store(at, &bytes[..width_bytes(width)])?;
        Ok(self.put_x(d, old))
    }

    pub(crate) fn act_atomic(
        &mut self,
        op: AtomicOp,
        width: AtomicWidth,
        d: Decoded,
    ) -> Result<FullStep, OutOfMemory>
        requires { HasFileRegisters d }
        ensures ok { IfOk result (λ step. Acts step (atomic_row op width d (values_of self.old.full)) d self.old self.new) }
        ensures err { OnErr result (self.new ≡ self.old) }
    {
        match op {
            AtomicOp::Lr => Ok(self.act_lr(width, d)),
            AtomicOp::Sc => self.act_sc(width, d),
            AtomicOp::Amoswap
            | AtomicOp::Amoadd
            | AtomicOp::Amoxor
            | AtomicOp::Amoand
            | AtomicOp::Amoor
            | AtomicOp::Amomin
            | AtomicOp::Amomax
            | AtomicOp::Amominu
            | AtomicOp::Amomaxu => self.act_amo(op, width, d),
        }
    }

    // ---- "Zicsr"

    fn set_frm(&mut self, frm: u8)
        requires { frm < 8 }
        ensures { self.new ≡ with_own self.old (set_frm self.old.full.units frm) }
    {
        self.frm = frm;
    }

    pub(crate) fn act_csr(&mut self, op: CsrOp, d: Decoded) -> FullStep
        requires { HasFileRegisters d }
        ensures { Acts result (csr_row op d (values_of self.old.full)) d self.old self.new }
    {
        let old = self.frm();
        let new = csr_result(op, old, self.reg(d.rs1), d.rs1);
        self.set_frm(new);
        self.put_x(d, u64::from(old))
    }

    // ---- "F", "D", "Zfh" and "Zfa"

    fn address(&self, d: Decoded) -> u64
        requires { HasFileRegisters d }
        ensures { result ≡ address_of d (values_of self.now.full) }
    {
        self.reg(d.rs1).wrapping_add(d.imm.cast_unsigned())
    }

    /// The number of a format at an address, with ones above it.
    fn boxed_at(&self, format: FloatFormat, at: u64) -> u64
        ensures { result ≡ boxed format (load_bytes self.now.full.state.values.mem at (format_bytes format)) }
    {
        match format {
            FloatFormat::H => u64::from(self.halfword(at)) + 0xffff_ffff_ffff_0000,
            FloatFormat::S => u64::from(self.low_word(at)) + 0xffff_ffff_0000_0000,
            FloatFormat::D => self.doubleword(at),
        }
    }

    pub(crate) fn act_float_load(&mut self, format: FloatFormat, d: Decoded) -> FullStep
        requires { HasFileRegisters d }
        ensures { Acts result (float_load_row format d (values_of self.old.full)) d self.old self.new }
    {
        let value = self.boxed_at(format, self.address(d));
        self.put_f(d, value)
    }

    pub(crate) fn act_float_store(
        &mut self,
        format: FloatFormat,
        d: Decoded,
    ) -> Result<FullStep, OutOfMemory>
        requires { HasFileRegisters d }
        ensures ok { IfOk result (λ step. Acts step (float_store_row format d (values_of self.old.full)) d self.old self.new) }
        ensures err { OnErr result (self.new ≡ self.old) }
    {
        let bytes = self.freg(d.rs2).to_le_bytes();
        self.store(self.address(d), &bytes[..format_bytes(format)])?;
        Ok(self.go_on(d))
    }

    fn inputs_of(&self, sources: Sources, d: Decoded) -> Result<List<u128>, OutOfMemory>
        requires { HasFileRegisters d }
        ensures { IfOk result (λ inputs. inputs ≡ inputs_of sources d (values_of self.now.full)) }
    {
        let x = u128::from(self.reg(d.rs1));
        let a = u128::from(self.freg(d.rs1));
        let b = u128::from(self.freg(d.rs2));
        let c = u128::from(self.freg(d.rs3));
        match sources {
            Sources::Constant => Ok(List::new(self.alloc)),
            Sources::Integer => List::from_slice(self.alloc, &[x]),
            Sources::One => List::from_slice(self.alloc, &[a]),
            Sources::Two => List::from_slice(self.alloc, &[a, b]),
            Sources::Three => List::from_slice(self.alloc, &[a, b, c]),
        }
    }

    /// A number goes to the register rd of a file.
    fn put_number(&mut self, target: Target, d: Decoded, bits: u64) -> FullStep
        requires { HasFileRegisters d }
        ensures stepped { result ≡ Stepped }
        ensures state { self.new ≡ goes_on self.old d (put_number target d bits (values_of self.old.full)) self.old.full.answers }
    {
        match target {
            Target::Integer => self.put_x(d, bits),
            Target::Float => self.put_f(d, bits),
        }
    }

    /// A number is taken, noted and put.
    pub(crate) fn take_number(
        &mut self,
        target: Target,
        inputs: List<u128>,
        d: Decoded,
    ) -> Result<FullStep, OutOfMemory>
        requires { HasFileRegisters d }
        ensures ok { IfOk result (λ step. Acts step (number_row target inputs d (values_of self.old.full)) d self.old self.new) }
        ensures err { OnErr result (self.new ≡ self.old) }
    {
        let Some(bits) = self.first_bits() else {
            return Ok(FullStep::NeedsAnswer);
        };
        self.note(d, inputs, List::new(self.alloc), Answer::Bits(bits))?;
        self.take();
        Ok(self.put_number(target, d, bits))
    }

    fn act_answered(
        &mut self,
        sources: Sources,
        target: Target,
        d: Decoded,
    ) -> Result<FullStep, OutOfMemory>
        requires { HasFileRegisters d }
        ensures ok { IfOk result (λ step. Acts step (number_row target (inputs_of sources d (values_of self.old.full)) d (values_of self.old.full)) d self.old self.new) }
        ensures err { OnErr result (self.new ≡ self.old) }
    {
        let inputs = self.inputs_of(sources, d)?;
        self.take_number(target, inputs, d)
    }

    fn act_sign(&mut self, format: FloatFormat, d: Decoded) -> Result<FullStep, OutOfMemory>
        requires { HasFileRegisters d }
        ensures ok { IfOk result (λ step. Acts step (shape_row FloatShape.Sign format d (values_of self.old.full)) d self.old self.new) }
        ensures err { OnErr result (self.new ≡ self.old) }
    {
        if is_move(format, d) {
            let bits = self.freg(d.rs1);
            return Ok(self.put_f(d, bits));
        }
        self.act_answered(Sources::Two, Target::Float, d)
    }

    fn act_shape(
        &mut self,
        shape: FloatShape,
        format: FloatFormat,
        d: Decoded,
    ) -> Result<FullStep, OutOfMemory>
        requires { HasFileRegisters d }
        ensures ok { IfOk result (λ step. Acts step (shape_row shape format d (values_of self.old.full)) d self.old self.new) }
        ensures err { OnErr result (self.new ≡ self.old) }
    {
        match shape {
            FloatShape::Answered(sources, target) => self.act_answered(sources, target, d),
            FloatShape::ToInteger => {
                let bits = extended(format, self.freg(d.rs1));
                Ok(self.put_x(d, bits))
            }
            FloatShape::ToFloat => {
                let bits = boxed_part(format, self.reg(d.rs1));
                Ok(self.put_f(d, bits))
            }
            FloatShape::Sign => self.act_sign(format, d),
        }
    }

    pub(crate) fn act_float(
        &mut self,
        format: FloatFormat,
        op: FloatOp,
        d: Decoded,
    ) -> Result<FullStep, OutOfMemory>
        requires { HasFileRegisters d }
        ensures ok { IfOk result (λ step. Acts step (float_row format op d (values_of self.old.full)) d self.old self.new) }
        ensures err { OnErr result (self.new ≡ self.old) }
    {
        self.act_shape(float_shape(op), format, d)
    }
}
