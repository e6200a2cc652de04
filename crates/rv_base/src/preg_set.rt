//! Sets of the machine's registers.

ghost use Rattle.std.specs.Prelude.{◌≡◌, ℕ, ◌<◌, ◌≢◌, ◌==◌};
ghost use Rattle.std.specs.Int.{bit_at};

use crate::regs::{PReg, RegClass};

/// A set of registers of the machine. Allocates nothing.
#[derive(Clone, Copy, Debug, PartialEq, Eq)]
pub struct PRegSet {
    int: u32,
    float: u32,
    vector: u32,
}

impl PRegSet {
    ghost use Rattle.std.specs.Prelude.{◌≡◌, ℕ, ◌<◌, ◌≢◌, IsTrue, false};
    ghost use Rattle.rv_base.specs.declared.regs.RegClass.{RegClass as Class};
    ghost use Rattle.rv_base.specs.Regs.{IsPReg};
    ghost use Rattle.rv_base.specs.PRegSet.{contains};

    /// The empty set.
    pub fn new() -> PRegSet
        ensures { (class : Class) (number : ℕ) → contains result class number ≡ false }
    {
        PRegSet {
            int: 0,
            float: 0,
            vector: 0,
        }
    }

    /// Adds a register, and leaves the others in or out.
    pub fn add(&mut self, reg: PReg)
        ensures has { IsTrue (contains self.new reg.class reg.number) }
        ensures others { (class : Class) (number : ℕ) → ¬ (IsPReg reg class number) →
            contains self.new class number ≡ contains self.old class number }
    {
        let number = reg.hw_enc();
        match reg.class {
            RegClass::Int => self.int = with_bit(self.int, number),
            RegClass::Float => self.float = with_bit(self.float, number),
            RegClass::Vector => self.vector = with_bit(self.vector, number),
        }
    }

    /// Returns whether the register is in the set.
    pub fn contains(&self, reg: PReg) -> bool
        ensures { result ≡ contains self.now reg.class reg.number }
    {
        let number = reg.hw_enc();
        match reg.class {
            RegClass::Int => has_bit(self.int, number),
            RegClass::Float => has_bit(self.float, number),
            RegClass::Vector => has_bit(self.vector, number),
        }
    }
}

fn with_bit(bits: u32, at: u8) -> u32
    requires { at < 32 }
    ensures set { bit_at result at ≡ 1 }
    ensures others { (i : ℕ) → i ≢ at → bit_at result i ≡ bit_at bits i }
{
    bits | 1 << at
}

fn has_bit(bits: u32, at: u8) -> bool
    requires { at < 32 }
    ensures { result ≡ (bit_at bits at == 1) }
{
    bits >> at & 1 == 1
}
