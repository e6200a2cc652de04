//! Addresses of vector loads and stores (the manual's chapter "V", "Vector Load/Store Addressing Modes").

use rv_base::{AMode, OperandVisitor, OutOfMemory};

/// The address of a vector with unit stride: its elements lie one after the other.
#[derive(Clone, Copy, Debug)]
pub struct VecAMode {
    pub base: AMode,
}

impl VecAMode {
    ghost use Rattle.std.specs.Prelude.{◌≡◌, ◌++◌, OnOk, OnErr};
    ghost use Rattle.rv_base.specs.AMode.{operands_of, registers_of, IsRenamed};

    /// Hands over the register that the address reads, and keeps the one that the visitor gives in its place.
    pub fn get_operands<V: OperandVisitor>(&mut self, collector: &mut V) -> Result<(), OutOfMemory>
        ensures ok { OnOk result (V.recorded collector.new ≡ V.recorded collector.old ++ operands_of self.old.base) }
        ensures given { OnOk result (V.given collector.new ≡ V.given collector.old ++ registers_of self.new.base) }
        ensures err { OnErr result (V.recorded collector.new ≡ V.recorded collector.old) }
        ensures none_given { OnErr result (V.given collector.new ≡ V.given collector.old) }
        ensures same_place { IsRenamed self.old.base self.new.base }
        ensures kept { OnErr result (self.new ≡ self.old) }
    {
        self.base.get_operands(collector)
    }

    /// Bits 27 and 26 of the word, `mop`: unit stride.
    pub fn mop(&self) -> u32
        ensures { result ≡ 0 }
    {
        0b00
    }

    /// Bits 24 to 20 of a load's word, `lumop`: a plain unit-stride load.
    pub fn lumop(&self) -> u32
        ensures { result ≡ 0 }
    {
        0b00000
    }

    /// Bits 24 to 20 of a store's word, `sumop`: a plain unit-stride store.
    pub fn sumop(&self) -> u32
        ensures { result ≡ 0 }
    {
        0b00000
    }

    /// Bits 31 to 29 of the word, `nf`: the fields of a segment, less one.
    pub fn nf(&self) -> u32
        ensures { result ≡ 0 }
    {
        0b000
    }
}
