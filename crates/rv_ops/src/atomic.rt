//! Atomic operations: the manual's chapter "A", "Zalrsc" and "Zaamo", with the orderings of their words, and the changes that a loop over a
//! load-reserved and a store-conditional makes.

use rv_base::{IrType, OutOfMemory};
use rv_machine::AMO as AMO_OPCODE;
use std::alloc::Global;
use std::fmt;

/// Whether an atomic operation is ordered before what comes after it (`aq`), and after what came before it (`rl`).
#[derive(Clone, Copy, Debug)]
pub enum AMO {
    Relax,
    Release,
    Acquire,
    SeqCst,
}

impl AMO {
    ghost use Rattle.std.specs.Prelude.{◌≡◌, ◌<◌, ◌^◌};
    ghost use Rattle.rv_ops.specs.Atomic.{amo_bits, amo_suffix};

    /// What it adds to a mnemonic: `.aq`, `.rl`, both as `.aqrl`, or nothing.
    pub fn to_static_str(self) -> &'static str
        ensures { result.now ≡ amo_suffix self }
    {
        match self {
            AMO::Relax => "",
            AMO::Release => ".rl",
            AMO::Acquire => ".aq",
            AMO::SeqCst => ".aqrl",
        }
    }

    /// Bits 26 and 25 of a word: `aq` and `rl`.
    pub fn as_u32(self) -> u32
        ensures value { result ≡ amo_bits self }
        ensures width { result < 2 ^ 2 }
    {
        match self {
            AMO::Relax => 0b00,
            AMO::Release => 0b01,
            AMO::Acquire => 0b10,
            AMO::SeqCst => 0b11,
        }
    }
}

/// An atomic operation on a word or on a doubleword, by its mnemonic.
#[derive(Clone, Copy, Debug, PartialEq, Eq)]
pub enum AtomicOP {
    LrW,
    ScW,
    AmoswapW,
    AmoaddW,
    AmoxorW,
    AmoandW,
    AmoorW,
    AmominW,
    AmomaxW,
    AmominuW,
    AmomaxuW,
    LrD,
    ScD,
    AmoswapD,
    AmoaddD,
    AmoxorD,
    AmoandD,
    AmoorD,
    AmominD,
    AmomaxD,
    AmominuD,
    AmomaxuD,
}

impl AtomicOP {
    ghost use Rattle.std.specs.Prelude.{◌≡◌, ◌++◌, ◌<◌, ◌^◌, IfOk, string_bytes};
    ghost use Rattle.rv_machine.specs.Opcodes.{AMO as AMO_NUMBER};
    ghost use Rattle.rv_ops.specs.Atomic.{amo_suffix, atomic_funct3, atomic_funct5, atomic_funct7, atomic_name, is_load_reserved, load_reserved_of, store_conditional_of};

    /// Returns whether it is a load-reserved.
    pub fn is_load(self) -> bool
        ensures { result ≡ is_load_reserved self }
    {
        matches!(self, AtomicOP::LrW | AtomicOP::LrD)
    }

    /// The mnemonic with its ordering, as `amoadd.w.aqrl`.
    pub fn op_name(self, alloc: Global, amo: AMO) -> Result<String, OutOfMemory>
        ensures { IfOk result (λ name. string_bytes name ≡ atomic_name self ++ amo_suffix amo) }
    {
        let name = self.name();
        let suffix = amo.to_static_str();
        Ok(format!(in alloc; "{name}{suffix}")?)
    }

    /// The mnemonic without an ordering, as `amoadd.w`.
    pub fn name(self) -> &'static str
        ensures { result.now ≡ atomic_name self }
    {
        match self {
            AtomicOP::LrW => "lr.w",
            AtomicOP::ScW => "sc.w",
            AtomicOP::AmoswapW => "amoswap.w",
            AtomicOP::AmoaddW => "amoadd.w",
            AtomicOP::AmoxorW => "amoxor.w",
            AtomicOP::AmoandW => "amoand.w",
            AtomicOP::AmoorW => "amoor.w",
            AtomicOP::AmominW => "amomin.w",
            AtomicOP::AmomaxW => "amomax.w",
            AtomicOP::AmominuW => "amominu.w",
            AtomicOP::AmomaxuW => "amomaxu.w",
            AtomicOP::LrD => "lr.d",
            AtomicOP::ScD => "sc.d",
            AtomicOP::AmoswapD => "amoswap.d",
            AtomicOP::AmoaddD => "amoadd.d",
            AtomicOP::AmoxorD => "amoxor.d",
            AtomicOP::AmoandD => "amoand.d",
            AtomicOP::AmoorD => "amoor.d",
            AtomicOP::AmominD => "amomin.d",
            AtomicOP::AmomaxD => "amomax.d",
            AtomicOP::AmominuD => "amominu.d",
            AtomicOP::AmomaxuD => "amomaxu.d",
        }
    }

    /// Bits 6 to 0 of the word: AMO.
    pub fn op_code(self) -> u32
        ensures { result ≡ AMO_NUMBER }
    {
        AMO_OPCODE
    }

    /// Bits 31 to 25 of the word.
    ///
    /// ```text
    /// 31     27 26 25
    /// | funct5 | aq | rl |
    /// ```
    pub fn funct7(self, amo: AMO) -> u32
        ensures value { result ≡ atomic_funct7 self amo }
        ensures width { result < 2 ^ 7 }
    {
        amo.as_u32() | self.funct5() << 2
    }

    /// Bits 14 to 12 of the word, by the width.
    pub fn funct3(self) -> u32
        ensures value { result ≡ atomic_funct3 self }
        ensures width { result < 2 ^ 3 }
    {
        match self {
            AtomicOP::LrW
            | AtomicOP::ScW
            | AtomicOP::AmoswapW
            | AtomicOP::AmoaddW
            | AtomicOP::AmoxorW
            | AtomicOP::AmoandW
            | AtomicOP::AmoorW
            | AtomicOP::AmominW
            | AtomicOP::AmomaxW
            | AtomicOP::AmominuW
            | AtomicOP::AmomaxuW => 0b010,
            AtomicOP::LrD
            | AtomicOP::ScD
            | AtomicOP::AmoswapD
            | AtomicOP::AmoaddD
            | AtomicOP::AmoxorD
            | AtomicOP::AmoandD
            | AtomicOP::AmoorD
            | AtomicOP::AmominD
            | AtomicOP::AmomaxD
            | AtomicOP::AmominuD
            | AtomicOP::AmomaxuD => 0b011,
        }
    }

    /// Bits 31 to 27 of the word.
    pub fn funct5(self) -> u32
        ensures value { result ≡ atomic_funct5 self }
        ensures width { result < 2 ^ 5 }
    {
        match self {
            AtomicOP::LrW | AtomicOP::LrD => 0b00010,
            AtomicOP::ScW | AtomicOP::ScD => 0b00011,
            AtomicOP::AmoswapW | AtomicOP::AmoswapD => 0b00001,
            AtomicOP::AmoaddW | AtomicOP::AmoaddD => 0b00000,
            AtomicOP::AmoxorW | AtomicOP::AmoxorD => 0b00100,
            AtomicOP::AmoandW | AtomicOP::AmoandD => 0b01100,
            AtomicOP::AmoorW | AtomicOP::AmoorD => 0b01000,
            AtomicOP::AmominW | AtomicOP::AmominD => 0b10000,
            AtomicOP::AmomaxW | AtomicOP::AmomaxD => 0b10100,
            AtomicOP::AmominuW | AtomicOP::AmominuD => 0b11000,
            AtomicOP::AmomaxuW | AtomicOP::AmomaxuD => 0b11100,
        }
    }

    /// The load-reserved of the word that holds a value of a type of at most 32 bits, and else of a doubleword.
    pub fn load_op(t: IrType) -> AtomicOP
        ensures { result ≡ load_reserved_of t }
    {
        if t.bits() <= 32 {
            AtomicOP::LrW
        } else {
            AtomicOP::LrD
        }
    }

    /// The store-conditional that goes with it.
    pub fn store_op(t: IrType) -> AtomicOP
        ensures { result ≡ store_conditional_of t }
    {
        if t.bits() <= 32 {
            AtomicOP::ScW
        } else {
            AtomicOP::ScD
        }
    }
}

/// What an atomic loop makes of the value in memory and of its operand.
#[derive(Clone, Copy, Debug, PartialEq, Eq)]
pub enum AtomicRmwOp {
    Add,
    Sub,
    And,
    Nand,
    Or,
    Xor,
    Xchg,
    Umin,
    Umax,
    Smin,
    Smax,
}

impl AtomicRmwOp {
    ghost use Rattle.std.specs.Prelude.{◌≡◌};
    ghost use Rattle.rv_ops.specs.Atomic.{rmw_name};

    /// Its name, in lower case.
    pub fn name(self) -> &'static str
        ensures { result.now ≡ rmw_name self }
    {
        match self {
            AtomicRmwOp::Add => "add",
            AtomicRmwOp::Sub => "sub",
            AtomicRmwOp::And => "and",
            AtomicRmwOp::Nand => "nand",
            AtomicRmwOp::Or => "or",
            AtomicRmwOp::Xor => "xor",
            AtomicRmwOp::Xchg => "xchg",
            AtomicRmwOp::Umin => "umin",
            AtomicRmwOp::Umax => "umax",
            AtomicRmwOp::Smin => "smin",
            AtomicRmwOp::Smax => "smax",
        }
    }
}

impl fmt::Display for AtomicRmwOp {
    ghost use Rattle.std.specs.Prelude.{Some};
    ghost use Rattle.rv_ops.specs.Atomic.{rmw_name};

    ghost output = { λ op. Some (rmw_name op) };

    fn fmt<W: fmt::Write>(&self, f: &mut fmt::Formatter<W>) -> fmt::Result {
        f.write_str(self.name())
    }
}
