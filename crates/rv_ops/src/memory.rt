//! Loads and stores of integer registers (the manual's chapters "RV32I" and "RV64I Base Integer Instruction Set", "Load and
//! Store Instructions") and of floating-point registers (the chapters "F" and "D", "Single-Precision" and "Double-Precision Load
//! and Store Instructions", and "Zfhmin").

use rv_base::{IrType, RegClass};
use rv_machine::{LOAD, LOAD_FP, STORE, STORE_FP};

/// A load, by its mnemonic.
#[derive(Clone, Copy, Debug, PartialEq, Eq)]
pub enum LoadOP {
    Lb,
    Lh,
    Lw,
    Lbu,
    Lhu,
    Lwu,
    Ld,
    Flh,
    Flw,
    Fld,
}

impl LoadOP {
    ghost use Rattle.std.specs.Prelude.{◌≡◌, ◌<◌, ◌^◌, pos, Some, IsSome};
    ghost use Rattle.rv_ops.specs.Memory.{load_of, load_name, load_size, is_float_load, load_class, load_opcode, load_funct3};

    /// The mnemonic.
    pub fn op_name(self) -> &'static str
        ensures { result.now ≡ load_name self }
    {
        match self {
            LoadOP::Lb => "lb",
            LoadOP::Lh => "lh",
            LoadOP::Lw => "lw",
            LoadOP::Lbu => "lbu",
            LoadOP::Lhu => "lhu",
            LoadOP::Lwu => "lwu",
            LoadOP::Ld => "ld",
            LoadOP::Flh => "flh",
            LoadOP::Flw => "flw",
            LoadOP::Fld => "fld",
        }
    }

    /// The load of an integer of 8, 16, 32 or 64 bits, signed where it is narrower than a register, or of a floating-point number of
    /// 16, 32 or 64 bits.
    pub fn from_type(ty: IrType) -> LoadOP
        requires { IsSome (load_of ty) }
        ensures { load_of ty ≡ Some result }
    {
        match ty {
            IrType::I8 => LoadOP::Lb,
            IrType::I16 => LoadOP::Lh,
            IrType::I32 => LoadOP::Lw,
            IrType::F16 => LoadOP::Flh,
            IrType::F32 => LoadOP::Flw,
            IrType::F64 => LoadOP::Fld,
            _ => LoadOP::Ld,
        }
    }

    /// How many bytes it reads: 1, 2, 4 or 8.
    pub fn size(&self) -> i64
        ensures { result ≡ pos (load_size self.now) }
    {
        match self {
            LoadOP::Lb | LoadOP::Lbu => 1,
            LoadOP::Lh | LoadOP::Lhu | LoadOP::Flh => 2,
            LoadOP::Lw | LoadOP::Lwu | LoadOP::Flw => 4,
            LoadOP::Ld | LoadOP::Fld => 8,
        }
    }

    /// Returns whether it loads a floating-point register.
    pub fn is_float(self) -> bool
        ensures { result ≡ is_float_load self }
    {
        matches!(self, LoadOP::Flh | LoadOP::Flw | LoadOP::Fld)
    }

    /// The file of the register that it loads.
    pub fn class(self) -> RegClass
        ensures { result ≡ load_class self }
    {
        if self.is_float() {
            RegClass::Float
        } else {
            RegClass::Int
        }
    }

    /// Bits 6 to 0 of the word: LOAD, or LOAD-FP.
    pub fn op_code(self) -> u32
        ensures value { result ≡ load_opcode self }
        ensures width { result < 2 ^ 7 }
    {
        if self.is_float() { LOAD_FP } else { LOAD }
    }

    /// Bits 14 to 12 of the word.
    pub fn funct3(self) -> u32
        ensures value { result ≡ load_funct3 self }
        ensures width { result < 2 ^ 3 }
    {
        match self {
            LoadOP::Lb => 0b000,
            LoadOP::Lh | LoadOP::Flh => 0b001,
            LoadOP::Lw | LoadOP::Flw => 0b010,
            LoadOP::Ld | LoadOP::Fld => 0b011,
            LoadOP::Lbu => 0b100,
            LoadOP::Lhu => 0b101,
            LoadOP::Lwu => 0b110,
        }
    }
}

/// A store, by its mnemonic.
#[derive(Clone, Copy, Debug, PartialEq, Eq)]
pub enum StoreOP {
    Sb,
    Sh,
    Sw,
    Sd,
    Fsh,
    Fsw,
    Fsd,
}

impl StoreOP {
    ghost use Rattle.std.specs.Prelude.{◌≡◌, ◌<◌, ◌^◌, pos, Some, IsSome};
    ghost use Rattle.rv_ops.specs.Memory.{store_of, store_name, store_size, is_float_store, store_class, store_opcode, store_funct3};

    /// The mnemonic.
    pub fn op_name(self) -> &'static str
        ensures { result.now ≡ store_name self }
    {
        match self {
            StoreOP::Sb => "sb",
            StoreOP::Sh => "sh",
            StoreOP::Sw => "sw",
            StoreOP::Sd => "sd",
            StoreOP::Fsh => "fsh",
            StoreOP::Fsw => "fsw",
            StoreOP::Fsd => "fsd",
        }
    }

    /// The store of an integer of 8, 16, 32 or 64 bits, or of a floating-point number of 16, 32 or 64 bits.
    pub fn from_type(ty: IrType) -> StoreOP
        requires { IsSome (store_of ty) }
        ensures { store_of ty ≡ Some result }
    {
        match ty {
            IrType::I8 => StoreOP::Sb,
            IrType::I16 => StoreOP::Sh,
            IrType::I32 => StoreOP::Sw,
            IrType::F16 => StoreOP::Fsh,
            IrType::F32 => StoreOP::Fsw,
            IrType::F64 => StoreOP::Fsd,
            _ => StoreOP::Sd,
        }
    }

    /// How many bytes it writes: 1, 2, 4 or 8.
    pub fn size(&self) -> i64
        ensures { result ≡ pos (store_size self.now) }
    {
        match self {
            StoreOP::Sb => 1,
            StoreOP::Sh | StoreOP::Fsh => 2,
            StoreOP::Sw | StoreOP::Fsw => 4,
            StoreOP::Sd | StoreOP::Fsd => 8,
        }
    }

    /// Returns whether it stores a floating-point register.
    pub fn is_float(self) -> bool
        ensures { result ≡ is_float_store self }
    {
        matches!(self, StoreOP::Fsh | StoreOP::Fsw | StoreOP::Fsd)
    }

    /// The file of the register that it stores.
    pub fn class(self) -> RegClass
        ensures { result ≡ store_class self }
    {
        if self.is_float() {
            RegClass::Float
        } else {
            RegClass::Int
        }
    }

    /// Bits 6 to 0 of the word: STORE, or STORE-FP.
    pub fn op_code(self) -> u32
        ensures value { result ≡ store_opcode self }
        ensures width { result < 2 ^ 7 }
    {
        if self.is_float() { STORE_FP } else { STORE }
    }

    /// Bits 14 to 12 of the word.
    pub fn funct3(self) -> u32
        ensures value { result ≡ store_funct3 self }
        ensures width { result < 2 ^ 3 }
    {
        match self {
            StoreOP::Sb => 0b000,
            StoreOP::Sh | StoreOP::Fsh => 0b001,
            StoreOP::Sw | StoreOP::Fsw => 0b010,
            StoreOP::Sd | StoreOP::Fsd => 0b011,
        }
    }
}
