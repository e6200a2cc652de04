//! Registers: the machine's own, and virtual ones, which wait for a register allocator.

ghost use Rattle.std.specs.Prelude.{◌≡◌, ◌<◌, ◌≤◌};

/// The register files: x0 to x31, f0 to f31 and v0 to v31 (the manual's chapters "RV32I", "F" and "V").
#[derive(Clone, Copy, Debug, PartialEq, Eq, PartialOrd, Ord, Hash)]
pub enum RegClass {
    Int,
    Float,
    Vector,
}

/// `Int`, which most registers are of.
impl Default for RegClass {
    ghost use Rattle.std.specs.Prelude.{◌≡◌};
    ghost use Rattle.rv_base.specs.declared.regs.RegClass.TheVariants.{Int};

    ghost is_default = { λ class. class ≡ Int };

    fn default() -> RegClass {
        RegClass::Int
    }
}

/// A register of the machine, by its file and its number, which is below 32.
#[derive(Clone, Copy, Debug, PartialEq, Eq, PartialOrd, Ord, Hash)]
pub struct PReg {
    pub class: RegClass,
    pub number: u8,
    ghost in_file: { number < 32 },
}

impl PReg {
    /// The register of this number, which is below 32.
    pub fn new(number: u8, class: RegClass) -> PReg
        requires { number < 32 }
        ensures class { result.class ≡ class }
        ensures number { result.number ≡ number }
    {
        PReg { class, number }
    }

    /// The file that it is of.
    pub fn class(self) -> RegClass
        ensures { result ≡ self.class }
    {
        self.class
    }

    /// The number that an instruction's field holds, below 32.
    pub fn hw_enc(self) -> u8
        ensures value { result ≡ self.number }
        ensures in_file { result < 32 }
    {
        self.number
    }
}

/// The index of a virtual register, from 192 to 2^21 - 1: those below 192, 64 for each file, stand for the real registers,
/// and a register allocator keeps 21 bits of an index.
#[derive(Clone, Copy, Debug, PartialEq, Eq, PartialOrd, Ord, Hash)]
pub struct VirtualIndex {
    pub value: u32,
    ghost low: { 192 ≤ value },
    ghost high: { value < 2097152 },
}

/// A register of an instruction: the machine's, or a virtual one, which a register allocator has yet to choose a real one
/// for. Real ones come before virtual ones; real ones by file and number, virtual ones by file and index. Eight bytes.
#[derive(Clone, Copy, Debug, PartialEq, Eq, PartialOrd, Ord, Hash)]
pub enum Reg {
    Real(PReg),
    Virtual {
        class: RegClass,
        index: VirtualIndex,
    },
}

const _: () = prove!(size_of::<Reg>() == 8);

/// A register that an instruction writes.
#[derive(Clone, Copy, Debug, PartialEq, Eq, PartialOrd, Ord, Hash)]
pub struct Writable<R> {
    pub reg: R,
}

pub type WritableReg = Writable<Reg>;

impl<R> Writable<R> {
    pub fn from_reg(reg: R) -> Writable<R>
        ensures { result.reg ≡ reg }
    {
        Writable { reg }
    }

    pub fn to_reg(self) -> R
        ensures { result ≡ self.reg }
    {
        self.reg
    }
}

impl Reg {
    ghost use Rattle.std.specs.Prelude.{◌≡◌, ◌<◌, ◌≤◌};
    ghost use Rattle.rv_base.specs.Regs.{class_of, real_of, IsVirtualOf};

    /// The register itself.
    pub fn from_preg(reg: PReg) -> Reg
        ensures { result ≡ Reg.Real reg }
    {
        Reg::Real(reg)
    }

    /// The virtual register of this index, which is from 192 to 2^21 - 1 = 2097151.
    pub fn from_virtual(index: u32, class: RegClass) -> Reg
        requires low { 192 ≤ index }
        requires high { index < 2097152 }
        ensures { IsVirtualOf result index class }
    {
        Reg::Virtual {
            class,
            index: VirtualIndex { value: index },
        }
    }

    /// The file that it is of.
    pub fn class(self) -> RegClass
        ensures { result ≡ class_of self }
    {
        match self {
            Reg::Real(reg) => reg.class,
            Reg::Virtual { class, index: _ } => class,
        }
    }

    /// The machine's register; none for a virtual one.
    pub fn to_real_reg(self) -> Option<PReg>
        ensures { result ≡ real_of self }
    {
        match self {
            Reg::Real(reg) => Some(reg),
            Reg::Virtual { .. } => None,
        }
    }
}
