//! Registers whose file is known: integer, floating-point and vector ones.

ghost use Rattle.std.specs.Prelude.{◌≡◌, ◌≢◌, ◌↔◌, IsTrue, MatchOption};
ghost use Rattle.std.specs.Ordering.{nat_cmp};
ghost use Rattle.rv_base.specs.Regs.{class_of, index_of};
ghost use Rattle.rv_base.specs.declared.regs.RegClass.TheVariants.{Int, Float, Vector};

use crate::regs::{Reg, RegClass, Writable};

/// An integer register. Equality, order and hash are those of the register.
#[derive(Clone, Copy, Debug, PartialEq, Eq, PartialOrd, Ord, Hash)]
pub struct XReg {
    reg: Reg,
    ghost of_file: { class_of reg ≡ Int },
}

pub type WritableXReg = Writable<XReg>;

impl XReg {
    ghost use Rattle.std.specs.Prelude.{◌≡◌, ◌≢◌, ◌↔◌, IsTrue, MatchOption};
    ghost use Rattle.std.specs.Ordering.{nat_cmp};
    ghost use Rattle.rv_base.specs.Regs.{class_of, index_of};
    ghost use Rattle.rv_base.specs.declared.class_regs.XReg.{XReg as Same};

    /// The same register; none where it is of another file.
    pub fn new(reg: Reg) -> Option<XReg>
        ensures { MatchOption result (class_of reg ≢ RegClass.Int) (λ x. x.reg ≡ reg) }
    {
        if reg.class() == RegClass::Int {
            Some(XReg { reg })
        } else {
            None
        }
    }

    /// The register itself. Two are equal where their registers are, and ordered by their registers' places.
    pub fn to_reg(self) -> Reg
        ensures reg { result ≡ self.reg }
        ensures of_file { class_of result ≡ RegClass.Int }
        ensures equal { (other : Same) → IsTrue (⟦<XReg as PartialEq>⟧.eq self other) ↔ (result ≡ other.reg) }
        ensures ordered { (other : Same) → ⟦<XReg as Ord>⟧.cmp self other ≡ nat_cmp (index_of result) (index_of other.reg) }
    {
        self.reg
    }

    /// Returns whether it is this register.
    pub fn eq_reg(self, reg: Reg) -> bool
        ensures { IsTrue result ↔ (self.reg ≡ reg) }
    {
        self.reg == reg
    }
}

impl From<XReg> for Reg {
    ghost from_gives = { λ x reg. reg ≡ x.reg };

    fn from(x: XReg) -> Reg {
        x.reg
    }
}

/// A floating-point register. Equality, order and hash are those of the register.
#[derive(Clone, Copy, Debug, PartialEq, Eq, PartialOrd, Ord, Hash)]
pub struct FReg {
    reg: Reg,
    ghost of_file: { class_of reg ≡ Float },
}

pub type WritableFReg = Writable<FReg>;

impl FReg {
    ghost use Rattle.std.specs.Prelude.{◌≡◌, ◌≢◌, ◌↔◌, IsTrue, MatchOption};
    ghost use Rattle.std.specs.Ordering.{nat_cmp};
    ghost use Rattle.rv_base.specs.Regs.{class_of, index_of};
    ghost use Rattle.rv_base.specs.declared.class_regs.FReg.{FReg as Same};

    /// The same register; none where it is of another file.
    pub fn new(reg: Reg) -> Option<FReg>
        ensures { MatchOption result (class_of reg ≢ RegClass.Float) (λ f. f.reg ≡ reg) }
    {
        if reg.class() == RegClass::Float {
            Some(FReg { reg })
        } else {
            None
        }
    }

    /// The register itself. Two are equal where their registers are, and ordered by their registers' places.
    pub fn to_reg(self) -> Reg
        ensures reg { result ≡ self.reg }
        ensures of_file { class_of result ≡ RegClass.Float }
        ensures equal { (other : Same) → IsTrue (⟦<FReg as PartialEq>⟧.eq self other) ↔ (result ≡ other.reg) }
        ensures ordered { (other : Same) → ⟦<FReg as Ord>⟧.cmp self other ≡ nat_cmp (index_of result) (index_of other.reg) }
    {
        self.reg
    }

    /// Returns whether it is this register.
    pub fn eq_reg(self, reg: Reg) -> bool
        ensures { IsTrue result ↔ (self.reg ≡ reg) }
    {
        self.reg == reg
    }
}

impl From<FReg> for Reg {
    ghost from_gives = { λ f reg. reg ≡ f.reg };

    fn from(f: FReg) -> Reg {
        f.reg
    }
}

/// A vector register. Equality, order and hash are those of the register.
#[derive(Clone, Copy, Debug, PartialEq, Eq, PartialOrd, Ord, Hash)]
pub struct VReg {
    reg: Reg,
    ghost of_file: { class_of reg ≡ Vector },
}

pub type WritableVReg = Writable<VReg>;

impl VReg {
    ghost use Rattle.std.specs.Prelude.{◌≡◌, ◌≢◌, ◌↔◌, IsTrue, MatchOption};
    ghost use Rattle.std.specs.Ordering.{nat_cmp};
    ghost use Rattle.rv_base.specs.Regs.{class_of, index_of};
    ghost use Rattle.rv_base.specs.declared.class_regs.VReg.{VReg as Same};

    /// The same register; none where it is of another file.
    pub fn new(reg: Reg) -> Option<VReg>
        ensures { MatchOption result (class_of reg ≢ RegClass.Vector) (λ v. v.reg ≡ reg) }
    {
        if reg.class() == RegClass::Vector {
            Some(VReg { reg })
        } else {
            None
        }
    }

    /// The register itself. Two are equal where their registers are, and ordered by their registers' places.
    pub fn to_reg(self) -> Reg
        ensures reg { result ≡ self.reg }
        ensures of_file { class_of result ≡ RegClass.Vector }
        ensures equal { (other : Same) → IsTrue (⟦<VReg as PartialEq>⟧.eq self other) ↔ (result ≡ other.reg) }
        ensures ordered { (other : Same) → ⟦<VReg as Ord>⟧.cmp self other ≡ nat_cmp (index_of result) (index_of other.reg) }
    {
        self.reg
    }

    /// Returns whether it is this register.
    pub fn eq_reg(self, reg: Reg) -> bool
        ensures { IsTrue result ↔ (self.reg ≡ reg) }
    {
        self.reg == reg
    }
}

impl From<VReg> for Reg {
    ghost from_gives = { λ v reg. reg ≡ v.reg };

    fn from(v: VReg) -> Reg {
        v.reg
    }
}
