//! The machine's registers by number, and those that have a use of their own by their name in the psABI's "Integer Register
//! Convention" and "Floating-point Register Convention".

ghost use Rattle.std.specs.Prelude.{◌≡◌, ◌<◌};
ghost use Rattle.rv_base.specs.Regs.{IsPReg, IsReal};

use crate::regs::{PReg, Reg, RegClass, Writable};

/// The integer register x0 to x31 of this number.
pub fn px_reg(enc: usize) -> PReg
    requires { enc < 32 }
    ensures { IsPReg result RegClass.Int enc }
{
    PReg::new(enc as u8, RegClass::Int)
}

/// The floating-point register f0 to f31 of this number.
pub fn pf_reg(enc: usize) -> PReg
    requires { enc < 32 }
    ensures { IsPReg result RegClass.Float enc }
{
    PReg::new(enc as u8, RegClass::Float)
}

/// The vector register v0 to v31 of this number.
pub fn pv_reg(enc: usize) -> PReg
    requires { enc < 32 }
    ensures { IsPReg result RegClass.Vector enc }
{
    PReg::new(enc as u8, RegClass::Vector)
}

/// The integer register x0 to x31 of this number.
pub fn x_reg(enc: usize) -> Reg
    requires { enc < 32 }
    ensures { IsReal result RegClass.Int enc }
{
    Reg::Real(px_reg(enc))
}

/// The floating-point register f0 to f31 of this number.
pub fn f_reg(enc: usize) -> Reg
    requires { enc < 32 }
    ensures { IsReal result RegClass.Float enc }
{
    Reg::Real(pf_reg(enc))
}

/// The vector register v0 to v31 of this number.
pub fn v_reg(enc: usize) -> Reg
    requires { enc < 32 }
    ensures { IsReal result RegClass.Vector enc }
{
    Reg::Real(pv_reg(enc))
}

/// x0, which always reads 0.
pub fn zero_reg() -> Reg
    ensures { IsReal result RegClass.Int 0 }
{
    x_reg(0)
}

/// x1, `ra`: the return address.
pub fn link_reg() -> Reg
    ensures { IsReal result RegClass.Int 1 }
{
    x_reg(1)
}

/// x2, `sp`: the stack pointer.
pub fn stack_reg() -> Reg
    ensures { IsReal result RegClass.Int 2 }
{
    x_reg(2)
}

/// x8, `fp` or `s0`: the frame pointer.
pub fn fp_reg() -> Reg
    ensures { IsReal result RegClass.Int 8 }
{
    x_reg(8)
}

/// x10: the first integer argument and result.
pub fn a0() -> Reg
    ensures { IsReal result RegClass.Int 10 }
{
    x_reg(10)
}

/// x11: the second integer argument and result.
pub fn a1() -> Reg
    ensures { IsReal result RegClass.Int 11 }
{
    x_reg(11)
}

/// x12: the third integer argument.
pub fn a2() -> Reg
    ensures { IsReal result RegClass.Int 12 }
{
    x_reg(12)
}

/// f11: the second floating-point argument and result.
pub fn fa1() -> Reg
    ensures { IsReal result RegClass.Float 11 }
{
    f_reg(11)
}

/// x31, `t6`: the register that expansions and veneers overwrite. No line may name it.
pub fn spilltmp_reg() -> Reg
    ensures { IsReal result RegClass.Int 31 }
{
    x_reg(31)
}

/// x30, `t5`: the second register that expansions overwrite. No line may name it.
pub fn spilltmp_reg2() -> Reg
    ensures { IsReal result RegClass.Int 30 }
{
    x_reg(30)
}

pub fn writable_zero_reg() -> Writable<Reg>
    ensures { IsReal result.reg RegClass.Int 0 }
{
    Writable::from_reg(zero_reg())
}

pub fn writable_link_reg() -> Writable<Reg>
    ensures { IsReal result.reg RegClass.Int 1 }
{
    Writable::from_reg(link_reg())
}

pub fn writable_stack_reg() -> Writable<Reg>
    ensures { IsReal result.reg RegClass.Int 2 }
{
    Writable::from_reg(stack_reg())
}

pub fn writable_fp_reg() -> Writable<Reg>
    ensures { IsReal result.reg RegClass.Int 8 }
{
    Writable::from_reg(fp_reg())
}

pub fn writable_a0() -> Writable<Reg>
    ensures { IsReal result.reg RegClass.Int 10 }
{
    Writable::from_reg(a0())
}

pub fn writable_a2() -> Writable<Reg>
    ensures { IsReal result.reg RegClass.Int 12 }
{
    Writable::from_reg(a2())
}

pub fn writable_fa1() -> Writable<Reg>
    ensures { IsReal result.reg RegClass.Float 11 }
{
    Writable::from_reg(fa1())
}

pub fn writable_spilltmp_reg() -> Writable<Reg>
    ensures { IsReal result.reg RegClass.Int 31 }
{
    Writable::from_reg(spilltmp_reg())
}

pub fn writable_spilltmp_reg2() -> Writable<Reg>
    ensures { IsReal result.reg RegClass.Int 30 }
{
    Writable::from_reg(spilltmp_reg2())
}
