//! The names of registers: those of the psABI's "Register Convention", and a number for a vector or a virtual register.

ghost use Rattle.std.specs.Prelude.{◌≡◌, ◌<◌, Some, IfOk, string_bytes};
ghost use Rattle.rv_base.specs.declared.regs.RegClass.TheVariants.{Int, Float};
ghost use Rattle.rv_base.specs.RegNames.{real_name, name_of};

use crate::out_of_memory::OutOfMemory;
use crate::regs::{Reg, RegClass};
use std::alloc::Global;
use std::fmt;

/// The name of a register, as `a0`, `fa0` or `v8`; of a virtual one, `%` and its index.
pub fn reg_name(alloc: Global, reg: Reg) -> Result<String, OutOfMemory>
    ensures { IfOk result (λ name. string_bytes name ≡ name_of reg) }
{
    Ok(reg.to_string(alloc)?)
}

impl fmt::Display for Reg {
    ghost output = { λ reg. Some (name_of reg) };

    fn fmt<W: fmt::Write>(&self, f: &mut fmt::Formatter<W>) -> fmt::Result {
        match self {
            Reg::Real(reg) => match reg.class {
                RegClass::Int => f.write_str(int_reg_name(u64::from(reg.hw_enc()))),
                RegClass::Float => f.write_str(float_reg_name(u64::from(reg.hw_enc()))),
                RegClass::Vector => {
                    let number = reg.hw_enc();
                    write!(f, "v{number}")
                }
            },
            Reg::Virtual { class: _, index } => {
                let index = index.value;
                write!(f, "%{index}")
            }
        }
    }
}

/// The name of an integer register, x0 to x31.
pub fn int_reg_name(number: u64) -> &'static str
    requires { number < 32 }
    ensures { result.now ≡ real_name Int number }
{
    match number {
        0 => "zero",
        1 => "ra",
        2 => "sp",
        3 => "gp",
        4 => "tp",
        5 => "t0",
        6 => "t1",
        7 => "t2",
        8 => "fp",
        9 => "s1",
        10 => "a0",
        11 => "a1",
        12 => "a2",
        13 => "a3",
        14 => "a4",
        15 => "a5",
        16 => "a6",
        17 => "a7",
        18 => "s2",
        19 => "s3",
        20 => "s4",
        21 => "s5",
        22 => "s6",
        23 => "s7",
        24 => "s8",
        25 => "s9",
        26 => "s10",
        27 => "s11",
        28 => "t3",
        29 => "t4",
        30 => "t5",
        _ => "t6",
    }
}

/// The name of a floating-point register, f0 to f31.
pub fn float_reg_name(number: u64) -> &'static str
    requires { number < 32 }
    ensures { result.now ≡ real_name Float number }
{
    match number {
        0 => "ft0",
        1 => "ft1",
        2 => "ft2",
        3 => "ft3",
        4 => "ft4",
        5 => "ft5",
        6 => "ft6",
        7 => "ft7",
        8 => "fs0",
        9 => "fs1",
        10 => "fa0",
        11 => "fa1",
        12 => "fa2",
        13 => "fa3",
        14 => "fa4",
        15 => "fa5",
        16 => "fa6",
        17 => "fa7",
        18 => "fs2",
        19 => "fs3",
        20 => "fs4",
        21 => "fs5",
        22 => "fs6",
        23 => "fs7",
        24 => "fs8",
        25 => "fs9",
        26 => "fs10",
        27 => "fs11",
        28 => "ft8",
        29 => "ft9",
        30 => "ft10",
        _ => "ft11",
    }
}
