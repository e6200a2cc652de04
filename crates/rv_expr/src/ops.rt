//! Operations of a program.

/// An operation of two numbers of 64 bits. The result is taken modulo 2^64.
#[derive(Clone, Copy, Debug, PartialEq, Eq)]
pub enum BinOp {
    Add,
    Sub,
    Mul,
    And,
    Or,
    Xor,
    /// The first, shifted to the left by the low six bits of the second.
    Shl,
    /// The first, shifted to the right by the low six bits of the second; zeros come in.
    Shr,
    /// The same of the first as a signed number; copies of its sign come in.
    Sar,
    /// The unsigned quotient; 2^64 - 1 where the second is 0.
    DivU,
    /// The unsigned remainder; the first where the second is 0.
    RemU,
    /// 1 where the first is less than the second, both unsigned, else 0.
    Ltu,
}

/// An operation of a program. It names earlier ones by their numbers, from 0.
#[derive(Clone, Copy, Debug, PartialEq, Eq)]
pub enum ExprOp {
    /// This number.
    Const(u64),
    /// The argument of this number, 0 to 7, which is in a0 to a7.
    Arg(u8),
    /// An operation of the values of two earlier ones.
    Bin(BinOp, u32, u32),
    /// Of three earlier ones, the value of the second where that of the first isn't 0, else that of the third.
    Pick(u32, u32, u32),
}

/// How many operations a program may have: each has a place of eight bytes below the stack pointer, and a load or a store reaches
/// 2048 bytes down.
pub const MAX_OPERATIONS: usize = 254;
