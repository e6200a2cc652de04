//! The errors of a job: the rules of its lines, and why it has no code.

use thiserror::Error;

/// A rule that each line of a job keeps. The rules are in the order in which a line is checked.
#[derive(Clone, Copy, Debug, PartialEq, Eq)]
pub enum Rule {
    /// No register is virtual.
    Virtual,
    /// Each register has the class that its place or its type asks; a `MovFromPReg` is from sp or fp, and a `ReturnCallInd` goes through t0.
    Class,
    /// No register is x30 or x31.
    Reserved,
    /// No address, no constant and no load from the code, no count or reversal of bits, nor a temporary of several steps, is in x0.
    Zero,
    /// A register that is written before all inputs are read is no input, and no two such registers are the same; and a result on the
    /// stack is loaded into no register of another result, nor into sp.
    Clash,
    /// The type is one that the instruction takes.
    BadType,
    /// Numbers are in their range.
    Range,
    /// A float operation that isn't rounded has the rounding mode of its own number.
    Rounding,
    /// A float operation is of 16, 32 or 64 bits.
    Width,
    /// A constant that is named is one of the job's, and has as many bytes as are read.
    Constant,
    /// A table has a label.
    EmptyTable,
    /// A branch has a label to go to.
    NoTarget,
    /// A label's number is below 2^30.
    Label,
    /// A tail call's arguments on the stack have room in the frame.
    TailArgs,
    /// Data among code has four or eight bytes.
    DataSize,
}

/// Why a job has no code.
#[derive(Debug, Drop, Error)]
pub enum EmitError {
    #[error("out of memory")]
    OutOfMemory,
    /// From the stack pointer to the end of the arguments on the stack are 2^31 bytes or more; or the frame saves a vector register or one of x0, ra, sp, fp, x30 and x31; or, where
    /// a tail call is listed, a float register; or t0, where one goes through t0.
    #[error("the frame is too large, or saves a register that it can't")]
    BadFrame,
    /// The first line, counted from 0, that breaks a rule, and the first rule that it breaks.
    #[error("line {index}, counted from 0, breaks the rule {rule:?}")]
    Malformed { index: usize, rule: Rule },
    /// A label that is bound a second time.
    #[error("label {label} is bound twice")]
    LabelTwice { label: u32 },
    /// A label that a line names and none binds.
    #[error("label {label} is used and bound nowhere")]
    UnboundLabel { label: u32 },
    #[error("the code may be longer than 2^30 bytes")]
    /// The bound on the sizes of its lines is above 2^30 bytes, so that some distance may not fit its field.
    TooLarge,
}
