//! What is handed to the machine for its units, and what it notes of it.

ghost use Rattle.std.specs.Prelude.{◌≡◌, IfOk};
ghost use Rattle.rv_full.specs.Rows.{bits_of, vectors_of, stored_of, success_of, length_of};

use rv_base::{List, OutOfMemory};
use rv_machine::Decoded;
use std::alloc::Global;

/// What a unit answers.
#[derive(Drop)]
pub enum Answer {
    /// The number that goes to an integer or a floating-point register.
    Bits(u64),
    /// Vector registers, by their numbers below 32, and what each holds afterwards.
    Vectors(List<(u8, u128)>),
    /// For each byte of a vector store's span the byte that is written, if one is.
    Stored(List<Option<u8>>),
    /// Whether a store-conditional goes through.
    Success(bool),
    /// The new vector length, in elements.
    Length(u8),
}

/// A step that took an answer, and the answer. Of an operation of floating-point numbers it has all that its result depends
/// on. Of a vector operation it doesn't: of a group of registers it has the first, it has the length that was asked for and
/// not the one that was granted, and of vxrm, the rounding mode of fixed-point numbers, nothing.
#[derive(Drop)]
pub struct Entry {
    pub decoded: Decoded,
    /// The values of the registers that are read: rs1, rs2, rs3; of a vector instruction then the old value of the
    /// vector register that its field rd numbers, and v0 where it is masked. Each vector register is the one that its field
    /// numbers, and no further one of its group.
    pub inputs: List<u128>,
    /// The application's vector length; the length that was granted may be less.
    pub avl: u8,
    pub vtype: u8,
    pub frm: u8,
    /// The bytes that a vector load reads.
    pub span: List<u8>,
    pub answer: Answer,
}

pub fn bits_of(answer: &Answer) -> Option<u64>
    ensures { result ≡ bits_of answer.now }
{
    match answer {
        Answer::Bits(bits) => Some(*bits),
        Answer::Vectors(_) | Answer::Stored(_) | Answer::Success(_) | Answer::Length(_) => None,
    }
}

pub fn success_of(answer: &Answer) -> Option<bool>
    ensures { result ≡ success_of answer.now }
{
    match answer {
        Answer::Success(success) => Some(*success),
        Answer::Bits(_) | Answer::Vectors(_) | Answer::Stored(_) | Answer::Length(_) => None,
    }
}

pub fn length_of(answer: &Answer) -> Option<u8>
    ensures { result ≡ length_of answer.now }
{
    match answer {
        Answer::Length(length) => Some(*length),
        Answer::Bits(_) | Answer::Vectors(_) | Answer::Stored(_) | Answer::Success(_) => None,
    }
}

/// A copy of the registers.
pub fn vectors_of(alloc: Global, answer: &Answer) -> Result<Option<List<(u8, u128)>>, OutOfMemory>
    ensures { IfOk result (λ registers. registers ≡ vectors_of answer.now) }
{
    match answer {
        Answer::Vectors(registers) => Ok(Some(List::from_slice(alloc, registers.as_slice())?)),
        Answer::Bits(_) | Answer::Stored(_) | Answer::Success(_) | Answer::Length(_) => Ok(None),
    }
}

/// A copy of the bytes.
pub fn stored_of(alloc: Global, answer: &Answer) -> Result<Option<List<Option<u8>>>, OutOfMemory>
    ensures { IfOk result (λ bytes. bytes ≡ stored_of answer.now) }
{
    match answer {
        Answer::Stored(bytes) => Ok(Some(List::from_slice(alloc, bytes.as_slice())?)),
        Answer::Bits(_) | Answer::Vectors(_) | Answer::Success(_) | Answer::Length(_) => Ok(None),
    }
}
