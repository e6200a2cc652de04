//! That the numbers of an answer are those of its type: what the proof of `give` needs, and nothing when it runs.

ghost use Rattle.std.specs.List.{AllByRecursion};
ghost use Rattle.std.specs.Prelude.{◌<◌, ◌^◌};
ghost use Rattle.rv_full.specs.Units.{AnswerFits, RegisterFits, StoredFits};

use crate::answer::Answer;

pub(crate) fn answer_fits(answer: &Answer)
    ensures { AnswerFits answer.now }
{
    match answer {
        Answer::Bits(bits) => bits_fit(*bits),
        Answer::Vectors(registers) => registers_fit(registers.as_slice()),
        Answer::Stored(bytes) => stored_fit(bytes.as_slice()),
        Answer::Success(_) => {}
        Answer::Length(length) => length_fits(*length),
    }
}

fn bits_fit(bits: u64)
    ensures { bits < 2 ^ 64 }
{}

fn length_fits(length: u8)
    ensures { length < 2 ^ 8 }
{}

fn registers_fit(registers: &[(u8, u128)])
    ensures { AllByRecursion RegisterFits registers.now }
{
    for register in registers {
        register_fits(*register);
    }
}

fn register_fits(register: (u8, u128))
    ensures { RegisterFits register }
{}

fn stored_fit(bytes: &[Option<u8>])
    ensures { AllByRecursion StoredFits bytes.now }
{
    for byte in bytes {
        byte_fits(*byte);
    }
}

fn byte_fits(byte: Option<u8>)
    ensures { StoredFits byte }
{
    match byte {
        None => {}
        Some(byte) => length_fits(byte),
    }
}
