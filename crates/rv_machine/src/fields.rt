//! The fields of a word of 32 bits: "2.2 Base Instruction Formats".

ghost use Rattle.std.specs.Prelude.{◌≡◌, ◌<◌, ◌*◌};
ghost use Rattle.rv_machine.specs.State.{signed};
ghost use Rattle.rv_machine.specs.Layout.{bits, word_opcode, word_rd, word_funct3, word_rs1, word_rs2, word_funct6, word_funct7, word_funct12, word_fmt, word_funct5};

/// Bits 6:0.
pub fn opcode(word: u32) -> u32
    ensures { result ≡ word_opcode word }
{
    word & 0x7f
}

/// Bits 11:7.
pub fn rd(word: u32) -> u8
    ensures value { result ≡ word_rd word }
    ensures width { result < 32 }
{
    (word >> 7 & 0x1f) as u8
}

/// Bits 14:12.
pub fn funct3(word: u32) -> u8
    ensures { result ≡ word_funct3 word }
{
    (word >> 12 & 7) as u8
}

/// Bits 19:15.
pub fn rs1(word: u32) -> u8
    ensures value { result ≡ word_rs1 word }
    ensures width { result < 32 }
{
    (word >> 15 & 0x1f) as u8
}

/// Bits 24:20.
pub fn rs2(word: u32) -> u8
    ensures value { result ≡ word_rs2 word }
    ensures width { result < 32 }
{
    (word >> 20 & 0x1f) as u8
}

/// Bits 26:25.
pub fn fmt(word: u32) -> u8
    ensures value { result ≡ word_fmt word }
    ensures width { result < 4 }
{
    (word >> 25 & 3) as u8
}

/// Bits 31:27.
pub fn funct5(word: u32) -> u8
    ensures value { result ≡ word_funct5 word }
    ensures width { result < 32 }
{
    (word >> 27) as u8
}

/// Bits 31:26.
pub fn funct6(word: u32) -> u8
    ensures { result ≡ word_funct6 word }
{
    (word >> 26) as u8
}

/// Bits 31:25.
pub fn funct7(word: u32) -> u8
    ensures { result ≡ word_funct7 word }
{
    (word >> 25) as u8
}

/// Bits 31:20.
pub fn funct12(word: u32) -> u16
    ensures { result ≡ word_funct12 word }
{
    (word >> 20) as u16
}

/// Bits 15:0.
pub fn low_half(word: u32) -> u16
    ensures { result ≡ bits word 15 0 }
{
    (word & 0xffff) as u16
}

/// A number below twice `half`, read as a signed one.
pub fn sign_extend(half: u32, n: u32) -> i64
    requires { n < 2 * half }
    ensures { result ≡ signed half n }
{
    if n < half {
        i64::from(n)
    } else {
        i64::from(n) - 2 * i64::from(half)
    }
}
