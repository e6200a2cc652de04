//! The constants of `fli` (the manual's chapter "Zfa", "Load-Immediate Instructions"), by their bits in each format.

ghost use Rattle.std.specs.Prelude.{◌≡◌, ◌<◌, ℕ, Some, None, IfSome, IsSome, IsSomeAnd, option_map};
ghost use Rattle.rv_ops.specs.Fli.{fli_format, fli_row, HasRow, f16_patterns, f32_patterns, f64_patterns, first_row, fli_text};

use rv_base::IrType;
use std::fmt;

/// A constant that `fli` loads, by its number in the manual's table: from 0 to 31.
#[derive(Clone, Copy, Debug, PartialEq)]
pub struct FliConstant {
    pub value: u8,
    ghost small: { value < 32 },
}

impl FliConstant {
    /// The constant of this number, which is below 32.
    pub fn new(value: u8) -> FliConstant
        requires { value < 32 }
        ensures { result.value ≡ value }
    {
        FliConstant { value }
    }

    /// The constant whose bits the number's are in a format of 16, 32 or 64 bits, where there is one.
    pub fn maybe_from_u64(ty: IrType, imm: u64) -> Option<FliConstant>
        requires { IsSome (fli_format ty) }
        ensures first { IsSomeAnd (fli_format ty) (λ format. option_map (λ constant. constant.value) result ≡ fli_row format imm) }
        ensures found { IfSome result (λ constant. IsSomeAnd (fli_format ty) (λ format. HasRow format constant.value imm)) }
        ensures none { result ≡ None → (row : ℕ) → IsSomeAnd (fli_format ty) (λ format. ¬ (HasRow format row imm)) }
    {
        match row_of(ty, imm) {
            Some(value) => Some(FliConstant { value }),
            None => None,
        }
    }

    /// Its text: a number in decimal or as a power of two, `min`, `inf` or `nan`.
    pub fn format(self) -> &'static str
        ensures { result.now ≡ fli_text self.value }
    {
        match self.value {
            0 => "-1.0",
            1 => "min",
            2 => "2^-16",
            3 => "2^-15",
            4 => "2^-8",
            5 => "2^-7",
            6 => "0.0625",
            7 => "0.125",
            8 => "0.25",
            9 => "0.3125",
            10 => "0.375",
            11 => "0.4375",
            12 => "0.5",
            13 => "0.625",
            14 => "0.75",
            15 => "0.875",
            16 => "1.0",
            17 => "1.25",
            18 => "1.5",
            19 => "1.75",
            20 => "2.0",
            21 => "2.5",
            22 => "3.0",
            23 => "4.0",
            24 => "8.0",
            25 => "16.0",
            26 => "128.0",
            27 => "256.0",
            28 => "32768.0",
            29 => "65536.0",
            30 => "inf",
            _ => "nan",
        }
    }

    /// Its number, as bits 19 to 15 of the word hold it.
    pub fn bits(self) -> u8
        ensures value { result ≡ self.value }
        ensures width { result < 32 }
    {
        self.value
    }
}

impl fmt::Display for FliConstant {
    ghost output = { λ constant. Some (fli_text constant.value) };

    fn fmt<W: fmt::Write>(&self, f: &mut fmt::Formatter<W>) -> fmt::Result {
        f.write_str(self.format())
    }
}

/// The number of the constant, in the format of a type.
fn row_of(ty: IrType, imm: u64) -> Option<u8>
    requires { IsSome (fli_format ty) }
    ensures row { IsSomeAnd (fli_format ty) (λ format. result ≡ fli_row format imm) }
    ensures small { IfSome result (λ row. row < 32) }
{
    match ty {
        IrType::F16 => f16_row(imm),
        IrType::F32 => f32_row(imm),
        _ => f64_row(imm),
    }
}

/// Of binary16. The smallest normal number, two subnormal ones, infinity and what is no number are compared with all bits.
fn f16_row(imm: u64) -> Option<u8>
    ensures row { result ≡ first_row 16 imm 0 f16_patterns }
    ensures small { IfSome result (λ row. row < 32) }
{
    match imm {
        0x0400 => Some(1),
        0x0100 => Some(2),
        0x0200 => Some(3),
        0x7c00 => Some(30),
        0x7e00 => Some(31),
        _ => match imm % 0x1_0000 {
            0xbc00 => Some(0),
            0x1c00 => Some(4),
            0x2000 => Some(5),
            0x2c00 => Some(6),
            0x3000 => Some(7),
            0x3400 => Some(8),
            0x3500 => Some(9),
            0x3600 => Some(10),
            0x3700 => Some(11),
            0x3800 => Some(12),
            0x3900 => Some(13),
            0x3a00 => Some(14),
            0x3b00 => Some(15),
            0x3c00 => Some(16),
            0x3d00 => Some(17),
            0x3e00 => Some(18),
            0x3f00 => Some(19),
            0x4000 => Some(20),
            0x4100 => Some(21),
            0x4200 => Some(22),
            0x4400 => Some(23),
            0x4800 => Some(24),
            0x4c00 => Some(25),
            0x5800 => Some(26),
            0x5c00 => Some(27),
            0x7800 => Some(28),
            _ => None,
        },
    }
}

/// Of binary32. What is no number is compared with all bits.
fn f32_row(imm: u64) -> Option<u8>
    ensures row { result ≡ first_row 32 imm 0 f32_patterns }
    ensures small { IfSome result (λ row. row < 32) }
{
    match imm {
        0x7fc0_0000 => Some(31),
        _ => match imm % 0x1_0000_0000 {
            0xbf80_0000 => Some(0),
            0x0080_0000 => Some(1),
            0x3780_0000 => Some(2),
            0x3800_0000 => Some(3),
            0x3b80_0000 => Some(4),
            0x3c00_0000 => Some(5),
            0x3d80_0000 => Some(6),
            0x3e00_0000 => Some(7),
            0x3e80_0000 => Some(8),
            0x3ea0_0000 => Some(9),
            0x3ec0_0000 => Some(10),
            0x3ee0_0000 => Some(11),
            0x3f00_0000 => Some(12),
            0x3f20_0000 => Some(13),
            0x3f40_0000 => Some(14),
            0x3f60_0000 => Some(15),
            0x3f80_0000 => Some(16),
            0x3fa0_0000 => Some(17),
            0x3fc0_0000 => Some(18),
            0x3fe0_0000 => Some(19),
            0x4000_0000 => Some(20),
            0x4020_0000 => Some(21),
            0x4040_0000 => Some(22),
            0x4080_0000 => Some(23),
            0x4100_0000 => Some(24),
            0x4180_0000 => Some(25),
            0x4300_0000 => Some(26),
            0x4380_0000 => Some(27),
            0x4700_0000 => Some(28),
            0x4780_0000 => Some(29),
            0x7f80_0000 => Some(30),
            _ => None,
        },
    }
}

/// Of binary64.
fn f64_row(imm: u64) -> Option<u8>
    ensures row { result ≡ first_row 64 imm 0 f64_patterns }
    ensures small { IfSome result (λ row. row < 32) }
{
    match imm {
        0xbff0_0000_0000_0000 => Some(0),
        0x0010_0000_0000_0000 => Some(1),
        0x3ef0_0000_0000_0000 => Some(2),
        0x3f00_0000_0000_0000 => Some(3),
        0x3f70_0000_0000_0000 => Some(4),
        0x3f80_0000_0000_0000 => Some(5),
        0x3fb0_0000_0000_0000 => Some(6),
        0x3fc0_0000_0000_0000 => Some(7),
        0x3fd0_0000_0000_0000 => Some(8),
        0x3fd4_0000_0000_0000 => Some(9),
        0x3fd8_0000_0000_0000 => Some(10),
        0x3fdc_0000_0000_0000 => Some(11),
        0x3fe0_0000_0000_0000 => Some(12),
        0x3fe4_0000_0000_0000 => Some(13),
        0x3fe8_0000_0000_0000 => Some(14),
        0x3fec_0000_0000_0000 => Some(15),
        0x3ff0_0000_0000_0000 => Some(16),
        0x3ff4_0000_0000_0000 => Some(17),
        0x3ff8_0000_0000_0000 => Some(18),
        0x3ffc_0000_0000_0000 => Some(19),
        0x4000_0000_0000_0000 => Some(20),
        0x4004_0000_0000_0000 => Some(21),
        0x4008_0000_0000_0000 => Some(22),
        0x4010_0000_0000_0000 => Some(23),
        0x4020_0000_0000_0000 => Some(24),
        0x4030_0000_0000_0000 => Some(25),
        0x4060_0000_0000_0000 => Some(26),
        0x4070_0000_0000_0000 => Some(27),
        0x40e0_0000_0000_0000 => Some(28),
        0x40f0_0000_0000_0000 => Some(29),
        0x7ff0_0000_0000_0000 => Some(30),
        0x7ff8_0000_0000_0000 => Some(31),
        _ => None,
    }
}
