//! A constant as an upper and a lower immediate, as `lui` or `auipc` and `addi` take them (the manual's chapter "RV32I Base
//! Integer Instruction Set", "Integer Register-Immediate Instructions").

ghost use Rattle.std.specs.Prelude.{◌≡◌, pos, negsuc, MatchOption};
ghost use Rattle.std.specs.Int.{cast_signed, w64};
ghost use Rattle.rv_imms.specs.Splitting.{value_of, least, greatest, IsSplittable};

use crate::imm12::Imm12;
use crate::imm20::Imm20;

/// The least number that the two immediates make, -2^31 - 2^11: both at their least.
pub fn imm_min() -> i64
    ensures { result ≡ least }
{
    -524288 * 4096 - 2048
}

/// The greatest number that the two immediates make, 2^31 - 2^11 - 1: both at their greatest.
pub fn imm_max() -> i64
    ensures { result ≡ greatest }
{
    524287 * 4096 + 2047
}

/// The immediates that make the number that the 64 bits are in two's complement: 4096 times the upper one, plus the lower
/// one. None outside `imm_min()` to `imm_max()`.
pub fn generate_imm(value: u64) -> Option<(Imm20, Imm12)>
    ensures { MatchOption result (¬ (IsSplittable (cast_signed w64 value)))
        (λ parts. value_of parts.0.value parts.1.value ≡ cast_signed w64 value) }
{
    let value = value.cast_signed();
    if value < imm_min() || value > imm_max() {
        return None;
    }
    let above_least = (value - imm_min()).cast_unsigned();
    let upper = (above_least / 4096) as i32 - 524288;
    let lower = (above_least % 4096) as i16 - 2048;
    Some((Imm20::from_i32(upper), Imm12::from_i16(lower)))
}
