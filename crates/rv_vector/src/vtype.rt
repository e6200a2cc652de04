//! The vector type (the manual's chapter "V", "Vector Type (vtype) Register").

ghost use Rattle.std.specs.Prelude.{◌≡◌, ◌+◌, ◌*◌, ◌^◌, ◌<◌};

use crate::modes::{VecMaskMode, VecTailMode};
use crate::widths::{VecElementWidth, VecLmul};
use std::fmt;

/// How the contents of vector registers are read.
#[derive(Clone, Copy, Debug, PartialEq)]
pub struct VType {
    pub sew: VecElementWidth,
    pub lmul: VecLmul,
    pub tail_mode: VecTailMode,
    pub mask_mode: VecMaskMode,
}

impl VType {
    ghost use Rattle.std.specs.Prelude.{◌≡◌, ◌<◌, ◌^◌};
    ghost use Rattle.rv_vector.specs.declared.vtype.VType.{VType as VectorType};
    ghost use Rattle.rv_vector.specs.VType.{vtype_of};

    /// The low eight bits of vtype. No two vector types have the same.
    pub fn encode(&self) -> u32
        ensures value { result ≡ vtype_of self.now }
        ensures width { result < 2 ^ 8 }
        ensures injective { (other : VectorType) → vtype_of other ≡ result → other ≡ self.now }
    {
        vtype_bits(
            self.lmul.encode(),
            self.sew.encode(),
            self.tail_mode.encode(),
            self.mask_mode.encode(),
        )
    }
}

/// The fields put together, each within its width.
///
/// ```text
///     7     6  5    3 2     0
/// | vma | vta | vsew | vlmul |
/// ```
fn vtype_bits(vlmul: u32, vsew: u32, vta: u32, vma: u32) -> u32
    requires vlmul { vlmul < 2 ^ 3 }
    requires vsew { vsew < 2 ^ 3 }
    requires vta { vta < 2 }
    requires vma { vma < 2 }
    ensures value { result ≡ vlmul + vsew * 2 ^ 3 + vta * 2 ^ 6 + vma * 2 ^ 7 }
    ensures width { result < 2 ^ 8 }
{
    vlmul | vsew << 3 | vta << 6 | vma << 7
}

/// The assembler's operands, as `e8, m1, ta, ma`.
impl fmt::Display for VType {
    ghost use Rattle.std.specs.Prelude.{Some};
    ghost use Rattle.rv_vector.specs.VType.{vtype_text};

    ghost output = { λ vtype. Some (vtype_text vtype) };

    fn fmt<W: fmt::Write>(&self, f: &mut fmt::Formatter<W>) -> fmt::Result {
        let (sew, lmul, tail, mask) = (self.sew, self.lmul, self.tail_mode, self.mask_mode);
        write!(f, "{sew}, {lmul}, {tail}, {mask}")
    }
}
