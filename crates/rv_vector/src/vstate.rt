//! The setting of the vector unit, all that `vsetivli` sets (the manual's chapter "V", "Configuration-Setting Instructions").

use crate::avl::VecAvl;
use crate::modes::{VecMaskMode, VecTailMode};
use crate::vtype::VType;
use crate::widths::{VecElementWidth, VecLmul};
use rv_base::IrType;
use std::fmt;

/// The setting in which an instruction expects the vector unit: a length and a vector type.
#[derive(Clone, Copy, Debug, PartialEq)]
pub struct VState {
    pub avl: VecAvl,
    pub vtype: VType,
}

impl VState {
    ghost use Rattle.std.specs.Prelude.{◌≡◌, ◌<◌, Some, IsSome};
    ghost use Rattle.rv_base.specs.IrType.{lane_bits_of, lane_count_of};
    ghost use Rattle.rv_vector.specs.Widths.{width_of};
    ghost use Rattle.rv_vector.specs.VType.{agnostic};

    /// The setting for all lanes of a type in one register, agnostic of tail and mask. The lanes have 8, 16, 32 or 64 bits, and
    /// are fewer than 32; a scalar is one lane.
    pub fn from_type(ty: IrType) -> VState
        requires width { IsSome (width_of (lane_bits_of ty)) }
        requires count { lane_count_of ty < 32 }
        ensures avl { result.avl.size.value ≡ lane_count_of ty }
        ensures width { width_of (lane_bits_of ty) ≡ Some result.vtype.sew }
        ensures vtype { result.vtype ≡ agnostic result.vtype.sew }
    {
        VState {
            avl: VecAvl::_static(ty.lane_count()),
            vtype: VType {
                sew: VecElementWidth::from_type(ty),
                lmul: VecLmul::Lmul1,
                tail_mode: VecTailMode::Agnostic,
                mask_mode: VecMaskMode::Agnostic,
            },
        }
    }
}

/// The length and the vector type, as `#avl=16, #vtype=(e8, m1, ta, ma)`.
impl fmt::Display for VState {
    ghost use Rattle.std.specs.Prelude.{Some};
    ghost use Rattle.rv_vector.specs.VState.{vstate_text};

    ghost output = { λ state. Some (vstate_text state) };

    fn fmt<W: fmt::Write>(&self, f: &mut fmt::Formatter<W>) -> fmt::Result {
        let (avl, vtype) = (self.avl, self.vtype);
        write!(f, "#avl={avl}, #vtype=({vtype})")
    }
}
