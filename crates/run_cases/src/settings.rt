//! Settings of the vector unit, whose bits are the manual's (chapter "V", "Vector Type (vtype) Register") and whose texts an
//! assembler reads.

use crate::error::RunError;
use rv_base::{IrType, LaneType, VectorType};
use rv_vector::VecElementWidth::{E8, E16, E32, E64};
use rv_vector::VecLmul::{Lmul1, Lmul2, Lmul4, Lmul8, LmulF2, LmulF4, LmulF8};
use rv_vector::{VState, VType, VecAvl, VecElementWidth, VecLmul, VecMaskMode, VecTailMode};

const TA: VecTailMode = VecTailMode::Agnostic;

const TU: VecTailMode = VecTailMode::Undisturbed;

const MA: VecMaskMode = VecMaskMode::Agnostic;

const MU: VecMaskMode = VecMaskMode::Undisturbed;

const SETTINGS: [(VecElementWidth, VecLmul, VecTailMode, VecMaskMode); 14] = [
    (E8, Lmul1, TU, MU),
    (E16, Lmul1, TU, MU),
    (E32, Lmul1, TU, MU),
    (E64, Lmul1, TU, MU),
    (E8, Lmul2, TU, MU),
    (E8, Lmul4, TU, MU),
    (E8, Lmul8, TU, MU),
    (E8, LmulF8, TU, MU),
    (E8, LmulF4, TU, MU),
    (E8, LmulF2, TU, MU),
    (E8, Lmul1, TA, MU),
    (E8, Lmul1, TU, MA),
    (E32, Lmul1, TA, MA),
    (E64, LmulF2, TA, MA),
];

pub(crate) fn write(text: &mut String) -> Result<(), RunError> {
    for (sew, lmul, tail_mode, mask_mode) in SETTINGS {
        let vtype = VType {
            sew,
            lmul,
            tail_mode,
            mask_mode,
        };
        let bits = vtype.encode();
        writeln!(text, "setting {bits:02x} {vtype}")?;
    }
    let bytes = IrType::Vector(VectorType {
        lane: LaneType::I8,
        lanes: 16,
    });
    let doubles = IrType::Vector(VectorType {
        lane: LaneType::F64,
        lanes: 2,
    });
    for ty in [IrType::I32, IrType::F16, bytes, doubles] {
        let state = VState::from_type(ty);
        writeln!(text, "setting of {ty}: {state}")?;
    }
    let avl = VecAvl::_static(31);
    let (is_static, length) = (avl.is_static(), avl.unwrap_static().value);
    writeln!(text, "length {length} in the instruction: {is_static}")?;
    Ok(())
}
