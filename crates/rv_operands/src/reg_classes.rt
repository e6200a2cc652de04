//! The registers that hold a value of a type.

ghost use Rattle.std.specs.Prelude.{◌≡◌, [], ◌∷◌, Some, None, IfOk, IfErr};
ghost use Rattle.rv_operands.specs.RegClasses.{holding_of, vector_of, vector_holding};

use rv_base::{CodegenError, IrType, LaneType, RegClass, VectorType};
use smallvec::SmallVec;
use std::alloc::Global;

/// The classes of the registers that hold a value, of which there are one or two.
pub type RegClasses = SmallVec<RegClass, 2>;

/// The types of the parts of a value.
pub type RegTypes = SmallVec<IrType, 2>;

/// A list of one. Takes no memory.
fn one<T: Drop + Default>(alloc: Global, element: T) -> SmallVec<T, 2>
    ensures { result.items ≡ element ∷ [] }
{
    let mut list = SmallVec::new(alloc);
    list.push_reserved(element);
    list
}

/// A list of two. Takes no memory.
fn two<T: Drop + Default>(alloc: Global, first: T, second: T) -> SmallVec<T, 2>
    ensures { result.items ≡ first ∷ second ∷ [] }
{
    let mut list = SmallVec::new(alloc);
    list.push_reserved(first);
    list.push_reserved(second);
    list
}

/// One register, with a value of the type.
fn in_one(alloc: Global, class: RegClass, ty: IrType) -> (RegClasses, RegTypes)
    ensures classes { result.0.items ≡ class ∷ [] }
    ensures types { result.1.items ≡ ty ∷ [] }
{
    (one(alloc, class), one(alloc, ty))
}

/// Two integer registers, of 64 bits each.
fn in_two(alloc: Global) -> (RegClasses, RegTypes)
    ensures classes { result.0.items ≡ RegClass.Int ∷ RegClass.Int ∷ [] }
    ensures types { result.1.items ≡ IrType.I64 ∷ IrType.I64 ∷ [] }
{
    (
        two(alloc, RegClass::Int, RegClass::Int),
        two(alloc, IrType::I64, IrType::I64),
    )
}

/// The vector that stands for all of so many bytes; none of more than 64.
fn vector_of(bytes: u32) -> Option<IrType>
    ensures { result ≡ vector_of bytes }
{
    match bytes {
        2 => Some(IrType::Vector(VectorType {
            lane: LaneType::I8,
            lanes: 2,
        })),
        4 => Some(IrType::Vector(VectorType {
            lane: LaneType::I8,
            lanes: 4,
        })),
        8 => Some(IrType::Vector(VectorType {
            lane: LaneType::I8,
            lanes: 8,
        })),
        16 => Some(IrType::Vector(VectorType {
            lane: LaneType::I8,
            lanes: 16,
        })),
        32 => Some(IrType::Vector(VectorType {
            lane: LaneType::I16,
            lanes: 16,
        })),
        64 => Some(IrType::Vector(VectorType {
            lane: LaneType::I32,
            lanes: 16,
        })),
        _ => None,
    }
}

/// The registers of a vector of so many bytes.
fn vector_holding(alloc: Global, bytes: u32) -> Result<(RegClasses, RegTypes), CodegenError>
    ensures ok { IfOk result (λ found. vector_holding bytes ≡ Some (record { classes = found.0.items; types = found.1.items })) }
    ensures refused { IfErr result (λ cause. (cause ≡ CodegenError.Unsupported) × (vector_holding bytes ≡ None)) }
{
    match vector_of(bytes) {
        Some(ty) => Ok(in_one(alloc, RegClass::Vector, ty)),
        None => Err(CodegenError::Unsupported),
    }
}

/// The registers that hold a value of a type, as `MachInst::rc_for_type` gives them.
pub fn holding(alloc: Global, ty: IrType) -> Result<(RegClasses, RegTypes), CodegenError>
    ensures ok { IfOk result (λ found. holding_of ty ≡ Some (record { classes = found.0.items; types = found.1.items })) }
    ensures refused { IfErr result (λ cause. (cause ≡ CodegenError.Unsupported) × (holding_of ty ≡ None)) }
{
    match ty {
        IrType::I8 | IrType::I16 | IrType::I32 | IrType::I64 => {
            Ok(in_one(alloc, RegClass::Int, ty))
        }
        IrType::F16 | IrType::F32 | IrType::F64 => Ok(in_one(alloc, RegClass::Float, ty)),
        IrType::I128 | IrType::F128 => Ok(in_two(alloc)),
        IrType::Vector(_) => vector_holding(alloc, ty.bytes()),
    }
}
