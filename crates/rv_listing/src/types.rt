//! Types by their names.

ghost use Rattle.std.specs.Prelude.{◌≡◌, Some};
ghost use Rattle.rv_base.specs.IrType.{name_of};
ghost use Rattle.rv_listing.specs.Types.{scalar, type_named, vector, vector_of};

use crate::fields::Token;
use crate::tokens::{decimal, is, two_parts};
use rv_base::IrType;

#[tactic(auto, unfolding(crate::specs::Types::scalar))]
fn scalar(w: &[u8]) -> Option<IrType>
    ensures { result ≡ scalar w.now }
{
    let scalar = if is(b"i8", w) {
        IrType::I8
    } else if is(b"i16", w) {
        IrType::I16
    } else if is(b"i32", w) {
        IrType::I32
    } else if is(b"i64", w) {
        IrType::I64
    } else if is(b"i128", w) {
        IrType::I128
    } else if is(b"f16", w) {
        IrType::F16
    } else if is(b"f32", w) {
        IrType::F32
    } else if is(b"f64", w) {
        IrType::F64
    } else if is(b"f128", w) {
        IrType::F128
    } else {
        return None;
    };
    Some(scalar)
}

fn vector_of(lane: IrType, lanes: u64) -> Option<IrType>
    ensures { result ≡ vector_of lane lanes }
{
    if lanes <= 256 {
        IrType::vector(lane, lanes as u32)
    } else {
        None
    }
}

#[tactic(auto, unfolding(crate::specs::Types::vector))]
fn vector(w: &[u8]) -> Option<IrType>
    ensures { result ≡ vector w.now }
{
    let (lane, lanes) = two_parts(b'x', w)?;
    let lane = scalar(lane)?;
    vector_of(lane, decimal(lanes)?)
}

#[tactic(auto, unfolding(crate::specs::Types::type_named))]
fn find_type(w: &[u8]) -> Option<IrType>
    ensures { result ≡ type_named w.now }
{
    match scalar(w) {
        Some(scalar) => Some(scalar),
        None => vector(w),
    }
}

/// The type of this name.
pub fn type_named(w: &[u8]) -> Option<IrType>
    ensures reads { result ≡ type_named w.now }
    ensures named { (type : IrType) → w.now ≡ name_of type → result ≡ Some type }
{
    find_type(w)
}

impl Token for IrType {
    ghost reads = { type_named };

    fn read(w: &[u8]) -> Option<IrType> {
        type_named(w)
    }
}
