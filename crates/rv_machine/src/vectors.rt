//! Vector arithmetic: which fields make an operation.

ghost use Rattle.std.specs.Prelude.{◌≡◌};
ghost use Rattle.rv_machine.specs.Vectors.{opivv, opf, opfvv, opm, opmvv, opivi, opivx, opfvf, opmvx, vector_fields, is_int_unary, is_float_unary, is_whole, is_move, are_fields};

use crate::ops::VecFields;

/// OPIVV.
fn opivv(funct6: u8) -> Option<VecFields>
    ensures { result ≡ opivv funct6 }
{
    match funct6 {
        0x00 => Some(VecFields::Any),
        0x01 => Some(VecFields::Any),
        0x02 => Some(VecFields::Any),
        0x04 => Some(VecFields::Any),
        0x05 => Some(VecFields::Any),
        0x06 => Some(VecFields::Any),
        0x07 => Some(VecFields::Any),
        0x09 => Some(VecFields::Any),
        0x0a => Some(VecFields::Any),
        0x0b => Some(VecFields::Any),
        0x0c => Some(VecFields::Any),
        0x14 => Some(VecFields::Any),
        0x15 => Some(VecFields::Any),
        0x17 => Some(VecFields::Merge),
        0x18 => Some(VecFields::Any),
        0x19 => Some(VecFields::Any),
        0x1a => Some(VecFields::Any),
        0x1b => Some(VecFields::Any),
        0x1c => Some(VecFields::Any),
        0x1d => Some(VecFields::Any),
        0x20 => Some(VecFields::Any),
        0x21 => Some(VecFields::Any),
        0x22 => Some(VecFields::Any),
        0x23 => Some(VecFields::Any),
        0x25 => Some(VecFields::Any),
        0x27 => Some(VecFields::Any),
        0x28 => Some(VecFields::Any),
        0x29 => Some(VecFields::Any),
        _ => None,
    }
}

/// The rows that OPFVV and OPFVF share.
fn opf(funct6: u8) -> Option<VecFields>
    ensures { result ≡ opf funct6 }
{
    match funct6 {
        0x00 => Some(VecFields::Any),
        0x02 => Some(VecFields::Any),
        0x08 => Some(VecFields::Any),
        0x18 => Some(VecFields::Any),
        0x19 => Some(VecFields::Any),
        0x1b => Some(VecFields::Any),
        0x1c => Some(VecFields::Any),
        0x20 => Some(VecFields::Any),
        0x24 => Some(VecFields::Any),
        0x2c => Some(VecFields::Any),
        0x2d => Some(VecFields::Any),
        0x2e => Some(VecFields::Any),
        0x2f => Some(VecFields::Any),
        _ => None,
    }
}

/// OPFVV.
fn opfvv(funct6: u8) -> Option<VecFields>
    ensures { result ≡ opfvv funct6 }
{
    match funct6 {
        0x04 => Some(VecFields::Any),
        0x06 => Some(VecFields::Any),
        0x09 => Some(VecFields::Any),
        0x0a => Some(VecFields::Any),
        0x10 => Some(VecFields::ToScalar),
        0x12 => Some(VecFields::FloatUnary),
        0x13 => Some(VecFields::Root),
        _ => opf(funct6),
    }
}

/// The rows that OPMVV and OPMVX share.
fn opm(funct6: u8) -> Option<VecFields>
    ensures { result ≡ opm funct6 }
{
    match funct6 {
        0x24 => Some(VecFields::Any),
        0x25 => Some(VecFields::Any),
        0x27 => Some(VecFields::Any),
        0x2d => Some(VecFields::Any),
        0x2f => Some(VecFields::Any),
        0x30 => Some(VecFields::Any),
        0x31 => Some(VecFields::Any),
        0x32 => Some(VecFields::Any),
        0x33 => Some(VecFields::Any),
        0x34 => Some(VecFields::Any),
        0x35 => Some(VecFields::Any),
        0x36 => Some(VecFields::Any),
        0x37 => Some(VecFields::Any),
        _ => None,
    }
}

/// OPMVV.
fn opmvv(funct6: u8) -> Option<VecFields>
    ensures { result ≡ opmvv funct6 }
{
    match funct6 {
        0x04 => Some(VecFields::Any),
        0x06 => Some(VecFields::Any),
        0x10 => Some(VecFields::ToScalar),
        0x12 => Some(VecFields::IntUnary),
        0x17 => Some(VecFields::Unmasked),
        0x19 => Some(VecFields::Unmasked),
        0x1a => Some(VecFields::Unmasked),
        0x1d => Some(VecFields::Unmasked),
        0x1e => Some(VecFields::Unmasked),
        _ => opm(funct6),
    }
}

/// OPIVI.
fn opivi(funct6: u8) -> Option<VecFields>
    ensures { result ≡ opivi funct6 }
{
    match funct6 {
        0x00 => Some(VecFields::Any),
        0x03 => Some(VecFields::Any),
        0x09 => Some(VecFields::Any),
        0x0a => Some(VecFields::Any),
        0x0b => Some(VecFields::Any),
        0x0c => Some(VecFields::Any),
        0x0e => Some(VecFields::Any),
        0x0f => Some(VecFields::Any),
        0x14 => Some(VecFields::Any),
        0x17 => Some(VecFields::Merge),
        0x18 => Some(VecFields::Any),
        0x19 => Some(VecFields::Any),
        0x1c => Some(VecFields::Any),
        0x1d => Some(VecFields::Any),
        0x1e => Some(VecFields::Any),
        0x1f => Some(VecFields::Any),
        0x20 => Some(VecFields::Any),
        0x21 => Some(VecFields::Any),
        0x25 => Some(VecFields::Any),
        0x27 => Some(VecFields::Move),
        0x28 => Some(VecFields::Any),
        0x29 => Some(VecFields::Any),
        0x2a => Some(VecFields::Any),
        0x2e => Some(VecFields::Any),
        0x2f => Some(VecFields::Any),
        _ => None,
    }
}

/// OPIVX: the rows of OPIVV, and those that have no form of two vectors.
fn opivx(funct6: u8) -> Option<VecFields>
    ensures { result ≡ opivx funct6 }
{
    match funct6 {
        0x03 => Some(VecFields::Any),
        0x0f => Some(VecFields::Any),
        0x1e => Some(VecFields::Any),
        0x1f => Some(VecFields::Any),
        _ => opivv(funct6),
    }
}

/// OPFVF.
fn opfvf(funct6: u8) -> Option<VecFields>
    ensures { result ≡ opfvf funct6 }
{
    match funct6 {
        0x10 => Some(VecFields::FromScalar),
        0x17 => Some(VecFields::Merge),
        0x1d => Some(VecFields::Any),
        0x1f => Some(VecFields::Any),
        0x21 => Some(VecFields::Any),
        0x27 => Some(VecFields::Any),
        _ => opf(funct6),
    }
}

/// OPMVX.
fn opmvx(funct6: u8) -> Option<VecFields>
    ensures { result ≡ opmvx funct6 }
{
    match funct6 {
        0x0e => Some(VecFields::Any),
        0x10 => Some(VecFields::FromScalar),
        _ => opm(funct6),
    }
}

pub fn vector_fields(funct6: u8, funct3: u8) -> Option<VecFields>
    ensures { result ≡ vector_fields funct6 funct3 }
{
    match funct3 {
        0 => opivv(funct6),
        1 => opfvv(funct6),
        2 => opmvv(funct6),
        3 => opivi(funct6),
        4 => opivx(funct6),
        5 => opfvf(funct6),
        6 => opmvx(funct6),
        _ => None,
    }
}

/// Returns whether a selector of VXUNARY0 is one of an operation.
fn is_int_unary(selector: u8) -> bool
    ensures { result ≡ is_int_unary selector }
{
    match selector {
        0x02 => true,
        0x03 => true,
        0x04 => true,
        0x05 => true,
        0x06 => true,
        0x07 => true,
        0x08 => true,
        0x09 => true,
        0x0a => true,
        0x0c => true,
        0x0d => true,
        0x0e => true,
        _ => false,
    }
}

/// Returns whether a selector of VFUNARY0 is one of an operation.
fn is_float_unary(selector: u8) -> bool
    ensures { result ≡ is_float_unary selector }
{
    match selector {
        0x00 => true,
        0x01 => true,
        0x02 => true,
        0x03 => true,
        0x06 => true,
        0x07 => true,
        0x0c => true,
        0x14 => true,
        _ => false,
    }
}

/// Returns whether a move of so many registers, less one, is an operation.
fn is_move(less: u8, from: u8, to: u8) -> bool
    ensures { result ≡ is_move less from to }
{
    match less {
        0 => true,
        1 => from % 2 == 0 && to % 2 == 0,
        3 => from % 4 == 0 && to % 4 == 0,
        7 => from % 8 == 0 && to % 8 == 0,
        _ => false,
    }
}

/// Returns whether the bit at 25 and the fields at 24:20, 19:15 and 11:7 are used so.
pub fn are_fields(fields: VecFields, vm: bool, vs2: u8, vs1: u8, vd: u8) -> bool
    ensures { result ≡ are_fields fields vm vs2 vs1 vd }
{
    match fields {
        VecFields::Any => true,
        VecFields::Unmasked => vm,
        VecFields::Merge => !vm || vs2 == 0,
        VecFields::FromScalar => vm && vs2 == 0,
        VecFields::ToScalar => vm && vs1 == 0,
        VecFields::IntUnary => is_int_unary(vs1),
        VecFields::FloatUnary => is_float_unary(vs1),
        VecFields::Root => vs1 == 0,
        VecFields::Move => vm && is_move(vs1, vs2, vd),
    }
}
