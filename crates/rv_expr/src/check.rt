//! What is wrong with a program.

ghost use Rattle.std.specs.Prelude.{◌≡◌, nat_le};
ghost use Rattle.rv_expr.specs.Refusal.{bad_ref, fault_of, refusal};

use crate::error::ExprError;
use crate::ops::{ExprOp, MAX_OPERATIONS};

/// The first cause why a program is refused, if there is one.
pub(crate) fn refuse(ops: &[ExprOp]) -> Option<ExprError>
    ensures { result ≡ refusal ops.now }
{
    if ops.is_empty() {
        return Some(ExprError::Empty);
    }
    if ops.len() > MAX_OPERATIONS {
        return Some(ExprError::TooLong);
    }
    for (index, op) in ops.iter().enumerate() {
        let fault = fault(index, *op);
        if fault.is_some() {
            return fault;
        }
    }
    None
}

/// What is wrong with the operation of a number.
fn fault(index: usize, op: ExprOp) -> Option<ExprError>
    ensures { result ≡ fault_of index op }
{
    match op {
        ExprOp::Const(_) => None,
        ExprOp::Arg(argument) if argument < 8 => None,
        ExprOp::Arg(_) => Some(ExprError::BadArg { index }),
        ExprOp::Bin(_, x, y) => late(index, is_late(index, x) || is_late(index, y)),
        ExprOp::Pick(c, x, y) => late(
            index,
            is_late(index, c) || is_late(index, x) || is_late(index, y),
        ),
    }
}

fn late(index: usize, is_late: bool) -> Option<ExprError>
    ensures { result ≡ bad_ref index is_late }
{
    if is_late {
        Some(ExprError::BadRef { index })
    } else {
        None
    }
}

/// Returns whether an operation names itself or a later one.
fn is_late(index: usize, named: u32) -> bool
    ensures { result ≡ nat_le index named }
{
    index <= named as usize
}
