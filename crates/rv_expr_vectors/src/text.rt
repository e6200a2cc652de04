//! The text of a program: words with spaces between. Eight numbers are the arguments; then each word is an operation, `c:NUMBER`, `a:NUMBER`,
//! `pick:C:X:Y`, or the name of an operation of two, as `add:X:Y`.

use rv_base::OutOfMemory;
use rv_expr::{BinOp, ExprOp};
use rv_listing::natural;
use std::alloc::Global;

#[derive(Drop)]
pub(crate) struct Case {
    /// Eight.
    pub(crate) args: Vec<u64>,
    pub(crate) ops: Vec<ExprOp>,
}

fn number(word: Option<&str>) -> Option<u64> {
    natural(word?.as_bytes())
}

fn named(word: Option<&str>) -> Option<u32> {
    u32::try_from(number(word)?).ok()
}

fn bin_op(name: &str) -> Option<BinOp> {
    match name {
        "add" => Some(BinOp::Add),
        "sub" => Some(BinOp::Sub),
        "mul" => Some(BinOp::Mul),
        "and" => Some(BinOp::And),
        "or" => Some(BinOp::Or),
        "xor" => Some(BinOp::Xor),
        "shl" => Some(BinOp::Shl),
        "shr" => Some(BinOp::Shr),
        "sar" => Some(BinOp::Sar),
        "divu" => Some(BinOp::DivU),
        "remu" => Some(BinOp::RemU),
        "ltu" => Some(BinOp::Ltu),
        _ => None,
    }
}

fn operation(word: &str) -> Option<ExprOp> {
    let mut parts = word.split(':');
    match parts.next()? {
        "c" => Some(ExprOp::Const(number(parts.next())?)),
        "a" => Some(ExprOp::Arg(u8::try_from(number(parts.next())?).ok()?)),
        "pick" => Some(ExprOp::Pick(
            named(parts.next())?,
            named(parts.next())?,
            named(parts.next())?,
        )),
        name => Some(ExprOp::Bin(bin_op(name)?, named(parts.next())?, named(parts.next())?)),
    }
}

/// The arguments and the program of a line; none where it has another form.
pub(crate) fn case_of(alloc: Global, line: &str) -> Result<Option<Case>, OutOfMemory> {
    let mut args = Vec::new(alloc);
    let mut ops = Vec::new(alloc);
    for word in line.split(' ') {
        if args.len() < 8 {
            let Some(argument) = number(Some(word)) else {
                return Ok(None);
            };
            args.push(argument)?;
        } else {
            let Some(op) = operation(word) else {
                return Ok(None);
            };
            ops.push(op)?;
        }
    }
    Ok(Some(Case { args, ops }))
}
