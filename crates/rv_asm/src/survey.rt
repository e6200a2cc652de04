//! One pass over the lines of a job, which tells of nearly every job that nothing is wrong but labels that aren't bound.

ghost use Rattle.std.specs.Prelude.{◌≡◌, ◌+◌, true, IfSome};
ghost use Rattle.rv_inst.specs.Context.{Context as Shown};
ghost use Rattle.rv_asm.specs.Survey.{IsPlainLine, IsPassed, IsSurveyed};

use crate::refusal::{bind_label_of, is_unfit, left_by_constants};
use mach_labels::{FIRST_INNER, LabelTable};
use rv_inst::{Context, LINE_SIZE, Line, is_bad_frame};
use std::alloc::Global;

/// The labels that the lines bind; none where there may be another cause to refuse the job than a label that isn't bound, or where
/// memory ran out.
pub fn survey(alloc: Global, lines: &[Line], context: &Context<'_>) -> Option<LabelTable<()>>
    ensures { IfSome result (IsSurveyed context.now lines.now) }
{
    if is_bad_frame(context.frame) {
        return None;
    }
    let mut left = left_by_constants(context.constants)?;
    let mut bound = LabelTable::new(alloc);
    for line in lines {
        left = left_after(line, context, left)?;
        let bind = bind_label_of(&mut bound, line);
        match bind {
            Ok(()) => {}
            Err(_) => return None,
        }
    }
    Some(bound)
}

/// How many of the bytes that are left a line leaves, where it breaks no rule and can restore the frame.
#[inline(always)]
fn left_after(line: &Line, context: &Context<'_>, left: u64) -> Option<u64>
    ensures { IfSome result (IsPassed context.now line.now left) }
{
    if is_plain(line) {
        left_of(left, LINE_SIZE)
    } else {
        left_after_other(line, context, left)
    }
}

/// Returns whether a line is a plain instruction, or binds a label of the listing's own.
#[inline(always)]
fn is_plain(line: &Line) -> bool
    ensures { (context : Shown) → result ≡ true → IsPlainLine context line.now }
{
    match line {
        Line::Inst(inst) => inst.is_plain(),
        Line::Bind(label) => label.number < FIRST_INNER,
    }
}

/// The same as `left_after`, for any line.
fn left_after_other(line: &Line, context: &Context<'_>, left: u64) -> Option<u64>
    ensures { IfSome result (IsPassed context.now line.now left) }
{
    if is_unfit(line, context.frame) {
        return None;
    }
    match line.broken_rule(context) {
        Some(_) => None,
        None => left_of(left, line.size_sum(context.frame)),
    }
}

fn left_of(left: u64, size: u128) -> Option<u64>
    ensures { IfSome result (λ rest. rest + size ≡ left) }
{
    if size > u128::from(left) {
        None
    } else {
        Some(left - size as u64)
    }
}
