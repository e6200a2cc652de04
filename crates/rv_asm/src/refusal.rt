//! Why a job is refused.

ghost use Rattle.std.specs.Prelude.{◌≡◌, ℕ, List, map, option_copied, [], ◌∷◌, ◌++◌, ◌+◌, ◌||◌, ◌<◌, false, length, nat_eq, nat_lt, IfOk, OnOk, IfSome, IfNone};
ghost use Rattle.rv_base.specs.declared.flags.IsaFlags.{IsaFlags as Flags};
ghost use Rattle.rv_base.specs.declared.constant.Constant.{Constant as Data};
ghost use Rattle.std.specs.List.{list_any};
ghost use Rattle.rv_inst.specs.Operands.{handler_label as label_of_handler, named_labels, inst_labels, labels_of, target_labels, targets_of, try_labels};
ghost use Rattle.rv_inst.specs.Context.{context_by};
ghost use Rattle.rv_asm.specs.Refusal.{is_unfit, size_limit, is_bound, broken_from, binds, twice_of, twice_in, twice_from, unbound_among, unbound_in, constants_sum, lines_sum, size_sum, lines_refusal, refusal, Finds};
ghost use Rattle.rv_asm.specs.Job.{job_in};
ghost use Rattle.rv_asm.specs.BoundLabels.{is_in};

use crate::survey::survey;
use mach_labels::LabelTable;
use rv_base::{Constant, FrameLayout, MachLabel, TryCallHandler, TryCallInfo};
use rv_inst::{
    CondBrTarget, Context, EmitError, Inst, Line, Targets, handler_label, is_bad_frame,
    is_unrestorable_for,
};
use std::alloc::Global;

/// Refuses a job for its first cause, where it has one. One pass over the lines tells of nearly every job that it has no cause
/// but labels that aren't bound; of the others each cause is looked for, in their order.
pub fn refuse(alloc: Global, lines: &[Line], context: &Context<'_>) -> Result<(), EmitError>
    ensures { Finds (refusal (job_in lines.now context.now)) result }
{
    match survey(alloc, lines, context) {
        Some(bound) => find_all(&bound, lines),
        None => refuse_in_order(alloc, lines, context),
    }
}

/// The same, looking for each cause by itself.
#[tactic(auto, unfolding(crate::specs::Refusal::refusal))]
fn refuse_in_order(alloc: Global, lines: &[Line], context: &Context<'_>) -> Result<(), EmitError>
    ensures { Finds (refusal (job_in lines.now context.now)) result }
{
    if is_bad_frame(context.frame) || any_is_unfit(lines, context.frame) {
        return Err(EmitError::BadFrame);
    }
    refuse_lines(alloc, lines, context)
}

/// Returns whether one of the lines is a tail call that can't restore the frame.
fn any_is_unfit(lines: &[Line], frame: &FrameLayout) -> bool
    ensures { result ≡ list_any (is_unfit frame.now) lines.now }
{
    lines.iter().any(|line| is_unfit(line, frame))
}

/// Returns whether a line is a tail call that can't restore the frame.
pub fn is_unfit(line: &Line, frame: &FrameLayout) -> bool
    ensures { result ≡ is_unfit frame.now line.now }
{
    match line {
        Line::Inst(inst) => is_unrestorable_for(inst, frame),
        Line::Bind(_) => false,
    }
}

/// Refuses lines for their first cause, where they have one.
#[tactic(auto, unfolding(crate::specs::Refusal::lines_refusal))]
fn refuse_lines(alloc: Global, lines: &[Line], context: &Context<'_>) -> Result<(), EmitError>
    ensures { Finds (lines_refusal context.now lines.now) result }
{
    check_rules(lines, context)?;
    let bound = bind_labels(alloc, lines)?;
    find_all(&bound, lines)?;
    if is_too_large(lines, context) {
        return Err(EmitError::TooLarge);
    }
    Ok(())
}

/// Refuses the first line that breaks a rule.
fn check_rules(lines: &[Line], context: &Context<'_>) -> Result<(), EmitError>
    ensures { Finds (broken_from context.now 0 lines.now) result }
{
    for (index, line) in lines.iter().enumerate() {
        if let Some(rule) = line.broken_rule(context) {
            return Err(EmitError::Malformed { index, rule });
        }
    }
    Ok(())
}

/// The labels that the lines bind; refuses the first line that binds one a second time.
fn bind_labels(alloc: Global, lines: &[Line]) -> Result<LabelTable<()>, EmitError>
    ensures once { Finds (twice_from (λ _. false) lines.now) result }
    ensures bound { IfOk result (λ bound. (label : ℕ) → is_in bound label ≡ is_bound lines.now label) }
{
    let mut bound = LabelTable::new(alloc);
    for line in lines {
        bind_label_of(&mut bound, line)?;
    }
    Ok(bound)
}

/// Binds the label of a line that binds one.
#[inline(always)]
pub fn bind_label_of(bound: &mut LabelTable<()>, line: &Line) -> Result<(), EmitError>
    ensures once { Finds (twice_in (is_in bound.old) line.now) result }
    ensures added { OnOk result ((label : ℕ) → is_in bound.new label ≡ binds line.now label || is_in bound.old label) }
{
    match line {
        Line::Inst(_) => Ok(()),
        Line::Bind(label) => bind_label(bound, *label),
    }
}

#[inline(never)]
fn bind_label(bound: &mut LabelTable<()>, label: MachLabel) -> Result<(), EmitError>
    ensures once { Finds (twice_of (is_in bound.old) label) result }
    ensures added { OnOk result ((q : ℕ) → is_in bound.new q ≡ nat_eq label.number q || is_in bound.old q) }
{
    if bound.get(label.number).is_some() {
        return Err(EmitError::LabelTwice {
            label: label.number,
        });
    }
    match bound.set(label.number, ()) {
        Ok(()) => Ok(()),
        Err(_) => Err(EmitError::OutOfMemory),
    }
}

/// Refuses the first line that names a label that none of the lines binds.
#[tactic(auto, using(crate::proofs::RefusalOrder::finds_by_test))]
fn find_all(bound: &LabelTable<()>, lines: &[Line]) -> Result<(), EmitError>
    requires { (label : ℕ) → is_in bound.now label ≡ is_bound lines.now label }
    ensures { Finds (unbound_in (is_bound lines.now) lines.now) result }
{
    find_labels(bound, lines)
}

/// Refuses the first line that names a label that isn't bound.
fn find_labels(bound: &LabelTable<()>, lines: &[Line]) -> Result<(), EmitError>
    ensures { Finds (unbound_in (is_in bound.now) lines.now) result }
{
    for line in lines {
        find_labels_of(bound, line)?;
    }
    Ok(())
}

fn find_labels_of(bound: &LabelTable<()>, line: &Line) -> Result<(), EmitError>
    ensures { Finds (unbound_among (is_in bound.now) (named_labels line.now)) result }
{
    match line {
        Line::Inst(inst) => find_labels_in(bound, inst),
        Line::Bind(_) => Ok(()),
    }
}

fn find_labels_in(bound: &LabelTable<()>, inst: &Inst) -> Result<(), EmitError>
    ensures { Finds (unbound_among (is_in bound.now) (inst_labels inst.now)) result }
{
    find_continued(bound, inst.try_call())?;
    find_named(bound, inst)?;
    find_all_of(bound, inst.table())
}

fn find_continued(bound: &LabelTable<()>, info: Option<&TryCallInfo>) -> Result<(), EmitError>
    ensures { Finds (unbound_among (is_in bound.now) (try_labels (option_copied info.entry))) result }
{
    match info {
        Some(info) => {
            find_label(bound, info.continuation)?;
            find_handlers(bound, info.handlers.as_slice())
        }
        None => Ok(()),
    }
}

fn find_handlers(bound: &LabelTable<()>, handlers: &[TryCallHandler]) -> Result<(), EmitError>
    ensures { Finds (unbound_among (is_in bound.now) (map label_of_handler handlers.now)) result }
{
    for handler in handlers {
        find_label(bound, handler_label(*handler))?;
    }
    Ok(())
}

fn find_all_of(bound: &LabelTable<()>, labels: &[MachLabel]) -> Result<(), EmitError>
    ensures { Finds (unbound_among (is_in bound.now) labels.now) result }
{
    for label in labels {
        find_label(bound, *label)?;
    }
    Ok(())
}

fn find_named(bound: &LabelTable<()>, inst: &Inst) -> Result<(), EmitError>
    ensures { Finds (unbound_among (is_in bound.now) (labels_of (targets_of inst.now))) result }
{
    match inst.targets() {
        Targets::Nowhere | Targets::RefersConstant(_, _) => Ok(()),
        Targets::Jumps(label) | Targets::Refers(label) => find_label(bound, label),
        Targets::Branches(taken, not_taken) => find_targets(bound, taken, not_taken),
    }
}

fn find_targets(
    bound: &LabelTable<()>,
    taken: CondBrTarget,
    not_taken: CondBrTarget,
) -> Result<(), EmitError>
    ensures { Finds (unbound_among (is_in bound.now) (target_labels taken ++ target_labels not_taken)) result }
{
    match (taken, not_taken) {
        (CondBrTarget::Label(first), CondBrTarget::Label(second)) => {
            find_label(bound, first)?;
            find_label(bound, second)
        }
        (CondBrTarget::Label(label), CondBrTarget::Fallthrough) => find_label(bound, label),
        (CondBrTarget::Fallthrough, CondBrTarget::Label(label)) => find_label(bound, label),
        (CondBrTarget::Fallthrough, CondBrTarget::Fallthrough) => Ok(()),
    }
}

fn find_label(bound: &LabelTable<()>, label: MachLabel) -> Result<(), EmitError>
    ensures { Finds (unbound_among (is_in bound.now) (label ∷ [])) result }
{
    match bound.get(label.number) {
        Some(()) => Ok(()),
        None => Err(EmitError::UnboundLabel {
            label: label.number,
        }),
    }
}

/// Lines and constants count for at most this many bytes, which is well below the limit of code.
const SIZE_LIMIT: u64 = 1 << 30;

/// Returns whether the lines and the constants count for more bytes than they may.
fn is_too_large(lines: &[Line], context: &Context<'_>) -> bool
    ensures { result ≡ nat_lt size_limit (size_sum context.now lines.now) }
{
    match left_by_constants(context.constants) {
        Some(left) => count_for_more(lines, context.frame, left),
        None => true,
    }
}

/// How many bytes the constants leave for lines, unless they count for more than they may.
pub fn left_by_constants(constants: &[Constant]) -> Option<u64>
    ensures left { IfSome result (λ left. left + constants_sum constants.now ≡ size_limit) }
    ensures none { IfNone result (size_limit < constants_sum constants.now) }
{
    let mut left = SIZE_LIMIT;
    for constant in constants {
        let sum = constant_sum(constant);
        if sum > u128::from(left) {
            return None;
        }
        left -= sum as u64;
    }
    Some(left)
}

/// The bytes that a constant counts for: its own, and 16 that its alignment may take.
fn constant_sum(constant: &Constant) -> u128
    ensures { result ≡ length constant.now.bytes + 16 }
{
    constant.bytes.len() as u128 + 16
}

/// Returns whether the lines count for more bytes than are left.
fn count_for_more(lines: &[Line], frame: &FrameLayout, left: u64) -> bool
    ensures { (flags : Flags) (constants : List Data) → result ≡ nat_lt left (lines_sum (context_by flags frame.now constants) lines.now) }
{
    let mut left = left;
    for line in lines {
        let size = line.size_sum(frame);
        if size > u128::from(left) {
            return true;
        }
        left -= size as u64;
    }
    false
}
