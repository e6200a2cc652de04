//! Which rule a line breaks.

ghost use Rattle.std.specs.Prelude.{◌≡◌, ◌++◌, map, option_copied};
ghost use Rattle.rv_inst.specs.Context.{context_by};
ghost use Rattle.rv_inst.specs.Faults.{is_misplaced, has_bad_type, is_out_of_range, lacks_target};
ghost use Rattle.rv_inst.specs.Rules.{is_buffer_label, is_fallthrough, every_rule, breaks, inst_rule, broken_rule};
ghost use Rattle.std.specs.List.{list_any, find};
ghost use Rattle.rv_inst.specs.Operands.{handler_label as label_of_handler, inst_labels, labels_of, target_labels, targets_of, try_labels};

use crate::addresses::lacks_constant;
use crate::clashes::{has_clash, has_zero};
use crate::context::Context;
use crate::error::Rule;
use crate::inst::{CondBrTarget, Inst, Line};
use crate::places::is_misplaced;
use crate::ranges::{has_bad_size, has_bad_type, has_empty_table, is_out_of_range};
use crate::registers::{RegisterTest, has_register};
use crate::tail_calls::exceeds_arguments;
use crate::targets::{Targets, handler_label};
use crate::units::{has_bad_rounding, has_bad_width};
use mach_labels::FIRST_INNER;
use rv_base::{Constant, FrameLayout, IsaFlags, MachLabel, TryCallHandler, TryCallInfo};

/// The rules, in the order in which a line is checked.
const EVERY_RULE: [Rule; 15] = [
    Rule::Virtual,
    Rule::Class,
    Rule::Reserved,
    Rule::Zero,
    Rule::Clash,
    Rule::BadType,
    Rule::Range,
    Rule::Rounding,
    Rule::Width,
    Rule::Constant,
    Rule::EmptyTable,
    Rule::NoTarget,
    Rule::Label,
    Rule::TailArgs,
    Rule::DataSize,
];

impl Line {
    /// The first rule that the line breaks, on a machine with these flags, in this frame and among these constants.
    pub fn check(
        &self,
        flags: IsaFlags,
        frame: &FrameLayout,
        constants: &[Constant],
    ) -> Option<Rule>
        ensures { result ≡ broken_rule (context_by flags frame.now constants.now) self.now }
    {
        self.broken_rule(&Context {
            flags,
            frame,
            constants,
        })
    }

    /// The same, in a context.
    pub fn broken_rule(&self, context: &Context<'_>) -> Option<Rule>
        ensures { result ≡ broken_rule context.now self.now }
    {
        match self {
            Line::Inst(inst) => inst.broken_rule(context),
            Line::Bind(label) => {
                if is_buffer_label(*label) {
                    Some(Rule::Label)
                } else {
                    None
                }
            }
        }
    }
}

impl Inst {
    /// The first rule that the instruction breaks, on a machine with these flags, in this frame and among these constants.
    pub fn check(
        &self,
        flags: IsaFlags,
        frame: &FrameLayout,
        constants: &[Constant],
    ) -> Option<Rule>
        ensures { result ≡ inst_rule (context_by flags frame.now constants.now) self.now }
    {
        self.broken_rule(&Context {
            flags,
            frame,
            constants,
        })
    }

    /// The same, in a context.
    #[tactic(auto, unfolding(crate::specs::Rules::every_rule))]
    pub fn broken_rule(&self, context: &Context<'_>) -> Option<Rule>
        ensures { result ≡ inst_rule context.now self.now }
    {
        self.first_broken(&EVERY_RULE, context)
    }

    fn first_broken(&self, rules: &[Rule], context: &Context<'_>) -> Option<Rule>
        ensures { result ≡ find (breaks context.now self.now) rules.now }
    {
        for rule in rules {
            if self.breaks(*rule, context) {
                return Some(*rule);
            }
        }
        None
    }

    fn breaks(&self, rule: Rule, context: &Context<'_>) -> bool
        ensures { result ≡ breaks context.now self.now rule }
    {
        match rule {
            Rule::Virtual => has_register(RegisterTest::Virtual, self),
            Rule::Class => is_misplaced(self),
            Rule::Reserved => has_register(RegisterTest::Reserved, self),
            Rule::Zero => has_zero(self),
            Rule::Clash => has_clash(self),
            Rule::BadType => has_bad_type(self),
            Rule::Range => is_out_of_range(self),
            Rule::Rounding => has_bad_rounding(self),
            Rule::Width => has_bad_width(self),
            Rule::Constant => lacks_constant(self, context.constants),
            Rule::EmptyTable => has_empty_table(self),
            Rule::NoTarget => lacks_target(self),
            Rule::Label => has_inner_label(self),
            Rule::TailArgs => exceeds_arguments(self, context.frame),
            Rule::DataSize => has_bad_size(self),
        }
    }
}

/// Returns whether a label is one of those that a buffer makes for itself.
pub fn is_buffer_label(label: MachLabel) -> bool
    ensures { result ≡ is_buffer_label label }
{
    label.number >= FIRST_INNER
}

/// Returns whether a target is the next line.
pub fn is_fallthrough(target: CondBrTarget) -> bool
    ensures { result ≡ is_fallthrough target }
{
    match target {
        CondBrTarget::Label(_) => false,
        CondBrTarget::Fallthrough => true,
    }
}

fn lacks_target(inst: &Inst) -> bool
    ensures { result ≡ lacks_target inst.now }
{
    match inst {
        Inst::CondBr {
            taken,
            not_taken: _,
            kind: _,
        } => is_fallthrough(*taken),
        _ => false,
    }
}

fn is_inner_target(target: CondBrTarget) -> bool
    ensures { result ≡ list_any is_buffer_label (target_labels target) }
{
    match target {
        CondBrTarget::Label(label) => is_buffer_label(label),
        CondBrTarget::Fallthrough => false,
    }
}

/// Returns whether one of two targets is a label that a buffer makes for itself.
pub fn has_inner_target(taken: CondBrTarget, not_taken: CondBrTarget) -> bool
    ensures { result ≡ list_any is_buffer_label (target_labels taken ++ target_labels not_taken) }
{
    is_inner_target(taken) || is_inner_target(not_taken)
}

fn any_is_inner(labels: &[MachLabel]) -> bool
    ensures { result ≡ list_any is_buffer_label labels.now }
{
    labels.iter().any(|label| is_buffer_label(*label))
}

fn has_inner_label(inst: &Inst) -> bool
    ensures { result ≡ list_any is_buffer_label (inst_labels inst.now) }
{
    goes_on_to_inner(inst.try_call()) || names_inner(inst) || any_is_inner(inst.table())
}

fn goes_on_to_inner(info: Option<&TryCallInfo>) -> bool
    ensures { result ≡ list_any is_buffer_label (try_labels (option_copied info.entry)) }
{
    match info {
        Some(info) => {
            is_buffer_label(info.continuation) || any_handler_is_inner(info.handlers.as_slice())
        }
        None => false,
    }
}

fn any_handler_is_inner(handlers: &[TryCallHandler]) -> bool
    ensures { result ≡ list_any is_buffer_label (map label_of_handler handlers.now) }
{
    for handler in handlers {
        if is_buffer_label(handler_label(*handler)) {
            return true;
        }
    }
    false
}

fn names_inner(inst: &Inst) -> bool
    ensures { result ≡ list_any is_buffer_label (labels_of (targets_of inst.now)) }
{
    match inst.targets() {
        Targets::Nowhere | Targets::RefersConstant(_, _) => false,
        Targets::Jumps(label) | Targets::Refers(label) => is_buffer_label(label),
        Targets::Branches(taken, not_taken) => has_inner_target(taken, not_taken),
    }
}
