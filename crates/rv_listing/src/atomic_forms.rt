//! The forms of lines that order what is read and written, or read and write memory atomically.

ghost use Rattle.std.specs.Prelude.{◌≡◌};
ghost use Rattle.rv_listing.specs.Tokens.{words_after};
ghost use Rattle.rv_listing.specs.Fields.{Makes};
ghost use Rattle.rv_listing.specs.Forms.{by_form};
ghost use Rattle.rv_listing.specs.declared.form_names.Form.TheVariants as forms;

use crate::fields::LineError;
use crate::form_fields::put;
use crate::form_names::AtomicForm;
use rv_inst::{Inst, Line};
use std::alloc::Global;

/// The words after the name of one of these.
#[tactic(auto, unfolding(crate::specs::Forms::form_of))]
pub(crate) fn atomic_line(alloc: Global, form: AtomicForm, rest: &[u8]) -> Result<Line, LineError>
    ensures { Makes result (by_form (forms.Atomic form) (words_after rest.now)) }
{
    match form {
        AtomicForm::Fence => put(alloc, rest, |(pred, succ)| Inst::Fence { pred, succ }),
        AtomicForm::AtomicLoad => put(alloc, rest, |(rd, ty, p)| Inst::AtomicLoad { rd, ty, p }),
        AtomicForm::AtomicStore => put(
            alloc,
            rest,
            |(src, ty, p)| Inst::AtomicStore { src, ty, p },
        ),
        AtomicForm::Atomic => put(
            alloc,
            rest,
            |(op, rd, addr, src, amo)| Inst::Atomic {
                op,
                rd,
                addr,
                src,
                amo,
            },
        ),
    }
}
