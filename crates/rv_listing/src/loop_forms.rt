//! The forms of lines that compute by a loop.

ghost use Rattle.std.specs.Prelude.{◌≡◌};
ghost use Rattle.rv_listing.specs.Tokens.{words_after};
ghost use Rattle.rv_listing.specs.Fields.{Makes};
ghost use Rattle.rv_listing.specs.Forms.{by_form};
ghost use Rattle.rv_listing.specs.declared.form_names.Form.TheVariants as forms;
ghost use Rattle.rv_listing.specs.declared.form_names.LoopForm.TheVariants as loops;

use crate::fields::{LineError, boxed};
use crate::form_fields::{FormFields, put, put_boxed};
use crate::form_names::LoopForm;
use crate::operands::Zeros;
use rv_inst::{Brev8Info, CountInfo, Inst, Line};
use std::alloc::Global;

// The only one of which one field stands beside a record of the others.
#[tactic(auto, unfolding(crate::specs::Forms::form_of))]
#[inline(never)]
fn cltz(alloc: Global, rest: &[u8]) -> Result<Line, LineError>
    ensures { Makes result (by_form (forms.Loop loops.Cltz) (words_after rest.now)) }
{
    let (sum, tmp, step, rs, Zeros { leading }, ty) = FormFields::of_words(alloc, rest)?;
    let info = CountInfo {
        sum,
        tmp,
        step,
        rs,
        ty,
    };
    let info = boxed(alloc, info)?;
    Ok(Line::Inst(Inst::Cltz { leading, info }))
}

/// The words after the name of one of these.
#[tactic(auto, unfolding(crate::specs::Forms::form_of))]
pub(crate) fn loop_line(alloc: Global, form: LoopForm, rest: &[u8]) -> Result<Line, LineError>
    ensures { Makes result (by_form (forms.Loop form) (words_after rest.now)) }
{
    match form {
        LoopForm::Popcnt => put_boxed(
            alloc,
            rest,
            |(sum, tmp, step, rs, ty)| CountInfo {
                sum,
                tmp,
                step,
                rs,
                ty,
            },
            |info| Inst::Popcnt { info },
        ),
        LoopForm::Cltz => cltz(alloc, rest),
        LoopForm::Brev8 => put_boxed(
            alloc,
            rest,
            |(rs, ty, step, tmp, tmp2, rd)| Brev8Info {
                rs,
                ty,
                step,
                tmp,
                tmp2,
                rd,
            },
            |info| Inst::Brev8 { info },
        ),
        LoopForm::StackProbeLoop => put(
            alloc,
            rest,
            |(guard_size, probe_count, tmp)| Inst::StackProbeLoop {
                guard_size,
                probe_count,
                tmp,
            },
        ),
    }
}
