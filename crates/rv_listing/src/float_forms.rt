//! The forms of lines that compute with floating-point numbers, or read and write their control register.

ghost use Rattle.std.specs.Prelude.{◌≡◌};
ghost use Rattle.rv_listing.specs.Tokens.{words_after};
ghost use Rattle.rv_listing.specs.Fields.{Makes};
ghost use Rattle.rv_listing.specs.Forms.{by_form};
ghost use Rattle.rv_listing.specs.declared.form_names.Form.TheVariants as forms;

use crate::fields::LineError;
use crate::form_fields::put;
use crate::form_names::FloatForm;
use rv_inst::{Inst, Line};
use std::alloc::Global;

/// The words after the name of one of these.
#[tactic(auto, unfolding(crate::specs::Forms::form_of))]
pub(crate) fn float_line(alloc: Global, form: FloatForm, rest: &[u8]) -> Result<Line, LineError>
    ensures { Makes result (by_form (forms.Float form) (words_after rest.now)) }
{
    match form {
        FloatForm::Fli => put(alloc, rest, |(width, imm, rd)| Inst::Fli { width, imm, rd }),
        FloatForm::FpuRR => put(
            alloc,
            rest,
            |(alu_op, width, frm, rd, rs)| Inst::FpuRR {
                alu_op,
                width,
                frm,
                rd,
                rs,
            },
        ),
        FloatForm::FpuRRR => put(
            alloc,
            rest,
            |(alu_op, width, frm, rd, rs1, rs2)| Inst::FpuRRR {
                alu_op,
                width,
                frm,
                rd,
                rs1,
                rs2,
            },
        ),
        FloatForm::FpuRRRR => put(
            alloc,
            rest,
            |(alu_op, width, frm, rd, rs1, rs2, rs3)| Inst::FpuRRRR {
                alu_op,
                width,
                frm,
                rd,
                rs1,
                rs2,
                rs3,
            },
        ),
        FloatForm::CsrReg => put(
            alloc,
            rest,
            |(op, rd, rs, csr)| Inst::CsrReg { op, rd, rs, csr },
        ),
        FloatForm::CsrImm => put(
            alloc,
            rest,
            |(op, rd, csr, imm)| Inst::CsrImm { op, rd, csr, imm },
        ),
    }
}
