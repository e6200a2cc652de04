//! What lines say that compute with floating-point numbers, or read and write frm.

use crate::fields::shown;
use crate::numbers::number;
use rv_inst::Inst;
use rv_ops::{CSR, CsrImmOP, CsrRegOP, FRM, FpuOPRR, FpuOPRRR, FpuOPRRRR, FpuOPWidth};
use std::alloc::{AllocError, Global};

/// What a line of one of these forms says: registers by their numbers, and constants and immediates as such.
#[derive(Clone, Copy, Debug, PartialEq, Eq)]
enum Fields {
    Fli(FpuOPWidth, u8, u8),
    FpuRR(FpuOPRR, FpuOPWidth, FRM, u8, u8),
    FpuRRR(FpuOPRRR, FpuOPWidth, FRM, u8, u8, u8),
    FpuRRRR(FpuOPRRRR, FpuOPWidth, FRM, u8, u8, u8, u8),
    CsrReg(CsrRegOP, u8, u8, CSR),
    CsrImm(CsrImmOP, u8, CSR, u32),
}

fn fields_of(inst: &Inst) -> Option<Fields> {
    let fields = match inst {
        Inst::Fli { width, imm, rd } => Fields::Fli(*width, imm.bits(), number(rd.reg)),
        Inst::FpuRR {
            alu_op,
            width,
            frm,
            rd,
            rs,
        } => Fields::FpuRR(*alu_op, *width, *frm, number(rd.reg), number(*rs)),
        Inst::FpuRRR {
            alu_op,
            width,
            frm,
            rd,
            rs1,
            rs2,
        } => Fields::FpuRRR(
            *alu_op,
            *width,
            *frm,
            number(rd.reg),
            number(*rs1),
            number(*rs2),
        ),
        Inst::FpuRRRR {
            alu_op,
            width,
            frm,
            rd,
            rs1,
            rs2,
            rs3,
        } => Fields::FpuRRRR(
            *alu_op,
            *width,
            *frm,
            number(rd.reg),
            number(*rs1),
            number(*rs2),
            number(*rs3),
        ),
        Inst::CsrReg { op, rd, rs, csr } => {
            Fields::CsrReg(*op, number(rd.reg), number(*rs), *csr)
        }
        Inst::CsrImm { op, rd, csr, imm } => {
            Fields::CsrImm(*op, number(rd.reg), *csr, imm.bits())
        }
        _ => return None,
    };
    Some(fields)
}

/// What an instruction of one of these forms says; of another none.
pub(crate) fn said(alloc: Global, inst: &Inst) -> Result<Option<String>, AllocError> {
    shown(alloc, fields_of(inst))
}
