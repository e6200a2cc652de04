//! The words of operations of integer registers: "2.4 Integer Computational Instructions" and the chapters "M", "Zicond" and "B".

ghost use Rattle.std.specs.Prelude.{◌≡◌, Some};
ghost use Rattle.rv_base.specs.declared.flags.IsaFlags.{IsaFlags};
ghost use Rattle.rv_base.specs.Regs.{number_of};
ghost use Rattle.rv_machine.specs.Decode.{decode};
ghost use Rattle.rv_encode.specs.Registers.{IsIntRegister};
ghost use Rattle.rv_encode.specs.Operations.{decoded_rrr, decoded_rri};

use crate::layouts::{encode_r_type, i_word, reg_to_gpr_num};
use rv_base::{Reg, WritableReg};
use rv_imms::Imm12;
use rv_ops::{AluOPRRI, AluOPRRR};

/// The word of an operation of two integer registers.
pub fn encode_alu_rrr(op: AluOPRRR, rd: WritableReg, rs1: Reg, rs2: Reg) -> u32
    requires rd { IsIntRegister rd.reg }
    requires rs1 { IsIntRegister rs1 }
    requires rs2 { IsIntRegister rs2 }
    ensures { (flags : IsaFlags) → decode flags result ≡ Some (decoded_rrr op (number_of rd.reg) (number_of rs1) (number_of rs2)) }
{
    if op.reverse_rs() {
        return encode_r_type(op.op_code(), rd, op.funct3(), rs2, rs1, op.funct7());
    }
    encode_r_type(op.op_code(), rd, op.funct3(), rs1, rs2, op.funct7())
}

/// The word of an operation of an integer register and an immediate. A shift keeps the low bits of the immediate, and an
/// operation of one source none.
pub fn encode_alu_rr_imm12(op: AluOPRRI, rd: WritableReg, rs: Reg, imm12: Imm12) -> u32
    requires rd { IsIntRegister rd.reg }
    requires rs { IsIntRegister rs }
    ensures { (flags : IsaFlags) → decode flags result ≡ Some (decoded_rri op (number_of rd.reg) (number_of rs) imm12.value) }
{
    i_word(
        op.op_code(),
        reg_to_gpr_num(rd.reg),
        op.funct3(),
        reg_to_gpr_num(rs),
        op.imm12(imm12),
    )
}
