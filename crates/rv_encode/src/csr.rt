//! The words of operations on control and status registers: the chapter "Zicsr".

ghost use Rattle.std.specs.Prelude.{◌≡◌, Some};
ghost use Rattle.rv_base.specs.declared.flags.IsaFlags.{IsaFlags};
ghost use Rattle.rv_base.specs.Regs.{number_of};
ghost use Rattle.rv_machine.specs.Decode.{decode};
ghost use Rattle.rv_machine.specs.Opcodes.{SYSTEM};
ghost use Rattle.rv_ops.specs.Csr.{csr_reg_funct3, csr_imm_funct3, csr_number};
ghost use Rattle.rv_encode.specs.Registers.{IsIntRegister};
ghost use Rattle.rv_encode.specs.Layouts.{IsIType};
ghost use Rattle.rv_encode.specs.Operations.{decoded_csr_reg, decoded_csr_imm};

use crate::layouts::{encode_i_type, i_word, reg_to_gpr_num};
use rv_base::{Reg, WritableReg};
use rv_imms::UImm5;
use rv_ops::{CSR, CsrImmOP, CsrRegOP};

/// The word of an operation on a CSR that takes an integer register; rd gets the CSR's old value.
///
/// ```text
/// 31 20 19 15 14    12 11  7 6      0
/// | csr |  rs | funct3 |  rd | opcode |
/// ```
pub fn encode_csr_reg(op: CsrRegOP, rd: WritableReg, rs: Reg, csr: CSR) -> u32
    requires rd { IsIntRegister rd.reg }
    requires rs { IsIntRegister rs }
    ensures layout { IsIType result SYSTEM (number_of rd.reg) (csr_reg_funct3 op) (number_of rs) (csr_number csr) }
    ensures decodes { (flags : IsaFlags) → decode flags result ≡ Some (decoded_csr_reg op (number_of rd.reg) (number_of rs)) }
{
    encode_i_type(op.opcode(), rd, op.funct3(), rs, csr.bits())
}

/// The word of an operation on a CSR that takes an immediate, in the place of rs1.
///
/// ```text
/// 31 20 19 15 14    12 11  7 6      0
/// | csr | imm | funct3 |  rd | opcode |
/// ```
pub fn encode_csr_imm(op: CsrImmOP, rd: WritableReg, csr: CSR, imm: UImm5) -> u32
    requires { IsIntRegister rd.reg }
    ensures layout { IsIType result SYSTEM (number_of rd.reg) (csr_imm_funct3 op) imm.value (csr_number csr) }
    ensures decodes { (flags : IsaFlags) → decode flags result ≡ Some (decoded_csr_imm op (number_of rd.reg) imm.value) }
{
    i_word(
        op.opcode(),
        reg_to_gpr_num(rd.reg),
        op.funct3(),
        imm.bits(),
        csr.bits().bits(),
    )
}
