//! Words put together from the fields of the manual's types: "2.2 Base Instruction Formats".

ghost use Rattle.std.specs.Prelude.{◌≡◌, ℕ, ◌<◌, ◌*◌, ◌/◌, ◌^◌, pos, Some, true};
ghost use Rattle.rv_base.specs.declared.flags.IsaFlags.{IsaFlags};
ghost use Rattle.rv_base.specs.Regs.{number_of};
ghost use Rattle.rv_machine.specs.declared.ops.MOp.{MOp};
ghost use Rattle.rv_machine.specs.Decode.{decode};
ghost use Rattle.rv_imms.specs.Bits.{low_bits};
ghost use Rattle.rv_encode.specs.Registers.{IsRealRegister};
ghost use Rattle.rv_imms.specs.declared.imm12.Imm12.{Imm12};
ghost use Rattle.rv_ops.specs.declared.alu.AluOPRRI.{AluOPRRI};
ghost use Rattle.rv_ops.specs.declared.csr.CSR.{CSR};
ghost use Rattle.rv_ops.specs.declared.csr.CsrImmOP.{CsrImmOP};
ghost use Rattle.rv_ops.specs.declared.csr.CsrRegOP.{CsrRegOP};
ghost use Rattle.rv_ops.specs.declared.float_fields.FRM.{FRM};
ghost use Rattle.rv_ops.specs.declared.float_fields.FpuOPWidth.{FpuOPWidth};
ghost use Rattle.rv_ops.specs.declared.fpu.FpuOPRRR.{FpuOPRRR};
ghost use Rattle.rv_ops.specs.declared.fpu.FpuOPRRRR.{FpuOPRRRR};
ghost use Rattle.rv_ops.specs.declared.fpu_rr.FpuOPRR.{FpuOPRR};
ghost use Rattle.rv_ops.specs.declared.memory.LoadOP.{LoadOP};
ghost use Rattle.rv_ops.specs.declared.memory.StoreOP.{StoreOP};
ghost use Rattle.rv_ops.specs.Memory.{load_opcode, load_funct3, store_opcode, store_funct3};
ghost use Rattle.rv_encode.specs.Operations.{decoded, r_op, i_op, s_op, IsRowOfRRI, decoded_rri, has_load, has_store, decoded_load, decoded_store};
ghost use Rattle.rv_encode.specs.Operations.{IsRowOfFpuRRR, IsRowOfFpuRR, IsRowOfFpuRRRR, IsRowOfFli, IsRowOfCsrReg, IsRowOfCsrImm};
ghost use Rattle.rv_encode.specs.Operations.{decoded_fpu_rrr, decoded_fpu_rr, decoded_fpu_rrrr, decoded_fli, decoded_csr_reg, decoded_csr_imm};
ghost use Rattle.rv_encode.specs.Layouts.{IsRType, IsIType, IsSType, IsBType, IsUType, IsJType};

use rv_base::{Reg, WritableReg};
use rv_imms::Imm12;

/// The number of a register, as instructions hold it; 0 for a virtual one, which none holds.
pub fn number_of(reg: Reg) -> u8
    ensures { result ≡ number_of reg }
{
    match reg {
        Reg::Real(real) => real.number,
        Reg::Virtual { .. } => 0,
    }
}

/// The number of a real register, as words hold it.
pub fn reg_to_gpr_num(m: Reg) -> u32
    requires { IsRealRegister m }
    ensures value { result ≡ number_of m }
    ensures width { result < 2 ^ 5 }
{
    u32::from(number_of(m))
}

/// Layout R, of real registers; opcode and functs within their widths.
///
/// ```text
/// 31    25 24  20 19  15 14  12 11  7 6      0
/// | funct7 | rs2 | rs1 | funct3 | rd | opcode |
/// ```
pub fn encode_r_type(
    opcode: u32,
    rd: WritableReg,
    funct3: u32,
    rs1: Reg,
    rs2: Reg,
    funct7: u32,
) -> u32
    requires opcode { opcode < 2 ^ 7 }
    requires rd { IsRealRegister rd.reg }
    requires funct3 { funct3 < 2 ^ 3 }
    requires rs1 { IsRealRegister rs1 }
    requires rs2 { IsRealRegister rs2 }
    requires funct7 { funct7 < 2 ^ 7 }
    ensures layout { IsRType result opcode (number_of rd.reg) funct3 (number_of rs1) (number_of rs2) funct7 }
    ensures decodes { (flags : IsaFlags) (op : MOp) → r_op opcode funct3 (number_of rs2) funct7 ≡ Some op → decode flags result ≡ Some (decoded op (number_of rd.reg) (number_of rs1) (number_of rs2) (pos 0)) }
    ensures floats { (flags : IsaFlags) (op : FpuOPRRR) (width : FpuOPWidth) (frm : FRM) → IsRowOfFpuRRR op width frm opcode funct3 funct7 → decode flags result ≡ Some (decoded_fpu_rrr op width frm (number_of rd.reg) (number_of rs1) (number_of rs2)) }
    ensures floats_of_one { (flags : IsaFlags) (op : FpuOPRR) (width : FpuOPWidth) (frm : FRM) → IsRowOfFpuRR op width frm opcode funct3 (number_of rs2) funct7 → decode flags result ≡ Some (decoded_fpu_rr op width frm (number_of rd.reg) (number_of rs1)) }
    ensures fused { (flags : IsaFlags) (op : FpuOPRRRR) (width : FpuOPWidth) (frm : FRM) (rs3 : ℕ) → IsRowOfFpuRRRR op width frm rs3 opcode funct3 funct7 → decode flags result ≡ Some (decoded_fpu_rrrr op width frm (number_of rd.reg) (number_of rs1) (number_of rs2) rs3) }
    ensures constants { (flags : IsaFlags) (width : FpuOPWidth) → IsRowOfFli width opcode funct3 (number_of rs2) funct7 → decode flags result ≡ Some (decoded_fli width (number_of rd.reg) (number_of rs1)) }
    ensures alike { (flags : IsaFlags) (word : ℕ) → word < 2 ^ 32 → IsRType word opcode (number_of rd.reg) funct3 (number_of rs1) (number_of rs2) funct7 → decode flags result ≡ decode flags word }
{
    r_word(
        opcode,
        reg_to_gpr_num(rd.reg),
        funct3,
        reg_to_gpr_num(rs1),
        reg_to_gpr_num(rs2),
        funct7,
    )
}

/// Layout I, of real registers; opcode and width, which is the manual's funct3, within their widths.
///
/// ```text
/// 31          20 19  15 14 12 11  7 6      0
/// | offset[11:0] | rs1 | width | rd | opcode |
/// ```
pub fn encode_i_type(opcode: u32, rd: WritableReg, width: u32, rs1: Reg, offset: Imm12) -> u32
    requires opcode { opcode < 2 ^ 7 }
    requires rd { IsRealRegister rd.reg }
    requires width { width < 2 ^ 3 }
    requires rs1 { IsRealRegister rs1 }
    ensures layout { IsIType result opcode (number_of rd.reg) width (number_of rs1) (low_bits (2 ^ 12) offset.value) }
    ensures decodes { (flags : IsaFlags) (op : MOp) → i_op opcode width ≡ Some op → decode flags result ≡ Some (decoded op (number_of rd.reg) (number_of rs1) 0 offset.value) }
    ensures rows { (flags : IsaFlags) (op : AluOPRRI) (imm : Imm12) → IsRowOfRRI op imm opcode width (low_bits (2 ^ 12) offset.value) → decode flags result ≡ Some (decoded_rri op (number_of rd.reg) (number_of rs1) imm.value) }
    ensures loads { (flags : IsaFlags) (op : LoadOP) → has_load flags op ≡ true → opcode ≡ load_opcode op → width ≡ load_funct3 op → decode flags result ≡ Some (decoded_load op (number_of rd.reg) (number_of rs1) offset.value) }
    ensures csr_registers { (flags : IsaFlags) (op : CsrRegOP) (csr : CSR) → IsRowOfCsrReg op csr opcode width (low_bits (2 ^ 12) offset.value) → decode flags result ≡ Some (decoded_csr_reg op (number_of rd.reg) (number_of rs1)) }
    ensures csr_immediates { (flags : IsaFlags) (op : CsrImmOP) (csr : CSR) → IsRowOfCsrImm op csr opcode width (low_bits (2 ^ 12) offset.value) → decode flags result ≡ Some (decoded_csr_imm op (number_of rd.reg) (number_of rs1)) }
    ensures alike { (flags : IsaFlags) (word : ℕ) → word < 2 ^ 32 → IsIType word opcode (number_of rd.reg) width (number_of rs1) (low_bits (2 ^ 12) offset.value) → decode flags result ≡ decode flags word }
{
    i_word(
        opcode,
        reg_to_gpr_num(rd.reg),
        width,
        reg_to_gpr_num(rs1),
        offset.bits(),
    )
}

/// Layout S, of real registers; opcode and width, which is the manual's funct3, within their widths.
///
/// ```text
/// 31          25 24  20 19   15 14 12 11         7 6      0
/// | offset[11:5] | src | base | width | offset[4:0] | opcode |
/// ```
pub fn encode_s_type(opcode: u32, width: u32, base: Reg, src: Reg, offset: Imm12) -> u32
    requires opcode { opcode < 2 ^ 7 }
    requires width { width < 2 ^ 3 }
    requires base { IsRealRegister base }
    requires src { IsRealRegister src }
    ensures layout { IsSType result opcode width (number_of base) (number_of src) (low_bits (2 ^ 12) offset.value) }
    ensures decodes { (flags : IsaFlags) (op : MOp) → s_op opcode width ≡ Some op → decode flags result ≡ Some (decoded op 0 (number_of base) (number_of src) offset.value) }
    ensures stores { (flags : IsaFlags) (op : StoreOP) → has_store flags op ≡ true → opcode ≡ store_opcode op → width ≡ store_funct3 op → decode flags result ≡ Some (decoded_store op (number_of base) (number_of src) offset.value) }
    ensures alike { (flags : IsaFlags) (word : ℕ) → word < 2 ^ 32 → IsSType word opcode width (number_of base) (number_of src) (low_bits (2 ^ 12) offset.value) → decode flags result ≡ decode flags word }
{
    s_word(
        opcode,
        width,
        reg_to_gpr_num(base),
        reg_to_gpr_num(src),
        offset.bits(),
    )
}

/// Layout R, of the numbers of its fields.
pub(crate) fn r_word(opcode: u32, rd: u32, funct3: u32, rs1: u32, rs2: u32, funct7: u32) -> u32
    requires opcode { opcode < 2 ^ 7 }
    requires rd { rd < 2 ^ 5 }
    requires funct3 { funct3 < 2 ^ 3 }
    requires rs1 { rs1 < 2 ^ 5 }
    requires rs2 { rs2 < 2 ^ 5 }
    requires funct7 { funct7 < 2 ^ 7 }
    ensures { IsRType result opcode rd funct3 rs1 rs2 funct7 }
{
    opcode | rd << 7 | funct3 << 12 | rs1 << 15 | rs2 << 20 | funct7 << 25
}

/// Layout I, of the twelve bits of its immediate.
pub(crate) fn i_word(opcode: u32, rd: u32, funct3: u32, rs1: u32, bits: u32) -> u32
    requires opcode { opcode < 2 ^ 7 }
    requires rd { rd < 2 ^ 5 }
    requires funct3 { funct3 < 2 ^ 3 }
    requires rs1 { rs1 < 2 ^ 5 }
    requires bits { bits < 2 ^ 12 }
    ensures { IsIType result opcode rd funct3 rs1 bits }
{
    opcode | rd << 7 | funct3 << 12 | rs1 << 15 | bits << 20
}

fn s_word(opcode: u32, funct3: u32, rs1: u32, rs2: u32, bits: u32) -> u32
    requires opcode { opcode < 2 ^ 7 }
    requires funct3 { funct3 < 2 ^ 3 }
    requires rs1 { rs1 < 2 ^ 5 }
    requires rs2 { rs2 < 2 ^ 5 }
    requires bits { bits < 2 ^ 12 }
    ensures { IsSType result opcode funct3 rs1 rs2 bits }
{
    opcode | (bits & 0x1f) << 7 | funct3 << 12 | rs1 << 15 | rs2 << 20 | (bits >> 5) << 25
}

/// Layout B, of the thirteen bits of an even distance.
///
/// ```text
/// 31        30        25 24  20 19  15 14  12 11        8 7        6      0
/// | imm[12] | imm[10:5] | rs2 | rs1 | funct3 | imm[4:1] | imm[11] | opcode |
/// ```
pub(crate) fn b_word(opcode: u32, funct3: u32, rs1: u32, rs2: u32, bits: u32) -> u32
    requires opcode { opcode < 2 ^ 7 }
    requires funct3 { funct3 < 2 ^ 3 }
    requires rs1 { rs1 < 2 ^ 5 }
    requires rs2 { rs2 < 2 ^ 5 }
    requires bits { bits < 2 ^ 13 }
    ensures { IsBType result opcode funct3 rs1 rs2 (bits / 2 * 2) }
{
    opcode
        | (bits >> 11 & 1) << 7
        | (bits >> 1 & 0xf) << 8
        | funct3 << 12
        | rs1 << 15
        | rs2 << 20
        | (bits >> 5 & 0x3f) << 25
        | (bits >> 12) << 31
}

/// Layout U, of the twenty bits of its immediate.
///
/// ```text
/// 31       12 11  7 6      0
/// | imm[19:0] | rd | opcode |
/// ```
pub(crate) fn u_word(opcode: u32, rd: u32, bits: u32) -> u32
    requires opcode { opcode < 2 ^ 7 }
    requires rd { rd < 2 ^ 5 }
    requires bits { bits < 2 ^ 20 }
    ensures { IsUType result opcode rd bits }
{
    opcode | rd << 7 | bits << 12
}

/// Layout J, of the twenty-one bits of an even distance.
///
/// ```text
/// 31        30        21 20        19         12 11  7 6      0
/// | imm[20] | imm[10:1] | imm[11] | imm[19:12] | rd | opcode |
/// ```
pub(crate) fn j_word(opcode: u32, rd: u32, bits: u32) -> u32
    requires opcode { opcode < 2 ^ 7 }
    requires rd { rd < 2 ^ 5 }
    requires bits { bits < 2 ^ 21 }
    ensures { IsJType result opcode rd (bits / 2 * 2) }
{
    opcode
        | rd << 7
        | (bits >> 12 & 0xff) << 12
        | (bits >> 11 & 1) << 20
        | (bits >> 1 & 0x3ff) << 21
        | (bits >> 20) << 31
}
