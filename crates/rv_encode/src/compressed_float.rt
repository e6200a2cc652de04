//! The halfwords of compressed loads and stores of doublewords of the floating-point registers: "RVC Instruction Set Listings".
//! They are the decoder's under `has_zca` and `has_zcd`; each immediate counts doublewords of 8 bytes.

ghost use Rattle.std.specs.Prelude.{◌≡◌, ◌-◌, ◌*◌, ◌%◌, ◌&&◌, nat_eq, true, false, Some, None};
ghost use Rattle.rv_base.specs.declared.flags.IsaFlags.{IsaFlags};
ghost use Rattle.rv_base.specs.Regs.{number_of};
ghost use Rattle.rv_machine.specs.Compressed.{ld_imm, ldsp_imm, sdsp_imm, decode_half};
ghost use Rattle.rv_ops.specs.declared.compressed.CFloatOp.TheVariants.{CFld, CFsd, CFldsp, CFsdsp};
ghost use Rattle.rv_ops.specs.Compressed.{space_bits, c_float_numbers};
ghost use Rattle.rv_encode.specs.Registers.{IsRealRegister, IsShortRegister};
ghost use Rattle.rv_encode.specs.Layouts.{IsCiType, IsClType, IsCssType};
ghost use Rattle.rv_encode.specs.Compressed.{decoded_fld, decoded_fsd, decoded_fldsp, decoded_fsdsp};

use crate::compressed::reg_to_compressed_gpr_num;
use crate::compressed_memory::{cld_half, ldsp_half, sdsp_half};
use crate::layouts::reg_to_gpr_num;
use rv_base::{Reg, WritableReg};
use rv_imms::{Uimm5, Uimm6};
use rv_ops::CFloatOp;

/// Layout CL: a load past a base from x8 to x15 into a register from f8 to f15.
///
/// ```text
/// 15    13 12      10 9    7 6        5 4    2 1  0
/// | funct3 | imm[5:3] | base | imm[7:6] | dest | op |    c.fld
/// ```
pub fn encode_c_fld(dest: WritableReg, base: Reg, imm: Uimm5) -> u16
    requires dest { IsShortRegister dest.reg }
    requires base { IsShortRegister base }
    ensures layout { IsClType ld_imm result (space_bits (c_float_numbers CFld).space) (number_of dest.reg - 8) (8 * imm.value) (number_of base - 8) (c_float_numbers CFld).funct3 }
    ensures decodes { (flags : IsaFlags) → flags.has_zca ≡ true → flags.has_zcd ≡ true → decode_half flags result ≡ Some (decoded_fld (number_of dest.reg) (number_of base) imm.value) }
    ensures without { (flags : IsaFlags) → (flags.has_zca && flags.has_zcd) ≡ false → decode_half flags result ≡ None }
    ensures narrow { nat_eq (result % 4) 3 ≡ false }
{
    let op = CFloatOp::CFld;
    cld_half(
        op.op().bits(),
        reg_to_compressed_gpr_num(dest.reg),
        u32::from(imm.bits()),
        reg_to_compressed_gpr_num(base),
        op.funct3(),
    )
}

/// Layout CS: a store of a register from f8 to f15 past a base from x8 to x15.
///
/// ```text
/// 15    13 12      10 9    7 6        5 4   2 1  0
/// | funct3 | imm[5:3] | base | imm[7:6] | src | op |    c.fsd
/// ```
pub fn encode_c_fsd(src: Reg, base: Reg, imm: Uimm5) -> u16
    requires src { IsShortRegister src }
    requires base { IsShortRegister base }
    ensures layout { IsClType ld_imm result (space_bits (c_float_numbers CFsd).space) (number_of src - 8) (8 * imm.value) (number_of base - 8) (c_float_numbers CFsd).funct3 }
    ensures decodes { (flags : IsaFlags) → flags.has_zca ≡ true → flags.has_zcd ≡ true → decode_half flags result ≡ Some (decoded_fsd (number_of src) (number_of base) imm.value) }
    ensures without { (flags : IsaFlags) → (flags.has_zca && flags.has_zcd) ≡ false → decode_half flags result ≡ None }
    ensures narrow { nat_eq (result % 4) 3 ≡ false }
{
    let op = CFloatOp::CFsd;
    cld_half(
        op.op().bits(),
        reg_to_compressed_gpr_num(src),
        u32::from(imm.bits()),
        reg_to_compressed_gpr_num(base),
        op.funct3(),
    )
}

/// Layout CI: a load past the stack pointer into a floating-point register.
///
/// ```text
/// 15    13 12    12 11  7 6            2 1  0
/// | funct3 | imm[5] | rd | imm[4:3|8:6] | op |    c.fldsp
/// ```
pub fn encode_c_fldsp(rd: WritableReg, imm: Uimm6) -> u16
    requires { IsRealRegister rd.reg }
    ensures layout { IsCiType ldsp_imm result (space_bits (c_float_numbers CFldsp).space) (8 * imm.value) (number_of rd.reg) (c_float_numbers CFldsp).funct3 }
    ensures decodes { (flags : IsaFlags) → flags.has_zca ≡ true → flags.has_zcd ≡ true → decode_half flags result ≡ Some (decoded_fldsp (number_of rd.reg) imm.value) }
    ensures without { (flags : IsaFlags) → (flags.has_zca && flags.has_zcd) ≡ false → decode_half flags result ≡ None }
    ensures narrow { nat_eq (result % 4) 3 ≡ false }
{
    let op = CFloatOp::CFldsp;
    ldsp_half(
        op.op().bits(),
        u32::from(imm.bits()),
        reg_to_gpr_num(rd.reg),
        op.funct3(),
    )
}

/// Layout CSS: a store of a floating-point register past the stack pointer.
///
/// ```text
/// 15    13 12            7 6   2 1  0
/// | funct3 | imm[5:3|8:6] | src | op |    c.fsdsp
/// ```
pub fn encode_c_fsdsp(src: Reg, imm: Uimm6) -> u16
    requires { IsRealRegister src }
    ensures layout { IsCssType sdsp_imm result (space_bits (c_float_numbers CFsdsp).space) (number_of src) (8 * imm.value) (c_float_numbers CFsdsp).funct3 }
    ensures decodes { (flags : IsaFlags) → flags.has_zca ≡ true → flags.has_zcd ≡ true → decode_half flags result ≡ Some (decoded_fsdsp (number_of src) imm.value) }
    ensures without { (flags : IsaFlags) → (flags.has_zca && flags.has_zcd) ≡ false → decode_half flags result ≡ None }
    ensures narrow { nat_eq (result % 4) 3 ≡ false }
{
    let op = CFloatOp::CFsdsp;
    sdsp_half(
        op.op().bits(),
        reg_to_gpr_num(src),
        u32::from(imm.bits()),
        op.funct3(),
    )
}
