//! The words of "2.6 Load and Store Instructions" of RV32I and "4.3 Load and Store Instructions" of RV64I, and of the chapters "F"
//! and "D", "Single-Precision" and "Double-Precision Load and Store Instructions", and "Zfhmin".

ghost use Rattle.std.specs.Prelude.{◌≡◌, Some, true};
ghost use Rattle.rv_base.specs.declared.flags.IsaFlags.{IsaFlags};
ghost use Rattle.rv_base.specs.Regs.{number_of};
ghost use Rattle.rv_machine.specs.Decode.{decode};
ghost use Rattle.rv_encode.specs.Registers.{IsRealRegister, IsIntRegister};
ghost use Rattle.rv_encode.specs.Operations.{decoded_load, decoded_store, has_load, has_store};

use crate::layouts::{encode_i_type, encode_s_type};
use rv_base::{Reg, WritableReg};
use rv_imms::Imm12;
use rv_ops::{LoadOP, StoreOP};

/// The word of a load from an offset in bytes past an integer register; which file it loads a register of the operation says. That of
/// a half needs Zfhmin.
pub fn encode_load(op: LoadOP, rd: WritableReg, base: Reg, offset: Imm12) -> u32
    requires rd { IsRealRegister rd.reg }
    requires base { IsIntRegister base }
    ensures { (flags : IsaFlags) → has_load flags op ≡ true → decode flags result ≡ Some (decoded_load op (number_of rd.reg) (number_of base) offset.value) }
{
    encode_i_type(op.op_code(), rd, op.funct3(), base, offset)
}

/// The word of a store to an offset in bytes past an integer register; which file it stores a register of the operation says. That of
/// a half needs Zfhmin.
pub fn encode_store(op: StoreOP, base: Reg, src: Reg, offset: Imm12) -> u32
    requires base { IsIntRegister base }
    requires src { IsRealRegister src }
    ensures { (flags : IsaFlags) → has_store flags op ≡ true → decode flags result ≡ Some (decoded_store op (number_of base) (number_of src) offset.value) }
{
    encode_s_type(op.op_code(), op.funct3(), base, src, offset)
}
