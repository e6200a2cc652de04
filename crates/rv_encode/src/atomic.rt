//! The words of atomic operations and of fences: the chapters "A", "Zalrsc" and "Zaamo", and "2.7 Memory Ordering Instructions".

ghost use Rattle.std.specs.Prelude.{◌≡◌, ◌+◌, ◌*◌, ◌<◌, ◌^◌, true, Some};
ghost use Rattle.rv_base.specs.declared.flags.IsaFlags.{IsaFlags};
ghost use Rattle.rv_base.specs.Regs.{number_of};
ghost use Rattle.rv_machine.specs.Decode.{decode};
ghost use Rattle.rv_machine.specs.Opcodes.{AMO as AMO_NUMBER, MISC_MEM as MISC_MEM_NUMBER};
ghost use Rattle.rv_machine.specs.UnitDecode.{is_source};
ghost use Rattle.rv_ops.specs.Atomic.{atomic_funct3, atomic_funct7, atomic_op};
ghost use Rattle.rv_encode.specs.Registers.{IsIntRegister};
ghost use Rattle.rv_encode.specs.Layouts.{IsIType, IsRType};
ghost use Rattle.rv_encode.specs.Operations.{decoded_atomic, decoded_fence};

use crate::layouts::{encode_r_type, i_word};
use rv_base::{Reg, WritableReg};
use rv_machine::MISC_MEM;
use rv_ops::{AMO, AtomicOP};

/// The word of an atomic operation on the memory at the address in a register. A load-reserved has no source: its `src` is x0.
///
/// ```text
/// 31     27 26  25  24 20 19  15 14    12 11  7 6      0
/// | funct5 | aq | rl | src | addr | funct3 |  rd | opcode |
/// ```
pub fn encode_atomic(op: AtomicOP, rd: WritableReg, addr: Reg, src: Reg, amo: AMO) -> u32
    requires rd { IsIntRegister rd.reg }
    requires addr { IsIntRegister addr }
    requires src { IsIntRegister src }
    requires source { is_source (atomic_op op) (number_of src) ≡ true }
    ensures layout { IsRType result AMO_NUMBER (number_of rd.reg) (atomic_funct3 op) (number_of addr) (number_of src) (atomic_funct7 op amo) }
    ensures decodes { (flags : IsaFlags) → decode flags result ≡ Some (decoded_atomic op amo (number_of rd.reg) (number_of addr) (number_of src)) }
{
    encode_r_type(op.op_code(), rd, op.funct3(), addr, src, op.funct7(amo))
}

/// The word of a fence: of the accesses before it those in `pred` are ordered before those in `succ` after it. Each set has the bits 8
/// for device input, 4 for device output, 2 for memory reads and 1 for memory writes.
///
/// ```text
/// 31 28 27  24 23  20 19  15 14    12 11  7 6      0
/// |  0 | pred | succ |    0 |      0 |   0 | opcode |
/// ```
pub fn encode_fence(pred: u8, succ: u8) -> u32
    requires pred { pred < 2 ^ 4 }
    requires succ { succ < 2 ^ 4 }
    ensures layout { IsIType result MISC_MEM_NUMBER 0 0 0 (16 * pred + succ) }
    ensures decodes { (flags : IsaFlags) → decode flags result ≡ Some (decoded_fence pred succ) }
{
    i_word(MISC_MEM, 0, 0, 0, u32::from(succ) | u32::from(pred) << 4)
}
