//! The sequence that probes the stack.

ghost use Rattle.std.specs.Prelude.{◌≡◌, [], ◌+◌, ◌*◌, ◌<◌, ◌^◌, length, OnOk, OnErr, true};
ghost use Rattle.rv_base.specs.LabelUse.{code_limit};
ghost use Rattle.rv_base.specs.Regs.{number_of};
ghost use Rattle.rv_base.specs.declared.condcodes.IntCC.TheVariants.{UnsignedGreaterThanOrEqual};
ghost use Rattle.rv_encode.specs.Registers.{IsIntRegister};
ghost use Rattle.rv_machine.specs.Arithmetic.{low_word};
ghost use Rattle.mach_buffer.specs.Buffer.{allocated_of, bytes_of, spoiled_of};
ghost use Rattle.rv_sequences.specs.Code.{code_most, pieces_of, AreSound, IsLabelled};
ghost use Rattle.rv_sequences.specs.Emitted.{IsSoundBuffer};
ghost use Rattle.rv_sequences.specs.Parts.{PutsAlone};
ghost use Rattle.rv_code.specs.Pieces.{slots_of};
ghost use Rattle.rv_code.specs.Probes.{probe_pieces};

use crate::code::{CodePiece, bind, branch, jump, number, put_code, rrr, store};
use mach_buffer::MachBuffer;
use rv_base::{
    IntCC, IsaFlags, OutOfMemory, Reg, WritableReg, spilltmp_reg, spilltmp_reg2, stack_reg,
    writable_spilltmp_reg, writable_spilltmp_reg2, zero_reg,
};
use rv_imms::Imm12;
use rv_inst::LabelUse;
use rv_ops::{AluOPRRR, IntegerCompare, StoreOP};

/// Stores a byte 0 at each guard below the stack pointer, from the farthest on up to the second: x31 is how far below it the next
/// one is, x30 its address, and `tmp` the guard's size.
pub fn put_probe_loop(
    sink: &mut MachBuffer<LabelUse>,
    flags: IsaFlags,
    guard_size: u32,
    probe_count: u32,
    tmp: WritableReg,
) -> Result<(), OutOfMemory>
    requires tmp { IsIntRegister tmp.reg }
    requires few { allocated_of sink.old < 2 ^ 29 }
    requires room { length (bytes_of sink.old) + 60 < code_limit }
    requires sound { IsSoundBuffer sink.old }
    ensures slots { OnOk result (PutsAlone flags (slots_of flags (probe_pieces (number_of tmp.reg) (low_word guard_size) (low_word probe_count))) sink.old sink.new) }
    ensures refused { OnErr result (spoiled_of sink.new ≡ true) }
{
    put_code(sink, flags, &probe_code(guard_size, probe_count, tmp))
}

/// Label 0 is where a turn begins, label 1 the end.
fn probe_code(guard_size: u32, probe_count: u32, tmp: WritableReg) -> [CodePiece; 11]
    requires tmp { IsIntRegister tmp.reg }
    ensures pieces { pieces_of result ≡ probe_pieces (number_of tmp.reg) (low_word guard_size) (low_word probe_count) }
    ensures registers { AreSound result }
    ensures labels { IsLabelled 0 [] result }
    ensures few { code_most result ≡ 60 }
{
    let left = writable_spilltmp_reg();
    let address = writable_spilltmp_reg2();
    [
        CodePiece::New,
        CodePiece::New,
        number(left, farthest_probe(guard_size, probe_count)),
        number(tmp, u64::from(guard_size)),
        bind(0),
        branch(is_near(tmp.reg), 1),
        rrr(AluOPRRR::Sub, address, stack_reg(), spilltmp_reg()),
        store(StoreOP::Sb, spilltmp_reg2(), zero_reg(), Imm12::ZERO),
        rrr(AluOPRRR::Sub, left, spilltmp_reg(), tmp.reg),
        jump(0),
        bind(1),
    ]
}

/// How far below the stack pointer the farthest probe is.
fn farthest_probe(guard_size: u32, probe_count: u32) -> u64
    ensures { result ≡ guard_size * probe_count }
{
    u64::from(guard_size) * u64::from(probe_count)
}

/// At most one guard is left.
fn is_near(tmp: Reg) -> IntegerCompare
    requires { IsIntRegister tmp }
    ensures kind { result.kind ≡ UnsignedGreaterThanOrEqual }
    ensures size { result.rs1 ≡ tmp }
    ensures left { number_of result.rs2 ≡ 31 }
    ensures rs2 { IsIntRegister result.rs2 }
{
    IntegerCompare {
        kind: IntCC::UnsignedGreaterThanOrEqual,
        rs1: tmp,
        rs2: spilltmp_reg(),
    }
}
