//! Which fields each operation's row leaves free.

ghost use Rattle.std.specs.Prelude.{◌≡◌};
ghost use Rattle.rv_disasm.specs.Layouts.{base_layout, int_layout, bit_layout, alu_layout, carry_layout, atomic_layout, csr_layout, float_layout, vector_memory_layout, layout_of};

use crate::layouts::Layout;
use rv_machine::{AluOp, AtomicOp, BaseOp, BitOp, CarryOp, CsrOp, FloatOp, IntOp, MOp, VecMemOp};

fn base_layout(op: BaseOp) -> Layout
    ensures { result ≡ base_layout op }
{
    match op {
        BaseOp::Lui | BaseOp::Auipc | BaseOp::Jal => Layout::Upper,
        BaseOp::Jalr => Layout::Immediate,
        BaseOp::Beq | BaseOp::Bne | BaseOp::Blt | BaseOp::Bge | BaseOp::Bltu | BaseOp::Bgeu =>
            Layout::Stored,
        BaseOp::Fence => Layout::Sets,
        BaseOp::Ebreak => Layout::None,
    }
}

fn int_layout(op: IntOp) -> Layout
    ensures { result ≡ int_layout op }
{
    match op {
        IntOp::Addi
        | IntOp::Slti
        | IntOp::Sltiu
        | IntOp::Xori
        | IntOp::Ori
        | IntOp::Andi
        | IntOp::Slli
        | IntOp::Srli
        | IntOp::Srai
        | IntOp::Addiw
        | IntOp::Slliw
        | IntOp::Srliw
        | IntOp::Sraiw => Layout::Immediate,
        IntOp::Add
        | IntOp::Sub
        | IntOp::Sll
        | IntOp::Slt
        | IntOp::Sltu
        | IntOp::Xor
        | IntOp::Srl
        | IntOp::Sra
        | IntOp::Or
        | IntOp::And
        | IntOp::Addw
        | IntOp::Subw
        | IntOp::Sllw
        | IntOp::Srlw
        | IntOp::Sraw
        | IntOp::CzeroEqz
        | IntOp::CzeroNez => Layout::Registers,
    }
}

fn bit_layout(op: BitOp) -> Layout
    ensures { result ≡ bit_layout op }
{
    match op {
        BitOp::AddUw
        | BitOp::Sh1add
        | BitOp::Sh1addUw
        | BitOp::Sh2add
        | BitOp::Sh2addUw
        | BitOp::Sh3add
        | BitOp::Sh3addUw
        | BitOp::Andn
        | BitOp::Orn
        | BitOp::Xnor
        | BitOp::Max
        | BitOp::Maxu
        | BitOp::Min
        | BitOp::Minu
        | BitOp::Rol
        | BitOp::Rolw
        | BitOp::Ror
        | BitOp::Rorw
        | BitOp::Bclr
        | BitOp::Bext
        | BitOp::Binv
        | BitOp::Bset => Layout::Registers,
        BitOp::SlliUw
        | BitOp::Rori
        | BitOp::Roriw
        | BitOp::Bclri
        | BitOp::Bexti
        | BitOp::Binvi
        | BitOp::Bseti => Layout::Immediate,
        BitOp::Clz
        | BitOp::Clzw
        | BitOp::Ctz
        | BitOp::Ctzw
        | BitOp::Cpop
        | BitOp::Cpopw
        | BitOp::SextB
        | BitOp::SextH
        | BitOp::ZextH
        | BitOp::OrcB
        | BitOp::Rev8 => Layout::Source,
    }
}

fn alu_layout(op: AluOp) -> Layout
    ensures { result ≡ alu_layout op }
{
    match op {
        AluOp::Int(op) => int_layout(op),
        AluOp::Mul(_) => Layout::Registers,
        AluOp::Bit(op) => bit_layout(op),
    }
}

fn carry_layout(op: CarryOp) -> Layout
    ensures { result ≡ carry_layout op }
{
    match op {
        CarryOp::Clmul
        | CarryOp::Clmulh
        | CarryOp::Clmulr
        | CarryOp::Pack
        | CarryOp::Packh
        | CarryOp::Packw => Layout::Registers,
        CarryOp::Brev8 => Layout::Source,
    }
}

fn atomic_layout(op: AtomicOp) -> Layout
    ensures { result ≡ atomic_layout op }
{
    match op {
        AtomicOp::Lr => Layout::Reserved,
        AtomicOp::Sc
        | AtomicOp::Amoswap
        | AtomicOp::Amoadd
        | AtomicOp::Amoxor
        | AtomicOp::Amoand
        | AtomicOp::Amoor
        | AtomicOp::Amomin
        | AtomicOp::Amomax
        | AtomicOp::Amominu
        | AtomicOp::Amomaxu => Layout::Atomic,
    }
}

fn csr_layout(op: CsrOp) -> Layout
    ensures { result ≡ csr_layout op }
{
    match op {
        CsrOp::Csrrw | CsrOp::Csrrs | CsrOp::Csrrc => Layout::Source,
        CsrOp::Csrrwi | CsrOp::Csrrsi | CsrOp::Csrrci => Layout::CsrNumber,
    }
}

fn float_layout(op: FloatOp) -> Layout
    ensures { result ≡ float_layout op }
{
    match op {
        FloatOp::Fmadd | FloatOp::Fmsub | FloatOp::Fnmsub | FloatOp::Fnmadd => Layout::Fused,
        FloatOp::Fadd | FloatOp::Fsub | FloatOp::Fmul | FloatOp::Fdiv => Layout::Rounded,
        FloatOp::Fsqrt
        | FloatOp::FcvtFromH
        | FloatOp::FcvtFromS
        | FloatOp::FcvtFromD
        | FloatOp::Fround => Layout::RoundedSource,
        FloatOp::Fsgnj
        | FloatOp::Fsgnjn
        | FloatOp::Fsgnjx
        | FloatOp::Fmin
        | FloatOp::Fmax
        | FloatOp::Fminm
        | FloatOp::Fmaxm => Layout::Floats,
        FloatOp::FcvtToW | FloatOp::FcvtToWu | FloatOp::FcvtToL | FloatOp::FcvtToLu =>
            Layout::ToInteger,
        FloatOp::FmvToX | FloatOp::Fclass => Layout::BitsOfFloat,
        FloatOp::Feq | FloatOp::Flt | FloatOp::Fle => Layout::Compared,
        FloatOp::FcvtFromW | FloatOp::FcvtFromWu | FloatOp::FcvtFromL | FloatOp::FcvtFromLu =>
            Layout::FromInteger,
        FloatOp::FmvFromX => Layout::FloatOfBits,
        FloatOp::Fli => Layout::Constant,
    }
}

fn vector_memory_layout(op: VecMemOp) -> Layout
    ensures { result ≡ vector_memory_layout op }
{
    match op {
        VecMemOp::Vsetivli => Layout::Length,
        VecMemOp::Vle8
        | VecMemOp::Vle16
        | VecMemOp::Vle32
        | VecMemOp::Vle64
        | VecMemOp::Vse8
        | VecMemOp::Vse16
        | VecMemOp::Vse32
        | VecMemOp::Vse64 => Layout::VectorMemory,
    }
}

/// The fields that an operation's row leaves free.
pub fn layout_of(op: MOp) -> Layout
    ensures { result ≡ layout_of op }
{
    match op {
        MOp::Base(op) => base_layout(op),
        MOp::Load(_) => Layout::Immediate,
        MOp::Store(_) => Layout::Stored,
        MOp::Alu(op) => alu_layout(op),
        MOp::Carry(op) => carry_layout(op),
        MOp::Atomic(op, _) => atomic_layout(op),
        MOp::Csr(op) => csr_layout(op),
        MOp::FloatLoad(_) => Layout::FloatLoad,
        MOp::FloatStore(_) => Layout::FloatStore,
        MOp::Float(_, op) => float_layout(op),
        MOp::VecMem(op) => vector_memory_layout(op),
        MOp::Vec { .. } => Layout::Vector,
    }
}
