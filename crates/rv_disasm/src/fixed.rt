//! The bits that an operation's row fixes, with 0 in its fields: "RV32/64G Instruction Set Listings", and those of the extensions.

ghost use Rattle.std.specs.Prelude.{◌≡◌, ◌<◌, ◌^◌};
ghost use Rattle.rv_disasm.specs.Fixed.{base_fixed, load_fixed, store_fixed, int_fixed, mul_fixed, bit_fixed, alu_fixed, carry_fixed, atomic_fixed, csr_fixed, float_fixed, vector_memory_fixed, width_field, memory_field, format_field, fixed_of, half_fixed};

use crate::halfwords::HalfOp;
use rv_machine::{
    AluOp, AtomicOp, AtomicWidth, BaseOp, BitOp, CarryOp, CsrOp, FloatFormat, FloatOp, IntOp,
    LOAD_FP, LoadOp, MOp, MulOp, OP_V, STORE_FP, StoreOp, VecMemOp,
};

fn base_fixed(op: BaseOp) -> u64
    ensures value { result ≡ base_fixed op }
    ensures small { result < 2 ^ 32 }
{
    match op {
        BaseOp::Lui => 0x00000037,
        BaseOp::Auipc => 0x00000017,
        BaseOp::Jal => 0x0000006f,
        BaseOp::Jalr => 0x00000067,
        BaseOp::Beq => 0x00000063,
        BaseOp::Bne => 0x00001063,
        BaseOp::Blt => 0x00004063,
        BaseOp::Bge => 0x00005063,
        BaseOp::Bltu => 0x00006063,
        BaseOp::Bgeu => 0x00007063,
        BaseOp::Fence => 0x0000000f,
        BaseOp::Ebreak => 0x00100073,
    }
}

fn load_fixed(op: LoadOp) -> u64
    ensures value { result ≡ load_fixed op }
    ensures small { result < 2 ^ 32 }
{
    match op {
        LoadOp::Lb => 0x00000003,
        LoadOp::Lh => 0x00001003,
        LoadOp::Lw => 0x00002003,
        LoadOp::Lbu => 0x00004003,
        LoadOp::Lhu => 0x00005003,
        LoadOp::Lwu => 0x00006003,
        LoadOp::Ld => 0x00003003,
    }
}

fn store_fixed(op: StoreOp) -> u64
    ensures value { result ≡ store_fixed op }
    ensures small { result < 2 ^ 32 }
{
    match op {
        StoreOp::Sb => 0x00000023,
        StoreOp::Sh => 0x00001023,
        StoreOp::Sw => 0x00002023,
        StoreOp::Sd => 0x00003023,
    }
}

fn int_fixed(op: IntOp) -> u64
    ensures value { result ≡ int_fixed op }
    ensures small { result < 2 ^ 32 }
{
    match op {
        IntOp::Addi => 0x00000013,
        IntOp::Slti => 0x00002013,
        IntOp::Sltiu => 0x00003013,
        IntOp::Xori => 0x00004013,
        IntOp::Ori => 0x00006013,
        IntOp::Andi => 0x00007013,
        IntOp::Slli => 0x00001013,
        IntOp::Srli => 0x00005013,
        IntOp::Srai => 0x40005013,
        IntOp::Add => 0x00000033,
        IntOp::Sub => 0x40000033,
        IntOp::Sll => 0x00001033,
        IntOp::Slt => 0x00002033,
        IntOp::Sltu => 0x00003033,
        IntOp::Xor => 0x00004033,
        IntOp::Srl => 0x00005033,
        IntOp::Sra => 0x40005033,
        IntOp::Or => 0x00006033,
        IntOp::And => 0x00007033,
        IntOp::Addiw => 0x0000001b,
        IntOp::Slliw => 0x0000101b,
        IntOp::Srliw => 0x0000501b,
        IntOp::Sraiw => 0x4000501b,
        IntOp::Addw => 0x0000003b,
        IntOp::Subw => 0x4000003b,
        IntOp::Sllw => 0x0000103b,
        IntOp::Srlw => 0x0000503b,
        IntOp::Sraw => 0x4000503b,
        IntOp::CzeroEqz => 0x0e005033,
        IntOp::CzeroNez => 0x0e007033,
    }
}

fn mul_fixed(op: MulOp) -> u64
    ensures value { result ≡ mul_fixed op }
    ensures small { result < 2 ^ 32 }
{
    match op {
        MulOp::Mul => 0x02000033,
        MulOp::Mulh => 0x02001033,
        MulOp::Mulhsu => 0x02002033,
        MulOp::Mulhu => 0x02003033,
        MulOp::Div => 0x02004033,
        MulOp::Divu => 0x02005033,
        MulOp::Rem => 0x02006033,
        MulOp::Remu => 0x02007033,
        MulOp::Mulw => 0x0200003b,
        MulOp::Divw => 0x0200403b,
        MulOp::Divuw => 0x0200503b,
        MulOp::Remw => 0x0200603b,
        MulOp::Remuw => 0x0200703b,
    }
}

fn bit_fixed(op: BitOp) -> u64
    ensures value { result ≡ bit_fixed op }
    ensures small { result < 2 ^ 32 }
{
    match op {
        BitOp::AddUw => 0x0800003b,
        BitOp::Sh1add => 0x20002033,
        BitOp::Sh1addUw => 0x2000203b,
        BitOp::Sh2add => 0x20004033,
        BitOp::Sh2addUw => 0x2000403b,
        BitOp::Sh3add => 0x20006033,
        BitOp::Sh3addUw => 0x2000603b,
        BitOp::SlliUw => 0x0800101b,
        BitOp::Andn => 0x40007033,
        BitOp::Orn => 0x40006033,
        BitOp::Xnor => 0x40004033,
        BitOp::Clz => 0x60001013,
        BitOp::Clzw => 0x6000101b,
        BitOp::Ctz => 0x60101013,
        BitOp::Ctzw => 0x6010101b,
        BitOp::Cpop => 0x60201013,
        BitOp::Cpopw => 0x6020101b,
        BitOp::Max => 0x0a006033,
        BitOp::Maxu => 0x0a007033,
        BitOp::Min => 0x0a004033,
        BitOp::Minu => 0x0a005033,
        BitOp::SextB => 0x60401013,
        BitOp::SextH => 0x60501013,
        BitOp::ZextH => 0x0800403b,
        BitOp::Rol => 0x60001033,
        BitOp::Rolw => 0x6000103b,
        BitOp::Ror => 0x60005033,
        BitOp::Rori => 0x60005013,
        BitOp::Roriw => 0x6000501b,
        BitOp::Rorw => 0x6000503b,
        BitOp::OrcB => 0x28705013,
        BitOp::Rev8 => 0x6b805013,
        BitOp::Bclr => 0x48001033,
        BitOp::Bclri => 0x48001013,
        BitOp::Bext => 0x48005033,
        BitOp::Bexti => 0x48005013,
        BitOp::Binv => 0x68001033,
        BitOp::Binvi => 0x68001013,
        BitOp::Bset => 0x28001033,
        BitOp::Bseti => 0x28001013,
    }
}

fn alu_fixed(op: AluOp) -> u64
    ensures value { result ≡ alu_fixed op }
    ensures small { result < 2 ^ 32 }
{
    match op {
        AluOp::Int(op) => int_fixed(op),
        AluOp::Mul(op) => mul_fixed(op),
        AluOp::Bit(op) => bit_fixed(op),
    }
}

fn carry_fixed(op: CarryOp) -> u64
    ensures value { result ≡ carry_fixed op }
    ensures small { result < 2 ^ 32 }
{
    match op {
        CarryOp::Clmul => 0x0a001033,
        CarryOp::Clmulh => 0x0a003033,
        CarryOp::Clmulr => 0x0a002033,
        CarryOp::Pack => 0x08004033,
        CarryOp::Packh => 0x08007033,
        CarryOp::Packw => 0x0800403b,
        CarryOp::Brev8 => 0x68705013,
    }
}

fn atomic_fixed(op: AtomicOp) -> u64
    ensures value { result ≡ atomic_fixed op }
    ensures small { result < 2 ^ 32 }
{
    match op {
        AtomicOp::Lr => 0x1000002f,
        AtomicOp::Sc => 0x1800002f,
        AtomicOp::Amoswap => 0x0800002f,
        AtomicOp::Amoadd => 0x0000002f,
        AtomicOp::Amoxor => 0x2000002f,
        AtomicOp::Amoand => 0x6000002f,
        AtomicOp::Amoor => 0x4000002f,
        AtomicOp::Amomin => 0x8000002f,
        AtomicOp::Amomax => 0xa000002f,
        AtomicOp::Amominu => 0xc000002f,
        AtomicOp::Amomaxu => 0xe000002f,
    }
}

fn csr_fixed(op: CsrOp) -> u64
    ensures value { result ≡ csr_fixed op }
    ensures small { result < 2 ^ 32 }
{
    match op {
        CsrOp::Csrrw => 0x00201073,
        CsrOp::Csrrs => 0x00202073,
        CsrOp::Csrrc => 0x00203073,
        CsrOp::Csrrwi => 0x00205073,
        CsrOp::Csrrsi => 0x00206073,
        CsrOp::Csrrci => 0x00207073,
    }
}

fn float_fixed(op: FloatOp) -> u64
    ensures value { result ≡ float_fixed op }
    ensures small { result < 2 ^ 32 }
{
    match op {
        FloatOp::Fmadd => 0x00000043,
        FloatOp::Fmsub => 0x00000047,
        FloatOp::Fnmsub => 0x0000004b,
        FloatOp::Fnmadd => 0x0000004f,
        FloatOp::Fadd => 0x00000053,
        FloatOp::Fsub => 0x08000053,
        FloatOp::Fmul => 0x10000053,
        FloatOp::Fdiv => 0x18000053,
        FloatOp::Fsqrt => 0x58000053,
        FloatOp::Fsgnj => 0x20000053,
        FloatOp::Fsgnjn => 0x20001053,
        FloatOp::Fsgnjx => 0x20002053,
        FloatOp::Fmin => 0x28000053,
        FloatOp::Fmax => 0x28001053,
        FloatOp::FcvtToW => 0xc0000053,
        FloatOp::FcvtToWu => 0xc0100053,
        FloatOp::FcvtToL => 0xc0200053,
        FloatOp::FcvtToLu => 0xc0300053,
        FloatOp::FmvToX => 0xe0000053,
        FloatOp::Feq => 0xa0002053,
        FloatOp::Flt => 0xa0001053,
        FloatOp::Fle => 0xa0000053,
        FloatOp::Fclass => 0xe0001053,
        FloatOp::FcvtFromW => 0xd0000053,
        FloatOp::FcvtFromWu => 0xd0100053,
        FloatOp::FcvtFromL => 0xd0200053,
        FloatOp::FcvtFromLu => 0xd0300053,
        FloatOp::FmvFromX => 0xf0000053,
        FloatOp::FcvtFromH => 0x40200053,
        FloatOp::FcvtFromS => 0x40000053,
        FloatOp::FcvtFromD => 0x40100053,
        FloatOp::Fli => 0xf0100053,
        FloatOp::Fminm => 0x28002053,
        FloatOp::Fmaxm => 0x28003053,
        FloatOp::Fround => 0x40400053,
    }
}

fn vector_memory_fixed(op: VecMemOp) -> u64
    ensures value { result ≡ vector_memory_fixed op }
    ensures small { result < 2 ^ 32 }
{
    match op {
        VecMemOp::Vsetivli => 0xc0007057,
        VecMemOp::Vle8 => 0x00000007,
        VecMemOp::Vle16 => 0x00005007,
        VecMemOp::Vle32 => 0x00006007,
        VecMemOp::Vle64 => 0x00007007,
        VecMemOp::Vse8 => 0x00000027,
        VecMemOp::Vse16 => 0x00005027,
        VecMemOp::Vse32 => 0x00006027,
        VecMemOp::Vse64 => 0x00007027,
    }
}

// funct3 of an atomic operation.
fn width_field(op: AtomicWidth) -> u64
    ensures value { result ≡ width_field op }
    ensures small { result < 2 ^ 3 }
{
    match op {
        AtomicWidth::W => 2,
        AtomicWidth::D => 3,
    }
}

// funct3 of a load or a store of a floating-point register.
fn memory_field(op: FloatFormat) -> u64
    ensures value { result ≡ memory_field op }
    ensures small { result < 2 ^ 3 }
{
    match op {
        FloatFormat::H => 1,
        FloatFormat::S => 2,
        FloatFormat::D => 3,
    }
}

// The field fmt.
fn format_field(op: FloatFormat) -> u64
    ensures value { result ≡ format_field op }
    ensures small { result < 2 ^ 2 }
{
    match op {
        FloatFormat::H => 2,
        FloatFormat::S => 0,
        FloatFormat::D => 1,
    }
}

/// The bits that an operation's row fixes.
pub(crate) fn fixed_of(op: MOp) -> u64
    ensures value { result ≡ fixed_of op }
    ensures small { result < 2 ^ 33 }
{
    match op {
        MOp::Base(op) => base_fixed(op),
        MOp::Load(op) => load_fixed(op),
        MOp::Store(op) => store_fixed(op),
        MOp::Alu(op) => alu_fixed(op),
        MOp::Carry(op) => carry_fixed(op),
        MOp::Atomic(op, width) => atomic_fixed(op) + width_field(width) * 0x1000,
        MOp::Csr(op) => csr_fixed(op),
        MOp::FloatLoad(format) => u64::from(LOAD_FP) + memory_field(format) * 0x1000,
        MOp::FloatStore(format) => u64::from(STORE_FP) + memory_field(format) * 0x1000,
        MOp::Float(format, op) => float_fixed(op) + format_field(format) * 0x200_0000,
        MOp::VecMem(op) => vector_memory_fixed(op),
        MOp::Vec { .. } => u64::from(OP_V),
    }
}

/// The bits that the row of an instruction of 16 bits fixes.
pub(crate) fn half_fixed(op: HalfOp) -> u64
    ensures value { result ≡ half_fixed op }
    ensures small { result < 2 ^ 16 }
{
    match op {
        HalfOp::Addi4spn => 0x0000,
        HalfOp::Fld => 0x2000,
        HalfOp::Lw => 0x4000,
        HalfOp::Ld => 0x6000,
        HalfOp::Lbu => 0x8000,
        HalfOp::Lhu => 0x8400,
        HalfOp::Lh => 0x8440,
        HalfOp::Sb => 0x8800,
        HalfOp::Sh => 0x8c00,
        HalfOp::Fsd => 0xa000,
        HalfOp::Sw => 0xc000,
        HalfOp::Sd => 0xe000,
        HalfOp::Addi => 0x0001,
        HalfOp::Addiw => 0x2001,
        HalfOp::Li => 0x4001,
        HalfOp::Addi16sp => 0x6101,
        HalfOp::Lui => 0x6001,
        HalfOp::Srli => 0x8001,
        HalfOp::Srai => 0x8401,
        HalfOp::Andi => 0x8801,
        HalfOp::Sub => 0x8c01,
        HalfOp::Xor => 0x8c21,
        HalfOp::Or => 0x8c41,
        HalfOp::And => 0x8c61,
        HalfOp::Subw => 0x9c01,
        HalfOp::Addw => 0x9c21,
        HalfOp::Mul => 0x9c41,
        HalfOp::ZextB => 0x9c61,
        HalfOp::SextB => 0x9c65,
        HalfOp::ZextH => 0x9c69,
        HalfOp::SextH => 0x9c6d,
        HalfOp::ZextW => 0x9c71,
        HalfOp::Not => 0x9c75,
        HalfOp::J => 0xa001,
        HalfOp::Slli => 0x0002,
        HalfOp::Fldsp => 0x2002,
        HalfOp::Lwsp => 0x4002,
        HalfOp::Ldsp => 0x6002,
        HalfOp::Jr => 0x8002,
        HalfOp::Mv => 0x8002,
        HalfOp::Ebreak => 0x9002,
        HalfOp::Jalr => 0x9002,
        HalfOp::Add => 0x9002,
        HalfOp::Fsdsp => 0xa002,
        HalfOp::Swsp => 0xc002,
        HalfOp::Sdsp => 0xe002,
    }
}
