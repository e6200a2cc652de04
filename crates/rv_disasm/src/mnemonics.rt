//! The mnemonics of the manual's instructions of 32 bits, in its order.

ghost use Rattle.std.specs.Prelude.{◌≡◌};
ghost use Rattle.rv_machine.specs.declared.ops.AtomicWidth.TheVariants as width;
ghost use Rattle.rv_machine.specs.declared.ops.FloatFormat.TheVariants as format;
ghost use Rattle.rv_disasm.specs.Mnemonics.{base_name, load_name, store_name, int_name, mul_name, bit_name, alu_name, carry_name, atomic_name, csr_name, float_load_name, float_store_name, float_name, vector_memory_name, mnemonic};

use rv_machine::{
    AluOp, AtomicOp, AtomicWidth, BaseOp, BitOp, CarryOp, CsrOp, FloatFormat, FloatOp, IntOp,
    LoadOp, MOp, MulOp, StoreOp, VecMemOp,
};

pub(crate) fn base_name(op: BaseOp) -> &'static str
    ensures { result.now ≡ base_name op }
{
    match op {
        BaseOp::Lui => "lui",
        BaseOp::Auipc => "auipc",
        BaseOp::Jal => "jal",
        BaseOp::Jalr => "jalr",
        BaseOp::Beq => "beq",
        BaseOp::Bne => "bne",
        BaseOp::Blt => "blt",
        BaseOp::Bge => "bge",
        BaseOp::Bltu => "bltu",
        BaseOp::Bgeu => "bgeu",
        BaseOp::Fence => "fence",
        BaseOp::Ebreak => "ebreak",
    }
}

pub(crate) fn load_name(op: LoadOp) -> &'static str
    ensures { result.now ≡ load_name op }
{
    match op {
        LoadOp::Lb => "lb",
        LoadOp::Lh => "lh",
        LoadOp::Lw => "lw",
        LoadOp::Lbu => "lbu",
        LoadOp::Lhu => "lhu",
        LoadOp::Lwu => "lwu",
        LoadOp::Ld => "ld",
    }
}

pub(crate) fn store_name(op: StoreOp) -> &'static str
    ensures { result.now ≡ store_name op }
{
    match op {
        StoreOp::Sb => "sb",
        StoreOp::Sh => "sh",
        StoreOp::Sw => "sw",
        StoreOp::Sd => "sd",
    }
}

pub(crate) fn int_name(op: IntOp) -> &'static str
    ensures { result.now ≡ int_name op }
{
    match op {
        IntOp::Addi => "addi",
        IntOp::Slti => "slti",
        IntOp::Sltiu => "sltiu",
        IntOp::Xori => "xori",
        IntOp::Ori => "ori",
        IntOp::Andi => "andi",
        IntOp::Slli => "slli",
        IntOp::Srli => "srli",
        IntOp::Srai => "srai",
        IntOp::Add => "add",
        IntOp::Sub => "sub",
        IntOp::Sll => "sll",
        IntOp::Slt => "slt",
        IntOp::Sltu => "sltu",
        IntOp::Xor => "xor",
        IntOp::Srl => "srl",
        IntOp::Sra => "sra",
        IntOp::Or => "or",
        IntOp::And => "and",
        IntOp::Addiw => "addiw",
        IntOp::Slliw => "slliw",
        IntOp::Srliw => "srliw",
        IntOp::Sraiw => "sraiw",
        IntOp::Addw => "addw",
        IntOp::Subw => "subw",
        IntOp::Sllw => "sllw",
        IntOp::Srlw => "srlw",
        IntOp::Sraw => "sraw",
        IntOp::CzeroEqz => "czero.eqz",
        IntOp::CzeroNez => "czero.nez",
    }
}

pub(crate) fn mul_name(op: MulOp) -> &'static str
    ensures { result.now ≡ mul_name op }
{
    match op {
        MulOp::Mul => "mul",
        MulOp::Mulh => "mulh",
        MulOp::Mulhsu => "mulhsu",
        MulOp::Mulhu => "mulhu",
        MulOp::Div => "div",
        MulOp::Divu => "divu",
        MulOp::Rem => "rem",
        MulOp::Remu => "remu",
        MulOp::Mulw => "mulw",
        MulOp::Divw => "divw",
        MulOp::Divuw => "divuw",
        MulOp::Remw => "remw",
        MulOp::Remuw => "remuw",
    }
}

pub(crate) fn bit_name(op: BitOp) -> &'static str
    ensures { result.now ≡ bit_name op }
{
    match op {
        BitOp::AddUw => "add.uw",
        BitOp::Sh1add => "sh1add",
        BitOp::Sh1addUw => "sh1add.uw",
        BitOp::Sh2add => "sh2add",
        BitOp::Sh2addUw => "sh2add.uw",
        BitOp::Sh3add => "sh3add",
        BitOp::Sh3addUw => "sh3add.uw",
        BitOp::SlliUw => "slli.uw",
        BitOp::Andn => "andn",
        BitOp::Orn => "orn",
        BitOp::Xnor => "xnor",
        BitOp::Clz => "clz",
        BitOp::Clzw => "clzw",
        BitOp::Ctz => "ctz",
        BitOp::Ctzw => "ctzw",
        BitOp::Cpop => "cpop",
        BitOp::Cpopw => "cpopw",
        BitOp::Max => "max",
        BitOp::Maxu => "maxu",
        BitOp::Min => "min",
        BitOp::Minu => "minu",
        BitOp::SextB => "sext.b",
        BitOp::SextH => "sext.h",
        BitOp::ZextH => "zext.h",
        BitOp::Rol => "rol",
        BitOp::Rolw => "rolw",
        BitOp::Ror => "ror",
        BitOp::Rori => "rori",
        BitOp::Roriw => "roriw",
        BitOp::Rorw => "rorw",
        BitOp::OrcB => "orc.b",
        BitOp::Rev8 => "rev8",
        BitOp::Bclr => "bclr",
        BitOp::Bclri => "bclri",
        BitOp::Bext => "bext",
        BitOp::Bexti => "bexti",
        BitOp::Binv => "binv",
        BitOp::Binvi => "binvi",
        BitOp::Bset => "bset",
        BitOp::Bseti => "bseti",
    }
}

fn alu_name(op: AluOp) -> &'static str
    ensures { result.now ≡ alu_name op }
{
    match op {
        AluOp::Int(op) => int_name(op),
        AluOp::Mul(op) => mul_name(op),
        AluOp::Bit(op) => bit_name(op),
    }
}

pub(crate) fn carry_name(op: CarryOp) -> &'static str
    ensures { result.now ≡ carry_name op }
{
    match op {
        CarryOp::Clmul => "clmul",
        CarryOp::Clmulh => "clmulh",
        CarryOp::Clmulr => "clmulr",
        CarryOp::Pack => "pack",
        CarryOp::Packh => "packh",
        CarryOp::Packw => "packw",
        CarryOp::Brev8 => "brev8",
    }
}

pub(crate) fn atomic_word_name(op: AtomicOp) -> &'static str
    ensures { result.now ≡ atomic_name op width.W }
{
    match op {
        AtomicOp::Lr => "lr.w",
        AtomicOp::Sc => "sc.w",
        AtomicOp::Amoswap => "amoswap.w",
        AtomicOp::Amoadd => "amoadd.w",
        AtomicOp::Amoxor => "amoxor.w",
        AtomicOp::Amoand => "amoand.w",
        AtomicOp::Amoor => "amoor.w",
        AtomicOp::Amomin => "amomin.w",
        AtomicOp::Amomax => "amomax.w",
        AtomicOp::Amominu => "amominu.w",
        AtomicOp::Amomaxu => "amomaxu.w",
    }
}

pub(crate) fn atomic_doubleword_name(op: AtomicOp) -> &'static str
    ensures { result.now ≡ atomic_name op width.D }
{
    match op {
        AtomicOp::Lr => "lr.d",
        AtomicOp::Sc => "sc.d",
        AtomicOp::Amoswap => "amoswap.d",
        AtomicOp::Amoadd => "amoadd.d",
        AtomicOp::Amoxor => "amoxor.d",
        AtomicOp::Amoand => "amoand.d",
        AtomicOp::Amoor => "amoor.d",
        AtomicOp::Amomin => "amomin.d",
        AtomicOp::Amomax => "amomax.d",
        AtomicOp::Amominu => "amominu.d",
        AtomicOp::Amomaxu => "amomaxu.d",
    }
}

pub(crate) fn atomic_name(op: AtomicOp, width: AtomicWidth) -> &'static str
    ensures { result.now ≡ atomic_name op width }
{
    match width {
        AtomicWidth::W => atomic_word_name(op),
        AtomicWidth::D => atomic_doubleword_name(op),
    }
}

pub(crate) fn csr_name(op: CsrOp) -> &'static str
    ensures { result.now ≡ csr_name op }
{
    match op {
        CsrOp::Csrrw => "csrrw",
        CsrOp::Csrrs => "csrrs",
        CsrOp::Csrrc => "csrrc",
        CsrOp::Csrrwi => "csrrwi",
        CsrOp::Csrrsi => "csrrsi",
        CsrOp::Csrrci => "csrrci",
    }
}

pub(crate) fn float_load_name(op: FloatFormat) -> &'static str
    ensures { result.now ≡ float_load_name op }
{
    match op {
        FloatFormat::H => "flh",
        FloatFormat::S => "flw",
        FloatFormat::D => "fld",
    }
}

pub(crate) fn float_store_name(op: FloatFormat) -> &'static str
    ensures { result.now ≡ float_store_name op }
{
    match op {
        FloatFormat::H => "fsh",
        FloatFormat::S => "fsw",
        FloatFormat::D => "fsd",
    }
}

pub(crate) fn half_float_name(op: FloatOp) -> &'static str
    ensures { result.now ≡ float_name format.H op }
{
    match op {
        FloatOp::Fmadd => "fmadd.h",
        FloatOp::Fmsub => "fmsub.h",
        FloatOp::Fnmsub => "fnmsub.h",
        FloatOp::Fnmadd => "fnmadd.h",
        FloatOp::Fadd => "fadd.h",
        FloatOp::Fsub => "fsub.h",
        FloatOp::Fmul => "fmul.h",
        FloatOp::Fdiv => "fdiv.h",
        FloatOp::Fsqrt => "fsqrt.h",
        FloatOp::Fsgnj => "fsgnj.h",
        FloatOp::Fsgnjn => "fsgnjn.h",
        FloatOp::Fsgnjx => "fsgnjx.h",
        FloatOp::Fmin => "fmin.h",
        FloatOp::Fmax => "fmax.h",
        FloatOp::FcvtToW => "fcvt.w.h",
        FloatOp::FcvtToWu => "fcvt.wu.h",
        FloatOp::FcvtToL => "fcvt.l.h",
        FloatOp::FcvtToLu => "fcvt.lu.h",
        FloatOp::FmvToX => "fmv.x.h",
        FloatOp::Feq => "feq.h",
        FloatOp::Flt => "flt.h",
        FloatOp::Fle => "fle.h",
        FloatOp::Fclass => "fclass.h",
        FloatOp::FcvtFromW => "fcvt.h.w",
        FloatOp::FcvtFromWu => "fcvt.h.wu",
        FloatOp::FcvtFromL => "fcvt.h.l",
        FloatOp::FcvtFromLu => "fcvt.h.lu",
        FloatOp::FmvFromX => "fmv.h.x",
        FloatOp::FcvtFromH => "fcvt.h.h",
        FloatOp::FcvtFromS => "fcvt.h.s",
        FloatOp::FcvtFromD => "fcvt.h.d",
        FloatOp::Fli => "fli.h",
        FloatOp::Fminm => "fminm.h",
        FloatOp::Fmaxm => "fmaxm.h",
        FloatOp::Fround => "fround.h",
    }
}

pub(crate) fn single_name(op: FloatOp) -> &'static str
    ensures { result.now ≡ float_name format.S op }
{
    match op {
        FloatOp::Fmadd => "fmadd.s",
        FloatOp::Fmsub => "fmsub.s",
        FloatOp::Fnmsub => "fnmsub.s",
        FloatOp::Fnmadd => "fnmadd.s",
        FloatOp::Fadd => "fadd.s",
        FloatOp::Fsub => "fsub.s",
        FloatOp::Fmul => "fmul.s",
        FloatOp::Fdiv => "fdiv.s",
        FloatOp::Fsqrt => "fsqrt.s",
        FloatOp::Fsgnj => "fsgnj.s",
        FloatOp::Fsgnjn => "fsgnjn.s",
        FloatOp::Fsgnjx => "fsgnjx.s",
        FloatOp::Fmin => "fmin.s",
        FloatOp::Fmax => "fmax.s",
        FloatOp::FcvtToW => "fcvt.w.s",
        FloatOp::FcvtToWu => "fcvt.wu.s",
        FloatOp::FcvtToL => "fcvt.l.s",
        FloatOp::FcvtToLu => "fcvt.lu.s",
        FloatOp::FmvToX => "fmv.x.w",
        FloatOp::Feq => "feq.s",
        FloatOp::Flt => "flt.s",
        FloatOp::Fle => "fle.s",
        FloatOp::Fclass => "fclass.s",
        FloatOp::FcvtFromW => "fcvt.s.w",
        FloatOp::FcvtFromWu => "fcvt.s.wu",
        FloatOp::FcvtFromL => "fcvt.s.l",
        FloatOp::FcvtFromLu => "fcvt.s.lu",
        FloatOp::FmvFromX => "fmv.w.x",
        FloatOp::FcvtFromH => "fcvt.s.h",
        FloatOp::FcvtFromS => "fcvt.s.s",
        FloatOp::FcvtFromD => "fcvt.s.d",
        FloatOp::Fli => "fli.s",
        FloatOp::Fminm => "fminm.s",
        FloatOp::Fmaxm => "fmaxm.s",
        FloatOp::Fround => "fround.s",
    }
}

pub(crate) fn double_name(op: FloatOp) -> &'static str
    ensures { result.now ≡ float_name format.D op }
{
    match op {
        FloatOp::Fmadd => "fmadd.d",
        FloatOp::Fmsub => "fmsub.d",
        FloatOp::Fnmsub => "fnmsub.d",
        FloatOp::Fnmadd => "fnmadd.d",
        FloatOp::Fadd => "fadd.d",
        FloatOp::Fsub => "fsub.d",
        FloatOp::Fmul => "fmul.d",
        FloatOp::Fdiv => "fdiv.d",
        FloatOp::Fsqrt => "fsqrt.d",
        FloatOp::Fsgnj => "fsgnj.d",
        FloatOp::Fsgnjn => "fsgnjn.d",
        FloatOp::Fsgnjx => "fsgnjx.d",
        FloatOp::Fmin => "fmin.d",
        FloatOp::Fmax => "fmax.d",
        FloatOp::FcvtToW => "fcvt.w.d",
        FloatOp::FcvtToWu => "fcvt.wu.d",
        FloatOp::FcvtToL => "fcvt.l.d",
        FloatOp::FcvtToLu => "fcvt.lu.d",
        FloatOp::FmvToX => "fmv.x.d",
        FloatOp::Feq => "feq.d",
        FloatOp::Flt => "flt.d",
        FloatOp::Fle => "fle.d",
        FloatOp::Fclass => "fclass.d",
        FloatOp::FcvtFromW => "fcvt.d.w",
        FloatOp::FcvtFromWu => "fcvt.d.wu",
        FloatOp::FcvtFromL => "fcvt.d.l",
        FloatOp::FcvtFromLu => "fcvt.d.lu",
        FloatOp::FmvFromX => "fmv.d.x",
        FloatOp::FcvtFromH => "fcvt.d.h",
        FloatOp::FcvtFromS => "fcvt.d.s",
        FloatOp::FcvtFromD => "fcvt.d.d",
        FloatOp::Fli => "fli.d",
        FloatOp::Fminm => "fminm.d",
        FloatOp::Fmaxm => "fmaxm.d",
        FloatOp::Fround => "fround.d",
    }
}

pub(crate) fn float_name(format: FloatFormat, op: FloatOp) -> &'static str
    ensures { result.now ≡ float_name format op }
{
    match format {
        FloatFormat::H => half_float_name(op),
        FloatFormat::S => single_name(op),
        FloatFormat::D => double_name(op),
    }
}

pub(crate) fn vector_memory_name(op: VecMemOp) -> &'static str
    ensures { result.now ≡ vector_memory_name op }
{
    match op {
        VecMemOp::Vsetivli => "vsetivli",
        VecMemOp::Vle8 => "vle8.v",
        VecMemOp::Vle16 => "vle16.v",
        VecMemOp::Vle32 => "vle32.v",
        VecMemOp::Vle64 => "vle64.v",
        VecMemOp::Vse8 => "vse8.v",
        VecMemOp::Vse16 => "vse16.v",
        VecMemOp::Vse32 => "vse32.v",
        VecMemOp::Vse64 => "vse64.v",
    }
}

/// The mnemonic of an instruction of 32 bits; of vector arithmetic, which goes by its fields, `vec`.
pub fn mnemonic(op: MOp) -> &'static str
    ensures { result.now ≡ mnemonic op }
{
    match op {
        MOp::Base(op) => base_name(op),
        MOp::Load(op) => load_name(op),
        MOp::Store(op) => store_name(op),
        MOp::Alu(op) => alu_name(op),
        MOp::Carry(op) => carry_name(op),
        MOp::Atomic(op, width) => atomic_name(op, width),
        MOp::Csr(op) => csr_name(op),
        MOp::FloatLoad(format) => float_load_name(format),
        MOp::FloatStore(format) => float_store_name(format),
        MOp::Float(format, op) => float_name(format, op),
        MOp::VecMem(op) => vector_memory_name(op),
        MOp::Vec { .. } => "vec",
    }
}
