//! The operations of the manual, by mnemonic, each chapter's in its order.

/// An operation: a load, a store, one that computes a register's value of registers and an immediate, any other of the
/// integer machine, or one of the further units.
#[derive(Clone, Copy, Debug, PartialEq, Eq)]
pub enum MOp {
    Base(BaseOp),
    Load(LoadOp),
    Store(StoreOp),
    Alu(AluOp),
    Carry(CarryOp),
    Atomic(AtomicOp, AtomicWidth),
    Csr(CsrOp),
    /// A load of a number in a floating-point format: `flh`, `flw` and `fld`.
    FloatLoad(FloatFormat),
    /// A store of one: `fsh`, `fsw` and `fsd`.
    FloatStore(FloatFormat),
    Float(FloatFormat, FloatOp),
    VecMem(VecMemOp),
    /// Vector arithmetic, by its fields at 31:26 and 14:12.
    Vec { funct6: u8, funct3: u8 },
}

/// The operations of RV64I that do more than compute, its loads and stores aside: "2.4 Integer Computational
/// Instructions" (`lui` and `auipc`), "2.5 Control Transfer Instructions", "2.7 Memory Ordering Instructions" and
/// "2.8 Environment Call and Breakpoints".
#[derive(Clone, Copy, Debug, PartialEq, Eq)]
pub enum BaseOp {
    Lui,
    Auipc,
    Jal,
    Jalr,
    Beq,
    Bne,
    Blt,
    Bge,
    Bltu,
    Bgeu,
    Fence,
    Ebreak,
}

/// The loads of "2.6 Load and Store Instructions" of RV32I and "4.3 Load and Store Instructions" of RV64I.
#[derive(Clone, Copy, Debug, PartialEq, Eq)]
pub enum LoadOp {
    Lb,
    Lh,
    Lw,
    Lbu,
    Lhu,
    Lwu,
    Ld,
}

/// The stores of "2.6 Load and Store Instructions" of RV32I and "4.3 Load and Store Instructions" of RV64I.
#[derive(Clone, Copy, Debug, PartialEq, Eq)]
pub enum StoreOp {
    Sb,
    Sh,
    Sw,
    Sd,
}

impl StoreOp {
    ghost use Rattle.std.specs.Prelude.{◌≡◌, ◌≤◌};
    ghost use Rattle.rv_machine.specs.Memory.{store_width};

    /// How many bytes it writes.
    pub fn width(self) -> usize
        ensures value { result ≡ store_width self }
        ensures register { result ≤ 8 }
    {
        match self {
            StoreOp::Sb => 1,
            StoreOp::Sh => 2,
            StoreOp::Sw => 4,
            StoreOp::Sd => 8,
        }
    }
}

/// An operation that writes to rd what it computes of rs1 and of rs2 or an immediate, by its chapter.
#[derive(Clone, Copy, Debug, PartialEq, Eq)]
pub enum AluOp {
    Int(IntOp),
    Mul(MulOp),
    Bit(BitOp),
}

/// "2.4 Integer Computational Instructions" of RV32I and "4.2 Integer Computational Instructions" of RV64I; and
/// "Zicond", Integer Conditional Operations.
#[derive(Clone, Copy, Debug, PartialEq, Eq)]
pub enum IntOp {
    Addi,
    Slti,
    Sltiu,
    Xori,
    Ori,
    Andi,
    Slli,
    Srli,
    Srai,
    Add,
    Sub,
    Sll,
    Slt,
    Sltu,
    Xor,
    Srl,
    Sra,
    Or,
    And,
    Addiw,
    Slliw,
    Srliw,
    Sraiw,
    Addw,
    Subw,
    Sllw,
    Srlw,
    Sraw,
    CzeroEqz,
    CzeroNez,
}

/// "M", Integer Multiplication and Division.
#[derive(Clone, Copy, Debug, PartialEq, Eq)]
pub enum MulOp {
    Mul,
    Mulh,
    Mulhsu,
    Mulhu,
    Div,
    Divu,
    Rem,
    Remu,
    Mulw,
    Divw,
    Divuw,
    Remw,
    Remuw,
}

/// "B", Bit Manipulation: Zba (address generation), Zbb (basic bit manipulation) and Zbs (single bits).
#[derive(Clone, Copy, Debug, PartialEq, Eq)]
pub enum BitOp {
    AddUw,
    Sh1add,
    Sh1addUw,
    Sh2add,
    Sh2addUw,
    Sh3add,
    Sh3addUw,
    SlliUw,
    Andn,
    Orn,
    Xnor,
    Clz,
    Clzw,
    Ctz,
    Ctzw,
    Cpop,
    Cpopw,
    Max,
    Maxu,
    Min,
    Minu,
    SextB,
    SextH,
    ZextH,
    Rol,
    Rolw,
    Ror,
    Rori,
    Roriw,
    Rorw,
    OrcB,
    Rev8,
    Bclr,
    Bclri,
    Bext,
    Bexti,
    Binv,
    Binvi,
    Bset,
    Bseti,
}

/// "Zbc", carry-less multiplication, and what "Zbkb" has beside Zbb.
#[derive(Clone, Copy, Debug, PartialEq, Eq)]
pub enum CarryOp {
    Clmul,
    Clmulh,
    Clmulr,
    Pack,
    Packh,
    Packw,
    Brev8,
}

/// "A", Atomic Instructions: Zalrsc and Zaamo.
#[derive(Clone, Copy, Debug, PartialEq, Eq)]
pub enum AtomicOp {
    Lr,
    Sc,
    Amoswap,
    Amoadd,
    Amoxor,
    Amoand,
    Amoor,
    Amomin,
    Amomax,
    Amominu,
    Amomaxu,
}

/// Of words or of doublewords.
#[derive(Clone, Copy, Debug, PartialEq, Eq)]
pub enum AtomicWidth {
    W,
    D,
}

/// "Zicsr", Control and Status Register Instructions, of `frm`.
#[derive(Clone, Copy, Debug, PartialEq, Eq)]
pub enum CsrOp {
    Csrrw,
    Csrrs,
    Csrrc,
    Csrrwi,
    Csrrsi,
    Csrrci,
}

/// The formats of floating-point numbers, of two, four and eight bytes: those of Zfh, F and D.
#[derive(Clone, Copy, Debug, PartialEq, Eq)]
pub enum FloatFormat {
    H,
    S,
    D,
}

/// The operations of "F", Single-Precision Floating-Point, which Zfh and D have in their formats, and of "Zfa". One to or from
/// a register's integer, or from another format, is named by it.
#[derive(Clone, Copy, Debug, PartialEq, Eq)]
pub enum FloatOp {
    Fmadd,
    Fmsub,
    Fnmsub,
    Fnmadd,
    Fadd,
    Fsub,
    Fmul,
    Fdiv,
    Fsqrt,
    Fsgnj,
    Fsgnjn,
    Fsgnjx,
    Fmin,
    Fmax,
    FcvtToW,
    FcvtToWu,
    FcvtToL,
    FcvtToLu,
    FmvToX,
    Feq,
    Flt,
    Fle,
    Fclass,
    FcvtFromW,
    FcvtFromWu,
    FcvtFromL,
    FcvtFromLu,
    FmvFromX,
    FcvtFromH,
    FcvtFromS,
    FcvtFromD,
    Fli,
    Fminm,
    Fmaxm,
    Fround,
}

/// "Configuration-Setting Instructions" and the unit-stride ones of "Vector Loads and Stores".
#[derive(Clone, Copy, Debug, PartialEq, Eq)]
pub enum VecMemOp {
    Vsetivli,
    Vle8,
    Vle16,
    Vle32,
    Vle64,
    Vse8,
    Vse16,
    Vse32,
    Vse64,
}

/// How the further fields of vector arithmetic are used by an operation of some funct6 and funct3.
#[derive(Clone, Copy, Debug, PartialEq, Eq)]
pub enum VecFields {
    /// All registers, masked or not.
    Any,
    /// All registers, unmasked.
    Unmasked,
    /// Masked, a merge; unmasked, a move, which has 0 at 24:20.
    Merge,
    /// To element 0 of a vector: 0 at 24:20, unmasked.
    FromScalar,
    /// From element 0 of a vector: 0 at 19:15, unmasked.
    ToScalar,
    /// Of one source: an operation by the field at 19:15.
    IntUnary,
    FloatUnary,
    Root,
    /// Whole registers, one more of them than 19:15 says.
    Move,
}
