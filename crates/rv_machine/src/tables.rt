//! The operation that the funct fields of a word name, by the opcode.

ghost use Rattle.std.specs.Prelude.{◌≡◌};
ghost use Rattle.rv_machine.specs.Tables.{branch_entry, load_entry, store_entry, imm_entry, imm_32_entry, shift_entry, unary_entry, long_shift_32_entry, shift_32_entry, unary_32_entry, op_entry, op_32_entry, unary_op_32_entry};

use crate::ops::{AluOp, BaseOp, BitOp, IntOp, LoadOp, MulOp, StoreOp};

/// BRANCH.
pub fn branch(funct3: u8) -> Option<BaseOp>
    ensures { result ≡ branch_entry funct3 }
{
    match funct3 {
        0 => Some(BaseOp::Beq),
        1 => Some(BaseOp::Bne),
        4 => Some(BaseOp::Blt),
        5 => Some(BaseOp::Bge),
        6 => Some(BaseOp::Bltu),
        7 => Some(BaseOp::Bgeu),
        _ => None,
    }
}

/// LOAD.
pub fn load(funct3: u8) -> Option<LoadOp>
    ensures { result ≡ load_entry funct3 }
{
    match funct3 {
        0 => Some(LoadOp::Lb),
        1 => Some(LoadOp::Lh),
        2 => Some(LoadOp::Lw),
        3 => Some(LoadOp::Ld),
        4 => Some(LoadOp::Lbu),
        5 => Some(LoadOp::Lhu),
        6 => Some(LoadOp::Lwu),
        _ => None,
    }
}

/// STORE.
pub fn store(funct3: u8) -> Option<StoreOp>
    ensures { result ≡ store_entry funct3 }
{
    match funct3 {
        0 => Some(StoreOp::Sb),
        1 => Some(StoreOp::Sh),
        2 => Some(StoreOp::Sw),
        3 => Some(StoreOp::Sd),
        _ => None,
    }
}

/// OP-IMM, with an immediate of twelve bits.
pub fn imm(funct3: u8) -> Option<AluOp>
    ensures { result ≡ imm_entry funct3 }
{
    match funct3 {
        0 => Some(AluOp::Int(IntOp::Addi)),
        2 => Some(AluOp::Int(IntOp::Slti)),
        3 => Some(AluOp::Int(IntOp::Sltiu)),
        4 => Some(AluOp::Int(IntOp::Xori)),
        6 => Some(AluOp::Int(IntOp::Ori)),
        7 => Some(AluOp::Int(IntOp::Andi)),
        _ => None,
    }
}

/// OP-IMM-32, with an immediate of twelve bits.
pub fn imm_32(funct3: u8) -> Option<AluOp>
    ensures { result ≡ imm_32_entry funct3 }
{
    match funct3 {
        0 => Some(AluOp::Int(IntOp::Addiw)),
        _ => None,
    }
}

/// OP-IMM, with a shift amount of six bits.
pub fn shift(funct6: u8, funct3: u8) -> Option<AluOp>
    ensures { result ≡ shift_entry funct6 funct3 }
{
    match funct6 {
        0x00 => match funct3 {
            1 => Some(AluOp::Int(IntOp::Slli)),
            5 => Some(AluOp::Int(IntOp::Srli)),
            _ => None,
        },
        0x0a => match funct3 {
            1 => Some(AluOp::Bit(BitOp::Bseti)),
            _ => None,
        },
        0x10 => match funct3 {
            5 => Some(AluOp::Int(IntOp::Srai)),
            _ => None,
        },
        0x12 => match funct3 {
            1 => Some(AluOp::Bit(BitOp::Bclri)),
            5 => Some(AluOp::Bit(BitOp::Bexti)),
            _ => None,
        },
        0x18 => match funct3 {
            5 => Some(AluOp::Bit(BitOp::Rori)),
            _ => None,
        },
        0x1a => match funct3 {
            1 => Some(AluOp::Bit(BitOp::Binvi)),
            _ => None,
        },
        _ => None,
    }
}

/// OP-IMM, of one source.
pub fn unary(funct12: u16, funct3: u8) -> Option<AluOp>
    ensures { result ≡ unary_entry funct12 funct3 }
{
    match funct12 {
        0x287 => match funct3 {
            5 => Some(AluOp::Bit(BitOp::OrcB)),
            _ => None,
        },
        0x600 => match funct3 {
            1 => Some(AluOp::Bit(BitOp::Clz)),
            _ => None,
        },
        0x601 => match funct3 {
            1 => Some(AluOp::Bit(BitOp::Ctz)),
            _ => None,
        },
        0x602 => match funct3 {
            1 => Some(AluOp::Bit(BitOp::Cpop)),
            _ => None,
        },
        0x604 => match funct3 {
            1 => Some(AluOp::Bit(BitOp::SextB)),
            _ => None,
        },
        0x605 => match funct3 {
            1 => Some(AluOp::Bit(BitOp::SextH)),
            _ => None,
        },
        0x6b8 => match funct3 {
            5 => Some(AluOp::Bit(BitOp::Rev8)),
            _ => None,
        },
        _ => None,
    }
}

/// OP-IMM-32, with a shift amount of six bits.
pub fn long_shift_32(funct6: u8, funct3: u8) -> Option<AluOp>
    ensures { result ≡ long_shift_32_entry funct6 funct3 }
{
    match funct6 {
        0x02 => match funct3 {
            1 => Some(AluOp::Bit(BitOp::SlliUw)),
            _ => None,
        },
        _ => None,
    }
}

/// OP-IMM-32, with a shift amount of five bits.
pub fn shift_32(funct7: u8, funct3: u8) -> Option<AluOp>
    ensures { result ≡ shift_32_entry funct7 funct3 }
{
    match funct7 {
        0x00 => match funct3 {
            1 => Some(AluOp::Int(IntOp::Slliw)),
            5 => Some(AluOp::Int(IntOp::Srliw)),
            _ => None,
        },
        0x20 => match funct3 {
            5 => Some(AluOp::Int(IntOp::Sraiw)),
            _ => None,
        },
        0x30 => match funct3 {
            5 => Some(AluOp::Bit(BitOp::Roriw)),
            _ => None,
        },
        _ => None,
    }
}

/// OP-IMM-32, of one source.
pub fn unary_32(funct12: u16, funct3: u8) -> Option<AluOp>
    ensures { result ≡ unary_32_entry funct12 funct3 }
{
    match funct12 {
        0x600 => match funct3 {
            1 => Some(AluOp::Bit(BitOp::Clzw)),
            _ => None,
        },
        0x601 => match funct3 {
            1 => Some(AluOp::Bit(BitOp::Ctzw)),
            _ => None,
        },
        0x602 => match funct3 {
            1 => Some(AluOp::Bit(BitOp::Cpopw)),
            _ => None,
        },
        _ => None,
    }
}

/// OP.
pub fn op(funct7: u8, funct3: u8) -> Option<AluOp>
    ensures { result ≡ op_entry funct7 funct3 }
{
    match funct7 {
        0x00 => match funct3 {
            0 => Some(AluOp::Int(IntOp::Add)),
            1 => Some(AluOp::Int(IntOp::Sll)),
            2 => Some(AluOp::Int(IntOp::Slt)),
            3 => Some(AluOp::Int(IntOp::Sltu)),
            4 => Some(AluOp::Int(IntOp::Xor)),
            5 => Some(AluOp::Int(IntOp::Srl)),
            6 => Some(AluOp::Int(IntOp::Or)),
            7 => Some(AluOp::Int(IntOp::And)),
            _ => None,
        },
        0x01 => match funct3 {
            0 => Some(AluOp::Mul(MulOp::Mul)),
            1 => Some(AluOp::Mul(MulOp::Mulh)),
            2 => Some(AluOp::Mul(MulOp::Mulhsu)),
            3 => Some(AluOp::Mul(MulOp::Mulhu)),
            4 => Some(AluOp::Mul(MulOp::Div)),
            5 => Some(AluOp::Mul(MulOp::Divu)),
            6 => Some(AluOp::Mul(MulOp::Rem)),
            7 => Some(AluOp::Mul(MulOp::Remu)),
            _ => None,
        },
        0x05 => match funct3 {
            4 => Some(AluOp::Bit(BitOp::Min)),
            5 => Some(AluOp::Bit(BitOp::Minu)),
            6 => Some(AluOp::Bit(BitOp::Max)),
            7 => Some(AluOp::Bit(BitOp::Maxu)),
            _ => None,
        },
        0x07 => match funct3 {
            5 => Some(AluOp::Int(IntOp::CzeroEqz)),
            7 => Some(AluOp::Int(IntOp::CzeroNez)),
            _ => None,
        },
        0x10 => match funct3 {
            2 => Some(AluOp::Bit(BitOp::Sh1add)),
            4 => Some(AluOp::Bit(BitOp::Sh2add)),
            6 => Some(AluOp::Bit(BitOp::Sh3add)),
            _ => None,
        },
        0x14 => match funct3 {
            1 => Some(AluOp::Bit(BitOp::Bset)),
            _ => None,
        },
        0x20 => match funct3 {
            0 => Some(AluOp::Int(IntOp::Sub)),
            4 => Some(AluOp::Bit(BitOp::Xnor)),
            5 => Some(AluOp::Int(IntOp::Sra)),
            6 => Some(AluOp::Bit(BitOp::Orn)),
            7 => Some(AluOp::Bit(BitOp::Andn)),
            _ => None,
        },
        0x24 => match funct3 {
            1 => Some(AluOp::Bit(BitOp::Bclr)),
            5 => Some(AluOp::Bit(BitOp::Bext)),
            _ => None,
        },
        0x30 => match funct3 {
            1 => Some(AluOp::Bit(BitOp::Rol)),
            5 => Some(AluOp::Bit(BitOp::Ror)),
            _ => None,
        },
        0x34 => match funct3 {
            1 => Some(AluOp::Bit(BitOp::Binv)),
            _ => None,
        },
        _ => None,
    }
}

/// OP-32.
pub fn op_32(funct7: u8, funct3: u8) -> Option<AluOp>
    ensures { result ≡ op_32_entry funct7 funct3 }
{
    match funct7 {
        0x00 => match funct3 {
            0 => Some(AluOp::Int(IntOp::Addw)),
            1 => Some(AluOp::Int(IntOp::Sllw)),
            5 => Some(AluOp::Int(IntOp::Srlw)),
            _ => None,
        },
        0x01 => match funct3 {
            0 => Some(AluOp::Mul(MulOp::Mulw)),
            4 => Some(AluOp::Mul(MulOp::Divw)),
            5 => Some(AluOp::Mul(MulOp::Divuw)),
            6 => Some(AluOp::Mul(MulOp::Remw)),
            7 => Some(AluOp::Mul(MulOp::Remuw)),
            _ => None,
        },
        0x04 => match funct3 {
            0 => Some(AluOp::Bit(BitOp::AddUw)),
            _ => None,
        },
        0x10 => match funct3 {
            2 => Some(AluOp::Bit(BitOp::Sh1addUw)),
            4 => Some(AluOp::Bit(BitOp::Sh2addUw)),
            6 => Some(AluOp::Bit(BitOp::Sh3addUw)),
            _ => None,
        },
        0x20 => match funct3 {
            0 => Some(AluOp::Int(IntOp::Subw)),
            5 => Some(AluOp::Int(IntOp::Sraw)),
            _ => None,
        },
        0x30 => match funct3 {
            1 => Some(AluOp::Bit(BitOp::Rolw)),
            5 => Some(AluOp::Bit(BitOp::Rorw)),
            _ => None,
        },
        _ => None,
    }
}

/// OP-32, of one source.
pub fn unary_op_32(funct12: u16, funct3: u8) -> Option<AluOp>
    ensures { result ≡ unary_op_32_entry funct12 funct3 }
{
    match funct12 {
        0x080 => match funct3 {
            4 => Some(AluOp::Bit(BitOp::ZextH)),
            _ => None,
        },
        _ => None,
    }
}
