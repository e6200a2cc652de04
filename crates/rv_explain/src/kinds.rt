//! What a word of a line may be: whether its field takes it, by the readers of listings, and what it takes.

use crate::forms::{File, Kind};
use rv_base::{
    AMode, CallArgPair, CallRetPair, ConstAlign, ExternalName, IntCC, IrType, MachLabel,
    MemFlagsData, PReg, Reg, TrapCode, TryCallHandler,
};
use rv_imms::{Imm12, Imm20, UImm5};
use rv_inst::CondBrTarget;
use rv_listing::Token;
use rv_ops::{
    AMO, AluOPRRI, AluOPRRR, AtomicOP, CSR, CsrImmOP, CsrRegOP, FRM, FpuOPRR, FpuOPRRR, FpuOPRRRR,
    FpuOPWidth, LoadOP, StoreOP,
};

/// Returns whether a word is read as such a token.
fn is_read<T: Token>(w: &str) -> bool {
    T::read(w.as_bytes()).is_some()
}

/// Returns whether each part of a word is read as such a token, or the word is `-`.
fn are_read<T: Token>(w: &str) -> bool {
    w == "-" || w.split(',').all(|part| is_read::<T>(part))
}

fn is_value(w: &str) -> bool {
    w.split(',').count() <= 2 && w.split(',').all(|part| is_read::<Reg>(part))
}

fn is_map(w: &str) -> bool {
    w == "-" || w.split(',').all(|part| is_read::<(IrType, u32)>(part))
}

fn is_try(w: &str) -> bool {
    match w.split_once(';') {
        None => w == "-" || is_read::<MachLabel>(w),
        Some((label, handlers)) => {
            is_read::<MachLabel>(label)
                && handlers
                    .split(';')
                    .all(|handler| is_read::<TryCallHandler>(handler))
        }
    }
}

/// Returns whether a word is bytes in pairs of hexadecimal digits.
fn is_bytes(w: &str) -> bool {
    !w.is_empty() && w.len() % 2 == 0 && w.chars().all(|c| c.is_ascii_hexdigit())
}

fn is_step(w: &str) -> bool {
    w == "push" || w == "frame" || w == "alloc" || w == "save"
}

/// Returns whether a word is the name of an operation of this kind.
fn is_operation(kind: Kind, w: &str) -> bool {
    match kind {
        Kind::Alu => is_read::<AluOPRRR>(w),
        Kind::AluImmediate => is_read::<AluOPRRI>(w),
        Kind::LoadOperation => is_read::<LoadOP>(w),
        Kind::StoreOperation => is_read::<StoreOP>(w),
        Kind::Float1 => is_read::<FpuOPRR>(w),
        Kind::Float2 => is_read::<FpuOPRRR>(w),
        Kind::Float3 => is_read::<FpuOPRRRR>(w),
        Kind::CsrRegister => is_read::<CsrRegOP>(w),
        Kind::CsrImmediate => is_read::<CsrImmOP>(w),
        Kind::AtomicOperation => is_read::<AtomicOP>(w),
        _ => false,
    }
}

/// Returns whether a word is a number of this kind.
fn is_number(kind: Kind, w: &str) -> bool {
    match kind {
        Kind::Imm12 => is_read::<Imm12>(w),
        Kind::Imm20 => is_read::<Imm20>(w),
        Kind::Imm5 => is_read::<UImm5>(w),
        Kind::Bits => is_read::<u8>(w),
        Kind::Size => is_read::<u32>(w),
        Kind::Number => is_read::<u64>(w),
        Kind::Offset => is_read::<i64>(w),
        Kind::Alignment => is_read::<ConstAlign>(w),
        _ => false,
    }
}

/// Returns whether a word is a name of this kind.
fn is_named(kind: Kind, w: &str) -> bool {
    match kind {
        Kind::Comparison => is_read::<IntCC>(w),
        Kind::Cause => is_read::<TrapCode>(w),
        Kind::AccessCause => is_read::<MemFlagsData>(w),
        Kind::Width => is_read::<FpuOPWidth>(w),
        Kind::Rounding => is_read::<FRM>(w),
        Kind::Ordering => is_read::<AMO>(w),
        Kind::Csr => is_read::<CSR>(w),
        Kind::Type => is_read::<IrType>(w),
        Kind::Signedness => w == "s" || w == "u",
        Kind::Flag => w == "1" || w == "0",
        Kind::Label => is_read::<MachLabel>(w),
        Kind::Target => is_read::<CondBrTarget>(w),
        Kind::Symbol => is_read::<ExternalName>(w),
        Kind::Address => is_read::<AMode>(w),
        Kind::Bytes => is_bytes(w),
        Kind::Step => is_step(w),
        _ => is_operation(kind, w),
    }
}

/// Returns whether a field of this kind takes a word.
pub(crate) fn takes(kind: Kind, w: &str) -> bool {
    match kind {
        Kind::Register(_, File::StackOrFrame) => is_read::<PReg>(w),
        Kind::Register(_, _) => is_read::<Reg>(w),
        Kind::Value(_) => is_value(w),
        Kind::Pairs => are_read::<CallArgPair>(w),
        Kind::Results => are_read::<CallRetPair>(w),
        Kind::Registers => are_read::<PReg>(w),
        Kind::Table => are_read::<MachLabel>(w),
        Kind::StackMap => is_map(w),
        Kind::TryCall => is_try(w),
        _ => is_named(kind, w) || is_number(kind, w),
    }
}

/// The form whose operation a word is.
pub(crate) fn form_of_operation(w: &str) -> Option<&'static str> {
    const OPERATIONS: [(Kind, &str); 10] = [
        (Kind::Alu, "AluRRR"),
        (Kind::AluImmediate, "AluRRImm12"),
        (Kind::LoadOperation, "Load"),
        (Kind::StoreOperation, "Store"),
        (Kind::Float1, "FpuRR"),
        (Kind::Float2, "FpuRRR"),
        (Kind::Float3, "FpuRRRR"),
        (Kind::CsrRegister, "CsrReg"),
        (Kind::CsrImmediate, "CsrImm"),
        (Kind::AtomicOperation, "Atomic"),
    ];
    for (kind, form) in OPERATIONS {
        if is_operation(kind, w) {
            return Some(form);
        }
    }
    None
}

/// Returns whether the words of a kind are names of operations.
pub(crate) fn has_operations(kind: Kind) -> bool {
    match kind {
        Kind::Alu
        | Kind::AluImmediate
        | Kind::LoadOperation
        | Kind::StoreOperation
        | Kind::Float1
        | Kind::Float2
        | Kind::Float3
        | Kind::CsrRegister
        | Kind::CsrImmediate
        | Kind::AtomicOperation => true,
        _ => false,
    }
}

/// Returns whether the words of a kind are names of several letters, so that a near one may be meant.
pub(crate) fn has_near(kind: Kind) -> bool {
    match kind {
        Kind::Alu
        | Kind::AluImmediate
        | Kind::Float1
        | Kind::Float2
        | Kind::Float3
        | Kind::AtomicOperation
        | Kind::Comparison
        | Kind::Cause
        | Kind::AccessCause => true,
        _ => false,
    }
}

/// What a word of a kind is, and the words there are.
pub(crate) fn described(kind: Kind) -> (&'static str, &'static str) {
    match kind {
        Kind::Register(_, File::StackOrFrame) => ("register of the machine", "sp and fp are taken"),
        Kind::Register(_, _) => ("register", ""),
        Kind::Value(_) => ("register, nor two with a comma between them", ""),
        Kind::Pairs => (
            "list of V:P",
            "pairs of registers are, as a0:a1, with commas between them, and - for none",
        ),
        Kind::Results => (
            "list of results",
            "pairs V:P are, and V@N:TYPE on the stack, with commas between them, and - for none",
        ),
        Kind::Registers => (
            "list of registers",
            "registers of the machine are, with commas between them, and - for none",
        ),
        Kind::Table => ("list of labels", "labels are, with commas between them"),
        Kind::StackMap => (
            "map of the stack",
            "TYPE@OFFSET is, with commas between several, and - for none",
        ),
        Kind::TryCall => (
            "place to go on at",
            "a label is, with handlers after semicolons, as L0;tag1:L2;default:L3, and - for none",
        ),
        Kind::Alu => ("operation of AluRRR", ""),
        Kind::AluImmediate => ("operation of AluRRImm12", ""),
        Kind::LoadOperation => (
            "load",
            "lb, lh, lw, lbu, lhu, lwu, ld, flh, flw and fld are",
        ),
        Kind::StoreOperation => ("store", "sb, sh, sw, sd, fsh, fsw and fsd are"),
        Kind::Float1 => ("operation of FpuRR", ""),
        Kind::Float2 => ("operation of FpuRRR", ""),
        Kind::Float3 => (
            "operation of FpuRRRR",
            "Fmadd, Fmsub, Fnmsub and Fnmadd are",
        ),
        Kind::CsrRegister => ("operation of CsrReg", "csrrw, csrrs and csrrc are"),
        Kind::CsrImmediate => ("operation of CsrImm", "csrrwi, csrrsi and csrrci are"),
        Kind::AtomicOperation => ("operation of Atomic", ""),
        Kind::Ordering => ("ordering", "relax, rel, acq and seqcst are"),
        Kind::Comparison => (
            "comparison",
            "eq, ne, slt, sge, sgt, sle, ult, uge, ugt and ule are",
        ),
        Kind::Cause => (
            "cause of a trap",
            "stk_ovf, heap_oob, int_ovf, int_divz, bad_toint and user1 to user250 are",
        ),
        Kind::AccessCause => (
            "cause of a trap",
            "stk_ovf, heap_oob, int_ovf, int_divz, bad_toint and user1 to user250 are, and - for none",
        ),
        Kind::Width => ("format", "h, s and d are"),
        Kind::Rounding => ("rounding mode", "rne, rtz, rdn, rup, rmm and fcsr are"),
        Kind::Csr => ("control and status register", "frm is"),
        Kind::Type => ("type", "i8, i16, i32, i64, f16, f32 and f64 are"),
        Kind::Signedness => ("sign", "s and u are"),
        Kind::Flag => ("flag", "1 and 0 are"),
        Kind::Label => ("label", "L and a number below 4294967296 is, as L0"),
        Kind::Target => (
            "label",
            "L and a number below 4294967296 is, as L0, and - is the next line",
        ),
        Kind::Symbol => (
            "symbol",
            "userextname and a number below 4294967296 is, as userextname0",
        ),
        Kind::Address => (
            "address",
            "r:R:N, sp:N, fp:N, slot:N, in:N, label:L and const:K are",
        ),
        Kind::Bytes => ("bytes", "hexadecimal digits in pairs are"),
        Kind::Alignment => ("alignment", "1, 2, 4, 8 and 16 are"),
        Kind::Step => ("step of an Unwind", "push, frame, alloc and save are"),
        Kind::Imm12 => ("number", "-2048 to 2047 are taken"),
        Kind::Imm20 => ("number", "-524288 to 524287 are taken"),
        Kind::Imm5 => ("number", "0 to 31 are taken"),
        Kind::Bits => ("number", "0 to 255 are taken"),
        Kind::Size => ("number", "0 to 4294967295 are taken"),
        Kind::Number => ("number", "0 to 18446744073709551615 are taken"),
        Kind::Offset => (
            "number",
            "-9223372036854775808 to 9223372036854775807 are taken",
        ),
    }
}
