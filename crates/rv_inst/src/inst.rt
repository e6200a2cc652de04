//! Instructions with chosen registers, and the lines of a listing.

ghost use Rattle.std.specs.Prelude.{◌≡◌};

use crate::boxed::Boxed;
use rv_base::{
    AMode, ArgPair, CallInfo, ExternalName, IrType, List, MachLabel, MemFlagsData, PReg, Reg,
    RetPair, ReturnCallInfo, TrapCode, UnwindInst, ValueRegs, WritableReg,
};
use rv_imms::{Imm12, Imm20, UImm5};
use rv_ops::{
    AMO, AluOPRRI, AluOPRRR, AtomicOP, CSR, CsrImmOP, CsrRegOP, FRM, FliConstant, FpuOPRR,
    FpuOPRRR, FpuOPRRRR, FpuOPWidth, IntegerCompare, LoadOP, StoreOP,
};
use std::fmt;

/// Where a branch goes on one of its two sides.
#[derive(Clone, Copy, Debug, PartialEq, Eq)]
pub enum CondBrTarget {
    Label(MachLabel),
    Fallthrough,
}

impl CondBrTarget {
    ghost use Rattle.std.specs.Prelude.{is_none};
    ghost use Rattle.rv_inst.specs.CondBrTargets.{label_of};

    /// The label, where it is one.
    pub fn as_label(self) -> Option<MachLabel>
        ensures { result ≡ label_of self }
    {
        match self {
            CondBrTarget::Label(label) => Some(label),
            CondBrTarget::Fallthrough => None,
        }
    }

    /// Returns whether control goes on with the next line.
    pub fn is_fallthrouh(&self) -> bool
        ensures { result ≡ is_none (label_of self.now) }
    {
        *self == CondBrTarget::Fallthrough
    }
}

impl fmt::Display for CondBrTarget {
    ghost use Rattle.std.specs.Prelude.{Some};
    ghost use Rattle.rv_inst.specs.CondBrTargets.{text_of};

    ghost output = { λ target. Some (text_of target) };

    fn fmt<W: fmt::Write>(&self, f: &mut fmt::Formatter<W>) -> fmt::Result {
        match self {
            CondBrTarget::Label(label) => write!(f, "{label}"),
            CondBrTarget::Fallthrough => write!(f, "0"),
        }
    }
}

/// The parts of a `Select`, which stand on the heap, since a line has no room for them.
#[derive(Clone, Copy)]
pub struct SelectInfo {
    pub dst: ValueRegs<WritableReg>,
    pub condition: IntegerCompare,
    pub x: ValueRegs<Reg>,
    pub y: ValueRegs<Reg>,
}

/// The parts of a `Popcnt` or a `Cltz`, which stand on the heap, since a line has no room for them.
#[derive(Clone, Copy)]
pub struct CountInfo {
    pub sum: WritableReg,
    pub tmp: WritableReg,
    pub step: WritableReg,
    pub rs: Reg,
    pub ty: IrType,
}

/// The parts of a `Brev8`, which stand on the heap, since a line has no room for them.
#[derive(Clone, Copy)]
pub struct Brev8Info {
    pub rs: Reg,
    pub ty: IrType,
    pub step: WritableReg,
    pub tmp: WritableReg,
    pub tmp2: WritableReg,
    pub rd: WritableReg,
}

/// An instruction. Each belongs to one `Family`, by which definitions and functions over instructions are parted.
#[derive(Drop)]
pub enum Inst {
    /// Does nothing, in no bytes.
    Nop0,
    /// Does nothing, in four bytes: the manual's canonical `nop`, `addi x0, x0, 0`.
    Nop4,
    /// Stops the machine there (`ebreak`, "2.8 Environment Call and Breakpoints").
    EBreak,
    /// A place that a debugger may stop at; no bytes.
    SequencePoint,
    /// The function's arguments, each a virtual register and the machine's register that it arrives in; no bytes.
    Args {
        args: List<ArgPair>,
    },
    /// The function's results, each a virtual register and the machine's register that it leaves in; no bytes.
    Rets {
        rets: List<RetPair>,
    },
    /// A register that counts as used here; no bytes.
    DummyUse {
        reg: Reg,
    },
    /// A step in the making of the frame, which is reported to those that unwind it; no bytes.
    Unwind {
        inst: UnwindInst,
    },
    /// An island stands here, where one is needed before so many bytes.
    EmitIsland {
        needed_space: u32,
    },
    /// Bytes among the code, four or eight, which control never enters.
    RawData {
        bytes: List<u8>,
    },
    /// `rd` is the immediate times 2^12, which is `imm`'s twenty bits, signed (`lui`).
    Lui {
        rd: WritableReg,
        imm: Imm20,
    },
    /// `rd` is the instruction's own address plus the immediate times 2^12 (`auipc`).
    Auipc {
        rd: WritableReg,
        imm: Imm20,
    },
    /// `rd` is the immediate, which stands among the code: of `i64` its 64 bits, of `i32` its low 32, sign-extended. 20 or 16
    /// bytes.
    LoadInlineConst {
        rd: WritableReg,
        ty: IrType,
        imm: u64,
    },
    /// `rd` is the operation of `rs1` and `rs2`.
    AluRRR {
        alu_op: AluOPRRR,
        rd: WritableReg,
        rs1: Reg,
        rs2: Reg,
    },
    /// `rd` is the operation of `rs` and an immediate of twelve bits, signed; of shifts it is the shift amount in bits, and of
    /// single-bit operations the bit's index.
    AluRRImm12 {
        alu_op: AluOPRRI,
        rd: WritableReg,
        rs: Reg,
        imm12: Imm12,
    },
    /// `rd` is `rm`; a move to the same register has no bytes.
    Mov {
        rd: WritableReg,
        rm: Reg,
        ty: IrType,
    },
    /// `rd` is the stack or the frame pointer.
    MovFromPReg {
        rd: WritableReg,
        rm: PReg,
    },
    /// `rd` is the low `from_bits` bits of `rn`, 1 to 64, sign-extended to 64 bits or zero-extended; `to_bits` is of no effect.
    /// 8 bytes, two shifts; 4 for a byte that is zero-extended.
    Extend {
        rd: WritableReg,
        rn: Reg,
        signed: bool,
        from_bits: u8,
        to_bits: u8,
    },
    /// The registers of `dst` are those of `x` where the comparison holds, and else those of `y`. Moves, and a branch over the
    /// second ones: at most 20 bytes.
    Select {
        info: Boxed<SelectInfo>,
    },
    /// `rd` is what the load reads at the address, extended to 64 bits as the operation says. 4 bytes; where the offset isn't of
    /// twelve bits, signed, up to 28; from a label 8.
    Load {
        rd: WritableReg,
        op: LoadOP,
        flags: MemFlagsData,
        from: AMode,
    },
    /// The low bytes of `src` go to the address, as many as the operation says. 4 bytes; where the offset isn't of twelve bits,
    /// signed, up to 28; to a label 12.
    Store {
        src: Reg,
        op: StoreOP,
        flags: MemFlagsData,
        /// Last, since a line has no room for the gaps that other orders leave.
        to: AMode,
    },
    /// `rd` is the address. 4 bytes; where the offset isn't of twelve bits, signed, up to 24; of a label 8.
    LoadAddr {
        rd: WritableReg,
        mem: AMode,
    },
    /// `dst` is the label's address. 8 bytes.
    LabelAddress {
        dst: WritableReg,
        label: MachLabel,
    },
    /// Leaves the code to the address in `ra`.
    Ret,
    /// Traps for the cause where the comparison holds. 8 bytes: a branch over an undefined instruction.
    TrapIf {
        cmp: IntegerCompare,
        trap_code: TrapCode,
    },
    /// Goes to the label (`jal x0`), by a veneer where it is too far.
    Jal {
        label: MachLabel,
    },
    /// Goes to one target where the comparison holds, and to the other where it doesn't.
    CondBr {
        taken: CondBrTarget,
        not_taken: CondBrTarget,
        kind: IntegerCompare,
    },
    /// Goes to a label of the table by the index, which is the low 32 bits of `index`: to that after the default where there is
    /// one, and else to the first, the default. `tmp1` and `tmp2` are temporaries. At most 48 bytes and 8 for each label after the
    /// default, after an island where one is needed before so many.
    BrTable {
        index: Reg,
        tmp1: WritableReg,
        tmp2: WritableReg,
        /// On the heap, since a line has no room for a list beside three registers.
        targets: Boxed<List<MachLabel>>,
    },
    /// Traps for the cause: four bytes of zeros, which the manual keeps undefined.
    Udf {
        trap_code: TrapCode,
    },
    /// Leaves the code to `base` plus `offset` bytes, with bit 0 clear; `rd` is the address after it (`jalr`).
    Jalr {
        rd: WritableReg,
        base: Reg,
        offset: Imm12,
    },
    /// `sum` is how many of the low bits of `rs` are ones, of as many bits as the type has, which is an integer of at most 64
    /// bits. `tmp` and `step` are temporaries. 44 bytes, with a loop of one turn a bit.
    Popcnt {
        info: Boxed<CountInfo>,
    },
    /// `sum` is how many zeros stand above the highest one of the low bits of `rs`, or below the lowest one: all of the bits,
    /// where none is one. The type is an integer of at most 64 bits, and `tmp` and `step` are temporaries. 44 or 40 bytes, with a
    /// loop of one turn a zero.
    Cltz {
        leading: bool,
        info: Boxed<CountInfo>,
    },
    /// `rd` is the low bits of `rs`, of as many as the type has, which is an integer of at most 64 bits, with the bits of each
    /// byte in reverse order. `step`, `tmp` and `tmp2` are temporaries. 76 bytes, with a loop of one turn a bit.
    Brev8 {
        info: Boxed<Brev8Info>,
    },
    /// A byte 0 goes to each address that is `guard_size` bytes times 2, 3 and so on up to `probe_count` below the stack pointer;
    /// none where the size is 0. `tmp` is a temporary. At most 60 bytes, with a loop of one turn a probe.
    StackProbeLoop {
        guard_size: u32,
        probe_count: u32,
        tmp: WritableReg,
    },
    /// `rd` is what stands in the symbol's slot, which a linker fills with the symbol's address. 8 bytes, an `auipc` and a load,
    /// whose immediates a linker fills.
    LoadExtNameGot {
        rd: WritableReg,
        name: ExternalName,
    },
    /// `rd` is the symbol's address plus the offset, by its distance from here. 8 bytes, an `auipc` and an `addi`, whose immediates
    /// a linker fills.
    LoadExtNameNear {
        rd: WritableReg,
        name: ExternalName,
        offset: i64,
    },
    /// `rd` is the symbol's address plus the offset, which stands among the code, in eight bytes that a linker fills. 20 bytes, or
    /// 18 with a jump of sixteen bits over them.
    LoadExtNameFar {
        rd: WritableReg,
        name: ExternalName,
        offset: i64,
    },
    /// Leaves the code to the symbol, which returns, with `ra`, to the byte after the call; there the stack pointer falls by as much as
    /// the callee took away, results on the stack are loaded, unless the call may be patched, and control goes on after the call or,
    /// where it ends its block, at a label. 8 bytes, an `auipc` and a `jalr`, whose immediates a linker fills, at most 24 for the stack
    /// pointer, at most 28 for each load, and at most 4 for the jump to the label. Before loads an island is put where one is needed.
    Call {
        info: Boxed<CallInfo<ExternalName>>,
    },
    /// The same, leaving the code to the address in a register, with bit 0 clear; results on the stack are loaded even where the call
    /// may be patched. 4 bytes, or 2, those for the stack pointer, those for the loads, and those for the jump.
    CallInd {
        info: Boxed<CallInfo<Reg>>,
    },
    /// Restores what the frame saved, from below the frame pointer downwards, with the return address and the frame pointer where
    /// the frame has room for them; takes the frame away, but for the callee's arguments on the stack; and leaves the code to the
    /// symbol. At most 28 bytes for each of these and for the stack pointer, and 8 for an `auipc` and a `jalr`, whose immediates a
    /// linker fills; after an island where one is needed before so many.
    ReturnCall {
        /// On the heap, since a line has no room for it.
        info: Boxed<ReturnCallInfo<ExternalName>>,
    },
    /// The same, leaving the code to the address in a register, which is t0, with bit 0 clear.
    ReturnCallInd {
        /// On the heap, since a line has no room for it.
        info: Boxed<ReturnCallInfo<Reg>>,
    },
    /// `rd` is a constant of the width's format, which is one of 32 ("Load-Immediate Instructions" of the chapter "Zfa"). 4 bytes.
    Fli {
        width: FpuOPWidth,
        imm: FliConstant,
        rd: WritableReg,
    },
    /// `rd` is the floating-point operation of `rs`: a root, a class, a conversion or a move of bits, whose register is an integer one
    /// where the operation is from an integer, or to one (the chapter "F", from "Single-Precision Floating-Point Computational
    /// Instructions" on). A conversion to an integer may trap, and is reported. 4 bytes.
    FpuRR {
        alu_op: FpuOPRR,
        width: FpuOPWidth,
        frm: FRM,
        rd: WritableReg,
        rs: Reg,
    },
    /// `rd` is the floating-point operation of `rs1` and `rs2`, which are numbers of the width's format: a floating-point register,
    /// or of a comparison an integer one. An operation that isn't rounded takes one rounding mode alone, whose bits are its
    /// own. 4 bytes.
    FpuRRR {
        alu_op: FpuOPRRR,
        width: FpuOPWidth,
        frm: FRM,
        rd: WritableReg,
        rs1: Reg,
        rs2: Reg,
    },
    /// `rd` is the product of `rs1` and `rs2`, with `rs3` added or subtracted, and negated or not, rounded once (the same chapter's
    /// fused multiply-add instructions). 4 bytes.
    FpuRRRR {
        alu_op: FpuOPRRRR,
        width: FpuOPWidth,
        frm: FRM,
        rd: WritableReg,
        rs1: Reg,
        rs2: Reg,
        rs3: Reg,
    },
    /// `rd` is what the control register held, which then gets `rs`, or has the bits of `rs` set or cleared ("CSR Instructions" of the
    /// chapter "Zicsr"). 4 bytes.
    CsrReg {
        op: CsrRegOP,
        rd: WritableReg,
        rs: Reg,
        csr: CSR,
    },
    /// The same, with an immediate in place of `rs`.
    CsrImm {
        op: CsrImmOP,
        rd: WritableReg,
        csr: CSR,
        imm: UImm5,
    },
    /// The accesses before it that are in `pred` come before those after it that are in `succ`: sets of at most four bits, 8 for device
    /// input, 4 for device output, 2 for reads of memory and 1 for writes ("2.7 Memory Ordering Instructions"). 4 bytes.
    Fence {
        pred: u8,
        succ: u8,
    },
    /// `rd` is the integer of the type at the address in `p`, sign-extended to 64 bits, read between a fence of all reads and writes and
    /// one of reads before all. At most 12 bytes.
    AtomicLoad {
        rd: WritableReg,
        ty: IrType,
        p: Reg,
    },
    /// The low bytes of `src` go to the address in `p`, as many as the integer type has, after a fence of all reads and writes before
    /// writes. At most 8 bytes.
    AtomicStore {
        src: Reg,
        ty: IrType,
        p: Reg,
    },
    /// `rd` is what a word or a doubleword at the address in `addr` was, which gets the operation of that and of `src`; or it is
    /// reserved; or `src` is stored there if it still is, and `rd` is 0, or else 1 (the chapter "A"). A load-reserved has x0 as its `src`.
    /// 4 bytes.
    Atomic {
        op: AtomicOP,
        rd: WritableReg,
        addr: Reg,
        src: Reg,
        amo: AMO,
    },
}

/// `Nop0`, which does nothing.
impl Default for Inst {
    ghost use Rattle.std.specs.Prelude.{◌≡◌};
    ghost use Rattle.rv_inst.specs.declared.inst.Inst.TheVariants.{Nop0};

    ghost is_default = { λ inst. inst ≡ Nop0 };

    fn default() -> Inst {
        Inst::Nop0
    }
}

/// The kinds of instructions.
#[derive(Clone, Copy, Debug, PartialEq, Eq)]
pub enum Family {
    /// Pseudo-instructions, data, `Nop4` and `EBreak`: they compute nothing.
    Pseudo,
    /// Those that compute an integer register, and go on.
    Integer,
    /// Those that read or write memory, or compute an address.
    Memory,
    /// Those that go elsewhere.
    Control,
    /// Those that compute an integer register by a loop of their own, and go on.
    Loop,
    /// Those that depend on a symbol outside the code.
    Symbols,
    /// Those that call a function, or give their own function's place to another.
    Calls,
    /// Those that are one word of a unit of the machine: they compute with floating-point numbers, read and write their control
    /// register, or change memory atomically.
    Float,
}

impl Inst {
    ghost use Rattle.rv_inst.specs.Operands.{family_of};

    pub fn family(&self) -> Family
        ensures { result ≡ family_of self.now }
    {
        match self {
            Inst::Nop0
            | Inst::Nop4
            | Inst::EBreak
            | Inst::SequencePoint
            | Inst::Args { args: _ }
            | Inst::Rets { rets: _ }
            | Inst::DummyUse { reg: _ }
            | Inst::Unwind { inst: _ }
            | Inst::EmitIsland { needed_space: _ }
            | Inst::RawData { bytes: _ } => Family::Pseudo,
            Inst::Lui { .. }
            | Inst::Auipc { .. }
            | Inst::LoadInlineConst { .. }
            | Inst::AluRRR { .. }
            | Inst::AluRRImm12 { .. }
            | Inst::Mov { .. }
            | Inst::MovFromPReg { .. }
            | Inst::Extend { .. }
            | Inst::Select { info: _ } => Family::Integer,
            Inst::Load { .. }
            | Inst::Store { .. }
            | Inst::LoadAddr { .. }
            | Inst::LabelAddress { .. }
            | Inst::StackProbeLoop { .. }
            | Inst::Fence { .. }
            | Inst::AtomicLoad { .. }
            | Inst::AtomicStore { .. } => Family::Memory,
            Inst::Ret
            | Inst::TrapIf { .. }
            | Inst::Jal { label: _ }
            | Inst::CondBr { .. }
            | Inst::BrTable { .. }
            | Inst::Udf { trap_code: _ }
            | Inst::Jalr { .. } => Family::Control,
            Inst::Popcnt { info: _ } | Inst::Cltz { .. } | Inst::Brev8 { info: _ } => Family::Loop,
            Inst::LoadExtNameGot { .. }
            | Inst::LoadExtNameNear { .. }
            | Inst::LoadExtNameFar { .. } => Family::Symbols,
            Inst::Call { info: _ }
            | Inst::CallInd { info: _ }
            | Inst::ReturnCall { info: _ }
            | Inst::ReturnCallInd { info: _ } => Family::Calls,
            Inst::Fli { .. }
            | Inst::FpuRR { .. }
            | Inst::FpuRRR { .. }
            | Inst::FpuRRRR { .. }
            | Inst::CsrReg { .. }
            | Inst::CsrImm { .. }
            | Inst::Atomic { .. } => Family::Float,
        }
    }
}

/// A line of a listing: an instruction, or a label that stands there.
#[derive(Drop)]
pub enum Line {
    Inst(Inst),
    Bind(MachLabel),
}

// A listing has very many of them. Parts that are wider stand on the heap.
const _: () = prove!(size_of::<Line>() <= 48);
