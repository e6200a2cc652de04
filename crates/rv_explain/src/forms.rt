//! The forms of lines: the words that begin one, and its fields by their names, as the page of the listing has them, and by what their
//! words stand for. One row a form.

/// What a line does with a register.
#[derive(Clone, Copy, Debug, PartialEq, Eq)]
pub(crate) enum Access {
    /// It holds a result, or a temporary.
    Written,
    Read,
}

/// The registers from which a field's is.
#[derive(Clone, Copy, Debug, PartialEq, Eq)]
pub(crate) enum File {
    Integer,
    Float,
    /// As the operation's result is.
    Result,
    /// As the operation's source is.
    Source,
    /// As the load or the store says.
    Accessed,
    /// As the other register of the line.
    Same,
    Any,
    /// The stack pointer or the frame pointer.
    StackOrFrame,
    /// t0 alone.
    T0,
}

/// What the word of a field stands for.
#[derive(Clone, Copy, Debug, PartialEq, Eq)]
pub(crate) enum Kind {
    Register(Access, File),
    /// One register, or two with a comma between them.
    Value(Access),
    Pairs,
    /// The results of a call.
    Results,
    /// Registers of the machine, that a callee may write or a frame saves.
    Registers,
    Alu,
    AluImmediate,
    LoadOperation,
    StoreOperation,
    Float1,
    Float2,
    Float3,
    CsrRegister,
    CsrImmediate,
    AtomicOperation,
    Ordering,
    Comparison,
    Cause,
    /// A cause, or `-`.
    AccessCause,
    Width,
    Rounding,
    Csr,
    Type,
    /// `s` or `u`.
    Signedness,
    /// `1` or `0`.
    Flag,
    Imm12,
    Imm20,
    Imm5,
    Bits,
    Size,
    Number,
    Offset,
    Label,
    /// A label, or `-`.
    Target,
    Table,
    Symbol,
    Address,
    StackMap,
    TryCall,
    Bytes,
    Alignment,
    /// The kind of an `Unwind`, which begins a form of its own.
    Step,
}

/// A field, by its name and by what its word stands for.
#[derive(Clone, Copy, Debug, PartialEq, Eq)]
pub(crate) struct Field(pub &'static str, pub Kind);

/// The words that begin the lines of a form, and its fields.
#[derive(Clone, Copy, Debug)]
pub(crate) struct Form(pub &'static str, pub &'static [Field]);

// ---- fields of several forms

const RD: Field = Field("rd", Kind::Register(Access::Written, File::Integer));

const DST: Field = Field("rd", Kind::Register(Access::Written, File::Same));

const TMP: Field = Field("tmp", Kind::Register(Access::Written, File::Integer));

const TMP1: Field = Field("tmp1", Kind::Register(Access::Written, File::Integer));

const TMP2: Field = Field("tmp2", Kind::Register(Access::Written, File::Integer));

const STEP: Field = Field("step", Kind::Register(Access::Written, File::Integer));

const SUM: Field = Field("sum", Kind::Register(Access::Written, File::Integer));

const RS: Field = Field("rs", Kind::Register(Access::Read, File::Integer));

const RS1: Field = Field("rs1", Kind::Register(Access::Read, File::Integer));

const RS2: Field = Field("rs2", Kind::Register(Access::Read, File::Integer));

const ADDR: Field = Field("addr", Kind::Register(Access::Read, File::Integer));

const BASE: Field = Field("base", Kind::Register(Access::Read, File::Integer));

const RN: Field = Field("rn", Kind::Register(Access::Read, File::Integer));

const RM: Field = Field("rm", Kind::Register(Access::Read, File::Same));

const ANY: Field = Field("R", Kind::Register(Access::Read, File::Any));

const FD: Field = Field("rd", Kind::Register(Access::Written, File::Float));

const FS1: Field = Field("rs1", Kind::Register(Access::Read, File::Float));

const FS2: Field = Field("rs2", Kind::Register(Access::Read, File::Float));

const FS3: Field = Field("rs3", Kind::Register(Access::Read, File::Float));

const TO: Field = Field("rd", Kind::Register(Access::Written, File::Result));

const FROM: Field = Field("rs", Kind::Register(Access::Read, File::Source));

const LOADED: Field = Field("rd", Kind::Register(Access::Written, File::Accessed));

const STORED: Field = Field("rs", Kind::Register(Access::Read, File::Accessed));

const OF_FRAME: Field = Field("rm", Kind::Register(Access::Read, File::StackOrFrame));

const T0: Field = Field("t0", Kind::Register(Access::Read, File::T0));

const V: Field = Field("V", Kind::Value(Access::Written));

const X: Field = Field("X", Kind::Value(Access::Read));

const Y: Field = Field("Y", Kind::Value(Access::Read));

const COMPARISON: Field = Field("CC", Kind::Comparison);

const CAUSE: Field = Field("CAUSE", Kind::Cause);

const ACCESS: Field = Field("CAUSE", Kind::AccessCause);

const ADDRESS: Field = Field("ADDRESS", Kind::Address);

const LABEL: Field = Field("L", Kind::Label);

const TARGET: Field = Field("L", Kind::Target);

const NAME: Field = Field("NAME", Kind::Symbol);

const TYPE: Field = Field("TYPE", Kind::Type);

const WIDTH: Field = Field("WIDTH", Kind::Width);

const FRM: Field = Field("FRM", Kind::Rounding);

const CSR: Field = Field("frm", Kind::Csr);

const IMM12: Field = Field("N", Kind::Imm12);

const IMM20: Field = Field("N", Kind::Imm20);

const IMM5: Field = Field("N", Kind::Imm5);

const SIZE: Field = Field("N", Kind::Size);

const NUMBER: Field = Field("N", Kind::Number);

const OFFSET: Field = Field("N", Kind::Offset);

const HEX: Field = Field("HEX", Kind::Bytes);

const PAIRS: Field = Field("PAIRS", Kind::Pairs);

const ARGUMENTS: Field = Field("V:P..", Kind::Pairs);

const RESULTS: Field = Field("RESULTS", Kind::Results);

const REGS: Field = Field("REGS", Kind::Registers);

const FLAG: Field = Field("B", Kind::Flag);

const MAP: Field = Field("MAP", Kind::StackMap);

const TRY: Field = Field("TRY", Kind::TryCall);

/// The headers but that of the flags, which takes any number of names.
const HEADERS: [Form; 2] = [
    Form(
        "frame",
        &[
            Field("TAIL", Kind::Size),
            Field("SETUP", Kind::Size),
            Field("CLOBBER", Kind::Size),
            Field("FIXED", Kind::Size),
            Field("SLOTS", Kind::Size),
            Field("OUTGOING", Kind::Size),
            REGS,
        ],
    ),
    Form("const", &[Field("ALIGN", Kind::Alignment), HEX]),
];

/// The lines of a listing, in the order of its page.
const FORMS: [Form; 56] = [
    Form("Bind", &[LABEL]),
    Form("AluRRR", &[Field("OP", Kind::Alu), RD, RS1, RS2]),
    Form(
        "AluRRImm12",
        &[Field("OP", Kind::AluImmediate), RD, RS, IMM12],
    ),
    Form("Fli", &[WIDTH, IMM5, FD]),
    Form("FpuRR", &[Field("OP", Kind::Float1), WIDTH, FRM, TO, FROM]),
    Form(
        "FpuRRR",
        &[Field("OP", Kind::Float2), WIDTH, FRM, TO, FS1, FS2],
    ),
    Form(
        "FpuRRRR",
        &[Field("OP", Kind::Float3), WIDTH, FRM, FD, FS1, FS2, FS3],
    ),
    Form("CsrReg", &[Field("OP", Kind::CsrRegister), RD, RS, CSR]),
    Form("CsrImm", &[Field("OP", Kind::CsrImmediate), RD, CSR, IMM5]),
    Form("Lui", &[RD, IMM20]),
    Form("Auipc", &[RD, IMM20]),
    Form("Mov", &[DST, RM, TYPE]),
    Form("MovFromPReg", &[RD, OF_FRAME]),
    Form(
        "Extend",
        &[
            RD,
            RN,
            Field("S", Kind::Signedness),
            Field("FROM", Kind::Bits),
            Field("TO", Kind::Bits),
        ],
    ),
    Form("Select", &[V, COMPARISON, RS1, RS2, X, Y]),
    Form("CondBr", &[COMPARISON, RS1, RS2, TARGET, TARGET]),
    Form("BrTable", &[RS, TMP1, TMP2, Field("L,L..", Kind::Table)]),
    Form("Jal", &[LABEL]),
    Form("Jalr", &[RD, BASE, IMM12]),
    Form("Ret", &[]),
    Form("Call", &[NAME, PAIRS, RESULTS, REGS, SIZE, FLAG, MAP, TRY]),
    Form("CallInd", &[RS, PAIRS, RESULTS, REGS, SIZE, FLAG, MAP, TRY]),
    Form("ReturnCall", &[NAME, PAIRS, SIZE]),
    Form("ReturnCallInd", &[T0, PAIRS, SIZE]),
    Form("LoadInlineConst", &[RD, TYPE, NUMBER]),
    Form(
        "Load",
        &[LOADED, Field("OP", Kind::LoadOperation), ACCESS, ADDRESS],
    ),
    Form(
        "Store",
        &[ADDRESS, Field("OP", Kind::StoreOperation), ACCESS, STORED],
    ),
    Form("LoadAddr", &[RD, ADDRESS]),
    Form("LabelAddress", &[RD, LABEL]),
    Form("LoadExtNameNear", &[RD, NAME, OFFSET]),
    Form("LoadExtNameFar", &[RD, NAME, OFFSET]),
    Form("LoadExtNameGot", &[RD, NAME]),
    Form("Popcnt", &[SUM, TMP, STEP, RS, TYPE]),
    Form("Cltz", &[SUM, TMP, STEP, RS, FLAG, TYPE]),
    Form("Brev8", &[RS, TYPE, STEP, TMP, TMP2, RD]),
    Form("StackProbeLoop", &[Field("G", Kind::Size), SIZE, TMP]),
    Form(
        "Fence",
        &[Field("BEFORE", Kind::Bits), Field("AFTER", Kind::Bits)],
    ),
    Form("AtomicLoad", &[RD, TYPE, ADDR]),
    Form("AtomicStore", &[RS, TYPE, ADDR]),
    Form(
        "Atomic",
        &[
            Field("OP", Kind::AtomicOperation),
            RD,
            ADDR,
            RS,
            Field("ORDER", Kind::Ordering),
        ],
    ),
    Form("TrapIf", &[COMPARISON, RS1, RS2, CAUSE]),
    Form("Udf", &[CAUSE]),
    Form("RawData", &[HEX]),
    Form("Nop0", &[]),
    Form("Nop4", &[]),
    Form("EBreak", &[]),
    Form("SequencePoint", &[]),
    Form("Args", &[ARGUMENTS]),
    Form("Rets", &[ARGUMENTS]),
    Form("DummyUse", &[ANY]),
    Form("Unwind push", &[SIZE]),
    Form("Unwind frame", &[SIZE, SIZE]),
    Form("Unwind alloc", &[SIZE]),
    Form("Unwind save", &[SIZE, ANY]),
    Form("Unwind", &[Field("STEP", Kind::Step)]),
    Form("EmitIsland", &[SIZE]),
];

/// Returns whether these words begin a line: its name, and the kind of an `Unwind`.
fn begin(words: &str, line: &str) -> bool {
    match line.strip_prefix(words) {
        Some(rest) => rest.is_empty() || rest.starts_with(' '),
        None => false,
    }
}

/// The form of a line, by the words that begin it.
pub(crate) fn form_of(line: &str) -> Option<Form> {
    let header = HEADERS.iter().copied().find(|form| begin(form.0, line));
    match header {
        Some(header) => Some(header),
        None => FORMS.iter().copied().find(|form| begin(form.0, line)),
    }
}

/// Returns whether a word begins lines of a form, or is the name of a header.
pub(crate) fn is_name(word: &str) -> bool {
    word == "flags" || form_of(word).is_some()
}

/// The name of a form or a header that a word is but for the case of letters.
pub(crate) fn name_in_case(word: &str) -> Option<&'static str> {
    let named = FORMS
        .iter()
        .chain(HEADERS.iter())
        .find(|form| form.0.eq_ignore_ascii_case(word));
    match named {
        Some(form) => Some(form.0),
        None if word.eq_ignore_ascii_case("flags") => Some("flags"),
        None => None,
    }
}

/// The words after those that begin a line of a form.
pub(crate) fn fields_after(form: Form, line: &str) -> &str {
    let rest = line.strip_prefix(form.0).unwrap_or("");
    rest.strip_prefix(' ').unwrap_or("")
}
