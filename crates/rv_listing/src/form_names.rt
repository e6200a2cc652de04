//! The forms of lines, by the names that begin them.

ghost use Rattle.std.specs.Prelude.{◌≡◌};
ghost use Rattle.rv_listing.specs.Forms.{form_name, form_named};

use crate::named::{Named, slot_named};

/// The form of a line.
#[derive(Clone, Copy, Debug, PartialEq, Eq)]
pub enum Form {
    Nop0,
    Nop4,
    EBreak,
    SequencePoint,
    DummyUse,
    Unwind,
    EmitIsland,
    Args,
    Rets,
    RawData,
    Lui,
    Auipc,
    LoadInlineConst,
    AluRRR,
    AluRRImm12,
    Mov,
    MovFromPReg,
    Extend,
    Select,
    Load,
    Store,
    LoadAddr,
    LabelAddress,
    Ret,
    TrapIf,
    Jal,
    CondBr,
    BrTable,
    Udf,
    Jalr,
    Loop(LoopForm),
    LoadExtNameGot,
    LoadExtNameNear,
    LoadExtNameFar,
    Call,
    CallInd,
    ReturnCall,
    ReturnCallInd,
    Float(FloatForm),
    Atomic(AtomicForm),
    Bind,
}

/// That of a line that computes by a loop.
#[derive(Clone, Copy, Debug, PartialEq, Eq)]
pub enum LoopForm {
    Popcnt,
    Cltz,
    Brev8,
    StackProbeLoop,
}

/// That of a line that computes with floating-point numbers, or reads and writes their control register.
#[derive(Clone, Copy, Debug, PartialEq, Eq)]
pub enum FloatForm {
    Fli,
    FpuRR,
    FpuRRR,
    FpuRRRR,
    CsrReg,
    CsrImm,
}

/// That of a line that orders what is read and written, or reads and writes memory atomically.
#[derive(Clone, Copy, Debug, PartialEq, Eq)]
pub enum AtomicForm {
    Fence,
    AtomicLoad,
    AtomicStore,
    Atomic,
}

impl Named for Form {
    ghost named = { form_name };

    #[tactic(auto, unfolding(crate::specs::Forms::form_of))]
    fn name(self) -> &'static str {
        match self {
            Self::Nop0 => "Nop0",
            Self::Nop4 => "Nop4",
            Self::EBreak => "EBreak",
            Self::SequencePoint => "SequencePoint",
            Self::DummyUse => "DummyUse",
            Self::Unwind => "Unwind",
            Self::EmitIsland => "EmitIsland",
            Self::Args => "Args",
            Self::Rets => "Rets",
            Self::RawData => "RawData",
            Self::Lui => "Lui",
            Self::Auipc => "Auipc",
            Self::LoadInlineConst => "LoadInlineConst",
            Self::AluRRR => "AluRRR",
            Self::AluRRImm12 => "AluRRImm12",
            Self::Mov => "Mov",
            Self::MovFromPReg => "MovFromPReg",
            Self::Extend => "Extend",
            Self::Select => "Select",
            Self::Load => "Load",
            Self::Store => "Store",
            Self::LoadAddr => "LoadAddr",
            Self::LabelAddress => "LabelAddress",
            Self::Ret => "Ret",
            Self::TrapIf => "TrapIf",
            Self::Jal => "Jal",
            Self::CondBr => "CondBr",
            Self::BrTable => "BrTable",
            Self::Udf => "Udf",
            Self::Jalr => "Jalr",
            Self::Loop(LoopForm::Popcnt) => "Popcnt",
            Self::Loop(LoopForm::Cltz) => "Cltz",
            Self::Loop(LoopForm::Brev8) => "Brev8",
            Self::Loop(LoopForm::StackProbeLoop) => "StackProbeLoop",
            Self::LoadExtNameGot => "LoadExtNameGot",
            Self::LoadExtNameNear => "LoadExtNameNear",
            Self::LoadExtNameFar => "LoadExtNameFar",
            Self::Call => "Call",
            Self::CallInd => "CallInd",
            Self::ReturnCall => "ReturnCall",
            Self::ReturnCallInd => "ReturnCallInd",
            Self::Float(FloatForm::Fli) => "Fli",
            Self::Float(FloatForm::FpuRR) => "FpuRR",
            Self::Float(FloatForm::FpuRRR) => "FpuRRR",
            Self::Float(FloatForm::FpuRRRR) => "FpuRRRR",
            Self::Float(FloatForm::CsrReg) => "CsrReg",
            Self::Float(FloatForm::CsrImm) => "CsrImm",
            Self::Atomic(AtomicForm::Fence) => "Fence",
            Self::Atomic(AtomicForm::AtomicLoad) => "AtomicLoad",
            Self::Atomic(AtomicForm::AtomicStore) => "AtomicStore",
            Self::Atomic(AtomicForm::Atomic) => "Atomic",
            Self::Bind => "Bind",
        }
    }
}

const EVERY_FORM: [Form; 52] = [
    Form::Nop0,
    Form::Nop4,
    Form::EBreak,
    Form::SequencePoint,
    Form::DummyUse,
    Form::Unwind,
    Form::EmitIsland,
    Form::Args,
    Form::Rets,
    Form::RawData,
    Form::Lui,
    Form::Auipc,
    Form::LoadInlineConst,
    Form::AluRRR,
    Form::AluRRImm12,
    Form::Mov,
    Form::MovFromPReg,
    Form::Extend,
    Form::Select,
    Form::Load,
    Form::Store,
    Form::LoadAddr,
    Form::LabelAddress,
    Form::Ret,
    Form::TrapIf,
    Form::Jal,
    Form::CondBr,
    Form::BrTable,
    Form::Udf,
    Form::Jalr,
    Form::Loop(LoopForm::Popcnt),
    Form::Loop(LoopForm::Cltz),
    Form::Loop(LoopForm::Brev8),
    Form::Loop(LoopForm::StackProbeLoop),
    Form::LoadExtNameGot,
    Form::LoadExtNameNear,
    Form::LoadExtNameFar,
    Form::Call,
    Form::CallInd,
    Form::ReturnCall,
    Form::ReturnCallInd,
    Form::Float(FloatForm::Fli),
    Form::Float(FloatForm::FpuRR),
    Form::Float(FloatForm::FpuRRR),
    Form::Float(FloatForm::FpuRRRR),
    Form::Float(FloatForm::CsrReg),
    Form::Float(FloatForm::CsrImm),
    Form::Atomic(AtomicForm::Fence),
    Form::Atomic(AtomicForm::AtomicLoad),
    Form::Atomic(AtomicForm::AtomicStore),
    Form::Atomic(AtomicForm::Atomic),
    Form::Bind,
];

/// The indices in `EVERY_FORM` by the names' slots.
const FORM_SLOTS: [u8; 256] = [
    0, 0, 0, 0, 0, 0, 9, 0, 0, 0, 0, 0, 0, 0, 13, 0, 20, 0, 0, 0, 0, 0, 48, 0, 27, 0, 0, 0, 39, 0,
    0, 0, 0, 0, 0, 0, 0, 0, 0, 0, 30, 0, 0, 7, 23, 0, 0, 0, 0, 0, 0, 0, 0, 0, 0, 0, 0, 0, 0, 0, 0,
    0, 0, 0, 0, 6, 0, 44, 0, 0, 0, 0, 14, 0, 0, 0, 1, 41, 0, 0, 0, 0, 0, 0, 35, 0, 0, 0, 0, 0, 0,
    18, 0, 0, 3, 32, 0, 0, 0, 0, 0, 28, 0, 5, 0, 0, 0, 40, 0, 0, 0, 2, 51, 43, 0, 0, 0, 31, 0, 0,
    0, 0, 25, 0, 0, 17, 0, 34, 0, 36, 0, 0, 0, 0, 47, 29, 0, 0, 0, 0, 0, 0, 0, 37, 0, 0, 0, 0, 0,
    0, 21, 0, 0, 49, 0, 0, 0, 0, 10, 42, 0, 45, 26, 0, 0, 0, 0, 0, 0, 0, 0, 0, 0, 0, 0, 0, 0, 0,
    24, 0, 0, 0, 0, 0, 8, 0, 0, 0, 0, 0, 0, 11, 0, 0, 0, 0, 15, 0, 0, 0, 0, 0, 0, 0, 0, 0, 0, 0, 0,
    0, 0, 0, 0, 0, 0, 0, 50, 0, 0, 46, 0, 4, 38, 0, 0, 0, 0, 0, 0, 22, 0, 0, 0, 0, 0, 0, 0, 19, 0,
    0, 0, 0, 0, 0, 0, 33, 0, 0, 16, 0, 0, 0, 0, 0, 0, 12,
];

const FORM_FACTOR: u64 = 5528388081189798407;

/// The form of the lines that begin with this word.
#[tactic(auto, using(crate::proofs::BySlot::form_by_slot), unfolding(crate::specs::Forms::every_form))]
pub fn form_named(w: &[u8]) -> Option<Form>
    ensures { result ≡ form_named w.now }
{
    slot_named(&EVERY_FORM, &FORM_SLOTS, FORM_FACTOR, w)
}
