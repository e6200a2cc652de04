//! Addresses of loads and stores.

use crate::constant::VCodeConstant;
use crate::fixed_regs::{fp_reg, stack_reg};
use crate::frame::FrameLayout;
use crate::label::MachLabel;
use crate::operands::OperandVisitor;
use crate::out_of_memory::OutOfMemory;
use crate::regs::Reg;
use std::fmt;

/// An address in the frame, as a calling convention names it. Offsets and sizes are in bytes.
#[derive(Clone, Copy, Debug)]
pub enum StackAMode {
    /// An offset into the incoming arguments, and their size.
    IncomingArg(i64, u32),
    /// An offset into the stack slots.
    Slot(i64),
    /// An offset into the outgoing arguments.
    OutgoingArg(i64),
}

/// An address of a load or a store. Offsets are in bytes.
#[derive(Clone, Copy, Debug)]
pub enum AMode {
    /// A register plus an offset.
    RegOffset(Reg, i64),
    /// The stack pointer plus an offset.
    SPOffset(i64),
    /// The frame pointer plus an offset.
    FPOffset(i64),
    /// The start of the stack slots, which lie above the outgoing arguments, plus an offset.
    SlotOffset(i64),
    /// The end of the incoming arguments minus an offset.
    IncomingArg(i64),
    /// A constant of the code.
    Const(VCodeConstant),
    /// A place in the code.
    Label(MachLabel),
}

impl AMode {
    ghost use Rattle.std.specs.Prelude.{◌≡◌, ◌<◌, ◌^◌, ◌++◌, OnOk, OnErr};
    ghost use Rattle.rv_base.specs.Frame.{sp_to_args_end};
    ghost use Rattle.rv_base.specs.AMode.{IsNear, own_offset, own_stack_offset, base_of, offset_of, amode_of, operands_of, registers_of, IsRenamed};

    /// The address of a place in the frame. Its offset is from -2^62 to 2^62.
    pub fn from_stack(mode: StackAMode) -> AMode
        requires { IsNear (own_stack_offset mode) }
        ensures { result ≡ amode_of mode }
    {
        match mode {
            StackAMode::IncomingArg(offset, size) => AMode::IncomingArg(i64::from(size) - offset),
            StackAMode::Slot(offset) => AMode::SlotOffset(offset),
            StackAMode::OutgoingArg(offset) => AMode::SPOffset(offset),
        }
    }

    /// Hands over the register that it reads, and keeps the one that the visitor gives in its place.
    pub fn get_operands<V: OperandVisitor>(&mut self, collector: &mut V) -> Result<(), OutOfMemory>
        ensures ok { OnOk result (V.recorded collector.new ≡ V.recorded collector.old ++ operands_of self.old) }
        ensures given { OnOk result (V.given collector.new ≡ V.given collector.old ++ registers_of self.new) }
        ensures err { OnErr result (V.recorded collector.new ≡ V.recorded collector.old) }
        ensures none_given { OnErr result (V.given collector.new ≡ V.given collector.old) }
        ensures same_place { IsRenamed self.old self.new }
        ensures kept { OnErr result (self.new ≡ self.old) }
    {
        match *self {
            AMode::RegOffset(reg, offset) => {
                let mut reg = reg;
                collector.reg_use(&mut reg)?;
                *self = AMode::RegOffset(reg, offset);
                Ok(())
            }
            AMode::SPOffset(_)
            | AMode::FPOffset(_)
            | AMode::SlotOffset(_)
            | AMode::IncomingArg(_)
            | AMode::Const(_)
            | AMode::Label(_) => Ok(()),
        }
    }

    /// The register that the offset counts from; none for a constant or a label.
    pub fn get_base_register(&self) -> Option<Reg>
        ensures { result ≡ base_of self.now }
    {
        match *self {
            AMode::RegOffset(reg, _) => Some(reg),
            AMode::SPOffset(_) => Some(stack_reg()),
            AMode::FPOffset(_) => Some(fp_reg()),
            AMode::SlotOffset(_) => Some(stack_reg()),
            AMode::IncomingArg(_) => Some(stack_reg()),
            AMode::Const(_) | AMode::Label(_) => None,
        }
    }

    /// The offset from the base register, in bytes; 0 for a constant or a label. The frame's sizes sum to less than 2^31, and
    /// the written offset is from -2^62 to 2^62.
    pub fn get_offset(&self, frame: &FrameLayout) -> i64
        requires frame { sp_to_args_end frame.now < 2 ^ 31 }
        requires near { IsNear (own_offset self.now) }
        ensures { result ≡ offset_of frame.now self.now }
    {
        match *self {
            AMode::RegOffset(_, offset) => offset,
            AMode::SPOffset(offset) => offset,
            AMode::FPOffset(offset) => offset,
            AMode::SlotOffset(offset) => offset + i64::from(frame.outgoing_args_size),
            AMode::IncomingArg(offset) => {
                let above_sp = frame.tail_args_size
                    + frame.setup_area_size
                    + frame.clobber_size
                    + frame.fixed_frame_storage_size
                    + frame.outgoing_args_size;
                i64::from(above_sp) - offset
            }
            AMode::Const(_) | AMode::Label(_) => 0,
        }
    }
}

impl fmt::Display for AMode {
    ghost use Rattle.std.specs.Prelude.{Some};
    ghost use Rattle.rv_base.specs.AMode.{text_of};

    ghost output = { λ mode. Some (text_of mode) };

    fn fmt<W: fmt::Write>(&self, f: &mut fmt::Formatter<W>) -> fmt::Result {
        match *self {
            AMode::RegOffset(reg, offset) => write!(f, "{offset}({reg})"),
            AMode::SPOffset(offset) => write!(f, "{offset}(sp)"),
            AMode::FPOffset(offset) => write!(f, "{offset}(fp)"),
            AMode::SlotOffset(offset) => write!(f, "{offset}(slot)"),
            AMode::IncomingArg(offset) => write!(f, "-{offset}(incoming_arg)"),
            AMode::Const(constant) => {
                let number = constant.number;
                write!(f, "[const({number})]")
            }
            AMode::Label(label) => {
                let number = label.number;
                write!(f, "[label{number}]")
            }
        }
    }
}
