//! The base layer: registers, types, addresses, labels, conditions, flags, frames, constants and operands.
#![tactic(auto)]

mod amode;
mod call;
mod class_regs;
mod codegen_error;
mod condcodes;
mod constant;
mod constraint;
mod external_name;
mod fixed_regs;
mod flags;
mod frame;
mod ir_type;
mod label;
mod label_use;
mod list;
mod mem_flags;
mod operand_list;
mod operands;
mod out_of_memory;
mod preg_set;
mod reg_names;
mod regs;
mod reloc;
mod trap;
mod unwind;
mod value_regs;

pub use amode::{AMode, StackAMode};
pub use call::{
    ArgPair, CallArgPair, CallInfo, CallRetPair, RetLocation, RetPair, ReturnCallInfo,
    TryCallHandler, TryCallInfo, UserStackMap,
};
pub use class_regs::{FReg, VReg, WritableFReg, WritableVReg, WritableXReg, XReg};
pub use codegen_error::CodegenError;
pub use condcodes::IntCC;
pub use constant::{ConstAlign, Constant, VCodeConstant};
pub use constraint::Constraint;
pub use external_name::ExternalName;
pub use fixed_regs::{
    a0, a1, a2, f_reg, fa1, fp_reg, link_reg, pf_reg, pv_reg, px_reg, spilltmp_reg, spilltmp_reg2,
    stack_reg, v_reg, writable_a0, writable_a2, writable_fa1, writable_fp_reg, writable_link_reg,
    writable_spilltmp_reg, writable_spilltmp_reg2, writable_stack_reg, writable_zero_reg, x_reg,
    zero_reg,
};
pub use flags::IsaFlags;
pub use frame::FrameLayout;
pub use ir_type::{IrType, LaneType, VectorType};
pub use label::MachLabel;
pub use label_use::MachInstLabelUse;
pub use list::List;
pub use mem_flags::MemFlagsData;
pub use operand_list::OperandList;
pub use operands::OperandVisitor;
pub use out_of_memory::OutOfMemory;
pub use preg_set::PRegSet;
pub use reg_names::{float_reg_name, int_reg_name, reg_name};
pub use regs::{PReg, Reg, RegClass, VirtualIndex, Writable, WritableReg};
pub use reloc::{Reloc, RelocTarget};
pub use trap::{TrapCode, UserTrap};
pub use unwind::UnwindInst;
pub use value_regs::ValueRegs;
