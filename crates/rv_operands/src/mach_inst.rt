//! What a back end asks of an instruction.

ghost use Rattle.std.specs.Prelude.{◌≡◌, ◌==◌, [], ◌∷◌, ◌++◌, Some, None, not, if◌then◌else◌, OnOk, OnErr, IfOk, IfErr};
ghost use Rattle.rv_inst.specs.declared.inst.Inst.TheVariants.{Nop0, Nop4, DummyUse, Jal, Mov};
ghost use Rattle.rv_base.specs.Operands.{registers_of};
ghost use Rattle.rv_operands.specs.Operands.{constraints_of};
ghost use Rattle.rv_operands.specs.RegClasses.{Holding, holding_of};
ghost use Rattle.rv_operands.specs.Roles.{is_regular, end_by, roles_of};
ghost use Rattle.rv_operands.specs.Shapes.{shape_of};
ghost use Rattle.rv_operands.specs.Visits.{IsStopped};
ghost use Rattle.rv_inst.specs.Generators.{canonical_type};
ghost use Rattle.rv_inst.specs.Operands.{family_of};
ghost use Rattle.rv_inst.specs.declared.inst.Family.TheVariants.{Pseudo, Control, Calls};

use crate::get_operands::handed_over;
use crate::kinds::{CallType, MachTerminator};
use crate::reg_classes::{RegClasses, RegTypes, holding};
use rv_base::{
    CodegenError, IrType, MachLabel, OperandVisitor, OutOfMemory, Reg, RegClass, TryCallInfo,
    WritableReg,
};
use rv_inst::{Family, Inst};
use std::alloc::Global;
use std::mem;

/// An instruction, as a back end's parts that know no machine see it.
pub trait MachInst {
    ghost use Rattle.std.specs.Prelude.{◌≡◌, ◌≤◌, ◌⊎◌, ◌++◌, List, Some, not, OnOk, OnErr};
    ghost use Rattle.rv_base.specs.declared.constraint.Constraint.{Constraint as Request};
    ghost use Rattle.rv_base.specs.Operands.{registers_of};
    ghost use Rattle.rv_operands.specs.Roles.{Roles, is_regular};
    ghost use Rattle.rv_operands.specs.Visits.{IsStopped};

    /// The move, the call or the end of a block that it is.
    ghost roles: { Self → Roles };

    /// What it asks of a register allocator, in order.
    ghost constraints: { Self → List Request };

    /// All of it but the registers that it asks for, of which only the class stays.
    ghost shape: { Self → Self };

    /// Hands over each register that it asks for, and keeps the one that the visitor gives in its place. Out of memory, the first
    /// registers have been handed over, and the others are as they were.
    fn get_operands<V: OperandVisitor>(&mut self, collector: &mut V) -> Result<(), OutOfMemory>
        ensures ok { OnOk result (V.recorded collector.new ≡ V.recorded collector.old ++ constraints self.old) }
        ensures given { OnOk result (V.given collector.new ≡ V.given collector.old ++ registers_of (constraints self.new)) }
        ensures err { OnErr result (IsStopped V.recorded V.given collector.old collector.new (constraints self.old) (constraints self.new)) }
        ensures same { shape self.new ≡ shape self.old };

    /// The register that it writes and the one that it copies, where it is a move.
    fn is_move(&self) -> Option<(WritableReg, Reg)>
        ensures { result ≡ (roles self.now).moved };

    /// Returns whether a collector may run there.
    fn is_safepoint(&self) -> bool
        ensures { result ≡ is_regular (roles self.now).call };

    /// Returns whether it traps, whatever registers hold.
    fn is_trap(&self) -> bool
        ensures { result ≡ (roles self.now).traps };

    /// Returns whether it stands for the function's arguments.
    fn is_args(&self) -> bool
        ensures { result ≡ (roles self.now).arguments };

    /// Returns whether what it writes counts among the registers that the function overwrites.
    fn is_included_in_clobbers(&self) -> bool
        ensures { result ≡ not (roles self.now).arguments };

    /// How it calls.
    fn call_type(&self) -> CallType
        ensures { result ≡ (roles self.now).call };

    /// How it ends its block.
    fn is_term(&self) -> MachTerminator
        ensures { result ≡ (roles self.now).ends };

    /// Four bytes that trap.
    const TRAP_OPCODE: [u8; 4];

    /// One that reads a register and does nothing.
    fn gen_dummy_use(reg: Reg) -> Self;

    /// A move of a value of a type.
    fn gen_move(to_reg: WritableReg, from_reg: Reg, ty: IrType) -> Self
        ensures { (roles result).moved ≡ Some (to_reg, from_reg) };

    /// One that goes to a label.
    fn gen_jump(target: MachLabel) -> Self
        ensures { (roles result).ends ≡ MachTerminator.Branch };

    /// One that does nothing, in at most so many bytes: none, or four or more.
    fn gen_nop(preferred_size: usize) -> Self
        requires { (preferred_size ≡ 0) ⊎ (4 ≤ preferred_size) };

    /// The bytes of each length of one that does nothing.
    fn gen_nop_units() -> [[u8; 4]; 1];

    /// The classes of the registers that hold a value of a type, and the type of the part that each holds: one register, or two of an
    /// integer or a floating-point number of 128 bits. Refuses exactly vectors of more than 64 bytes. Takes no memory.
    fn rc_for_type(alloc: Global, ty: IrType) -> Result<(RegClasses, RegTypes), CodegenError>;

    /// The type of whole registers of a class.
    fn canonical_type_for_rc(rc: RegClass) -> IrType;

    /// How many bytes an instruction has at most, but for tables, calls and islands.
    fn worst_case_size() -> u32;

    /// By how many bytes an instruction may let the next island grow at most.
    fn worst_case_island_growth() -> u32;

    /// The alignment of a function's first instruction in bytes: at least, and where there is a choice.
    fn function_alignment() -> (u32, u32);
}

/// How a pseudo-instruction ends its block.
fn pseudo_end(inst: &Inst) -> MachTerminator
    ensures { family_of inst.now ≡ Pseudo → result ≡ (roles_of inst.now).ends }
{
    match inst {
        Inst::Rets { rets: _ } => MachTerminator::Ret,
        _ => MachTerminator::None,
    }
}

/// How an instruction that goes elsewhere ends its block.
fn control_end(inst: &Inst) -> MachTerminator
    ensures { family_of inst.now ≡ Control → result ≡ (roles_of inst.now).ends }
{
    match inst {
        Inst::Jal { label: _ } | Inst::CondBr { .. } | Inst::BrTable { .. } | Inst::Jalr { .. } => {
            MachTerminator::Branch
        }
        _ => MachTerminator::None,
    }
}

/// How a call ends its block, by where it goes on.
fn end_by(info: &Option<TryCallInfo>) -> MachTerminator
    ensures { result ≡ end_by info.now }
{
    match info {
        Some(_) => MachTerminator::Branch,
        None => MachTerminator::None,
    }
}

/// How a call ends its block.
fn call_end(inst: &Inst) -> MachTerminator
    ensures { family_of inst.now ≡ Calls → result ≡ (roles_of inst.now).ends }
{
    match inst {
        Inst::Call { info } => end_by(&info.as_ref().try_call_info),
        Inst::CallInd { info } => end_by(&info.as_ref().try_call_info),
        _ => MachTerminator::RetCall,
    }
}

impl MachInst for Inst {
    ghost roles = { roles_of };

    ghost constraints = { constraints_of };

    ghost shape = { shape_of };

    fn get_operands<V: OperandVisitor>(&mut self, collector: &mut V) -> Result<(), OutOfMemory>
        ensures ok { OnOk result (V.recorded collector.new ≡ V.recorded collector.old ++ constraints_of self.old) }
        ensures given { OnOk result (V.given collector.new ≡ V.given collector.old ++ registers_of (constraints_of self.new)) }
        ensures err { OnErr result (IsStopped V.recorded V.given collector.old collector.new (constraints_of self.old) (constraints_of self.new)) }
        ensures same { shape_of self.new ≡ shape_of self.old }
    {
        let (inst, handed) = handed_over(mem::replace(self, Inst::Nop0), collector);
        *self = inst;
        handed
    }

    fn is_move(&self) -> Option<(WritableReg, Reg)>
        ensures { result ≡ (roles_of self.now).moved }
    {
        match self {
            Inst::Mov { rd, rm, ty: _ } => Some((*rd, *rm)),
            _ => None,
        }
    }

    fn is_safepoint(&self) -> bool
        ensures { result ≡ is_regular (roles_of self.now).call }
    {
        self.call_type() == CallType::Regular
    }

    fn is_trap(&self) -> bool
        ensures { result ≡ (roles_of self.now).traps }
    {
        matches!(self, Inst::Udf { trap_code: _ })
    }

    fn is_args(&self) -> bool
        ensures { result ≡ (roles_of self.now).arguments }
    {
        matches!(self, Inst::Args { args: _ })
    }

    fn is_included_in_clobbers(&self) -> bool
        ensures { result ≡ not (roles_of self.now).arguments }
    {
        !self.is_args()
    }

    fn call_type(&self) -> CallType
        ensures { result ≡ (roles_of self.now).call }
    {
        match self {
            Inst::Call { info: _ } | Inst::CallInd { info: _ } => CallType::Regular,
            Inst::ReturnCall { info: _ } | Inst::ReturnCallInd { info: _ } => CallType::TailCall,
            _ => CallType::None,
        }
    }

    fn is_term(&self) -> MachTerminator
        ensures { result ≡ (roles_of self.now).ends }
    {
        match self.family() {
            Family::Pseudo => pseudo_end(self),
            Family::Control => control_end(self),
            Family::Calls => call_end(self),
            Family::Integer | Family::Memory | Family::Loop | Family::Symbols | Family::Float =>
                MachTerminator::None,
        }
    }

    const TRAP_OPCODE: [u8; 4] = [0; 4];

    fn gen_dummy_use(reg: Reg) -> Inst
        ensures { result ≡ DummyUse reg }
    {
        Inst::DummyUse { reg }
    }

    fn gen_move(to_reg: WritableReg, from_reg: Reg, ty: IrType) -> Inst
        ensures { result ≡ Mov to_reg from_reg ty }
    {
        Inst::Mov {
            rd: to_reg,
            rm: from_reg,
            ty,
        }
    }

    fn gen_jump(target: MachLabel) -> Inst
        ensures { result ≡ Jal target }
    {
        Inst::Jal { label: target }
    }

    fn gen_nop(preferred_size: usize) -> Inst
        ensures { result ≡ (if preferred_size == 0 then Nop0 else Nop4) }
    {
        if preferred_size == 0 {
            Inst::Nop0
        } else {
            Inst::Nop4
        }
    }

    /// The word of `addi x0, x0, 0`, the lowest byte first.
    fn gen_nop_units() -> [[u8; 4]; 1]
        ensures { result ≡ (0x13 ∷ 0 ∷ 0 ∷ 0 ∷ []) ∷ [] }
    {
        [[0x13, 0, 0, 0]]
    }

    fn rc_for_type(alloc: Global, ty: IrType) -> Result<(RegClasses, RegTypes), CodegenError>
        ensures ok { IfOk result (λ found. holding_of ty ≡ Some (record { classes = found.0.items; types = found.1.items })) }
        ensures refused { IfErr result (λ cause. (cause ≡ CodegenError.Unsupported) × (holding_of ty ≡ None)) }
    {
        holding(alloc, ty)
    }

    fn canonical_type_for_rc(rc: RegClass) -> IrType
        ensures { result ≡ canonical_type rc }
    {
        Inst::canonical_type_for_rc(rc)
    }

    fn worst_case_size() -> u32
        ensures { result ≡ 84 }
    {
        84
    }

    fn worst_case_island_growth() -> u32
        ensures { result ≡ 128 }
    {
        128
    }

    fn function_alignment() -> (u32, u32)
        ensures { result ≡ (2, 4) }
    {
        (2, 4)
    }
}
