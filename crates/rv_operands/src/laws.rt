//! What who proves something of a register allocator, or of an emission after it, can cite: laws of the definitions, each the contract
//! of a function that does nothing.

ghost use Rattle.std.specs.Prelude.{◌≡◌, ◌++◌, map};
ghost use Rattle.rv_base.specs.Regs.{number_of};
ghost use Rattle.rv_inst.specs.declared.inst.Inst.{Inst as Instruction};
ghost use Rattle.rv_inst.specs.Operands.{inst_temporaries};
ghost use Rattle.rv_operands.specs.Operands.{row_of, operands_of, constraints_of};
ghost use Rattle.rv_operands.specs.Meeting.{AreMet, KeepsRules, scratched_in};

/// Registers that are chosen as an instruction asks keep the five rules on registers, each where they are what it speaks of, but for what
/// no choice mends: registers that it names by itself, and lists of different lengths.
pub fn chosen_registers_keep_rules()
    ensures { (inst : Instruction) → AreMet (constraints_of inst) → KeepsRules inst }
{}

/// The temporaries of an instruction, which may hold anything after it, are the operands that are scratched, in order, and then those of
/// its own.
pub fn temporaries_are_scratched()
    ensures { (inst : Instruction) → inst_temporaries inst ≡ map number_of (scratched_in (operands_of inst) ++ scratched_in (row_of inst).own) }
{}
