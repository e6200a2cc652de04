//! Laws of the definitions, each the contract of a function that does nothing.

ghost use Rattle.std.specs.Prelude.{◌≡◌, ℕ, None};
ghost use Rattle.rv_base.specs.declared.flags.IsaFlags as flags_of;
ghost use Rattle.rv_machine.specs.Decode.{decode};
ghost use Rattle.rv_machine.specs.State.{State, Memory};
ghost use Rattle.rv_machine.specs.Steps.{fetch, istep, step_of_all, IsZeroHalf};

/// The units' operations have no step on the integer machine: over the operations of all units its step is the same.
pub fn steps_of_all_units()
    ensures { (flags : flags_of.IsaFlags) (s : State) → istep flags s ≡ step_of_all flags s }
{}

/// Where the halfword 0 stands, no operation is read, not one of a unit either.
pub fn zero_is_no_operation()
    ensures { (flags : flags_of.IsaFlags) (mem : Memory) (pc : ℕ) → IsZeroHalf mem pc → decode flags (fetch mem pc) ≡ None }
{}
