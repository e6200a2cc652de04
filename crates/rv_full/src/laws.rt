//! Laws of the definitions, each the contract of a function that does nothing.

ghost use Rattle.std.specs.Prelude.{◌≡◌, ℕ, List, [], Some};
ghost use Rattle.rv_base.specs.declared.flags.IsaFlags as flags_of;
ghost use Rattle.rv_machine.specs.State.{State};
ghost use Rattle.rv_machine.specs.Steps.{iter};
ghost use Rattle.rv_full.specs.Units.{FullState, IsFullState, put};
ghost use Rattle.rv_full.specs.Steps.{fstep, fiter};
ghost use Rattle.rv_full.specs.Shared.{Shared, Write, AreWrites, IsShared, foreigns, aiter};

/// A run of the integer machine is one of the machine with all units, which changes the integer part alone.
pub fn integer_runs()
    ensures { (flags : flags_of.IsaFlags) (k : ℕ) (t : State) (b : FullState) → iter flags k b.state ≡ Some t → fiter flags k b ≡ Some (put t b) }
{}

/// Where others write nothing, a shared machine runs as the machine alone.
pub fn undisturbed_runs()
    ensures { (flags : flags_of.IsaFlags) (k : ℕ) (b c : FullState) → fiter flags k b ≡ Some c → aiter flags k (record { full = b; later = [] }) ≡ Some (record { full = c; later = [] }) }
{}

/// A step leaves every number of the machine in its range, and so does what others write between its steps, bytes at addresses of 64
/// bits.
pub fn states_stay()
    ensures step { (flags : flags_of.IsaFlags) (b c : FullState) → IsFullState b → fstep flags b ≡ Some c → IsFullState c }
    ensures written { (writes : List Write) (b : FullState) → AreWrites writes → IsFullState b → IsFullState (foreigns writes b) }
    ensures run { (flags : flags_of.IsaFlags) (n : ℕ) (a c : Shared) → IsShared a → aiter flags n a ≡ Some c → IsShared c }
{}
