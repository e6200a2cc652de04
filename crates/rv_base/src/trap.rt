//! The causes of traps.

ghost use Rattle.std.specs.Prelude.{◌≡◌, ◌<◌, ◌≤◌, ◌⊎◌, Some, MatchOption};

use std::fmt;

/// The cause of a trap.
#[derive(Clone, Copy, Debug, PartialEq, Eq)]
pub enum TrapCode {
    /// The stack has no room.
    StackOverflow,
    /// An access outside the heap.
    HeapOutOfBounds,
    /// A signed sum, difference or quotient that doesn't fit.
    IntegerOverflow,
    /// A division by zero.
    IntegerDivisionByZero,
    /// A floating-point number that is no integer of the type asked for.
    BadConversionToInteger,
    /// A cause of the user's.
    User(UserTrap),
}

/// A cause that the user numbers, from 1 to 250.
#[derive(Clone, Copy, Debug, PartialEq, Eq)]
pub struct UserTrap {
    number: u8,
    ghost low: { 1 ≤ number },
    ghost high: { number ≤ 250 },
}

impl TrapCode {
    ghost use Rattle.std.specs.Prelude.{◌≡◌, ◌<◌, ◌⊎◌, MatchOption};
    ghost use Rattle.rv_base.specs.Trap.{IsUserOf};

    pub const STACK_OVERFLOW: TrapCode = TrapCode::StackOverflow;

    pub const HEAP_OUT_OF_BOUNDS: TrapCode = TrapCode::HeapOutOfBounds;

    pub const INTEGER_OVERFLOW: TrapCode = TrapCode::IntegerOverflow;

    pub const INTEGER_DIVISION_BY_ZERO: TrapCode = TrapCode::IntegerDivisionByZero;

    pub const BAD_CONVERSION_TO_INTEGER: TrapCode = TrapCode::BadConversionToInteger;

    /// The user's cause of this number; none for 0 and above 250.
    pub fn user(number: u8) -> Option<TrapCode>
        ensures { MatchOption result ((number ≡ 0) ⊎ (250 < number)) (IsUserOf number) }
    {
        if number == 0 || number > 250 {
            None
        } else {
            Some(TrapCode::User(UserTrap { number }))
        }
    }
}

impl fmt::Display for TrapCode {
    ghost use Rattle.std.specs.Prelude.{Some};
    ghost use Rattle.rv_base.specs.Trap.{name_of};

    ghost output = { λ code. Some (name_of code) };

    fn fmt<W: fmt::Write>(&self, f: &mut fmt::Formatter<W>) -> fmt::Result {
        match self {
            TrapCode::StackOverflow => f.write_str("stk_ovf"),
            TrapCode::HeapOutOfBounds => f.write_str("heap_oob"),
            TrapCode::IntegerOverflow => f.write_str("int_ovf"),
            TrapCode::IntegerDivisionByZero => f.write_str("int_divz"),
            TrapCode::BadConversionToInteger => f.write_str("bad_toint"),
            TrapCode::User(trap) => {
                let number = trap.number;
                write!(f, "user{number}")
            }
        }
    }
}

// Each constant is the cause of its name.
fn constants_hold() {
    prove!(matches!(&TrapCode::STACK_OVERFLOW, TrapCode::StackOverflow));
    prove!(matches!(&TrapCode::HEAP_OUT_OF_BOUNDS, TrapCode::HeapOutOfBounds));
    prove!(matches!(&TrapCode::INTEGER_OVERFLOW, TrapCode::IntegerOverflow));
    prove!(matches!(
        &TrapCode::INTEGER_DIVISION_BY_ZERO,
        TrapCode::IntegerDivisionByZero
    ));
    prove!(matches!(
        &TrapCode::BAD_CONVERSION_TO_INTEGER,
        TrapCode::BadConversionToInteger
    ));
}
