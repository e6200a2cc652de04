//! What is known of a load or a store.

ghost use Rattle.std.specs.Prelude.{◌≡◌};

use crate::trap::TrapCode;

/// The cause of the trap that an access may take, if any.
#[derive(Clone, Copy, Debug, PartialEq, Eq)]
pub struct MemFlagsData {
    trap: Option<TrapCode>,
}

impl MemFlagsData {
    /// An access with no trap code.
    pub fn new() -> MemFlagsData
        ensures { result.trap ≡ None }
    {
        MemFlagsData { trap: None }
    }

    /// An access that is known not to trap.
    pub fn trusted() -> MemFlagsData
        ensures { result.trap ≡ None }
    {
        MemFlagsData { trap: None }
    }

    /// An access that may trap with this code.
    pub fn with_trap(code: TrapCode) -> MemFlagsData
        ensures { result.trap ≡ Some code }
    {
        MemFlagsData { trap: Some(code) }
    }

    pub fn trap_code(self) -> Option<TrapCode>
        ensures { result ≡ self.trap }
    {
        self.trap
    }
}
