//! The kinds of calls and of ends of a block.

/// How an instruction calls.
#[derive(Clone, Copy, Debug, PartialEq, Eq)]
pub enum CallType {
    /// Not at all.
    None,
    /// A call that returns.
    Regular,
    /// A call that takes the place of its function.
    TailCall,
}

/// How an instruction ends its block.
#[derive(Clone, Copy, Debug, PartialEq, Eq)]
pub enum MachTerminator {
    /// Not at all.
    None,
    /// It goes on elsewhere.
    Branch,
    /// The function returns there.
    Ret,
    /// Another function takes the place of this one.
    RetCall,
}
