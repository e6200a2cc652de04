//! Uses of labels.

use rv_base::MachLabel;

/// A use of a label: a window of code that is to hold the distance to it. Offsets are in bytes from the code's start.
#[derive(Clone, Copy)]
pub struct Use<L> {
    pub offset: u32,
    pub label: MachLabel,
    pub kind: L,
    /// Where its veneer stands, once it has one.
    pub veneer: Option<u32>,
}

/// The order in which veneers are put: by deadline, then by place, then as recorded.
#[derive(Clone, Copy, Debug, PartialEq, Eq, PartialOrd, Ord)]
pub struct PendingKey {
    pub deadline: u64,
    pub offset: u32,
    pub index: usize,
}

/// Where a label stands.
#[derive(Clone, Copy, Debug, PartialEq, Eq)]
pub struct LabelPlace {
    pub label: MachLabel,
    pub offset: u32,
}
