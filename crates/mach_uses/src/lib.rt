//! Uses of labels: where labels stand, how far uses reach, and the queues of those that still need a veneer.
#![tactic(auto)]

mod labels;
mod pending;
mod reach;
mod uses;

pub use labels::{INNER_COUNT, Labels, constant_label};
pub use pending::Pending;
pub use reach::{ISLAND_MARGIN, deadline};
pub use uses::{LabelPlace, PendingKey, Use};
