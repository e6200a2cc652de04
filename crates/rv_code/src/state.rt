//! What emission knows of the vector unit's setting.

use rv_vector::VState;

/// What is known of the vector unit's setting.
#[derive(Clone, Debug, PartialEq, Default, Drop)]
pub enum EmitVState {
    /// Nothing, as where a new basic block begins.
    #[default]
    Unknown,
    /// It is this one.
    Known(VState),
}
