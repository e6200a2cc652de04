//! A machine with floating-point and vector registers, reservations, and answers for what its units compute: the integer
//! machine, and a row for each further operation of the unprivileged RISC-V manual.
#![tactic(auto)]

mod acts;
mod answer;
mod answer_ranges;
mod carry;
mod laws;
mod machine;
mod shapes;
mod taking;
mod units;
mod vector_acts;

pub use answer::{Answer, Entry};
pub use laws::{integer_runs, states_stay, undisturbed_runs};
pub use machine::{FullMachine, FullStep};
pub use shapes::{FloatShape, Sources, Target, VectorShape, float_shape, vector_shape};
pub use units::{Reservation, Setting};
