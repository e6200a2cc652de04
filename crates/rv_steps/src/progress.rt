//! What is said of a run on its way.

/// Hears now and then how many steps a run has done. Nothing that the run does depends on it.
pub trait Progress {
    fn tick(&mut self, steps: u64);
}

/// Says nothing.
#[derive(Drop)]
pub struct Silent;

impl Progress for Silent {
    fn tick(&mut self, steps: u64) {
        let _ = steps;
    }
}

/// How many steps lie between two ticks.
const BETWEEN: u64 = 4194304;

/// A tick after this many steps, where one is due.
pub(crate) fn note_steps<P: Progress>(progress: &mut P, steps: u64) {
    if 0 < steps && steps % BETWEEN == 0 {
        progress.tick(steps);
    }
}
