//! What this crate proves: laws of the definitions, each the contract of a function that does nothing.

ghost use Rattle.rv_runs.specs.Laws.{CallsResume, PartsRun};

/// Wherever the parts of an instruction of the integer core stand in finished code they run as it means.
pub fn parts_run()
    ensures { PartsRun }
{}

/// And what is left of a call, from where its callee returns to.
pub fn calls_resume()
    ensures { CallsResume }
{}
