//! What this crate proves: laws of the definitions, each the contract of a function that does nothing.

ghost use Rattle.rv_loops.specs.AtomicRuns.{AtomicLoopsAlone, AtomicLoopsRun};
ghost use Rattle.rv_loops.specs.Laws.{AreAtomicWords, LoopsAlone, LoopsRun, StillRuns};
ghost use Rattle.rv_loops.specs.Passes.{PassesEnd};

/// What an evaluation gives of pieces on registers alone is what the machine comes to, whatever others write between its steps.
pub fn still_runs()
    ensures { StillRuns }
{}

/// An atomic loop ends with one change, with none, or asking, for every list of answers and whatever others write meanwhile.
pub fn loops_run()
    ensures { LoopsRun }
{}

/// Where no one else writes, its passes that failed are a run of the machine alone, and each was told to fail.
pub fn loops_alone()
    ensures { LoopsAlone }
{}

/// The load and the store of such a loop are each one word of the machine.
pub fn atomic_words()
    ensures { AreAtomicWords }
{}

/// From its load a pass of an atomic loop comes to its store with the changed number, or it leaves, in at most 17 pieces.
pub fn passes_end()
    ensures { PassesEnd }
{}

/// An atomic loop of a listing ends with one change of its field, with one read of it, or asking, whatever others write meanwhile.
pub fn atomic_loops_run()
    ensures { AtomicLoopsRun }
{}

/// Where no one else writes, so does the machine alone, in at most 20 steps for each answer that it takes and 20 more.
pub fn atomic_loops_alone()
    ensures { AtomicLoopsAlone }
{}
