//! What who proves something of a listing's code can cite: laws of the definitions, each the contract of a function that does nothing.

ghost use Rattle.rv_asm.specs.LineRuns.{EntryIsFirstLine, LinesRun, NothingRuns, RunsCompose};
ghost use Rattle.rv_asm.specs.FineLines.{FineLinesAccepted, OnlyMemoryLeft, SilentLinesUnrecorded, StackLoadsFine, StackStoresFine};
ghost use Rattle.rv_asm.specs.ShortSpans.{SpansAreShort};
ghost use Rattle.rv_asm.specs.StoredNumbers.{StoredIsLoaded, SameAreLoadedAlike, ElsewhereUnchanged};

/// Who enters placed code at its base stands at its first line.
#[tactic(auto, using(crate::proofs::Laws::entry_is_first_line))]
pub fn entry_is_first_line()
    ensures { EntryIsFirstLine }
{}

/// From its start, where it writes none of the code, a line runs: the machine comes where that line leads, with the values that it makes,
/// and the code still stands placed.
#[tactic(auto, using(crate::proofs::Laws::lines_run))]
pub fn lines_run()
    ensures { LinesRun }
{}

/// A run of no steps is one.
#[tactic(auto, using(crate::proofs::Laws::nothing_runs))]
pub fn nothing_runs()
    ensures { NothingRuns }
{}

/// A run, and one from where it ends, are one run.
#[tactic(auto, using(crate::proofs::Laws::runs_compose))]
pub fn runs_compose()
    ensures { RunsCompose }
{}

/// A job of lines that keep the rules and have no labels is refused for no cause, up to some eight million lines.
#[tactic(auto, using(crate::proofs::Laws::fine_lines_accepted))]
pub fn fine_lines_accepted()
    ensures { FineLinesAccepted }
{}

/// A job that is refused for no cause has no error but out of memory.
#[tactic(auto, using(crate::proofs::Laws::only_memory_left))]
pub fn only_memory_left()
    ensures { OnlyMemoryLeft }
{}

/// The code of lines that record nothing has no record: nothing is left to a linker.
pub fn silent_lines_unrecorded()
    ensures { SilentLinesUnrecorded }
{}

/// Loads of eight bytes at a distance from the stack pointer keep the rules.
pub fn stack_loads_fine()
    ensures { StackLoadsFine }
{}

/// Stores of eight bytes at a distance from the stack pointer keep the rules.
pub fn stack_stores_fine()
    ensures { StackStoresFine }
{}

/// A number of 64 bits that was stored somewhere is loaded from there.
#[tactic(auto, using(crate::proofs::Laws::stored_is_loaded))]
pub fn stored_is_loaded()
    ensures { StoredIsLoaded }
{}

/// Eight bytes are loaded alike from memories that have the same ones there.
#[tactic(auto, using(crate::proofs::Laws::same_are_loaded_alike))]
pub fn same_are_loaded_alike()
    ensures { SameAreLoadedAlike }
{}

/// Bytes that are stored elsewhere change none.
#[tactic(auto, using(crate::proofs::Laws::elsewhere_unchanged))]
pub fn elsewhere_unchanged()
    ensures { ElsewhereUnchanged }
{}

/// The span of a line that asks for no island itself is at most as long as lines of its kind may be, and a bind's is empty.
#[tactic(auto, using(crate::proofs::Laws::spans_are_short))]
pub fn spans_are_short()
    ensures { SpansAreShort }
{}
