//! Hexadecimal digits among blanks.

ghost use Rattle.std.specs.Prelude.{◌≡◌, IfOk, filter};
ghost use Rattle.rv_load.specs.Hex.{is_mark};

use rv_base::OutOfMemory;
use std::alloc::Global;

/// The text without its blanks.
pub fn marks(alloc: Global, text: &[u8]) -> Result<Vec<u8>, OutOfMemory>
    ensures { IfOk result (λ marks. marks.items ≡ filter is_mark text.now) }
{
    let marks = text
        .iter()
        .filter(|c| !(**c == b' ' || **c == b'\n' || **c == b'\r' || **c == b'\t'))
        .copied()
        .collect(alloc)?;
    Ok(marks)
}
