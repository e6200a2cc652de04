//! Pairs of numbers.

use case_files::number;

/// The two numbers of `FIRST:SECOND`, in hexadecimal digits.
pub(crate) fn pair(text: &str) -> (u64, u64) {
    let (first, second) = text.split_once(':').unwrap_or((text, ""));
    (number(first), number(second))
}
