//! Lines of the header: where they stand, and the names of flags.

use crate::text::{as_text, is_silent, name_of, quoted, words_of};
use rv_base::{IsaFlags, OutOfMemory};
use rv_listing::with_flag;
use std::alloc::Global;

/// The order in which lines stand.
const ORDER: &str = "flags, frame and const stand before all other lines, in this order";

/// Returns whether a name begins a line of the header.
pub(crate) fn is_header(name: &str) -> bool {
    name == "flags" || name == "frame" || name == "const"
}

/// Where lines of this name stand in the order.
fn rank(name: &str) -> u8 {
    match name {
        "flags" => 1,
        "frame" => 2,
        "const" => 3,
        _ => 4,
    }
}

/// What is wrong with a header after a line, if something is.
fn after_reason(
    alloc: Global,
    name: &str,
    earlier: &str,
    number: usize,
) -> Result<Option<String>, OutOfMemory> {
    if rank(earlier) < rank(name) {
        return Ok(None);
    }
    if rank(earlier) > rank(name) {
        let earlier = quoted(alloc, earlier)?;
        return Ok(Some(format!(in alloc;
            "\"{name}\" stands after {earlier} of line {number}; {ORDER}"
        )?));
    }
    if name == "const" {
        return Ok(None);
    }
    Ok(Some(format!(in alloc; "\"{name}\" stands a second time; line {number} is the first")?))
}

/// What is wrong with where a header stands, by the number of its line, if something is.
pub(crate) fn place_reason(
    alloc: Global,
    text: &[u8],
    line: usize,
    name: &str,
) -> Result<Option<String>, OutOfMemory> {
    let mut number = 0usize;
    for earlier in text.split(|c| *c == b'\n') {
        number = number.saturating_add(1);
        if number >= line {
            break;
        }
        let earlier = as_text(earlier);
        if !is_silent(earlier) {
            if let Some(reason) = after_reason(alloc, name, name_of(earlier), number)? {
                return Ok(Some(reason));
            }
        }
    }
    Ok(None)
}

/// What is wrong with the names of flags.
pub(crate) fn flags_reason(alloc: Global, line: &str) -> Result<String, OutOfMemory> {
    let words = words_of(alloc, line)?;
    let mut flags = IsaFlags::none();
    for word in words.iter().skip(1) {
        let shown = quoted(alloc, word)?;
        if with_flag(IsaFlags::none(), word.as_bytes()).is_none() {
            return Ok(format!(in alloc;
                "{shown} is no flag; m, zba, zbb, zca, zcb, zcd and zfhmin are"
            )?);
        }
        match with_flag(flags, word.as_bytes()) {
            Some(more) => flags = more,
            None => return Ok(format!(in alloc; "{shown} stands twice")?),
        }
    }
    Ok(String::from_str(alloc, "these are no flags")?)
}
