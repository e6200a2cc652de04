//! Listings that no file should hold: lines that stand many times. Each line given is `COUNT TEXT`, so many copies of the text, each
//! with a line feed, or none where the count is `COUNT+`; in the text `{}` is the number of the copy, from 0. Of the report the answer
//! has some lines, in order.

use crate::given_by;
use case_files::first_word;
use std::alloc::{AllocError, Global};

/// Puts the copies that a line stands for.
fn put_copies(listing: &mut String, line: &str) -> Result<(), AllocError> {
    let (count, text) = first_word(line);
    let (digits, end) = match count.strip_suffix('+') {
        Some(digits) => (digits, ""),
        None => (count, "\n"),
    };
    let (before, after) = text.split_once("{}").unwrap_or((text, ""));
    let is_numbered = text.contains("{}");
    for number in 0..u32::from_str_radix(digits, 10).unwrap_or(0) {
        listing.push_str(before)?;
        if is_numbered {
            write!(listing, "{number}")?;
        }
        listing.push_str(after)?;
        listing.push_str(end)?;
    }
    Ok(())
}

/// The listing that lines stand for.
fn listing_of(alloc: Global, lines: &str) -> Result<String, AllocError> {
    let mut listing = String::new(alloc);
    for line in lines.lines() {
        put_copies(&mut listing, line)?;
    }
    Ok(listing)
}

/// Whether these lines stand in a text, in order.
fn are_in(text: &str, lines: &str) -> bool {
    let mut wanted = lines.lines();
    let mut next = wanted.next();
    for line in text.lines() {
        if next == Some(line) {
            next = wanted.next();
        }
    }
    next.is_none()
}

/// Those lines of the report that are wanted; the whole report, where they aren't all there.
pub(crate) fn lines_of(alloc: Global, given: &str, wanted: &str) -> Result<String, AllocError> {
    let report = given_by(alloc, &listing_of(alloc, given)?)?;
    if are_in(&report, wanted) {
        return String::from_str(alloc, wanted);
    }
    Ok(report)
}
