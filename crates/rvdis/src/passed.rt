//! Lines that say nothing of the code, and what they may be.

use rv_listing::{next_line, starts, tail, two_parts};

// A number and a colon, as after the letter of a label.
fn is_numbered(text: &[u8]) -> bool {
    match text.split_last() {
        Some((last, digits)) => {
            *last == b':' && !digits.is_empty() && digits.iter().all(|c| c.is_ascii_digit())
        }
        None => false,
    }
}

// `L0:` or `const 0:`, as this program writes them.
fn is_place(line: &[u8]) -> bool {
    match two_parts(b' ', line) {
        Some((word, number)) => word == b"const".as_slice() && is_numbered(number),
        None => starts(b'L', line) && is_numbered(tail(line)),
    }
}

fn is_blank(c: u8) -> bool {
    c == b' ' || c == b'\t' || c == b'\r'
}

// Nothing but spaces, or a comment after them.
fn is_comment(line: &[u8]) -> bool {
    match line.iter().find(|c| !is_blank(**c)) {
        Some(first) => *first == b'#',
        None => true,
    }
}

fn begins_with_digit(line: &[u8]) -> bool {
    match line.first() {
        Some(first) => first.is_ascii_digit(),
        None => false,
    }
}

/// Returns whether a line is passed over that holds something else than spaces, a comment, or a place that this program writes.
fn is_passed(line: &[u8]) -> bool {
    !begins_with_digit(line) && !is_comment(line) && !is_place(line)
}

/// Says on standard error which lines `--reasm` passes over, but for those that are meant to be.
pub(crate) fn say_passed(rt: &HostRuntime, input: &[u8]) {
    let mut rest = input;
    let mut number = 1usize;
    'lines: while let Some((line, after)) = next_line(rest) {
        if is_passed(line) {
            let _ = eprintln!(rt; "rvdis: line {number} is passed over: it begins with no digit");
        }
        number = number.saturating_add(1);
        rest = after;
    }
}
