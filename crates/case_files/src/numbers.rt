//! Numbers in hexadecimal digits, digests of many numbers, and numbers that look random.

/// A number in hexadecimal digits; a case has no other.
pub fn number(text: &str) -> u64 {
    u64::from_str_radix(text, 16).unwrap_or(0)
}

/// The number of a word in hexadecimal digits; 0 of none.
pub fn word_number(word: Option<&str>) -> u64 {
    match word {
        Some(text) => number(text),
        None => 0,
    }
}

/// FNV-1a of nothing.
pub const EMPTY_DIGEST: u64 = 0xcbf29ce484222325;

/// FNV-1a with one number more, in place of a byte.
pub fn digest_with(digest: u64, value: u64) -> u64 {
    (digest ^ value).wrapping_mul(0x100000001b3)
}

/// The state after another of numbers that look random, by the generator of Knuth's MMIX; its upper bits are the best.
pub fn next_random(state: u64) -> u64 {
    state
        .wrapping_mul(6364136223846793005)
        .wrapping_add(1442695040888963407)
}
