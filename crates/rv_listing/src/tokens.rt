//! A text in lines, a line in words, and the numbers that words stand for.

ghost use Rattle.std.specs.Prelude.{◌≡◌, ℕ, ◌+◌, ◌-◌, ◌*◌, ◌<◌, ◌≤◌, ◌^◌, ◌==◌, IsTrue, drop, length, List, [], ◌∷◌, MatchOption, OnSome, IfSome, Some, None};
ghost use Rattle.std.specs.List.{position_or_len, position};
ghost use Rattle.std.specs.Str.{bytes_eq};
ghost use Rattle.rv_listing.specs.Tokens.{parts_of, parts_after, words_of, lines_of, words_after, after_lf, as_pair, below, digit, digits_after, digits, starts, decimal, natural, signed};

use memchr::memchr;

// Where the byte first stands.
fn find(byte: u8, text: &[u8]) -> Option<usize>
    ensures { result ≡ position (λ c. c == byte) text.now }
{
    text.iter().position(|c| *c == byte)
}

// Where the byte first stands, or the text's length.
fn index_or_len(byte: u8, text: &[u8]) -> usize
    ensures place { result ≡ position_or_len (λ c. c == byte) text.now }
    ensures within { result ≤ length text.now }
{
    match find(byte, text) {
        Some(at) => at,
        None => text.len(),
    }
}

// Where the first line ends.
fn line_end(text: &[u8]) -> usize
    ensures place { result ≡ position_or_len (λ c. c == 10) text.now }
    ensures within { result ≤ length text.now }
{
    match memchr(b'\n', text) {
        Some(at) => at,
        None => text.len(),
    }
}

/// The first line, and what is after it.
pub fn next_line(text: &[u8]) -> Option<(&[u8], &[u8])>
    ensures cut { MatchOption result (text.now ≡ []) (λ p. lines_of text.now ≡ p.0.now ∷ lines_of p.1.now) }
    ensures shorter { MatchOption result (text.now ≡ []) (λ p. length p.1.now < length text.now) }
{
    if text.is_empty() {
        return None;
    }
    let (line, rest) = text.split_at(line_end(text));
    match rest {
        [] => Some((line, rest)),
        [_, rest @ ..] => Some((line, rest)),
    }
}

/// The first part of a word or a line, and what is after it, with its separator.
pub fn first_part(separator: u8, w: &[u8]) -> (&[u8], &[u8])
    ensures part { parts_of separator w.now ≡ result.0.now ∷ parts_after separator result.1.now }
    ensures no_longer { length result.1.now ≤ length w.now }
{
    w.split_at(index_or_len(separator, w))
}

/// The next part, and what is after it.
pub fn next_part(separator: u8, rest: &[u8]) -> Option<(&[u8], &[u8])>
    ensures part { MatchOption result (parts_after separator rest.now ≡ []) (λ p. parts_after separator rest.now ≡ p.0.now ∷ parts_after separator p.1.now) }
    ensures shorter { IfSome result (λ p. length p.1.now < length rest.now) }
{
    match rest {
        [] => None,
        [_, rest @ ..] => Some(first_part(separator, rest)),
    }
}

/// The first word of a line, and what is after it, with its space.
pub fn first_word(line: &[u8]) -> (&[u8], &[u8])
    ensures word { words_of line.now ≡ result.0.now ∷ words_after result.1.now }
{
    first_part(b' ', line)
}

/// The next word, and what is after it.
pub fn next_word(rest: &[u8]) -> Option<(&[u8], &[u8])>
    ensures word { MatchOption result (words_after rest.now ≡ []) (λ p. words_after rest.now ≡ p.0.now ∷ words_after p.1.now) }
{
    next_part(b' ', rest)
}

/// The two parts around the only separator.
pub fn two_parts(separator: u8, w: &[u8]) -> Option<(&[u8], &[u8])>
    ensures { MatchOption result (as_pair (parts_of separator w.now) ≡ None) (λ p. as_pair (parts_of separator w.now) ≡ Some (p.0.now, p.1.now)) }
{
    let (first, rest) = first_part(separator, w);
    let (second, rest) = next_part(separator, rest)?;
    match next_part(separator, rest) {
        None => Some((first, second)),
        Some(_) => None,
    }
}

/// What is after the first byte.
pub fn tail(w: &[u8]) -> &[u8]
    ensures { result.now ≡ drop 1 w.now }
{
    match w {
        [] => w,
        [_, rest @ ..] => rest,
    }
}

/// Returns whether the word begins with this byte.
pub fn starts(c: u8, w: &[u8]) -> bool
    ensures { result ≡ starts c w.now }
{
    w.len() > 0 && w[0] == c
}

fn digit(base: u64, c: u8) -> Option<u64>
    requires { base ≤ 16 }
    ensures { result ≡ digit base c }
{
    if 48 <= c && c < 58 {
        Some(c as u64 - 48)
    } else if 10 < base && 97 <= c && c < 103 {
        Some(c as u64 - 87)
    } else {
        None
    }
}

fn with_digit(n: u64, base: u64, d: u64) -> Option<u64>
    ensures { result ≡ below (2 ^ 64) (n * base + d) }
{
    match n.checked_mul(base) {
        Some(m) => m.checked_add(d),
        None => None,
    }
}

#[inline(always)]
fn digits(base: u64, w: &[u8]) -> Option<u64>
    requires { base ≤ 16 }
    ensures { result ≡ digits base w.now }
{
    if w.is_empty() {
        return None;
    }
    let mut n = 0;
    for c in w {
        let d = digit(base, *c)?;
        n = with_digit(n, base, d)?;
    }
    Some(n)
}

/// Returns whether the word is this one. Words are short, and most differ in length, so this costs less than `==`.
#[inline(always)]
pub(crate) fn is(word: &[u8], w: &[u8]) -> bool
    ensures { result ≡ bytes_eq w.now word.now }
{
    if w.len() != word.len() {
        return false;
    }
    for (c, d) in w.iter().zip(word) {
        if c != d {
            return false;
        }
    }
    true
}

/// Decimal digits without leading zeros.
#[inline(always)]
pub fn decimal(w: &[u8]) -> Option<u64>
    ensures { result ≡ decimal w.now }
{
    if w.len() > 1 && starts(b'0', w) {
        None
    } else {
        digits(10, w)
    }
}

/// The decimal digits after the first byte.
pub(crate) fn number(w: &[u8]) -> Option<u64>
    ensures { result ≡ decimal (drop 1 w.now) }
{
    decimal(tail(w))
}

/// A number without a sign: decimal, or `0x` and lower-case hex digits.
#[inline(always)]
pub fn natural(w: &[u8]) -> Option<u64>
    ensures { result ≡ natural w.now }
{
    if starts(b'0', w) && starts(b'x', tail(w)) {
        digits(16, tail(tail(w)))
    } else {
        decimal(w)
    }
}

/// A number of either sign; a minus may stand before zero.
#[inline(always)]
#[tactic(auto, unfolding(crate::specs::Tokens::signed))]
pub fn signed(w: &[u8]) -> Option<i128>
    ensures { result ≡ signed w.now }
{
    if starts(b'-', w) {
        let n = natural(tail(w))?;
        Some(-i128::from(n))
    } else {
        let n = natural(w)?;
        Some(i128::from(n))
    }
}
