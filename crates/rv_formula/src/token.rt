//! The tokens of a formula.

ghost use Rattle.std.specs.Prelude.{◌≡◌, ◌<◌, ◌≤◌, ◌+◌, ◌==◌, ◌&&◌, not, length, MatchOption, IfOk};
ghost use Rattle.std.specs.Char.{is_ascii_alphanumeric};
ghost use Rattle.std.specs.List.{position};
ghost use Rattle.std.specs.Option.{IfSome};
ghost use Rattle.rv_formula.specs.Token.{IsWithin};
ghost use Rattle.rv_formula.specs.Token as spec;

use crate::error::FormulaError;
use rv_expr::BinOp;
use rv_listing::natural;

#[derive(Clone, Copy, Debug, PartialEq, Eq)]
pub(crate) enum Token {
    Number(u64),
    /// Below 8.
    Argument(u8),
    Operator(BinOp),
    Open,
    Close,
    Question,
    Colon,
}

/// A token, by the indices of its first byte and of the byte after its last.
#[derive(Clone, Copy)]
pub(crate) struct Lexed {
    pub(crate) token: Token,
    pub(crate) start: usize,
    pub(crate) end: usize,
}

/// The first token that begins at an index or after it; none where only spaces stand there.
pub(crate) fn next_token(text: &[u8], from: usize) -> Result<Option<Lexed>, FormulaError>
    requires { from ≤ length text.now }
    ensures reads { result ≡ spec.next_of text.now from }
    ensures within { IfOk result (λ found. MatchOption found (Unit {0}) (IsWithin from (length text.now))) }
{
    let start = from + blanks(&text[from..]);
    if start == text.len() {
        return Ok(None);
    }
    match first_token(&text[start..]) {
        None => Err(FormulaError::Unknown { column: start + 1 }),
        Some((token, len)) => Ok(Some(Lexed {
            token,
            start,
            end: start + len,
        })),
    }
}

/// How many spaces and tabs a text begins with.
fn blanks(text: &[u8]) -> usize
    ensures value { result ≡ spec.blanks text.now }
    ensures within { result ≤ length text.now }
{
    match first_other(text) {
        Some(count) => count,
        None => text.len(),
    }
}

/// Where the first byte stands that is no space or tab.
fn first_other(text: &[u8]) -> Option<usize>
    ensures value { result ≡ position (λ c. not (c == 32) && not (c == 9)) text.now }
    ensures within { IfSome result (λ at. at ≤ length text.now) }
{
    text.iter().position(|byte| *byte != b' ' && *byte != b'\t')
}

/// The token that a text begins with, and its length.
fn first_token(text: &[u8]) -> Option<(Token, usize)>
    ensures value { result ≡ spec.first_token text.now }
    ensures within { IfSome result (λ found. (0 < found.1) × (found.1 ≤ length text.now)) }
{
    match symbol(text) {
        Some(found) => Some(found),
        None => word(text),
    }
}

/// The operator or parenthesis that a text begins with, and its length.
fn symbol(text: &[u8]) -> Option<(Token, usize)>
    ensures value { result ≡ spec.symbol text.now }
    ensures within { IfSome result (λ found. (0 < found.1) × (found.1 ≤ length text.now)) }
{
    match text {
        [] => None,
        [b'>', rest @ ..] => right_shift(rest),
        [b'<', rest @ ..] => left_shift(rest),
        [first, ..] => match sign(*first) {
            Some(token) => Some((token, 1)),
            None => None,
        },
    }
}

/// The shift to the right whose first byte stands before this text, and its length.
fn right_shift(rest: &[u8]) -> Option<(Token, usize)>
    ensures value { result ≡ spec.right_shift rest.now }
    ensures within { IfSome result (λ found. (0 < found.1) × (found.1 ≤ 1 + length rest.now)) }
{
    match rest {
        [b'>', b'>', ..] => Some((Token::Operator(BinOp::Sar), 3)),
        [b'>', ..] => Some((Token::Operator(BinOp::Shr), 2)),
        _ => None,
    }
}

/// The shift to the left or the comparison whose first byte stands before this text, and its length.
fn left_shift(rest: &[u8]) -> Option<(Token, usize)>
    ensures value { result ≡ spec.left_shift rest.now }
    ensures within { IfSome result (λ found. (0 < found.1) × (found.1 ≤ 1 + length rest.now)) }
{
    match rest {
        [b'<', ..] => Some((Token::Operator(BinOp::Shl), 2)),
        _ => Some((Token::Operator(BinOp::Ltu), 1)),
    }
}

/// The token of one byte.
fn sign(byte: u8) -> Option<Token>
    ensures { result ≡ spec.sign byte }
{
    match byte {
        b'+' => Some(Token::Operator(BinOp::Add)),
        b'-' => Some(Token::Operator(BinOp::Sub)),
        b'*' => Some(Token::Operator(BinOp::Mul)),
        b'/' => Some(Token::Operator(BinOp::DivU)),
        b'%' => Some(Token::Operator(BinOp::RemU)),
        b'&' => Some(Token::Operator(BinOp::And)),
        b'^' => Some(Token::Operator(BinOp::Xor)),
        b'|' => Some(Token::Operator(BinOp::Or)),
        b'(' => Some(Token::Open),
        b')' => Some(Token::Close),
        b'?' => Some(Token::Question),
        b':' => Some(Token::Colon),
        _ => None,
    }
}

/// The number or the argument that a text begins with, and its length.
fn word(text: &[u8]) -> Option<(Token, usize)>
    ensures value { result ≡ spec.word text.now }
    ensures within { IfSome result (λ found. (0 < found.1) × (found.1 ≤ length text.now)) }
{
    let len = word_length(text);
    if len == 0 {
        return None;
    }
    match word_token(&text[..len]) {
        Some(token) => Some((token, len)),
        None => None,
    }
}

/// How many letters and digits a text begins with.
fn word_length(text: &[u8]) -> usize
    ensures value { result ≡ spec.word_length text.now }
    ensures within { result ≤ length text.now }
{
    match word_end(text) {
        Some(len) => len,
        None => text.len(),
    }
}

/// Where the first byte stands that is no letter or digit.
fn word_end(text: &[u8]) -> Option<usize>
    ensures value { result ≡ position (λ c. not (is_ascii_alphanumeric c)) text.now }
    ensures within { IfSome result (λ at. at ≤ length text.now) }
{
    text.iter().position(|byte| !byte.is_ascii_alphanumeric())
}

/// The number or the argument that a word is.
fn word_token(word: &[u8]) -> Option<Token>
    ensures { result ≡ spec.word_token word.now }
{
    match argument(word) {
        Some(argument) => Some(Token::Argument(argument)),
        None => match natural(word) {
            Some(value) => Some(Token::Number(value)),
            None => None,
        },
    }
}

/// The number of the argument that a word names.
fn argument(word: &[u8]) -> Option<u8>
    ensures { result ≡ spec.argument word.now }
{
    match word {
        [b'a', digit] if *digit >= b'0' && *digit <= b'7' => Some(*digit - b'0'),
        _ => None,
    }
}
