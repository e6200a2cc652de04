//! Registers by name: `x`, `f` or `v` and a number, the names of the calling convention, and virtual ones.

ghost use Rattle.std.specs.Prelude.{◌≡◌, ℕ, ◌<◌, [], ◌∷◌, Some, IfSome};
ghost use Rattle.rv_base.specs.declared.regs.RegClass.{RegClass};
ghost use Rattle.rv_base.specs.RegNames.{real_name};
ghost use Rattle.rv_listing.specs.Tokens.{◌>>=◌ as and_then, decimal};
ghost use Rattle.rv_listing.specs.Registers.{after_f, after_s, after_t, argument, by_letter, fixed, float, float_saved, float_temporary, by_other_letter, real, register, saved, single, temporary, virtual_register};

use crate::tokens::{decimal, is, starts, tail};
use rv_base::{PReg, Reg, RegClass, VirtualIndex};

#[tactic(auto, unfolding(crate::specs::Registers::real))]
fn real(class: RegClass, number: u64) -> Option<Reg>
    ensures { result ≡ real class number }
{
    if number < 32 {
        Some(Reg::Real(PReg {
            class,
            number: number as u8,
        }))
    } else {
        None
    }
}

#[tactic(auto, unfolding(crate::specs::Registers::virtual_register))]
fn virtual_register(number: u64) -> Option<Reg>
    ensures { result ≡ virtual_register number }
{
    if number < 192 {
        None
    } else if number < 2097152 {
        Some(Reg::Virtual {
            class: RegClass::Int,
            index: VirtualIndex {
                value: number as u32,
            },
        })
    } else {
        None
    }
}

// The number of the register that a letter and a number stand for.
fn argument(w: &[u8]) -> Option<u64>
    ensures { result ≡ and_then (decimal w.now) argument }
{
    let n = decimal(w)?;
    if n < 8 { Some(10 + n) } else { None }
}

fn temporary(w: &[u8]) -> Option<u64>
    ensures { result ≡ and_then (decimal w.now) temporary }
{
    let n = decimal(w)?;
    if n < 3 {
        Some(5 + n)
    } else if n < 7 {
        Some(25 + n)
    } else {
        None
    }
}

fn saved(w: &[u8]) -> Option<u64>
    ensures { result ≡ and_then (decimal w.now) saved }
{
    let n = decimal(w)?;
    if n == 1 {
        Some(9)
    } else if 2 <= n && n < 12 {
        Some(16 + n)
    } else {
        None
    }
}

fn float_temporary(w: &[u8]) -> Option<u64>
    ensures { result ≡ and_then (decimal w.now) float_temporary }
{
    let n = decimal(w)?;
    if n < 8 {
        Some(n)
    } else if n < 12 {
        Some(20 + n)
    } else {
        None
    }
}

fn float_saved(w: &[u8]) -> Option<u64>
    ensures { result ≡ and_then (decimal w.now) float_saved }
{
    let n = decimal(w)?;
    if n < 2 {
        Some(8 + n)
    } else if n < 12 {
        Some(16 + n)
    } else {
        None
    }
}

// A name of the class of floats, without its `f`.
#[tactic(auto, unfolding(crate::specs::Registers::float))]
fn float(w: &[u8]) -> Option<Reg>
    ensures { result ≡ float w.now }
{
    let number = if starts(b't', w) {
        float_temporary(tail(w))
    } else if starts(b's', w) {
        float_saved(tail(w))
    } else if starts(b'a', w) {
        argument(tail(w))
    } else {
        decimal(w)
    };
    real(RegClass::Float, number?)
}

#[tactic(auto, unfolding(crate::specs::Registers::after_f))]
fn after_f(w: &[u8]) -> Option<Reg>
    ensures { result ≡ after_f w.now }
{
    if is(b"p", w) {
        real(RegClass::Int, 8)
    } else {
        float(w)
    }
}

#[tactic(auto, unfolding(crate::specs::Registers::after_t))]
fn after_t(w: &[u8]) -> Option<Reg>
    ensures { result ≡ after_t w.now }
{
    if is(b"p", w) {
        real(RegClass::Int, 4)
    } else {
        real(RegClass::Int, temporary(w)?)
    }
}

#[tactic(auto, unfolding(crate::specs::Registers::after_s))]
fn after_s(w: &[u8]) -> Option<Reg>
    ensures { result ≡ after_s w.now }
{
    if is(b"p", w) {
        real(RegClass::Int, 2)
    } else {
        real(RegClass::Int, saved(w)?)
    }
}

// The one name of its letter.
#[tactic(auto, unfolding(crate::specs::Registers::fixed))]
fn fixed(name: &[u8], number: u64, w: &[u8]) -> Option<Reg>
    ensures { result ≡ fixed name.now number w.now }
{
    if is(name, w) {
        real(RegClass::Int, number)
    } else {
        None
    }
}

#[tactic(auto, unfolding(crate::specs::Registers::single))]
fn single(letter: u8, w: &[u8]) -> Option<Reg>
    ensures { result ≡ single letter w.now }
{
    if letter == b'z' {
        fixed(b"ero", 0, w)
    } else if letter == b'r' {
        fixed(b"a", 1, w)
    } else if letter == b'g' {
        fixed(b"p", 3, w)
    } else {
        None
    }
}

#[tactic(auto, unfolding(crate::specs::Registers::by_other_letter))]
fn by_other_letter(letter: u8, w: &[u8]) -> Option<Reg>
    ensures { result ≡ by_other_letter letter w.now }
{
    if letter == b'f' {
        after_f(w)
    } else if letter == b'v' {
        real(RegClass::Vector, decimal(w)?)
    } else if letter == b'%' {
        virtual_register(decimal(w)?)
    } else {
        single(letter, w)
    }
}

#[tactic(auto, unfolding(crate::specs::Registers::by_letter))]
fn by_letter(letter: u8, w: &[u8]) -> Option<Reg>
    ensures { result ≡ by_letter letter w.now }
{
    if letter == b'x' {
        real(RegClass::Int, decimal(w)?)
    } else if letter == b'a' {
        real(RegClass::Int, argument(w)?)
    } else if letter == b't' {
        after_t(w)
    } else if letter == b's' {
        after_s(w)
    } else {
        by_other_letter(letter, w)
    }
}

// The numbers of the registers whose names are x, a, t or s and a digit. There is no register where 32 stands.
const X: [u8; 10] = [0, 1, 2, 3, 4, 5, 6, 7, 8, 9];

const A: [u8; 10] = [10, 11, 12, 13, 14, 15, 16, 17, 32, 32];

const T: [u8; 10] = [5, 6, 7, 28, 29, 30, 31, 32, 32, 32];

const S: [u8; 10] = [32, 9, 18, 19, 20, 21, 22, 23, 24, 25];

const NONE: [u8; 10] = [32, 32, 32, 32, 32, 32, 32, 32, 32, 32];

/// The rows of the letters, from the one before `a`.
const BY_LETTER: [[u8; 10]; 32] = [
    NONE, A, NONE, NONE, NONE, NONE, NONE, NONE, NONE, NONE, NONE, NONE, NONE, NONE, NONE, NONE,
    NONE, NONE, NONE, S, T, NONE, NONE, NONE, X, NONE, NONE, NONE, NONE, NONE, NONE, NONE,
];

// The integer register of a letter and a digit. Nearly all names in a listing are such, and a table reads them without a
// branch on the letter, which no processor predicts well.
#[inline(always)]
fn by_digit(letter: u8, digit: u8) -> Option<Reg>
    ensures { IfSome result (λ reg. by_letter letter (digit ∷ []) ≡ Some reg) }
{
    if letter < 96 || letter >= 128 || digit < 48 || digit >= 58 {
        return None;
    }
    let number = BY_LETTER[(letter - 96) as usize][(digit - 48) as usize];
    real(RegClass::Int, u64::from(number))
}

/// The register of this name; each of the machine's has a name that `reg_name` gives, and its letter and number. A
/// virtual one is `%` and its index, and is of the integer class.
#[inline(always)]
#[tactic(auto, unfolding(crate::specs::Registers::register))]
pub fn register(w: &[u8]) -> Option<Reg>
    ensures value { result ≡ register w.now }
    ensures names { (class : RegClass) (n : ℕ) → n < 32 → register (real_name class n) ≡ real class n }
{
    match w {
        [] => None,
        [letter, digit] => match by_digit(*letter, *digit) {
            Some(reg) => Some(reg),
            None => by_letter(*letter, tail(w)),
        },
        [letter, rest @ ..] => by_letter(*letter, rest),
    }
}
