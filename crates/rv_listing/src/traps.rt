//! Causes of traps by their names.

ghost use Rattle.std.specs.Prelude.{◌≡◌, Some};
ghost use Rattle.rv_base.specs.Trap.{name_of};
ghost use Rattle.rv_listing.specs.Traps.{user_of, user, constant, trap_named, access_flags};

use crate::fields::Token;
use crate::tokens::{decimal, is};
use rv_base::{MemFlagsData, TrapCode};

fn user_of(number: u64) -> Option<TrapCode>
    ensures { result ≡ user_of number }
{
    if number <= 250 {
        TrapCode::user(number as u8)
    } else {
        None
    }
}

#[tactic(auto, unfolding(crate::specs::Traps::user))]
fn user(w: &[u8]) -> Option<TrapCode>
    ensures { result ≡ user w.now }
{
    let number = w.strip_prefix(b"user")?;
    user_of(decimal(number)?)
}

#[tactic(auto, unfolding(crate::specs::Traps::constant))]
fn constant(w: &[u8]) -> Option<TrapCode>
    ensures { result ≡ constant w.now }
{
    if is(b"stk_ovf", w) {
        Some(TrapCode::StackOverflow)
    } else if is(b"heap_oob", w) {
        Some(TrapCode::HeapOutOfBounds)
    } else if is(b"int_ovf", w) {
        Some(TrapCode::IntegerOverflow)
    } else if is(b"int_divz", w) {
        Some(TrapCode::IntegerDivisionByZero)
    } else if is(b"bad_toint", w) {
        Some(TrapCode::BadConversionToInteger)
    } else {
        None
    }
}

#[tactic(auto, unfolding(crate::specs::Traps::trap_named))]
fn find(w: &[u8]) -> Option<TrapCode>
    ensures { result ≡ trap_named w.now }
{
    match constant(w) {
        Some(code) => Some(code),
        None => user(w),
    }
}

/// The cause of this name.
pub fn trap_named(w: &[u8]) -> Option<TrapCode>
    ensures reads { result ≡ trap_named w.now }
    ensures named { (code : TrapCode) → w.now ≡ name_of code → result ≡ Some code }
{
    find(w)
}

impl Token for TrapCode {
    ghost reads = { trap_named };

    fn read(w: &[u8]) -> Option<TrapCode> {
        trap_named(w)
    }
}

impl Token for MemFlagsData {
    ghost reads = { access_flags };

    #[tactic(auto, unfolding(crate::specs::Traps::access_flags))]
    fn read(w: &[u8]) -> Option<MemFlagsData> {
        if is(b"-", w) {
            return Some(MemFlagsData::new());
        }
        Some(MemFlagsData::with_trap(trap_named(w)?))
    }
}
