//! Calls that return.

ghost use Rattle.std.specs.Prelude.{◌≡◌};
ghost use Rattle.rv_listing.specs.Tokens.{parts_of, words_after};
ghost use Rattle.rv_listing.specs.Fields.{field, Makes, TakesFirst};
ghost use Rattle.rv_listing.specs.Calls.{call_info, call_ret_pair, continued, handler, handler_to, in_register, map_entry, no_registers, on_stack, register_set, stack_map, try_call, with_register, with_registers};

use crate::fields::{LineError, Token, allowed, field, flag, whole};
use crate::pairs::{listed, listed_field, others, separated};
use crate::registers::register;
use crate::tokens::{decimal, first_part, is, next_word, two_parts};
use crate::types::type_named;
use rv_base::{
    CallInfo, CallRetPair, IrType, List, MachLabel, PReg, PRegSet, RetLocation, TryCallHandler,
    TryCallInfo, UserStackMap, Writable,
};
use std::alloc::Global;

// ---- results

#[tactic(auto, unfolding(crate::specs::Calls::in_register))]
fn in_register(w: &[u8]) -> Option<CallRetPair>
    ensures { result ≡ in_register w.now }
{
    let (vreg, preg) = two_parts(b':', w)?;
    let reg = register(vreg)?;
    let preg = register(preg)?;
    Some(CallRetPair {
        vreg: Writable { reg },
        location: RetLocation::Reg(preg),
    })
}

#[tactic(auto, unfolding(crate::specs::Calls::on_stack))]
fn on_stack(w: &[u8]) -> Option<CallRetPair>
    ensures { result ≡ on_stack w.now }
{
    let (vreg, place) = two_parts(b'@', w)?;
    let reg = register(vreg)?;
    let (offset, ty) = two_parts(b':', place)?;
    let offset = u32::read(offset)?;
    let ty = type_named(ty)?;
    Some(CallRetPair {
        vreg: Writable { reg },
        location: RetLocation::Stack { offset, ty },
    })
}

impl Token for CallRetPair {
    ghost reads = { call_ret_pair };

    #[tactic(auto, unfolding(crate::specs::Calls::call_ret_pair))]
    fn read(w: &[u8]) -> Option<CallRetPair> {
        match in_register(w) {
            Some(pair) => Some(pair),
            None => on_stack(w),
        }
    }
}

// ---- sets of registers

fn no_registers() -> PRegSet
    ensures { result ≡ no_registers }
{
    PRegSet::new()
}

fn add(set: &mut PRegSet, reg: PReg)
    ensures { set.new ≡ with_register set.old reg }
{
    set.add(reg);
}

fn set_of(regs: &[PReg]) -> PRegSet
    ensures { result ≡ with_registers no_registers regs.now }
{
    let mut set = no_registers();
    for reg in regs {
        add(&mut set, *reg);
    }
    set
}

// The next word, as a list of registers.
fn register_set(alloc: Global, rest: &[u8]) -> Result<(PRegSet, &[u8]), LineError>
    ensures { TakesFirst result (field register_set (words_after rest.now)) }
{
    let Some((w, rest)) = next_word(rest) else {
        return Err(LineError::NotAllowed);
    };
    let regs = listed(alloc, w)?;
    Ok((set_of(regs.as_slice()), rest))
}

// ---- values on the stack

impl Token for (IrType, u32) {
    ghost reads = { map_entry };

    #[tactic(auto, unfolding(crate::specs::Calls::map_entry))]
    fn read(w: &[u8]) -> Option<(IrType, u32)> {
        let (ty, offset) = two_parts(b'@', w)?;
        let ty = type_named(ty)?;
        let offset = u32::read(offset)?;
        Some((ty, offset))
    }
}

#[tactic(auto, unfolding(crate::specs::Calls::stack_map))]
fn map_of(alloc: Global, w: &[u8]) -> Result<Option<UserStackMap>, LineError>
    ensures { Makes result (stack_map w.now) }
{
    if is(b"-", w) {
        return Ok(None);
    }
    let entries = separated(alloc, b',', w)?;
    Ok(Some(UserStackMap { entries }))
}

// The next word, as a map of the values on the stack.
fn stack_map(alloc: Global, rest: &[u8]) -> Result<(Option<UserStackMap>, &[u8]), LineError>
    ensures { TakesFirst result (field stack_map (words_after rest.now)) }
{
    let Some((w, rest)) = next_word(rest) else {
        return Err(LineError::NotAllowed);
    };
    let map = map_of(alloc, w)?;
    Ok((map, rest))
}

// ---- calls that end their blocks

#[tactic(auto, unfolding(crate::specs::Calls::handler_to))]
fn handler_to(w: &[u8], label: MachLabel) -> Option<TryCallHandler>
    ensures { result ≡ handler_to w.now label }
{
    if is(b"default", w) {
        return Some(TryCallHandler::Default(label));
    }
    let digits = w.strip_prefix(b"tag")?;
    let tag = decimal(digits)?;
    if tag < 0x1_0000_0000 {
        Some(TryCallHandler::Tag(tag as u32, label))
    } else {
        None
    }
}

impl Token for TryCallHandler {
    ghost reads = { handler };

    #[tactic(auto, unfolding(crate::specs::Calls::handler))]
    fn read(w: &[u8]) -> Option<TryCallHandler> {
        let (exceptions, place) = two_parts(b':', w)?;
        let label = MachLabel::read(place)?;
        handler_to(exceptions, label)
    }
}

fn continued(alloc: Global, w: &[u8]) -> Result<TryCallInfo, LineError>
    ensures { Makes result (continued (parts_of 59 w.now)) }
{
    let (first, rest) = first_part(b';', w);
    let continuation = allowed(MachLabel::read(first))?;
    let handlers = others(b';', List::new(alloc), rest)?;
    Ok(TryCallInfo {
        continuation,
        handlers,
    })
}

#[tactic(auto, unfolding(crate::specs::Calls::try_call))]
fn try_of(alloc: Global, w: &[u8]) -> Result<Option<TryCallInfo>, LineError>
    ensures { Makes result (try_call w.now) }
{
    if is(b"-", w) {
        return Ok(None);
    }
    let info = continued(alloc, w)?;
    Ok(Some(info))
}

// The next word, as where control goes after a call that ends its block.
fn try_call(alloc: Global, rest: &[u8]) -> Result<(Option<TryCallInfo>, &[u8]), LineError>
    ensures { TakesFirst result (field try_call (words_after rest.now)) }
{
    let Some((w, rest)) = next_word(rest) else {
        return Err(LineError::NotAllowed);
    };
    let info = try_of(alloc, w)?;
    Ok((info, rest))
}

// ---- calls

/// A call of a destination, with these fields.
#[tactic(auto, unfolding(crate::specs::Calls::call_info, crate::specs::Calls::patchable))]
pub fn call_info<T: Token + Drop>(alloc: Global, rest: &[u8]) -> Result<CallInfo<T>, LineError>
    ensures { Makes result (call_info T.reads (words_after rest.now)) }
{
    let (dest, rest) = allowed(field(rest))?;
    let (uses, rest) = listed_field(alloc, rest)?;
    let (defs, rest) = listed_field(alloc, rest)?;
    let (clobbers, rest) = register_set(alloc, rest)?;
    let (callee_pop_size, rest) = allowed(field(rest))?;
    let (patchable, rest) = allowed(flag(b"1", b"0", rest))?;
    let (stack_map, rest) = stack_map(alloc, rest)?;
    let (try_call_info, rest) = try_call(alloc, rest)?;
    let info = CallInfo {
        dest,
        uses,
        defs,
        clobbers,
        callee_pop_size,
        patchable,
        stack_map,
        try_call_info,
    };
    allowed(whole(info, rest))
}
