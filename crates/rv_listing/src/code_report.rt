//! The report of a code: what the program writes.

ghost use Rattle.std.specs.Prelude.{◌≡◌, ◌+◌, ◌<◌, ◌≤◌, ◌^◌, [], ◌∷◌, ◌++◌, codes, length, take, drop, IfOk, OnOk};
ghost use Rattle.std.specs.List.{flat_map};
ghost use Rattle.std.specs.Fmt.{decimal, signed_decimal};
ghost use Rattle.hex.specs.Hex.{encode_lower};
ghost use Rattle.rv_inst.specs.declared.code.Code.{Code as ACode};
ghost use Rattle.rv_listing.specs.CodeRanges.{CodeFits};
ghost use Rattle.rv_base.specs.RegNames.{name_of as register_name};
ghost use Rattle.rv_listing.specs.Relocations.{target_text};
ghost use Rattle.rv_listing.specs.UnwindSteps.{step_text};
ghost use Rattle.rv_listing.specs.Report.{lf, hex_line, all_hex_lines, span_line, return_line, label_line, const_line, reloc_line, trap_line, call_line, frame_text, handler_text, try_line, patch_line, entry_text, map_line, unwind_line, report, report_with};

use crate::relocations::kind_name;
use itoa::{Buffer, write_digits};
use mach_records::FinalizedRelocTarget;
use rv_base::{IrType, OutOfMemory, Reg, UnwindInst, reg_name};
use rv_inst::{
    CallReturn, Code, ConstPlace, FinalizedMachExceptionHandler, LabelPlace, LineSpan,
    MachPatchable, MachReloc, MachStackMap, MachTrap, MachTryCallSite, MachUnwind,
};
use std::alloc::Global;

fn put(out: &mut Vec<u8>, text: &[u8]) -> Result<(), OutOfMemory>
    ensures { OnOk result (out.new.items ≡ out.old.items ++ text.now) }
{
    out.extend_from_slice(text)?;
    Ok(())
}

fn put_number(out: &mut Vec<u8>, n: u64) -> Result<(), OutOfMemory>
    ensures { OnOk result (out.new.items ≡ out.old.items ++ decimal n) }
{
    let mut buffer = Buffer::new();
    put(out, buffer.format(n).as_bytes())
}

// A text, and a number after it.
fn put_numbered(out: &mut Vec<u8>, text: &[u8], n: u64) -> Result<(), OutOfMemory>
    ensures { OnOk result (out.new.items ≡ out.old.items ++ text.now ++ decimal n) }
{
    put(out, text)?;
    put_number(out, n)
}

// The same, up to the end of a line.
fn end_line(out: &mut Vec<u8>, text: &[u8], n: u64) -> Result<(), OutOfMemory>
    ensures { OnOk result (out.new.items ≡ out.old.items ++ text.now ++ decimal n ++ lf) }
{
    put_numbered(out, text, n)?;
    put(out, b"\n")
}

// A text, and a signed number after it, up to the end of a line.
fn end_signed(out: &mut Vec<u8>, text: &[u8], n: i64) -> Result<(), OutOfMemory>
    ensures { OnOk result (out.new.items ≡ out.old.items ++ text.now ++ signed_decimal n ++ lf) }
{
    let mut buffer = Buffer::new();
    put(out, text)?;
    put(out, buffer.format(n).as_bytes())?;
    put(out, b"\n")
}

// At most 16 bytes as hex digits.
fn put_hex(out: &mut Vec<u8>, bytes: &[u8]) -> Result<(), OutOfMemory>
    requires { length bytes.now ≤ 16 }
    ensures { OnOk result (out.new.items ≡ out.old.items ++ encode_lower bytes.now) }
{
    let mut room = [0u8; 32];
    let digits = &mut room[..2 * bytes.len()];
    let _ = hex::encode_to_slice(bytes, digits);
    put(out, digits)
}

fn put_hex_line(out: &mut Vec<u8>, at: u32, bytes: &[u8]) -> Result<(), OutOfMemory>
    requires { length bytes.now ≤ 16 }
    ensures { OnOk result (out.new.items ≡ out.old.items ++ hex_line at bytes.now) }
{
    put_hex(out, &at.to_be_bytes())?;
    put(out, b" ")?;
    put_hex(out, bytes)?;
    put(out, b"\n")
}

// At most 16 bytes, and the rest.
fn front(bytes: &[u8]) -> (&[u8], &[u8])
    ensures front { result.0.now ≡ take 16 bytes.now }
    ensures rest { result.1.now ≡ drop 16 bytes.now }
    ensures short { length result.0.now ≤ 16 }
{
    if bytes.len() < 16 {
        bytes.split_at(bytes.len())
    } else {
        bytes.split_at(16)
    }
}

fn put_hex_lines(out: &mut Vec<u8>, bytes: &[u8]) -> Result<(), OutOfMemory>
    requires { length bytes.now < 2 ^ 32 }
    ensures { OnOk result (out.new.items ≡ out.old.items ++ all_hex_lines bytes.now) }
{
    let count = (bytes.len() + 15) / 16;
    let mut rest = bytes;
    for k in 0..count {
        let (sixteen, after) = front(rest);
        put_hex_line(out, (16 * k) as u32, sixteen)?;
        rest = after;
    }
    Ok(())
}

/// Room for the line of a span: its first word, three spaces, each with at most twenty digits after it, and LF.
const SPAN_ROOM: usize = 68;

// A byte that ends where `end` is. Returns where it begins.
#[inline(always)]
fn write_byte(byte: u8, room: &mut [u8; SPAN_ROOM], end: usize) -> usize
    requires { (1 ≤ end) × (end ≤ 68) }
    ensures text { drop result room.new ≡ byte ∷ drop end room.old }
    ensures start { result + 1 ≡ end }
{
    room[end - 1] = byte;
    end - 1
}

// A space and a number, which end where `end` is. Returns where they begin.
#[inline(always)]
fn write_number(n: u64, room: &mut [u8; SPAN_ROOM], end: usize) -> usize
    requires { (21 ≤ end) × (end ≤ 68) }
    ensures text { drop result room.new ≡ 32 ∷ decimal n ++ drop end room.old }
    ensures start { (result ≤ end) × (end ≤ result + 21) }
{
    let start = write_digits(n, room, end);
    write_byte(b' ', room, start)
}

// The line is written from its end to its front, and put at once, since a report has very many of them.
fn put_span(out: &mut Vec<u8>, room: &mut [u8; SPAN_ROOM], l: &LineSpan) -> Result<(), OutOfMemory>
    ensures { OnOk result (out.new.items ≡ out.old.items ++ span_line l.now) }
{
    let at = write_byte(b'\n', room, SPAN_ROOM);
    let at = write_number(l.end as u64, room, at);
    let at = write_number(l.start as u64, room, at);
    let at = write_number(l.index as u64, room, at);
    let at = write_byte(b'e', room, at);
    let at = write_byte(b'n', room, at);
    let at = write_byte(b'i', room, at);
    let at = write_byte(b'l', room, at);
    put(out, &room[at..])
}

fn put_return(out: &mut Vec<u8>, r: &CallReturn) -> Result<(), OutOfMemory>
    ensures { OnOk result (out.new.items ≡ out.old.items ++ return_line r.now) }
{
    put_numbered(out, b"return ", r.index as u64)?;
    end_line(out, b" ", r.offset as u64)
}

fn put_label(out: &mut Vec<u8>, l: &LabelPlace) -> Result<(), OutOfMemory>
    ensures { OnOk result (out.new.items ≡ out.old.items ++ label_line l.now) }
{
    put_numbered(out, b"label L", l.label.number as u64)?;
    end_line(out, b" ", l.offset as u64)
}

fn put_constant(out: &mut Vec<u8>, c: &ConstPlace) -> Result<(), OutOfMemory>
    ensures { OnOk result (out.new.items ≡ out.old.items ++ const_line c.now) }
{
    put_numbered(out, b"const ", c.constant.number as u64)?;
    end_line(out, b" ", c.offset as u64)
}

fn put_target(out: &mut Vec<u8>, target: FinalizedRelocTarget) -> Result<(), OutOfMemory>
    ensures { OnOk result (out.new.items ≡ out.old.items ++ target_text target) }
{
    match target {
        FinalizedRelocTarget::ExternalName(name) => {
            put_numbered(out, b"userextname", name.number as u64)
        }
        FinalizedRelocTarget::Func(offset) => put_numbered(out, b"@", offset as u64),
    }
}

fn put_reloc(out: &mut Vec<u8>, r: &MachReloc) -> Result<(), OutOfMemory>
    ensures { OnOk result (out.new.items ≡ out.old.items ++ reloc_line r.now) }
{
    put_numbered(out, b"reloc ", r.offset as u64)?;
    put(out, b" ")?;
    put(out, kind_name(r.kind).as_bytes())?;
    put(out, b" ")?;
    put_target(out, r.target)?;
    end_signed(out, b" ", r.addend)
}

fn put_trap(alloc: Global, out: &mut Vec<u8>, t: &MachTrap) -> Result<(), OutOfMemory>
    ensures { OnOk result (out.new.items ≡ out.old.items ++ trap_line t.now) }
{
    let code = t.code;
    let name = format!(in alloc; "{code}")?;
    put_numbered(out, b"trap ", t.offset as u64)?;
    put(out, b" ")?;
    put(out, name.as_bytes())?;
    put(out, b"\n")
}

fn put_call(out: &mut Vec<u8>, offset: u32) -> Result<(), OutOfMemory>
    ensures { OnOk result (out.new.items ≡ out.old.items ++ call_line offset) }
{
    end_line(out, b"call ", offset as u64)
}

// How far the frame pointer is above the stack pointer, where that is known.
fn put_frame(out: &mut Vec<u8>, frame_offset: Option<u32>) -> Result<(), OutOfMemory>
    ensures { OnOk result (out.new.items ≡ out.old.items ++ frame_text frame_offset) }
{
    match frame_offset {
        Some(offset) => put_number(out, offset as u64),
        None => put(out, b"-"),
    }
}

fn put_handler(out: &mut Vec<u8>, handler: FinalizedMachExceptionHandler) -> Result<(), OutOfMemory>
    ensures { OnOk result (out.new.items ≡ out.old.items ++ handler_text handler) }
{
    match handler {
        FinalizedMachExceptionHandler::Tag(tag, offset) => {
            put_numbered(out, b" tag", tag as u64)?;
            put_numbered(out, b":", offset as u64)
        }
        FinalizedMachExceptionHandler::Default(offset) => {
            put_numbered(out, b" default:", offset as u64)
        }
    }
}

fn put_handlers(
    out: &mut Vec<u8>,
    handlers: &[FinalizedMachExceptionHandler],
) -> Result<(), OutOfMemory>
    ensures { OnOk result (out.new.items ≡ out.old.items ++ flat_map handler_text handlers.now) }
{
    for h in handlers {
        put_handler(out, *h)?;
    }
    Ok(())
}

fn put_try(out: &mut Vec<u8>, t: &MachTryCallSite) -> Result<(), OutOfMemory>
    ensures { OnOk result (out.new.items ≡ out.old.items ++ try_line t.now) }
{
    put_numbered(out, b"try ", t.offset as u64)?;
    put(out, b" ")?;
    put_frame(out, t.frame_offset)?;
    put_handlers(out, t.handlers.as_slice())?;
    put(out, b"\n")
}

fn put_patch(out: &mut Vec<u8>, p: &MachPatchable) -> Result<(), OutOfMemory>
    ensures { OnOk result (out.new.items ≡ out.old.items ++ patch_line p.now) }
{
    put_numbered(out, b"patch ", p.offset as u64)?;
    end_line(out, b" ", p.len as u64)
}

// A value on the stack, by its type and its offset.
fn put_entry(alloc: Global, out: &mut Vec<u8>, entry: (IrType, u32)) -> Result<(), OutOfMemory>
    ensures { OnOk result (out.new.items ≡ out.old.items ++ entry_text entry) }
{
    let (ty, offset) = entry;
    let name = format!(in alloc; "{ty}")?;
    put(out, b" ")?;
    put(out, name.as_bytes())?;
    put_numbered(out, b"@", offset as u64)
}

fn put_entries(
    alloc: Global,
    out: &mut Vec<u8>,
    entries: &[(IrType, u32)],
) -> Result<(), OutOfMemory>
    ensures { OnOk result (out.new.items ≡ out.old.items ++ flat_map entry_text entries.now) }
{
    for e in entries {
        put_entry(alloc, out, *e)?;
    }
    Ok(())
}

fn put_map(alloc: Global, out: &mut Vec<u8>, m: &MachStackMap) -> Result<(), OutOfMemory>
    ensures { OnOk result (out.new.items ≡ out.old.items ++ map_line m.now) }
{
    put_numbered(out, b"map ", m.offset as u64)?;
    put_numbered(out, b" ", m.span as u64)?;
    put_entries(alloc, out, m.map.entries.as_slice())?;
    put(out, b"\n")
}

// A register that is saved, after where it is.
fn put_saved(alloc: Global, out: &mut Vec<u8>, above: u32, reg: Reg) -> Result<(), OutOfMemory>
    ensures { OnOk result (out.new.items ≡ out.old.items ++ codes "save " ++ decimal above ++ 32 ∷ [] ++ register_name reg) }
{
    let name = reg_name(alloc, reg)?;
    put_numbered(out, b"save ", above as u64)?;
    put(out, b" ")?;
    put(out, name.as_bytes())
}

fn put_step(alloc: Global, out: &mut Vec<u8>, step: UnwindInst) -> Result<(), OutOfMemory>
    ensures { OnOk result (out.new.items ≡ out.old.items ++ step_text step) }
{
    match step {
        UnwindInst::PushFrameRegs {
            offset_upward_to_caller_sp,
        } => put_numbered(out, b"push ", offset_upward_to_caller_sp as u64),
        UnwindInst::DefineNewFrame {
            offset_upward_to_caller_sp,
            offset_downward_to_clobbers,
        } => {
            put_numbered(out, b"frame ", offset_upward_to_caller_sp as u64)?;
            put_numbered(out, b" ", offset_downward_to_clobbers as u64)
        }
        UnwindInst::StackAlloc { size } => put_numbered(out, b"alloc ", size as u64),
        UnwindInst::SaveReg {
            clobber_offset,
            reg,
        } => put_saved(alloc, out, clobber_offset, reg),
    }
}

fn put_unwind(alloc: Global, out: &mut Vec<u8>, u: &MachUnwind) -> Result<(), OutOfMemory>
    ensures { OnOk result (out.new.items ≡ out.old.items ++ unwind_line u.now) }
{
    put_numbered(out, b"unwind ", u.offset as u64)?;
    put(out, b" ")?;
    put_step(alloc, out, u.inst)?;
    put(out, b"\n")
}

fn put_spans(out: &mut Vec<u8>, lines: &[LineSpan]) -> Result<(), OutOfMemory>
    ensures { OnOk result (out.new.items ≡ out.old.items ++ flat_map span_line lines.now) }
{
    let mut room = [0u8; SPAN_ROOM];
    for l in lines {
        put_span(out, &mut room, l)?;
    }
    Ok(())
}

fn put_returns(out: &mut Vec<u8>, returns: &[CallReturn]) -> Result<(), OutOfMemory>
    ensures { OnOk result (out.new.items ≡ out.old.items ++ flat_map return_line returns.now) }
{
    for r in returns {
        put_return(out, r)?;
    }
    Ok(())
}

fn put_labels(out: &mut Vec<u8>, labels: &[LabelPlace]) -> Result<(), OutOfMemory>
    ensures { OnOk result (out.new.items ≡ out.old.items ++ flat_map label_line labels.now) }
{
    for l in labels {
        put_label(out, l)?;
    }
    Ok(())
}

fn put_constants(out: &mut Vec<u8>, constants: &[ConstPlace]) -> Result<(), OutOfMemory>
    ensures { OnOk result (out.new.items ≡ out.old.items ++ flat_map const_line constants.now) }
{
    for c in constants {
        put_constant(out, c)?;
    }
    Ok(())
}

fn put_relocs(out: &mut Vec<u8>, relocs: &[MachReloc]) -> Result<(), OutOfMemory>
    ensures { OnOk result (out.new.items ≡ out.old.items ++ flat_map reloc_line relocs.now) }
{
    for r in relocs {
        put_reloc(out, r)?;
    }
    Ok(())
}

fn put_traps(alloc: Global, out: &mut Vec<u8>, traps: &[MachTrap]) -> Result<(), OutOfMemory>
    ensures { OnOk result (out.new.items ≡ out.old.items ++ flat_map trap_line traps.now) }
{
    for t in traps {
        put_trap(alloc, out, t)?;
    }
    Ok(())
}

fn put_calls(out: &mut Vec<u8>, call_sites: &[u32]) -> Result<(), OutOfMemory>
    ensures { OnOk result (out.new.items ≡ out.old.items ++ flat_map call_line call_sites.now) }
{
    for offset in call_sites {
        put_call(out, *offset)?;
    }
    Ok(())
}

fn put_tries(out: &mut Vec<u8>, tries: &[MachTryCallSite]) -> Result<(), OutOfMemory>
    ensures { OnOk result (out.new.items ≡ out.old.items ++ flat_map try_line tries.now) }
{
    for t in tries {
        put_try(out, t)?;
    }
    Ok(())
}

fn put_patches(out: &mut Vec<u8>, patches: &[MachPatchable]) -> Result<(), OutOfMemory>
    ensures { OnOk result (out.new.items ≡ out.old.items ++ flat_map patch_line patches.now) }
{
    for p in patches {
        put_patch(out, p)?;
    }
    Ok(())
}

fn put_maps(alloc: Global, out: &mut Vec<u8>, maps: &[MachStackMap]) -> Result<(), OutOfMemory>
    ensures { OnOk result (out.new.items ≡ out.old.items ++ flat_map map_line maps.now) }
{
    for m in maps {
        put_map(alloc, out, m)?;
    }
    Ok(())
}

fn put_unwinds(alloc: Global, out: &mut Vec<u8>, unwinds: &[MachUnwind]) -> Result<(), OutOfMemory>
    ensures { OnOk result (out.new.items ≡ out.old.items ++ flat_map unwind_line unwinds.now) }
{
    for u in unwinds {
        put_unwind(alloc, out, u)?;
    }
    Ok(())
}

/// The room for a report's text: about what its lines of bytes and of spans take. A report has very many lines, and a text that grows
/// by doubling is copied, and touches its pages twice; room that stays untouched costs nothing.
fn estimated_room(code: &Code) -> usize {
    let bytes = code.bytes.len().saturating_mul(3);
    bytes.saturating_add(code.lines.len().saturating_mul(32))
}

// The text of the code, with these lines before its last one.
fn text_of(alloc: Global, code: &Code, texts: &[u8]) -> Result<Vec<u8>, OutOfMemory>
    ensures { IfOk result (λ text. text.items ≡ report_with texts.now code.now) }
{
    let mut out = Vec::with_capacity(alloc, estimated_room(code).saturating_add(texts.len()))?;
    end_line(&mut out, b"code ", code.bytes.len() as u64)?;
    put_hex_lines(&mut out, code.bytes.as_slice())?;
    put_spans(&mut out, code.lines.as_slice())?;
    put_returns(&mut out, code.returns.as_slice())?;
    put_labels(&mut out, code.labels.as_slice())?;
    put_constants(&mut out, code.constants.as_slice())?;
    put_relocs(&mut out, code.relocs.as_slice())?;
    put_traps(alloc, &mut out, code.traps.as_slice())?;
    put_calls(&mut out, code.call_sites.as_slice())?;
    put_tries(&mut out, code.try_call_sites.as_slice())?;
    put_patches(&mut out, code.patchable_call_sites.as_slice())?;
    put_maps(alloc, &mut out, code.stack_maps.as_slice())?;
    put_unwinds(alloc, &mut out, code.unwinds.as_slice())?;
    put(&mut out, texts)?;
    end_line(&mut out, b"end ", code.end as u64)?;
    Ok(out)
}

/// The text of the code, in lines that LF ends: its length, its bytes in lines of sixteen, where each line stands, where each
/// call returns, where each label and each constant stands, each relocation, each trap and its cause, each call site, each call
/// that may throw and its handlers, each call that may be patched, the values on the stack where calls return, each step in the
/// making of the frame, and where the last line ends. Numbers are decimal but in the lines of bytes. No other code has this text.
pub fn report(alloc: Global, code: &Code) -> Result<Vec<u8>, OutOfMemory>
    ensures text { IfOk result (λ text. text.items ≡ report code.now) }
    ensures one_code { IfOk result (λ text. (other : ACode) → CodeFits code.now → CodeFits other → report other ≡ text.items → other ≡ code.now) }
{
    let text = text_of(alloc, code, b"")?;
    Ok(text)
}

/// The same text, with more lines before the last: those of the texts of its listing's instructions.
pub fn report_with(alloc: Global, code: &Code, texts: &[u8]) -> Result<Vec<u8>, OutOfMemory>
    ensures { IfOk result (λ text. text.items ≡ report_with texts.now code.now) }
{
    text_of(alloc, code, texts)
}
