//! The buffer over a toy: its calls, and an assembler of items.

ghost use Rattle.std.specs.Prelude.{◌≡◌, ◌∷◌, []};
ghost use Rattle.rv_base.specs.LabelUse.{code_limit};
ghost use Rattle.mach_labels.specs.Table.{first_inner};
ghost use Rattle.std.specs.Prelude.{◌≤◌, ◌<◌, ◌^◌, length, IfOk, None};
ghost use Rattle.mach_buffer.specs.Buffer.{bytes_of, place_of, allocated_of, IsSound};

use crate::error::ToyError;
use crate::toy::Toy;
use mach_buffer::{Finished, MachBuffer};
use rv_base::{
    Constant, IrType, List, MachInstLabelUse, MachLabel, OutOfMemory, Reloc, RelocTarget, TrapCode,
    TryCallHandler, UnwindInst, UserStackMap, VCodeConstant, f_reg,
};
use std::alloc::{AllocError, Global};

/// A use of one byte, and no bytes.
fn with_use(alloc: Global, label: MachLabel) -> Result<MachBuffer<Toy>, OutOfMemory>
    requires { label.number < first_inner }
    ensures empty { IfOk result (λ b. bytes_of b ≡ []) }
    ensures unbound { IfOk result (λ b. place_of b label.number ≡ None) }
    ensures allocated { IfOk result (λ b. allocated_of b ≡ 0) }
    ensures sound { IfOk result (λ b. IsSound ⟦<Toy as MachInstLabelUse>⟧.kinds b) }
{
    let mut buffer = MachBuffer::<Toy>::new(alloc);
    buffer.register_constants(&[])?;
    buffer.use_label_at_offset(0, label, Toy::Short)?;
    Ok(buffer)
}

/// A use of one byte, and 200 bytes.
fn with_use_and_bytes(alloc: Global, label: MachLabel) -> Result<MachBuffer<Toy>, OutOfMemory>
    requires { label.number < first_inner }
    ensures long { IfOk result (λ b. length (bytes_of b) ≡ 200) }
    ensures unbound { IfOk result (λ b. place_of b label.number ≡ None) }
    ensures allocated { IfOk result (λ b. allocated_of b ≡ 0) }
    ensures sound { IfOk result (λ b. IsSound ⟦<Toy as MachInstLabelUse>⟧.kinds b) }
{
    let mut buffer = with_use(alloc, label)?;
    buffer.put2(0x1100)?;
    buffer.put4(0x22222222)?;
    buffer.put8(0x3333333333333333)?;
    buffer.put_data(&[0x44; 186])?;
    Ok(buffer)
}

/// Returns whether an island is needed before 16 bytes and before 17, and before 1000 once the label is bound.
fn needed(alloc: Global) -> Result<[bool; 3], OutOfMemory> {
    let label = MachLabel::from_u32(5);
    let mut buffer = with_use_and_bytes(alloc, label)?;
    let before_16 = buffer.island_needed(16);
    let before_17 = buffer.island_needed(17);
    buffer.bind_label(label)?;
    Ok([before_16, before_17, buffer.island_needed(1000)])
}

/// Code is shorter than this many bytes.
pub const CODE_LIMIT: u64 = 2147479552;

/// Returns whether there is room for one byte too many and for as many as may be, and for eight more once the label is bound.
fn room_left(alloc: Global) -> Result<[bool; 3], OutOfMemory> {
    let label = MachLabel::from_u32(5);
    let mut buffer = with_use_and_bytes(alloc, label)?;
    let too_many = buffer.has_room(CODE_LIMIT - 240);
    let most = buffer.has_room(CODE_LIMIT - 1 - 240);
    buffer.bind_label(label)?;
    Ok([too_many, most, buffer.has_room(CODE_LIMIT - 1 - 232)])
}

/// Where the code ends, and where the label stands before it is bound and then.
fn places(alloc: Global) -> Result<(u32, [Option<u32>; 2]), OutOfMemory> {
    let label = MachLabel::from_u32(5);
    let mut buffer = with_use_and_bytes(alloc, label)?;
    let end = buffer.cur_offset();
    let before = buffer.label_offset(label);
    buffer.bind_label(label)?;
    Ok((end, [before, buffer.label_offset(label)]))
}

/// What a buffer returns for branches that are reported to it.
fn reported_branches(buffer: &mut MachBuffer<Toy>) -> [Result<(), OutOfMemory>; 2] {
    let label = MachLabel::from_u32(5);
    [
        buffer.add_uncond_branch(196, 200, label),
        buffer.add_cond_branch(196, 200, label, &[0x44; 4]),
    ]
}

/// What a buffer returns for branches, and where its code ends then.
fn branches(alloc: Global) -> Result<([Result<(), OutOfMemory>; 2], u32), OutOfMemory> {
    let mut buffer = with_use_and_bytes(alloc, MachLabel::from_u32(5))?;
    let results = reported_branches(&mut buffer);
    Ok((results, buffer.cur_offset()))
}

/// What a spoiled buffer returns for no constants, and to branches.
fn refusals(
    alloc: Global,
) -> Result<(Result<(), OutOfMemory>, [Result<(), OutOfMemory>; 2]), OutOfMemory> {
    let mut buffer = with_use_and_bytes(alloc, MachLabel::from_u32(5))?;
    buffer.spoil();
    let constants = buffer.register_constants(&[]);
    Ok((constants, reported_branches(&mut buffer)))
}

/// Writes where islands are needed, and what room is left.
fn write_rules(alloc: Global, text: &mut String) -> Result<(), ToyError> {
    let needed = needed(alloc)?;
    writeln!(
        text,
        "an island before 16 bytes, before 17, and once none is pending: {needed:?}"
    )?;
    let room = room_left(alloc)?;
    Ok(writeln!(
        text,
        "room for a byte too many, for the most, and for eight more: {room:?}"
    )?)
}

fn write_branches(alloc: Global, text: &mut String) -> Result<(), ToyError> {
    let (results, end) = branches(alloc)?;
    writeln!(text, "branches: {results:?}, the end {end}")?;
    let (constants, branches) = refusals(alloc)?;
    Ok(writeln!(text, "after it is spoiled: {constants:?}, {branches:?}")?)
}

/// Writes what single calls of the buffer give.
pub(crate) fn write(alloc: Global, text: &mut String) -> Result<(), ToyError> {
    write_rules(alloc, text)?;
    let (end, [before, after]) = places(alloc)?;
    writeln!(
        text,
        "the end {end}; a label before and after it is bound: {before:?} {after:?}"
    )?;
    write_branches(alloc, text)
}

/// What the assembler below reads.
#[derive(Clone, Copy)]
pub enum Item {
    /// An even number of filler bytes, up to 250.
    Fill(u32),
    /// A use of one of four labels: a byte with its window, and a byte 0x11.
    Use(u32),
    /// One of four labels stands here, unless it stands elsewhere.
    Bind(u32),
    /// A use of a constant: a byte with its window, and a byte 0x11.
    Name(u32),
    /// A record at the end of the code.
    Record(Note),
}

/// What is recorded.
#[derive(Clone, Copy)]
pub enum Note {
    /// That the stack overflows there.
    Trap,
    /// A relocation that refers to a symbol or to a label.
    Refers(Reloc, RelocTarget, i64),
    /// A relocation that refers to an offset.
    RefersTo(Reloc, u32, i64),
    /// A step in the making of the frame.
    Makes(Step),
    /// A call site.
    Calls,
    /// The call site of a call that may throw: the distance to the frame pointer, where it is known, and the handlers.
    Throws(Option<u32>, &'static [TryCallHandler]),
    /// A call of so many bytes that may be patched.
    Patches(u32),
    /// How many bytes of the frame a stack map covers, and the offsets of the integers of 64 bits that it holds.
    Maps(u32, &'static [u32]),
}

/// A step in the making of a frame, with its distances or sizes.
#[derive(Clone, Copy)]
pub enum Step {
    Push(u32),
    Frame(u32, u32),
    Alloc(u32),
    /// The register fs11 is saved.
    Save(u32),
}

/// The step as it is recorded.
pub fn inst_of(step: Step) -> UnwindInst {
    match step {
        Step::Push(offset_upward_to_caller_sp) => UnwindInst::PushFrameRegs {
            offset_upward_to_caller_sp,
        },
        Step::Frame(offset_upward_to_caller_sp, offset_downward_to_clobbers) => {
            UnwindInst::DefineNewFrame {
                offset_upward_to_caller_sp,
                offset_downward_to_clobbers,
            }
        }
        Step::Alloc(size) => UnwindInst::StackAlloc { size },
        Step::Save(clobber_offset) => UnwindInst::SaveReg {
            clobber_offset,
            reg: f_reg(27),
        },
    }
}

ghost use Rattle.std.specs.Prelude.{OnOk, ℕ, ◌+◌, ◌*◌, true, false, is_some};
ghost use Rattle.mach_buffer.specs.Buffer.{shape_of, registered_of, pending_of, spoiled_of, Unless};
ghost use Rattle.mach_uses.specs.Reach.{HasSlack};
ghost use Rattle.mach_buffer.specs.Shape.{IsUsable};
ghost use Rattle.mach_uses.specs.Labels.{inner_count};
ghost use Rattle.mach_buffer.specs.Constants.{reserve_of};
ghost use Rattle.mach_buffer.specs.Kept.{IsMet, IsKept};
ghost use Rattle.mach_vectors.specs.OneByte.{IsOneByte};

/// Puts a jump of four bytes over an island, and the island.
fn put_jump<L: MachInstLabelUse>(buffer: &mut MachBuffer<L>, kind: L) -> Result<(), OutOfMemory>
    requires kind { IsOneByte L.kinds kind }
    requires kept { IsKept L.kinds 4 buffer.old }
    requires few { Unless (spoiled_of buffer.old) (allocated_of buffer.old < inner_count) }
    requires room { Unless (spoiled_of buffer.old) (length (bytes_of buffer.old) + 8 * length (pending_of L.kinds buffer.old) + reserve_of (shape_of buffer.old) + 17 < code_limit) }
    ensures unspoiled { OnOk result (spoiled_of buffer.old ≡ false) }
    ensures kept { OnOk result (IsKept L.kinds 4 buffer.new) }
    ensures none { OnOk result (pending_of L.kinds buffer.new ≡ []) }
    ensures near { OnOk result (length (bytes_of buffer.new) + reserve_of (shape_of buffer.new) ≤ length (bytes_of buffer.old) + 17 + 8 * length (pending_of L.kinds buffer.old) + reserve_of (shape_of buffer.old)) }
    ensures registered { OnOk result (registered_of buffer.new ≡ registered_of buffer.old) }
{
    let after_island = buffer.get_label()?;
    let at = buffer.cur_offset();
    buffer.use_label_at_offset(at, after_island, kind)?;
    buffer.put4(0xaaaaaa00)?;
    buffer.emit_island(after_island)?;
    Ok(())
}

/// Notes where an island stands.
fn add_island(islands: &mut Vec<u32>, offset: u32) -> Result<(), AllocError> {
    islands.push(offset)?;
    Ok(())
}

/// Makes an island where one is needed before so many bytes, and notes where it stands.
pub fn emit_due_island<L: MachInstLabelUse>(
    buffer: &mut MachBuffer<L>,
    kind: L,
    distance: u32,
    islands: &mut Vec<u32>,
) -> Result<(), ToyError>
    requires kind { IsOneByte L.kinds kind }
    requires kept { IsKept L.kinds 4 buffer.old }
    ensures kept { OnOk result (IsKept L.kinds 4 buffer.new) }
    ensures slack { OnOk result (HasSlack (length (bytes_of buffer.new) + distance) 30 (pending_of L.kinds buffer.new)) }
    ensures room { OnOk result (length (bytes_of buffer.new) + distance + 10 < code_limit) }
    ensures registered { OnOk result (registered_of buffer.new ≡ registered_of buffer.old) }
{
    if !buffer.has_room(distance as u64) {
        return Err(ToyError::Refused("no room"));
    }
    if !buffer.island_needed(distance) {
        return Ok(());
    }
    add_island(islands, buffer.cur_offset())?;
    put_jump(buffer, kind)?;
    Ok(())
}

/// Puts filler bytes.
fn fill<L: MachInstLabelUse>(
    buffer: &mut MachBuffer<L>,
    kind: L,
    count: u32,
    islands: &mut Vec<u32>,
) -> Result<(), ToyError>
    requires kind { IsOneByte L.kinds kind }
    requires kept { IsKept L.kinds 4 buffer.old }
    ensures kept { OnOk result (IsKept L.kinds 4 buffer.new) }
    ensures registered { OnOk result (registered_of buffer.new ≡ registered_of buffer.old) }
{
    if count > 250 || count % 2 != 0 {
        return Err(ToyError::Refused("an odd count of filler bytes, or more than 250"));
    }
    emit_due_island(buffer, kind, count, islands)?;
    let bytes = [0x44; 250];
    buffer.put_data(&bytes[..count as usize])?;
    Ok(())
}

/// Puts a byte with the window of a use, and a byte 0x11.
fn put_window<L: MachInstLabelUse>(
    buffer: &mut MachBuffer<L>,
    kind: L,
    label: MachLabel,
) -> Result<(), OutOfMemory>
    requires kind { IsOneByte L.kinds kind }
    requires kept { IsKept L.kinds 4 buffer.old }
    requires met { IsMet 4 (shape_of buffer.old) label.number }
    requires usable { IsUsable (shape_of buffer.old) label.number }
    requires slack { HasSlack (length (bytes_of buffer.old) + 2) 30 (pending_of L.kinds buffer.old) }
    requires room { length (bytes_of buffer.old) + 2 < code_limit }
    ensures kept { OnOk result (IsKept L.kinds 4 buffer.new) }
    ensures registered { OnOk result (registered_of buffer.new ≡ registered_of buffer.old) }
{
    let at = buffer.cur_offset();
    buffer.use_label_at_offset(at, label, kind)?;
    buffer.put2(0x1100)?;
    Ok(())
}

/// Puts a use of a label.
fn put_use<L: MachInstLabelUse>(
    buffer: &mut MachBuffer<L>,
    kind: L,
    label: u32,
    islands: &mut Vec<u32>,
) -> Result<(), ToyError>
    requires kind { IsOneByte L.kinds kind }
    requires kept { IsKept L.kinds 4 buffer.old }
    ensures kept { OnOk result (IsKept L.kinds 4 buffer.new) }
    ensures registered { OnOk result (registered_of buffer.new ≡ registered_of buffer.old) }
{
    if label >= 4 {
        return Err(ToyError::Refused("none of the four labels"));
    }
    emit_due_island(buffer, kind, 2, islands)?;
    put_window(buffer, kind, MachLabel::from_u32(label))?;
    Ok(())
}

/// Puts a use of a constant.
fn put_name<L: MachInstLabelUse>(
    buffer: &mut MachBuffer<L>,
    kind: L,
    constant: VCodeConstant,
    islands: &mut Vec<u32>,
) -> Result<(), ToyError>
    requires kind { IsOneByte L.kinds kind }
    requires kept { IsKept L.kinds 4 buffer.old }
    requires known { constant.number < length (registered_of buffer.old) }
    ensures kept { OnOk result (IsKept L.kinds 4 buffer.new) }
    ensures registered { OnOk result (registered_of buffer.new ≡ registered_of buffer.old) }
{
    emit_due_island(buffer, kind, 2, islands)?;
    let label = buffer.get_label_for_constant(constant)?;
    put_window(buffer, kind, label)?;
    Ok(())
}

/// Binds a label, unless it is bound.
fn bind<L: MachInstLabelUse>(buffer: &mut MachBuffer<L>, label: u32) -> Result<(), OutOfMemory>
    requires low { label < 4 }
    requires kept { IsKept L.kinds 4 buffer.old }
    ensures kept { OnOk result (IsKept L.kinds 4 buffer.new) }
    ensures bound { OnOk result (is_some (place_of buffer.new label) ≡ true) }
    ensures still { OnOk result ((other : ℕ) → is_some (place_of buffer.old other) ≡ true → is_some (place_of buffer.new other) ≡ true) }
    ensures registered { OnOk result (registered_of buffer.new ≡ registered_of buffer.old) }
{
    let named = MachLabel::from_u32(label);
    if buffer.label_offset(named).is_some() {
        return Ok(());
    }
    buffer.bind_label(named)?;
    Ok(())
}

/// A stack map of integers of 64 bits at these offsets.
fn map_of(alloc: Global, offsets: &[u32]) -> Result<UserStackMap, OutOfMemory> {
    let mut entries = Vec::new(alloc);
    for offset in offsets {
        entries.push((IrType::I64, *offset))?;
    }
    Ok(UserStackMap {
        entries: List::from_vec(entries),
    })
}

/// Records what a note asks.
fn put_note<L: MachInstLabelUse>(
    alloc: Global,
    buffer: &mut MachBuffer<L>,
    note: Note,
) -> Result<(), OutOfMemory>
    requires kept { IsKept L.kinds 4 buffer.old }
    ensures kept { OnOk result (IsKept L.kinds 4 buffer.new) }
    ensures registered { OnOk result (registered_of buffer.new ≡ registered_of buffer.old) }
{
    match note {
        Note::Trap => buffer.add_trap(TrapCode::STACK_OVERFLOW)?,
        Note::Refers(kind, target, addend) => buffer.add_reloc(kind, target, addend)?,
        Note::RefersTo(kind, offset, addend) => buffer.add_reloc_to(kind, offset, addend)?,
        Note::Makes(step) => buffer.add_unwind(inst_of(step))?,
        Note::Calls => buffer.add_call_site()?,
        Note::Throws(frame_offset, handlers) => buffer.add_try_call_site(frame_offset, handlers)?,
        Note::Patches(len) => buffer.add_patchable_call_site(len)?,
        Note::Maps(span, offsets) => {
            let map = map_of(alloc, offsets)?;
            let here = buffer.cur_offset();
            buffer.push_user_stack_map(here, span, &map)?
        }
    }
    Ok(())
}

/// Puts what an item asks.
pub fn put_item<L: MachInstLabelUse>(
    alloc: Global,
    buffer: &mut MachBuffer<L>,
    kind: L,
    constants: &[Constant],
    item: Item,
    islands: &mut Vec<u32>,
) -> Result<(), ToyError>
    requires kind { IsOneByte L.kinds kind }
    requires kept { IsKept L.kinds 4 buffer.old }
    requires registered { registered_of buffer.old ≡ constants.now }
    ensures kept { OnOk result (IsKept L.kinds 4 buffer.new) }
    ensures registered { OnOk result (registered_of buffer.new ≡ constants.now) }
{
    match item {
        Item::Fill(count) => fill(buffer, kind, count, islands),
        Item::Use(label) => put_use(buffer, kind, label, islands),
        Item::Bind(label) => {
            if label >= 4 {
                return Err(ToyError::Refused("none of the four labels"));
            }
            emit_due_island(buffer, kind, 0, islands)?;
            bind(buffer, label)?;
            Ok(())
        }
        Item::Name(number) => {
            if number as usize >= constants.len() {
                return Err(ToyError::Refused("none of the constants"));
            }
            put_name(buffer, kind, VCodeConstant::from_u32(number), islands)
        }
        Item::Record(note) => {
            put_note(alloc, buffer, note)?;
            Ok(())
        }
    }
}

/// Binds each of the four labels that is not bound.
fn bind_each<L: MachInstLabelUse>(buffer: &mut MachBuffer<L>) -> Result<(), OutOfMemory>
    requires kept { IsKept L.kinds 4 buffer.old }
    ensures kept { OnOk result (IsKept L.kinds 4 buffer.new) }
    ensures bound { OnOk result ((label : ℕ) → label < 4 → is_some (place_of buffer.new label) ≡ true) }
    ensures registered { OnOk result (registered_of buffer.new ≡ registered_of buffer.old) }
{
    bind(buffer, 0)?;
    bind(buffer, 1)?;
    bind(buffer, 2)?;
    bind(buffer, 3)?;
    Ok(())
}

/// Binds each label that is not bound, and finishes.
fn bind_and_finish<L: MachInstLabelUse>(
    mut buffer: MachBuffer<L>,
    constants: &[Constant],
) -> Result<Finished, ToyError>
    requires kept { IsKept L.kinds 4 buffer }
    requires registered { registered_of buffer ≡ constants.now }
{
    bind_each(&mut buffer)?;
    if !buffer.has_room(0) {
        return Err(ToyError::Refused("no room"));
    }
    let finished = buffer.finish(constants)?;
    Ok(finished)
}

/// An empty buffer with these constants.
pub fn empty<L: MachInstLabelUse>(
    alloc: Global,
    constants: &[Constant],
) -> Result<MachBuffer<L>, OutOfMemory>
    requires { length constants.now ≤ inner_count }
    ensures kept { IfOk result (λ b. IsKept L.kinds 4 b) }
    ensures registered { IfOk result (λ b. registered_of b ≡ constants.now) }
{
    let mut buffer = MachBuffer::<L>::new(alloc);
    buffer.register_constants(constants)?;
    Ok(buffer)
}

/// Assembles items, and notes where islands stand.
pub fn assemble<L: MachInstLabelUse>(
    alloc: Global,
    kind: L,
    constants: &[Constant],
    items: &[Item],
    islands: &mut Vec<u32>,
) -> Result<Finished, ToyError>
    requires kind { IsOneByte L.kinds kind }
{
    if constants.len() > 100 {
        return Err(ToyError::Refused("more than 100 constants"));
    }
    let mut buffer = empty::<L>(alloc, constants)?;
    for item in items {
        put_item(alloc, &mut buffer, kind, constants, *item, islands)?;
    }
    bind_and_finish(buffer, constants)
}

/// The code of items over the toy.
pub fn code_of_items(
    alloc: Global,
    constants: &[Constant],
    items: &[Item],
) -> Result<Finished, ToyError> {
    let mut islands = Vec::new(alloc);
    assemble(alloc, Toy::Short, constants, items, &mut islands)
}
