//! The bytes of memory that a run changed, in rows of 16.

ghost use Rattle.std.specs.Prelude.{◌≡◌, ◌++◌, [], ◌∷◌, IfOk, OnOk, codes, string_bytes};
ghost use Rattle.hex.specs.Hex.{encode_lower};
ghost use Rattle.rv_run.specs.Memory.{row_bytes, row_line, row_lines, is_changed, row_of, rows_of, memory_lines};
ghost use Rattle.rv_steps.specs.Files.{hex};

use rv_base::OutOfMemory;
use rv_machine::IntMachine;
use std::alloc::Global;

fn put(out: &mut Vec<u8>, text: &[u8]) -> Result<(), OutOfMemory>
    ensures { OnOk result (out.new.items ≡ out.old.items ++ text.now) }
{
    out.extend_from_slice(text)?;
    Ok(())
}

fn put_byte(out: &mut Vec<u8>, byte: u8) -> Result<(), OutOfMemory>
    ensures { OnOk result (out.new.items ≡ out.old.items ++ encode_lower (byte ∷ [])) }
{
    let mut digits = [0u8; 2];
    let bytes = [byte];
    let _ = hex::encode_to_slice(bytes.as_slice(), &mut digits[..]);
    put(out, &digits)
}

fn put_bytes(out: &mut Vec<u8>, machine: &IntMachine, at: u64) -> Result<(), OutOfMemory>
    ensures { OnOk result (out.new.items ≡ out.old.items ++ row_bytes machine.now.state.values.mem at 16) }
{
    for n in 0u64..16 {
        put_byte(out, machine.byte(at.wrapping_add(n)))?;
    }
    Ok(())
}

fn row_start(alloc: Global, at: u64) -> Result<String, OutOfMemory>
    ensures { IfOk result (λ text. string_bytes text ≡ codes "memory 0x" ++ hex at ++ codes ": ") }
{
    Ok(format!(in alloc; "memory 0x{at:x}: ")?)
}

fn put_row(
    alloc: Global,
    out: &mut Vec<u8>,
    machine: &IntMachine,
    at: u64,
) -> Result<(), OutOfMemory>
    ensures { OnOk result (out.new.items ≡ out.old.items ++ row_line machine.now.state.values.mem at) }
{
    put(out, row_start(alloc, at)?.as_bytes())?;
    put_bytes(out, machine, at)?;
    put(out, b"\n")
}

fn put_rows(
    alloc: Global,
    out: &mut Vec<u8>,
    machine: &IntMachine,
    rows: &[u64],
) -> Result<(), OutOfMemory>
    ensures { OnOk result (out.new.items ≡ out.old.items ++ row_lines machine.now.state.values.mem rows.now) }
{
    for row in rows {
        put_row(alloc, out, machine, *row)?;
    }
    Ok(())
}

fn is_changed(before: &IntMachine, after: &IntMachine, at: u64) -> bool
    ensures { result ≡ is_changed before.now.state.values.mem after.now.state.values.mem at }
{
    before.byte(at) != after.byte(at)
}

// The rows of the addresses that changed.
fn rows_of(
    alloc: Global,
    before: &IntMachine,
    after: &IntMachine,
    addresses: &[u64],
) -> Result<Vec<u64>, OutOfMemory>
    ensures { IfOk result (λ rows. rows.items ≡ rows_of before.now.state.values.mem after.now.state.values.mem addresses.now) }
{
    let mut rows = Vec::new(alloc);
    for address in addresses {
        if is_changed(before, after, *address) {
            rows.push(*address / 16 * 16)?;
        }
    }
    Ok(rows)
}

/// A line for each row of 16 bytes in which one changed from one machine to another that steps lead to, in order: its first
/// address, and its bytes after the steps.
pub(crate) fn memory_lines(
    alloc: Global,
    before: &IntMachine,
    after: &IntMachine,
) -> Result<Vec<u8>, OutOfMemory>
    ensures { IfOk result (λ lines. lines.items ≡ memory_lines before.now.state.values.mem after.now.state.values.mem) }
{
    let addresses = after.addresses(alloc)?;
    let mut rows = rows_of(alloc, before, after, &addresses)?;
    rows.dedup();
    let mut lines = Vec::new(alloc);
    put_rows(alloc, &mut lines, after, &rows)?;
    Ok(lines)
}
