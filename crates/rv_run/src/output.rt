//! The text of a run.

ghost use Rattle.std.specs.Prelude.{◌≡◌, ◌++◌, ◌<◌, ◌≤◌, length, IfOk, IfSome, OnOk, codes, string_bytes};
ghost use Rattle.std.specs.Fmt.{decimal};
ghost use Rattle.rv_machine.specs.Decode as decoding;
ghost use Rattle.rv_machine.specs.Layout.{HasFileRegisters};
ghost use Rattle.rv_steps.specs.Files.{hex};
ghost use Rattle.rv_run.specs.Output.{operation_text, ending_line, steps_line, calls_line, register_line, changes, run_text};

use crate::result::Run;
use rv_base::{IsaFlags, OutOfMemory, PReg, Reg, RegClass};
use rv_machine::{Decoded, decode};
use rv_steps::Ending;
use rv_trace::put_instruction;
use std::alloc::Global;

fn hex_line(alloc: Global, n: u64) -> Result<String, OutOfMemory>
    ensures { IfOk result (λ text. string_bytes text ≡ hex n ++ codes "\n") }
{
    Ok(format!(in alloc; "{n:x}\n")?)
}

fn no_operation_line(alloc: Global, offset: u64, word: u32) -> Result<String, OutOfMemory>
    ensures { IfOk result (λ text. string_bytes text ≡ codes "no operation at " ++ decimal offset ++ codes ": 0x" ++ hex word ++ codes "\n") }
{
    let mut text = format!(in alloc; "no operation at {offset}: 0x")?;
    text.push_str(hex_line(alloc, u64::from(word))?.as_str())?;
    Ok(text)
}

fn put_operation(out: &mut String, decoded: Option<Decoded>) -> Result<(), OutOfMemory>
    requires { IfSome decoded HasFileRegisters }
    ensures { OnOk result (string_bytes out.new ≡ string_bytes out.old ++ operation_text decoded) }
{
    match decoded {
        Some(d) => put_instruction(out, &d),
        None => Ok(()),
    }
}

fn needs_answer_line(
    alloc: Global,
    flags: IsaFlags,
    offset: u64,
    word: u32,
) -> Result<String, OutOfMemory>
    ensures { IfOk result (λ text. string_bytes text ≡ codes "needs an answer at " ++ decimal offset ++ codes ": " ++ operation_text (decoding.decode flags word) ++ codes "\n") }
{
    let mut text = format!(in alloc; "needs an answer at {offset}: ")?;
    put_operation(&mut text, decode(flags, word))?;
    text.push_str("\n")?;
    Ok(text)
}

fn ending_line(alloc: Global, flags: IsaFlags, ending: Ending) -> Result<String, OutOfMemory>
    ensures { IfOk result (λ text. string_bytes text ≡ ending_line flags ending) }
{
    match ending {
        Ending::Left { address } => Ok(format!(in alloc; "left the code to 0x{address:x}\n")?),
        Ending::Limit => Ok(format!(in alloc; "step limit\n")?),
        Ending::Break { offset } => Ok(format!(in alloc; "ebreak at {offset}\n")?),
        Ending::NoOperation { offset, word } => no_operation_line(alloc, offset, word),
        Ending::NeedsAnswer { offset, word } => needs_answer_line(alloc, flags, offset, word),
    }
}

fn steps_line(alloc: Global, steps: u64) -> Result<String, OutOfMemory>
    ensures { IfOk result (λ text. string_bytes text ≡ steps_line steps) }
{
    Ok(format!(in alloc; "steps {steps}\n")?)
}

fn calls_line(alloc: Global, has_callees: bool, calls: u64) -> Result<String, OutOfMemory>
    ensures { IfOk result (λ text. string_bytes text ≡ calls_line has_callees calls) }
{
    if has_callees {
        Ok(format!(in alloc; "calls {calls}\n")?)
    } else {
        Ok(String::new(alloc))
    }
}

fn register_line(alloc: Global, number: u8, value: u64) -> Result<String, OutOfMemory>
    requires { number < 32 }
    ensures { IfOk result (λ text. string_bytes text ≡ register_line number value) }
{
    let register = Reg::Real(PReg::new(number, RegClass::Int));
    let signed = value.cast_signed();
    Ok(format!(in alloc; "{register} {signed} 0x{value:x}\n")?)
}

fn put(out: &mut Vec<u8>, text: &str) -> Result<(), OutOfMemory>
    ensures { OnOk result (out.new.items ≡ out.old.items ++ text.now) }
{
    out.extend_from_slice(text.as_bytes())?;
    Ok(())
}

// The lines of the registers that changed, from x1 on.
fn put_changes(
    alloc: Global,
    out: &mut Vec<u8>,
    before: &[u64],
    after: &[u64],
) -> Result<(), OutOfMemory>
    requires few { length before.now ≤ 31 }
    requires same { length after.now ≡ length before.now }
    ensures { OnOk result (out.new.items ≡ out.old.items ++ changes 1 before.now after.now) }
{
    for n in 0..before.len() {
        let value = after[n];
        if before[n] != value {
            put(out, register_line(alloc, n as u8 + 1, value)?.as_str())?;
        }
    }
    Ok(())
}

/// The text of a run: its steps where they were asked for, how it ended, how many steps it had and how many the callees, where there are
/// any, and the registers and the memory that changed.
pub fn put_run(alloc: Global, out: &mut Vec<u8>, run: &Run) -> Result<(), OutOfMemory>
    ensures { OnOk result (out.new.items ≡ out.old.items ++ run_text run.now) }
{
    out.extend_from_slice(run.trace.as_slice())?;
    put(out, ending_line(alloc, run.flags, run.ending)?.as_str())?;
    put(out, steps_line(alloc, run.steps)?.as_str())?;
    put(out, calls_line(alloc, run.has_callees, run.calls)?.as_str())?;
    put_changes(alloc, out, run.before.as_slice(), run.after.as_slice())?;
    out.extend_from_slice(run.units.as_slice())?;
    out.extend_from_slice(run.memory.as_slice())?;
    Ok(())
}
