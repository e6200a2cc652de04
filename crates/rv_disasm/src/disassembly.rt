//! Words to texts.

ghost use Rattle.std.specs.Prelude.{◌≡◌, ◌++◌, MatchOption, OnOk, IfOk, IfSome, string_bytes, Some, None};
ghost use Rattle.rv_machine.specs.Layout.{HasFileRegisters};
ghost use Rattle.rv_disasm.specs.Text.{instruction, word_text};

use crate::forms::{Form, form_at};
use crate::text::{put_data, put_instruction};
use rv_base::{IsaFlags, OutOfMemory};
use rv_machine::{Decoded, decode};
use std::alloc::Global;

/// The row of a word with its operation, where it has one under these flags.
pub(crate) fn instruction(flags: IsaFlags, word: u32) -> Option<(Form, Decoded)>
    ensures value { MatchOption result (instruction flags word ≡ None) (λ i. instruction flags word ≡ Some (i.0, i.1)) }
    ensures registers { IfSome result (λ i. HasFileRegisters i.1) }
{
    let d = decode(flags, word)?;
    let form = form_at(word, d.op)?;
    Some((form, d))
}

/// Appends the text of a word under these flags: its mnemonic and its free fields, or, where it has no operation, its digits.
pub fn put_text(
    alloc: Global,
    out: &mut String,
    flags: IsaFlags,
    word: u32,
) -> Result<(), OutOfMemory>
    ensures { OnOk result (string_bytes out.new ≡ string_bytes out.old ++ word_text flags word) }
{
    match instruction(flags, word) {
        Some((form, d)) => put_instruction(out, form, &d),
        None => put_data(alloc, out, word),
    }
}

/// The text of a word under these flags: its mnemonic and its free fields, or, where it has no operation, its digits.
pub fn disasm(alloc: Global, flags: IsaFlags, word: u32) -> Result<String, OutOfMemory>
    ensures { IfOk result (λ text. string_bytes text ≡ word_text flags word) }
{
    let mut text = String::new(alloc);
    put_text(alloc, &mut text, flags, word)?;
    Ok(text)
}
