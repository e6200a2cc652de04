//! The text of an instruction.

ghost use Rattle.std.specs.Prelude.{◌≡◌, ◌++◌, ℕ, List, IfOk, OnOk, string_bytes};
ghost use Rattle.rv_text.specs.Texts.{text_of};

use crate::calls::put_call;
use crate::control::put_control;
use crate::floats::put_float;
use crate::integer::put_integer;
use crate::loops::put_loop;
use crate::memory::put_memory;
use crate::pseudo::put_pseudo;
use crate::symbols::put_symbol;
use rv_base::OutOfMemory;
use rv_inst::{Family, Inst};
use std::alloc::Global;

/// Appends the text of an instruction. After an error some of it may stand there.
pub fn put_text(out: &mut String, inst: &Inst) -> Result<(), OutOfMemory>
    ensures { OnOk result (string_bytes out.new ≡ string_bytes out.old ++ text_of inst.now) }
{
    match inst.family() {
        Family::Pseudo => put_pseudo(out, inst),
        Family::Integer => put_integer(out, inst),
        Family::Memory => put_memory(out, inst),
        Family::Control => put_control(out, inst),
        Family::Loop => put_loop(out, inst),
        Family::Symbols => put_symbol(out, inst),
        Family::Calls => put_call(out, inst),
        Family::Float => put_float(out, inst),
    }
}

/// What has a text.
pub trait ToText {
    /// The bytes of the text.
    ghost text: { Self → List ℕ };

    /// The text, as `inst.to_text(alloc)` gives that of an instruction.
    fn to_text(&self, alloc: Global) -> Result<String, OutOfMemory>
        ensures { IfOk result (λ bytes. string_bytes bytes ≡ text self.now) };
}

impl ToText for Inst {
    ghost text = { text_of };

    fn to_text(&self, alloc: Global) -> Result<String, OutOfMemory> {
        let mut out = String::new(alloc);
        put_text(&mut out, self)?;
        Ok(out)
    }
}
