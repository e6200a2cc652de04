//! The texts of a listing's instructions.

ghost use Rattle.std.specs.Prelude.{◌≡◌, ◌++◌, IfOk, OnOk, string_bytes, codes};
ghost use Rattle.std.specs.Fmt.{decimal};
ghost use Rattle.rv_text.specs.Texts.{text_of};
ghost use Rattle.rv_text.specs.Lines.{line_text, texts};

use crate::operands::put;
use crate::text::put_text;
use rv_base::OutOfMemory;
use rv_inst::{Inst, Line};
use std::alloc::Global;
use std::fmt::Write;

fn put_line(out: &mut String, index: usize, inst: &Inst) -> Result<(), OutOfMemory>
    ensures { OnOk result (string_bytes out.new ≡ string_bytes out.old ++ codes "text " ++ decimal index ++ codes " " ++ text_of inst.now ++ codes "\n") }
{
    write!(out, "text {index} ")?;
    put_text(out, inst)?;
    put(out, "\n")
}

fn put_text_of_line(out: &mut String, index: usize, line: &Line) -> Result<(), OutOfMemory>
    ensures { OnOk result (string_bytes out.new ≡ string_bytes out.old ++ line_text index line.now) }
{
    match line {
        Line::Inst(inst) => put_line(out, index, inst),
        Line::Bind(_) => Ok(()),
    }
}

/// A line `text I TEXT` for each line that is an instruction, with its place I among the lines, from 0.
pub fn texts(alloc: Global, lines: &[Line]) -> Result<Vec<u8>, OutOfMemory>
    ensures { IfOk result (λ bytes. bytes.items ≡ texts lines.now) }
{
    let mut out = String::new(alloc);
    for (index, line) in lines.iter().enumerate() {
        put_text_of_line(&mut out, index, line)?;
    }
    Ok(out.into_bytes())
}
