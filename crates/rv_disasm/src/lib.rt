//! A disassembler whose text and word are one to one.
#![tactic(auto)]

mod disassembly;
mod fixed;
mod forms;
mod halfwords;
mod layouts;
mod mnemonics;
mod naming;
mod operations;
mod placing;
mod reading;
mod stripping;
mod text;
mod word;

pub use disassembly::{disasm, put_text};
pub use forms::Form;
pub use halfwords::HalfOp;
pub use layouts::{Field, File, Layout};
pub use mnemonics::mnemonic;
pub use operations::layout_of;
pub use reading::{cut, reasm};
pub use stripping::{strip, strip_decimal, strip_digits, strip_text};
pub use text::{put, put_decimal, put_field, put_fields, put_place, put_signed};
pub use word::{Word, word_at};
