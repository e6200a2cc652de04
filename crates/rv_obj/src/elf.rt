//! The bytes of an object's file.

ghost use Rattle.std.specs.Prelude.{◌≡◌, ◌++◌, [], IfOk, OnOk};
ghost use Rattle.rv_obj.specs.Elf.{file_header, contents, section_headers, object_file};

use crate::headers::{put_file_header, put_section_headers};
use crate::tables::put_contents;
use rv_base::{List, OutOfMemory};
use std::alloc::Global;

/// A symbol.
#[derive(Drop)]
pub struct Symbol {
    pub name: List<u8>,
    /// Where it stands in the code, in bytes from its start; it is undefined where it doesn't.
    pub place: Option<u32>,
    /// Whether other objects see it.
    pub is_global: bool,
}

/// A relocation.
#[derive(Clone, Copy, Debug, PartialEq, Eq)]
pub struct Rela {
    /// In bytes from the code's start.
    pub offset: u32,
    /// By the psABI's numbers.
    pub kind: u32,
    /// The number of its symbol in the table.
    pub symbol: u32,
    pub addend: i64,
}

/// What an object holds.
#[derive(Drop)]
pub struct Object {
    pub text: List<u8>,
    pub relas: List<Rela>,
    /// The symbols after the first, empty entry of the table: first the local ones.
    pub symbols: List<Symbol>,
    /// The number of the first global symbol.
    pub locals: u32,
    /// The flags of the file's header.
    pub flags: u32,
}

/// The bytes of an object's file.
pub fn object_file(alloc: Global, object: &Object) -> Result<Vec<u8>, OutOfMemory>
    ensures { IfOk result (λ bytes. bytes.items ≡ object_file object.now) }
{
    let mut body = Vec::new(alloc);
    let ends = put_contents(alloc, &mut body, object)?;
    let mut file = Vec::new(alloc);
    put_file_header(&mut file, object, ends)?;
    file.extend_from_slice(&body)?;
    put_section_headers(&mut file, object, ends)?;
    Ok(file)
}
