//! The headers of an object's file and of its sections.

ghost use Rattle.std.specs.Prelude.{◌≡◌, ◌+◌, ◌-◌, ◌≤◌, ◌++◌, length, replicate, OnOk};
ghost use Rattle.rv_obj.specs.Elf.{section_kind, section_links, section_header, table_headers, file_places, text_section, rela_section, symbol_section, string_section, name_section, section_headers, ident, file_kind, header_sizes, file_header};
ghost use Rattle.rv_obj.specs.Ends.{AreEnds};

use crate::elf::Object;
use crate::numbers::{
    EHDR_SIZE, ELFCLASS64, ELFDATA2LSB, ELFOSABI_NONE, EM_RISCV, ET_REL, EV_CURRENT, RELA_SIZE,
    SHDR_SIZE, SHF_ALLOC, SHF_EXECINSTR, SHF_INFO_LINK, SHT_PROGBITS, SHT_RELA, SHT_STRTAB,
    SHT_SYMTAB, SYM_SIZE,
};
use crate::tables::{Ends, TEXT_SECTION, put, put_2, put_4, put_8};
use rv_base::OutOfMemory;

// ---- the sections after that of the code, by their numbers

const SYMTAB_SECTION: u32 = 3;

const STRTAB_SECTION: u32 = 4;

const SHSTRTAB_SECTION: u16 = 5;

/// How many sections there are, with section 0, which is none.
const SECTION_COUNT: u16 = 6;

// ---- where their names begin

const TEXT_NAME: u32 = 1;

const RELA_NAME: u32 = 7;

const SYMTAB_NAME: u32 = 18;

const STRTAB_NAME: u32 = 26;

const SHSTRTAB_NAME: u32 = 34;

// ---- the file's header

// Of 64 bits, the least byte first, version 1, System V.
fn put_ident(out: &mut Vec<u8>) -> Result<(), OutOfMemory>
    ensures { OnOk result (out.new.items ≡ out.old.items ++ ident) }
{
    put(out, b"\x7fELF")?;
    put(
        out,
        &[ELFCLASS64, ELFDATA2LSB, EV_CURRENT as u8, ELFOSABI_NONE],
    )?;
    put(out, &[0u8; 8])
}

// Relocatable, for RISC-V, version 1, no entry, no program headers.
fn put_kind(out: &mut Vec<u8>) -> Result<(), OutOfMemory>
    ensures { OnOk result (out.new.items ≡ out.old.items ++ file_kind) }
{
    put_2(out, ET_REL)?;
    put_2(out, EM_RISCV)?;
    put_4(out, EV_CURRENT)?;
    put_8(out, 0)?;
    put_8(out, 0)
}

// The sizes of headers, and which section has the names of sections.
fn put_sizes(out: &mut Vec<u8>) -> Result<(), OutOfMemory>
    ensures { OnOk result (out.new.items ≡ out.old.items ++ header_sizes) }
{
    put_2(out, EHDR_SIZE as u16)?;
    put_2(out, 0)?;
    put_2(out, 0)?;
    put_2(out, SHDR_SIZE as u16)?;
    put_2(out, SECTION_COUNT)?;
    put_2(out, SHSTRTAB_SECTION)
}

// Where the section headers begin, and the flags.
fn put_places(out: &mut Vec<u8>, object: &Object, ends: Ends) -> Result<(), OutOfMemory>
    requires { AreEnds object.now ends }
    ensures { OnOk result (out.new.items ≡ out.old.items ++ file_places object.now) }
{
    put_8(out, EHDR_SIZE + ends.all)?;
    put_4(out, object.flags)?;
    Ok(())
}

/// Appends the file's header.
pub(crate) fn put_file_header(
    out: &mut Vec<u8>,
    object: &Object,
    ends: Ends,
) -> Result<(), OutOfMemory>
    requires { AreEnds object.now ends }
    ensures { OnOk result (out.new.items ≡ out.old.items ++ file_header object.now) }
{
    put_ident(out)?;
    put_kind(out)?;
    put_places(out, object, ends)?;
    put_sizes(out)?;
    Ok(())
}

/// The header of a section, by the names of the System V ABI.
#[derive(Clone, Copy, Debug, PartialEq, Eq)]
pub struct Section {
    pub name: u32,
    pub kind: u32,
    pub flags: u64,
    pub offset: u64,
    pub size: u64,
    pub link: u32,
    pub info: u32,
    pub align: u64,
    pub entry: u64,
}

fn put_section_kind(out: &mut Vec<u8>, s: Section) -> Result<(), OutOfMemory>
    ensures { OnOk result (out.new.items ≡ out.old.items ++ section_kind s) }
{
    put_4(out, s.name)?;
    put_4(out, s.kind)?;
    put_8(out, s.flags)?;
    put_8(out, 0)?;
    Ok(())
}

fn put_section_links(out: &mut Vec<u8>, s: Section) -> Result<(), OutOfMemory>
    ensures { OnOk result (out.new.items ≡ out.old.items ++ section_links s) }
{
    put_4(out, s.link)?;
    put_4(out, s.info)?;
    put_8(out, s.align)?;
    put_8(out, s.entry)?;
    Ok(())
}

#[tactic(auto, unfolding(crate::specs::Elf::section_header))]
fn put_section(out: &mut Vec<u8>, s: Section) -> Result<(), OutOfMemory>
    ensures { OnOk result (out.new.items ≡ out.old.items ++ section_header s) }
{
    put_section_kind(out, s)?;
    put_8(out, s.offset)?;
    put_8(out, s.size)?;
    put_section_links(out, s)?;
    Ok(())
}

fn text_section(object: &Object) -> Section
    ensures { result ≡ text_section object.now }
{
    Section {
        name: TEXT_NAME,
        kind: SHT_PROGBITS,
        flags: SHF_ALLOC | SHF_EXECINSTR,
        offset: EHDR_SIZE,
        size: object.text.len() as u64,
        link: 0,
        info: 0,
        align: 4,
        entry: 0,
    }
}

fn rela_section(object: &Object, ends: Ends) -> Section
    requires { AreEnds object.now ends }
    ensures { result ≡ rela_section object.now }
{
    Section {
        name: RELA_NAME,
        kind: SHT_RELA,
        flags: SHF_INFO_LINK,
        offset: EHDR_SIZE + ends.relas,
        size: ends.symbols - ends.relas,
        link: SYMTAB_SECTION,
        info: u32::from(TEXT_SECTION),
        align: 8,
        entry: RELA_SIZE,
    }
}

fn symbol_section(object: &Object, ends: Ends) -> Section
    requires { AreEnds object.now ends }
    ensures { result ≡ symbol_section object.now }
{
    Section {
        name: SYMTAB_NAME,
        kind: SHT_SYMTAB,
        flags: 0,
        offset: EHDR_SIZE + ends.symbols,
        size: ends.strings - ends.symbols,
        link: STRTAB_SECTION,
        info: object.locals,
        align: 8,
        entry: SYM_SIZE as u64,
    }
}

fn string_section(object: &Object, ends: Ends) -> Section
    requires { AreEnds object.now ends }
    ensures { result ≡ string_section object.now }
{
    Section {
        name: STRTAB_NAME,
        kind: SHT_STRTAB,
        flags: 0,
        offset: EHDR_SIZE + ends.strings,
        size: ends.names - ends.strings,
        link: 0,
        info: 0,
        align: 1,
        entry: 0,
    }
}

fn name_section(object: &Object, ends: Ends) -> Section
    requires { AreEnds object.now ends }
    ensures { result ≡ name_section object.now }
{
    Section {
        name: SHSTRTAB_NAME,
        kind: SHT_STRTAB,
        flags: 0,
        offset: EHDR_SIZE + ends.names,
        size: ends.named - ends.names,
        link: 0,
        info: 0,
        align: 1,
        entry: 0,
    }
}

fn put_table_headers(out: &mut Vec<u8>, object: &Object, ends: Ends) -> Result<(), OutOfMemory>
    requires { AreEnds object.now ends }
    ensures { OnOk result (out.new.items ≡ out.old.items ++ table_headers object.now) }
{
    let symbols = symbol_section(object, ends);
    let strings = string_section(object, ends);
    let names = name_section(object, ends);
    put_section(out, symbols)?;
    put_section(out, strings)?;
    put_section(out, names)?;
    Ok(())
}

/// Appends the headers of all sections.
pub(crate) fn put_section_headers(
    out: &mut Vec<u8>,
    object: &Object,
    ends: Ends,
) -> Result<(), OutOfMemory>
    requires { AreEnds object.now ends }
    ensures { OnOk result (out.new.items ≡ out.old.items ++ section_headers object.now) }
{
    let text = text_section(object);
    let relas = rela_section(object, ends);
    put(out, &[0u8; SHDR_SIZE])?;
    put_section(out, text)?;
    put_section(out, relas)?;
    put_table_headers(out, object, ends)?;
    Ok(())
}
