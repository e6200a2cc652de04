//! The numbers of the System V ABI's object files and of the RISC-V ELF psABI that an object here has, by their own names.

// ---- the file's header

/// Of 64 bits.
pub(crate) const ELFCLASS64: u8 = 2;
/// The least byte first.
pub(crate) const ELFDATA2LSB: u8 = 1;
/// The one version there is.
pub(crate) const EV_CURRENT: u32 = 1;
/// System V.
pub(crate) const ELFOSABI_NONE: u8 = 0;
/// A relocatable object.
pub(crate) const ET_REL: u16 = 1;
/// RISC-V.
pub(crate) const EM_RISCV: u16 = 243;

// ---- how many bytes an `Elf64_Ehdr`, `Elf64_Shdr`, `Elf64_Sym` and `Elf64_Rela` have

pub(crate) const EHDR_SIZE: u64 = 64;

pub(crate) const SHDR_SIZE: usize = 64;

pub(crate) const SYM_SIZE: usize = 24;

pub(crate) const RELA_SIZE: u64 = 24;

// ---- sections

pub(crate) const SHT_PROGBITS: u32 = 1;

pub(crate) const SHT_SYMTAB: u32 = 2;

pub(crate) const SHT_STRTAB: u32 = 3;

pub(crate) const SHT_RELA: u32 = 4;

/// It takes memory while the program runs.
pub(crate) const SHF_ALLOC: u64 = 2;
/// It has instructions.
pub(crate) const SHF_EXECINSTR: u64 = 4;
/// Its `sh_info` is the number of a section.
pub(crate) const SHF_INFO_LINK: u64 = 0x40;

/// No section: that of an undefined symbol.
pub(crate) const SHN_UNDEF: u16 = 0;

// ---- symbols

pub(crate) const STB_LOCAL: u8 = 0;

pub(crate) const STB_GLOBAL: u8 = 1;

pub(crate) const STT_NOTYPE: u8 = 0;

// ---- relocations

pub(crate) const R_RISCV_64: u32 = 2;

pub(crate) const R_RISCV_CALL_PLT: u32 = 19;

pub(crate) const R_RISCV_GOT_HI20: u32 = 20;

pub(crate) const R_RISCV_PCREL_HI20: u32 = 23;

pub(crate) const R_RISCV_PCREL_LO12_I: u32 = 24;
