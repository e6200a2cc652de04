//! Relocations.

use crate::external_name::ExternalName;
use crate::label::MachLabel;

/// How a place in code depends on a symbol, by the names of the RISC-V ELF psABI's section "Relocations". S is the
/// symbol's address plus the addend, P the place's own address.
#[derive(Clone, Copy, Debug, PartialEq, Eq)]
pub enum Reloc {
    /// R_RISCV_CALL_PLT: an `auipc` and the `jalr` after it, whose two immediates make S - P.
    RiscvCallPlt,
    /// R_RISCV_GOT_HI20: an `auipc` with the upper part of the distance to the GOT slot that holds the symbol's address.
    RiscvGotHi20,
    /// R_RISCV_PCREL_HI20: an `auipc` with the upper part of S - P.
    RiscvPCRelHi20,
    /// R_RISCV_PCREL_LO12_I: an I-type instruction with the lower part of the distance whose upper part the `auipc` at S has.
    RiscvPCRelLo12I,
    /// R_RISCV_64: eight bytes with S.
    Abs8,
}

/// What a relocation refers to.
#[derive(Clone, Copy, Debug, PartialEq, Eq)]
pub enum RelocTarget {
    /// A symbol.
    Name(ExternalName),
    /// A place in the code itself.
    Label(MachLabel),
}
