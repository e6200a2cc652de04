//! Code as a linker leaves it, with the bytes filled that relocations ask for. The filler follows the RISC-V psABI's table of
//! relocations: S is the symbol's address, A the addend, P the address of the bytes; R_RISCV_PCREL_HI20 and R_RISCV_GOT_HI20 put
//! `(d + 0x800) >> 12` into an `auipc`, where d is S + A - P or the distance to the symbol's slot in the GOT; R_RISCV_PCREL_LO12_I puts
//! what is left of the same d into the instruction after it; R_RISCV_CALL_PLT puts both parts of S + A - P into an `auipc` and the
//! `jalr` after it; and R_RISCV_64 puts S + A.

use crate::error::RunError;
use mach_records::FinalizedRelocTarget;
use rv_base::{OutOfMemory, Reloc};
use rv_inst::{Code, MachReloc};
use rv_machine::IntMachine;
use std::alloc::{AllocError, Global};

/// The distances that the upper and the lower part of a pair can make.
const LEAST: i64 = -2147485696;

const GREATEST: i64 = 2147481599;

/// Where code is, the symbols are, and the slots are that hold their addresses.
#[derive(Clone, Copy)]
pub(crate) struct Placing {
    pub(crate) base: u64,
    pub(crate) symbols: [u64; 2],
    pub(crate) slots: [u64; 2],
}

/// The upper and the lower part of a distance, as the fields of twenty and of twelve bits have them.
fn parts(distance: i64) -> (u32, u32) {
    let upper = distance.wrapping_add(0x800) >> 12;
    let lower = distance.wrapping_sub(upper << 12);
    ((upper & 0xfffff) as u32, (lower & 0xfff) as u32)
}

/// The parts of a distance, in hexadecimal digits.
pub(crate) fn parts_text(alloc: Global, distance: &str) -> Result<String, AllocError> {
    let (upper, lower) = parts(distance.parse().unwrap_or(0i64));
    format!(in alloc; "{upper:x} {lower:x}")
}

impl Placing {
    /// The address of a symbol by its name's number, and of its slot.
    fn symbol(&self, number: u32) -> Result<(u64, u64), RunError> {
        match number {
            0 => Ok((self.symbols[0], self.slots[0])),
            1 => Ok((self.symbols[1], self.slots[1])),
            _ => Err(RunError::Link("neither of the two symbols")),
        }
    }

    /// Where a relocation that names a symbol leads.
    fn goal(&self, reloc: &MachReloc) -> Result<u64, RunError> {
        let FinalizedRelocTarget::ExternalName(name) = reloc.target else {
            return Err(RunError::Link("a place in the code where a symbol is wanted"));
        };
        let (symbol, slot) = self.symbol(name.as_u32())?;
        if reloc.kind == Reloc::RiscvGotHi20 {
            return Ok(slot);
        }
        Ok(symbol.wrapping_add(reloc.addend.cast_unsigned()))
    }

    /// How far a relocation's goal is from its own bytes, where a pair can make it.
    fn distance(&self, reloc: &MachReloc) -> Result<i64, RunError> {
        let at = self.base.wrapping_add(reloc.offset as u64);
        let distance = self.goal(reloc)?.wrapping_sub(at).cast_signed();
        if distance < LEAST || distance > GREATEST {
            return Err(RunError::Link("a distance that no pair makes"));
        }
        Ok(distance)
    }

    /// The distance whose upper part stands at the place that a relocation names.
    fn distance_above(&self, code: &Code, reloc: &MachReloc) -> Result<i64, RunError> {
        for upper in code.relocs.as_slice() {
            if reloc.target == FinalizedRelocTarget::Func(upper.offset) {
                return self.distance(upper);
            }
        }
        Err(RunError::Link("no upper part at that place"))
    }

    /// Fills what a relocation asks for.
    fn fill(
        &self,
        machine: &mut IntMachine,
        code: &Code,
        reloc: &MachReloc,
    ) -> Result<(), RunError> {
        let at = self.base.wrapping_add(reloc.offset as u64);
        match reloc.kind {
            Reloc::RiscvGotHi20 | Reloc::RiscvPCRelHi20 => {
                let (upper, _) = parts(self.distance(reloc)?);
                put_field(machine, at, upper << 12)?;
            }
            Reloc::RiscvPCRelLo12I => {
                let (_, lower) = parts(self.distance_above(code, reloc)?);
                put_field(machine, at, lower << 20)?;
            }
            Reloc::RiscvCallPlt => {
                let (upper, lower) = parts(self.distance(reloc)?);
                put_field(machine, at, upper << 12)?;
                put_field(machine, at.wrapping_add(4), lower << 20)?;
            }
            Reloc::Abs8 => {
                machine.load_image(at, &self.goal(reloc)?.to_le_bytes())?;
            }
        }
        Ok(())
    }

    /// Places the code, with what relocations ask for.
    pub(crate) fn place(&self, machine: &mut IntMachine, code: &Code) -> Result<(), RunError> {
        machine.load_image(self.base, code.bytes.as_slice())?;
        for reloc in code.relocs.as_slice() {
            self.fill(machine, code, reloc)?;
        }
        Ok(())
    }
}

/// Puts a field that is zero so far into the word at an address.
fn put_field(machine: &mut IntMachine, at: u64, field: u32) -> Result<(), OutOfMemory> {
    let word = u32::from_le_bytes([
        machine.byte(at),
        machine.byte(at.wrapping_add(1)),
        machine.byte(at.wrapping_add(2)),
        machine.byte(at.wrapping_add(3)),
    ]);
    machine.load_image(at, &(word | field).to_le_bytes())
}
