//! Two kinds of use: one of one byte that counts in steps of two, and one that reaches everywhere.

ghost use Rattle.std.specs.Prelude.{◌≡◌, ◌∷◌, []};
ghost use Rattle.std.specs.Prelude.{◌≤◌, ◌/◌, ◌%◌, length, drop};

use rv_base::{MachInstLabelUse, Reloc};

/// A kind of use.
#[derive(Clone, Copy, Debug, PartialEq, Eq)]
pub enum Toy {
    /// One byte: half the distance, from -128 to 127.
    Short,
    /// Four bytes: the distance modulo 2^32.
    Far,
}

impl MachInstLabelUse for Toy {
    ghost use Rattle.mach_vectors.specs.declared.toy.Toy.TheVariants.{Short, Far};
    ghost use Rattle.std.specs.Prelude.{refl, ℕ, ◌+◌, ◌*◌, ◌/◌, ◌%◌, slice_index, ℤ, true, false, None};
    ghost use Rattle.std.specs.Int.{cast_unsigned};
    ghost use Rattle.std.proofs.Common.{rules};
    ghost use mir.Syntax.{w32};

    ghost kinds = { record { aims = elim [ Short ↦ λ window d. slice_index window 0 ≡ cast_unsigned w32 d / 2 % 256 | Far ↦ λ window d. slice_index window 0 + 256 * slice_index window 1 + 65536 * slice_index window 2 + 16777216 * slice_index window 3 ≡ cast_unsigned w32 d ]; fields = elim [ Short ↦ 0xff ∷ [] | Far ↦ 0xff ∷ 0xff ∷ 0xff ∷ 0xff ∷ [] ]; forward = elim [ Short ↦ 254 | Far ↦ 4294967295 ]; backward = elim [ Short ↦ 256 | Far ↦ 4294967295 ]; has_veneer = elim [ Short ↦ true | Far ↦ false ]; veneer = λ kind. record { bytes = 0 ∷ 0 ∷ 0 ∷ 0 ∷ 0xee ∷ 0xee ∷ 0xee ∷ 0xee ∷ []; place = 0; kind = Far } } };

    ghost of_reloc = { λ reloc addend. None };

    ghost ALIGN = { 4 };

    ghost align_ok = { refl };

    ghost veneer_ok = { Prim.search rules };

    const ALIGN: u32 = 4;

    fn max_pos_range(self) -> u32 {
        match self {
            Toy::Short => 254,
            Toy::Far => 4294967295,
        }
    }

    fn max_neg_range(self) -> u32 {
        match self {
            Toy::Short => 256,
            Toy::Far => 4294967295,
        }
    }

    fn patch_size(self) -> u32 {
        match self {
            Toy::Short => 1,
            Toy::Far => 4,
        }
    }

    fn patch(self, buffer: &mut [u8], use_offset: u32, label_offset: u32) {
        let distance = label_offset.wrapping_sub(use_offset);
        match self {
            Toy::Short => write_half(buffer, distance),
            Toy::Far => write_word(buffer, distance),
        }
    }

    fn supports_veneer(self) -> bool {
        matches!(self, Toy::Short)
    }

    fn veneer_size(self) -> u32 {
        8
    }

    fn worst_case_veneer_size() -> u32 {
        8
    }

    fn generate_veneer(self, buffer: &mut [u8], veneer_offset: u32) -> (u32, Toy) {
        buffer.copy_from_slice(&[0, 0, 0, 0, 0xee, 0xee, 0xee, 0xee]);
        (veneer_offset, Toy::Far)
    }

    fn from_reloc(_reloc: Reloc, _addend: i64) -> Option<Toy> {
        None
    }
}

/// Puts half a distance into the first byte, modulo 256.
fn write_half(buffer: &mut [u8], distance: u32)
    requires { 1 ≤ length buffer.old }
    ensures { buffer.new ≡ distance / 2 % 256 ∷ drop 1 buffer.old }
{
    buffer[0] = (distance / 2 & 0xff) as u8;
}

/// Puts a word into the first four bytes.
fn write_word(buffer: &mut [u8], word: u32)
    requires { 4 ≤ length buffer.old }
    ensures { buffer.new ≡ word % 256 ∷ word / 256 % 256 ∷ word / 65536 % 256 ∷ word / 16777216 ∷ drop 4 buffer.old }
{
    buffer[0] = (word & 0xff) as u8;
    buffer[1] = (word >> 8 & 0xff) as u8;
    buffer[2] = (word >> 16 & 0xff) as u8;
    buffer[3] = (word >> 24) as u8;
}
