//! What a relocation makes of the bytes of its field.

ghost use Rattle.std.specs.Prelude.{◌≡◌, ◌+◌, ◌-◌, ◌%◌, ◌^◌, ◌≤◌, ◌++◌, length, drop};
ghost use Rattle.rv_inst.specs.LabelUseWords.{word_at, word_bytes};
ghost use Rattle.rv_inst.specs.Relocations.{field_size};
ghost use Rattle.rv_fill.specs.Filled.{distance, filled_field};
ghost use Rattle.rv_fill.specs.Steps.{with_upper_bits, with_lower_bits};

use rv_base::Reloc;

/// How many bytes a relocation fills.
pub(crate) fn field_size(kind: Reloc) -> u32
    ensures { result ≡ field_size kind }
{
    match kind {
        Reloc::RiscvCallPlt | Reloc::Abs8 => 8,
        Reloc::RiscvGotHi20 | Reloc::RiscvPCRelHi20 | Reloc::RiscvPCRelLo12I => 4,
    }
}

/// The word that four bytes are.
fn read_word(field: &[u8]) -> u32
    requires { 4 ≤ length field.now }
    ensures { result ≡ word_at field.now }
{
    u32::from_le_bytes([field[0], field[1], field[2], field[3]])
}

/// Puts a word in place of the first four bytes.
fn write_word(field: &mut [u8], word: u32)
    requires { 4 ≤ length field.old }
    ensures { field.new ≡ word_bytes word ++ drop 4 field.old }
{
    field[..4].copy_from_slice(&word.to_le_bytes());
}

/// A word of layout U with the upper part of a distance, of which these are the low 32 bits.
fn with_upper(word: u32, distance: u32) -> u32
    ensures { result ≡ with_upper_bits distance word }
{
    word & 0xfff | distance.wrapping_add(0x800) >> 12 << 12
}

/// A word of layout I with the lower part.
fn with_lower(word: u32, distance: u32) -> u32
    ensures { result ≡ with_lower_bits distance word }
{
    word & 0xf_ffff | (distance & 0xfff) << 20
}

fn fill_upper(field: &mut [u8], distance: u32)
    requires { 4 ≤ length field.old }
    ensures { field.new ≡ word_bytes (with_upper_bits distance (word_at field.old)) ++ drop 4 field.old }
{
    let word = read_word(field);
    write_word(field, with_upper(word, distance));
}

fn fill_lower(field: &mut [u8], distance: u32)
    requires { 4 ≤ length field.old }
    ensures { field.new ≡ word_bytes (with_lower_bits distance (word_at field.old)) ++ drop 4 field.old }
{
    let word = read_word(field);
    write_word(field, with_lower(word, distance));
}

fn fill_pair(field: &mut [u8], distance: u32)
    requires { length field.old ≡ 8 }
    ensures { field.new ≡ word_bytes (with_upper_bits distance (word_at field.old)) ++ word_bytes (with_lower_bits distance (word_at (drop 4 field.old))) }
{
    let (auipc, jalr) = field.split_at_mut(4);
    fill_upper(auipc, distance);
    fill_lower(jalr, distance);
}

/// The low 32 bits of the distance between two addresses.
fn low_distance(from: u64, to: u64) -> u32
    ensures { result ≡ (to + (2 ^ 64 - from)) % 2 ^ 64 % 4294967296 }
{
    (to.wrapping_sub(from) & 0xffff_ffff) as u32
}

/// Fills a field by the address from which its distance counts, and the one that it leads to.
pub(crate) fn fill_field(field: &mut [u8], kind: Reloc, from: u64, to: u64)
    requires { length field.old ≡ field_size kind }
    ensures { field.new ≡ filled_field kind (distance from to) to field.old }
{
    let distance = low_distance(from, to);
    match kind {
        Reloc::RiscvCallPlt => fill_pair(field, distance),
        Reloc::RiscvGotHi20 | Reloc::RiscvPCRelHi20 => fill_upper(field, distance),
        Reloc::RiscvPCRelLo12I => fill_lower(field, distance),
        Reloc::Abs8 => field.copy_from_slice(&to.to_le_bytes()),
    }
}
