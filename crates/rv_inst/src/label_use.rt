//! The kinds of use by which instructions refer to labels.

ghost use Rattle.std.specs.Prelude.{◌≡◌, ◌+◌, ◌*◌, ◌^◌, ◌<◌, ◌≤◌, ◌%◌, ◌/◌, ◌++◌, ◌∷◌, ◌&&◌, [], length, take, drop, pos, ◌-ℤ◌, int_le};
ghost use Rattle.rv_base.specs.LabelUse.{IsFresh, SameOutside};
ghost use Rattle.rv_machine.specs.State.{signed};
ghost use Rattle.rv_machine.specs.Layout.{j_imm, b_imm, u_imm, i_imm, u_bits, i_bits};
ghost use Rattle.rv_machine.specs.Compressed.{cj_imm};
ghost use Rattle.rv_inst.specs.LabelUseWords.{word_at, word_bytes, AreBytes, half_at, half_bytes, AreTwoBytes, jal_bits, branch_bits, compressed_jump_bits, distance_bits, upper_bits};

use rv_base::{MachInstLabelUse, Reloc, spilltmp_reg, writable_spilltmp_reg, writable_zero_reg};
use rv_encode::{enc_auipc, enc_jalr};
use rv_imms::{Imm12, Imm20};

/// A kind of use.
#[derive(Clone, Copy, Debug, PartialEq, Eq)]
pub enum LabelUse {
    /// The immediate of a `jal`.
    Jal20,
    /// The two immediates of an `auipc` and the instruction after it.
    PCRel32,
    /// The immediate of a branch.
    B12,
    /// The immediate of an `auipc` alone.
    PCRelHi20,
    /// The immediate of the instruction right after an `auipc`, alone.
    PCRelLo12I,
    /// The immediate of a `c.j`.
    RVCJump,
}

/// How far an `auipc` and the signed twelve bits of the instruction after it reach forward: the largest upper part, and the
/// largest lower one.
const PAIR_FORWARD: u32 = ((1 << 19) - 1 << 12) + ((1 << 11) - 1);

impl LabelUse {
    ghost use Rattle.rv_inst.specs.LabelUse.{in_range};

    /// Returns whether a label is in reach that lies so many bytes from the use.
    pub fn offset_in_range(self, offset: i64) -> bool
        ensures { result ≡ in_range self offset }
    {
        -(self.max_neg_range() as i64) <= offset && offset <= self.max_pos_range() as i64
    }
}

impl MachInstLabelUse for LabelUse {
    ghost use Rattle.rv_inst.specs.LabelUse.{label_kinds, kind_of_reloc};
    ghost use Rattle.std.specs.Prelude.{refl};
    ghost use Rattle.std.proofs.Common.{rules};

    ghost kinds = { label_kinds };

    ghost of_reloc = { kind_of_reloc };

    ghost ALIGN = { 4 };

    ghost align_ok = { refl };

    ghost veneer_ok = { Prim.search rules };

    const ALIGN: u32 = 4;

    fn max_pos_range(self) -> u32 {
        match self {
            LabelUse::Jal20 => ((1 << 19) - 1) * 2,
            LabelUse::B12 => ((1 << 11) - 1) * 2,
            LabelUse::PCRel32 | LabelUse::PCRelHi20 | LabelUse::PCRelLo12I => PAIR_FORWARD,
            LabelUse::RVCJump => ((1 << 10) - 1) * 2,
        }
    }

    fn max_neg_range(self) -> u32 {
        match self {
            LabelUse::Jal20 => (1 << 19) * 2,
            LabelUse::B12 => (1 << 11) * 2,
            LabelUse::PCRel32 => (1 << 31) + (1 << 11),
            LabelUse::PCRelHi20 | LabelUse::PCRelLo12I => PAIR_FORWARD + 2,
            LabelUse::RVCJump => (1 << 10) * 2,
        }
    }

    fn patch_size(self) -> u32 {
        match self {
            LabelUse::RVCJump => 2,
            LabelUse::Jal20 | LabelUse::B12 | LabelUse::PCRelHi20 | LabelUse::PCRelLo12I => 4,
            LabelUse::PCRel32 => 8,
        }
    }

    fn patch(self, buffer: &mut [u8], use_offset: u32, label_offset: u32) {
        match self {
            LabelUse::Jal20 => patch_jal(
                buffer,
                bits_of_distance(use_offset, label_offset, 1 << 21),
            ),
            LabelUse::B12 => patch_branch(
                buffer,
                bits_of_distance(use_offset, label_offset, 1 << 13),
            ),
            LabelUse::PCRel32 => patch_pair(buffer, label_offset.wrapping_sub(use_offset)),
            LabelUse::PCRelHi20 => patch_upper(buffer, label_offset.wrapping_sub(use_offset)),
            LabelUse::PCRelLo12I => patch_lower(
                buffer,
                label_offset.wrapping_sub(use_offset).wrapping_add(4),
            ),
            LabelUse::RVCJump => patch_compressed_jump(
                buffer,
                bits_of_distance(use_offset, label_offset, 1 << 12),
            ),
        }
    }

    fn supports_veneer(self) -> bool {
        matches!(self, LabelUse::Jal20 | LabelUse::B12 | LabelUse::RVCJump)
    }

    fn veneer_size(self) -> u32 {
        8
    }

    fn worst_case_veneer_size() -> u32 {
        8
    }

    fn generate_veneer(self, buffer: &mut [u8], veneer_offset: u32) -> (u32, LabelUse) {
        let upper = enc_auipc(writable_spilltmp_reg(), Imm20::ZERO);
        let jump = enc_jalr(writable_zero_reg(), spilltmp_reg(), Imm12::ZERO);
        write_pair(buffer, upper, jump);
        (veneer_offset, LabelUse::PCRel32)
    }

    fn from_reloc(reloc: Reloc, _addend: i64) -> Option<LabelUse> {
        match reloc {
            Reloc::RiscvCallPlt => Some(LabelUse::PCRel32),
            _ => None,
        }
    }
}

/// The word that four bytes begin with.
fn read_word(buffer: &[u8]) -> u32
    requires { 4 ≤ length buffer.now }
    ensures value { result ≡ word_at buffer.now }
    ensures in_range { AreBytes buffer.now }
{
    buffer[0] as u32
        + 256 * buffer[1] as u32
        + 65536 * buffer[2] as u32
        + 16777216 * buffer[3] as u32
}

/// Puts a word into the first four bytes.
fn write_word(buffer: &mut [u8], word: u32)
    requires { 4 ≤ length buffer.old }
    ensures { buffer.new ≡ word_bytes word ++ drop 4 buffer.old }
{
    buffer[0] = (word & 0xff) as u8;
    buffer[1] = (word >> 8 & 0xff) as u8;
    buffer[2] = (word >> 16 & 0xff) as u8;
    buffer[3] = (word >> 24) as u8;
}

/// The halfword that two bytes begin with.
fn read_half(buffer: &[u8]) -> u32
    requires { 2 ≤ length buffer.now }
    ensures value { result ≡ half_at buffer.now }
    ensures in_range { AreTwoBytes buffer.now }
{
    buffer[0] as u32 + 256 * buffer[1] as u32
}

/// Puts a halfword into the first two bytes.
fn write_half(buffer: &mut [u8], half: u32)
    requires { 2 ≤ length buffer.old }
    ensures { buffer.new ≡ half_bytes half ++ drop 2 buffer.old }
{
    buffer[0] = (half & 0xff) as u8;
    buffer[1] = (half >> 8 & 0xff) as u8;
}

/// Puts two words into the first eight bytes.
fn write_pair(buffer: &mut [u8], first: u32, second: u32)
    requires { 8 ≤ length buffer.old }
    ensures { buffer.new ≡ word_bytes first ++ word_bytes second ++ drop 8 buffer.old }
{
    buffer[0] = (first & 0xff) as u8;
    buffer[1] = (first >> 8 & 0xff) as u8;
    buffer[2] = (first >> 16 & 0xff) as u8;
    buffer[3] = (first >> 24) as u8;
    buffer[4] = (second & 0xff) as u8;
    buffer[5] = (second >> 8 & 0xff) as u8;
    buffer[6] = (second >> 16 & 0xff) as u8;
    buffer[7] = (second >> 24) as u8;
}

/// The bits of a distance, below `size`.
fn bits_of_distance(use_offset: u32, label_offset: u32, size: u32) -> u32
    requires forward { label_offset < use_offset + size }
    requires backward { use_offset ≤ label_offset + size }
    ensures { result ≡ distance_bits size use_offset label_offset }
{
    if label_offset < use_offset {
        size - (use_offset - label_offset)
    } else {
        label_offset - use_offset
    }
}

/// A distance's bits at their places in a jump.
fn jal_field(bits: u32) -> u32
    requires { bits < 2 ^ 21 }
    ensures { result ≡ jal_bits bits }
{
    (bits >> 12 & 0xff) << 12
        | (bits >> 11 & 1) << 20
        | (bits >> 1 & 0x3ff) << 21
        | (bits >> 20) << 31
}

/// A distance's bits at their places in a branch.
fn branch_field(bits: u32) -> u32
    requires { bits < 2 ^ 13 }
    ensures { result ≡ branch_bits bits }
{
    (bits >> 11 & 1) << 7 | (bits >> 1 & 0xf) << 8 | (bits >> 5 & 0x3f) << 25 | (bits >> 12) << 31
}

/// A distance's bits at their places in a jump of sixteen bits.
fn compressed_jump_field(bits: u32) -> u32
    requires { bits < 2 ^ 12 }
    ensures { result ≡ compressed_jump_bits bits }
{
    (bits >> 5 & 1) << 2
        | (bits >> 1 & 7) << 3
        | (bits >> 7 & 1) << 6
        | (bits >> 6 & 1) << 7
        | (bits >> 10 & 1) << 8
        | (bits >> 8 & 3) << 9
        | (bits >> 4 & 1) << 11
        | (bits >> 11) << 12
}

/// The upper twenty bits of a distance, at 31:12, for a lower part that is read signed.
fn upper_field(distance: u32) -> u32
    ensures { result ≡ upper_bits distance * 2 ^ 12 }
{
    distance.wrapping_add(0x800) >> 12 << 12
}

/// The lower twelve bits of a distance, at 31:20.
fn lower_field(distance: u32) -> u32
    ensures { result ≡ distance % 2 ^ 12 * 2 ^ 20 }
{
    (distance & 0xfff) << 20
}

/// Puts twenty-one bits of a distance into a jump's word.
fn patch_jal(buffer: &mut [u8], bits: u32)
    requires bits_in { bits < 2 ^ 21 }
    requires even { bits % 2 ≡ 0 }
    requires long { 4 ≤ length buffer.old }
    requires fresh { IsFresh (0x00 ∷ 0xf0 ∷ 0xff ∷ 0xff ∷ []) buffer.old }
    ensures distance { j_imm (word_at (take 4 buffer.new)) ≡ signed 1048576 bits }
    ensures others { SameOutside (0x00 ∷ 0xf0 ∷ 0xff ∷ 0xff ∷ []) buffer.old buffer.new }
    ensures rest { drop 4 buffer.new ≡ drop 4 buffer.old }
{
    let word = read_word(buffer);
    write_word(buffer, word | jal_field(bits));
}

/// Puts thirteen bits of a distance into a branch's word.
fn patch_branch(buffer: &mut [u8], bits: u32)
    requires bits_in { bits < 2 ^ 13 }
    requires even { bits % 2 ≡ 0 }
    requires long { 4 ≤ length buffer.old }
    requires fresh { IsFresh (0x80 ∷ 0x0f ∷ 0x00 ∷ 0xfe ∷ []) buffer.old }
    ensures distance { b_imm (word_at (take 4 buffer.new)) ≡ signed (2 ^ 12) bits }
    ensures others { SameOutside (0x80 ∷ 0x0f ∷ 0x00 ∷ 0xfe ∷ []) buffer.old buffer.new }
    ensures rest { drop 4 buffer.new ≡ drop 4 buffer.old }
{
    let word = read_word(buffer);
    write_word(buffer, word | branch_field(bits));
}

/// Puts a distance into an `auipc` and the immediate of the word after it.
fn patch_pair(buffer: &mut [u8], distance: u32)
    requires long { 8 ≤ length buffer.old }
    requires fresh { IsFresh (0x00 ∷ 0xf0 ∷ 0xff ∷ 0xff ∷ 0x00 ∷ 0x00 ∷ 0xf0 ∷ 0xff ∷ []) buffer.old }
    ensures upper { u_imm (word_at (take 8 buffer.new)) ≡ signed 524288 (upper_bits distance) }
    ensures lower { i_imm (word_at (drop 4 (take 8 buffer.new))) ≡ signed (2 ^ 11) (distance % 2 ^ 12) }
    ensures others { SameOutside (0x00 ∷ 0xf0 ∷ 0xff ∷ 0xff ∷ 0x00 ∷ 0x00 ∷ 0xf0 ∷ 0xff ∷ []) buffer.old buffer.new }
    ensures rest { drop 8 buffer.new ≡ drop 8 buffer.old }
{
    let first = read_word(buffer);
    let second = read_word(&buffer[4..]);
    write_pair(
        buffer,
        first | upper_field(distance),
        second | lower_field(distance),
    );
}

/// Puts the upper part of a distance into an `auipc`.
fn patch_upper(buffer: &mut [u8], distance: u32)
    requires long { 4 ≤ length buffer.old }
    requires fresh { IsFresh (0x00 ∷ 0xf0 ∷ 0xff ∷ 0xff ∷ []) buffer.old }
    ensures bits { u_bits (word_at (take 4 buffer.new)) ≡ upper_bits distance }
    ensures others { SameOutside (0x00 ∷ 0xf0 ∷ 0xff ∷ 0xff ∷ []) buffer.old buffer.new }
    ensures rest { drop 4 buffer.new ≡ drop 4 buffer.old }
{
    let word = read_word(buffer);
    write_word(buffer, word | upper_field(distance));
}

/// Puts the lower part of a distance into the immediate of a word.
fn patch_lower(buffer: &mut [u8], distance: u32)
    requires long { 4 ≤ length buffer.old }
    requires fresh { IsFresh (0x00 ∷ 0x00 ∷ 0xf0 ∷ 0xff ∷ []) buffer.old }
    ensures bits { i_bits (word_at (take 4 buffer.new)) ≡ distance % 2 ^ 12 }
    ensures others { SameOutside (0x00 ∷ 0x00 ∷ 0xf0 ∷ 0xff ∷ []) buffer.old buffer.new }
    ensures rest { drop 4 buffer.new ≡ drop 4 buffer.old }
{
    let word = read_word(buffer);
    write_word(buffer, word | lower_field(distance));
}

/// Puts twelve bits of a distance into the halfword of a jump.
fn patch_compressed_jump(buffer: &mut [u8], bits: u32)
    requires bits_in { bits < 2 ^ 12 }
    requires even { bits % 2 ≡ 0 }
    requires long { 2 ≤ length buffer.old }
    requires fresh { IsFresh (0xfc ∷ 0x1f ∷ []) buffer.old }
    ensures distance { cj_imm (half_at (take 2 buffer.new)) ≡ signed 2048 bits }
    ensures others { SameOutside (0xfc ∷ 0x1f ∷ []) buffer.old buffer.new }
    ensures rest { drop 2 buffer.new ≡ drop 2 buffer.old }
{
    let half = read_half(buffer);
    write_half(buffer, half | compressed_jump_field(bits));
}
