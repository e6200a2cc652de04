//! Digests over what words and halfwords decode to.

use rv_base::{IsaFlags, OutOfMemory};
use rv_machine::{Decoded, decode, decode_half};
use std::alloc::Global;

/// The flags of these names.
pub fn flags_of(names: &str) -> IsaFlags {
    let mut flags = IsaFlags::none();
    for name in names.split(' ') {
        match name {
            "m" => flags.has_m = true,
            "zba" => flags.has_zba = true,
            "zbb" => flags.has_zbb = true,
            "zca" => flags.has_zca = true,
            "zcb" => flags.has_zcb = true,
            "zcd" => flags.has_zcd = true,
            "zfhmin" => flags.has_zfhmin = true,
            _ => {}
        }
    }
    flags
}

/// FNV-1a of more bytes.
fn hashed(hash: u64, bytes: &[u8]) -> u64 {
    let mut hash = hash;
    for byte in bytes {
        hash = (hash ^ u64::from(*byte)).wrapping_mul(0x100000001b3);
    }
    hash
}

/// The text of what is decoded, or `-`, and a line feed.
fn line_of(alloc: Global, decoded: Option<Decoded>) -> Result<String, OutOfMemory> {
    match decoded {
        Some(decoded) => Ok(format!(in alloc; "{decoded:?}\n")?),
        None => Ok(String::from_str(alloc, "-\n")?),
    }
}

/// FNV-1a of the line of one word more.
fn hashed_word(alloc: Global, hash: u64, flags: IsaFlags, word: u32) -> Result<u64, OutOfMemory> {
    let line = line_of(alloc, decode(flags, word))?;
    Ok(hashed(hash, line.as_bytes()))
}

/// The digest over all halfwords.
pub fn digest_of_halves(alloc: Global, flags: IsaFlags) -> Result<u64, OutOfMemory> {
    let mut hash = 0xcbf29ce484222325;
    for half in 0..=u16::MAX {
        let line = line_of(alloc, decode_half(flags, half))?;
        hash = hashed(hash, line.as_bytes());
    }
    Ok(hash)
}

/// The next number of a sequence, and its upper half.
fn next(state: u64) -> (u64, u32) {
    let state = state
        .wrapping_mul(6364136223846793005)
        .wrapping_add(1442695040888963407);
    (state, (state >> 32) as u32)
}

const OPCODES: [u32; 22] = [
    0x03, 0x07, 0x0f, 0x13, 0x17, 0x1b, 0x23, 0x27, 0x2f, 0x33, 0x37, 0x3b, 0x43, 0x47, 0x4b, 0x4f,
    0x53, 0x57, 0x63, 0x67, 0x6f, 0x73,
];

/// A word with an opcode of an operation, of which some have few values in their upper fields, near those of the tables.
fn word_near(random: u32, pick: u32, kind: u32) -> u32 {
    let word = (random & 0xffff_ff80) | OPCODES[(pick % 22) as usize];
    match kind % 4 {
        1 => word & 0xfe0f_ffff,
        2 => word & 0xfdff_ffff,
        3 => word & 0x3e1f_ffff,
        _ => word,
    }
}

/// The digest over so many words of a sequence.
pub fn digest_of_words(
    alloc: Global,
    seed: u64,
    count: u64,
    flags: IsaFlags,
) -> Result<u64, OutOfMemory> {
    let mut hash = 0xcbf29ce484222325;
    let mut state = seed;
    for _ in 0..count {
        let (first, random) = next(state);
        let (second, pick) = next(first);
        let (third, kind) = next(second);
        state = third;
        hash = hashed_word(alloc, hash, flags, word_near(random, pick, kind))?;
    }
    Ok(hash)
}

/// The fields 11:7, 14:12, 19:15, 24:20, 25, 31:20, 31:25 and 31:27 of a word.
const FIELDS: [u32; 8] = [
    0x0000_0f80,
    0x0000_7000,
    0x000f_8000,
    0x01f0_0000,
    0x0200_0000,
    0xfff0_0000,
    0xfe00_0000,
    0xf800_0000,
];

/// The digest over words in hex and, after each, those that differ from it in one field, which is 0, 1, its top bit alone or all ones.
pub fn digest_of_edges(alloc: Global, words: &str, flags: IsaFlags) -> Result<u64, OutOfMemory> {
    let mut hash = 0xcbf29ce484222325;
    for digits in words.split(' ') {
        let word = u32::from_str_radix(digits, 16).unwrap_or(0);
        hash = hashed_word(alloc, hash, flags, word)?;
        for field in FIELDS {
            for value in [0, field & !(field << 1), field & !(field >> 1), field] {
                hash = hashed_word(alloc, hash, flags, (word & !field) | value)?;
            }
        }
    }
    Ok(hash)
}
