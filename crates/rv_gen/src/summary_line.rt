//! The line that is written of a generated job's code.

ghost use Rattle.std.specs.Prelude.{◌≡◌, ◌+◌, ◌<◌, ◌^◌, length, IfOk, string_bytes};
ghost use Rattle.rv_gen.specs.Summary.{checksum, line_of, summary};

use rv_base::OutOfMemory;
use rv_inst::Code;
use std::alloc::Global;

fn checksum(bytes: &[u8]) -> u64
    requires { length bytes.now < 2 ^ 32 }
    ensures { result ≡ checksum bytes.now }
{
    let mut sum = 0u64;
    for (index, byte) in bytes.iter().enumerate() {
        sum = (sum + (index as u64 + 1) * u64::from(*byte)) % 4294967296;
    }
    sum
}

fn line_of(alloc: Global, n: u64, length: usize, end: u32, sum: u64) -> Result<String, OutOfMemory>
    ensures { IfOk result (λ text. string_bytes text ≡ line_of n length end sum) }
{
    let text = format!(in alloc;
        "gen {n} lines 1300 bytes {length} labels 100 end {end} sum {sum}\n"
    )?;
    Ok(text)
}

/// The line of the code of job `n`, which LF ends: the number, how many lines and bytes it has, how many labels, where its last line
/// ends, and the sum of each byte times its place, counted from 1, modulo 2^32.
pub fn summary(alloc: Global, n: u64, code: &Code) -> Result<Vec<u8>, OutOfMemory>
    ensures { IfOk result (λ bytes. bytes.items ≡ summary n code.now) }
{
    let sum = checksum(code.bytes.as_slice());
    let line = line_of(alloc, n, code.bytes.len(), code.end, sum)?;
    Ok(line.into_bytes())
}
