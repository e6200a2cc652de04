//! Plays the lines of standard input on a machine with all units, and writes what each shows: rows of operations, and digests
//! of what words decode to. The expected output is from outside: bench/rows.py makes it, of an assembler's words and of values and
//! digests that are computed there.
#![tactic(auto)]

mod digests;
mod play;

use rv_full::FullMachine;
use std::io;

fn main(rt: HostRuntime) -> io::Result<()> {
    let mut machine = FullMachine::new(
        rt.alloc(),
        digests::flags_of("m zba zbb zca zcb zcd zfhmin"),
        0x1000,
    );
    for line in rt.lines(rt.alloc()) {
        let line = line?;
        match play::play(rt.alloc(), &mut machine, line.as_str()) {
            Ok(answer) => println!(rt; "{line}: {answer}")?,
            Err(_) => println!(rt; "{line}: out of memory")?,
        }
    }
    Ok(())
}
