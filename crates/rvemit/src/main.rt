//! `rvemit`: reads a listing from standard input, and writes the report of its code to standard output. Where there is none it writes why
//! there, and to standard error what to mend.
#![tactic(auto)]

use rv_command::run_explained;
use rv_stream::{StdSink, StdSource};
use std::env;
use std::io::{self, ErrorKind};
use std::process::ExitCode;

// The words after the program's name. One that is not UTF-8 stands there as an empty word.
fn words(rt: &HostRuntime) -> io::Result<Vec<String>> {
    let mut words = Vec::new(rt.alloc());
    match env::args(rt) {
        Ok(all) => {
            for word in all.skip(1) {
                words.push(word)?;
            }
        }
        Err(error) if error.kind() == ErrorKind::InvalidData => words.push(String::new(
            rt.alloc(),
        ))?,
        Err(error) => return Err(error),
    }
    Ok(words)
}

fn main(rt: HostRuntime) -> ExitCode {
    let Ok(words) = words(&rt) else {
        return ExitCode::from(8);
    };
    let mut source = StdSource::new(rt.stdin());
    let mut sink = StdSink::new(rt.stdout());
    let ending = run_explained(rt.alloc(), &words, &mut source, &mut sink);
    if let Some(note) = &ending.note {
        let _ = eprintln!(rt; "{note}");
    }
    ending.outcome.exit_code()
}
