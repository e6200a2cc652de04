//! `rvrun`: runs the code of a report from standard input, and writes what came of it to standard output, or to standard error why there
//! is no run. Of a long run it says on standard error, where that is a terminal, how many steps were done.
#![tactic(auto)]

mod opening;

use opening::Opening;
use rv_explain::refusal_of;
use rv_program::{WordsFault, command_words};
use rv_run::{Outcome, run};
use rv_steps::Progress;
use rv_stream::{StdSink, StdSource};
use std::io::IsTerminal;
use std::process::ExitCode;
use std::time::{Duration, Instant};

/// Says on a terminal every two seconds how many steps were done.
#[derive(Drop)]
struct Shown<'a> {
    rt: &'a HostRuntime,
    is_terminal: bool,
    last: Option<Instant>,
}

impl Shown<'_> {
    /// Returns whether two seconds have passed since this was last so, or since the first call.
    fn is_due(&mut self) -> bool {
        let Ok(now) = Instant::now(self.rt) else {
            return false;
        };
        match self.last {
            Some(last) if now.saturating_duration_since(last) < Duration::from_secs(2) => false,
            Some(_) => {
                self.last = Some(now);
                true
            }
            None => {
                self.last = Some(now);
                false
            }
        }
    }
}

impl Progress for Shown<'_> {
    fn tick(&mut self, steps: u64) {
        if self.is_terminal && self.is_due() {
            let _ = eprintln!(self.rt; "rvrun: {steps} steps");
        }
    }
}

// Says whose refusal the input is, where it is one in place of a report.
fn pass_on(rt: &HostRuntime, outcome: &Outcome, input: &[u8]) {
    if let (Outcome::NotReport { line: _ }, Some(refusal)) = (outcome, refusal_of(input)) {
        let _ = eprintln!(rt; "rvrun: no code: {refusal}");
    }
}

fn without_words(rt: &HostRuntime, fault: WordsFault) -> ExitCode {
    let _ = eprintln!(rt; "rvrun: {fault}");
    ExitCode::from(fault.status())
}

fn main(rt: HostRuntime) -> ExitCode {
    let words = match command_words(&rt) {
        Ok(words) => words,
        Err(fault) => return without_words(&rt, fault),
    };
    let mut source = Opening::new(rt.alloc(), StdSource::new(rt.stdin()));
    let mut sink = StdSink::new(rt.stdout());
    let mut errors = StdSink::new(rt.stderr());
    let mut shown = Shown {
        rt: &rt,
        is_terminal: rt.stderr().is_terminal(),
        last: None,
    };
    let outcome = run(
        rt.alloc(),
        &words,
        &mut source,
        &mut sink,
        &mut errors,
        &mut shown,
    );
    pass_on(&rt, &outcome, source.kept());
    outcome.exit_code()
}
