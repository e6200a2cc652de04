//! A bench on which code is put and run.

ghost use Rattle.std.specs.Prelude.{◌<◌};

use crate::error::RunError;
use crate::linked::Placing;
use crate::numbers::pair;
use rv_asm::assemble;
use rv_base::{Constant, FrameLayout, IsaFlags, OutOfMemory};
use rv_inst::{Code, Job, Line};
use rv_listing::{read_job, report};
use rv_machine::{IntMachine, Step};
use std::alloc::Global;

/// The code of lines, of which nothing is promised, so that what calls it need not carry what `assemble` promises.
fn assembled(
    alloc: Global,
    lines: &[Line],
    flags: IsaFlags,
    frame: &FrameLayout,
    constants: &[Constant],
) -> Result<Code, RunError> {
    Ok(assemble(alloc, lines, flags, frame, constants)?)
}

/// The code of lines that need no flags, frame or constants.
pub(crate) fn plain_code(alloc: Global, lines: &[Line]) -> Result<Code, RunError> {
    let frame = FrameLayout::none(alloc);
    assembled(alloc, lines, IsaFlags::none(), &frame, &[])
}

/// The job of a listing, of which nothing is promised either.
fn job_of(alloc: Global, text: &str) -> Result<Job, RunError> {
    Ok(read_job(alloc, text.as_bytes())?)
}

/// The flags of a listing, and its code.
pub(crate) fn code_of(alloc: Global, text: &str) -> Result<(IsaFlags, Code), RunError> {
    let job = job_of(alloc, text)?;
    let code = assembled(
        alloc,
        job.lines.as_slice(),
        job.flags,
        &job.frame,
        job.constants.as_slice(),
    )?;
    Ok((job.flags, code))
}

/// Returns whether each step is done until the machine is at an address, in at most 10,000 steps.
pub(crate) fn arrives(machine: &mut IntMachine, address: u64) -> Result<bool, OutOfMemory> {
    for _ in 0..10000 {
        if machine.pc() == address {
            return Ok(true);
        }
        if machine.step()? != Step::Stepped {
            return Ok(false);
        }
    }
    Ok(machine.pc() == address)
}

/// The report of code, of which nothing is promised either.
fn report_of(alloc: Global, code: &Code) -> Result<String, RunError> {
    let text = report(alloc, code)?;
    Ok(String::from_utf8_lossy(alloc, text.as_slice())?)
}

/// The doubleword at an address.
fn doubleword(machine: &IntMachine, at: u64) -> u64 {
    let mut value = 0u64;
    for k in 0..8u64 {
        value = value << 8 | u64::from(machine.byte(at.wrapping_add(7 - k)));
    }
    value
}

/// A machine with code, and what was said of it.
#[derive(Drop)]
pub(crate) struct Bench {
    alloc: Global,
    pub(crate) placing: Placing,
    machine: IntMachine,
    has_code: bool,
    /// The report of the last code.
    report: String,
    /// The registers when they were last set.
    before: [u64; 32],
    /// The doublewords that were put, by their addresses.
    stack: String,
    pub(crate) said: String,
}

impl Bench {
    pub(crate) fn new(alloc: Global) -> Bench {
        Bench {
            alloc,
            placing: Placing {
                base: 0,
                symbols: [0; 2],
                slots: [0; 2],
            },
            machine: IntMachine::new(alloc, IsaFlags::none(), 0),
            has_code: false,
            report: String::new(alloc),
            before: [0; 32],
            stack: String::new(alloc),
            said: String::new(alloc),
        }
    }

    /// Makes a machine that has these flags and the slots, and stands at the base.
    fn make_machine(&mut self, flags: IsaFlags) -> Result<(), OutOfMemory> {
        let placing = self.placing;
        let mut machine = IntMachine::new(self.alloc, flags, placing.base);
        machine.load_image(placing.slots[0], &placing.symbols[0].to_le_bytes())?;
        machine.load_image(placing.slots[1], &placing.symbols[1].to_le_bytes())?;
        self.machine = machine;
        self.has_code = true;
        Ok(())
    }

    /// Puts code at the base; the first makes the machine.
    fn place(&mut self, flags: IsaFlags, code: &Code) -> Result<(), RunError> {
        if !self.has_code {
            self.make_machine(flags)?;
        }
        let placing = self.placing;
        placing.place(&mut self.machine, code)
    }

    fn keep_report(&mut self, code: &Code) -> Result<(), RunError> {
        self.report = report_of(self.alloc, code)?;
        Ok(())
    }

    /// Puts the code of a listing at the base; the first code makes the machine.
    pub(crate) fn put_code(&mut self, listing: &str) -> Result<(), RunError> {
        let (flags, code) = code_of(self.alloc, listing)?;
        self.place(flags, &code)?;
        self.keep_report(&code)
    }

    /// Keeps the registers as they are.
    fn keep_registers(&mut self) {
        for n in 0..32u8 {
            self.before[usize::from(n)] = self.machine.reg(n);
        }
    }

    /// Sets each register to its number in each byte.
    pub(crate) fn fill(&mut self) {
        for n in 0..32u8 {
            let value = u64::from(n).wrapping_mul(0x0101_0101_0101_0101);
            self.machine.set_reg(n, value);
        }
        self.keep_registers();
    }

    /// Sets registers: `NUMBER:VALUE`, with a space between two.
    pub(crate) fn set(&mut self, registers: &str) {
        for text in registers.split(' ') {
            let (name, _) = text.split_once(':').unwrap_or((text, ""));
            let (_, value) = pair(text);
            let register = name.parse().unwrap_or(0u8);
            if register < 32 {
                self.machine.set_reg(register, value);
            }
        }
        self.keep_registers();
    }

    /// Puts doublewords: `ADDRESS:VALUE`, with a space between two.
    pub(crate) fn put(&mut self, stack: &str) -> Result<(), RunError> {
        for text in stack.split(' ') {
            let (at, value) = pair(text);
            self.machine.load_image(at, &value.to_le_bytes())?;
        }
        self.stack = String::from_str(self.alloc, stack)?;
        Ok(())
    }

    /// Lets the machine stand at an address.
    pub(crate) fn stand_at(&mut self, address: u64) {
        self.machine.set_pc(address);
    }

    /// Runs to an address, and says whether the machine comes there.
    pub(crate) fn run_to(&mut self, address: u64) -> Result<(), RunError> {
        if arrives(&mut self.machine, address)? {
            write!(self.said, "at {address:x}\n")?;
        } else {
            write!(self.said, "never at {address:x}\n")?;
        }
        Ok(())
    }

    fn say_register(&mut self, n: u8) -> Result<(), RunError>
        requires { n < 32 }
    {
        let value = self.machine.reg(n);
        write!(self.said, "x{n} {value:x}\n")?;
        Ok(())
    }

    /// Says what these registers have.
    pub(crate) fn see(&mut self, numbers: &str) -> Result<(), RunError> {
        for text in numbers.split(' ') {
            let n = text.parse().unwrap_or(0u8);
            if n < 32 {
                self.say_register(n)?;
            }
        }
        Ok(())
    }

    /// Says which of x1 to x29 have changed since they were last set.
    pub(crate) fn say_changed(&mut self) -> Result<(), RunError> {
        for n in 1..30u8 {
            if self.machine.reg(n) != self.before[usize::from(n)] {
                self.say_register(n)?;
            }
        }
        Ok(())
    }

    /// Says whether the doublewords that were put are as they were.
    pub(crate) fn say_kept(&mut self) -> Result<(), RunError> {
        for text in self.stack.split(' ') {
            let (at, value) = pair(text);
            if doubleword(&self.machine, at) != value {
                write!(self.said, "not kept {at:x}\n")?;
                return Ok(());
            }
        }
        self.said.push_str("kept\n")?;
        Ok(())
    }

    /// Says what the doubleword at an address is.
    pub(crate) fn say_doubleword(&mut self, at: u64) -> Result<(), RunError> {
        let value = doubleword(&self.machine, at);
        write!(self.said, "doubleword {at:x} {value:x}\n")?;
        Ok(())
    }

    /// Says the lines of the last code's report that begin so.
    pub(crate) fn say_records(&mut self, front: &str) -> Result<(), RunError> {
        for line in self.report.lines() {
            let rest = line.strip_prefix(front).unwrap_or("-");
            if rest.starts_with(' ') {
                write!(self.said, "{line}\n")?;
            }
        }
        Ok(())
    }
}
