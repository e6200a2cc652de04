//! `embedding`: what a just-in-time compiler does with `assemble`. It makes the lines of a function from values, has them
//! assembled, and reads the code's bytes, what is to be filled in them, and where calls return.
#![tactic(auto)]

ghost use Rattle.std.specs.Prelude.{IfOk};
ghost use Rattle.rv_base.specs.Frame.{no_frame};
ghost use Rattle.rv_asm.specs.Job.{job_of};
ghost use Rattle.rv_asm.specs.Simulation.{RunsAsListed};

mod function;
mod timing;

use function::{constants, lines};
use mach_records::FinalizedRelocTarget;
use rv_asm::assemble;
use rv_base::{Constant, ExternalName, FrameLayout, IsaFlags, Reloc};
use rv_inst::{Code, EmitError, Line, MachReloc};
use std::alloc::Global;
use std::{env, io};
use timing::assemble_again;

/// The code of lines, for a machine with these flags, with no frame and with these constants. It runs as they say.
fn code_of(
    alloc: Global,
    lines: &[Line],
    flags: IsaFlags,
    constants: &[Constant],
) -> Result<Code, EmitError>
    ensures runs { IfOk result (λ code. RunsAsListed (job_of lines.now flags no_frame constants.now) code) }
{
    let frame = FrameLayout::none(alloc);
    assemble(alloc, lines, flags, &frame, constants)
}

fn kind_name(kind: Reloc) -> &'static str {
    match kind {
        Reloc::RiscvCallPlt => "R_RISCV_CALL_PLT",
        Reloc::RiscvGotHi20 => "R_RISCV_GOT_HI20",
        Reloc::RiscvPCRelHi20 => "R_RISCV_PCREL_HI20",
        Reloc::RiscvPCRelLo12I => "R_RISCV_PCREL_LO12_I",
        Reloc::Abs8 => "R_RISCV_64",
    }
}

/// Prints what is to be filled at an offset.
fn print_reloc(rt: &impl Print, reloc: MachReloc) -> io::Result<()> {
    let MachReloc {
        offset,
        kind,
        target,
        addend,
    } = reloc;
    let kind = kind_name(kind);
    match target {
        FinalizedRelocTarget::ExternalName(name) => {
            println!(rt; "{kind} at {offset}: {name} + {addend}")
        }
        FinalizedRelocTarget::Func(place) => println!(rt; "{kind} at {offset}: place {place}"),
    }
}

fn print_code(rt: &impl Print, code: &Code) -> io::Result<()> {
    for byte in code.bytes.as_slice() {
        print!(rt; "{byte:02x}")?;
    }
    println!(rt; "")?;
    for reloc in code.relocs.as_slice() {
        print_reloc(rt, *reloc)?;
    }
    for call in code.returns.as_slice() {
        let index = call.index;
        let offset = call.offset;
        println!(rt; "line {index} returns to {offset}")?;
    }
    for trap in code.traps.as_slice() {
        let (cause, offset) = (trap.code, trap.offset);
        println!(rt; "trap {cause} at {offset}")?;
    }
    for place in code.constants.as_slice() {
        let (number, offset) = (place.constant.number, place.offset);
        println!(rt; "constant {number} at {offset}")?;
    }
    Ok(())
}

/// Prints the code of a function; or, where two words are numbers, assembles another one so many times, which has so many blocks, for
/// `bench/assemble`.
fn main(rt: HostRuntime) -> anyhow::Result<()> {
    let mut words = env::args(&rt)?.skip(1);
    if let (Some(times), Some(blocks)) = (words.next(), words.next()) {
        let size = assemble_again(rt.alloc(), times.parse()?, blocks.parse()?)?;
        println!(rt; "{size} bytes")?;
        return Ok(());
    }
    let host = ExternalName::from_u32(0);
    let lines = lines(rt.alloc(), host)?;
    let constants = constants(rt.alloc())?;
    let mut flags = IsaFlags::none();
    flags.has_m = true;
    let code = code_of(rt.alloc(), &lines, flags, &constants)?;
    print_code(&rt, &code)?;
    Ok(())
}
