//! Generated jobs.

ghost use Rattle.std.specs.Prelude.{◌≡◌, ◌*◌, ◌%◌, pos, IfOk};
ghost use Rattle.rv_gen.specs.Draws.{draws};
ghost use Rattle.rv_gen.specs.Generated.{argument, addend, upper, inst_by, inst_of, line_at, state_after, lines_from, flags, gen_job};

use crate::draws::{FourDraws, after_draws, draws};
use rv_base::{
    AMode, FrameLayout, IntCC, IsaFlags, List, MachLabel, MemFlagsData, OutOfMemory, PReg, Reg,
    RegClass, Writable,
};
use rv_imms::{Imm12, Imm20};
use rv_inst::{CondBrTarget, Inst, Job, Line};
use rv_ops::{AluOPRRI, AluOPRRR, IntegerCompare, LoadOP, StoreOP};
use std::alloc::Global;

fn argument(p: u64) -> Reg
    ensures { result ≡ argument p }
{
    Reg::Real(PReg {
        class: RegClass::Int,
        number: 10 + (p % 6) as u8,
    })
}

fn addend(r: u64) -> Imm12
    ensures { result ≡ addend r }
{
    Imm12 {
        value: (r % 4096) as i16 - 2048,
    }
}

fn upper(r: u64) -> Imm20
    ensures { result ≡ upper r }
{
    Imm20 {
        value: (r % 1048576) as i32 - 524288,
    }
}

fn offset(r: u64) -> i64
    ensures { result ≡ pos (8 * (r % 300)) }
{
    (8 * (r % 300)) as i64
}

fn inst_by(form: u64, d: FourDraws) -> Inst
    ensures { result ≡ inst_by form d }
{
    let p = argument(d.p);
    let q = argument(d.q);
    let rd = Writable { reg: p };
    let place = AMode::RegOffset(q, offset(d.r));
    let flags = MemFlagsData::new();
    if form == 0 {
        Inst::AluRRImm12 {
            alu_op: AluOPRRI::Addi,
            rd,
            rs: q,
            imm12: addend(d.r),
        }
    } else if form == 1 {
        Inst::AluRRR {
            alu_op: AluOPRRR::Add,
            rd,
            rs1: q,
            rs2: argument(d.r),
        }
    } else if form == 2 {
        Inst::Lui {
            rd,
            imm: upper(d.r),
        }
    } else if form == 3 {
        Inst::CondBr {
            taken: CondBrTarget::Label(MachLabel {
                number: (d.r % 100) as u32,
            }),
            not_taken: CondBrTarget::Fallthrough,
            kind: IntegerCompare {
                kind: IntCC::NotEqual,
                rs1: p,
                rs2: q,
            },
        }
    } else if form == 4 {
        Inst::Load {
            rd,
            op: LoadOP::Ld,
            flags,
            from: place,
        }
    } else {
        Inst::Store {
            src: p,
            op: StoreOP::Sd,
            flags,
            to: place,
        }
    }
}

/// The instruction drawn from a state.
fn inst_at(state: u64) -> Inst
    ensures { result ≡ inst_of (draws state) }
{
    let d = draws(state);
    inst_by(d.k % 6, d)
}

/// The line at a place, drawn from a state.
fn line_at(i: u32, state: u64) -> Line
    ensures { result ≡ line_at i state }
{
    if i % 13 == 0 {
        Line::Bind(MachLabel { number: i / 13 })
    } else {
        Line::Inst(inst_at(state))
    }
}

/// The state after the line at a place.
fn state_after(i: u32, state: u64) -> u64
    ensures { result ≡ state_after i state }
{
    if i % 13 == 0 {
        state
    } else {
        after_draws(state)
    }
}

fn flags() -> IsaFlags
    ensures { result ≡ flags }
{
    IsaFlags {
        has_m: true,
        has_zba: false,
        has_zbb: false,
        has_zca: true,
        has_zcb: false,
        has_zcd: false,
        has_zfhmin: false,
    }
}

fn gen_lines(alloc: Global, n: u64) -> Result<Vec<Line>, OutOfMemory>
    ensures { IfOk result (λ lines. lines.items ≡ lines_from 1300 0 n) }
{
    let mut lines = Vec::new(alloc);
    let mut state = n;
    for i in 0..1300u32 {
        lines.push(line_at(i, state))?;
        state = state_after(i, state);
    }
    Ok(lines)
}

/// The job of a number: 1300 lines for a machine with M and Zca, with no frame and no constants. It is the same each time.
pub fn gen_job(alloc: Global, n: u64) -> Result<Job, OutOfMemory>
    ensures { IfOk result (λ job. job ≡ gen_job n) }
{
    let lines = gen_lines(alloc, n)?;
    Ok(Job {
        lines: List::from_vec(lines),
        flags: flags(),
        frame: FrameLayout::none(alloc),
        constants: List::new(alloc),
    })
}
