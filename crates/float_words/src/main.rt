//! Writes the words of all floating-point operations, of constants, of operations on `frm` and of loads and stores, a
//! line each, at register numbers that go round. The expected output is an assembler's: `bench/float_words.py` makes it.
#![tactic(auto)]

mod numbers;
mod tables;

use numbers::Numbers;
use rv_base::Writable;
use rv_encode::{
    encode_c_fld, encode_c_fldsp, encode_c_fsd, encode_c_fsdsp, encode_csr_imm, encode_csr_reg,
    encode_fli, encode_fp_rr, encode_fp_rrr, encode_fp_rrrr, encode_load, encode_store,
};
use rv_imms::{Imm12, UImm5, Uimm5, Uimm6};
use rv_ops::{CSR, FRM, FliConstant, FpuOPRR, FpuOPRRR, FpuOPRRRR, FpuOPWidth};
use std::io;
use tables::{CSR_IMM, CSR_REG, LOADS, MODES, RR, RRR, RRRR, STORES, WIDTHS};

/// The words of an operation of one source.
fn one_source(
    rt: &HostRuntime,
    op: FpuOPRR,
    width: FpuOPWidth,
    frm: FRM,
    at: Numbers,
) -> io::Result<()> {
    let word = encode_fp_rr(op, width, frm, Writable::from_reg(at.float(0)), at.float(1));
    let (rd, rs, frm) = (at.number(0), at.number(1), frm.to_static_str());
    match op.op_name(rt.alloc(), width) {
        Ok(name) => println!(rt; "{name} {rd} {rs} {frm}: {word:08x}"),
        Err(_) => println!(rt; "out of memory"),
    }
}

/// The words of an operation of two sources.
fn two_sources(
    rt: &HostRuntime,
    op: FpuOPRRR,
    width: FpuOPWidth,
    frm: FRM,
    at: Numbers,
) -> io::Result<()> {
    let word = encode_fp_rrr(
        op,
        width,
        frm,
        Writable::from_reg(at.float(0)),
        at.float(1),
        at.float(2),
    );
    let (rd, rs1, rs2, frm) = (
        at.number(0),
        at.number(1),
        at.number(2),
        frm.to_static_str(),
    );
    match op.op_name(rt.alloc(), width) {
        Ok(name) => println!(rt; "{name} {rd} {rs1} {rs2} {frm}: {word:08x}"),
        Err(_) => println!(rt; "out of memory"),
    }
}

/// The words of an operation of three sources.
fn three_sources(
    rt: &HostRuntime,
    op: FpuOPRRRR,
    width: FpuOPWidth,
    frm: FRM,
    at: Numbers,
) -> io::Result<()> {
    let word = encode_fp_rrrr(
        op,
        width,
        frm,
        Writable::from_reg(at.float(0)),
        at.float(1),
        at.float(2),
        at.float(3),
    );
    let (rd, rs1, rs2, rs3) = (at.number(0), at.number(1), at.number(2), at.number(3));
    let frm = frm.to_static_str();
    match op.op_name(rt.alloc(), width) {
        Ok(name) => println!(rt; "{name} {rd} {rs1} {rs2} {rs3} {frm}: {word:08x}"),
        Err(_) => println!(rt; "out of memory"),
    }
}

/// The words of all operations of one format and rounding mode, as far as the rules allow both.
fn of_mode(rt: &HostRuntime, width: FpuOPWidth, frm: FRM, start: Numbers) -> io::Result<()> {
    let mut at = start;
    for op in RR {
        if op.takes_width(width) && op.takes_frm(frm) {
            one_source(rt, op, width, frm, at)?;
        }
        at = at.next();
    }
    for op in RRR {
        if op.takes_frm(frm) {
            two_sources(rt, op, width, frm, at)?;
        }
        at = at.next();
    }
    for op in RRRR {
        three_sources(rt, op, width, frm, at)?;
        at = at.next();
    }
    Ok(())
}

/// The words of all constants of one format.
fn constants(rt: &HostRuntime, width: FpuOPWidth) -> io::Result<()> {
    for number in 0..32u8 {
        let constant = FliConstant::new(number);
        let at = Numbers::new(number);
        let word = encode_fli(width, constant, Writable::from_reg(at.float(1)));
        let rd = at.number(1);
        println!(rt; "fli.{width} {rd} {constant}: {word:08x}")?;
    }
    Ok(())
}

/// The words of operations on `frm`.
fn of_csr(rt: &HostRuntime, number: u8) -> io::Result<()> {
    let at = Numbers::new(number);
    let (rd, rs, csr) = (at.number(0), at.number(1), CSR::Frm);
    for op in CSR_REG {
        let word = encode_csr_reg(op, Writable::from_reg(at.int(0)), at.int(1), csr);
        println!(rt; "{op} {rd} {csr} {rs}: {word:08x}")?;
    }
    let Some(imm) = UImm5::maybe_from_u8(rs) else {
        return Ok(());
    };
    for op in CSR_IMM {
        let word = encode_csr_imm(op, Writable::from_reg(at.int(0)), csr, imm);
        println!(rt; "{op} {rd} {csr} {imm}: {word:08x}")?;
    }
    Ok(())
}

/// The words of loads and stores, at offsets from one end of their range to the other.
fn accesses(rt: &HostRuntime, number: u8) -> io::Result<()> {
    let at = Numbers::new(number);
    let (r, base) = (at.number(0), at.number(1));
    let Some(offset) = Imm12::maybe_from_i64(i64::from(number) * 65 - 2048) else {
        return Ok(());
    };
    for op in LOADS {
        let word = encode_load(op, Writable::from_reg(at.float(0)), at.int(1), offset);
        let name = op.op_name();
        println!(rt; "{name} {r} {offset} {base}: {word:08x}")?;
    }
    for op in STORES {
        let word = encode_store(op, at.int(1), at.float(0), offset);
        let name = op.op_name();
        println!(rt; "{name} {r} {offset} {base}: {word:08x}")?;
    }
    Ok(())
}

/// The halfwords of loads and stores past a register.
fn past_a_register(rt: &HostRuntime, number: u8) -> io::Result<()> {
    let at = Numbers::new(number);
    let (r, base) = (at.short_number(0), at.short_number(1));
    let Some(imm) = Uimm5::maybe_from_u8(at.number(2)) else {
        return Ok(());
    };
    let load = encode_c_fld(Writable::from_reg(at.short_float(0)), at.short_int(1), imm);
    println!(rt; "c.fld {r} {imm} {base}: {load:04x}")?;
    let store = encode_c_fsd(at.short_float(0), at.short_int(1), imm);
    println!(rt; "c.fsd {r} {imm} {base}: {store:04x}")
}

/// The halfwords of loads and stores past the stack pointer.
fn past_sp(rt: &HostRuntime, number: u8) -> io::Result<()> {
    let at = Numbers::new(number);
    let r = at.number(0);
    let Some(imm) = Uimm6::maybe_from_u8(number % 64) else {
        return Ok(());
    };
    let load = encode_c_fldsp(Writable::from_reg(at.float(0)), imm);
    println!(rt; "c.fldsp {r} {imm}: {load:04x}")?;
    let store = encode_c_fsdsp(at.float(0), imm);
    println!(rt; "c.fsdsp {r} {imm}: {store:04x}")
}

fn main(rt: HostRuntime) -> io::Result<()> {
    for width in WIDTHS {
        for frm in MODES {
            of_mode(&rt, width, frm, Numbers::new(frm.bits()))?;
        }
        constants(&rt, width)?;
    }
    for number in 0..64u8 {
        of_csr(&rt, number)?;
        accesses(&rt, number)?;
        past_a_register(&rt, number)?;
        past_sp(&rt, number)?;
    }
    Ok(())
}
