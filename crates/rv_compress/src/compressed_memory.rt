//! Forms of loads and stores: "Load and Store Instructions" of "C", "Zcb" and "Zcd". A form counts its offset in what it reads or
//! writes.

ghost use Rattle.std.specs.Prelude.{◌≡◌, ◌==◌, ◌&&◌, ◌*◌, ◌^◌, ◌-◌, ◌<◌, ◌≤◌, not, true, false, pos, MatchOption, IfSome};
ghost use Rattle.rv_base.specs.declared.flags.IsaFlags.{IsaFlags as Flags};
ghost use Rattle.rv_base.specs.Regs.{number_of};
ghost use Rattle.rv_machine.specs.declared.ops.FloatFormat.TheVariants.{D};
ghost use Rattle.rv_machine.specs.declared.ops.LoadOp.TheVariants.{Lw, Ld};
ghost use Rattle.rv_machine.specs.declared.ops.MOp.TheVariants.{FloatLoad, FloatStore};
ghost use Rattle.rv_machine.specs.Layout.{compressed};
ghost use Rattle.rv_ops.specs.Memory.{load_size, store_size};
ghost use Rattle.rv_encode.specs.Registers.{IsIntRegister, IsRealRegister, IsShortRegister};
ghost use Rattle.rv_encode.specs.Operations.{load_op, store_op};
ghost use Rattle.rv_encode.specs.Compressed.{cl_load, cs_store};
ghost use Rattle.rv_inst.specs.Forms.{sp, is_short, is_scaled, form_where, load_form, word_load_form, narrow_load_form, fld_form, form_load, store_form, word_store_form, narrow_store_form, fsd_form, form_store};
ghost use Rattle.rv_compress.specs.Encoded.{IsForm, IsScaledBy, narrow_size, narrow_most, narrow_load, narrow_store};

use crate::compressed::reg_is_compressible;
use rv_base::{IsaFlags, Reg, WritableReg};
use rv_encode::{
    encode_c_fld, encode_c_fldsp, encode_c_fsd, encode_c_fsdsp, encode_ci_sp_load, encode_cl_type,
    encode_cs_type, encode_css_type, encode_zcbmem_load, encode_zcbmem_store, number_of,
};
use rv_imms::{Imm12, Uimm2, Uimm5, Uimm6};
use rv_ops::{CiOp, ClOp, CsOp, CssOp, LoadOP, StoreOP, ZcbMemOp};

/// The form of a load, where it has one.
pub(crate) fn compressed_load(
    flags: IsaFlags,
    op: LoadOP,
    rd: WritableReg,
    base: Reg,
    offset: Imm12,
) -> Option<u16>
    requires rd { IsRealRegister rd.reg }
    requires base { IsIntRegister base }
    ensures { IsForm flags result (form_load flags op (number_of rd.reg) (number_of base) offset.value) }
{
    if !flags.has_zca {
        return None;
    }
    match op {
        LoadOP::Lb => None,
        LoadOP::Lh => narrow_load(flags, ZcbMemOp::CLh, rd, base, offset),
        LoadOP::Lw => word_load(ClOp::CLw, rd, base, offset),
        LoadOP::Lbu => narrow_load(flags, ZcbMemOp::CLbu, rd, base, offset),
        LoadOP::Lhu => narrow_load(flags, ZcbMemOp::CLhu, rd, base, offset),
        LoadOP::Lwu => None,
        LoadOP::Ld => word_load(ClOp::CLd, rd, base, offset),
        LoadOP::Flh | LoadOP::Flw => None,
        LoadOP::Fld => float_load(flags, rd, base, offset),
    }
}

/// The form of a store, where it has one.
pub(crate) fn compressed_store(
    flags: IsaFlags,
    op: StoreOP,
    base: Reg,
    src: Reg,
    offset: Imm12,
) -> Option<u16>
    requires base { IsIntRegister base }
    requires src { IsRealRegister src }
    ensures { IsForm flags result (form_store flags op (number_of base) (number_of src) offset.value) }
{
    if !flags.has_zca {
        return None;
    }
    match op {
        StoreOP::Sb => narrow_store(flags, ZcbMemOp::CSb, base, src, offset),
        StoreOP::Sh => narrow_store(flags, ZcbMemOp::CSh, base, src, offset),
        StoreOP::Sw => word_store(CsOp::CSw, base, src, offset),
        StoreOP::Sd => word_store(CsOp::CSd, base, src, offset),
        StoreOP::Fsh | StoreOP::Fsw => None,
        StoreOP::Fsd => float_store(flags, base, src, offset),
    }
}

/// The number of sizes that an offset is, from 0 to a greatest; none if it is no such multiple.
fn scaled(size: u16, most: u16, offset: Imm12) -> Option<u8>
    requires size { 0 < size }
    requires small { size ≤ 8 }
    requires most { most ≤ 63 }
    ensures { MatchOption result (is_scaled size most offset.value ≡ false) (λ number. IsScaledBy size most offset.value number) }
{
    let value = offset.value;
    if value < 0 {
        return None;
    }
    let bytes = value as u16;
    if bytes % size == 0 && bytes <= most * size {
        Some((bytes / size) as u8)
    } else {
        None
    }
}

// ---- words and doublewords

/// `c.lwsp` and `c.ldsp` from the stack pointer, else `c.lw` and `c.ld`.
fn word_load(op: ClOp, rd: WritableReg, base: Reg, offset: Imm12) -> Option<u16>
    requires rd { IsRealRegister rd.reg }
    requires base { IsIntRegister base }
    ensures { (flags : Flags) → flags.has_zca ≡ true → IsForm flags result (word_load_form (cl_load op) (number_of rd.reg) (number_of base) offset.value) }
{
    if number_of(base) == 2 {
        c_load_sp(op, rd, offset)
    } else if reg_is_compressible(rd.reg) && reg_is_compressible(base) {
        c_load(op, rd, base, offset)
    } else {
        None
    }
}

fn c_load_sp(op: ClOp, rd: WritableReg, offset: Imm12) -> Option<u16>
    requires { IsRealRegister rd.reg }
    ensures { (flags : Flags) → flags.has_zca ≡ true → IsForm flags result (form_where (not (number_of rd.reg == 0) && is_scaled (load_size (cl_load op)) 63 offset.value) (load_form (load_op (cl_load op)) (number_of rd.reg) sp offset.value)) }
{
    if number_of(rd.reg) == 0 {
        return None;
    }
    match op {
        ClOp::CLw => c_lwsp(rd, offset),
        ClOp::CLd => c_ldsp(rd, offset),
    }
}

fn c_lwsp(rd: WritableReg, offset: Imm12) -> Option<u16>
    requires rd { IsRealRegister rd.reg }
    requires written { 0 < number_of rd.reg }
    ensures { (flags : Flags) → flags.has_zca ≡ true → IsForm flags result (form_where (is_scaled 4 63 offset.value) (load_form Lw (number_of rd.reg) sp offset.value)) }
{
    match scaled(4, 63, offset) {
        Some(value) => Some(encode_ci_sp_load(CiOp::CLwsp, rd, Uimm6 { value })),
        None => None,
    }
}

fn c_ldsp(rd: WritableReg, offset: Imm12) -> Option<u16>
    requires rd { IsRealRegister rd.reg }
    requires written { 0 < number_of rd.reg }
    ensures { (flags : Flags) → flags.has_zca ≡ true → IsForm flags result (form_where (is_scaled 8 63 offset.value) (load_form Ld (number_of rd.reg) sp offset.value)) }
{
    match scaled(8, 63, offset) {
        Some(value) => Some(encode_ci_sp_load(CiOp::CLdsp, rd, Uimm6 { value })),
        None => None,
    }
}

fn c_load(op: ClOp, rd: WritableReg, base: Reg, offset: Imm12) -> Option<u16>
    requires rd { IsShortRegister rd.reg }
    requires base { IsShortRegister base }
    ensures { (flags : Flags) → flags.has_zca ≡ true → IsForm flags result (form_where (is_scaled (load_size (cl_load op)) 31 offset.value) (load_form (load_op (cl_load op)) (number_of rd.reg) (number_of base) offset.value)) }
{
    let size = match op {
        ClOp::CLw => 4,
        ClOp::CLd => 8,
    };
    match scaled(size, 31, offset) {
        Some(value) => Some(encode_cl_type(op, rd, base, Uimm5 { value })),
        None => None,
    }
}

/// `c.swsp` and `c.sdsp` to the stack pointer, else `c.sw` and `c.sd`.
fn word_store(op: CsOp, base: Reg, src: Reg, offset: Imm12) -> Option<u16>
    requires base { IsIntRegister base }
    requires src { IsRealRegister src }
    ensures { (flags : Flags) → flags.has_zca ≡ true → IsForm flags result (word_store_form (cs_store op) (number_of base) (number_of src) offset.value) }
{
    if number_of(base) == 2 {
        c_store_sp(op, src, offset)
    } else if reg_is_compressible(src) && reg_is_compressible(base) {
        c_store(op, base, src, offset)
    } else {
        None
    }
}

fn c_store_sp(op: CsOp, src: Reg, offset: Imm12) -> Option<u16>
    requires { IsRealRegister src }
    ensures { (flags : Flags) → flags.has_zca ≡ true → IsForm flags result (form_where (is_scaled (store_size (cs_store op)) 63 offset.value) (store_form (store_op (cs_store op)) sp (number_of src) offset.value)) }
{
    let (to_sp, size) = match op {
        CsOp::CSw => (CssOp::CSwsp, 4),
        CsOp::CSd => (CssOp::CSdsp, 8),
    };
    match scaled(size, 63, offset) {
        Some(value) => Some(encode_css_type(to_sp, src, Uimm6 { value })),
        None => None,
    }
}

fn c_store(op: CsOp, base: Reg, src: Reg, offset: Imm12) -> Option<u16>
    requires base { IsShortRegister base }
    requires src { IsShortRegister src }
    ensures { (flags : Flags) → flags.has_zca ≡ true → IsForm flags result (form_where (is_scaled (store_size (cs_store op)) 31 offset.value) (store_form (store_op (cs_store op)) (number_of base) (number_of src) offset.value)) }
{
    let size = match op {
        CsOp::CSw => 4,
        CsOp::CSd => 8,
    };
    match scaled(size, 31, offset) {
        Some(value) => Some(encode_cs_type(op, src, base, Uimm5 { value })),
        None => None,
    }
}

// ---- doublewords of floating-point registers, where Zcd is there

/// `c.fldsp` from the stack pointer, else `c.fld`.
fn float_load(flags: IsaFlags, rd: WritableReg, base: Reg, offset: Imm12) -> Option<u16>
    requires rd { IsRealRegister rd.reg }
    requires base { IsIntRegister base }
    requires zca { flags.has_zca ≡ true }
    ensures { IsForm flags result (fld_form flags (number_of rd.reg) (number_of base) offset.value) }
{
    if number_of(base) == 2 {
        c_fldsp(flags, rd, offset)
    } else if reg_is_compressible(rd.reg) && reg_is_compressible(base) {
        c_fld(flags, rd, base, offset)
    } else {
        None
    }
}

fn c_fldsp(flags: IsaFlags, rd: WritableReg, offset: Imm12) -> Option<u16>
    requires rd { IsRealRegister rd.reg }
    requires zca { flags.has_zca ≡ true }
    ensures { IsForm flags result (form_where (flags.has_zcd && is_scaled 8 63 offset.value) (compressed (FloatLoad D) (number_of rd.reg) sp 0 offset.value)) }
{
    if !flags.has_zcd {
        return None;
    }
    match scaled(8, 63, offset) {
        Some(value) => Some(encode_c_fldsp(rd, Uimm6 { value })),
        None => None,
    }
}

fn c_fld(flags: IsaFlags, rd: WritableReg, base: Reg, offset: Imm12) -> Option<u16>
    requires rd { IsShortRegister rd.reg }
    requires base { IsShortRegister base }
    requires zca { flags.has_zca ≡ true }
    ensures { IsForm flags result (form_where (flags.has_zcd && is_scaled 8 31 offset.value) (compressed (FloatLoad D) (number_of rd.reg) (number_of base) 0 offset.value)) }
{
    if !flags.has_zcd {
        return None;
    }
    match scaled(8, 31, offset) {
        Some(value) => Some(encode_c_fld(rd, base, Uimm5 { value })),
        None => None,
    }
}

/// `c.fsdsp` to the stack pointer, else `c.fsd`.
fn float_store(flags: IsaFlags, base: Reg, src: Reg, offset: Imm12) -> Option<u16>
    requires base { IsIntRegister base }
    requires src { IsRealRegister src }
    requires zca { flags.has_zca ≡ true }
    ensures { IsForm flags result (fsd_form flags (number_of base) (number_of src) offset.value) }
{
    if number_of(base) == 2 {
        c_fsdsp(flags, src, offset)
    } else if reg_is_compressible(src) && reg_is_compressible(base) {
        c_fsd(flags, base, src, offset)
    } else {
        None
    }
}

fn c_fsdsp(flags: IsaFlags, src: Reg, offset: Imm12) -> Option<u16>
    requires src { IsRealRegister src }
    requires zca { flags.has_zca ≡ true }
    ensures { IsForm flags result (form_where (flags.has_zcd && is_scaled 8 63 offset.value) (compressed (FloatStore D) 0 sp (number_of src) offset.value)) }
{
    if !flags.has_zcd {
        return None;
    }
    match scaled(8, 63, offset) {
        Some(value) => Some(encode_c_fsdsp(src, Uimm6 { value })),
        None => None,
    }
}

fn c_fsd(flags: IsaFlags, base: Reg, src: Reg, offset: Imm12) -> Option<u16>
    requires base { IsShortRegister base }
    requires src { IsShortRegister src }
    requires zca { flags.has_zca ≡ true }
    ensures { IsForm flags result (form_where (flags.has_zcd && is_scaled 8 31 offset.value) (compressed (FloatStore D) 0 (number_of base) (number_of src) offset.value)) }
{
    if !flags.has_zcd {
        return None;
    }
    match scaled(8, 31, offset) {
        Some(value) => Some(encode_c_fsd(src, base, Uimm5 { value })),
        None => None,
    }
}

// ---- bytes and halfwords, where Zcb is there

/// `c.lbu`, `c.lhu` and `c.lh`.
fn narrow_load(
    flags: IsaFlags,
    op: ZcbMemOp,
    rd: WritableReg,
    base: Reg,
    offset: Imm12,
) -> Option<u16>
    requires rd { IsRealRegister rd.reg }
    requires base { IsIntRegister base }
    requires zca { flags.has_zca ≡ true }
    ensures { IfSome (narrow_load op) (λ load. IsForm flags result (narrow_load_form flags (narrow_most op) load (number_of rd.reg) (number_of base) offset.value)) }
{
    if !(flags.has_zcb && reg_is_compressible(rd.reg) && reg_is_compressible(base)) {
        return None;
    }
    match narrow_offset(op, offset) {
        Some(imm) => Some(encode_zcbmem_load(op, rd, base, imm)),
        None => None,
    }
}

/// `c.sb` and `c.sh`.
fn narrow_store(flags: IsaFlags, op: ZcbMemOp, base: Reg, src: Reg, offset: Imm12) -> Option<u16>
    requires base { IsIntRegister base }
    requires src { IsRealRegister src }
    requires zca { flags.has_zca ≡ true }
    ensures { IfSome (narrow_store op) (λ store. IsForm flags result (narrow_store_form flags (narrow_most op) store (number_of base) (number_of src) offset.value)) }
{
    if !(flags.has_zcb && reg_is_compressible(src) && reg_is_compressible(base)) {
        return None;
    }
    match narrow_offset(op, offset) {
        Some(imm) => Some(encode_zcbmem_store(op, src, base, imm)),
        None => None,
    }
}

/// An offset of bytes from 0 to 3, or of halfwords from 0 to 1.
fn narrow_offset(op: ZcbMemOp, offset: Imm12) -> Option<Uimm2>
    ensures { MatchOption result (is_scaled (narrow_size op) (narrow_most op) offset.value ≡ false) (λ imm. IsScaledBy (narrow_size op) (narrow_most op) offset.value imm.value) }
{
    let (size, most) = match op {
        ZcbMemOp::CLbu | ZcbMemOp::CSb => (1, 3),
        ZcbMemOp::CLhu | ZcbMemOp::CLh | ZcbMemOp::CSh => (2, 1),
    };
    match scaled(size, most, offset) {
        Some(value) => Some(Uimm2 { value }),
        None => None,
    }
}
