//! Floating-point operations, formats and rounding modes by their names, and constants by their numbers.

ghost use Rattle.std.specs.Prelude.{◌≡◌, Some};
ghost use Rattle.rv_ops.specs.FloatFields.{width_name, frm_name};
ghost use Rattle.rv_ops.specs.Fpu.{fpu_rr_listed, fpu_rrr_listed, fpu_rrrr_listed};
ghost use Rattle.rv_listing.specs.Floats.{fpu_rr, fpu_rrr, fpu_rrrr, fpu_width, rounding_mode, fli_of, fli_constant};

use crate::fields::Token;
use crate::named::{Named, one_named, slot_named};
use crate::tokens::natural;
use rv_ops::{FRM, FliConstant, FpuOPRR, FpuOPRRR, FpuOPRRRR, FpuOPWidth};

const EVERY_FPU_RR: [FpuOPRR; 19] = [
    FpuOPRR::Fsqrt,
    FpuOPRR::Fround,
    FpuOPRR::Fclass,
    FpuOPRR::FcvtWFmt,
    FpuOPRR::FcvtWuFmt,
    FpuOPRR::FcvtLFmt,
    FpuOPRR::FcvtLuFmt,
    FpuOPRR::FcvtFmtW,
    FpuOPRR::FcvtFmtWu,
    FpuOPRR::FcvtFmtL,
    FpuOPRR::FcvtFmtLu,
    FpuOPRR::FmvXFmt,
    FpuOPRR::FmvFmtX,
    FpuOPRR::FcvtSH,
    FpuOPRR::FcvtHS,
    FpuOPRR::FcvtSD,
    FpuOPRR::FcvtDS,
    FpuOPRR::FcvtDH,
    FpuOPRR::FcvtHD,
];

impl Named for FpuOPRR {
    ghost named = { fpu_rr_listed };

    fn name(self) -> &'static str {
        self.listed_name()
    }
}

/// The operation of one register that has this name.
#[tactic(auto, using(crate::proofs::ByName::fpu_rr_found), unfolding(crate::specs::Floats::fpu_rr, crate::specs::Floats::every_fpu_rr))]
pub fn fpu_rr_named(w: &[u8]) -> Option<FpuOPRR>
    ensures reads { result ≡ fpu_rr w.now }
    ensures named { (x : FpuOPRR) → w.now ≡ fpu_rr_listed x → result ≡ Some x }
{
    one_named(&EVERY_FPU_RR, w)
}

impl Token for FpuOPRR {
    ghost reads = { fpu_rr };

    fn read(w: &[u8]) -> Option<FpuOPRR> {
        fpu_rr_named(w)
    }
}

const EVERY_FPU_RRR: [FpuOPRRR; 14] = [
    FpuOPRRR::Fadd,
    FpuOPRRR::Fsub,
    FpuOPRRR::Fmul,
    FpuOPRRR::Fdiv,
    FpuOPRRR::Fsgnj,
    FpuOPRRR::Fsgnjn,
    FpuOPRRR::Fsgnjx,
    FpuOPRRR::Fmin,
    FpuOPRRR::Fmax,
    FpuOPRRR::Feq,
    FpuOPRRR::Flt,
    FpuOPRRR::Fle,
    FpuOPRRR::Fminm,
    FpuOPRRR::Fmaxm,
];

/// The indices in `EVERY_FPU_RRR` by the names' slots.
const FPU_RRR_SLOTS: [u8; 256] = [
    0, 0, 0, 1, 0, 0, 0, 0, 0, 0, 0, 0, 0, 0, 0, 0, 13, 0, 0, 0, 0, 0, 0, 9, 0, 0, 0, 0, 0, 0, 0,
    0, 0, 11, 0, 0, 0, 0, 0, 0, 0, 0, 0, 0, 0, 0, 0, 0, 0, 0, 0, 0, 0, 0, 0, 7, 0, 0, 0, 0, 0, 0,
    0, 0, 0, 0, 0, 0, 0, 0, 0, 0, 0, 0, 0, 0, 0, 0, 0, 0, 0, 0, 10, 0, 0, 0, 0, 0, 0, 0, 0, 0, 0,
    0, 0, 0, 0, 0, 0, 0, 0, 0, 0, 0, 5, 0, 0, 0, 0, 0, 0, 0, 0, 0, 0, 0, 0, 0, 0, 0, 0, 0, 0, 8, 0,
    0, 0, 0, 0, 0, 0, 0, 0, 0, 0, 0, 0, 0, 0, 0, 0, 0, 0, 2, 0, 0, 0, 0, 0, 0, 0, 0, 3, 0, 0, 0, 0,
    0, 0, 0, 0, 4, 0, 0, 0, 0, 0, 0, 0, 0, 0, 0, 0, 0, 0, 0, 0, 0, 0, 0, 0, 0, 0, 0, 0, 0, 0, 0, 0,
    0, 0, 0, 6, 0, 0, 0, 0, 0, 0, 0, 0, 0, 0, 0, 0, 0, 0, 0, 0, 0, 0, 0, 0, 0, 0, 0, 0, 0, 0, 0, 0,
    0, 0, 0, 0, 0, 0, 0, 0, 0, 0, 0, 0, 0, 0, 0, 0, 12, 0, 0, 0, 0, 0, 0, 0, 0, 0, 0, 0, 0, 0, 0,
    0, 0, 0, 0,
];

const FPU_RRR_FACTOR: u64 = 10517972530174996981;

impl Named for FpuOPRRR {
    ghost named = { fpu_rrr_listed };

    fn name(self) -> &'static str {
        self.listed_name()
    }
}

#[tactic(auto, using(crate::proofs::BySlot::fpu_rrr_by_slot), unfolding(crate::specs::Floats::every_fpu_rrr))]
fn find_fpu_rrr(w: &[u8]) -> Option<FpuOPRRR>
    ensures { result ≡ fpu_rrr w.now }
{
    slot_named(&EVERY_FPU_RRR, &FPU_RRR_SLOTS, FPU_RRR_FACTOR, w)
}

/// The operation of two floating-point registers that has this name.
#[tactic(auto, using(crate::proofs::BySlot::fpu_rrr_found))]
pub fn fpu_rrr_named(w: &[u8]) -> Option<FpuOPRRR>
    ensures reads { result ≡ fpu_rrr w.now }
    ensures named { (op : FpuOPRRR) → w.now ≡ fpu_rrr_listed op → result ≡ Some op }
{
    find_fpu_rrr(w)
}

impl Token for FpuOPRRR {
    ghost reads = { fpu_rrr };

    fn read(w: &[u8]) -> Option<FpuOPRRR> {
        fpu_rrr_named(w)
    }
}

const EVERY_FPU_RRRR: [FpuOPRRRR; 4] = [
    FpuOPRRRR::Fmadd,
    FpuOPRRRR::Fmsub,
    FpuOPRRRR::Fnmsub,
    FpuOPRRRR::Fnmadd,
];

impl Named for FpuOPRRRR {
    ghost named = { fpu_rrrr_listed };

    fn name(self) -> &'static str {
        self.listed_name()
    }
}

/// The operation of three registers that has this name.
#[tactic(auto, using(crate::proofs::ByName::fpu_rrrr_found), unfolding(crate::specs::Floats::fpu_rrrr))]
pub fn fpu_rrrr_named(w: &[u8]) -> Option<FpuOPRRRR>
    ensures reads { result ≡ fpu_rrrr w.now }
    ensures named { (x : FpuOPRRRR) → w.now ≡ fpu_rrrr_listed x → result ≡ Some x }
{
    one_named(&EVERY_FPU_RRRR, w)
}

impl Token for FpuOPRRRR {
    ghost reads = { fpu_rrrr };

    fn read(w: &[u8]) -> Option<FpuOPRRRR> {
        fpu_rrrr_named(w)
    }
}

const EVERY_WIDTH: [FpuOPWidth; 4] = [FpuOPWidth::H, FpuOPWidth::S, FpuOPWidth::D, FpuOPWidth::Q];

/// The indices in `EVERY_WIDTH` by the names' slots.
const WIDTH_SLOTS: [u8; 256] = [
    0, 0, 0, 0, 0, 0, 0, 0, 0, 0, 0, 0, 0, 0, 0, 0, 0, 0, 0, 0, 0, 0, 0, 0, 0, 0, 0, 0, 0, 0, 0, 0,
    0, 0, 0, 0, 0, 0, 0, 0, 0, 0, 0, 0, 0, 0, 0, 0, 0, 0, 0, 0, 0, 0, 0, 0, 0, 0, 0, 0, 0, 0, 0, 0,
    0, 0, 0, 0, 0, 0, 0, 0, 0, 0, 0, 0, 0, 0, 0, 0, 0, 0, 0, 0, 0, 0, 0, 0, 0, 0, 0, 0, 0, 0, 0, 0,
    0, 0, 0, 0, 0, 0, 0, 0, 0, 0, 0, 0, 0, 0, 0, 0, 0, 0, 0, 0, 0, 0, 0, 0, 0, 0, 0, 0, 0, 0, 0, 0,
    0, 0, 0, 0, 0, 0, 0, 0, 0, 0, 0, 0, 0, 0, 0, 0, 0, 0, 0, 0, 0, 0, 0, 0, 0, 0, 0, 0, 0, 0, 0, 0,
    0, 0, 0, 0, 0, 0, 0, 0, 0, 0, 0, 0, 0, 0, 0, 0, 0, 0, 0, 0, 0, 0, 0, 0, 1, 0, 0, 3, 0, 0, 0, 0,
    0, 0, 0, 0, 0, 0, 0, 0, 0, 0, 0, 0, 0, 0, 0, 2, 0, 0, 0, 0, 0, 0, 0, 0, 0, 0, 0, 0, 0, 0, 0, 0,
    0, 0, 0, 0, 0, 0, 0, 0, 0, 0, 0, 0, 0, 0, 0, 0, 0, 0, 0, 0, 0, 0, 0, 0, 0, 0, 0, 0, 0, 0, 0, 0,
];

const WIDTH_FACTOR: u64 = 10517972530174996981;

impl Named for FpuOPWidth {
    ghost named = { width_name };

    fn name(self) -> &'static str {
        self.to_static_str()
    }
}

#[tactic(auto, using(crate::proofs::BySlot::width_by_slot), unfolding(crate::specs::Floats::every_width))]
fn find_width(w: &[u8]) -> Option<FpuOPWidth>
    ensures { result ≡ fpu_width w.now }
{
    slot_named(&EVERY_WIDTH, &WIDTH_SLOTS, WIDTH_FACTOR, w)
}

/// The format of this name.
#[tactic(auto, using(crate::proofs::BySlot::width_found))]
pub fn width_named(w: &[u8]) -> Option<FpuOPWidth>
    ensures reads { result ≡ fpu_width w.now }
    ensures named { (width : FpuOPWidth) → w.now ≡ width_name width → result ≡ Some width }
{
    find_width(w)
}

impl Token for FpuOPWidth {
    ghost reads = { fpu_width };

    fn read(w: &[u8]) -> Option<FpuOPWidth> {
        width_named(w)
    }
}

const EVERY_FRM: [FRM; 6] = [FRM::RNE, FRM::RTZ, FRM::RDN, FRM::RUP, FRM::RMM, FRM::Fcsr];

/// The indices in `EVERY_FRM` by the names' slots.
const FRM_SLOTS: [u8; 256] = [
    0, 0, 0, 0, 0, 0, 0, 0, 0, 0, 0, 0, 0, 0, 0, 0, 0, 0, 0, 0, 0, 0, 0, 0, 0, 0, 0, 0, 0, 0, 0, 0,
    0, 0, 0, 0, 0, 0, 0, 0, 0, 0, 0, 0, 0, 0, 0, 0, 0, 0, 0, 0, 0, 0, 0, 0, 0, 0, 0, 0, 0, 0, 0, 0,
    0, 0, 0, 0, 0, 0, 0, 0, 0, 0, 0, 0, 0, 0, 0, 4, 0, 0, 0, 0, 1, 0, 0, 0, 0, 0, 0, 0, 0, 0, 0, 0,
    0, 0, 0, 0, 0, 0, 0, 0, 0, 0, 0, 0, 0, 0, 0, 0, 0, 0, 0, 0, 0, 0, 0, 0, 0, 0, 0, 0, 2, 0, 0, 0,
    0, 0, 0, 0, 0, 0, 0, 0, 0, 0, 0, 0, 0, 0, 0, 0, 0, 0, 0, 0, 0, 0, 0, 0, 0, 0, 0, 0, 0, 0, 0, 0,
    0, 0, 0, 0, 0, 0, 0, 0, 0, 0, 0, 0, 0, 0, 5, 0, 0, 0, 0, 0, 0, 0, 0, 0, 0, 0, 0, 0, 0, 0, 0, 0,
    0, 0, 0, 0, 0, 0, 0, 0, 0, 0, 0, 3, 0, 0, 0, 0, 0, 0, 0, 0, 0, 0, 0, 0, 0, 0, 0, 0, 0, 0, 0, 0,
    0, 0, 0, 0, 0, 0, 0, 0, 0, 0, 0, 0, 0, 0, 0, 0, 0, 0, 0, 0, 0, 0, 0, 0, 0, 0, 0, 0, 0, 0, 0, 0,
];

const FRM_FACTOR: u64 = 10517972530174996981;

impl Named for FRM {
    ghost named = { frm_name };

    fn name(self) -> &'static str {
        self.to_static_str()
    }
}

#[tactic(auto, using(crate::proofs::BySlot::frm_by_slot), unfolding(crate::specs::Floats::every_frm))]
fn find_frm(w: &[u8]) -> Option<FRM>
    ensures { result ≡ rounding_mode w.now }
{
    slot_named(&EVERY_FRM, &FRM_SLOTS, FRM_FACTOR, w)
}

/// The rounding mode of this name.
#[tactic(auto, using(crate::proofs::BySlot::frm_found))]
pub fn frm_named(w: &[u8]) -> Option<FRM>
    ensures reads { result ≡ rounding_mode w.now }
    ensures named { (frm : FRM) → w.now ≡ frm_name frm → result ≡ Some frm }
{
    find_frm(w)
}

impl Token for FRM {
    ghost reads = { rounding_mode };

    fn read(w: &[u8]) -> Option<FRM> {
        frm_named(w)
    }
}

#[tactic(auto, unfolding(crate::specs::Floats::fli_of))]
fn fli_of(n: u64) -> Option<FliConstant>
    ensures { result ≡ fli_of n }
{
    if n < 32 {
        Some(FliConstant { value: n as u8 })
    } else {
        None
    }
}

impl Token for FliConstant {
    ghost reads = { fli_constant };

    #[tactic(auto, unfolding(crate::specs::Floats::fli_constant))]
    fn read(w: &[u8]) -> Option<FliConstant> {
        fli_of(natural(w)?)
    }
}
