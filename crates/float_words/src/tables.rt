//! All operations, and the formats and rounding modes that they may have.

use rv_ops::{CsrImmOP, CsrRegOP, FRM, FpuOPRR, FpuOPRRR, FpuOPRRRR, FpuOPWidth, LoadOP, StoreOP};

pub const WIDTHS: [FpuOPWidth; 3] = [FpuOPWidth::H, FpuOPWidth::S, FpuOPWidth::D];

pub const MODES: [FRM; 6] = [FRM::RNE, FRM::RTZ, FRM::RDN, FRM::RUP, FRM::RMM, FRM::Fcsr];

pub const RR: [FpuOPRR; 19] = [
    FpuOPRR::Fsqrt,
    FpuOPRR::Fround,
    FpuOPRR::Fclass,
    FpuOPRR::FcvtWFmt,
    FpuOPRR::FcvtWuFmt,
    FpuOPRR::FcvtLFmt,
    FpuOPRR::FcvtLuFmt,
    FpuOPRR::FcvtFmtW,
    FpuOPRR::FcvtFmtWu,
    FpuOPRR::FcvtFmtL,
    FpuOPRR::FcvtFmtLu,
    FpuOPRR::FmvXFmt,
    FpuOPRR::FmvFmtX,
    FpuOPRR::FcvtSH,
    FpuOPRR::FcvtHS,
    FpuOPRR::FcvtSD,
    FpuOPRR::FcvtDS,
    FpuOPRR::FcvtDH,
    FpuOPRR::FcvtHD,
];

pub const RRR: [FpuOPRRR; 14] = [
    FpuOPRRR::Fadd,
    FpuOPRRR::Fsub,
    FpuOPRRR::Fmul,
    FpuOPRRR::Fdiv,
    FpuOPRRR::Fsgnj,
    FpuOPRRR::Fsgnjn,
    FpuOPRRR::Fsgnjx,
    FpuOPRRR::Fmin,
    FpuOPRRR::Fmax,
    FpuOPRRR::Feq,
    FpuOPRRR::Flt,
    FpuOPRRR::Fle,
    FpuOPRRR::Fminm,
    FpuOPRRR::Fmaxm,
];

pub const RRRR: [FpuOPRRRR; 4] = [
    FpuOPRRRR::Fmadd,
    FpuOPRRRR::Fmsub,
    FpuOPRRRR::Fnmsub,
    FpuOPRRRR::Fnmadd,
];

pub const CSR_REG: [CsrRegOP; 3] = [CsrRegOP::CsrRW, CsrRegOP::CsrRS, CsrRegOP::CsrRC];

pub const CSR_IMM: [CsrImmOP; 3] = [CsrImmOP::CsrRWI, CsrImmOP::CsrRSI, CsrImmOP::CsrRCI];

pub const LOADS: [LoadOP; 3] = [LoadOP::Flh, LoadOP::Flw, LoadOP::Fld];

pub const STORES: [StoreOP; 3] = [StoreOP::Fsh, StoreOP::Fsw, StoreOP::Fsd];
