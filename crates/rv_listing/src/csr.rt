//! Operations on control and status registers, and these registers, by their names.

ghost use Rattle.std.specs.Prelude.{◌≡◌, Some};
ghost use Rattle.rv_ops.specs.Csr.{csr_reg_name, csr_imm_name, csr_name};
ghost use Rattle.rv_listing.specs.Csr.{csr_reg, csr_imm, csr};

use crate::fields::Token;
use crate::named::{Named, one_named};
use rv_ops::{CSR, CsrImmOP, CsrRegOP};

const EVERY_CSR_REG: [CsrRegOP; 3] = [CsrRegOP::CsrRW, CsrRegOP::CsrRS, CsrRegOP::CsrRC];

impl Named for CsrRegOP {
    ghost named = { csr_reg_name };

    fn name(self) -> &'static str {
        CsrRegOP::name(self)
    }
}

/// The operation of a register that has this mnemonic.
#[tactic(auto, using(crate::proofs::ByName::csr_reg_found), unfolding(crate::specs::Csr::csr_reg))]
pub fn csr_reg_named(w: &[u8]) -> Option<CsrRegOP>
    ensures reads { result ≡ csr_reg w.now }
    ensures named { (x : CsrRegOP) → w.now ≡ csr_reg_name x → result ≡ Some x }
{
    one_named(&EVERY_CSR_REG, w)
}

impl Token for CsrRegOP {
    ghost reads = { csr_reg };

    fn read(w: &[u8]) -> Option<CsrRegOP> {
        csr_reg_named(w)
    }
}

const EVERY_CSR_IMM: [CsrImmOP; 3] = [CsrImmOP::CsrRWI, CsrImmOP::CsrRSI, CsrImmOP::CsrRCI];

impl Named for CsrImmOP {
    ghost named = { csr_imm_name };

    fn name(self) -> &'static str {
        CsrImmOP::name(self)
    }
}

/// The operation of an immediate that has this mnemonic.
#[tactic(auto, using(crate::proofs::ByName::csr_imm_found), unfolding(crate::specs::Csr::csr_imm))]
pub fn csr_imm_named(w: &[u8]) -> Option<CsrImmOP>
    ensures reads { result ≡ csr_imm w.now }
    ensures named { (x : CsrImmOP) → w.now ≡ csr_imm_name x → result ≡ Some x }
{
    one_named(&EVERY_CSR_IMM, w)
}

impl Token for CsrImmOP {
    ghost reads = { csr_imm };

    fn read(w: &[u8]) -> Option<CsrImmOP> {
        csr_imm_named(w)
    }
}

const EVERY_CSR: [CSR; 1] = [CSR::Frm];

impl Named for CSR {
    ghost named = { csr_name };

    fn name(self) -> &'static str {
        CSR::name(self)
    }
}

/// The register of this name.
#[tactic(auto, using(crate::proofs::ByName::csr_found), unfolding(crate::specs::Csr::csr))]
pub fn csr_named(w: &[u8]) -> Option<CSR>
    ensures reads { result ≡ csr w.now }
    ensures named { (x : CSR) → w.now ≡ csr_name x → result ≡ Some x }
{
    one_named(&EVERY_CSR, w)
}

impl Token for CSR {
    ghost reads = { csr };

    fn read(w: &[u8]) -> Option<CSR> {
        csr_named(w)
    }
}
