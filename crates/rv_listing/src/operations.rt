//! Operations by their names.

ghost use Rattle.std.specs.Prelude.{◌≡◌, Some};
ghost use Rattle.rv_ops.specs.Alu.{rri_name, rrr_name};
ghost use Rattle.rv_ops.specs.Memory.{load_name, store_name};
ghost use Rattle.rv_listing.specs.Operations.{alu_rri, alu_rrr, load_op, store_op};

use crate::fields::Token;
use crate::named::{Named, slot_named};
use rv_ops::{AluOPRRI, AluOPRRR, LoadOP, StoreOP};

const EVERY_RRR: [AluOPRRR; 60] = [
    AluOPRRR::Add,
    AluOPRRR::Sub,
    AluOPRRR::Sll,
    AluOPRRR::Slt,
    AluOPRRR::Sgt,
    AluOPRRR::SltU,
    AluOPRRR::Sgtu,
    AluOPRRR::Xor,
    AluOPRRR::Srl,
    AluOPRRR::Sra,
    AluOPRRR::Or,
    AluOPRRR::And,
    AluOPRRR::Addw,
    AluOPRRR::Subw,
    AluOPRRR::Sllw,
    AluOPRRR::Srlw,
    AluOPRRR::Sraw,
    AluOPRRR::Mul,
    AluOPRRR::Mulh,
    AluOPRRR::Mulhsu,
    AluOPRRR::Mulhu,
    AluOPRRR::Div,
    AluOPRRR::DivU,
    AluOPRRR::Rem,
    AluOPRRR::RemU,
    AluOPRRR::Mulw,
    AluOPRRR::Divw,
    AluOPRRR::Divuw,
    AluOPRRR::Remw,
    AluOPRRR::Remuw,
    AluOPRRR::Adduw,
    AluOPRRR::Andn,
    AluOPRRR::Bclr,
    AluOPRRR::Bext,
    AluOPRRR::Binv,
    AluOPRRR::Bset,
    AluOPRRR::Max,
    AluOPRRR::Maxu,
    AluOPRRR::Min,
    AluOPRRR::Minu,
    AluOPRRR::Orn,
    AluOPRRR::Rol,
    AluOPRRR::Rolw,
    AluOPRRR::Ror,
    AluOPRRR::Rorw,
    AluOPRRR::Sh1add,
    AluOPRRR::Sh1adduw,
    AluOPRRR::Sh2add,
    AluOPRRR::Sh2adduw,
    AluOPRRR::Sh3add,
    AluOPRRR::Sh3adduw,
    AluOPRRR::Xnor,
    AluOPRRR::CzeroEqz,
    AluOPRRR::CzeroNez,
    AluOPRRR::Clmul,
    AluOPRRR::Clmulh,
    AluOPRRR::Clmulr,
    AluOPRRR::Pack,
    AluOPRRR::Packw,
    AluOPRRR::Packh,
];

const EVERY_RRI: [AluOPRRI; 32] = [
    AluOPRRI::Addi,
    AluOPRRI::Slti,
    AluOPRRI::SltiU,
    AluOPRRI::Xori,
    AluOPRRI::Ori,
    AluOPRRI::Andi,
    AluOPRRI::Slli,
    AluOPRRI::Srli,
    AluOPRRI::Srai,
    AluOPRRI::Addiw,
    AluOPRRI::Slliw,
    AluOPRRI::SrliW,
    AluOPRRI::Sraiw,
    AluOPRRI::Bclri,
    AluOPRRI::Bexti,
    AluOPRRI::Binvi,
    AluOPRRI::Bseti,
    AluOPRRI::Rori,
    AluOPRRI::Roriw,
    AluOPRRI::SlliUw,
    AluOPRRI::Clz,
    AluOPRRI::Clzw,
    AluOPRRI::Cpop,
    AluOPRRI::Cpopw,
    AluOPRRI::Ctz,
    AluOPRRI::Ctzw,
    AluOPRRI::Rev8,
    AluOPRRI::Sextb,
    AluOPRRI::Sexth,
    AluOPRRI::Zexth,
    AluOPRRI::Orcb,
    AluOPRRI::Brev8,
];

/// The indices in `EVERY_RRR` by the names' slots.
const RRR_SLOTS: [u8; 256] = [
    0, 0, 0, 0, 0, 0, 0, 0, 0, 0, 0, 25, 0, 0, 0, 3, 0, 4, 0, 0, 54, 45, 0, 6, 35, 0, 0, 0, 0, 40,
    0, 0, 0, 28, 0, 0, 52, 0, 12, 0, 0, 0, 51, 0, 0, 0, 33, 0, 0, 0, 0, 0, 59, 55, 0, 0, 0, 0, 0,
    0, 27, 17, 0, 38, 15, 0, 42, 0, 47, 0, 0, 0, 0, 0, 0, 0, 0, 0, 24, 2, 21, 0, 0, 56, 0, 0, 26,
    0, 0, 0, 0, 0, 41, 34, 18, 0, 0, 7, 0, 0, 0, 11, 36, 57, 0, 46, 0, 0, 0, 0, 0, 0, 0, 44, 49, 0,
    0, 0, 0, 0, 0, 23, 0, 0, 0, 0, 0, 0, 0, 5, 0, 22, 0, 0, 0, 13, 0, 0, 0, 0, 0, 0, 0, 0, 0, 0,
    20, 0, 0, 16, 0, 48, 0, 0, 0, 0, 0, 0, 0, 39, 0, 0, 0, 0, 0, 0, 0, 19, 0, 0, 29, 0, 0, 0, 0, 0,
    0, 0, 0, 0, 0, 0, 0, 0, 0, 0, 0, 0, 0, 30, 0, 0, 0, 14, 1, 0, 0, 31, 50, 0, 0, 0, 0, 0, 0, 0,
    0, 0, 0, 10, 0, 0, 32, 0, 0, 0, 0, 0, 0, 0, 0, 0, 0, 9, 0, 58, 0, 0, 0, 0, 8, 0, 0, 0, 0, 0,
    43, 0, 37, 0, 0, 0, 0, 0, 0, 53, 0, 0, 0, 0, 0, 0, 0, 0, 0, 0,
];

const RRR_FACTOR: u64 = 13696904985808859213;

/// The indices in `EVERY_RRI` by the names' slots.
const RRI_SLOTS: [u8; 256] = [
    0, 0, 0, 0, 0, 0, 0, 0, 0, 0, 0, 0, 1, 11, 0, 0, 0, 0, 0, 0, 0, 0, 0, 0, 0, 0, 0, 0, 2, 0, 0,
    0, 0, 0, 0, 0, 0, 0, 0, 16, 0, 0, 0, 0, 0, 29, 0, 0, 0, 0, 0, 0, 13, 0, 0, 0, 0, 0, 0, 0, 0, 0,
    21, 0, 0, 0, 0, 24, 0, 0, 0, 0, 26, 0, 0, 0, 0, 12, 0, 0, 0, 0, 0, 0, 0, 0, 0, 0, 0, 0, 0, 0,
    0, 20, 0, 0, 0, 0, 0, 0, 0, 0, 0, 0, 3, 19, 0, 0, 0, 14, 0, 0, 0, 0, 0, 0, 0, 0, 0, 0, 0, 0, 0,
    0, 0, 0, 0, 0, 0, 15, 0, 0, 5, 0, 0, 0, 0, 0, 0, 0, 0, 0, 0, 0, 0, 6, 0, 0, 18, 0, 0, 8, 0, 28,
    0, 0, 0, 0, 0, 0, 7, 4, 0, 0, 0, 0, 0, 9, 25, 0, 30, 0, 0, 0, 0, 0, 0, 0, 0, 0, 0, 0, 0, 0, 0,
    0, 0, 0, 0, 0, 0, 0, 0, 0, 0, 0, 17, 0, 0, 0, 0, 0, 0, 0, 0, 0, 0, 0, 0, 0, 0, 0, 0, 0, 0, 0,
    0, 0, 22, 0, 0, 0, 0, 0, 0, 0, 0, 0, 31, 0, 0, 0, 0, 0, 0, 0, 0, 0, 0, 0, 0, 0, 0, 23, 0, 0, 0,
    0, 27, 0, 0, 0, 0, 10, 0, 0,
];

const RRI_FACTOR: u64 = 17342588037684094625;

impl Named for AluOPRRR {
    ghost named = { rrr_name };

    fn name(self) -> &'static str {
        self.op_name()
    }
}

#[tactic(auto, using(crate::proofs::BySlot::rrr_by_slot), unfolding(crate::specs::Operations::every_rrr))]
fn find_rrr(w: &[u8]) -> Option<AluOPRRR>
    ensures { result ≡ alu_rrr w.now }
{
    slot_named(&EVERY_RRR, &RRR_SLOTS, RRR_FACTOR, w)
}

/// The operation of two registers that has this name.
#[tactic(auto, using(crate::proofs::BySlot::rrr_found))]
pub fn rrr_named(w: &[u8]) -> Option<AluOPRRR>
    ensures reads { result ≡ alu_rrr w.now }
    ensures named { (op : AluOPRRR) → w.now ≡ rrr_name op → result ≡ Some op }
{
    find_rrr(w)
}

impl Token for AluOPRRR {
    ghost reads = { alu_rrr };

    fn read(w: &[u8]) -> Option<AluOPRRR> {
        rrr_named(w)
    }
}

impl Named for AluOPRRI {
    ghost named = { rri_name };

    fn name(self) -> &'static str {
        self.op_name()
    }
}

#[tactic(auto, using(crate::proofs::BySlot::rri_by_slot), unfolding(crate::specs::Operations::every_rri))]
fn find_rri(w: &[u8]) -> Option<AluOPRRI>
    ensures { result ≡ alu_rri w.now }
{
    slot_named(&EVERY_RRI, &RRI_SLOTS, RRI_FACTOR, w)
}

/// The operation of a register and an immediate that has this name.
#[tactic(auto, using(crate::proofs::BySlot::rri_found))]
pub fn rri_named(w: &[u8]) -> Option<AluOPRRI>
    ensures reads { result ≡ alu_rri w.now }
    ensures named { (op : AluOPRRI) → w.now ≡ rri_name op → result ≡ Some op }
{
    find_rri(w)
}

impl Token for AluOPRRI {
    ghost reads = { alu_rri };

    fn read(w: &[u8]) -> Option<AluOPRRI> {
        rri_named(w)
    }
}

const EVERY_LOAD: [LoadOP; 10] = [
    LoadOP::Lb,
    LoadOP::Lh,
    LoadOP::Lw,
    LoadOP::Lbu,
    LoadOP::Lhu,
    LoadOP::Lwu,
    LoadOP::Ld,
    LoadOP::Flh,
    LoadOP::Flw,
    LoadOP::Fld,
];

/// The indices in `EVERY_LOAD` by the names' slots.
const LOAD_SLOTS: [u8; 256] = [
    0, 8, 0, 0, 0, 0, 0, 0, 0, 0, 0, 0, 0, 0, 0, 0, 0, 0, 0, 0, 0, 0, 0, 0, 0, 0, 0, 1, 0, 0, 0, 0,
    0, 0, 0, 0, 0, 0, 0, 0, 0, 0, 0, 0, 0, 0, 0, 0, 0, 0, 0, 0, 0, 0, 0, 0, 0, 0, 0, 0, 0, 0, 0, 0,
    0, 0, 0, 0, 0, 0, 0, 5, 0, 0, 0, 0, 0, 0, 0, 0, 0, 0, 0, 0, 0, 0, 0, 0, 0, 0, 0, 0, 0, 0, 0, 0,
    0, 0, 0, 0, 0, 0, 0, 0, 0, 0, 0, 0, 0, 0, 0, 0, 0, 4, 0, 0, 0, 0, 0, 0, 0, 0, 0, 0, 0, 0, 0, 0,
    0, 0, 0, 0, 0, 0, 0, 0, 0, 0, 0, 0, 0, 0, 0, 0, 0, 0, 0, 0, 0, 0, 0, 0, 0, 0, 0, 0, 0, 2, 0, 0,
    0, 0, 0, 0, 0, 0, 0, 0, 0, 0, 0, 0, 0, 0, 0, 0, 0, 0, 0, 0, 6, 0, 0, 0, 0, 0, 0, 0, 0, 0, 0, 0,
    0, 0, 0, 0, 0, 0, 0, 0, 0, 0, 0, 0, 0, 0, 0, 0, 7, 0, 0, 0, 0, 0, 0, 0, 0, 0, 0, 0, 0, 0, 0, 0,
    0, 0, 0, 0, 0, 0, 9, 0, 3, 0, 0, 0, 0, 0, 0, 0, 0, 0, 0, 0, 0, 0, 0, 0, 0, 0, 0, 0, 0, 0, 0, 0,
];

const LOAD_FACTOR: u64 = 10517972530174996981;

impl Named for LoadOP {
    ghost named = { load_name };

    fn name(self) -> &'static str {
        self.op_name()
    }
}

#[tactic(auto, using(crate::proofs::BySlot::load_by_slot), unfolding(crate::specs::Operations::every_load))]
fn find_load(w: &[u8]) -> Option<LoadOP>
    ensures { result ≡ load_op w.now }
{
    slot_named(&EVERY_LOAD, &LOAD_SLOTS, LOAD_FACTOR, w)
}

/// The load of this mnemonic.
#[tactic(auto, using(crate::proofs::BySlot::load_found))]
pub fn load_named(w: &[u8]) -> Option<LoadOP>
    ensures reads { result ≡ load_op w.now }
    ensures named { (op : LoadOP) → w.now ≡ load_name op → result ≡ Some op }
{
    find_load(w)
}

impl Token for LoadOP {
    ghost reads = { load_op };

    fn read(w: &[u8]) -> Option<LoadOP> {
        load_named(w)
    }
}

const EVERY_STORE: [StoreOP; 7] = [
    StoreOP::Sb,
    StoreOP::Sh,
    StoreOP::Sw,
    StoreOP::Sd,
    StoreOP::Fsh,
    StoreOP::Fsw,
    StoreOP::Fsd,
];

/// The indices in `EVERY_STORE` by the names' slots.
const STORE_SLOTS: [u8; 256] = [
    0, 0, 0, 0, 0, 0, 0, 0, 0, 0, 0, 0, 0, 0, 0, 0, 0, 0, 0, 0, 0, 0, 0, 0, 0, 0, 0, 0, 0, 0, 0, 0,
    1, 0, 0, 0, 0, 0, 0, 0, 0, 0, 0, 0, 0, 0, 0, 0, 0, 0, 0, 0, 0, 0, 0, 0, 0, 0, 0, 0, 0, 0, 0, 0,
    0, 0, 0, 0, 0, 0, 0, 0, 0, 0, 0, 0, 0, 0, 0, 0, 0, 0, 0, 0, 0, 0, 0, 0, 0, 0, 0, 0, 0, 0, 0, 0,
    0, 0, 0, 0, 0, 0, 0, 0, 0, 0, 0, 0, 0, 0, 0, 0, 0, 0, 0, 0, 0, 0, 0, 0, 0, 0, 0, 0, 0, 0, 0, 0,
    0, 0, 0, 0, 0, 0, 0, 0, 0, 0, 0, 0, 0, 0, 0, 0, 0, 0, 0, 0, 0, 0, 0, 0, 0, 0, 0, 4, 0, 0, 0, 0,
    0, 0, 2, 0, 0, 0, 0, 0, 0, 0, 0, 0, 0, 0, 0, 0, 6, 0, 0, 0, 0, 0, 0, 0, 0, 3, 0, 0, 0, 0, 0, 0,
    0, 0, 0, 0, 0, 0, 0, 0, 0, 0, 0, 5, 0, 0, 0, 0, 0, 0, 0, 0, 0, 0, 0, 0, 0, 0, 0, 0, 0, 0, 0, 0,
    0, 0, 0, 0, 0, 0, 0, 0, 0, 0, 0, 0, 0, 0, 0, 0, 0, 0, 0, 0, 0, 0, 0, 0, 0, 0, 0, 0, 0, 0, 0, 0,
];

const STORE_FACTOR: u64 = 10517972530174996981;

impl Named for StoreOP {
    ghost named = { store_name };

    fn name(self) -> &'static str {
        self.op_name()
    }
}

#[tactic(auto, using(crate::proofs::BySlot::store_by_slot), unfolding(crate::specs::Operations::every_store))]
fn find_store(w: &[u8]) -> Option<StoreOP>
    ensures { result ≡ store_op w.now }
{
    slot_named(&EVERY_STORE, &STORE_SLOTS, STORE_FACTOR, w)
}

/// The store of this mnemonic.
#[tactic(auto, using(crate::proofs::BySlot::store_found))]
pub fn store_named(w: &[u8]) -> Option<StoreOP>
    ensures reads { result ≡ store_op w.now }
    ensures named { (op : StoreOP) → w.now ≡ store_name op → result ≡ Some op }
{
    find_store(w)
}

impl Token for StoreOP {
    ghost reads = { store_op };

    fn read(w: &[u8]) -> Option<StoreOP> {
        store_named(w)
    }
}
