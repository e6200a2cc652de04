//! The words and halfwords of operations with their operands.
#![tactic(auto)]

mod atomic;
mod compressed;
mod compressed_float;
mod compressed_memory;
mod csr;
mod float;
mod jumps;
mod layouts;
mod memory;
mod operations;

pub use atomic::{encode_atomic, encode_fence};
pub use compressed::{
    encode_c_addi16sp, encode_ca_type, encode_cb_type, encode_ci_type, encode_ciw_type,
    encode_cj_type, encode_cr_type, encode_cr2_type, encode_cszn_type, reg_to_compressed_gpr_num,
};
pub use compressed_float::{encode_c_fld, encode_c_fldsp, encode_c_fsd, encode_c_fsdsp};
pub use compressed_memory::{
    encode_ci_sp_load, encode_cl_type, encode_cs_type, encode_css_type, encode_zcbmem_load,
    encode_zcbmem_store,
};
pub use csr::{encode_csr_imm, encode_csr_reg};
pub use float::{encode_fli, encode_fp_rr, encode_fp_rrr, encode_fp_rrrr};
pub use jumps::{enc_auipc, enc_jalr, encode_branch, encode_ebreak, encode_jal, encode_lui};
pub use layouts::{encode_i_type, encode_r_type, encode_s_type, number_of, reg_to_gpr_num};
pub use memory::{encode_load, encode_store};
pub use operations::{encode_alu_rr_imm12, encode_alu_rrr};
