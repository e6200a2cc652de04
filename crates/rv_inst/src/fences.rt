//! The accesses that a fence orders, as bits of a number: input and output of devices, and reads and writes of memory (the manual's
//! chapter "RV32I Base Integer Instruction Set", "Memory Ordering Instructions").

ghost use Rattle.std.specs.Prelude.{◌≡◌, IfOk, OnOk, string_bytes, ◌++◌};
ghost use Rattle.rv_inst.specs.Fences.{letter_of, accesses_text};

use crate::inst::Inst;
use rv_base::OutOfMemory;
use std::alloc::Global;

impl Inst {
    /// Input from devices.
    pub const FENCE_REQ_I: u8 = 1 << 3;

    /// Output to devices.
    pub const FENCE_REQ_O: u8 = 1 << 2;

    /// Reads of memory.
    pub const FENCE_REQ_R: u8 = 1 << 1;

    /// Writes of memory.
    pub const FENCE_REQ_W: u8 = 1 << 0;

    /// The letters of the accesses of a number, as `ior`: of those four alone, in this order.
    pub fn fence_req_to_string(alloc: Global, x: u8) -> Result<String, OutOfMemory>
        ensures { IfOk result (λ text. string_bytes text ≡ accesses_text x) }
    {
        let mut text = String::new(alloc);
        put_accesses(&mut text, x)?;
        Ok(text)
    }
}

/// Appends the letters of the accesses of a number, as `Inst::fence_req_to_string` gives them.
pub fn put_accesses(text: &mut String, x: u8) -> Result<(), OutOfMemory>
    ensures { OnOk result (string_bytes text.new ≡ string_bytes text.old ++ accesses_text x) }
{
    put_letter(text, x, Inst::FENCE_REQ_I, "i")?;
    put_letter(text, x, Inst::FENCE_REQ_O, "o")?;
    put_letter(text, x, Inst::FENCE_REQ_R, "r")?;
    put_letter(text, x, Inst::FENCE_REQ_W, "w")?;
    Ok(())
}

/// Appends a letter, where the bit is set.
fn put_letter(text: &mut String, x: u8, bit: u8, letter: &str) -> Result<(), OutOfMemory>
    ensures { OnOk result (string_bytes text.new ≡ string_bytes text.old ++ letter_of x bit letter.now) }
{
    if x & bit != 0 {
        text.push_str(letter)?;
    }
    Ok(())
}

// Each constant is the number of its bit.
fn constants_hold() {
    prove!(Inst::FENCE_REQ_I == 8);
    prove!(Inst::FENCE_REQ_O == 4);
    prove!(Inst::FENCE_REQ_R == 2);
    prove!(Inst::FENCE_REQ_W == 1);
}
