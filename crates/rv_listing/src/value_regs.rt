//! The registers of a value.

ghost use Rattle.std.specs.Prelude.{◌≡◌};
ghost use Rattle.rv_listing.specs.ValueRegs.{value_regs};

use crate::fields::Token;
use crate::tokens::{first_part, next_part};
use rv_base::ValueRegs;

impl<R: Token> Token for ValueRegs<R> {
    ghost reads = { value_regs R.reads };

    fn read(w: &[u8]) -> Option<ValueRegs<R>> {
        let (first, rest) = first_part(b',', w);
        let low = R::read(first)?;
        let Some((second, rest)) = next_part(b',', rest) else {
            return Some(ValueRegs::One(low));
        };
        let high = R::read(second)?;
        match next_part(b',', rest) {
            None => Some(ValueRegs::Two(low, high)),
            Some(_) => None,
        }
    }
}
