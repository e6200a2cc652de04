//! Numbers of registers that go round.

use rv_base::{Reg, f_reg, x_reg};

/// Where the numbers stand.
#[derive(Clone, Copy)]
pub struct Numbers {
    start: u8,
}

impl Numbers {
    ghost use Rattle.std.specs.Prelude.{◌<◌, ◌≤◌};
    ghost use Rattle.rv_encode.specs.Registers.{IsIntRegister, IsRealRegister, IsShortRegister};

    pub fn new(start: u8) -> Numbers {
        Numbers { start }
    }

    /// The numbers of another operation.
    pub fn next(self) -> Numbers {
        Numbers {
            start: self.start.wrapping_mul(5).wrapping_add(3),
        }
    }

    /// The number of an operand, by its place.
    pub fn number(self, place: u8) -> u8
        ensures { result < 32 }
    {
        self.start
            .wrapping_mul(7)
            .wrapping_add(place.wrapping_mul(11))
            % 32
    }

    /// From 8 to 15.
    pub fn short_number(self, place: u8) -> u8
        ensures low { 8 ≤ result }
        ensures high { result < 16 }
    {
        8 + self.number(place) % 8
    }

    pub fn float(self, place: u8) -> Reg
        ensures { IsRealRegister result }
    {
        f_reg(usize::from(self.number(place)))
    }

    pub fn int(self, place: u8) -> Reg
        ensures { IsIntRegister result }
    {
        x_reg(usize::from(self.number(place)))
    }

    pub fn short_float(self, place: u8) -> Reg
        ensures { IsShortRegister result }
    {
        f_reg(usize::from(self.short_number(place)))
    }

    pub fn short_int(self, place: u8) -> Reg
        ensures { IsShortRegister result }
    {
        x_reg(usize::from(self.short_number(place)))
    }
}
