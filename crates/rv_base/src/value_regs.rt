//! The registers that hold one value.

/// One register, or two for a value of twice a register's width, the low half first.
#[derive(Clone, Copy, Debug, PartialEq, Eq)]
pub enum ValueRegs<R> {
    One(R),
    Two(R, R),
}

impl<R> ValueRegs<R> {
    ghost use Rattle.std.specs.Prelude.{◌≡◌};
    ghost use Rattle.rv_base.specs.ValueRegs.{count_of};

    /// How many registers there are: 1 or 2.
    pub fn len(&self) -> usize
        ensures { result ≡ count_of self.now }
    {
        match self {
            ValueRegs::One(_) => 1,
            ValueRegs::Two(_, _) => 2,
        }
    }
}
