//! Which extensions of the instruction set the code may use.

ghost use Rattle.std.specs.Prelude.{◌≡◌};
ghost use Rattle.rv_base.specs.Flags.{no_flags};

/// The optional extensions, each by the manual's name for it.
#[derive(Clone, Copy, Debug, PartialEq, Eq)]
pub struct IsaFlags {
    /// Multiplication and division.
    pub has_m: bool,
    /// Address generation.
    pub has_zba: bool,
    /// Basic bit manipulation.
    pub has_zbb: bool,
    /// Compressed instructions, but for floating-point loads and stores.
    pub has_zca: bool,
    /// Further compressed instructions.
    pub has_zcb: bool,
    /// Compressed loads and stores of double precision.
    pub has_zcd: bool,
    /// Loads, stores and conversions of half precision.
    pub has_zfhmin: bool,
}

impl IsaFlags {
    /// Every flag off.
    pub fn none() -> IsaFlags
        ensures { result ≡ no_flags }
    {
        IsaFlags {
            has_m: false,
            has_zba: false,
            has_zbb: false,
            has_zca: false,
            has_zcb: false,
            has_zcd: false,
            has_zfhmin: false,
        }
    }
}
