//! The application vector length: how many elements a vector instruction works on (the manual's chapter "V", "AVL encoding").

ghost use Rattle.std.specs.Prelude.{◌≡◌, ◌<◌, true};

use rv_imms::UImm5;
use std::fmt;

/// An application vector length that stands in the instruction `vsetivli`: an unsigned immediate of five bits.
#[derive(Clone, Copy, Debug, PartialEq)]
pub struct VecAvl {
    pub size: UImm5,
}

impl VecAvl {
    /// The length of so many elements, which are fewer than 32.
    pub fn _static(size: u32) -> VecAvl
        requires { size < 32 }
        ensures { result.size.value ≡ size }
    {
        VecAvl {
            size: UImm5 { value: size as u8 },
        }
    }

    /// Returns whether the length stands in the instruction; each does.
    pub fn is_static(&self) -> bool
        ensures { result ≡ true }
    {
        true
    }

    /// The immediate that the instruction holds.
    pub fn unwrap_static(&self) -> UImm5
        ensures { result ≡ self.now.size }
    {
        self.size
    }
}

/// The number of elements.
impl fmt::Display for VecAvl {
    ghost use Rattle.std.specs.Prelude.{Some};
    ghost use Rattle.std.specs.Fmt.{decimal};

    ghost output = { λ avl. Some (decimal avl.size.value) };

    fn fmt<W: fmt::Write>(&self, f: &mut fmt::Formatter<W>) -> fmt::Result {
        let size = self.size;
        write!(f, "{size}")
    }
}
