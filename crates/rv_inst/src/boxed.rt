//! A value on the heap, which contracts see as the value itself.

ghost use Rattle.std.specs.Prelude.{◌≡◌, IfOk};

use rv_base::OutOfMemory;
use std::alloc::Global;
use std::marker::Model;

/// A value on the heap, in as many bytes as a pointer.
#[derive(Drop)]
pub struct Boxed<T> {
    held: Box<T>,
}

impl<T> Model for Boxed<T> {
    ghost Value = { T };

    ghost view = { λ b. b.held.value };
}

impl<T: Drop> Boxed<T> {
    pub fn new(alloc: Global, value: T) -> Result<Boxed<T>, OutOfMemory>
        ensures { IfOk result (λ boxed. boxed ≡ value) }
    {
        let held = Box::new(alloc, value)?;
        Ok(Boxed { held })
    }
}

impl<T> Boxed<T> {
    ghost use Rattle.std.specs.Borrow.{sem};
    ghost use Rattle.rv_inst.specs.Lending.{LendsHeld};

    pub fn as_ref(&self) -> &T
        ensures { result.now ≡ self.now }
    {
        self.held.as_ref()
    }

    /// The value, for writing.
    pub fn as_mut(&mut self) -> &mut T
        ensures* writes_back { sem 𝓛 (LendsHeld T.row self.entry result) }
        ensures value { result.now ≡ self.old }
    {
        self.held.as_mut()
    }
}
