//! A list that contracts see as its elements, wherever they lie in memory.

ghost use Rattle.std.specs.Prelude.{◌≡◌, ◌<◌, ◌++◌, ◌∷◌, [], ◌==◌, length, Some, slice_get, slice_set, OnOk, OnErr, IfOk};

use crate::out_of_memory::OutOfMemory;
use std::alloc::Global;
use std::marker::Model;

/// Elements in order.
#[derive(Drop)]
pub struct List<T> {
    items: Vec<T>,
}

impl<T> Model for List<T> {
    ghost use Rattle.std.specs.Prelude.{List as Elements};

    ghost Value = { Elements T };

    ghost view = { λ l. l.items.items };
}

impl<T> List<T> {
    /// No elements. Takes no memory.
    pub fn new(alloc: Global) -> List<T>
        ensures { result ≡ [] }
    {
        List {
            items: Vec::new(alloc),
        }
    }

    /// The elements of a vector. Takes no memory.
    pub fn from_vec(items: Vec<T>) -> List<T>
        ensures { result ≡ items.items }
    {
        List { items }
    }

    /// The elements as a vector. Takes no memory.
    pub fn into_vec(self) -> Vec<T>
        ensures { result.items ≡ self }
    {
        self.items
    }

    pub fn as_slice(&self) -> &[T]
        ensures { result.now ≡ self.now }
    {
        self.items.as_slice()
    }

    pub fn len(&self) -> usize
        ensures { result ≡ length self.now }
    {
        self.items.len()
    }

    pub fn is_empty(&self) -> bool
        ensures { result ≡ (length self.now == 0) }
    {
        self.items.is_empty()
    }
}

impl<T: Drop> List<T> {
    /// Appends an element. After an error the list is as it was.
    pub fn push(&mut self, element: T) -> Result<(), OutOfMemory>
        ensures ok { OnOk result (self.new ≡ self.old ++ element ∷ []) }
        ensures err { OnErr result (self.new ≡ self.old) }
    {
        self.items.push(element)?;
        Ok(())
    }
}

impl<T: Copy> List<T> {
    /// The element at an index, which is below the number of elements.
    pub fn get(&self, index: usize) -> T
        requires { index < length self.now }
        ensures { slice_get self.now index ≡ Some result }
    {
        self.items[index]
    }

    /// Puts another element at an index, which is below the number of elements.
    pub fn set(&mut self, index: usize, element: T)
        requires { index < length self.old }
        ensures { self.new ≡ slice_set self.old index element }
    {
        self.items[index] = element;
    }

    /// A copy of the elements.
    pub fn from_slice(alloc: Global, elements: &[T]) -> Result<List<T>, OutOfMemory>
        ensures { IfOk result (λ list. list ≡ elements.now) }
    {
        Ok(List {
            items: Vec::from_slice(alloc, elements)?,
        })
    }
}
