// A list in a public type.
ghost use Rattle.std.specs.Prelude.{◌≡◌, ◌<◌, ◌++◌, [], ◌∷◌, length, slice_index_or, slice_set, IfErr, OnErr, OnOk};

use std::alloc::{AllocError, AllocFailed, Global};
use std::marker::Model;

/// A list of a public type: a vector that contracts see as the list of its elements.
#[derive(Drop, Debug)]
pub struct ListOf<T> {
    items: Vec<T>,
}

impl<T> Model for ListOf<T> {
    ghost use Rattle.std.specs.Prelude.{List};

    ghost Value = { List T };

    ghost view = { λ list. list.items.items };
}

impl<T> ListOf<T> {
    ghost use Rattle.std.specs.Borrow.{Lends, sem};
    ghost use Rattle.ap_base.specs.contracts.list.ListOf.{the_row};

    /// The empty list. Takes no memory.
    pub fn new(alloc: Global) -> ListOf<T>
        ensures { result ≡ [] }
    {
        ListOf {
            items: Vec::new(alloc),
        }
    }

    /// The list of a vector's elements. Takes no memory.
    pub fn from_vec(items: Vec<T>) -> ListOf<T>
        ensures { result ≡ items.items }
    {
        ListOf { items }
    }

    /// The vector of the elements. Takes no memory.
    pub fn into_vec(self) -> Vec<T>
        ensures { result.items ≡ self }
    {
        let ListOf { items } = self;
        items
    }

    /// The elements as a slice.
    pub fn as_slice(&self) -> &[T]
        ensures { result.now ≡ self.now }
    {
        self.items.as_slice()
    }

    /// How many elements there are.
    pub fn len(&self) -> usize
        ensures { result ≡ length self.now }
    {
        self.items.len()
    }

    /// Adds an element at the end.
    pub fn push(&mut self, item: T) -> Result<(), AllocFailed<T>>
        ensures pushed { OnOk result (self.new ≡ self.old ++ item ∷ []) }
        ensures same { OnErr result (self.new ≡ self.old) }
        ensures returned { IfErr result (λ failed. failed.value ≡ item) }
    {
        self.items.push(item)
    }

    /// An element, to be changed in place.
    pub fn get_mut(&mut self, at: usize) -> &mut T
        requires { at < length self.old }
        ensures* writes_back { sem 𝓛 (Lends (the_row T.row) T.row self.entry result (λ item. slice_set self.old at item)) }
        ensures value { result.now ≡ slice_index_or self.old at result.now }
    {
        &mut self.items[at]
    }

    /// Replaces an element.
    pub fn set(&mut self, at: usize, item: T)
    where
        T: Drop,
        requires { at < length self.old }
        ensures set { self.new ≡ slice_set self.old at item }
    {
        self.items[at] = item;
    }
}
