// Objects.
ghost use Rattle.std.specs.Prelude.{◌≡◌, ◌<◌, length, slice_index_or};
ghost use Rattle.graph_model.specs.declared.types.Value.TheVariants.{Null};
ghost use Rattle.graph_model.specs.Heaps.{with_slot};

use graph_model::Value;
use std::marker::Model;

/// An object: the number of its class, and what its slots hold.
#[derive(Drop)]
pub struct PlainObject {
    shape: u32,
    values: Vec<Value>,
}

impl Model for PlainObject {
    ghost use Rattle.graph_model.specs.declared.types.Obj.{Obj};

    ghost Value = { Obj };

    ghost view = { λ o. record { shape = o.shape; values = o.values.items } };
}

impl PlainObject {
    /// An object of a class whose slots hold these values.
    pub fn new(shape: u32, values: Vec<Value>) -> PlainObject
        ensures { result ≡ record { shape = shape; values = values.items } }
    {
        PlainObject { shape, values }
    }

    /// The number of its class.
    pub(crate) fn shape(&self) -> u32
        ensures { result ≡ self.now.shape }
    {
        self.shape
    }

    /// How many slots it has.
    pub(crate) fn len(&self) -> usize
        ensures { result ≡ length self.now.values }
    {
        self.values.len()
    }

    /// What a slot holds.
    pub(crate) fn get(&self, index: u32) -> Value
        requires there { index < length self.now.values }
        ensures { result ≡ slice_index_or self.now.values index Null }
    {
        self.values[index as usize]
    }

    /// A slot holds this from now on.
    pub(crate) fn set(&mut self, index: u32, value: Value)
        requires there { index < length self.old.values }
        ensures { self.new ≡ with_slot self.old index value }
    {
        self.values[index as usize] = value;
    }
}
