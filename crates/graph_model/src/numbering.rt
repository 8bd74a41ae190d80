// The numbering of what values reach.
ghost use Rattle.std.specs.Prelude.{◌≡◌, ◌<◌, ◌^◌, [], length, All, IfOk, OnOk, filter, map, slice_index_or, Some, IfSome};
ghost use Rattle.std.specs.Prelude.{IfNone, IsTrue, ◌≤◌};
ghost use Rattle.std.specs.List.{range_with_len, slice_get};
ghost use Rattle.graph_model.specs.Heaps.{IsBelow, IsSound, has_number};
ghost use Rattle.graph_model.specs.Canon.{with_number, with_new, found_from, renumbered};
ghost use Rattle.graph_model.specs.Found.{IsNumbered};

use crate::{Heap, Value};
use ap_base::ListOf;
use std::alloc::{AllocError, Global};
use std::marker::Model;

/// Objects in the order in which they were found, and for each object of the heap its place in that order.
#[derive(Drop)]
pub(crate) struct Numbering {
    found: Vec<u32>,
    places: Vec<Option<u32>>,
}

impl Model for Numbering {
    ghost use Rattle.std.specs.Prelude.{length};
    ghost use Rattle.graph_model.specs.Found.{Found, IsPlaced};

    ghost Value = { Found };

    ghost view = { λ n. record { numbers = n.found.items; objects = length n.places.items } };

    ghost invariant = { λ n. IsPlaced n.found.items n.places.items };
}

impl Numbering {
    /// Of so many objects none is found yet.
    fn new(alloc: Global, objects: usize) -> Result<Numbering, AllocError>
        requires { objects < 2 ^ 32 }
        ensures none { IfOk result (λ numbering. numbering.numbers ≡ []) }
        ensures objects { IfOk result (λ numbering. numbering.objects ≡ objects) }
    {
        Ok(Numbering {
            found: Vec::new(alloc),
            places: vec![in alloc; None; objects]?,
        })
    }

    /// Finds an object, if it isn't found yet.
    fn add(&mut self, object: u32) -> Result<(), AllocError>
        requires { object < self.old.objects }
        ensures added { OnOk result (self.new.numbers ≡ with_number self.old.numbers object) }
        ensures objects { self.new.objects ≡ self.old.objects }
    {
        if self.places[object as usize].is_none() {
            let place = self.found.len() as u32;
            self.found.push(object)?;
            self.places[object as usize] = Some(place);
        }
        Ok(())
    }

    /// Finds the objects among the values, in order.
    fn add_each(&mut self, values: &[Value]) -> Result<(), AllocError>
        requires { All (IsBelow self.old.objects) values.now }
        ensures added { OnOk result (self.new.numbers ≡ with_new self.old.numbers values.now) }
        ensures objects { self.new.objects ≡ self.old.objects }
    {
        for value in values {
            if let Value::Obj(object) = *value {
                self.add(object)?;
            }
        }
        Ok(())
    }

    /// The object that was found at this place of the order.
    fn get(&self, place: usize) -> Option<u32>
        ensures { result ≡ slice_get self.now.numbers place }
    {
        self.found.get(place).copied()
    }

    /// The found objects, in order.
    pub(crate) fn found(&self) -> &[u32]
        ensures { result.now ≡ self.now.numbers }
    {
        self.found.as_slice()
    }

    /// The value, with a found object's place for its number.
    pub(crate) fn renumbered(&self, value: Value) -> Value
        requires { IsNumbered self.now.numbers value }
        ensures { result ≡ renumbered self.now.numbers value }
    {
        match value {
            Value::Obj(object) => Value::Obj(self.places[object as usize].unwrap()),
            other => other,
        }
    }

    /// The values, with found objects' places for their numbers.
    pub(crate) fn renumbered_each(
        &self,
        alloc: Global,
        values: &[Value],
    ) -> Result<ListOf<Value>, AllocError>
        requires { All (IsNumbered self.now.numbers) values.now }
        ensures { IfOk result (λ list. list ≡ map (renumbered self.now.numbers) values.now) }
    {
        let mut list = Vec::new(alloc);
        for value in values {
            list.push(self.renumbered(*value))?;
        }
        Ok(ListOf::from_vec(list))
    }

    /// The found objects in ascending order.
    pub(crate) fn ascending(&self, alloc: Global) -> Result<Vec<u32>, AllocError>
        ensures { IfOk result
            (λ r. r.items ≡ filter (has_number self.now.numbers) (range_with_len 0 self.now.objects)) }
    {
        let mut ascending = Vec::new(alloc);
        for object in 0..self.places.len() {
            if self.places[object].is_some() {
                ascending.push(object as u32)?;
            }
        }
        Ok(ascending)
    }

    /// What these values reach, breadth first.
    pub(crate) fn of(alloc: Global, heap: &Heap, start: &[Value]) -> Result<Numbering, AllocError>
        requires sound { IsSound heap.now }
        requires start { All (IsBelow (length heap.now.objects)) start.now }
        ensures numbers { IfOk result (λ numbering. numbering.numbers ≡ found_from heap.now start.now) }
        ensures objects { IfOk result (λ numbering. numbering.objects ≡ length heap.now.objects) }
    {
        let mut numbering = Numbering::new(alloc, heap.objects.len())?;
        numbering.add_each(start)?;
        let mut next = 0;
        while let Some(object) = numbering.get(next) {
            numbering.add_each(heap.values(object))?;
            next += 1;
        }
        Ok(numbering)
    }
}
