// What references reach.
ghost use Rattle.std.specs.Prelude.{◌≡◌, ◌<◌, ◌^◌, [], length, All, IfOk, OnOk};
ghost use Rattle.std.specs.List.{slice_get};
ghost use Rattle.graph_model.specs.Heaps.{IsBelow, IsSound};
ghost use Rattle.graph_model.specs.Canon.{with_number, with_new, found_from};

use graph_model::{Heap, Value};
use std::alloc::{AllocError, Global};
use std::marker::Model;

/// Objects in the order in which they were found, and for each object of the heap whether it was.
#[derive(Drop)]
struct Walk {
    found: Vec<u32>,
    marks: Vec<bool>,
}

impl Model for Walk {
    ghost use Rattle.std.specs.Prelude.{length};
    ghost use Rattle.graph_model.specs.Found.{Found};
    ghost use Rattle.live_heap.specs.Marks.{AreMarked};

    ghost Value = { Found };

    ghost view = { λ w. record { numbers = w.found.items; objects = length w.marks.items } };

    ghost invariant = { λ w. AreMarked w.found.items w.marks.items };
}

impl Walk {
    /// Of so many objects none is found yet.
    fn new(alloc: Global, objects: usize) -> Result<Walk, AllocError>
        ensures none { IfOk result (λ walk. walk.numbers ≡ []) }
        ensures objects { IfOk result (λ walk. walk.objects ≡ objects) }
    {
        Ok(Walk {
            found: Vec::new(alloc),
            marks: vec![in alloc; false; objects]?,
        })
    }

    /// Finds an object, if it isn't found yet.
    fn add(&mut self, object: u32) -> Result<(), AllocError>
        requires { object < self.old.objects }
        ensures added { OnOk result (self.new.numbers ≡ with_number self.old.numbers object) }
        ensures objects { self.new.objects ≡ self.old.objects }
    {
        if !self.marks[object as usize] {
            self.found.push(object)?;
            self.marks[object as usize] = true;
        }
        Ok(())
    }

    /// Finds the objects among the values, in order.
    fn add_each(&mut self, values: &[Value]) -> Result<(), AllocError>
        requires { All (IsBelow self.old.objects) values.now }
        ensures added { OnOk result (self.new.numbers ≡ with_new self.old.numbers values.now) }
        ensures objects { self.new.objects ≡ self.old.objects }
    {
        for value in values {
            if let Value::Obj(object) = *value {
                self.add(object)?;
            }
        }
        Ok(())
    }

    /// The object that was found at this place of the order.
    fn get(&self, place: usize) -> Option<u32>
        ensures { result ≡ slice_get self.now.numbers place }
    {
        self.found.get(place).copied()
    }

    /// How many objects were found.
    fn len(&self) -> usize
        ensures { result ≡ length self.now.numbers }
    {
        self.found.len()
    }

    /// What these values reach.
    fn of(alloc: Global, heap: &Heap, start: &[Value]) -> Result<Walk, AllocError>
        requires sound { IsSound heap.now }
        requires start { All (IsBelow (length heap.now.objects)) start.now }
        ensures numbers { IfOk result (λ walk. walk.numbers ≡ found_from heap.now start.now) }
    {
        let mut walk = Walk::new(alloc, heap.objects.len())?;
        walk.add_each(start)?;
        let mut next = 0;
        while let Some(object) = walk.get(next) {
            walk.add_each(heap.values(object))?;
            next += 1;
        }
        Ok(walk)
    }
}

/// How many objects these values reach.
pub(crate) fn count_reached(alloc: Global, heap: &Heap, start: &[Value]) -> Result<u32, AllocError>
    requires sound { IsSound heap.now }
    requires start { All (IsBelow (length heap.now.objects)) start.now }
    ensures { IfOk result (λ count. count ≡ length (found_from heap.now start.now)) }
{
    let walk = Walk::of(alloc, heap, start)?;
    Ok(walk.len() as u32)
}
