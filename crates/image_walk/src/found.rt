// The objects that are found.
ghost use Rattle.std.specs.Prelude.{◌≡◌, ◌<◌, ◌≤◌, ◌^◌, [], ℕ, map, length, All, IfOk, OnOk, IfSome, slice_get};
ghost use Rattle.graph_model.specs.Canon.{with_number, with_new, place_in, renumbered};
ghost use Rattle.image_layout.specs.Places.{first_object_line};
ghost use Rattle.image_walk.specs.Walking.{NamesIn};

use ap_base::ListOf;
use graph_model::Value;
use std::alloc::{AllocError, Global};
use std::marker::Model;

/// Objects in the order in which they were found, called by their first lines, and for each line of the image the place
/// in that order of the object that begins there.
#[derive(Drop)]
pub(crate) struct FoundObjects {
    lines: Vec<u32>,
    places: Vec<Option<u32>>,
}

impl Model for FoundObjects {
    ghost use Rattle.std.specs.Prelude.{length};
    ghost use Rattle.graph_model.specs.Found.{Found};
    ghost use Rattle.image_walk.specs.Placed.{IsPlacedLow};

    ghost Value = { Found };

    ghost view = { λ f. record { numbers = f.lines.items; objects = length f.places.items } };

    ghost invariant = { λ f. IsPlacedLow f.lines.items f.places.items };
}

impl FoundObjects {
    /// Of an image of so many lines no object is found yet.
    pub(crate) fn new(alloc: Global, size: usize) -> Result<FoundObjects, AllocError>
        requires { size < 2 ^ 32 }
        ensures none { IfOk result (λ found. found.numbers ≡ []) }
        ensures size { IfOk result (λ found. found.objects ≡ size) }
    {
        Ok(FoundObjects {
            lines: Vec::new(alloc),
            places: vec![in alloc; None; size]?,
        })
    }

    /// Finds the object that begins at a line, if it isn't found yet.
    fn add(&mut self, line: u32) -> Result<(), AllocError>
        requires low { first_object_line ≤ line }
        requires within { line < self.old.objects }
        ensures added { OnOk result (self.new.numbers ≡ with_number self.old.numbers line) }
        ensures size { self.new.objects ≡ self.old.objects }
    {
        if self.places[line as usize].is_none() {
            let place = self.lines.len() as u32;
            self.lines.push(line)?;
            self.places[line as usize] = Some(place);
        }
        Ok(())
    }

    /// Finds the objects among the values, in order.
    pub(crate) fn add_each(&mut self, values: &[Value]) -> Result<(), AllocError>
        requires { All (NamesIn self.old.objects) values.now }
        ensures added { OnOk result (self.new.numbers ≡ with_new self.old.numbers values.now) }
        ensures size { self.new.objects ≡ self.old.objects }
    {
        for value in values {
            if let Value::Obj(line) = *value {
                self.add(line)?;
            }
        }
        Ok(())
    }

    /// The object that was found at this place of the order.
    pub(crate) fn get(&self, place: usize) -> Option<u32>
        ensures line { result ≡ slice_get self.now.numbers place }
        ensures low { IfSome result (λ line. first_object_line ≤ line) }
        ensures within { IfSome result (λ line. line < self.now.objects) }
        ensures few { IfSome result (λ line. place < self.now.objects) }
    {
        if place < self.lines.len() {
            Some(self.lines[place])
        } else {
            None
        }
    }

    /// The first lines of the found objects, in order. Takes no memory.
    pub(crate) fn into_lines(self) -> ListOf<u32>
        ensures { result ≡ self.numbers }
    {
        let FoundObjects { lines, places: _ } = self;
        ListOf::from_vec(lines)
    }

    /// The value, with a found object's place for its line.
    fn renumbered(&self, value: Value) -> Value
        ensures { result ≡ renumbered self.now.numbers value }
    {
        match value {
            Value::Obj(line) => Value::Obj(self.place_of(line)),
            other => other,
        }
    }

    /// The place of a found object. Of any other line it is the number of found objects.
    fn place_of(&self, line: u32) -> u32
        ensures { result ≡ place_in self.now.numbers line }
    {
        let end = self.lines.len() as u32;
        if line as usize >= self.places.len() {
            return end;
        }
        self.places[line as usize].unwrap_or(end)
    }

    /// The values, with found objects' places for their lines.
    pub(crate) fn renumbered_each(
        &self,
        alloc: Global,
        values: &[Value],
    ) -> Result<ListOf<Value>, AllocError>
        ensures { IfOk result (λ list. list ≡ map (renumbered self.now.numbers) values.now) }
    {
        let mut list = Vec::with_capacity(alloc, values.len())?;
        for value in values {
            list.push(self.renumbered(*value))?;
        }
        Ok(ListOf::from_vec(list))
    }
}
