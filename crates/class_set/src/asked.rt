//! What steps of a run ask of a class set besides its look-ups.

ghost use Rattle.std.specs.Prelude.{◌≡◌, ◌<◌, ◌^◌, length};
ghost use Rattle.plain_model.specs.Facts.{class_at, may_hold};
ghost use Rattle.class_set.specs.Facts.{facts_of};

use crate::ClassSet;

impl ClassSet {
    /// How many fields the objects of a class or an array type have, by its number; none past the
    /// last.
    pub fn field_count(&self, class: u32) -> u32
        ensures count { result ≡ length (class_at (facts_of self.now) class).shape.fields }
        ensures few { result < 2 ^ 31 }
    {
        match self.shapes.get(class as usize) {
            Some(shape) => shape.fields.len() as u32,
            None => 0,
        }
    }

    /// Whether an array of a type may hold objects of a class, by their numbers: it is an array
    /// type, and the class is a subtype of the type of its elements (JVMS 6.5, aastore).
    pub fn may_hold(&self, array: u32, class: u32) -> bool
        ensures { result ≡ may_hold (facts_of self.now) array class }
    {
        let dimensions = self.dimensions_of(array);
        if dimensions == 0 {
            return false;
        }
        let own = self.dimensions_of(class);
        let elements = self.elements_of(array);
        if own == dimensions - 1 {
            return self.is_sub_elements(self.elements_of(class), elements);
        }
        dimensions - 1 < own && self.is_above_arrays(elements)
    }
}
