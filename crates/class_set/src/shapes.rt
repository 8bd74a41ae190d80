//! What a directory of shapes asks of a class set.

ghost use Rattle.std.specs.Prelude.{◌≡◌};
ghost use Rattle.std.specs.Option.{option_copied};
ghost use Rattle.plain_model.specs.Facts.{class_at, innermost_of, shapes_of};
ghost use Rattle.class_set.specs.Facts.{facts_of};
ghost use Rattle.class_set.specs.Sets.{IsLinked, is_there, shape_named};

use crate::ClassSet;
use crate::subtypes::Elements;
use built_in_table::built_in_classes;
use class_links::is_interface;
use graph_model::Shape;

impl ClassSet {
    /// The shapes of all classes and array types, by number.
    pub fn shapes(&self) -> &[Shape]
        ensures shapes { result.now ≡ shapes_of (facts_of self.now) }
        ensures linked { IsLinked self.now }
    {
        self.shapes.as_slice()
    }

    /// The shape of the class with this name, array types aside. `None` exactly where there is none.
    pub fn class_shape(&self, name: &[u8]) -> Option<&Shape>
        ensures { option_copied result ≡ shape_named (facts_of self.now) name.now }
    {
        let class = self.class_named(name)?;
        if class as usize >= self.named_count() {
            return None;
        }
        self.shapes.get(class as usize)
    }

    /// Whether the class of this number is an interface (JVMS table 4.1-B). No array type is one.
    pub fn is_interface(&self, class: u32) -> bool
        ensures { result ≡ (class_at (facts_of self.now) class).is_interface }
    {
        if (class as usize) < self.files.len() {
            return is_interface(&self.files[class as usize]);
        }
        match built_in_classes().get(class as usize - self.files.len()) {
            Some(built_in) => built_in.is_interface,
            None => false,
        }
    }

    /// Whether the innermost elements of a type are numbers or of a class of the set, and not of
    /// one that it lacks. So it is with each class, whose only element is it itself.
    pub fn has_innermost(&self, n: u32) -> bool
        ensures { result ≡ is_there (innermost_of (facts_of self.now) n) }
    {
        !matches!(self.elements_of(n), Elements::Missing(_))
    }
}
