//! Subtypes (JVMS 4.10.1.2).

ghost use Rattle.std.specs.Prelude.{◌≡◌, None};
ghost use Rattle.std.specs.Option.{option_copied, option_map};
ghost use Rattle.plain_model.specs.Facts.{array_at, dimensions_of, innermost_of, is_above_arrays, is_same_kind, is_sub};
ghost use Rattle.plain_model.specs.Facts.{is_sub_innermost, is_subclass};
ghost use Rattle.class_set.specs.Facts.{facts_of};
ghost use Rattle.class_set.specs.Tables.{AreElements, array_now, elements_now};

use crate::ClassSet;
use crate::types::{ArrayType, Innermost};
use ap_base::Kind;

/// The places of Serializable, Cloneable and Object among the built-in classes.
const SERIALIZABLE: u32 = 2;

const CLONEABLE: u32 = 7;

const OBJECT: u32 = 18;

/// What the innermost elements of a type are; of a class itself.
#[derive(Clone, Copy)]
pub(crate) enum Elements<'a> {
    Numbers(Kind),
    Objects(u32),
    Missing(&'a [u8]),
}

/// Whether numbers are of the same kind.
fn is_same_kind(kind: Kind, other: Kind) -> bool
    ensures { result ≡ is_same_kind kind other }
{
    matches!(
        (kind, other),
        (Kind::Z, Kind::Z)
            | (Kind::B, Kind::B)
            | (Kind::C, Kind::C)
            | (Kind::S, Kind::S)
            | (Kind::I, Kind::I)
            | (Kind::J, Kind::J)
    )
}

impl ClassSet {
    /// The array type of this number, `None` exactly where it is none's.
    fn array_at(&self, n: u32) -> Option<&ArrayType>
        ensures { option_map array_now (option_copied result) ≡ array_at (facts_of self.now) n }
    {
        let classes = self.orders.len();
        if (n as usize) < classes {
            return None;
        }
        self.arrays.get(n as usize - classes)
    }

    /// How many dimensions a type has, none for a class.
    pub(crate) fn dimensions_of(&self, n: u32) -> u8
        ensures { result ≡ dimensions_of (facts_of self.now) n }
    {
        match self.array_at(n) {
            Some(array) => array.dimensions,
            None => 0,
        }
    }

    /// What the innermost elements of a type are; of a class, itself.
    pub(crate) fn elements_of(&self, n: u32) -> Elements<'_>
        ensures elements { elements_now result ≡ innermost_of (facts_of self.now) n }
        ensures of_class { AreElements (facts_of self.now) (elements_now result) }
    {
        match self.array_at(n) {
            Some(array) => match &array.innermost {
                Innermost::Numbers(kind) => Elements::Numbers(*kind),
                Innermost::Objects(class) => Elements::Objects(*class),
                Innermost::Missing(name) => Elements::Missing(name.as_slice()),
            },
            None => Elements::Objects(n),
        }
    }

    /// Whether a class is a subtype of another. A number of no array type is a class's or none's.
    fn is_subclass(&self, n: u32, target: u32) -> bool
        requires class { array_at (facts_of self.now) n ≡ None }
        ensures { result ≡ is_subclass (facts_of self.now) n target }
    {
        if n == target {
            return true;
        }
        let classes = self.above.len();
        if n as usize >= classes || target as usize >= classes {
            return false;
        }
        self.above[n as usize].has(target)
    }

    /// Whether types of as many dimensions with these innermost elements are subtypes.
    pub(crate) fn is_sub_elements(&self, elements: Elements<'_>, target: Elements<'_>) -> bool
        requires of_class { AreElements (facts_of self.now) (elements_now elements) }
        ensures { result
            ≡ is_sub_innermost (facts_of self.now) (elements_now elements.entry) (elements_now target.entry) }
    {
        match (elements, target) {
            (Elements::Numbers(kind), Elements::Numbers(other)) => is_same_kind(kind, other),
            (Elements::Objects(class), Elements::Objects(other)) => self.is_subclass(class, other),
            (Elements::Missing(name), Elements::Missing(other)) => name == other,
            _ => false,
        }
    }

    /// Whether it is Object, Cloneable or Serializable, of which every array type is a subtype.
    pub(crate) fn is_above_arrays(&self, elements: Elements<'_>) -> bool
        ensures { result ≡ is_above_arrays (facts_of self.now) (elements_now elements.entry) }
    {
        let first = self.files.len() as u32;
        match elements {
            Elements::Objects(class) => {
                class == first + OBJECT
                    || class == first + CLONEABLE
                    || class == first + SERIALIZABLE
            }
            _ => false,
        }
    }

    /// Whether a class or an array type is a subtype of another, by their numbers: a class of
    /// itself, its superclasses and all their superinterfaces; an array type of Object, Cloneable,
    /// Serializable, itself, and an array type of whose elements' type its own elements' type is a
    /// subtype, both being reference types.
    pub fn is_sub(&self, shape: u32, target: u32) -> bool
        ensures { result ≡ is_sub (facts_of self.now) shape target }
    {
        let dimensions = self.dimensions_of(shape);
        let others = self.dimensions_of(target);
        let elements = self.elements_of(target);
        if dimensions == others {
            return self.is_sub_elements(self.elements_of(shape), elements);
        }
        others < dimensions && self.is_above_arrays(elements)
    }
}
