//! How many types a set has.

ghost use Rattle.std.specs.Prelude.{◌≡◌, ◌<◌, ◌^◌, length};
ghost use Rattle.class_set.specs.Linked.{names_of};

use crate::ClassSet;

impl ClassSet {
    /// How many classes and array types have a number: each number below this one is given.
    pub fn type_count(&self) -> usize
        ensures count { result ≡ length (names_of self.now) }
        ensures few { length (names_of self.now) < 2 ^ 32 }
    {
        self.names.len() as usize
    }
}
