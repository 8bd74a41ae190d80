//! The labels of a method.

ghost use Rattle.std.specs.Prelude.{◌≤◌};

use ap_base::Bytes;

/// A label, and where it stands in its code.
#[derive(Drop)]
pub(crate) struct Mark {
    pub(crate) name: Bytes,
    pub(crate) pc: u32,
}

/// The labels of a method, in order, and how many bytes its code has.
#[derive(Drop)]
pub(crate) struct Marks {
    pub(crate) marks: Vec<Mark>,
    pub(crate) size: u32,
    ghost near: { size ≤ 1073741824 },
}
