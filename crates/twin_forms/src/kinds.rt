// The kinds of a shape's slots.
use ap_base::{Kind, ListOf};

/// The kinds of a shape's fields, and of its elements, if it has some (JVMS 4.3.2).
#[derive(Drop)]
pub struct ShapeKinds {
    pub fields: ListOf<Kind>,
    pub element: Option<Kind>,
}
