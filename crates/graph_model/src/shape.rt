// Copies of shapes.
ghost use Rattle.std.specs.Prelude.{◌≡◌, IfOk};

use crate::{Field, Shape};
use ap_base::{Bytes, ListOf};
use std::alloc::{AllocError, Global};

impl Field {
    /// A copy of the field.
    pub fn copy(&self, alloc: Global) -> Result<Field, AllocError>
        ensures same { IfOk result (λ field. field ≡ self.now) }
    {
        Ok(Field {
            name: Bytes::copy(alloc, self.name.as_slice())?,
            kind: self.kind,
            kept: self.kept,
        })
    }
}

impl Shape {
    /// A copy of the shape.
    pub fn copy(&self, alloc: Global) -> Result<Shape, AllocError>
        ensures same { IfOk result (λ shape. shape ≡ self.now) }
    {
        let mut fields = Vec::new(alloc);
        for field in self.fields.as_slice() {
            fields.push(field.copy(alloc)?)?;
        }
        Ok(Shape {
            name: Bytes::copy(alloc, self.name.as_slice())?,
            fields: ListOf::from_vec(fields),
            element: self.element,
        })
    }
}
