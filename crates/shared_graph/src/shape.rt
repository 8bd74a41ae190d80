// Shapes that nodes share.
ghost use Rattle.std.specs.Prelude.{◌≡◌, IfOk};

use graph_model::Shape;
use std::alloc::{AllocError, Global};
use std::marker::Model;
use std::rc::Rc;

/// A shape that stands in memory once, however many nodes have it. Contracts see the shape.
#[derive(Drop)]
pub struct SharedShape {
    shape: Rc<Shape>,
}

impl Model for SharedShape {
    ghost use Rattle.graph_model.specs.declared.types.Shape.{Shape as NodeShape};

    ghost Value = { NodeShape };

    ghost view = { λ shared. shared.shape.value };
}

impl SharedShape {
    /// The shape, to be shared.
    pub fn new(alloc: Global, shape: Shape) -> Result<SharedShape, AllocError>
        ensures same { IfOk result (λ shared. shared ≡ shape) }
    {
        Ok(SharedShape {
            shape: Rc::new(alloc, shape)?,
        })
    }

    /// The shape for one more node. Takes no memory.
    pub fn share(&self) -> Result<SharedShape, AllocError>
        ensures same { IfOk result (λ shared. shared ≡ self.now) }
    {
        Ok(SharedShape {
            shape: self.shape.clone()?,
        })
    }

    /// The shape.
    pub fn get(&self) -> &Shape
        ensures same { result.now ≡ self.now }
    {
        self.shape.as_ref()
    }
}

/// Copies of shapes, to be shared.
pub fn shared_shapes(alloc: Global, shapes: &[Shape]) -> Result<Vec<SharedShape>, AllocError>
    ensures same { IfOk result (λ shared. shared.items ≡ shapes.now) }
{
    let mut shared = Vec::with_capacity(alloc, shapes.len())?;
    for shape in shapes {
        shared.push(SharedShape::new(alloc, shape.copy(alloc)?)?)?;
    }
    Ok(shared)
}
