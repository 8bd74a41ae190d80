// The shapes of all classes.
ghost use Rattle.std.specs.Prelude.{◌≡◌, IfOk};
ghost use Rattle.class_set.specs.Facts.{facts_of};
ghost use Rattle.plain_model.specs.Facts.{shapes_of};

use class_set::ClassSet;
use graph_model::Shape;
use std::alloc::{AllocError, Global};

fn copied(alloc: Global, shapes: &[Shape]) -> Result<Vec<Shape>, AllocError>
    ensures { IfOk result (λ copies. copies.items ≡ shapes.now) }
{
    let mut copies = Vec::new(alloc);
    for shape in shapes {
        copies.push(shape.copy(alloc)?)?;
    }
    Ok(copies)
}

/// The shapes of all classes and array types, by number.
pub(crate) fn first_shapes(alloc: Global, set: &ClassSet) -> Result<Vec<Shape>, AllocError>
    ensures { IfOk result (λ shapes. shapes.items ≡ shapes_of (facts_of set.now)) }
{
    copied(alloc, set.shapes())
}
