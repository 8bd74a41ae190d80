// The tables that a plain run begins with beside its objects.
ghost use Rattle.std.specs.Prelude.{◌≡◌, IfOk};
ghost use Rattle.graph_model.specs.declared.types.Graph.{Graph as GraphOf};
ghost use Rattle.class_set.specs.Facts.{facts_of};
ghost use Rattle.plain_model.specs.Facts.{shapes_of};
ghost use Rattle.plain_model.specs.First.{first_progress};

use class_set::ClassSet;
use graph_model::Shape;
use run_history::Progress;
use std::alloc::{AllocError, Global};

fn copied(alloc: Global, shapes: &[Shape]) -> Result<Vec<Shape>, AllocError>
    ensures { IfOk result (λ copies. copies.items ≡ shapes.now) }
{
    let mut copies = Vec::new(alloc);
    for shape in shapes {
        copies.push(shape.copy(alloc)?)?;
    }
    Ok(copies)
}

/// The shapes of all classes and array types, by number.
pub(crate) fn first_shapes(alloc: Global, set: &ClassSet) -> Result<Vec<Shape>, AllocError>
    ensures { IfOk result (λ shapes. shapes.items ≡ shapes_of (facts_of set.now)) }
{
    copied(alloc, set.shapes())
}

/// The program's classes are untouched, and all others done.
pub(crate) fn first_progress(alloc: Global, set: &ClassSet) -> Result<Vec<Progress>, AllocError>
    ensures { (opening : GraphOf) → IfOk result (λ classes.
        classes.items ≡ first_progress (facts_of set.now) opening) }
{
    let mut classes = Vec::new(alloc);
    classes.resize(set.files().len(), Progress::Untouched)?;
    classes.resize(set.type_count(), Progress::Finished)?;
    Ok(classes)
}
