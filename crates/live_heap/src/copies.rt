// Copies of heaps.
ghost use Rattle.std.specs.Prelude.{◌≡◌, IfOk};

use ap_base::{Bytes, ListOf};
use graph_model::{Heap, Obj, Root, Shape};
use std::alloc::{AllocError, Global};

fn shapes(alloc: Global, shapes: &[Shape]) -> Result<Vec<Shape>, AllocError>
    ensures { IfOk result (λ copies. copies.items ≡ shapes.now) }
{
    let mut copies = Vec::new(alloc);
    for shape in shapes {
        copies.push(shape.copy(alloc)?)?;
    }
    Ok(copies)
}

fn object(alloc: Global, object: &Obj) -> Result<Obj, AllocError>
    ensures { IfOk result (λ copy. copy ≡ object.now) }
{
    Ok(Obj {
        shape: object.shape,
        values: ListOf::from_vec(Vec::from_slice(alloc, object.values.as_slice())?),
    })
}

fn objects(alloc: Global, objects: &[Obj]) -> Result<Vec<Obj>, AllocError>
    ensures { IfOk result (λ copies. copies.items ≡ objects.now) }
{
    let mut copies = Vec::new(alloc);
    for each in objects {
        copies.push(object(alloc, each)?)?;
    }
    Ok(copies)
}

fn root(alloc: Global, root: &Root) -> Result<Root, AllocError>
    ensures { IfOk result (λ copy. copy ≡ root.now) }
{
    Ok(Root {
        name: Bytes::copy(alloc, root.name.as_slice())?,
        at: root.at,
    })
}

fn roots(alloc: Global, roots: &[Root]) -> Result<Vec<Root>, AllocError>
    ensures { IfOk result (λ copies. copies.items ≡ roots.now) }
{
    let mut copies = Vec::new(alloc);
    for each in roots {
        copies.push(root(alloc, each)?)?;
    }
    Ok(copies)
}

/// A copy of a heap.
pub(crate) fn heap(alloc: Global, heap: &Heap) -> Result<Heap, AllocError>
    ensures { IfOk result (λ copy. copy ≡ heap.now) }
{
    let shapes = shapes(alloc, heap.shapes.as_slice())?;
    let objects = objects(alloc, heap.objects.as_slice())?;
    let statics = Vec::from_slice(alloc, heap.statics.as_slice())?;
    let roots = roots(alloc, heap.roots.as_slice())?;
    Ok(Heap {
        shapes: ListOf::from_vec(shapes),
        objects: ListOf::from_vec(objects),
        statics: ListOf::from_vec(statics),
        roots: ListOf::from_vec(roots),
    })
}
