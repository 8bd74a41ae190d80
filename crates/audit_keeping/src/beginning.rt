// What is kept before the first act.
ghost use Rattle.std.specs.Prelude.{◌≡◌, ◌<◌, ◌≤◌, All, IfOk, length};
ghost use Rattle.graph_model.specs.declared.types.Root.{Root as RootOf};
ghost use Rattle.audit_keeping.specs.Beginning.{HaveStatics, first_lists, with_roots};
ghost use Rattle.audit_keeping.specs.Keeping.{lists_of};

use crate::keeping::Keeping;
use graph_model::{Heap, Root};
use std::alloc::{AllocError, Global};

/// Marks the static fields of these roots.
fn mark_roots(marks: &mut [bool], roots: &[Root])
    requires there { All (λ (r : RootOf). r.at < length marks.old) roots.now }
    ensures { marks.new ≡ with_roots marks.old roots.now }
{
    let mut rest = roots;
    'roots: loop {
        match rest {
            [] => return,
            [root, behind @ ..] => {
                marks[root.at as usize] = true;
                rest = behind;
            }
        }
    }
}

impl Keeping {
    /// What is kept before the first act, where the heap's roots and its first so many objects are durable.
    pub fn begin(alloc: Global, heap: &Heap, durable: usize) -> Result<Keeping, AllocError>
        requires roots { HaveStatics heap.now }
        requires there { durable ≤ length heap.now.objects }
        ensures { IfOk result (λ keeping. lists_of keeping ≡ first_lists heap.now durable) }
    {
        let mut roots = vec![in alloc; false; heap.statics.len()]?;
        mark_roots(&mut roots, heap.roots.as_slice());
        let mut marks = Vec::new(alloc);
        marks.resize(durable, true)?;
        marks.resize(heap.objects.len(), false)?;
        Ok(Keeping {
            roots,
            durable: marks,
            asked: Vec::new(alloc),
            guards: Vec::new(alloc),
            closing: Vec::new(alloc),
            unfenced: Vec::new(alloc),
        })
    }
}
