// What references reach.
ghost use Rattle.std.specs.Prelude.{◌≡◌, ℕ, ◌↔◌, length, All, IfOk, Contains};
ghost use Rattle.std.specs.List.Sorted.{IsStrictlyIncreasing};
ghost use Rattle.graph_model.specs.Heaps.{IsBelow, IsSound};
ghost use Rattle.graph_model.specs.Reach.{IsReached};

use crate::numbering::Numbering;
use crate::{Heap, Value};
use std::alloc::{AllocError, Global};

/// The numbers of the objects to which a path of references leads from one of the values, in ascending order.
pub fn reach(alloc: Global, heap: &Heap, start: &[Value]) -> Result<Vec<u32>, AllocError>
    requires sound { IsSound heap.now }
    requires start { All (IsBelow (length heap.now.objects)) start.now }
    ensures ascending { IfOk result (λ r. IsStrictlyIncreasing r.items) }
    ensures exact { IfOk result (λ r. (n : ℕ) → Contains r.items n ↔ IsReached heap.now start.now n) }
{
    Numbering::of(alloc, heap, start)?.ascending(alloc)
}
