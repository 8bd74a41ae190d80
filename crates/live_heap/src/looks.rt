// What the durable roots hold.
ghost use Rattle.std.specs.Prelude.{◌≡◌, ◌<◌, ◌^◌, IfOk, filter, length, not};
ghost use Rattle.graph_model.specs.Heaps.{IsSound, root_values};
ghost use Rattle.live_heap.specs.Views.{is_null};

use ap_base::Place;
use graph_model::{Heap, Value};
use std::alloc::{AllocError, Global};

/// What the durable roots hold, in order, and how many of them aren't null.
#[derive(Drop)]
pub(crate) struct HeldRoots {
    pub(crate) values: Vec<Value>,
    pub(crate) count: u32,
}

fn is_null(value: Value) -> bool
    ensures { result ≡ is_null value }
{
    matches!(value, Value::Null)
}

fn count_held(values: &[Value]) -> u32
    requires few { length values.now < 2 ^ 32 }
    ensures { result ≡ length (filter (λ v. not (is_null v)) values.now) }
{
    let mut count = 0;
    for value in values {
        if !is_null(*value) {
            count += 1;
        }
    }
    count
}

fn root_values(alloc: Global, heap: &Heap) -> Result<Vec<Value>, AllocError>
    requires sound { IsSound heap.now }
    ensures { IfOk result (λ values. values.items ≡ root_values heap.now) }
{
    let mut values = Vec::new(alloc);
    for root in heap.roots.as_slice() {
        values.push(heap.read(Place::Static(root.at)))?;
    }
    Ok(values)
}

pub(crate) fn held_roots(alloc: Global, heap: &Heap) -> Result<HeldRoots, AllocError>
    requires sound { IsSound heap.now }
    requires few { length heap.now.roots < 2 ^ 32 }
    ensures values { IfOk result (λ held. held.values.items ≡ root_values heap.now) }
    ensures count { IfOk result (λ held. held.count ≡ length (filter (λ v. not (is_null v)) (root_values heap.now))) }
{
    let values = root_values(alloc, heap)?;
    let count = count_held(values.as_slice());
    Ok(HeldRoots { values, count })
}
