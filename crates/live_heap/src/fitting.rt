// Operations on a heap, whatever they are: one that doesn't fit changes nothing.
ghost use Rattle.std.specs.Prelude.{◌≡◌, OnOk, OnErr};
ghost use Rattle.run_history.specs.Worlds.{fits, has_place, heap_after_op_checked, is_below, is_next, may_have};

use ap_base::Place;
use graph_model::{Heap, Shape, Value};
use run_history::Op;
use std::alloc::{AllocError, Global};

/// Whether the heap has this place.
pub(crate) fn has_place(heap: &Heap, place: Place) -> bool
    ensures { result ≡ has_place heap.now place }
{
    match place {
        Place::Static(n) => (n as usize) < heap.statics.len(),
        Place::Slot { object, index } => {
            (object as usize) < heap.objects.len() && (index as usize) < heap.values(object).len()
        }
    }
}

fn is_below(value: Value, objects: usize) -> bool
    ensures { result ≡ is_below objects value }
{
    match value {
        Value::Obj(object) => (object as usize) < objects,
        Value::Int(_) | Value::Long(_) | Value::Null => true,
    }
}

fn is_next(heap: &Heap, object: u32, shape: u32) -> bool
    ensures { result ≡ is_next heap.now object shape }
{
    object as usize == heap.objects.len()
        && u64::from(object) + 1 < 1 << 32
        && (shape as usize) < heap.shapes.len()
}

fn may_have(shape: &Shape, count: u32) -> bool
    ensures { result ≡ may_have shape.now count }
{
    match shape.element {
        None => count as usize == shape.fields.len(),
        Some(_) => true,
    }
}

/// Whether the operation fits the heap.
pub(crate) fn fits(heap: &Heap, op: &Op) -> bool
    ensures { result ≡ fits heap.now op.now }
{
    match *op {
        Op::Alloc {
            object,
            shape,
            length,
        } => {
            is_next(heap, object, shape)
                && may_have(&heap.shapes.as_slice()[shape as usize], length)
        }
        Op::Throw { object, class } => is_next(heap, object, class),
        Op::Stored { place, value } => {
            has_place(heap, place) && is_below(value, heap.objects.len())
        }
        _ => true,
    }
}

/// Does the operation where it fits the heap. Without memory the heap is as before.
pub(crate) fn do_fitting(alloc: Global, heap: &mut Heap, op: &Op) -> Result<(), AllocError>
    ensures done { OnOk result (heap.new ≡ heap_after_op_checked heap.old op.now) }
    ensures same { OnErr result (heap.new ≡ heap.old) }
{
    if !fits(heap, op) {
        return Ok(());
    }
    match *op {
        Op::Alloc {
            object: _,
            shape,
            length,
        } => {
            heap.add(alloc, shape, length)?;
        }
        Op::Throw { object: _, class } => {
            heap.add(alloc, class, 0)?;
        }
        Op::Stored { place, value } => heap.store(place, value),
        _ => {}
    }
    Ok(())
}
