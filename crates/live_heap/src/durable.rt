// Which objects are durable, as a flag for each.
ghost use Rattle.std.specs.Prelude.{◌≡◌, ◌<◌, ◌&&◌, ℕ, length, vec_capacity};
ghost use Rattle.graph_model.specs.declared.types.Heap.{Heap as HeapOf};
ghost use Rattle.run_history.specs.Knowing.{is_root};
ghost use Rattle.run_history.specs.Worlds.{fits};
ghost use Rattle.live_heap.specs.Seen.{with_durable, durable_after, is_durable_place, is_durable_store};

use crate::fitting::fits;
use ap_base::Place;
use graph_model::{Heap, Root};
use run_history::Op;

fn is_root(roots: &[Root], field: u32) -> bool
    ensures { result ≡ is_root roots.now field }
{
    for root in roots {
        if root.at == field {
            return true;
        }
    }
    false
}

/// Whether a place is a durable root, or a slot of a durable object.
pub(crate) fn is_durable_place(heap: &Heap, durable: &[bool], place: Place) -> bool
    ensures { result ≡ is_durable_place heap.now durable.now place }
{
    match place {
        Place::Static(n) => is_root(heap.roots.as_slice(), n),
        Place::Slot { object, index: _ } => {
            (object as usize) < durable.len() && durable[object as usize]
        }
    }
}

/// Whether an operation is a durable store that fits the heap.
pub(crate) fn is_durable_store(heap: &Heap, durable: &[bool], op: &Op) -> bool
    ensures { result ≡ is_durable_store heap.now durable.now op.now }
{
    match *op {
        Op::Stored { place, value: _ } => fits(heap, op) && is_durable_place(heap, durable, place),
        _ => false,
    }
}

/// Marks those of these objects that are there.
fn mark(durable: &mut Vec<bool>, named: &[u32])
    ensures { durable.new.items ≡ with_durable durable.old.items named.now }
{
    for object in named {
        let at = *object as usize;
        if at < durable.len() {
            durable[at] = true;
        }
    }
}

/// The flags after an operation that names these objects, where `is_fit` says whether it fits the heap before it.
pub(crate) fn flag(durable: &mut Vec<bool>, op: &Op, is_fit: bool, named: &[u32])
    requires room { length durable.old.items < vec_capacity durable.old }
    ensures { (heap : HeapOf) → is_fit ≡ fits heap op.now
        → durable.new.items ≡ durable_after heap durable.old.items named.now op.now }
{
    match *op {
        Op::Alloc { .. } | Op::Throw { .. } => {
            if is_fit {
                durable.push_reserved(false);
            }
        }
        Op::Joined => mark(durable, named),
        _ => {}
    }
}
