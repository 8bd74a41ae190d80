// Laws of heaps, and of the numbering that the canonical graph has.
ghost use Rattle.std.specs.Prelude.{◌≡◌, ℕ, ◌-◌, ◌^◌, ◌<◌, List, [], ◌∷◌, All, length, if◌then◌else◌};
ghost use Rattle.ap_base.specs.declared.place.Place.{Place};
ghost use Rattle.graph_model.specs.declared.types.Value.{Value};
ghost use Rattle.graph_model.specs.declared.types.Heap.{Heap};
ghost use Rattle.graph_model.specs.Heaps.{IsSound, IsBelow, HasPlace, place_is, value_at, stored, with_fresh, root_values};
ghost use Rattle.graph_model.specs.Canon.{canon_of, graph_by, found_from};
ghost use Rattle.graph_model.specs.BreadthFirst.{IsNumbering};
ghost use Rattle.graph_model.specs.Rows.{ring, ring_graph};

/// A store changes what one place holds, and nothing else.
pub fn store_changes_one_place()
    ensures { (heap : Heap) (place other : Place) (value : Value) → HasPlace heap place
        → value_at (stored heap place value) other
        ≡ (if place_is place other then value else value_at heap other) }
{}

/// A store of a value that is no object, or one of the heap's, leaves a sound heap sound.
pub fn stores_keep_soundness()
    ensures { (heap : Heap) (place : Place) (value : Value) → IsSound heap
        → IsBelow (length heap.objects) value → IsSound (stored heap place value) }
{}

/// A new object leaves a sound heap sound.
pub fn new_objects_keep_soundness()
    ensures { (heap : Heap) (shape count : ℕ) → IsSound heap → shape < length heap.shapes
        → length heap.objects < 2 ^ 32 - 1 → IsSound (with_fresh heap shape count) }
{}

/// What is found from values is a breadth first numbering of what they reach.
pub fn found_breadth_first()
    ensures { (heap : Heap) (start : List Value) → IsSound heap → All (IsBelow (length heap.objects)) start
        → IsNumbering heap start (found_from heap start) }
{}

/// There is no other breadth first numbering of what values reach.
pub fn one_numbering_only()
    ensures { (heap : Heap) (start : List Value) (numbers : List ℕ) → IsSound heap
        → All (IsBelow (length heap.objects)) start → IsNumbering heap start numbers
        → numbers ≡ found_from heap start }
{}

/// The canonical graph of a heap is the graph by the breadth first numbering of what its roots reach.
pub fn canon_numbers_breadth_first()
    ensures numbered { (heap : Heap) → IsSound heap
        → IsNumbering heap (root_values heap) (found_from heap (root_values heap)) }
    ensures graph { (heap : Heap) (numbers : List ℕ) → IsSound heap
        → IsNumbering heap (root_values heap) numbers → canon_of heap ≡ graph_by heap numbers }
{}

/// Breadth first, object 4 comes before object 3.
pub fn breadth_first_row()
    ensures { found_from ring (root_values ring) ≡ 2 ∷ 1 ∷ 4 ∷ 3 ∷ [] }
{}

/// The graph of that heap.
pub fn canon_row()
    ensures { canon_of ring ≡ ring_graph }
{}
