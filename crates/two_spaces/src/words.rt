// Words of items, and of root slots.
ghost use Rattle.std.specs.Prelude.{◌≡◌, ◌<◌, ◌+◌, List, Some};
ghost use Rattle.ap_base.specs.declared.reference.Item.TheVariants.{Ref as RefItem};
ghost use Rattle.ap_base.specs.declared.kind.Kind.{Kind as KindOf};
ghost use Rattle.image_layout.specs.Places.{root_slots, slot_line, slot_word};
ghost use Rattle.line_memory.specs.Memory.{IsResident, shown};
ghost use Rattle.one_space.specs.Layout.{item_in, ref_in};
ghost use Rattle.twin_forms.specs.Sights.{sight};
ghost use Rattle.twin_forms.specs.Table.{Entry, Lies};
ghost use Rattle.twin_heap.specs.Here.{StoresAt};
ghost use Rattle.two_spaces.specs.Whole.{IsItem, IsNumberOf, IsWordOf};

use ap_base::{Item, Kind, Ref, Spot, word_of};
use line_image::Image;
use line_memory::LineMemory;
use one_space::{item_of, word_of_item};
use twin_heap::TwinHeap;

// The word of the reference to the current copy of the object, 0 of null.
fn word_of_ref<I: Image>(heap: &TwinHeap<I>, r: Ref) -> u64
    requires known { (es : List Entry)
        × Lies (sight heap.now.space heap.now.memory heap.now.marks) es × IsItem es (RefItem r) }
    ensures word { (es : List Entry) → Lies (sight heap.now.space heap.now.memory heap.now.marks) es
        → IsItem es (RefItem r) → IsWordOf es (RefItem r) result }
{
    match r {
        Ref::Null => 0,
        _ => word_of(heap.resolved(r)),
    }
}

/// The word that a place keeps of an item: of a reference, that of its object's current copy.
pub(crate) fn kept_word<I: Image>(heap: &TwinHeap<I>, item: Item) -> u64
    requires known { (es : List Entry)
        × Lies (sight heap.now.space heap.now.memory heap.now.marks) es × IsItem es item }
    ensures word { (es : List Entry) → Lies (sight heap.now.space heap.now.memory heap.now.marks) es
        → IsItem es item → IsWordOf es item result }
    // The word of a number has the number.
    ensures again { (kind : KindOf) → IsNumberOf kind item → item_in (Some kind) result ≡ item }
{
    match item {
        Item::Ref(r) => word_of_ref(heap, r),
        _ => word_of_item(item),
    }
}

// Where a root slot lies.
fn root_spot(slot: u32) -> Spot
    requires { slot < root_slots }
    ensures line { result.line ≡ slot_line slot }
    ensures word { result.word ≡ slot_word slot }
{
    Spot {
        line: 1 + slot / 8,
        word: (slot % 8) as u8,
    }
}

/// What a root slot holds.
pub(crate) fn read_root<I: Image>(memory: &LineMemory<I>, slot: u32) -> Item
    requires slot { slot < root_slots }
    requires resident { IsResident memory.now (slot_line slot) }
    ensures { result ≡ RefItem (ref_in (shown memory.now (slot_line slot) (slot_word slot))) }
{
    item_of(Some(Kind::L), memory.load(root_spot(slot)))
}

/// Stores to a root slot.
pub(crate) fn store_root<I: Image>(memory: &mut LineMemory<I>, slot: u32, word: u64)
    requires slot { slot < root_slots }
    requires resident { IsResident memory.old (slot_line slot) }
    ensures { StoresAt (slot_line slot) (slot_word slot) word memory.old memory.new }
{
    memory.store(root_spot(slot), word);
}
