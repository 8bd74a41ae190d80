// Objects in volatile memory, which a heap is given one after another.
ghost use Rattle.std.specs.Prelude.{◌≡◌, ◌+◌, ◌<◌, ◌≤◌, ◌^◌, ◌∷◌, [], ℕ, All, IfErr, IfOk, IsTrue, List, OnOk, Some, length};
ghost use Rattle.std.specs.Prelude.{map, pos, slice_index_or};
ghost use Rattle.ap_base.specs.declared.kind.Kind.TheVariants.{C};
ghost use Rattle.ap_base.specs.declared.reference.Item.TheVariants.{Int as IntItem};
ghost use Rattle.graph_model.specs.Heaps.{no_shape};
ghost use Rattle.one_space.specs.First.{CanBeFirst, IfFull, LacksWords, text_object};
ghost use Rattle.run_history.specs.Worlds.{may_have};
ghost use Rattle.shared_objects.specs.Changes.{StoresSlot};
ghost use Rattle.shared_objects.specs.Shown.{HasSlot, IfNumber, object_in, slot_kind};
ghost use Rattle.twin_forms.specs.Table.{Entry};
ghost use Rattle.two_spaces.specs.Seen.{shown_of};
ghost use Rattle.two_spaces.specs.Whole.{IsWhole, Stands};
ghost use Rattle.first_spaces.specs.Growing.{Grows, IsYoung, KeepsNumbers, PutsChars, Spares, fresh_object};
ghost use Rattle.first_spaces.specs.Items.{AreNumbered};
ghost use Rattle.first_spaces.specs.Parts.{first_in, volatile_objects};
ghost use Rattle.first_spaces.specs.Spaces.{spaces_of};

use crate::parts::FirstObjects;
use ap_base::{Item, ListOf, Ref};
use line_image::Image;
use one_space::NoFirstHeap;
use run_types::Full;
use shared_objects::Objects;
use std::alloc::Global;
use two_spaces::TwoSpaces;

/// The references of the objects that a run begins with in volatile memory.
#[derive(Drop)]
pub(crate) struct References {
    pub(crate) stream: Ref,
    pub(crate) arguments: Ref,
    pub(crate) literals: Vec<Ref>,
}

/// Adds an object of a class, with so many slots.
fn add<I: Image>(spaces: &mut TwoSpaces<I>, class: u32, slots: u32) -> Result<Ref, Full>
    requires whole { IsWhole (spaces_of spaces.old) }
    requires class { class < length spaces.old.shapes }
    requires few { slots < 2 ^ 31 }
    requires slots { IsTrue (may_have (slice_index_or spaces.old.shapes class no_shape) slots) }
    ensures grown { OnOk result (Grows (fresh_object spaces.old.shapes class slots ∷ []) (spaces_of spaces.old)
        (spaces_of spaces.new)) }
    ensures number { IfOk result (λ r. (shown_of (spaces_of spaces.new)).number r
        ≡ Some (length (shown_of (spaces_of spaces.old)).objects)) }
    ensures young { IfOk result (IsYoung (spaces_of spaces.new)) }
    ensures full { IfErr result (LacksWords spaces.old.heap.space.left
        (fresh_object spaces.old.shapes class slots ∷ [])) }
    ensures memory { spaces.new.heap.memory ≡ spaces.old.heap.memory }
{
    spaces.alloc(class, slots)
}

/// Stores a char to a slot of an object of chars that lies in volatile memory alone.
fn put_char<I: Image>(spaces: &mut TwoSpaces<I>, object: Ref, index: u32, char: u16)
    requires young { IsYoung (spaces_of spaces.old) object }
    requires slot { HasSlot (shown_of (spaces_of spaces.old)) object index }
    requires kind { IfNumber ((shown_of (spaces_of spaces.old)).number object)
        (λ n. slot_kind (shown_of (spaces_of spaces.old)) n index ≡ Some C) }
    ensures stored { StoresSlot object index (IntItem (pos char)) (shown_of (spaces_of spaces.old))
        (shown_of (spaces_of spaces.new)) }
    ensures spares { Spares (spaces_of spaces.old) (spaces_of spaces.new) }
    ensures table { (es : List Entry) → Stands (spaces_of spaces.old) es → Stands (spaces_of spaces.new) es }
    ensures numbers { KeepsNumbers (spaces_of spaces.old) (spaces_of spaces.new) }
    ensures young { IsYoung (spaces_of spaces.new) object }
{
    spaces.store(object, index, Item::Int(i32::from(char)));
}

/// Stores chars to the first slots of such an object.
fn put_chars<I: Image>(spaces: &mut TwoSpaces<I>, object: Ref, chars: &[u16])
    requires young { IsYoung (spaces_of spaces.old) object }
    requires slots { IfNumber ((shown_of (spaces_of spaces.old)).number object)
        (λ n. length chars.now ≤ length (object_in (shown_of (spaces_of spaces.old)) n).values) }
    requires chars { IfNumber ((shown_of (spaces_of spaces.old)).number object) (λ n. (slice_index_or
        spaces.old.shapes (object_in (shown_of (spaces_of spaces.old)) n).shape no_shape).element ≡ Some C) }
    requires short { length chars.now < 2 ^ 31 }
    ensures { PutsChars object chars.now (spaces_of spaces.old) (spaces_of spaces.new) }
{
    for (i, char) in chars.iter().enumerate() {
        put_char(spaces, object, i as u32, *char);
    }
}

/// Adds a string with these chars.
fn add_text<I: Image>(spaces: &mut TwoSpaces<I>, class: u32, chars: &[u16]) -> Result<Ref, Full>
    requires whole { IsWhole (spaces_of spaces.old) }
    requires class { class < length spaces.old.shapes }
    requires chars { (slice_index_or spaces.old.shapes class no_shape).element ≡ Some C }
    requires short { length chars.now < 2 ^ 31 }
    ensures grown { OnOk result (Grows (text_object class chars.now ∷ []) (spaces_of spaces.old)
        (spaces_of spaces.new)) }
    ensures number { IfOk result (λ r. (shown_of (spaces_of spaces.new)).number r
        ≡ Some (length (shown_of (spaces_of spaces.old)).objects)) }
    ensures full { IfErr result (LacksWords spaces.old.heap.space.left (text_object class chars.now ∷ [])) }
    ensures memory { spaces.new.heap.memory ≡ spaces.old.heap.memory }
{
    let object = add(spaces, class, chars.len() as u32)?;
    put_chars(spaces, object, chars);
    Ok(object)
}

/// Adds strings with these chars, in order, and answers their references.
fn add_texts<I: Image>(
    alloc: Global,
    spaces: &mut TwoSpaces<I>,
    class: u32,
    texts: &[ListOf<u16>],
) -> Result<Vec<Ref>, NoFirstHeap>
    requires whole { IsWhole (spaces_of spaces.old) }
    requires class { class < length spaces.old.shapes }
    requires chars { (slice_index_or spaces.old.shapes class no_shape).element ≡ Some C }
    requires short { All (λ (text : List ℕ). length text < 2 ^ 31) texts.now }
    ensures grown { OnOk result (Grows (map (text_object class) texts.now) (spaces_of spaces.old)
        (spaces_of spaces.new)) }
    ensures numbers { IfOk result (λ refs. AreNumbered (shown_of (spaces_of spaces.new)).number
        (length (shown_of (spaces_of spaces.old)).objects) refs.items) }
    ensures long { IfOk result (λ refs. length refs.items ≡ length texts.now) }
    ensures full { IfErr result (λ e. IfFull e
        (LacksWords spaces.old.heap.space.left (map (text_object class) texts.now))) }
    ensures memory { spaces.new.heap.memory ≡ spaces.old.heap.memory }
{
    let mut references = Vec::new(alloc);
    references.reserve(texts.len())?;
    for text in texts {
        references.push_reserved(add_text(spaces, class, text.as_slice())?);
    }
    Ok(references)
}

/// Adds the objects that a run begins with in volatile memory: that of the stream, the empty array of arguments, and
/// the literals.
pub(crate) fn add_objects<I: Image>(
    alloc: Global,
    spaces: &mut TwoSpaces<I>,
    objects: &FirstObjects,
) -> Result<References, NoFirstHeap>
    requires whole { IsWhole (spaces_of spaces.old) }
    requires first { CanBeFirst (first_in spaces.old.shapes objects.now) }
    ensures grown { OnOk result (Grows (volatile_objects objects.now) (spaces_of spaces.old)
        (spaces_of spaces.new)) }
    ensures stream { IfOk result (λ refs. (shown_of (spaces_of spaces.new)).number refs.stream
        ≡ Some (length (shown_of (spaces_of spaces.old)).objects)) }
    ensures arguments { IfOk result (λ refs. (shown_of (spaces_of spaces.new)).number refs.arguments
        ≡ Some (1 + length (shown_of (spaces_of spaces.old)).objects)) }
    ensures literals { IfOk result (λ refs. AreNumbered (shown_of (spaces_of spaces.new)).number
        (2 + length (shown_of (spaces_of spaces.old)).objects) refs.literals.items) }
    ensures long { IfOk result (λ refs. length refs.literals.items ≡ length objects.now.literals) }
    ensures full { IfErr result (λ e. IfFull e
        (LacksWords spaces.old.heap.space.left (volatile_objects objects.now))) }
    ensures memory { spaces.new.heap.memory ≡ spaces.old.heap.memory }
{
    let stream = add(spaces, objects.stream, 0)?;
    let arguments = add(spaces, objects.arguments, 0)?;
    let texts = objects.literals.as_slice();
    let literals = add_texts(alloc, spaces, objects.string, texts)?;
    Ok(References {
        stream,
        arguments,
        literals,
    })
}
