// The first heap of a class set.
ghost use Rattle.std.specs.Prelude.{◌≡◌, ◌<◌, ◌≤◌, ◌+◌, ◌-◌, ◌^◌, ◌++◌, ◌∷◌, ℕ, All, IfErr, IfOk, IsTrue, List, OnOk, None};
ghost use Rattle.std.specs.Prelude.{Some, [], map, length, pos};
ghost use Rattle.ap_base.specs.declared.kind.Kind.TheVariants.{C};
ghost use Rattle.ap_base.specs.declared.reference.Item.TheVariants.{Int as IntItem};
ghost use Rattle.ap_base.specs.declared.reference.Ref.TheVariants.{Null, Volatile};
ghost use Rattle.graph_model.specs.Heaps.{default_of, fresh_values};
ghost use Rattle.graph_model.specs.declared.types.Obj.{Obj};
ghost use Rattle.graph_model.specs.declared.types.Shape.{Shape as ShapeOf};
ghost use Rattle.graph_model.specs.declared.types.Value.TheVariants.{Obj as Object};
ghost use Rattle.plain_model.specs.Facts.{SetFacts};
ghost use Rattle.run_history.specs.Worlds.{may_have};
ghost use Rattle.shared_objects.specs.Shown.{IfNumber, IsKnownItem, Numbers, item_value, object_in, shape_in};
ghost use Rattle.one_space.specs.First.{CanBeFirst, IfFull, IsFirstOf, IsPartBelow, LacksWords, ShowsFirst, objects_of};
ghost use Rattle.one_space.specs.First.{part_value, text_object};
ghost use Rattle.one_space.specs.Layout.{AreKnown};
ghost use Rattle.one_space.specs.Making.{Adds, CannotAdd, HasMade, PutsChars};
ghost use Rattle.one_space.specs.Shows.{shown_of};
ghost use Rattle.one_space.specs.declared.parts.FirstStatic.{FirstStatic as StaticPart};

use crate::OneSpace;
use crate::failing::NoFirstHeap;
use crate::parts::{FirstConstant, FirstParts, FirstStatic};
use ap_base::{Item, Kind, ListOf, Ref};
use graph_model::Shape;
use run_types::Full;
use std::alloc::{AllocError, Global};
use step_forms::narrow;
use volatile_space::VolatileSpace;

impl OneSpace {
    /// A heap of these shapes without objects and static fields, with so many words. All memory for
    /// words and objects is taken here.
    fn empty(alloc: Global, shapes: ListOf<Shape>, words: u32) -> Result<OneSpace, AllocError>
        ensures { IfOk result (λ heap. HasMade words shapes [] heap) }
    {
        let space = VolatileSpace::reserve(alloc, words)?;
        let mut starts = Vec::new(alloc);
        starts.reserve(words as usize / 3 + 1)?;
        Ok(OneSpace {
            space,
            starts,
            shapes,
            statics: Vec::new(alloc),
        })
    }

    /// Adds an object without slots.
    fn add_empty(&mut self, class: u32) -> Result<(), Full>
        requires class { class < length (shown_of self.old).shapes }
        requires slots { IsTrue (may_have (shape_in (shown_of self.old) class) 0) }
        requires empty { fresh_values (shape_in (shown_of self.old) class) 0 ≡ [] }
        ensures added { OnOk result
            (Adds (record { shape = class; values = [] }) self.old self.new) }
        ensures full { IfErr result (CannotAdd (record { shape = class; values = [] }) self.old) }
    {
        self.place(class, 0)?;
        Ok(())
    }

    /// Adds a string with these chars.
    fn add_text(&mut self, class: u32, chars: &[u16]) -> Result<(), Full>
        requires class { class < length (shown_of self.old).shapes }
        requires chars { (shape_in (shown_of self.old) class).element ≡ Some C }
        requires short { length chars.now < 2 ^ 31 }
        ensures added { OnOk result (Adds (text_object class chars.now) self.old self.new) }
        ensures full { IfErr result (CannotAdd (text_object class chars.now) self.old) }
    {
        let at = self.place(class, chars.len() as u32)?;
        self.put_chars(at, chars);
        Ok(())
    }

    /// Stores chars to the first slots of an object that has so many.
    fn put_chars(&mut self, at: u32, chars: &[u16])
        requires slots { IfNumber ((shown_of self.old).number (Volatile at))
            (λ n. length chars.now ≤ length (object_in (shown_of self.old) n).values) }
        requires chars { IfNumber ((shown_of self.old).number (Volatile at))
            (λ n. (shape_in (shown_of self.old) (object_in (shown_of self.old) n).shape).element
            ≡ Some C) }
        requires short { length chars.now < 2 ^ 31 }
        ensures { PutsChars at chars.now self.old self.new }
    {
        for (i, char) in chars.iter().enumerate() {
            self.put(at, i as u32, char_item(*char));
        }
    }

    /// Adds strings with these chars, in order.
    fn add_texts(&mut self, class: u32, texts: &[ListOf<u16>]) -> Result<(), Full>
        requires class { class < length (shown_of self.old).shapes }
        requires chars { (shape_in (shown_of self.old) class).element ≡ Some C }
        requires short { All (λ (text : List ℕ). length text < 2 ^ 31) texts.now }
        ensures made { (words : ℕ) (shapes : List ShapeOf) (objects : List Obj)
            → HasMade words shapes objects self.old → OnOk result
            (HasMade words shapes (objects ++ map (text_object class) texts.now) self.new) }
        ensures full { (words : ℕ) (shapes : List ShapeOf) (objects : List Obj)
            → HasMade words shapes objects self.old → IfErr result
            (LacksWords words (objects ++ map (text_object class) texts.now)) }
    {
        for text in texts {
            self.add_text(class, text.as_slice())?;
        }
        Ok(())
    }

    /// What a static field holds at first.
    fn first_item(&self, field: &FirstStatic) -> Item
        requires below { IsPartBelow (length (shown_of self.now).objects - 2) field.now.constant }
        ensures value { item_value (shown_of self.now).number result ≡ part_value field.now }
        ensures known { IsKnownItem (shown_of self.now).number result }
    {
        match field.constant {
            None => default_item(field.kind),
            Some(FirstConstant::Int(i)) => narrow(field.kind, Item::Int(i)),
            Some(FirstConstant::Long(i)) => narrow(field.kind, Item::Long(i)),
            Some(FirstConstant::Literal(k)) => narrow(field.kind, Item::Ref(self.object(2 + k))),
        }
    }

    /// The reference of the object with this number.
    fn object(&self, n: u32) -> Ref
        requires there { n < length (shown_of self.now).objects }
        ensures { (shown_of self.now).number result ≡ Some n }
    {
        Ref::Volatile(self.starts[n as usize])
    }

    /// What the static fields hold at first, `System.out` before all others.
    fn first_items(&self, alloc: Global, fields: &[FirstStatic]) -> Result<Vec<Item>, AllocError>
        requires out { 0 < length (shown_of self.now).objects }
        requires below { All (λ (s : StaticPart).
            IsPartBelow (length (shown_of self.now).objects - 2) s.constant) fields.now }
        ensures values { IfOk result (λ items.
            map (item_value (shown_of self.now).number) items.items
            ≡ Object 0 ∷ map part_value fields.now) }
        ensures known { IfOk result (λ items.
            AreKnown self.now.space.words self.now.starts.items items.items) }
    {
        let mut items = Vec::new(alloc);
        items.push(Item::Ref(self.object(0)))?;
        for field in fields {
            items.push(self.first_item(field))?;
        }
        Ok(items)
    }

    /// The first heap of a class set without durable roots, in a space of so many words. It takes
    /// all memory that the heap will ever have: no other call takes any.
    ///
    /// # Errors
    ///
    /// `Full` exactly where the first objects take more words than there are: it tells the words of
    /// the first one that finds fewer, and those that were left. `OutOfMemory` may stand in place
    /// of any answer.
    pub fn new(alloc: Global, parts: FirstParts, words: u32) -> Result<OneSpace, NoFirstHeap>
        requires { CanBeFirst parts }
        ensures first { (set : SetFacts) → IsFirstOf set parts → IfOk result
            (λ heap. ShowsFirst set words (shown_of heap)) }
        ensures full { IfErr result (λ e. IfFull e (LacksWords words (objects_of parts))) }
    {
        let FirstParts {
            shapes,
            stream,
            arguments,
            string,
            literals,
            statics,
        } = parts;
        let mut heap = OneSpace::empty(alloc, shapes, words)?;
        heap.add_empty(stream)?;
        heap.add_empty(arguments)?;
        let texts = literals.as_slice();
        heap.add_texts(string, texts)?;
        let fields = statics.as_slice();
        let items = heap.first_items(alloc, fields)?;
        heap.statics = items;
        Ok(heap)
    }
}

fn char_item(char: u16) -> Item
    ensures { result ≡ IntItem (pos char) }
{
    Item::Int(i32::from(char))
}

/// What a static field without a constant holds at first (JVMS 2.3, 2.4).
fn default_item(kind: Kind) -> Item
    ensures { (number : Numbers) → number Null ≡ None
        → (item_value number result ≡ default_of kind) × IsKnownItem number result }
{
    match kind {
        Kind::L => Item::Ref(Ref::Null),
        Kind::J => Item::Long(0),
        _ => Item::Int(0),
    }
}
