// What a conversion asks of an object that it has claimed: it reads the object's words in the space, and needs no line.
ghost use Rattle.std.specs.Prelude.{◌≡◌, ◌<◌, ℕ, List, length};
ghost use Rattle.twin_forms.specs.Table.{Entry, entry, Lies, refers};
ghost use Rattle.twin_forms.specs.Moves.{SomeObject, IsAt, LiesAt};
ghost use Rattle.twin_forms.specs.Sights.{sight};
ghost use Rattle.twin_heap.specs.Here.{IsBeingCopied};

use crate::heap::TwinHeap;
use crate::moves::{is_reference, line_at};
use image_layout::head_parts;
use line_image::Image;

impl<I: Image> TwinHeap<I> {
    /// How many lines of an object are copied, which is being copied.
    pub fn lines_copied(&self, object: u32) -> u32
        requires object { SomeObject (IsBeingCopied object) (sight self.now.space self.now.memory self.now.marks) }
        ensures copied { (es : List Entry) (n : ℕ) → Lies (sight self.now.space self.now.memory self.now.marks) es
            → n < length es → IsBeingCopied object (sight self.now.space self.now.memory self.now.marks) es n
            → result ≡ (entry es n).copied }
    {
        self.marks.copied(line_at(&self.space, object))
    }

    /// How many slots an object of the space has.
    pub fn slots_at(&self, object: u32) -> u32
        requires object { SomeObject (IsAt object) (sight self.now.space self.now.memory self.now.marks) }
        ensures slots { (es : List Entry) (n : ℕ) → Lies (sight self.now.space self.now.memory self.now.marks) es
            → n < length es → LiesAt object (entry es n) → result ≡ (entry es n).slots }
    {
        head_parts(self.space.word(object + 1)).1
    }

    /// Whether a slot of an object of the space holds references.
    pub fn refers_at(&self, object: u32, index: u32) -> bool
        requires object { SomeObject (IsAt object) (sight self.now.space self.now.memory self.now.marks) }
        ensures refers { (es : List Entry) (n : ℕ) → Lies (sight self.now.space self.now.memory self.now.marks) es
            → n < length es → LiesAt object (entry es n)
            → result ≡ refers (sight self.now.space self.now.memory self.now.marks) (entry es n) index }
    {
        let (shape, _) = head_parts(self.space.word(object + 1));
        is_reference(self.marks.kind(shape, index))
    }
}
