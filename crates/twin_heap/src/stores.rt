// Stores.
ghost use Rattle.std.specs.Prelude.{◌≡◌, ◌+◌, ◌*◌, ◌/◌, ◌%◌, ◌<◌, ℕ, List, IfSome, IsNone, Some, length};
ghost use Rattle.ap_base.specs.References.{reference_word};
ghost use Rattle.ap_base.specs.declared.reference.Ref.TheVariants.{Volatile};
ghost use Rattle.line_memory.specs.Memory.{IsResident};
ghost use Rattle.twin_forms.specs.Table.{Entry, entry, HasCopied, line_of};
ghost use Rattle.twin_forms.specs.Moves.{MayStore, Stores};
ghost use Rattle.twin_forms.specs.Sights.{sight};
ghost use Rattle.twin_heap.specs.Here.{CanStore, StoresAt, old_stored};

use crate::heap::TwinHeap;
use ap_base::{Ref, Spot};
use line_image::Image;
use line_memory::LineMemory;
use volatile_space::VolatileSpace;

/// Stores to one word of the image.
pub(crate) fn store_word<I: Image>(memory: &mut LineMemory<I>, line: u32, word: u8, value: u64)
    requires resident { IsResident memory.old line }
    requires word { word < 8 }
    ensures stored { StoresAt line word value memory.old memory.new }
{
    memory.store(Spot { line, word }, value);
}

// Stores to the slot in the space, where that copy is current.
fn store_old(space: &mut VolatileSpace, place: Ref, index: u32, word: u64)
    requires taken { (at : ℕ) → place ≡ Volatile at → at + 3 + index < length space.old.words }
    requires few { length space.old.words < 4294967296 }
    ensures words { space.new.words ≡ old_stored place index word space.old.words }
    ensures left { space.new.left ≡ space.old.left }
{
    if let Ref::Volatile(at) = place {
        space.set(at + 3 + index, word);
    }
}

// Stores to the slot in a copied line.
fn store_copy<I: Image>(memory: &mut LineMemory<I>, line: Option<u32>, index: u32, word: u64)
    requires resident { IfSome line (λ l. IsResident memory.old l) }
    ensures stored { (l : ℕ) → line ≡ Some l → StoresAt l ((1 + index) % 8) word memory.old memory.new }
    ensures same { IsNone line → memory.new ≡ memory.old }
{
    if let Some(line) = line {
        let place = u64::from(index) + 1;
        store_word(memory, line, (place % 8) as u8, word);
    }
}

impl<I: Image> TwinHeap<I> {
    /// Stores to a slot of the copy that is current, and while the object is being copied to its copied line too. A
    /// reference that is put into a copied line is the line's word of its object, as `resolved` gives it once that is
    /// forwarded, and not the volatile one.
    pub fn plain_store(&mut self, r: Ref, index: u32, word: u64)
        requires store { CanStore (sight self.old.space self.old.memory self.old.marks) self.old.memory
            (reference_word r) index word }
        ensures stored { Stores (reference_word r) index word
            (sight self.old.space self.old.memory self.old.marks)
            (sight self.new.space self.new.memory self.new.marks) }
        ensures line { (es : List Entry) (n : ℕ)
            → MayStore (sight self.old.space self.old.memory self.old.marks) (reference_word r) index word es n
            → HasCopied (entry es n) (line_of index)
            → StoresAt ((entry es n).line + line_of index) ((1 + index) % 8) word self.old.memory self.new.memory }
        ensures same { (es : List Entry) (n : ℕ)
            → MayStore (sight self.old.space self.old.memory self.old.marks) (reference_word r) index word es n
            → ¬ HasCopied (entry es n) (line_of index) → self.new.memory ≡ self.old.memory }
        ensures marks { self.new.marks ≡ self.old.marks }
        ensures left { self.new.space.left ≡ self.old.space.left }
    {
        let place = self.resolved(r);
        let line = self.copied_line(r, index);
        store_old(&mut self.space, place, index, word);
        store_copy(&mut self.memory, line, index, word);
    }
}
