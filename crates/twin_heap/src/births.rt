// New objects.
ghost use Rattle.std.specs.Prelude.{◌≡◌, ◌+◌, ◌-◌, ◌<◌, ◌^◌, ◌↔◌, ℕ, IfSome, IsNone, IsSome, length};
ghost use Rattle.ap_base.specs.declared.reference.Ref.TheVariants.{Volatile};
ghost use Rattle.twin_forms.specs.Table.{IsValid};
ghost use Rattle.twin_forms.specs.Moves.{Adds};
ghost use Rattle.twin_forms.specs.Sights.{sight};

use crate::heap::TwinHeap;
use ap_base::Ref;
use image_layout::head_word;
use line_image::Image;

impl<I: Image> TwinHeap<I> {
    /// A new object of a shape in the space, all of whose slots are 0. It takes three words and one for each slot, and no
    /// memory. `None` exactly where fewer words are left: all is then as before.
    pub fn alloc(&mut self, shape: u32, slots: u32) -> Option<Ref>
        requires valid { IsValid (sight self.old.space self.old.memory self.old.marks) }
        requires shape { shape < length self.old.marks.kinds }
        requires few { slots < 2 ^ 31 }
        ensures none { IsNone result ↔ (self.old.space.left < 3 + slots) }
        ensures reference { IfSome result (λ r. r ≡ Volatile (length self.old.space.words)) }
        ensures added { IsSome result → Adds shape slots
            (sight self.old.space self.old.memory self.old.marks)
            (sight self.new.space self.new.memory self.new.marks) }
        ensures left { IsSome result → self.new.space.left ≡ self.old.space.left - (3 + slots) }
        ensures same { IsNone result → (self.new.space ≡ self.old.space)
            × (self.new.memory ≡ self.old.memory) × (self.new.marks ≡ self.old.marks) }
        ensures memory { self.new.memory ≡ self.old.memory }
        ensures kinds { self.new.marks.kinds ≡ self.old.marks.kinds }
    {
        let at = self.space.take(3 + slots)?;
        let number = self.marks.add(2 * u64::from(at) + 1);
        self.space.set(at + 1, head_word(shape, slots));
        self.space.set(at + 2, u64::from(number));
        Some(Ref::Volatile(at))
    }
}
