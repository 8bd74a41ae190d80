// Reading.
ghost use Rattle.std.specs.Prelude.{◌≡◌, ◌+◌, ◌*◌, ◌/◌, ◌<◌, ◌≤◌, ◌↔◌, ◌%◌, ◌-◌, ◌==◌, ℕ, List, IsTrue, IfSome, IsNone, None};
ghost use Rattle.std.specs.Prelude.{Some, length, slice_index, if◌then◌else◌};
ghost use Rattle.ap_base.specs.References.{reference_word};
ghost use Rattle.twin_forms.specs.Table.{Entry, entry, Lies, Names, Leads, HasSlot, head_word, word_of, kind_at, kept_at};
ghost use Rattle.twin_forms.specs.Table.{HasCopied, InP, IsClaimed, line_of};
ghost use Rattle.twin_forms.specs.Sights.{sight};
ghost use Rattle.twin_heap.specs.Here.{HasHead, HasWord, Says, SaysIn, current};

use crate::heap::TwinHeap;
use ap_base::{Kind, Ref, Spot, ThreadNo};
use forwarding::{resolve, state_at};
use image_layout::head_parts;
use line_image::Image;
use object_header::State;

/// The word of a slot of the copy that begins at a line.
pub(crate) fn slot_of(line: u32, index: u32) -> Spot
    requires { line + (1 + index) / 8 < 4294967296 }
    ensures line { result.line ≡ line + line_of index }
    ensures word { result.word ≡ (1 + index) % 8 }
{
    let place = u64::from(index) + 1;
    Spot {
        line: line + (place / 8) as u32,
        word: (place % 8) as u8,
    }
}

impl<I: Image> TwinHeap<I> {
    /// The reference to the copy of an object that is current: from the forward on that of its lines.
    pub fn resolved(&self, r: Ref) -> Ref
        requires object { Leads (sight self.now.space self.now.memory self.now.marks) (reference_word r) }
        ensures current { Says (sight self.now.space self.now.memory self.now.marks) (reference_word r)
            (λ e _. result ≡ current e) }
    {
        resolve(&self.space, r)
    }

    /// The word of a slot, whichever copy is current.
    pub fn read_slot(&self, r: Ref, index: u32) -> u64
        requires slot { HasWord (sight self.now.space self.now.memory self.now.marks) self.now.memory (reference_word r) index }
        ensures word { Says (sight self.now.space self.now.memory self.now.marks) (reference_word r)
            (λ e _. result ≡ word_of (sight self.now.space self.now.memory self.now.marks) e index) }
    {
        match self.resolved(r) {
            Ref::Volatile(at) => self.space.word(at + 3 + index),
            Ref::Persistent(line) => self.memory.load(slot_of(line, index)),
            Ref::Null => 0,
        }
    }

    /// The number of an object.
    pub fn number_of(&self, r: Ref) -> u32
        requires object { Leads (sight self.now.space self.now.memory self.now.marks) (reference_word r) }
        ensures number { Says (sight self.now.space self.now.memory self.now.marks) (reference_word r)
            (λ _ n. result ≡ n) }
    {
        match r {
            Ref::Volatile(at) => self.space.word(at + 2) as u32,
            Ref::Persistent(line) => self.marks.number(line),
            Ref::Null => 0,
        }
    }

    /// Whether two references lead to one object. The words of the references say nothing of it.
    pub fn same_object(&self, a: Ref, b: Ref) -> bool
        requires left { Leads (sight self.now.space self.now.memory self.now.marks) (reference_word a) }
        requires right { Leads (sight self.now.space self.now.memory self.now.marks) (reference_word b) }
        ensures same { (es : List Entry) (m n : ℕ) → Lies (sight self.now.space self.now.memory self.now.marks) es
            → m < length es → n < length es
            → Names (entry es m) (reference_word a) → Names (entry es n) (reference_word b)
            → IsTrue result ↔ (m ≡ n) }
    {
        self.number_of(a) == self.number_of(b)
    }

    // The head word of an object.
    pub(crate) fn head_of(&self, r: Ref) -> u64
        requires head { HasHead (sight self.now.space self.now.memory self.now.marks) self.now.memory (reference_word r) }
        ensures head { Says (sight self.now.space self.now.memory self.now.marks) (reference_word r)
            (λ e _. result ≡ head_word e) }
    {
        match r {
            Ref::Volatile(at) => self.space.word(at + 1),
            Ref::Persistent(line) => self.memory.load(Spot { line, word: 0 }),
            Ref::Null => 0,
        }
    }

    /// The number of an object's shape.
    pub fn shape_of(&self, r: Ref) -> u32
        requires head { HasHead (sight self.now.space self.now.memory self.now.marks) self.now.memory (reference_word r) }
        ensures shape { Says (sight self.now.space self.now.memory self.now.marks) (reference_word r)
            (λ e _. result ≡ e.shape) }
    {
        head_parts(self.head_of(r)).0
    }

    /// How many slots an object has.
    pub fn length_of(&self, r: Ref) -> u32
        requires head { HasHead (sight self.now.space self.now.memory self.now.marks) self.now.memory (reference_word r) }
        ensures length { Says (sight self.now.space self.now.memory self.now.marks) (reference_word r)
            (λ e _. result ≡ e.slots) }
    {
        head_parts(self.head_of(r)).1
    }

    /// The kind of a slot. `None` where it has none.
    pub fn kind_at(&self, r: Ref, index: u32) -> Option<Kind>
        requires head { HasHead (sight self.now.space self.now.memory self.now.marks) self.now.memory (reference_word r) }
        ensures kind { Says (sight self.now.space self.now.memory self.now.marks) (reference_word r)
            (λ e _. result ≡ kind_at (sight self.now.space self.now.memory self.now.marks) e index) }
    {
        self.marks.kind(self.shape_of(r), index)
    }

    /// Whether what stands in the slot is kept in the image: today every slot is.
    pub fn kept_at(&self, r: Ref, index: u32) -> bool
        requires head { HasHead (sight self.now.space self.now.memory self.now.marks) self.now.memory (reference_word r) }
        ensures kept { Says (sight self.now.space self.now.memory self.now.marks) (reference_word r)
            (λ e _. result ≡ kept_at (sight self.now.space self.now.memory self.now.marks) e index) }
    {
        true
    }

    /// The thread that has claimed an object and not sealed it, told alike for both its references. `None` exactly
    /// where there is none.
    pub fn claimed_by(&self, r: Ref) -> Option<ThreadNo>
        requires object { Leads (sight self.now.space self.now.memory self.now.marks) (reference_word r) }
        ensures claimer { SaysIn (sight self.now.space self.now.memory self.now.marks) (reference_word r)
            (λ es n. (t : ℕ) → (result ≡ Some t) ↔ IsClaimed es t n) }
    {
        match r {
            Ref::Volatile(at) => match state_at(&self.space, at) {
                State::Claimed(t) | State::Copying(t, _) | State::Converted(t, _) => Some(t),
                State::Ordinary | State::Durable(_) => None,
            },
            Ref::Persistent(line) => thread_of(self.marks.owner(line)),
            Ref::Null => None,
        }
    }

    /// Whether an object is durable.
    pub fn in_p(&self, r: Ref) -> bool
        requires object { Leads (sight self.now.space self.now.memory self.now.marks) (reference_word r) }
        ensures durable { SaysIn (sight self.now.space self.now.memory self.now.marks) (reference_word r)
            (λ es n. IsTrue result ↔ InP es n) }
    {
        match r {
            Ref::Volatile(at) => matches!(state_at(&self.space, at), State::Durable(_)),
            Ref::Persistent(line) => self.marks.owner(line) == 0,
            Ref::Null => false,
        }
    }

    /// The line of the copy that has a slot's word. `None` exactly where the line hasn't been copied.
    pub fn copied_line(&self, r: Ref, index: u32) -> Option<u32>
        requires slot { HasSlot (sight self.now.space self.now.memory self.now.marks) (reference_word r) index }
        ensures copied { Says (sight self.now.space self.now.memory self.now.marks) (reference_word r)
            (λ e _. index < e.slots → IfSome result (λ line. HasCopied e (line_of index) × (line ≡ e.line + line_of index))) }
        ensures none { Says (sight self.now.space self.now.memory self.now.marks) (reference_word r)
            (λ e _. IsNone result → ¬ HasCopied e (line_of index)) }
    {
        match r {
            Ref::Persistent(line) => Some(slot_of(line, index).line),
            Ref::Volatile(at) => match state_at(&self.space, at) {
                State::Converted(_, line) | State::Durable(line) => Some(slot_of(line, index).line),
                State::Copying(_, line) => self.line_done(line, index),
                State::Ordinary | State::Claimed(_) => None,
            },
            Ref::Null => None,
        }
    }

    // The line of a copy that has a slot's word, if it is copied.
    fn line_done(&self, line: u32, index: u32) -> Option<u32>
        requires within { line < length self.now.marks.numbers }
        requires few { line + (1 + index) / 8 < 4294967296 }
        ensures some { IfSome result (λ l. (line_of index < slice_index self.now.marks.copies line) × (l ≡ line + line_of index)) }
        ensures none { IsNone result → slice_index self.now.marks.copies line ≤ line_of index }
    {
        let spot = slot_of(line, index);
        if spot.line - line < self.marks.copied(line) {
            Some(spot.line)
        } else {
            None
        }
    }
}

// The thread of an owner: 0, or 1 + the thread.
fn thread_of(owner: u8) -> Option<ThreadNo>
    requires { owner ≤ 64 }
    ensures { result ≡ (if owner == 0 then None else Some (owner - 1)) }
{
    if owner == 0 {
        return None;
    }
    ThreadNo::new(owner - 1)
}
