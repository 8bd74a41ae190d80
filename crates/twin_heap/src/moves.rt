// Moves: claims, copies, forwards, repairs and seals. None makes a call of the image.
ghost use Rattle.std.specs.Prelude.{◌≡◌, ◌≢◌, ◌+◌, ◌-◌, ◌*◌, ◌/◌, ◌%◌, ◌<◌, ◌≤◌, ℕ, List, length, min, slice_index, true};
ghost use Rattle.forwarding.specs.Forwards.{HasState, IsObject, claim_answer};
ghost use Rattle.object_header.specs.declared.state.State.{State as ObjectState};
ghost use Rattle.line_memory.specs.Memory.{IsResident, shown};
ghost use Rattle.twin_forms.specs.Table.{Entry, entry, Lies, state_in, is_reference};
ghost use Rattle.twin_forms.specs.Moves.{Becomes, SomeObject, ToClaim, ToPlace, ToCopy, ToForward, ToRepair, ToSeal};
ghost use Rattle.twin_forms.specs.Moves.{IsRepaired, IsAt, LiesAt, owned, placed, one_more, forwarded, sealed, ChangesLine};
ghost use Rattle.twin_forms.specs.Moves.{copy_word, repaired};
ghost use Rattle.twin_forms.specs.Sights.{sight};
ghost use Rattle.twin_heap.specs.Here.{IsFilled, copied_in, kind_in_line, line_in, repaired_in};

use crate::heap::TwinHeap;
use crate::marks::Marks;
use crate::stores::store_word;
use ap_base::{Kind, Spot, ThreadNo};
use forwarding::{Claimed, claim, set_forward, state_at};
use image_layout::head_parts;
use line_image::Image;
use line_memory::LineMemory;
use object_header::{State, state_word};
use volatile_space::VolatileSpace;

impl<I: Image> TwinHeap<I> {
    /// Claims an ordinary object for a thread. An object that was claimed before stays as it is.
    pub fn claim(&mut self, object: u32, thread: ThreadNo) -> Claimed
        requires object { SomeObject (IsAt object) (sight self.old.space self.old.memory self.old.marks) }
        ensures answer { (es : List Entry) (n : ℕ) → Lies (sight self.old.space self.old.memory self.old.marks) es
            → n < length es → LiesAt object (entry es n) → result ≡ claim_answer (state_in (entry es n)) }
        ensures claimed { Becomes (owned thread) (ToClaim object)
            (sight self.old.space self.old.memory self.old.marks)
            (sight self.new.space self.new.memory self.new.marks) }
        ensures same { result ≢ Claimed.Now → self.new.space ≡ self.old.space }
        ensures words { length self.new.space.words ≡ length self.old.space.words }
        ensures left { self.new.space.left ≡ self.old.space.left }
        ensures memory { self.new.memory ≡ self.old.memory }
        ensures marks { self.new.marks ≡ self.old.marks }
    {
        // the proof reads here that the number is below 64
        let _number = thread.number();
        claim(&mut self.space, object, thread)
    }

    /// Tells the first line of a claimed object's copy, of which nothing is copied yet. Takes no memory.
    pub fn copy_at(&mut self, object: u32, line: u32)
        requires place { SomeObject (ToPlace object line) (sight self.old.space self.old.memory self.old.marks) }
        ensures placed { Becomes (placed line) (ToPlace object line)
            (sight self.old.space self.old.memory self.old.marks)
            (sight self.new.space self.new.memory self.new.marks) }
        ensures memory { self.new.memory ≡ self.old.memory }
        ensures kinds { self.new.marks.kinds ≡ self.old.marks.kinds }
        ensures left { self.new.space.left ≡ self.old.space.left }
    {
        if let State::Claimed(thread) = state_at(&self.space, object) {
            let number = self.space.word(object + 2) as u32;
            self.marks.begin(line, number, thread.number() + 1);
            self.space
                .set(object, state_word(State::Copying(thread, line)));
        }
    }

    /// Copies the next line of an object, and answers the line that was stored to.
    pub fn copy_line(&mut self, object: u32) -> u32
        requires copy { SomeObject (ToCopy object) (sight self.old.space self.old.memory self.old.marks) }
        requires here { (es : List Entry) (n : ℕ) → Lies (sight self.old.space self.old.memory self.old.marks) es
            → n < length es → ToCopy object (sight self.old.space self.old.memory self.old.marks) es n
            → IsResident self.old.memory ((entry es n).line + (entry es n).copied) }
        ensures copied { Becomes one_more (ToCopy object)
            (sight self.old.space self.old.memory self.old.marks)
            (sight self.new.space self.new.memory self.new.marks) }
        ensures answer { (es : List Entry) (n : ℕ) → Lies (sight self.old.space self.old.memory self.old.marks) es
            → n < length es → ToCopy object (sight self.old.space self.old.memory self.old.marks) es n
            → result ≡ (entry es n).line + (entry es n).copied }
        ensures filled { (es : List Entry) (n : ℕ) → Lies (sight self.old.space self.old.memory self.old.marks) es
            → n < length es → ToCopy object (sight self.old.space self.old.memory self.old.marks) es n
            → IsFilled result 0 8 (copied_in self.old.space.words (entry es n) (entry es n).copied)
            self.old.memory self.new.memory }
        ensures line { ChangesLine result self.old.memory self.new.memory }
        ensures space { self.new.space ≡ self.old.space }
        ensures kinds { self.new.marks.kinds ≡ self.old.marks.kinds }
    {
        let line = line_at(&self.space, object);
        let done = self.marks.copied(line);
        let head = self.space.word(object + 1);
        copy_words(
            &self.space,
            &mut self.memory,
            head,
            object + 2,
            line + done,
            8 * done,
        );
        self.marks.set_copied(line, done + 1);
        line + done
    }

    /// Forwards an object whose lines are all copied: from now on reads go to the copy.
    pub fn forward(&mut self, object: u32)
        requires forward { SomeObject (ToForward object) (sight self.old.space self.old.memory self.old.marks) }
        ensures forwarded { Becomes forwarded (ToForward object)
            (sight self.old.space self.old.memory self.old.marks)
            (sight self.new.space self.new.memory self.new.marks) }
        ensures memory { self.new.memory ≡ self.old.memory }
        ensures marks { self.new.marks ≡ self.old.marks }
        ensures left { self.new.space.left ≡ self.old.space.left }
    {
        let line = line_at(&self.space, object);
        set_forward(&mut self.space, object, line);
    }

    /// Seals a forwarded object: it is durable, and nobody owns it.
    pub fn seal(&mut self, object: u32)
        requires seal { SomeObject (ToSeal object) (sight self.old.space self.old.memory self.old.marks) }
        ensures sealed { Becomes sealed (ToSeal object)
            (sight self.old.space self.old.memory self.old.marks)
            (sight self.new.space self.new.memory self.new.marks) }
        ensures memory { self.new.memory ≡ self.old.memory }
        ensures kinds { self.new.marks.kinds ≡ self.old.marks.kinds }
        ensures left { self.new.space.left ≡ self.old.space.left }
    {
        let line = line_at(&self.space, object);
        self.space.set(object, state_word(State::Durable(line)));
        self.marks.release(line);
    }

    /// Repairs line c of a forwarded object's copy: its volatile references become those to the copies of their
    /// objects, which are all forwarded. Answers the line.
    pub fn repair_line(&mut self, object: u32, c: u32) -> u32
        requires repair { SomeObject (ToRepair object c) (sight self.old.space self.old.memory self.old.marks) }
        requires here { (es : List Entry) (n : ℕ) → Lies (sight self.old.space self.old.memory self.old.marks) es
            → n < length es → ToRepair object c (sight self.old.space self.old.memory self.old.marks) es n
            → IsResident self.old.memory ((entry es n).line + c) }
        ensures repaired { Becomes (λ e. e) (ToRepair object c)
            (sight self.old.space self.old.memory self.old.marks)
            (sight self.new.space self.new.memory self.new.marks) }
        ensures clean { (es : List Entry) (n : ℕ) → Lies (sight self.old.space self.old.memory self.old.marks) es
            → n < length es → ToRepair object c (sight self.old.space self.old.memory self.old.marks) es n
            → IsRepaired c (sight self.new.space self.new.memory self.new.marks) es n }
        ensures answer { (es : List Entry) (n : ℕ) → Lies (sight self.old.space self.old.memory self.old.marks) es
            → n < length es → ToRepair object c (sight self.old.space self.old.memory self.old.marks) es n
            → result ≡ (entry es n).line + c }
        ensures filled { (es : List Entry) (n : ℕ) → Lies (sight self.old.space self.old.memory self.old.marks) es
            → n < length es → ToRepair object c (sight self.old.space self.old.memory self.old.marks) es n
            → IsFilled result (1 - c) (min ((entry es n).slots + 1 - 8 * c) 8)
            (repaired_in self.old.space.words self.old.marks.kinds (entry es n) c (shown self.old.memory result))
            self.old.memory self.new.memory }
        ensures line { ChangesLine result self.old.memory self.new.memory }
        ensures space { self.new.space ≡ self.old.space }
        ensures marks { self.new.marks ≡ self.old.marks }
    {
        let line = line_at(&self.space, object) + c;
        let (shape, slots) = head_parts(self.space.word(object + 1));
        let from = 1u32.saturating_sub(c) as u8;
        let to = (slots + 1 - 8 * c).min(8) as u8;
        repair_words(
            &self.space,
            &mut self.memory,
            &self.marks,
            shape,
            line,
            c,
            from,
            to,
        );
        line
    }
}

// The line in an object's state.
pub(crate) fn line_at(space: &VolatileSpace, object: u32) -> u32
    requires object { IsObject space.now.words object }
    ensures line { (s : ObjectState) → HasState space.now.words object s → result ≡ line_in s }
{
    match state_at(space, object) {
        State::Copying(_, line) | State::Converted(_, line) | State::Durable(line) => line,
        State::Ordinary | State::Claimed(_) => 0,
    }
}

// Word j of a copy: the head, a slot, or zero behind them.
fn copied_word(space: &VolatileSpace, head: u64, base: u32, j: u32) -> u64
    requires space { base + head / 4294967296 < length space.now.words }
    requires short { length space.now.words < 4294967296 }
    ensures word { result ≡ copy_word (slice_index space.now.words) head base (head / 4294967296) j }
{
    let (_, slots) = head_parts(head);
    if j == 0 {
        return head;
    }
    if slots < j {
        return 0;
    }
    space.word(base + j)
}

// The words of a copy from word `start` on, in one line.
fn copy_words<I: Image>(
    space: &VolatileSpace,
    memory: &mut LineMemory<I>,
    head: u64,
    base: u32,
    line: u32,
    start: u32,
)
    requires resident { IsResident memory.old line }
    requires space { base + head / 4294967296 < length space.now.words }
    requires short { length space.now.words < 4294967296 }
    requires few { start + 8 < 4294967296 }
    ensures filled { IsFilled line 0 8
        (λ w. copy_word (slice_index space.now.words) head base (head / 4294967296) (start + w))
        memory.old memory.new }
{
    for word in 0..8u8 {
        let value = copied_word(space, head, base, start + u32::from(word));
        store_word(memory, line, word, value);
    }
}

// Whether a slot of a kind holds references.
pub(crate) fn is_reference(kind: Option<Kind>) -> bool
    ensures { result ≡ is_reference kind }
{
    match kind {
        Some(Kind::L) => true,
        Some(Kind::Z | Kind::B | Kind::C | Kind::S | Kind::I | Kind::J | Kind::Text) | None =>
            false,
    }
}

// The reference to a forwarded object's copy, for one to the space.
fn repaired_word(space: &VolatileSpace, kind: Option<Kind>, word: u64) -> u64
    requires space { is_reference kind ≡ true → word % 2 ≡ 1 → word / 2 < length space.now.words }
    requires few { length space.now.words < 4294967296 }
    ensures { result ≡ repaired (slice_index space.now.words) (is_reference kind) word }
{
    if !is_reference(kind) {
        return word;
    }
    if word % 2 == 0 {
        return word;
    }
    2 * (space.word((word / 2) as u32) / LINE)
}

// What a line counts in the word of a state.
const LINE: u64 = 4_294_967_296;

// Repairs these words of line c of a copy.
fn repair_words<I: Image>(
    space: &VolatileSpace,
    memory: &mut LineMemory<I>,
    marks: &Marks,
    shape: u32,
    line: u32,
    c: u32,
    from: u8,
    to: u8,
)
    requires resident { IsResident memory.old line }
    requires words { (from ≤ to) × (to ≤ 8) × (0 < 8 * c + from) × (8 * c + 8 < 4294967296) }
    requires shape { shape < length marks.now.kinds }
    requires few { length space.now.words < 4294967296 }
    requires space { (w : ℕ) → from ≤ w → w < to
        → is_reference (kind_in_line marks.now.kinds shape c w) ≡ true → shown memory.old line w % 2 ≡ 1
        → shown memory.old line w / 2 < length space.now.words }
    ensures filled { IsFilled line from to
        (λ w. repaired (slice_index space.now.words) (is_reference (kind_in_line marks.now.kinds shape c w))
        (shown memory.old line w)) memory.old memory.new }
{
    for word in from..to {
        let kind = marks.kind(shape, 8 * c + u32::from(word) - 1);
        let old = memory.load(Spot { line, word });
        store_word(memory, line, word, repaired_word(space, kind, old));
    }
}
