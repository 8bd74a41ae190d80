// By which rule a store goes on.
ghost use Rattle.std.specs.Prelude.{◌≡◌, ◌↔◌, ◌<◌, ◌≤◌, ℕ, true, false, List, IfSome, IsNone, IsTrue, Some};
ghost use Rattle.ap_base.specs.declared.reference.Ref.{Ref as Reference};
ghost use Rattle.object_steps.specs.Stores.{CanStore, place_of};
ghost use Rattle.image_layout.specs.Places.{object_word};
ghost use Rattle.twin_forms.specs.Sights.{sight};
ghost use Rattle.twin_forms.specs.Table.{Entry, Lies};
ghost use Rattle.machine_forms.specs.Passed.{shown_of};
ghost use Rattle.machine_forms.specs.Passed.{IsItem, IsWhole, Stands};
ghost use Rattle.store_barrier.specs.Barriers.{ConvertsFirst, HoldsDurable, IfConverts, IfFollows, IfLogs, IfNoRace, IfRaces};
ghost use Rattle.store_barrier.specs.Barriers.{IfStores, IsSpotOf, IsVolatile, MayFollow, spaces_of};
ghost use Rattle.store_barrier.specs.Regions.{GoesFor, HasLogged, HasWord, IsApart, IsLineLeft, IsOtherGuard, LacksWord};
ghost use Rattle.store_barrier.specs.Regions.{LogsFirst, Races};

use ap_base::{Item, Ref, Spot, ThreadNo};
use image_layout::slot_spot;
use line_image::Image;
use machine_forms::{Static, TwoSpaces};
use object_steps::{Store, Target};
use region_logs::Logs;
use twin_heap::TwinHeap;

/// By which rule a store goes on.
#[derive(Clone, Copy)]
pub enum Barrier {
    /// Its place is durable, and the open region of this other thread has guarded it.
    Race(ThreadNo),
    /// This object, which it stores, isn't durable, and is to be converted first.
    ConvertFirst(Ref),
    /// Its place is durable and lies in this word of the image, and the thread's region is open: nobody
    /// has guarded the word, which is to be guarded and logged first, or an entry is under way in the
    /// thread's log, which is to be logged first.
    LogFirst(Spot),
    /// It is to be made. Where its place is durable and the thread has no region open, this is the
    /// line of the image that it changes, which is to be written back next.
    Store(Option<u32>),
}

// The object to which an item refers, if it isn't durable.
fn volatile_object<I: Image>(heap: &TwinHeap<I>, item: Item) -> Option<Ref>
    requires known { (es : List Entry)
        × Lies (sight heap.now.space heap.now.memory heap.now.marks) es × IsItem es item }
    ensures some { (es : List Entry) → Lies (sight heap.now.space heap.now.memory heap.now.marks) es
        → IsItem es item → IfSome result (IsVolatile es item) }
    ensures none { (es : List Entry) → Lies (sight heap.now.space heap.now.memory heap.now.marks) es
        → IsNone result → (object : Reference) → ¬ IsVolatile es item object }
{
    let Item::Ref(object) = item else {
        return None;
    };
    match object {
        Ref::Null => None,
        _ => {
            if heap.in_p(object) {
                None
            } else {
                Some(object)
            }
        }
    }
}

// Whether what the place of a store refers to is to be durable. Lines are copied in their order, so
// an object of which one has been copied has its first one copied.
fn holds_durable<I: Image>(spaces: &TwoSpaces<I>, store: &Store) -> bool
    requires whole { IsWhole (spaces_of spaces.now) }
    requires can { CanStore (shown_of (spaces_of spaces.now)) store.now }
    ensures { (es : List Entry) → Stands (spaces_of spaces.now) es
        → IsTrue result ↔ HoldsDurable (spaces_of spaces.now) es (place_of store.now.target) }
{
    match store.target {
        Target::Static(field) => matches!(spaces.statics[field as usize], Static::Root(_)),
        Target::Slot { holder, .. } => spaces.heap.copied_line(holder, 0).is_some(),
    }
}

// The object that a store stores, if that is to be converted first.
fn converted_first<I: Image>(spaces: &TwoSpaces<I>, store: &Store) -> Option<Ref>
    requires whole { IsWhole (spaces_of spaces.now) }
    requires can { CanStore (shown_of (spaces_of spaces.now)) store.now }
    ensures some { (es : List Entry) → Stands (spaces_of spaces.now) es
        → IfSome result (ConvertsFirst (spaces_of spaces.now) es store.now) }
    ensures none { IsNone result → MayFollow (spaces_of spaces.now) store.now }
{
    if let Some(object) = volatile_object(&spaces.heap, store.kept) {
        if holds_durable(spaces, store) {
            return Some(object);
        }
    }
    None
}

// The word of a slot in this line, its line of a copy.
fn slot_in(line: Option<u32>, index: u32) -> Option<Spot>
    ensures some { IfSome result (λ spot. (line ≡ Some spot.line) × (spot.word ≡ object_word index)) }
    ensures none { IsNone result → IsNone line }
{
    let word = ((u64::from(index) + 1) % 8) as u8;
    match line {
        Some(line) => Some(Spot { line, word }),
        None => None,
    }
}

// The word of the image in which the place of a store lies, if the place is durable.
fn durable_spot<I: Image>(spaces: &TwoSpaces<I>, store: &Store) -> Option<Spot>
    requires whole { IsWhole (spaces_of spaces.now) }
    requires can { CanStore (shown_of (spaces_of spaces.now)) store.now }
    requires long { 33 ≤ (spaces_of spaces.now).twin.memory.size }
    ensures spot { (es : List Entry) → Stands (spaces_of spaces.now) es
        → IsSpotOf (spaces_of spaces.now) es (place_of store.now.target) result }
    ensures inside { IfSome result (λ spot. spot.line < (spaces_of spaces.now).twin.memory.size) }
{
    match store.target {
        Target::Static(field) => match spaces.statics[field as usize] {
            Static::Beside(_) => None,
            Static::Root(slot) => slot_spot(slot),
        },
        Target::Slot { holder, index, .. } => {
            if spaces.heap.in_p(holder) {
                slot_in(spaces.heap.copied_line(holder, index), index)
            } else {
                None
            }
        }
    }
}

// The other thread whose open region has guarded a word.
fn other_guard(t: ThreadNo, logs: &Logs, spot: Option<Spot>) -> Option<ThreadNo>
    requires inside { IfSome spot (λ x. x.line < logs.now.lines) }
    ensures some { IfSome result (λ other. IsOtherGuard logs.now.logs t spot other) }
    ensures none { IsNone result → (other : ℕ) → ¬ IsOtherGuard logs.now.logs t spot other }
{
    let Some(spot) = spot else {
        return None;
    };
    logs.stand_apart();
    let Some(other) = logs.guard_of(spot) else {
        return None;
    };
    if other.number() == t.number() {
        return None;
    }
    Some(other)
}

// Whether nobody has guarded a word, or the thread's log has an entry under way.
fn lacks_word(t: ThreadNo, logs: &Logs, spot: Spot) -> bool
    requires inside { spot.line < logs.now.lines }
    ensures lacks { result ≡ true → LacksWord logs.now.logs t spot }
    ensures has { result ≡ false → HasWord logs.now.logs t spot }
{
    if logs.adding(t).is_some() {
        return true;
    }
    logs.guard_of(spot).is_none()
}

// How a store goes on which is no race, and before which nothing is to be converted.
fn log_or_store(t: ThreadNo, logs: &Logs, spot: Option<Spot>) -> Barrier
    requires inside { IfSome spot (λ x. x.line < logs.now.lines) }
    ensures goes { GoesFor logs.now.logs t spot result }
{
    let Some(spot) = spot else {
        return Barrier::Store(None);
    };
    if logs.depth(t) == 0 {
        return Barrier::Store(Some(spot.line));
    }
    if lacks_word(t, logs, spot) {
        return Barrier::LogFirst(spot);
    }
    Barrier::Store(None)
}

/// By which rule a store of a thread goes on that can be made: the first that applies. It is a race
/// where another thread's open region has guarded the place. Else an object is to be converted first
/// exactly where the holder is a durable root, is durable, or has had a line copied, and the item
/// refers to an object that isn't durable. Else a durable place is to be logged first in a region whose
/// log lacks it, or has an entry under way.
pub fn ask_store<I: Image>(
    t: ThreadNo,
    spaces: &TwoSpaces<I>,
    logs: &Logs,
    store: &Store,
) -> Barrier
    requires whole { IsWhole (spaces_of spaces.now) }
    requires can { CanStore (shown_of (spaces_of spaces.now)) store.now }
    requires long { 33 ≤ (spaces_of spaces.now).twin.memory.size }
    requires lines { (spaces_of spaces.now).twin.memory.size ≤ logs.now.lines }
    ensures race { (es : List Entry) → Stands (spaces_of spaces.now) es → IfRaces result
        (Races (spaces_of spaces.now) es logs.now.logs t (place_of store.now.target)) }
    ensures apart { IfNoRace result
        (IsApart (spaces_of spaces.now) logs.now.logs t (place_of store.now.target)) }
    ensures convert { (es : List Entry) → Stands (spaces_of spaces.now) es
        → IfConverts result (ConvertsFirst (spaces_of spaces.now) es store.now) }
    ensures follows { IfFollows result (MayFollow (spaces_of spaces.now) store.now) }
    ensures log { (es : List Entry) → Stands (spaces_of spaces.now) es → IfLogs result
        (LogsFirst (spaces_of spaces.now) es logs.now.logs t (place_of store.now.target)) }
    ensures logged { (es : List Entry) → Stands (spaces_of spaces.now) es → IfStores result (λ _.
        HasLogged (spaces_of spaces.now) es logs.now.logs t (place_of store.now.target)) }
    ensures line { (es : List Entry) → Stands (spaces_of spaces.now) es → IfStores result
        (IsLineLeft (spaces_of spaces.now) es logs.now.logs t (place_of store.now.target)) }
{
    let spot = durable_spot(spaces, store);
    if let Some(other) = other_guard(t, logs, spot) {
        return Barrier::Race(other);
    }
    if let Some(object) = converted_first(spaces, store) {
        return Barrier::ConvertFirst(object);
    }
    log_or_store(t, logs, spot)
}
