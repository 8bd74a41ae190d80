// What the references of a copied line ask of the thread that has claimed its object.
ghost use Rattle.std.specs.Prelude.{◌≡◌, ◌≢◌, ◌⊎◌, ◌+◌, ◌<◌, ◌≤◌, ◌^◌, ℕ, List, IfSome, IsNone, length, true};
ghost use Rattle.ap_base.specs.References.{IsReference, reference_word};
ghost use Rattle.ap_base.specs.declared.reference.Ref.TheVariants.{Volatile};
ghost use Rattle.twin_forms.specs.Table.{Entry, entry, Lies, Names, Leads, InP, IsClaimed, IsRef};
ghost use Rattle.twin_forms.specs.Sights.{sight};
ghost use Rattle.convert_queue.specs.Threads.{needs_of};
ghost use Rattle.convert_words.specs.Agreeing.{Met};
ghost use Rattle.converter.specs.Looking.{Asks, AsksFirst, IsOld, IsTaken, Refers};

use ap_base::{Ref, ThreadNo, ref_of};
use convert_queue::Conversions;
use line_image::Image;
use twin_heap::TwinHeap;

/// What a reference asks of a thread.
#[derive(Clone, Copy)]
pub enum Asked {
    /// nothing: null, a durable object, or one of the thread's own
    Nothing,
    /// to claim the ordinary object at this index
    ToClaim(u32),
    /// to need the thread that has claimed the object
    ToNeed(ThreadNo),
}

/// What a reference asks of thread t.
fn asked_by<I: Image>(t: ThreadNo, heap: &TwinHeap<I>, r: Ref) -> Asked
    requires object { Leads (sight heap.now.space heap.now.memory heap.now.marks)
        (reference_word r) }
    ensures asks { (es : List Entry) (m : ℕ) → Lies
        (sight heap.now.space heap.now.memory heap.now.marks) es
        → m < length es → Names (entry es m) (reference_word r) → Asks result t es m }
{
    match heap.claimed_by(r) {
        Some(u) => by_claimer(t, u),
        None => if_free(heap.in_p(r), r),
    }
}

// Whom an object asks to need that thread u has claimed.
fn by_claimer(t: ThreadNo, u: ThreadNo) -> Asked
    ensures own { u ≡ t → result ≡ Asked.Nothing }
    ensures other { u ≢ t → result ≡ Asked.ToNeed u }
{
    if u.number() == t.number() {
        Asked::Nothing
    } else {
        Asked::ToNeed(u)
    }
}

// What an object asks that nobody has claimed.
fn if_free(durable: bool, r: Ref) -> Asked
    ensures nothing { durable ≡ true → result ≡ Asked.Nothing }
    ensures claim { (at : ℕ) → durable ≢ true → r ≡ Volatile at → result ≡ Asked.ToClaim at }
{
    if durable {
        return Asked::Nothing;
    }
    match r {
        Ref::Volatile(at) => Asked::ToClaim(at),
        Ref::Persistent(_) | Ref::Null => Asked::Nothing,
    }
}

/// What the reference asks that has this word.
fn asked_of_word<I: Image>(t: ThreadNo, heap: &TwinHeap<I>, word: u64) -> Asked
    requires reference { (es : List Entry) × Lies
        (sight heap.now.space heap.now.memory heap.now.marks) es × IsRef es word }
    ensures asks { (es : List Entry) (m : ℕ) → Lies
        (sight heap.now.space heap.now.memory heap.now.marks) es
        → m < length es → Names (entry es m) word → Asks result t es m }
    ensures some { result ≢ Asked.Nothing → word ≢ 0 }
{
    if word == 0 {
        return Asked::Nothing;
    }
    let Some(r) = ref_of(word) else {
        return Asked::Nothing;
    };
    asked_by(t, heap, r)
}

/// What slot k of an object asks of thread t.
fn asked_at<I: Image>(t: ThreadNo, heap: &TwinHeap<I>, object: u32, k: u32) -> Asked
    requires object { (es : List Entry) × (n : ℕ)
        × IsOld (sight heap.now.space heap.now.memory heap.now.marks) object (k + 1) es n }
    ensures asks { (es : List Entry) (n m : ℕ)
        → IsOld (sight heap.now.space heap.now.memory heap.now.marks) object (k + 1) es n
        → Refers (sight heap.now.space heap.now.memory heap.now.marks) es n k m
        → Asks result t es m }
    ensures some { result ≢ Asked.Nothing → (es : List Entry) (n : ℕ)
        → IsOld (sight heap.now.space heap.now.memory heap.now.marks) object (k + 1) es n
        → (m : ℕ) × Refers (sight heap.now.space heap.now.memory heap.now.marks) es n k m }
{
    if heap.refers_at(object, k) {
        asked_of_word(t, heap, heap.space.word(object + 3 + k))
    } else {
        Asked::Nothing
    }
}

/// The first object that these slots ask thread t to claim.
pub fn find_claim<I: Image>(
    t: ThreadNo,
    heap: &TwinHeap<I>,
    object: u32,
    from: u32,
    to: u32,
) -> Option<u32>
    requires object { (es : List Entry) × (n : ℕ)
        × IsOld (sight heap.now.space heap.now.memory heap.now.marks) object to es n }
    ensures some { IfSome result (λ at. (es : List Entry) (n : ℕ)
        → IsOld (sight heap.now.space heap.now.memory heap.now.marks) object to es n
        → AsksFirst (sight heap.now.space heap.now.memory heap.now.marks) t from to at es n) }
    ensures none { IsNone result → (es : List Entry) (n k m : ℕ)
        → IsOld (sight heap.now.space heap.now.memory heap.now.marks) object to es n → from ≤ k
        → k < to
        → Refers (sight heap.now.space heap.now.memory heap.now.marks) es n k m → IsTaken es m }
{
    for k in from..to {
        if let Asked::ToClaim(at) = asked_at(t, heap, object, k) {
            return Some(at);
        }
    }
    None
}

// Notes that thread t needs whom a reference asks it to need.
fn note(queue: &mut Conversions, t: ThreadNo, asked: Asked)
    ensures kept { (a b : ℕ) → needs_of queue.old.needs a b ≡ true
        → needs_of queue.new.needs a b ≡ true }
    ensures met { (a b : ℕ) → needs_of queue.new.needs a b ≡ true
        → (needs_of queue.old.needs a b ≡ true) ⊎ ((a ≡ t) × (asked ≡ Asked.ToNeed b)) }
    ensures here { (u : ℕ) → asked ≡ Asked.ToNeed u → needs_of queue.new.needs t u ≡ true }
    ensures long { length queue.new.needs ≡ length queue.old.needs }
    ensures same { queue.new ≡ record queue.old { needs = queue.new.needs } }
{
    match asked {
        Asked::ToNeed(u) => queue.needs(t, u),
        Asked::Nothing | Asked::ToClaim(_) => {}
    }
}

/// Notes whom thread t needs for these slots: exactly the threads that have claimed what the slots
/// refer to.
pub fn note_needs<I: Image>(
    t: ThreadNo,
    heap: &TwinHeap<I>,
    queue: &mut Conversions,
    object: u32,
    from: u32,
    to: u32,
)
    requires object { (es : List Entry) × (n : ℕ)
        × IsOld (sight heap.now.space heap.now.memory heap.now.marks) object to es n }
    ensures kept { (a b : ℕ) → needs_of queue.old.needs a b ≡ true
        → needs_of queue.new.needs a b ≡ true }
    ensures met { (a b : ℕ) → needs_of queue.new.needs a b ≡ true
        → (needs_of queue.old.needs a b ≡ true)
        ⊎ ((a ≡ t) × (b ≢ t) × ((es : List Entry) (n : ℕ)
        → IsOld (sight heap.now.space heap.now.memory heap.now.marks) object to es n
        → (k m : ℕ) × (from ≤ k) × (k < to)
        × Refers (sight heap.now.space heap.now.memory heap.now.marks) es n k m
        × IsClaimed es b m)) }
    ensures all { (es : List Entry) (n k m : ℕ)
        → IsOld (sight heap.now.space heap.now.memory heap.now.marks) object to es n → from ≤ k
        → k < to
        → Refers (sight heap.now.space heap.now.memory heap.now.marks) es n k m → IsTaken es m
        → Met es (needs_of queue.new.needs) t m }
    ensures long { length queue.new.needs ≡ length queue.old.needs }
    ensures same { queue.new ≡ record queue.old { needs = queue.new.needs } }
{
    for k in from..to {
        let asked = asked_at(t, heap, object, k);
        note(queue, t, asked);
    }
}
