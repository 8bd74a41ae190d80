// Repairs.
ghost use Rattle.std.specs.Prelude.{◌≡◌, ◌≢◌, ◌+◌, ◌*◌, ◌<◌, ◌≤◌, ℕ, List, IfOk, IfSome, IsNone, OnErr, Some, length};
ghost use Rattle.ap_base.specs.Causes.{HasCause};
ghost use Rattle.line_memory.specs.Memory.{IsResident};
ghost use Rattle.twin_forms.specs.Table.{Entry, entry, Lies, IsRef, Names, IsClaimed};
ghost use Rattle.twin_forms.specs.Sights.{AllKnown, sight};
ghost use Rattle.convert_words.specs.Scenes.{scene, AgreesAt};
ghost use Rattle.convert_words.specs.Converting.{Converts, Fails};
ghost use Rattle.converter.specs.Looking.{IsMoved, LacksNone, Refers};
ghost use Rattle.converter.specs.Stepping.{IsOther};
ghost use Rattle.converter.specs.Working.{IsToRepair};

use crate::next::go_to;
use crate::ready::make_ready;
use crate::slots::{end_slot, first_slot};
use ap_base::{Ref, Spot, ThreadNo, ref_of};
use convert_queue::{Conversions, Phase};
use convert_words::ConvertStep;
use line_image::{Image, ImageFailed};
use twin_heap::TwinHeap;

/// The thread that has claimed the object to which a word refers, and hasn't forwarded it, if there
/// is one.
fn behind<I: Image>(heap: &TwinHeap<I>, word: u64) -> Option<ThreadNo>
    requires reference { (es : List Entry) × Lies
        (sight heap.now.space heap.now.memory heap.now.marks) es × IsRef es word }
    ensures some { IfSome result (λ u. (word ≢ 0) × ((es : List Entry) (m : ℕ)
        → Lies (sight heap.now.space heap.now.memory heap.now.marks) es
        → m < length es → Names (entry es m) word → IsClaimed es u m × ((entry es m).stage < 2))) }
    ensures none { IsNone result → (es : List Entry) (m : ℕ)
        → Lies (sight heap.now.space heap.now.memory heap.now.marks) es
        → m < length es → Names (entry es m) word → (entry es m).stage ≢ 1 }
{
    if word % 2 == 0 {
        return None;
    }
    let Some(r) = ref_of(word) else {
        return None;
    };
    match heap.resolved(r) {
        Ref::Volatile(_) => heap.claimed_by(r),
        Ref::Persistent(_) | Ref::Null => None,
    }
}

// Whom slot k of an object lacks, whose word stands in this resident line.
fn behind_at<I: Image>(heap: &TwinHeap<I>, object: u32, line: u32, k: u32) -> Option<ThreadNo>
    requires object { (es : List Entry) × (n : ℕ)
        × IsMoved (sight heap.now.space heap.now.memory heap.now.marks) object line k es n }
    requires resident { IsResident heap.now.memory line }
    ensures some { IfSome result (λ u. (es : List Entry) (n : ℕ)
        → IsMoved (sight heap.now.space heap.now.memory heap.now.marks) object line k es n
        → (m : ℕ) × Refers (sight heap.now.space heap.now.memory heap.now.marks) es n k m
        × IsClaimed es u m × ((entry es m).stage < 2)) }
    ensures none { IsNone result → (es : List Entry) (n m : ℕ)
        → IsMoved (sight heap.now.space heap.now.memory heap.now.marks) object line k es n
        → Refers (sight heap.now.space heap.now.memory heap.now.marks) es n k m
        → (entry es m).stage ≢ 1 }
{
    if !heap.refers_at(object, k) {
        return None;
    }
    let word = ((u64::from(k) + 1) % 8) as u8;
    behind(heap, heap.memory.load(Spot { line, word }))
}

/// The first thread that these slots of a resident line lack.
fn find_behind<I: Image>(
    heap: &TwinHeap<I>,
    object: u32,
    line: u32,
    from: u32,
    to: u32,
) -> Option<ThreadNo>
    requires object { (es : List Entry) × (n : ℕ) × ((k : ℕ) → from ≤ k → k < to
        → IsMoved (sight heap.now.space heap.now.memory heap.now.marks) object line k es n) }
    requires resident { IsResident heap.now.memory line }
    ensures some { IfSome result (λ u. (k : ℕ) × (from ≤ k) × (k < to) × ((es : List Entry) (n : ℕ)
        → IsMoved (sight heap.now.space heap.now.memory heap.now.marks) object line k es n
        → (m : ℕ) × Refers (sight heap.now.space heap.now.memory heap.now.marks) es n k m
        × IsClaimed es u m × ((entry es m).stage < 2))) }
    ensures none { IsNone result → (k : ℕ) → from ≤ k → k < to → (es : List Entry) (n m : ℕ)
        → IsMoved (sight heap.now.space heap.now.memory heap.now.marks) object line k es n
        → Refers (sight heap.now.space heap.now.memory heap.now.marks) es n k m
        → (entry es m).stage ≢ 1 }
{
    for k in from..to {
        if let Some(u) = behind_at(heap, object, line, k) {
            return Some(u);
        }
    }
    None
}

// Repairs a resident line that lacks nobody, tells the queue of the store, and lets the place go
// on.
fn repair_resident<I: Image>(
    t: ThreadNo,
    heap: &mut TwinHeap<I>,
    queue: &mut Conversions,
    object: u32,
    first: u32,
    c: u32,
)
    requires agrees { (free : ℕ) × (keys : List ℕ) × (es : List Entry)
        × AgreesAt (scene heap.old.space heap.old.memory heap.old.marks queue.old free keys) es
        × IsToRepair (scene heap.old.space heap.old.memory heap.old.marks queue.old free keys) es t object first c
        × LacksNone (sight heap.old.space heap.old.memory heap.old.marks) object c es }
    requires resident { IsResident heap.old.memory (first + c) }
    requires known { AllKnown heap.old.memory }
    ensures converts { (free : ℕ) (keys : List ℕ) (es : List Entry)
        → AgreesAt (scene heap.old.space heap.old.memory heap.old.marks queue.old free keys) es
        → IsToRepair (scene heap.old.space heap.old.memory heap.old.marks queue.old free keys) es t object first c
        → LacksNone (sight heap.old.space heap.old.memory heap.old.marks) object c es
        → Converts t ConvertStep.Repaired
        (scene heap.old.space heap.old.memory heap.old.marks queue.old free keys)
        (scene heap.new.space heap.new.memory heap.new.marks queue.new free keys) es es }
    ensures known { AllKnown heap.new.memory }
    ensures faults { heap.new.memory.faults ≡ heap.old.memory.faults }
{
    heap.repair_line(object, c);
    queue.dirty(t, first + c);
    let (n, _) = queue.place(t);
    go_to(queue, t, Phase::Repair, n, c + 1);
}

/// The next step where line c of an object is to be repaired: it is, or it waits for a thread.
pub fn repair_next<I: Image>(
    t: ThreadNo,
    heap: &mut TwinHeap<I>,
    queue: &mut Conversions,
    object: u32,
    first: u32,
    c: u32,
) -> Result<ConvertStep, ImageFailed>
    requires agrees { (free : ℕ) × (keys : List ℕ) × (es : List Entry)
        × AgreesAt (scene heap.old.space heap.old.memory heap.old.marks queue.old free keys) es
        × IsToRepair (scene heap.old.space heap.old.memory heap.old.marks queue.old free keys) es t object first c }
    requires known { AllKnown heap.old.memory }
    ensures converts { IfOk result (λ step. (free : ℕ) (keys : List ℕ) (es : List Entry)
        → AgreesAt (scene heap.old.space heap.old.memory heap.old.marks queue.old free keys) es
        → IsToRepair (scene heap.old.space heap.old.memory heap.old.marks queue.old free keys) es t object first c
        → Converts t step
        (scene heap.old.space heap.old.memory heap.old.marks queue.old free keys)
        (scene heap.new.space heap.new.memory heap.new.marks queue.new free keys) es es) }
    ensures failed { OnErr result ((free : ℕ) (keys : List ℕ) (es : List Entry)
        → AgreesAt (scene heap.old.space heap.old.memory heap.old.marks queue.old free keys) es
        → Fails (scene heap.old.space heap.old.memory heap.old.marks queue.old free keys)
        (scene heap.new.space heap.new.memory heap.new.marks queue.new free keys) es) }
    ensures other { IfOk result (λ step. IsOther step) }
    ensures known { AllKnown heap.new.memory }
    ensures cause { HasCause heap.old.memory.faults heap.new.memory.faults result }
{
    if !make_ready(&mut heap.memory, first + c)? {
        return Ok(ConvertStep::Touched);
    }
    let slots = heap.slots_at(object);
    let from = first_slot(c, slots);
    let to = end_slot(c, slots);
    if let Some(u) = find_behind(heap, object, first + c, from, to) {
        return Ok(ConvertStep::Wait(u));
    }
    repair_resident(t, heap, queue, object, first, c);
    Ok(ConvertStep::Repaired)
}
