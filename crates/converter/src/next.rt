// How a thread's phase and place go on, past what is done.
ghost use Rattle.std.specs.Prelude.{◌≡◌, ◌≢◌, ◌<◌, ◌≤◌, ◌+◌, ℕ, List, IfSome, IsSome, IsNone, slice_set};
ghost use Rattle.twin_forms.specs.Table.{Entry, entry, lines_of};
ghost use Rattle.twin_forms.specs.Sights.{sight};
ghost use Rattle.convert_queue.specs.Queues.{phase_of, place_of};
ghost use Rattle.convert_words.specs.Agreeing.{Is};
ghost use Rattle.convert_words.specs.Scenes.{scene, AgreesAt};
ghost use Rattle.convert_words.specs.Steps.{GoesTo};
ghost use Rattle.convert_words.specs.Converting.{GoesOn};
ghost use Rattle.converter.specs.Working.{Going, Working, SomeScene, IsAtObject, IsFilling, IsLooking, IsNextOf, IsToClaim};
ghost use Rattle.converter.specs.Working.{IsWork};

use crate::looks::{find_claim, note_needs};
use crate::slots::{count_of, end_slot, first_slot};
use crate::work::Work;
use ap_base::ThreadNo;
use convert_queue::{Conversions, Phase};
use line_image::Image;
use twin_heap::TwinHeap;

/// Sets phase and place of a thread.
pub fn go_to(queue: &mut Conversions, t: ThreadNo, phase: Phase, n: u32, line: u32)
    ensures goes { GoesTo t phase n line queue.old queue.new }
    ensures whole { queue.new ≡ record queue.old {
      places = slice_set queue.old.places t (n, line);
      phases = slice_set queue.old.phases t phase;
    } }
{
    // the proof reads here that the number is below 64, and that there are so many phases and
    // places
    let _number = t.number();
    let _phase = queue.phase(t);
    queue.set_phase(t, phase);
    queue.set_place(t, n, line);
}

// In phase Repair the place goes on behind an object whose lines are all repaired.
fn pass_object<I: Image>(t: ThreadNo, heap: &TwinHeap<I>, queue: &mut Conversions)
    requires agrees { SomeScene heap.now.space heap.now.memory heap.now.marks queue.old }
    requires phase { phase_of queue.old t ≡ Phase.Repair }
    ensures goes_on { Going t heap.now.space heap.now.memory heap.now.marks queue.old queue.new }
    ensures phase { phase_of queue.new t ≡ Phase.Repair }
    ensures within { (free : ℕ) (keys : List ℕ) (es : List Entry) (n : ℕ)
        → AgreesAt (scene heap.now.space heap.now.memory heap.now.marks queue.old free keys) es
        → Is queue.new es t (place_of queue.new t).0 n
        → (place_of queue.new t).1 < lines_of (entry es n) }
{
    let (n, line) = queue.place(t);
    let Some(item) = queue.queued(t, n) else {
        return;
    };
    let count = count_of(heap.slots_at(item.0));
    if line < count {
        return;
    }
    go_to(queue, t, Phase::Repair, n + 1, 0);
}

// The line at the place in phase Repair. Where all are repaired, the flush begins.
fn repair_or_flush<I: Image>(t: ThreadNo, heap: &TwinHeap<I>, queue: &mut Conversions) -> Work
    requires phase { phase_of queue.old t ≡ Phase.Repair }
    ensures goes_on { Going t heap.now.space heap.now.memory heap.now.marks queue.old queue.new }
    ensures work { (free : ℕ) (keys : List ℕ) (es : List Entry)
        → AgreesAt (scene heap.now.space heap.now.memory heap.now.marks queue.old free keys) es
        → ((n : ℕ) → Is queue.old es t (place_of queue.old t).0 n
        → (place_of queue.old t).1 < lines_of (entry es n))
        → IsWork result t (scene heap.now.space heap.now.memory heap.now.marks queue.new free keys)
        es }
    ensures other { (at : ℕ) → result ≢ Work.Claim at }
{
    let (n, line) = queue.place(t);
    match queue.queued(t, n) {
        Some(item) => Work::Repair(item.0, item.1, line),
        None => {
            go_to(queue, t, Phase::Flush, 0, 0);
            Work::Flush
        }
    }
}

// What is done with an object of which so many lines are copied, and whose references are met.
fn line_or_forward<I: Image>(heap: &TwinHeap<I>, object: u32, first: u32, copied: u32) -> Work
    requires object { (es : List Entry) × (n : ℕ)
        × IsFilling (sight heap.now.space heap.now.memory heap.now.marks) object first copied es n }
    ensures work { (es : List Entry) (n : ℕ)
        → IsFilling (sight heap.now.space heap.now.memory heap.now.marks) object first copied es n
        → IsNextOf result object first copied (entry es n).slots }
    ensures other { (at : ℕ) → result ≢ Work.Claim at }
{
    let count = count_of(heap.slots_at(object));
    if copied < count {
        return Work::Copy(object, first + copied);
    }
    Work::Forward(object, first)
}

// In phase Copy: the first object to claim for the copied line at the place. Where there is none,
// the place goes on to
// the next line, and whom the thread needs is noted.
fn pass_line<I: Image>(
    t: ThreadNo,
    heap: &TwinHeap<I>,
    queue: &mut Conversions,
    object: u32,
    copied: u32,
) -> Option<u32>
    requires agrees { (free : ℕ) × (keys : List ℕ) × (es : List Entry) × (n : ℕ)
        × AgreesAt (scene heap.now.space heap.now.memory heap.now.marks queue.old free keys) es
        × IsLooking (scene heap.now.space heap.now.memory heap.now.marks queue.old free keys) es t object copied n }
    ensures same { IsSome result → queue.new ≡ queue.old }
    ensures claim { IfSome result (λ at. (free : ℕ) (keys : List ℕ) (es : List Entry) (n : ℕ)
        → AgreesAt (scene heap.now.space heap.now.memory heap.now.marks queue.old free keys) es
        → IsLooking (scene heap.now.space heap.now.memory heap.now.marks queue.old free keys) es t object copied n
        → IsToClaim (scene heap.now.space heap.now.memory heap.now.marks queue.old free keys) es t at) }
    ensures goes_on { (free : ℕ) (keys : List ℕ) (es : List Entry) (n : ℕ)
        → AgreesAt (scene heap.now.space heap.now.memory heap.now.marks queue.old free keys) es
        → IsLooking (scene heap.now.space heap.now.memory heap.now.marks queue.old free keys) es t object copied n
        → GoesOn t (scene heap.now.space heap.now.memory heap.now.marks queue.old free keys)
        (scene heap.now.space heap.now.memory heap.now.marks queue.new free keys) es }
    ensures phase { phase_of queue.new t ≡ Phase.Copy }
    ensures place { IsNone result → ((place_of queue.new t).0 ≡ (place_of queue.old t).0)
        × ((place_of queue.new t).1 ≡ copied) }
    ensures queues { queue.new.queues ≡ queue.old.queues }
{
    let (n, line) = queue.place(t);
    let slots = heap.slots_at(object);
    let from = first_slot(line, slots);
    let to = end_slot(line, slots);
    if let Some(at) = find_claim(t, heap, object, from, to) {
        return Some(at);
    }
    note_needs(t, heap, queue, object, from, to);
    go_to(queue, t, Phase::Copy, n, copied);
    None
}

// What is done in phase Copy with the object at the place.
fn copy_work<I: Image>(
    t: ThreadNo,
    heap: &TwinHeap<I>,
    queue: &mut Conversions,
    object: u32,
    first: u32,
) -> Work
    requires agrees { (free : ℕ) × (keys : List ℕ) × (es : List Entry) × (n : ℕ)
        × AgreesAt (scene heap.now.space heap.now.memory heap.now.marks queue.old free keys) es
        × IsAtObject (scene heap.now.space heap.now.memory heap.now.marks queue.old free keys) es t object first n }
    ensures goes_on { (free : ℕ) (keys : List ℕ) (es : List Entry) (n : ℕ)
        → AgreesAt (scene heap.now.space heap.now.memory heap.now.marks queue.old free keys) es
        → IsAtObject (scene heap.now.space heap.now.memory heap.now.marks queue.old free keys) es t object first n
        → GoesOn t (scene heap.now.space heap.now.memory heap.now.marks queue.old free keys)
        (scene heap.now.space heap.now.memory heap.now.marks queue.new free keys) es }
    ensures work { (free : ℕ) (keys : List ℕ) (es : List Entry) (n : ℕ)
        → AgreesAt (scene heap.now.space heap.now.memory heap.now.marks queue.old free keys) es
        → IsAtObject (scene heap.now.space heap.now.memory heap.now.marks queue.old free keys) es t object first n
        → IsWork result t (scene heap.now.space heap.now.memory heap.now.marks queue.new free keys)
        es }
    ensures claim { (at : ℕ) → result ≡ Work.Claim at → queue.new ≡ queue.old }
{
    let (_, line) = queue.place(t);
    let copied = heap.lines_copied(object);
    if copied == line {
        return line_or_forward(heap, object, first, copied);
    }
    match pass_line(t, heap, queue, object, copied) {
        Some(at) => Work::Claim(at),
        None => line_or_forward(heap, object, first, copied),
    }
}

// The same in phase Repair.
fn in_repair<I: Image>(t: ThreadNo, heap: &TwinHeap<I>, queue: &mut Conversions) -> Work
    requires agrees { SomeScene heap.now.space heap.now.memory heap.now.marks queue.old }
    requires phase { phase_of queue.old t ≡ Phase.Repair }
    ensures goes_on { Going t heap.now.space heap.now.memory heap.now.marks queue.old queue.new }
    ensures work { Working result t heap.now.space heap.now.memory heap.now.marks queue.old queue.new }
    ensures other { (at : ℕ) → result ≢ Work.Claim at }
{
    pass_object(t, heap, queue);
    repair_or_flush(t, heap, queue)
}

// The same in phase Copy.
fn in_copy<I: Image>(t: ThreadNo, heap: &TwinHeap<I>, queue: &mut Conversions) -> Work
    requires agrees { SomeScene heap.now.space heap.now.memory heap.now.marks queue.old }
    requires phase { phase_of queue.old t ≡ Phase.Copy }
    ensures goes_on { Going t heap.now.space heap.now.memory heap.now.marks queue.old queue.new }
    ensures work { Working result t heap.now.space heap.now.memory heap.now.marks queue.old queue.new }
    ensures claim { (at : ℕ) → result ≡ Work.Claim at → queue.new ≡ queue.old }
{
    let (n, _) = queue.place(t);
    if let Some(item) = queue.queued(t, n) {
        return copy_work(t, heap, queue, item.0, item.1);
    }
    go_to(queue, t, Phase::Repair, 0, 0);
    in_repair(t, heap, queue)
}

/// Lets the thread's phase and place go on, past what is done, and answers what its next step has
/// to do.
pub fn next_work<I: Image>(t: ThreadNo, heap: &TwinHeap<I>, queue: &mut Conversions) -> Work
    requires agrees { SomeScene heap.now.space heap.now.memory heap.now.marks queue.old }
    ensures goes_on { Going t heap.now.space heap.now.memory heap.now.marks queue.old queue.new }
    ensures work { Working result t heap.now.space heap.now.memory heap.now.marks queue.old queue.new }
    ensures claim { (at : ℕ) → result ≡ Work.Claim at → queue.new ≡ queue.old }
{
    match queue.phase(t) {
        Phase::Copy => in_copy(t, heap, queue),
        Phase::Repair => in_repair(t, heap, queue),
        Phase::Flush => Work::Flush,
    }
}
