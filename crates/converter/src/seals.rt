// Seals.
ghost use Rattle.std.specs.Prelude.{◌≡◌, ◌+◌, ◌<◌, ◌^◌, ℕ, List, true};
ghost use Rattle.monitors.specs.declared.monitor.Monitor.{Monitor};
ghost use Rattle.twin_forms.specs.Table.{Entry, View};
ghost use Rattle.twin_forms.specs.Sights.{sight};
ghost use Rattle.convert_queue.specs.Marks.{IsClean};
ghost use Rattle.convert_queue.specs.Queues.{AllSettled, phase_of};
ghost use Rattle.convert_queue.specs.Threads.{has, IsGroupOf};
ghost use Rattle.convert_words.specs.Scenes.{scene, AgreesAt};
ghost use Rattle.convert_words.specs.Converting.{Converts};
ghost use Rattle.converter.specs.Sealing.{AreSealedTo};
ghost use Rattle.converter.specs.Stepping.{Event, IsOther};
ghost use Rattle.converter.specs.Working.{SomeScene};

use ap_base::ThreadNo;
use convert_queue::{Conversions, Phase};
use convert_words::ConvertStep;
use line_image::Image;
use twin_heap::TwinHeap;

/// Whether a set of threads has this one.
pub fn is_member(set: u64, t: u8) -> bool
    requires { t < 64 }
    ensures { result ≡ has set t }
{
    (set >> t) & 1 == 1
}

// Seals the objects that a thread of the set has queued.
fn seal_objects<I: Image>(heap: &mut TwinHeap<I>, queue: &Conversions, set: u64, u: ThreadNo)
    requires member { has set u ≡ true }
    requires partly { (v0 : View) × (es0 es : List Entry)
        × AreSealedTo queue.now v0 es0 set u 0 (sight heap.old.space heap.old.memory heap.old.marks)
        es }
    ensures sealed { (v0 : View) (es0 es : List Entry)
        → AreSealedTo queue.now v0 es0 set u 0
        (sight heap.old.space heap.old.memory heap.old.marks) es
        → (es' : List Entry)
        × AreSealedTo queue.now v0 es0 set (u + 1) 0
        (sight heap.new.space heap.new.memory heap.new.marks) es' }
    ensures memory { heap.new.memory ≡ heap.old.memory }
    ensures kinds { heap.new.marks.kinds ≡ heap.old.marks.kinds }
    ensures left { heap.new.space.left ≡ heap.old.space.left }
{
    for i in 0..u32::MAX {
        let Some(item) = queue.queued(u, i) else {
            return;
        };
        heap.seal(item.0);
    }
}

// Seals the objects of a thread, if it is one of the set.
fn seal_thread<I: Image>(heap: &mut TwinHeap<I>, queue: &Conversions, set: u64, u: u8)
    requires thread { u < 64 }
    requires partly { (v0 : View) × (es0 es : List Entry)
        × AreSealedTo queue.now v0 es0 set u 0 (sight heap.old.space heap.old.memory heap.old.marks)
        es }
    ensures sealed { (v0 : View) (es0 es : List Entry)
        → AreSealedTo queue.now v0 es0 set u 0
        (sight heap.old.space heap.old.memory heap.old.marks) es
        → (es' : List Entry)
        × AreSealedTo queue.now v0 es0 set (u + 1) 0
        (sight heap.new.space heap.new.memory heap.new.marks) es' }
    ensures memory { heap.new.memory ≡ heap.old.memory }
    ensures kinds { heap.new.marks.kinds ≡ heap.old.marks.kinds }
    ensures left { heap.new.space.left ≡ heap.old.space.left }
{
    let Some(thread) = ThreadNo::new(u) else {
        return;
    };
    if !is_member(set, u) {
        return;
    }
    seal_objects(heap, queue, set, thread);
}

// Seals the objects of all threads of the set.
fn seal_threads<I: Image>(heap: &mut TwinHeap<I>, queue: &Conversions, set: u64)
    requires partly { (v0 : View) × (es0 es : List Entry)
        × AreSealedTo queue.now v0 es0 set 0 0 (sight heap.old.space heap.old.memory heap.old.marks)
        es }
    ensures sealed { (v0 : View) (es0 es : List Entry)
        → AreSealedTo queue.now v0 es0 set 0 0
        (sight heap.old.space heap.old.memory heap.old.marks) es
        → (es' : List Entry)
        × AreSealedTo queue.now v0 es0 set 64 0
        (sight heap.new.space heap.new.memory heap.new.marks) es' }
    ensures memory { heap.new.memory ≡ heap.old.memory }
    ensures kinds { heap.new.marks.kinds ≡ heap.old.marks.kinds }
    ensures left { heap.new.space.left ≡ heap.old.space.left }
{
    for u in 0..64u8 {
        seal_thread(heap, queue, set, u);
    }
}

/// Seals a group, all of whose members are settled.
fn seal_group<I: Image>(t: ThreadNo, heap: &mut TwinHeap<I>, queue: &mut Conversions, set: u64)
    requires agrees { SomeScene heap.old.space heap.old.memory heap.old.marks queue.old }
    requires group { IsGroupOf queue.old.needs t set }
    requires settled { AllSettled queue.old set }
    ensures converts { (free : ℕ) (keys : List ℕ) (es : List Entry)
        → AgreesAt (scene heap.old.space heap.old.memory heap.old.marks queue.old free keys) es
        → (es' : List Entry) × Converts t (ConvertStep.Sealed set)
        (scene heap.old.space heap.old.memory heap.old.marks queue.old free keys)
        (scene heap.new.space heap.new.memory heap.new.marks queue.new free keys) es es' }
    ensures memory { heap.new.memory ≡ heap.old.memory }
{
    seal_threads(heap, queue, set);
    queue.seal(set);
}

/// Seals the group of a thread, all of whose members are settled: the event that `convert_next` makes
/// for such a thread, for whoever names what the group has queued first. Makes no call of the image.
pub fn seal<I: Image>(t: ThreadNo, heap: &mut TwinHeap<I>, queue: &mut Conversions, set: u64)
    requires agrees { SomeScene heap.old.space heap.old.memory heap.old.marks queue.old }
    requires group { IsGroupOf queue.old.needs t set }
    requires settled { AllSettled queue.old set }
    ensures seals { (free : ℕ) (keys : List ℕ) (es : List Entry) (ms : List Monitor)
        → AgreesAt (scene heap.old.space heap.old.memory heap.old.marks queue.old free keys) es
        → Event t (ConvertStep.Sealed set)
        (scene heap.old.space heap.old.memory heap.old.marks queue.old free keys)
        (scene heap.new.space heap.new.memory heap.new.marks queue.new free keys) es ms ms }
    ensures memory { heap.new.memory ≡ heap.old.memory }
{
    seal_group(t, heap, queue, set);
}

/// The next step of a settled thread: its group is sealed, or it waits for the least member that
/// isn't settled.
pub fn seal_next<I: Image>(
    t: ThreadNo,
    heap: &mut TwinHeap<I>,
    queue: &mut Conversions,
) -> ConvertStep
    requires agrees { SomeScene heap.old.space heap.old.memory heap.old.marks queue.old }
    requires phase { phase_of queue.old t ≡ Phase.Flush }
    requires clean { IsClean queue.old.marks t }
    ensures converts { (free : ℕ) (keys : List ℕ) (es : List Entry)
        → AgreesAt (scene heap.old.space heap.old.memory heap.old.marks queue.old free keys) es
        → (es' : List Entry) × Converts t result
        (scene heap.old.space heap.old.memory heap.old.marks queue.old free keys)
        (scene heap.new.space heap.new.memory heap.new.marks queue.new free keys) es es' }
    ensures other { IsOther result }
    ensures memory { heap.new.memory ≡ heap.old.memory }
{
    match queue.may_seal(t) {
        Ok(set) => {
            seal_group(t, heap, queue, set);
            ConvertStep::Sealed(set)
        }
        Err(unready) => ConvertStep::Wait(unready.thread),
    }
}
