// Copies and forwards.
ghost use Rattle.std.specs.Prelude.{◌≡◌, ◌≤◌, ℕ, List, IfOk, OnErr};
ghost use Rattle.ap_base.specs.Causes.{HasCause};
ghost use Rattle.ap_base.specs.declared.reference.Ref.TheVariants.{Persistent, Volatile};
ghost use Rattle.line_memory.specs.Memory.{IsResident};
ghost use Rattle.monitors.specs.Held.{rekeyed};
ghost use Rattle.monitors.specs.Indexed.{AreSound};
ghost use Rattle.run_types.specs.declared.key.Key.TheVariants.{Object};
ghost use Rattle.twin_forms.specs.Table.{Entry, entry};
ghost use Rattle.twin_forms.specs.Sights.{AllKnown};
ghost use Rattle.convert_words.specs.Scenes.{scene, AgreesAt};
ghost use Rattle.convert_words.specs.Converting.{Converts, Fails};
ghost use Rattle.converter.specs.Stepping.{IsOther, keys_of};
ghost use Rattle.converter.specs.Working.{IsToCopy, IsToForward};

use crate::next::go_to;
use crate::ready::make_ready;
use ap_base::{Ref, ThreadNo};
use convert_queue::{Conversions, Phase};
use convert_words::ConvertStep;
use line_image::{Image, ImageFailed};
use monitors::Monitors;
use run_types::Key;
use twin_heap::TwinHeap;

// Copies the next line of an object, which is resident, and tells the queue of the store.
fn copy_resident<I: Image>(
    t: ThreadNo,
    heap: &mut TwinHeap<I>,
    queue: &mut Conversions,
    object: u32,
    line: u32,
)
    requires agrees { (free : ℕ) × (keys : List ℕ) × (es : List Entry)
        × AgreesAt (scene heap.old.space heap.old.memory heap.old.marks queue.old free keys) es
        × IsToCopy (scene heap.old.space heap.old.memory heap.old.marks queue.old free keys) es t object line }
    requires resident { IsResident heap.old.memory line }
    requires known { AllKnown heap.old.memory }
    ensures converts { (free : ℕ) (keys : List ℕ) (es : List Entry)
        → AgreesAt (scene heap.old.space heap.old.memory heap.old.marks queue.old free keys) es
        → IsToCopy (scene heap.old.space heap.old.memory heap.old.marks queue.old free keys) es t object line
        → (es' : List Entry) × Converts t ConvertStep.CopiedLine
        (scene heap.old.space heap.old.memory heap.old.marks queue.old free keys)
        (scene heap.new.space heap.new.memory heap.new.marks queue.new free keys) es es' }
    ensures known { AllKnown heap.new.memory }
    ensures faults { heap.new.memory.faults ≡ heap.old.memory.faults }
{
    heap.copy_line(object);
    queue.dirty(t, line);
}

/// The next step where a line is to be copied.
pub fn copy_next<I: Image>(
    t: ThreadNo,
    heap: &mut TwinHeap<I>,
    queue: &mut Conversions,
    object: u32,
    line: u32,
) -> Result<ConvertStep, ImageFailed>
    requires agrees { (free : ℕ) × (keys : List ℕ) × (es : List Entry)
        × AgreesAt (scene heap.old.space heap.old.memory heap.old.marks queue.old free keys) es
        × IsToCopy (scene heap.old.space heap.old.memory heap.old.marks queue.old free keys) es t object line }
    requires known { AllKnown heap.old.memory }
    ensures converts { IfOk result (λ step. (free : ℕ) (keys : List ℕ) (es : List Entry)
        → AgreesAt (scene heap.old.space heap.old.memory heap.old.marks queue.old free keys) es
        → IsToCopy (scene heap.old.space heap.old.memory heap.old.marks queue.old free keys) es t object line
        → (es' : List Entry) × Converts t step
        (scene heap.old.space heap.old.memory heap.old.marks queue.old free keys)
        (scene heap.new.space heap.new.memory heap.new.marks queue.new free keys) es es') }
    ensures failed { OnErr result ((free : ℕ) (keys : List ℕ) (es : List Entry)
        → AgreesAt (scene heap.old.space heap.old.memory heap.old.marks queue.old free keys) es
        → Fails (scene heap.old.space heap.old.memory heap.old.marks queue.old free keys)
        (scene heap.new.space heap.new.memory heap.new.marks queue.new free keys) es) }
    ensures other { IfOk result (λ step. IsOther step) }
    ensures known { AllKnown heap.new.memory }
    ensures cause { HasCause heap.old.memory.faults heap.new.memory.faults result }
{
    if !make_ready(&mut heap.memory, line)? {
        return Ok(ConvertStep::Touched);
    }
    copy_resident(t, heap, queue, object, line);
    Ok(ConvertStep::CopiedLine)
}

/// The next step where an object is to be forwarded, whose lines are all copied: its monitor moves
/// to the new key.
pub fn forward_next<I: Image>(
    t: ThreadNo,
    heap: &mut TwinHeap<I>,
    queue: &mut Conversions,
    monitors: &mut Monitors,
    object: u32,
    line: u32,
)
    requires agrees { (free : ℕ) × (es : List Entry) × (free ≤ heap.old.memory.size)
        × AgreesAt (scene heap.old.space heap.old.memory heap.old.marks queue.old free
        (keys_of monitors.old)) es
        × IsToForward (scene heap.old.space heap.old.memory heap.old.marks queue.old free
        (keys_of monitors.old)) es t object line }
    requires sound { AreSound monitors.old }
    ensures converts { (free : ℕ) (es : List Entry)
        → AgreesAt (scene heap.old.space heap.old.memory heap.old.marks queue.old free
        (keys_of monitors.old)) es
        → IsToForward (scene heap.old.space heap.old.memory heap.old.marks queue.old free
        (keys_of monitors.old)) es t object line
        → (es' : List Entry) × Converts t ConvertStep.Forwarded
        (scene heap.old.space heap.old.memory heap.old.marks queue.old free (keys_of monitors.old))
        (scene heap.new.space heap.new.memory heap.new.marks queue.new free (keys_of monitors.new))
        es es' }
    ensures monitors { monitors.new ≡ rekeyed monitors.old (Object (Volatile object)) (Object (Persistent line)) }
    ensures sound { AreSound monitors.new }
    ensures memory { heap.new.memory ≡ heap.old.memory }
{
    heap.forward(object);
    monitors.rekey(
        Key::Object(Ref::Volatile(object)),
        Key::Object(Ref::Persistent(line)),
    );
    let (n, _) = queue.place(t);
    go_to(queue, t, Phase::Copy, n + 1, 0);
}
