// Claims.
ghost use Rattle.std.specs.Prelude.{◌≡◌, ◌≢◌, ◌<◌, ◌≤◌, ℕ, List};
ghost use Rattle.twin_forms.specs.Table.{Entry, entry};
ghost use Rattle.twin_forms.specs.Moves.{Moved};
ghost use Rattle.twin_forms.specs.Sights.{sight};
ghost use Rattle.convert_words.specs.Scenes.{scene, AgreesAt};
ghost use Rattle.convert_words.specs.Steps.{OneBecomes, claimed_at, with_object};
ghost use Rattle.convert_words.specs.Converting.{Converts};
ghost use Rattle.converter.specs.Working.{IsTakable, IsToClaim};

use crate::slots::count_of;
use ap_base::ThreadNo;
use convert_queue::Conversions;
use convert_words::ConvertStep;
use line_image::Image;
use persist_space::PersistSpace;
use twin_heap::TwinHeap;

/// Claims an ordinary object for a thread, tells where its copy begins, and puts it behind the
/// thread's queue.
pub fn take_in<I: Image>(
    t: ThreadNo,
    heap: &mut TwinHeap<I>,
    queue: &mut Conversions,
    object: u32,
    line: u32,
)
    requires takable { (keys : List ℕ) × (es : List Entry) × (m : ℕ)
        × IsTakable (scene heap.old.space heap.old.memory heap.old.marks queue.old line keys) es object m }
    ensures claimed { (keys : List ℕ) (es : List Entry) (m : ℕ)
        → IsTakable (scene heap.old.space heap.old.memory heap.old.marks queue.old line keys) es object m
        → (es' : List Entry) × OneBecomes m (claimed_at t line (entry es m)) es es'
        × Moved (sight heap.old.space heap.old.memory heap.old.marks) es
        (sight heap.new.space heap.new.memory heap.new.marks) es' }
    ensures memory { heap.new.memory ≡ heap.old.memory }
    ensures kinds { heap.new.marks.kinds ≡ heap.old.marks.kinds }
    ensures left { heap.new.space.left ≡ heap.old.space.left }
    ensures queue { queue.new ≡ with_object queue.old t object line }
    ensures thread { t < 64 }
{
    // the proof reads here that the number is below 64
    let _number = t.number();
    heap.claim(object, t);
    heap.copy_at(object, line);
    queue.put(t, object, line);
}

/// The next step where an ordinary object is to be claimed.
pub fn claim_next<I: Image>(
    t: ThreadNo,
    heap: &mut TwinHeap<I>,
    queue: &mut Conversions,
    space: &mut PersistSpace,
    object: u32,
) -> ConvertStep
    requires agrees { (keys : List ℕ) × (es : List Entry)
        × AgreesAt (scene heap.old.space heap.old.memory heap.old.marks queue.old space.old.free keys) es
        × IsToClaim (scene heap.old.space heap.old.memory heap.old.marks queue.old space.old.free keys) es t object }
    requires lines { space.old.lines ≡ heap.old.memory.size }
    requires within { space.old.free ≤ space.old.lines }
    ensures converts { (keys : List ℕ) (es : List Entry)
        → AgreesAt (scene heap.old.space heap.old.memory heap.old.marks queue.old space.old.free keys) es
        → IsToClaim (scene heap.old.space heap.old.memory heap.old.marks queue.old space.old.free keys) es t object
        → (es' : List Entry) × Converts t result
        (scene heap.old.space heap.old.memory heap.old.marks queue.old space.old.free keys)
        (scene heap.new.space heap.new.memory heap.new.marks queue.new space.new.free keys) es es' }
    ensures other { result ≢ ConvertStep.Forwarded }
    ensures memory { heap.new.memory ≡ heap.old.memory }
    ensures lines { space.new.lines ≡ space.old.lines }
    ensures within { space.new.free ≤ space.new.lines }
{
    let lines = count_of(heap.slots_at(object));
    match space.take(lines) {
        None => ConvertStep::Full {
            need: lines,
            left: space.left(),
        },
        Some(line) => {
            take_in(t, heap, queue, object, line);
            ConvertStep::Claimed
        }
    }
}
