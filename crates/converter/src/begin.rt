// How a conversion begins.
ghost use Rattle.std.specs.Prelude.{◌≡◌, ◌<◌, ◌≤◌, [], ℕ, List, length};
ghost use Rattle.ap_base.specs.References.{reference_word};
ghost use Rattle.ap_base.specs.declared.reference.Ref.TheVariants.{Volatile};
ghost use Rattle.twin_forms.specs.Table.{Entry, entry};
ghost use Rattle.convert_queue.specs.Queues.{queue_of};
ghost use Rattle.convert_words.specs.Scenes.{scene, AgreesAt};
ghost use Rattle.converter.specs.Beginning.{Begins, IsAsked};

use crate::claims::take_in;
use crate::next::go_to;
use crate::slots::count_of;
use ap_base::{Ref, ThreadNo};
use convert_queue::{Conversions, Phase};
use line_image::Image;
use persist_space::PersistSpace;
use twin_heap::TwinHeap;

/// How the conversion of an asked value began.
#[derive(Clone, Copy)]
pub enum Begun {
    /// the object is claimed: it is the first one of the thread's queue
    Claimed,
    /// this thread has claimed it, and the asking thread needs that one
    Needs(ThreadNo),
    /// not at all: the object needs so many lines, and fewer are left
    Full { need: u32, left: u32 },
}

// The index of a reference to the space.
fn index_of(r: Ref) -> u32
    ensures { (at : ℕ) → r ≡ Volatile at → result ≡ at }
{
    match r {
        Ref::Volatile(at) | Ref::Persistent(at) => at,
        Ref::Null => 0,
    }
}

// Begins with an ordinary object.
fn begin_claim<I: Image>(
    t: ThreadNo,
    heap: &mut TwinHeap<I>,
    queue: &mut Conversions,
    space: &mut PersistSpace,
    object: u32,
) -> Begun
    requires agrees { (keys : List ℕ) × (es : List Entry) × (m : ℕ)
        × AgreesAt (scene heap.old.space heap.old.memory heap.old.marks queue.old space.old.free keys) es
        × (m < length es) × ((entry es m).at ≡ object) × ((entry es m).stage ≡ 0)
        × ((entry es m).owner ≡ 0) }
    requires empty { queue_of queue.old t ≡ [] }
    requires lines { space.old.lines ≡ heap.old.memory.size }
    requires within { space.old.free ≤ space.old.lines }
    ensures begins { (keys : List ℕ) (es : List Entry) (m : ℕ)
        → AgreesAt (scene heap.old.space heap.old.memory heap.old.marks queue.old space.old.free keys) es
        → m < length es → (entry es m).at ≡ object → (entry es m).stage ≡ 0 → (entry es m).owner ≡ 0
        → (es' : List Entry) × Begins t m result
        (scene heap.old.space heap.old.memory heap.old.marks queue.old space.old.free keys)
        (scene heap.new.space heap.new.memory heap.new.marks queue.new space.new.free keys) es es' }
    ensures lines { space.new.lines ≡ space.old.lines }
    ensures within { space.new.free ≤ space.new.lines }
    ensures memory { heap.new.memory ≡ heap.old.memory }
{
    let lines = count_of(heap.slots_at(object));
    match space.take(lines) {
        None => Begun::Full {
            need: lines,
            left: space.left(),
        },
        Some(line) => {
            go_to(queue, t, Phase::Copy, 0, 0);
            take_in(t, heap, queue, object, line);
            Begun::Claimed
        }
    }
}

/// Thread t begins to convert what a value reaches, which isn't durable: it claims the object, or
/// needs the thread that has claimed it, and is settled then. The thread has nothing queued.
pub fn begin_conversion<I: Image>(
    t: ThreadNo,
    heap: &mut TwinHeap<I>,
    queue: &mut Conversions,
    space: &mut PersistSpace,
    value: Ref,
) -> Begun
    requires agrees { (keys : List ℕ) × (es : List Entry) × (m : ℕ)
        × AgreesAt (scene heap.old.space heap.old.memory heap.old.marks queue.old space.old.free keys) es
        × IsAsked es (reference_word value) m }
    requires empty { queue_of queue.old t ≡ [] }
    requires lines { space.old.lines ≡ heap.old.memory.size }
    requires within { space.old.free ≤ space.old.lines }
    ensures begins { (keys : List ℕ) (es : List Entry) (m : ℕ)
        → AgreesAt (scene heap.old.space heap.old.memory heap.old.marks queue.old space.old.free keys) es
        → IsAsked es (reference_word value) m
        → (es' : List Entry) × Begins t m result
        (scene heap.old.space heap.old.memory heap.old.marks queue.old space.old.free keys)
        (scene heap.new.space heap.new.memory heap.new.marks queue.new space.new.free keys) es es' }
    ensures lines { space.new.lines ≡ space.old.lines }
    ensures within { space.new.free ≤ space.new.lines }
    ensures memory { heap.new.memory ≡ heap.old.memory }
{
    match heap.claimed_by(value) {
        Some(u) => {
            go_to(queue, t, Phase::Flush, 0, 0);
            queue.needs(t, u);
            Begun::Needs(u)
        }
        None => begin_claim(t, heap, queue, space, index_of(value)),
    }
}
