// A step of a conversion.
ghost use Rattle.std.specs.Prelude.{◌≡◌, ◌≤◌, List, IfOk, OnErr};
ghost use Rattle.ap_base.specs.Causes.{HasCause};
ghost use Rattle.monitors.specs.Indexed.{AreSound};
ghost use Rattle.twin_forms.specs.Table.{Entry};
ghost use Rattle.twin_forms.specs.Sights.{AllKnown};
ghost use Rattle.convert_words.specs.Scenes.{scene, AgreesAt};
ghost use Rattle.converter.specs.Stepping.{keys_of, Event, FailedEvent};

use crate::claims::claim_next;
use crate::copies::{copy_next, forward_next};
use crate::flush::flush_next;
use crate::next::next_work;
use crate::repairs::repair_next;
use crate::work::Work;
use ap_base::ThreadNo;
use convert_queue::Conversions;
use convert_words::ConvertStep;
use line_image::{Image, ImageFailed};
use monitors::Monitors;
use persist_space::PersistSpace;
use twin_heap::TwinHeap;

/// One step of thread t's conversion. The thread's place goes on, past what is done; then an object
/// is claimed, a line copied, an object forwarded, a line repaired, written back or fenced, or the
/// thread's group is sealed. A line that the step needs is made resident first. After `Wait` no
/// step was made, but the place may have gone on, and needs may be noted. `Full` leaves all as it
/// was. A thread with nothing queued that needs nobody is sealed alone: its set has no objects.
///
/// # Errors
///
/// `ImageFailed` where the image failed. The place may have gone on. Nothing else was done then, and
/// the same step may be asked for again.
pub fn convert_next<I: Image>(
    t: ThreadNo,
    heap: &mut TwinHeap<I>,
    queue: &mut Conversions,
    space: &mut PersistSpace,
    monitors: &mut Monitors,
) -> Result<ConvertStep, ImageFailed>
    requires agrees { (es : List Entry) × AgreesAt
        (scene heap.old.space heap.old.memory heap.old.marks queue.old space.old.free
        (keys_of monitors.old)) es }
    requires lines { space.old.lines ≡ heap.old.memory.size }
    requires within { space.old.free ≤ space.old.lines }
    requires sound { AreSound monitors.old }
    requires known { AllKnown heap.old.memory }
    ensures converts { IfOk result (λ step. (es : List Entry)
        → AgreesAt (scene heap.old.space heap.old.memory heap.old.marks queue.old space.old.free
        (keys_of monitors.old)) es
        → Event t step
        (scene heap.old.space heap.old.memory heap.old.marks queue.old space.old.free
        (keys_of monitors.old))
        (scene heap.new.space heap.new.memory heap.new.marks queue.new space.new.free
        (keys_of monitors.new)) es
        monitors.old monitors.new) }
    ensures failed { OnErr result ((es : List Entry)
        → AgreesAt (scene heap.old.space heap.old.memory heap.old.marks queue.old space.old.free
        (keys_of monitors.old)) es
        → FailedEvent t
        (scene heap.old.space heap.old.memory heap.old.marks queue.old space.old.free
        (keys_of monitors.old))
        (scene heap.new.space heap.new.memory heap.new.marks queue.new space.new.free
        (keys_of monitors.new)) es
        monitors.old monitors.new) }
    ensures lines { space.new.lines ≡ heap.new.memory.size }
    ensures within { space.new.free ≤ space.new.lines }
    ensures sound { AreSound monitors.new }
    ensures known { AllKnown heap.new.memory }
    ensures cause { HasCause heap.old.memory.faults heap.new.memory.faults result }
{
    match next_work(t, heap, queue) {
        Work::Claim(object) => Ok(claim_next(t, heap, queue, space, object)),
        Work::Copy(object, line) => copy_next(t, heap, queue, object, line),
        Work::Forward(object, line) => {
            forward_next(t, heap, queue, monitors, object, line);
            Ok(ConvertStep::Forwarded)
        }
        Work::Repair(object, first, c) => repair_next(t, heap, queue, object, first, c),
        Work::Flush => flush_next(t, heap, queue),
    }
}
