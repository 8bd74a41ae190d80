// The last phase: lines are written back, then fenced, and then the group is sealed.
ghost use Rattle.std.specs.Prelude.{◌≡◌, ◌+◌, ◌<◌, ℕ, List, IfOk, OnErr, Ok};
ghost use Rattle.ap_base.specs.Causes.{HasCause};
ghost use Rattle.twin_forms.specs.Table.{Entry};
ghost use Rattle.twin_forms.specs.Sights.{AllKnown};
ghost use Rattle.line_memory.specs.Memory.{IsResident};
ghost use Rattle.convert_queue.specs.Marks.{IsClean, IsStored};
ghost use Rattle.convert_queue.specs.Queues.{phase_of};
ghost use Rattle.convert_words.specs.Scenes.{scene, AgreesAt};
ghost use Rattle.convert_words.specs.Converting.{Converts, Fails};
ghost use Rattle.converter.specs.Stepping.{IsOther};
ghost use Rattle.converter.specs.Working.{SomeScene};

use crate::ready::make_ready;
use crate::seals::seal_next;
use ap_base::ThreadNo;
use convert_queue::{Conversions, Phase};
use convert_words::ConvertStep;
use line_image::{Image, ImageFailed};
use twin_heap::TwinHeap;

// Writes a resident line back, and tells the queue of it.
fn write_resident<I: Image>(
    t: ThreadNo,
    heap: &mut TwinHeap<I>,
    queue: &mut Conversions,
    line: u32,
) -> Result<(), ImageFailed>
    requires agrees { SomeScene heap.old.space heap.old.memory heap.old.marks queue.old }
    requires phase { phase_of queue.old t ≡ Phase.Flush }
    requires stored { IsStored queue.old.marks t line }
    requires within { line < heap.old.memory.size }
    requires resident { IsResident heap.old.memory line }
    requires known { AllKnown heap.old.memory }
    ensures converts { IfOk result (λ _. (free : ℕ) (keys : List ℕ) (es : List Entry)
        → AgreesAt (scene heap.old.space heap.old.memory heap.old.marks queue.old free keys) es
        → Converts t ConvertStep.WroteBack
        (scene heap.old.space heap.old.memory heap.old.marks queue.old free keys)
        (scene heap.new.space heap.new.memory heap.new.marks queue.new free keys) es es) }
    ensures failed { OnErr result ((free : ℕ) (keys : List ℕ) (es : List Entry)
        → AgreesAt (scene heap.old.space heap.old.memory heap.old.marks queue.old free keys) es
        → Fails (scene heap.old.space heap.old.memory heap.old.marks queue.old free keys)
        (scene heap.new.space heap.new.memory heap.new.marks queue.new free keys) es) }
    ensures known { AllKnown heap.new.memory }
    ensures cause { HasCause heap.old.memory.faults heap.new.memory.faults result }
{
    heap.memory.write_back(line)?;
    queue.wrote(t, line);
    Ok(())
}

// The next step where a line is to be written back.
fn write_next<I: Image>(
    t: ThreadNo,
    heap: &mut TwinHeap<I>,
    queue: &mut Conversions,
    line: u32,
) -> Result<ConvertStep, ImageFailed>
    requires agrees { SomeScene heap.old.space heap.old.memory heap.old.marks queue.old }
    requires phase { phase_of queue.old t ≡ Phase.Flush }
    requires stored { IsStored queue.old.marks t line }
    requires known { AllKnown heap.old.memory }
    ensures converts { IfOk result (λ step. (free : ℕ) (keys : List ℕ) (es : List Entry)
        → AgreesAt (scene heap.old.space heap.old.memory heap.old.marks queue.old free keys) es
        → Converts t step
        (scene heap.old.space heap.old.memory heap.old.marks queue.old free keys)
        (scene heap.new.space heap.new.memory heap.new.marks queue.new free keys) es es) }
    ensures failed { OnErr result ((free : ℕ) (keys : List ℕ) (es : List Entry)
        → AgreesAt (scene heap.old.space heap.old.memory heap.old.marks queue.old free keys) es
        → Fails (scene heap.old.space heap.old.memory heap.old.marks queue.old free keys)
        (scene heap.new.space heap.new.memory heap.new.marks queue.new free keys) es) }
    ensures other { IfOk result (λ step. IsOther step) }
    ensures known { AllKnown heap.new.memory }
    ensures cause { HasCause heap.old.memory.faults heap.new.memory.faults result }
{
    if !make_ready(&mut heap.memory, line)? {
        return Ok(ConvertStep::Touched);
    }
    write_resident(t, heap, queue, line)?;
    Ok(ConvertStep::WroteBack)
}

// Fences, and tells the queue of it.
fn fence_next<I: Image>(
    t: ThreadNo,
    heap: &mut TwinHeap<I>,
    queue: &mut Conversions,
) -> Result<ConvertStep, ImageFailed>
    requires agrees { SomeScene heap.old.space heap.old.memory heap.old.marks queue.old }
    requires phase { phase_of queue.old t ≡ Phase.Flush }
    requires all { (l : ℕ) → IsStored queue.old.marks t l → ⊥ }
    requires waits { IsClean queue.old.marks t → ⊥ }
    requires known { AllKnown heap.old.memory }
    ensures converts { IfOk result (λ step. (free : ℕ) (keys : List ℕ) (es : List Entry)
        → AgreesAt (scene heap.old.space heap.old.memory heap.old.marks queue.old free keys) es
        → Converts t step
        (scene heap.old.space heap.old.memory heap.old.marks queue.old free keys)
        (scene heap.new.space heap.new.memory heap.new.marks queue.new free keys) es es) }
    ensures failed { OnErr result ((free : ℕ) (keys : List ℕ) (es : List Entry)
        → AgreesAt (scene heap.old.space heap.old.memory heap.old.marks queue.old free keys) es
        → Fails (scene heap.old.space heap.old.memory heap.old.marks queue.old free keys)
        (scene heap.new.space heap.new.memory heap.new.marks queue.new free keys) es) }
    ensures other { IfOk result (λ step. IsOther step) }
    ensures known { AllKnown heap.new.memory }
    ensures cause { HasCause heap.old.memory.faults heap.new.memory.faults result }
{
    heap.memory.fence()?;
    queue.fenced();
    Ok(ConvertStep::Fenced)
}

/// The next step in phase Flush.
pub fn flush_next<I: Image>(
    t: ThreadNo,
    heap: &mut TwinHeap<I>,
    queue: &mut Conversions,
) -> Result<ConvertStep, ImageFailed>
    requires agrees { SomeScene heap.old.space heap.old.memory heap.old.marks queue.old }
    requires phase { phase_of queue.old t ≡ Phase.Flush }
    requires known { AllKnown heap.old.memory }
    ensures converts { IfOk result (λ step. (free : ℕ) (keys : List ℕ) (es : List Entry)
        → AgreesAt (scene heap.old.space heap.old.memory heap.old.marks queue.old free keys) es
        → (es' : List Entry) × Converts t step
        (scene heap.old.space heap.old.memory heap.old.marks queue.old free keys)
        (scene heap.new.space heap.new.memory heap.new.marks queue.new free keys) es es') }
    ensures failed { OnErr result ((free : ℕ) (keys : List ℕ) (es : List Entry)
        → AgreesAt (scene heap.old.space heap.old.memory heap.old.marks queue.old free keys) es
        → Fails (scene heap.old.space heap.old.memory heap.old.marks queue.old free keys)
        (scene heap.new.space heap.new.memory heap.new.marks queue.new free keys) es) }
    ensures other { IfOk result (λ step. IsOther step) }
    ensures known { AllKnown heap.new.memory }
    ensures cause { HasCause heap.old.memory.faults heap.new.memory.faults result }
{
    if let Some(line) = queue.unwritten(t) {
        return write_next(t, heap, queue, line);
    }
    if !queue.is_clean(t) {
        return fence_next(t, heap, queue);
    }
    Ok(seal_next(t, heap, queue))
}
