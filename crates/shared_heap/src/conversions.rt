// The conversion of what a thread has asked, one event at a time.
ghost use Rattle.std.specs.Prelude.{◌≡◌, ◌<◌, ◌≤◌, [], length, List, ℕ, IfOk, OnErr};
ghost use Rattle.ap_base.specs.Causes.{HasCause};
ghost use Rattle.ap_base.specs.References.{reference_word};
ghost use Rattle.twin_forms.specs.Table.{Entry};
ghost use Rattle.convert_queue.specs.Queues.{AllSettled, IsSettled, queue_of, total};
ghost use Rattle.convert_queue.specs.Threads.{IsGroupOf};
ghost use Rattle.converter.specs.Beginning.{IsAsked};
ghost use Rattle.store_barrier.specs.Passed.{Converting};
ghost use Rattle.store_barrier.specs.Passed.{doing_of, memory_of, scene_of};
ghost use Rattle.shared_heap.specs.Conversions.{BeginsOnce, Converts, FailsTo, GoesTo, HasBegun, JoinsOnce, came_to};

use crate::SharedHeap;
use crate::sealing::name_group;
use ap_base::{Ref, ThreadNo};
use convert_words::ConvertStep;
use converter::{Begun, begin_conversion, convert_next, seal};
use line_image::{Image, ImageFailed};
use run_history::Op;

/// What an event of a conversion came to.
#[derive(Clone, Copy)]
pub enum Conversion {
    /// one more step was made
    Went,
    /// what the thread's group has claimed became durable, with an act that names it
    Joined,
    /// the thread waits for this one
    Waits(ThreadNo),
    /// an object needs so many lines of the image, and fewer are left
    Full { need: u32, left: u32 },
}

impl<I: Image> SharedHeap<I> {
    /// Begins the conversion of what a thread has asked, which has nothing queued: it claims the object, or needs
    /// the thread that has claimed it, and is in its flush then.
    pub fn begin_converting(&mut self, t: ThreadNo, value: Ref) -> Begun
        requires converts { (es : List Entry) × (n : ℕ) × Converts self.old es
            × IsAsked es (reference_word value) n }
        requires empty { queue_of self.old.machine.queue t ≡ [] }
        ensures begins { (es : List Entry) (n : ℕ) → Converts self.old es
            → IsAsked es (reference_word value) n
            → BeginsOnce t n result self.old self.new es }
    {
        line_memory::every_line_is_resident();
        begin_conversion(
            t,
            &mut self.spaces.heap,
            &mut self.queue,
            &mut self.lines,
            value,
        )
    }

    /// Makes the next step of a thread's conversion. Once all threads of its group are settled the group is sealed:
    /// what they have claimed becomes durable by an act that names it.
    ///
    /// # Errors
    ///
    /// `ImageFailed` where the image failed: the step may be asked for again.
    pub fn convert(&mut self, t: ThreadNo) -> Result<Conversion, ImageFailed>
        requires doing { doing_of self.old.machine t ≡ Converting }
        requires converts { (es : List Entry) × Converts self.old es }
        requires begun { HasBegun (scene_of self.old.machine) t }
        requires acts { length self.old.history.acts < self.old.history.limit }
        requires room { total self.old.machine.queue.queues ≤ self.old.history.room }
        ensures converts { IfOk result (λ did. (es : List Entry) → Converts self.old es
            → GoesTo t did self.old self.new es) }
        ensures failed { OnErr result ((es : List Entry) → Converts self.old es
            → FailsTo t self.old self.new es) }
        ensures cause { HasCause (memory_of self.old.machine).faults
            (memory_of self.new.machine).faults result }
    {
        line_memory::every_line_is_resident();
        let _number = t.number();
        if !self.queue.is_settled(t) {
            return self.go_on(t);
        }
        match self.queue.may_seal(t) {
            Ok(set) => {
                self.join(t, set);
                Ok(Conversion::Joined)
            }
            Err(unready) => Ok(Conversion::Waits(unready.thread)),
        }
    }
}

// What a step comes to that is no seal.
fn came_to(step: ConvertStep) -> Conversion
    ensures { result ≡ came_to step }
{
    match step {
        ConvertStep::Wait(u) => Conversion::Waits(u),
        ConvertStep::Full { need, left } => Conversion::Full { need, left },
        _ => Conversion::Went,
    }
}

impl<I: Image> SharedHeap<I> {
    // The next step of a thread that isn't settled. It is no seal: before its flush the thread has lines that were stored to.
    fn go_on(&mut self, t: ThreadNo) -> Result<Conversion, ImageFailed>
        requires doing { doing_of self.old.machine t ≡ Converting }
        requires converts { (es : List Entry) × Converts self.old es }
        requires begun { HasBegun (scene_of self.old.machine) t }
        requires unsettled { IsSettled self.old.machine.queue t → ⊥ }
        ensures converts { IfOk result (λ did. (es : List Entry) → Converts self.old es
            → GoesTo t did self.old self.new es) }
        ensures failed { OnErr result ((es : List Entry) → Converts self.old es
            → FailsTo t self.old self.new es) }
        ensures cause { HasCause (memory_of self.old.machine).faults
            (memory_of self.new.machine).faults result }
    {
        line_memory::every_line_is_resident();
        // the proof reads here that the number is below 64
        let _number = t.number();
        let step = convert_next(
            t,
            &mut self.spaces.heap,
            &mut self.queue,
            &mut self.lines,
            &mut self.rest.monitors,
        )?;
        Ok(came_to(step))
    }

    // Seals the group of a thread, all of whose members are settled, by an act that names what they have queued.
    fn join(&mut self, t: ThreadNo, set: u64)
        requires doing { doing_of self.old.machine t ≡ Converting }
        requires converts { (es : List Entry) × Converts self.old es }
        requires begun { HasBegun (scene_of self.old.machine) t }
        requires group { IsGroupOf self.old.machine.queue.needs t set }
        requires settled { AllSettled self.old.machine.queue set }
        requires acts { length self.old.history.acts < self.old.history.limit }
        requires room { total self.old.machine.queue.queues ≤ self.old.history.room }
        ensures joins { (es : List Entry) → Converts self.old es → JoinsOnce t self.old self.new es }
        ensures faults { (memory_of self.new.machine).faults ≡ (memory_of self.old.machine).faults }
    {
        line_memory::every_line_is_resident();
        let _number = t.number();
        name_group(&mut self.acts, &self.spaces.heap, &self.queue, set);
        seal(t, &mut self.spaces.heap, &mut self.queue, set);
        self.tell(t, Op::Joined);
    }
}
