// The line of a durable store is written back, and fenced.
ghost use Rattle.std.specs.Prelude.{◌≡◌, ◌<◌, ◌≤◌, length, OnErr, OnOk, [], ◌∷◌, ◌++◌};
ghost use Rattle.ap_base.specs.Causes.{HasCause};
ghost use Rattle.line_memory.specs.Memory.{Memory};
ghost use Rattle.twin_forms.specs.Sights.{Twin};
ghost use Rattle.store_barrier.specs.Passed.{Fencing, Writing};
ghost use Rattle.store_barrier.specs.Passed.{doing_of, memory_of};
ghost use Rattle.store_barrier.specs.Passed.{MakesFence, WritesBack, with_fence, with_write};
ghost use Rattle.run_history.specs.Recorded.{with_act};
ghost use Rattle.run_history.specs.declared.act.Op.TheVariants as op;
ghost use Rattle.shared_heap.specs.Shared.{Failed, TellsFence, Writes};

use crate::SharedHeap;
use ap_base::ThreadNo;
use line_image::{Image, ImageFailed};
use run_history::{Act, Op};
use store_barrier::Doing;

impl<I: Image> SharedHeap<I> {
    /// Writes back the line of a thread's durable store: a fence is to follow.
    ///
    /// # Errors
    ///
    /// `ImageFailed` where the image failed. The line is to be written back still.
    pub fn write_back(&mut self, t: ThreadNo, line: u32) -> Result<(), ImageFailed>
        requires doing { doing_of self.old.machine t ≡ Writing line }
        requires inside { line < (memory_of self.old.machine).size }
        requires long { 33 ≤ (memory_of self.old.machine).size }
        ensures wrote { OnOk result (Writes t self.old self.new) }
        ensures failed { OnErr result (Failed self.old self.new) }
        ensures cause { HasCause (memory_of self.old.machine).faults
            (memory_of self.new.machine).faults result }
    {
        line_memory::every_line_is_resident();
        // that so many calls can be counted
        let _calls = self.spaces.heap.memory.calls();
        self.spaces.heap.memory.write_back(line)?;
        self.doing[t.number() as usize] = Doing::Fencing;
        Ok(())
    }

    /// Makes the fence that a thread's durable store is owed, with its act.
    ///
    /// # Errors
    ///
    /// `ImageFailed` where the image failed. The fence is to be made still.
    pub fn fence(&mut self, t: ThreadNo) -> Result<(), ImageFailed>
        requires doing { doing_of self.old.machine t ≡ Fencing }
        requires room { length self.old.history.acts < self.old.history.limit }
        requires long { 33 ≤ (memory_of self.old.machine).size }
        ensures fenced { OnOk result (TellsFence t self.old self.new) }
        ensures failed { OnErr result (Failed self.old self.new) }
        ensures cause { HasCause (memory_of self.old.machine).faults
            (memory_of self.new.machine).faults result }
    {
        line_memory::every_line_is_resident();
        // that so many calls can be counted
        let _calls = self.spaces.heap.memory.calls();
        self.spaces.heap.memory.fence()?;
        self.queue.fenced();
        self.tell(t, Op::Fenced);
        self.doing[t.number() as usize] = Doing::Nothing;
        Ok(())
    }

    /// Adds an act of a thread, after so many calls of the image as were made.
    pub(crate) fn tell(&mut self, thread: ThreadNo, op: Op)
        requires room { length self.old.history.acts < self.old.history.limit }
        ensures told { self.new.history ≡ with_act self.old.history (record {
          thread = thread;
          at = (memory_of self.old.machine).calls;
          op = op;
        }) }
        ensures machine { self.new.machine
            ≡ record self.old.machine { acts = self.new.history.acts } }
        ensures lines { self.new.lines ≡ self.old.lines }
        ensures notes { self.new.notes ≡ self.old.notes }
    {
        let at = self.spaces.heap.memory.calls();
        let _ = self.acts.push(Act { thread, at, op });
    }
}
