// The regions of threads: what begins one, guards its places, and ends it.
ghost use Rattle.std.specs.Prelude.{◌≡◌, ◌≢◌, ◌↔◌, ◌<◌, ◌≤◌, ℕ, length, true, IfOk, IsTrue, Ok, OnErr, OnOk, None};
ghost use Rattle.ap_base.specs.Causes.{HasCause};
ghost use Rattle.monitors.specs.Indexed.{AreSound};
ghost use Rattle.step_forms.specs.Becomes.{given};
ghost use Rattle.step_forms.specs.Follows.{Agrees};
ghost use Rattle.object_steps.specs.Stores.{place_of};
ghost use Rattle.region_log.specs.declared.entry.Underway.TheVariants as underway;
ghost use Rattle.region_log.specs.Guarding.{IsGuarded, is_adding};
ghost use Rattle.region_log.specs.Log.{entry_of, most_entries};
ghost use Rattle.region_log.specs.Kept.{KeepsLog};
ghost use Rattle.region_log.specs.Readers.{is_ending};
ghost use Rattle.region_log.specs.Stages.{CanEnd};
ghost use Rattle.region_events.specs.Laws.{one_deeper, with_entry};
ghost use Rattle.two_spaces.specs.Whole.{IsWhole};
ghost use Rattle.store_barrier.specs.Passed.{log_of, memory_of, shown_in};
ghost use Rattle.shared_heap.specs.Regions.{EndingFailsTo, EndsTo, GuardsTo, LiesAt, LoggingFailsTo, LogsTo, PartTo};
ghost use Rattle.shared_heap.specs.Regions.{with_log_of};
ghost use Rattle.shared_heap.specs.Requests.{MayRequest};

use crate::SharedHeap;
use crate::telling::{place_of, tell_log_fence};
use ap_base::{Sink, Spot, ThreadNo};
use line_image::{Image, ImageFailed};
use natives::Request;
use object_steps::Store;
use region_log::{EndStep, LogStep};
use run_history::Op;
use shared_objects::Types;
use step_forms::Stepped;

impl<I: Image> SharedHeap<I> {
    /// How many regions of a thread are open, one within another.
    pub fn depth(&self, t: ThreadNo) -> u32
        ensures { result ≡ (log_of self.now.machine t).depth }
    {
        self.logs.depth(t)
    }

    /// Whether no more words can be logged for a thread.
    pub fn log_is_full(&self, t: ThreadNo) -> bool
        ensures { IsTrue result ↔ (length (log_of self.now.machine t).entries ≡ most_entries) }
    {
        self.logs.is_full(t)
    }

    /// Whether a word is being logged for a thread.
    pub fn is_logging(&self, t: ThreadNo) -> bool
        ensures { result ≡ is_adding (log_of self.now.machine t).underway }
    {
        self.logs.adding(t).is_some()
    }

    /// Whether the end of a thread's region is under way.
    pub fn is_ending(&self, t: ThreadNo) -> bool
        ensures { result ≡ is_ending (log_of self.now.machine t).underway }
    {
        self.logs.is_ending(t)
    }

    /// Opens a region of a thread, whose log is one level deeper, up to 2^32 - 1. The step of the request
    /// that begins it has been taken.
    pub fn open_region(&mut self, t: ThreadNo)
        requires idle { (log_of self.old.machine t).underway ≡ underway.Nothing }
        ensures deeper { self.new ≡ with_log_of self.old t (one_deeper (log_of self.old.machine t)) }
    {
        // that it is below 64
        let _number = t.number();
        self.logs.stand_apart();
        self.logs.begin(t);
        self.logs.stand_apart();
    }

    /// Guards the durable place of a thread's store, which lies in this word: its region's log names the
    /// word next, with the value that it shows.
    pub fn guard(&mut self, t: ThreadNo, store: &Store, spot: Spot)
        requires place { LiesAt self.old.machine.spaces (place_of store.now.target) spot }
        requires inside { spot.line < (memory_of self.old.machine).size }
        requires lines { self.old.lines ≡ (memory_of self.old.machine).size }
        requires open { 0 < (log_of self.old.machine t).depth }
        requires idle { (log_of self.old.machine t).underway ≡ underway.Nothing }
        requires log_room { length (log_of self.old.machine t).entries < most_entries }
        requires free { (s : ℕ) → ¬ IsGuarded (log_of self.old.machine s) spot }
        requires room { length self.old.history.acts < self.old.history.limit }
        ensures guarded { GuardsTo t (place_of store.now.target) spot self.old self.new }
    {
        line_memory::every_line_is_resident();
        let old = self.spaces.heap.memory.load(spot);
        self.name_word(t, spot, old);
        self.tell(
            t,
            Op::Guarded {
                place: place_of(store.target),
            },
        );
    }

    // Names a word as the one that a thread's region logs next, with this value.
    fn name_word(&mut self, t: ThreadNo, spot: Spot, old: u64)
        requires inside { spot.line < (memory_of self.old.machine).size }
        requires lines { self.old.lines ≡ (memory_of self.old.machine).size }
        requires open { 0 < (log_of self.old.machine t).depth }
        requires idle { (log_of self.old.machine t).underway ≡ underway.Nothing }
        requires log_room { length (log_of self.old.machine t).entries < most_entries }
        requires free { (s : ℕ) → ¬ IsGuarded (log_of self.old.machine s) spot }
        ensures { self.new ≡ with_log_of self.old t
            (with_entry (log_of self.old.machine t) (entry_of spot old)) }
    {
        // that it is below 64
        let _number = t.number();
        self.logs.stand_apart();
        self.logs.guard(t, spot, old);
        self.logs.stand_apart();
    }

    /// Logs the word that a thread has guarded last, a part with each call, as its log does: `More`
    /// until the entry counts and that is durable, then `Logged`. Conversions are told of the fences.
    ///
    /// # Errors
    ///
    /// `ImageFailed` where the image failed: the part is to be made again.
    pub fn log_next(&mut self, t: ThreadNo) -> Result<LogStep, ImageFailed>
        requires named { is_adding (log_of self.old.machine t).underway ≡ true }
        requires open { 0 < (log_of self.old.machine t).depth }
        requires keeps { KeepsLog (log_of self.old.machine t) (memory_of self.old.machine) }
        ensures logs { IfOk result (λ step. LogsTo step t self.old self.new) }
        ensures failed { OnErr result (LoggingFailsTo t self.old self.new) }
        ensures cause { HasCause (memory_of self.old.machine).faults
            (memory_of self.new.machine).faults result }
    {
        line_memory::every_line_is_resident();
        // that so many calls can be counted, and that the number is below 64
        let _calls = self.spaces.heap.memory.calls();
        let _number = t.number();
        self.logs.stand_apart();
        let fences = self.logs.fences_next(t);
        let result = self.logs.log_next(t, &mut self.spaces.heap.memory);
        self.logs.stand_apart();
        tell_log_fence(&mut self.queue, fences, result.is_ok());
        result
    }

    /// Ends the innermost region of a thread, a part with each call, as its log does. With the fence
    /// behind all that was logged the region is closing, by an act. After `Ended` the step of the
    /// request is to be taken. Conversions are told of the fences.
    ///
    /// # Errors
    ///
    /// `ImageFailed` where the image failed: the part is to be made again.
    pub fn end_next(&mut self, t: ThreadNo) -> Result<EndStep, ImageFailed>
        requires can { CanEnd (log_of self.old.machine t).underway }
        requires open { 0 < (log_of self.old.machine t).depth }
        requires keeps { KeepsLog (log_of self.old.machine t) (memory_of self.old.machine) }
        requires room { length self.old.history.acts < self.old.history.limit }
        ensures ends { IfOk result (λ step. EndsTo step t self.old self.new) }
        ensures failed { OnErr result (EndingFailsTo t self.old self.new) }
        ensures cause { HasCause (memory_of self.old.machine).faults
            (memory_of self.new.machine).faults result }
    {
        let _ = &self.spaces;
        let step = self.end_part(t)?;
        match step {
            EndStep::AllFenced => {
                self.tell(t, Op::Closing);
                Ok(EndStep::AllFenced)
            }
            _ => Ok(step),
        }
    }

    // Makes a part of the end of a thread's region, without an act.
    fn end_part(&mut self, t: ThreadNo) -> Result<EndStep, ImageFailed>
        requires can { CanEnd (log_of self.old.machine t).underway }
        requires open { 0 < (log_of self.old.machine t).depth }
        requires keeps { KeepsLog (log_of self.old.machine t) (memory_of self.old.machine) }
        ensures ends { IfOk result (λ step. PartTo step t self.old self.new) }
        ensures failed { OnErr result (EndingFailsTo t self.old self.new) }
        ensures cause { HasCause (memory_of self.old.machine).faults
            (memory_of self.new.machine).faults result }
    {
        line_memory::every_line_is_resident();
        // that so many calls can be counted, and that the number is below 64
        let _calls = self.spaces.heap.memory.calls();
        let _number = t.number();
        self.logs.stand_apart();
        let fences = self.logs.fences_next(t);
        let result = self.logs.end_next(t, &mut self.spaces.heap.memory);
        self.logs.stand_apart();
        tell_log_fence(&mut self.queue, fences, result.is_ok());
        result
    }
}
