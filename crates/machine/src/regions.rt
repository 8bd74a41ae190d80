// Regions: a word is logged, a region begins, and it ends part by part.
ghost use Rattle.std.specs.Prelude.{◌≡◌, ◌<◌, ◌^◌, ℕ, List, true, length};
ghost use Rattle.run_types.specs.declared.resolved.At.{At};
ghost use Rattle.natives.specs.declared.requests.Request.TheVariants as ask;
ghost use Rattle.region_log.specs.declared.entry.Underway.TheVariants as underway;
ghost use Rattle.region_log.specs.Guarding.{is_adding};
ghost use Rattle.region_log.specs.Stages.{CanEnd};
ghost use Rattle.run_forms.specs.Views.{ThreadFrames};
ghost use Rattle.twin_forms.specs.Table.{Entry};
ghost use Rattle.machine_threads.specs.Passed.{Opening, doing_of, log_of};
ghost use Rattle.machine_threads.specs.Passed.{IsReady};
ghost use Rattle.machine.specs.Ended.{ComesTo, IsSomeDue, Serves};
ghost use Rattle.machine.specs.Running.{IsDue};

use crate::laws::laws;
use crate::parts::ended;
use crate::{Event, Halt};
use ap_base::{Sink, ThreadNo};
use line_image::Image;
use natives::Request;
use region_log::EndStep;
use run_types::StepFault;
use shared_heap::SharedHeap;
use shared_objects::Types;

/// A part of the logging of the word that the thread has guarded last.
pub(crate) fn log<I: Image>(heap: &mut SharedHeap<I>, t: ThreadNo) -> Event
    requires due { IsSomeDue heap.old t }
    requires room { length heap.old.history.acts < heap.old.history.limit }
    requires named { is_adding (log_of heap.old.machine t).underway ≡ true }
    ensures { ComesTo t result heap.old heap.new }
{
    laws();
    match heap.log_next(t) {
        Ok(_) => Event::Micro,
        Err(_) => Event::Over(Halt::Met(StepFault::ImageFault)),
    }
}

/// A region begins.
pub(crate) fn begin<C: Types, I: Image, S: Sink>(
    heap: &mut SharedHeap<I>,
    set: &C,
    sink: &mut S,
    t: ThreadNo,
    request: &Request,
) -> Event
    requires due { (o : Opening) × (first : ℕ) × (es : List Entry) × (threads : List ThreadFrames)
        × (fs : ThreadFrames) × IsDue o first (C.facts set.now) heap.old es threads t fs request.now }
    requires room { length heap.old.history.acts < heap.old.history.limit }
    requires counted { heap.old.history.limit < 2 ^ 32 }
    requires ready { IsReady (doing_of heap.old.machine t) }
    requires idle { (log_of heap.old.machine t).underway ≡ underway.Nothing }
    requires is_begin { (from : At) × (request.now ≡ ask.Begin from) }
    ensures serves { Serves (C.facts set.now) t request.now result heap.old heap.new (S.takes sink.old) (S.takes sink.new)
        (S.taken sink.old) (S.taken sink.new) (S.faults sink.old) (S.faults sink.new) }
    ensures sink { sink.new ≡ sink.old }
{
    laws();
    // that so many acts can be counted
    let _count = heap.acts().len();
    let step = heap.take(set, sink, t, request);
    heap.open_region(t);
    ended(request, step)
}

/// A part of the end of the innermost region, and after the last one the step of its request.
pub(crate) fn end<C: Types, I: Image, S: Sink>(
    heap: &mut SharedHeap<I>,
    set: &C,
    sink: &mut S,
    t: ThreadNo,
    request: &Request,
) -> Event
    requires due { (o : Opening) × (first : ℕ) × (es : List Entry) × (threads : List ThreadFrames)
        × (fs : ThreadFrames) × IsDue o first (C.facts set.now) heap.old es threads t fs request.now }
    requires room { length heap.old.history.acts < heap.old.history.limit }
    requires ready { IsReady (doing_of heap.old.machine t) }
    requires can { CanEnd (log_of heap.old.machine t).underway }
    requires open { 0 < (log_of heap.old.machine t).depth }
    requires is_end { (from : At) × (request.now ≡ ask.End from) }
    ensures serves { Serves (C.facts set.now) t request.now result heap.old heap.new (S.takes sink.old) (S.takes sink.new)
        (S.taken sink.old) (S.taken sink.new) (S.faults sink.old) (S.faults sink.new) }
    ensures sink { sink.new ≡ sink.old }
{
    laws();
    match heap.end_next(t) {
        Ok(EndStep::Ended) => {
            // that so many acts can be counted
            let _count = heap.acts().len();
            let step = heap.take(set, sink, t, request);
            ended(request, step)
        }
        Ok(EndStep::More) => Event::Micro,
        Ok(EndStep::AllFenced) => Event::Micro,
        Err(_) => Event::Over(Halt::Met(StepFault::ImageFault)),
    }
}
