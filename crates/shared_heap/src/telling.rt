// Acts that requests add to a history.
ghost use Rattle.std.specs.Prelude.{◌≡◌, ◌<◌, ◌&&◌, length, slice_get, if◌then◌else◌};
ghost use Rattle.convert_queue.specs.Marks.{with_fence};
ghost use Rattle.run_history.specs.Recorded.{acts_of, with_act};
ghost use Rattle.object_steps.specs.Stores.{place_of};
ghost use Rattle.shared_heap.specs.Requests.{doing_stored, noted_act, noted_of, told_at};

use crate::notes::Notes;
use ap_base::{Place, Ref, ThreadNo};
use convert_queue::Conversions;
use natives::Request;
use object_steps::Target;
use run_history::{Act, Acts, Op};
use step_forms::Stepped;
use store_barrier::Doing;

// Adds the act of a step, where it did something, after so many calls of the image.
pub(crate) fn tell_step(acts: &mut Acts, thread: ThreadNo, at: u64, step: &Stepped)
    requires room { length acts.old.acts < acts.old.limit }
    ensures told { acts.new ≡ told_at thread at acts.old step.now }
{
    if let Stepped::Did { op, .. } = *step {
        let _ = acts.push(Act { thread, at, op });
    }
}

// Notes the thread that the act behind so many others has started, if it has, with this reference to its Thread object. Few
// requests come here.
#[inline(never)]
fn note_child(notes: &mut Notes, thread: Ref, acts: &Acts, before: u32)
    ensures noted { notes.new ≡ noted_act thread (slice_get (acts_of acts.now) before) notes.old }
{
    if let Some(act) = acts.get(before) {
        if let Op::Start { child, .. } = act.op {
            notes.start(child, thread);
        }
    }
}

// Notes the thread that the act of a request has started, if it has, with the reference that the request gave. The act stands
// behind so many others.
#[inline(always)]
pub(crate) fn note_start(notes: &mut Notes, request: &Request, acts: &Acts, before: u32)
    ensures noted { notes.new ≡ noted_of request.now (slice_get (acts_of acts.now) before) notes.old }
{
    if let Request::Start { thread, .. } = *request {
        note_child(notes, thread, acts, before);
    }
}

// What a thread is about after its store.
pub(crate) fn doing_stored(line: Option<u32>) -> Doing
    ensures { result ≡ doing_stored line }
{
    match line {
        None => Doing::Nothing,
        Some(line) => Doing::Writing(line),
    }
}

/// The place to which a store goes.
pub fn place_of(target: Target) -> Place
    ensures { result ≡ place_of target }
{
    match target {
        Target::Static(field) => Place::Static(field),
        Target::Slot { object, index, .. } => Place::Slot { object, index },
    }
}

// Adds the act of an operation, after so many calls of the image.
#[inline(always)]
pub(crate) fn tell_op(acts: &mut Acts, thread: ThreadNo, at: u64, op: Op)
    requires room { length acts.old.acts < acts.old.limit }
    ensures told { acts.new ≡ with_act acts.old (record { thread = thread; at = at; op = op }) }
{
    let _ = acts.push(Act { thread, at, op });
}

// Tells conversions of the fence that a log's call made: of none where no fence was next, or the call failed.
pub(crate) fn tell_log_fence(queue: &mut Conversions, fences: bool, made: bool)
    ensures told { queue.new ≡ record queue.old {
      marks = if fences && made then with_fence queue.old.marks else queue.old.marks;
    } }
{
    if fences && made {
        queue.fenced();
    }
}
