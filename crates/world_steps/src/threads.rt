// Threads.
ghost use Rattle.std.specs.Prelude.{◌≡◌, ◌<◌, ℕ, length};
ghost use Rattle.natives.specs.declared.requests.Request.TheVariants as ask;
ghost use Rattle.run_types.specs.declared.resolved.At.{At as From};
ghost use Rattle.plain_model.specs.Facts.{SetFacts};
ghost use Rattle.shared_objects.specs.Shown.{IsKnown};
ghost use Rattle.shared_objects.specs.declared.rest.Rest.{Rest as RestOf};
ghost use Rattle.shared_objects.specs.Worlds.{KnowsMonitors};
ghost use Rattle.step_forms.specs.Becomes.{Becomes, IsQuiet};
ghost use Rattle.step_forms.specs.Follows.{IsHeapOf, IsStep};
ghost use Rattle.step_forms.specs.Needs.{HeadIsHere};
ghost use Rattle.world_steps.specs.Rests.{IsRestStep, awaited, waited_for};

use ap_base::{Ref, ThreadNo};
use natives::Reply;
use plain_model::Throws;
use run_history::Op;
use run_types::{On, StepFault};
use shared_objects::{Objects, Rest, Types};
use step_forms::{Stepped, numbered, throw};

/// A turn ended without a shared instruction.
pub fn pause() -> Stepped
    ensures step { (set : SetFacts) (t : ℕ) (rest : RestOf)
        → IsRestStep set t (λ from. ask.Pause) rest result rest }
    ensures quiet { IsQuiet result }
{
    Stepped::Did {
        op: Op::Pause,
        reply: Reply::Done,
    }
}

/// Starts the thread of a Thread object, which may be started once.
pub fn start<C: Types, O: Objects>(
    set: &C,
    objects: &mut O,
    rest: &mut Rest,
    thread: Ref,
) -> Stepped
    requires heap { IsHeapOf (C.facts set.now) (O.shown objects.old) }
    requires monitors { KnowsMonitors (O.shown objects.old) rest.old }
    requires known { IsKnown (O.shown objects.old).number thread }
    requires head { HeadIsHere (O.is_here objects.old) (O.shown objects.old) thread }
    requires make { O.may_make objects.old }
    ensures step { (t : ℕ) (from : From) → IsStep (C.facts set.now) t (ask.Start from thread)
        (O.shown objects.old) rest.old result (O.shown objects.new) rest.new }
    ensures heap { Becomes O.shown O.stores O.makes objects.old result objects.new }
{
    let Some(object) = numbered(objects, thread) else {
        return throw(set, objects, Throws::NullPointer);
    };
    if !set.is_sub(objects.shape_of(thread), set.known().thread) {
        return Stepped::Wrong;
    }
    if rest.threads.started(object).is_some() {
        return throw(set, objects, Throws::IllegalThreadState);
    }
    match rest.threads.start(object) {
        Err(full) => Stepped::Over(StepFault::Full(full)),
        Ok(child) => Stepped::Did {
            op: Op::Start { object, child },
            reply: Reply::Done,
        },
    }
}

fn waited_for(object: u32) -> Stepped
    ensures is { result ≡ waited_for object }
    ensures quiet { IsQuiet result }
{
    Stepped::Did {
        op: Op::Join { object },
        reply: Reply::Done,
    }
}

// A thread that was started is waited for until it has ended.
fn await_end(object: u32, t: ThreadNo, ended: bool) -> Stepped
    ensures is { result ≡ awaited object t ended }
    ensures quiet { IsQuiet result }
{
    if ended {
        waited_for(object)
    } else {
        Stepped::Waits(On::Join(t))
    }
}

/// Waits for the end of a Thread object's thread, if it was started.
pub fn join<C: Types, O: Objects>(set: &C, objects: &mut O, rest: &Rest, thread: Ref) -> Stepped
    requires heap { IsHeapOf (C.facts set.now) (O.shown objects.old) }
    requires monitors { KnowsMonitors (O.shown objects.old) rest.now }
    requires known { IsKnown (O.shown objects.old).number thread }
    requires head { HeadIsHere (O.is_here objects.old) (O.shown objects.old) thread }
    requires make { O.may_make objects.old }
    ensures step { (t : ℕ) (from : From) → IsStep (C.facts set.now) t (ask.Join from thread)
        (O.shown objects.old) rest.now result (O.shown objects.new) rest.now }
    ensures heap { Becomes O.shown O.stores O.makes objects.old result objects.new }
{
    let Some(object) = numbered(objects, thread) else {
        return throw(set, objects, Throws::NullPointer);
    };
    if !set.is_sub(objects.shape_of(thread), set.known().thread) {
        return Stepped::Wrong;
    }
    match rest.threads.started(object) {
        None => waited_for(object),
        Some(found) => await_end(object, found.0, found.1.ended),
    }
}

/// The thread has ended, by a throwable of this class if there is one.
pub fn leave(rest: &mut Rest, t: ThreadNo, uncaught: Option<u32>) -> Stepped
    requires there { t < length rest.old.threads }
    ensures step { (set : SetFacts) → IsRestStep set t (λ from. ask.Leave uncaught) rest.old result
        rest.new }
    ensures quiet { IsQuiet result }
{
    rest.threads.leave(t, uncaught);
    Stepped::Did {
        op: Op::Ended { uncaught },
        reply: Reply::Done,
    }
}
