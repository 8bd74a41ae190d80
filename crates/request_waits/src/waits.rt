// What requests wait for.
ghost use Rattle.std.specs.Prelude.{◌≡◌, ◌<◌, ℕ, List, length, slice_get};
ghost use Rattle.run_types.specs.declared.resolved.At.{At as From};
ghost use Rattle.graph_model.specs.declared.types.Root.{Root};
ghost use Rattle.monitors.specs.Held.{monitor_of, owner_of};
ghost use Rattle.natives.specs.declared.requests.Request.TheVariants as ask;
ghost use Rattle.plain_model.specs.Ends.{wait_of};
ghost use Rattle.plain_model.specs.Facts.{SetFacts};
ghost use Rattle.plain_model.specs.Steps.{step};
ghost use Rattle.shared_objects.specs.Plain.{IsKnownKey, plain_request};
ghost use Rattle.shared_objects.specs.Shown.{IsKnown};
ghost use Rattle.shared_objects.specs.Worlds.{KnowsMonitors, world_of};
ghost use Rattle.step_forms.specs.Follows.{Agrees, IsHeapOf};
ghost use Rattle.step_forms.specs.Needs.{HeadIsHere, IsAskable, KeyIsHere};
ghost use Rattle.request_waits.specs.Waiting.{end_wait, owner_wait, progress_wait};

use ap_base::{Ref, ThreadNo};
use natives::Request;
use run_history::Progress;
use run_types::{Key, On};
use shared_objects::{Objects, Rest, ThreadState, Types};
use step_forms::numbered;

// The wait for a monitor: for its owner, if another thread holds it (JVMS 2.11.10).
fn monitor_wait(rest: &Rest, t: ThreadNo, key: Key) -> Option<On>
    ensures wait { result ≡ owner_wait t (owner_of (monitor_of rest.now.monitors key)) }
{
    match rest.monitors.holder(key) {
        Some(owner) => {
            if owner.number() == t.number() {
                None
            } else {
                Some(On::Monitor(owner))
            }
        }
        None => None,
    }
}

// The wait for a class: for the thread that initialises it, if that is another one (JVMS 5.5).
fn class_wait(rest: &Rest, t: ThreadNo, class: u32) -> Option<On>
    requires there { class < length rest.now.classes.items }
    ensures wait { result ≡ progress_wait t (slice_get rest.now.classes.items class) }
{
    match rest.classes[class as usize] {
        Progress::BegunBy(u) => {
            if u.number() == t.number() {
                None
            } else {
                Some(On::Init(u))
            }
        }
        Progress::Untouched | Progress::Finished => None,
    }
}

// The wait for the end of a thread that was started.
fn end_wait(started: Option<(ThreadNo, ThreadState)>) -> Option<On>
    ensures wait { result ≡ end_wait started }
{
    match started {
        Some(found) => {
            if found.1.ended {
                None
            } else {
                Some(On::Join(found.0))
            }
        }
        None => None,
    }
}

// What an entry of a monitor waits for. Null throws, and waits for nothing.
fn enter_wait<O: Objects>(objects: &O, rest: &Rest, t: ThreadNo, key: Key) -> Option<On>
    requires monitors { KnowsMonitors (O.shown objects.now) rest.now }
    requires known { IsKnownKey (O.shown objects.now).number key }
    requires here { KeyIsHere (O.is_here objects.now) (O.shown objects.now) key }
    ensures wait { (set : SetFacts) (roots : List Root) (from : From)
        → result ≡ wait_of (step set (world_of roots (O.shown objects.now) rest.now) t 1
        (plain_request (O.shown objects.now).number (ask.Enter from key))) }
{
    match key {
        Key::Class(class) => monitor_wait(rest, t, Key::Class(class)),
        Key::Object(object) => match numbered(objects, object) {
            Some(_) => monitor_wait(rest, t, Key::Object(objects.key_of(object))),
            None => None,
        },
    }
}

// What a join waits for: the end of the Thread object's thread, if it was started.
fn join_wait<C: Types, O: Objects>(set: &C, objects: &O, rest: &Rest, thread: Ref) -> Option<On>
    requires heap { IsHeapOf (C.facts set.now) (O.shown objects.now) }
    requires known { IsKnown (O.shown objects.now).number thread }
    requires here { HeadIsHere (O.is_here objects.now) (O.shown objects.now) thread }
    ensures wait { (t : ℕ) (roots : List Root) (from : From)
        → result ≡ wait_of (step (C.facts set.now)
        (world_of roots (O.shown objects.now) rest.now) t 1
        (plain_request (O.shown objects.now).number (ask.Join from thread))) }
{
    match numbered(objects, thread) {
        Some(object) => {
            if set.is_sub(objects.shape_of(thread), set.known().thread) {
                end_wait(rest.threads.started(object))
            } else {
                None
            }
        }
        None => None,
    }
}

/// What the request's step would wait for now, if it would wait: the owner of a monitor that another thread
/// holds (JVMS 2.11.10), the thread that initialises the class (JVMS 5.5), or the thread whose end is awaited.
/// Nothing is changed, and no step is made.
pub fn wait_of<C: Types, O: Objects>(
    set: &C,
    objects: &O,
    rest: &Rest,
    t: ThreadNo,
    request: &Request,
) -> Option<On>
    requires agrees { Agrees (C.facts set.now) (O.shown objects.now) rest.now }
    requires asks { IsAskable (C.facts set.now) (O.is_here objects.now)
        (O.is_static_here objects.now) (O.shown objects.now) rest.now t request.now }
    ensures wait { (roots : List Root) → result ≡ wait_of (step (C.facts set.now)
        (world_of roots (O.shown objects.now) rest.now) t 1
        (plain_request (O.shown objects.now).number request.now)) }
{
    match *request {
        Request::New { class, .. } => class_wait(rest, t, class),
        Request::Init { class, .. } => class_wait(rest, t, class),
        Request::GetStatic { field, .. } => class_wait(rest, t, field.class),
        Request::PutStatic { field, .. } => class_wait(rest, t, field.class),
        Request::Enter { key, .. } => enter_wait(objects, rest, t, key),
        Request::Join { thread, .. } => join_wait(set, objects, rest, thread),
        _ => None,
    }
}
