// The operation by which alone a request can change monitors, classes or threads.
ghost use Rattle.std.specs.Prelude.{◌≡◌, ◌<◌, ◌↔◌, All, IfSome, IsNone, IsSome, None, Some, length, slice_get, ℕ};
ghost use Rattle.monitors.specs.declared.monitor.Monitor.{Monitor as MonitorOf};
ghost use Rattle.monitors.specs.Held.{IsHeldBy, monitor_of};
ghost use Rattle.plain_heap.specs.Heaps.{shown_of};
ghost use Rattle.plain_model.specs.Facts.{SetFacts};
ghost use Rattle.shared_objects.specs.Plain.{IsKnownKey};
ghost use Rattle.shared_objects.specs.Shown.{IsKnown};
ghost use Rattle.shared_objects.specs.Threads.{depth_at};
ghost use Rattle.step_forms.specs.Follows.{Agrees};
ghost use Rattle.step_forms.specs.Needs.{IsAskable};
ghost use Rattle.plain_machine.specs.Foreseeing.{Foresees, key_named, op_begun, op_entered, op_raised, op_started};
ghost use Rattle.plain_machine.specs.Exits.{OpExited};

use crate::monitored::holds;
use ap_base::{Ref, ThreadNo};
use natives::Request;
use plain_heap::PlainHeap;
use run_history::{Op, PlainKey, Progress, Stage};
use run_types::Key;
use shared_objects::{Rest, Threads};
use step_forms::numbered;

/// A class that nobody has begun is begun.
pub(crate) fn begun(classes: &[Progress], class: u32) -> Option<Op>
    requires there { class < length classes.now }
    ensures { result ≡ op_begun class (slice_get classes.now class) }
{
    match classes[class as usize] {
        Progress::Untouched => Some(Op::Init {
            class,
            is: Stage::Begun,
        }),
        _ => None,
    }
}

/// The key of an object's or a class's monitor, none for null.
fn key_named(heap: &PlainHeap, key: Key) -> Option<PlainKey>
    requires known { IsKnownKey (shown_of heap.now).number key }
    ensures { result ≡ key_named (shown_of heap.now).number key }
{
    match key {
        Key::Class(class) => Some(PlainKey::Class(class)),
        Key::Object(object) => match numbered(heap, object) {
            None => None,
            Some(n) => Some(PlainKey::Object(n)),
        },
    }
}

/// A monitor is entered.
fn entered(heap: &PlainHeap, key: Key) -> Option<Op>
    requires known { IsKnownKey (shown_of heap.now).number key }
    ensures { result ≡ op_entered (key_named (shown_of heap.now).number key) }
{
    match key_named(heap, key) {
        None => None,
        Some(key) => Some(Op::Enter { key }),
    }
}

/// A monitor that the thread holds is left.
fn exited(heap: &PlainHeap, rest: &mut Rest, t: ThreadNo, key: Key) -> Option<Op>
    requires known { IsKnownKey (shown_of heap.now).number key }
    requires entered { All (λ (m : MonitorOf). 0 < m.count) rest.old.monitors }
    requires counts { All (λ (m : MonitorOf). m.count < 18446744073709551615) rest.old.monitors }
    ensures op { OpExited (key_named (shown_of heap.now).number key)
        (IsHeldBy t (monitor_of rest.old.monitors key)) result }
    ensures same { rest.new ≡ rest.old }
{
    let Some(named) = key_named(heap, key) else {
        return None;
    };
    if holds(&mut rest.monitors, t, key) {
        Some(Op::Exit { key: named })
    } else {
        None
    }
}

/// The thread of a Thread object is started that wasn't before.
fn started(heap: &PlainHeap, threads: &Threads, thread: Ref) -> Option<Op>
    requires known { IsKnown (shown_of heap.now).number thread }
    ensures { result ≡ op_started ((shown_of heap.now).number thread) threads.now }
{
    let Some(object) = numbered(heap, thread) else {
        return None;
    };
    if threads.started(object).is_some() {
        return None;
    }
    match ThreadNo::new(threads.count() as u8) {
        None => None,
        Some(child) => Some(Op::Start { object, child }),
    }
}

/// A level of the thread's region is left.
pub(crate) fn raised(threads: &Threads, t: ThreadNo) -> Option<Op>
    requires there { t < length threads.now }
    ensures { result ≡ op_raised (depth_at threads.now t) }
{
    if threads.depth(t) == 0 {
        None
    } else {
        Some(Op::End)
    }
}

/// The operation by which alone a request can change monitors, classes or threads, if its step
/// can. Nothing is changed.
pub(crate) fn foreseen(
    heap: &PlainHeap,
    rest: &mut Rest,
    t: ThreadNo,
    request: &Request,
) -> Option<Op>
    requires entered { All (λ (m : MonitorOf). 0 < m.count) rest.old.monitors }
    requires agrees { (set : SetFacts) × Agrees set (shown_of heap.now) rest.old × IsAskable set
        (λ n i. Unit {0})
        (λ n. Unit {0}) (shown_of heap.now) rest.old t request.now }
    ensures op { (set : SetFacts) → Agrees set (shown_of heap.now) rest.old → IsAskable set (λ n i. Unit {0})
        (λ n. Unit {0}) (shown_of heap.now) rest.old t request.now
        → Foresees set (shown_of heap.now) rest.old t request.now result }
    ensures same { rest.new ≡ rest.old }
{
    match *request {
        Request::New { class, .. } => begun(rest.classes.as_slice(), class),
        Request::Init { class, .. } => begun(rest.classes.as_slice(), class),
        Request::GetStatic { field, .. } => begun(rest.classes.as_slice(), field.class),
        Request::PutStatic { field, .. } => begun(rest.classes.as_slice(), field.class),
        Request::Enter { key, .. } => entered(heap, key),
        Request::Exit { key, .. } => exited(heap, rest, t, key),
        Request::Start { thread, .. } => started(heap, &rest.threads, thread),
        Request::InitDone { class, .. } => Some(Op::Init {
            class,
            is: Stage::Done,
        }),
        Request::Begin { .. } => Some(Op::Begin),
        Request::End { .. } => raised(&rest.threads, t),
        Request::Leave { uncaught } => Some(Op::Ended { uncaught }),
        _ => None,
    }
}
