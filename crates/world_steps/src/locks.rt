// Monitors of objects and of classes (JVMS 2.11.10).
ghost use Rattle.std.specs.Prelude.{◌≡◌, ℕ};
ghost use Rattle.natives.specs.declared.requests.Request.TheVariants as ask;
ghost use Rattle.run_types.specs.declared.key.Key.TheVariants as key_of;
ghost use Rattle.run_types.specs.declared.resolved.At.{At as From};
ghost use Rattle.plain_model.specs.Facts.{SetFacts};
ghost use Rattle.plain_model.specs.Steps.{enters, exits};
ghost use Rattle.shared_objects.specs.Shown.{IsKnown};
ghost use Rattle.shared_objects.specs.Worlds.{HasCounts, IsHeldKey, KnowsMonitors, plain_key, world_of};
ghost use Rattle.step_forms.specs.Becomes.{Becomes};
ghost use Rattle.step_forms.specs.Follows.{Goes, IsHeapOf, IsStep};
ghost use Rattle.step_forms.specs.Needs.{HeadIsHere};

use ap_base::{Ref, ThreadNo};
use monitors::Enter;
use natives::Reply;
use plain_model::Throws;
use run_history::{Op, PlainKey};
use run_types::{Full, Key, On, StepFault, Which};
use shared_objects::{Objects, Rest, Types};
use step_forms::{Stepped, numbered, throw};

// Enters a monitor by its one key.
fn enter_key<O: Objects>(
    objects: &O,
    rest: &mut Rest,
    t: ThreadNo,
    key: Key,
    plain: PlainKey,
) -> Stepped
    requires monitors { KnowsMonitors (O.shown objects.now) rest.old }
    requires counts { HasCounts rest.old }
    requires held { IsHeldKey (O.shown objects.now) key }
    requires plain { plain ≡ plain_key (O.shown objects.now).number key }
    ensures step { (set : SetFacts) → Goes (λ roots taken.
        enters set (world_of roots (O.shown objects.now) rest.old) t plain)
        t (O.shown objects.now) rest.old result (O.shown objects.now) rest.new }
    ensures heap { Becomes O.shown O.stores O.makes objects.now result objects.now }
{
    let _ = objects;
    match rest.monitors.enter(t, key) {
        Enter::Taken => Stepped::Did {
            op: Op::Enter { key: plain },
            reply: Reply::Done,
        },
        Enter::Held(u) => Stepped::Waits(On::Monitor(u)),
        Enter::Full => Stepped::Over(StepFault::Full(Full {
            which: Which::Monitors,
            need: 1,
            left: 0,
        })),
    }
}

/// Enters the monitor of an object, whichever of its references is given.
pub fn enter_object<C: Types, O: Objects>(
    set: &C,
    objects: &mut O,
    rest: &mut Rest,
    t: ThreadNo,
    object: Ref,
) -> Stepped
    requires heap { IsHeapOf (C.facts set.now) (O.shown objects.old) }
    requires monitors { KnowsMonitors (O.shown objects.old) rest.old }
    requires counts { HasCounts rest.old }
    requires known { IsKnown (O.shown objects.old).number object }
    requires head { HeadIsHere (O.is_here objects.old) (O.shown objects.old) object }
    requires make { O.may_make objects.old }
    ensures step { (from : From)
        → IsStep (C.facts set.now) t (ask.Enter from (key_of.Object object))
        (O.shown objects.old) rest.old result (O.shown objects.new) rest.new }
    ensures heap { Becomes O.shown O.stores O.makes objects.old result objects.new }
{
    let Some(n) = numbered(objects, object) else {
        return throw(set, objects, Throws::NullPointer);
    };
    let key = Key::Object(objects.key_of(object));
    enter_key(objects, rest, t, key, PlainKey::Object(n))
}

/// Enters the monitor of a class.
pub fn enter_class<O: Objects>(objects: &O, rest: &mut Rest, t: ThreadNo, class: u32) -> Stepped
    requires monitors { KnowsMonitors (O.shown objects.now) rest.old }
    requires counts { HasCounts rest.old }
    ensures step { (set : SetFacts) (from : From)
        → IsStep set t (ask.Enter from (key_of.Class class))
        (O.shown objects.now) rest.old result (O.shown objects.now) rest.new }
    ensures heap { Becomes O.shown O.stores O.makes objects.now result objects.now }
{
    enter_key(objects, rest, t, Key::Class(class), PlainKey::Class(class))
}

// Leaves a monitor by its one key.
fn exit_key<C: Types, O: Objects>(
    set: &C,
    objects: &mut O,
    rest: &mut Rest,
    t: ThreadNo,
    key: Key,
    plain: PlainKey,
) -> Stepped
    requires heap { IsHeapOf (C.facts set.now) (O.shown objects.old) }
    requires monitors { KnowsMonitors (O.shown objects.old) rest.old }
    requires held { IsHeldKey (O.shown objects.old) key }
    requires plain { plain ≡ plain_key (O.shown objects.old).number key }
    requires make { O.may_make objects.old }
    ensures step { Goes (λ roots taken.
        exits (C.facts set.now) (world_of roots (O.shown objects.old) rest.old) t plain)
        t (O.shown objects.old) rest.old result (O.shown objects.new) rest.new }
    ensures heap { Becomes O.shown O.stores O.makes objects.old result objects.new }
{
    match rest.monitors.exit(t, key) {
        Ok(()) => Stepped::Did {
            op: Op::Exit { key: plain },
            reply: Reply::Done,
        },
        Err(_) => throw(set, objects, Throws::IllegalMonitorState),
    }
}

/// Leaves the monitor of an object; a thread that isn't the owner throws.
pub fn exit_object<C: Types, O: Objects>(
    set: &C,
    objects: &mut O,
    rest: &mut Rest,
    t: ThreadNo,
    object: Ref,
) -> Stepped
    requires heap { IsHeapOf (C.facts set.now) (O.shown objects.old) }
    requires monitors { KnowsMonitors (O.shown objects.old) rest.old }
    requires known { IsKnown (O.shown objects.old).number object }
    requires head { HeadIsHere (O.is_here objects.old) (O.shown objects.old) object }
    requires make { O.may_make objects.old }
    ensures step { (from : From) → IsStep (C.facts set.now) t (ask.Exit from (key_of.Object object))
        (O.shown objects.old) rest.old result (O.shown objects.new) rest.new }
    ensures heap { Becomes O.shown O.stores O.makes objects.old result objects.new }
{
    let Some(n) = numbered(objects, object) else {
        return throw(set, objects, Throws::NullPointer);
    };
    let key = Key::Object(objects.key_of(object));
    exit_key(set, objects, rest, t, key, PlainKey::Object(n))
}

/// Leaves the monitor of a class; a thread that isn't the owner throws.
pub fn exit_class<C: Types, O: Objects>(
    set: &C,
    objects: &mut O,
    rest: &mut Rest,
    t: ThreadNo,
    class: u32,
) -> Stepped
    requires heap { IsHeapOf (C.facts set.now) (O.shown objects.old) }
    requires monitors { KnowsMonitors (O.shown objects.old) rest.old }
    requires make { O.may_make objects.old }
    ensures step { (from : From) → IsStep (C.facts set.now) t (ask.Exit from (key_of.Class class))
        (O.shown objects.old) rest.old result (O.shown objects.new) rest.new }
    ensures heap { Becomes O.shown O.stores O.makes objects.old result objects.new }
{
    exit_key(
        set,
        objects,
        rest,
        t,
        Key::Class(class),
        PlainKey::Class(class),
    )
}
