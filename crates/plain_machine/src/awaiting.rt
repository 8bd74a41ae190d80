// What the step of a thread's request does next, without doing it.
ghost use Rattle.std.specs.Prelude.{◌≡◌, ◌<◌, ◌↔◌, IfSome, List, None, false, length, ℕ};
ghost use Rattle.ap_base.specs.declared.reference.Item.{Item as ItemOf};
ghost use Rattle.run_types.specs.declared.resolved.At.{At};
ghost use Rattle.run_types.specs.declared.resolved.FieldAt.{FieldAt};
ghost use Rattle.run_history.specs.Recorded.{Recorded};
ghost use Rattle.natives.specs.declared.requests.Request.TheVariants as ask;
ghost use Rattle.plain_heap.specs.Heaps.{HasRoom, shown_of};
ghost use Rattle.plain_model.specs.Runs.{op_given, request_after};
ghost use Rattle.run_forms.specs.Standing.{Launch, known_at, plain_code};
ghost use Rattle.shared_objects.specs.Shown.{IsKnownItem};
ghost use Rattle.step_forms.specs.Becomes.{given};
ghost use Rattle.step_forms.specs.Follows.{Agrees};
ghost use Rattle.step_forms.specs.Needs.{IsAskable};
ghost use Rattle.plain_machine.specs.Standing.{Stands};
ghost use Rattle.plain_machine.specs.Telling.{IsAwaited, PlansTo, awaited, begins_class, op_stored};
ghost use Rattle.plain_machine.specs.Trying.{IsKept, IsReady};

use crate::foreseeing::{begun, raised};
use crate::lanes::turned;
use crate::plain::{Plain, is_live};
use crate::world::PlainWorld;
use ap_base::{Item, Place, Ref, ThreadNo};
use frame_thread::Host;
use natives::{Native, NativeState, Request};
use object_steps::{Planned, Store, Target, plan_element, plan_field, plan_static};
use plain_heap::PlainHeap;
use run_history::{Op, Progress};
use shared_objects::{Rest, Types};
use step_forms::valued;

/// Whether a store to a static field begins the initialisation of its class first.
fn begins_class(classes: &[Progress], request: &Request) -> bool
    requires there { (from : At) (field : FieldAt) (value : ItemOf) → request.now ≡ ask.PutStatic from field value
        → field.class < length classes.now }
    ensures { result ≡ begins_class classes.now request.now }
{
    match *request {
        Request::PutStatic { field, .. } => begun(classes, field.class).is_some(),
        _ => false,
    }
}

/// The operation of a store.
fn op_stored(heap: &PlainHeap, store: Store) -> Op
    requires known { IsKnownItem (shown_of heap.now).number store.kept }
    ensures { result ≡ op_stored (shown_of heap.now) store }
{
    let place = match store.target {
        Target::Static(n) => Place::Static(n),
        Target::Slot { object, index, .. } => Place::Slot { object, index },
    };
    Op::Stored {
        place,
        value: valued(heap, store.kept),
    }
}

/// What the tests of a request that stores come to; none of any other request.
fn planned<C: Types>(
    set: &C,
    heap: &mut PlainHeap,
    rest: &mut Rest,
    t: ThreadNo,
    request: &Request,
) -> Option<Planned>
    requires agrees { Agrees (C.facts set.now) (shown_of heap.old) rest.old }
    requires asks { IsAskable (C.facts set.now) (λ n i. Unit {0}) (λ n. Unit {0}) (shown_of heap.old) rest.old t
        request.now }
    requires room { HasRoom heap.old }
    ensures none { (result ≡ None) ↔ (given request.now ≡ None) }
    ensures same { result ≡ None → (heap.new ≡ heap.old) × (rest.new ≡ rest.old) }
    ensures plans { IfSome result (PlansTo (C.facts set.now) t request.now (shown_of heap.old) rest.old
        (shown_of heap.new) rest.new) }
{
    match *request {
        Request::PutStatic { field, value, .. } => Some(plan_static(heap, rest, t, field, value)),
        Request::PutField {
            holder,
            field,
            value,
            ..
        } => Some(plan_field(set, heap, holder, field, value)),
        Request::PutElement {
            array,
            index,
            kind,
            value,
            ..
        } => Some(plan_element(set, heap, array, index, kind, value)),
        _ => None,
    }
}

impl PlainWorld {
    /// The store or the End that a request's step does, if it does one. All is as before.
    fn ahead<C: Types>(&mut self, set: &C, t: ThreadNo, request: &Request) -> Option<Op>
        requires ready { IsReady (C.facts set.now) (shown_of self.old.heap) self.old.rest self.old.steps }
        requires asks { IsAskable (C.facts set.now) (λ n i. Unit {0}) (λ n. Unit {0}) (shown_of self.old.heap)
            self.old.rest t request.now }
        ensures ready { IsReady (C.facts set.now) (shown_of self.new.heap) self.new.rest self.new.steps }
        ensures kept { IsKept (shown_of self.old.heap) self.old.rest (shown_of self.new.heap) self.new.rest }
        ensures tells { IsAwaited (C.facts set.now) (shown_of self.old.heap) self.old.rest t request.now result }
    {
        if let Request::End { .. } = *request {
            return raised(&self.rest.threads, t);
        }
        if begins_class(self.rest.classes.as_slice(), request) {
            return None;
        }
        self.heap.close();
        match planned(set, &mut self.heap, &mut self.rest, t, request) {
            Some(Planned::Stores(store)) => Some(op_stored(&self.heap, store)),
            Some(Planned::Ends(_)) => None,
            None => None,
        }
    }
}

impl Plain {
    /// The store or the End that the step of the thread's request does next, if it does one. It isn't done: the machine stands
    /// for the same acts then. Takes no memory.
    pub fn ahead<C: Types, H: Host<Native, Ref, NativeState, Item>>(
        &mut self,
        set: &C,
        host: &H,
        t: ThreadNo,
    ) -> Option<Op>
        requires stands { (launch : Launch) × (acts : List Recorded) × Stands launch acts
            (C.facts set.now) (H.setting host.now) (shown_of self.old.world.heap)
            self.old.world.rest self.old.world.steps self.old.lanes.items }
        ensures tells { (launch : Launch) (acts : List Recorded) → Stands launch acts
            (C.facts set.now) (H.setting host.now) (shown_of self.old.world.heap)
            self.old.world.rest self.old.world.steps self.old.lanes.items
            → result ≡ awaited (op_given launch.set (known_at launch acts).world t 1
            (request_after launch.set launch.main launch.opening (plain_code launch) acts t)) }
        ensures same { (launch : Launch) (acts : List Recorded) → Stands launch acts
            (C.facts set.now) (H.setting host.now) (shown_of self.old.world.heap)
            self.old.world.rest self.old.world.steps self.old.lanes.items
            → Stands launch acts (C.facts set.now) (H.setting host.now) (shown_of self.new.world.heap)
            self.new.world.rest self.new.world.steps self.new.lanes.items }
    {
        run_forms::machines_go_on_as_plain_runs();
        run_forms::moved_heaps_stand_for_the_same_run();
        let at = t.number() as usize;
        if at >= self.lanes.len() {
            return None;
        }
        if !is_live(&self.world.rest.threads, t) {
            return None;
        }
        let request = turned(&mut self.lanes[at], host);
        let told = self.world.ahead(set, t, &request);
        self.lanes[at].asked = Some(request);
        told
    }
}
