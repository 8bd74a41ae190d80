// What threads ask, and what they wait for.
ghost use Rattle.std.specs.Prelude.{◌≡◌, ◌↔◌, ◌≤◌, List, slice_get, IsSome, IsTrue, None, Some};
ghost use Rattle.ap_base.specs.declared.reference.Ref.{Ref as Reference};
ghost use Rattle.ap_base.specs.declared.reference.Item.{Item};
ghost use Rattle.graph_model.specs.declared.types.Root.{Root};
ghost use Rattle.natives.specs.declared.requests.Request.{Request as Asked};
ghost use Rattle.plain_model.specs.Ends.{wait_of};
ghost use Rattle.plain_model.specs.Steps.{step};
ghost use Rattle.shared_objects.specs.Plain.{plain_request};
ghost use Rattle.shared_objects.specs.Worlds.{world_of};
ghost use Rattle.step_forms.specs.Follows.{Agrees};
ghost use Rattle.two_spaces.specs.Whole.{IsWhole};
ghost use Rattle.store_barrier.specs.Passed.{memory_of, shown_in};
ghost use Rattle.shared_heap.specs.Notes.{AreOf64, answered, asked_by, asking, taken, waiting};
ghost use Rattle.shared_heap.specs.Requests.{MayRequest};

use crate::SharedHeap;
use ap_base::{Ref, ThreadNo};
use line_image::Image;
use natives::Request;
use request_waits::wait_of;
use run_types::On;
use shared_objects::Types;

impl<I: Image> SharedHeap<I> {
    /// Whether a thread has asked a request that isn't answered yet.
    pub fn has_asked(&self, t: ThreadNo) -> bool
        ensures { IsTrue result ↔ IsSome (asked_by self.now.notes t) }
    {
        self.notes.asked(t).is_some()
    }

    /// The request that a thread has asked, if it isn't answered yet. It is noted no more.
    pub fn take_asked(&mut self, t: ThreadNo) -> Option<Request>
        ensures asked { slice_get self.old.notes.asks t ≡ Some result }
        ensures taken { self.new ≡ record self.old { notes = taken self.old.notes t } }
        ensures threads { AreOf64 self.new.notes }
    {
        self.notes.take(t)
    }

    /// Notes that a thread asks this, and that its last event waited for nothing.
    pub fn ask_for(&mut self, t: ThreadNo, request: Request)
        ensures asks { self.new ≡ record self.old { notes = asking self.old.notes t request } }
        ensures threads { AreOf64 self.new.notes }
    {
        self.notes.ask(t, request);
    }

    /// Notes that the last event of a thread waited for this. What it asks stays.
    pub fn waits_on(&mut self, t: ThreadNo, on: On)
        ensures waits { self.new ≡ record self.old { notes = waiting self.old.notes t on } }
        ensures threads { AreOf64 self.new.notes }
    {
        self.notes.wait(t, on);
    }

    /// Notes that a thread asks nothing, and that its last event waited for nothing.
    pub fn answered(&mut self, t: ThreadNo)
        ensures answered { self.new ≡ record self.old { notes = answered self.old.notes t } }
        ensures threads { AreOf64 self.new.notes }
    {
        self.notes.answer(t);
    }

    /// What the last event of a thread waited for, if it waited.
    pub fn waiting(&self, t: ThreadNo) -> Option<On>
        ensures { slice_get self.now.notes.waits t ≡ Some result }
    {
        self.notes.waiting(t)
    }

    /// The reference to its Thread object with which a thread was started; none of a thread that no request has
    /// started.
    pub fn begins(&self, t: ThreadNo) -> Option<Ref>
        ensures { slice_get self.now.notes.started t ≡ Some result }
    {
        self.notes.started(t)
    }

    /// What the step of the request that is noted for a thread would wait for now, if it would wait. None where no
    /// request is noted.
    pub fn plain_wait<C: Types>(&self, set: &C, t: ThreadNo) -> Option<On>
        requires whole { IsWhole self.now.machine.spaces }
        requires long { 33 ≤ (memory_of self.now.machine).size }
        requires agrees { Agrees (C.facts set.now) (shown_in self.now.machine)
            self.now.machine.rest }
        requires may { (request : Asked Reference Item) → asked_by self.now.notes t ≡ Some request
            → MayRequest (C.facts set.now) self.now.machine t request }
        ensures waits { (request : Asked Reference Item) (roots : List Root)
            → asked_by self.now.notes t ≡ Some request
            → result ≡ wait_of (step (C.facts set.now)
            (world_of roots (shown_in self.now.machine) self.now.machine.rest) t 1
            (plain_request (shown_in self.now.machine).number request)) }
        ensures none { asked_by self.now.notes t ≡ None → result ≡ None }
    {
        match self.notes.asked(t) {
            Some(request) => wait_of(set, &self.spaces, &self.rest, t, request),
            None => None,
        }
    }
}
