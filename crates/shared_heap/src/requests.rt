// The steps of requests, and stores.
ghost use Rattle.std.specs.Prelude.{◌≡◌, ◌↔◌, ◌<◌, ◌≤◌, length, List, None, Some};
ghost use Rattle.ap_base.specs.declared.reference.Item.{Item as GivenItem};
ghost use Rattle.monitors.specs.Indexed.{AreSound};
ghost use Rattle.shared_objects.specs.Worlds.{KnowsMonitors};
ghost use Rattle.step_forms.specs.Becomes.{IsNoStore, given};
ghost use Rattle.step_forms.specs.Follows.{Agrees};
ghost use Rattle.object_steps.specs.Stores.{CanStore, IsKeptOf, place_of};
ghost use Rattle.store_barrier.specs.Passed.{BehindGoes, FaultsGo, IsSilent, OutputGoes, SharesGo};
ghost use Rattle.twin_forms.specs.Table.{Entry};
ghost use Rattle.two_spaces.specs.Whole.{IsWhole, Stands};
ghost use Rattle.store_barrier.specs.Passed.{memory_of, shown_in};
ghost use Rattle.store_barrier.specs.Barriers.{AgreesWith, ConvertsFirst, IfConverts, IfFollows, IfLogs, IfNoRace, IfRaces};
ghost use Rattle.store_barrier.specs.Barriers.{IfStores, IsReady, MayFollow};
ghost use Rattle.store_barrier.specs.Regions.{HasLogged, IsApart, IsLineLeft, LogsFirst, Races};
ghost use Rattle.shared_heap.specs.Notes.{AreOf64};
ghost use Rattle.shared_heap.specs.Plans.{IfEnded, IfPlanned};
ghost use Rattle.shared_heap.specs.Requests.{AsksTo, IsPlannedFor, MayRequest, StepsTo, StoresTo, value_stored};

use crate::SharedHeap;
use crate::planning::plan_store;
use crate::telling::{doing_stored, note_start, place_of, tell_step};
use ap_base::{Sink, ThreadNo};
use line_image::Image;
use natives::Request;
use object_steps::{Planned, Store};
use run_history::{Act, Op};
use shared_objects::Types;
use step_forms::{Stepped, valued};
use store_barrier::{Barrier, Doing, ask_store, do_store, take_step};

/// What the tests of a request come to.
#[derive(Drop)]
pub enum Plan {
    /// It is no store.
    NoStore,
    /// Its tests are passed, and this is to be stored.
    Stores(Store),
    /// Its step is over, without a store.
    Ends(Stepped),
}

impl<I: Image> SharedHeap<I> {
    /// Makes the tests that come before a store. A request that is no store is left alone.
    pub fn plan<C: Types>(&mut self, set: &C, t: ThreadNo, request: &Request) -> Plan
        requires whole { IsWhole self.old.machine.spaces }
        requires long { 33 ≤ (memory_of self.old.machine).size }
        requires sound { AreSound self.old.machine.rest.monitors }
        requires agrees { Agrees (C.facts set.now) (shown_in self.old.machine)
            self.old.machine.rest }
        requires may { MayRequest (C.facts set.now) self.old.machine t request.now }
        requires room { length self.old.history.acts < self.old.history.limit }
        ensures none { (result ≡ Plan.NoStore) ↔ (given request.now ≡ None) }
        ensures same { result ≡ Plan.NoStore → self.new ≡ self.old }
        ensures stores { IfPlanned result (λ store. (self.new ≡ self.old)
            × IsPlannedFor (C.facts set.now) t request.now store self.old) }
        ensures kept { IfPlanned result (λ store. (item : GivenItem)
            → given request.now ≡ Some item → IsKeptOf item store.kept) }
        ensures ends { IfEnded result (λ step.
            StepsTo (C.facts set.now) t request.now step self.old self.new × IsNoStore step) }
    {
        let at = self.spaces.heap.memory.calls();
        match plan_store(set, &mut self.spaces, &mut self.rest, t, request) {
            None => Plan::NoStore,
            Some(Planned::Stores(store)) => Plan::Stores(store),
            Some(Planned::Ends(step)) => {
                tell_step(&mut self.acts, t, at, &step);
                Plan::Ends(step)
            }
        }
    }

    /// Takes the step of a request that is no store.
    pub fn take<C: Types, S: Sink>(
        &mut self,
        set: &C,
        sink: &mut S,
        t: ThreadNo,
        request: &Request,
    ) -> Stepped
        requires whole { IsWhole self.old.machine.spaces }
        requires long { 33 ≤ (memory_of self.old.machine).size }
        requires sound { AreSound self.old.machine.rest.monitors }
        requires agrees { Agrees (C.facts set.now) (shown_in self.old.machine)
            self.old.machine.rest }
        requires may { MayRequest (C.facts set.now) self.old.machine t request.now }
        requires room { length self.old.history.acts < self.old.history.limit }
        requires no_store { given request.now ≡ None }
        ensures steps { StepsTo (C.facts set.now) t request.now result self.old self.new }
        ensures threads { AreOf64 self.new.notes }
        ensures no_store { IsNoStore result }
        ensures share { SharesGo request.now (S.takes sink.old 0) result }
        ensures output { OutputGoes request.now (S.taken sink.old) result (S.taken sink.new) }
        ensures behind { BehindGoes request.now (S.takes sink.old) result (S.takes sink.new) }
        ensures cause { FaultsGo request.now (S.faults sink.old) result (S.faults sink.new) }
        ensures silent { IsSilent request.now → sink.new ≡ sink.old }
    {
        let at = self.spaces.heap.memory.calls();
        let before = self.acts.len();
        let step = take_step(set, &mut self.spaces, &mut self.rest, sink, t, request);
        tell_step(&mut self.acts, t, at, &step);
        note_start(&mut self.notes, request, &self.acts, before);
        self.notes.are_of_64();
        step
    }

    /// By which rule a store of a thread goes on that can be made.
    pub fn barrier(&self, t: ThreadNo, store: &Store) -> Barrier
        requires whole { IsWhole self.now.machine.spaces }
        requires can { CanStore (shown_in self.now.machine) store.now }
        requires long { 33 ≤ (memory_of self.now.machine).size }
        requires lines { self.now.lines ≡ (memory_of self.now.machine).size }
        ensures race { (es : List Entry) → Stands self.now.machine.spaces es
            → IfRaces result (Races self.now.machine.spaces es self.now.machine.logs t
            (place_of store.now.target)) }
        ensures apart { IfNoRace result (IsApart self.now.machine.spaces self.now.machine.logs t
            (place_of store.now.target)) }
        ensures convert { (es : List Entry) → Stands self.now.machine.spaces es
            → IfConverts result (ConvertsFirst self.now.machine.spaces es store.now) }
        ensures follows { IfFollows result (MayFollow self.now.machine.spaces store.now) }
        ensures log { (es : List Entry) → Stands self.now.machine.spaces es
            → IfLogs result (LogsFirst self.now.machine.spaces es self.now.machine.logs t
            (place_of store.now.target)) }
        ensures logged { (es : List Entry) → Stands self.now.machine.spaces es
            → IfStores result (λ _. HasLogged self.now.machine.spaces es self.now.machine.logs t
            (place_of store.now.target)) }
        ensures line { (es : List Entry) → Stands self.now.machine.spaces es
            → IfStores result (IsLineLeft self.now.machine.spaces es self.now.machine.logs t
            (place_of store.now.target)) }
    {
        ask_store(t, &self.spaces, &self.logs, store)
    }

    /// Asks what a store is to make durable: the thread converts that from now on.
    pub fn ask(&mut self, t: ThreadNo, store: &Store)
        requires whole { IsWhole self.old.machine.spaces }
        requires can { CanStore (shown_in self.old.machine) store.now }
        requires room { length self.old.history.acts < self.old.history.limit }
        ensures asked { AsksTo t (place_of store.now.target) (value_stored self.old store.now)
            self.old self.new }
    {
        let value = valued(&self.spaces, store.kept);
        let _ = self.acts.push(Act {
            thread: t,
            at: self.spaces.heap.memory.calls(),
            op: Op::Asked {
                place: place_of(store.target),
                value,
            },
        });
        self.doing[t.number() as usize] = Doing::Converting;
    }

    /// Makes a store before which nothing is to be converted or logged, to a place that no other thread's
    /// region guards. The line that is left of it, if one is, is to be written back next.
    pub fn store(&mut self, t: ThreadNo, store: Store, line: Option<u32>)
        requires ready { IsReady self.old.machine.spaces store }
        requires barrier { MayFollow self.old.machine.spaces store }
        requires apart { IsApart self.old.machine.spaces self.old.machine.logs t (place_of store.target) }
        requires logged { (es : List Entry) → Stands self.old.machine.spaces es
            → HasLogged self.old.machine.spaces es self.old.machine.logs t (place_of store.target) }
        requires line { (es : List Entry) → Stands self.old.machine.spaces es
            → IsLineLeft self.old.machine.spaces es self.old.machine.logs t (place_of store.target) line }
        requires agrees { AgreesWith self.old.machine.spaces self.old.machine.queue }
        requires monitors { KnowsMonitors (shown_in self.old.machine) self.old.machine.rest }
        requires room { length self.old.history.acts < self.old.history.limit }
        ensures stored { StoresTo t store line self.old self.new }
    {
        let at = self.spaces.heap.memory.calls();
        let step = do_store(&mut self.spaces, &mut self.queue, store);
        tell_step(&mut self.acts, t, at, &step);
        self.doing[t.number() as usize] = doing_stored(line);
    }
}
