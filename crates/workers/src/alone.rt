// A run of which one host thread makes all events.
ghost use Rattle.std.specs.Prelude.{◌≡◌, ℕ, Some, None, false};
ghost use Rattle.durable_run.specs.Passed.{Opening};
ghost use Rattle.durable_run.specs.Turning.{IsReady};
ghost use Rattle.workers.specs.Held.{IsOf, Knows, KnowsSink, began, held};

use crate::ends::all_ended;
use crate::halts::fault_of;
use crate::names::Naming;
use ap_base::{Gate, Item, Ref, Sink, ThreadNo};
use durable_run::{Run, Stepped, is_live, step};
use frame_thread::Host;
use line_image::Image;
use natives::{Native, NativeState};
use run_history::Watcher;
use run_types::RunFault;
use shared_objects::Types;
use std::marker::{Model, PhantomData};

/// A run that knows what it began with. Contracts see a `Held`.
#[derive(Drop)]
pub(crate) struct Alone<J: Naming<S>, I: Image, S: Sink, W: Watcher> {
    run: Run<I, S, W>,
    over: Option<RunFault>,
    of: PhantomData<J>,
}

impl<J: Naming<S>, I: Image, S: Sink, W: Watcher> Model for Alone<J, I, S, W> {
    ghost use Rattle.workers.specs.Held.{Held, Knows, KnowsSink, held};

    ghost Value = { Held };

    ghost view = { λ k. held k.run.heap k.run.frames.items (W.seen k.run.watcher) (S.taken k.run.sink)
        (S.faults k.run.sink) k.over };

    ghost invariant = { λ k. Knows J.entry (held k.run.heap k.run.frames.items (W.seen k.run.watcher)
        (S.taken k.run.sink) (S.faults k.run.sink) k.over) (S.takes k.run.sink)
        × KnowsSink S.taken J.entry J.sink k.over k.run.sink k.run.heap };
}

impl<J: Naming<S>, I: Image, S: Sink, W: Watcher> Alone<J, I, S, W> {
    /// A run from here on.
    pub(crate) fn new<C: Types, H: Host<Native, Ref, NativeState, Item>>(
        run: Run<I, S, W>,
        set: &C,
        host: &H,
    ) -> Alone<J, I, S, W>
        requires entry { J.entry ≡ Some (began (C.facts set.now) (H.setting host.now) run.heap run.frames.items
            (W.seen run.watcher) (S.taken run.sink) (S.takes run.sink) (S.faults run.sink)) }
        requires sink { J.sink ≡ Some run.sink }
        requires ready { (o : Opening) × (first : ℕ)
            × IsReady o first (C.facts set.now) (H.setting host.now) run.heap run.frames.items }
    {
        Alone {
            run,
            over: None,
            of: PhantomData,
        }
    }

    /// One that goes on with this run.
    pub(crate) fn again(run: Run<I, S, W>) -> Alone<J, I, S, W>
        requires knows { Knows J.entry (held run.heap run.frames.items (W.seen run.watcher) (S.taken run.sink)
            (S.faults run.sink) None) (S.takes run.sink) }
        requires sink { KnowsSink S.taken J.entry J.sink None run.sink run.heap }
    {
        Alone {
            run,
            over: None,
            of: PhantomData,
        }
    }

    /// Whether thread 0 is the only one that was started, and the run isn't over.
    pub(crate) fn is_alone(&self) -> bool {
        self.over.is_none() && self.run.heap.threads().count() == 1
    }

    /// Whether the run is over, or no thread lives.
    pub(crate) fn is_done(&self) -> bool
        ensures { result ≡ false → self.now.over ≡ None }
    {
        self.over.is_some() || all_ended(self.run.heap.threads())
    }

    /// One event of the thread that was started first, with this gate, unless the run is over or the thread has ended. Whether
    /// there may be another one, and no further thread was started.
    pub(crate) fn step<C: Types, H: Host<Native, Ref, NativeState, Item>, G: Gate>(
        &mut self,
        set: &C,
        host: &H,
        gate: &G,
        t: ThreadNo,
    ) -> bool
        requires of { IsOf (C.facts set.now) (H.setting host.now) J.entry }
    {
        if self.over.is_some() {
            return false;
        }
        if !is_live(self.run.heap.threads(), t) {
            return false;
        }
        let stepped = step(&mut self.run, set, host, gate, t);
        let started = self.run.heap.threads().count();
        if let Stepped::Over(halt) = stepped {
            let fault = fault_of(&self.run.heap, halt);
            self.over = Some(fault);
        }
        started == 1
    }

    /// The fault by which the run is over, if it is, and what is left.
    pub(crate) fn finish(self) -> (Option<RunFault>, Run<I, S, W>)
        ensures left { self ≡ held result.1.heap result.1.frames.items (W.seen result.1.watcher)
            (S.taken result.1.sink) (S.faults result.1.sink) result.0 }
        ensures knows { Knows J.entry self (S.takes result.1.sink) }
        ensures sink { KnowsSink S.taken J.entry J.sink result.0 result.1.sink result.1.heap }
    {
        let Alone { run, over, .. } = self;
        (over, run)
    }
}
