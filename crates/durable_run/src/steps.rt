// Events of threads.
ghost use Rattle.std.specs.Prelude.{◌≡◌, ◌<◌, ◌≤◌, ℕ, length, slice_get, Some, true, IsSome};
ghost use Rattle.run_types.specs.declared.fault.Which.TheVariants as which;
ghost use Rattle.run_forms.specs.Views.{ThreadFrames};
ghost use Rattle.machine.specs.Passed.{Opening, memory_of};
ghost use Rattle.machine.specs.declared.events.Halt.TheVariants.{Met};
ghost use Rattle.machine.specs.Events.{KeepsBound};
ghost use Rattle.machine.specs.Halts.{lacks};
ghost use Rattle.machine.specs.Passed.{Shared, asked_by, started_as};
ghost use Rattle.durable_run.specs.Apart.{after_event};
ghost use Rattle.durable_run.specs.Events.{AddsBy, FindsItsWait, LeavesAlone, LeavesLess, RemembersAfter, StepsTo};
ghost use Rattle.durable_run.specs.Events.{event_of, fault_of, with_begun};
ghost use Rattle.durable_run.specs.Shares.{PrintsShares};
ghost use Rattle.durable_run.specs.Sparing.{SparesSink};
ghost use Rattle.durable_run.specs.Telling.{AddsShare, HasTold, IsCaused};
ghost use Rattle.durable_run.specs.Turning.{IsReady, asks_next, is_live, turns_after};

use crate::apart::{begin_started, step_asked, step_come};
use crate::parts::begun;
use crate::run::Run;
use ap_base::{Gate, Item, Ref, Sink, ThreadNo};
use frame_thread::Host;
use line_image::Image;
use machine::{Halt, SharedHeap};
use natives::{Native, NativeState};
use private_steps::Frames;
use run_history::Watcher;
use run_types::On;
use shared_objects::Types;

/// How a thread's event went.
#[derive(Drop)]
pub enum Stepped {
    /// What it asked is done, by an act.
    Acted,
    /// A step of persistence was made: the thread asks the same still.
    Micro,
    /// The thread waits for this, and asks the same still.
    WouldWait(On),
    /// The run is over.
    Over(Halt),
}

// The frames begin of the thread that is behind so many, if it was started.
#[inline(always)]
fn begin_next<I: Image>(
    frames: &mut Vec<Frames<Ref, NativeState>>,
    heap: &SharedHeap<I>,
    before: usize,
)
    requires many { length frames.old.items ≡ 64 }
    ensures begun { before < length heap.now.machine.rest.threads → frames.new.items
        ≡ with_begun frames.old.items before (started_as heap.now.notes before) }
    ensures none { length heap.now.machine.rest.threads ≤ before → frames.new.items ≡ frames.old.items }
{
    if heap.threads().count() <= before {
        return;
    }
    if let Some(child) = ThreadNo::new(before as u8) {
        begin_started(&mut frames[child.number() as usize], heap, child);
    }
}

// After an event of a run that had so many threads, the thread begins that it started, if it did.
#[inline(always)]
fn begin_after<I: Image>(
    frames: &mut Vec<Frames<Ref, NativeState>>,
    heap: &SharedHeap<I>,
    before: usize,
    went: &Stepped,
)
    requires many { length frames.old.items ≡ 64 }
    ensures begun { (old : Shared) → before ≡ length old.machine.rest.threads
        → frames.new.items ≡ after_event went.now old heap.now frames.old.items }
{
    if let Stepped::Acted = went {
        begin_next(frames, heap, before);
    }
}

// The request of the thread's turn that isn't answered goes on.
#[inline(never)]
fn continues<C: Types, I: Image, H: Host<Native, Ref, NativeState, Item>, S: Sink, W: Watcher>(
    run: &mut Run<I, S, W>,
    set: &C,
    host: &H,
    t: ThreadNo,
) -> Stepped
    requires ready { (o : Opening) × (first : ℕ)
        × IsReady o first (C.facts set.now) (H.setting host.now) run.old.heap run.old.frames.items }
    requires asked { IsSome (asked_by run.old.heap.notes t) }
    ensures goes { (o : Opening) (first : ℕ)
        → IsReady o first (C.facts set.now) (H.setting host.now) run.old.heap run.old.frames.items
        → StepsTo o first (C.facts set.now) (H.setting host.now) t result run.old.heap run.new.heap
        run.new.frames.items }
    ensures acts { AddsBy result t run.old.heap.history.acts run.new.heap.history.acts }
    ensures told { HasTold run.old.heap.history.acts run.new.heap.history.acts
        (W.seen run.old.watcher) (W.seen run.new.watcher)
        (S.taken run.old.sink) (S.taken run.new.sink) }
    ensures share { AddsShare (asked_by run.old.heap.notes t)
        (S.takes run.old.sink 0) run.old.heap.history.acts run.new.heap.history.acts }
    ensures shares { (o : Opening) (first : ℕ)
        → IsReady o first (C.facts set.now) (H.setting host.now) run.old.heap run.old.frames.items
        → PrintsShares o.launch (S.takes run.old.sink) (S.takes run.new.sink)
        run.old.heap.history.acts run.new.heap.history.acts }
    ensures spares { (o : Opening) (first : ℕ)
        → IsReady o first (C.facts set.now) (H.setting host.now) run.old.heap run.old.frames.items
        → SparesSink S.taken o.launch (fault_of run.new.heap result) run.old.sink run.new.sink
        run.old.heap.history.acts run.new.heap.history.acts }
    ensures cause { IsCaused (fault_of run.new.heap result) (S.faults run.old.sink) (S.faults run.new.sink)
        (memory_of run.old.heap.machine).faults (memory_of run.new.heap.machine).faults }
    ensures full { run.old.heap.history.limit ≤ length run.old.heap.history.acts
        → result ≡ Stepped.Over (Met (lacks which.Acts 1 0)) }
    ensures less { LeavesLess result run.old.heap run.new.heap }
    ensures remembers { RemembersAfter t (asked_by run.old.heap.notes t) result run.old.heap run.new.heap }
    ensures finds { (o : Opening) (first : ℕ)
        → IsReady o first (C.facts set.now) (H.setting host.now) run.old.heap run.old.frames.items
        → FindsItsWait o t result run.old.heap.machine }
    ensures alone { LeavesAlone t (asked_by run.old.heap.notes t) result run.old.heap run.new.heap
        (run.new.sink ≡ run.old.sink) }
    ensures work { KeepsBound (event_of result) run.old.heap run.new.heap }
    ensures turns { run.new.turns ≡ run.old.turns }
{
    let before = run.heap.threads().count();
    let went = step_asked(
        &mut run.heap,
        &mut run.sink,
        &mut run.watcher,
        set,
        host,
        t,
        &mut run.frames[t.number() as usize],
    );
    begin_after(&mut run.frames, &run.heap, before, &went);
    went
}

/// One event of a live thread. Where no request of its turn waits for an answer, its next turn begins: the gate is
/// called, the private instructions run, and the turn asks.
#[inline(always)]
pub fn step<
    C: Types,
    I: Image,
    H: Host<Native, Ref, NativeState, Item>,
    S: Sink,
    G: Gate,
    W: Watcher,
>(run: &mut Run<I, S, W>, set: &C, host: &H, gate: &G, t: ThreadNo) -> Stepped
    requires ready { (o : Opening) × (first : ℕ)
        × IsReady o first (C.facts set.now) (H.setting host.now) run.old.heap run.old.frames.items }
    requires live { is_live run.old.heap.machine.rest.threads t ≡ true }
    ensures goes { (o : Opening) (first : ℕ)
        → IsReady o first (C.facts set.now) (H.setting host.now) run.old.heap run.old.frames.items
        → StepsTo o first (C.facts set.now) (H.setting host.now) t result run.old.heap run.new.heap
        run.new.frames.items }
    ensures acts { AddsBy result t run.old.heap.history.acts run.new.heap.history.acts }
    ensures told { HasTold run.old.heap.history.acts run.new.heap.history.acts
        (W.seen run.old.watcher) (W.seen run.new.watcher)
        (S.taken run.old.sink) (S.taken run.new.sink) }
    // A print isn't cut short, where the sink tells what it takes.
    ensures share { (fs : ThreadFrames) → slice_get run.old.frames.items t ≡ Some fs
        → AddsShare (asks_next (H.setting host.now) (asked_by run.old.heap.notes t) fs)
        (S.takes run.old.sink 0) run.old.heap.history.acts run.new.heap.history.acts }
    // The share of what its thread asks in the plain run; and what the sink takes behind it.
    ensures shares { (o : Opening) (first : ℕ)
        → IsReady o first (C.facts set.now) (H.setting host.now) run.old.heap run.old.frames.items
        → PrintsShares o.launch (S.takes run.old.sink) (S.takes run.new.sink)
        run.old.heap.history.acts run.new.heap.history.acts }
    ensures spares { (o : Opening) (first : ℕ)
        → IsReady o first (C.facts set.now) (H.setting host.now) run.old.heap run.old.frames.items
        → SparesSink S.taken o.launch (fault_of run.new.heap result) run.old.sink run.new.sink
        run.old.heap.history.acts run.new.heap.history.acts }
    ensures cause { IsCaused (fault_of run.new.heap result) (S.faults run.old.sink) (S.faults run.new.sink)
        (memory_of run.old.heap.machine).faults (memory_of run.new.heap.machine).faults }
    // A history without room for an act has none.
    ensures full { run.old.heap.history.limit ≤ length run.old.heap.history.acts
        → result ≡ Stepped.Over (Met (lacks which.Acts 1 0)) }
    ensures less { LeavesLess result run.old.heap run.new.heap }
    // What isn't done is asked again, by the thread's next event.
    ensures remembers { (fs : ThreadFrames) → slice_get run.old.frames.items t ≡ Some fs
        → RemembersAfter t (asks_next (H.setting host.now) (asked_by run.old.heap.notes t) fs) result
        run.old.heap run.new.heap }
    // Unless the run is over, it waits in the plain world exactly where its thread does, but for a `Micro` while a word is being
    // logged for that; and for a conversion where that waited for one, and what it asked isn't durable yet.
    ensures finds { (o : Opening) (first : ℕ)
        → IsReady o first (C.facts set.now) (H.setting host.now) run.old.heap run.old.frames.items
        → FindsItsWait o t result run.old.heap.machine }
    // It calls the image once at most, or else, for a print, the sink; and leaves the other threads at what they are about.
    ensures alone { (fs : ThreadFrames) → slice_get run.old.frames.items t ≡ Some fs
        → LeavesAlone t (asks_next (H.setting host.now) (asked_by run.old.heap.notes t) fs) result
        run.old.heap run.new.heap (run.new.sink ≡ run.old.sink) }
    // Steps of persistence stay few, for the acts that it adds and the lines that it takes.
    ensures work { KeepsBound (event_of result) run.old.heap run.new.heap }
    ensures turns { run.new.turns ≡ turns_after (asked_by run.old.heap.notes t) t run.old.turns }
{
    if run.heap.has_asked(t) {
        return continues(run, set, host, t);
    }
    let at = t.number() as usize;
    let come = begun(&mut run.frames[at], &mut run.turns[at], host, gate, t);
    let before = run.heap.threads().count();
    let went = step_come(
        &mut run.heap,
        &mut run.sink,
        &mut run.watcher,
        set,
        host,
        t,
        &mut run.frames[at],
        come,
    );
    begin_after(&mut run.frames, &run.heap, before, &went);
    went
}
