// Whole runs.
ghost use Rattle.std.specs.Prelude.{◌≡◌, ℕ, length, IfSome, Some};
ghost use Rattle.durable_run.specs.Passed.{Opening, memory_of};
ghost use Rattle.durable_run.specs.Shares.{PrintsShares};
ghost use Rattle.durable_run.specs.Sparing.{SparesSink};
ghost use Rattle.durable_run.specs.Telling.{HasTold, IsCaused};
ghost use Rattle.durable_run.specs.Turning.{EndsBy, IsReady, fault_in};
ghost use Rattle.turnstile.specs.Hands.{hands_from};
ghost use Rattle.turnstile.specs.Passes.{IsIdle, IsOf as IsOfTurnstile, hands_of, turnstile_id};
ghost use Rattle.workers.specs.Held.{IsOf, HasEnded, HasLeft, SparesSince, began};

use crate::alone::Alone;
use crate::bells::Bells;
use crate::crew::Crew;
use crate::desk::Desk;
use crate::ends::{Left, ended_alone, ended_shared};
use crate::hall::{Hall, seats_of};
use crate::job::{work, work_alone};
use crate::locked::Locked;
use crate::names::{Naming, Sharing};
use crate::opening::{Opened, open};
use ap_base::{Gate, Item, Ref, Sink};
use durable_run::{Run, RunEnd};
use frame_thread::Host;
use line_image::Image;
use natives::{Native, NativeState};
use run_history::Watcher;
use shared_objects::Types;
use std::marker::Brand;
use std::sync::Wait;
use std::thread;
use std::thread::Threads;

// Each worker's threads in a thread of the host; where none can be started, in this one with those of worker 0.
fn run_each<
    K: Sharing + Send + Sync,
    J: Naming<S> + Send + Sync,
    R: Threads + Wait + Sync,
    C: Types + Sync,
    I: Image + Send,
    H: Host<Native, Ref, NativeState, Item> + Sync,
    S: Sink + Send,
    G: Gate + Sync,
    W: Watcher + Send,
>(rt: &R, hall: &Hall<'_, K, J, S, Desk<J, I, S, W>>, set: &C, host: &H, gate: &G, workers: u8)
    requires of { IsOf (C.facts set.now) (H.setting host.now) J.entry }
{
    thread::scope(
        thread::scope_env(),
        rt,
        |scope|
            requires { IsOf (C.facts set.now) (H.setting host.now) J.entry }
        {
            let mut mine = Crew::none(workers).with(0);
            for w in 1..workers {
                let theirs = Crew::none(workers).with(w);
                let spawned = scope.spawn(
                    move || -> ()
                        requires { IsOf (C.facts set.now) (H.setting host.now) J.entry }
                    { work(rt, hall, set, host, gate, theirs) },
                );
                if spawned.is_err() {
                    mine = mine.with(w);
                }
            }
            work(rt, hall, set, host, gate, mine);
        },
    );
}

// The events of a run that host threads share from here on, until it is over or all threads have ended.
fn run_shared<
    K: Sharing + Send + Sync,
    J: Naming<S> + Send + Sync,
    R: Threads + Wait + Sync,
    C: Types + Sync,
    I: Image + Send,
    H: Host<Native, Ref, NativeState, Item> + Sync,
    S: Sink + Send,
    G: Gate + Sync,
    W: Watcher + Send,
>(
    rt: &R,
    opened: Opened<Desk<J, I, S, W>>,
    set: &C,
    host: &H,
    gate: &G,
    workers: u8,
) -> Locked<J, I, S, W>
    requires of { IsOf (C.facts set.now) (H.setting host.now) J.entry }
    requires named { K.turnstile ≡ Some (turnstile_id opened.turnstile) }
    requires pass { IsOfTurnstile opened.first opened.turnstile }
    requires idle { IsIdle opened.first }
    requires hands { hands_of opened.first ≡ hands_from 0 opened.frames.items }
    requires many { length opened.frames.items ≡ 64 }
    ensures ended { HasEnded result.run }
{
    let Opened {
        turnstile,
        first,
        frames,
        turns,
    } = opened;
    let seats = seats_of::<K, J, I, S, W>(&turnstile, first, frames, turns);
    let bells = Bells::new();
    let hall = Hall {
        turnstile: &turnstile,
        seats: &seats,
        bells: &bells,
    };
    run_each(rt, &hall, set, host, gate, workers.min(64));
    hall.close(rt)
}

// The events of a run on which other threads were started, or which has ended. Without memory one host thread makes them all.
fn run_rest<
    J: Naming<S> + Send + Sync,
    R: Threads + Wait + Sync,
    C: Types + Sync,
    I: Image + Send,
    H: Host<Native, Ref, NativeState, Item> + Sync,
    S: Sink + Send,
    G: Gate + Sync,
    W: Watcher + Send,
>(
    rt: &R,
    alone: Alone<J, I, S, W>,
    set: &C,
    host: &H,
    gate: &G,
    workers: u8,
) -> (RunEnd, Left<I, S, W>)
    requires of { IsOf (C.facts set.now) (H.setting host.now) J.entry }
    ensures left { IfSome J.entry (λ e. HasLeft e result.0 result.1.heap (W.seen result.1.watcher)
        (S.taken result.1.sink) (S.takes result.1.sink) (S.faults result.1.sink)) }
    ensures spares { IfSome J.entry (λ e. IfSome J.sink (λ sink.
        SparesSince S.taken e (fault_in result.0) sink result.1.sink result.1.heap)) }
{
    if alone.is_done() {
        return ended_alone(alone, set, host, gate);
    }
    match open(alone) {
        Ok(opened) => ended_shared(run_shared::<Brand, J, R, C, I, H, S, G, W>(
            rt, opened, set, host, gate, workers,
        )),
        Err(alone) => ended_alone(alone, set, host, gate),
    }
}

fn run_named<
    J: Naming<S> + Send + Sync,
    R: Threads + Wait + Sync,
    C: Types + Sync,
    I: Image + Send,
    H: Host<Native, Ref, NativeState, Item> + Sync,
    S: Sink + Send,
    G: Gate + Sync,
    W: Watcher + Send,
>(rt: &R, run: Run<I, S, W>, set: &C, host: &H, workers: u8, gate: &G) -> (RunEnd, Left<I, S, W>)
    requires entry { J.entry ≡ Some (began (C.facts set.now) (H.setting host.now) run.heap run.frames.items
        (W.seen run.watcher) (S.taken run.sink) (S.takes run.sink) (S.faults run.sink)) }
    requires sink { J.sink ≡ Some run.sink }
    requires ready { (o : Opening) × (first : ℕ)
        × IsReady o first (C.facts set.now) (H.setting host.now) run.heap run.frames.items }
    ensures left { HasLeft (began (C.facts set.now) (H.setting host.now) run.heap run.frames.items
        (W.seen run.watcher) (S.taken run.sink) (S.takes run.sink) (S.faults run.sink))
        result.0 result.1.heap (W.seen result.1.watcher) (S.taken result.1.sink) (S.takes result.1.sink)
        (S.faults result.1.sink) }
    ensures spares { SparesSince S.taken (began (C.facts set.now) (H.setting host.now) run.heap run.frames.items
        (W.seen run.watcher) (S.taken run.sink) (S.takes run.sink) (S.faults run.sink))
        (fault_in result.0) run.sink result.1.sink result.1.heap }
{
    let mut alone: Alone<J, I, S, W> = Alone::new(run, set, host);
    if workers < 2 {
        return ended_alone(alone, set, host, gate);
    }
    work_alone(rt, &mut alone, set, host, gate);
    run_rest(rt, alone, set, host, gate, workers)
}

/// Runs the threads of a run in as many threads of the host as there are workers, 64 at most, or in fewer where no more can be started:
/// how it ended, and what is left of it. Worker w has the threads whose number leaves w when divided by `workers`, and makes one event
/// of each in rotation; a thread that waits has no further one until another's event may have ended its wait, and
/// one that has had its share of a round none until each has had its own, or a thread is started or ends, or nothing was done for long. A
/// turn's private instructions are done and then the gate is called before its first event, away from what is shared: the other workers
/// don't wait for them, but its host thread's other threads do, and the end of the run. Where only one thread of a host thread may have
/// an event, its turns that pause may begin ahead, and their events are made at once; and it has several events in a row. Until the first thread starts another one, and
/// where there is one worker or none, the caller's host thread makes all events. Memory is taken once, before the first host thread is
/// started; where there is none, the caller's goes on alone.
pub fn run_all<
    R: Threads + Wait + Sync,
    C: Types + Sync,
    I: Image + Send,
    H: Host<Native, Ref, NativeState, Item> + Sync,
    S: Sink + Send,
    G: Gate + Sync,
    W: Watcher + Send,
>(rt: &R, run: Run<I, S, W>, set: &C, host: &H, workers: u8, gate: &G) -> (RunEnd, Left<I, S, W>)
    requires ready { (o : Opening) × (first : ℕ)
        × IsReady o first (C.facts set.now) (H.setting host.now) run.heap run.frames.items }
    ensures ends { (o : Opening) (first : ℕ)
        → IsReady o first (C.facts set.now) (H.setting host.now) run.heap run.frames.items
        → EndsBy o first result.0 result.1.heap }
    ensures told { HasTold run.heap.history.acts result.1.heap.history.acts (W.seen run.watcher)
        (W.seen result.1.watcher) (S.taken run.sink) (S.taken result.1.sink) }
    // Each print of the further acts took the share of its piece, by what the sink that was given takes.
    ensures shares { (o : Opening) (first : ℕ)
        → IsReady o first (C.facts set.now) (H.setting host.now) run.heap run.frames.items
        → PrintsShares o.launch (S.takes run.sink) (S.takes result.1.sink)
        run.heap.history.acts result.1.heap.history.acts }
    ensures spares { (o : Opening) (first : ℕ)
        → IsReady o first (C.facts set.now) (H.setting host.now) run.heap run.frames.items
        → SparesSink S.taken o.launch (fault_in result.0) run.sink result.1.sink
        run.heap.history.acts result.1.heap.history.acts }
    ensures cause { IsCaused (fault_in result.0) (S.faults run.sink) (S.faults result.1.sink)
        (memory_of run.heap.machine).faults (memory_of result.1.heap.machine).faults }
    ensures size { (memory_of result.1.heap.machine).size ≡ (memory_of run.heap.machine).size }
{
    run_named::<Brand, R, C, I, H, S, G, W>(rt, run, set, host, workers, gate)
}
