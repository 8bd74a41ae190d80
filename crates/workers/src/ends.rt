// How runs end, and what is left of them.
ghost use Rattle.std.specs.Prelude.{◌≡◌, IfSome, All, IsTrue, true};
ghost use Rattle.durable_run.specs.Turning.{fault_in};
ghost use Rattle.workers.specs.Held.{IsOf, HasEnded, HasLeft, SparesSince};

use crate::alone::Alone;
use crate::locked::Locked;
use crate::names::Naming;
use ap_base::{Gate, Item, Ref, Sink, ThreadNo};
use durable_run::{Run, RunEnd, SharedHeap, ended, is_live, run_threads};
use frame_thread::Host;
use line_image::Image;
use natives::{Native, NativeState};
use run_history::Watcher;
use shared_objects::{Threads, Types};

/// What is left of a run: its heap with the history, and the outside.
#[derive(Drop)]
pub struct Left<I: Image, S: Sink, W: Watcher> {
    pub heap: SharedHeap<I>,
    pub sink: S,
    pub watcher: W,
}

/// Whether all threads have ended.
pub(crate) fn all_ended(threads: &Threads) -> bool
    ensures { IsTrue result → All (λ state. state.ended ≡ true) threads.now }
{
    for n in 0..threads.count() {
        let t = ThreadNo::new(n as u8).unwrap();
        if is_live(threads, t) {
            return false;
        }
    }
    true
}

// What is left of a run.
fn left_of<I: Image, S: Sink, W: Watcher>(run: Run<I, S, W>) -> Left<I, S, W>
    ensures heap { result.heap ≡ run.heap }
    ensures sink { result.sink ≡ run.sink }
    ensures watcher { result.watcher ≡ run.watcher }
{
    let Run {
        heap,
        sink,
        watcher,
        ..
    } = run;
    Left {
        heap,
        sink,
        watcher,
    }
}

/// How a run ended whose threads one host thread saw to, and what is left of it: the rotation goes on with it.
pub(crate) fn ended_alone<
    J: Naming<S>,
    C: Types,
    I: Image,
    H: Host<Native, Ref, NativeState, Item>,
    S: Sink,
    G: Gate,
    W: Watcher,
>(alone: Alone<J, I, S, W>, set: &C, host: &H, gate: &G) -> (RunEnd, Left<I, S, W>)
    requires of { IsOf (C.facts set.now) (H.setting host.now) J.entry }
    ensures left { IfSome J.entry (λ e. HasLeft e result.0 result.1.heap (W.seen result.1.watcher)
        (S.taken result.1.sink) (S.takes result.1.sink) (S.faults result.1.sink)) }
    ensures spares { IfSome J.entry (λ e. IfSome J.sink (λ sink.
        SparesSince S.taken e (fault_in result.0) sink result.1.sink result.1.heap)) }
{
    let (over, mut run) = alone.finish();
    match over {
        Some(fault) => (RunEnd::Over(fault), left_of(run)),
        None => {
            let end = run_threads(&mut run, set, host, gate);
            (end, left_of(run))
        }
    }
}

/// How a run ended that host threads shared, and what is left of it.
pub(crate) fn ended_shared<J: Naming<S>, I: Image, S: Sink, W: Watcher>(
    locked: Locked<J, I, S, W>,
) -> (RunEnd, Left<I, S, W>)
    requires ended { HasEnded locked.run }
    ensures left { IfSome J.entry (λ e. HasLeft e result.0 result.1.heap (W.seen result.1.watcher)
        (S.taken result.1.sink) (S.takes result.1.sink) (S.faults result.1.sink)) }
    ensures spares { IfSome J.entry (λ e. IfSome J.sink (λ sink.
        SparesSince S.taken e (fault_in result.0) sink result.1.sink result.1.heap)) }
{
    let (over, left) = locked.finish();
    match over {
        Some(fault) => (RunEnd::Over(fault), left),
        None => {
            let end = ended(&left.heap);
            (end, left)
        }
    }
}
