// Passes over the threads.
ghost use Rattle.std.specs.Prelude.{◌≡◌, ◌≢◌, ◌≤◌, ◌<◌, ℕ, length};
ghost use Rattle.machine.specs.Passed.{Opening, memory_of};
ghost use Rattle.durable_run.specs.Passes.{IsLess, PassesTo, fault_of_pass};
ghost use Rattle.durable_run.specs.Shares.{PrintsShares};
ghost use Rattle.durable_run.specs.Sparing.{SparesSink};
ghost use Rattle.durable_run.specs.Telling.{HasTold, IsCaused};
ghost use Rattle.durable_run.specs.Turning.{IsReady, TurnsGoOn};

use crate::parts::is_live;
use crate::run::Run;
use crate::steps::{Stepped, step};
use ap_base::{Gate, Item, Ref, Sink, ThreadNo};
use frame_thread::Host;
use line_image::Image;
use machine::Halt;
use natives::{Native, NativeState};
use run_history::Watcher;
use shared_objects::Types;

/// How a pass over the threads went.
#[derive(Drop)]
pub(crate) enum Pass {
    /// Some thread lives.
    Went,
    /// All threads have ended.
    Ended,
    /// The run is over.
    Over(Halt),
}

/// An event of each live thread, in the order of their numbers, those among them that are started meanwhile. As a run is over
/// at the event by which all threads wait, a pass leaves less to do.
pub(crate) fn pass_over<
    C: Types,
    I: Image,
    H: Host<Native, Ref, NativeState, Item>,
    S: Sink,
    G: Gate,
    W: Watcher,
>(run: &mut Run<I, S, W>, set: &C, host: &H, gate: &G) -> Pass
    requires ready { (o : Opening) × (first : ℕ)
        × IsReady o first (C.facts set.now) (H.setting host.now) run.old.heap run.old.frames.items }
    ensures goes { (o : Opening) (first : ℕ)
        → IsReady o first (C.facts set.now) (H.setting host.now) run.old.heap run.old.frames.items
        → PassesTo o first (C.facts set.now) (H.setting host.now) result run.new.heap run.new.frames.items }
    ensures told { HasTold run.old.heap.history.acts run.new.heap.history.acts
        (W.seen run.old.watcher) (W.seen run.new.watcher)
        (S.taken run.old.sink) (S.taken run.new.sink) }
    ensures shares { (o : Opening) (first : ℕ)
        → IsReady o first (C.facts set.now) (H.setting host.now) run.old.heap run.old.frames.items
        → PrintsShares o.launch (S.takes run.old.sink) (S.takes run.new.sink)
        run.old.heap.history.acts run.new.heap.history.acts }
    ensures spares { (o : Opening) (first : ℕ)
        → IsReady o first (C.facts set.now) (H.setting host.now) run.old.heap run.old.frames.items
        → SparesSink S.taken o.launch (fault_of_pass run.new.heap result) run.old.sink run.new.sink
        run.old.heap.history.acts run.new.heap.history.acts }
    ensures cause { IsCaused (fault_of_pass run.new.heap result) (S.faults run.old.sink) (S.faults run.new.sink)
        (memory_of run.old.heap.machine).faults (memory_of run.new.heap.machine).faults }
    ensures turns { TurnsGoOn run.old.turns run.new.turns }
    ensures full { run.old.heap.history.limit ≤ length run.old.heap.history.acts → result ≢ Pass.Went }
    ensures less { result ≡ Pass.Went → IsLess run.old.heap run.new.heap }
{
    machine::passes_fill_rows();
    machine::rows_begin_and_end();
    machine::full_rows_end_runs();
    machine::machines_end_stuck();
    machine::tested_waits_are_stuck();
    let mut lived = false;
    let mut n = 0;
    'threads: while n < run.heap.threads().count() {
        let t = ThreadNo::new(n as u8).unwrap();
        n += 1;
        if !is_live(run.heap.threads(), t) {
            continue;
        }
        lived = true;
        let went = step(run, set, host, gate, t);
        if let Stepped::Over(halt) = went {
            return Pass::Over(halt);
        }
    }
    if lived {
        return Pass::Went;
    }
    Pass::Ended
}
