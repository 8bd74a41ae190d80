// Whole runs.
ghost use Rattle.std.specs.Prelude.{◌≡◌, ◌≢◌, ◌≤◌, ◌<◌, ℕ, All, List, None, length, true};
ghost use Rattle.std.specs.Prelude.{slice_index_or, slice_set};
ghost use Rattle.ap_base.specs.declared.reference.Ref.{Ref as Reference};
ghost use Rattle.ap_base.specs.declared.reference.Item.{Item as Given};
ghost use Rattle.natives.specs.declared.methods.Native.{Native as Method};
ghost use Rattle.natives.specs.declared.states.NativeState.{NativeState as State};
ghost use Rattle.plain_model.specs.Facts.{SetFacts};
ghost use Rattle.frames.specs.Settings.{Setting};
ghost use Rattle.shared_objects.specs.declared.threads.ThreadState.{ThreadState};
ghost use Rattle.run_forms.specs.Views.{ThreadFrames};
ghost use Rattle.machine.specs.Passed.{Opening, memory_of};
ghost use Rattle.machine.specs.declared.events.Halt.TheVariants.{Stuck};
ghost use Rattle.machine.specs.Halts.{fault_of_halt};
ghost use Rattle.durable_run.specs.Passes.{PassesTo, fault_of_pass};
ghost use Rattle.durable_run.specs.Shares.{PrintsShares};
ghost use Rattle.durable_run.specs.Sparing.{SparesSink};
ghost use Rattle.durable_run.specs.Telling.{HasTold, IsCaused};
ghost use Rattle.durable_run.specs.Turning.{EndsBy, IsReady, TurnsGoOn, fault_in};

use crate::parts::first_uncaught;
use crate::passes::{Pass, pass_over};
use crate::run::Run;
use ap_base::{Gate, Item, Ref, Sink, ThreadNo};
use frame_thread::Host;
use line_image::Image;
use machine::{Halt, SharedHeap};
use natives::{Native, NativeState};
use run_history::Watcher;
use run_types::{On, RunFault, Waits};
use shared_objects::Types;

/// How a run ended.
#[derive(Drop)]
pub enum RunEnd {
    /// All threads have ended, and this is the least one that a throwable ended, with the throwable's class, if one did.
    Ended(Option<(ThreadNo, u32)>),
    /// It was over by this fault.
    Over(RunFault),
}

// Notes what a thread waits for, if it does.
fn note(waits: &mut Waits, t: ThreadNo, on: Option<On>)
    requires { slice_index_or waits.old t None ≡ None }
    ensures { waits.new ≡ slice_set waits.old t on }
{
    if let Some(on) = on {
        waits.set(t, on);
    }
}

// What the last event of each thread waited for.
fn waits_of<I: Image>(heap: &SharedHeap<I>) -> Waits
    requires { length heap.now.notes.waits ≡ 64 }
    ensures { result ≡ heap.now.notes.waits }
{
    let mut waits = Waits::none();
    for n in 0..64 {
        let t = ThreadNo::new(n).unwrap();
        note(&mut waits, t, heap.waiting(t));
    }
    waits
}

// The fault by which a run is over that an event ends so.
fn fault_of<I: Image>(heap: &SharedHeap<I>, halt: Halt) -> RunFault
    requires stuck { halt ≡ Stuck → length heap.now.notes.waits ≡ 64 }
    ensures { result ≡ fault_of_halt heap.now halt }
{
    match halt {
        Halt::Met(fault) => fault.of_run(),
        Halt::Stuck => RunFault::Stuck(waits_of(heap)),
    }
}

/// The end of a run of which all threads have ended.
pub fn ended<I: Image>(heap: &SharedHeap<I>) -> RunEnd
    requires { All (λ (state : ThreadState). state.ended ≡ true) heap.now.machine.rest.threads }
    ensures ends { (o : Opening) (first : ℕ) (set : SetFacts) (x : Setting Method Reference (State Reference) Given)
        (all : List ThreadFrames) → IsReady o first set x heap.now all → EndsBy o first result heap.now }
    ensures unfaulted { fault_in result ≡ None }
{
    machine::machines_finish_with_their_threads();
    RunEnd::Ended(first_uncaught(heap.threads()))
}

// Passes up to one in which an act was made, or the last one.
fn next_act<
    C: Types,
    I: Image,
    H: Host<Native, Ref, NativeState, Item>,
    S: Sink,
    G: Gate,
    W: Watcher,
>(run: &mut Run<I, S, W>, set: &C, host: &H, gate: &G) -> Pass
    requires ready { (o : Opening) × (first : ℕ)
        × IsReady o first (C.facts set.now) (H.setting host.now) run.old.heap run.old.frames.items }
    ensures goes { (o : Opening) (first : ℕ)
        → IsReady o first (C.facts set.now) (H.setting host.now) run.old.heap run.old.frames.items
        → PassesTo o first (C.facts set.now) (H.setting host.now) result run.new.heap run.new.frames.items }
    ensures told { HasTold run.old.heap.history.acts run.new.heap.history.acts
        (W.seen run.old.watcher) (W.seen run.new.watcher)
        (S.taken run.old.sink) (S.taken run.new.sink) }
    ensures shares { (o : Opening) (first : ℕ)
        → IsReady o first (C.facts set.now) (H.setting host.now) run.old.heap run.old.frames.items
        → PrintsShares o.launch (S.takes run.old.sink) (S.takes run.new.sink)
        run.old.heap.history.acts run.new.heap.history.acts }
    ensures spares { (o : Opening) (first : ℕ)
        → IsReady o first (C.facts set.now) (H.setting host.now) run.old.heap run.old.frames.items
        → SparesSink S.taken o.launch (fault_of_pass run.new.heap result) run.old.sink run.new.sink
        run.old.heap.history.acts run.new.heap.history.acts }
    ensures cause { IsCaused (fault_of_pass run.new.heap result) (S.faults run.old.sink) (S.faults run.new.sink)
        (memory_of run.old.heap.machine).faults (memory_of run.new.heap.machine).faults }
    ensures turns { TurnsGoOn run.old.turns run.new.turns }
    ensures full { run.old.heap.history.limit ≤ length run.old.heap.history.acts → result ≢ Pass.Went }
    ensures acts { result ≡ Pass.Went → length run.old.heap.history.acts < length run.new.heap.history.acts }
{
    let before = run.heap.acts().len();
    'passes: loop {
        match pass_over(run, set, host, gate) {
            Pass::Went => {}
            last => return last,
        }
        if run.heap.acts().len() > before {
            return Pass::Went;
        }
    }
}

/// Passes over the threads until none lives or the run is over. As each act is one of those that the history may have, and a pass
/// without one leaves less to do, that comes.
pub fn run_threads<
    C: Types,
    I: Image,
    H: Host<Native, Ref, NativeState, Item>,
    S: Sink,
    G: Gate,
    W: Watcher,
>(run: &mut Run<I, S, W>, set: &C, host: &H, gate: &G) -> RunEnd
    requires ready { (o : Opening) × (first : ℕ)
        × IsReady o first (C.facts set.now) (H.setting host.now) run.old.heap run.old.frames.items }
    ensures ends { (o : Opening) (first : ℕ)
        → IsReady o first (C.facts set.now) (H.setting host.now) run.old.heap run.old.frames.items
        → EndsBy o first result run.new.heap }
    ensures told { HasTold run.old.heap.history.acts run.new.heap.history.acts
        (W.seen run.old.watcher) (W.seen run.new.watcher)
        (S.taken run.old.sink) (S.taken run.new.sink) }
    // Each print took its share, as the sink told it at first; and what the sink takes behind them all.
    ensures shares { (o : Opening) (first : ℕ)
        → IsReady o first (C.facts set.now) (H.setting host.now) run.old.heap run.old.frames.items
        → PrintsShares o.launch (S.takes run.old.sink) (S.takes run.new.sink)
        run.old.heap.history.acts run.new.heap.history.acts }
    ensures spares { (o : Opening) (first : ℕ)
        → IsReady o first (C.facts set.now) (H.setting host.now) run.old.heap run.old.frames.items
        → SparesSink S.taken o.launch (fault_in result) run.old.sink run.new.sink
        run.old.heap.history.acts run.new.heap.history.acts }
    ensures cause { IsCaused (fault_in result) (S.faults run.old.sink) (S.faults run.new.sink)
        (memory_of run.old.heap.machine).faults (memory_of run.new.heap.machine).faults }
    ensures turns { TurnsGoOn run.old.turns run.new.turns }
    ensures size { (memory_of run.new.heap.machine).size ≡ (memory_of run.old.heap.machine).size }
{
    'acts: loop {
        match next_act(run, set, host, gate) {
            Pass::Went => {}
            Pass::Ended => return ended(&run.heap),
            Pass::Over(halt) => return RunEnd::Over(fault_of(&run.heap, halt)),
        }
    }
}
