// The plain run in code.
ghost use Rattle.std.specs.Prelude.{◌≡◌, ◌≢◌, ◌<◌, ◌↔◌, ◌∷◌, ◌++◌, [], ℕ, List, length, IfOk, IsTrue, Ok, OnErr, true};
ghost use Rattle.std.specs.Prelude.{vec_capacity};
ghost use Rattle.plain_heap.specs.Heaps.{shown_of};
ghost use Rattle.run_history.specs.Recorded.{Recorded};
ghost use Rattle.run_forms.specs.Standing.{IsRun, Launch};
ghost use Rattle.plain_machine.specs.Starts.{begun_of, has_frames};
ghost use Rattle.plain_machine.specs.Ops.{is_live, is_start};
ghost use Rattle.plain_machine.specs.Standing.{IsNext, MayLack, Stands, recorded};

use crate::kinds::{is_persistent, is_start};
use crate::lanes::{Lane, turned};
use crate::world::PlainWorld;
use ap_base::{Item, Ref, ThreadNo};
use frame_thread::Host;
use natives::{Native, NativeState, Request};
use private_steps::Frames;
use run_history::{Act, Op};
use shared_objects::{Threads, Types};
use std::alloc::{AllocError, Global};

/// A plain run in code: its world, and the threads that were started, by their numbers.
#[derive(Drop)]
pub struct Plain {
    pub world: PlainWorld,
    pub lanes: Vec<Lane>,
}

/// Whether a thread was started and hasn't ended.
pub(crate) fn is_live(threads: &Threads, t: ThreadNo) -> bool
    ensures { result ≡ is_live threads.now t }
{
    match threads.get(t) {
        Some(state) => !state.ended,
        None => false,
    }
}

/// Frames for the thread that an operation starts, if it starts one, and room for them.
fn new_frames(
    alloc: Global,
    lanes: &mut Vec<Lane>,
    op: &Op,
) -> Result<Option<Frames<Ref, NativeState>>, AllocError>
    ensures begun { IfOk result (λ frames. has_frames frames ≡ is_start op.now) }
    ensures room { IfOk result (λ frames. has_frames frames ≡ true
        → length lanes.new.items < vec_capacity lanes.new) }
    ensures start { OnErr result (is_start op.now ≡ true) }
    ensures same { lanes.new.items ≡ lanes.old.items }
{
    if !is_start(op) {
        return Ok(None);
    }
    lanes.reserve(1)?;
    Ok(Some(Frames::new(alloc)?))
}

/// The thread that a request starts begins, if frames were made for it.
fn begin(lanes: &mut Vec<Lane>, frames: Option<Frames<Ref, NativeState>>, request: &Request)
    requires room { has_frames frames ≡ true → length lanes.old.items < vec_capacity lanes.old }
    ensures { lanes.new.items ≡ lanes.old.items ++ begun_of frames request.now }
{
    if let Some(mut own) = frames {
        if let Request::Start { thread, .. } = request {
            own.begin_thread(*thread);
            lanes.push_reserved(Lane {
                frames: own,
                asked: None,
            });
        }
    }
}

impl Plain {
    /// Follows an act: answers true exactly where it is one of persistence, or that of the plain
    /// step for its thread with the
    /// request that the thread's turn gives. Where the acts with it are a plain run, the machine
    /// stands for them then.
    /// Otherwise it stands for the acts that it stood for.
    ///
    /// # Errors
    ///
    /// Where there is no memory for the object that the thread's step makes or for the frames of
    /// the thread that it starts, no
    /// more monitors may be held, or 2^64 - 3 acts were followed.
    pub fn follow<C: Types, H: Host<Native, Ref, NativeState, Item>>(
        &mut self,
        alloc: Global,
        set: &C,
        host: &H,
        act: &Act,
    ) -> Result<bool, AllocError>
        requires stands { (launch : Launch) × (acts : List Recorded) × Stands launch acts
            (C.facts set.now) (H.setting host.now) (shown_of self.old.world.heap)
            self.old.world.rest self.old.world.steps self.old.lanes.items }
        ensures exact { (launch : Launch) (acts : List Recorded) → Stands launch acts
            (C.facts set.now) (H.setting host.now) (shown_of self.old.world.heap)
            self.old.world.rest self.old.world.steps self.old.lanes.items
            → IfOk result (λ yes. IsTrue yes ↔ IsNext launch acts act.now) }
        ensures goes { (launch : Launch) (acts : List Recorded) (named : List ℕ)
            → Stands launch acts
            (C.facts set.now) (H.setting host.now) (shown_of self.old.world.heap)
            self.old.world.rest self.old.world.steps self.old.lanes.items
            → result ≡ Ok true → IsRun launch (acts ++ recorded act.now named ∷ [])
            → Stands launch (acts ++ recorded act.now named ∷ [])
            (C.facts set.now) (H.setting host.now) (shown_of self.new.world.heap)
            self.new.world.rest self.new.world.steps self.new.lanes.items }
        ensures same { (launch : Launch) (acts : List Recorded) → Stands launch acts
            (C.facts set.now) (H.setting host.now) (shown_of self.old.world.heap)
            self.old.world.rest self.old.world.steps self.old.lanes.items
            → result ≢ Ok true → Stands launch acts
            (C.facts set.now) (H.setting host.now) (shown_of self.new.world.heap)
            self.new.world.rest self.new.world.steps self.new.lanes.items }
        ensures cause { (launch : Launch) (acts : List Recorded) → Stands launch acts
            (C.facts set.now) (H.setting host.now) (shown_of self.old.world.heap)
            self.old.world.rest self.old.world.steps self.old.lanes.items
            → OnErr result (MayLack launch acts act.now self.old.world.steps) }
    {
        run_forms::machines_go_on_as_plain_runs();
        run_forms::moved_heaps_stand_for_the_same_run();
        if is_persistent(&act.op) {
            return Ok(true);
        }
        let t = act.thread;
        let at = t.number() as usize;
        if at >= self.lanes.len() {
            return Ok(false);
        }
        if !is_live(&self.world.rest.threads, t) {
            return Ok(false);
        }
        let begun = new_frames(alloc, &mut self.lanes, &act.op)?;
        let request = turned(&mut self.lanes[at], host);
        match self.world.act(alloc, set, t, &request, &act.op) {
            Err(error) => {
                self.lanes[at].asked = Some(request);
                Err(error)
            }
            Ok(None) => {
                self.lanes[at].asked = Some(request);
                Ok(false)
            }
            Ok(Some(reply)) => {
                self.lanes[at].frames.answer(host, &reply);
                begin(&mut self.lanes, begun, &request);
                Ok(true)
            }
        }
    }
}
