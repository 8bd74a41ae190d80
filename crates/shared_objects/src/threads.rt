// The threads of a run.
ghost use Rattle.std.specs.Prelude.{◌≡◌, ◌<◌, ◌≤◌, ◌↔◌, [], ◌∷◌, ◌++◌, None, Some, IfErr, IfOk, IsErr, OnErr, OnOk, length};
ghost use Rattle.std.specs.Prelude.{slice_get};
ghost use Rattle.run_types.specs.declared.fault.Which.TheVariants.{Threads as ThreadsLimit};
ghost use Rattle.shared_objects.specs.Threads.{ThreadsFull, at_state, deepened, depth_at, ended, is_of_object, new_state};
ghost use Rattle.shared_objects.specs.Threads.{raised, started_from};

use ap_base::ThreadNo;
use run_types::{Full, Which};
use std::alloc::{AllocError, Global};
use std::marker::Model;

/// How many threads a run may have.
pub const MOST_THREADS: usize = 64;

/// A thread: the number of its Thread object, none for thread 0; the depth of its failure-atomic
/// region; whether it has ended, and
/// the class of the throwable that ended it, if one did.
#[derive(Clone, Copy, Debug, PartialEq, Eq)]
pub struct ThreadState {
    pub object: Option<u32>,
    pub depth: u64,
    pub ended: bool,
    pub uncaught: Option<u32>,
}

/// The threads that were started, by their numbers. All memory is taken by `reserve`.
#[derive(Drop)]
pub struct Threads {
    states: Vec<ThreadState>,
}

impl Model for Threads {
    ghost use Rattle.std.specs.Prelude.{◌≤◌, List, length, vec_capacity};
    ghost use Rattle.shared_objects.specs.declared.threads.ThreadState.{ThreadState};

    ghost Value = { List ThreadState };

    ghost view = { λ t. t.states.items };

    ghost invariant = { λ t. (length t.states.items ≤ 64) × (64 ≤ vec_capacity t.states) };
}

fn new_state(object: Option<u32>) -> ThreadState
    ensures { result ≡ new_state object }
{
    ThreadState {
        object,
        depth: 0,
        ended: false,
        uncaught: None,
    }
}

fn is_of_object(object: Option<u32>, n: u32) -> bool
    ensures { result ≡ is_of_object n object }
{
    match object {
        Some(m) => m == n,
        None => false,
    }
}

impl Threads {
    /// Thread 0 alone, which runs `main`.
    pub fn reserve(alloc: Global) -> Result<Threads, AllocError>
        ensures one { IfOk result (λ threads. threads ≡ new_state None ∷ []) }
    {
        let mut states = Vec::new(alloc);
        states.reserve(MOST_THREADS)?;
        states.push_reserved(new_state(None));
        Ok(Threads { states })
    }

    /// How many threads were started.
    pub fn count(&self) -> usize
        ensures count { result ≡ length self.now }
        ensures few { result ≤ 64 }
    {
        self.states.len()
    }

    /// The state of a thread. `None` exactly where it wasn't started.
    pub fn get(&self, t: ThreadNo) -> Option<ThreadState>
        ensures state { result ≡ slice_get self.now t }
    {
        self.states.get(t.number() as usize).copied()
    }

    /// How deep the region of a thread is, 0 outside regions.
    pub fn depth(&self, t: ThreadNo) -> u64
        requires there { t < length self.now }
        ensures depth { result ≡ depth_at self.now t }
    {
        self.states[t.number() as usize].depth
    }

    /// The thread of a Thread object, by its number, and its state. `None` exactly where none was
    /// started.
    pub fn started(&self, object: u32) -> Option<(ThreadNo, ThreadState)>
        ensures found { result ≡ started_from 0 self.now object }
    {
        for place in 0..self.states.len() {
            let state = self.states[place];
            if is_of_object(state.object, object) {
                let t = ThreadNo::new(place as u8)?;
                return Some((t, state));
            }
        }
        None
    }

    /// Starts the thread of a Thread object, which has the next number.
    ///
    /// # Errors
    ///
    /// `Full` exactly where there are 64 threads.
    pub fn start(&mut self, object: u32) -> Result<ThreadNo, Full>
        ensures number { IfOk result (λ t. t ≡ length self.old) }
        ensures started { OnOk result (self.new ≡ self.old ++ new_state (Some object) ∷ []) }
        ensures full { IsErr result ↔ (64 ≤ length self.old) }
        ensures numbers { IfErr result (λ full. full ≡ ThreadsFull) }
        ensures same { OnErr result (self.new ≡ self.old) }
    {
        let Some(t) = ThreadNo::new(self.states.len() as u8) else {
            return Err(Full {
                which: Which::Threads,
                need: 1,
                left: 0,
            });
        };
        self.states.push_reserved(new_state(Some(object)));
        Ok(t)
    }

    /// A thread is in a region, or in one more level of it.
    pub fn begin(&mut self, t: ThreadNo)
        requires there { t < length self.old }
        ensures deeper { self.new ≡ at_state deepened self.old t }
    {
        let state = &mut self.states[t.number() as usize];
        state.depth = state.depth.saturating_add(1);
    }

    /// A thread has left a level of its region.
    pub fn end(&mut self, t: ThreadNo)
        requires there { t < length self.old }
        ensures higher { self.new ≡ at_state raised self.old t }
    {
        let state = &mut self.states[t.number() as usize];
        state.depth = state.depth.saturating_sub(1);
    }

    /// A thread has ended, by a throwable of this class if there is one.
    pub fn leave(&mut self, t: ThreadNo, uncaught: Option<u32>)
        requires there { t < length self.old }
        ensures ended { self.new ≡ at_state (ended uncaught) self.old t }
    {
        let state = &mut self.states[t.number() as usize];
        state.ended = true;
        state.uncaught = uncaught;
    }
}
