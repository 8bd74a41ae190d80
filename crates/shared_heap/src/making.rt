// How a shared heap is made, what it tells, and what is left of it.
ghost use Rattle.std.specs.Prelude.{◌≡◌, ◌≢◌, ◌↔◌, ◌<◌, ◌≤◌, ◌^◌, ℕ, true, [], replicate, IfErr, IfOk, IsTrue};
ghost use Rattle.convert_queue.specs.Threads.{has};
ghost use Rattle.first_spaces.specs.Laws.{first_queues};
ghost use Rattle.image_layout.specs.Places.{max_lines};
ghost use Rattle.store_barrier.specs.Passed.{Nothing};
ghost use Rattle.store_barrier.specs.Passed.{doing_of, memory_of, scene_of};
ghost use Rattle.store_barrier.specs.Barriers.{spaces_of};
ghost use Rattle.shared_heap.specs.Conversions.{HasBegun};
ghost use Rattle.shared_heap.specs.First.{empty_logs, first_shared};
ghost use Rattle.shared_heap.specs.Notes.{no_notes};

use crate::SharedHeap;
use crate::notes::Notes;
use ap_base::ThreadNo;
use convert_queue::{Conversions, Phase};
use converter::is_member;
use line_image::Image;
use line_memory::LineMemory;
use persist_space::PersistSpace;
use region_logs::Logs;
use run_history::Acts;
use shared_objects::{Rest, Threads};
use std::alloc::{AllocError, Global};
use store_barrier::Doing;
use two_spaces::TwoSpaces;

// The queues of conversions, what each thread is about, the history, the logs of regions, and what is noted for threads.
type Reserved = (Conversions, Vec<Doing>, Acts, Logs, Notes);

// All memory that a shared heap takes, for an image of so many lines and a history of so many acts.
fn reserve(alloc: Global, lines: u32, limit: u32) -> Result<Reserved, AllocError>
    requires few { lines ≤ max_lines }
    ensures queue { IfOk result (λ it. it.0 ≡ first_queues lines) }
    ensures doing { IfOk result (λ it. it.1.items ≡ replicate 64 Nothing) }
    ensures acts { IfOk result (λ it. it.2
        ≡ record { acts = []; named = []; limit = limit; room = lines }) }
    ensures logs { IfOk result (λ it. it.3.logs ≡ empty_logs) }
    ensures guardable { IfOk result (λ it. it.3.lines ≡ lines) }
    ensures notes { IfOk result (λ it. it.4 ≡ no_notes) }
{
    let queue = Conversions::reserve(alloc, lines)?;
    let doing = vec![in alloc; Doing::Nothing; 64]?;
    let mut acts = Acts::new(alloc);
    acts.reserve(limit, lines)?;
    let logs = Logs::reserve(alloc, lines)?;
    logs.stand_apart();
    let notes = Notes::reserve(alloc)?;
    Ok((queue, doing, acts, logs, notes))
}

// Whether a set of threads, which a number of 64 bits can be, has another than this one.
fn has_other(set: u64, t: ThreadNo) -> bool
    ensures other { IsTrue result ↔ ((u : ℕ) × (u < 64) × (u ≢ t) × (has set u ≡ true)) }
    ensures small { set < 2 ^ 64 }
{
    for u in 0..64u8 {
        if u != t.number() && is_member(set, u) {
            return true;
        }
    }
    false
}

impl<I: Image> SharedHeap<I> {
    /// The shared heap with which a run begins: no act was made, and nothing asked or claimed. It
    /// may have so many acts, and `free` is the first line that no object has. It takes all memory
    /// that it will ever need.
    ///
    /// # Errors
    ///
    /// The heap is given back where memory is wanting.
    pub fn new(
        alloc: Global,
        spaces: TwoSpaces<I>,
        free: u32,
        rest: Rest,
        acts: u32,
    ) -> Result<SharedHeap<I>, TwoSpaces<I>>
        requires few { spaces.heap.memory.size ≤ max_lines }
        ensures made { IfOk result (λ heap. heap ≡ first_shared (spaces_of spaces) free rest acts) }
        ensures given_back { IfErr result (λ back. back ≡ spaces) }
    {
        let lines = spaces.heap.memory.lines() as u32;
        let Ok((queue, doing, history, logs, notes)) = reserve(alloc, lines, acts) else {
            return Err(spaces);
        };
        Ok(SharedHeap {
            spaces,
            queue,
            lines: PersistSpace::new(free, lines),
            rest,
            doing,
            logs,
            acts: history,
            notes,
            limit: acts,
        })
    }

    /// What a thread is about.
    pub fn doing(&self, t: ThreadNo) -> Doing
        ensures { result ≡ doing_of self.now.machine t }
    {
        self.doing[t.number() as usize]
    }

    /// Whether the conversion of a thread has begun and isn't sealed: the thread has queued an object, or it is in its
    /// flush and needs another.
    pub fn is_converting(&self, t: ThreadNo) -> bool
        ensures { IsTrue result ↔ HasBegun (scene_of self.now.machine) t }
    {
        if self.queue.queued(t, 0).is_some() {
            return true;
        }
        self.queue.phase(t) == Phase::Flush && has_other(self.queue.group(t), t)
    }

    /// How many calls of the image were made.
    pub fn calls(&self) -> u64
        ensures { result ≡ (memory_of self.now.machine).calls }
    {
        self.spaces.heap.memory.calls()
    }

    /// The history.
    pub fn acts(&self) -> &Acts
        ensures { result.now ≡ self.now.history }
    {
        &self.acts
    }

    /// The threads that were started.
    pub fn threads(&self) -> &Threads
        ensures { result.now ≡ self.now.machine.rest.threads }
    {
        &self.rest.threads
    }

    /// The history, and the memory over the image.
    pub fn finish(self) -> (Acts, LineMemory<I>)
        ensures history { result.0 ≡ self.history }
        ensures memory { result.1 ≡ memory_of self.machine }
    {
        let SharedHeap { spaces, acts, .. } = self;
        (acts, spaces.heap.memory)
    }
}
