// What threads that convert objects have claimed, and how far each has come.
ghost use Rattle.std.specs.Prelude.{◌≡◌, ◌≢◌, ◌⊎◌, ◌<◌, ◌+◌, ◌++◌, ◌∷◌, ◌↔◌, [], ℕ, true, false, length, replicate, slice_get};
ghost use Rattle.std.specs.Prelude.{slice_index, slice_set, IfOk, IfErr, IfSome, IsNone, IsTrue};
ghost use Rattle.convert_queue.specs.Marks.{clean, with_fence, with_store, with_write, mark_at, IsClean, IsStored, MayNote};
ghost use Rattle.convert_queue.specs.Queues.{phase_of, place_of, queue_of, total, AllSettled, IsLeastUnsettled, IsSettled};
ghost use Rattle.convert_queue.specs.Threads.{has, needs_of, IsGroupOf};
ghost use Rattle.convert_queue.specs.declared.phase.Phase.TheVariants.{Copy};

use crate::groups::{clear_needs, group};
use crate::line_marks::LineMarks;
use crate::queue_lists::QueueLists;
use crate::thread_set::{member, with_member};
use crate::{Phase, Unready};
use ap_base::ThreadNo;
use std::alloc::{AllocError, Global};
use std::marker::Model;

/// The claimed objects of all threads, how far each thread has come with its own, which threads need
/// which, and how the lines of copies stand to the image. After `reserve` no call takes memory.
#[derive(Drop)]
pub struct Conversions {
    lists: QueueLists,
    lines: LineMarks,
    places: Vec<(u32, u32)>,
    phases: Vec<Phase>,
    needs: Vec<u64>,
}

impl Model for Conversions {
    ghost use Rattle.std.specs.Prelude.{◌≡◌, ◌<◌, length};
    ghost use Rattle.convert_queue.specs.Queues.{Queues};

    ghost Value = { Queues };

    ghost view = { λ c. record {
      queues = c.lists.queues;
      places = c.places.items;
      phases = c.phases.items;
      needs = c.needs.items;
      marks = c.lines;
    } };

    ghost invariant = { λ c. (length c.lists.queues ≡ 64) × (length c.places.items ≡ 64)
        × (length c.phases.items ≡ 64) × (length c.needs.items ≡ 64) × (length c.lines ≡ c.lists.size)
        × (c.lists.size < 4294967296) };
}

// The thread of a number.
fn thread(n: u8) -> ThreadNo
    requires { n < 64 }
    ensures { result ≡ n }
{
    match ThreadNo::new(n) {
        Some(thread) => thread,
        None => ThreadNo::main(),
    }
}

impl Conversions {
    /// No thread has claimed an object, and all lines are clean. Takes the memory for an image of so
    /// many lines.
    pub fn reserve(alloc: Global, lines: u32) -> Result<Conversions, AllocError>
        ensures empty { IfOk result (λ queues. queues ≡ record {
          queues = replicate 64 [];
          places = replicate 64 (0, 0);
          phases = replicate 64 Copy;
          needs = replicate 64 0;
          marks = replicate lines clean;
        }) }
    {
        Ok(Conversions {
            lists: QueueLists::reserve(alloc, lines)?,
            lines: LineMarks::reserve(alloc, lines)?,
            places: vec![in alloc; (0, 0); 64]?,
            phases: vec![in alloc; Phase::Copy; 64]?,
            needs: vec![in alloc; 0; 64]?,
        })
    }

    /// A thread begins a conversion: it is in phase Copy, at the first line of its first object.
    pub fn begin(&mut self, t: ThreadNo)
        ensures begun { self.new ≡ record self.old {
          places = slice_set self.old.places t (0, 0);
          phases = slice_set self.old.phases t Copy;
        } }
    {
        self.set_phase(t, Phase::Copy);
        self.set_place(t, 0, 0);
    }

    /// Thread `t` needs thread `u`: it has met an object that `u` has claimed and not sealed.
    pub fn needs(&mut self, t: ThreadNo, u: ThreadNo)
        ensures here { needs_of self.new.needs t u ≡ true }
        ensures others { (a b : ℕ) → (a ≡ t → b ≢ u)
            → needs_of self.new.needs a b ≡ needs_of self.old.needs a b }
        ensures long { length self.new.needs ≡ length self.old.needs }
        ensures same { self.new ≡ record self.old { needs = self.new.needs } }
    {
        let t = t.number() as usize;
        self.needs[t] = with_member(self.needs[t], u.number());
    }

    /// Adds a claimed object, whose copy's first line this is, to the queue of thread `t`.
    pub fn put(&mut self, t: ThreadNo, object: u32, line: u32)
        requires room { total self.old.queues < length self.old.marks }
        ensures put { self.new ≡ record self.old {
          queues = slice_set self.old.queues t (queue_of self.old t ++ (object, line) ∷ []);
        } }
    {
        self.lists.put(t.number() as usize, object, line);
    }

    /// The n-th object of a thread's queue and the first line of its copy. `None` exactly from the
    /// queue's length on. Takes constant time at the thread's place.
    pub fn queued(&self, t: ThreadNo, n: u32) -> Option<(u32, u32)>
        ensures queued { result ≡ slice_get (queue_of self.now t) n }
    {
        self.lists.get(t.number() as usize, n)
    }

    /// How far the phase of a thread has come: the object of its queue, and the line of that object.
    pub fn place(&self, t: ThreadNo) -> (u32, u32)
        ensures place { result ≡ place_of self.now t }
    {
        self.places[t.number() as usize]
    }

    /// Notes how far the phase of a thread has come. Takes constant time where the object is that of the
    /// place before or the one behind it, or the first.
    pub fn set_place(&mut self, t: ThreadNo, n: u32, line: u32)
        ensures place { self.new ≡ record self.old {
          places = slice_set self.old.places t (n, line);
        } }
    {
        let t = t.number() as usize;
        self.lists.move_to(t, n);
        self.places[t] = (n, line);
    }

    /// The phase of a thread. There are a queue, a place, a phase and a set of needs for each of 64 threads.
    pub fn phase(&self, t: ThreadNo) -> Phase
        ensures phase { result ≡ phase_of self.now t }
        ensures threads { (length self.now.queues ≡ 64) × (length self.now.places ≡ 64)
            × (length self.now.phases ≡ 64) × (length self.now.needs ≡ 64) }
    {
        self.phases[t.number() as usize]
    }

    /// Sets the phase of a thread.
    pub fn set_phase(&mut self, t: ThreadNo, phase: Phase)
        ensures phase { self.new ≡ record self.old {
          phases = slice_set self.old.phases t phase;
        } }
    {
        self.phases[t.number() as usize] = phase;
    }

    /// Notes a store to a line of a copy that thread `t` has claimed.
    pub fn dirty(&mut self, t: ThreadNo, line: u32)
        requires below { line < length self.old.marks }
        requires alone { MayNote t (mark_at self.old.marks line) }
        ensures noted { self.new ≡ record self.old {
          marks = with_store self.old.marks t line;
        } }
    {
        self.lines.store(t, line as usize);
    }

    /// Notes that thread `t` has written a line back.
    pub fn wrote(&mut self, t: ThreadNo, line: u32)
        requires below { line < length self.old.marks }
        requires alone { MayNote t (mark_at self.old.marks line) }
        ensures noted { self.new ≡ record self.old { marks = with_write self.old.marks line } }
    {
        self.lines.write(t, line as usize);
    }

    /// Notes a fence, whoever made it. Takes constant time, but for one fence in 2^32.
    pub fn fenced(&mut self)
        ensures noted { self.new ≡ record self.old { marks = with_fence self.old.marks } }
    {
        self.lines.fence();
    }

    /// The least line that thread `t` has stored to since its last write. `None` exactly where there is
    /// none. Takes time in the logarithm of the number of lines.
    pub fn unwritten(&self, t: ThreadNo) -> Option<u32>
        ensures some { IfSome result (λ l. IsStored self.now.marks t l
            × (l < length self.now.marks) × ((k : ℕ) → k < l → IsStored self.now.marks t k → ⊥)) }
        ensures none { IsNone result → (l : ℕ) → IsStored self.now.marks t l → ⊥ }
    {
        match self.lines.unwritten(t) {
            Some(line) => Some(line as u32),
            None => None,
        }
    }

    /// Whether each line that thread `t` has stored to was written after its last store, and then fenced.
    pub fn is_clean(&self, t: ThreadNo) -> bool
        ensures clean { IsTrue result ↔ IsClean self.now.marks t }
    {
        self.lines.is_clean(t)
    }

    /// Whether the conversion of a thread is settled: it is in phase Flush, and all its lines are clean.
    pub fn is_settled(&self, t: ThreadNo) -> bool
        ensures settled { IsTrue result ↔ IsSettled self.now t }
    {
        self.phase(t) == Phase::Flush && self.is_clean(t)
    }

    /// The group of a thread: the least set that has it and each thread that a member needs.
    pub fn group(&self, t: ThreadNo) -> u64
        ensures group { IsGroupOf self.now.needs t result }
    {
        group(&self.needs, t.number())
    }

    /// The group of a thread, whose members are all settled.
    ///
    /// # Errors
    ///
    /// `Unready` exactly where a member isn't settled: the least one.
    pub fn may_seal(&self, t: ThreadNo) -> Result<u64, Unready>
        ensures group { IfOk result (λ set. IsGroupOf self.now.needs t set) }
        ensures settled { IfOk result (λ set. AllSettled self.now set) }
        ensures unready { IfErr result (λ e. IsLeastUnsettled self.now t e.thread) }
    {
        let set = self.group(t);
        for u in 0..64u8 {
            if member(set, u) && !self.is_settled(thread(u)) {
                return Err(Unready { thread: thread(u) });
            }
        }
        Ok(set)
    }

    /// The threads of a set have been sealed: their queues are empty, they need nobody, and nobody needs
    /// one of them.
    pub fn seal(&mut self, set: u64)
        ensures emptied { (t : ℕ) → has set t ≡ true → queue_of self.new t ≡ [] }
        ensures kept { (t : ℕ) → has set t ≡ false → queue_of self.new t ≡ queue_of self.old t }
        ensures no_more { (a b : ℕ) → a < 64 → b < 64 → (has set a ≡ true) ⊎ (has set b ≡ true)
            → needs_of self.new.needs a b ≡ false }
        ensures others { (a b : ℕ) → has set a ≡ false → has set b ≡ false
            → needs_of self.new.needs a b ≡ needs_of self.old.needs a b }
        ensures long { (length self.new.queues ≡ length self.old.queues)
            × (length self.new.needs ≡ length self.old.needs) }
        ensures same { self.new ≡ record self.old { queues = self.new.queues; needs = self.new.needs } }
    {
        self.lists.release_all(set);
        clear_needs(&mut self.needs, set);
    }
}
