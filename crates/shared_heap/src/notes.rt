// What is noted for each thread.
ghost use Rattle.std.specs.Prelude.{◌≡◌, ◌<◌, length, option_copied, replicate, slice_get, slice_set, IfOk, None, Some};
ghost use Rattle.shared_heap.specs.Notes.{AreOf64, answered, asking, no_notes, starting, taken, waiting};

use ap_base::{Ref, ThreadNo};
use natives::Request;
use run_types::On;
use std::alloc::{AllocError, Global};
use std::marker::Model;

/// What is noted for each of 64 threads: the request that it has asked and that isn't answered yet, what its
/// last event waited for, and the reference to its Thread object with which it was started.
#[derive(Drop)]
pub struct Notes {
    asks: Vec<Option<Request>>,
    waits: Vec<Option<On>>,
    started: Vec<Option<Ref>>,
}

impl Model for Notes {
    ghost use Rattle.std.specs.Prelude.{◌≡◌, length};
    ghost use Rattle.shared_heap.specs.Notes.{ThreadNotes};

    ghost Value = { ThreadNotes };

    ghost view = { λ n. record {
      asks = n.asks.items;
      waits = n.waits.items;
      started = n.started.items;
    } };

    ghost invariant = { λ n. (length n.asks.items ≡ 64) × (length n.waits.items ≡ 64)
        × (length n.started.items ≡ 64) };
}

// Nothing is noted, for each of 64 threads.
fn nothing_noted<T: Drop>(alloc: Global) -> Result<Vec<Option<T>>, AllocError>
    ensures none { IfOk result (λ noted. noted.items ≡ replicate 64 None) }
{
    let mut noted = Vec::with_capacity(alloc, 64)?;
    for _ in 0..64u8 {
        noted.push_reserved(None);
    }
    Ok(noted)
}

// Nothing is noted there. As a rule nothing was, and a note that is written takes many bytes.
fn forget<T: Drop>(noted: &mut Vec<Option<T>>, at: usize)
    requires inside { at < length noted.old.items }
    ensures none { noted.new.items ≡ slice_set noted.old.items at None }
{
    if noted[at].is_none() {
        return;
    }
    noted[at] = None;
}

impl Notes {
    /// Nothing is noted.
    pub fn reserve(alloc: Global) -> Result<Notes, AllocError>
        ensures none { IfOk result (λ notes. notes ≡ no_notes) }
    {
        Ok(Notes {
            asks: nothing_noted(alloc)?,
            waits: nothing_noted(alloc)?,
            started: nothing_noted(alloc)?,
        })
    }

    /// Does nothing: at any time there are notes for 64 threads.
    pub fn are_of_64(&self)
        ensures threads { AreOf64 self.now }
    {
        let _asks = &self.asks;
    }

    /// The request that a thread has asked, which is noted no more.
    pub fn take(&mut self, t: ThreadNo) -> Option<Request>
        ensures asked { slice_get self.old.asks t ≡ Some result }
        ensures taken { self.new ≡ taken self.old t }
        ensures threads { AreOf64 self.new }
    {
        self.asks[t.number() as usize].take()
    }

    /// A thread asks this, and its last event waited for nothing.
    pub fn ask(&mut self, t: ThreadNo, request: Request)
        ensures asks { self.new ≡ asking self.old t request }
        ensures threads { AreOf64 self.new }
    {
        let at = t.number() as usize;
        self.asks[at] = Some(request);
        self.waits[at] = None;
    }

    /// The last event of a thread waited for this.
    pub fn wait(&mut self, t: ThreadNo, on: On)
        ensures waits { self.new ≡ waiting self.old t on }
        ensures threads { AreOf64 self.new }
    {
        self.waits[t.number() as usize] = Some(on);
    }

    /// A thread asks nothing, and its last event waited for nothing.
    pub fn answer(&mut self, t: ThreadNo)
        ensures answered { self.new ≡ answered self.old t }
        ensures threads { AreOf64 self.new }
    {
        let at = t.number() as usize;
        forget(&mut self.asks, at);
        forget(&mut self.waits, at);
    }

    /// A thread was started by this reference to its Thread object.
    pub fn start(&mut self, t: ThreadNo, thread: Ref)
        ensures started { self.new ≡ starting self.old t thread }
    {
        self.started[t.number() as usize] = Some(thread);
    }

    /// The request that a thread has asked.
    pub fn asked(&self, t: ThreadNo) -> Option<&Request>
        ensures asked { slice_get self.now.asks t ≡ Some (option_copied result) }
    {
        self.asks[t.number() as usize].as_ref()
    }

    /// What the last event of a thread waited for.
    pub fn waiting(&self, t: ThreadNo) -> Option<On>
        ensures waits { slice_get self.now.waits t ≡ Some result }
    {
        self.waits[t.number() as usize]
    }

    /// The reference to its Thread object with which a thread was started.
    pub fn started(&self, t: ThreadNo) -> Option<Ref>
        ensures started { slice_get self.now.started t ≡ Some result }
    {
        self.started[t.number() as usize]
    }
}
