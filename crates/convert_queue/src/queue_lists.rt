// The queues of all threads, as chains through one list of entries.
ghost use Rattle.std.specs.Prelude.{◌≡◌, ◌≢◌, ◌<◌, ◌≤◌, ◌+◌, ◌-◌, ◌++◌, ◌∷◌, ◌^◌, [], ℕ, replicate, length, slice_get};
ghost use Rattle.std.specs.Prelude.{slice_set, get_or, IfOk, true, false, nat_eq, if◌then◌else◌};
ghost use Rattle.convert_queue.specs.Chains.{linked, longer, next_in, no_entry, nth_from};
ghost use Rattle.convert_queue.specs.Queues.{queue_in, total};
ghost use Rattle.convert_queue.specs.Threads.{has};

use crate::thread_set::member;
use std::alloc::{AllocError, Global};
use std::marker::Model;

/// An object that was claimed, the first line of its copy, and the next entry of its chain.
#[derive(Clone, Copy)]
pub struct Entry {
    pub object: u32,
    pub line: u32,
    pub next: u32,
}

/// A chain of entries. Its place `at` is a number of entries from the first one on, and `cursor` is
/// the entry there, if the chain is that long.
#[derive(Clone, Copy)]
pub struct Chain {
    pub first: u32,
    pub last: u32,
    pub count: u32,
    pub at: u32,
    pub cursor: u32,
}

/// The queues of 64 threads, and the entries that are in none.
#[derive(Drop)]
pub struct QueueLists {
    entries: Vec<Entry>,
    chains: Vec<Chain>,
    free: Chain,
}

impl Model for QueueLists {
    ghost use Rattle.std.specs.Prelude.{map, length};
    ghost use Rattle.convert_queue.specs.Chains.{AreLists, Lists, queue_from};

    ghost Value = { Lists };

    ghost view = { λ m. record {
      queues = map (queue_from m.entries.items) m.chains.items;
      size = length m.entries.items;
    } };

    ghost invariant = { λ m. AreLists m.entries.items m.chains.items m.free };
}

// Entries of which each has the one behind it as the next.
fn entries_in_order(alloc: Global, count: u32) -> Result<Vec<Entry>, AllocError>
    ensures long { IfOk result (λ entries. length entries.items ≡ count) }
    ensures next { IfOk result (λ entries.
        (i : ℕ) → i < count → next_in entries.items i ≡ i + 1) }
{
    let mut entries = Vec::new(alloc);
    entries.reserve(count as usize)?;
    for i in 0..count {
        entries.push_reserved(Entry {
            object: 0,
            line: 0,
            next: i + 1,
        });
    }
    Ok(entries)
}

// The n-th entry of a chain, found from its place on where that isn't behind it.
fn entry_at(entries: &[Entry], chain: Chain, n: u32) -> u32
    requires there { n < chain.count }
    requires within { (k : ℕ) → k < chain.count
        → nth_from (next_in entries.now) k chain.first < length entries.now }
    requires stands { chain.at < chain.count
        → chain.cursor ≡ nth_from (next_in entries.now) chain.at chain.first }
    ensures entry { result ≡ nth_from (next_in entries.now) n chain.first }
{
    let from_place = chain.at <= n;
    let from = if from_place { chain.at } else { 0 };
    let mut entry = if from_place {
        chain.cursor
    } else {
        chain.first
    };
    for k in from..n {
        entry = entries[entry as usize].next;
    }
    entry
}

// An entry has another next one.
fn set_next(entries: &mut Vec<Entry>, at: u32, next: u32)
    requires there { at < length entries.old.items }
    ensures entries { entries.new.items ≡ slice_set entries.old.items at
        (record (get_or entries.old.items at no_entry) { next = next }) }
{
    let entry = entries[at as usize];
    entries[at as usize] = Entry { next, ..entry };
}

// The last entry of a chain has this one as its next.
fn link(entries: &mut Vec<Entry>, chain: Chain, entry: u32) -> Chain
    requires there { 0 < chain.count → chain.last < length entries.old.items }
    requires few { chain.count < 2 ^ 32 - 1 }
    ensures chain { result ≡ longer chain entry }
    ensures entries { entries.new.items ≡ linked entries.old.items chain entry }
{
    if chain.count > 0 {
        set_next(entries, chain.last, entry);
    }
    Chain {
        first: if chain.count == 0 { entry } else { chain.first },
        last: entry,
        count: chain.count + 1,
        at: chain.at,
        cursor: if chain.at == chain.count {
            entry
        } else {
            chain.cursor
        },
    }
}

// The chain with its place at the n-th entry.
fn moved(entries: &[Entry], chain: Chain, n: u32) -> Chain
    requires within { (k : ℕ) → k < chain.count
        → nth_from (next_in entries.now) k chain.first < length entries.now }
    requires stands { chain.at < chain.count
        → chain.cursor ≡ nth_from (next_in entries.now) chain.at chain.first }
    ensures chain { result ≡ record chain { at = n; cursor = result.cursor } }
    ensures cursor { n < chain.count → result.cursor ≡ nth_from (next_in entries.now) n chain.first }
{
    let cursor = if n < chain.count {
        entry_at(entries, chain, n)
    } else {
        0
    };
    Chain {
        at: n,
        cursor,
        ..chain
    }
}

impl QueueLists {
    /// The queues are empty, with room for so many objects in all.
    pub fn reserve(alloc: Global, size: u32) -> Result<QueueLists, AllocError>
        ensures empty { IfOk result (λ lists.
            lists ≡ record { queues = replicate 64 []; size = size }) }
    {
        let none = Chain {
            first: 0,
            last: 0,
            count: 0,
            at: 0,
            cursor: 0,
        };
        Ok(QueueLists {
            entries: entries_in_order(alloc, size)?,
            chains: vec![in alloc; none; 64]?,
            free: Chain {
                count: size,
                ..none
            },
        })
    }

    /// Puts an object behind those of a thread's queue.
    pub fn put(&mut self, t: usize, object: u32, line: u32)
        requires thread { t < 64 }
        requires room { total self.old.queues < self.old.size }
        ensures put { self.new ≡ record self.old {
          queues = slice_set self.old.queues t
              (queue_in self.old.queues t ++ (object, line) ∷ []);
        } }
    {
        let entry = self.free.first;
        self.free = Chain {
            first: self.entries[entry as usize].next,
            count: self.free.count - 1,
            ..self.free
        };
        self.entries[entry as usize] = Entry {
            object,
            line,
            next: entry,
        };
        let chain = self.chains[t];
        self.chains[t] = link(&mut self.entries, chain, entry);
    }

    /// The n-th object of a thread's queue. Takes constant time at the thread's place.
    pub fn get(&self, t: usize, n: u32) -> Option<(u32, u32)>
        requires thread { t < 64 }
        ensures queued { result ≡ slice_get (queue_in self.now.queues t) n }
    {
        let chain = self.chains[t];
        if n >= chain.count {
            return None;
        }
        let entry = entry_at(&self.entries, chain, n);
        let Entry { object, line, .. } = self.entries[entry as usize];
        Some((object, line))
    }

    /// The place of a thread is at its n-th object. Takes constant time where that is the next one, or the first.
    pub fn move_to(&mut self, t: usize, n: u32)
        requires thread { t < 64 }
        ensures same { self.new ≡ self.old }
    {
        self.chains[t] = moved(&self.entries, self.chains[t], n);
    }

    /// Empties a thread's queue.
    pub fn release(&mut self, t: usize)
        requires thread { t < 64 }
        ensures emptied { self.new ≡ record self.old { queues = slice_set self.old.queues t [] } }
    {
        let chain = self.chains[t];
        if chain.count == 0 {
            return;
        }
        set_next(&mut self.entries, chain.last, self.free.first);
        self.free = Chain {
            first: chain.first,
            count: self.free.count + chain.count,
            ..self.free
        };
        self.chains[t] = Chain { count: 0, ..chain };
    }

    /// Empties the queues of a set of threads.
    pub fn release_all(&mut self, set: u64)
        ensures threads { length self.old.queues ≡ 64 → length self.new.queues ≡ 64 }
        ensures emptied { (t : ℕ) → t < 64 → has set t ≡ true
            → queue_in self.new.queues t ≡ [] }
        ensures kept { (t : ℕ) → has set t ≡ false
            → queue_in self.new.queues t ≡ queue_in self.old.queues t }
        ensures size { self.new.size ≡ self.old.size }
    {
        for t in 0..64u8 {
            if member(set, t) {
                self.release(t as usize);
            }
        }
    }
}
