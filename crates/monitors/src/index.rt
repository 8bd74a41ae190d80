// An index of the held monitors by their keys.
ghost use Rattle.std.specs.Prelude.{◌≡◌, ◌<◌, ◌≤◌, ◌+◌, [], IfOk, IfSome, IsNone, length};
ghost use Rattle.monitors.specs.Held.{IsAt, IsFree};
ghost use Rattle.monitors.specs.Indexed.{IsIndex};

use crate::key::{bucket, same_key};
use crate::{MOST_MONITORS, Monitor};
use run_types::Key;
use std::alloc::{AllocError, Global};

// How many buckets keys fall into.
const BUCKETS: usize = 8192;

/// For each bucket the latest of the monitors whose keys fall into it, and for each monitor the latest
/// one before it in its bucket: 1 + its place, or 0 for none.
#[derive(Drop)]
pub struct Index {
    pub latest: Vec<u32>,
    pub earlier: Vec<u32>,
}

impl Index {
    /// The index of no monitors.
    pub fn new(alloc: Global) -> Result<Index, AllocError>
        ensures none { IfOk result (λ index. IsIndex [] index.latest.items index.earlier.items 0) }
    {
        Ok(Index {
            latest: vec![in alloc; 0; BUCKETS]?,
            earlier: vec![in alloc; 0; MOST_MONITORS]?,
        })
    }

    /// Adds the n-th monitor, behind all before it.
    pub fn link(&mut self, held: &[Monitor], n: usize)
        requires before { IsIndex held.now self.old.latest.items self.old.earlier.items n }
        requires there { n < length held.now }
        requires few { n < 4096 }
        ensures linked { IsIndex held.now self.new.latest.items self.new.earlier.items (n + 1) }
    {
        let at = bucket(held[n].key);
        self.earlier[n] = self.latest[at];
        self.latest[at] = n as u32 + 1;
    }

    /// Takes the n-th monitor out, the last one of those in the index.
    pub fn unlink(&mut self, held: &[Monitor], n: usize)
        requires before { IsIndex held.now self.old.latest.items self.old.earlier.items (n + 1) }
        requires there { n < length held.now }
        requires few { n < 4096 }
        ensures unlinked { IsIndex held.now self.new.latest.items self.new.earlier.items n }
    {
        let at = bucket(held[n].key);
        self.latest[at] = self.earlier[n];
    }

    /// Adds the monitors from a place on.
    pub fn link_from(&mut self, held: &[Monitor], from: usize)
        requires before { IsIndex held.now self.old.latest.items self.old.earlier.items from }
        requires there { from ≤ length held.now }
        requires few { length held.now ≤ 4096 }
        ensures linked { IsIndex held.now self.new.latest.items self.new.earlier.items
            (length held.now) }
    {
        for n in from..held.len() {
            self.link(held, n);
        }
    }

    /// Takes the monitors from a place on out.
    pub fn unlink_from(&mut self, held: &[Monitor], from: usize)
        requires before { IsIndex held.now self.old.latest.items self.old.earlier.items
            (length held.now) }
        requires there { from ≤ length held.now }
        requires few { length held.now ≤ 4096 }
        ensures unlinked { IsIndex held.now self.new.latest.items self.new.earlier.items from }
    {
        for n in (from..held.len()).rev() {
            self.unlink(held, n);
        }
    }

    /// The place of the monitor of a key.
    pub fn find(&self, held: &[Monitor], key: Key) -> Option<usize>
        requires indexed { IsIndex held.now self.now.latest.items self.now.earlier.items
            (length held.now) }
        requires few { length held.now ≤ 4096 }
        ensures found { IfSome result (λ i. IsAt held.now key i) }
        ensures none { IsNone result → IsFree held.now key }
    {
        let mut at = self.latest[bucket(key)] as usize;
        while at > 0 {
            if same_key(held[at - 1].key, key) {
                return Some(at - 1);
            }
            at = self.earlier[at - 1] as usize;
        }
        None
    }
}
