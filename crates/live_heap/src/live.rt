// What was seen, as it is kept.
ghost use Rattle.std.specs.Prelude.{◌≡◌, ◌<◌, ◌-◌, ◌^◌, OnOk, OnErr, IfOk, suc, if◌then◌else◌};
ghost use Rattle.live_heap.specs.Copies.{IsSoundSeen};
ghost use Rattle.run_history.specs.Worlds.{heap_after_op_checked};
ghost use Rattle.live_heap.specs.Seen.{durable_after, is_durable_store, seen_after};
ghost use Rattle.live_heap.specs.Views.{followed, view_of};

use crate::copies::heap;
use crate::durable::{flag, is_durable_store};
use crate::fitting::{do_fitting, fits};
use crate::looks::held_roots;
use crate::paths::follow;
use crate::walk::count_reached;
use crate::{Followed, Heard, Look};
use ap_base::Place;
use graph_model::Heap;
use std::alloc::{AllocError, Global};
use std::marker::Model;

/// The plain heap after the acts that were told, and which of its objects are durable. Contracts see it as what was seen.
#[derive(Drop)]
pub struct Live {
    heap: Heap,
    durable: Vec<bool>,
    acts: u64,
    stores: u64,
    alloc: Global,
}

impl Model for Live {
    ghost use Rattle.live_heap.specs.Seen.{Seen};
    ghost use Rattle.live_heap.specs.Copies.{IsSoundSeen};

    ghost Value = { Seen };

    ghost view = { λ l. record { heap = l.heap; durable = l.durable.items; acts = l.acts; stores = l.stores } };

    ghost invariant = { λ l. IsSoundSeen (record { heap = l.heap; durable = l.durable.items; acts = l.acts; stores = l.stores }) };
}

/// Takes an act into the heap and the flags, and tells whether it is a durable store.
fn take_in(
    alloc: Global,
    heap: &mut Heap,
    durable: &mut Vec<bool>,
    heard: &Heard,
) -> Result<bool, AllocError>
    ensures heap { OnOk result (heap.new ≡ heap_after_op_checked heap.old heard.now.act.op) }
    ensures durable { OnOk result (durable.new.items
        ≡ durable_after heap.old durable.old.items heard.now.named heard.now.act.op) }
    ensures store { IfOk result (λ is_store. is_store
        ≡ is_durable_store heap.old durable.old.items heard.now.act.op) }
    ensures same_heap { OnErr result (heap.new ≡ heap.old) }
    ensures same_durable { OnErr result (durable.new.items ≡ durable.old.items) }
{
    let op = heard.op();
    let is_fit = fits(heap, op);
    let is_store = is_durable_store(heap, durable.as_slice(), op);
    durable.reserve(1)?;
    do_fitting(alloc, heap, op)?;
    flag(durable, op, is_fit, heard.named());
    Ok(is_store)
}

/// The count, or one more.
fn counted(count: u64, is_more: bool) -> u64
    requires { count < 2 ^ 64 - 1 }
    ensures { result ≡ (if is_more then suc count else count) }
{
    if is_more { count + 1 } else { count }
}

impl Live {
    /// What is seen before the first act: this heap, of which these objects are durable. Takes no memory.
    pub fn new(alloc: Global, heap: Heap, durable: Vec<bool>) -> Live
        requires sound { IsSoundSeen (record { heap = heap; durable = durable.items; acts = 0; stores = 0 }) }
        ensures { result ≡ record { heap = heap; durable = durable.items; acts = 0; stores = 0 } }
    {
        Live {
            heap,
            durable,
            acts: 0,
            stores: 0,
            alloc,
        }
    }

    /// Takes in a further act. Want of numbers, for 2^64 acts, is want of memory. At `Err` all is as before.
    pub fn hear(&mut self, heard: &Heard) -> Result<(), AllocError>
        ensures heard { OnOk result (self.new ≡ seen_after self.old heard.now) }
        ensures same { OnErr result (self.new ≡ self.old) }
    {
        if self.acts == u64::MAX {
            return Err(AllocError);
        }
        let is_store = take_in(self.alloc, &mut self.heap, &mut self.durable, heard)?;
        self.acts += 1;
        self.stores = counted(self.stores, is_store);
        Ok(())
    }

    /// A copy.
    pub fn copy(&self, alloc: Global) -> Result<Live, AllocError>
        ensures { IfOk result (λ copy. copy ≡ self.now) }
    {
        Ok(Live {
            heap: heap(alloc, &self.heap)?,
            durable: Vec::from_slice(alloc, self.durable.as_slice())?,
            acts: self.acts,
            stores: self.stores,
            alloc,
        })
    }

    /// How many acts were seen.
    pub fn acts(&self) -> u64
        ensures { result ≡ self.now.acts }
    {
        self.acts
    }

    /// What is seen at a glance. It walks over all that the roots reach, and takes memory for a mark of each object.
    pub fn look(&self, alloc: Global) -> Result<Look, AllocError>
        ensures { IfOk result (λ look. look ≡ view_of self.now) }
    {
        let held = held_roots(alloc, &self.heap)?;
        Ok(Look {
            acts: self.acts,
            roots: held.count,
            nodes: count_reached(alloc, &self.heap, held.values.as_slice())?,
            stores: self.stores,
        })
    }

    /// Where a path of slots leads from a root. Takes no memory.
    pub fn path(&self, root: u32, slots: &[u32]) -> Followed
        ensures { result ≡ followed self.now.heap root slots.now }
    {
        match self.heap.roots.as_slice().get(root as usize) {
            None => Followed::NoPath { step: 0 },
            Some(root) => { follow(&self.heap, self.heap.read(Place::Static(root.at)), slots) }
        }
    }
}
