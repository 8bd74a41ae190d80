//! A stack in memory of a fixed size: its top is an index.

ghost use Rattle.std.specs.Prelude.{◌≡◌, ◌<◌, ◌≤◌, Some, [], ◌∷◌, ◌++◌, length, take, slice_get, slice_set, insert, IfOk};
ghost use Rattle.std.specs.Prelude.{replicate, ◌-◌, vec_capacity};

use std::alloc::{AllocError, Global};
use std::marker::Model;

/// How many entries a stack has room for.
const ROOM: usize = 65_536;

/// A stack of at most 65,536 entries. Contracts see the list of them, from the lowest, and how many places were
/// written: only these can have entries. So memory is touched only as far as the stack has grown, and a push tests
/// nothing.
#[derive(Drop)]
pub struct CellStack<T: Copy + Drop> {
    items: Vec<T>,
    top: usize,
}

impl<T: Copy + Drop> Model for CellStack<T> {
    ghost use Rattle.std.specs.Prelude.{◌≤◌, length, take, vec_capacity};
    ghost use Rattle.frame_cells.specs.Window.{Stack};

    ghost Value = { Stack T };

    ghost view = { λ s. record { entries = take s.top s.items.items; ready = length s.items.items } };

    ghost invariant = { λ s. (s.top ≤ length s.items.items)
        × (length s.items.items ≤ 65536)
        × (65536 ≤ vec_capacity s.items) };
}

impl<T: Copy + Drop> CellStack<T> {
    /// An empty stack. It takes all the memory that its entries will need, and writes none of it.
    pub fn new(alloc: Global) -> Result<CellStack<T>, AllocError>
        ensures { IfOk result (λ r. r ≡ record { entries = []; ready = 0 }) }
    {
        Ok(CellStack {
            items: Vec::with_capacity(alloc, ROOM)?,
            top: 0,
        })
    }

    #[inline(always)]
    pub fn len(&self) -> usize
        ensures len { result ≡ length self.now.entries }
        ensures ready { result ≤ self.now.ready }
        ensures room { self.now.ready ≤ 65536 }
    {
        self.top
    }

    #[inline(always)]
    pub fn get(&self, at: usize) -> T
        requires { at < length self.now.entries }
        ensures { slice_get self.now.entries at ≡ Some result }
    {
        self.items[at]
    }

    #[inline(always)]
    pub fn set(&mut self, at: usize, value: T)
        requires { at < length self.old.entries }
        ensures entries { self.new.entries ≡ slice_set self.old.entries at value }
        ensures ready { self.new.ready ≡ self.old.ready }
    {
        self.items[at] = value;
    }

    #[inline(always)]
    pub fn push(&mut self, value: T)
        requires { length self.old.entries < self.old.ready }
        ensures entries { self.new.entries ≡ self.old.entries ++ value ∷ [] }
        ensures ready { self.new.ready ≡ self.old.ready }
    {
        self.items[self.top] = value;
        self.top += 1;
    }

    /// The entries from this index on move up by one, and this one comes before them.
    #[inline(always)]
    pub fn insert(&mut self, at: usize, value: T)
        requires at { at ≤ length self.old.entries }
        requires room { length self.old.entries < self.old.ready }
        ensures entries { self.new.entries ≡ insert self.old.entries at value }
        ensures ready { self.new.ready ≡ self.old.ready }
    {
        let mut carried = value;
        for i in at..self.len() {
            let next = self.get(i);
            self.set(i, carried);
            carried = next;
        }
        self.push(carried);
    }

    #[inline(always)]
    pub fn truncate(&mut self, count: usize)
        requires { count ≤ length self.old.entries }
        ensures entries { self.new.entries ≡ take count self.old.entries }
        ensures ready { self.new.ready ≡ self.old.ready }
    {
        self.top = count;
    }

    /// So many places can have entries. Those that couldn't before are filled with this.
    #[inline(always)]
    pub fn make_ready(&mut self, places: usize, fill: T)
        requires { places ≤ 65536 }
        ensures entries { self.new.entries ≡ self.old.entries }
        ensures ready { places ≤ self.new.ready }
        ensures room { self.new.ready ≤ 65536 }
    {
        if self.items.len() < places {
            extend(&mut self.items, places, fill);
        }
    }
}

fn extend<T: Copy + Drop>(items: &mut Vec<T>, count: usize, fill: T)
    requires count { (length items.old.items ≤ count) × (count ≤ 65536) }
    requires room { 65536 ≤ vec_capacity items.old }
    ensures items { items.new.items ≡ items.old.items ++ replicate (count - length items.old.items) fill }
    ensures room { vec_capacity items.new ≡ vec_capacity items.old }
{
    let missing = count - items.len();
    for _ in 0..missing {
        items.push_reserved(fill);
    }
}
