//! The cells of a thread's frames, in one stack that never grows.

ghost use Rattle.std.specs.Prelude.{◌≡◌, Bool, ℕ, ◌<◌, ◌≤◌, ◌+◌, ◌-◌, List, [], ◌∷◌, ◌++◌, length, take, drop, reverse};
ghost use Rattle.std.specs.Prelude.{replicate, slice_get, IfOk};
ghost use Rattle.frame_cells.specs.Own.{int_at, long_at, reference_at, IsAsLarge, put, keep, is_whole};
ghost use Rattle.frame_cells.specs.Window.{Window, empty_window, filled, window, window_after, entered};
ghost use Rattle.frame_cells.specs.Families.{gives_long, copies, drops, swaps};

use crate::cell::{Cell, Did};
use crate::stack::CellStack;
use std::alloc::{AllocError, Global};
use std::marker::Model;

/// The cells of a thread: those of the frame that runs, and below them those of its callers.
#[derive(Drop)]
pub struct Cells<R: Copy + Drop> {
    items: CellStack<Cell<R>>,
    locals: usize,
    base: usize,
    room: usize,
}

impl<R: Copy + Drop> Model for Cells<R> {
    ghost use Rattle.std.specs.Prelude.{ℕ, List, ◌≤◌, ◌+◌, length};
    ghost use Rattle.frame_cells.specs.Window.{Window, window};

    ghost Value = { Window R };

    ghost view = { λ c. window c.items.entries c.locals c.base c.room };

    ghost invariant = { λ c. (c.locals ≤ c.base)
        × (c.base ≤ length c.items.entries)
        × (length c.items.entries ≤ c.base + c.room)
        × (c.base + c.room ≤ c.items.ready)
        × (c.items.ready ≤ 65536) };
}

/// Where the locals and the stack of a frame begin among the cells, and how many cells its stack may have.
#[derive(Clone, Copy)]
pub struct Places {
    pub locals: usize,
    pub base: usize,
    pub room: usize,
}

impl<R: Copy + Drop> Cells<R> {
    /// No frames. It takes all the memory that the thread will need, and writes none of it.
    pub fn new(alloc: Global) -> Result<Cells<R>, AllocError>
        ensures { IfOk result (λ r. r ≡ empty_window) }
    {
        Ok(Cells {
            items: CellStack::new(alloc)?,
            locals: 0,
            base: 0,
            room: 0,
        })
    }

    /// How many cells the stack has.
    #[inline(always)]
    pub fn depth(&self) -> usize
        ensures depth { result ≡ length self.now.own.stack }
        ensures room { length self.now.own.stack ≤ self.now.own.room }
    {
        self.items.len() - self.base
    }

    #[inline(always)]
    fn peek(&self, at: usize) -> Option<Cell<R>>
        ensures { result ≡ slice_get self.now.own.stack at }
    {
        if at < self.depth() {
            Some(self.items.get(self.items.len() - 1 - at))
        } else {
            None
        }
    }

    /// The local variable with this index.
    #[inline(always)]
    pub fn local(&self, at: usize) -> Option<Cell<R>>
        ensures { result ≡ slice_get self.now.own.locals at }
    {
        if at < self.base - self.locals {
            Some(self.items.get(self.locals + at))
        } else {
            None
        }
    }

    /// The int with this many cells of the stack above it.
    #[inline(always)]
    pub fn int_at(&self, at: usize) -> Option<i32>
        ensures { result ≡ int_at at self.now.own }
    {
        match self.peek(at) {
            Some(Cell::Int(i)) => Some(i),
            _ => None,
        }
    }

    /// The reference with this many cells of the stack above it.
    #[inline(always)]
    pub fn reference_at(&self, at: usize) -> Option<R>
        ensures { result ≡ reference_at at self.now.own }
    {
        match self.peek(at) {
            Some(Cell::Reference(r)) => Some(r),
            _ => None,
        }
    }

    /// The long with this many cells of the stack above it.
    #[inline(always)]
    pub fn long_at(&self, at: usize) -> Option<i64>
        requires { at < 65536 }
        ensures { result ≡ long_at at self.now.own }
    {
        match (self.peek(at + 1), self.peek(at)) {
            (Some(Cell::Long(i)), Some(Cell::Half)) => Some(i),
            _ => None,
        }
    }

    /// This cell comes in place of the top ones.
    #[inline(always)]
    pub fn put(&mut self, taken: usize, cell: Cell<R>) -> Did
        ensures did { result ≡ (put taken (cell ∷ []) Did.Next self.old.own).did }
        ensures own { self.new ≡ window_after self.old (put taken (cell ∷ []) Did.Next self.old.own) }
        ensures size { IsAsLarge self.old.own self.new.own }
    {
        let depth = self.depth();
        if depth < taken || self.room < 1 + (depth - taken) {
            return Did::Bad;
        }
        self.items.truncate(self.items.len() - taken);
        self.items.push(cell);
        Did::Next
    }

    /// This long comes in place of the top cells.
    #[inline(always)]
    pub fn put_long(&mut self, taken: usize, value: i64) -> Did
        ensures did { result ≡ (gives_long taken value self.old.own).did }
        ensures own { self.new ≡ window_after self.old (gives_long taken value self.old.own) }
        ensures size { IsAsLarge self.old.own self.new.own }
    {
        let depth = self.depth();
        if depth < taken || self.room < 2 + (depth - taken) {
            return Did::Bad;
        }
        self.items.truncate(self.items.len() - taken);
        self.items.push(Cell::Long(value));
        self.items.push(Cell::Half);
        Did::Next
    }

    /// The top cells go, and then it goes on so.
    #[inline(always)]
    pub fn take_off(&mut self, taken: usize, did: Did) -> Did
        ensures did { result ≡ (put taken [] did self.old.own).did }
        ensures own { self.new ≡ window_after self.old (put taken [] did self.old.own) }
        ensures size { IsAsLarge self.old.own self.new.own }
    {
        let depth = self.depth();
        if depth < taken {
            return Did::Bad;
        }
        self.items.truncate(self.items.len() - taken);
        did
    }

    /// The local variable becomes this cell, and the top cells go.
    #[inline(always)]
    pub fn keep(&mut self, taken: usize, at: usize, cell: Cell<R>) -> Did
        requires { at < 65536 }
        ensures did { result ≡ (keep taken at (cell ∷ []) self.old.own).did }
        ensures own { self.new ≡ window_after self.old (keep taken at (cell ∷ []) self.old.own) }
        ensures size { IsAsLarge self.old.own self.new.own }
    {
        if self.base - self.locals < at + 1 || self.depth() < taken {
            return Did::Bad;
        }
        let place = self.locals + at;
        self.items.set(place, cell);
        self.items.truncate(self.items.len() - taken);
        Did::Next
    }

    /// The local variable and the one after it become this long, and the top cells go.
    #[inline(always)]
    pub fn keep_long(&mut self, taken: usize, at: usize, value: i64) -> Did
        requires { at < 65536 }
        ensures did { result ≡ (keep taken at (Cell.Long value ∷ Cell.Half ∷ []) self.old.own).did }
        ensures own { self.new
            ≡ window_after self.old (keep taken at (Cell.Long value ∷ Cell.Half ∷ []) self.old.own) }
        ensures size { IsAsLarge self.old.own self.new.own }
    {
        if self.base - self.locals < at + 2 || self.depth() < taken {
            return Did::Bad;
        }
        let place = self.locals + at;
        self.items.set(place, Cell::Long(value));
        self.items.set(place + 1, Cell::Half);
        self.items.truncate(self.items.len() - taken);
        Did::Next
    }

    #[inline(always)]
    fn is_whole(&self, cells: usize) -> bool
        ensures { result ≡ is_whole cells self.now.own }
    {
        if cells == 0 {
            return true;
        }
        match self.peek(cells - 1) {
            None => false,
            Some(Cell::Half) => false,
            Some(_) => true,
        }
    }

    /// The top cells go, if that cuts no long.
    #[inline(always)]
    pub fn remove_whole(&mut self, cells: usize) -> Did
        ensures did { result ≡ (drops cells self.old.own).did }
        ensures own { self.new ≡ window_after self.old (drops cells self.old.own) }
        ensures size { IsAsLarge self.old.own self.new.own }
    {
        if !self.is_whole(cells) {
            return Did::Bad;
        }
        self.take_off(cells, Did::Next)
    }

    /// The top cell comes once more, below the cells beneath it, if that cuts no long.
    #[inline(always)]
    pub fn copy_one(&mut self, under: usize) -> Did
        requires { under ≤ 2 }
        ensures did { result ≡ (copies 1 under self.old.own).did }
        ensures own { self.new ≡ window_after self.old (copies 1 under self.old.own) }
        ensures size { IsAsLarge self.old.own self.new.own }
    {
        let depth = self.depth();
        if depth < 1 + under || !self.is_whole(1) || !self.is_whole(1 + under) {
            return Did::Bad;
        }
        if self.room < depth + 1 {
            return Did::Bad;
        }
        let top = self.peek(0).unwrap();
        let end = self.items.len();
        self.items.insert(end - (1 + under), top);
        Did::Next
    }

    /// The top two cells come once more, below the cells beneath them, if that cuts no long.
    #[inline(always)]
    pub fn copy_two(&mut self, under: usize) -> Did
        requires { under ≤ 2 }
        ensures did { result ≡ (copies 2 under self.old.own).did }
        ensures own { self.new ≡ window_after self.old (copies 2 under self.old.own) }
        ensures size { IsAsLarge self.old.own self.new.own }
    {
        let depth = self.depth();
        if depth < 2 + under || !self.is_whole(2) || !self.is_whole(2 + under) {
            return Did::Bad;
        }
        if self.room < depth + 2 {
            return Did::Bad;
        }
        let top = self.peek(0).unwrap();
        let second = self.peek(1).unwrap();
        let end = self.items.len();
        self.items.insert(end - (2 + under), top);
        self.items.insert(end - (2 + under), second);
        Did::Next
    }

    /// The top two cells change places, if neither is of a long.
    #[inline(always)]
    pub fn swap(&mut self) -> Did
        ensures did { result ≡ (swaps self.old.own).did }
        ensures own { self.new ≡ window_after self.old (swaps self.old.own) }
        ensures size { IsAsLarge self.old.own self.new.own }
    {
        let depth = self.depth();
        if depth < 2 || !self.is_whole(1) || !self.is_whole(2) {
            return Did::Bad;
        }
        let top = self.peek(0).unwrap();
        let second = self.peek(1).unwrap();
        let end = self.items.len();
        self.items.truncate(end - 2);
        self.items.push(top);
        self.items.push(second);
        Did::Next
    }

    /// The top cells become the first locals of a frame of this size. No cell moves.
    pub fn enter(&mut self, args: usize, locals: usize, room: usize)
        requires args { args ≤ length self.old.own.stack }
        requires locals { args ≤ locals }
        requires room { filled self.old + locals + room ≤ 65536 + args }
        ensures { self.new ≡ entered args locals room self.old }
    {
        self.locals = self.items.len() - args;
        self.items
            .make_ready(self.locals + locals + room, Cell::Empty);
        fill(&mut self.items, locals - args);
        self.base = self.items.len();
        self.room = room;
    }

    /// The frame goes, and the one below with these places comes back.
    pub fn leave(&mut self, places: Places)
        requires order { (places.locals ≤ places.base) × (places.base ≤ length self.old.under) }
        requires stack { length self.old.under ≤ places.base + places.room }
        requires room { places.base + places.room ≤ 65536 }
        ensures { self.new ≡ window self.old.under places.locals places.base places.room }
    {
        self.items.truncate(self.locals);
        self.items
            .make_ready(places.base + places.room, Cell::Empty);
        self.locals = places.locals;
        self.base = places.base;
        self.room = places.room;
    }

    /// Where the frame that runs has its cells.
    #[inline(always)]
    pub fn places(&self) -> Places
        ensures locals { result.locals ≡ length self.now.under }
        ensures base { result.base ≡ length self.now.under + length self.now.own.locals }
        ensures room { result.room ≡ self.now.own.room }
    {
        Places {
            locals: self.locals,
            base: self.base,
            room: self.room,
        }
    }
}

// Empty cells at the end.
fn fill<R: Copy + Drop>(items: &mut CellStack<Cell<R>>, count: usize)
    requires { length items.old.entries + count ≤ items.old.ready }
    ensures entries { items.new.entries ≡ items.old.entries ++ replicate count Cell.Empty }
    ensures ready { items.new.ready ≡ items.old.ready }
{
    for _ in 0..count {
        items.push(Cell::Empty);
    }
}
