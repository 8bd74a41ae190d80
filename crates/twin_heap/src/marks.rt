// What a heap keeps of its objects beside their words.
ghost use Rattle.std.specs.Prelude.{◌≡◌, ◌<◌, ◌≤◌, ◌+◌, ◌-◌, ◌^◌, [], ◌∷◌, ◌++◌, ◌≢◌, ℕ, IfOk, length, map, slice_index};
ghost use Rattle.std.specs.Prelude.{slice_set};
ghost use Rattle.twin_forms.specs.Sights.{Marks as Kept, slot_kind};
ghost use Rattle.twin_heap.specs.Here.{Begins, kinds_of};

use crate::opening::{all_kinds, births_of, number_lines};
use ap_base::Kind;
use graph_model::Shape;
use std::alloc::{AllocError, Global};
use std::marker::Model;
use twin_forms::ShapeKinds;

/// By the first line of a copy: the object's number, how many lines of the copy are copied, and 0 or 1 + the thread
/// that has claimed the object. By number: the word of the reference with which an object began. By shape: its kinds.
#[derive(Drop)]
pub struct Marks {
    numbers: Vec<u32>,
    copies: Vec<u32>,
    owners: Vec<u8>,
    births: Vec<u64>,
    kinds: Vec<ShapeKinds>,
    room: u32,
}

impl Model for Marks {
    ghost use Rattle.std.specs.Prelude.{◌≡◌, ◌≤◌, ◌+◌, length, vec_capacity};
    ghost use Rattle.twin_forms.specs.Sights.{Marks as Kept};

    ghost Value = { Kept };

    ghost view = { λ m. record {
      numbers = m.numbers.items;
      copies = m.copies.items;
      owners = m.owners.items;
      births = m.births.items;
      kinds = m.kinds.items;
      room = m.room;
    } };

    ghost invariant = { λ m. (length m.copies.items ≡ length m.numbers.items)
        × (length m.owners.items ≡ length m.numbers.items)
        × (length m.births.items + m.room ≤ vec_capacity m.births) };
}

impl Marks {
    /// What a heap over so many lines keeps where objects begin at these ones, with room for so many more.
    pub fn open(
        alloc: Global,
        shapes: &[Shape],
        lines: &[u32],
        count: u64,
        room: u32,
    ) -> Result<Marks, AllocError>
        requires few { length lines.now + room < 4294967296 }
        requires count { count < 4294967296 }
        requires within { (n : ℕ) → n < length lines.now → slice_index lines.now n < count }
        requires apart { (i j : ℕ) → i < length lines.now → j < length lines.now → i ≢ j
            → slice_index lines.now i ≢ slice_index lines.now j }
        ensures begins { IfOk result (Begins (map kinds_of shapes.now) lines.now count room) }
    {
        let mut numbers = vec![in alloc; 0u32; count as usize]?;
        number_lines(&mut numbers, lines);
        Ok(Marks {
            numbers,
            copies: vec![in alloc; 0u32; count as usize]?,
            owners: vec![in alloc; 0u8; count as usize]?,
            births: births_of(alloc, lines, room)?,
            kinds: all_kinds(alloc, shapes)?,
            room,
        })
    }

    /// The number of the object whose copy begins at a line.
    pub fn number(&self, line: u32) -> u32
        requires { line < length self.now.numbers }
        ensures { result ≡ slice_index self.now.numbers line }
    {
        self.numbers[line as usize]
    }

    /// How many of its lines are copied.
    pub fn copied(&self, line: u32) -> u32
        requires { line < length self.now.numbers }
        ensures { result ≡ slice_index self.now.copies line }
    {
        self.copies[line as usize]
    }

    /// Who has claimed it: 0, or 1 + the thread.
    pub fn owner(&self, line: u32) -> u8
        requires { line < length self.now.numbers }
        ensures { result ≡ slice_index self.now.owners line }
    {
        self.owners[line as usize]
    }

    /// The kind of a slot of an object of a shape. `None` where it has none.
    pub fn kind(&self, shape: u32, index: u32) -> Option<Kind>
        requires { shape < length self.now.kinds }
        ensures { result ≡ slot_kind self.now.kinds shape index }
    {
        let kinds = &self.kinds[shape as usize];
        match kinds.element {
            Some(kind) => Some(kind),
            None => kinds.fields.as_slice().get(index as usize).copied(),
        }
    }

    /// A copy begins at the line, of which nothing is copied yet.
    pub fn begin(&mut self, line: u32, number: u32, owner: u8)
        requires { line < length self.old.numbers }
        ensures sized { (length self.old.copies ≡ length self.old.numbers) × (length self.old.owners ≡ length self.old.numbers) }
        ensures new { self.new ≡ record self.old {
          numbers = slice_set self.old.numbers line number;
          copies = slice_set self.old.copies line 0;
          owners = slice_set self.old.owners line owner;
        } }
    {
        self.numbers[line as usize] = number;
        self.copies[line as usize] = 0;
        self.owners[line as usize] = owner;
    }

    /// So many lines of the copy are copied.
    pub fn set_copied(&mut self, line: u32, copied: u32)
        requires { line < length self.old.numbers }
        ensures sized { (length self.old.copies ≡ length self.old.numbers) × (length self.old.owners ≡ length self.old.numbers) }
        ensures new { self.new ≡ record self.old { copies = slice_set self.old.copies line copied } }
    {
        self.copies[line as usize] = copied;
    }

    /// Nobody owns the copy any more.
    pub fn release(&mut self, line: u32)
        requires { line < length self.old.numbers }
        ensures sized { (length self.old.copies ≡ length self.old.numbers) × (length self.old.owners ≡ length self.old.numbers) }
        ensures new { self.new ≡ record self.old { owners = slice_set self.old.owners line 0 } }
    {
        self.owners[line as usize] = 0;
    }

    /// One more object, which began with this word. Answers its number.
    pub fn add(&mut self, birth: u64) -> u32
        requires room { 0 < self.old.room }
        requires few { length self.old.births + self.old.room < 2 ^ 32 }
        ensures number { result ≡ length self.old.births }
        ensures added { self.new ≡ record self.old {
          births = self.old.births ++ birth ∷ [];
          room = self.old.room - 1;
        } }
    {
        let number = self.births.len() as u32;
        self.births.push_reserved(birth);
        self.room -= 1;
        number
    }
}
