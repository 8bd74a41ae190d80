// Turnstiles.
ghost use Rattle.std.specs.Prelude.{◌≡◌, ℕ, ◌<◌, ◌≤◌, ◌≢◌, ◌↔◌, [], ◌++◌, length, true, All, flat_map, slice_get, IsOk, IsTrue, IfOk, IfErr};
ghost use mathlib.Core.List.{IsPrefix};
ghost use Rattle.turnstile.specs.declared.view.Phase.TheVariants.{Idle, Holding};
ghost use Rattle.turnstile.specs.Entries.{entries_by, AddsBy, SameButOf};
ghost use Rattle.turnstile.specs.Hands.{times, hands_from, without_next, next_of, Agree};
ghost use Rattle.turnstile.specs.Views.{found_entries, found_parts, with_hands};

use crate::kept::Kept;
use crate::pass::Pass;
use crate::rule::{Close, Cut, Law};
use crate::view::View;
use atomic_table::{Refused, Seat, Table};
use std::alloc::{AllocFailed, Global};
use std::snapshot::Snapshot;
use std::sync::Wait;
use std::sync::atomic::AtomicU64;

/// A value that workers take one after another, in the order of their tickets.
#[derive(Drop)]
pub struct Turnstile<T: Kept> {
    pub(crate) table: Table<Option<T>, View<T::Entry, T::Part>, (u64, Snapshot<T>), Law<T>, Global>,
    pub(crate) passes: u64,
    // how many passes sleep, or are about to
    pub(crate) asleep: AtomicU64,
    ghost counted: { table.shared.key.0 ≡ passes },
    ghost some: { 0 < passes },
    ghost two_words: { table.shared.table_id.words ≡ 2 },
    ghost one_slot: { table.shared.table_id.slots ≡ 1 },
}

impl<T: Kept> Turnstile<T> {
    ghost use Rattle.turnstile.specs.Passes.{hands_of, number_of, entries_of, part_of, left_of, stock_of, phase_of, IsIdle, IsHolding, IsOf, passes_of, AreAll};

    /// A turnstile round a value without entries, for so many workers, and the pass of worker 0, which has the others in its stock. The
    /// value comes back where there is no memory. None is taken later.
    pub fn new(alloc: Global, value: T, passes: u64) -> Result<(Turnstile<T>, Pass<T>), T>
        requires some { 0 < passes }
        requires none { T.entries value ≡ [] }
        requires parts { length (T.parts value) ≡ passes }
        ensures passes { IfOk result (λ r. passes_of r.0 ≡ passes) }
        ensures pass { IfOk result (λ r. IsOf r.1 r.0 × IsIdle r.1) }
        ensures hands { IfOk result (λ r. hands_of r.1 ≡ hands_from 0 (T.parts value)) }
        ensures back { IfErr result (λ v. v ≡ value) }
    {
        let about = (passes, Snapshot::of(&value));
        let mut slots = Vec::new(alloc);
        if let Err(AllocFailed { value: back }) = slots.push(Some(value)) {
            return match back {
                Some(value) => Err(value),
                None => unreachable!(),
            };
        }
        match Table::new(alloc, &[0, 0], slots, &about) {
            Ok((table, seat)) => Ok((
                Turnstile {
                    table,
                    passes,
                    asleep: AtomicU64::new(0),
                },
                Pass {
                    seat,
                    further: passes - 1,
                },
            )),
            Err(Refused { slots: mut back }) => match back.pop() {
                Some(Some(value)) => Err(value),
                _ => unreachable!(),
            },
        }
    }

    /// A pass for the worker with the least number in the stock.
    pub fn split(&self, pass: &mut Pass<T>) -> Pass<T>
        requires of { IsOf pass.old self.now }
        requires idle { IsIdle pass.old }
        requires stock { 0 < length (stock_of pass.old) }
        ensures of { IsOf pass.new self.now × IsOf result self.now }
        ensures idle { IsIdle pass.new × IsIdle result }
        ensures old { hands_of pass.new ≡ without_next (hands_of pass.old) }
        ensures new { hands_of result ≡ next_of (hands_of pass.old) }
    {
        let seat = self.table.shared.split_seat::<Cut>(&mut pass.seat);
        pass.further -= 1;
        Pass { seat, further: 0 }
    }

    /// Waits for the pass's turn, and takes the value out. Of the pass's worker it has just what the pass knows of it, and it begins with
    /// all that the pass left.
    pub fn enter<R: Wait>(&self, rt: &R, pass: &mut Pass<T>) -> T
        requires of { IsOf pass.old self.now }
        requires idle { IsIdle pass.old }
        ensures of { IsOf pass.new self.now }
        ensures holding { phase_of pass.new ≡ Holding (T.entries result) (T.parts result) }
        ensures hands { hands_of pass.new ≡ hands_of pass.old }
        ensures entries { entries_by T.worker (number_of pass.old) (T.entries result) ≡ entries_of pass.old }
        ensures part { slice_get (T.parts result) (number_of pass.old) ≡ part_of pass.old }
        ensures before { IsPrefix (left_of pass.old) (T.entries result) }
    {
        self.take_turn(rt, &mut pass.seat)
    }

    /// Puts the value back for the next pass. Since `enter` gave it, only the pass's worker may have added entries, and only its part may
    /// have changed.
    pub fn leave(&self, pass: &mut Pass<T>, value: T)
        requires of { IsOf pass.old self.now }
        requires holding { IsHolding pass.old }
        requires entries { AddsBy T.worker (number_of pass.old) (found_entries (phase_of pass.old)) (T.entries value) }
        requires parts { SameButOf (number_of pass.old) (found_parts (phase_of pass.old)) (T.parts value) }
        ensures of { IsOf pass.new self.now }
        ensures idle { IsIdle pass.new }
        ensures number { number_of pass.new ≡ number_of pass.old }
        ensures stock { stock_of pass.new ≡ stock_of pass.old }
        ensures entries { entries_of pass.new ≡ entries_by T.worker (number_of pass.old) (T.entries value) }
        ensures part { part_of pass.new ≡ slice_get (T.parts value) (number_of pass.old) }
        ensures left { left_of pass.new ≡ T.entries value }
    {
        self.end_turn(&mut pass.seat, value);
    }

    /// Takes the value out for good. Where a pass is missing all comes back.
    pub fn close(self, passes: Vec<Pass<T>>) -> Result<T, (Turnstile<T>, Vec<Pass<T>>)>
        requires of { All (λ p. IsOf p self) passes.items }
        requires idle { All (λ p. IsIdle p) passes.items }
        ensures exact { IsOk result ↔ AreAll passes.items self }
        ensures entries { IfOk result (λ value. All (λ p. entries_by T.worker (number_of p) (T.entries value) ≡ entries_of p) passes.items) }
        ensures part { IfOk result (λ value. All (λ p. slice_get (T.parts value) (number_of p) ≡ part_of p) passes.items) }
        ensures before { IfOk result (λ value. All (λ p. IsPrefix (left_of p) (T.entries value)) passes.items) }
        ensures stock { IfOk result (λ value. All (λ p. Agree T.worker (stock_of p) (T.entries value) (T.parts value)) passes.items) }
        ensures no_other { IfOk result (λ value. (n : ℕ) → times n (flat_map (λ p. hands_of p) passes.items) ≡ 0 → entries_by T.worker n (T.entries value) ≡ []) }
        ensures back { IfErr result (λ r. (r.0 ≡ self) × (r.1 ≡ passes)) }
    {
        if !self.are_all(&passes) {
            return Err((self, passes));
        }
        let mut others = passes;
        let Some(
            Pass {
                mut seat,
                further: _,
            },
        ) = others.pop()
        else {
            unreachable!()
        };
        self.take_in(&mut seat, others);
        Ok(self.open(seat))
    }

    // Whether no pass is missing. Counted down, since a sum might not fit.
    fn are_all(&self, passes: &Vec<Pass<T>>) -> bool
        ensures { IsTrue result ↔ AreAll passes.now.items self.now }
    {
        let mut missing = self.passes;
        for pass in passes {
            if pass.further >= missing {
                return false;
            }
            missing -= pass.further + 1;
        }
        missing == 0
    }

    // The seat takes in what the passes have.
    fn take_in(&self, seat: &mut Seat<Option<T>, View<T::Entry, T::Part>>, passes: Vec<Pass<T>>)
        requires of { (seat.old.table_id ≡ self.now.table.shared.table_id) × All (λ p. IsOf p self.now) passes.items }
        requires idle { (seat.old.me.0.phase ≡ Idle) × All (λ p. IsIdle p) passes.items }
        ensures of { seat.new.table_id ≡ seat.old.table_id }
        ensures hands { seat.new.me ≡ (with_hands seat.old.me.0 (seat.old.me.0.hands ++ flat_map (λ p. hands_of p) passes.items), seat.old.me.1) }
    {
        for pass in passes {
            let Pass {
                seat: other,
                further: _,
            } = pass;
            self.table.shared.join_seat::<Close>(seat, other);
        }
    }

    // Takes the value out, once one seat has all hands.
    fn open(self, seat: Seat<Option<T>, View<T::Entry, T::Part>>) -> T
        requires of { seat.table_id ≡ self.table.shared.table_id }
        requires idle { seat.me.0.phase ≡ Idle }
        requires all { length seat.me.0.hands ≡ self.passes }
        ensures agree { Agree T.worker seat.me.0.hands (T.entries result) (T.parts result) }
        ensures no_other { (n : ℕ) → times n seat.me.0.hands ≡ 0 → entries_by T.worker n (T.entries result) ≡ [] }
    {
        let Turnstile { table, .. } = self;
        let mut closed = table.close_with(seat);
        let value = closed.take(0);
        closed.free();
        match value {
            Some(value) => value,
            None => unreachable!(),
        }
    }
}
