// The steps of a pass on the words and the slot, and how it waits.
ghost use Rattle.std.specs.Prelude.{◌≡◌, ℕ, ◌%◌, ◌<◌, ◌==◌, [], ◌∷◌, length, true, Some, None, MatchBool};
ghost use Rattle.turnstile.specs.declared.view.Phase.TheVariants.{Idle, Waiting};
ghost use Rattle.turnstile.specs.Hands.{times, Agree};
ghost use Rattle.turnstile.specs.Views.{is_holding, waiting, holding, leaving};
ghost use Rattle.turnstile.specs.Rules.{Found, Adds};

use crate::kept::Kept;
use crate::rule::{Draw, Look, Raise};
use crate::turnstile::Turnstile;
use crate::view::View;
use atomic_table::Seat;
use std::sync::Wait;
use std::sync::atomic::Ordering;
use std::{hint, thread};

const TICKET: usize = 0;

const SERVING: usize = 1;

/// How often a pass that finds others there leaves them to it before it draws a ticket.
const ASIDE: u32 = 64;

/// How often it lets others have its processor for that, the first time.
const YIELDS: u32 = 32;

/// How many times it lets them have it for twice as often as the time before; from then on it stays the same.
const DOUBLINGS: u32 = 2;

/// How often a pass looks before it sleeps: a hold is short, and to sleep and be woken takes longer than many.
const LOOKS: u32 = 256;

/// How many of these it makes before it lets another thread have its processor in between.
const SPINS: u32 = 160;

// What a pass does behind so many looks in vain.
fn pause(looks: u32) {
    if looks < SPINS {
        hint::spin_loop();
    } else {
        thread::yield_now();
    }
}

// Leaves others to it, behind so many looks: lets them have its processor 32 times, 64 times, and from then on 128 times. Were it less at
// first, one that has just left would be back behind a hold or two, and most holds would be another core's than the one before.
fn leave_to_others(looks: u32) {
    for _ in 0..YIELDS << looks.min(DOUBLINGS) {
        thread::yield_now();
    }
}

impl<T: Kept> Turnstile<T> {
    // Whether no ticket seems to be out: the two words are read one after the other.
    fn is_free(&self) -> bool {
        self.table.shared.peek(TICKET) == self.table.shared.peek(SERVING)
    }

    // Stands aside while others are there, for a time. One of them that comes back meanwhile finds all that it wrote in its own processor's
    // cache: to go from one processor to another with each hold takes longer than the hold.
    fn stand_aside(&self) {
        for looks in 0..ASIDE {
            if self.is_free() {
                return;
            }
            leave_to_others(looks);
        }
    }

    // Draws a ticket.
    fn draw(&self, seat: &mut Seat<Option<T>, View<T::Entry, T::Part>>) -> u64
        requires of { seat.old.table_id ≡ self.now.table.shared.table_id }
        requires idle { seat.old.me.0.phase ≡ Idle }
        requires some { 0 < length seat.old.me.0.hands }
        ensures of { seat.new.table_id ≡ seat.old.table_id }
        ensures drawn { (t : ℕ) × (t % 18446744073709551616 ≡ result) × (seat.new.me ≡ (waiting seat.old.me.0 t, seat.old.me.1)) }
    {
        self.table.shared.fetch_add::<Draw>(seat, TICKET, 1)
    }

    // The ticket that is served. Where it is the pass's, the pass holds the value from now on.
    fn look(&self, seat: &mut Seat<Option<T>, View<T::Entry, T::Part>>) -> u64
        requires of { seat.old.table_id ≡ self.now.table.shared.table_id }
        requires waits { seat.old.me.0.phase ≡ Waiting }
        ensures of { seat.new.table_id ≡ seat.old.table_id }
        ensures looked { MatchBool (result == seat.old.me.0.ticket % 18446744073709551616)
            (Found T.worker T.entries T.parts seat.old.me seat.new.me) (seat.new.me ≡ seat.old.me) }
    {
        self.table.shared.load::<Look>(seat, SERVING)
    }

    // Whether the ticket is served within some looks.
    fn looks(&self, seat: &mut Seat<Option<T>, View<T::Entry, T::Part>>, ticket: u64) -> bool
        requires of { seat.old.table_id ≡ self.now.table.shared.table_id }
        requires waits { seat.old.me.0.phase ≡ Waiting }
        requires ticket { seat.old.me.0.ticket % 18446744073709551616 ≡ ticket }
        ensures of { seat.new.table_id ≡ seat.old.table_id }
        ensures found { MatchBool result
            (Found T.worker T.entries T.parts seat.old.me seat.new.me) (seat.new.me ≡ seat.old.me) }
    {
        for looks in 0..LOOKS {
            let serving = self.look(seat);
            if serving == ticket {
                return true;
            }
            pause(looks);
        }
        false
    }

    // Sleeps until the ticket is served.
    fn sleeps<R: Wait>(
        &self,
        rt: &R,
        seat: &mut Seat<Option<T>, View<T::Entry, T::Part>>,
        ticket: u64,
    )
        requires of { seat.old.table_id ≡ self.now.table.shared.table_id }
        requires waits { seat.old.me.0.phase ≡ Waiting }
        requires ticket { seat.old.me.0.ticket % 18446744073709551616 ≡ ticket }
        ensures of { seat.new.table_id ≡ seat.old.table_id }
        ensures found { Found T.worker T.entries T.parts seat.old.me seat.new.me }
    {
        self.asleep.fetch_add(1, Ordering::SeqCst);
        for _ in rt.forever() {
            let serving = self.look(seat);
            if serving == ticket {
                self.asleep.fetch_sub(1, Ordering::SeqCst);
                return;
            }
            self.table
                .shared
                .park(rt, SERVING, (serving & 0xffff_ffff) as u32);
        }
        unreachable!()
    }

    // Waits until the ticket is served.
    fn wait_turn<R: Wait>(
        &self,
        rt: &R,
        seat: &mut Seat<Option<T>, View<T::Entry, T::Part>>,
        ticket: u64,
    )
        requires of { seat.old.table_id ≡ self.now.table.shared.table_id }
        requires waits { seat.old.me.0.phase ≡ Waiting }
        requires ticket { seat.old.me.0.ticket % 18446744073709551616 ≡ ticket }
        ensures of { seat.new.table_id ≡ seat.old.table_id }
        ensures found { Found T.worker T.entries T.parts seat.old.me seat.new.me }
    {
        if !self.looks(seat, ticket) {
            self.sleeps(rt, seat, ticket);
        }
    }

    // Takes the value out of the slot.
    fn take(&self, seat: &mut Seat<Option<T>, View<T::Entry, T::Part>>) -> T
        requires of { seat.old.table_id ≡ self.now.table.shared.table_id }
        requires has { (x : T) × (seat.old.me.1 ≡ (0, Some x) ∷ []) }
        ensures of { seat.new.table_id ≡ seat.old.table_id }
        ensures taken { (seat.old.me.1 ≡ (0, Some result) ∷ []) × (seat.new.me ≡ (seat.old.me.0, (0, None) ∷ [])) }
    {
        match self.table.shared.exchange(seat, 0, None) {
            Some(value) => value,
            None => unreachable!(),
        }
    }

    // Waits for the pass's turn, and takes the value out.
    pub(crate) fn take_turn<R: Wait>(
        &self,
        rt: &R,
        seat: &mut Seat<Option<T>, View<T::Entry, T::Part>>,
    ) -> T
        requires of { seat.old.table_id ≡ self.now.table.shared.table_id }
        requires idle { seat.old.me.0.phase ≡ Idle }
        requires some { 0 < length seat.old.me.0.hands }
        requires empty { seat.old.me.1 ≡ [] }
        ensures of { seat.new.table_id ≡ seat.old.table_id }
        ensures holds { (t : ℕ)
            × (seat.new.me ≡ (holding (waiting seat.old.me.0 t) (T.entries result) (T.parts result), (0, None) ∷ [])) }
        ensures agree { Agree T.worker seat.old.me.0.hands (T.entries result) (T.parts result) }
    {
        self.stand_aside();
        let ticket = self.draw(seat);
        self.wait_turn(rt, seat, ticket);
        self.take(seat)
    }

    // Puts the value back, and serves the next ticket.
    pub(crate) fn end_turn(&self, seat: &mut Seat<Option<T>, View<T::Entry, T::Part>>, value: T)
        requires of { seat.old.table_id ≡ self.now.table.shared.table_id }
        requires holds { (is_holding seat.old.me.0.phase ≡ true) × (seat.old.me.1 ≡ (0, None) ∷ []) }
        requires adds { Adds T.worker seat.old.me.0 (T.entries value) (T.parts value) }
        ensures of { seat.new.table_id ≡ seat.old.table_id }
        ensures left { seat.new.me ≡ (leaving T.worker seat.old.me.0 (T.entries value) (T.parts value), []) }
        ensures agree { Agree T.worker seat.new.me.0.hands (T.entries value) (T.parts value) }
    {
        let _nothing = self.table.shared.exchange(seat, 0, Some(value));
        let _served = self.table.shared.fetch_add::<Raise>(seat, SERVING, 1);
        // One that is counted behind this look finds the next one served, and won't sleep.
        if self.asleep.load(Ordering::SeqCst) != 0 {
            self.table.shared.wake_all(SERVING);
        }
    }
}
