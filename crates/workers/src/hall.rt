// What the host threads of a run share.
ghost use Rattle.std.specs.Prelude.{◌≡◌, length, Some};
ghost use Rattle.turnstile.specs.Passes.{IsIdle, IsOf as IsOfTurnstile, hands_of, turnstile_id};
ghost use Rattle.turnstile.specs.Hands.{hands_from};
ghost use Rattle.workers.specs.Held.{IsOf, HasEnded};

use crate::bells::{Bells, Heard};
use crate::crew::Crew;
use crate::desk::Desk;
use crate::locked::{Locked, Look, Told};
use crate::names::{Naming, Sharing};
use crate::seat::Seat;
use crate::waiting::Came;
use ap_base::{Gate, Item, Ref, Sink, ThreadNo};
use durable_run::Frames;
use frame_thread::Host;
use line_image::Image;
use natives::{Native, NativeState};
use run_history::{Act, Watcher};
use shared_objects::Types;
use std::array;
use std::sync::{Mutex, Wait};
use turnstile::{Kept, Pass, Turnstile};

/// A seat for each thread, in a place that its host thread alone locks.
pub(crate) fn seats_of<
    K: Sharing,
    J: Naming<S> + Send,
    I: Image + Send,
    S: Sink + Send,
    W: Watcher + Send,
>(
    turnstile: &Turnstile<Desk<J, I, S, W>>,
    first: Pass<Desk<J, I, S, W>>,
    frames: Vec<Frames<Ref, NativeState>>,
    turns: [u64; 64],
) -> [Mutex<Option<Seat<K, J, S, Desk<J, I, S, W>>>>; 64]
    requires named { K.turnstile ≡ Some (turnstile_id turnstile.now) }
    requires of { IsOfTurnstile first turnstile.now }
    requires idle { IsIdle first }
    requires hands { hands_of first ≡ hands_from 0 frames.items }
    requires many { length frames.items ≡ 64 }
{
    let mut first = first;
    let mut frames = frames;
    let mut seats: [Mutex<Option<Seat<K, J, S, Desk<J, I, S, W>>>>; 64] = array::from_fn(
        |_| Mutex::new(None),
    );
    let main = frames.remove(0);
    for n in 1..64 {
        let pass = turnstile.split(&mut first);
        let thread = ThreadNo::new(n).unwrap();
        let seat = Seat::new(thread, pass, frames.remove(0), turns[n as usize]);
        *seats[n as usize].get_mut() = Some(seat);
    }
    let seat = Seat::new(ThreadNo::main(), first, main, turns[0]);
    *seats[0].get_mut() = Some(seat);
    seats
}

/// The turnstile with the run, the threads' seats, and the bells.
#[derive(Drop)]
pub(crate) struct Hall<
    'a,
    K: Sharing,
    J: Naming<S>,
    S,
    T: Kept<Entry = Act, Part = Frames<Ref, NativeState>>,
> {
    pub(crate) turnstile: &'a Turnstile<T>,
    pub(crate) seats: &'a [Mutex<Option<Seat<K, J, S, T>>>],
    pub(crate) bells: &'a Bells,
    ghost named: { K.turnstile ≡ Some (turnstile_id turnstile.now) },
}

impl<K: Sharing, J: Naming<S> + Send, I: Image + Send, S: Sink + Send, W: Watcher + Send> Hall<
    '_,
    K,
    J,
    S,
    Desk<J, I, S, W>,
> {
    /// An event of a thread, if it lives, by the host thread of its seat, and at most so many further ones, each behind those of at most `ahead`
    /// turns that pause and begin ahead.
    pub(crate) fn events<R: Wait, C: Types, H: Host<Native, Ref, NativeState, Item>, G: Gate>(
        &self,
        rt: &R,
        set: &C,
        host: &H,
        gate: &G,
        t: ThreadNo,
        ahead: u32,
        further: u32,
    ) -> Told
        requires of { IsOf (C.facts set.now) (H.setting host.now) J.entry }
    {
        let Some(place) = self.seats.get(t.number() as usize) else {
            return Told::refused(Came::Idle);
        };
        let mut place = place.lock(rt);
        match &mut *place {
            Some(seat) => seat.events(rt, self, set, host, gate, ahead, further),
            None => Told::refused(Came::Idle),
        }
    }

    /// What there is to do for a crew, and how often the bells were rung by then. It comes to the run by the pass of one of its threads.
    pub(crate) fn look<R: Wait>(&self, rt: &R, crew: &Crew, watched: bool) -> (Look, Heard) {
        let Some(place) = self.seats.get(crew.first().number() as usize) else {
            return (Look::done(), self.bells.heard());
        };
        let mut place = place.lock(rt);
        match &mut *place {
            Some(seat) => seat.look(rt, self, crew, watched),
            None => (Look::done(), self.bells.heard()),
        }
    }

    /// Ends the round, if the bells weren't rung since.
    pub(crate) fn end_round<R: Wait>(&self, rt: &R, crew: &Crew, heard: Heard) {
        let Some(place) = self.seats.get(crew.first().number() as usize) else {
            return;
        };
        let mut place = place.lock(rt);
        if let Some(seat) = &mut *place {
            seat.end_round(rt, self, heard);
        }
    }

    /// Takes the run out for good, once it is over or all threads have ended.
    pub(crate) fn close<R: Wait>(&self, rt: &R) -> Locked<J, I, S, W>
        ensures ended { HasEnded result.run }
    {
        for _ in rt.forever() {
            if let Some(seat) = self.first_seat(rt) {
                return seat.close(rt, self.turnstile);
            }
        }
        unreachable!()
    }

    // The seat of the first thread, if it is there.
    fn first_seat<R: Wait>(&self, rt: &R) -> Option<Seat<K, J, S, Desk<J, I, S, W>>> {
        self.seats.first()?.lock(rt).take()
    }
}
