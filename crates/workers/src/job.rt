// The turns of a crew's threads.
ghost use Rattle.std.specs.Prelude.{◌≡◌, ◌<◌, ℕ, slice_get, Some, true};
ghost use Rattle.workers.specs.Held.{IsOf};

use crate::alone::Alone;
use crate::bells::Heard;
use crate::crew::Crew;
use crate::desk::Desk;
use crate::hall::Hall;
use crate::locked::Call;
use crate::names::{Naming, Sharing};
use crate::waiting::Came;
use ap_base::{Gate, Item, Ref, Sink, ThreadNo};
use frame_thread::Host;
use line_image::Image;
use natives::{Native, NativeState};
use run_history::Watcher;
use shared_objects::Types;
use std::sync::Wait;

/// How often a host thread of whose threads none may have an event looks whether something was done before it sleeps.
const LOOKS: u32 = 32;

/// How often the one that sees to it that a round ends looks whether something was done before it ends the round itself.
const PATIENCE: u32 = 16_384;

/// How many turns that pause may begin ahead of their events, where their host thread has no other thread to see to: it comes to the
/// turnstile once for them and the turn behind them. Of what a thread does between two such comings, sixteen turns of 1,024 instructions,
/// the turnstile is then a hundredth. And how many further events such a thread has before its host thread looks at the others again, whose
/// waits may have ended. With several threads, each has its turn first.
const AHEAD: u32 = 15;

/// How a rotation went, or an event of it.
#[derive(Clone, Copy, PartialEq, Eq)]
enum Went {
    /// A thread did something.
    Moved,
    /// Each waits as before, or doesn't live.
    Still,
    /// The run is over.
    Over,
}

fn went_of(came: Came) -> Went {
    match came {
        Came::Answered | Came::Ended | Came::Asks => Went::Moved,
        Came::Waits | Came::StillWaits | Came::Idle => Went::Still,
        Came::Over => Went::Over,
    }
}

// The number behind the greatest of a thread that may have an event.
fn beyond_last(may: &[bool; 64]) -> u8
    ensures beyond { (n : ℕ) → slice_get may.now n ≡ Some true → n < result }
{
    let mut beyond = 0;
    for n in 0..64 {
        if may[n as usize] {
            beyond = n + 1;
        }
    }
    beyond
}

// How many turns that pause may begin ahead, where these threads may have an event.
fn ahead_of(may: &[bool; 64]) -> u32 {
    if may.iter().filter(|may| **may).count() == 1 {
        AHEAD
    } else {
        0
    }
}

/// The threads of a crew, with what its host thread saw of them.
#[derive(Drop)]
struct Job {
    crew: Crew,
    // Which of them may have an event. It turns false only by their own events.
    may: [bool; 64],
    // No thread of this number or a greater one may.
    beyond: u8,
    // How many turns of theirs that pause may begin ahead, and how many further events one has in its turn of the rotation.
    ahead: u32,
    // Whether there may be one that lives and was seen to have none.
    stilled: bool,
    // Whether it is the one that sees to it that the round ends.
    watches: bool,
    // How often the bells were rung when it looked last.
    heard: Heard,
}

impl Job {
    fn new(crew: Crew, heard: Heard) -> Job {
        Job {
            crew,
            may: [false; 64],
            beyond: 0,
            ahead: 0,
            stilled: true,
            watches: false,
            heard,
        }
    }

    // One event of each of its threads that may have one, in rotation; several of one that has nobody beside it.
    fn rotate<
        K: Sharing,
        J: Naming<S> + Send,
        R: Wait,
        C: Types,
        I: Image + Send,
        H: Host<Native, Ref, NativeState, Item>,
        S: Sink + Send,
        G: Gate,
        W: Watcher + Send,
    >(
        &mut self,
        rt: &R,
        hall: &Hall<'_, K, J, S, Desk<J, I, S, W>>,
        set: &C,
        host: &H,
        gate: &G,
    ) -> Went
        requires of { IsOf (C.facts set.now) (H.setting host.now) J.entry }
    {
        let mut went = Went::Still;
        for n in 0..self.beyond {
            let Some(t) = ThreadNo::new(n) else {
                break;
            };
            if !self.may[n as usize] {
                continue;
            }
            let told = hall.events(rt, set, host, gate, t, self.ahead, self.ahead);
            self.may[n as usize] = told.may;
            self.stilled |= !told.may;
            if !told.may {
                self.ahead = ahead_of(&self.may);
            }
            match went_of(told.came) {
                Went::Over => return Went::Over,
                Went::Moved => went = Went::Moved,
                Went::Still => {}
            }
        }
        went
    }

    // What there is to do for it, by another look.
    fn look<
        K: Sharing,
        J: Naming<S> + Send,
        R: Wait,
        I: Image + Send,
        S: Sink + Send,
        W: Watcher + Send,
    >(&mut self, rt: &R, hall: &Hall<'_, K, J, S, Desk<J, I, S, W>>) -> Call {
        let (look, heard) = hall.look(rt, &self.crew, self.watches);
        let may = look.may;
        self.may = may;
        self.beyond = beyond_last(&may);
        self.ahead = ahead_of(&may);
        self.stilled = look.stilled;
        self.watches = look.watches;
        self.heard = heard;
        look.call
    }

    // Whether a thread may have an event that had none when it looked last.
    fn is_called<
        K: Sharing,
        J: Naming<S> + Send,
        I: Image + Send,
        S: Sink + Send,
        W: Watcher + Send,
    >(&self, hall: &Hall<'_, K, J, S, Desk<J, I, S, W>>) -> bool {
        let heard = hall.bells.heard();
        heard != self.heard && (self.stilled || self.heard.all_since(heard))
    }

    // Looks whether the bells are rung, for long; else ends the round.
    fn watch<
        K: Sharing,
        J: Naming<S> + Send,
        R: Wait,
        I: Image + Send,
        S: Sink + Send,
        W: Watcher + Send,
    >(&self, rt: &R, hall: &Hall<'_, K, J, S, Desk<J, I, S, W>>) {
        if !hall.bells.ring_within(self.heard, PATIENCE) {
            hall.end_round(rt, &self.crew, self.heard);
        }
    }

    // Waits until there is something to do for it; whether there is, as the run isn't done. Of the host threads that wait for the end of
    // a round one watches, since a thread that is held at the gate has events left; the others look for a short time, then sleep.
    fn rest<
        K: Sharing,
        J: Naming<S> + Send,
        R: Wait,
        I: Image + Send,
        S: Sink + Send,
        W: Watcher + Send,
    >(&mut self, rt: &R, hall: &Hall<'_, K, J, S, Desk<J, I, S, W>>) -> bool {
        let mut looked = false;
        for _ in rt.forever() {
            match self.look(rt, hall) {
                Call::Go => return true,
                Call::Done => return false,
                Call::Spent if self.watches => self.watch(rt, hall),
                Call::Wait | Call::Spent if !looked => {
                    looked = true;
                    let _rung = hall.bells.ring_within(self.heard, LOOKS);
                }
                Call::Wait | Call::Spent => hall.bells.sleep(rt, self.heard, false),
                Call::Idle => hall.bells.sleep(rt, self.heard, true),
            }
        }
        false
    }
}

/// Rotations over the threads of a crew, until the run is over or no thread lives.
pub(crate) fn work<
    K: Sharing,
    J: Naming<S> + Send,
    R: Wait,
    C: Types,
    I: Image + Send,
    H: Host<Native, Ref, NativeState, Item>,
    S: Sink + Send,
    G: Gate,
    W: Watcher + Send,
>(rt: &R, hall: &Hall<'_, K, J, S, Desk<J, I, S, W>>, set: &C, host: &H, gate: &G, crew: Crew)
    requires of { IsOf (C.facts set.now) (H.setting host.now) J.entry }
{
    let mut job = Job::new(crew, hall.bells.heard());
    for _ in rt.forever() {
        if job.is_called(hall) {
            let _call = job.look(rt, hall);
        }
        match job.rotate(rt, hall, set, host, gate) {
            Went::Over => return,
            Went::Moved => {}
            Went::Still => {
                if !job.rest(rt, hall) {
                    return;
                }
            }
        }
    }
}

/// The events of a run as long as no thread but the first is started: there is nobody to share it with.
pub(crate) fn work_alone<
    J: Naming<S>,
    R: Wait,
    C: Types,
    I: Image,
    H: Host<Native, Ref, NativeState, Item>,
    S: Sink,
    G: Gate,
    W: Watcher,
>(rt: &R, alone: &mut Alone<J, I, S, W>, set: &C, host: &H, gate: &G)
    requires of { IsOf (C.facts set.now) (H.setting host.now) J.entry }
{
    if !alone.is_alone() {
        return;
    }
    for _ in rt.forever() {
        if !alone.step(set, host, gate, ThreadNo::main()) {
            return;
        }
    }
}
