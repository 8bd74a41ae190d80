// A thread's seat: its frames, and the pass by which its host thread comes to the run.
ghost use Rattle.std.specs.Prelude.{◌≡◌, ◌≤◌, IsSome, IfSome, Some, true};
ghost use Rattle.durable_run.specs.Apart.{Begins};
ghost use Rattle.durable_run.specs.Passed.{AreOf};
ghost use Rattle.turnstile.specs.Passes.{IsIdle, number_of, part_of, turnstile_id, pass_id};
ghost use Rattle.workers.specs.Held.{IsOf, HasEnded};
ghost use Rattle.workers.specs.Shared.{ComesSo};

use crate::bells::Heard;
use crate::crew::Crew;
use crate::desk::Desk;
use crate::hall::Hall;
use crate::locked::{Locked, Look, Told};
use crate::names::{Naming, Sharing};
use crate::waiting::{Came, Rouses, Share};
use ap_base::{Gate, Item, Ref, Sink, ThreadNo};
use durable_run::{Begun, Frames, Stretch, begin_turn};
use frame_thread::Host;
use line_image::Image;
use natives::{Native, NativeState};
use run_history::{Act, Watcher};
use shared_objects::Types;
use std::marker::{Model, PhantomData};
use std::sync::Wait;
use turnstile::{Kept, Pass, Turnstile};

/// How far a thread is, as its host thread knows.
#[derive(Clone, Copy, PartialEq, Eq)]
pub(crate) enum Stage {
    /// It wasn't seen to live yet.
    Unseen,
    /// Its next turn begins.
    Fresh,
    /// Its turn isn't answered yet.
    Asked,
    /// It has ended, or the run is over.
    Ended,
}

impl Stage {
    ghost use Rattle.workers.specs.Seats.{runs, has_note};

    // How far a thread is behind such an event.
    fn after(told: &Told) -> Stage
        ensures lives { runs result ≡ true → told.now.lives ≡ true }
        ensures seen { has_note result ≡ true → runs result ≡ true }
    {
        if !told.lives {
            return Stage::Ended;
        }
        match told.came {
            Came::Answered => Stage::Fresh,
            Came::Asks | Came::Waits | Came::StillWaits => Stage::Asked,
            Came::Ended | Came::Idle | Came::Over => Stage::Ended,
        }
    }
}

/// A thread's frames, with its pass. Contracts see the thread's number. Between its turns its frames are those that it left.
#[derive(Drop)]
pub(crate) struct Seat<
    K: Sharing,
    J: Naming<S>,
    S,
    T: Kept<Entry = Act, Part = Frames<Ref, NativeState>>,
> {
    thread: ThreadNo,
    pass: Pass<T>,
    frames: Frames<Ref, NativeState>,
    turns: u64,
    share: Share,
    stage: Stage,
    of: PhantomData<(K, J, S)>,
}

impl<K: Sharing, J: Naming<S>, S, T: Kept<Entry = Act, Part = Frames<Ref, NativeState>>> Model
    for Seat<K, J, S, T> {
    ghost use Rattle.std.specs.Prelude.{ℕ};

    ghost Value = { ℕ };

    ghost use Rattle.workers.specs.Seats.{Sits};

    ghost view = { λ s. s.thread };

    ghost invariant = { λ s. Sits K.turnstile J.entry s.thread s.pass s.frames s.stage };
}

// A thread's next turn begins: its private instructions are done, away from the run, and then the gate is called.
fn begin_next<H: Host<Native, Ref, NativeState, Item>, G: Gate>(
    frames: &mut Frames<Ref, NativeState>,
    turns: &mut u64,
    host: &H,
    gate: &G,
    t: ThreadNo,
) -> Begun
    requires of { AreOf (H.setting host.now).program frames.old.frames }
    ensures begins { Begins (H.setting host.now) result frames.old frames.new }
    ensures of { AreOf (H.setting host.now).program frames.new.frames }
{
    let begun = begin_turn(frames, host);
    *turns = turns.saturating_add(1);
    gate.before(t, *turns);
    begun
}

// A thread's next turns begin, if its last one is answered: up to the first that doesn't pause, and at most `ahead` before the last. The
// reply to a pause changes nothing in the frames, so the next turn may begin before the event that gives it.
fn begins<H: Host<Native, Ref, NativeState, Item>, G: Gate>(
    stage: Stage,
    ahead: u32,
    frames: &mut Frames<Ref, NativeState>,
    turns: &mut u64,
    host: &H,
    gate: &G,
    t: ThreadNo,
) -> Option<Stretch>
    requires of { AreOf (H.setting host.now).program frames.old.frames }
    ensures comes { ComesSo (H.setting host.now) result frames.old frames.new }
    ensures begun { stage ≡ Stage.Fresh → IsSome result }
    ensures fresh { IsSome result → stage ≡ Stage.Fresh }
    ensures most { IfSome result (λ s. s.pauses ≤ ahead) }
{
    if stage != Stage::Fresh {
        return None;
    }
    for pauses in 0..ahead {
        let last = begin_next(frames, turns, host, gate, t);
        if !last.is_pause() {
            return Some(Stretch { pauses, last });
        }
    }
    Some(Stretch {
        pauses: ahead,
        last: begin_next(frames, turns, host, gate, t),
    })
}

impl<K: Sharing, J: Naming<S> + Send, I: Image + Send, S: Sink + Send, W: Watcher + Send> Seat<
    K,
    J,
    S,
    Desk<J, I, S, W>,
> {
    /// The seat of a thread that has these frames, and has had so many turns.
    pub(crate) fn new(
        thread: ThreadNo,
        pass: Pass<Desk<J, I, S, W>>,
        frames: Frames<Ref, NativeState>,
        turns: u64,
    ) -> Seat<K, J, S, Desk<J, I, S, W>>
        requires of { K.turnstile ≡ Some (pass_id pass) }
        requires idle { IsIdle pass }
        requires number { number_of pass ≡ thread }
        requires part { part_of pass ≡ Some frames }
    {
        Seat {
            thread,
            pass,
            frames,
            turns,
            share: Share::none(),
            stage: Stage::Unseen,
            of: PhantomData,
        }
    }

    // The frames of the thread are taken up, once it lives.
    fn take_up<R: Wait>(&mut self, rt: &R, hall: &Hall<'_, K, J, S, Desk<J, I, S, W>>) {
        if self.stage != Stage::Unseen {
            return;
        }
        let mut desk = hall.turnstile.enter(rt, &mut self.pass);
        let asks = desk.locked.take_up(self.thread, &mut self.frames);
        hall.turnstile.leave(&mut self.pass, desk);
        if let Some(asks) = asks {
            self.stage = if asks { Stage::Asked } else { Stage::Fresh };
        }
    }

    /// One event of the thread, if it lives, behind those of at most `ahead` turns that pause and begin ahead. Private instructions and the
    /// gate come before the turnstile, which is held once, for the events alone: no other host thread waits for them.
    pub(crate) fn turn<R: Wait, C: Types, H: Host<Native, Ref, NativeState, Item>, G: Gate>(
        &mut self,
        rt: &R,
        hall: &Hall<'_, K, J, S, Desk<J, I, S, W>>,
        set: &C,
        host: &H,
        gate: &G,
        ahead: u32,
    ) -> Told
        requires of { IsOf (C.facts set.now) (H.setting host.now) J.entry }
    {
        self.take_up(rt, hall);
        if self.stage == Stage::Unseen || self.stage == Stage::Ended {
            return Told::refused(Came::Idle);
        }
        let stretch = begins(
            self.stage,
            ahead,
            &mut self.frames,
            &mut self.turns,
            host,
            gate,
            self.thread,
        );
        let mut desk = hall.turnstile.enter(rt, &mut self.pass);
        let told = desk.locked.step(
            set,
            host,
            self.thread,
            &mut self.frames,
            stretch,
            &mut self.share,
        );
        hall.turnstile.leave(&mut self.pass, desk);
        self.stage = Stage::after(&told);
        hall.bells.ring(told.rouses);
        told
    }

    /// Events of the thread one after the other, each behind those of at most `ahead` turns that pause and begin ahead: until so many further
    /// turns have begun, or it may have no further event or did nothing by the last one, of which its host thread is told.
    pub(crate) fn events<R: Wait, C: Types, H: Host<Native, Ref, NativeState, Item>, G: Gate>(
        &mut self,
        rt: &R,
        hall: &Hall<'_, K, J, S, Desk<J, I, S, W>>,
        set: &C,
        host: &H,
        gate: &G,
        ahead: u32,
        further: u32,
    ) -> Told
        requires of { IsOf (C.facts set.now) (H.setting host.now) J.entry }
    {
        let enough = self.turns.saturating_add(u64::from(further));
        for _ in 0..further {
            let told = self.turn(rt, hall, set, host, gate, ahead);
            if !told.may || !told.came.goes_on() || self.turns > enough {
                return told;
            }
        }
        self.turn(rt, hall, set, host, gate, ahead)
    }

    /// What there is to do for a crew, and how often the bells were rung by then.
    pub(crate) fn look<R: Wait>(
        &mut self,
        rt: &R,
        hall: &Hall<'_, K, J, S, Desk<J, I, S, W>>,
        crew: &Crew,
        watched: bool,
    ) -> (Look, Heard) {
        let mut desk = hall.turnstile.enter(rt, &mut self.pass);
        let heard = hall.bells.heard();
        let look = desk.locked.look(crew, watched);
        hall.turnstile.leave(&mut self.pass, desk);
        if watched && !look.watches {
            hall.bells.ring(Rouses::Waiting);
        }
        (look, heard)
    }

    /// Ends the round, if the bells weren't rung since.
    pub(crate) fn end_round<R: Wait>(
        &mut self,
        rt: &R,
        hall: &Hall<'_, K, J, S, Desk<J, I, S, W>>,
        heard: Heard,
    ) {
        let mut desk = hall.turnstile.enter(rt, &mut self.pass);
        desk.locked.end_round(hall.bells.heard() != heard);
        hall.turnstile.leave(&mut self.pass, desk);
    }

    /// Takes the run out for good, once it is over or all threads have ended.
    pub(crate) fn close<R: Wait>(
        self,
        rt: &R,
        turnstile: &Turnstile<Desk<J, I, S, W>>,
    ) -> Locked<J, I, S, W>
        requires of { K.turnstile ≡ Some (turnstile_id turnstile.now) }
        ensures ended { HasEnded result.run }
    {
        let Seat { mut pass, .. } = self;
        for _ in rt.forever() {
            let desk = turnstile.enter(rt, &mut pass);
            if desk.locked.is_done() {
                let Desk { locked } = desk;
                return Box::into_inner(locked);
            }
            turnstile.leave(&mut pass, desk);
        }
        unreachable!()
    }
}
