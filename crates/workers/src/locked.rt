// A run that host threads share: what each event changes.
ghost use Rattle.std.specs.Prelude.{◌≡◌, ◌<◌, ℕ, List, [], length, slice_get, slice_set, IsTrue, IsSome, IfSome, Some, None, true, false};
ghost use Rattle.durable_run.specs.Passed.{memory_of, asked_by};
ghost use Rattle.durable_run.specs.Apart.{after_event};
ghost use Rattle.durable_run.specs.Events.{AddsBehind, StepsBehind, fault_of};
ghost use Rattle.durable_run.specs.Passed.{Halt, Opening};
ghost use Rattle.durable_run.specs.Shares.{PrintsShares};
ghost use Rattle.durable_run.specs.Sparing.{SparesSink};
ghost use Rattle.durable_run.specs.Telling.{HasTold, IsCaused};
ghost use Rattle.durable_run.specs.Turning.{is_live};
ghost use Rattle.run_forms.specs.Views.{ThreadFrames};
ghost use Rattle.turnstile.specs.Entries.{AddsBy as AddsEntriesBy, SameButOf};
ghost use Rattle.workers.specs.Held.{IsOf, Knows, KnowsSink, HasEnded, held};
ghost use Rattle.workers.specs.Shared.{ComesSo, IsAskedAs, IsNext, IsOfRun, all_frames, begins_after, desked, pauses_of, values_of};

use crate::alone::Alone;
use crate::crew::Crew;
use crate::ends::{Left, all_ended};
use crate::halts::fault_of;
use crate::names::Naming;
use crate::notes::{Note, Noted, note};
use crate::waiting::{Before, Came, Due, Rouses, Share};
use ap_base::{Item, Ref, Sink, ThreadNo};
use durable_run::{Frames, Run, SharedHeap, Stepped, Stretch, is_live, step_asked, step_stretch};
use frame_thread::Host;
use line_image::Image;
use natives::{Native, NativeState};
use run_history::Watcher;
use run_types::{On, RunFault};
use shared_objects::Types;
use std::marker::{Model, PhantomData};

/// A run whose threads' frames lie apart, each with the host thread that has them. Contracts see a `Desked`.
#[derive(Drop)]
pub(crate) struct Locked<J: Naming<S>, I: Image, S: Sink, W: Watcher, N: Noted + Drop = Note> {
    heap: SharedHeap<I>,
    sink: S,
    watcher: W,
    // The frames that each thread had behind its last event, for proofs alone.
    notes: Vec<N>,
    // The Thread objects of threads that were started and haven't begun yet.
    begins: [Option<Ref>; 64],
    // How many acts there were when host threads began to share it.
    from: u32,
    over: Option<RunFault>,
    due: Due,
    of: PhantomData<J>,
}

impl<J: Naming<S>, I: Image, S: Sink, W: Watcher, N: Noted + Drop> Model for Locked<J, I, S, W, N> {
    ghost use Rattle.std.specs.Prelude.{◌≤◌, length, map};
    ghost use Rattle.workers.specs.Held.{Knows, KnowsSink, held};
    ghost use Rattle.workers.specs.Shared.{Desked, desked, all_frames, entries_from};

    ghost Value = { Desked };

    ghost view = { λ k. desked (held k.heap (all_frames k.begins (map N.frames k.notes.items)) (W.seen k.watcher)
        (S.taken k.sink) (S.faults k.sink) k.over) (map N.frames k.notes.items) (entries_from k.from k.heap.history.acts) };

    ghost invariant = { λ k. Knows J.entry (held k.heap (all_frames k.begins (map N.frames k.notes.items)) (W.seen k.watcher)
        (S.taken k.sink) (S.faults k.sink) k.over) (S.takes k.sink) × (k.from ≤ length k.heap.history.acts)
        × KnowsSink S.taken J.entry J.sink k.over k.sink k.heap };
}

/// What a host thread is told of an event of a thread.
#[derive(Clone, Copy)]
pub(crate) struct Told {
    pub(crate) came: Came,
    pub(crate) rouses: Rouses,
    /// Whether the run goes on, and the thread lives.
    pub(crate) lives: bool,
    /// Whether the thread may have a further event before one of another rings a bell.
    pub(crate) may: bool,
}

/// What there is to do for a crew.
#[derive(Clone, Copy, PartialEq, Eq)]
pub(crate) enum Call {
    /// One of its threads may have an event.
    Go,
    /// One of its threads has had its events of this round, and the others that live have too, or wait.
    Spent,
    /// Each of its threads that live waits.
    Wait,
    /// None of its threads lives.
    Idle,
    /// The run is over, or no thread lives.
    Done,
}

impl Call {
    // What there is to do for a crew that has both.
    fn with(self, other: Call) -> Call
        ensures goes { (self ≡ Call.Done → ⊥) → (other ≡ Call.Done → ⊥) → result ≡ Call.Done → ⊥ }
    {
        match (self, other) {
            (Call::Go, _) | (_, Call::Go) => Call::Go,
            (Call::Spent, _) | (_, Call::Spent) => Call::Spent,
            (Call::Wait, _) | (_, Call::Wait) => Call::Wait,
            _ => other,
        }
    }
}

/// What a host thread finds as it looks at a run.
#[derive(Clone, Copy)]
pub(crate) struct Look {
    pub(crate) call: Call,
    /// Which of its threads may have an event.
    pub(crate) may: [bool; 64],
    /// Whether one of its threads lives and may have none.
    pub(crate) stilled: bool,
    /// Whether from now on it sees to it that the round ends: there is no other one that does.
    pub(crate) watches: bool,
}

impl Look {
    /// There is nothing to do any more.
    pub(crate) fn done() -> Look {
        Look {
            call: Call::Done,
            may: [false; 64],
            stilled: false,
            watches: false,
        }
    }
}

// How an event went of a thread that waited so before, and lives now or not.
fn came_of(stepped: &Stepped, waited: Option<On>, lives: bool) -> Came
    ensures over { result ≡ Came.Over → (halt : Halt) × (stepped.now ≡ Stepped.Over halt) }
{
    match *stepped {
        Stepped::Acted => { if lives { Came::Answered } else { Came::Ended } }
        Stepped::Micro => Came::Asks,
        Stepped::WouldWait(on) => {
            if waited == Some(on) {
                Came::StillWaits
            } else {
                Came::Waits
            }
        }
        Stepped::Over(_) => Came::Over,
    }
}

// The events of a thread: of the turns that have begun so, or else the one of the request that isn't answered yet.
fn event<C: Types, I: Image, H: Host<Native, Ref, NativeState, Item>, S: Sink, W: Watcher>(
    heap: &mut SharedHeap<I>,
    sink: &mut S,
    watcher: &mut W,
    set: &C,
    host: &H,
    t: ThreadNo,
    frames: &mut Frames<Ref, NativeState>,
    stretch: Option<Stretch>,
) -> Stepped
    requires next { (o : Opening) × (first : ℕ) × (all : List ThreadFrames) × (before : ThreadFrames)
        × IsNext o first (C.facts set.now) (H.setting host.now) heap.old all t stretch before frames.old }
    ensures goes { (o : Opening) (first : ℕ) (all : List ThreadFrames) (before : ThreadFrames)
        → IsNext o first (C.facts set.now) (H.setting host.now) heap.old all t stretch before frames.old
        → StepsBehind (pauses_of stretch) o first (C.facts set.now) (H.setting host.now) t result heap.old heap.new
        (after_event result heap.old heap.new (slice_set all t frames.new)) }
    ensures acts { AddsBehind (pauses_of stretch) result t heap.old.history.acts heap.new.history.acts }
    ensures told { HasTold heap.old.history.acts heap.new.history.acts (W.seen watcher.old) (W.seen watcher.new)
        (S.taken sink.old) (S.taken sink.new) }
    ensures shares { (o : Opening) (first : ℕ) (all : List ThreadFrames) (before : ThreadFrames)
        → IsNext o first (C.facts set.now) (H.setting host.now) heap.old all t stretch before frames.old
        → PrintsShares o.launch (S.takes sink.old) (S.takes sink.new) heap.old.history.acts heap.new.history.acts }
    ensures spares { (o : Opening) (first : ℕ) (all : List ThreadFrames) (before : ThreadFrames)
        → IsNext o first (C.facts set.now) (H.setting host.now) heap.old all t stretch before frames.old
        → SparesSink S.taken o.launch (fault_of heap.new result) sink.old sink.new
        heap.old.history.acts heap.new.history.acts }
    ensures cause { IsCaused (fault_of heap.new result) (S.faults sink.old) (S.faults sink.new)
        (memory_of heap.old.machine).faults (memory_of heap.new.machine).faults }
{
    match stretch {
        Some(stretch) => step_stretch(heap, sink, watcher, set, host, t, frames, stretch),
        None => step_asked(heap, sink, watcher, set, host, t, frames),
    }
}

// Whether a thread lives and has begun, and its event is one of turns that have begun so, or else isn't answered yet.
fn is_awaited<I: Image>(
    heap: &SharedHeap<I>,
    begins: &[Option<Ref>; 64],
    t: ThreadNo,
    stretch: &Option<Stretch>,
) -> bool
    ensures live { IsTrue result → is_live heap.now.machine.rest.threads t ≡ true }
    ensures begins { IsTrue result → slice_get begins.now t ≡ Some None }
    ensures asked { IsTrue result → IsAskedAs stretch.now (asked_by heap.now.notes t) }
{
    if !is_live(heap.threads(), t) || begins[t.number() as usize].is_some() {
        return false;
    }
    match stretch {
        Some(_) => !heap.has_asked(t),
        None => heap.has_asked(t),
    }
}

// What an event that started a thread changes: it begins by its Thread object.
fn note_started<I: Image>(
    begins: &mut [Option<Ref>; 64],
    heap: &SharedHeap<I>,
    before: usize,
    stepped: &Stepped,
)
    ensures { begins.new ≡ begins_after stepped.now before heap.now begins.old }
{
    let Stepped::Acted = stepped else {
        return;
    };
    if heap.threads().count() <= before {
        return;
    }
    let Some(child) = ThreadNo::new(before as u8) else {
        return;
    };
    if let Some(thread) = heap.begins(child) {
        begins[child.number() as usize] = Some(thread);
    }
}

// A thread with these frames begins, where it was started and hasn't begun yet.
fn begin_started(
    begins: &mut [Option<Ref>; 64],
    notes: &mut Vec<Note>,
    t: ThreadNo,
    frames: &mut Frames<Ref, NativeState>,
)
    requires noted { slice_get (values_of notes.old.items) t ≡ Some frames.old }
    ensures all { all_frames begins.new (values_of notes.new.items)
        ≡ all_frames begins.old (values_of notes.old.items) }
    ensures others { SameButOf t (values_of notes.old.items) (values_of notes.new.items) }
    ensures noted { slice_get (values_of notes.new.items) t ≡ Some frames.new }
    ensures begun { slice_get begins.new t ≡ Some None }
{
    let at = t.number() as usize;
    let Some(thread) = begins[at] else {
        return;
    };
    frames.begin_thread(thread);
    begins[at] = None;
    note(notes, t, frames);
}

impl Told {
    /// Of an event that wasn't made.
    pub(crate) fn refused(came: Came) -> Told
        ensures came { result.came ≡ came }
        ensures lives { result.lives ≡ false }
        ensures may { result.may ≡ false }
    {
        Told {
            came,
            rouses: Rouses::Nobody,
            lives: false,
            may: false,
        }
    }
}

impl<J: Naming<S>, I: Image, S: Sink, W: Watcher> Locked<J, I, S, W> {
    /// A run from here on, whose frames were noted as they are.
    pub(crate) fn new(
        heap: SharedHeap<I>,
        sink: S,
        watcher: W,
        notes: Vec<Note>,
    ) -> Locked<J, I, S, W>
        requires knows { Knows J.entry (held heap (values_of notes.items) (W.seen watcher) (S.taken sink)
            (S.faults sink) None) (S.takes sink) }
        requires sink { KnowsSink S.taken J.entry J.sink None sink heap }
        requires many { length notes.items ≡ 64 }
        ensures new { result ≡ desked (held heap (values_of notes.items) (W.seen watcher) (S.taken sink)
            (S.faults sink) None) (values_of notes.items) [] }
    {
        Locked {
            from: heap.acts().len(),
            heap,
            sink,
            watcher,
            notes,
            begins: [None; 64],
            over: None,
            due: Due::all(),
            of: PhantomData,
        }
    }

    /// How many acts there are since host threads share it.
    pub(crate) fn made(&self) -> u64
        ensures { result ≡ length self.now.entries }
    {
        u64::from(self.heap.acts().len() - self.from)
    }

    fn lives(&self, t: ThreadNo) -> bool {
        is_live(self.heap.threads(), t)
    }

    /// The events of a thread, whose turns have begun so with these frames, or else the one of its turn that isn't answered yet. They are
    /// counted in the thread's share of the round. None where the run is over; nor where what its host thread knows isn't so, which
    /// doesn't come.
    pub(crate) fn step<C: Types, H: Host<Native, Ref, NativeState, Item>>(
        &mut self,
        set: &C,
        host: &H,
        t: ThreadNo,
        frames: &mut Frames<Ref, NativeState>,
        stretch: Option<Stretch>,
        share: &mut Share,
    ) -> Told
        requires of { IsOf (C.facts set.now) (H.setting host.now) J.entry }
        requires comes { (before : ThreadFrames) × (slice_get self.old.noted t ≡ Some before)
            × ComesSo (H.setting host.now) stretch before frames.old }
        ensures entries { AddsEntriesBy (λ a. a.thread) t self.old.entries self.new.entries }
        ensures others { SameButOf t self.old.noted self.new.noted }
        ensures noted { result.lives ≡ true → slice_get self.new.noted t ≡ Some frames.new }
        ensures program { result.lives ≡ true → IsOfRun J.entry frames.new }
        ensures lives { result.lives ≡ true → is_live self.new.run.heap.machine.rest.threads t ≡ true }
        ensures may { result.may ≡ true → result.lives ≡ true }
        ensures over { result.came ≡ Came.Over → IsSome self.new.run.over }
    {
        if self.over.is_some() {
            return Told::refused(Came::Over);
        }
        if !is_awaited(&self.heap, &self.begins, t, &stretch) {
            return Told::refused(Came::Idle);
        }
        let pauses = stretch.as_ref().map_or(0, |stretch| stretch.pauses);
        let before = Before::of(&self.heap, t, pauses);
        let stepped = event(
            &mut self.heap,
            &mut self.sink,
            &mut self.watcher,
            set,
            host,
            t,
            frames,
            stretch,
        );
        note(&mut self.notes, t, frames);
        note_started(&mut self.begins, &self.heap, before.started, &stepped);
        let lives = is_live(self.heap.threads(), t);
        let came = came_of(&stepped, before.waited, lives);
        let rouses = self.due.note(&self.heap, share, t, came, before);
        let may = lives && self.due.has(t);
        if let Stepped::Over(halt) = stepped {
            self.over = Some(fault_of(&self.heap, halt));
            return Told {
                came,
                rouses,
                lives: false,
                may: false,
            };
        }
        Told {
            came,
            rouses,
            lives,
            may,
        }
    }

    /// The host thread of a thread that lives begins with its frames, which are begun where it was started since. Whether its last turn
    /// isn't answered yet; none where it doesn't live.
    pub(crate) fn take_up(
        &mut self,
        t: ThreadNo,
        frames: &mut Frames<Ref, NativeState>,
    ) -> Option<bool>
        requires noted { slice_get self.old.noted t ≡ Some frames.old }
        ensures entries { self.new.entries ≡ self.old.entries }
        ensures others { SameButOf t self.old.noted self.new.noted }
        ensures noted { slice_get self.new.noted t ≡ Some frames.new }
        ensures program { IfSome result (λ asks. IsOfRun J.entry frames.new) }
    {
        if self.over.is_some() || !is_live(self.heap.threads(), t) {
            return None;
        }
        begin_started(&mut self.begins, &mut self.notes, t, frames);
        Some(self.heap.has_asked(t))
    }

    // What there is to do for a crew at a thread.
    fn call_of(&self, crew: &Crew, t: ThreadNo) -> Call
        ensures goes { result ≡ Call.Done → ⊥ }
    {
        if !crew.has(t) || !self.lives(t) {
            Call::Idle
        } else if self.due.has(t) {
            Call::Go
        } else if self.due.has_had_all(t) {
            Call::Spent
        } else {
            Call::Wait
        }
    }

    /// What there is to do for a crew, of which a host thread saw to it that the round ends, or didn't.
    pub(crate) fn look(&mut self, crew: &Crew, watched: bool) -> Look
        ensures same { self.new ≡ self.old }
        ensures done { result.call ≡ Call.Done → HasEnded self.old.run }
    {
        if self.is_done() {
            return Look::done();
        }
        let mut call = Call::Idle;
        let mut may = [false; 64];
        let mut stilled = false;
        for n in 0..64 {
            let Some(t) = ThreadNo::new(n) else {
                continue;
            };
            let one = self.call_of(crew, t);
            may[n as usize] = one == Call::Go;
            stilled |= one == Call::Spent || one == Call::Wait;
            call = call.with(one);
        }
        let watches = self.due.watch(call == Call::Spent, watched);
        Look {
            call,
            may,
            stilled,
            watches,
        }
    }

    /// Ends the round, unless the bells were rung since it was to end.
    pub(crate) fn end_round(&mut self, rung: bool)
        ensures same { self.new ≡ self.old }
    {
        if !rung {
            self.due.end_round();
        }
    }

    /// Whether the run is over, or all threads have ended.
    pub(crate) fn is_done(&self) -> bool
        ensures { IsTrue result → HasEnded self.now.run }
    {
        self.over.is_some() || all_ended(self.heap.threads())
    }

    /// The fault by which the run is over, if it is, and what is left.
    pub(crate) fn finish(self) -> (Option<RunFault>, Left<I, S, W>)
        ensures left { (frames : List ThreadFrames) × (self.run ≡ held result.1.heap frames (W.seen result.1.watcher)
            (S.taken result.1.sink) (S.faults result.1.sink) result.0) }
        ensures knows { Knows J.entry self.run (S.takes result.1.sink) }
        ensures sink { KnowsSink S.taken J.entry J.sink result.0 result.1.sink result.1.heap }
    {
        let Locked {
            heap,
            sink,
            watcher,
            over,
            ..
        } = self;
        (
            over,
            Left {
                heap,
                sink,
                watcher,
            },
        )
    }

    /// The run again, with all its frames, where none of them was taken up.
    pub(crate) fn alone(
        self,
        frames: Vec<Frames<Ref, NativeState>>,
        turns: [u64; 64],
    ) -> Alone<J, I, S, W>
        requires all { self.run.frames ≡ frames.items }
        requires goes { self.run.over ≡ None }
    {
        let Locked {
            heap,
            sink,
            watcher,
            ..
        } = self;
        Alone::again(Run {
            frames,
            heap,
            sink,
            watcher,
            turns,
        })
    }
}
