// Which threads may have an event, and which host threads are told of one.
ghost use Rattle.std.specs.Prelude.{◌≡◌, length};

use ap_base::ThreadNo;
use durable_run::{SharedHeap, is_live};
use line_image::Image;
use run_history::{Act, Acts, Op};
use run_types::On;
use shared_objects::Threads;

/// How a thread's event went, as its host thread is told.
#[derive(Clone, Copy, PartialEq, Eq)]
pub(crate) enum Came {
    /// The turn is done, and the thread lives on.
    Answered,
    /// The turn is done, and the thread has ended.
    Ended,
    /// The same is asked still.
    Asks,
    /// It waits.
    Waits,
    /// It waits, and waited for the same before; or it isn't asked again yet.
    StillWaits,
    /// The thread doesn't live.
    Idle,
    /// The run is over.
    Over,
}

impl Came {
    /// Whether the thread did something, and lives on.
    pub(crate) fn goes_on(self) -> bool {
        matches!(self, Came::Answered | Came::Asks)
    }
}

/// Which host threads that sleep may have something to do behind an event.
#[derive(Clone, Copy, PartialEq, Eq)]
pub(crate) enum Rouses {
    Nobody,
    /// Those of whose threads one lives.
    Waiting,
    /// The others too.
    Everybody,
}

/// What stood before an event and the pauses ahead of it.
#[derive(Clone, Copy)]
pub(crate) struct Before {
    pub(crate) started: usize,
    pub(crate) acts: u32,
    /// How many pauses come ahead of the event.
    pub(crate) pauses: u32,
    pub(crate) waited: Option<On>,
}

impl Before {
    pub(crate) fn of<I: Image>(heap: &SharedHeap<I>, t: ThreadNo, pauses: u32) -> Before
        ensures { result.started ≡ length heap.now.machine.rest.threads }
    {
        Before {
            started: heap.threads().count(),
            acts: heap.acts().len(),
            pauses,
            waited: heap.waiting(t),
        }
    }
}

// The last act, if there are more than so many: of the events that came since, the pauses end no wait that the last one doesn't.
fn last_since(acts: &Acts, count: u32) -> Option<&Act> {
    let made = acts.len();
    if made > count {
        acts.get(made - 1)
    } else {
        None
    }
}

/// How many events that count a thread has in a round.
const ROUND: u32 = 4_096;

/// How many it has one after the other that don't store: that many looks for what another is to do.
const ROUND_LOOKS: u32 = 128;

/// How many events a thread has had, and in which round. It lies with its host thread, which alone counts them: the run is handed over without it.
#[derive(Clone, Copy)]
pub(crate) struct Share {
    round: u64,
    had: u32,
    // How many since its last store.
    looked: u32,
}

impl Share {
    /// None yet.
    pub(crate) fn none() -> Share {
        Share::of(0)
    }

    // None of a round.
    fn of(round: u64) -> Share {
        Share {
            round,
            had: 0,
            looked: 0,
        }
    }

    // Counts so many events in a round, the last of which stored or not. One that is asked again in vain isn't counted.
    fn count(&mut self, round: u64, came: Came, events: u32, stored: bool) {
        if self.round != round {
            *self = Share::of(round);
        }
        if came == Came::StillWaits {
            return;
        }
        self.had = self.had.saturating_add(events);
        self.looked = if stored {
            0
        } else {
            self.looked.saturating_add(events)
        };
    }

    // Whether these are all of a round.
    fn is_whole(&self) -> bool {
        self.had >= ROUND || self.looked >= ROUND_LOOKS
    }
}

/// The threads that may have an event: all but those whose last one waited, where none of another may have ended that wait since, and
/// those that have had their events of this round, or gave threads that waited their turn. A round ends once no thread that lives is left
/// with an event in it. So a thread that looks for something again and again leaves the others time to do it, however the host divides
/// its own.
#[derive(Drop)]
pub(crate) struct Due {
    waits: [bool; 64],
    // Whether some may wait for what the event of another may end.
    some_wait: bool,
    // The number of this round.
    round: u64,
    // Those that have had their events of this round, or gave others their turn.
    spent: [bool; 64],
    // Those that gave others their turn with events left, until one of them goes on.
    gave: [bool; 64],
    // By whom the wait of each may have ended, until it is asked again.
    freed_by: [Option<ThreadNo>; 64],
    // Whether a host thread sees to it that the round ends.
    watched: bool,
}

// Whether an event of a thread that lives on, which made this act or none, may end such a wait.
fn frees(on: &On, t: ThreadNo, act: Option<&Op>) -> bool {
    match on {
        On::Monitor(owner) => *owner == t && matches!(act, Some(Op::Exit { .. })),
        On::Init(other) => *other == t && matches!(act, Some(Op::Init { .. })),
        On::Join(_) => false,
        // the fence of whichever thread may settle the one that converts
        On::Conversion(_) => true,
    }
}

impl Due {
    /// All may have one.
    pub(crate) fn all() -> Due {
        Due {
            waits: [false; 64],
            some_wait: false,
            round: 0,
            spent: [false; 64],
            gave: [false; 64],
            freed_by: [None; 64],
            watched: false,
        }
    }

    /// Whether a thread may have one.
    pub(crate) fn has(&self, t: ThreadNo) -> bool {
        let at = t.number() as usize;
        !self.waits[at] && !self.spent[at]
    }

    /// Whether a thread that doesn't wait has had its events of this round.
    pub(crate) fn has_had_all(&self, t: ThreadNo) -> bool {
        let at = t.number() as usize;
        !self.waits[at] && self.spent[at]
    }

    /// Whether from now on a host thread sees to it that the round ends, which waits for that or not, and saw to it before or not. It does
    /// where it waits and no other one does.
    pub(crate) fn watch(&mut self, waits: bool, watched: bool) -> bool {
        if self.watched && !watched {
            return false;
        }
        self.watched = waits;
        waits
    }

    /// Ends the round.
    pub(crate) fn end_round(&mut self) {
        self.round = self.round.saturating_add(1);
        self.spent = [false; 64];
        self.gave = [false; 64];
        for at in 0..64 {
            self.freed_by[at] = None;
        }
    }

    // All may have one again.
    fn refill(&mut self) {
        self.waits = [false; 64];
        self.some_wait = false;
        self.end_round();
    }

    // The threads whose wait the event of another may have ended, and whether there is one.
    fn free<I: Image>(&mut self, heap: &SharedHeap<I>, t: ThreadNo, act: Option<&Op>) -> bool {
        let mut freed = false;
        for n in 0..64 {
            if n as usize >= heap.threads().count() {
                break;
            }
            let Some(other) = ThreadNo::new(n) else {
                continue;
            };
            if !self.waits[other.number() as usize] {
                continue;
            }
            if let Some(on) = heap.waiting(other) {
                if frees(&on, t, act) {
                    self.waits[other.number() as usize] = false;
                    self.freed_by[other.number() as usize] = Some(t);
                    freed = true;
                }
            }
        }
        freed
    }

    // Whether a thread that lives may have one.
    fn has_live(&self, threads: &Threads) -> bool {
        for n in 0..64 {
            if let Some(t) = ThreadNo::new(n) {
                if self.has(t) && is_live(threads, t) {
                    return true;
                }
            }
        }
        false
    }

    // Whether another thread that lives and doesn't wait has had its events of this round.
    fn another_has_had_all(&self, threads: &Threads, t: ThreadNo) -> bool {
        for n in 0..64 {
            if let Some(other) = ThreadNo::new(n) {
                if other != t && self.has_had_all(other) && is_live(threads, other) {
                    return true;
                }
            }
        }
        false
    }

    // How many events count of so many pauses and the one behind them, which made this act or none. A pause counts only where some thread
    // has had its events of the round: one that does nothing else keeps nobody from anything, and where a round ends host threads wait for
    // each other.
    fn counted(&self, pauses: u32, last: Option<&Op>) -> u32 {
        let paused = matches!(last, Some(Op::Pause));
        if pauses == 0 && !paused {
            return 1;
        }
        if self.spent.iter().any(|spent| *spent) {
            pauses.saturating_add(1)
        } else {
            u32::from(!paused)
        }
    }

    // Counts so many events of a thread. Where the last one gave others its turn, it has no more in this round: else it might take a
    // monitor again before their host threads are there. Here is written only what changes: others read it in their own processors' caches.
    fn count(
        &mut self,
        share: &mut Share,
        t: ThreadNo,
        came: Came,
        pauses: u32,
        act: Option<&Op>,
        gave: bool,
    ) {
        let at = t.number() as usize;
        let events = self.counted(pauses, act);
        share.count(
            self.round,
            came,
            events,
            matches!(act, Some(Op::Stored { .. })),
        );
        if gave || share.is_whole() {
            self.spent[at] = true;
            self.gave[at] = !share.is_whole();
        }
    }

    // Whether a thread waits now. A join ends by its thread's end alone, behind which all may have an event again.
    fn note_wait<I: Image>(&mut self, heap: &SharedHeap<I>, t: ThreadNo, came: Came) {
        let at = t.number() as usize;
        let waits = came == Came::Waits || came == Came::StillWaits;
        if self.waits[at] != waits {
            self.waits[at] = waits;
            self.some_wait |= waits && !matches!(heap.waiting(t), Some(On::Join(_)));
        }
    }

    // Whether the wait of some thread may have ended by this one, and it wasn't asked again since.
    fn has_freed(&self, by: ThreadNo) -> bool {
        self.freed_by.iter().any(|freed| *freed == Some(by))
    }

    // What the event of a thread, whose wait may have ended by another, changes for that one. Where all that it freed wait still, it left
    // something else than they wait for, and has its events back: whether it has.
    fn give_back(&mut self, t: ThreadNo, came: Came) -> bool {
        let Some(giver) = self.freed_by[t.number() as usize] else {
            return false;
        };
        self.freed_by[t.number() as usize] = None;
        let at = giver.number() as usize;
        if !self.gave[at] || came == Came::StillWaits && self.has_freed(giver) {
            return false;
        }
        self.gave[at] = false;
        self.spent[at] = came != Came::StillWaits;
        !self.spent[at]
    }

    // Ends the round of a thread, where none that lives is left with an event in it. Whether another thread may have one by that. Were
    // each to wait, all might have one: as the run is over at the event by which all wait, that doesn't come.
    fn renew(&mut self, threads: &Threads, t: ThreadNo) -> bool {
        if self.has_live(threads) {
            return false;
        }
        let another = self.another_has_had_all(threads, t);
        self.end_round();
        if self.has_live(threads) {
            return another;
        }
        self.refill();
        true
    }

    /// What an event of a thread changes, with the pauses before it.
    pub(crate) fn note<I: Image>(
        &mut self,
        heap: &SharedHeap<I>,
        share: &mut Share,
        t: ThreadNo,
        came: Came,
        before: Before,
    ) -> Rouses {
        if came == Came::Over || came == Came::Ended || heap.threads().count() != before.started {
            self.refill();
            return Rouses::Everybody;
        }
        let act = last_since(heap.acts(), before.acts).map(|act| &act.op);
        let mut freed = false;
        let mut gave = false;
        if self.some_wait && came != Came::StillWaits {
            freed = self.free(heap, t, act);
            gave = freed && matches!(act, Some(Op::Exit { .. } | Op::Init { .. }));
        }
        self.count(share, t, came, before.pauses, act, gave);
        self.note_wait(heap, t, came);
        let given = self.give_back(t, came);
        let renewed = !self.has(t) && self.renew(heap.threads(), t);
        if freed || given || renewed {
            Rouses::Waiting
        } else {
            Rouses::Nobody
        }
    }
}
