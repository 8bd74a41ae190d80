// Commands of the top call, behind a gate that counts its calls, with a watcher that keeps what it is told.
ghost use Rattle.std.specs.Prelude.{None};

use ap_base::{Gate, MemorySink, MemorySource, ThreadNo};
use line_image::Image;
use run_fixture::{Saved, Status, run_and_save};
use run_history::{Act, Acts, Watcher};
use std::alloc::{AllocError, Global};
use std::sync::Wait;
use std::sync::atomic::{AtomicU64, Ordering};
use std::thread::Threads;

/// Counts its calls, and those that aren't of thread 0's next turn.
#[derive(Drop)]
struct Turns {
    calls: AtomicU64,
    others: AtomicU64,
}

impl Gate for Turns {
    fn before(&self, thread: ThreadNo, turn: u64) {
        let before = self.calls.fetch_add(1, Ordering::SeqCst);
        if thread != ThreadNo::main() || turn != before.saturating_add(1) {
            self.others.fetch_add(1, Ordering::SeqCst);
        }
    }
}

/// Acts that a watcher was told, as far as there was room, and how often the gate was called before each.
#[derive(Drop)]
pub(crate) struct Kept {
    pub(crate) acts: Acts,
    pub(crate) turns: Vec<u64>,
}

/// How many acts are kept.
pub(crate) const KEPT: u32 = 30;

/// Keeps what it is told. It tells nothing.
#[derive(Drop)]
struct Keeps<'a> {
    gate: &'a Turns,
    kept: Kept,
}

impl<'a> Watcher for Keeps<'a> {
    ghost use Rattle.std.specs.Prelude.{None};

    ghost seen = { λ _. None };

    fn saw(&mut self, act: &Act, _objects: &[u32]) {
        if self.kept.acts.push(*act).is_ok() {
            let _room = self.kept.turns.push(self.gate.calls.load(Ordering::SeqCst));
        }
    }
}

/// What a command is given beside its words and its image.
#[derive(Drop)]
pub(crate) struct Outside {
    pub(crate) source: MemorySource,
    pub(crate) sink: MemorySink,
    history: MemorySink,
    kept: Kept,
}

fn no_acts(alloc: Global) -> Result<Acts, AllocError> {
    let mut acts = Acts::new(alloc);
    acts.reserve(KEPT, 0)?;
    Ok(acts)
}

/// A source and a sink, and what keeps the history and the acts.
pub(crate) fn outside_of(
    alloc: Global,
    source: MemorySource,
    sink: MemorySink,
) -> Result<Outside, AllocError> {
    let history = MemorySink::new(alloc, 100_000, 100_000, Vec::new(alloc))?;
    let kept = Kept {
        acts: no_acts(alloc)?,
        turns: Vec::new(alloc),
    };
    Ok(Outside {
        source,
        sink,
        history,
        kept,
    })
}

/// What a command hands back beside its image.
#[derive(Drop)]
pub(crate) struct Done {
    pub(crate) status: Status,
    pub(crate) acts: Acts,
    /// The roots and the nodes of the graph with which it began.
    pub(crate) opening: (usize, usize),
    pub(crate) source: MemorySource,
    pub(crate) sink: MemorySink,
    pub(crate) history: MemorySink,
    pub(crate) is_saved: bool,
    pub(crate) kept: Kept,
    /// How often the gate was called, and how often not for thread 0's next turn.
    pub(crate) turns: (u64, u64),
}

type Run<'a, I> = Saved<MemorySource, I, MemorySink, Keeps<'a>, MemorySink>;

/// Does what the words ask for, over an image, behind a gate, and saves the acts.
fn run_behind<'a, R, I>(
    rt: &R,
    alloc: Global,
    words: &Vec<String>,
    outside: Outside,
    image: I,
    gate: &'a Turns,
) -> Run<'a, I>
where
    R: Threads + Wait + Clone + Send + Sync + Drop,
    I: Image + Send,
{
    let Outside {
        source,
        sink,
        history,
        kept,
    } = outside;
    let watcher = Keeps { gate, kept };
    run_and_save(
        rt, alloc, words, source, image, sink, gate, watcher, history,
    )
}

/// What a run came to, and the image that it left.
fn done_of<I>(run: Run<'_, I>, turns: (u64, u64)) -> (Done, I) {
    let ended = run.ended;
    let opening = (ended.opening.roots().len(), ended.opening.nodes().len());
    let done = Done {
        status: ended.status,
        acts: ended.acts,
        opening,
        source: ended.source,
        sink: ended.sink,
        history: run.history,
        is_saved: run.saved.is_ok(),
        kept: ended.watcher.kept,
        turns,
    };
    (done, ended.image)
}

/// Does what the words ask for, over an image, and saves the acts.
pub(crate) fn done_on<R, I>(
    rt: &R,
    alloc: Global,
    words: &Vec<String>,
    outside: Outside,
    image: I,
) -> (Done, I)
where
    R: Threads + Wait + Clone + Send + Sync + Drop,
    I: Image + Send,
{
    let gate = Turns {
        calls: AtomicU64::new(0),
        others: AtomicU64::new(0),
    };
    let run = run_behind(rt, alloc, words, outside, image, &gate);
    let calls = gate.calls.load(Ordering::SeqCst);
    let others = gate.others.load(Ordering::SeqCst);
    done_of(run, (calls, others))
}
