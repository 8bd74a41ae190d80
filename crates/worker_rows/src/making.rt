// What a command is given and ends with; and the workload.
use ap_base::{Gate, MemorySink, MemorySource, ThreadNo};
use line_image::{Fails, MemoryImage};
use run_fixture::{Saved, Status, run_and_save, sink, status_text};
use run_history::{Act, Acts, Watcher};
use std::alloc::{AllocError, Global};
use std::str;
use std::sync::Wait;
use std::sync::atomic::{AtomicU64, Ordering};
use std::thread::Threads;

/// The forms in memory that a command is given, with a sink for what it prints and one for its history.
#[derive(Drop)]
pub(crate) struct Forms {
    source: MemorySource,
    image: MemoryImage,
    sink: MemorySink,
    history: MemorySink,
}

/// What a command ends with.
#[derive(Drop)]
pub(crate) struct Ended {
    pub(crate) acts: Acts,
    sink: MemorySink,
    status: Status,
}

/// An image of zeros of as many lines as a new image file gets, with room for so many writes and fences.
fn blank(alloc: Global, room: u32) -> Result<MemoryImage, AllocError> {
    let fails = Fails {
        calls: Vec::new(alloc),
        since: u64::MAX,
        room,
    };
    MemoryImage::new(alloc, 262_144, fails)
}

/// Words, as the top call takes them.
pub(crate) fn texts(alloc: Global, words: &[&str]) -> Result<Vec<String>, AllocError> {
    let mut texts = Vec::new(alloc);
    for word in words {
        texts.push(String::from_str(alloc, word)?)?;
    }
    Ok(texts)
}

/// Classes, with an image of zeros that has room for so many writes and fences.
pub(crate) fn prepare(alloc: Global, source: MemorySource, room: u32) -> Result<Forms, AllocError> {
    let image = blank(alloc, room)?;
    let printed = sink(alloc, 24, u64::MAX)?;
    let history = sink(alloc, 24, 1)?;
    Ok(Forms {
        source,
        image,
        sink: printed,
        history,
    })
}

type Run<W> = Saved<MemorySource, MemoryImage, MemorySink, W, MemorySink>;

fn run_behind<R, G, W>(
    rt: &R,
    alloc: Global,
    words: &Vec<String>,
    forms: Forms,
    gate: &G,
    watcher: W,
) -> Run<W>
where
    R: Threads + Wait + Clone + Send + Sync + Drop,
    G: Gate + Sync,
    W: Watcher + Send,
{
    let Forms {
        source,
        image,
        sink,
        history,
    } = forms;
    run_and_save(
        rt, alloc, words, source, image, sink, gate, watcher, history,
    )
}

fn ended_of<W>(run: Run<W>) -> (W, Ended) {
    let ended = run.ended;
    let left = Ended {
        acts: ended.acts,
        sink: ended.sink,
        status: ended.status,
    };
    (ended.watcher, left)
}

/// Does what the words ask for, behind a gate, and gives back the watcher.
pub(crate) fn run<R, G, W>(
    rt: &R,
    alloc: Global,
    words: &Vec<String>,
    forms: Forms,
    gate: &G,
    watcher: W,
) -> (W, Ended)
where
    R: Threads + Wait + Clone + Send + Sync + Drop,
    G: Gate + Sync,
    W: Watcher + Send,
{
    let run = run_behind(rt, alloc, words, forms, gate, watcher);
    ended_of(run)
}

/// What was printed, and the number of the status, with the line where there is one.
pub(crate) fn tell(alloc: Global, ended: &Ended) -> Result<String, AllocError> {
    let line = status_text(alloc, &ended.status)?;
    let printed = str::from_utf8(ended.sink.as_slice()).unwrap_or("?");
    let line = str::from_utf8(line.as_slice()).unwrap_or("?");
    let number = ended.status.number();
    format!(in alloc; "{printed}{number}\n{line}")
}

/// As many as a run has by default.
const ACTS: u32 = 1_048_576;

/// Keeps the acts that it was told, as far as it has room. It tells nothing.
#[derive(Drop)]
struct Keeps {
    acts: Acts,
}

impl Watcher for Keeps {
    ghost use Rattle.std.specs.Prelude.{None};

    ghost seen = { λ _. None };

    fn saw(&mut self, act: &Act, _objects: &[u32]) {
        let _kept = self.acts.push(*act);
    }
}

/// Counts its calls.
#[derive(Drop)]
struct Counts {
    calls: AtomicU64,
}

impl Gate for Counts {
    fn before(&self, _thread: ThreadNo, _turn: u64) {
        self.calls.fetch_add(1, Ordering::SeqCst);
    }
}

fn watching(alloc: Global) -> Result<Keeps, AllocError> {
    let mut acts = Acts::new(alloc);
    acts.reserve(ACTS, 0)?;
    Ok(Keeps { acts })
}

/// Whether the acts are the same, one by one.
fn are_same(seen: &Acts, acts: &Acts) -> bool {
    for i in 0..acts.len() {
        if seen.get(i).copied() != acts.get(i).copied() {
            return false;
        }
    }
    seen.len() == acts.len()
}

/// The words of the workload with so many nodes a thread, to be run with so many workers.
fn workload(alloc: Global, workers: &str, count: &str) -> Result<Vec<String>, AllocError> {
    let words = [
        "autopersist",
        "make",
        "--image",
        "F",
        "--workers",
        workers,
        count,
    ];
    texts(alloc, &words)
}

/// What the workload prints with so many nodes a thread, where so many workers run its threads, and whether the watcher was told
/// its acts; and how often the gate was called. The image has room for so many writes and fences.
pub(crate) fn make<R>(
    rt: &R,
    alloc: Global,
    workers: &str,
    count: &str,
    room: u32,
) -> Result<(String, u64), AllocError>
where
    R: Threads + Wait + Clone + Send + Sync + Drop,
{
    let gate = Counts {
        calls: AtomicU64::new(0),
    };
    let words = workload(alloc, workers, count)?;
    let forms = prepare(
        alloc,
        MemorySource::new(Vec::new(alloc), Vec::new(alloc)),
        room,
    )?;
    let watcher = watching(alloc)?;
    let (watcher, ended) = run(rt, alloc, &words, forms, &gate, watcher);
    let told = are_same(&watcher.acts, &ended.acts);
    let text = tell(alloc, &ended)?;
    let text = format!(in alloc;
        "== {count} nodes a thread with {workers} workers, told {told}\n{text}"
    )?;
    Ok((text, gate.calls.load(Ordering::SeqCst)))
}
