// Runs of the top call on images in memory.
use ap_base::{MemorySink, MemorySource, NoGate};
use autopersist::{Ended, autopersist, status_text};
use line_image::{Image, MemoryImage};
use run_history::{NoWatch, Watcher};
use std::alloc::{AllocError, Global};
use std::sync::Wait;
use std::thread::Threads;

/// The words that ask for class Main.
pub const RUN: [&str; 7] = [
    "autopersist",
    "run",
    "--image",
    "work.img",
    "--main",
    "Main",
    "classes",
];

/// Words of a command, as the top call takes them.
fn words(alloc: Global, all: &[&str]) -> Result<Vec<String>, AllocError> {
    let mut words = Vec::new(alloc);
    for word in all {
        words.push(String::from_str(alloc, word)?)?;
    }
    Ok(words)
}

/// How a command ends over an image.
pub type EndedOn<I> = Ended<MemorySource, I, MemorySink, NoWatch>;

/// How a run ends that nobody watches.
pub type Run = EndedOn<MemoryImage>;

/// A sink that takes so many bytes a call, and fails at one call.
pub fn sink(alloc: Global, most: u64, fails: u64) -> Result<MemorySink, AllocError> {
    MemorySink::new(alloc, 1_000, most.max(1), [fails].to_vec(alloc)?)
}

/// Does what the words ask for, with a source, an image, a sink and a watcher.
pub fn run_watched<R, I, W>(
    rt: &R,
    alloc: Global,
    all: &[&str],
    source: MemorySource,
    image: I,
    sink: MemorySink,
    watcher: W,
) -> Result<Ended<MemorySource, I, MemorySink, W>, AllocError>
where
    R: Threads + Wait + Clone + Send + Sync + Drop,
    I: Image + Send,
    W: Watcher + Send,
{
    let words = words(alloc, all)?;
    Ok(autopersist(rt, alloc, &words, source, image, sink, &NoGate, watcher))
}

/// The same with nobody who watches.
pub fn run_words<R, I>(
    rt: &R,
    alloc: Global,
    all: &[&str],
    source: MemorySource,
    image: I,
    sink: MemorySink,
) -> Result<EndedOn<I>, AllocError>
where
    R: Threads + Wait + Clone + Send + Sync + Drop,
    I: Image + Send,
{
    run_watched(rt, alloc, all, source, image, sink, NoWatch)
}

/// Whether this is what a run printed, with the status line behind it.
pub fn has_output<I>(alloc: Global, run: &EndedOn<I>, text: &str) -> Result<bool, AllocError> {
    let line = status_text(alloc, &run.status)?;
    Ok(text.as_bytes().strip_prefix(run.sink.as_slice()) == Some(line.as_slice()))
}
