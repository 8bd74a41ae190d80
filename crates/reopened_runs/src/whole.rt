// Runs over forms in memory: what they print, and to what they come where nothing fails.
ghost use Rattle.std.specs.Prelude.{◌≡◌, ◌≢◌};
ghost use Rattle.ap_base.specs.Causes.{next_count};
ghost use Rattle.line_image.specs.Memory.{faults_of, told_of};
ghost use Rattle.command_words.specs.Commands.{texts};
ghost use Rattle.autopersist.specs.Passed.{with_all};
ghost use Rattle.reopened_runs.specs.Left.{IsUntouched};
ghost use Rattle.reopened_runs.specs.Printed.{Prints};
ghost use Rattle.reopened_runs.specs.Whole.{EndsWhole, StaysFaultless};

use crate::again::Ran;
use ap_base::{MemorySink, MemorySource, NoGate};
use autopersist::{Status, autopersist};
use line_image::MemoryImage;
use run_history::{Acts, NoWatch, Watcher};
use shared_graph::SharedGraph;
use std::alloc::Global;
use std::sync::Wait;
use std::thread::Threads;

/// What a run printed, and to whom its acts were told.
#[derive(Drop)]
pub struct Printed<W> {
    pub status: Status,
    pub opening: SharedGraph,
    pub acts: Acts,
    pub sink: MemorySink,
    pub watcher: W,
}

/// Runs a class of the source's files on the image.
pub fn run_and_print<R, W>(
    rt: &R,
    alloc: Global,
    words: &Vec<String>,
    source: MemorySource,
    image: MemoryImage,
    sink: MemorySink,
    watcher: W,
) -> Printed<W>
where
    R: Threads + Wait + Clone + Send + Sync + Drop,
    W: Watcher + Send,
    // The printed bytes are those of a plain run.
    ensures prints { Prints (texts words.now.items) source.left (told_of image) sink result.sink
        result.opening result.acts.acts result.status }
    // The watcher saw each act once and in order.
    ensures watched { W.seen result.watcher ≡ with_all (W.seen watcher) result.acts.acts }
{
    let ended = autopersist(rt, alloc, words, source, image, sink, &NoGate, watcher);
    Printed {
        status: ended.status,
        opening: ended.opening,
        acts: ended.acts,
        sink: ended.sink,
        watcher: ended.watcher,
    }
}

/// Runs a class of the source's files on an image that was just made of its words.
pub fn run_whole<R>(
    rt: &R,
    alloc: Global,
    words: &Vec<String>,
    source: MemorySource,
    image: MemoryImage,
    sink: MemorySink,
) -> Ran
where
    R: Threads + Wait + Clone + Send + Sync + Drop,
    requires untouched { IsUntouched image }
    // Where none of the three failed, the run ends as the plain run of its acts, or there is no `main`; or by want of memory, or by a limit,
    // which is told.
    ensures whole { StaysFaultless source.faults result.source.faults → StaysFaultless (faults_of image) (faults_of result.image)
        → StaysFaultless sink.faults result.sink.faults
        → EndsWhole (texts words.now.items) source.left image result.image sink result.sink result.opening
        result.acts.acts result.status }
    // The image failed once where the run ended by it, and else never.
    ensures failed { result.status ≡ Status.ImageFault → faults_of result.image ≡ next_count (faults_of image) }
    ensures unfailed { result.status ≢ Status.ImageFault → faults_of result.image ≡ faults_of image }
{
    autopersist(rt, alloc, words, source, image, sink, &NoGate, NoWatch)
}
