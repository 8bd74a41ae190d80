// A run is stopped, and what the stop left is recovered.
ghost use Rattle.std.specs.Prelude.{◌≡◌, []};
ghost use Rattle.line_image.specs.Memory.{told_of};
ghost use Rattle.line_image.specs.Trace.{IsAllFenced};
ghost use Rattle.command_words.specs.Commands.{texts};
ghost use Rattle.reopened_runs.specs.Left.{FindsBehind, FindsIn, IsFoundIn, IsUntouched, KeepsRefused, MeetsOver, Recovers, RecoversWithin};

use ap_base::{MemorySink, MemorySource, NoGate};
use autopersist::{Ended, autopersist, stopped_runs_open_again};
use image_opening::{NotOpened, give_back, open_image};
use line_image::{Fails, MemoryImage};
use run_history::NoWatch;
use shared_graph::SharedGraph;
use std::alloc::Global;
use std::sync::Wait;
use std::thread::Threads;

/// A stop: which outcome of it an image in memory picks, and which calls of the image that it leaves fail.
#[derive(Drop)]
pub struct Stop {
    pub pick: u64,
    pub fails: Fails,
}

/// A run over forms in memory, and the graph that was recovered of what a stop left; with an image that was given back. There is none where
/// there was no memory for it.
#[derive(Drop)]
pub struct Stopped {
    pub ended: Ended<MemorySource, MemoryImage, MemorySink, NoWatch>,
    pub recovered: Result<SharedGraph, NotOpened>,
    pub image: Option<MemoryImage>,
}

/// The graph for which an image stands that a stop left; and that image, as it is given back.
pub(crate) fn recover_left(
    alloc: Global,
    left: MemoryImage,
) -> (Result<SharedGraph, NotOpened>, MemoryImage)
    requires untouched { IsUntouched left }
    ensures found { IsFoundIn left result.1 result.0 }
{
    match open_image(alloc, left) {
        Ok(opened) => {
            let (graph, image) = give_back(opened);
            (Ok(graph), image)
        }
        Err((why, image)) => (Err(why), image),
    }
}

/// Runs a class of the source's files on the image, stops the image behind its last call, and recovers what the stop left.
pub fn run_and_recover<R>(
    rt: &R,
    alloc: Global,
    words: &Vec<String>,
    source: MemorySource,
    image: MemoryImage,
    sink: MemorySink,
    stop: Stop,
) -> Stopped
where
    R: Threads + Wait + Clone + Send + Sync + Drop,
    // The run is one of the top call.
    ensures meets { MeetsOver (texts words.now.items) source result.ended.source image result.ended.image sink result.ended.sink
        result.ended.status result.ended.opening result.ended.acts.acts }
    // The graph is one that all acts allow. Where there are none, and nothing was written or fenced, nothing was unfenced at the start.
    ensures recovers { ((result.ended.acts.acts ≡ []) × ((told_of result.ended.image).trace ≡ (told_of image).trace)
        → IsAllFenced (told_of image).trace)
        → Recovers (texts words.now.items) source.left (told_of image) result.ended.opening
        result.ended.acts.acts result.ended.acts.acts result.recovered }
    // Where a shape of the image was refused, it is the very graph for which the image stood.
    ensures keeps { KeepsRefused (texts words.now.items) (told_of image) result.ended.status result.recovered }
    // It is the graph for which the image stands that this stop left.
    ensures found { FindsBehind result.ended.image stop result.image result.recovered }
{
    stopped_runs_open_again();
    let ended = autopersist(rt, alloc, words, source, image, sink, &NoGate, NoWatch);
    match ended.image.crash(alloc, stop.pick, stop.fails) {
        Ok(left) => {
            let (recovered, image) = recover_left(alloc, left);
            Stopped {
                ended,
                recovered,
                image: Some(image),
            }
        }
        Err(_) => Stopped {
            ended,
            recovered: Err(NotOpened::OutOfMemory),
            image: None,
        },
    }
}

/// Runs a class of the source's files on the image, and recovers another one, which a stop within some call of the first one may have left.
pub fn run_and_recover_other<R>(
    rt: &R,
    alloc: Global,
    words: &Vec<String>,
    source: MemorySource,
    image: MemoryImage,
    sink: MemorySink,
    left: MemoryImage,
) -> Stopped
where
    R: Threads + Wait + Clone + Send + Sync + Drop,
    requires untouched { IsUntouched left }
    // The run is one of the top call.
    ensures meets { MeetsOver (texts words.now.items) source result.ended.source image result.ended.image sink result.ended.sink
        result.ended.status result.ended.opening result.ended.acts.acts }
    // If one within call n has left it, the graph is one that the acts before that call allow.
    ensures recovers { RecoversWithin (texts words.now.items) source.left (told_of image) (told_of result.ended.image)
        result.ended.opening result.ended.acts.acts left result.recovered }
    // It is the graph for which that image stands.
    ensures found { FindsIn left result.image result.recovered }
{
    let ended = autopersist(rt, alloc, words, source, image, sink, &NoGate, NoWatch);
    let (recovered, image) = recover_left(alloc, left);
    Stopped {
        ended,
        recovered,
        image: Some(image),
    }
}
