// A run is stopped, and the class is run again on what the stop left.
ghost use Rattle.std.specs.Prelude.{IfSome};
ghost use Rattle.line_image.specs.Memory.{told_of};
ghost use Rattle.command_words.specs.Commands.{texts};
ghost use Rattle.line_image.specs.declared.memory.MemoryImage.{MemoryImage as LeftImage};
ghost use Rattle.reopened_runs.specs.Again.{RunsAgain};
ghost use Rattle.reopened_runs.specs.Left.{IsStopBehind, MeetsOver};

use crate::stopping::Stop;
use ap_base::{MemorySink, MemorySource, NoGate};
use autopersist::{Ended, autopersist, stopped_runs_open_again};
use line_image::MemoryImage;
use run_history::NoWatch;
use std::alloc::Global;
use std::sync::Wait;
use std::thread::Threads;

/// The files of a run, and what takes its output.
#[derive(Drop)]
pub struct Given {
    pub source: MemorySource,
    pub sink: MemorySink,
}

/// How a run ended over forms in memory.
pub type Ran = Ended<MemorySource, MemoryImage, MemorySink, NoWatch>;

/// Two runs, the second on what a stop of the first left. There is no second one where there is no memory for what it left.
#[derive(Drop)]
pub struct Twice {
    pub first: Ran,
    pub second: Option<Ran>,
}

/// Runs a class of the files on the image, stops the image behind its last call, and runs the class again, of what is given for that, on
/// what the stop left.
pub fn run_twice<R>(
    rt: &R,
    alloc: Global,
    words: &Vec<String>,
    given: Given,
    image: MemoryImage,
    stop: Stop,
    again: Given,
) -> Twice
where
    R: Threads + Wait + Clone + Send + Sync + Drop,
    // The first run is one of the top call, and so is the second one, over what a stop behind the last call of the first left: that opens again,
    // and the second run goes on with it.
    ensures first { MeetsOver (texts words.now.items) given.source result.first.source image result.first.image given.sink
        result.first.sink result.first.status result.first.opening result.first.acts.acts }
    ensures second { IfSome result.second (λ second. (left : LeftImage) × IsStopBehind result.first.image stop left
        × MeetsOver (texts words.now.items) again.source second.source left second.image again.sink second.sink second.status
        second.opening second.acts.acts
        × RunsAgain (texts words.now.items) given.source.left again.source.left (told_of image) result.first.opening
        result.first.acts.acts (told_of left) (told_of second.image) second.opening second.acts.acts second.status) }
{
    stopped_runs_open_again();
    let Given { source, sink } = given;
    let first = autopersist(rt, alloc, words, source, image, sink, &NoGate, NoWatch);
    let Given { source, sink } = again;
    match first.image.crash(alloc, stop.pick, stop.fails) {
        Ok(left) => {
            let second = autopersist(rt, alloc, words, source, left, sink, &NoGate, NoWatch);
            Twice {
                first,
                second: Some(second),
            }
        }
        Err(_) => Twice {
            first,
            second: None,
        },
    }
}
