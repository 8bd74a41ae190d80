// The top call.
ghost use Rattle.std.specs.Prelude.{◌≡◌};
ghost use Rattle.command_words.specs.Commands.{command_of, texts};
ghost use Rattle.autopersist.specs.Complete.{DoesItsWork};
ghost use Rattle.autopersist.specs.Meets.{Meets};
ghost use Rattle.autopersist.specs.Outside.{outside};

use crate::idle::{idle, of_report, of_words};
use crate::workload_run::run_workload;
use ap_base::{ClassSource, Gate, Sink};
use assembly::put_class_of;
use class_runs::{Ended, run_class};
use command_words::{Command, numbers_are_in_range, read_words};
use image_report::{check_image, dump_image};
use line_image::Image;
use run_history::Watcher;
use statuses::Status;
use std::alloc::Global;
use std::sync::Wait;
use std::thread::Threads;

/// Does what the words ask for, which begin with the program's name: `run` runs a class of the source's files on the image, `make` the
/// workload; `check` and `dump` open the image and put a line about it, or its graph; `asm` assembles the listing that the source gives
/// and puts a class of it. What the durable roots of a run reach is kept in the image. `compact` and `audit` have calls of their own, and
/// are no command of this one.
///
/// The gate is called in each turn before its first event, and the watcher is told each act.
pub fn autopersist<R, C, I, S, G, W>(
    rt: &R,
    alloc: Global,
    words: &Vec<String>,
    source: C,
    image: I,
    sink: S,
    gate: &G,
    watcher: W,
) -> Ended<C, I, S, W>
where
    R: Threads + Wait + Clone + Send + Sync + Drop,
    C: ClassSource,
    I: Image + Send,
    S: Sink + Send,
    G: Gate + Sync,
    W: Watcher + Send,
    // The promises, a field each: how it ends, what the command does, what a stop leaves, and what the outside is told. Of a run each
    // print took as many bytes of its piece as the sink takes of it then, where it tells that (`shares` of `HasEndedSo`).
    ensures meets { Meets (texts words.now.items)
        (outside (C.left source) (C.faults source) (I.told image) (I.faults image) (S.taken sink) (S.takes sink) (S.faults sink) (W.seen watcher))
        (outside (C.left result.source) (C.faults result.source) (I.told result.image) (I.faults result.image)
        (S.taken result.sink) (S.takes result.sink) (S.faults result.sink) (W.seen result.watcher))
        (result.source ≡ source) (result.image ≡ image) result.status result.opening result.acts.acts }
    // Where the inputs are as the command asks and nothing outside fails, it does its work, or meets a limit, or memory runs out before any
    // of it.
    ensures complete { DoesItsWork (command_of (texts words.now.items))
        (outside (C.left source) (C.faults source) (I.told image) (I.faults image) (S.taken sink) (S.takes sink) (S.faults sink) (W.seen watcher))
        (outside (C.left result.source) (C.faults result.source) (I.told result.image) (I.faults result.image)
        (S.taken result.sink) (S.takes result.sink) (S.faults result.sink) (W.seen result.watcher))
        result.status result.opening result.acts.acts }
{
    do_command(rt, alloc, words, source, image, sink, gate, watcher)
}

// What the words ask for is done.
fn do_command<R, C, I, S, G, W>(
    rt: &R,
    alloc: Global,
    words: &Vec<String>,
    mut source: C,
    image: I,
    mut sink: S,
    gate: &G,
    watcher: W,
) -> Ended<C, I, S, W>
where
    R: Threads + Wait + Clone + Send + Sync + Drop,
    C: ClassSource,
    I: Image + Send,
    S: Sink + Send,
    G: Gate + Sync,
    W: Watcher + Send,
    ensures meets { Meets (texts words.now.items)
        (outside (C.left source) (C.faults source) (I.told image) (I.faults image) (S.taken sink) (S.takes sink) (S.faults sink) (W.seen watcher))
        (outside (C.left result.source) (C.faults result.source) (I.told result.image) (I.faults result.image)
        (S.taken result.sink) (S.takes result.sink) (S.faults result.sink) (W.seen result.watcher))
        (result.source ≡ source) (result.image ≡ image) result.status result.opening result.acts.acts }
{
    numbers_are_in_range();
    match read_words(alloc, words) {
        Ok(Command::Run(run)) => run_class(
            rt,
            run.workers,
            alloc,
            run.main.as_slice(),
            &run.limits,
            source,
            image,
            sink,
            gate,
            watcher,
        ),
        Ok(Command::Make(make)) => {
            run_workload(rt, alloc, &make, source, image, sink, gate, watcher)
        }
        Ok(Command::Check(_)) => {
            let done = check_image(alloc, image, sink);
            idle(
                alloc,
                of_report(done.how),
                source,
                done.image,
                done.sink,
                watcher,
            )
        }
        Ok(Command::Dump(_)) => {
            let done = dump_image(alloc, image, sink);
            idle(
                alloc,
                of_report(done.how),
                source,
                done.image,
                done.sink,
                watcher,
            )
        }
        Ok(Command::Asm(asm)) => {
            let status = put_class_of(alloc, asm.class.as_slice(), &mut source, &mut sink);
            idle(alloc, status, source, image, sink, watcher)
        }
        // they have calls of their own
        Ok(Command::Compact(_) | Command::Audit(_)) => {
            idle(alloc, Status::Usage, source, image, sink, watcher)
        }
        Err(fault) => idle(alloc, of_words(fault), source, image, sink, watcher),
    }
}
