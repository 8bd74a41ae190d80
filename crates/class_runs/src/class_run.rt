// A class of some classes, or of a source's files, is run on an image.
ghost use Rattle.std.specs.Prelude.{◌≡◌, ◌≢◌, ◌⊎◌, Some, [], List};
ghost use Rattle.ap_base.specs.Causes.{Rose, next_count};
ghost use Rattle.ap_base.specs.declared.source.NamedBytes.{NamedBytes as File};
ghost use Rattle.class_links.specs.Kept.{kept_files};
ghost use Rattle.image_meaning.specs.Meaning.{empty_graph};
ghost use Rattle.class_runs.specs.Chosen.{ClassesGive};
ghost use Rattle.source_classes.specs.Reading.{IsLeft, IsOfClasses};
ghost use Rattle.class_runs.specs.Runs.{IsCauseOf, Answers, AnswersFor, ComesTo, OfChoice, RunsAs, IsOfRun, Tells, over};

use crate::choice::{Found, choose};
use crate::ran::{Ran, no_graph, unbegun};
use crate::sets::run_set;
use ap_base::{ClassSource, Gate, Sink};
use line_image::Image;
use run_history::{Acts, Watcher};
use run_types::Limits;
use shared_graph::SharedGraph;
use source_classes::{AcceptedFiles, read_files};
use statuses::Status;
use std::alloc::Global;
use std::sync::Wait;
use std::thread::Threads;

/// What a run of a source's class hands back: how it ended, the graph from which it ran, the history, and what it was given.
#[derive(Drop)]
pub struct Ended<C, I, S, W> {
    pub status: Status,
    pub opening: SharedGraph,
    pub acts: Acts,
    pub source: C,
    pub image: I,
    pub sink: S,
    pub watcher: W,
}

/// Links these classes and runs the one of this name on the image, within these limits, and prints to the sink. What
/// the durable roots reach is kept in the image. A dot in the name counts as a slash.
/// So many threads of the host run its threads, or fewer where no more can be started.
///
/// The gate is called in each turn before its first event, and the watcher is told each act.
pub fn run_classes<R, I, S, G, W>(
    rt: &R,
    workers: u8,
    alloc: Global,
    class: &[u8],
    limits: &Limits,
    classes: AcceptedFiles,
    image: I,
    sink: S,
    gate: &G,
    watcher: W,
) -> Ran<I, S, W>
where
    R: Threads + Wait + Sync,
    I: Image + Send,
    S: Sink + Send,
    G: Gate + Sync,
    W: Watcher + Send,
    // How it ends: each status but want of memory with its cause.
    ensures cause { IsCauseOf (ClassesGive class.now (kept_files classes)) limits.now
        (over (I.told image) (S.takes sink) result.opening result.acts.acts (I.told result.image)) result.status }
    ensures answers { Answers (ClassesGive class.now (kept_files classes)) result.status }
    ensures of { IsOfClasses result.status ⊎ IsOfRun result.status }
    ensures sink_fault { result.status ≡ Status.SinkFault
        → S.faults result.sink ≡ next_count (S.faults sink) }
    ensures sink_spared { result.status ≢ Status.SinkFault → S.faults result.sink ≡ S.faults sink }
    ensures image_fault { result.status ≡ Status.ImageFault
        → I.faults result.image ≡ next_count (I.faults image) }
    ensures image_spared { result.status ≢ Status.ImageFault → I.faults result.image ≡ I.faults image }
    ensures no_memory { result.status ≡ Status.OutOfMemory → result.acts.acts ≡ [] }

    // Where there are no acts, the opening graph has no roots and nodes.
    ensures opening { result.acts.acts ≡ [] → result.opening ≡ empty_graph }

    // What ran, how many bytes each print took, and what a stop leaves of the image, within any of its calls or after the last one;
    // or there are no acts, and the image is as it was.
    ensures theorem { ((result.image ≡ image) × (result.acts.acts ≡ []))
        ⊎ OfChoice (ClassesGive class.now (kept_files classes)) (RunsAs limits.now
        (over (I.told image) (S.takes sink) result.opening result.acts.acts (I.told result.image)) result.status) }
    ensures early { IsOfRun result.status ⊎ ((result.image ≡ image) × (result.acts.acts ≡ [])) }
    ensures size { (I.told result.image).size ≡ (I.told image).size }

    // What the outside was told, whatever the status.
    ensures told { Tells result.acts.acts (W.seen watcher) (W.seen result.watcher)
        (S.taken sink) (S.taken result.sink) (S.takes sink) (S.takes result.sink) }
{
    match choose(alloc, class, classes) {
        Ok(Found { set, main, room }) => run_set(
            rt,
            workers,
            alloc,
            set,
            main.as_slice(),
            limits,
            room,
            image,
            sink,
            gate,
            watcher,
        ),
        Err(status) => unbegun(alloc, status, image, sink, watcher),
    }
}

/// Runs the class of this name of the source's files on the image, within these limits, and prints to the sink. What the
/// durable roots reach is kept in the image. A dot in the name counts as a slash.
/// So many threads of the host run its threads, or fewer where no more can be started.
///
/// The gate is called in each turn before its first event, and the watcher is told each act.
pub fn run_class<R, C, I, S, G, W>(
    rt: &R,
    workers: u8,
    alloc: Global,
    class: &[u8],
    limits: &Limits,
    mut source: C,
    image: I,
    sink: S,
    gate: &G,
    watcher: W,
) -> Ended<C, I, S, W>
where
    R: Threads + Wait + Sync,
    C: ClassSource,
    I: Image + Send,
    S: Sink + Send,
    G: Gate + Sync,
    W: Watcher + Send,
    // How it ends: each status but want of memory with its cause.
    ensures cause { IsCauseOf (ComesTo class.now (C.left source)) limits.now
        (over (I.told image) (S.takes sink) result.opening result.acts.acts (I.told result.image)) result.status }
    ensures answers { AnswersFor class.now (C.left source) result.status }
    ensures source_fault { result.status ≡ Status.SourceFault
        → Rose (C.faults source) (C.faults result.source) }
    ensures sink_fault { result.status ≡ Status.SinkFault
        → S.faults result.sink ≡ next_count (S.faults sink) }
    ensures sink_spared { result.status ≢ Status.SinkFault → S.faults result.sink ≡ S.faults sink }
    ensures image_fault { result.status ≡ Status.ImageFault
        → I.faults result.image ≡ next_count (I.faults image) }
    ensures image_spared { result.status ≢ Status.ImageFault → I.faults result.image ≡ I.faults image }
    ensures no_memory { result.status ≡ Status.OutOfMemory → result.acts.acts ≡ [] }

    // The source is read to its end before its classes are linked and a run begins, and not past a file that is refused.
    ensures whole { result.acts.acts ≢ [] → (files : List File) → C.left source ≡ Some files
        → C.left result.source ≡ Some [] }
    ensures left { result.acts.acts ≡ [] → (files : List File) → C.left source ≡ Some files
        → IsLeft files result.status (C.left result.source) }

    // Where there are no acts, the opening graph has no roots and nodes.
    ensures opening { result.acts.acts ≡ [] → result.opening ≡ empty_graph }

    // What ran, and what a stop leaves of the image, within any of its calls or after the last one: by the files there is
    // something to run for which all of this holds; or there are no acts, and the image is as it was.
    ensures theorem { ((result.image ≡ image) × (result.acts.acts ≡ []))
        ⊎ OfChoice (ComesTo class.now (C.left source)) (RunsAs limits.now
        (over (I.told image) (S.takes sink) result.opening result.acts.acts (I.told result.image)) result.status) }
    ensures early { IsOfRun result.status ⊎ ((result.image ≡ image) × (result.acts.acts ≡ [])) }
    ensures size { (I.told result.image).size ≡ (I.told image).size }

    // What the outside was told, whatever the status.
    ensures told { Tells result.acts.acts (W.seen watcher) (W.seen result.watcher)
        (S.taken sink) (S.taken result.sink) (S.takes sink) (S.takes result.sink) }
{
    match read_files(alloc, &mut source) {
        Ok(classes) => {
            let ran = run_classes(
                rt, workers, alloc, class, limits, classes, image, sink, gate, watcher,
            );
            Ended {
                status: ran.status,
                opening: ran.opening,
                acts: ran.acts,
                source,
                image: ran.image,
                sink: ran.sink,
                watcher: ran.watcher,
            }
        }
        Err(status) => Ended {
            status,
            opening: no_graph(alloc),
            acts: Acts::new(alloc),
            source,
            image,
            sink,
            watcher,
        },
    }
}
