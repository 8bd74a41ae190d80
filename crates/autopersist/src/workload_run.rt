// The workload is run on the image.
ghost use Rattle.std.specs.Prelude.{◌≡◌, ◌≢◌, ◌≤◌, ◌⊎◌, []};
ghost use Rattle.ap_base.specs.Causes.{next_count};
ghost use Rattle.image_meaning.specs.Meaning.{empty_graph};
ghost use Rattle.class_runs.specs.Passed.{IsOfClasses};
ghost use Rattle.class_runs.specs.Runs.{IsOfRun, Tells};
ghost use Rattle.autopersist.specs.Outside.{outside};
ghost use Rattle.autopersist.specs.Runs.{RunsWorkload};

use crate::idle::idle;
use ap_base::{ClassSource, Gate, Sink};
use class_runs::{AcceptedFiles, Ended, run_classes};
use command_words::Make;
use line_image::Image;
use run_history::Watcher;
use run_types::Limits;
use statuses::Status;
use std::alloc::Global;
use std::sync::Wait;
use std::thread::Threads;
use workload::make_classes;

// The limits of the workload: those of a run for which the words ask no others.
const DEFAULT_LIMITS: Limits = Limits {
    heap_words: 8_388_608,
    acts: 1_048_576,
};

/// Runs the workload with as many nodes a thread as the words say. The source isn't asked.
pub(crate) fn run_workload<R, C, I, S, G, W>(
    rt: &R,
    alloc: Global,
    make: &Make,
    source: C,
    image: I,
    sink: S,
    gate: &G,
    watcher: W,
) -> Ended<C, I, S, W>
where
    R: Threads + Wait + Sync,
    C: ClassSource,
    I: Image + Send,
    S: Sink + Send,
    G: Gate + Sync,
    W: Watcher + Send,
    requires range { (1 ≤ make.now.count) × (make.now.count ≤ 5000) }
    ensures runs { RunsWorkload make.now
        (outside (C.left source) (C.faults source) (I.told image) (I.faults image) (S.taken sink) (S.takes sink) (S.faults sink) (W.seen watcher))
        (outside (C.left result.source) (C.faults result.source) (I.told result.image) (I.faults result.image)
        (S.taken result.sink) (S.takes result.sink) (S.faults result.sink) (W.seen result.watcher))
        (result.source ≡ source) (result.image ≡ image) result.status result.opening result.acts.acts
        ⊎ ((result.status ≡ Status.OutOfMemory) × (result.source ≡ source) × (result.image ≡ image)
        × (result.acts.acts ≡ []) × (result.sink ≡ sink)) }
    ensures unasked { result.source ≡ source }
    ensures of { IsOfClasses result.status ⊎ IsOfRun result.status }
    ensures sink_fault { result.status ≡ Status.SinkFault → S.faults result.sink ≡ next_count (S.faults sink) }
    ensures sink_spared { result.status ≢ Status.SinkFault → S.faults result.sink ≡ S.faults sink }
    ensures image_fault { result.status ≡ Status.ImageFault → I.faults result.image ≡ next_count (I.faults image) }
    ensures image_spared { result.status ≢ Status.ImageFault → I.faults result.image ≡ I.faults image }
    ensures no_memory { result.status ≡ Status.OutOfMemory → result.acts.acts ≡ [] }
    ensures opening { result.acts.acts ≡ [] → result.opening ≡ empty_graph }
    ensures size { (I.told result.image).size ≡ (I.told image).size }
    ensures told { Tells result.acts.acts (W.seen watcher) (W.seen result.watcher)
        (S.taken sink) (S.taken result.sink) (S.takes sink) (S.takes result.sink) }
{
    let Ok(classes) = make_classes(alloc, make.count) else {
        return idle(alloc, Status::OutOfMemory, source, image, sink, watcher);
    };
    let ran = run_classes(
        rt,
        make.workers,
        alloc,
        b"Work",
        &DEFAULT_LIMITS,
        AcceptedFiles::of(classes),
        image,
        sink,
        gate,
        watcher,
    );
    Ended {
        status: ran.status,
        opening: ran.opening,
        acts: ran.acts,
        source,
        image: ran.image,
        sink: ran.sink,
        watcher: ran.watcher,
    }
}
