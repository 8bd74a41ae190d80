// The run of a class set over an image, from its opening on.
ghost use Rattle.std.specs.Prelude.{◌≡◌, ◌≢◌, ℕ, [], Ok};
ghost use Rattle.ap_base.specs.Causes.{next_count};
ghost use Rattle.line_image.specs.Told.{Told};
ghost use Rattle.image_meaning.specs.Meaning.{empty_graph};
ghost use Rattle.class_set.specs.Linked.{Linked};
ghost use Rattle.class_set.specs.Facts.{facts_of};
ghost use Rattle.plain_model.specs.Duties.{IsClass};
ghost use Rattle.durable_launch.specs.Launching.{CanLaunch};
ghost use Rattle.durable_launch.specs.Passed.{IsFoundFor, IsOpenedFor, IsReady, IsTooLarge, Opening, main_of, memory_of};
ghost use Rattle.program_host.specs.Hosts.{setting_in};
ghost use Rattle.class_runs.specs.Sets.{SetRunsOver, kind_of, status_of_unopened};
ghost use Rattle.class_runs.specs.Began.{FindsRoom, RanBy, status_of_end, status_of_unlaunched};
ghost use Rattle.class_runs.specs.Runs.{Tells};

use crate::ran::{Ran, no_graph, unbegun};
use ap_base::{Gate, Sink};
use class_set::ClassSet;
use durable_launch::{
    DecodeRefusal, FoundImage, Launched, Left, Main, NoLaunch, NoMain, OpenedHeap, OpenedImage,
    Run, RunEnd, Unopened, accepted_sets_have_room, complete, each_stop_is_allowed, find_for,
    find_main, find_room, launch, open_heap, run_all,
};
use line_image::Image;
use run_history::{Acts, Watcher};
use run_types::{Limits, LinkKind};
use set_types::SetTypes;
use shared_graph::SharedGraph;
use source_classes::AcceptedSet;
use statuses::{NameRoom, Status, main_status, status_of_fault, uncaught_status};
use std::alloc::Global;
use std::sync::Wait;
use std::thread::Threads;

fn kind_of(none: NoMain) -> LinkKind
    ensures { result ≡ kind_of none }
{
    match none {
        NoMain::Class => LinkKind::MissingClass,
        NoMain::Method => LinkKind::MissingMethod,
    }
}

fn of_unopened(why: Unopened) -> Status
    ensures { result ≡ status_of_unopened why }
{
    match why {
        Unopened::BadImage { line, reason } => Status::BadImage { line, reason },
        Unopened::ShapeChanged { name } => Status::ShapeChanged { shape: name },
        Unopened::Full(full) => Status::Full(full),
        Unopened::ImageFailed => Status::ImageFault,
        Unopened::OutOfMemory => Status::OutOfMemory,
    }
}

fn of_unlaunched(why: NoLaunch) -> Status
    ensures { result ≡ status_of_unlaunched why }
{
    match why {
        NoLaunch::Full(full) => Status::Full(full),
        NoLaunch::OutOfMemory => Status::OutOfMemory,
    }
}

// The status of a set that isn't decoded. One of accepted files isn't too large, so memory is lacking.
fn of_undecoded(set: &AcceptedSet, why: DecodeRefusal) -> Status
    requires large { why ≡ DecodeRefusal.TooLarge → IsTooLarge set.now.linked }
    ensures { result ≡ Status.OutOfMemory }
{
    accepted_sets_have_room();
    let _count = set.linked.file_count();
    match why {
        DecodeRefusal::TooLarge => unreachable!(),
        DecodeRefusal::OutOfMemory => Status::OutOfMemory,
    }
}

// The status of a run that ended so.
fn of_end(set: &ClassSet, end: RunEnd, room: NameRoom) -> Status
    ensures { result ≡ status_of_end set.now end }
{
    match end {
        RunEnd::Ended(None) => Status::Ok,
        RunEnd::Ended(Some((thread, class))) => uncaught_status(set, thread, class, room),
        RunEnd::Over(fault) => status_of_fault(set, &fault, room),
    }
}

// The graph from which a run began; the one without roots and nodes where there is no act.
fn opening_of(alloc: Global, acts: &Acts, graph: SharedGraph) -> SharedGraph
    ensures none { acts.now.acts ≡ [] → result ≡ empty_graph }
    ensures some { (acts.now.acts ≡ [] → ⊥) → result ≡ graph }
{
    if acts.len() == 0 {
        no_graph(alloc)
    } else {
        graph
    }
}

/// Opens an image for a class set and runs the set, from its class of this name on, within these limits.
pub(crate) fn run_set<R, I, S, G, W>(
    rt: &R,
    workers: u8,
    alloc: Global,
    set: AcceptedSet,
    class: &[u8],
    limits: &Limits,
    room: NameRoom,
    image: I,
    sink: S,
    gate: &G,
    watcher: W,
) -> Ran<I, S, W>
where
    R: Threads + Wait + Sync,
    I: Image + Send,
    S: Sink + Send,
    G: Gate + Sync,
    W: Watcher + Send,
    ensures ran { SetRunsOver set.linked class.now limits.now (I.told image) (S.takes sink) result.opening result.acts.acts
        (I.told result.image) result.status }
    ensures told { Tells result.acts.acts (W.seen watcher) (W.seen result.watcher)
        (S.taken sink) (S.taken result.sink) (S.takes sink) (S.takes result.sink) }
    ensures sink_fault { result.status ≡ Status.SinkFault
        → S.faults result.sink ≡ next_count (S.faults sink) }
    ensures sink_spared { result.status ≢ Status.SinkFault → S.faults result.sink ≡ S.faults sink }
    ensures image_fault { result.status ≡ Status.ImageFault
        → I.faults result.image ≡ next_count (I.faults image) }
    ensures image_spared { result.status ≢ Status.ImageFault → I.faults result.image ≡ I.faults image }
{
    let AcceptedSet { mut linked } = set;
    match find_for(alloc, &mut linked, image) {
        Ok(found) => {
            let set = AcceptedSet { linked };
            run_found(
                rt, workers, alloc, &set, class, limits, room, found, sink, gate, watcher,
            )
        }
        Err((why, image)) => unbegun(alloc, of_unopened(why), image, sink, watcher),
    }
}

// Runs a set over an image that was found for it, where its first objects find room.
fn run_found<R, I, S, G, W>(
    rt: &R,
    workers: u8,
    alloc: Global,
    set: &AcceptedSet,
    class: &[u8],
    limits: &Limits,
    room: NameRoom,
    found: FoundImage<I>,
    sink: S,
    gate: &G,
    watcher: W,
) -> Ran<I, S, W>
where
    R: Threads + Wait + Sync,
    I: Image + Send,
    S: Sink + Send,
    G: Gate + Sync,
    W: Watcher + Send,
    requires found { (start : Told) × (old : Linked) × IsFoundFor start old set.now.linked
        found.memory found.directory found.lines found.graph found.free }
    ensures ran { (start : Told) (old : Linked) → IsFoundFor start old set.now.linked
        found.memory found.directory found.lines found.graph found.free
        → SetRunsOver old class.now limits.now start (S.takes sink) result.opening result.acts.acts
        (I.told result.image) result.status }
    ensures told { Tells result.acts.acts (W.seen watcher) (W.seen result.watcher)
        (S.taken sink) (S.taken result.sink) (S.takes sink) (S.takes result.sink) }
    ensures sink_fault { result.status ≡ Status.SinkFault
        → S.faults result.sink ≡ next_count (S.faults sink) }
    ensures sink_spared { result.status ≢ Status.SinkFault → S.faults result.sink ≡ S.faults sink }
    ensures image_fault { result.status ≡ Status.ImageFault
        → I.faults result.image ≡ next_count (found.memory.faults) }
    ensures image_spared { result.status ≢ Status.ImageFault → I.faults result.image ≡ found.memory.faults }
{
    match find_room(alloc, &set.linked, limits.heap_words) {
        Ok(()) => run_main(
            rt, workers, alloc, set, class, limits, room, found, sink, gate, watcher,
        ),
        Err(why) => {
            let image = found.memory.into_image();
            unbegun(alloc, of_unlaunched(why), image, sink, watcher)
        }
    }
}

// Runs a set over an image that was found for it, where its main class has a `main`.
fn run_main<R, I, S, G, W>(
    rt: &R,
    workers: u8,
    alloc: Global,
    set: &AcceptedSet,
    class: &[u8],
    limits: &Limits,
    room: NameRoom,
    found: FoundImage<I>,
    sink: S,
    gate: &G,
    watcher: W,
) -> Ran<I, S, W>
where
    R: Threads + Wait + Sync,
    I: Image + Send,
    S: Sink + Send,
    G: Gate + Sync,
    W: Watcher + Send,
    requires found { (start : Told) × (old : Linked) × IsFoundFor start old set.now.linked
        found.memory found.directory found.lines found.graph found.free }
    requires fits { FindsRoom set.now.linked limits.now }
    ensures ran { (start : Told) (old : Linked) → IsFoundFor start old set.now.linked
        found.memory found.directory found.lines found.graph found.free
        → SetRunsOver old class.now limits.now start (S.takes sink) result.opening result.acts.acts
        (I.told result.image) result.status }
    ensures told { Tells result.acts.acts (W.seen watcher) (W.seen result.watcher)
        (S.taken sink) (S.taken result.sink) (S.takes sink) (S.takes result.sink) }
    ensures sink_fault { result.status ≡ Status.SinkFault
        → S.faults result.sink ≡ next_count (S.faults sink) }
    ensures sink_spared { result.status ≢ Status.SinkFault → S.faults result.sink ≡ S.faults sink }
    ensures image_fault { result.status ≡ Status.ImageFault
        → I.faults result.image ≡ next_count (found.memory.faults) }
    ensures image_spared { result.status ≢ Status.ImageFault → I.faults result.image ≡ found.memory.faults }
{
    match find_main(&set.linked, class) {
        Ok(main) => run_complete(
            rt, workers, alloc, set, class, &main, limits, room, found, sink, gate, watcher,
        ),
        Err(none) => {
            let status = main_status(kind_of(none), class, room);
            let image = found.memory.into_image();
            unbegun(alloc, status, image, sink, watcher)
        }
    }
}

// Appends what an image lacks of a set, and runs the set over it from this main method on.
fn run_complete<R, I, S, G, W>(
    rt: &R,
    workers: u8,
    alloc: Global,
    set: &AcceptedSet,
    class: &[u8],
    main: &Main,
    limits: &Limits,
    room: NameRoom,
    found: FoundImage<I>,
    sink: S,
    gate: &G,
    watcher: W,
) -> Ran<I, S, W>
where
    R: Threads + Wait + Sync,
    I: Image + Send,
    S: Sink + Send,
    G: Gate + Sync,
    W: Watcher + Send,
    requires found { (start : Told) × (old : Linked) × IsFoundFor start old set.now.linked
        found.memory found.directory found.lines found.graph found.free }
    requires fits { FindsRoom set.now.linked limits.now }
    requires main { main_of set.now.linked class.now ≡ Ok main.now }
    requires there { IsClass (facts_of set.now.linked) main.now.class }
    ensures ran { (start : Told) (old : Linked) → IsFoundFor start old set.now.linked
        found.memory found.directory found.lines found.graph found.free
        → SetRunsOver old class.now limits.now start (S.takes sink) result.opening result.acts.acts
        (I.told result.image) result.status }
    ensures told { Tells result.acts.acts (W.seen watcher) (W.seen result.watcher)
        (S.taken sink) (S.taken result.sink) (S.takes sink) (S.takes result.sink) }
    ensures sink_fault { result.status ≡ Status.SinkFault
        → S.faults result.sink ≡ next_count (S.faults sink) }
    ensures sink_spared { result.status ≢ Status.SinkFault → S.faults result.sink ≡ S.faults sink }
    ensures image_fault { result.status ≡ Status.ImageFault
        → I.faults result.image ≡ next_count (found.memory.faults) }
    ensures image_spared { result.status ≢ Status.ImageFault → I.faults result.image ≡ found.memory.faults }
{
    match complete(found) {
        Ok(opened) => run_opened(
            rt, workers, alloc, set, class, main, limits, room, opened, sink, gate, watcher,
        ),
        Err(image) => unbegun(alloc, Status::ImageFault, image, sink, watcher),
    }
}

// Runs a set over an image that was opened for it, from this main method on.
fn run_opened<R, I, S, G, W>(
    rt: &R,
    workers: u8,
    alloc: Global,
    set: &AcceptedSet,
    class: &[u8],
    main: &Main,
    limits: &Limits,
    room: NameRoom,
    opened: OpenedImage<I>,
    sink: S,
    gate: &G,
    watcher: W,
) -> Ran<I, S, W>
where
    R: Threads + Wait + Sync,
    I: Image + Send,
    S: Sink + Send,
    G: Gate + Sync,
    W: Watcher + Send,
    requires opened { (start : Told) × (old : Linked) × IsOpenedFor start old set.now.linked
        opened.memory opened.directory opened.lines opened.graph opened.free }
    requires fits { FindsRoom set.now.linked limits.now }
    requires main { main_of set.now.linked class.now ≡ Ok main.now }
    requires there { IsClass (facts_of set.now.linked) main.now.class }
    ensures ran { (start : Told) (old : Linked) → IsOpenedFor start old set.now.linked
        opened.memory opened.directory opened.lines opened.graph opened.free
        → SetRunsOver old class.now limits.now start (S.takes sink) result.opening result.acts.acts
        (I.told result.image) result.status }
    ensures told { Tells result.acts.acts (W.seen watcher) (W.seen result.watcher)
        (S.taken sink) (S.taken result.sink) (S.takes sink) (S.takes result.sink) }
    ensures sink_fault { result.status ≡ Status.SinkFault
        → S.faults result.sink ≡ next_count (S.faults sink) }
    ensures sink_spared { result.status ≢ Status.SinkFault → S.faults result.sink ≡ S.faults sink }
    ensures image_fault { result.status ≡ Status.ImageFault
        → I.faults result.image ≡ next_count (opened.memory.faults) }
    ensures image_spared { result.status ≢ Status.ImageFault → I.faults result.image ≡ opened.memory.faults }
{
    match open_heap(alloc, &set.linked, opened, limits.heap_words) {
        Ok(heap) => run_heap(
            rt, workers, alloc, set, class, main, limits, room, heap, sink, gate, watcher,
        ),
        Err((why, memory)) => {
            unbegun(
                alloc,
                of_unlaunched(why),
                memory.into_image(),
                sink,
                watcher,
            )
        }
    }
}

// Runs a set from the first heap over an opened image, from this main method on.
fn run_heap<R, I, S, G, W>(
    rt: &R,
    workers: u8,
    alloc: Global,
    set: &AcceptedSet,
    class: &[u8],
    main: &Main,
    limits: &Limits,
    room: NameRoom,
    heap: OpenedHeap<I>,
    sink: S,
    gate: &G,
    watcher: W,
) -> Ran<I, S, W>
where
    R: Threads + Wait + Sync,
    I: Image + Send,
    S: Sink + Send,
    G: Gate + Sync,
    W: Watcher + Send,
    requires can { (start : Told) × (old : Linked)
        × CanLaunch start old set.now.linked limits.now.heap_words heap }
    requires main { main_of set.now.linked class.now ≡ Ok main.now }
    requires there { IsClass (facts_of set.now.linked) main.now.class }
    ensures ran { (start : Told) (old : Linked)
        → CanLaunch start old set.now.linked limits.now.heap_words heap
        → SetRunsOver old class.now limits.now start (S.takes sink) result.opening result.acts.acts
        (I.told result.image) result.status }
    ensures told { Tells result.acts.acts (W.seen watcher) (W.seen result.watcher)
        (S.taken sink) (S.taken result.sink) (S.takes sink) (S.takes result.sink) }
    ensures sink_fault { result.status ≡ Status.SinkFault
        → S.faults result.sink ≡ next_count (S.faults sink) }
    ensures sink_spared { result.status ≢ Status.SinkFault → S.faults result.sink ≡ S.faults sink }
    ensures image_fault { result.status ≡ Status.ImageFault
        → I.faults result.image ≡ next_count (heap.spaces.heap.memory.faults) }
    ensures image_spared { result.status ≢ Status.ImageFault → I.faults result.image ≡ heap.spaces.heap.memory.faults }
{
    each_stop_is_allowed();
    match launch(alloc, &set.linked, main, heap, limits) {
        Ok(launched) => run_launched(
            rt,
            workers,
            alloc,
            &set.linked,
            room,
            launched,
            sink,
            gate,
            watcher,
        ),
        Err((why, memory)) => {
            let status = of_undecoded(set, why);
            unbegun(alloc, status, memory.into_image(), sink, watcher)
        }
    }
}

// Runs a set from its first turn on.
fn run_launched<R, I, S, G, W>(
    rt: &R,
    workers: u8,
    alloc: Global,
    set: &ClassSet,
    room: NameRoom,
    launched: Launched<I>,
    sink: S,
    gate: &G,
    watcher: W,
) -> Ran<I, S, W>
where
    R: Threads + Wait + Sync,
    I: Image + Send,
    S: Sink + Send,
    G: Gate + Sync,
    W: Watcher + Send,
    requires ready { (o : Opening) × (first : ℕ) × IsReady o first (facts_of set.now)
        (setting_in launched.host) launched.heap launched.frames.items }
    requires empty { launched.heap.history.acts ≡ [] }
    ensures ran { (o : Opening) (first : ℕ) → IsReady o first (facts_of set.now)
        (setting_in launched.host) launched.heap launched.frames.items
        → RanBy o first set.now launched.graph (S.takes sink) result.opening result.acts.acts
        (I.told result.image) result.status }
    ensures told { Tells result.acts.acts (W.seen watcher) (W.seen result.watcher)
        (S.taken sink) (S.taken result.sink) (S.takes sink) (S.takes result.sink) }
    ensures sink_fault { result.status ≡ Status.SinkFault
        → S.faults result.sink ≡ next_count (S.faults sink) }
    ensures sink_spared { result.status ≢ Status.SinkFault → S.faults result.sink ≡ S.faults sink }
    ensures image_fault { result.status ≡ Status.ImageFault
        → I.faults result.image ≡ next_count ((memory_of launched.heap.machine).faults) }
    ensures image_spared { result.status ≢ Status.ImageFault → I.faults result.image ≡ (memory_of launched.heap.machine).faults }
{
    let Launched {
        host,
        heap,
        frames,
        graph,
    } = launched;
    let run = Run {
        frames,
        heap,
        sink,
        watcher,
        turns: [0; 64],
    };
    let (end, left) = run_all(rt, run, &SetTypes::of(set), &host, workers, gate);
    let Left {
        heap,
        sink,
        watcher,
    } = left;
    let (acts, memory) = heap.finish();
    Ran {
        status: of_end(set, end, room),
        opening: opening_of(alloc, &acts, graph),
        acts,
        image: memory.into_image(),
        sink,
        watcher,
    }
}
