// What a run over an opened image begins with.
ghost use Rattle.std.specs.Prelude.{◌≡◌, IfErr, IfOk};
ghost use Rattle.line_image.specs.Told.{Told};
ghost use Rattle.class_code.specs.Sizes.{IsTooLarge};
ghost use Rattle.class_set.specs.Linked.{Linked};
ghost use Rattle.class_set.specs.Facts.{facts_of};
ghost use Rattle.plain_model.specs.Duties.{IsClass};
ghost use Rattle.image_recovery.specs.Recovered.{entries_in};
ghost use Rattle.durable_launch.specs.Launching.{CanLaunch, IsLaunched};

use crate::beside::{Beside, make_beside};
use crate::heaps::OpenedHeap;
use ap_base::Ref;
use class_code::{DecodeRefusal, programs_name_what_is_there};
use class_set::{ClassSet, linked_sets_are_consistent};
use launch_laws::{
    asked_arrays_are_written, first_heaps_have_their_directory, first_machines_keep_their_run,
    first_machines_run_as_plain_runs,
};
use line_image::Image;
use line_memory::LineMemory;
use natives::{Native, NativeState};
use private_steps::Frames;
use program_host::ProgramHost;
use program_launch::Main;
use run_types::Limits;
use shared_graph::SharedGraph;
use std::alloc::Global;
use workers::{
    SharedHeap, events_keep_lines, lines_stay_unwritten, others_keep_theirs, quiet_steps_are_few,
};

/// What a run over an opened image begins with: what its frames are given, its heap with the empty
/// history, the frames of its threads, of which thread 0 has begun, and the graph for which the image stands.
#[derive(Drop)]
pub struct Launched<I: Image> {
    pub host: ProgramHost,
    pub heap: SharedHeap<I>,
    pub frames: Vec<Frames<Ref, NativeState>>,
    pub graph: SharedGraph,
}

/// What the run of a class set over an opened image begins with, at this main class and method. It
/// takes all memory that the run will ever need.
///
/// # Errors
///
/// `TooLarge` only where the set's methods have 2^32 instructions or more, with an end for each; want
/// of memory. The memory over the image is given back.
pub fn launch<I: Image>(
    alloc: Global,
    set: &ClassSet,
    main: &Main,
    opened: OpenedHeap<I>,
    limits: &Limits,
) -> Result<Launched<I>, (DecodeRefusal, LineMemory<I>)>
    requires can { (start : Told) × (old : Linked)
        × CanLaunch start old set.now limits.now.heap_words opened }
    requires main { IsClass (facts_of set.now) main.now.class }
    ensures ready { IfOk result (λ launched. (start : Told) (old : Linked)
        → (can : CanLaunch start old set.now limits.now.heap_words opened)
        → IsLaunched start (entries_in can.directory) set.now main.now limits.now opened launched) }
    ensures graph { IfOk result (λ launched. launched.graph ≡ opened.graph) }
    ensures too_large { IfErr result (λ e. e.0 ≡ DecodeRefusal.TooLarge → IsTooLarge set.now) }
    ensures given_back { IfErr result (λ e. e.1 ≡ opened.spaces.heap.memory) }
{
    first_machines_keep_their_run();
    first_machines_run_as_plain_runs();
    first_heaps_have_their_directory();
    events_keep_lines();
    lines_stay_unwritten();
    asked_arrays_are_written();
    others_keep_theirs();
    quiet_steps_are_few();
    programs_name_what_is_there::<Native>();
    linked_sets_are_consistent();
    let _linked = set.shapes();
    let OpenedHeap {
        spaces,
        arguments,
        literals,
        graph,
        free,
    } = opened;
    let Beside { host, frames, rest } = match make_beside(alloc, set, main, arguments, literals) {
        Ok(beside) => beside,
        Err(why) => return Err((why, spaces.heap.memory)),
    };
    match SharedHeap::new(alloc, spaces, free, rest, limits.acts) {
        Ok(heap) => Ok(Launched {
            host,
            heap,
            frames,
            graph,
        }),
        Err(spaces) => Err((DecodeRefusal::OutOfMemory, spaces.heap.memory)),
    }
}
