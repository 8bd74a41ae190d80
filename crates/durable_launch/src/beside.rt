// What a run has beside its heap.
ghost use Rattle.std.specs.Prelude.{◌≡◌, length, slice_get, IfOk, IsErrOf, Some};
ghost use Rattle.class_code.specs.Sizes.{IsTooLarge};
ghost use Rattle.class_set.specs.Facts.{facts_of};
ghost use Rattle.workers.specs.Passed.{begun_main};
ghost use Rattle.one_space.specs.Beside.{IsFirstRest};
ghost use Rattle.plain_model.specs.Facts.{known_classes};
ghost use Rattle.program_host.specs.Hosts.{setting_in};
ghost use Rattle.program_host.specs.Settings.{setting_of};
ghost use Rattle.program_launch.specs.Launches.{set_program};

use ap_base::{ListOf, Ref};
use class_code::DecodeRefusal;
use class_set::ClassSet;
use natives::NativeState;
use private_steps::Frames;
use program_host::ProgramHost;
use program_launch::{Main, first_rest, program_of};
use std::alloc::{AllocError, Global};
use workers::Rest;

/// How many threads a run may have.
const THREADS: usize = 64;

/// What the frames of a run are given, those of its threads, and what its world has beside the heap.
#[derive(Drop)]
pub(crate) struct Beside {
    pub(crate) host: ProgramHost,
    pub(crate) frames: Vec<Frames<Ref, NativeState>>,
    pub(crate) rest: Rest,
}

// The frames of all threads. Thread 0 is about to initialise the main class and then to call its `main`.
fn make_frames(
    alloc: Global,
    main: &Main,
    arguments: Ref,
) -> Result<Vec<Frames<Ref, NativeState>>, AllocError>
    ensures many { IfOk result (λ frames. length frames.items ≡ 64) }
    ensures main { IfOk result (λ frames. slice_get frames.items 0
        ≡ Some (begun_main main.now.class main.now.method arguments)) }
{
    let mut frames = Vec::with_capacity(alloc, THREADS)?;
    for _thread in 0..THREADS {
        frames.push_reserved(Frames::new(alloc)?);
    }
    frames[0].begin_main(main.class, main.method, arguments);
    Ok(frames)
}

/// What the run of a set has beside its heap, where these references stand for the array of arguments
/// and for the literals. `TooLarge` only where the set is too large to be decoded.
pub(crate) fn make_beside(
    alloc: Global,
    set: &ClassSet,
    main: &Main,
    arguments: Ref,
    literals: Vec<Ref>,
) -> Result<Beside, DecodeRefusal>
    ensures host { IfOk result (λ beside. setting_in beside.host ≡ setting_of (set_program set.now)
        main.now.method (known_classes (facts_of set.now)) literals.items) }
    ensures many { IfOk result (λ beside. length beside.frames.items ≡ 64) }
    ensures main { IfOk result (λ beside. slice_get beside.frames.items 0
        ≡ Some (begun_main main.now.class main.now.method arguments)) }
    ensures rest { IfOk result (λ beside. IsFirstRest (facts_of set.now) beside.rest) }
    ensures too_large { IsErrOf result DecodeRefusal.TooLarge → IsTooLarge set.now }
{
    let program = program_of(alloc, set)?;
    let host = ProgramHost::new(
        alloc,
        program,
        main.method,
        set.known(),
        ListOf::from_vec(literals),
    )?;
    Ok(Beside {
        host,
        frames: make_frames(alloc, main, arguments)?,
        rest: first_rest(alloc, set)?,
    })
}
