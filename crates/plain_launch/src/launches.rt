// The beginning of a plain run.
ghost use Rattle.std.specs.Prelude.{◌≡◌, ◌<◌, ◌^◌, [], All, IfOk, IsErrOf, length};
ghost use Rattle.graph_model.specs.declared.types.Node.{Node as NodeOf};
ghost use Rattle.run_types.specs.declared.limits.Limits.{Limits};
ghost use Rattle.class_code.specs.Sizes.{IsTooLarge};
ghost use Rattle.class_set.specs.Facts.{facts_of};
ghost use Rattle.plain_model.specs.Duties.{IsClass};
ghost use Rattle.plain_model.specs.First.{IsOpening};
ghost use Rattle.plain_heap.specs.Heaps.{shown_of};
ghost use Rattle.plain_machine.specs.Standing.{Stands};
ghost use Rattle.program_host.specs.Hosts.{setting_in};
ghost use Rattle.plain_launch.specs.Launches.{launch_of};

use crate::numbers::{arguments_number, literal_references};
use crate::objects::first_objects;
use crate::statics::first_statics;
use crate::tables::{first_progress, first_shapes};
use ap_base::ListOf;
use class_code::{DecodeRefusal, programs_name_what_is_there};
use class_set::{ClassSet, linked_sets_are_consistent, literals_are_short};
use graph_model::Graph;
use natives::Native;
use plain_machine::{Beginning, Plain};
use program_host::ProgramHost;
use program_launch::{Main, program_of};
use std::alloc::Global;

/// A plain run of a class set, and what its frames are given: `plain` follows acts with `host`.
#[derive(Drop)]
pub struct PlainRun {
    pub plain: Plain,
    pub host: ProgramHost,
}

/// The plain run of a class set from an opening graph, before its first act: thread 0 is about to
/// initialise the main class, and then to call `main`.
///
/// # Errors
///
/// `TooLarge` only where the set's methods have 2^32 instructions or more, with an end for each; want
/// of memory, and of numbers: 2^32 - 2 durable roots, which would take more than 32 GB.
pub fn begin_plain(
    alloc: Global,
    set: &ClassSet,
    main: &Main,
    opening: &Graph,
) -> Result<PlainRun, DecodeRefusal>
    requires opening { IsOpening (facts_of set.now) opening.now }
    requires main { IsClass (facts_of set.now) main.now.class }
    requires short { All (λ (n : NodeOf). length n.values < 2 ^ 31) opening.now.nodes }
    ensures stands { (limits : Limits) → IfOk result (λ run.
        Stands (launch_of set.now main.now opening.now limits) [] (facts_of set.now)
        (setting_in run.host) (shown_of run.plain.world.heap) run.plain.world.rest
        run.plain.world.steps run.plain.lanes.items) }
    ensures too_large { IsErrOf result DecodeRefusal.TooLarge → IsTooLarge set.now }
{
    programs_name_what_is_there::<Native>();
    linked_sets_are_consistent();
    literals_are_short();
    let _linked = set.shapes();
    let literals = set.literals(alloc)?;
    let texts = literals.as_slice();
    let references = literal_references(alloc, opening, texts.len() as u32)?;
    let beginning = Beginning {
        shapes: ListOf::from_vec(first_shapes(alloc, set)?),
        objects: first_objects(alloc, set, opening.nodes.as_slice(), texts)?,
        statics: first_statics(alloc, set, opening)?,
        classes: first_progress(alloc, set)?,
        class: main.class,
        method: main.method,
        arguments: arguments_number(opening),
    };
    let program = program_of(alloc, set)?;
    let host = ProgramHost::new(
        alloc,
        program,
        main.method,
        set.known(),
        ListOf::from_vec(references),
    )?;
    Ok(PlainRun {
        plain: Plain::begin(alloc, beginning)?,
        host,
    })
}
