// What is seen before the first act.
ghost use Rattle.std.specs.Prelude.{◌≡◌, ◌-◌, ◌≤◌, ◌++◌, true, false, replicate, IfOk};
ghost use Rattle.class_set.specs.Facts.{facts_of};
ghost use Rattle.plain_model.specs.First.{IsOpening};
ghost use Rattle.live_laws.specs.Firsts.{first_seen};

use ap_base::ListOf;
use class_set::ClassSet;
use first_heap::first_heap;
use graph_model::{Graph, Heap};
use live_heap::Live;
use run_types::Limits;
use std::alloc::{AllocError, Global};

/// How many objects a run makes at most: each is an act, and takes three words or more.
fn most_objects(limits: &Limits) -> usize {
    limits.acts.min(limits.heap_words / 3) as usize
}

/// A heap with room for so many further objects, without that of their slots.
fn with_room(heap: Heap, objects: usize) -> Result<Heap, AllocError>
    ensures { IfOk result (λ roomy. roomy ≡ heap) }
{
    let Heap {
        shapes,
        objects: list,
        statics,
        roots,
    } = heap;
    let mut list = list.into_vec();
    list.reserve(objects)?;
    Ok(Heap {
        shapes,
        objects: ListOf::from_vec(list),
        statics,
        roots,
    })
}

/// Flags of so many objects, of which the first so many are durable, with room for further ones.
#[tactic(auto, using(crate::proofs::Beginning::flags_made))]
fn first_flags(
    alloc: Global,
    durable: usize,
    objects: usize,
    room: usize,
) -> Result<Vec<bool>, AllocError>
    requires { durable ≤ objects }
    ensures { IfOk result (λ flags.
        flags.items ≡ replicate durable true ++ replicate (objects - durable) false) }
{
    let mut flags = vec![in alloc; true; durable]?;
    flags.resize(objects, false)?;
    flags.reserve(room)?;
    Ok(flags)
}

/// What is seen of a class set and an opening graph before the first act, with room for the objects of a run by these limits. The nodes
/// of the graph are durable.
#[tactic(auto, using(crate::proofs::Beginning::nodes_few, crate::proofs::Beginning::first_sound, crate::proofs::Beginning::first_is))]
pub(crate) fn first_seen(
    alloc: Global,
    set: &ClassSet,
    opening: &Graph,
    limits: &Limits,
) -> Result<Live, AllocError>
    requires opening { IsOpening (facts_of set.now) opening.now }
    ensures { IfOk result (λ live. live ≡ first_seen (facts_of set.now) opening.now) }
{
    let room = most_objects(limits);
    let heap = with_room(first_heap(alloc, set, opening)?, room)?;
    let flags = first_flags(alloc, opening.nodes.len(), heap.objects.len(), room)?;
    Ok(Live::new(alloc, heap, flags))
}
