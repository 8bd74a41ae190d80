// The durable roots in the graph's order, each with the number of its static field.
ghost use Rattle.std.specs.Prelude.{◌≡◌, ◌+◌, ◌<◌, ◌^◌, IfOk};
ghost use Rattle.class_set.specs.Tables.{static_now};
ghost use Rattle.class_set.specs.Facts.{facts_of};
ghost use Rattle.plain_model.specs.First.{root_static, roots_from};
ghost use Rattle.first_heap.specs.Places.{is_none, is_root_named, root_number};

use ap_base::{Bytes, ListOf};
use class_set::{ClassSet, Static};
use graph_model::{Graph, Root};
use std::alloc::{AllocError, Global};

/// Whether a static field is the durable root with this name.
#[tactic(auto, using(crate::proofs::Named::same_test))]
fn is_root_named(
    alloc: Global,
    set: &ClassSet,
    field: &Static,
    name: &[u8],
) -> Result<bool, AllocError>
    ensures { IfOk result (λ is. is ≡ is_root_named (static_now set.now.files field.now) name.now) }
{
    if !field.is_root {
        return Ok(false);
    }
    let own = set.static_name(alloc, field)?;
    Ok(own.as_slice() == name)
}

/// The place of the set's durable root with this name among its static fields.
fn root_static(alloc: Global, set: &ClassSet, name: &[u8]) -> Result<Option<u64>, AllocError>
    ensures { IfOk result (λ place. place ≡ root_static (facts_of set.now).statics name.now) }
{
    let mut place = 0;
    for field in set.statics() {
        if is_root_named(alloc, set, field, name)? {
            return Ok(Some(place));
        }
        place += 1;
    }
    Ok(None)
}

/// The number of a root's static field, with how many roots before it the set lacks, and whether it lacks this one.
fn root_number(
    alloc: Global,
    set: &ClassSet,
    name: &[u8],
    lacking: u64,
) -> Result<(u32, bool), AllocError>
    requires few { lacking < 2 ^ 63 }
    ensures number { IfOk result (λ r. r.0 ≡ root_number (facts_of set.now) name.now lacking) }
    ensures lacking { IfOk result (λ r. r.1 ≡ is_none (root_static (facts_of set.now).statics name.now)) }
{
    match root_static(alloc, set, name)? {
        Some(place) => Ok((short(place, 1)?, false)),
        None => Ok((short(set.statics().len() as u64 + 1, lacking)?, true)),
    }
}

/// A sum of 32 bits. Want of numbers is want of memory.
fn short(number: u64, more: u64) -> Result<u32, AllocError>
    ensures { IfOk result (λ n. n ≡ number + more) }
{
    let sum = number.checked_add(more).ok_or(AllocError)?;
    if sum > 4_294_967_295 {
        return Err(AllocError);
    }
    Ok(sum as u32)
}

/// The durable roots of an opening graph. Those that the set lacks have the numbers behind its static fields.
pub(crate) fn first_roots(
    alloc: Global,
    set: &ClassSet,
    opening: &Graph,
) -> Result<ListOf<Root>, AllocError>
    ensures { IfOk result (λ roots.
        roots ≡ roots_from (facts_of set.now) opening.now 0 opening.now.roots) }
{
    let mut roots = Vec::new(alloc);
    let mut lacking = 0;
    for root in opening.roots.as_slice() {
        let (at, lacks) = root_number(alloc, set, root.name.as_slice(), lacking)?;
        let name = Bytes::copy(alloc, root.name.as_slice())?;
        roots.push(Root { name, at })?;
        lacking += u64::from(lacks);
    }
    Ok(ListOf::from_vec(roots))
}
