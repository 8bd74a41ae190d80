// Class sets of listings, and their opening graphs without nodes.
ghost use Rattle.std.specs.Prelude.{◌≡◌, IfOk, IfSome, map};
ghost use Rattle.class_set.specs.Facts.{facts_of};
ghost use Rattle.plain_model.specs.First.{IsOpening};
ghost use Rattle.set_fixture.specs.Openings.{null_root};

use ap_base::{Bytes, ListOf};
use class_set::{ClassSet, link};
use graph_model::{Graph, NamedValue, Root, Value};
use listing::assemble;
use std::alloc::{AllocError, Global};
use std::test::Fail;

/// The classes that a listing gives, linked.
pub fn linked(alloc: Global, listing: &[u8]) -> Result<ClassSet, Fail> {
    let files = assemble(alloc, listing)?;
    if files.len() > 4096 {
        return Err("few classes".into());
    }
    match link(alloc, files) {
        Ok(set) => Ok(set),
        Err(_) => Err("classes that link".into()),
    }
}

// These roots, each of them null.
fn null_roots(alloc: Global, roots: &[Root]) -> Result<Vec<NamedValue>, AllocError>
    ensures { IfOk result (λ values. values.items ≡ map null_root roots.now) }
{
    let mut values = Vec::new(alloc);
    for root in roots {
        values.push(NamedValue {
            name: Bytes::copy(alloc, root.name.as_slice())?,
            value: Value::Null,
        })?;
    }
    Ok(values)
}

/// The graph of a blank image that was opened for a set: its durable root, which is null, if it has one. None where it has more,
/// or a thousand literals.
pub fn null_opening(alloc: Global, set: &ClassSet) -> Result<Option<Graph>, AllocError>
    ensures opening { IfOk result (λ graph. IfSome graph (IsOpening (facts_of set.now))) }
{
    let literals = set.literals(alloc)?;
    if literals.len() >= 1_000 {
        return Ok(None);
    }
    let roots = set.roots(alloc)?;
    if roots.len() > 1 {
        return Ok(None);
    }
    let values = null_roots(alloc, roots.as_slice())?;
    Ok(Some(Graph {
        roots: ListOf::from_vec(values),
        nodes: ListOf::new(alloc),
    }))
}
