//! Class sets of listings, and opening graphs.

ghost use Rattle.std.specs.Prelude.{◌≡◌, ◌<◌, ◌^◌, ℤ, All, IfOk, IfSome, IsTrue, length, map};
ghost use Rattle.graph_model.specs.declared.types.Node.{Node as NodeOf};
ghost use Rattle.graph_model.specs.declared.types.Value.TheVariants.{Int};
ghost use Rattle.class_set.specs.Facts.{facts_of};
ghost use Rattle.plain_model.specs.First.{IsOpening};
ghost use Rattle.plain_rows.specs.Openings.{HasInts, HasName, IsNodeOf};

use ap_base::{Bytes, Kind, ListOf};
use class_set::{ClassSet, link};
use graph_model::{Graph, NamedValue, Node, Root, Shape, Value};
use listing::assemble;
use std::alloc::{AllocError, Global};
use std::test::Fail;

pub fn linked(alloc: Global, listing: &[u8]) -> Result<ClassSet, Fail> {
    let files = assemble(alloc, listing)?;
    if files.len() > 4096 {
        return Err("few classes".into());
    }
    match link(alloc, files) {
        Ok(set) => Ok(set),
        Err(_) => Err("classes that link".into()),
    }
}

// Whether a shape has so many fields, all of them ints.
fn has_ints(shape: &Shape, count: usize) -> bool
    ensures { IsTrue result → HasInts shape.now count }
{
    shape.element.is_none()
        && shape.fields.len() == count
        && shape
            .fields
            .as_slice()
            .iter()
            .all(|field| field.kind == Kind::I)
}

fn ints(alloc: Global, values: &[i32]) -> Result<Vec<Value>, AllocError>
    ensures { IfOk result (λ list. list.items ≡ map (λ i. Int i) values.now) }
{
    values.iter().map(|value| Value::Int(*value)).collect(alloc)
}

// A node of this class with these ints, if the class has so many and no other fields.
fn node_of(
    alloc: Global,
    set: &ClassSet,
    class: &[u8],
    values: &[i32],
) -> Result<Option<Node>, AllocError>
    requires short { length values.now < 2 ^ 31 }
    ensures { IfOk result (λ node. IfSome node (IsNodeOf (facts_of set.now))) }
{
    let Some(number) = set.class_named(class) else {
        return Ok(None);
    };
    let Some(shape) = set.shape(number) else {
        return Ok(None);
    };
    let Some(named) = set.class_named(shape.name.as_slice()) else {
        return Ok(None);
    };
    if named != number {
        return Ok(None);
    }
    if !has_ints(shape, values.len()) {
        return Ok(None);
    }
    let copied = shape.copy(alloc)?;
    let list = ints(alloc, values)?;
    Ok(Some(Node {
        shape: copied,
        values: ListOf::from_vec(list),
    }))
}

// Whether each root has this name.
fn are_named(roots: &[Root], name: &[u8]) -> bool
    ensures { IsTrue result → All (HasName name.now) roots.now }
{
    roots.iter().all(|root| root.name.as_slice() == name)
}

/// The graph of one root with this name, whose value is a node of this class with these ints. None where the
/// set has another durable root, no such class, or a thousand literals.
pub fn opening_of(
    alloc: Global,
    set: &ClassSet,
    name: &[u8],
    class: &[u8],
    values: &[i32],
) -> Result<Option<Graph>, AllocError>
    requires short { length values.now < 2 ^ 31 }
    ensures opening { IfOk result (λ graph. IfSome graph (IsOpening (facts_of set.now))) }
    ensures short { IfOk result (λ graph. IfSome graph (λ g.
        All (λ (n : NodeOf). length n.values < 2 ^ 31) g.nodes)) }
    ensures one { IfOk result (λ graph. IfSome graph (λ g. length g.nodes ≡ 1)) }
{
    let Some(node) = node_of(alloc, set, class, values)? else {
        return Ok(None);
    };
    let durable = set.roots(alloc)?;
    if !are_named(durable.as_slice(), name) {
        return Ok(None);
    }
    let literals = set.literals(alloc)?;
    if literals.len() >= 1_000 {
        return Ok(None);
    }
    let mut roots = Vec::new(alloc);
    roots.push(NamedValue {
        name: Bytes::copy(alloc, name)?,
        value: Value::Obj(0),
    })?;
    let mut nodes = Vec::new(alloc);
    nodes.push(node)?;
    Ok(Some(Graph {
        roots: ListOf::from_vec(roots),
        nodes: ListOf::from_vec(nodes),
    }))
}
