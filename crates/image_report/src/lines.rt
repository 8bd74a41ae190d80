// The lines of texts.
ghost use Rattle.std.specs.Prelude.{◌≡◌, ◌++◌, length, codes, decimal, slice_get, OnOk};
ghost use Rattle.image_report.specs.Texts.{counted, value_text, root_line, bracketed, name_of, slot_line, node_line, counts_line};
ghost use Rattle.image_report.specs.Texts.{each, node_lines};

use graph_model::{NamedValue, Shape, Value};
use put_bytes::{put_decimal, put_signed, put_text};
use shared_graph::{SharedGraph, SharedNode};
use std::alloc::AllocError;

/// Puts a word and a number.
pub(crate) fn put_counted(out: &mut Vec<u8>, word: &[u8], number: u64) -> Result<(), AllocError>
    ensures { OnOk result (out.new.items ≡ out.old.items ++ counted word.now number) }
{
    put_text(out, word)?;
    put_decimal(out, number)
}

/// Puts how many roots and nodes there are.
pub(crate) fn put_counts(out: &mut Vec<u8>, graph: &SharedGraph) -> Result<(), AllocError>
    ensures { OnOk result (out.new.items ≡ out.old.items ++ counts_line graph.now) }
{
    put_counted(out, b"roots ", graph.roots().len() as u64)?;
    put_counted(out, b" nodes ", graph.nodes().len() as u64)?;
    put_text(out, b"\n")
}

/// Puts a value.
fn put_value(out: &mut Vec<u8>, value: Value) -> Result<(), AllocError>
    ensures { OnOk result (out.new.items ≡ out.old.items ++ value_text value) }
{
    match value {
        Value::Int(number) => put_signed(out, i64::from(number)),
        Value::Long(number) => put_signed(out, number),
        Value::Null => put_text(out, b"null"),
        Value::Obj(node) => put_counted(out, b"#", u64::from(node)),
    }
}

/// Puts a value that ends its line, behind a word.
fn put_last_value(out: &mut Vec<u8>, word: &[u8], value: Value) -> Result<(), AllocError>
    ensures { OnOk result (out.new.items ≡ out.old.items ++ (word.now ++ value_text value ++ codes "\n")) }
{
    put_text(out, word)?;
    put_value(out, value)?;
    put_text(out, b"\n")
}

/// Puts the line of a root.
pub(crate) fn put_root(out: &mut Vec<u8>, k: usize, root: &NamedValue) -> Result<(), AllocError>
    ensures { OnOk result (out.new.items ≡ out.old.items ++ root_line k root.now) }
{
    put_counted(out, b"root ", k as u64)?;
    put_text(out, b" ")?;
    put_text(out, root.name.as_slice())?;
    put_last_value(out, b" ", root.value)
}

/// Puts the index of a slot.
fn put_index(out: &mut Vec<u8>, i: usize) -> Result<(), AllocError>
    ensures { OnOk result (out.new.items ≡ out.old.items ++ bracketed i) }
{
    put_counted(out, b"[", i as u64)?;
    put_text(out, b"]")
}

/// Puts what a slot is called.
fn put_name(out: &mut Vec<u8>, shape: &Shape, i: usize) -> Result<(), AllocError>
    ensures { OnOk result (out.new.items
        ≡ out.old.items ++ name_of shape.now.element (slice_get shape.now.fields i) i) }
{
    if shape.element.is_some() {
        return put_index(out, i);
    }
    match shape.fields.as_slice().get(i) {
        Some(field) => put_text(out, field.name.as_slice()),
        None => put_index(out, i),
    }
}

/// Puts the line of a slot.
pub(crate) fn put_slot(
    out: &mut Vec<u8>,
    shape: &Shape,
    i: usize,
    value: Value,
) -> Result<(), AllocError>
    ensures { OnOk result (out.new.items ≡ out.old.items ++ slot_line shape.now i value) }
{
    put_name(out, shape, i)?;
    put_last_value(out, b" = ", value)
}

/// Puts a node's own line.
pub(crate) fn put_node(out: &mut Vec<u8>, k: usize, node: &SharedNode) -> Result<(), AllocError>
    ensures { OnOk result (out.new.items ≡ out.old.items ++ node_line k node.now) }
{
    put_counted(out, b"node #", k as u64)?;
    put_text(out, b" ")?;
    put_text(out, node.shape().name.as_slice())?;
    put_counted(out, b" ", node.values().len() as u64)?;
    put_text(out, b"\n")
}

/// Puts the lines of roots, which are numbered.
pub(crate) fn put_roots(out: &mut Vec<u8>, roots: &[NamedValue]) -> Result<(), AllocError>
    ensures { OnOk result (out.new.items ≡ out.old.items ++ each root_line 0 roots.now) }
{
    for (k, root) in roots.iter().enumerate() {
        put_root(out, k, root)?;
    }
    Ok(())
}

/// Puts the lines of the slots of an object of this shape.
fn put_slots(out: &mut Vec<u8>, shape: &Shape, values: &[Value]) -> Result<(), AllocError>
    ensures { OnOk result (out.new.items ≡ out.old.items ++ each (slot_line shape.now) 0 values.now) }
{
    for (i, value) in values.iter().enumerate() {
        put_slot(out, shape, i, *value)?;
    }
    Ok(())
}

/// Puts the lines of a node.
fn put_whole_node(out: &mut Vec<u8>, k: usize, node: &SharedNode) -> Result<(), AllocError>
    ensures { OnOk result (out.new.items ≡ out.old.items ++ node_lines k node.now) }
{
    put_node(out, k, node)?;
    put_slots(out, node.shape(), node.values())
}

/// Puts the lines of nodes, which are numbered.
pub(crate) fn put_nodes(out: &mut Vec<u8>, nodes: &[SharedNode]) -> Result<(), AllocError>
    ensures { OnOk result (out.new.items ≡ out.old.items ++ each node_lines 0 nodes.now) }
{
    for (k, node) in nodes.iter().enumerate() {
        put_whole_node(out, k, node)?;
    }
    Ok(())
}
