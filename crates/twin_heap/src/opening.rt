// What a heap keeps of the objects that an image holds when it is opened.
ghost use Rattle.std.specs.Prelude.{◌≡◌, ◌≢◌, ◌<◌, ◌≤◌, ◌+◌, ◌*◌, ℕ, IfOk, length, map, slice_index, vec_capacity};
ghost use Rattle.twin_heap.specs.Here.{kind_of_field, kinds_of};

use ap_base::{Kind, ListOf};
use graph_model::{Field, Shape};
use std::alloc::{AllocError, Global};
use twin_forms::ShapeKinds;

// The kinds of fields.
fn field_kinds(alloc: Global, fields: &[Field]) -> Result<ListOf<Kind>, AllocError>
    ensures { IfOk result (λ kinds. kinds ≡ map kind_of_field fields.now) }
{
    let mut kinds = Vec::new(alloc);
    for field in fields {
        kinds.push(field.kind)?;
    }
    Ok(ListOf::from_vec(kinds))
}

fn shape_kinds(alloc: Global, shape: &Shape) -> Result<ShapeKinds, AllocError>
    ensures { IfOk result (λ kinds. kinds ≡ kinds_of shape.now) }
{
    Ok(ShapeKinds {
        fields: field_kinds(alloc, shape.fields.as_slice())?,
        element: shape.element,
    })
}

/// The kinds of shapes.
pub(crate) fn all_kinds(alloc: Global, shapes: &[Shape]) -> Result<Vec<ShapeKinds>, AllocError>
    ensures { IfOk result (λ kinds. kinds.items ≡ map kinds_of shapes.now) }
{
    let mut kinds = Vec::new(alloc);
    for shape in shapes {
        kinds.push(shape_kinds(alloc, shape)?)?;
    }
    Ok(kinds)
}

/// Numbers the objects that begin at lines, in their order.
pub(crate) fn number_lines(numbers: &mut Vec<u32>, lines: &[u32])
    requires few { length lines.now < 4294967296 }
    requires within { (n : ℕ) → n < length lines.now → slice_index lines.now n < length numbers.old.items }
    requires apart { (i j : ℕ) → i < length lines.now → j < length lines.now → i ≢ j
        → slice_index lines.now i ≢ slice_index lines.now j }
    ensures numbered { (n : ℕ) → n < length lines.now
        → slice_index numbers.new.items (slice_index lines.now n) ≡ n }
    ensures long { length numbers.new.items ≡ length numbers.old.items }
{
    for i in 0..lines.len() {
        numbers[lines[i] as usize] = i as u32;
    }
}

/// The words of the references with which the objects at lines begin, with room for so many more.
pub(crate) fn births_of(alloc: Global, lines: &[u32], room: u32) -> Result<Vec<u64>, AllocError>
    requires few { length lines.now + room < 4294967296 }
    ensures count { IfOk result (λ births. length births.items ≡ length lines.now) }
    ensures births { IfOk result (λ births. (n : ℕ) → n < length lines.now
        → slice_index births.items n ≡ 2 * slice_index lines.now n) }
    ensures room { IfOk result (λ births. length lines.now + room ≤ vec_capacity births) }
{
    let mut births = Vec::new(alloc);
    births.reserve(lines.len() + room as usize)?;
    for i in 0..lines.len() {
        births.push_reserved(2 * u64::from(lines[i]));
    }
    Ok(births)
}
