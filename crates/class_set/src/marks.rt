//! Marks for the indices of a pool.

ghost use Rattle.std.specs.Prelude.{◌≡◌, ◌≢◌, ℕ, false, slice_index_or, IfOk};

use const_pool::Pool;
use std::alloc::{AllocError, Global};

/// A mark for each index of a pool, of which none is set.
pub(crate) fn no_marks(alloc: Global, pool: &Pool) -> Result<Vec<bool>, AllocError>
    ensures { IfOk result (λ marks. (index : ℕ) → slice_index_or marks.items index false ≡ false) }
{
    let marks = vec![in alloc; false; usize::from(pool.len())]?;
    Ok(marks)
}

/// Whether an index is marked.
pub(crate) fn is_marked(marks: &[bool], index: u16) -> bool
    ensures { result ≡ slice_index_or marks.now index false }
{
    if usize::from(index) < marks.len() {
        return marks[usize::from(index)];
    }
    false
}

/// Marks an index, where there is one.
pub(crate) fn mark(marks: &mut Vec<bool>, index: u16)
    ensures { (n : ℕ) → n ≢ index
        → slice_index_or marks.new.items n false ≡ slice_index_or marks.old.items n false }
{
    if usize::from(index) < marks.len() {
        marks[usize::from(index)] = true;
    }
}
