//! The refusal of a field that is cut off.

use thiserror::Error;

/// The file ends within the field that begins at this offset. Each parser's refusal has a `From` of it.
#[derive(Clone, Copy, Debug, PartialEq, Eq, Error)]
#[error("the field at offset {at} is cut off")]
pub struct Cut {
    /// Where the field begins, from the file's start.
    pub at: usize,
}
