// What a source of class files gives.
ghost use Rattle.std.specs.Prelude.{◌≡◌, ◌≤◌, ◌<◌, length, max};

use crate::Bytes;
use thiserror::Error;

/// The most bytes of a class file.
pub const MOST_BYTES: usize = 1_048_576;

/// A file: its name, its bytes, and how many it has. Of a file with more than a class file may have, a source may
/// give the front alone.
#[derive(Drop, Debug)]
pub struct NamedBytes {
    pub name: Bytes,
    pub bytes: Bytes,
    pub size: u64,
    pub ghost front: { length bytes ≤ size },
    pub ghost whole: { size ≤ 1048576 → length bytes ≡ size },
}

impl NamedBytes {
    /// A file of which all bytes are given.
    pub fn whole(name: Bytes, bytes: Bytes) -> NamedBytes
        ensures name { result.name ≡ name }
        ensures bytes { result.bytes ≡ bytes }
        ensures size { result.size ≡ length bytes }
    {
        let size = bytes.as_slice().len() as u64;
        NamedBytes { name, bytes, size }
    }

    /// A file of which these bytes were read, and which has as many as it tells, where more were read than a class
    /// file may have.
    pub fn read_so_far(name: Bytes, bytes: Bytes, told: u64) -> NamedBytes
        ensures name { result.name ≡ name }
        ensures bytes { result.bytes ≡ bytes }
        ensures whole { length bytes ≤ 1048576 → result.size ≡ length bytes }
        ensures longer { 1048576 < length bytes → result.size ≡ max told (length bytes) }
    {
        let read = bytes.as_slice().len();
        if read <= MOST_BYTES {
            return NamedBytes::whole(name, bytes);
        }
        let size = told.max(read as u64);
        NamedBytes { name, bytes, size }
    }
}

/// Why a source gave no answer.
#[derive(Clone, Copy, Debug, PartialEq, Eq, Error)]
pub enum SourceError {
    #[error("the source failed")]
    Failed,
    #[error("no memory is left")]
    OutOfMemory,
}
