// A text or a file's content.
ghost use Rattle.std.specs.Prelude.{◌≡◌, IfOk};

use std::alloc::{AllocError, Global};
use std::marker::Model;

/// Bytes on the heap: a name, or a file's content.
#[derive(Drop, Debug)]
pub struct Bytes {
    items: Vec<u8>,
}

impl Model for Bytes {
    ghost use Rattle.std.specs.Prelude.{ℕ, List};

    ghost Value = { List ℕ };

    ghost view = { λ bytes. bytes.items.items };
}

impl Bytes {
    /// A copy of the bytes.
    pub fn copy(alloc: Global, from: &[u8]) -> Result<Bytes, AllocError>
        ensures same { IfOk result (λ bytes. bytes ≡ from.now) }
    {
        Ok(Bytes {
            items: from.to_vec(alloc)?,
        })
    }

    /// The bytes of a vector. Takes no memory.
    pub fn from_vec(items: Vec<u8>) -> Bytes
        ensures same { result ≡ items.items }
    {
        Bytes { items }
    }

    /// The bytes.
    pub fn as_slice(&self) -> &[u8]
        ensures same { result.now ≡ self.now }
    {
        self.items.as_slice()
    }
}
