// Room for the slots of one object.
ghost use Rattle.std.specs.Prelude.{◌≡◌, ◌≤◌, [], IfOk, vec_capacity};

use graph_model::Value;
use std::alloc::{AllocError, Global};
use std::marker::Model;
use std::mem::replace;

/// Memory for the slots of one object: for at least so many.
#[derive(Drop)]
pub struct Room {
    values: Vec<Value>,
    alloc: Global,
}

impl Model for Room {
    ghost use Rattle.std.specs.Prelude.{◌≡◌, [], ℕ, vec_capacity};

    ghost Value = { ℕ };

    ghost view = { λ r. vec_capacity r.values };

    ghost invariant = { λ r. r.values.items ≡ [] };
}

impl Room {
    /// Room for so many slots.
    pub(crate) fn reserve(alloc: Global, slots: usize) -> Result<Room, AllocError>
        ensures { IfOk result (λ room. slots ≤ room) }
    {
        Ok(Room {
            values: Vec::with_capacity(alloc, slots)?,
            alloc,
        })
    }

    /// No room. Takes no memory.
    pub(crate) fn none(alloc: Global) -> Room {
        Room {
            values: Vec::new(alloc),
            alloc,
        }
    }

    /// The memory, as a vector without elements.
    pub(crate) fn take(&mut self) -> Vec<Value>
        ensures empty { result.items ≡ [] }
        ensures room { self.old ≤ vec_capacity result }
    {
        let alloc = self.alloc;
        replace(&mut self.values, Vec::new(alloc))
    }
}
