// Acts as they are told.
ghost use Rattle.std.specs.Prelude.{◌≡◌, IfOk};

use run_history::{Act, Op};
use std::alloc::{AllocError, Global};
use std::marker::Model;

/// An act, with the objects that it names. Contracts see it as an entry of a history.
#[derive(Drop)]
pub struct Heard {
    act: Act,
    named: Vec<u32>,
}

impl Model for Heard {
    ghost use Rattle.run_history.specs.Recorded.{Recorded};

    ghost Value = { Recorded };

    ghost view = { λ h. record { act = h.act; named = h.named.items } };
}

impl Heard {
    /// The act with the objects that it names.
    pub fn new(alloc: Global, act: &Act, objects: &[u32]) -> Result<Heard, AllocError>
        ensures { IfOk result (λ heard. heard ≡ record { act = act.now; named = objects.now }) }
    {
        Ok(Heard {
            act: *act,
            named: Vec::from_slice(alloc, objects)?,
        })
    }

    /// What it did.
    pub(crate) fn op(&self) -> &Op
        ensures { result.now ≡ self.now.act.op }
    {
        &self.act.op
    }

    /// The objects that it names.
    pub(crate) fn named(&self) -> &[u32]
        ensures { result.now ≡ self.now.named }
    {
        self.named.as_slice()
    }
}
