// What is published, and the operations on it.
use act_book::Front;
use left_right::Absorb;
use live_heap::{Heard, Live};
use std::alloc::AllocError;

/// What is published: what was seen, and the beginning of the history for which it stands.
#[derive(Drop)]
pub struct Shown {
    pub live: Live,
    pub front: Front,
}

/// An act that was added to the history, and the history with it.
#[derive(Drop)]
pub struct Entry {
    pub heard: Heard,
    pub front: Front,
}

impl Absorb<Entry> for Shown {
    ghost use Rattle.live_view.specs.Entries.{with_entry};

    type State = Shown;

    ghost state = { λ s. s };

    ghost applied = { with_entry };

    fn absorb_first(&mut self, operation: &Entry, _other: &Shown) -> Result<(), AllocError> {
        self.live.hear(&operation.heard)?;
        self.front = operation.front.again();
        Ok(())
    }
}
