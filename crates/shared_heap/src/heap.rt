// The heap.
ghost use Rattle.std.specs.Prelude.{◌≡◌, ◌↔◌, ◌≤◌, ◌<◌, ◌^◌, length, IsTrue};

use crate::notes::Notes;
use convert_queue::Conversions;
use line_image::Image;
use persist_space::PersistSpace;
use region_logs::Logs;
use run_history::Acts;
use shared_objects::Rest;
use std::marker::Model;
use store_barrier::Doing;
use two_spaces::TwoSpaces;

/// A heap of two spaces with what threads share beside it: the conversions that go on, the lines of
/// the image that are left, monitors, classes and threads, what each thread is about, asks and waits for,
/// the logs of their regions, and the history.
#[derive(Drop)]
pub struct SharedHeap<I: Image> {
    pub(crate) spaces: TwoSpaces<I>,
    pub(crate) queue: Conversions,
    pub(crate) lines: PersistSpace,
    pub(crate) rest: Rest,
    pub(crate) doing: Vec<Doing>,
    pub(crate) logs: Logs,
    pub(crate) acts: Acts,
    pub(crate) notes: Notes,
    /// how many acts the history may have
    pub(crate) limit: u32,
}

impl<I: Image> Model for SharedHeap<I> {
    ghost use Rattle.std.specs.Prelude.{◌≡◌, length};
    ghost use Rattle.shared_heap.specs.Shared.{Shared};

    ghost Value = { Shared };

    ghost view = { λ h. record {
      machine = record {
        acts = h.acts.acts;
        spaces = record {
          twin = record {
            space = h.spaces.heap.space;
            memory = h.spaces.heap.memory;
            marks = h.spaces.heap.marks;
          };
          shapes = h.spaces.shapes;
          classes = h.spaces.classes.items;
          numbers = h.spaces.numbers.items;
          statics = h.spaces.statics.items;
        };
        queue = h.queue;
        free = h.lines.free;
        rest = h.rest;
        doing = h.doing.items;
        logs = h.logs.logs;
      };
      history = h.acts;
      lines = h.lines.lines;
      notes = h.notes;
    } };

    ghost invariant = { λ h. (length h.doing.items ≡ 64) × (h.limit ≡ h.acts.limit)
        × (h.logs.lines ≡ h.lines.lines) };
}

impl<I: Image> SharedHeap<I> {
    /// Whether the history has all the acts that it may have, fewer than 2^32. The acts of the machine are
    /// its acts.
    pub fn is_full(&self) -> bool
        ensures full { IsTrue result ↔ (self.now.history.limit ≤ length self.now.history.acts) }
        ensures counted { self.now.history.limit < 2 ^ 32 }
        ensures same { self.now.machine.acts ≡ self.now.history.acts }
    {
        self.acts.len() >= self.limit
    }
}
