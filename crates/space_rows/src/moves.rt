//! Moves of objects, each by one call of the heap, where its condition holds.

ghost use Rattle.plain_model.specs.Facts.{SetFacts};
ghost use Rattle.space_rows.specs.Worlds.{Holds};

use crate::world::World;
use ap_base::{Ref, ThreadNo};
use forwarding::{Claimed, state_at};
use object_header::State;
use run_types::Key;

impl World {
    /// Claims an object of the space. `None` where the reference isn't to one.
    pub fn claim(&mut self, place: u8, t: ThreadNo) -> Option<Claimed>
        requires holds { (set : SetFacts) × Holds set self.old.spaces self.old.rest
            self.old.refs.items self.old.next self.old.acts self.old.entered }
        ensures holds { (set : SetFacts) → Holds set self.old.spaces self.old.rest
            self.old.refs.items self.old.next self.old.acts self.old.entered
            → Holds set self.new.spaces self.new.rest
            self.new.refs.items self.new.next self.new.acts self.new.entered }
    {
        let Ref::Volatile(object) = self.named(place) else {
            return None;
        };
        Some(self.spaces.heap.claim(object, t))
    }

    /// The copy of a claimed object begins at the next lines that are free.
    pub fn place(&mut self, place: u8) -> bool
        requires holds { (set : SetFacts) × Holds set self.old.spaces self.old.rest
            self.old.refs.items self.old.next self.old.acts self.old.entered }
        ensures holds { (set : SetFacts) → Holds set self.old.spaces self.old.rest
            self.old.refs.items self.old.next self.old.acts self.old.entered
            → Holds set self.new.spaces self.new.rest
            self.new.refs.items self.new.next self.new.acts self.new.entered }
    {
        let Ref::Volatile(object) = self.named(place) else {
            return false;
        };
        let State::Claimed(_) = state_at(&self.spaces.heap.space, object) else {
            return false;
        };
        let line = self.next;
        let Some(end) = line.checked_add(self.spaces.heap.slots_at(object) / 8 + 1) else {
            return false;
        };
        if u64::from(end) > self.spaces.heap.memory.lines() {
            return false;
        }
        self.spaces.heap.copy_at(object, line);
        self.next = end;
        true
    }

    /// Copies the next line of an object that is being copied, and answers it.
    pub fn copy(&mut self, place: u8) -> Option<u32>
        requires holds { (set : SetFacts) × Holds set self.old.spaces self.old.rest
            self.old.refs.items self.old.next self.old.acts self.old.entered }
        ensures holds { (set : SetFacts) → Holds set self.old.spaces self.old.rest
            self.old.refs.items self.old.next self.old.acts self.old.entered
            → Holds set self.new.spaces self.new.rest
            self.new.refs.items self.new.next self.new.acts self.new.entered }
    {
        let Ref::Volatile(object) = self.named(place) else {
            return None;
        };
        let State::Copying(_, _) = state_at(&self.spaces.heap.space, object) else {
            return None;
        };
        let copied = self.spaces.heap.lines_copied(object);
        if self.spaces.heap.slots_at(object) / 8 < copied {
            return None;
        }
        Some(self.spaces.heap.copy_line(object))
    }

    /// Forwards an object all of whose lines are copied, and its monitor.
    pub fn forward(&mut self, place: u8) -> bool
        requires holds { (set : SetFacts) × Holds set self.old.spaces self.old.rest
            self.old.refs.items self.old.next self.old.acts self.old.entered }
        ensures holds { (set : SetFacts) → Holds set self.old.spaces self.old.rest
            self.old.refs.items self.old.next self.old.acts self.old.entered
            → Holds set self.new.spaces self.new.rest
            self.new.refs.items self.new.next self.new.acts self.new.entered }
    {
        let Ref::Volatile(object) = self.named(place) else {
            return false;
        };
        let State::Copying(_, line) = state_at(&self.spaces.heap.space, object) else {
            return false;
        };
        let copied = self.spaces.heap.lines_copied(object);
        if copied <= self.spaces.heap.slots_at(object) / 8 || self.entered > 1 {
            return false;
        }
        self.spaces.heap.forward(object);
        self.rest.monitors.rekey(
            Key::Object(Ref::Volatile(object)),
            Key::Object(Ref::Persistent(line)),
        );
        true
    }

    /// Seals a forwarded object.
    pub fn seal(&mut self, place: u8) -> bool
        requires holds { (set : SetFacts) × Holds set self.old.spaces self.old.rest
            self.old.refs.items self.old.next self.old.acts self.old.entered }
        ensures holds { (set : SetFacts) → Holds set self.old.spaces self.old.rest
            self.old.refs.items self.old.next self.old.acts self.old.entered
            → Holds set self.new.spaces self.new.rest
            self.new.refs.items self.new.next self.new.acts self.new.entered }
    {
        let Ref::Volatile(object) = self.named(place) else {
            return false;
        };
        let State::Converted(_, _) = state_at(&self.spaces.heap.space, object) else {
            return false;
        };
        self.spaces.heap.seal(object);
        true
    }
}
