// The lines that are left.
ghost use Rattle.std.specs.Prelude.{◌≡◌, ◌<◌, ◌+◌, ◌-◌, ◌↔◌, IfSome, IsNone, IsSome};
ghost use Rattle.persist_space.specs.Lines.{Lines};

use std::marker::Model;

/// The lines of an image from the first free one on, taken one after another and never given back.
#[derive(Drop)]
pub struct PersistSpace {
    free: u32,
    lines: u32,
}

impl Model for PersistSpace {
    ghost use Rattle.persist_space.specs.Lines.{Lines};

    ghost Value = { Lines };

    ghost view = { λ space. record { free = space.free; lines = space.lines } };
}

impl PersistSpace {
    /// The lines from `free` on of an image with so many lines. Takes no memory.
    pub fn new(free: u32, lines: u32) -> PersistSpace
        ensures made { result ≡ record { free = free; lines = lines } }
    {
        PersistSpace { free, lines }
    }

    /// How many lines are left.
    pub fn left(&self) -> u32
        ensures left { result ≡ self.now.lines - self.now.free }
    {
        self.lines.saturating_sub(self.free)
    }

    /// Takes the next lines, and answers the first one. `None` exactly where fewer are left.
    pub fn take(&mut self, lines: u32) -> Option<u32>
        ensures none { IsNone result ↔ (self.old.lines - self.old.free < lines) }
        ensures same { IsNone result → self.new ≡ self.old }
        ensures first { IfSome result (λ first. first ≡ self.old.free) }
        ensures free { IsSome result → self.new.free ≡ self.old.free + lines }
        ensures lines { self.new.lines ≡ self.old.lines }
    {
        if self.lines.saturating_sub(self.free) < lines {
            return None;
        }
        let first = self.free;
        self.free += lines;
        Some(first)
    }
}
