// Files in memory.
ghost use Rattle.std.specs.Prelude.{◌≡◌, ◌≤◌, ◌↔◌, [], IfOk, OnErr, IsErr, IsErrOf, Contains};
ghost use Rattle.ap_base.specs.Causes.{Rose, next_count};
ghost use Rattle.ap_base.specs.Sources.{Gives};

use crate::{ClassSource, NamedBytes, SourceError};
use std::alloc::Global;
use std::marker::Model;

/// A source of files in memory, whose calls fail exactly by a list of their numbers, from 1.
#[derive(Drop)]
pub struct MemorySource {
    // the last one first, so that the next one is taken from the end
    files: Vec<NamedBytes>,
    fails: Vec<u64>,
    calls: u64,
    faults: u64,
}

impl Model for MemorySource {
    ghost use Rattle.std.specs.Prelude.{reverse};
    ghost use Rattle.ap_base.specs.Sources.{SourceState};

    ghost Value = { SourceState };

    ghost view = { λ s. record { left = reverse s.files.items; fails = s.fails.items; calls = s.calls; faults = s.faults } };
}

impl MemorySource {
    /// A source of these files, in their order. Takes no memory.
    pub fn new(mut files: Vec<NamedBytes>, fails: Vec<u64>) -> MemorySource
        ensures made { result ≡ record { left = files.items; fails = fails.items; calls = 0; faults = 0 } }
    {
        files.reverse();
        MemorySource {
            files,
            fails,
            calls: 0,
            faults: 0,
        }
    }
}

impl ClassSource for MemorySource {
    ghost use Rattle.std.specs.Prelude.{Some};

    ghost faults = { λ s. s.faults };

    ghost left = { λ s. Some s.left };

    fn next(&mut self, _alloc: Global) -> Result<Option<NamedBytes>, SourceError>
        ensures file { IfOk result (λ file. Gives (Some self.old.left) file (Some self.new.left)) }
        ensures kept { OnErr result (Some self.new.left ≡ Some self.old.left) }
        ensures later { self.old.faults ≤ self.new.faults }
        ensures cause { IsErrOf result SourceError.Failed → Rose self.old.faults self.new.faults }

        ensures fails { IsErrOf result SourceError.Failed ↔ Contains self.old.fails (next_count self.old.calls) }
        ensures never { ¬ IsErrOf result SourceError.OutOfMemory }
        ensures calls { self.new.calls ≡ next_count self.old.calls }
        ensures same_fails { self.new.fails ≡ self.old.fails }
    {
        self.calls = self.calls.saturating_add(1);
        if self.fails.contains(&self.calls) {
            self.faults = self.faults.saturating_add(1);
            return Err(SourceError::Failed);
        }
        Ok(self.files.pop())
    }
}
