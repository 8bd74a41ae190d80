// Printed bytes in memory.
ghost use Rattle.std.specs.Prelude.{◌≡◌, ◌⊎◌, ◌<◌, ◌≤◌, ◌-◌, ◌↔◌, [], length, take, IfOk, IfSome, OnErr, OnOk, IsErr, Contains, Ok};
ghost use Rattle.ap_base.specs.Causes.{next_count};
ghost use Rattle.ap_base.specs.Sinks.{TakesBehind, with_bytes, share_of};

use crate::{Sink, SinkFailed};
use std::alloc::{AllocError, Global};
use std::marker::Model;

/// A sink in memory. It takes of each piece as many bytes as `most` and the room that is left allow, and fails exactly
/// at the calls whose numbers, from 1, are listed, and once its room is used up.
#[derive(Drop)]
pub struct MemorySink {
    bytes: Vec<u8>,
    room: u64,
    most: u64,
    fails: Vec<u64>,
    calls: u64,
    faults: u64,
}

impl Model for MemorySink {
    ghost use Rattle.std.specs.Prelude.{◌≤◌, ◌<◌, ◌+◌, length, vec_capacity};
    ghost use Rattle.ap_base.specs.Sinks.{SinkState};

    ghost Value = { SinkState };

    ghost view = { λ s. record { taken = s.bytes.items; room = s.room; most = s.most; fails = s.fails.items; calls = s.calls; faults = s.faults } };

    ghost invariant = { λ s. (0 < s.most) × (length s.bytes.items + s.room ≤ vec_capacity s.bytes) };
}

impl MemorySink {
    /// A sink that takes `room` bytes in all, and at most `most` of a piece.
    pub fn new(
        alloc: Global,
        room: u64,
        most: u64,
        fails: Vec<u64>,
    ) -> Result<MemorySink, AllocError>
        requires { 0 < most }
        ensures made { IfOk result (λ s. s ≡ record { taken = []; room = room; most = most; fails = fails.items; calls = 0; faults = 0 }) }
    {
        Ok(MemorySink {
            bytes: Vec::with_capacity(alloc, room as usize)?,
            room,
            most,
            fails,
            calls: 0,
            faults: 0,
        })
    }

    /// The bytes that it took.
    pub fn as_slice(&self) -> &[u8]
        ensures taken { result.now ≡ self.now.taken }
    {
        self.bytes.as_slice()
    }
}

impl Sink for MemorySink {
    ghost use Rattle.std.specs.Prelude.{Some};
    ghost use Rattle.ap_base.specs.Sinks.{share_of};

    ghost faults = { λ s. s.faults };

    ghost taken = { λ s. Some s.taken };

    ghost takes = { λ s further n. Some (share_of s further n) };

    fn put(&mut self, piece: &[u8]) -> Result<usize, SinkFailed>
        requires { 0 < length piece.now }
        ensures some { IfOk result (λ n. (0 < n) × (n ≤ length piece.now)) }
        ensures told { IfOk result (λ n. IfSome (Some (share_of self.old 0 (length piece.now))) (λ m. n ≡ m)) }
        ensures behind { IfOk result (λ n. TakesBehind (λ k m. Some (share_of self.old k m)) (λ k m. Some (share_of self.new k m)) n) }
        ensures stays { OnErr result (TakesBehind (λ k m. Some (share_of self.old k m)) (λ k m. Some (share_of self.new k m)) 0) }
        ensures taken { IfOk result (λ n. Some self.new.taken ≡ with_bytes (Some self.old.taken) (take n piece.now)) }
        ensures none { OnErr result (Some self.new.taken ≡ Some self.old.taken) }
        ensures unfailed { OnOk result (self.new.faults ≡ self.old.faults) }
        ensures failed { OnErr result (self.new.faults ≡ next_count self.old.faults) }
        ensures later { self.old.faults ≤ self.new.faults }

        ensures fails { IsErr result ↔ (Contains self.old.fails (next_count self.old.calls) ⊎ (self.old.room ≡ 0)) }
        ensures calls { self.new.calls ≡ next_count self.old.calls }
        ensures room { IfOk result (λ n. self.new.room ≡ self.old.room - n) }
        ensures same_room { OnErr result (self.new.room ≡ self.old.room) }
        ensures same_most { self.new.most ≡ self.old.most }
        ensures same_fails { self.new.fails ≡ self.old.fails }
    {
        self.calls = self.calls.saturating_add(1);
        if self.room == 0 || self.fails.contains(&self.calls) {
            self.faults = self.faults.saturating_add(1);
            return Err(SinkFailed);
        }
        let share = piece.len().min(self.most.min(self.room) as usize);
        if self.bytes.extend_from_slice(&piece[..share]).is_err() {
            self.faults = self.faults.saturating_add(1);
            return Err(SinkFailed);
        }
        self.room -= share as u64;
        Ok(share)
    }
}
