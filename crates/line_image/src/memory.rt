// An image in memory, which keeps its writes and fences.
ghost use Rattle.std.specs.Prelude.{◌≡◌, ◌<◌, ◌≤◌, ◌+◌, ◌-◌, ◌*◌, ◌/◌, ◌^◌, ◌⊎◌, ◌↔◌, ℕ, [], Some, IfOk, OnOk, OnErr, IsErr};
ghost use Rattle.std.specs.Prelude.{vec_capacity, length, get_or, slice_index, reverse, replicate, All, IsTrue};
ghost use Rattle.line_image.specs.Trace.{newest, versions_from, is_within, lines_after};
ghost use Rattle.line_image.specs.declared.effect.Effect.{Effect};

use crate::crash::crash_lines;
use crate::words::lines_of;
use crate::{Done, Effect, Image, ImageFailed};
use std::alloc::{AllocError, Global};

/// Which calls fail: those whose numbers, from 1, `calls` lists, every call from number `since` on, and every
/// write and fence past the first `room` writes and fences. No other call fails.
#[derive(Drop)]
pub struct Fails {
    pub calls: Vec<u64>,
    pub since: u64,
    pub room: u32,
}

impl Fails {
    ghost use Rattle.line_image.specs.Memory.{CallFails};

    fn has(&self, call: u64) -> bool
        ensures { IsTrue result ↔ CallFails self.now call }
    {
        self.calls.contains(&call) || self.since <= call
    }
}

/// An image in memory. It keeps its writes and fences, tells them, and fails exactly by its `Fails`.
#[derive(Drop)]
pub struct MemoryImage {
    first: Vec<[u64; 8]>,
    latest: Vec<[u64; 8]>,
    done: Vec<Effect>,
    room: u32,
    calls: u64,
    faults: u64,
    fails: Fails,
    ghost fits_room: { length done.items + room ≤ vec_capacity done },
    ghost same_size: { length latest.items ≡ length first.items },
    ghost reads: { (l : ℕ) → get_or latest.items l []
        ≡ newest (versions_from (get_or first.items l []) (reverse done.items) l) },
    ghost eights: { All (λ line. length line ≡ 8) first.items },
    ghost fits: { calls < 2 ^ 64 },
    ghost in_range: { All (λ (effect : Effect). IsTrue (is_within (length first.items) effect.done)) done.items },
    ghost so_far: { All (λ (effect : Effect). effect.at ≤ calls) (reverse done.items) },
}

/// Makes the lines what reads give after this was done.
fn change_lines(lines: &mut Vec<[u64; 8]>, done: Done)
    requires { IsTrue (is_within (length lines.old.items) done) }
    ensures { lines.new.items ≡ lines_after done lines.old.items }
{
    match done {
        Done::Wrote { line, words } => lines[line as usize] = words,
        Done::Fenced => {}
    }
}

impl MemoryImage {
    ghost use Rattle.line_image.specs.Memory.{size_of, trace_of, calls_of, faults_of, fails_of, room_of};
    ghost use Rattle.line_image.specs.Trace.{LeavesNow, IsAllFenced, read_word, did};
    ghost use Rattle.line_image.specs.Crash.{first_word, word_left};

    /// An image of so many lines, all zero. Takes the memory for all writes and fences that `fails` has room
    /// for.
    pub fn new(alloc: Global, lines: u64, fails: Fails) -> Result<MemoryImage, AllocError>
        ensures size { IfOk result (λ image. size_of image ≡ lines) }
        ensures zero { IfOk result (λ image. trace_of image
            ≡ record { first = replicate lines (replicate 8 0); done = [] }) }
        ensures fenced { IfOk result (λ image. IsAllFenced (Some (trace_of image))) }
        ensures uncalled { IfOk result (λ image. calls_of image ≡ 0) }
        ensures faultless { IfOk result (λ image. faults_of image ≡ 0) }
        ensures fails { IfOk result (λ image. fails_of image ≡ fails) }
        ensures room { IfOk result (λ image. room_of image ≡ fails.room) }
    {
        let first = vec![in alloc; [0; 8]; lines as usize]?;
        MemoryImage::of_lines(alloc, first, fails)
    }

    /// An image of these words, eight in a line; a rest of fewer than eight is left out. Takes memory as
    /// `new` does.
    pub fn of_words(alloc: Global, words: &[u64], fails: Fails) -> Result<MemoryImage, AllocError>
        ensures size { IfOk result (λ image. size_of image ≡ length words.now / 8) }
        ensures words { IfOk result (λ image. (l w : ℕ) → l < length words.now / 8 → w < 8
            → first_word (trace_of image) l w ≡ slice_index words.now (8 * l + w)) }
        ensures untouched { IfOk result (λ image. (trace_of image).done ≡ []) }
        ensures fenced { IfOk result (λ image. IsAllFenced (Some (trace_of image))) }
        ensures uncalled { IfOk result (λ image. calls_of image ≡ 0) }
        ensures faultless { IfOk result (λ image. faults_of image ≡ 0) }
        ensures fails { IfOk result (λ image. fails_of image ≡ fails) }
        ensures room { IfOk result (λ image. room_of image ≡ fails.room) }
    {
        let first = lines_of(alloc, words)?;
        MemoryImage::of_lines(alloc, first, fails)
    }

    /// One outcome of a stop now, as an image with these `fails`: `pick` 0 leaves in each word the fenced
    /// value, 1 the one that was written last, and any other number chooses by a generator. Takes memory as
    /// `new` does.
    pub fn crash(&self, alloc: Global, pick: u64, fails: Fails) -> Result<MemoryImage, AllocError>
        ensures size { IfOk result (λ image. size_of image ≡ size_of self.now) }
        ensures picked { IfOk result (λ image. (l w : ℕ) → l < size_of self.now → w < 8
            → first_word (trace_of image) l w ≡ word_left pick (trace_of self.now) l w) }
        ensures outcome { IfOk result
            (λ image. LeavesNow (Some (trace_of self.now)) (first_word (trace_of image))) }
        ensures untouched { IfOk result (λ image. (trace_of image).done ≡ []) }
        ensures fenced { IfOk result (λ image. IsAllFenced (Some (trace_of image))) }
        ensures uncalled { IfOk result (λ image. calls_of image ≡ 0) }
        ensures faultless { IfOk result (λ image. faults_of image ≡ 0) }
        ensures fails { IfOk result (λ image. fails_of image ≡ fails) }
        ensures room { IfOk result (λ image. room_of image ≡ fails.room) }
    {
        let first = crash_lines(alloc, &self.first, &self.latest, &self.done, pick)?;
        MemoryImage::of_lines(alloc, first, fails)
    }

    fn of_lines(
        alloc: Global,
        first: Vec<[u64; 8]>,
        fails: Fails,
    ) -> Result<MemoryImage, AllocError>
        requires { All (λ line. length line ≡ 8) first.items }
        ensures fresh { IfOk result (λ image. trace_of image ≡ record { first = first.items; done = [] }) }
        ensures uncalled { IfOk result (λ image. calls_of image ≡ 0) }
        ensures faultless { IfOk result (λ image. faults_of image ≡ 0) }
        ensures fails { IfOk result (λ image. fails_of image ≡ fails) }
        ensures room { IfOk result (λ image. room_of image ≡ fails.room) }
    {
        let latest = Vec::from_slice(alloc, &first)?;
        Ok(MemoryImage {
            first,
            latest,
            done: Vec::with_capacity(alloc, fails.room as usize)?,
            room: fails.room,
            calls: 0,
            faults: 0,
            fails,
        })
    }

    /// Adds to the trace what the call did, for which there is room.
    fn add(&mut self, done: Done)
        requires room { 0 < room_of self.old }
        requires within { IsTrue (is_within (size_of self.old) done) }
        ensures size { size_of self.new ≡ size_of self.old }
        ensures trace { Some (trace_of self.new) ≡ did done (calls_of self.old) (Some (trace_of self.old)) }
        ensures calls { calls_of self.new ≡ calls_of self.old }
        ensures faults { faults_of self.new ≡ faults_of self.old }
        ensures fails { fails_of self.new ≡ fails_of self.old }
        ensures room { room_of self.new ≡ room_of self.old - 1 }
    {
        self.room -= 1;
        self.done.push_reserved(Effect {
            at: self.calls,
            done,
        });
        change_lines(&mut self.latest, done);
    }

    /// What a read gives in a word.
    pub fn word(&self, line: u64, word: u8) -> u64
        requires line { line < size_of self.now }
        requires word { word < 8 }
        ensures reads { result ≡ read_word (trace_of self.now) line word }
    {
        self.latest[line as usize][word as usize]
    }
}

impl Image for MemoryImage {
    ghost use Rattle.ap_base.specs.Causes.{HasCause, next_count};
    ghost use Rattle.line_image.specs.Trace.{Reads, did};
    ghost use Rattle.line_image.specs.Memory.{told_of, faults_of, fails_of, room_of, CallFails, in_order_of};
    ghost use Rattle.line_image.specs.declared.effect.Done.TheVariants.{Wrote, Fenced};

    ghost told = { told_of };

    ghost faults = { faults_of };

    fn lines(&self) -> u64 {
        self.latest.len() as u64
    }

    fn read_line(&mut self, line: u64, into: &mut [u64; 8]) -> Result<(), ImageFailed>
        requires { line < (told_of self.old).size }
        ensures size { (told_of self.new).size ≡ (told_of self.old).size }
        ensures counted { (told_of self.new).calls ≡ next_count (told_of self.old).calls }
        ensures same { (told_of self.new).trace ≡ (told_of self.old).trace }
        ensures words { OnOk result (Reads (told_of self.old).trace line into.new) }
        ensures untouched { OnErr result (into.new ≡ into.old) }
        ensures cause { HasCause (faults_of self.old) (faults_of self.new) result }

        ensures fails { IsErr result ↔ CallFails (fails_of self.old) (told_of self.new).calls }
        ensures same_fails { fails_of self.new ≡ fails_of self.old }
        ensures same_room { room_of self.new ≡ room_of self.old }
    {
        self.calls = self.calls.saturating_add(1);
        if self.fails.has(self.calls) {
            self.faults = self.faults.saturating_add(1);
            return Err(ImageFailed);
        }
        *into = self.latest[line as usize];
        Ok(())
    }

    fn write_line(&mut self, line: u64, words: &[u64; 8]) -> Result<(), ImageFailed>
        requires { line < (told_of self.old).size }
        ensures size { (told_of self.new).size ≡ (told_of self.old).size }
        ensures counted { (told_of self.new).calls ≡ next_count (told_of self.old).calls }
        ensures written { OnOk result ((told_of self.new).trace
            ≡ did (Wrote line words.now) (told_of self.new).calls (told_of self.old).trace) }
        ensures failed { OnErr result (((told_of self.new).trace
            ≡ did (Wrote line words.now) (told_of self.new).calls (told_of self.old).trace)
            ⊎ ((told_of self.new).trace ≡ (told_of self.old).trace)) }
        ensures cause { HasCause (faults_of self.old) (faults_of self.new) result }

        ensures fails { IsErr result ↔ (CallFails (fails_of self.old) (told_of self.new).calls
            ⊎ (room_of self.old ≡ 0)) }
        ensures adds { 0 < room_of self.old → (told_of self.new).trace
            ≡ did (Wrote line words.now) (told_of self.new).calls (told_of self.old).trace }
        ensures full { room_of self.old ≡ 0 → (told_of self.new).trace ≡ (told_of self.old).trace }
        ensures same_fails { fails_of self.new ≡ fails_of self.old }
        ensures room { room_of self.new ≡ room_of self.old - 1 }
    {
        self.calls = self.calls.saturating_add(1);
        if self.room == 0 {
            self.faults = self.faults.saturating_add(1);
            return Err(ImageFailed);
        }
        self.add(Done::Wrote {
            line,
            words: *words,
        });
        if self.fails.has(self.calls) {
            self.faults = self.faults.saturating_add(1);
            return Err(ImageFailed);
        }
        Ok(())
    }

    fn fence(&mut self) -> Result<(), ImageFailed>
        ensures size { (told_of self.new).size ≡ (told_of self.old).size }
        ensures counted { (told_of self.new).calls ≡ next_count (told_of self.old).calls }
        ensures fenced { OnOk result ((told_of self.new).trace
            ≡ did Fenced (told_of self.new).calls (told_of self.old).trace) }
        ensures failed { OnErr result ((told_of self.new).trace ≡ (told_of self.old).trace) }
        ensures cause { HasCause (faults_of self.old) (faults_of self.new) result }

        ensures fails { IsErr result ↔ (CallFails (fails_of self.old) (told_of self.new).calls
            ⊎ (room_of self.old ≡ 0)) }
        ensures same_fails { fails_of self.new ≡ fails_of self.old }
        ensures room { room_of self.new ≡ room_of self.old - 1 }
    {
        self.calls = self.calls.saturating_add(1);
        let full = self.room == 0;
        if full || self.fails.has(self.calls) {
            self.room = self.room.saturating_sub(1);
            self.faults = self.faults.saturating_add(1);
            return Err(ImageFailed);
        }
        self.add(Done::Fenced);
        Ok(())
    }

    ghost in_order = { in_order_of };
}
