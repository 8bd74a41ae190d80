// A thread's log, an image call at a time.
ghost use Rattle.std.specs.Prelude.{◌≡◌, ◌≢◌, ◌⊎◌, ◌<◌, ◌+◌, ◌-◌, ◌^◌, min, ℕ, ◌↔◌, true, [], length, Ok, OnErr, IfOk, IsTrue};
ghost use Rattle.ap_base.specs.Causes.{HasCause};
ghost use Rattle.image_meaning.specs.Logs.{may_be_logged};
ghost use Rattle.line_memory.specs.Memory.{Memory, shown, OneCall};
ghost use Rattle.region_log.specs.Log.{Log, IsLogged, entry_of, most_entries};
ghost use Rattle.region_log.specs.Kept.{KeepsLog, KeepsRegion};
ghost use Rattle.region_log.specs.Fencing.{fences_next};
ghost use Rattle.region_log.specs.Readers.{added_entry, is_ending, is_cleared};
ghost use Rattle.region_log.specs.Stages.{CanAdd, CanEnd, EndsAtOnce};
ghost use Rattle.region_log.specs.Steps.{StepsOn, TouchesFor, AddsOn, AddsEntry, FailsToAdd, TouchesToEnd, EndsOn};
ghost use Rattle.region_log.specs.Steps.{FencesRegion, EndsLog, FailsToEnd};

use crate::calls::{add_call, end_call};
use crate::entry::{EndStage, Entry, EntryStage, Underway, is_logged};
use ap_base::{Spot, ThreadNo};
use image_layout::LOG_ENTRIES;
use line_image::{Image, ImageFailed};
use line_memory::LineMemory;
use std::alloc::{AllocError, Global};
use std::marker::Model;

/// How many entries a thread's log can have: as many as its own lines hold.
const MOST_ENTRIES: u32 = LOG_ENTRIES;

/// What a call that logs a word did: a part of it, the last part of it, or nothing, since the log is full.
#[derive(Clone, Copy)]
pub enum LogStep {
    More,
    Logged,
    Full,
}

/// What a call that ends a region did: a part of it, the fence behind all logged lines, or the last part of it.
#[derive(Clone, Copy)]
pub enum EndStep {
    More,
    AllFenced,
    Ended,
}

/// The log of a thread. Nested regions are one: it has the words that they logged, and is emptied as the outermost ends.
#[derive(Drop)]
pub struct RegionLog {
    thread: ThreadNo,
    depth: u32,
    entries: Vec<Entry>,
    underway: Underway,
}

impl Model for RegionLog {
    ghost use Rattle.std.specs.Prelude.{◌≤◌, length, vec_capacity};
    ghost use Rattle.region_log.specs.Log.{Log, most_entries};

    ghost Value = { Log };

    ghost view = { λ log. record {
      thread = log.thread;
      depth = log.depth;
      entries = log.entries.items;
      underway = log.underway;
    } };

    ghost invariant = { λ log.
        (length log.entries.items ≤ most_entries) × (most_entries ≤ vec_capacity log.entries) };
}

impl RegionLog {
    /// The empty log of a thread, no region of which is open. Takes all the memory that it will need.
    pub fn new(alloc: Global, thread: ThreadNo) -> Result<RegionLog, AllocError>
        ensures { IfOk result (λ log. log
            ≡ record { thread = thread; depth = 0; entries = []; underway = Underway.Nothing }) }
    {
        Ok(RegionLog {
            thread,
            depth: 0,
            entries: Vec::with_capacity(alloc, MOST_ENTRIES as usize)?,
            underway: Underway::Nothing,
        })
    }

    /// Opens a region, within the one that is open, if one is. The depth stays at 2^32 - 1.
    pub fn begin(&mut self)
        requires { self.old.underway ≡ Underway.Nothing }
        ensures opened { self.new
            ≡ record self.old { depth = min (self.old.depth + 1) (2 ^ 32 - 1) } }
        ensures keeps { (m : Memory) → KeepsLog self.old m → KeepsLog self.new m }
    {
        self.depth = self.depth.saturating_add(1);
    }

    /// How many regions are open, one within another.
    pub fn depth(&self) -> u32
        ensures { result ≡ self.now.depth }
    {
        self.depth
    }

    /// Whether a word is logged.
    pub fn logged(&self, spot: Spot) -> bool
        ensures { IsTrue result ↔ IsLogged self.now.entries spot }
    {
        is_logged(&self.entries, spot)
    }

    /// The entries, in the order in which they were added.
    pub fn entries(&self) -> &[Entry]
        ensures { result.now ≡ self.now.entries }
    {
        self.entries.as_slice()
    }

    /// Whether no more words can be logged.
    pub fn is_full(&self) -> bool
        ensures { IsTrue result ↔ (length self.now.entries ≡ most_entries) }
    {
        self.entries.len() == MOST_ENTRIES as usize
    }

    /// Whether no word is logged.
    pub fn is_empty(&self) -> bool
        ensures { IsTrue result ↔ (self.now.entries ≡ []) }
    {
        self.entries.is_empty()
    }

    /// The entry that is being added.
    pub fn adding(&self) -> Option<Entry>
        ensures { result ≡ added_entry self.now.underway }
    {
        self.underway.entry()
    }

    /// Whether the end of a region is under way.
    pub fn is_ending(&self) -> bool
        ensures { result ≡ is_ending self.now.underway }
    {
        self.underway.is_ending()
    }

    /// Whether the end of a region is under way, with its last fence left.
    pub fn is_cleared(&self) -> bool
        ensures { result ≡ is_cleared self.now.underway }
    {
        self.underway.is_cleared()
    }

    /// Whether the next call of the image is a fence. What was written back before it, by whomever, is durable then.
    pub fn fences_next(&self) -> bool
        ensures { result ≡ fences_next self.now }
    {
        self.underway.is_fence_next(self.entries.len() as u32)
    }

    /// Names the word that is to be logged next, and the value that it has. From then on it is guarded; `log_next`
    /// with both logs it.
    pub fn guard(&mut self, spot: Spot, old: u64)
        requires open { 0 < self.old.depth }
        requires idle { self.old.underway ≡ Underway.Nothing }
        requires room { length self.old.entries < most_entries }
        requires unlogged { ¬ IsLogged self.old.entries spot }
        ensures named { self.new
            ≡ record self.old { underway = Underway.Adding (entry_of spot old) EntryStage.Begun } }
        ensures keeps { (m : Memory) → may_be_logged m.size spot.line ≡ true
            → KeepsLog self.old m → KeepsLog self.new m }
    {
        self.underway = Underway::Adding(Entry { spot, old }, EntryStage::Begun);
    }

    /// Logs a word with the value that it shows, a part with each call: `More` until the entry counts and that is
    /// durable, `Full` exactly where there are 1,024 entries. Each part makes one call of the image. After `More` or a
    /// fault the next call is this one, with the same word and value.
    pub fn log_next<I: Image>(
        &mut self,
        memory: &mut LineMemory<I>,
        spot: Spot,
        old: u64,
    ) -> Result<LogStep, ImageFailed>
        requires depth { 0 < self.old.depth }
        requires keeps { KeepsLog self.old memory.old }
        requires place { may_be_logged memory.old.size spot.line ≡ true }
        requires unlogged { ¬ IsLogged self.old.entries spot }
        requires same { CanAdd self.old.underway (entry_of spot old) }
        requires shown { self.old.underway ≡ Underway.Nothing
            → old ≡ shown memory.old spot.line spot.word }

        ensures full { (result ≡ Ok LogStep.Full)
            ↔ ((self.old.underway ≡ Underway.Nothing) × (length self.old.entries ≡ most_entries)) }
        ensures unchanged { result ≡ Ok LogStep.Full
            → (self.new ≡ self.old) × (memory.new ≡ memory.old) }
        ensures more { result ≡ Ok LogStep.More
            → TouchesFor (entry_of spot old) self.old self.new memory.old memory.new
            ⊎ AddsOn (entry_of spot old) self.old self.new memory.old memory.new }
        ensures logged { result ≡ Ok LogStep.Logged
            → AddsEntry (entry_of spot old) self.old self.new memory.old memory.new }
        ensures failed { OnErr result
            (FailsToAdd (entry_of spot old) self.old self.new memory.old memory.new) }

        ensures one_call { result ≢ Ok LogStep.Full → OneCall memory.old memory.new }
        ensures steps { StepsOn self.old self.new memory.old memory.new }
        ensures cause { HasCause memory.old.faults memory.new.faults result }
    {
        let entry = Entry { spot, old };
        if self.entries.len() >= MOST_ENTRIES as usize {
            return Ok(LogStep::Full);
        }
        let stage = self.underway.entry_stage();
        let n = self.entries.len() as u32;
        self.underway = Underway::Adding(entry, stage.if_failed());
        if !add_call(memory, self.thread, n, entry, stage)? {
            self.underway = Underway::Adding(entry, stage);
            return Ok(LogStep::More);
        }
        if matches!(stage, EntryStage::Counted) {
            self.entries.push_reserved(entry);
            self.underway = Underway::Nothing;
            return Ok(LogStep::Logged);
        }
        self.underway = Underway::Adding(entry, stage.next());
        Ok(LogStep::More)
    }

    /// Ends the innermost region: one within another at once, with no call of the image. The outermost is ended a part
    /// with each call, one call of the image each: the line of each logged word is written back and `More` is answered,
    /// then all are fenced, which is `AllFenced`, then the log is emptied. A region that logged nothing ends at once.
    /// After `More`, `AllFenced` or a fault the next call is this one.
    pub fn end_next<I: Image>(&mut self, memory: &mut LineMemory<I>) -> Result<EndStep, ImageFailed>
        requires depth { 0 < self.old.depth }
        requires keeps { KeepsLog self.old memory.old }
        requires same { CanEnd self.old.underway }

        ensures at_once { EndsAtOnce self.old → (result ≡ Ok EndStep.Ended)
            × (self.new ≡ record self.old { depth = self.old.depth - 1 })
            × (memory.new ≡ memory.old) }
        ensures more { result ≡ Ok EndStep.More
            → TouchesToEnd self.old self.new memory.old memory.new
            ⊎ EndsOn self.old self.new memory.old memory.new }
        ensures fenced { result ≡ Ok EndStep.AllFenced
            → FencesRegion self.old self.new memory.old memory.new }
        ensures ended { result ≡ Ok EndStep.Ended → ¬ EndsAtOnce self.old
            → EndsLog self.old self.new memory.old memory.new }
        ensures failed { OnErr result (FailsToEnd self.old self.new memory.old memory.new) }

        ensures one_call { ¬ EndsAtOnce self.old → OneCall memory.old memory.new }
        ensures steps { StepsOn self.old self.new memory.old memory.new }
        ensures region { KeepsRegion self.old memory.old → KeepsRegion self.new memory.new }
        ensures cause { HasCause memory.old.faults memory.new.faults result }
    {
        if self.depth > 1 || self.entries.is_empty() {
            self.depth -= 1;
            return Ok(EndStep::Ended);
        }
        let stage = self.underway.end_stage();
        let n = self.entries.len() as u32;
        self.underway = Underway::Ending(stage.if_failed());
        if !end_call(memory, self.thread, &self.entries, stage)? {
            self.underway = Underway::Ending(stage);
            return Ok(EndStep::More);
        }
        if matches!(stage, EndStage::Cleared) {
            self.entries.clear();
            self.underway = Underway::Nothing;
            self.depth = 0;
            return Ok(EndStep::Ended);
        }
        let next = stage.next(n);
        self.underway = Underway::Ending(next);
        if matches!(next, EndStage::AllFenced) {
            return Ok(EndStep::AllFenced);
        }
        Ok(EndStep::More)
    }
}
