// The logs of all threads, with the guards of their open regions.
ghost use Rattle.std.specs.Prelude.{◌≡◌, ◌<◌, ◌+◌, ◌^◌, ◌-◌, ◌↔◌, min, ℕ, true, [], length, Some, IfOk, IfSome, IsNone, IsTrue};
ghost use Rattle.std.specs.Prelude.{slice_index_or};
ghost use Rattle.ap_base.specs.Causes.{HasCause};
ghost use Rattle.image_layout.specs.Places.{logs};
ghost use Rattle.image_meaning.specs.Logs.{may_be_logged};
ghost use Rattle.line_memory.specs.Memory.{Memory};
ghost use Rattle.region_log.specs.declared.entry.Entry.{Entry as LogEntry};
ghost use Rattle.region_log.specs.declared.entry.EntryStage.TheVariants.{Begun};
ghost use Rattle.region_log.specs.declared.entry.Underway.TheVariants.{Nothing, Adding};
ghost use Rattle.region_log.specs.Fencing.{fences_next};
ghost use Rattle.region_log.specs.Guarding.{is_adding};
ghost use Rattle.region_log.specs.Kept.{KeepsLog};
ghost use Rattle.region_log.specs.Log.{entry_of, most_entries};
ghost use Rattle.region_log.specs.Readers.{added_entry, is_ending};
ghost use Rattle.region_log.specs.Stages.{CanEnd};
ghost use Rattle.region_logs.specs.Calls.{LogsPart, EndsPart};
ghost use Rattle.region_logs.specs.Logs.{log_at, empty_log, HasGuarded, AreApart, OthersStay};

use crate::calls::{end_part, log_part};
use crate::table::{number, thread_of};
use ap_base::{Spot, ThreadNo};
use image_layout::LOGS;
use line_image::{Image, ImageFailed};
use line_memory::LineMemory;
use region_log::{EndStep, Entry, LogStep, RegionLog};
use std::alloc::{AllocError, Global};
use std::marker::Model;

/// The log of each thread, and by word of the image 0, or 1 + the thread whose open region has guarded it.
#[derive(Drop)]
pub struct Logs {
    logs: Vec<RegionLog>,
    table: Vec<u8>,
    lines: u32,
}

impl Model for Logs {
    ghost use Rattle.region_logs.specs.Logs.{AllLogs};
    ghost use Rattle.region_logs.specs.Table.{IsTable};

    ghost Value = { AllLogs };

    ghost view = { λ all. record { logs = all.logs.items; lines = all.lines } };

    ghost invariant = { λ all. IsTable all.logs.items all.lines all.table.items };
}

/// The empty logs of all threads.
fn empty_logs(alloc: Global) -> Result<Vec<RegionLog>, AllocError>
    ensures count { IfOk result (λ all. length all.items ≡ logs) }
    ensures empty { IfOk result (λ all. (t : ℕ) → slice_index_or all.items t (empty_log t) ≡ empty_log t) }
{
    let mut all = Vec::with_capacity(alloc, LOGS as usize)?;
    for n in 0..LOGS as u8 {
        all.push_reserved(RegionLog::new(alloc, ThreadNo::new(n).unwrap())?);
    }
    Ok(all)
}

impl Logs {
    /// The empty logs of all threads, over an image of so many lines, no word of which is guarded. Takes all the memory
    /// that they will need.
    pub fn reserve(alloc: Global, lines: u32) -> Result<Logs, AllocError>
        ensures empty { IfOk result (λ all. (t : ℕ) → log_at all t ≡ empty_log t) }
        ensures lines { IfOk result (λ all. all.lines ≡ lines) }
    {
        Ok(Logs {
            logs: empty_logs(alloc)?,
            table: vec![in alloc; 0u8; 8 * lines as usize]?,
            lines,
        })
    }

    /// Does nothing: at any time there are 64 logs, each its thread's, and no word is guarded by two threads.
    pub fn stand_apart(&self)
        ensures { AreApart self.now }
    {
        let _ = &self.lines;
    }

    /// How many regions of a thread are open, one within another.
    pub fn depth(&self, t: ThreadNo) -> u32
        ensures { result ≡ (log_at self.now t).depth }
    {
        self.logs[t.number() as usize].depth()
    }

    /// Whether no more words can be logged for a thread.
    pub fn is_full(&self, t: ThreadNo) -> bool
        ensures { IsTrue result ↔ (length (log_at self.now t).entries ≡ most_entries) }
    {
        self.logs[t.number() as usize].is_full()
    }

    /// Whether no word is logged for a thread.
    pub fn is_empty(&self, t: ThreadNo) -> bool
        ensures { IsTrue result ↔ ((log_at self.now t).entries ≡ []) }
    {
        self.logs[t.number() as usize].is_empty()
    }

    /// The entry that is being added to a thread's log.
    pub fn adding(&self, t: ThreadNo) -> Option<Entry>
        ensures { result ≡ added_entry (log_at self.now t).underway }
    {
        self.logs[t.number() as usize].adding()
    }

    /// Whether the end of a thread's region is under way.
    pub fn is_ending(&self, t: ThreadNo) -> bool
        ensures { result ≡ is_ending (log_at self.now t).underway }
    {
        self.logs[t.number() as usize].is_ending()
    }

    /// Whether the next call of the image that a thread's log makes is a fence.
    pub fn fences_next(&self, t: ThreadNo) -> bool
        ensures { result ≡ fences_next (log_at self.now t) }
    {
        self.logs[t.number() as usize].fences_next()
    }

    /// The thread whose open region has guarded a word. `None` exactly where none has.
    pub fn guard_of(&self, spot: Spot) -> Option<ThreadNo>
        requires { spot.line < self.now.lines }
        ensures some { IfSome result (λ t. HasGuarded self.now t spot) }
        ensures none { IsNone result ↔ ((t : ℕ) → ¬ HasGuarded self.now t spot) }
    {
        thread_of(self.table[number(spot)])
    }

    /// Opens a region of a thread, within the one that is open, if one is. The depth stays at 2^32 - 1.
    pub fn begin(&mut self, t: ThreadNo)
        requires { (log_at self.old t).underway ≡ Nothing }
        ensures opened { log_at self.new t
            ≡ record (log_at self.old t) { depth = min ((log_at self.old t).depth + 1) (2 ^ 32 - 1) } }
        ensures keeps { (m : Memory) → KeepsLog (log_at self.old t) m → KeepsLog (log_at self.new t) m }
        ensures others { OthersStay t self.old self.new }
    {
        let log = &mut self.logs[t.number() as usize];
        log.begin();
    }

    /// Guards a word for a thread's open region, and names it as the one that is to be logged next, with the value
    /// that it has.
    pub fn guard(&mut self, t: ThreadNo, spot: Spot, old: u64)
        requires within { spot.line < self.old.lines }
        requires open { 0 < (log_at self.old t).depth }
        requires idle { (log_at self.old t).underway ≡ Nothing }
        requires room { length (log_at self.old t).entries < most_entries }
        requires free { (s : ℕ) → ¬ HasGuarded self.old s spot }
        ensures named { log_at self.new t
            ≡ record (log_at self.old t) { underway = Adding (entry_of spot old) Begun } }
        ensures keeps { (m : Memory) → may_be_logged m.size spot.line ≡ true
            → KeepsLog (log_at self.old t) m → KeepsLog (log_at self.new t) m }
        ensures others { OthersStay t self.old self.new }
    {
        let log = &mut self.logs[t.number() as usize];
        log.guard(spot, old);
        self.table[number(spot)] = t.number() + 1;
    }

    /// Logs the word that a thread has guarded last, a part with each call, which makes one call of the image: `More`
    /// until the entry counts and that is durable, then `Logged`. After `More` or a fault the next call is this one.
    pub fn log_next<I: Image>(
        &mut self,
        t: ThreadNo,
        memory: &mut LineMemory<I>,
    ) -> Result<LogStep, ImageFailed>
        requires named { is_adding (log_at self.old t).underway ≡ true }
        requires open { 0 < (log_at self.old t).depth }
        requires keeps { KeepsLog (log_at self.old t) memory.old }
        ensures part { (e : LogEntry) → added_entry (log_at self.old t).underway ≡ Some e
            → LogsPart e (log_at self.old t) (log_at self.new t) memory.old memory.new result }
        ensures others { OthersStay t self.old self.new }
        ensures cause { HasCause memory.old.faults memory.new.faults result }
    {
        let log = &mut self.logs[t.number() as usize];
        log_part(log, memory)
    }

    /// Ends the innermost region of a thread, a part with each call, as its log does. Once the outermost has ended, the
    /// thread guards no word. After `More`, `AllFenced` or a fault the next call is this one.
    pub fn end_next<I: Image>(
        &mut self,
        t: ThreadNo,
        memory: &mut LineMemory<I>,
    ) -> Result<EndStep, ImageFailed>
        requires same { CanEnd (log_at self.old t).underway }
        requires open { 0 < (log_at self.old t).depth }
        requires keeps { KeepsLog (log_at self.old t) memory.old }
        ensures part { EndsPart (log_at self.old t) (log_at self.new t) memory.old memory.new result }
        ensures others { OthersStay t self.old self.new }
        ensures cause { HasCause memory.old.faults memory.new.faults result }
    {
        let log = &mut self.logs[t.number() as usize];
        end_part(log, &mut self.table, t, memory)
    }
}
