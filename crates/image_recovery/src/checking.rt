// The logs are checked.
ghost use Rattle.std.specs.Prelude.{◌≡◌, ◌<◌, ◌≤◌, ◌+◌, ◌++◌, ◌==◌, if◌then◌else◌, None, OnOk, IfOk, IfErr};
ghost use Rattle.ap_base.specs.Causes.{HasCauseOf};
ghost use Rattle.line_memory.specs.Memory.{Memory, shown};
ghost use Rattle.image_layout.specs.declared.superblock.BadReason.TheVariants.{LogCount};
ghost use Rattle.image_layout.specs.Places.{min_lines, logs, log_entries};
ghost use Rattle.image_meaning.specs.Logs.{log_count, log_of, logs_below, may_be_logged, entry_fault, log_fault, logs_fault};
ghost use Rattle.image_meaning.specs.Logs.{first_logged};
ghost use Rattle.word_changes.specs.Changes.{AllKnown};
ghost use Rattle.image_walk.specs.Walking.{Looks, IsFault};
ghost use Rattle.image_walk.specs.declared.fault.RecoverFault.TheVariants.{Bad};
ghost use Rattle.image_recovery.specs.Checked.{HasPlaces, undone_of};

use crate::spots::{entry_spot, head_spot};
use image_layout::{BadReason, FIRST_OBJECT_LINE, FIRST_SLOT_LINE, LOG_ENTRIES, LOGS, ROOT_SLOTS};
use image_walk::{RecoverFault, read_word};
use line_image::Image;
use line_memory::LineMemory;
use std::alloc::Global;
use std::collections::BTreeSet;

/// Checks the counts of the logs and the places of their counted entries, log by log: `Bad` exactly where one of these
/// checks fails, the first one, in a memory that was only looked at since. Answers how many logs have entries. Takes memory
/// for each place.
pub fn check_logs<I: Image>(alloc: Global, memory: &mut LineMemory<I>) -> Result<u32, RecoverFault>
    requires { min_lines ≤ memory.old.size }
    ensures passes { (first : Memory) → AllKnown first → Looks first memory.old
        → OnOk result (logs_fault first.size (shown first) ≡ None) }
    ensures undone { (first : Memory) → AllKnown first → Looks first memory.old
        → IfOk result (λ undone. undone ≡ undone_of (shown first)) }
    ensures bad { (first : Memory) → AllKnown first → Looks first memory.old
        → IfErr result (IsFault (logs_fault first.size (shown first))) }
    ensures looks { Looks memory.old memory.new }
    ensures cause { HasCauseOf RecoverFault.ImageFailed memory.old.faults memory.new.faults result }
{
    let mut places = BTreeSet::new(alloc);
    let mut undone = 0;
    for thread in 0..LOGS as u8 {
        let count = check_log(memory, &mut places, thread)?;
        undone += one_if_some(count);
    }
    Ok(undone)
}

/// One for a log with entries, and nothing for one without.
fn one_if_some(entries: u32) -> u32
    ensures { result ≡ (if entries == 0 then 0 else 1) }
{
    if entries == 0 { 0 } else { 1 }
}

/// Checks one log behind those below it, whose places are these. Answers how many entries it counts.
fn check_log<I: Image>(
    memory: &mut LineMemory<I>,
    places: &mut BTreeSet<u64>,
    thread: u8,
) -> Result<u32, RecoverFault>
    requires enough { min_lines ≤ memory.old.size }
    requires thread { thread < logs }
    ensures passes { (first : Memory) → AllKnown first → Looks first memory.old
        → HasPlaces places.old (logs_below (shown first) thread)
        → OnOk result (log_fault first.size (shown first) thread ≡ None) }
    ensures count { (first : Memory) → AllKnown first → Looks first memory.old
        → IfOk result (λ count. count ≡ log_count (shown first) thread) }
    ensures places { (first : Memory) → AllKnown first → Looks first memory.old
        → HasPlaces places.old (logs_below (shown first) thread)
        → OnOk result (HasPlaces places.new (log_of (shown first) thread ++ logs_below (shown first) thread)) }
    ensures bad { (first : Memory) → AllKnown first → Looks first memory.old
        → HasPlaces places.old (logs_below (shown first) thread)
        → IfErr result (IsFault (log_fault first.size (shown first) thread)) }
    ensures looks { Looks memory.old memory.new }
    ensures cause { HasCauseOf RecoverFault.ImageFailed memory.old.faults memory.new.faults result }
{
    let head = head_spot(thread);
    let word = read_word(memory, head)?;
    let count = check_count(head.line, word)?;
    for n in 0..count {
        check_entry(memory, places, thread, n)?;
    }
    Ok(count)
}

/// Checks the count of a log whose head is at this line.
fn check_count(line: u32, count: u64) -> Result<u32, RecoverFault>
    ensures same { IfOk result (λ n. n ≡ count) }
    ensures few { IfOk result (λ n. n ≤ log_entries) }
    ensures many { IfErr result (λ fault. log_entries < count) }
    ensures bad { IfErr result (λ fault. fault ≡ Bad line LogCount) }
{
    if count > u64::from(LOG_ENTRIES) {
        return Err(RecoverFault::Bad {
            line,
            reason: BadReason::LogCount,
        });
    }
    Ok(count as u32)
}

/// Checks the place of one entry of a log: it may be logged, and isn't among these, to which it is added.
fn check_entry<I: Image>(
    memory: &mut LineMemory<I>,
    places: &mut BTreeSet<u64>,
    thread: u8,
    n: u32,
) -> Result<(), RecoverFault>
    requires enough { min_lines ≤ memory.old.size }
    requires thread { thread < logs }
    requires entry { n < log_entries }
    ensures passes { (first : Memory) → AllKnown first → Looks first memory.old
        → HasPlaces places.old (first_logged (shown first) thread n ++ logs_below (shown first) thread)
        → OnOk result (entry_fault first.size (shown first) thread n ≡ None) }
    ensures places { (first : Memory) → AllKnown first → Looks first memory.old
        → HasPlaces places.old (first_logged (shown first) thread n ++ logs_below (shown first) thread)
        → OnOk result (HasPlaces places.new (first_logged (shown first) thread (n + 1) ++ logs_below (shown first) thread)) }
    ensures bad { (first : Memory) → AllKnown first → Looks first memory.old
        → HasPlaces places.old (first_logged (shown first) thread n ++ logs_below (shown first) thread)
        → IfErr result (IsFault (entry_fault first.size (shown first) thread n)) }
    ensures looks { Looks memory.old memory.new }
    ensures cause { HasCauseOf RecoverFault.ImageFailed memory.old.faults memory.new.faults result }
{
    let spot = entry_spot(thread, n);
    let place = read_word(memory, spot)?;
    let bad = RecoverFault::Bad {
        line: spot.line,
        reason: BadReason::LogPlace,
    };
    if !may_be_logged(memory.lines(), place / 8) {
        return Err(bad);
    }
    if !places.insert(place)? {
        return Err(bad);
    }
    Ok(())
}

/// Whether a place at this line of an image of so many may be logged: a root slot, or in an object line.
fn may_be_logged(size: u64, line: u64) -> bool
    ensures { result ≡ may_be_logged size line }
{
    let past_slots = u64::from(FIRST_SLOT_LINE + ROOT_SLOTS / 8);
    (u64::from(FIRST_SLOT_LINE) <= line && line < past_slots)
        || (u64::from(FIRST_OBJECT_LINE) <= line && line < size)
}
