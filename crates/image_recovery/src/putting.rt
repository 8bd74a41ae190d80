// The entries of the logs are put back.
ghost use Rattle.std.specs.Prelude.{◌≡◌, ◌<◌, ◌≤◌, ◌+◌, ◌*◌, ◌/◌, ◌%◌, ◌++◌, ◌∷◌, ℕ, List, false, None, OnOk};
ghost use Rattle.ap_base.specs.Causes.{HasCause};
ghost use Rattle.line_memory.specs.Memory.{Memory, shown};
ghost use Rattle.image_layout.specs.Places.{min_lines, max_lines, logs, log_entries};
ghost use Rattle.image_meaning.specs.Checks.{Words};
ghost use Rattle.image_meaning.specs.Logs.{Logged, log_count, logged_at, log_of, logs_below, logs_fault, is_log_line};
ghost use Rattle.word_changes.specs.Changes.{Tells, AllKnown, ChangesTo, CallsAtMost, GoesOn};
ghost use Rattle.image_walk.specs.Walking.{Looks};
ghost use Rattle.image_recovery.specs.Putting.{LogsSay, IsPutBack, AllWritten, AllDurable, PutsBack, IsPutting};

use crate::spots::{entry_spot, head_spot};
use ap_base::Spot;
use image_layout::{LOG_ENTRIES, LOGS};
use line_image::{Image, ImageFailed};
use line_memory::LineMemory;
use word_changes::{fetch_line, make_fence, put_word, write_line};

/// Puts the entries of each log whose count isn't 0 back, the last entry first, logs 0 to 63 in order, writes their lines
/// and fences. The logs stay. They pass their checks, in a memory that was only looked at since.
pub fn put_back_logs<I: Image>(memory: &mut LineMemory<I>) -> Result<(), ImageFailed>
    requires enough { min_lines ≤ memory.old.size }
    requires most { memory.old.size ≤ max_lines }
    ensures shows { (first : Memory) → AllKnown first → Looks first memory.old → logs_fault first.size (shown first) ≡ None
        → OnOk result (PutsBack first memory.new) }
    ensures durable { (first : Memory) → Tells first → AllWritten first → Looks first memory.old
        → logs_fault first.size (shown first) ≡ None → OnOk result (AllDurable memory.new) }
    ensures written { (first : Memory) → Tells first → AllWritten first → Looks first memory.old
        → logs_fault first.size (shown first) ≡ None → OnOk result (AllWritten memory.new) }
    ensures changes { (first : Memory) → AllKnown first → Looks first memory.old → logs_fault first.size (shown first) ≡ None
        → ChangesTo (IsPutBack (shown first)) first memory.new }
    ensures goes_on { GoesOn memory.old memory.new }
    ensures calls { CallsAtMost memory.old memory.new (logs * log_entries + 1) }
    ensures cause { HasCause memory.old.faults memory.new.faults result }
{
    for thread in 0..LOGS as u8 {
        put_back_log(memory, thread)?;
    }
    make_fence(memory)
}

/// Puts the entries of one log back, behind those of the logs below it.
fn put_back_log<I: Image>(memory: &mut LineMemory<I>, thread: u8) -> Result<(), ImageFailed>
    requires enough { min_lines ≤ memory.old.size }
    requires most { memory.old.size ≤ max_lines }
    requires thread { thread < logs }
    ensures puts { (c : Words) (first : Memory) → logs_fault memory.old.size c ≡ None
        → IsPutting c (logs_below c thread) first memory.old
        → OnOk result (IsPutting c (log_of c thread ++ logs_below c thread) first memory.new) }
    ensures changes { (c : Words) (first : Memory) → logs_fault memory.old.size c ≡ None
        → IsPutting c (logs_below c thread) first memory.old → ChangesTo (IsPutBack c) first memory.new }
    ensures goes_on { GoesOn memory.old memory.new }
    ensures calls { CallsAtMost memory.old memory.new log_entries }
    ensures cause { HasCause memory.old.faults memory.new.faults result }
{
    let head = head_spot(thread);
    fetch_line(memory, head.line)?;
    let mut left = counted(memory.load(head));
    while left > 0 {
        left -= 1;
        put_back_entry(memory, thread, left)?;
    }
    Ok(())
}

/// How many entries a log has by its count.
fn counted(count: u64) -> u32
    ensures few { result ≤ log_entries }
    ensures same { count ≤ log_entries → result ≡ count }
{
    if count < u64::from(LOG_ENTRIES) {
        count as u32
    } else {
        LOG_ENTRIES
    }
}

/// Puts one entry of a log back.
fn put_back_entry<I: Image>(
    memory: &mut LineMemory<I>,
    thread: u8,
    n: u32,
) -> Result<(), ImageFailed>
    requires enough { min_lines ≤ memory.old.size }
    requires most { memory.old.size ≤ max_lines }
    requires thread { thread < logs }
    requires entry { n < log_entries }
    ensures puts { (c : Words) (first : Memory) (done : List Logged) → logs_fault memory.old.size c ≡ None
        → n < log_count c thread → IsPutting c done first memory.old
        → OnOk result (IsPutting c (logged_at c thread n ∷ done) first memory.new) }
    ensures changes { (c : Words) (first : Memory) (done : List Logged) → logs_fault memory.old.size c ≡ None
        → n < log_count c thread → IsPutting c done first memory.old → ChangesTo (IsPutBack c) first memory.new }
    ensures goes_on { GoesOn memory.old memory.new }
    ensures calls { CallsAtMost memory.old memory.new 1 }
    ensures cause { HasCause memory.old.faults memory.new.faults result }
{
    let spot = entry_spot(thread, n);
    fetch_line(memory, spot.line)?;
    let place = memory.load(spot);
    let old = memory.load(Spot {
        line: spot.line,
        word: spot.word + 1,
    });
    put_back_word(memory, place, old)
}

/// Stores the old word of a place and writes its line back. A place past the image's lines is left out.
fn put_back_word<I: Image>(
    memory: &mut LineMemory<I>,
    place: u64,
    old: u64,
) -> Result<(), ImageFailed>
    requires { memory.old.size ≤ max_lines }
    ensures puts { (c : Words) (first : Memory) (done : List Logged) → place / 8 < memory.old.size
        → is_log_line (place / 8) ≡ false → LogsSay c (place / 8) (place % 8) old → IsPutting c done first memory.old
        → OnOk result (IsPutting c ((record { place = place; old = old }) ∷ done) first memory.new) }
    ensures changes { (c : Words) (first : Memory) (done : List Logged) → place / 8 < memory.old.size
        → is_log_line (place / 8) ≡ false → LogsSay c (place / 8) (place % 8) old → IsPutting c done first memory.old
        → ChangesTo (IsPutBack c) first memory.new }
    ensures goes_on { GoesOn memory.old memory.new }
    ensures calls { CallsAtMost memory.old memory.new 1 }
    ensures cause { HasCause memory.old.faults memory.new.faults result }
{
    if place / 8 >= memory.lines() {
        return Ok(());
    }
    let spot = Spot {
        line: (place / 8) as u32,
        word: (place % 8) as u8,
    };
    fetch_line(memory, spot.line)?;
    put_word(memory, spot, old);
    write_line(memory, spot.line)
}
