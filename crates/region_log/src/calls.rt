// The calls of the image that a log's steps make, each with a touch before it.
ghost use Rattle.std.specs.Prelude.{◌≡◌, ◌≢◌, ◌⊎◌, ◌<◌, ◌≤◌, ◌+◌, ℕ, [], Ok, true, false, OnErr, All};
ghost use Rattle.ap_base.specs.Causes.{HasCause};
ghost use Rattle.image_layout.specs.Places.{logs, log_entries, min_lines, log_head_line, log_entry_line};
ghost use Rattle.line_memory.specs.Memory.{IsResident, IsWritten, OneCall};
ghost use Rattle.line_memory.specs.Moments.{KeepsShown};
ghost use Rattle.region_log.specs.Log.{logged_of};
ghost use Rattle.region_log.specs.Kept.{IsEntryWritten, IsCountWritten};
ghost use Rattle.region_log.specs.Stages.{HasMade, words_at, TouchesLine, HasEnded, words_to_end, TouchesLineToEnd};
ghost use Rattle.region_log.specs.Made.{entry_words, count_word, PutsThenCalls, Touches, Fences};

use crate::entry::{EndStage, Entry, EntryStage};
use ap_base::{Spot, ThreadNo};
use image_layout::{log_entry, log_head};
use line_image::{Image, ImageFailed};
use line_memory::LineMemory;

/// Whether a line is resident, with no call of the image. One that isn't is touched, which makes one call.
fn is_ready<I: Image>(memory: &mut LineMemory<I>, line: u32) -> Result<bool, ImageFailed>
    requires { line < memory.old.size }
    ensures ready { result ≡ Ok true → IsResident memory.old line × (memory.new ≡ memory.old) }
    ensures touched { result ≡ Ok false
        → OneCall memory.old memory.new × Touches line memory.old memory.new }
    ensures failed { OnErr result (OneCall memory.old memory.new × ¬ IsResident memory.old line) }
    ensures keeps { KeepsShown memory.old memory.new }
    ensures cause { HasCause memory.old.faults memory.new.faults result }
{
    if memory.resident(line) {
        return Ok(true);
    }
    memory.touch(line)?;
    Ok(false)
}

/// Writes the line of a word back: `true` once that is done.
pub(crate) fn write_line_of<I: Image>(
    memory: &mut LineMemory<I>,
    spot: Spot,
) -> Result<bool, ImageFailed>
    requires { spot.line < memory.old.size }
    ensures written { result ≡ Ok true → (w : ℕ) → IsWritten memory.new spot.line w }
    ensures touched { result ≡ Ok false → Touches spot.line memory.old memory.new }
    ensures keeps { KeepsShown memory.old memory.new }
    ensures one { OneCall memory.old memory.new }
    ensures cause { HasCause memory.old.faults memory.new.faults result }
{
    if !is_ready(memory, spot.line)? {
        return Ok(false);
    }
    memory.write_back(spot.line)?;
    Ok(true)
}

/// Stores the words of entry `n` and writes their line back: `true` once that is done.
pub(crate) fn write_entry<I: Image>(
    memory: &mut LineMemory<I>,
    thread: ThreadNo,
    n: u32,
    entry: Entry,
) -> Result<bool, ImageFailed>
    requires thread { thread < logs }
    requires room { n < log_entries }
    requires size { min_lines ≤ memory.old.size }
    ensures written { result ≡ Ok true
        → PutsThenCalls (entry_words thread n (logged_of entry)) memory.old memory.new
        × IsEntryWritten memory.new thread n (logged_of entry) }
    ensures touched { result ≡ Ok false
        → PutsThenCalls [] memory.old memory.new
        × Touches (log_entry_line thread n) memory.old memory.new }
    ensures failed { OnErr result (PutsThenCalls [] memory.old memory.new
        ⊎ PutsThenCalls (entry_words thread n (logged_of entry)) memory.old memory.new) }
    ensures one { OneCall memory.old memory.new }
    ensures cause { HasCause memory.old.faults memory.new.faults result }
{
    let place = log_entry(thread, n).unwrap();
    let old = Spot {
        line: place.line,
        word: place.word + 1,
    };
    if !is_ready(memory, place.line)? {
        return Ok(false);
    }
    memory.store(
        place,
        8 * u64::from(entry.spot.line) + u64::from(entry.spot.word),
    );
    memory.store(old, entry.old);
    memory.write_back(place.line)?;
    Ok(true)
}

/// Stores the count of a log and writes its line back: `true` once that is done.
pub(crate) fn write_count<I: Image>(
    memory: &mut LineMemory<I>,
    thread: ThreadNo,
    count: u32,
) -> Result<bool, ImageFailed>
    requires thread { thread < logs }
    requires size { min_lines ≤ memory.old.size }
    ensures written { result ≡ Ok true
        → PutsThenCalls (count_word thread count) memory.old memory.new
        × IsCountWritten memory.new thread count }
    ensures touched { result ≡ Ok false
        → PutsThenCalls [] memory.old memory.new
        × Touches (log_head_line thread) memory.old memory.new }
    ensures failed { OnErr result (PutsThenCalls [] memory.old memory.new
        ⊎ PutsThenCalls (count_word thread count) memory.old memory.new) }
    ensures one { OneCall memory.old memory.new }
    ensures cause { HasCause memory.old.faults memory.new.faults result }
{
    let head = log_head(thread);
    if !is_ready(memory, head.line)? {
        return Ok(false);
    }
    memory.store(head, u64::from(count));
    memory.write_back(head.line)?;
    Ok(true)
}

/// Makes the call that an entry needs at a stage: `true` once that is done, `false` where a line had to be touched.
pub(crate) fn add_call<I: Image>(
    memory: &mut LineMemory<I>,
    thread: ThreadNo,
    n: u32,
    entry: Entry,
    stage: EntryStage,
) -> Result<bool, ImageFailed>
    requires thread { thread < logs }
    requires room { n < log_entries }
    requires size { min_lines ≤ memory.old.size }
    ensures made { result ≡ Ok true
        → PutsThenCalls (words_at thread n entry stage) memory.old memory.new
        × HasMade thread n entry stage memory.old memory.new }
    ensures touched { result ≡ Ok false
        → PutsThenCalls [] memory.old memory.new
        × TouchesLine thread n stage memory.old memory.new }
    ensures failed { OnErr result (PutsThenCalls [] memory.old memory.new
        ⊎ PutsThenCalls (words_at thread n entry stage) memory.old memory.new) }
    ensures one { OneCall memory.old memory.new }
    ensures cause { HasCause memory.old.faults memory.new.faults result }
{
    match stage {
        EntryStage::Begun => write_entry(memory, thread, n, entry),
        EntryStage::Fenced | EntryStage::Counting => write_count(memory, thread, n + 1),
        EntryStage::Written | EntryStage::Counted => fence_all(memory),
    }
}

/// Makes the call that the end of a region needs at a stage: `true` once that is done, `false` where a line had to be
/// touched.
pub(crate) fn end_call<I: Image>(
    memory: &mut LineMemory<I>,
    thread: ThreadNo,
    entries: &[Entry],
    stage: EndStage,
) -> Result<bool, ImageFailed>
    requires thread { thread < logs }
    requires size { min_lines ≤ memory.old.size }
    requires places { All (λ e. e.spot.line < memory.old.size) entries.now }
    ensures made { result ≡ Ok true
        → PutsThenCalls (words_to_end thread stage) memory.old memory.new
        × HasEnded thread entries.now stage memory.old memory.new }
    ensures touched { result ≡ Ok false
        → PutsThenCalls [] memory.old memory.new
        × TouchesLineToEnd thread entries.now stage memory.old memory.new }
    ensures failed { OnErr result (PutsThenCalls [] memory.old memory.new
        ⊎ PutsThenCalls (words_to_end thread stage) memory.old memory.new) }
    ensures one { OneCall memory.old memory.new }
    ensures cause { HasCause memory.old.faults memory.new.faults result }
{
    match stage {
        EndStage::Writing(lines) => match entries.get(lines as usize) {
            Some(entry) => write_line_of(memory, entry.spot),
            None => fence_all(memory),
        },
        EndStage::AllFenced | EndStage::Clearing => write_count(memory, thread, 0),
        EndStage::Cleared => fence_all(memory),
    }
}

/// Fences. The answer is always `true`: no line has to be resident.
fn fence_all<I: Image>(memory: &mut LineMemory<I>) -> Result<bool, ImageFailed>
    ensures never { result ≢ Ok false }
    ensures durable { result ≡ Ok true → Fences memory.old memory.new }
    ensures keeps { KeepsShown memory.old memory.new }
    ensures one { OneCall memory.old memory.new }
    ensures cause { HasCause memory.old.faults memory.new.faults result }
{
    memory.fence()?;
    Ok(true)
}
