// A blank image is formatted.
ghost use Rattle.std.specs.Prelude.{◌≡◌, ◌<◌, ◌≤◌, ◌+◌, ◌/◌, ℕ, OnOk};
ghost use Rattle.ap_base.specs.Causes.{HasCause};
ghost use Rattle.line_memory.specs.Memory.{shown, IsDurable, IsResident, SameResident, SameImage};
ghost use Rattle.image_layout.specs.Places.{min_lines, logs, log_head_line, root_slots};
ghost use Rattle.word_changes.specs.Changes.{Tells, AllKnown, IsFixed, IsGiven, ChangesTo, GoesOn, WritesAll, AllFixed};
ghost use Rattle.word_changes.specs.Changes.{StopsLeave, CallsAtMost};
ghost use Rattle.directories.specs.Formatting.{IsFormatted, IsBlankOrFormatted, IsCleared, OfLines, OfSlots, OfCounts};
ghost use Rattle.directories.specs.Formatting.{OfCleared, OfSuperblock, OfFront, OfLayout, most_formatting_calls};

use ap_base::{Spot, ThreadNo};
use image_layout::{FIRST_DIRECTORY_LINE, FIRST_SLOT_LINE, LOGS, MAGIC, VERSION, log_head};
use line_image::{Image, ImageFailed};
use line_memory::LineMemory;
use word_changes::{fetch_line, make_fence, put_word, write_line};

/// Writes the layout of an image with an empty directory into a blank one: the root slots and the counts of the logs are cleared
/// and durable before words 1 to 3 of the superblock are stored, and all of these before the magic word is. So a stop leaves a
/// blank image or the whole layout. All other words stay. Takes 101 calls of the image at the most, and no memory.
pub fn format_image<I: Image>(memory: &mut LineMemory<I>) -> Result<(), ImageFailed>
    requires { min_lines ≤ memory.old.size }
    ensures formatted { AllKnown memory.old → OnOk result (IsFormatted memory.old.size (shown memory.new)) }
    ensures fixed { Tells memory.old → OnOk result (AllFixed (OfLayout memory.old.size) memory.new) }
    ensures durable { Tells memory.old → (l w : ℕ) → IsDurable memory.old l w
        → OnOk result (IsDurable memory.new l w) }
    ensures changes { ChangesTo (OfLayout memory.old.size) memory.old memory.new }
    // of the image before, only its first word has to be durable
    ensures stops { Tells memory.old → IsFixed memory.old 0 0 0
        → StopsLeave memory.old memory.new (IsBlankOrFormatted memory.old.size) }
    ensures order { Tells memory.old → StopsLeave memory.old memory.new (IsCleared memory.old) }
    ensures goes_on { GoesOn memory.old memory.new }
    ensures calls { CallsAtMost memory.old memory.new most_formatting_calls }
    ensures cause { HasCause memory.old.faults memory.new.faults result }
{
    write_front(memory)?;
    write_word(memory, Spot { line: 0, word: 0 }, MAGIC)?;
    make_fence(memory)
}

/// Writes all of the layout but the magic word, and makes it durable.
fn write_front<I: Image>(memory: &mut LineMemory<I>) -> Result<(), ImageFailed>
    requires { min_lines ≤ memory.old.size }
    ensures wrote { OnOk result (WritesAll (OfFront memory.old.size) memory.old memory.new) }
    ensures fixed { Tells memory.old → OnOk result (AllFixed (OfFront memory.old.size) memory.new) }
    ensures changes { ChangesTo (OfFront memory.old.size) memory.old memory.new }
    ensures order { Tells memory.old → StopsLeave memory.old memory.new (IsCleared memory.old) }
    ensures goes_on { GoesOn memory.old memory.new }
    ensures calls { CallsAtMost memory.old memory.new (root_slots / 8 + logs + 3) }
    ensures cause { HasCause memory.old.faults memory.new.faults result }
{
    clear_front(memory)?;
    write_superblock(memory)?;
    make_fence(memory)
}

/// Clears the root slots and the counts of the logs, and makes that durable.
fn clear_front<I: Image>(memory: &mut LineMemory<I>) -> Result<(), ImageFailed>
    requires { min_lines ≤ memory.old.size }
    ensures wrote { OnOk result (WritesAll OfCleared memory.old memory.new) }
    ensures fixed { Tells memory.old → OnOk result (AllFixed OfCleared memory.new) }
    ensures changes { ChangesTo OfCleared memory.old memory.new }
    ensures goes_on { GoesOn memory.old memory.new }
    ensures calls { CallsAtMost memory.old memory.new (root_slots / 8 + logs + 1) }
    ensures cause { HasCause memory.old.faults memory.new.faults result }
{
    clear_slots(memory)?;
    clear_counts(memory)?;
    make_fence(memory)
}

/// Clears the root slots and writes their lines.
fn clear_slots<I: Image>(memory: &mut LineMemory<I>) -> Result<(), ImageFailed>
    requires { min_lines ≤ memory.old.size }
    ensures wrote { OnOk result (WritesAll OfSlots memory.old memory.new) }
    ensures changes { ChangesTo OfSlots memory.old memory.new }
    ensures goes_on { GoesOn memory.old memory.new }
    ensures calls { CallsAtMost memory.old memory.new (root_slots / 8) }
    ensures cause { HasCause memory.old.faults memory.new.faults result }
{
    for line in FIRST_SLOT_LINE..FIRST_DIRECTORY_LINE {
        clear_line(memory, line)?;
    }
    Ok(())
}

/// Clears a line and writes it.
fn clear_line<I: Image>(memory: &mut LineMemory<I>, line: u32) -> Result<(), ImageFailed>
    requires { line < memory.old.size }
    ensures wrote { OnOk result (WritesAll (OfLines line (line + 1)) memory.old memory.new) }
    ensures changes { ChangesTo (OfLines line (line + 1)) memory.old memory.new }
    ensures goes_on { GoesOn memory.old memory.new }
    ensures calls { CallsAtMost memory.old memory.new 1 }
    ensures cause { HasCause memory.old.faults memory.new.faults result }
{
    fetch_line(memory, line)?;
    clear_words(memory, line);
    write_line(memory, line)
}

/// Clears the words of a resident line.
fn clear_words<I: Image>(memory: &mut LineMemory<I>, line: u32)
    requires { IsResident memory.old line }
    ensures shows { (w : ℕ) → w < 8 → shown memory.new line w ≡ 0 }
    ensures changes { ChangesTo (OfLines line (line + 1)) memory.old memory.new }
    ensures resident { SameResident memory.old memory.new }
    ensures same { SameImage memory.old memory.new }
{
    for word in 0..8 {
        put_word(memory, Spot { line, word }, 0);
    }
}

/// Clears the count of each log and writes its line.
fn clear_counts<I: Image>(memory: &mut LineMemory<I>) -> Result<(), ImageFailed>
    requires { min_lines ≤ memory.old.size }
    ensures wrote { OnOk result (WritesAll (OfCounts logs) memory.old memory.new) }
    ensures changes { ChangesTo (OfCounts logs) memory.old memory.new }
    ensures goes_on { GoesOn memory.old memory.new }
    ensures calls { CallsAtMost memory.old memory.new logs }
    ensures cause { HasCause memory.old.faults memory.new.faults result }
{
    for thread in 0..LOGS as u8 {
        let count = count_spot(thread);
        write_word(memory, count, 0)?;
    }
    Ok(())
}

/// The word that counts the entries of a log.
fn count_spot(thread: u8) -> Spot
    requires { thread < logs }
    ensures line { result.line ≡ log_head_line thread }
    ensures word { result.word ≡ 0 }
{
    log_head(ThreadNo::new(thread).unwrap())
}

/// Stores words 1 to 3 of the superblock of an empty directory and writes their line.
fn write_superblock<I: Image>(memory: &mut LineMemory<I>) -> Result<(), ImageFailed>
    requires { min_lines ≤ memory.old.size }
    ensures wrote { OnOk result (WritesAll (OfSuperblock memory.old.size) memory.old memory.new) }
    ensures changes { ChangesTo (OfSuperblock memory.old.size) memory.old memory.new }
    ensures goes_on { GoesOn memory.old memory.new }
    ensures calls { CallsAtMost memory.old memory.new 1 }
    ensures cause { HasCause memory.old.faults memory.new.faults result }
{
    let lines = memory.lines();
    fetch_line(memory, 0)?;
    put_word(memory, Spot { line: 0, word: 1 }, VERSION);
    put_word(memory, Spot { line: 0, word: 2 }, lines);
    put_word(memory, Spot { line: 0, word: 3 }, 0);
    write_line(memory, 0)
}

/// Stores a word and writes its line.
fn write_word<I: Image>(
    memory: &mut LineMemory<I>,
    spot: Spot,
    word: u64,
) -> Result<(), ImageFailed>
    requires { spot.line < memory.old.size }
    ensures wrote { OnOk result (WritesAll (IsGiven spot.line spot.word word) memory.old memory.new) }
    ensures changes { ChangesTo (IsGiven spot.line spot.word word) memory.old memory.new }
    ensures goes_on { GoesOn memory.old memory.new }
    ensures calls { CallsAtMost memory.old memory.new 1 }
    ensures cause { HasCause memory.old.faults memory.new.faults result }
{
    fetch_line(memory, spot.line)?;
    put_word(memory, spot, word);
    write_line(memory, spot.line)
}
