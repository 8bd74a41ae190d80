// Words that are written to lines.
ghost use Rattle.std.specs.Prelude.{◌≡◌, ◌<◌, ◌≤◌, ◌+◌, ◌*◌, ℕ, OnOk, drop, slice_index_or, List};
ghost use Rattle.ap_base.specs.Causes.{HasCause};
ghost use Rattle.line_memory.specs.Memory.{shown, IsResident, SameResident, SameImage};
ghost use Rattle.image_layout.specs.Places.{max_lines};
ghost use Rattle.word_changes.specs.Changes.{IsGiven, ChangesTo, GoesOn, WritesAll};
ghost use Rattle.image_compact.specs.Writing.{OfWords};

use ap_base::Spot;
use line_image::{Image, ImageFailed};
use line_memory::LineMemory;
use word_changes::{fetch_line, put_word, write_line};

/// Writes words to so many lines from one on, eight a line, and zeros behind them.
pub(crate) fn write_words<I: Image>(
    memory: &mut LineMemory<I>,
    from: u32,
    count: u32,
    words: &[u64],
) -> Result<(), ImageFailed>
    requires within { from + count ≤ memory.old.size }
    requires most { memory.old.size ≤ max_lines }
    ensures wrote { OnOk result (WritesAll (OfWords words.now from count) memory.old memory.new) }
    ensures changes { ChangesTo (OfWords words.now from count) memory.old memory.new }
    ensures goes_on { GoesOn memory.old memory.new }
    ensures cause { HasCause memory.old.faults memory.new.faults result }
{
    for i in 0..count {
        let rest = words_behind(words, i);
        write_eight(memory, from + i, rest)?;
    }
    Ok(())
}

/// The words behind those of so many lines.
fn words_behind(words: &[u64], lines: u32) -> &[u64]
    ensures { result.now ≡ drop (8 * lines) words.now }
{
    let first = 8 * lines as usize;
    if first >= words.len() {
        return &words[words.len()..];
    }
    &words[first..]
}

/// Writes the first eight words to a line, with zeros for those that aren't there.
pub(crate) fn write_eight<I: Image>(
    memory: &mut LineMemory<I>,
    line: u32,
    words: &[u64],
) -> Result<(), ImageFailed>
    requires { line < memory.old.size }
    ensures wrote { OnOk result (WritesAll (OfWords words.now line 1) memory.old memory.new) }
    ensures changes { ChangesTo (OfWords words.now line 1) memory.old memory.new }
    ensures goes_on { GoesOn memory.old memory.new }
    ensures cause { HasCause memory.old.faults memory.new.faults result }
{
    fetch_line(memory, line)?;
    put_eight(memory, line, words);
    write_line(memory, line)
}

/// Stores the first eight words to a resident line.
fn put_eight<I: Image>(memory: &mut LineMemory<I>, line: u32, words: &[u64])
    requires { IsResident memory.old line }
    ensures shows { (w : ℕ) → w < 8 → shown memory.new line w ≡ slice_index_or words.now w 0 }
    ensures changes { ChangesTo (OfWords words.now line 1) memory.old memory.new }
    ensures resident { SameResident memory.old memory.new }
    ensures same { SameImage memory.old memory.new }
{
    for word in 0..8 {
        put_word(memory, Spot { line, word }, word_at(words, word));
    }
}

/// The word at a place; zero where there is none.
fn word_at(words: &[u64], place: u8) -> u64
    ensures { result ≡ slice_index_or words.now place 0 }
{
    let place = place as usize;
    if place < words.len() { words[place] } else { 0 }
}

/// Stores a word and writes its line.
pub(crate) fn write_word<I: Image>(
    memory: &mut LineMemory<I>,
    spot: Spot,
    word: u64,
) -> Result<(), ImageFailed>
    requires { spot.line < memory.old.size }
    ensures wrote { OnOk result (WritesAll (IsGiven spot.line spot.word word) memory.old memory.new) }
    ensures changes { ChangesTo (IsGiven spot.line spot.word word) memory.old memory.new }
    ensures goes_on { GoesOn memory.old memory.new }
    ensures cause { HasCause memory.old.faults memory.new.faults result }
{
    fetch_line(memory, spot.line)?;
    put_word(memory, spot, word);
    write_line(memory, spot.line)
}
