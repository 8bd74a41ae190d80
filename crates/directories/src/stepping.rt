// An entry comes into the directory, by one image call at a time.
ghost use Rattle.std.specs.Prelude.{◌≡◌, ◌⊎◌, ◌<◌, ◌≤◌, ◌+◌, ℕ, length, slice_index_or, Ok, IfOk, OnErr};
ghost use Rattle.ap_base.specs.Causes.{HasCause};
ghost use Rattle.line_memory.specs.Memory.{shown, IsResident, SameResident, SameImage, OneCall};
ghost use Rattle.image_layout.specs.Places.{min_lines, directory_words, directory_line, directory_word};
ghost use Rattle.word_changes.specs.Changes.{AllKnown, IsGiven, Nothing, ChangesTo, StopsLeave};
ghost use Rattle.directories.specs.Appending.{OfEntry, HasCome, HasComeBy, OldOrWhole, OfWords, lines_between, IsCalled};
ghost use Rattle.directories.specs.Appending.{IsFetched};

use ap_base::Spot;
use image_layout::directory_spot;
use line_image::{Image, ImageFailed};
use line_memory::LineMemory;
use word_changes::{is_ready, make_fence, put_word, write_line};

/// How far an entry of the directory has come.
#[derive(Clone, Copy)]
pub enum Progress {
    /// So many of its words stand in their lines, which are written back.
    Words(u32),
    /// All of its words are durable.
    Fenced,
    /// The number of words in use counts them, and its line is written back.
    Raised,
}

/// What one step did.
pub enum Step {
    /// A line that the step needs was touched.
    Touched,
    /// The entry has come so far.
    Comes(Progress),
    /// The entry is in the directory, and durable.
    Finished,
}

/// The next step of an entry of these words, behind so many words in use: at most one image call.
pub(crate) fn append_step<I: Image>(
    memory: &mut LineMemory<I>,
    used: u32,
    entry: &[u64],
    progress: Progress,
) -> Result<Step, ImageFailed>
    requires enough { min_lines ≤ memory.old.size }
    requires some { 0 < length entry.now }
    requires room { used + length entry.now ≤ directory_words }
    ensures comes { AllKnown memory.old → HasCome progress used entry.now memory.old
        → IfOk result (λ step. HasComeBy step progress used entry.now memory.new) }
    ensures failed { AllKnown memory.old → HasCome progress used entry.now memory.old
        → OnErr result (HasCome progress used entry.now memory.new) }
    ensures changes { ChangesTo (OfEntry used entry.now) memory.old memory.new }
    ensures stops { AllKnown memory.old → HasCome progress used entry.now memory.old
        → StopsLeave memory.old memory.new (OldOrWhole used entry.now) }
    // one call is made of those that are left, unless a line is touched for it
    ensures calls { IfOk result (λ step. IsCalled step progress used entry.now memory.old memory.new) }
    ensures touched { result ≡ Ok Step.Touched → IsFetched progress used entry.now memory.old memory.new }
    ensures count { SameImage memory.old memory.new ⊎ OneCall memory.old memory.new }
    ensures cause { HasCause memory.old.faults memory.new.faults result }
{
    match progress {
        Progress::Words(n) => words_step(memory, used, entry, n),
        Progress::Fenced => raise(memory, used, entry),
        Progress::Raised => finish(memory, used, entry),
    }
}

/// A step while the entry's words aren't durable, of which so many are written back.
fn words_step<I: Image>(
    memory: &mut LineMemory<I>,
    used: u32,
    entry: &[u64],
    n: u32,
) -> Result<Step, ImageFailed>
    requires enough { min_lines ≤ memory.old.size }
    requires room { used + length entry.now ≤ directory_words }
    ensures comes { AllKnown memory.old → HasCome (Progress.Words n) used entry.now memory.old
        → IfOk result (λ step. HasComeBy step (Progress.Words n) used entry.now memory.new) }
    ensures failed { AllKnown memory.old → HasCome (Progress.Words n) used entry.now memory.old
        → OnErr result (HasCome (Progress.Words n) used entry.now memory.new) }
    ensures changes { ChangesTo (OfWords used entry.now n (length entry.now)) memory.old memory.new }
    ensures calls { IfOk result (λ step. IsCalled step (Progress.Words n) used entry.now memory.old memory.new) }
    ensures touched { result ≡ Ok Step.Touched → IsFetched (Progress.Words n) used entry.now memory.old memory.new }
    ensures count { SameImage memory.old memory.new ⊎ OneCall memory.old memory.new }
    ensures cause { HasCause memory.old.faults memory.new.faults result }
{
    if n < entry.len() as u32 {
        return write_words(memory, used, entry, n);
    }
    make_fence(memory)?;
    Ok(Step::Comes(Progress::Fenced))
}

/// Writes those of the entry's words that lie in one line with the first that isn't written.
fn write_words<I: Image>(
    memory: &mut LineMemory<I>,
    used: u32,
    entry: &[u64],
    n: u32,
) -> Result<Step, ImageFailed>
    requires enough { min_lines ≤ memory.old.size }
    requires more { n < length entry.now }
    requires room { used + length entry.now ≤ directory_words }
    ensures comes { AllKnown memory.old → HasCome (Progress.Words n) used entry.now memory.old
        → IfOk result (λ step. HasComeBy step (Progress.Words n) used entry.now memory.new) }
    ensures failed { AllKnown memory.old → HasCome (Progress.Words n) used entry.now memory.old
        → OnErr result (HasCome (Progress.Words n) used entry.now memory.new) }
    ensures changes { ChangesTo (OfWords used entry.now n (length entry.now)) memory.old memory.new }
    ensures calls { IfOk result (λ step. IsCalled step (Progress.Words n) used entry.now memory.old memory.new) }
    ensures touched { result ≡ Ok Step.Touched → IsFetched (Progress.Words n) used entry.now memory.old memory.new }
    ensures count { SameImage memory.old memory.new ⊎ OneCall memory.old memory.new }
    ensures cause { HasCause memory.old.faults memory.new.faults result }
{
    let line = word_spot(used + n).line;
    if !is_ready(memory, line)? {
        return Ok(Step::Touched);
    }
    let to = end_in_line(used, n, entry.len() as u32);
    store_words(memory, used, entry, n, to);
    write_line(memory, line)?;
    Ok(Step::Comes(Progress::Words(to)))
}

/// Stores the entry's words from one to before another, all of one line.
fn store_words<I: Image>(memory: &mut LineMemory<I>, used: u32, entry: &[u64], from: u32, to: u32)
    requires in_order { from ≤ to }
    requires some { to ≤ length entry.now }
    requires room { used + length entry.now ≤ directory_words }
    requires one_line { (i : ℕ) → from ≤ i → i < to → directory_line (used + i) ≡ directory_line (used + from) }
    requires resident { IsResident memory.old (directory_line (used + from)) }
    ensures shows { (i : ℕ) → from ≤ i → i < to
        → shown memory.new (directory_line (used + i)) (directory_word (used + i)) ≡ slice_index_or entry.now i 0 }
    ensures changes { ChangesTo (OfWords used entry.now from to) memory.old memory.new }
    ensures resident_after { SameResident memory.old memory.new }
    ensures same { SameImage memory.old memory.new }
{
    for i in from..to {
        put_word(memory, word_spot(used + i), entry[i as usize]);
    }
}

/// Where the words end that lie in one line with the word of this number.
fn end_in_line(used: u32, n: u32, length: u32) -> u32
    requires more { n < length }
    requires room { used + length ≤ directory_words }
    ensures low { n < result }
    ensures high { result ≤ length }
    ensures one_line { (i : ℕ) → n ≤ i → i < result → directory_line (used + i) ≡ directory_line (used + n) }
    ensures calls { lines_between (used + result) (used + length) + 1 ≡ lines_between (used + n) (used + length) }
{
    let end = n + 8 - (used + n) % 8;
    if end < length { end } else { length }
}

/// Raises the number of words in use by those of the entry.
fn raise<I: Image>(
    memory: &mut LineMemory<I>,
    used: u32,
    entry: &[u64],
) -> Result<Step, ImageFailed>
    requires enough { min_lines ≤ memory.old.size }
    requires room { used + length entry.now ≤ directory_words }
    ensures comes { AllKnown memory.old → HasCome Progress.Fenced used entry.now memory.old
        → IfOk result (λ step. HasComeBy step Progress.Fenced used entry.now memory.new) }
    ensures failed { AllKnown memory.old → HasCome Progress.Fenced used entry.now memory.old
        → OnErr result (HasCome Progress.Fenced used entry.now memory.new) }
    ensures changes { ChangesTo (IsGiven 0 3 (used + length entry.now)) memory.old memory.new }
    ensures calls { IfOk result (λ step. IsCalled step Progress.Fenced used entry.now memory.old memory.new) }
    ensures touched { result ≡ Ok Step.Touched → IsFetched Progress.Fenced used entry.now memory.old memory.new }
    ensures count { SameImage memory.old memory.new ⊎ OneCall memory.old memory.new }
    ensures cause { HasCause memory.old.faults memory.new.faults result }
{
    if !is_ready(memory, 0)? {
        return Ok(Step::Touched);
    }
    let to = used as u64 + entry.len() as u64;
    put_word(memory, Spot { line: 0, word: 3 }, to);
    write_line(memory, 0)?;
    Ok(Step::Comes(Progress::Raised))
}

/// Makes the number of words in use durable.
fn finish<I: Image>(
    memory: &mut LineMemory<I>,
    used: u32,
    entry: &[u64],
) -> Result<Step, ImageFailed>
    requires enough { min_lines ≤ memory.old.size }
    requires room { used + length entry.now ≤ directory_words }
    ensures comes { AllKnown memory.old → HasCome Progress.Raised used entry.now memory.old
        → IfOk result (λ step. HasComeBy step Progress.Raised used entry.now memory.new) }
    ensures failed { AllKnown memory.old → HasCome Progress.Raised used entry.now memory.old
        → OnErr result (HasCome Progress.Raised used entry.now memory.new) }
    ensures changes { ChangesTo Nothing memory.old memory.new }
    ensures finished { IfOk result (λ step. step ≡ Step.Finished) }
    ensures count { OneCall memory.old memory.new }
    ensures cause { HasCause memory.old.faults memory.new.faults result }
{
    make_fence(memory)?;
    Ok(Step::Finished)
}

/// The word of the directory's word of this number.
pub(crate) fn word_spot(word: u32) -> Spot
    requires { word < directory_words }
    ensures line { result.line ≡ directory_line word }
    ensures word { result.word ≡ directory_word word }
{
    directory_spot(word).unwrap()
}
