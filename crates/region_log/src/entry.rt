// Entries, and how far a log is with one or with its end.
ghost use Rattle.std.specs.Prelude.{◌≡◌, ◌↔◌, IsTrue};
ghost use Rattle.region_log.specs.Fencing.{is_fence_next};
ghost use Rattle.region_log.specs.Log.{IsLogged};
ghost use Rattle.region_log.specs.Readers.{added_entry, is_ending, is_cleared};
ghost use Rattle.region_log.specs.Stages.{entry_stage, next_stage, failed_stage, end_stage, next_end, failed_end};

use ap_base::Spot;

/// A word of the image, and the value that it had when it was logged.
#[derive(Clone, Copy)]
pub struct Entry {
    pub spot: Spot,
    pub old: u64,
}

/// How far an entry is that is being added. Its words are written, then fenced; then the count is written over it, and
/// fenced.
#[derive(Clone, Copy)]
pub enum EntryStage {
    Begun,
    Written,
    Fenced,
    /// As `Fenced`, but a write of the count has failed, which may count as made.
    Counting,
    Counted,
}

/// How far the end of a region is. So many of its logged words' lines are written back, then they are fenced; then the
/// count 0 is written, and fenced.
#[derive(Clone, Copy)]
pub enum EndStage {
    Writing(u32),
    AllFenced,
    /// As `AllFenced`, but a write of the count has failed, which may count as made.
    Clearing,
    Cleared,
}

/// What is under way in a log: nothing, an entry, or the end of the region.
#[derive(Clone, Copy)]
pub enum Underway {
    Nothing,
    Adding(Entry, EntryStage),
    Ending(EndStage),
}

impl EntryStage {
    /// The stage once its call was made.
    pub(crate) fn next(self) -> EntryStage
        ensures { result ≡ next_stage self }
    {
        match self {
            EntryStage::Begun => EntryStage::Written,
            EntryStage::Written => EntryStage::Fenced,
            EntryStage::Fenced | EntryStage::Counting | EntryStage::Counted => EntryStage::Counted,
        }
    }

    /// The stage if its call fails.
    pub(crate) fn if_failed(self) -> EntryStage
        ensures { result ≡ failed_stage self }
    {
        match self {
            EntryStage::Fenced => EntryStage::Counting,
            _ => self,
        }
    }
}

impl EndStage {
    /// The stage once its call was made, where so many words are logged.
    pub(crate) fn next(self, logged: u32) -> EndStage
        ensures { result ≡ next_end logged self }
    {
        match self {
            EndStage::Writing(lines) if lines < logged => EndStage::Writing(lines + 1),
            EndStage::Writing(_) => EndStage::AllFenced,
            EndStage::AllFenced | EndStage::Clearing | EndStage::Cleared => EndStage::Cleared,
        }
    }

    /// The stage if its call fails.
    pub(crate) fn if_failed(self) -> EndStage
        ensures { result ≡ failed_end self }
    {
        match self {
            EndStage::AllFenced => EndStage::Clearing,
            _ => self,
        }
    }
}

impl Underway {
    /// How far the entry is that is added next.
    pub(crate) fn entry_stage(self) -> EntryStage
        ensures { result ≡ entry_stage self }
    {
        match self {
            Underway::Adding(_, stage) => stage,
            _ => EntryStage::Begun,
        }
    }

    /// How far the end is.
    pub(crate) fn end_stage(self) -> EndStage
        ensures { result ≡ end_stage self }
    {
        match self {
            Underway::Ending(stage) => stage,
            _ => EndStage::Writing(0),
        }
    }

    /// The entry that is being added.
    pub(crate) fn entry(self) -> Option<Entry>
        ensures { result ≡ added_entry self }
    {
        match self {
            Underway::Adding(entry, _) => Some(entry),
            _ => None,
        }
    }

    /// Whether the end of a region is under way.
    pub(crate) fn is_ending(self) -> bool
        ensures { result ≡ is_ending self }
    {
        matches!(self, Underway::Ending(_))
    }

    /// Whether the last fence of a region's end is left.
    pub(crate) fn is_cleared(self) -> bool
        ensures { result ≡ is_cleared self }
    {
        matches!(self, Underway::Ending(EndStage::Cleared))
    }

    /// Whether the next call is a fence, where so many words are logged.
    pub(crate) fn is_fence_next(self, logged: u32) -> bool
        ensures { result ≡ is_fence_next logged self }
    {
        match self {
            Underway::Adding(_, stage) => {
                matches!(stage, EntryStage::Written | EntryStage::Counted)
            }
            Underway::Ending(EndStage::Writing(lines)) => lines == logged,
            Underway::Ending(stage) => matches!(stage, EndStage::Cleared),
            Underway::Nothing => false,
        }
    }
}

/// Whether one of some entries is of a word.
pub(crate) fn is_logged(entries: &[Entry], spot: Spot) -> bool
    ensures { IsTrue result ↔ IsLogged entries.now spot }
{
    for entry in entries {
        if entry.spot == spot {
            return true;
        }
    }
    false
}
