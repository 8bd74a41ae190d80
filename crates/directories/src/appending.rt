// Planned entries are appended to the image's directory.
ghost use Rattle.std.specs.Prelude.{◌≡◌, ◌≢◌, ◌⊎◌, ◌≤◌, ◌↔◌, [], List, length, drop, IfOk, OnOk, OnErr};
ghost use Rattle.ap_base.specs.Causes.{HasCause};
ghost use Rattle.line_memory.specs.Memory.{SameImage, OneCall};
ghost use Rattle.image_layout.specs.Places.{min_lines};
ghost use Rattle.image_meaning.specs.Entries.{DirectoryEntry};
ghost use Rattle.image_meaning.specs.Directories.{spelled_all};
ghost use Rattle.word_changes.specs.Changes.{ChangesTo, StopsLeave};
ghost use Rattle.directories.specs.Appending.{OfEntry};
ghost use Rattle.directories.specs.Kept.{next_words, Stands, StandsOn, HasSome, Steps};

use crate::directory::Directory;
use crate::stepping::{Progress, Step, append_step};
use line_image::{Image, ImageFailed};
use line_memory::LineMemory;

/// Whether further calls are needed.
#[derive(Clone, Copy, Debug, PartialEq, Eq)]
pub enum Append {
    More,
    Done,
}

impl Directory {
    /// Makes at most one image call of those that the planned entries need: one for each line of an entry's words, and then
    /// three, unless a line that is needed isn't resident and is touched. `Done` exactly where no planned entry is left then. A
    /// failed call can be made again.
    pub fn append_next<I: Image>(
        &mut self,
        memory: &mut LineMemory<I>,
    ) -> Result<Append, ImageFailed>
        requires enough { min_lines ≤ memory.old.size }
        ensures done { IfOk result (λ answer. (answer ≡ Append.Done) ↔ (self.new.left ≡ [])) }
        ensures nothing_left { self.old.left ≡ [] → (self.new ≡ self.old) × (memory.new ≡ memory.old) }
        ensures steps { self.old.left ≢ [] → OnOk result (Steps self.old self.new memory.old memory.new) }
        ensures failed { OnErr result (self.new ≡ self.old) }
        ensures changes { ChangesTo (OfEntry self.old.used (next_words self.old.left)) memory.old memory.new }
        ensures stands { (had : List DirectoryEntry) → Stands had self.old memory.old
            → StandsOn had self.old self.new memory.new }
        ensures stops { (had : List DirectoryEntry) → Stands had self.old memory.old
            → StopsLeave memory.old memory.new (HasSome had self.old.left) }
        ensures count { SameImage memory.old memory.new ⊎ OneCall memory.old memory.new }
        ensures cause { HasCause memory.old.faults memory.new.faults result }
    {
        let entry = next_entry(self.words.as_slice(), self.at);
        let length = entry.len();
        if length == 0 {
            return Ok(Append::Done);
        }
        match append_step(memory, self.used, entry, self.progress)? {
            Step::Touched => Ok(Append::More),
            Step::Comes(progress) => {
                self.progress = progress;
                Ok(Append::More)
            }
            Step::Finished => {
                self.at += length;
                self.used += length as u32;
                self.appended += 1;
                self.progress = Progress::Words(0);
                Ok(self.answer())
            }
        }
    }

    /// Whether something is left.
    fn answer(&self) -> Append
        ensures { (result ≡ Append.Done) ↔ (self.now.left ≡ []) }
    {
        if self.appended < self.planned.len() {
            Append::More
        } else {
            Append::Done
        }
    }
}

/// The words of the entry that begins at one of these.
fn next_entry(words: &[u64], at: usize) -> &[u64]
    requires within { at ≤ length words.now }
    requires spelled { (left : List DirectoryEntry) × (drop at words.now ≡ spelled_all left) }
    ensures { (left : List DirectoryEntry) → drop at words.now ≡ spelled_all left → result.now ≡ next_words left }
{
    let rest = &words[at..];
    if rest.len() == 0 {
        return rest;
    }
    let length = (rest[0] / (1 << 32)) as usize;
    &rest[..length]
}
