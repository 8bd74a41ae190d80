// All that is planned is appended to an image's directory.
ghost use Rattle.std.specs.Prelude.{◌≡◌, ◌≤◌, ◌+◌, ◌++◌, [], List, length, OnOk};
ghost use Rattle.ap_base.specs.Causes.{HasCause};
ghost use Rattle.image_layout.specs.Places.{min_lines, directory_words};
ghost use Rattle.image_meaning.specs.Directories.{spelled_all};
ghost use Rattle.image_meaning.specs.Entries.{DirectoryEntry};
ghost use Rattle.word_changes.specs.Changes.{GoesOn};
ghost use Rattle.directories.specs.Growing.{HasAppended, HasDurable};
ghost use Rattle.directories.specs.Kept.{SameEntries};

use directories::{Append, Directory, appended_entries_stand};
use line_image::{Image, ImageFailed};
use line_memory::{LineMemory, every_line_is_resident};

/// Appends each entry that is planned and left, one after another.
pub(crate) fn append_all<I: Image>(
    memory: &mut LineMemory<I>,
    directory: &mut Directory,
) -> Result<(), ImageFailed>
    requires enough { min_lines ≤ memory.old.size }
    requires room { directory.old.used + length (spelled_all directory.old.left) ≤ directory_words }
    ensures appended { (had : List DirectoryEntry) → HasDurable had directory.old memory.old
        → length (spelled_all (had ++ directory.old.left)) ≤ directory_words
        → HasAppended had directory.old directory.new memory.old memory.new }
    ensures done { OnOk result (directory.new.left ≡ []) }
    ensures entries { SameEntries directory.old directory.new }
    ensures goes_on { GoesOn memory.old memory.new }
    ensures cause { HasCause memory.old.faults memory.new.faults result }
{
    appended_entries_stand();
    every_line_is_resident();
    'entries: loop {
        match directory.append_next(memory)? {
            Append::More => {}
            Append::Done => return Ok(()),
        }
    }
}
