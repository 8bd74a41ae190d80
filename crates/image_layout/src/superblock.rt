// The superblock, line 0 of an image.
ghost use Rattle.std.specs.Prelude.{◌≡◌, ◌↔◌, None, Some, slice_index, IfOk, IfErr, OnOk};
ghost use Rattle.image_layout.specs.Places.{IsBlank, super_check, super_of};

use crate::{DIRECTORY_WORDS, MAGIC, MAX_LINES, MIN_LINES, VERSION};
use thiserror::Error;

/// Why an image isn't one of this layout, in the order of its checks. `check_super` gives the first five; the others
/// are for the checks of what the superblock stands before.
#[derive(Clone, Copy, Debug, PartialEq, Eq, Error)]
pub enum BadReason {
    /// There are too few or too many lines.
    #[error("there are too few or too many lines")]
    Size,
    /// Word 0 of the superblock is neither 0 nor the magic word.
    #[error("the superblock doesn't begin with the magic word")]
    Magic,
    /// Word 1 isn't the version.
    #[error("the superblock has another version")]
    Version,
    /// Word 2 isn't the count of lines.
    #[error("the superblock has another count of lines")]
    LineCount,
    /// Word 3 says that more directory words are in use than there are.
    #[error("more words of the directory are in use than there are")]
    DirectoryUse,
    /// An entry of the directory.
    #[error("an entry of the directory is wrong")]
    Entry,
    /// The count of a log's entries.
    #[error("a log counts more entries than it has")]
    LogCount,
    /// The place of a log's entry.
    #[error("the place of a log's entry is wrong")]
    LogPlace,
    /// A word that is to be a reference.
    #[error("a reference is wrong")]
    Reference,
    /// An object's shape.
    #[error("an object's shape isn't in the directory")]
    Shape,
    /// An object's number of slots, or the object passes the last line.
    #[error("an object has another number of slots than its shape or passes the last line")]
    Length,
    /// Two objects lie over one another.
    #[error("two objects lie over one another")]
    Overlap,
    /// A value that its slot can't have.
    #[error("a slot has a value that it can't have")]
    Value,
}

/// What the superblock says.
#[derive(Clone, Copy, Debug, PartialEq, Eq)]
pub enum Super {
    /// No layout is written yet.
    Blank,
    /// The layout of this version is written, and so many words of the directory are in use.
    Used { version: u32, directory: u32 },
}

/// Checks the superblock's words and the count of an image's lines: `Err` with the first check that fails.
pub fn check_super(words: &[u64; 8], lines: u64) -> Result<Super, BadReason>
    ensures holds { OnOk result (super_check (slice_index words.now) lines ≡ None) }
    ensures fails { IfErr result (λ reason. super_check (slice_index words.now) lines ≡ Some reason) }
    ensures says { IfOk result (λ says. says ≡ super_of (slice_index words.now)) }
    ensures blank { (result ≡ Ok Super.Blank) ↔ IsBlank (slice_index words.now) lines }
{
    if lines < MIN_LINES || lines > MAX_LINES {
        return Err(BadReason::Size);
    }
    if words[0] == 0 {
        return Ok(Super::Blank);
    }
    if words[0] != MAGIC {
        return Err(BadReason::Magic);
    }
    if words[1] != VERSION {
        return Err(BadReason::Version);
    }
    if words[2] != lines {
        return Err(BadReason::LineCount);
    }
    if words[3] > u64::from(DIRECTORY_WORDS) {
        return Err(BadReason::DirectoryUse);
    }
    Ok(Super::Used {
        version: words[1] as u32,
        directory: words[3] as u32,
    })
}
