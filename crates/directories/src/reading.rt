// The directory of an image is read.
ghost use Rattle.std.specs.Prelude.{◌≡◌, ◌≤◌, ℕ, true, false, not, [], length, Ok, IfOk, IfErr, IsErrOf};
ghost use Rattle.ap_base.specs.Causes.{HasCauseOf};
ghost use Rattle.line_memory.specs.Memory.{shown};
ghost use Rattle.line_memory.specs.Moments.{CountsFrom};
ghost use Rattle.image_layout.specs.Places.{min_lines, root_slots, directory_words};
ghost use Rattle.image_meaning.specs.Directories.{no_entries, is_refused, with_entry, with_entries, directory_words_of};
ghost use Rattle.word_changes.specs.Changes.{AllKnown, Nothing, ChangesTo};
ghost use Rattle.directories.specs.Read.{entry_of, the_directory, IsDirectory, IsFault, IsUntied};
ghost use Rattle.directories.specs.Planning.{has_entry};
ghost use Rattle.directories.specs.Names.{AreNamesOf};
ghost use Rattle.directories.specs.declared.reading.DirectoryFault.TheVariants.{ImageFailed as Failed, OutOfMemory as NoMemory};

use crate::directory::Directory;
use crate::entries::{Entry, next_entry};
use crate::names::Names;
use crate::stepping::{Progress, word_spot};
use ap_base::Bytes;
use graph_model::Shape;
use image_layout::{FIRST_DIRECTORY_LINE, ROOT_SLOTS};
use line_image::{Image, ImageFailed};
use line_memory::LineMemory;
use std::alloc::{AllocError, AllocFailed, Global};
use thiserror::Error;
use word_changes::fetch_line;

/// Why a directory couldn't be read.
#[derive(Clone, Copy, Debug, PartialEq, Eq, Error)]
pub enum DirectoryFault {
    /// The first entry that isn't of the form, or whose name is that of an earlier entry of its kind, or the 257th root,
    /// begins in this line.
    #[error("an entry of the directory is wrong")]
    Bad { line: u32 },
    #[error("the image failed")]
    ImageFailed,
    #[error("no memory is left")]
    OutOfMemory,
}

impl From<AllocError> for DirectoryFault {
    ghost from_gives = { λ _ e. e ≡ NoMemory };

    fn from(_: AllocError) -> Self {
        DirectoryFault::OutOfMemory
    }
}

impl<T: Drop> From<AllocFailed<T>> for DirectoryFault {
    ghost from_gives = { λ _ e. e ≡ NoMemory };

    fn from(_: AllocFailed<T>) -> Self {
        DirectoryFault::OutOfMemory
    }
}

impl From<ImageFailed> for DirectoryFault {
    ghost from_gives = { λ _ e. e ≡ Failed };

    fn from(_: ImageFailed) -> Self {
        DirectoryFault::ImageFailed
    }
}

/// Reads the first words of an image's directory, so many as are in use, with no call of the image. Nothing is stored, and
/// nothing is planned yet.
pub fn read_directory<I: Image>(
    alloc: Global,
    memory: &mut LineMemory<I>,
    used: u32,
) -> Result<Directory, DirectoryFault>
    requires enough { min_lines ≤ memory.old.size }
    requires some { used ≤ directory_words }
    ensures found { AllKnown memory.old → IfOk result (λ directory. IsDirectory used
        (with_entries used 0 no_entries (directory_words_of (shown memory.old) used)) directory) }
    ensures bad { AllKnown memory.old → IfErr result (λ fault. IsFault
        (with_entries used 0 no_entries (directory_words_of (shown memory.old) used)) fault) }
    ensures few { IfOk result (λ directory. length directory.roots ≤ root_slots) }
    ensures changes { ChangesTo Nothing memory.old memory.new }
    ensures counts { (begin : ℕ) → CountsFrom begin memory.old → CountsFrom begin memory.new }
    ensures calls { memory.new.calls ≡ memory.old.calls }
    ensures cause { HasCauseOf DirectoryFault.ImageFailed memory.old.faults memory.new.faults result }
{
    let words = read_words(alloc, memory, used)?;
    let (shapes, roots) = parse(alloc, words.as_slice())?;
    Ok(unplanned(alloc, shapes, roots, used))
}

/// A directory of which nothing is planned.
fn unplanned(alloc: Global, shapes: Vec<Shape>, roots: Vec<Bytes>, used: u32) -> Directory
    requires room { used ≤ directory_words }
    requires few { length shapes.items ≤ used }
    ensures shapes { result.shapes ≡ shapes.items }
    ensures roots { result.roots ≡ roots.items }
    ensures left { result.left ≡ [] }
    ensures used { result.used ≡ used }
    ensures progress { result.progress ≡ Progress.Words 0 }
{
    Directory {
        shapes,
        roots,
        planned: Vec::new(alloc),
        appended: 0,
        words: Vec::new(alloc),
        at: 0,
        used,
        progress: Progress::Words(0),
    }
}

/// The first words of the directory.
fn read_words<I: Image>(
    alloc: Global,
    memory: &mut LineMemory<I>,
    used: u32,
) -> Result<Vec<u64>, DirectoryFault>
    requires enough { min_lines ≤ memory.old.size }
    requires some { used ≤ directory_words }
    ensures words { AllKnown memory.old
        → IfOk result (λ words. words.items ≡ directory_words_of (shown memory.old) used) }
    ensures bad { IfErr result (λ fault. IsUntied fault) }
    ensures count { IfOk result (λ words. length words.items ≡ used) }
    ensures changes { ChangesTo Nothing memory.old memory.new }
    ensures counts { (begin : ℕ) → CountsFrom begin memory.old → CountsFrom begin memory.new }
    ensures calls { memory.new.calls ≡ memory.old.calls }
    ensures cause { HasCauseOf DirectoryFault.ImageFailed memory.old.faults memory.new.faults result }
{
    let mut words = Vec::with_capacity(alloc, used as usize)?;
    for i in 0..used {
        let spot = word_spot(i);
        fetch_line(memory, spot.line)?;
        words.push(memory.load(spot))?;
    }
    Ok(words)
}

/// The shapes and the roots' names that the words spell.
fn parse(alloc: Global, words: &[u64]) -> Result<(Vec<Shape>, Vec<Bytes>), DirectoryFault>
    requires { length words.now ≤ directory_words }
    ensures found { IfOk result (λ found. with_entries (length words.now) 0 no_entries words.now
        ≡ Ok (record { shapes = found.0.items; roots = found.1.items })) }
    ensures bad { IfErr result (λ fault. IsFault (with_entries (length words.now) 0 no_entries words.now) fault) }
    ensures never { IsErrOf result DirectoryFault.ImageFailed → ⊥ }
{
    let mut shapes: Vec<Shape> = Vec::new(alloc);
    let mut roots: Vec<Bytes> = Vec::new(alloc);
    let mut names = Names::none(alloc);
    let mut at = 0;
    while at < words.len() {
        let line = FIRST_DIRECTORY_LINE + (at / 8) as u32;
        let (entry, count) = match next_entry(alloc, &words[at..])? {
            Some(found) => found,
            None => return Err(DirectoryFault::Bad { line }),
        };
        if !add_entry(alloc, &mut shapes, &mut roots, &mut names, entry)? {
            return Err(DirectoryFault::Bad { line });
        }
        at += count;
    }
    Ok((shapes, roots))
}

/// Adds the entry, if it may stand behind these shapes and roots.
fn add_entry(
    alloc: Global,
    shapes: &mut Vec<Shape>,
    roots: &mut Vec<Bytes>,
    names: &mut Names,
    entry: Entry,
) -> Result<bool, AllocError>
    requires names { AreNamesOf (the_directory shapes.old.items roots.old.items) names.old }
    ensures refused { IfOk result (λ taken.
        taken ≡ not (is_refused (the_directory shapes.old.items roots.old.items) (entry_of entry))) }
    ensures added { IfOk result (λ taken. taken ≡ true → the_directory shapes.new.items roots.new.items
        ≡ with_entry (the_directory shapes.old.items roots.old.items) (entry_of entry)) }
    ensures named { IfOk result (λ taken. taken ≡ true
        → AreNamesOf (the_directory shapes.new.items roots.new.items) names.new) }
{
    if names.has(&entry) {
        return Ok(false);
    }
    names.add(alloc, &entry)?;
    push_entry(shapes, roots, entry)
}

/// Adds an entry of another kind or name than those that are there, if a root slot is left for it.
fn push_entry(
    shapes: &mut Vec<Shape>,
    roots: &mut Vec<Bytes>,
    entry: Entry,
) -> Result<bool, AllocError>
    requires other { has_entry (the_directory shapes.old.items roots.old.items) (entry_of entry) ≡ false }
    ensures refused { IfOk result (λ taken.
        taken ≡ not (is_refused (the_directory shapes.old.items roots.old.items) (entry_of entry))) }
    ensures added { IfOk result (λ taken. taken ≡ true → the_directory shapes.new.items roots.new.items
        ≡ with_entry (the_directory shapes.old.items roots.old.items) (entry_of entry)) }
{
    match entry {
        Entry::Shape(shape) => shapes.push(shape)?,
        Entry::Root(name) => {
            if roots.len() as u64 >= u64::from(ROOT_SLOTS) {
                return Ok(false);
            }
            roots.push(name)?;
        }
    }
    Ok(true)
}
