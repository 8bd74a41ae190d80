// What stands before the objects of an image is read and checked: the directory, and the logs.
ghost use Rattle.std.specs.Prelude.{◌≡◌, ◌≤◌, [], length, None, Ok, OnOk, IfOk, IfErr};
ghost use Rattle.ap_base.specs.Causes.{HasCauseOf};
ghost use Rattle.line_memory.specs.Memory.{Memory, shown};
ghost use Rattle.image_layout.specs.Places.{min_lines, root_slots, directory_words};
ghost use Rattle.image_meaning.specs.Directories.{directory_of};
ghost use Rattle.image_meaning.specs.Logs.{logs_fault};
ghost use Rattle.image_meaning.specs.Meaning.{meaning};
ghost use Rattle.word_changes.specs.Changes.{AllKnown};
ghost use Rattle.directories.specs.declared.stepping.Progress.TheVariants.{Words as WordsIn};
ghost use Rattle.image_walk.specs.Walking.{Looks, IsFaultOf};
ghost use Rattle.image_recovery.specs.Checked.{undone_of};
ghost use Rattle.image_recovery.specs.Recovered.{IsUsed, IsSameFault, entries_in};

use crate::checking::check_logs;
use directories::{Directory, DirectoryFault, read_directory};
use image_layout::BadReason;
use image_walk::RecoverFault;
use line_image::Image;
use line_memory::LineMemory;
use std::alloc::Global;

/// What is read before anything is put back.
#[derive(Drop)]
pub(crate) struct Front {
    pub(crate) directory: Directory,
    /// How many logs have entries.
    pub(crate) undone: u32,
}

/// Reads the directory, of which so many words are in use, and then checks the logs.
pub(crate) fn read_front<I: Image>(
    alloc: Global,
    memory: &mut LineMemory<I>,
    used: u32,
) -> Result<Front, RecoverFault>
    requires enough { min_lines ≤ memory.old.size }
    requires range { used ≤ directory_words }
    ensures entries { (first : Memory) → AllKnown first → Looks first memory.old
        → IsUsed first.size (shown first) used → IfOk result (λ front. directory_of (shown first) ≡ Ok (entries_in front.directory)) }
    ensures few { IfOk result (λ front. length front.directory.roots ≤ root_slots) }
    ensures unplanned { (first : Memory) → AllKnown first → Looks first memory.old
        → IfOk result (λ front. front.directory.left ≡ []) }
    ensures begins { (first : Memory) → AllKnown first → Looks first memory.old
        → IfOk result (λ front. front.directory.progress ≡ WordsIn 0) }
    ensures used { (first : Memory) → AllKnown first → Looks first memory.old
        → IfOk result (λ front. front.directory.used ≡ used) }
    ensures passes { (first : Memory) → AllKnown first → Looks first memory.old
        → OnOk result (logs_fault first.size (shown first) ≡ None) }
    ensures undone { (first : Memory) → AllKnown first → Looks first memory.old
        → IfOk result (λ front. front.undone ≡ undone_of (shown first)) }
    ensures bad { (first : Memory) → AllKnown first → Looks first memory.old
        → IsUsed first.size (shown first) used → IfErr result (IsFaultOf (meaning first.size (shown first))) }
    ensures looks { Looks memory.old memory.new }
    ensures cause { HasCauseOf RecoverFault.ImageFailed memory.old.faults memory.new.faults result }
{
    let directory = read_entries(alloc, memory, used)?;
    let undone = check_logs(alloc, memory)?;
    Ok(Front { directory, undone })
}

/// Reads the entries of the directory, of which so many words are in use.
pub(crate) fn read_entries<I: Image>(
    alloc: Global,
    memory: &mut LineMemory<I>,
    used: u32,
) -> Result<Directory, RecoverFault>
    requires enough { min_lines ≤ memory.old.size }
    requires range { used ≤ directory_words }
    ensures entries { (first : Memory) → AllKnown first → Looks first memory.old → used ≡ shown first 0 3
        → IfOk result (λ directory. directory_of (shown first) ≡ Ok (entries_in directory)) }
    ensures few { IfOk result (λ directory. length directory.roots ≤ root_slots) }
    ensures unplanned { (first : Memory) → AllKnown first → Looks first memory.old
        → IfOk result (λ directory. directory.left ≡ []) }
    ensures begins { (first : Memory) → AllKnown first → Looks first memory.old
        → IfOk result (λ directory. directory.progress ≡ WordsIn 0) }
    ensures used { (first : Memory) → AllKnown first → Looks first memory.old
        → IfOk result (λ directory. directory.used ≡ used) }
    ensures bad { (first : Memory) → AllKnown first → Looks first memory.old → used ≡ shown first 0 3
        → IfErr result (IsFaultOf (directory_of (shown first))) }
    ensures looks { Looks memory.old memory.new }
    ensures cause { HasCauseOf RecoverFault.ImageFailed memory.old.faults memory.new.faults result }
{
    match read_directory(alloc, memory, used) {
        Ok(directory) => Ok(directory),
        Err(fault) => Err(recover_fault(fault)),
    }
}

/// A fault of the directory.
fn recover_fault(fault: DirectoryFault) -> RecoverFault
    ensures { IsSameFault fault result }
{
    match fault {
        DirectoryFault::Bad { line } => RecoverFault::Bad {
            line,
            reason: BadReason::Entry,
        },
        DirectoryFault::ImageFailed => RecoverFault::ImageFailed,
        DirectoryFault::OutOfMemory => RecoverFault::OutOfMemory,
    }
}
