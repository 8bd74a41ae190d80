// The workload's classes.
ghost use Rattle.std.specs.Prelude.{◌≡◌, ◌≤◌, IsTrue, Ok, length, IfOk};
ghost use Rattle.std.specs.List.{All};
ghost use Rattle.class_file.specs.Classes.{CanBeRead, HasAtMost};
ghost use Rattle.class_links.specs.Kept.{kept_files};
ghost use Rattle.class_links.specs.Links.{Links};
ghost use Rattle.listing.specs.Classes.{assembled};
ghost use Rattle.workload.specs.Listings.{work_listing as listing_of};

use crate::listings::work_listing;
use class_file::{ClassFile, write_class};
use class_links::{check_links, keep_files};
use listing::assemble;
use std::alloc::{AllocError, Global};

// As many class files as a class set may have.
const MOST_FILES: usize = 4_096;

// And each as many bytes.
const MOST_BYTES: usize = 1_048_576;

// Whether each of the class files has no more bytes than one may have.
fn are_small(alloc: Global, classes: &[ClassFile]) -> Result<bool, AllocError>
    requires { All CanBeRead classes.now }
    ensures { IfOk result (λ small. IsTrue small → All (HasAtMost 1048576) classes.now) }
{
    for class in classes {
        if write_class(alloc, class)?.len() > MOST_BYTES {
            return Ok(false);
        }
    }
    Ok(true)
}

/// The classes of the workload's listing, in order, where they link.
#[tactic(auto, using(crate::proofs::Whole::whole))]
fn linked_classes(alloc: Global, count: u32) -> Result<Vec<ClassFile>, AllocError>
    requires range { (1 ≤ count) × (count ≤ 5000) }
    ensures listing { IfOk result (λ classes. assembled (listing_of count) ≡ Ok classes.items) }
    ensures readable { IfOk result (λ classes. All CanBeRead classes.items) }
    ensures few { IfOk result (λ classes. length classes.items ≤ 4096) }
    ensures links { IfOk result (λ classes. Links (kept_files classes.items)) }
{
    let text = work_listing(alloc, count)?;
    // Of a listing that is one, and whose classes link, neither call refuses but for want of memory.
    let Ok(classes) = assemble(alloc, text.as_slice()) else {
        return Err(AllocError);
    };
    let made = classes.len();
    let kept = keep_files(classes);
    if kept.len() != made || made > MOST_FILES || check_links(alloc, kept.as_slice()).is_err() {
        return Err(AllocError);
    }
    Ok(kept)
}

/// The classes of the workload, for 1 to 5,000 nodes a thread: those of its listing, in order. They are an accepted class set:
/// each can be read and is of a size that is accepted, and they link.
///
/// # Errors
///
/// Want of memory.
pub fn make_classes(alloc: Global, count: u32) -> Result<Vec<ClassFile>, AllocError>
    requires range { (1 ≤ count) × (count ≤ 5000) }
    ensures listing { IfOk result (λ classes. assembled (listing_of count) ≡ Ok classes.items) }
    ensures readable { IfOk result (λ classes. All CanBeRead classes.items) }
    ensures few { IfOk result (λ classes. length classes.items ≤ 4096) }
    ensures small { IfOk result (λ classes. All (HasAtMost 1048576) classes.items) }
    ensures links { IfOk result (λ classes. Links (kept_files classes.items)) }
{
    let classes = linked_classes(alloc, count)?;
    // They are small: of them it is refused for want of memory alone.
    if !are_small(alloc, classes.as_slice())? {
        return Err(AllocError);
    }
    Ok(classes)
}
