// Accepted class files are linked.
ghost use Rattle.std.specs.Prelude.{◌≡◌, OnOk, IfOk, IfErr};
ghost use Rattle.class_links.specs.Kept.{kept_files};
ghost use Rattle.class_links.specs.Links.{Links};
ghost use Rattle.class_set.specs.ArrayTypes.{linked_from};
ghost use Rattle.source_classes.specs.Reading.{IsOfLinking};

use crate::accepted::{AcceptedFiles, AcceptedSet};
use class_links::LinkRefusal;
use statuses::Status;
use std::alloc::Global;

/// The class set of these files, but for those that are left aside, where they link.
///
/// # Errors
///
/// `LinkRefused` exactly where they don't, with the first condition that they break; want of memory.
pub fn link(alloc: Global, classes: AcceptedFiles) -> Result<AcceptedSet, Status>
    ensures set { IfOk result (λ set. set.linked ≡ linked_from (kept_files classes)) }
    ensures links { OnOk result (Links (kept_files classes)) }
    ensures refused { IfErr result (IsOfLinking (kept_files classes)) }
{
    match class_set::link(alloc, classes.into_vec()) {
        Ok(linked) => Ok(AcceptedSet { linked }),
        Err(LinkRefusal::OutOfMemory) => Err(Status::OutOfMemory),
        Err(refusal) => Err(Status::LinkRefused { refusal }),
    }
}
