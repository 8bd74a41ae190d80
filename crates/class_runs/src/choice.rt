// What is to run of the classes of a source.
ghost use Rattle.std.specs.Prelude.{◌≡◌, ◌⊎◌, Ok, Err, IfOk, IfErr};
ghost use Rattle.class_links.specs.Kept.{kept_files};
ghost use Rattle.class_runs.specs.Chosen.{ClassesGive};
ghost use Rattle.source_classes.specs.Reading.{IsOfClasses};

use source_classes::{AcceptedFiles, AcceptedSet, internal_name, link};
use statuses::{NameRoom, Status};
use std::alloc::Global;

/// What is to run: a class set, from its class of this name on; and room for the names in the status that it ends by.
#[derive(Drop)]
pub(crate) struct Found {
    pub(crate) set: AcceptedSet,
    pub(crate) main: Vec<u8>,
    pub(crate) room: NameRoom,
}

/// What is to run of these classes, where the main class has this name; or how the run ends before its image is opened.
pub(crate) fn choose(alloc: Global, class: &[u8], classes: AcceptedFiles) -> Result<Found, Status>
    ensures found { IfOk result (λ found. ClassesGive class.now (kept_files classes)
        (Ok (record { set = found.set.linked; main = found.main.items }))) }
    ensures refused { IfErr result (λ s. (s ≡ Status.OutOfMemory)
        ⊎ ClassesGive class.now (kept_files classes) (Err s)) }
    ensures of_classes { IfErr result IsOfClasses }
{
    let set = link(alloc, classes)?;
    let Ok(main) = internal_name(alloc, class) else {
        return Err(Status::OutOfMemory);
    };
    let Ok(room) = NameRoom::reserve(alloc) else {
        return Err(Status::OutOfMemory);
    };
    Ok(Found { set, main, room })
}
