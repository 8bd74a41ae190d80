// An image is opened, whatever the class set.
ghost use Rattle.std.specs.Prelude.{◌≡◌, IfOk, IfErr};
ghost use Rattle.ap_base.specs.Causes.{IsCauseOf};
ghost use Rattle.line_memory.specs.Memory.{Memory};
ghost use Rattle.set_opening.specs.Found.{IsFound};
ghost use Rattle.set_opening.specs.Unopened.{IsOfOpening, IsUnfound};

use crate::unopened::Unopened;
use first_spaces::a_run_can_begin_over_recovered_images;
use image_opening::{NotOpened, open_image};
use image_recovery::Recovered;
use line_image::Image;
use std::alloc::Global;

/// Why an image that couldn't be opened isn't.
fn of_opening(fault: NotOpened) -> Unopened
    ensures { IsOfOpening fault result }
{
    match fault {
        NotOpened::BadImage { line, reason } => Unopened::BadImage { line, reason },
        NotOpened::ImageFailed => Unopened::ImageFailed,
        NotOpened::OutOfMemory => Unopened::OutOfMemory,
    }
}

/// Opens an image; or tells why not, and gives it back.
pub(crate) fn find<I: Image>(alloc: Global, image: I) -> Result<Recovered<I>, (Unopened, I)>
    ensures found { IfOk result (λ r. (before : Memory)
        × IsFound (I.told image) before r.memory r.directory r.graph r.lines r.free) }
    ensures spared { IfOk result (λ r. r.memory.faults ≡ I.faults image) }
    ensures unfound { IfErr result (λ e. IsUnfound (I.told image) (I.told e.1) e.0) }
    ensures cause { IfErr result (λ e. IsCauseOf Unopened.ImageFailed e.0 (I.faults image) (I.faults e.1)) }
{
    a_run_can_begin_over_recovered_images();
    match open_image(alloc, image) {
        Ok(recovered) => Ok(recovered),
        Err((fault, image)) => Err((of_opening(fault), image)),
    }
}
