// An image is attached and fenced.
ghost use Rattle.std.specs.Prelude.{◌≡◌, IfOk, IfErr};
ghost use Rattle.ap_base.specs.Causes.{IsCauseOf};
ghost use Rattle.image_opening.specs.Attached.{IsAttached};
ghost use Rattle.image_opening.specs.Unopened.{IsUnattached};

use crate::not_opened::{NotOpened, of_attach};
use line_image::Image;
use line_memory::{LineMemory, every_line_is_resident};
use std::alloc::Global;

/// Attaches an image, and fences what an earlier process wrote to it and didn't fence; or tells why
/// not, and gives it back.
pub(crate) fn attach<I: Image>(alloc: Global, image: I) -> Result<LineMemory<I>, (NotOpened, I)>
    ensures attached { IfOk result (IsAttached (I.told image)) }
    ensures spared { IfOk result (λ m. m.faults ≡ I.faults image) }
    ensures unattached { IfErr result (λ e. IsUnattached (I.told image) (I.told e.1) e.0) }
    ensures cause { IfErr result (λ e. IsCauseOf NotOpened.ImageFailed e.0 (I.faults image) (I.faults e.1)) }
{
    every_line_is_resident();
    let mut memory = match LineMemory::attach(alloc, image) {
        Ok(memory) => memory,
        Err((fault, image)) => return Err((of_attach(fault), image)),
    };
    match memory.fence() {
        Ok(()) => Ok(memory),
        Err(_) => Err((NotOpened::ImageFailed, memory.into_image())),
    }
}
