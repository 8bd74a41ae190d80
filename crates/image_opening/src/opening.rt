// An image is attached, fenced and recovered.
ghost use Rattle.std.specs.Prelude.{◌≡◌, IfOk, IfErr};
ghost use Rattle.ap_base.specs.Causes.{IsCauseOf};
ghost use Rattle.line_memory.specs.Memory.{Memory};
ghost use Rattle.image_opening.specs.Attached.{IsSettled};
ghost use Rattle.image_opening.specs.Opened.{IsOpenImage};
ghost use Rattle.image_opening.specs.Stops.{KeepsItsGraph};
ghost use Rattle.image_opening.specs.Unopened.{IsBadThere, IsUnopened};

use crate::attaching::attach;
use crate::not_opened::{NotOpened, of_recovery};
use image_recovery::{Recovered, recover};
use line_image::Image;
use line_memory::every_line_is_resident;
use std::alloc::Global;

/// Opens an image: reads its lines, fences what an earlier process wrote to it and didn't fence, and recovers it. A blank one is
/// formatted, and stands for the graph without roots and nodes. At any stop, whatever is answered, the image stands for the graph
/// for which it stood.
///
/// # Errors
///
/// With each the image is given back. `BadImage` exactly where a check fails, the first one: that of the number of lines, of the
/// superblock, the directory, the logs, the root slots, or the objects; then nothing was written but words that the logs put back.
/// `ImageFailed` exactly where the image failed, once.
pub fn open_image<I: Image>(alloc: Global, image: I) -> Result<Recovered<I>, (NotOpened, I)>
    ensures opened { IfOk result (λ r. (before : Memory) × IsOpenImage (I.told image) before
        r.memory r.version r.directory r.graph r.lines r.free r.undone) }
    ensures unopened { IfErr result (λ e. IsUnopened (I.told image) (I.told e.1) e.0) }
    ensures bad { IfErr result (λ e. IsBadThere (I.told image) e.0) }
    ensures stops { IfOk result (λ r. IsSettled (I.told image) → KeepsItsGraph (I.told image) r.memory.image) }
    ensures stops_unopened { IfErr result (λ e. IsSettled (I.told image) → KeepsItsGraph (I.told image) (I.told e.1)) }
    ensures spared { IfOk result (λ r. r.memory.faults ≡ I.faults image) }
    ensures cause { IfErr result (λ e. IsCauseOf NotOpened.ImageFailed e.0 (I.faults image) (I.faults e.1)) }
{
    every_line_is_resident();
    let memory = match attach(alloc, image) {
        Ok(memory) => memory,
        Err(given_back) => return Err(given_back),
    };
    match recover(alloc, memory) {
        Ok(recovered) => Ok(recovered),
        Err((fault, memory)) => Err((of_recovery(fault), memory.into_image())),
    }
}
