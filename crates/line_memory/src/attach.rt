// Reads all lines of an image.
ghost use Rattle.std.specs.Prelude.{◌≡◌, ◌+◌, ◌-◌, ◌^◌, min, ◌<◌, ◌≤◌, ℕ, [], length, get_or, OnOk, IfOk, IsErrOf};
ghost use Rattle.ap_base.specs.Causes.{HasCauseOf};
ghost use Rattle.line_image.specs.Trace.{Reads};
ghost use Rattle.line_memory.specs.declared.attach.AttachFault.TheVariants.{OutOfMemory as NoMemory, ImageFailed as Failed};

use line_image::{Image, ImageFailed};
use std::alloc::{AllocError, AllocFailed, Global};
use thiserror::Error;

/// Why an image couldn't be attached.
#[derive(Clone, Copy, Debug, PartialEq, Eq, Error)]
pub enum AttachFault {
    #[error("the image has fewer than 32768 or more than 4194304 lines")]
    Size,
    #[error("the image failed")]
    ImageFailed,
    #[error("no memory is left")]
    OutOfMemory,
}

impl From<AllocError> for AttachFault {
    ghost from_gives = { λ _ e. e ≡ NoMemory };

    fn from(_: AllocError) -> Self {
        AttachFault::OutOfMemory
    }
}

impl<T: Drop> From<AllocFailed<T>> for AttachFault {
    ghost from_gives = { λ _ e. e ≡ NoMemory };

    fn from(_: AllocFailed<T>) -> Self {
        AttachFault::OutOfMemory
    }
}

impl From<ImageFailed> for AttachFault {
    ghost from_gives = { λ _ e. e ≡ Failed };

    fn from(_: ImageFailed) -> Self {
        AttachFault::ImageFailed
    }
}

/// Reads each line once, in order.
pub(crate) fn read_lines<I: Image>(
    alloc: Global,
    image: &mut I,
    count: u64,
) -> Result<Vec<[u64; 8]>, AttachFault>
    requires { count ≡ (I.told image.old).size }
    ensures size { (I.told image.new).size ≡ (I.told image.old).size }
    ensures same { (I.told image.new).trace ≡ (I.told image.old).trace }
    ensures length { IfOk result (λ lines. length lines.items ≡ count) }
    ensures reads { IfOk result (λ lines. (k : ℕ) → k < count
        → Reads (I.told image.old).trace k (get_or lines.items k [])) }
    ensures calls { OnOk result ((I.told image.new).calls
        ≡ min ((I.told image.old).calls + count) (2 ^ 64 - 1)) }
    ensures calls_later { (I.told image.old).calls ≤ (I.told image.new).calls }
    ensures cause { HasCauseOf AttachFault.ImageFailed (I.faults image.old) (I.faults image.new) result }
    ensures never { IsErrOf result AttachFault.Size → ⊥ }
{
    let mut lines = Vec::with_capacity(alloc, count as usize)?;
    for line in 0..count {
        let mut words = [0; 8];
        image.read_line(line, &mut words)?;
        lines.push(words)?;
    }
    Ok(lines)
}
