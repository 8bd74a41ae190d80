// Why an image isn't recovered.
ghost use Rattle.std.specs.Prelude.{◌≡◌};
ghost use Rattle.image_walk.specs.declared.fault.RecoverFault.TheVariants.{ImageFailed as Failed, OutOfMemory as NoMemory};

use image_layout::BadReason;
use line_image::ImageFailed;
use std::alloc::{AllocError, AllocFailed};
use thiserror::Error;

/// Why an image couldn't be recovered.
#[derive(Clone, Copy, Debug, PartialEq, Eq, Error)]
pub enum RecoverFault {
    /// The first check that fails does so at this line, for this reason.
    #[error("line {line} of the image is wrong: {reason}")]
    Bad { line: u32, reason: BadReason },
    #[error("the image failed")]
    ImageFailed,
    #[error("no memory is left")]
    OutOfMemory,
}

impl From<AllocError> for RecoverFault {
    ghost from_gives = { λ _ e. e ≡ NoMemory };

    fn from(_: AllocError) -> Self {
        RecoverFault::OutOfMemory
    }
}

impl<T: Drop> From<AllocFailed<T>> for RecoverFault {
    ghost from_gives = { λ _ e. e ≡ NoMemory };

    fn from(_: AllocFailed<T>) -> Self {
        RecoverFault::OutOfMemory
    }
}

impl From<ImageFailed> for RecoverFault {
    ghost from_gives = { λ _ e. e ≡ Failed };

    fn from(_: ImageFailed) -> Self {
        RecoverFault::ImageFailed
    }
}
