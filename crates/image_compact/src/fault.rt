// Why a graph isn't written to an image.
ghost use Rattle.std.specs.Prelude.{◌≡◌};
ghost use Rattle.image_compact.specs.declared.fault.WriteFault.TheVariants.{ImageFailed as Failed, OutOfMemory as NoMemory};

use line_image::ImageFailed;
use run_types::Full;
use std::alloc::{AllocError, AllocFailed};

/// Why a graph couldn't be written to an image.
#[derive(Clone, Copy, Debug, PartialEq, Eq)]
pub enum WriteFault {
    /// The image isn't blank.
    NotBlank,
    /// The image has too few words for the directory, or else too few lines for the objects.
    Full(Full),
    /// The image failed.
    ImageFailed,
    /// No memory is left.
    OutOfMemory,
}

impl From<AllocError> for WriteFault {
    ghost from_gives = { λ _ e. e ≡ NoMemory };

    fn from(_: AllocError) -> Self {
        WriteFault::OutOfMemory
    }
}

impl<T: Drop> From<AllocFailed<T>> for WriteFault {
    ghost from_gives = { λ _ e. e ≡ NoMemory };

    fn from(_: AllocFailed<T>) -> Self {
        WriteFault::OutOfMemory
    }
}

impl From<ImageFailed> for WriteFault {
    ghost from_gives = { λ _ e. e ≡ Failed };

    fn from(_: ImageFailed) -> Self {
        WriteFault::ImageFailed
    }
}
