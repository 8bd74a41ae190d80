// Why an image isn't opened.
ghost use Rattle.std.specs.Prelude.{◌≡◌};
ghost use Rattle.set_opening.specs.declared.unopened.Unopened.TheVariants.{OutOfMemory as NoMemory};

use ap_base::Bytes;
use image_layout::BadReason;
use run_types::Full;
use std::alloc::{AllocError, AllocFailed};

/// Why an image couldn't be opened for a class set.
#[derive(Drop, Debug)]
pub enum Unopened {
    /// The first check of the image that fails does so at this line, for this reason.
    BadImage { line: u32, reason: BadReason },
    /// The first shape of its directory that doesn't agree with the class set has this name.
    ShapeChanged { name: Bytes },
    /// Its directory has too little room for what it lacks.
    Full(Full),
    ImageFailed,
    OutOfMemory,
}

impl From<AllocError> for Unopened {
    ghost from_gives = { λ _ e. e ≡ NoMemory };

    fn from(_: AllocError) -> Self {
        Unopened::OutOfMemory
    }
}

impl<T: Drop> From<AllocFailed<T>> for Unopened {
    ghost from_gives = { λ _ e. e ≡ NoMemory };

    fn from(_: AllocFailed<T>) -> Self {
        Unopened::OutOfMemory
    }
}
