// Why an image isn't opened.
ghost use Rattle.image_opening.specs.Unopened.{IsOfAttach, IsOfRecovery};

use image_layout::BadReason;
use image_walk::RecoverFault;
use line_memory::AttachFault;
use thiserror::Error;

/// Why an image couldn't be opened.
#[derive(Clone, Copy, Debug, PartialEq, Eq, Error)]
pub enum NotOpened {
    /// The first check that fails does so at this line, for this reason.
    #[error("line {line} of the image is wrong: {reason}")]
    BadImage { line: u32, reason: BadReason },
    #[error("the image failed")]
    ImageFailed,
    #[error("no memory is left")]
    OutOfMemory,
}

/// Why an image that couldn't be attached isn't opened.
pub(crate) fn of_attach(fault: AttachFault) -> NotOpened
    ensures { IsOfAttach fault result }
{
    match fault {
        AttachFault::Size => NotOpened::BadImage {
            line: 0,
            reason: BadReason::Size,
        },
        AttachFault::ImageFailed => NotOpened::ImageFailed,
        AttachFault::OutOfMemory => NotOpened::OutOfMemory,
    }
}

/// Why one that couldn't be recovered isn't.
pub(crate) fn of_recovery(fault: RecoverFault) -> NotOpened
    ensures { IsOfRecovery fault result }
{
    match fault {
        RecoverFault::Bad { line, reason } => NotOpened::BadImage { line, reason },
        RecoverFault::ImageFailed => NotOpened::ImageFailed,
        RecoverFault::OutOfMemory => NotOpened::OutOfMemory,
    }
}
