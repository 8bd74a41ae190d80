// Why an image isn't written anew.
ghost use Rattle.compact_call.specs.Faults.{IsOfOpening, IsOfAttach, IsOfWrite};

use image_compact::WriteFault;
use image_layout::BadReason;
use image_opening::NotOpened;
use line_memory::AttachFault;
use run_types::Full;
use statuses::NewReason;

/// Why an image couldn't be written anew.
#[derive(Clone, Copy, Debug, PartialEq, Eq)]
pub enum CompactFault {
    /// The first check of the old image that fails does so at this line, for this reason.
    BadImage { line: u32, reason: BadReason },
    /// The new image can't be taken.
    NewImage(NewReason),
    /// The new image has too few lines.
    Full(Full),
    /// One of the images failed.
    ImageFailed,
    /// The sink failed, once the new image was written.
    SinkFailed,
    /// No memory is left.
    OutOfMemory,
}

/// Why the old image couldn't be opened.
pub(crate) fn of_opening(fault: NotOpened) -> CompactFault
    ensures { IsOfOpening fault result }
{
    match fault {
        NotOpened::BadImage { line, reason } => CompactFault::BadImage { line, reason },
        NotOpened::ImageFailed => CompactFault::ImageFailed,
        NotOpened::OutOfMemory => CompactFault::OutOfMemory,
    }
}

/// Why the new image couldn't be attached.
pub(crate) fn of_attach(fault: AttachFault) -> CompactFault
    ensures { IsOfAttach fault result }
{
    match fault {
        AttachFault::Size => CompactFault::NewImage(NewReason::Size),
        AttachFault::ImageFailed => CompactFault::ImageFailed,
        AttachFault::OutOfMemory => CompactFault::OutOfMemory,
    }
}

/// Why the graph couldn't be written to it.
pub(crate) fn of_write(fault: WriteFault) -> CompactFault
    ensures { IsOfWrite fault result }
{
    match fault {
        WriteFault::NotBlank => CompactFault::NewImage(NewReason::NotBlank),
        WriteFault::Full(full) => CompactFault::Full(full),
        WriteFault::ImageFailed => CompactFault::ImageFailed,
        WriteFault::OutOfMemory => CompactFault::OutOfMemory,
    }
}
