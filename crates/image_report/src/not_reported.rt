// Why nothing is reported of an image.
use image_opening::NotOpened;
use thiserror::Error;

/// Why a command about an image didn't do its work.
#[derive(Clone, Copy, Debug, PartialEq, Eq, Error)]
pub enum NotReported {
    /// The image couldn't be opened.
    #[error("{0}")]
    Unopened(NotOpened),
    /// The sink failed while the text was put.
    #[error("the sink failed")]
    SinkFailed,
    #[error("no memory is left")]
    OutOfMemory,
}
