// Why a file can't serve as an image.
ghost use Rattle.std.specs.Prelude.{◌≡◌, ◌≤◌, ◌↔◌, None};
ghost use Rattle.std.specs.IoError.{error_kind};

use std::fmt::{Display, Formatter};
use std::io::ErrorKind;
use std::{fmt, io};

const LEAST_BYTES: u64 = 2_097_152;

/// Why a file can't serve as an image, as the host tells it.
#[derive(Clone, Copy, Debug, PartialEq, Eq)]
pub enum Trouble {
    /// There is no such file.
    Absent,
    /// It may not be read and written.
    Forbidden,
    /// It is a folder.
    Folder,
    /// Another process has locked it.
    Locked,
    /// It is open as a standard stream.
    Stream,
    /// It has this many bytes, less than any image.
    TooShort(u64),
    /// It isn't a regular file.
    Irregular,
    /// It has bytes already.
    Used,
    /// Something else went wrong.
    Other,
}

impl Trouble {
    /// What is wrong with a file of so many bytes, if anything.
    pub fn of_length(bytes: u64) -> Option<Trouble>
        ensures enough { (result ≡ None) ↔ (2097152 ≤ bytes) }
    {
        if bytes < LEAST_BYTES {
            Some(Trouble::TooShort(bytes))
        } else {
            None
        }
    }
}

/// Why a file couldn't be opened to read and write.
pub fn refused(error: &io::Error) -> Trouble
    ensures absent { (result ≡ Trouble.Absent) ↔ (error_kind error.now ≡ ErrorKind.NotFound) }
    ensures forbidden { (result ≡ Trouble.Forbidden) ↔ (error_kind error.now ≡ ErrorKind.PermissionDenied) }
    ensures folder { (result ≡ Trouble.Folder) ↔ (error_kind error.now ≡ ErrorKind.IsADirectory) }
{
    match error.kind() {
        ErrorKind::NotFound => Trouble::Absent,
        ErrorKind::PermissionDenied => Trouble::Forbidden,
        ErrorKind::IsADirectory => Trouble::Folder,
        _ => Trouble::Other,
    }
}

impl Display for Trouble {
    fn fmt<W: fmt::Write>(&self, f: &mut Formatter<W>) -> fmt::Result {
        match self {
            Trouble::Absent => write!(f, "no such file"),
            Trouble::Forbidden => write!(f, "it may not be read and written"),
            Trouble::Folder => write!(f, "a folder"),
            Trouble::Locked => write!(f, "locked by another process"),
            Trouble::Stream => write!(f, "open as a standard stream"),
            Trouble::TooShort(bytes) => write!(
                f,
                "too short: {bytes} bytes, at least {LEAST_BYTES}"
            ),
            Trouble::Irregular => write!(f, "no regular file"),
            Trouble::Used => write!(f, "it isn't empty"),
            Trouble::Other => write!(f, "it can't be opened"),
        }
    }
}
