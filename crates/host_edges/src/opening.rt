// An image's file is opened, or made.
ghost use Rattle.std.specs.Prelude.{◌≡◌, ◌≢◌, ◌<ℤ◌, pos, IfOk};
ghost use Rattle.std.specs.Fd.{file_raw_fd};
ghost use Rattle.std.specs.IoError.{error_kind};

use crate::trouble::{Trouble, refused};
use std::fs::{File, Metadata, OpenOptions, TryLockError};
use std::io::ErrorKind;
use std::os::fd::{AsRawFd, RawFd};
use std::os::unix::fs::MetadataExt;
use std::rt::Files;
use std::{fs, io};

/// The bytes of a line.
pub(crate) const LINE_BYTES: u64 = 64;

// The highest number of a standard stream.
const LAST_STREAM: RawFd = 2;

// Where the system shows what is open as a standard stream (proc(5)).
const STREAMS: [&str; 3] = ["/proc/self/fd/0", "/proc/self/fd/1", "/proc/self/fd/2"];

/// Why there is no open file.
#[derive(Clone, Copy)]
pub(crate) enum Unopened {
    Trouble(Trouble),
    OutOfMemory,
}

fn why(error: &io::Error) -> Unopened
    ensures memory { result ≡ Unopened.OutOfMemory → error_kind error.now ≡ ErrorKind.OutOfMemory }
{
    if error.kind() == ErrorKind::OutOfMemory {
        Unopened::OutOfMemory
    } else {
        Unopened::Trouble(refused(error))
    }
}

// Whether a standard stream is this file.
fn is_stream(rt: &impl Files<File = File>, image: &Metadata) -> bool {
    for stream in STREAMS {
        if let Ok(it) = fs::metadata(rt, stream) {
            if it.dev() == image.dev() && it.ino() == image.ino() {
                return true;
            }
        }
    }
    false
}

// A file that is no standard stream, for this process alone, and how many bytes it has.
fn locked(rt: &impl Files<File = File>, file: File) -> Result<(File, u64), Trouble>
    ensures apart { IfOk result (λ opened. pos 2 <ℤ file_raw_fd opened.0) }
{
    let Ok(metadata) = file.metadata() else {
        return Err(Trouble::Other);
    };
    if file.as_raw_fd() <= LAST_STREAM || is_stream(rt, &metadata) {
        return Err(Trouble::Stream);
    }
    match file.try_lock() {
        Ok(()) => Ok((file, metadata.len())),
        Err(TryLockError::WouldBlock) => Err(Trouble::Locked),
        Err(TryLockError::Error(_)) => Err(Trouble::Other),
    }
}

fn lengthen(file: &File, bytes: u64) -> io::Result<()> {
    file.set_len(bytes)?;
    file.sync_all()
}

// A new file of zeros. None stays behind that couldn't be lengthened or kept.
fn create(rt: &impl Files<File = File>, path: &str, bytes: u64) -> Result<(File, u64), Unopened>
    ensures apart { IfOk result (λ opened. pos 2 <ℤ file_raw_fd opened.0) }
{
    let file = match File::create_new(rt, path) {
        Ok(file) => file,
        Err(error) => return Err(why(&error)),
    };
    let (file, _none) = match locked(rt, file) {
        Ok(opened) => opened,
        Err(trouble) => return Err(Unopened::Trouble(trouble)),
    };
    match lengthen(&file, bytes) {
        Ok(()) => Ok((file, bytes)),
        Err(error) => {
            let _removed = fs::remove_file(rt, path);
            Err(why(&error))
        }
    }
}

// A pipe would wait for its reader.
fn is_irregular(rt: &impl Files<File = File>, path: &str) -> bool {
    match fs::metadata(rt, path) {
        Ok(metadata) => !metadata.is_file(),
        Err(_) => false,
    }
}

/// Opens a file to write that has no bytes yet, for this process alone; it is made where there is none.
pub(crate) fn empty_file(rt: &impl Files<File = File>, path: &str) -> Result<File, Unopened>
    ensures apart { IfOk result (λ file. pos 2 <ℤ file_raw_fd file) }
{
    if is_irregular(rt, path) {
        return Err(Unopened::Trouble(Trouble::Irregular));
    }
    match OpenOptions::new().write(true).create(true).open(rt, path) {
        Ok(file) => match locked(rt, file) {
            Ok((file, 0)) => Ok(file),
            Ok(_) => Err(Unopened::Trouble(Trouble::Used)),
            Err(trouble) => Err(Unopened::Trouble(trouble)),
        },
        Err(error) => Err(why(&error)),
    }
}

/// Opens a file to read and write, for this process alone, and tells how many bytes it has. Where there is none, and a number
/// of lines is given, a file of so many lines of zeros is made. One that is there is neither cut nor lengthened.
pub(crate) fn open_file(
    rt: &impl Files<File = File>,
    path: &str,
    lines: Option<u64>,
) -> Result<(File, u64), Unopened>
    ensures apart { IfOk result (λ opened. pos 2 <ℤ file_raw_fd opened.0) }
{
    let error = match OpenOptions::new().read(true).write(true).open(rt, path) {
        Ok(file) => return locked(rt, file).map_err(Unopened::Trouble),
        Err(error) => error,
    };
    match lines {
        Some(lines) if error.kind() == ErrorKind::NotFound => create(
            rt,
            path,
            lines.saturating_mul(LINE_BYTES),
        ),
        _ => Err(why(&error)),
    }
}
