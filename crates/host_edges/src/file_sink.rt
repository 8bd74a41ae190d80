// A file as a sink.
ghost use Rattle.std.specs.Prelude.{◌≡◌, ◌≤◌, ◌<◌, ◌<ℤ◌, ◌^◌, length, pos, None, IfOk, OnErr};
ghost use Rattle.std.specs.Fd.{file_raw_fd};
ghost use Rattle.std.specs.Option.{ForSome};

use crate::opening::{Unopened, empty_file};
use crate::trouble::Trouble;
use ap_base::{Sink, SinkFailed};
use std::alloc::{AllocError, Global};
use std::fs::File;
use std::os::unix::fs::FileExt;
use std::rt::Files;

/// A file that had no bytes, and that bytes are put into, one behind the other, for this process alone. It tells nothing.
///
/// Its descriptor is none of a standard stream's. One that couldn't be opened fails at every call.
#[derive(Drop)]
pub struct FileSink {
    file: Option<File>,
    trouble: Option<Trouble>,
    faults: u64,
    // how many bytes were put
    length: u64,
    ghost apart: { ForSome file (λ f. pos 2 <ℤ file_raw_fd f) },
    ghost fits: { faults < 2 ^ 64 },
    ghost length_fits: { length < 2 ^ 64 },
}

impl FileSink {
    /// Opens the file that a path leads to, made where it leads to nothing, and locks it until it is closed. One that has bytes already is
    /// refused, and so are a standard stream and what isn't a regular file.
    ///
    /// # Errors
    ///
    /// Want of memory. Whatever else goes wrong gives a sink that fails.
    pub fn at<R: Files<File = File>>(
        rt: &R,
        _alloc: Global,
        path: &str,
    ) -> Result<FileSink, AllocError>
        ensures faultless { IfOk result (λ sink. sink.faults ≡ 0) }
    {
        match empty_file(rt, path) {
            Ok(file) => Ok(FileSink::opened(file)),
            Err(Unopened::Trouble(trouble)) => Ok(FileSink::closed(trouble)),
            Err(Unopened::OutOfMemory) => Err(AllocError),
        }
    }

    fn opened(file: File) -> FileSink
        requires apart { pos 2 <ℤ file_raw_fd file }
        ensures faultless { result.faults ≡ 0 }
    {
        FileSink {
            file: Some(file),
            trouble: None,
            faults: 0,
            length: 0,
        }
    }

    fn closed(trouble: Trouble) -> FileSink
        ensures faultless { result.faults ≡ 0 }
    {
        FileSink {
            file: None,
            trouble: Some(trouble),
            faults: 0,
            length: 0,
        }
    }

    /// Why the file can't be written, as far as the host told it when the file was opened.
    pub fn trouble(&self) -> Option<Trouble> {
        self.trouble
    }

    // Puts a piece, or tells that it can't.
    fn write(&mut self, piece: &[u8]) -> Option<usize>
        ensures few { ForSome result (λ count. count ≤ length piece.now) }
        ensures faults { self.new.faults ≡ self.old.faults }
    {
        let file = self.file.as_ref()?;
        let count = file.write_at(piece, self.length).ok()?;
        self.length = self.length.saturating_add(count as u64);
        Some(count)
    }
}

impl Sink for FileSink {
    ghost use Rattle.std.specs.Prelude.{None};

    ghost faults = { λ o. o.faults };

    ghost taken = { λ _. None };

    ghost takes = { λ _ _ _. None };

    fn put(&mut self, piece: &[u8]) -> Result<usize, SinkFailed> {
        match self.write(piece) {
            Some(count) if count > 0 => Ok(count),
            _ => {
                self.faults = self.faults.saturating_add(1);
                Err(SinkFailed)
            }
        }
    }
}
