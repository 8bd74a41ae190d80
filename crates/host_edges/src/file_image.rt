// An image file.
ghost use Rattle.std.specs.Prelude.{◌≡◌, ◌≤◌, ◌<◌, ◌*◌, ◌^◌, ◌<ℤ◌, pos, IfOk, OnErr};
ghost use Rattle.std.specs.Fd.{file_raw_fd};
ghost use Rattle.std.specs.Option.{ForSome};

use crate::ahead::{Ahead, words_of};
use crate::opening::{LINE_BYTES, Unopened, open_file};
use crate::trouble::Trouble;
use line_image::{Image, ImageFailed};
use std::alloc::{AllocError, Global};
use std::fs::File;
use std::io;
use std::os::unix::fs::FileExt;
use std::rt::Files;

const CLOSED_LINES: u64 = 32_768;

/// A file as an image, for this process alone: as many lines as it has whole 64 bytes. It tells nothing.
///
/// Its descriptor is none of a standard stream's, and where the system tells which file a stream is, the image is no such file: so no
/// printed byte is written to it. One that couldn't be opened, or is open in another process, shows 32,768 lines, and each call fails.
#[derive(Drop)]
pub struct FileImage {
    file: Option<File>,
    trouble: Option<Trouble>,
    ahead: Ahead,
    lines: u64,
    calls: u64,
    faults: u64,
    ghost apart: { ForSome file (λ f. pos 2 <ℤ file_raw_fd f) },
    ghost places_fit: { lines * 64 < 2 ^ 64 },
    ghost calls_fit: { calls < 2 ^ 64 },
    ghost faults_fit: { faults < 2 ^ 64 },
}

// One line, which is there.
fn read_words(file: &File, at: u64) -> io::Result<[u64; 8]> {
    let mut bytes = [0u8; 64];
    file.read_exact_at(&mut bytes, at)?;
    Ok(words_of(&bytes))
}

fn write_words(file: &File, at: u64, words: &[u64; 8]) -> io::Result<()> {
    let mut bytes = [0u8; 64];
    for (word, eight) in words.iter().zip(bytes.chunks_exact_mut(8)) {
        eight.copy_from_slice(&word.to_le_bytes());
    }
    file.write_all_at(&bytes, at)
}

// A line of a file of so many, from those that were read ahead, or read now with some behind it. Where these can't be read
// together, it is read alone.
fn read_ahead(ahead: &mut Ahead, file: &File, line: u64, lines: u64) -> io::Result<[u64; 8]>
    requires line { line < lines }
    requires places { lines * 64 < 2 ^ 64 }
{
    if let Some(words) = ahead.words(line) {
        return Ok(words);
    }
    if ahead.read(file, line, lines).is_ok() {
        if let Some(words) = ahead.words(line) {
            return Ok(words);
        }
    }
    read_words(file, line * LINE_BYTES)
}

impl FileImage {
    ghost use Rattle.ap_base.specs.Causes.{HasCause, next_count};
    ghost use Rattle.host_edges.specs.Images.{file_told};

    /// Opens the file that a path leads to, and locks it until it is closed. Where it leads to nothing and `create` is a number
    /// of lines, a file of so many lines of zeros is made; a file that is there is neither cut nor lengthened. That a new file's
    /// name stays in its folder is up to the host.
    ///
    /// # Errors
    ///
    /// Want of memory. Whatever else goes wrong gives a closed image.
    pub fn at<R: Files<File = File>>(
        rt: &R,
        alloc: Global,
        path: &str,
        create: Option<u64>,
    ) -> Result<FileImage, AllocError>
        ensures uncalled { IfOk result (λ image. (file_told image).calls ≡ 0) }
        ensures faultless { IfOk result (λ image. image.faults ≡ 0) }
    {
        let ahead = Ahead::new(alloc)?;
        match open_file(rt, path, create) {
            Ok((file, bytes)) => Ok(FileImage::opened(file, bytes, ahead)),
            Err(Unopened::Trouble(trouble)) => Ok(FileImage::closed(trouble, ahead)),
            Err(Unopened::OutOfMemory) => Err(AllocError),
        }
    }

    fn opened(file: File, bytes: u64, ahead: Ahead) -> FileImage
        requires apart { pos 2 <ℤ file_raw_fd file }
        ensures uncalled { (file_told result).calls ≡ 0 }
        ensures faultless { result.faults ≡ 0 }
    {
        FileImage {
            file: Some(file),
            trouble: Trouble::of_length(bytes),
            ahead,
            lines: bytes / LINE_BYTES,
            calls: 0,
            faults: 0,
        }
    }

    fn closed(trouble: Trouble, ahead: Ahead) -> FileImage
        ensures uncalled { (file_told result).calls ≡ 0 }
        ensures faultless { result.faults ≡ 0 }
    {
        FileImage {
            file: None,
            trouble: Some(trouble),
            ahead,
            lines: CLOSED_LINES,
            calls: 0,
            faults: 0,
        }
    }

    /// Why the file can't serve as an image, as far as the host told it when the file was opened.
    pub fn trouble(&self) -> Option<Trouble> {
        self.trouble
    }

    // What a call on the file gave, with the counts of calls and faults.
    fn counted<T: Drop>(&mut self, done: io::Result<T>) -> Result<T, ImageFailed>
        ensures calls { self.new.calls ≡ next_count self.old.calls }
        ensures lines { self.new.lines ≡ self.old.lines }
        ensures cause { HasCause self.old.faults self.new.faults result }
    {
        self.calls = self.calls.saturating_add(1);
        match done {
            Ok(value) => Ok(value),
            Err(_) => {
                self.faults = self.faults.saturating_add(1);
                Err(ImageFailed)
            }
        }
    }
}

fn no_file() -> io::Error {
    io::Error::from(io::ErrorKind::NotFound)
}

impl Image for FileImage {
    ghost use Rattle.host_edges.specs.Images.{file_told, in_order_always};

    ghost told = { file_told };

    ghost faults = { λ i. i.faults };

    fn lines(&self) -> u64 {
        self.lines
    }

    fn read_line(&mut self, line: u64, into: &mut [u64; 8]) -> Result<(), ImageFailed> {
        let read = match &self.file {
            Some(file) => read_ahead(&mut self.ahead, file, line, self.lines),
            None => Err(no_file()),
        };
        *into = self.counted(read)?;
        Ok(())
    }

    fn write_line(&mut self, line: u64, words: &[u64; 8]) -> Result<(), ImageFailed> {
        self.ahead.forget();
        let written = match &self.file {
            Some(file) => write_words(file, line * LINE_BYTES, words),
            None => Err(no_file()),
        };
        self.counted(written)
    }

    fn fence(&mut self) -> Result<(), ImageFailed> {
        let fenced = match &self.file {
            Some(file) => file.sync_data(),
            None => Err(no_file()),
        };
        self.counted(fenced)
    }

    ghost in_order = { in_order_always };
}
