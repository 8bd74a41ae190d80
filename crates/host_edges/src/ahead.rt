// Lines of an image file that are read together, before they are asked for.
ghost use Rattle.std.specs.Prelude.{◌≤◌, ◌<◌, ◌*◌, ◌^◌, length};

use crate::opening::LINE_BYTES;
use std::alloc::{AllocError, Global};
use std::fs::File;
use std::io;
use std::os::unix::fs::FileExt;

// How many lines are read together.
const LINES: u64 = 256;

/// Lines of a file, one behind another: an image is mostly read from its first line to its last, and a call of the system for
/// each line would take most of the time of opening it.
#[derive(Drop)]
pub(crate) struct Ahead {
    bytes: Vec<u8>,
    from: u64,
    count: u64,
    ghost within: { count * 64 ≤ length bytes.items },
}

/// The words of a line's bytes, the lowest byte first.
pub(crate) fn words_of(bytes: &[u8]) -> [u64; 8] {
    let mut words = [0u64; 8];
    for (word, eight) in words.iter_mut().zip(bytes.chunks_exact(8)) {
        *word = u64::from_le_bytes([
            eight[0], eight[1], eight[2], eight[3], eight[4], eight[5], eight[6], eight[7],
        ]);
    }
    words
}

impl Ahead {
    /// Room for lines, of which none is read yet.
    ///
    /// # Errors
    ///
    /// Want of memory.
    pub(crate) fn new(alloc: Global) -> Result<Ahead, AllocError> {
        Ok(Ahead {
            bytes: Vec::from_elem(alloc, 0, (LINES * LINE_BYTES) as usize)?,
            from: 0,
            count: 0,
        })
    }

    // How many lines there is room for.
    fn room(&self) -> u64
        ensures { result * 64 ≤ length self.now.bytes.items }
    {
        self.bytes.len() as u64 / LINE_BYTES
    }

    /// The words of a line, if it was read.
    pub(crate) fn words(&self, line: u64) -> Option<[u64; 8]> {
        if line < self.from {
            return None;
        }
        let behind = line - self.from;
        if behind >= self.count {
            return None;
        }
        let at = (behind * LINE_BYTES) as usize;
        Some(words_of(&self.bytes.as_slice()[at..at + LINE_BYTES as usize]))
    }

    /// Reads a line of a file of so many lines, and those behind it for which there is room.
    ///
    /// # Errors
    ///
    /// What the file gave, where they can't be read together: then none is kept.
    pub(crate) fn read(&mut self, file: &File, line: u64, lines: u64) -> io::Result<()>
        requires line { line < lines }
        requires places { lines * 64 < 2 ^ 64 }
    {
        self.count = 0;
        let count = self.room().min(lines - line);
        let bytes = &mut self.bytes.as_mut_slice()[..(count * LINE_BYTES) as usize];
        file.read_exact_at(bytes, line * LINE_BYTES)?;
        self.from = line;
        // the room again, which reading leaves as it is
        self.count = self.room().min(count);
        Ok(())
    }

    /// What was read counts no more.
    pub(crate) fn forget(&mut self) {
        self.count = 0;
    }
}
