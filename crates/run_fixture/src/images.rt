// Images in memory, and what they hold.
use line_image::{Fails, Image, MemoryImage};
use std::alloc::{AllocError, Global};

/// The lines of an image.
pub const LINES: u64 = 32_768;

/// No call of an image fails.
pub fn no_fails(alloc: Global) -> Fails {
    Fails {
        calls: Vec::new(alloc),
        since: u64::MAX,
        room: 20_000,
    }
}

/// An image of zeros.
pub fn blank(alloc: Global) -> Result<MemoryImage, AllocError> {
    MemoryImage::new(alloc, LINES, no_fails(alloc))
}

/// A word of an image; none where it isn't there.
pub fn word_of(image: &MemoryImage, line: u64, word: u8) -> Option<u64> {
    if line < image.lines() && word < 8 {
        Some(image.word(line, word))
    } else {
        None
    }
}

/// The words of a line, zeros behind the last line.
pub fn line_of(image: &MemoryImage, line: u64) -> [u64; 8] {
    let mut words = [0; 8];
    for word in 0..8 {
        words[word as usize] = word_of(image, line, word).unwrap_or(0);
    }
    words
}
