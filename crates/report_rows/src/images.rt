// Images as tables of words.

use line_image::{Fails, MemoryImage};
use std::alloc::{AllocError, Global};

pub(crate) const LINES: u64 = 32_768;

/// A word of an image: its line, its place in the line, and what it holds.
pub(crate) type Word = (u32, u8, u64);

/// Three nodes of a class Node with an int v and a reference next, which hold 1, 2 and 3 and lead to one another in a ring; the root
/// Main.head refers to the first.
pub(crate) const RING: [Word; 25] = [
    (0, 0, 0x5352_4550_4F54_5541),
    (0, 1, 1),
    (0, 2, LINES),
    (0, 3, 11),
    (1, 0, 41_154),
    (33, 0, 0x7_0000_0001),
    (33, 1, 0x2_0000_0004),
    (33, 2, 0x6564_6F4E),
    (33, 3, 0x1_0000_0049),
    (33, 4, 0x76),
    (33, 5, 0x4_0000_004C),
    (33, 6, 0x7478_656E),
    (33, 7, 0x4_0000_0002),
    (34, 0, 9),
    (34, 1, 0x6165_682E_6E69_614D),
    (34, 2, 0x64),
    (20_577, 0, 2 << 32),
    (20_577, 1, 1),
    (20_577, 2, 2 * 20_578),
    (20_578, 0, 2 << 32),
    (20_578, 1, 2),
    (20_578, 2, 2 * 20_579),
    (20_579, 0, 2 << 32),
    (20_579, 1, 3),
    (20_579, 2, 2 * 20_577),
];

/// Fails from a call on, with room for 200 writes and fences.
fn fails(alloc: Global, since: u64) -> Fails {
    Fails {
        calls: Vec::new(alloc),
        since,
        room: 200,
    }
}

/// Changes a word, if there is one.
fn put(words: &mut [u64], word: Word) {
    let at = 8 * word.0 as usize + usize::from(word.1);
    if at < words.len() {
        words[at] = word.2;
    }
}

/// An image of these words, and others in their place, zeros elsewhere, which fails from a call on.
pub(crate) fn image(
    alloc: Global,
    first: &[Word],
    changed: &[Word],
    since: u64,
) -> Result<MemoryImage, AllocError> {
    let mut words = vec![in alloc; 0; 8 * LINES as usize]?;
    for word in first {
        put(words.as_mut_slice(), *word);
    }
    for word in changed {
        put(words.as_mut_slice(), *word);
    }
    MemoryImage::of_words(alloc, words.as_slice(), fails(alloc, since))
}
