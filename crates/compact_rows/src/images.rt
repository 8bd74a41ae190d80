// Images of three nodes in a circle, as tables of words.
ghost use Rattle.std.specs.Prelude.{◌<◌, ◌≤◌, ◌^◌};

use ap_base::MemorySink;
use line_image::{Fails, Image, MemoryImage};
use std::alloc::{AllocError, Global};

pub(crate) const LINES: u64 = 32_768;

/// A word of an image: its line, its place in the line, and what it holds.
pub(crate) type Word = (u32, u8, u64);

/// The root Main.head refers to the first of three Nodes, each with an int v and a reference next to the next. They lie at lines
/// 20,600, 20,580 and 20,590. Nothing reaches the object at line 20,577, whose shape is U. Log 0 counts no entry, but has one.
pub(crate) const SPARSE: [Word; 29] = [
    (0, 0, 0x5352_4550_4F54_5541),
    (0, 1, 1),
    (0, 2, LINES),
    (0, 3, 14),
    (1, 0, 2 * 20_600),
    (33, 0, 0x3_0000_0001),
    (33, 1, 1),
    (33, 2, 0x55),
    (33, 3, 0x7_0000_0001),
    (33, 4, 0x2_0000_0004),
    (33, 5, 0x6564_6F4E),
    (33, 6, 0x1_0000_0049),
    (33, 7, 0x76),
    (34, 0, 0x4_0000_004C),
    (34, 1, 0x7478_656E),
    (34, 2, 0x4_0000_0002),
    (34, 3, 9),
    (34, 4, 0x6165_682E_6E69_614D),
    (34, 5, 0x64),
    (4_130, 0, 8),
    (20_600, 0, 0x2_0000_0001),
    (20_600, 1, 1),
    (20_600, 2, 2 * 20_580),
    (20_580, 0, 0x2_0000_0001),
    (20_580, 1, 2),
    (20_580, 2, 2 * 20_590),
    (20_590, 0, 0x2_0000_0001),
    (20_590, 1, 3),
    (20_590, 2, 2 * 20_600),
];

/// The same graph where each node lies at the first line that is left, and the directory has the shape Node alone.
pub(crate) const DENSE: [Word; 25] = [
    (0, 0, 0x5352_4550_4F54_5541),
    (0, 1, 1),
    (0, 2, LINES),
    (0, 3, 11),
    (1, 0, 41_154),
    (33, 0, 0x7_0000_0001),
    (33, 1, 0x2_0000_0004),
    (33, 2, 0x6564_6F4E),
    (33, 3, 0x1_0000_0049),
    (33, 4, 0x76),
    (33, 5, 0x4_0000_004C),
    (33, 6, 0x7478_656E),
    (33, 7, 0x4_0000_0002),
    (34, 0, 9),
    (34, 1, 0x6165_682E_6E69_614D),
    (34, 2, 0x64),
    (20_577, 0, 0x2_0000_0000),
    (20_577, 1, 1),
    (20_577, 2, 2 * 20_578),
    (20_578, 0, 0x2_0000_0000),
    (20_578, 1, 2),
    (20_578, 2, 2 * 20_579),
    (20_579, 0, 0x2_0000_0000),
    (20_579, 1, 3),
    (20_579, 2, 2 * 20_577),
];

/// Changes of the first: log 0 counts its entry, by which the first node's v, now 9, was 1.
pub(crate) const LOGGED: [Word; 4] = [
    (4_129, 0, 1),
    (4_130, 0, 8 * 20_600 + 1),
    (4_130, 1, 1),
    (20_600, 1, 9),
];

/// The root Main.head refers to an array of so many longs, all 0.
pub(crate) fn array_of(slots: u64) -> [Word; 13]
    requires { slots < 2 ^ 24 }
{
    [
        (0, 0, 0x5352_4550_4F54_5541),
        (0, 1, 1),
        (0, 2, 40_000),
        (0, 3, 7),
        (1, 0, 2 * 20_577),
        (33, 0, 0x3_0000_0001),
        (33, 1, 2),
        (33, 2, 0x4A5B),
        (33, 3, 0x4_0000_0002),
        (33, 4, 9),
        (33, 5, 0x6165_682E_6E69_614D),
        (33, 6, 0x64),
        (20_577, 0, slots * (1 << 32)),
    ]
}

/// Fails from a call on, with room for 2,000 writes and fences.
pub(crate) fn fails(alloc: Global, since: u64) -> Fails {
    Fails {
        calls: Vec::new(alloc),
        since,
        room: 2_000,
    }
}

/// Changes a word, if there is one.
fn put(words: &mut [u64], word: Word) {
    let at = 8 * word.0 as usize + usize::from(word.1);
    if at < words.len() {
        words[at] = word.2;
    }
}

/// The image of so many lines that holds these words, and others in their place, which fails from a call on.
pub(crate) fn image(
    alloc: Global,
    lines: u64,
    holds: &[Word],
    changed: &[Word],
    since: u64,
) -> Result<MemoryImage, AllocError>
    requires { lines ≤ 50000 }
{
    let mut words = vec![in alloc; 0; 8 * lines as usize]?;
    for word in holds {
        put(words.as_mut_slice(), *word);
    }
    for word in changed {
        put(words.as_mut_slice(), *word);
    }
    MemoryImage::of_words(alloc, words.as_slice(), fails(alloc, since))
}

/// A word of an image; zero where it has none.
fn word_at(image: &MemoryImage, line: u64, word: u8) -> u64 {
    if line < image.lines() && word < 8 {
        image.word(line, word)
    } else {
        0
    }
}

/// How many of the image's words are other than these, all others being 0.
pub(crate) fn differing(image: &MemoryImage, holds: &[Word]) -> u32 {
    let mut others = 0_u32;
    let mut expected = 0_u32;
    for word in holds {
        if word_at(image, u64::from(word.0), word.1) != word.2 {
            others = others.wrapping_add(1);
        } else {
            expected = expected.wrapping_add(1);
        }
    }
    let mut there = 0_u32;
    for line in 0..LINES {
        for word in 0..8_u8 {
            if word_at(image, line, word) != 0 {
                there = there.wrapping_add(1);
            }
        }
    }
    others.wrapping_add(there.abs_diff(expected))
}

/// A sink with room for so many bytes, which takes three at a time.
pub(crate) fn sink(alloc: Global, room: u64) -> Result<MemorySink, AllocError> {
    MemorySink::new(alloc, room, 3, Vec::new(alloc))
}
