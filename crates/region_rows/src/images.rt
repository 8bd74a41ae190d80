// Images of two shapes and two roots, with an object, an array of nine ints, and logs, as tables of words.
use line_image::{Fails, MemoryImage};
use std::alloc::{AllocError, Global};

pub(crate) const LINES: u64 = 32_768;

/// A word of an image: its line, its place in the line, and what it holds.
pub(crate) type Word = (u32, u8, u64);

/// The image before anything in it is changed. The directory has the shapes `[I` and A, with a boolean z and a reference n,
/// and the roots A.r and A.s. An A lies at line 20,577, whose z is true and whose n is the array; the array lies at lines
/// 20,578 and 20,579, and its last int is 7.
const WHOLE: [Word; 26] = [
    (0, 0, 0x5352_4550_4F54_5541),
    (0, 1, 1),
    (0, 2, LINES),
    (0, 3, 16),
    (1, 0, 2 * 20_577),
    (1, 1, 2 * 20_578),
    (33, 0, 0x3_0000_0001),
    (33, 1, 2),
    (33, 2, 0x495B),
    (33, 3, 0x7_0000_0001),
    (33, 4, 0x2_0000_0001),
    (33, 5, 0x41),
    (33, 6, 0x1_0000_005A),
    (33, 7, 0x7A),
    (34, 0, 0x1_0000_004C),
    (34, 1, 0x6E),
    (34, 2, 0x3_0000_0002),
    (34, 3, 3),
    (34, 4, 0x72_2E41),
    (34, 5, 0x3_0000_0002),
    (34, 6, 3),
    (34, 7, 0x73_2E41),
    (20_577, 0, 0x2_0000_0001),
    (20_577, 1, 1),
    (20_577, 2, 2 * 20_578),
    (20_578, 0, 0x9_0000_0000),
];

/// Fails from a call on, with room for 200 writes and fences.
pub(crate) fn fails(alloc: Global, since: u64) -> Fails {
    Fails {
        calls: Vec::new(alloc),
        since,
        room: 200,
    }
}

/// Changes a word, if there is one.
fn put(words: &mut [u64], word: Word) {
    let at = 8 * word.0 as usize + usize::from(word.1);
    if at < words.len() {
        words[at] = word.2;
    }
}

/// The words of the image in which these are changed.
pub(crate) fn words(alloc: Global, changed: &[Word]) -> Result<Vec<u64>, AllocError> {
    let mut words = vec![in alloc; 0; 8 * LINES as usize]?;
    for word in WHOLE {
        put(words.as_mut_slice(), word);
    }
    put(words.as_mut_slice(), (20_579, 1, 7));
    for word in changed {
        put(words.as_mut_slice(), *word);
    }
    Ok(words)
}

/// The image in which these words are changed, which fails from a call on.
pub(crate) fn image(
    alloc: Global,
    changed: &[Word],
    since: u64,
) -> Result<MemoryImage, AllocError> {
    let words = words(alloc, changed)?;
    MemoryImage::of_words(alloc, words.as_slice(), fails(alloc, since))
}
