// Halves of four lines, of which three are shown, and what is done to a mirror of them.
use line_image::{Fails, Image, MemoryImage};
use mirror_image::Mirror;
use std::alloc::{AllocError, Global};
use std::test::Fail;

pub(crate) type Pair = Mirror<MemoryImage, MemoryImage>;

/// How many calls the halves have had when new ones are paired: the first one reads its label, is cleared and marked, is read, and
/// fenced.
pub(crate) const FIRST_PAIRED: u64 = 9;

/// The second one is marked as of no generation too, and written, and fenced once more.
pub(crate) const SECOND_PAIRED: u64 = 12;

/// No call.
pub(crate) const NONE: u64 = u64::MAX;

/// A half of zeros that fails at one call, and at each from `since` on.
pub(crate) fn half(
    alloc: Global,
    lines: u64,
    call: u64,
    since: u64,
) -> Result<MemoryImage, AllocError> {
    let fails = Fails {
        calls: [call].to_vec(alloc)?,
        since,
        room: 200,
    };
    MemoryImage::new(alloc, lines, fails)
}

/// How many lines a half of the whole size has: those of an image, and the label.
pub(crate) const WHOLE: u64 = 32_769;

/// A half of zeros of the whole size that fails at each call from `since` on.
pub(crate) fn whole(alloc: Global, since: u64) -> Result<MemoryImage, AllocError> {
    let fails = Fails {
        calls: Vec::new(alloc),
        since,
        room: 33_000,
    };
    MemoryImage::new(alloc, WHOLE, fails)
}

/// What a stop leaves of a half of the whole size; none of its calls fail.
pub(crate) fn whole_left(alloc: Global, half: &MemoryImage) -> Result<MemoryImage, AllocError> {
    let fails = Fails {
        calls: Vec::new(alloc),
        since: NONE,
        room: 33_000,
    };
    half.crash(alloc, 1, fails)
}

/// What a stop leaves of a half; none of its calls fail.
pub(crate) fn left(
    alloc: Global,
    half: &MemoryImage,
    pick: u64,
) -> Result<MemoryImage, AllocError> {
    let fails = Fails {
        calls: Vec::new(alloc),
        since: NONE,
        room: 200,
    };
    half.crash(alloc, pick, fails)
}

/// Pairs halves that don't fail.
pub(crate) fn paired(a: MemoryImage, b: MemoryImage) -> Result<Pair, Fail> {
    match Mirror::pair(a, b) {
        Ok(mirror) => Ok(mirror),
        Err(_) => Err(Fail::from("two halves that are paired")),
    }
}

/// Writes a line of eight times this word. Answers whether it was made.
pub(crate) fn wrote(mirror: &mut Pair, line: u64, word: u64) -> bool {
    line < mirror.lines() && mirror.write_line(line, &[word; 8]).is_ok()
}

/// The words of a line; none where the read failed.
pub(crate) fn read(mirror: &mut Pair, line: u64) -> Option<[u64; 8]> {
    let mut words = [0; 8];
    if line < mirror.lines() && mirror.read_line(line, &mut words).is_ok() {
        return Some(words);
    }
    None
}

/// Writes lines 0 and 1, fences them, and changes line 1. Answers how many of the five steps were made.
pub(crate) fn steps(mirror: &mut Pair) -> u32 {
    if !wrote(mirror, 0, 10) {
        return 0;
    }
    if !wrote(mirror, 1, 20) {
        return 1;
    }
    if mirror.fence().is_err() {
        return 2;
    }
    if !wrote(mirror, 1, 21) {
        return 3;
    }
    if mirror.fence().is_err() {
        return 4;
    }
    5
}
