// The device: what is left at a stop, by the generator too, and which calls fail.
use crate::fixture::{fails, left, read};
use line_image::{ClosedImage, Fails, Image, ImageFailed, MemoryImage, laws_of_stops};
use std::test::Fail;

fn write<I: Image>(image: &mut I, line: u64, word: u64) -> Result<(), ImageFailed> {
    if line < image.lines() {
        image.write_line(line, &[word; 8])
    } else {
        Ok(())
    }
}

/// The eight words of a line, as a read gives them.
fn words(image: &MemoryImage, line: u64) -> [u64; 8] {
    let mut words = [0; 8];
    for word in 0..8u8 {
        words[word as usize] = read(image, line, word);
    }
    words
}

// Line 0 was written once and line 2 twice, so that a word of line 0 has the versions 0 and 1, and one of
// line 2 has 0, 1 and 2. Line 1 was fenced before.
#[test]
fn generator(rt: HostRuntime) -> Result<(), Fail> {
    let alloc = rt.alloc();
    let mut image = MemoryImage::of_words(alloc, &[0; 24], fails(alloc, &[])?)?;
    write(&mut image, 1, 5)?;
    image.fence()?;
    write(&mut image, 2, 1)?;
    write(&mut image, 0, 1)?;
    write(&mut image, 2, 2)?;
    for (pick, first, last) in [
        (0, [0, 0, 0, 0, 0, 0, 0, 0], [0, 0, 0, 0, 0, 0, 0, 0]),
        (1, [1, 1, 1, 1, 1, 1, 1, 1], [2, 2, 2, 2, 2, 2, 2, 2]),
        (2, [0, 0, 0, 0, 1, 1, 0, 0], [0, 2, 2, 2, 1, 1, 0, 0]),
        (3, [1, 1, 1, 0, 0, 1, 1, 1], [2, 0, 1, 0, 2, 0, 1, 2]),
        (4, [0, 0, 0, 1, 1, 1, 1, 1], [2, 1, 1, 2, 2, 2, 2, 1]),
        (5, [0, 1, 0, 1, 1, 1, 1, 1], [2, 0, 0, 0, 0, 2, 0, 2]),
        (6, [1, 0, 1, 1, 0, 1, 0, 0], [1, 0, 2, 1, 1, 1, 1, 2]),
        (7, [0, 1, 1, 1, 1, 1, 0, 0], [1, 1, 1, 0, 2, 2, 0, 1]),
    ] {
        let outcome = image.crash(alloc, pick, fails(alloc, &[])?)?;
        let found = [words(&outcome, 0), words(&outcome, 1), words(&outcome, 2)];
        assert_eq!(rt; found, [first, [5; 8], last], "pick {pick}");
    }
    laws_of_stops();
    Ok(())
}

#[test]
fn a_word_is_never_torn(rt: HostRuntime) -> Result<(), Fail> {
    let alloc = rt.alloc();
    let mut image = MemoryImage::of_words(alloc, &[0x1111_1111_1111_1111; 8], fails(alloc, &[])?)?;
    write(&mut image, 0, u64::MAX)?;
    write(&mut image, 0, 0x00ff_00ff_00ff_00ff)?;
    for pick in 0..40 {
        let outcome = image.crash(alloc, pick, fails(alloc, &[])?)?;
        for word in words(&outcome, 0) {
            let whole = matches!(
                word,
                0x1111_1111_1111_1111 | u64::MAX | 0x00ff_00ff_00ff_00ff
            );
            assert!(rt; whole, "pick {pick}, word {word}");
        }
    }
    Ok(())
}

#[derive(Clone, Copy)]
enum Call {
    Read(u64),
    Write(u64, u64),
    Fence,
}

/// What a call answers, a read with the line's last word. None where it failed.
fn made<I: Image>(image: &mut I, call: Call) -> Option<u64> {
    let mut words = [0; 8];
    let done = match call {
        Call::Read(line) if line < image.lines() => image.read_line(line, &mut words),
        Call::Read(_) => Err(ImageFailed),
        Call::Write(line, word) => write(image, line, word),
        Call::Fence => image.fence(),
    };
    match done {
        Ok(()) => Some(words[7]),
        Err(ImageFailed) => None,
    }
}

// Calls 2 and 5 fail, all from 8 on, and writes and fences behind the fourth.
#[test]
fn calls_fail_as_they_are_to(rt: HostRuntime) -> Result<(), Fail> {
    let alloc = rt.alloc();
    let fails = Fails {
        calls: [2, 5].to_vec(alloc)?,
        since: 8,
        room: 4,
    };
    let mut image = MemoryImage::new(alloc, 2, fails)?;
    // The call, its answer, and what a stop leaves then of line 0, fenced and written last, and of line 1.
    for (call, answer, fenced, written, other) in [
        (Call::Write(0, 7), Some(0), 0, 7, 0),
        (Call::Fence, None, 0, 7, 0),
        (Call::Read(0), Some(7), 0, 7, 0),
        (Call::Fence, Some(0), 7, 7, 0),
        // A write that fails adds its values.
        (Call::Write(0, 9), None, 7, 9, 0),
        // No room is left, and nothing changes.
        (Call::Write(1, 8), None, 7, 9, 0),
        (Call::Read(0), Some(9), 7, 9, 0),
        (Call::Read(0), None, 7, 9, 0),
    ] {
        let found = (
            made(&mut image, call),
            left(alloc, &image, 0, 0, 3)?,
            left(alloc, &image, 1, 0, 3)?,
            left(alloc, &image, 1, 1, 3)?,
        );
        assert_eq!(rt; found, (answer, fenced, written, other));
    }
    Ok(())
}

#[test]
fn words_and_a_closed_image(rt: HostRuntime) -> Result<(), Fail> {
    let alloc = rt.alloc();
    let words = [0, 1, 2, 3, 4, 5, 6, 7, 8, 9, 10, 11, 12, 13, 14, 15, 16];
    let image = MemoryImage::of_words(alloc, &words, fails(alloc, &[])?)?;
    let mut closed = ClosedImage::new();
    let found = (
        [
            image.lines(),
            read(&image, 0, 3),
            read(&image, 1, 7),
            closed.lines(),
        ],
        [
            made(&mut closed, Call::Read(0)),
            made(&mut closed, Call::Write(0, 1)),
            made(&mut closed, Call::Fence),
        ],
    );
    assert_eq!(rt; found, ([2, 3, 15, 32_768], [None, None, None]));
    Ok(())
}
