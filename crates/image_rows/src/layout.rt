// The rows of the layout's table.
use ap_base::ThreadNo;
use image_layout::{
    BadReason, MAGIC, Super, check_super, directory_spot, head_parts, head_word, lines_of,
    log_entry, log_head, object_slot, slot_spot,
};
use std::test::Fail;

#[derive(Clone, Copy)]
enum Place {
    Slot(u32),
    Directory(u32),
    Log(u8),
    LogEntry(u8, u32),
    ObjectSlot(u32, u32),
}

/// The line and the word in the line.
fn found(place: Place) -> Option<(u32, u8)> {
    let spot = match place {
        Place::Slot(root) => slot_spot(root)?,
        Place::Directory(word) => directory_spot(word)?,
        Place::Log(thread) => log_head(ThreadNo::new(thread)?),
        Place::LogEntry(thread, n) => log_entry(ThreadNo::new(thread)?, n)?,
        Place::ObjectSlot(line, index) => object_slot(line, index)?,
    };
    Some((spot.line, spot.word))
}

#[test]
fn places(rt: HostRuntime) -> Result<(), Fail> {
    for (place, line, word) in [
        (Place::Slot(0), 1, 0),
        (Place::Slot(7), 1, 7),
        (Place::Slot(8), 2, 0),
        (Place::Slot(255), 32, 7),
        (Place::Directory(0), 33, 0),
        (Place::Directory(9), 34, 1),
        (Place::Directory(32_767), 4_128, 7),
        (Place::Log(0), 4_129, 0),
        (Place::Log(63), 20_320, 0),
        (Place::LogEntry(0, 0), 4_130, 0),
        (Place::LogEntry(0, 3), 4_130, 6),
        (Place::LogEntry(63, 1_023), 20_576, 6),
        (Place::ObjectSlot(20_577, 0), 20_577, 1),
        (Place::ObjectSlot(20_577, 6), 20_577, 7),
        (Place::ObjectSlot(20_577, 7), 20_578, 0),
        (Place::ObjectSlot(20_577, 8), 20_578, 1),
        (Place::ObjectSlot(u32::MAX, 6), u32::MAX, 7),
    ] {
        assert_eq!(rt; found(place), Some((line, word)));
    }
    Ok(())
}

#[test]
fn no_places(rt: HostRuntime) -> Result<(), Fail> {
    for place in [
        Place::Slot(256),
        Place::Slot(u32::MAX),
        Place::Directory(32_768),
        Place::LogEntry(63, 1_024),
        Place::ObjectSlot(u32::MAX, 7),
    ] {
        assert_eq!(rt; found(place), None);
    }
    Ok(())
}

#[test]
fn objects(rt: HostRuntime) -> Result<(), Fail> {
    // The shape, the number of slots, the head word and how many lines it takes.
    for (shape, length, head, lines) in [
        (0, 0, 0, 1),
        (1, 7, 0x7_0000_0001, 1),
        (3, 2, 0x2_0000_0003, 1),
        (2, 8, 0x8_0000_0002, 2),
        (0, 100, 0x64_0000_0000, 13),
        (0, 97_527, 0x1_7CF7_0000_0000, 12_191),
        (0, 97_528, 0x1_7CF8_0000_0000, 12_192),
        (u32::MAX, u32::MAX, u64::MAX, 536_870_912),
    ] {
        let found = (head_word(shape, length), head_parts(head), lines_of(length));
        assert_eq!(rt;
            found,
            (head, (shape, length), lines),
            "{length} slots of shape {shape}"
        );
    }
    Ok(())
}

#[test]
fn superblocks(rt: HostRuntime) -> Result<(), Fail> {
    let magic = u64::from_le_bytes(*b"AUTOPERS");
    let blank = [0, 9, 9, 9, 9, 9, 9, 9];
    let all_wrong = [1, 3, 3, 99_999, 0, 0, 0, 0];
    for (words, lines, answer) in [
        (blank, 32_767, Err(BadReason::Size)),
        (blank, 32_768, Ok(Super::Blank)),
        (blank, 4_194_304, Ok(Super::Blank)),
        (blank, 4_194_305, Err(BadReason::Size)),
        (
            [magic, 1, 40_000, 32_768, 0, 0, 0, 0],
            40_000,
            Ok(Super::Used {
                version: 1,
                directory: 32_768,
            }),
        ),
        (
            [1, 1, 40_000, 32_768, 0, 0, 0, 0],
            40_000,
            Err(BadReason::Magic),
        ),
        (
            [magic, 3, 40_000, 32_768, 0, 0, 0, 0],
            40_000,
            Err(BadReason::Version),
        ),
        (
            [magic, 1, 40_001, 32_768, 0, 0, 0, 0],
            40_000,
            Err(BadReason::LineCount),
        ),
        (
            [magic, 1, 40_000, 32_769, 0, 0, 0, 0],
            40_000,
            Err(BadReason::DirectoryUse),
        ),
        (all_wrong, 0, Err(BadReason::Size)),
        (all_wrong, 40_000, Err(BadReason::Magic)),
    ] {
        let found = (check_super(&words, lines), MAGIC);
        assert_eq!(rt; found, (answer, magic), "{lines} lines, word 0 {words:?}");
    }
    Ok(())
}

#[test]
fn reasons(rt: HostRuntime) -> Result<(), Fail> {
    for (reason, text) in [
        (BadReason::Size, "there are too few or too many lines"),
        (
            BadReason::Length,
            "an object has another number of slots than its shape or passes the last line",
        ),
        (BadReason::Value, "a slot has a value that it can't have"),
    ] {
        assert_eq!(rt; format!(in rt.alloc(); "{reason}")?.as_str(), text);
    }
    Ok(())
}
