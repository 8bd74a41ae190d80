// Images are recovered, whole and broken ones, by `recover` alone. What is wrong, and where, comes from the table of the
// format's checks.
ghost use Rattle.std.specs.Prelude.{◌≤◌};

use crate::images::{LINES, Word, fails, image, words};
use graph_model::Value;
use image_layout::BadReason;
use image_layout::BadReason::{
    DirectoryUse, Entry, Length, LineCount, LogCount, LogPlace, Magic, Overlap, Reference,
    Value as BadValue, Version,
};
use image_recovery::{Recovered, recover};
use image_walk::RecoverFault;
use line_image::{Image, MemoryImage};
use line_memory::LineMemory;
use shared_graph::{SharedGraph, SharedNode};
use std::alloc::Global;
use std::test::Fail;

/// The words that are changed in the whole image, and the first check that fails then.
type Row = (&'static [Word], Option<(u32, BadReason)>);

/// A log with five entries, of which the first and the last name one place.
const FIVE_ENTRIES: [Word; 6] = [
    (4_129, 0, 5),
    (4_130, 0, 263),
    (4_130, 2, 262),
    (4_130, 4, 261),
    (4_130, 6, 260),
    (4_131, 0, 263),
];

/// The heads of logs 0, 1 and 63 are lines 4,129, 4,386 and 20,320; root slots are lines 1 to 32.
const ROWS: [Row; 69] = [
    (&[], None),
    (&[(0, 0, 0)], None),
    // the superblock
    (&[(0, 0, 1)], Some((0, Magic))),
    (&[(0, 1, 3)], Some((0, Version))),
    (&[(0, 2, 32_767)], Some((0, LineCount))),
    (&[(0, 3, 32_769)], Some((0, DirectoryUse))),
    (&[(0, 0, 1), (0, 1, 3)], Some((0, Magic))),
    (&[(0, 1, 3), (33, 0, 0)], Some((0, Version))),
    // entries: no kind, too few words, another name, a name's rest, an unknown kind of a field, one that is cut off
    (&[(33, 0, 0x3_0000_0003)], Some((33, Entry))),
    (&[(34, 2, 0x4_0000_0002)], Some((34, Entry))),
    (&[(34, 7, 0x72_2E41)], Some((34, Entry))),
    (&[(34, 4, 0x172_2E41)], Some((34, Entry))),
    (&[(33, 6, 0x1_0000_0051)], Some((33, Entry))),
    (&[(34, 0, 0x1_0000_0051)], Some((33, Entry))),
    (&[(0, 3, 15)], Some((34, Entry))),
    (&[(0, 3, 17)], Some((35, Entry))),
    (
        &[(34, 2, 0x4_0000_0002), (4_129, 0, 1_025)],
        Some((34, Entry)),
    ),
    // counts of logs
    (&[(4_129, 0, 1_025)], Some((4_129, LogCount))),
    (&[(20_320, 0, u64::MAX)], Some((20_320, LogCount))),
    (&[(4_129, 0, 1), (4_386, 0, 1_025)], Some((4_130, LogPlace))),
    (&[(4_129, 0, 1_025), (1, 0, 1)], Some((4_129, LogCount))),
    // places: of the superblock, the directory, the logs, past the last line
    (&[(4_129, 0, 1), (4_130, 0, 7)], Some((4_130, LogPlace))),
    (
        &[(4_129, 0, 1), (4_130, 0, 8 * 33)],
        Some((4_130, LogPlace)),
    ),
    (
        &[(4_129, 0, 1), (4_130, 0, 8 * 20_577 - 1)],
        Some((4_130, LogPlace)),
    ),
    (
        &[(4_129, 0, 1), (4_130, 0, 8 * LINES)],
        Some((4_130, LogPlace)),
    ),
    (
        &[(20_320, 0, 1), (20_321, 0, u64::MAX)],
        Some((20_321, LogPlace)),
    ),
    (&[(4_129, 0, 1), (4_130, 0, 8 * 33 - 1)], None),
    (&[(4_129, 0, 1), (4_130, 0, 8 * LINES - 1)], None),
    (&[(4_130, 0, 7)], None),
    // places that are named twice: in one log, in two, and where the second isn't counted
    (
        &[(4_129, 0, 2), (4_130, 0, 263), (4_130, 2, 263)],
        Some((4_130, LogPlace)),
    ),
    (&FIVE_ENTRIES, Some((4_131, LogPlace))),
    (
        &[
            (4_129, 0, 1),
            (4_130, 0, 263),
            (4_386, 0, 1),
            (4_387, 0, 263),
        ],
        Some((4_387, LogPlace)),
    ),
    (
        &[
            (4_386, 0, 1),
            (4_387, 0, 263),
            (20_320, 0, 1),
            (20_321, 0, 263),
        ],
        Some((20_321, LogPlace)),
    ),
    (&[(4_129, 0, 1), (4_130, 0, 263), (4_130, 2, 263)], None),
    // root slots: odd, before the objects, past the last line, unused
    (&[(1, 0, 41_155)], Some((1, Reference))),
    (&[(1, 1, 2 * 20_576)], Some((1, Reference))),
    (&[(1, 1, 2 * LINES)], Some((1, Reference))),
    (&[(1, 2, 2 * 20_577)], Some((1, Reference))),
    (&[(32, 7, 1)], Some((32, Reference))),
    (&[(1, 0, 1), (32, 7, 1)], Some((1, Reference))),
    (&[(32, 7, 1), (20_577, 0, 2)], Some((32, Reference))),
    (&[(1, 0, 0), (1, 1, 0), (20_577, 0, 2)], None),
    // checks come after entries are put back
    (
        &[(4_129, 0, 1), (4_130, 0, 8), (4_130, 1, 1)],
        Some((1, Reference)),
    ),
    (
        &[
            (1, 0, 1),
            (4_129, 0, 1),
            (4_130, 0, 8),
            (4_130, 1, 2 * 20_577),
        ],
        None,
    ),
    // shapes
    (
        &[(20_577, 0, 0x2_0000_0002)],
        Some((20_577, BadReason::Shape)),
    ),
    (
        &[(20_578, 0, 0x9_FFFF_FFFF)],
        Some((20_578, BadReason::Shape)),
    ),
    // numbers of slots: another than the fields', up to the last line, past it
    (&[(20_577, 0, 0x3_0000_0001)], Some((20_577, Length))),
    (&[(20_577, 0, 1)], Some((20_577, Length))),
    (&[(20_578, 0, 97_519 << 32)], None),
    (&[(20_578, 0, 97_520 << 32)], Some((20_578, Length))),
    // lines of two objects: the middle of one found before, the end of one over another's first line
    (&[(20_577, 2, 2 * 20_579)], Some((20_579, Overlap))),
    (&[(1, 0, 2 * 20_579)], Some((20_579, Overlap))),
    (
        &[(20_577, 2, 2 * 20_580), (20_578, 0, 16 << 32)],
        Some((20_580, Overlap)),
    ),
    (&[(20_577, 2, 2 * 20_580), (20_578, 0, 15 << 32)], None),
    // values: booleans, ints, chars, bytes, shorts, longs
    (&[(20_577, 1, 2)], Some((20_577, BadValue))),
    (&[(20_578, 7, 1 << 32)], Some((20_578, BadValue))),
    (&[(20_579, 1, 1 << 32)], Some((20_579, BadValue))),
    (&[(20_579, 1, 0xFFFF_FFFF)], None),
    (
        &[(33, 6, 0x1_0000_0043), (20_577, 1, 0x1_0000)],
        Some((20_577, BadValue)),
    ),
    (&[(33, 6, 0x1_0000_0043), (20_577, 1, 0xFFFF)], None),
    (
        &[(33, 6, 0x1_0000_0042), (20_577, 1, 1 << 32)],
        Some((20_577, BadValue)),
    ),
    (&[(33, 6, 0x1_0000_0053), (20_577, 1, 0xFFFF_FFFF)], None),
    (&[(33, 6, 0x1_0000_004A), (20_577, 1, u64::MAX)], None),
    // references of objects
    (&[(20_577, 2, 41_155)], Some((20_577, Reference))),
    (&[(20_577, 2, 2 * LINES)], Some((20_577, Reference))),
    (&[(20_577, 2, 2 * (LINES - 1))], None),
    (
        &[(33, 6, 0x1_0000_004C), (20_577, 1, 2 * 20_576)],
        Some((20_577, Reference)),
    ),
    // slot by slot, breadth first
    (&[(20_577, 1, 2), (20_577, 2, 1)], Some((20_577, BadValue))),
    (
        &[
            (20_577, 2, 2 * 20_585),
            (20_585, 0, 5),
            (20_579, 1, 1 << 32),
        ],
        Some((20_579, BadValue)),
    ),
];

/// A memory over an image.
pub(crate) fn attach(alloc: Global, image: MemoryImage) -> Result<LineMemory<MemoryImage>, Fail> {
    match LineMemory::attach(alloc, image) {
        Ok(memory) => Ok(memory),
        Err(_) => Err(Fail::from("attached")),
    }
}

/// What is wrong with the image.
fn fault_of(alloc: Global, image: MemoryImage) -> Result<Option<RecoverFault>, Fail> {
    match recover(alloc, attach(alloc, image)?) {
        Ok(_) => Ok(None),
        Err((fault, _)) => Ok(Some(fault)),
    }
}

#[test]
fn the_first_check_that_fails_is_told(rt: HostRuntime) -> Result<(), Fail> {
    let alloc = rt.alloc();
    let mut number = 0_u32;
    for (changed, bad) in ROWS {
        let found = fault_of(alloc, image(alloc, changed, u64::MAX)?)?;
        let expected = match bad {
            Some((line, reason)) => Some(RecoverFault::Bad { line, reason }),
            None => None,
        };
        assert_eq!(rt; (number, found), (number, expected));
        number = number.wrapping_add(1);
    }
    Ok(())
}

/// Three words that a stop left changed, and the logs of two threads that have what they held.
const LOGGED: [Word; 10] = [
    (1, 1, 0),
    (20_577, 1, 0),
    (20_579, 1, 9),
    (4_129, 0, 2),
    (4_130, 0, 8 + 1),
    (4_130, 1, 2 * 20_578),
    (4_130, 2, 8 * 20_577 + 1),
    (4_130, 3, 1),
    (4_900, 0, 1),
    (4_901, 0, 8 * 20_579 + 1),
];

/// What is found in a whole image.
#[derive(Clone, Copy, Debug, PartialEq, Eq)]
struct Seen {
    graph: bool,
    lines: bool,
    free: u32,
    undone: u32,
    version: u32,
}

/// Whether the graph is the one of the whole image, but for the array's last int.
fn is_whole(graph: &SharedGraph, last: i32) -> bool {
    let (first, second) = match graph.nodes() {
        [first, second] => (first, second),
        _ => return false,
    };
    let (r, s) = match graph.roots() {
        [r, s] => (r, s),
        _ => return false,
    };
    r.name.as_slice() == b"A.r".as_slice()
        && s.name.as_slice() == b"A.s".as_slice()
        && (r.value, s.value) == (Value::Obj(0), Value::Obj(1))
        && first.shape().name.as_slice() == b"A".as_slice()
        && first.values() == [Value::Int(1), Value::Obj(1)].as_slice()
        && is_array(second, last)
}

/// Whether the node is an array of eight zeros and this int.
fn is_array(node: &SharedNode, last: i32) -> bool {
    let mut values = [Value::Int(0); 9];
    values[8] = Value::Int(last);
    node.shape().name.as_slice() == b"[I".as_slice() && node.values() == values.as_slice()
}

/// What is found.
fn look<I: Image>(found: &Recovered<I>) -> Seen {
    Seen {
        graph: is_whole(&found.graph, 0),
        lines: found.lines.as_slice() == [20_577, 20_578].as_slice(),
        free: found.free,
        undone: found.undone,
        version: found.version,
    }
}

/// Recovers the image: what is found, or `None` where it isn't recovered, and the image.
fn recovered(alloc: Global, image: MemoryImage) -> Result<(Option<Seen>, MemoryImage), Fail> {
    match recover(alloc, attach(alloc, image)?) {
        Ok(found) => {
            let seen = look(&found);
            Ok((Some(seen), found.memory.into_image()))
        }
        Err((_, memory)) => Ok((None, memory.into_image())),
    }
}

/// Recovers the image that a stop leaves of this one by a pick, with a stop within a call of this recovery and the same pick,
/// and recovers what that leaves: whether the graph is found.
fn finds_again(alloc: Global, image: &MemoryImage, call: u64, pick: u64) -> Result<bool, Fail>
    requires { call ≤ 8 }
{
    let left = image.crash(alloc, pick, fails(alloc, LINES + call))?;
    let (_, again) = recovered(alloc, left)?;
    let left = again.crash(alloc, pick, fails(alloc, u64::MAX))?;
    match recovered(alloc, left)? {
        (Some(seen), _) => Ok(seen.graph && seen.lines && seen.free == 20_580),
        (None, _) => Ok(false),
    }
}

#[test]
fn stopped_recoveries_find_the_same_graph(rt: HostRuntime) -> Result<(), Fail> {
    let alloc = rt.alloc();
    // The recovery makes seven calls: it writes three words' lines, fences, clears two counts and fences.
    for call in 1..9 {
        let (whole, image) = recovered(alloc, image(alloc, &LOGGED, LINES + call)?)?;
        let mut others = 0_u32;
        for again in 1..9 {
            for pick in 0..8 {
                if !finds_again(alloc, &image, again, pick)? {
                    others = others.wrapping_add(1);
                }
            }
        }
        let expected = if call < 8 {
            None
        } else {
            Some(Seen {
                graph: true,
                lines: true,
                free: 20_580,
                undone: 2,
                version: 1,
            })
        };
        assert_eq!(rt; (call, whole, others), (call, expected, 0));
    }
    Ok(())
}

/// How many words of the image are other than these.
fn differing(image: &MemoryImage, words: &[u64]) -> u32 {
    let mut count = 0_u32;
    for line in 0..LINES {
        for word in 0..8_u8 {
            let at = 8 * line as usize + usize::from(word);
            if line >= image.lines() || at >= words.len() || image.word(line, word) != words[at] {
                count = count.wrapping_add(1);
            }
        }
    }
    count
}

#[test]
fn a_bad_graph_leaves_words_put_back_alone(rt: HostRuntime) -> Result<(), Fail> {
    let alloc = rt.alloc();
    let mut changed = LOGGED.to_vec(alloc)?;
    changed.push((20_577, 0, 0x2_0000_0002))?;
    let image = image(alloc, changed.as_slice(), u64::MAX)?;
    let (fault, image) = match recover(alloc, attach(alloc, image)?) {
        Ok(_) => return Err(Fail::from("a shape is unknown")),
        Err((fault, memory)) => (fault, memory.into_image()),
    };
    changed.push((1, 1, 2 * 20_578))?;
    changed.push((20_577, 1, 1))?;
    changed.push((20_579, 1, 0))?;
    let expected = words(alloc, changed.as_slice())?;
    let bad = RecoverFault::Bad {
        line: 20_577,
        reason: BadReason::Shape,
    };
    assert_eq!(rt; (fault, differing(&image, expected.as_slice())), (bad, 0));
    Ok(())
}

/// The words of a directory with so many roots and nothing else, of an image whose root slots are 0.
fn rooted(alloc: Global, roots: u32) -> Result<Vec<Word>, Fail>
    requires { roots ≤ 300 }
{
    let mut words = Vec::new(alloc);
    words.push((0, 3, 3 * u64::from(roots)))?;
    words.push((1, 0, 0))?;
    words.push((1, 1, 0))?;
    for root in 0..roots {
        let name = 0x6161_2E41
            + 0x1_0000 * u64::from(root / 16)
            + 0x100_0000 * u64::from(root % 16);
        push_word(&mut words, 3 * root, 0x3_0000_0002)?;
        push_word(&mut words, 3 * root + 1, 4)?;
        push_word(&mut words, 3 * root + 2, name)?;
    }
    Ok(words)
}

/// Adds a word of the directory.
fn push_word(words: &mut Vec<Word>, at: u32, holds: u64) -> Result<(), Fail>
    requires { at ≤ 1000 }
{
    words.push((33 + at / 8, (at % 8) as u8, holds))?;
    Ok(())
}

#[test]
fn no_more_roots_than_slots(rt: HostRuntime) -> Result<(), Fail> {
    let alloc = rt.alloc();
    let most = rooted(alloc, 256)?;
    let more = rooted(alloc, 257)?;
    let found = (
        fault_of(alloc, image(alloc, most.as_slice(), u64::MAX)?)?,
        fault_of(alloc, image(alloc, more.as_slice(), u64::MAX)?)?,
    );
    let bad = RecoverFault::Bad {
        line: 129,
        reason: Entry,
    };
    assert_eq!(rt; found, (None, Some(bad)));
    Ok(())
}

#[test]
fn a_blank_image_is_formatted(rt: HostRuntime) -> Result<(), Fail> {
    let alloc = rt.alloc();
    let blank = image(alloc, &[(0, 0, 0), (4_129, 0, 5)], u64::MAX)?;
    let found = match recover(alloc, attach(alloc, blank)?) {
        Ok(found) => found,
        Err(_) => return Err(Fail::from("it is blank")),
    };
    let seen = (
        (found.graph.roots().len(), found.graph.nodes().len()),
        (found.lines.len(), found.free, found.undone, found.version),
    );
    let image = found.memory.into_image();
    let words = if image.lines() < LINES {
        [0; 6]
    } else {
        [
            image.word(0, 0),
            image.word(0, 1),
            image.word(0, 2),
            image.word(0, 3),
            image.word(1, 0),
            image.word(4_129, 0),
        ]
    };
    let expected = [0x5352_4550_4F54_5541, 1, LINES, 0, 0, 0];
    assert_eq!(rt; (seen, words), (((0, 0), (0, 20_577, 0, 1)), expected));
    Ok(())
}
