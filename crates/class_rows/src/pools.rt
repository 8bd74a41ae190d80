// Constant pools.
use crate::CLASS_A;
use const_pool::{Entry, Member, Name, Pool, PoolRefusal, PushRefusal, Tag, read_pool, write_pool};
use std::alloc::{AllocError, Global};
use std::test::Fail;

/// A pool with an entry of each kind, behind eight bytes.
const ALL_KINDS: [u8; 97] = [
    0, 0, 0, 0, 0, 0, 0, 0, 0, 19, // count
    1, 0, 1, b'A', // 1
    3, 0xff, 0xff, 0xff, 0xfe, // 2
    4, 0x3f, 0x80, 0, 0, // 3
    5, 0xff, 0xff, 0xff, 0xff, 0xff, 0xff, 0xff, 0xfd, // 4 and 5
    6, 0x3f, 0xf0, 0, 0, 0, 0, 0, 0, // 6 and 7
    7, 0, 1, // 8
    8, 0, 1, // 9
    1, 0, 3, b'(', b')', b'V', // 10
    12, 0, 1, 0, 10, // 11
    9, 0, 8, 0, 11, // 12
    10, 0, 8, 0, 11, // 13
    11, 0, 8, 0, 11, // 14
    15, 6, 0, 13, // 15
    16, 0, 10, // 16
    18, 0, 0, 0, 11, // 17
    1, 0, 8, 0xc0, 0x80, 0xe0, 0xa0, 0x80, 0xed, 0xa0, 0x80, // 18
];

/// Class files, the sizes of their pools, and where these end.
static FILES: [(&[u8], u16, usize); 2] = [(&CLASS_A, 5, 39), (&ALL_KINDS, 19, 97)];

/// Whether a file's pool has this size and this end, and is written as it was read.
fn is_written_again(alloc: Global, bytes: &[u8], len: u16, end: usize) -> bool {
    let Ok((pool, after)) = read_pool(alloc, bytes) else {
        return false;
    };
    match write_pool(alloc, &pool) {
        Ok(written) => {
            let is_same = Some(written.as_slice()) == bytes.get(8..end);
            is_same && pool.len() == len && after == end
        }
        Err(_) => false,
    }
}

#[test]
fn pools_are_read_and_written(rt: HostRuntime) {
    for (bytes, len, end) in &FILES {
        let is_right = is_written_again(rt.alloc(), bytes, *len, *end);
        assert!(rt; is_right, "of {len} slots");
    }
}

/// Indices of the pool of each kind, and the kinds of the entries there.
static KINDS: [(u16, Option<Tag>); 16] = [
    (0, None),
    (1, Some(Tag::Utf8)),
    (2, Some(Tag::Integer)),
    (3, Some(Tag::Float)),
    (4, Some(Tag::Long)),
    (5, None),
    (6, Some(Tag::Double)),
    (7, None),
    (9, Some(Tag::String)),
    (11, Some(Tag::NameAndType)),
    (12, Some(Tag::Fieldref)),
    (13, Some(Tag::Methodref)),
    (14, Some(Tag::InterfaceMethodref)),
    (15, Some(Tag::MethodHandle)),
    (16, Some(Tag::MethodType)),
    (17, Some(Tag::InvokeDynamic)),
];

/// The same of class `A`.
static KINDS_OF_A: [(u16, Option<Tag>); 4] = [
    (0, None),
    (1, Some(Tag::Utf8)),
    (4, Some(Tag::Class)),
    (5, None),
];

#[test]
fn kinds_stand_at_their_indices(rt: HostRuntime) -> Result<(), Fail> {
    let files = [
        (CLASS_A.as_slice(), KINDS_OF_A.as_slice()),
        (ALL_KINDS.as_slice(), KINDS.as_slice()),
    ];
    for (bytes, rows) in files {
        let (pool, _) = read_pool(rt.alloc(), bytes)?;
        for (index, tag) in rows {
            assert!(rt; pool.tag(*index) == *tag, "at {index}");
        }
    }
    Ok(())
}

/// The bits of the number at an index.
fn bits_at(pool: &Pool, index: u16) -> Option<u64> {
    match pool.get(index) {
        Some(Entry::Integer(number)) => Some(u64::from(number.cast_unsigned())),
        Some(Entry::Float(bits)) => Some(u64::from(*bits)),
        Some(Entry::Long(number)) => Some(number.cast_unsigned()),
        Some(Entry::Double(bits)) => Some(*bits),
        _ => None,
    }
}

/// Indices of the pool of each kind, and the bits of the numbers there.
static NUMBERS: [(u16, Option<u64>); 5] = [
    (2, Some(0xffff_fffe)),
    (3, Some(0x3f80_0000)),
    (4, Some(0xffff_ffff_ffff_fffd)),
    (5, None),
    (6, Some(0x3ff0_0000_0000_0000)),
];

#[test]
fn numbers_stand_at_their_indices(rt: HostRuntime) -> Result<(), Fail> {
    let (pool, _) = read_pool(rt.alloc(), &ALL_KINDS)?;
    for (index, bits) in &NUMBERS {
        assert!(rt; bits_at(&pool, *index) == *bits, "at {index}");
    }
    Ok(())
}

/// The characters of a text; none where there is no text.
fn text(name: Option<&Name>) -> &[u8] {
    match name {
        Some(name) => name.as_slice(),
        None => &[],
    }
}

/// Whether the class, the string and the text at an index have these characters, none standing for no text.
fn are_texts(pool: &Pool, index: u16, [class, string, utf8]: [&[u8]; 3]) -> bool {
    text(pool.class_name(index)) == class
        && text(pool.string(index)) == string
        && text(pool.utf8(index)) == utf8
}

/// Indices of the pool of each kind, and the texts there.
static TEXTS: [(u16, [&[u8]; 3]); 4] = [
    (8, [b"A", b"", b""]),
    (9, [b"", b"A", b""]),
    (10, [b"", b"", b"()V"]),
    (11, [b"", b"", b""]),
];

/// The same of class `A`.
static TEXTS_OF_A: [(u16, [&[u8]; 3]); 2] = [
    (3, [b"", b"", b"java/lang/Object"]),
    (4, [b"java/lang/Object", b"", b""]),
];

#[test]
fn texts_stand_at_their_indices(rt: HostRuntime) -> Result<(), Fail> {
    let files = [
        (CLASS_A.as_slice(), TEXTS_OF_A.as_slice()),
        (ALL_KINDS.as_slice(), TEXTS.as_slice()),
    ];
    for (bytes, rows) in files {
        let (pool, _) = read_pool(rt.alloc(), bytes)?;
        for (index, texts) in rows {
            assert!(rt; are_texts(&pool, *index, *texts), "at {index}");
        }
    }
    Ok(())
}

/// Whether the name and the descriptor at an index are these texts.
fn is_pair(pool: &Pool, index: u16, name: &[u8], descriptor: &[u8]) -> bool {
    match pool.name_and_type(index) {
        Some(pair) => pair.0.as_slice() == name && pair.1.as_slice() == descriptor,
        None => false,
    }
}

#[test]
fn members_stand_at_their_indices(rt: HostRuntime) -> Result<(), Fail> {
    let (pool, _) = read_pool(rt.alloc(), &ALL_KINDS)?;
    let member = Some(Member {
        class: 8,
        name_and_type: 11,
    });
    let is_right = is_pair(&pool, 11, b"A", b"()V")
        && pool.member(11).is_none()
        && pool.member(12) == member
        && pool.member(13) == member
        && pool.member(14) == member;
    assert!(rt; is_right, "of the pool");
    Ok(())
}

/// Why the front of class `A` with another byte at an offset has no pool.
fn refusal_with(alloc: Global, len: usize, at: usize, byte: u8) -> Option<PoolRefusal> {
    let mut bytes = CLASS_A;
    if at < 53 {
        bytes[at] = byte;
    }
    read_pool(alloc, bytes.get(..len).unwrap_or(&[])).err()
}

/// How many bytes of class `A` there are, and one of them with another byte than it has; and why there is no pool.
static REFUSALS: [((usize, usize, u8), PoolRefusal); 18] = [
    ((53, 10, 2), PoolRefusal::BadTag(10)),
    ((53, 10, 17), PoolRefusal::BadTag(10)),
    ((53, 12, 200), PoolRefusal::Truncated(13)),
    ((53, 13, 0), PoolRefusal::BadUtf8(13)),
    ((53, 13, 0xc3), PoolRefusal::BadUtf8(13)),
    ((53, 35, 0xc0), PoolRefusal::BadUtf8(35)),
    ((53, 9, 0), PoolRefusal::BadIndex { entry: 0, index: 0 }),
    ((53, 16, 2), PoolRefusal::BadIndex { entry: 2, index: 2 }),
    ((53, 16, 5), PoolRefusal::BadIndex { entry: 2, index: 5 }),
    ((53, 36, 6), PoolRefusal::BadIndex { entry: 4, index: 5 }),
    // fronts of class `A` as it is
    ((0, 0, 0xca), PoolRefusal::Truncated(8)),
    ((9, 0, 0xca), PoolRefusal::Truncated(8)),
    ((10, 0, 0xca), PoolRefusal::Truncated(10)),
    ((11, 0, 0xca), PoolRefusal::Truncated(11)),
    ((12, 0, 0xca), PoolRefusal::Truncated(11)),
    ((13, 0, 0xca), PoolRefusal::Truncated(13)),
    ((16, 0, 0xca), PoolRefusal::Truncated(15)),
    ((30, 0, 0xca), PoolRefusal::Truncated(20)),
];

#[test]
fn changed_bytes_and_fronts_are_refused(rt: HostRuntime) {
    for ((len, at, byte), want) in &REFUSALS {
        let found = refusal_with(rt.alloc(), *len, *at, *byte);
        assert!(rt; found == Some(*want), "{byte} at {at} of {len} bytes");
    }
}

#[test]
fn a_second_index_past_the_count_is_refused_at_the_tag(rt: HostRuntime) {
    let refusal = read_pool(rt.alloc(), &[0, 0, 0, 0, 0, 0, 0, 0, 0, 2, 5, 1]).err();
    let want = Some(PoolRefusal::BadIndex { entry: 1, index: 2 });
    assert!(rt; refusal == want, "a Long at the last index");
}

fn is_name(alloc: Global, bytes: &[u8]) -> Result<bool, AllocError> {
    Ok(Name::new(bytes.to_vec(alloc)?).is_some())
}

/// Bytes, and whether they are modified UTF-8.
static NAMES: [([u8; 4], bool); 10] = [
    ([0x41, 0xc0, 0x80, 0x42], true),
    ([0xc2, 0x80, 0xdf, 0xbf], true),
    ([0x41, 0xed, 0xa0, 0xbd], true),
    ([0x41, 0xef, 0xbf, 0xbf], true),
    ([0x41, 0x00, 0x42, 0x43], false),
    ([0x41, 0xc1, 0x81, 0x42], false),
    ([0x41, 0xe0, 0x9f, 0xbf], false),
    ([0xf0, 0x9f, 0x98, 0x80], false),
    ([0x41, 0x42, 0xe2, 0x82], false),
    ([0x41, 0x42, 0x43, 0xff], false),
];

#[test]
fn names_are_modified_utf8(rt: HostRuntime) -> Result<(), Fail> {
    for (bytes, good) in &NAMES {
        assert!(rt; is_name(rt.alloc(), bytes)? == *good, "{bytes:?}");
    }
    Ok(())
}

#[test]
fn entries_are_pushed(rt: HostRuntime) -> Result<(), Fail> {
    let text = Name::new(b"A".to_vec(rt.alloc())?).ok_or("a name")?;
    let mut pool = Pool::new(rt.alloc())?;
    let name = pool.push(Entry::Utf8(text))?;
    let class = pool.push(Entry::Class { name })?;
    let long = pool.push(Entry::Long(1))?;
    let integer = pool.push(Entry::Integer(1))?;
    assert!(rt;
        (name, class, long, integer) == (1, 2, 3, 5),
        "their indices"
    );
    Ok(())
}

/// A pool of the numbers below this one.
fn numbers(alloc: Global, end: i32) -> Result<Pool, Fail> {
    let mut pool = Pool::new(alloc)?;
    for number in 0..end {
        let _ = pool.push(Entry::Integer(number))?;
    }
    Ok(pool)
}

/// How many slots a pool has once it is written and read again.
fn len_again(alloc: Global, pool: &Pool) -> Result<u16, Fail> {
    let written = write_pool(alloc, pool)?;
    let file = [b"12345678".as_slice(), written.as_slice()].concat(alloc)?;
    let (again, _) = read_pool(alloc, &file)?;
    Ok(again.len())
}

#[test]
fn a_full_pool_takes_no_entry(rt: HostRuntime) -> Result<(), Fail> {
    let mut pool = numbers(rt.alloc(), 65_533)?;
    let are_right = pool.push(Entry::Long(0)) == Err(PushRefusal::Full)
        && pool.push(Entry::Integer(0)) == Ok(65_534)
        && pool.push(Entry::Integer(0)) == Err(PushRefusal::Full);
    let len = len_again(rt.alloc(), &pool)?;
    assert!(rt; are_right && len == 65_535, "of a full pool");
    Ok(())
}
