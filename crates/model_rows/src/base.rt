//! The types at the bottom, with values worked out by hand.

use ap_base::{
    Bytes, ClassSource, Gate, ListOf, MOST_BYTES, MemorySink, MemorySource, NamedBytes, NoGate,
    Piece, Ref, Sink, SourceError, ThreadNo, ref_of, word_of,
};
use run_types::{On, Waits};
use std::alloc::{AllocError, Global};
use std::test::Fail;

/// Words, and the references that they are.
static WORDS: [(u64, Option<Ref>); 8] = [
    (0, Some(Ref::Null)),
    (41_154, Some(Ref::Persistent(20_577))),
    (0x1_ffff_fffe, Some(Ref::Persistent(u32::MAX))),
    (1, Some(Ref::Volatile(0))),
    (15, Some(Ref::Volatile(7))),
    (0x1_ffff_ffff, Some(Ref::Volatile(u32::MAX))),
    (0x2_0000_0000, None),
    (u64::MAX, None),
];

#[test]
fn words_of_references(rt: HostRuntime) {
    for (word, r) in &WORDS {
        assert!(rt; ref_of(*word) == *r, "the word {word}");
    }
    assert!(rt; word_of(Ref::Persistent(20_577)) == 41_154);
}

fn named(alloc: Global, name: &[u8], bytes: &[u8]) -> Result<NamedBytes, AllocError> {
    Ok(NamedBytes::whole(
        Bytes::copy(alloc, name)?,
        Bytes::from_vec(bytes.to_vec(alloc)?),
    ))
}

// The first byte of the next file's name and how many bytes it has, nothing at the end.
fn next_file<C: ClassSource>(
    source: &mut C,
    alloc: Global,
) -> Result<Option<(u8, u64)>, SourceError> {
    let Some(file) = source.next(alloc)? else {
        return Ok(None);
    };
    let first = file.name.as_slice().first().copied().unwrap_or(0);
    Ok(Some((first, file.size)))
}

/// A source of two files, whose second call fails.
fn two_files(alloc: Global) -> Result<MemorySource, AllocError> {
    let mut files = Vec::new(alloc);
    files.push(named(alloc, b"A", b"first")?)?;
    files.push(named(alloc, b"B", b"second")?)?;
    Ok(MemorySource::new(files, [2].to_vec(alloc)?))
}

/// What its calls give.
static NEXT: [Result<Option<(u8, u64)>, SourceError>; 5] = [
    Ok(Some((b'A', 5))),
    Err(SourceError::Failed),
    Ok(Some((b'B', 6))),
    Ok(None),
    Ok(None),
];

#[test]
fn a_source_fails_once_and_loses_no_file(rt: HostRuntime) -> Result<(), Fail> {
    let mut source = two_files(rt.alloc())?;
    for (call, want) in NEXT.iter().enumerate() {
        assert!(rt; next_file(&mut source, rt.alloc()) == *want, "call {call}");
    }
    Ok(())
}

/// The size of a file of which so many bytes were read, and so many told.
fn size_of(alloc: Global, read: usize, told: u64) -> Result<u64, AllocError> {
    let name = Bytes::copy(alloc, b"A")?;
    let bytes = Bytes::from_vec(Vec::from_elem(alloc, 0_u8, read)?);
    Ok(NamedBytes::read_so_far(name, bytes, told).size)
}

// A file that was read whole has as many bytes as were read, whatever is told.
#[test]
fn a_file_that_is_too_long_tells_its_size(rt: HostRuntime) -> Result<(), Fail> {
    let alloc = rt.alloc();
    for (read, told, size) in [
        (0, 7, 0),
        (MOST_BYTES, 1 << 32, 1_048_576),
        (MOST_BYTES + 1, 1 << 32, 1 << 32),
        (MOST_BYTES + 1, 0, 1_048_577),
    ] {
        let found = size_of(alloc, read, told)?;
        assert!(rt; found == size, "{read} bytes were read, {told} told");
    }
    Ok(())
}

fn put_all<S: Sink>(sink: &mut S, piece: &[u8]) -> usize {
    if piece.is_empty() {
        return 0;
    }
    sink.put(piece).unwrap_or(0)
}

#[test]
fn a_sink_takes_its_share(rt: HostRuntime) -> Result<(), Fail> {
    let alloc = rt.alloc();
    let mut sink = MemorySink::new(alloc, 4, 3, [2].to_vec(alloc)?)?;
    for (piece, taken, so_far) in [
        (b"abcd", 3, b"abc".as_slice()),
        (b"efgh", 0, b"abc".as_slice()),
        (b"ijkl", 1, b"abci".as_slice()),
        (b"mnop", 0, b"abci".as_slice()),
    ] {
        let put = put_all(&mut sink, piece);
        assert!(rt; put == taken && sink.as_slice() == so_far, "{piece:?}");
    }
    Ok(())
}

// How many bytes the piece of these has, and how many behind its first.
fn piece_and_rest(bytes: &[u8]) -> Option<(usize, usize)> {
    let piece = Piece::new(bytes)?;
    let rest = match piece.rest(1) {
        Some(rest) => rest.as_slice().len(),
        None => 0,
    };
    Some((piece.as_slice().len(), rest))
}

#[test]
fn pieces_have_1_to_24_bytes(rt: HostRuntime) {
    for (bytes, want) in [
        (b"".as_slice(), None),
        (b"7".as_slice(), Some((1, 0))),
        (b"7\n".as_slice(), Some((2, 1))),
        (b"abcdefghijklmnopqrstuvwx".as_slice(), Some((24, 23))),
        (b"abcdefghijklmnopqrstuvwxy".as_slice(), None),
    ] {
        assert!(rt; piece_and_rest(bytes) == want, "{} bytes", bytes.len());
    }
}

#[test]
fn threads_and_what_they_wait_for(rt: HostRuntime) -> Result<(), Fail> {
    assert!(rt; ThreadNo::new(64).is_none());
    let last = ThreadNo::new(63).ok_or("63 is a thread")?;
    let mut waits = Waits::none();
    waits.set(last, On::Join(ThreadNo::main()));
    let is_set = waits.get(last) == Some(On::Join(ThreadNo::main()));
    assert!(rt; last.number() == 63 && is_set && waits.get(ThreadNo::main()).is_none());
    NoGate.before(last, 1);
    Ok(())
}

#[test]
fn a_list_is_changed_in_place(rt: HostRuntime) -> Result<(), Fail> {
    let alloc = rt.alloc();
    let mut list = ListOf::from_vec([5u32].to_vec(alloc)?);
    list.push(6)?;
    list.set(0, 4);
    *list.get_mut(1) = 7;
    assert!(rt; list.len() == 2 && list.as_slice() == [4, 7].as_slice());
    assert!(rt; list.into_vec().len() == 2 && ListOf::<u32>::new(alloc).len() == 0);
    Ok(())
}
