// Attributes of annotations.
ghost use Rattle.std.specs.Prelude.{◌+◌, ◌^◌, ◌<◌, length};

use annotations::{AnnotationRefusal, read_annotations};
use const_pool::read_pool;
use std::alloc::{AllocError, Global};
use std::test::Fail;

/// A pool behind eight bytes: 1 and 2 are the descriptors of the two annotations, 3 is that of another, 4 an Integer, 5 a
/// Float, 6 a Long, 8 a Double.
static POOL: [u8; 102] =
    *b"\x00\x00\x00\x00\x00\x00\x00\x00\x00\x0a\x01\x00\x19Lautopersist/DurableRoot;\x01\x00\x1bLautopersist/Unrecoverable;\x01\x00\x03LA;\x03\x00\x00\x00\x01\x04\x00\x00\x00\x00\x05\x00\x00\x00\x00\x00\x00\x00\x01\x06\x00\x00\x00\x00\x00\x00\x00\x00";

/// An annotation with a pair of each tag of JVMS table 4.7.16.1-A.
const EACH_TAG: [u8; 75] = [
    0, 1, 0, 3, 0, 13, // one annotation, with thirteen pairs
    0, 3, b'B', 0, 4, 0, 3, b'C', 0, 4, 0, 3, b'I', 0, 4, 0, 3, b'S', 0, 4, 0, 3, b'Z', 0, 4, //
    0, 3, b'D', 0, 8, 0, 3, b'F', 0, 5, 0, 3, b'J', 0, 6, //
    0, 3, b's', 0, 3, 0, 3, b'c', 0, 1, //
    0, 3, b'e', 0, 3, 0, 3, // an enum's constant
    0, 3, b'@', 0, 3, 0, 0, // an annotation
    0, 3, b'[', 0, 0, // an array
];

/// Whether an attribute has the root's annotation, and the other; or why it is refused.
type MarksRead = Result<(bool, bool), AnnotationRefusal>;

/// What is read of an attribute whose content begins at offset 100 of a file.
fn marks_of(alloc: Global, content: &[u8]) -> Result<MarksRead, Fail>
    requires { 100 + length content.now < 2 ^ 64 }
{
    let (pool, _) = read_pool(alloc, &POOL)?;
    Ok(match read_annotations(&pool, 100, content) {
        Ok(marks) => Ok((marks.root, marks.unrecoverable)),
        Err(refusal) => Err(refusal),
    })
}

/// Contents, and what they are read as.
static CONTENTS: [(&[u8], MarksRead); 19] = [
    (b"\x00\x00", Ok((false, false))),
    (b"\x00\x01\x00\x01\x00\x00", Ok((true, false))),
    (b"\x00\x01\x00\x02\x00\x00", Ok((false, true))),
    (
        b"\x00\x02\x00\x01\x00\x00\x00\x02\x00\x00",
        Ok((true, true)),
    ),
    (
        b"\x00\x02\x00\x01\x00\x00\x00\x03\x00\x00",
        Ok((true, false)),
    ),
    (&EACH_TAG, Ok((false, false))),
    // An array of arrays, and one with nothing in it.
    (
        b"\x00\x01\x00\x01\x00\x01\x00\x03[\x00\x02[\x00\x01I\x00\x04[\x00\x00",
        Ok((true, false)),
    ),
    // The root's annotation in a value of another.
    (
        b"\x00\x01\x00\x03\x00\x01\x00\x03@\x00\x01\x00\x00",
        Ok((false, false)),
    ),
    // Cut off, with bytes left over, and with a tag that is none.
    (b"", Err(AnnotationRefusal::BadForm)),
    (b"\xff\xff", Err(AnnotationRefusal::BadForm)),
    (b"\x00\x01\x00\x01\x00", Err(AnnotationRefusal::BadForm)),
    (
        b"\x00\x01\x00\x03\x00\x01\x00\x03I\x00",
        Err(AnnotationRefusal::BadForm),
    ),
    (
        b"\x00\x01\x00\x03\x00\x01\x00\x03[\xff\xff",
        Err(AnnotationRefusal::BadForm),
    ),
    (
        b"\x00\x01\x00\x03\x00\x01\x00\x03X\x00\x04",
        Err(AnnotationRefusal::BadForm),
    ),
    (b"\x00\x00\x00", Err(AnnotationRefusal::BadForm)),
    // Indices at which nothing of the kind stands.
    (
        b"\x00\x01\x00\x04",
        Err(AnnotationRefusal::BadIndex {
            offset: 102,
            index: 4,
        }),
    ),
    (
        b"\x00\x01\x00\x03\x00\x01\x00\x09",
        Err(AnnotationRefusal::BadIndex {
            offset: 106,
            index: 9,
        }),
    ),
    (
        b"\x00\x01\x00\x03\x00\x01\x00\x03I\x00\x03",
        Err(AnnotationRefusal::BadIndex {
            offset: 109,
            index: 3,
        }),
    ),
    (
        b"\x00\x01\x00\x03\x00\x01\x00\x03e\x00\x03\x00\x00",
        Err(AnnotationRefusal::BadIndex {
            offset: 111,
            index: 0,
        }),
    ),
];

#[test]
fn annotations_are_read_or_refused(rt: HostRuntime) -> Result<(), Fail> {
    for (content, want) in &CONTENTS {
        assert!(rt; marks_of(rt.alloc(), content)? == *want, "{content:?}");
    }
    Ok(())
}

/// A text at this depth, each value around it made by these bytes.
fn at_depth(alloc: Global, depth: usize, around: &[u8]) -> Result<Vec<u8>, AllocError> {
    let mut content = [0, 1, 0, 1, 0, 1, 0, 3].to_vec(alloc)?;
    for _ in 1..depth {
        content.extend_from_slice(around)?;
    }
    content.extend_from_slice(&[b's', 0, 3])?;
    Ok(content)
}

/// How deep a text stands, what makes each value around it, and what is read.
static DEPTHS: [(usize, &[u8], MarksRead); 4] = [
    (64, b"[\x00\x01", Ok((true, false))),
    (64, b"@\x00\x03\x00\x01\x00\x03", Ok((true, false))),
    (65, b"[\x00\x01", Err(AnnotationRefusal::BadForm)),
    (
        65,
        b"@\x00\x03\x00\x01\x00\x03",
        Err(AnnotationRefusal::BadForm),
    ),
];

fn marks_at_depth(alloc: Global, depth: usize, around: &[u8]) -> Result<MarksRead, Fail> {
    let content = at_depth(alloc, depth, around)?;
    marks_of(alloc, &content)
}

#[test]
fn values_nest_at_most_64_deep(rt: HostRuntime) -> Result<(), Fail> {
    for (depth, around, want) in &DEPTHS {
        let found = marks_at_depth(rt.alloc(), *depth, around)?;
        assert!(rt; found == *want, "{depth} of {around:?}");
    }
    Ok(())
}
