// Class files.
use crate::{CLASS_A, HANDS, MIXED, SEVERAL};
use class_file::{ClassFile, ClassRefusal, read_class, write_class};
use std::alloc::{AllocError, Global};
use std::test::Fail;

/// The size of a class's pool, its flags, its class and superclass, and how many interfaces, fields, methods and attributes it
/// has.
fn head_of(class: &ClassFile) -> ([u16; 4], [usize; 4]) {
    (
        [
            class.pool.len(),
            class.access,
            class.this_class,
            class.super_class,
        ],
        [
            class.interfaces.len(),
            class.fields.len(),
            class.methods.len(),
            class.attributes.len(),
        ],
    )
}

#[test]
fn a_class_is_read(rt: HostRuntime) -> Result<(), Fail> {
    let class = read_class(rt.alloc(), &CLASS_A)?;
    let is_right = head_of(&class) == ([5, 0x21, 2, 4], [0, 0, 0, 0]);
    assert!(rt; is_right, "class A");
    Ok(())
}

/// A byte at an offset of class `A` with so many bytes, a further one being 0, and why it is refused.
static WRONG_BYTES: [(usize, usize, u8, Option<ClassRefusal>); 10] = [
    (54, 0, 0xca, Some(ClassRefusal::TrailingBytes(53))),
    (52, 0, 0xca, Some(ClassRefusal::Truncated(51))),
    (53, 0, 0xcb, Some(ClassRefusal::BadMagic)),
    (
        53,
        7,
        53,
        Some(ClassRefusal::BadVersion {
            major: 53,
            minor: 0,
        }),
    ),
    (
        53,
        5,
        1,
        Some(ClassRefusal::BadVersion {
            major: 52,
            minor: 1,
        }),
    ),
    (
        53,
        13,
        b'.',
        Some(ClassRefusal::BadIndex {
            offset: 41,
            index: 2,
        }),
    ),
    (53, 13, b'/', None),
    (
        53,
        42,
        1,
        Some(ClassRefusal::BadIndex {
            offset: 41,
            index: 1,
        }),
    ),
    (
        53,
        44,
        5,
        Some(ClassRefusal::BadIndex {
            offset: 43,
            index: 5,
        }),
    ),
    (
        53,
        44,
        0,
        Some(ClassRefusal::BadIndex {
            offset: 43,
            index: 0,
        }),
    ),
];

/// Why class `A` is refused with so many bytes and another byte at an offset.
fn refusal_with(alloc: Global, len: usize, at: usize, byte: u8) -> Option<ClassRefusal> {
    let mut bytes = [0; 54];
    bytes[..53].copy_from_slice(&CLASS_A);
    if at < 54 {
        bytes[at] = byte;
    }
    read_class(alloc, bytes.get(..len).unwrap_or(&[])).err()
}

#[test]
fn a_wrong_byte_is_refused(rt: HostRuntime) {
    for (len, at, byte, want) in &WRONG_BYTES {
        let found = refusal_with(rt.alloc(), *len, *at, *byte);
        assert!(rt; found == *want, "{byte} at {at} of {len}");
    }
}

/// What is read of class `A` with two interfaces, of which the second is given.
fn with_interface(
    alloc: Global,
    second: u8,
) -> Result<Result<ClassFile, ClassRefusal>, AllocError> {
    let front = CLASS_A.get(..45).unwrap_or(&[]);
    let bytes = [front, &[0, 2, 0, 4, 0, second, 0, 0, 0, 0, 0, 0]].concat(alloc)?;
    Ok(read_class(alloc, &bytes))
}

/// Whether a class is read, with these interfaces.
fn has_interfaces(read: &Result<ClassFile, ClassRefusal>, want: &[u16]) -> bool {
    match read {
        Ok(class) => class.interfaces.as_slice() == want,
        Err(_) => false,
    }
}

#[test]
fn interfaces_are_read(rt: HostRuntime) -> Result<(), Fail> {
    let read = with_interface(rt.alloc(), 2)?;
    assert!(rt; has_interfaces(&read, &[4, 2]), "of class A");
    Ok(())
}

#[test]
fn an_interface_is_a_class(rt: HostRuntime) -> Result<(), Fail> {
    let want = Some(ClassRefusal::BadIndex {
        offset: 49,
        index: 3,
    });
    assert!(rt;
        with_interface(rt.alloc(), 3)?.err() == want,
        "with the text at 3"
    );
    Ok(())
}

/// A class without its fields and what follows: 1 is the name of the class at 2, 4 is the superclass, 5 to 8 are the names of
/// attributes and a descriptor of the annotation, 9 to 11 and 17 are descriptors, 12 an Integer, 13 a Long, 15, 16 and 18 are
/// names, the first two the same. The fields' count stands at 173.
static FRONT: [u8; 173] =
    *b"\xca\xfe\xba\xbe\x00\x00\x004\x00\x13\x01\x00\x01A\x07\x00\x01\x01\x00\x10java/lang/Object\x07\x00\x03\x01\x00\x04Code\x01\x00\x0dConstantValue\x01\x00\x19RuntimeVisibleAnnotations\x01\x00\x19Lautopersist/DurableRoot;\x01\x00\x03LA;\x01\x00\x01I\x01\x00\x03()V\x03\x00\x00\x00\x05\x05\x00\x00\x00\x00\x00\x00\x00\x01\x01\x00\x01f\x01\x00\x01f\x01\x00\x02[I\x01\x00\x01g\x00\x21\x00\x02\x00\x04\x00\x00";

/// What is read of the class with these members, of which the parts are given.
fn with_members(
    alloc: Global,
    parts: [&[u8]; 3],
) -> Result<Result<ClassFile, ClassRefusal>, AllocError> {
    let [count, member, rest] = parts;
    let bytes = [FRONT.as_slice(), count, member, rest].concat(alloc)?;
    Ok(read_class(alloc, &bytes))
}

/// The constant of a field, and whether it is a durable root; or why the class is refused.
type FieldRead = Result<(Option<u16>, bool), ClassRefusal>;

/// What the first field is read as; no constant and no root where there is none.
fn first_field(read: &Result<ClassFile, ClassRefusal>) -> FieldRead {
    match read {
        Ok(class) => match class.fields.as_slice() {
            [field, ..] => Ok((field.constant, field.root)),
            [] => Ok((None, false)),
        },
        Err(refusal) => Err(*refusal),
    }
}

/// A field, and what it is read as. The field begins at 175, its first attribute at 183.
static FIELDS: [(&[u8], FieldRead); 11] = [
    // An `int` with an Integer, then with a Long, then an object.
    (
        b"\x00\x08\x00\x0f\x00\x0a\x00\x01\x00\x06\x00\x00\x00\x02\x00\x0c",
        Ok((Some(12), false)),
    ),
    (
        b"\x00\x08\x00\x0f\x00\x0a\x00\x01\x00\x06\x00\x00\x00\x02\x00\x0d",
        Err(ClassRefusal::BadIndex {
            offset: 189,
            index: 13,
        }),
    ),
    (
        b"\x00\x08\x00\x0f\x00\x09\x00\x01\x00\x06\x00\x00\x00\x02\x00\x0c",
        Err(ClassRefusal::BadIndex {
            offset: 189,
            index: 12,
        }),
    ),
    // A field that isn't static, and a constant of three bytes.
    (
        b"\x00\x00\x00\x0f\x00\x0a\x00\x01\x00\x06\x00\x00\x00\x02\x00\x0d",
        Ok((None, false)),
    ),
    (
        b"\x00\x08\x00\x0f\x00\x0a\x00\x01\x00\x06\x00\x00\x00\x03\x00\x0c\x00",
        Err(ClassRefusal::BadAttribute(183)),
    ),
    // A name with a slash, and the descriptor of a method.
    (
        b"\x00\x00\x00\x08\x00\x0a\x00\x00",
        Err(ClassRefusal::BadIndex {
            offset: 177,
            index: 8,
        }),
    ),
    (
        b"\x00\x00\x00\x0f\x00\x0b\x00\x00",
        Err(ClassRefusal::BadDescriptor(11)),
    ),
    // A durable root, one that isn't static, and one of `int`.
    (
        b"\x00\x08\x00\x0f\x00\x09\x00\x01\x00\x07\x00\x00\x00\x06\x00\x01\x00\x08\x00\x00",
        Ok((None, true)),
    ),
    (
        b"\x00\x00\x00\x0f\x00\x09\x00\x01\x00\x07\x00\x00\x00\x06\x00\x01\x00\x08\x00\x00",
        Err(ClassRefusal::RootNotReference(0)),
    ),
    (
        b"\x00\x08\x00\x0f\x00\x0a\x00\x01\x00\x07\x00\x00\x00\x06\x00\x01\x00\x08\x00\x00",
        Err(ClassRefusal::RootNotReference(0)),
    ),
    // An array, with a constant that is passed over.
    (
        b"\x00\x08\x00\x0f\x00\x11\x00\x02\x00\x06\x00\x00\x00\x02\x00\x0c\x00\x07\x00\x00\x00\x06\x00\x01\x00\x08\x00\x00",
        Ok((None, true)),
    ),
];

#[test]
fn constants_and_roots_fit_their_fields(rt: HostRuntime) -> Result<(), Fail> {
    for (field, want) in &FIELDS {
        let read = with_members(rt.alloc(), [&[0, 1], field, &[0, 0, 0, 0]])?;
        assert!(rt; first_field(&read) == *want, "{field:?}");
    }
    Ok(())
}

/// The count of two fields, and a durable root with the name at 15.
static FIRST_ROOT: [u8; 22] = [
    0, 2, 0, 8, 0, 15, 0, 9, 0, 1, 0, 7, 0, 0, 0, 6, 0, 1, 0, 8, 0, 0,
];

/// What stands behind the name of a durable root, which is the last field of a class without methods.
static LAST_ROOT: [u8; 20] = [0, 9, 0, 1, 0, 7, 0, 0, 0, 6, 0, 1, 0, 8, 0, 0, 0, 0, 0, 0];

/// Why a class is refused with two durable roots, of which the first has the name at 15.
fn refusal_of_roots(alloc: Global, second: u8) -> Result<Option<ClassRefusal>, AllocError> {
    Ok(with_members(alloc, [&FIRST_ROOT, &[0, 8, 0, second], &LAST_ROOT])?.err())
}

#[test]
fn roots_have_names_of_their_own(rt: HostRuntime) -> Result<(), Fail> {
    let bad = Some(ClassRefusal::RootNotReference(1));
    for (second, want) in [(15, bad), (16, bad), (18, None)] {
        let found = refusal_of_roots(rt.alloc(), second)?;
        assert!(rt; found == want, "named at {second}");
    }
    Ok(())
}

/// The length of a method's code, where it has one; or why the class is refused.
type CodeRead = Result<Option<usize>, ClassRefusal>;

/// What the first method is read as; no code where there is none.
fn first_method(read: &Result<ClassFile, ClassRefusal>) -> CodeRead {
    match read {
        Ok(class) => match class.methods.as_slice() {
            [method, ..] => match method.code() {
                Some(code) => Ok(Some(code.bytes.as_slice().len())),
                None => Ok(None),
            },
            [] => Ok(None),
        },
        Err(refusal) => Err(*refusal),
    }
}

/// A method, and what it is read as. The method begins at 177, its first attribute at 185.
static METHODS: [(&[u8], CodeRead); 9] = [
    // One Code, two, and none.
    (
        b"\x00\x01\x00\x0f\x00\x0b\x00\x01\x00\x05\x00\x00\x00\x0d\x00\x00\x00\x01\x00\x00\x00\x01\xb1\x00\x00\x00\x00",
        Ok(Some(1)),
    ),
    (
        b"\x00\x01\x00\x0f\x00\x0b\x00\x02\x00\x05\x00\x00\x00\x0d\x00\x00\x00\x01\x00\x00\x00\x01\xb1\x00\x00\x00\x00\x00\x05\x00\x00\x00\x0d\x00\x00\x00\x01\x00\x00\x00\x01\xb1\x00\x00\x00\x00",
        Err(ClassRefusal::BadAttribute(204)),
    ),
    (
        b"\x00\x01\x00\x0f\x00\x0b\x00\x00",
        Err(ClassRefusal::BadAttribute(177)),
    ),
    // The descriptor of a field.
    (
        b"\x00\x01\x00\x0f\x00\x09\x00\x00",
        Err(ClassRefusal::BadDescriptor(9)),
    ),
    // An abstract method, a native one, and an abstract one with a Code.
    (b"\x04\x01\x00\x0f\x00\x0b\x00\x00", Ok(None)),
    (b"\x01\x01\x00\x0f\x00\x0b\x00\x00", Ok(None)),
    (
        b"\x04\x01\x00\x0f\x00\x0b\x00\x01\x00\x05\x00\x00\x00\x0d\x00\x00\x00\x01\x00\x00\x00\x01\xb1\x00\x00\x00\x00",
        Err(ClassRefusal::BadAttribute(185)),
    ),
    // A Code that is cut off, and a `getstatic` that names a Utf8 entry.
    (
        b"\x00\x01\x00\x0f\x00\x0b\x00\x01\x00\x05\x00\x00\x00\x0c\x00\x00\x00\x01\x00\x00\x00\x01\xb1\x00\x00\x00",
        Err(ClassRefusal::BadAttribute(185)),
    ),
    (
        b"\x00\x01\x00\x0f\x00\x0b\x00\x01\x00\x05\x00\x00\x00\x10\x00\x01\x00\x01\x00\x00\x00\x04\xb2\x00\x01\xb1\x00\x00\x00\x00",
        Err(ClassRefusal::BadOperand { method: 0, pc: 0 }),
    ),
];

#[test]
fn methods_have_one_code(rt: HostRuntime) -> Result<(), Fail> {
    for (method, want) in &METHODS {
        let read = with_members(rt.alloc(), [&[0, 0, 0, 1], method, &[0, 0]])?;
        assert!(rt; first_method(&read) == *want, "{method:?}");
    }
    Ok(())
}

/// How many durable roots and how many constants the fields of a class have.
fn counts_of(class: &ClassFile) -> (usize, usize) {
    let mut roots = 0;
    let mut constants = 0;
    for field in class.fields.as_slice() {
        if field.root && roots < 100 {
            roots += 1;
        }
        if field.constant.is_some() && constants < 100 {
            constants += 1;
        }
    }
    (roots, constants)
}

/// Class files of a compiler, and how many durable roots and constants their fields have.
static COMPILED: [(&[u8], (usize, usize)); 3] = [
    (&SEVERAL, (0, 0)),
    (&HANDS, (0, 1)),
    (&MIXED, (1, 3)),
];

/// Whether a class file is written as it was read, with so many durable roots and constants.
fn is_written_again(alloc: Global, bytes: &[u8], counts: (usize, usize)) -> bool {
    let Ok(class) = read_class(alloc, bytes) else {
        return false;
    };
    match write_class(alloc, &class) {
        Ok(written) => written.as_slice() == bytes && counts_of(&class) == counts,
        Err(_) => false,
    }
}

#[test]
fn what_a_compiler_writes_is_written_again(rt: HostRuntime) {
    for (bytes, counts) in &COMPILED {
        let is_right = is_written_again(rt.alloc(), bytes, *counts);
        assert!(rt; is_right, "of {} bytes", bytes.len());
    }
}
