//! Class files of listings, and whether they link.

use ap_base::Bytes;
use class_file::{ClassFile, ClassRefusal, read_class};
use class_links::{LinkRefusal, check_links};
use listing::assemble;
use std::alloc::Global;
use std::test::Fail;

/// Why classes don't link.
fn refusal_of_all(alloc: Global, classes: &[ClassFile]) -> Result<Option<LinkRefusal>, Fail> {
    if classes.len() > 4096 {
        return Err("few classes".into());
    }
    Ok(check_links(alloc, classes).err())
}

/// Why the classes of a listing don't link.
fn refusal_of(alloc: Global, listing: &[u8]) -> Result<Option<LinkRefusal>, Fail> {
    let classes = assemble(alloc, listing)?;
    refusal_of_all(alloc, &classes)
}

/// The refusal's word, and the names of its classes.
fn parts_of(refusal: &Option<LinkRefusal>) -> (&str, &[u8], &[u8]) {
    match refusal {
        None => ("links", b"", b""),
        Some(LinkRefusal::DuplicateClass { class }) => one("DuplicateClass", class),
        Some(LinkRefusal::MissingSuper { class, super_class }) => {
            two("MissingSuper", class, super_class)
        }
        Some(LinkRefusal::SuperKind { class, super_class }) => two("SuperKind", class, super_class),
        Some(LinkRefusal::FinalSuper { class, super_class }) => {
            two("FinalSuper", class, super_class)
        }
        Some(LinkRefusal::CircularSuper { class }) => one("CircularSuper", class),
        Some(LinkRefusal::InterfaceCode { class }) => one("InterfaceCode", class),
        Some(LinkRefusal::OutOfMemory) => ("OutOfMemory", b"", b""),
    }
}

fn one<'a>(word: &'a str, class: &'a Bytes) -> (&'a str, &'a [u8], &'a [u8]) {
    (word, class.as_slice(), b"")
}

fn two<'a>(word: &'a str, class: &'a Bytes, other: &'a Bytes) -> (&'a str, &'a [u8], &'a [u8]) {
    (word, class.as_slice(), other.as_slice())
}

/// A listing, the word of its refusal, and the classes that this names.
type Row = (&'static [u8], &'static str, &'static str, &'static str);

static ROWS: [Row; 23] = [
    (b"", "links", "", ""),
    (b".class A\n.super java/lang/Object\n", "links", "", ""),
    (
        b".class A\n.super java/lang/Exception\n.implements java/lang/Cloneable\n\
        .method m ()V 0 0 static\nreturn\n.end\n",
        "links",
        "",
        "",
    ),
    (
        b".class B\n.super A\n.implements I\n.interface I\n.super java/lang/Object\n\
        .implements java/lang/Runnable\n.method <clinit> ()V 0 0 static\nreturn\n.end\n\
        .class A\n.super java/lang/Object\n",
        "links",
        "",
        "",
    ),
    (
        b".class A\n.super java/lang/Object\n.class A\n.super java/lang/Object\n",
        "DuplicateClass",
        "A",
        "",
    ),
    (
        b".class java/lang/String\n.super java/lang/Object\n",
        "DuplicateClass",
        "java/lang/String",
        "",
    ),
    (b".class A\n.super B\n", "MissingSuper", "A", "B"),
    (
        b".class A\n.super java/lang/Object\n.implements I\n",
        "MissingSuper",
        "A",
        "I",
    ),
    (
        b".class A\n.super java/lang/Runnable\n",
        "SuperKind",
        "A",
        "java/lang/Runnable",
    ),
    (
        b".class B\n.super java/lang/Object\n.implements A\n.class A\n.super java/lang/Object\n",
        "SuperKind",
        "B",
        "A",
    ),
    (
        b".class A\n.super java/lang/String\n",
        "FinalSuper",
        "A",
        "java/lang/String",
    ),
    (
        b".class A\n.super B\n.final B\n.super java/lang/Object\n",
        "FinalSuper",
        "A",
        "B",
    ),
    (b".class A\n.super A\n", "CircularSuper", "A", ""),
    (
        b".class C\n.super A\n.class A\n.super B\n.class B\n.super A\n",
        "CircularSuper",
        "A",
        "",
    ),
    (
        b".class D\n.super A\n.class A\n.super B\n.class B\n.super C\n.class C\n.super A\n",
        "CircularSuper",
        "A",
        "",
    ),
    (
        b".interface I\n.super java/lang/Object\n.implements J\n\
        .interface J\n.super java/lang/Object\n.implements I\n",
        "CircularSuper",
        "I",
        "",
    ),
    (
        b".interface I\n.super java/lang/Object\n.method <clinit> ()V 0 0 static\nreturn\n.end\n\
        .method m ()V 0 0 static\nreturn\n.end\n",
        "InterfaceCode",
        "I",
        "",
    ),
    (
        b".interface I\n.super java/lang/Object\n.method <clinit> ()V 0 0 static\nreturn\n.end\n\
        .method m ()V 0 0 abstract\n.end\n",
        "links",
        "",
        "",
    ),
    // the later class breaks the condition that is checked first
    (
        b".class M\n.super B\n.class M\n.super java/lang/Object\n",
        "DuplicateClass",
        "M",
        "",
    ),
    (
        b".class K\n.super java/lang/Runnable\n.class M\n.super B\n",
        "MissingSuper",
        "M",
        "B",
    ),
    (
        b".class F\n.super java/lang/System\n.class K\n.super java/lang/Runnable\n",
        "SuperKind",
        "K",
        "java/lang/Runnable",
    ),
    (
        b".class C\n.super C\n.class F\n.super java/lang/System\n",
        "FinalSuper",
        "F",
        "java/lang/System",
    ),
    (
        b".interface I\n.super java/lang/Object\n.method m ()V 0 0 static\nreturn\n.end\n\
        .class C\n.super C\n",
        "CircularSuper",
        "C",
        "",
    ),
];

/// Whether a row is right.
fn is_right(alloc: Global, row: &Row) -> Result<bool, Fail> {
    let (listing, word, class, other) = *row;
    let refusal = refusal_of(alloc, listing)?;
    let found = parts_of(&refusal);
    Ok(found == (word, class.as_bytes(), other.as_bytes()))
}

#[test]
fn classes_that_link_and_others(rt: HostRuntime) -> Result<(), Fail> {
    for (number, row) in ROWS.iter().enumerate() {
        assert!(rt; is_right(rt.alloc(), row)?, "row {number}: {}", row.1);
    }
    Ok(())
}

/// The last four digits of a number.
fn digits(number: u32) -> [u8; 4] {
    [
        b'0' + (number / 1000 % 10) as u8,
        b'0' + (number / 100 % 10) as u8,
        b'0' + (number / 10 % 10) as u8,
        b'0' + (number % 10) as u8,
    ]
}

/// What stands in a class file before its name, between it and its superclass's, and behind that,
/// where both are four digits behind a `C`.
static PARTS: [&[u8]; 3] = [
    b"\xca\xfe\xba\xbe\x00\x00\x004\x00\x05\x01\x00\x05C",
    b"\x07\x00\x01\x01\x00\x05C",
    b"\x07\x00\x03\x00\x21\x00\x02\x00\x04\x00\x00\x00\x00\x00\x00\x00\x00",
];

/// The class of one number, whose superclass has the other.
fn link(alloc: Global, number: u32, above: u32) -> Result<ClassFile, ClassRefusal> {
    let mut bytes = Vec::new(alloc);
    bytes.extend_from_slice(PARTS[0])?;
    bytes.extend_from_slice(&digits(number))?;
    bytes.extend_from_slice(PARTS[1])?;
    bytes.extend_from_slice(&digits(above))?;
    bytes.extend_from_slice(PARTS[2])?;
    read_class(alloc, &bytes)
}

/// A chain of so many classes.
fn chain(alloc: Global, count: u32) -> Result<Vec<ClassFile>, Fail> {
    let mut classes = assemble(alloc, b".class C0000\n.super java/lang/Object\n")?;
    for above in 0..count.saturating_sub(1) {
        classes.push(link(alloc, above + 1, above)?)?;
    }
    Ok(classes)
}

// A chain of as many classes as may be.
#[test]
fn long_chain_links(rt: HostRuntime) -> Result<(), Fail> {
    let classes = chain(rt.alloc(), 4096)?;
    let refusal = refusal_of_all(rt.alloc(), &classes)?;
    assert!(rt; classes.len() == 4096 && refusal.is_none(), "a long chain");
    Ok(())
}
