//! Rows of the lines of listings.

use listing_lines::{Instruction, Line, ListingFault, Wanted, read_lines};
use std::alloc::Global;
use std::test::Fail;

/// The first bad line of a listing, from 0, and why.
fn first_fault(alloc: Global, text: &[u8]) -> Result<Option<(usize, ListingFault)>, Fail> {
    let lines = read_lines(alloc, text)?;
    for (at, line) in lines.iter().enumerate() {
        if let Line::Wrong(kind) = line {
            return Ok(Some((at, *kind)));
        }
    }
    Ok(None)
}

/// Listings, and the first bad line of each, from 0, with its fault.
static FAULTS: [(&[u8], Option<(usize, ListingFault)>); 13] = [
    (
        b"# nothing\n\n.field x Q\n",
        Some((2, ListingFault::BadDescriptor)),
    ),
    (b"nop\nfrob\n", Some((1, ListingFault::UnknownWord))),
    (b"bipush 300\n", Some((0, ListingFault::BadNumber))),
    (b"bipush -128\nbipush 127\n", None),
    (b"nop\nnop", Some((1, ListingFault::Syntax))),
    (b"#\xff\n", Some((0, ListingFault::Syntax))),
    (b"ldc \"a\n", Some((0, ListingFault::BadText))),
    (b"ldc \"a b\"\n", None),
    (b"newarray float\n", Some((0, ListingFault::UnknownWord))),
    (b"lookupswitch D 1\n", Some((0, ListingFault::Syntax))),
    (b"tableswitch 2 1 D\n", Some((0, ListingFault::Syntax))),
    (b".field x I static root\n", Some((0, ListingFault::Syntax))),
    (
        b".method m ()V 1 0 abstract\n",
        Some((0, ListingFault::Syntax)),
    ),
];

#[test]
fn bad_lines_have_their_fault(rt: HostRuntime) -> Result<(), Fail> {
    for (row, (text, fault)) in FAULTS.iter().enumerate() {
        assert!(rt; first_fault(rt.alloc(), text)? == *fault, "in row {row}");
    }
    Ok(())
}

/// Lines of one instruction without a label or an entry, and its bytes.
static INSTRUCTIONS: [(&[u8], &[u8]); 5] = [
    (b"monitorexit\n", &[195]),
    (b"sipush -2\n", &[17, 255, 254]),
    (b" iinc  255 -1 \n", &[132, 255, 255]),
    (b"astore 4\n", &[58, 4]),
    (b"newarray long\n", &[188, 11]),
];

/// Whether these bytes are the instruction of a listing's only line.
fn is_instruction(alloc: Global, text: &[u8], bytes: &[u8]) -> Result<bool, Fail> {
    let lines = read_lines(alloc, text)?;
    Ok(match lines.as_slice() {
        [Line::Instruction(Instruction::Whole(found))] => found.as_slice() == bytes,
        _ => false,
    })
}

#[test]
fn instructions_have_their_bytes(rt: HostRuntime) -> Result<(), Fail> {
    for (text, bytes) in &INSTRUCTIONS {
        assert!(rt; is_instruction(rt.alloc(), text, bytes)?, "{bytes:?}");
    }
    Ok(())
}

#[test]
fn texts_and_counts_are_read(rt: HostRuntime) -> Result<(), Fail> {
    let text = b"ldc \"a \\\"b\\\\\\n\"\ninvokeinterface I m (J[JI)V\nL:\n";
    let lines = read_lines(rt.alloc(), text)?;
    let found = match lines.as_slice() {
        [
            Line::Instruction(
                Instruction::Entry {
                    opcode: 19,
                    entry: Wanted::Text(text),
                },
            ),
            Line::Instruction(Instruction::Interface { count: 5, .. }),
            Line::Label(label),
        ] => text.as_slice() == b"a \"b\\\n".as_slice() && label.as_slice() == b"L".as_slice(),
        _ => false,
    };
    assert!(rt; found, "a text, a count and a label");
    Ok(())
}
