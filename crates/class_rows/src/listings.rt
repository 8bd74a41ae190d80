//! Rows of listings and their class files.

use crate::CLASS_A;
use class_file::{ClassFile, read_class, write_class};
use listing::{ListingError, assemble};
use listing_lines::ListingFault;
use std::alloc::{AllocError, Global};
use std::test::Fail;

/// Each instruction without a label.
const STRAIGHT: &[u8] =
    b".class A\n.super B\n.method m ()V 9 256\nnop\naconst_null\niconst_m1\niconst_0\n\
    iconst_1\niconst_2\niconst_3\niconst_4\niconst_5\nlconst_0\nlconst_1\nbipush -128\n\
    sipush -32768\nldc 7\nldc2_w -1\niload 255\nlload 4\naload 5\niload_0\niload_1\n\
    iload_2\niload_3\nlload_0\nlload_1\nlload_2\nlload_3\naload_0\naload_1\naload_2\n\
    aload_3\niaload\nlaload\naaload\nbaload\ncaload\nsaload\nistore 6\nlstore 7\nastore 8\n\
    istore_0\nistore_1\nistore_2\nistore_3\nlstore_0\nlstore_1\nlstore_2\nlstore_3\n\
    astore_0\nastore_1\nastore_2\nastore_3\niastore\nlastore\naastore\nbastore\ncastore\n\
    sastore\npop\npop2\ndup\ndup_x1\ndup_x2\ndup2\ndup2_x1\ndup2_x2\nswap\niadd\nladd\n\
    isub\nlsub\nimul\nlmul\nidiv\nldiv\nirem\nlrem\nineg\nlneg\nishl\nlshl\nishr\nlshr\n\
    iushr\nlushr\niand\nland\nior\nlor\nixor\nlxor\niinc 9 -1\ni2l\nl2i\ni2b\ni2c\ni2s\n\
    lcmp\nireturn\nlreturn\nareturn\nreturn\ngetstatic A f I\nputstatic A f I\n\
    getfield A f I\nputfield A f I\ninvokevirtual A m ()V\ninvokespecial A m ()V\n\
    invokestatic A m ()V\ninvokeinterface A g (J)V\nnew A\nnewarray char\nanewarray A\n\
    arraylength\nathrow\ncheckcast A\ninstanceof A\nmonitorenter\nmonitorexit\n.end\n";

/// Their bytes by the tables of JVMS 6.5 and 7; the entries of the constant pool are numbered by hand.
const STRAIGHT_CODE: [u8; 160] = [
    0x00, 0x01, 0x02, 0x03, 0x04, 0x05, 0x06, 0x07, 0x08, 0x09, 0x0a, 0x10, 0x80, 0x11, 0x80, 0x00,
    0x13, 0x00, 0x08, 0x14, 0x00, 0x09, 0x15, 0xff, 0x16, 0x04, 0x19, 0x05, 0x1a, 0x1b, 0x1c, 0x1d,
    0x1e, 0x1f, 0x20, 0x21, 0x2a, 0x2b, 0x2c, 0x2d, 0x2e, 0x2f, 0x32, 0x33, 0x34, 0x35, 0x36, 0x06,
    0x37, 0x07, 0x3a, 0x08, 0x3b, 0x3c, 0x3d, 0x3e, 0x3f, 0x40, 0x41, 0x42, 0x4b, 0x4c, 0x4d, 0x4e,
    0x4f, 0x50, 0x53, 0x54, 0x55, 0x56, 0x57, 0x58, 0x59, 0x5a, 0x5b, 0x5c, 0x5d, 0x5e, 0x5f, 0x60,
    0x61, 0x64, 0x65, 0x68, 0x69, 0x6c, 0x6d, 0x70, 0x71, 0x74, 0x75, 0x78, 0x79, 0x7a, 0x7b, 0x7c,
    0x7d, 0x7e, 0x7f, 0x80, 0x81, 0x82, 0x83, 0x84, 0x09, 0xff, 0x85, 0x88, 0x91, 0x92, 0x93, 0x94,
    0xac, 0xad, 0xb0, 0xb1, 0xb2, 0x00, 0x0e, 0xb3, 0x00, 0x0e, 0xb4, 0x00, 0x0e, 0xb5, 0x00, 0x0e,
    0xb6, 0x00, 0x10, 0xb7, 0x00, 0x10, 0xb8, 0x00, 0x10, 0xb9, 0x00, 0x14, 0x03, 0x00, 0xbb, 0x00,
    0x02, 0xbc, 0x05, 0xbd, 0x00, 0x02, 0xbe, 0xbf, 0xc0, 0x00, 0x02, 0xc1, 0x00, 0x02, 0xc2, 0xc3,
];

/// Each instruction with a label.
const JUMPS: &[u8] =
    b".class A\n.super B\n.method m ()V 1 1\nL:\nifeq L\nifne L\niflt L\nifge L\nifgt L\n\
    ifle L\nif_icmpeq L\nif_icmpne L\nif_icmplt L\nif_icmpge L\nif_icmpgt L\nif_icmple L\n\
    if_acmpeq L\nif_acmpne L\ngoto L\nifnull L\nifnonnull L\ntableswitch -1 0 L L L\n\
    lookupswitch L 5 L\n.end\n";

/// Their bytes by the tables of JVMS 6.5 and 7.
const JUMPS_CODE: [u8; 92] = [
    0x99, 0x00, 0x00, 0x9a, 0xff, 0xfd, 0x9b, 0xff, 0xfa, 0x9c, 0xff, 0xf7, 0x9d, 0xff, 0xf4, 0x9e,
    0xff, 0xf1, 0x9f, 0xff, 0xee, 0xa0, 0xff, 0xeb, 0xa1, 0xff, 0xe8, 0xa2, 0xff, 0xe5, 0xa3, 0xff,
    0xe2, 0xa4, 0xff, 0xdf, 0xa5, 0xff, 0xdc, 0xa6, 0xff, 0xd9, 0xa7, 0xff, 0xd6, 0xc6, 0xff, 0xd3,
    0xc7, 0xff, 0xd0, 0xaa, 0xff, 0xff, 0xff, 0xcd, 0xff, 0xff, 0xff, 0xff, 0x00, 0x00, 0x00, 0x00,
    0xff, 0xff, 0xff, 0xcd, 0xff, 0xff, 0xff, 0xcd, 0xab, 0x00, 0x00, 0x00, 0xff, 0xff, 0xff, 0xb8,
    0x00, 0x00, 0x00, 0x01, 0x00, 0x00, 0x00, 0x05, 0xff, 0xff, 0xff, 0xb8,
];

/// The first bad line of the lines behind the first two of a class, and why.
fn fault(alloc: Global, behind: &[u8]) -> Result<Option<(u32, ListingFault)>, Fail> {
    let text = [b".class A\n.super java/lang/Object\n".as_slice(), behind].concat(alloc)?;
    match assemble(alloc, &text) {
        Err(ListingError::Fault { line, kind }) => Ok(Some((line, kind))),
        Err(refusal) => Err(refusal)?,
        Ok(_) => Ok(None),
    }
}

/// What may stand behind the first two lines of a class, and the first bad line: those further up are told first, whatever
/// makes them bad.
static FAULTS: [(&[u8], Option<(u32, ListingFault)>); 15] = [
    (b".field x Q\n", Some((3, ListingFault::BadDescriptor))),
    (b"frob\n", Some((3, ListingFault::UnknownWord))),
    (
        b".method m ()V 1 1\ngoto L\n.end\n",
        Some((4, ListingFault::UnknownLabel)),
    ),
    (
        b".method m ()V 1 1\nbipush 300\n.end\n",
        Some((4, ListingFault::BadNumber)),
    ),
    (
        b".method m ()V 1 1\nL:\nL:\nreturn\n.end\n",
        Some((5, ListingFault::DoubledLabel)),
    ),
    (
        b".method m ()V 1 1\ngoto L\nfrob\n.end\n",
        Some((4, ListingFault::UnknownLabel)),
    ),
    (
        b".method m ()V 1 1\ngoto L\nL:\n.end\n",
        Some((4, ListingFault::Syntax)),
    ),
    (
        b".method m ()V 1 1\n.end\n",
        Some((4, ListingFault::Syntax)),
    ),
    (
        b".method m ()V 1 1\nreturn\n",
        Some((5, ListingFault::Syntax)),
    ),
    (b".field x I", Some((3, ListingFault::Syntax))),
    (b"# \xff\n", Some((3, ListingFault::Syntax))),
    (
        b".field r LA; root\nfrob\n",
        Some((3, ListingFault::Syntax)),
    ),
    (
        b".field r LA; static root\n.field r LB; static root\nfrob\n",
        Some((4, ListingFault::Syntax)),
    ),
    (
        b".method m ()V 1 1\ngoto L\nL:\nfrob\n.end\n",
        Some((6, ListingFault::UnknownWord)),
    ),
    (
        b".field r LA; static root\n.class B\n.super C\n.field r LA; static root\n",
        None,
    ),
];

#[test]
fn the_first_bad_line_is_told(rt: HostRuntime) -> Result<(), Fail> {
    for (row, (behind, want)) in FAULTS.iter().enumerate() {
        assert!(rt; fault(rt.alloc(), behind)? == *want, "in row {row}");
    }
    Ok(())
}

/// A line with a name of 65,536 bytes.
fn long_name(alloc: Global) -> Result<Vec<u8>, AllocError> {
    let name = Vec::from_elem(alloc, b'a', 65_536)?;
    [b".implements ".as_slice(), name.as_slice(), b"\n"].concat(alloc)
}

/// 40,000 instructions of three bytes, and the end of their method.
fn long_code(alloc: Global) -> Result<Vec<u8>, AllocError> {
    let mut code = Vec::new(alloc);
    for _ in 0..40_000 {
        code.extend_from_slice(b"sipush 1\n")?;
    }
    code.extend_from_slice(b"E:\nreturn\n.end\n")?;
    Ok(code)
}

/// The first bad line of two texts behind one another, and why.
fn fault_of_both(
    alloc: Global,
    first: &[u8],
    second: &[u8],
) -> Result<Option<(u32, ListingFault)>, Fail> {
    let text = [first, second].concat(alloc)?;
    fault(alloc, &text)
}

/// A method with a jump to no label.
static BAD_METHOD: &[u8] = b".method m ()V 1 1\ngoto L\n.end\n";

#[test]
fn a_name_may_be_too_long(rt: HostRuntime) -> Result<(), Fail> {
    let name = long_name(rt.alloc())?;
    let behind = fault_of_both(rt.alloc(), BAD_METHOD, &name)?;
    assert!(rt;
        behind == Some((4, ListingFault::UnknownLabel)),
        "behind a bad method"
    );
    let before = fault_of_both(rt.alloc(), &name, BAD_METHOD)?;
    assert!(rt;
        before == Some((3, ListingFault::TooLarge)),
        "before a bad method"
    );
    Ok(())
}

/// What stands before the instructions, and the first bad line: the code is too long, or a jump behind it too far.
static LONG_METHODS: [(&[u8], u32, ListingFault); 2] = [
    (b".method m ()V 1 1\n", 21_849, ListingFault::TooLarge),
    (b".method m ()V 1 1\ngoto E\n", 4, ListingFault::FarJump),
];

#[test]
fn a_code_may_be_too_long(rt: HostRuntime) -> Result<(), Fail> {
    let code = long_code(rt.alloc())?;
    for (front, line, kind) in &LONG_METHODS {
        let found = fault_of_both(rt.alloc(), front, &code)?;
        assert!(rt; found == Some((*line, *kind)), "at line {line}");
    }
    Ok(())
}

/// Whether the only method of a class has this code.
fn is_its_code(class: &ClassFile, want: &[u8]) -> bool {
    match class.methods.as_slice() {
        [method] => match method.code() {
            Some(code) => code.bytes.as_slice() == want,
            None => false,
        },
        _ => false,
    }
}

/// Whether the only method of a listing's first class has this code.
fn has_code(alloc: Global, text: &[u8], code: &[u8]) -> Result<bool, Fail> {
    let classes = assemble(alloc, text)?;
    Ok(match classes.as_slice() {
        [class, ..] => is_its_code(class, code),
        [] => false,
    })
}

/// The file of a listing's first class.
fn file(alloc: Global, text: &[u8]) -> Result<Vec<u8>, Fail> {
    let classes = assemble(alloc, text)?;
    Ok(match classes.as_slice() {
        [class, ..] => write_class(alloc, class)?,
        [] => Vec::new(alloc),
    })
}

/// Whether a file is the same once it is read and written again.
fn is_read_back(alloc: Global, bytes: &[u8]) -> bool {
    let Ok(class) = read_class(alloc, bytes) else {
        return false;
    };
    match write_class(alloc, &class) {
        Ok(written) => written.as_slice() == bytes,
        Err(_) => false,
    }
}

/// A method with a loop and a handler of class A, a static field that is a durable root, and an interface.
const MEMBERS: &[u8] =
    b".class A\n.super B\n.implements I\n.field r LA; static root\n.method m ()V 1 1 static\n\
    L:\niinc 0 1\ngoto L\nE:\nnop\nH:\nathrow\n.catch A L E H\n.end\n";

/// Listings of one method, and its code.
static CODES: [(&[u8], &[u8]); 3] = [
    (STRAIGHT, &STRAIGHT_CODE),
    (JUMPS, &JUMPS_CODE),
    (MEMBERS, &[132, 0, 1, 167, 255, 253, 0, 191]),
];

#[test]
fn each_instruction_has_its_bytes(rt: HostRuntime) -> Result<(), Fail> {
    for (row, (text, bytes)) in CODES.iter().enumerate() {
        assert!(rt; has_code(rt.alloc(), text, bytes)?, "the code in row {row}");
        let file = file(rt.alloc(), text)?;
        assert!(rt; is_read_back(rt.alloc(), &file), "the class in row {row}");
    }
    Ok(())
}

#[test]
fn a_class_has_its_bytes(rt: HostRuntime) -> Result<(), Fail> {
    let bytes = file(rt.alloc(), b".class A\n.super java/lang/Object\n")?;
    assert!(rt; bytes.as_slice() == CLASS_A.as_slice(), "class A");
    Ok(())
}

/// The only handler of a class's only method.
fn handler(class: &ClassFile) -> Option<(u16, u16, u16, u16)> {
    let method = class.methods.as_slice().first()?;
    match method.code()?.handlers.as_slice() {
        [h] => Some((h.start, h.end, h.handler, h.catch)),
        _ => None,
    }
}

#[test]
fn roots_and_handlers_are_read_back(rt: HostRuntime) -> Result<(), Fail> {
    let class = read_class(rt.alloc(), &file(rt.alloc(), MEMBERS)?)?;
    let is_root = matches!(class.fields.as_slice(), [field] if field.root);
    assert!(rt; is_root, "the field r of class A");
    assert!(rt; handler(&class) == Some((0, 6, 7, 2)), "its handler");
    Ok(())
}
