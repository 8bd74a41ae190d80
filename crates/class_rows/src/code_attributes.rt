//! Contents of Code attributes.

ghost use Rattle.std.specs.Prelude.{◌+◌, ◌^◌, ◌<◌, length};

use crate::codes::nops;
use class_items::DescriptorKinds;
use code_attribute::{Code, CodeFault, put_code_attribute, read_code_attribute};
use code_form::{CodeRefusal, Ins, PoolUse};
use const_pool::{Pool, read_pool};
use parsing::put_u32;
use std::alloc::Global;
use std::test::Fail;

/// Texts at 1, 3, 4, 7 and 13, a class at 2, a name and type of a field at 5, of a method at 8; a field at 6, a method at 9,
/// one of an interface at 16; an Integer at 10, a Long at 11. The descriptor of the field at 14 is a method's, and that of the
/// method at 15 a field's.
static POOL: [u8; 98] = [
    0, 0, 0, 0, 0, 0, 0, 0, 0, 17, // count
    1, 0, 1, b'A', // 1
    7, 0, 1, // 2
    1, 0, 1, b'f', // 3
    1, 0, 1, b'I', // 4
    12, 0, 3, 0, 4, // 5
    9, 0, 2, 0, 5, // 6
    1, 0, 3, b'(', b')', b'V', // 7
    12, 0, 3, 0, 7, // 8
    10, 0, 2, 0, 8, // 9
    3, 0, 0, 0, 1, // 10
    5, 0, 0, 0, 0, 0, 0, 0, 1, // 11 and 12
    1, 0, 15, b'L', b'i', b'n', b'e', b'N', b'u', b'm', b'b', b'e', b'r', b'T', b'a', b'b', b'l',
    b'e', // 13
    9, 0, 2, 0, 8, // 14
    10, 0, 2, 0, 5, // 15
    11, 0, 2, 0, 8, // 16
];

/// A method's code with a handler and the numbers of its lines.
static CONTENT: [u8; 42] = [
    0, 1, // max_stack
    0, 2, // max_locals
    0, 0, 0, 10, // code_length
    0x2a, // 0: aload_0
    0xb4, 0, 6, // 1: getfield
    0x57, // 4: pop
    0x12, 10, // 5: ldc
    0x57, // 7: pop
    0xb1, // 8: return
    0xbf, // 9: athrow
    0, 1, // exception_table_length
    0, 0, 0, 8, 0, 9, 0, 2, // from 0 up to 8, to 9, a class
    0, 1, // attributes_count
    0, 13, 0, 0, 0, 6, 0, 1, 0, 0, 0, 5, // LineNumberTable
];

fn pool(alloc: Global) -> Result<Pool, Fail> {
    let (pool, _) = read_pool(alloc, &POOL)?;
    Ok(pool)
}

/// The index of a `getfield`.
fn field_index(ins: &Ins) -> u16 {
    match ins {
        Ins::Pool(PoolUse::GetField, index) => *index,
        _ => 0,
    }
}

/// The handler that a code has, where it is the only one.
fn handler_of(code: &Code) -> Option<(u16, u16, u16, u16)> {
    match code.handlers.as_slice() {
        [h] => Some((h.start, h.end, h.handler, h.catch)),
        _ => None,
    }
}

/// Whether the second of seven instructions is a `getfield` at 1, and the only attribute has the name at 13.
fn has_parts(code: &Code) -> bool {
    let is_second = match code.instructions.as_slice() {
        [_, second, _, _, _, _, _] => second.pc == 1 && field_index(&second.ins) == 6,
        _ => false,
    };
    is_second && matches!(code.attributes.as_slice(), [lines] if lines.name == 13)
}

#[test]
fn code_is_read_and_written(rt: HostRuntime) -> Result<(), Fail> {
    let pool = pool(rt.alloc())?;
    let kinds = DescriptorKinds::of(rt.alloc(), &pool)?;
    let code = read_code_attribute(rt.alloc(), &pool, &kinds, 100, &CONTENT)?;
    let mut written = Vec::new(rt.alloc());
    put_code_attribute(&mut written, &code)?;
    let is_right = written.as_slice() == CONTENT.as_slice()
        && (code.max_stack, code.max_locals) == (1, 2)
        && handler_of(&code) == Some((0, 8, 9, 2))
        && has_parts(&code);
    assert!(rt; is_right, "the bytes, the sizes and the parts");
    Ok(())
}

/// The fault of an attribute whose content begins at offset 100 of a file.
fn fault(alloc: Global, content: &[u8]) -> Result<Option<CodeFault>, Fail>
    requires { 100 + length content.now < 2 ^ 64 }
{
    let pool = pool(alloc)?;
    let kinds = DescriptorKinds::of(alloc, &pool)?;
    Ok(read_code_attribute(alloc, &pool, &kinds, 100, content).err())
}

/// The fault of an attribute with this code, behind which stands the rest.
fn fault_of(alloc: Global, code: &[u8], rest: &[u8]) -> Result<Option<CodeFault>, Fail>
    requires { length code.now < 2 ^ 32 }
{
    let mut content = [0, 1, 0, 1].to_vec(alloc)?;
    put_u32(&mut content, code.len() as u32)?;
    content.extend_from_slice(code)?;
    content.extend_from_slice(rest)?;
    fault(alloc, &content)
}

/// No handlers and no attributes.
const NO_MORE: [u8; 4] = [0, 0, 0, 0];

/// Contents that are cut off, or that have bytes left over.
static BAD_FORMS: [&[u8]; 6] = [
    &[],
    &[0, 1, 0, 1, 0, 0, 0, 2, 0xb1],
    &[0, 1, 0, 1, 0, 0, 0, 1, 0xb1, 0, 0, 0],
    &[0, 1, 0, 1, 0, 0, 0, 1, 0xb1, 0, 0, 0, 0, 0],
    &[0, 1, 0, 1, 0, 0, 0, 1, 0xb1, 0, 1, 0, 0, 0, 1],
    &[0, 1, 0, 1, 0, 0, 0, 1, 0xb1, 0, 0, 0, 1, 0, 13, 0, 0, 0, 1],
];

#[test]
fn other_contents_are_bad_form(rt: HostRuntime) -> Result<(), Fail> {
    for content in &BAD_FORMS {
        let found = fault(rt.alloc(), content)?;
        assert!(rt; found == Some(CodeFault::BadForm), "{content:?}");
    }
    Ok(())
}

#[test]
fn a_code_has_at_least_one_byte_and_at_most_65535(rt: HostRuntime) -> Result<(), Fail> {
    let rows = [
        (0, Some(CodeFault::BadForm)),
        (65_535, None),
        (65_536, Some(CodeFault::BadForm)),
    ];
    for (len, want) in rows {
        let code = nops(rt.alloc(), len)?;
        let found = fault_of(rt.alloc(), &code, &NO_MORE)?;
        assert!(rt; found == want, "of {len} bytes");
    }
    Ok(())
}

/// An entry of the exception table: where the covered instructions begin and end, the handler, and the index of the class.
/// Behind it is the fault of the code `bipush 5; return`, whose instructions begin at 0 and 2.
static HANDLERS: [([u8; 4], Option<CodeFault>); 15] = [
    ([0, 2, 2, 0], None),
    ([0, 2, 0, 2], None),
    ([0, 3, 2, 2], None),
    ([2, 3, 0, 0], None),
    // it covers nothing
    ([0, 0, 2, 2], Some(CodeFault::BadForm)),
    ([2, 0, 0, 2], Some(CodeFault::BadForm)),
    // inside an instruction
    ([1, 2, 0, 2], Some(CodeFault::BadForm)),
    ([0, 1, 2, 2], Some(CodeFault::BadForm)),
    ([0, 2, 1, 2], Some(CodeFault::BadForm)),
    // past the end
    ([0, 4, 2, 2], Some(CodeFault::BadForm)),
    ([3, 4, 0, 2], Some(CodeFault::BadForm)),
    ([0, 2, 3, 2], Some(CodeFault::BadForm)),
    // a text, an Integer, and no entry
    (
        [0, 2, 2, 1],
        Some(CodeFault::BadIndex {
            offset: 119,
            index: 1,
        }),
    ),
    (
        [0, 2, 2, 10],
        Some(CodeFault::BadIndex {
            offset: 119,
            index: 10,
        }),
    ),
    (
        [0, 2, 2, 17],
        Some(CodeFault::BadIndex {
            offset: 119,
            index: 17,
        }),
    ),
];

#[test]
fn handlers_name_instructions_and_a_class(rt: HostRuntime) -> Result<(), Fail> {
    for ([start, end, handler, catch], want) in &HANDLERS {
        let rest = [0, 1, 0, *start, 0, *end, 0, *handler, 0, *catch, 0, 0];
        let found = fault_of(rt.alloc(), &[0x10, 5, 0xb1], &rest)?;
        assert!(rt;
            found == *want,
            "from {start} to {end}, {handler}, class {catch}"
        );
    }
    Ok(())
}

/// An opcode and an index, and the fault of `nop`, an instruction of three bytes with these, and `return`.
static OPERANDS: [(u8, u8, Option<CodeFault>); 18] = [
    (0x13, 10, None), // ldc_w
    (0x13, 11, Some(CodeFault::BadOperand(1))), // a Long
    (0x14, 11, None), // ldc2_w
    (0x14, 10, Some(CodeFault::BadOperand(1))), // an Integer
    (0x14, 12, Some(CodeFault::BadOperand(1))), // the second index of a Long
    (0xb2, 6, None), // getstatic
    (0xb4, 9, Some(CodeFault::BadOperand(1))), // getfield of a method
    (0xb4, 14, Some(CodeFault::BadDescriptor(7))), // of a field with a method's descriptor
    (0xb6, 9, None), // invokevirtual
    (0xb6, 6, Some(CodeFault::BadOperand(1))), // of a field
    (0xb6, 16, Some(CodeFault::BadOperand(1))), // of an interface's method
    (0xb6, 15, Some(CodeFault::BadDescriptor(4))), // of a method with a field's descriptor
    (0xb7, 16, None), // invokespecial
    (0xb8, 16, None), // invokestatic
    (0xbb, 2, None), // new
    (0xbb, 1, Some(CodeFault::BadOperand(1))), // of a text
    (0xc0, 0, Some(CodeFault::BadOperand(1))), // checkcast of no entry
    (0xc0, 17, Some(CodeFault::BadOperand(1))), // past the pool
];

#[test]
fn instructions_name_entries_of_their_kinds(rt: HostRuntime) -> Result<(), Fail> {
    for (opcode, index, want) in &OPERANDS {
        let found = fault_of(rt.alloc(), &[0, *opcode, 0, *index, 0xb1], &NO_MORE)?;
        assert!(rt; found == *want, "opcode {opcode} of {index}");
    }
    Ok(())
}

/// Codes, what stands behind them, and the first fault.
static FIRST_FAULTS: [(&[u8], &[u8], CodeFault); 6] = [
    // an attribute whose name is a class
    (
        &[0xb1],
        &[0, 0, 0, 1, 0, 2, 0, 0, 0, 0],
        CodeFault::BadIndex {
            offset: 113,
            index: 2,
        },
    ),
    // two ldc of a Long, with a byte left over
    (
        &[0x12, 11, 0x12, 12, 0xb1],
        &[0, 0, 0, 0, 0],
        CodeFault::BadOperand(0),
    ),
    // invokeinterface of a class's method
    (
        &[0xb9, 0, 9, 1, 0, 0xb1],
        &NO_MORE,
        CodeFault::BadOperand(0),
    ),
    // a jump astray behind an ldc of a Long
    (
        &[0x12, 11, 0xa7, 0, 1, 0xb1],
        &NO_MORE,
        CodeFault::Code(CodeRefusal::BadTarget(2)),
    ),
    (
        &[0, 0xca],
        &NO_MORE,
        CodeFault::Code(CodeRefusal::BadOpcode(1)),
    ),
    (
        &[0, 0x10],
        &NO_MORE,
        CodeFault::Code(CodeRefusal::Truncated(1)),
    ),
];

#[test]
fn the_first_fault_is_the_answer(rt: HostRuntime) -> Result<(), Fail> {
    for (code, rest, want) in &FIRST_FAULTS {
        let found = fault_of(rt.alloc(), code, rest)?;
        assert!(rt; found == Some(*want), "{code:?}");
    }
    Ok(())
}
