//! Codes: which bytes are read and written as the instructions that they are. Which instruction each is, is said by laws of
//! `code_form`.

ghost use Rattle.std.specs.Prelude.{◌≡◌, length, IfOk};

use code_form::{Case, Cases, CodeRefusal, Placed, Targets, read_code, write_code};
use std::alloc::{AllocError, Global};
use std::test::Fail;

/// Each opcode alone, as its section of JVMS 6.5 spells it.
static ALONE: [&[u8]; 151] = [
    &[0],
    &[1],
    &[2],
    &[3],
    &[4],
    &[5],
    &[6],
    &[7],
    &[8],
    &[9],
    &[10],
    &[16, 128],
    &[17, 255, 254],
    &[18, 254],
    &[19, 1, 2],
    &[20, 1, 2],
    &[21, 7],
    &[22, 7],
    &[25, 200],
    &[26],
    &[27],
    &[28],
    &[29],
    &[30],
    &[31],
    &[32],
    &[33],
    &[42],
    &[43],
    &[44],
    &[45],
    &[46],
    &[47],
    &[50],
    &[51],
    &[52],
    &[53],
    &[54, 7],
    &[55, 7],
    &[58, 200],
    &[59],
    &[60],
    &[61],
    &[62],
    &[63],
    &[64],
    &[65],
    &[66],
    &[75],
    &[76],
    &[77],
    &[78],
    &[79],
    &[80],
    &[83],
    &[84],
    &[85],
    &[86],
    &[87],
    &[88],
    &[89],
    &[90],
    &[91],
    &[92],
    &[93],
    &[94],
    &[95],
    &[96],
    &[97],
    &[100],
    &[101],
    &[104],
    &[105],
    &[108],
    &[109],
    &[112],
    &[113],
    &[116],
    &[117],
    &[120],
    &[121],
    &[122],
    &[123],
    &[124],
    &[125],
    &[126],
    &[127],
    &[128],
    &[129],
    &[130],
    &[131],
    &[132, 3, 255],
    &[133],
    &[136],
    &[145],
    &[146],
    &[147],
    &[148],
    &[153, 0, 0],
    &[154, 0, 0],
    &[155, 0, 0],
    &[156, 0, 0],
    &[157, 0, 0],
    &[158, 0, 0],
    &[159, 0, 0],
    &[160, 0, 0],
    &[161, 0, 0],
    &[162, 0, 0],
    &[163, 0, 0],
    &[164, 0, 0],
    &[165, 0, 0],
    &[166, 0, 0],
    &[167, 0, 0],
    &[
        170, 0, 0, 0, 0, 0, 0, 0, 255, 255, 255, 255, 0, 0, 0, 0, 0, 0, 0, 0, 0, 0, 0, 0,
    ],
    &[
        171, 0, 0, 0, 0, 0, 0, 0, 0, 0, 0, 1, 128, 0, 0, 0, 0, 0, 0, 0,
    ],
    &[172],
    &[173],
    &[176],
    &[177],
    &[178, 1, 2],
    &[179, 1, 2],
    &[180, 1, 2],
    &[181, 1, 2],
    &[182, 1, 2],
    &[183, 1, 2],
    &[184, 1, 2],
    &[185, 1, 2, 3, 0],
    &[187, 1, 2],
    &[188, 4],
    &[188, 5],
    &[188, 8],
    &[188, 9],
    &[188, 10],
    &[188, 11],
    &[189, 1, 2],
    &[190],
    &[191],
    &[192, 1, 2],
    &[193, 1, 2],
    &[194],
    &[195],
    &[196, 21, 1, 2],
    &[196, 22, 1, 2],
    &[196, 25, 1, 2],
    &[196, 54, 1, 2],
    &[196, 55, 1, 2],
    &[196, 58, 1, 2],
    &[196, 132, 1, 2, 128, 0],
    &[198, 0, 0],
    &[199, 0, 0],
    &[200, 0, 0, 0, 0],
];

/// Whether a code is one instruction, and is written as it was read.
fn is_written_again(alloc: Global, bytes: &[u8]) -> bool {
    let Ok(code) = read_code(alloc, bytes) else {
        return false;
    };
    match write_code(alloc, &code) {
        Ok(written) => code.len() == 1 && written.as_slice() == bytes,
        Err(_) => false,
    }
}

#[test]
fn each_instruction_is_written_as_it_was(rt: HostRuntime) {
    for bytes in &ALONE {
        assert!(rt; is_written_again(rt.alloc(), bytes), "{bytes:?}");
    }
}

/// Bytes that are no code, and why.
static REFUSALS: [(&[u8], CodeRefusal); 31] = [
    (&[202], CodeRefusal::BadOpcode(0)),
    (&[0, 255], CodeRefusal::BadOpcode(1)),
    // wide before nop, iload_0 and ret
    (&[196, 0], CodeRefusal::BadOpcode(0)),
    (&[0, 196, 26, 0, 0], CodeRefusal::BadOpcode(1)),
    (&[196, 169, 0, 0], CodeRefusal::BadOpcode(0)),
    // fconst_0, dadd, jsr, invokedynamic, multianewarray, jsr_w
    (&[11], CodeRefusal::NotInProfile(0, 11)),
    (&[0, 99], CodeRefusal::NotInProfile(1, 99)),
    (&[168, 0, 0], CodeRefusal::NotInProfile(0, 168)),
    (&[186, 0, 1, 0, 0], CodeRefusal::NotInProfile(0, 186)),
    (&[197, 0, 1, 2], CodeRefusal::NotInProfile(0, 197)),
    (&[201], CodeRefusal::NotInProfile(0, 201)),
    // newarray of float, of double, and of no type
    (&[188, 6], CodeRefusal::NotInProfile(0, 188)),
    (&[188, 7], CodeRefusal::NotInProfile(0, 188)),
    (&[188, 3], CodeRefusal::BadOpcode(0)),
    (&[188, 12], CodeRefusal::BadOpcode(0)),
    (&[16], CodeRefusal::Truncated(0)),
    (&[0, 17, 1], CodeRefusal::Truncated(1)),
    (&[196], CodeRefusal::Truncated(0)),
    (&[196, 132, 0, 0, 0], CodeRefusal::Truncated(0)),
    (&[185, 0, 1, 1], CodeRefusal::Truncated(0)),
    (&[0, 170, 0], CodeRefusal::Truncated(1)),
    (
        &[171, 0, 0, 0, 0, 0, 0, 0, 0, 0, 0, 1, 0, 0, 0, 0],
        CodeRefusal::Truncated(0),
    ),
    // low 1 above high 0, with no target behind them
    (
        &[170, 0, 0, 0, 0, 0, 0, 0, 0, 0, 0, 1, 0, 0, 0, 0],
        CodeRefusal::BadTarget(0),
    ),
    // a count of -1
    (
        &[171, 0, 0, 0, 0, 0, 0, 0, 255, 255, 255, 255],
        CodeRefusal::BadTarget(0),
    ),
    // to the end, into the jump itself, before the code
    (&[167, 0, 3], CodeRefusal::BadTarget(0)),
    (&[167, 0, 1, 0], CodeRefusal::BadTarget(0)),
    (&[0, 167, 255, 254], CodeRefusal::BadTarget(1)),
    (&[200, 128, 0, 0, 0], CodeRefusal::BadTarget(0)),
    // an opcode further on comes before a target, a target before a later one
    (&[167, 0, 1, 202], CodeRefusal::BadOpcode(3)),
    (&[0, 167, 0, 1, 167, 0, 1], CodeRefusal::BadTarget(1)),
    (
        &[170, 0, 0, 0, 0, 0, 0, 1, 0, 0, 0, 0, 0, 0, 0, 0, 0, 0, 0, 0],
        CodeRefusal::BadTarget(0),
    ),
];

#[test]
fn what_is_no_code_is_refused(rt: HostRuntime) {
    for (bytes, refusal) in &REFUSALS {
        let found = read_code(rt.alloc(), bytes).err();
        assert!(rt; found == Some(*refusal), "{bytes:?}");
    }
}

/// A code whose padding and passed-over byte aren't 0.
static WHOLE: [u8; 50] = [
    3, // 0: iconst_0
    170, 9, 8, // 1: tableswitch, with two bytes of padding
    0, 0, 0, 48, 0, 0, 0, 5, 0, 0, 0, 6, // default 49, low 5, high 6
    0, 0, 0, 23, 0, 0, 0, 26, // targets 24, 27
    167, 255, 232, // 24: goto 0
    171, // 27: lookupswitch, without padding
    0, 0, 0, 17, 0, 0, 0, 1, // default 44, one pair
    255, 255, 255, 255, 255, 255, 255, 230, // -1 to 1
    185, 0, 5, 2, 77, // 44: invokeinterface
    177, // 49: return
];

/// Where its instructions begin.
static STARTS: [u32; 6] = [0, 1, 24, 27, 44, 49];

/// Whether the instructions of a code begin there.
fn begin_at(code: &[Placed], starts: &[u32]) -> bool {
    match code {
        [a, b, c, d, e, f] => [a.pc, b.pc, c.pc, d.pc, e.pc, f.pc].as_slice() == starts,
        _ => false,
    }
}

/// The bytes of a code as they are written, with a 0 at three places.
fn with_zeros(code: &[u8; 50]) -> [u8; 50] {
    let mut zeroed = *code;
    zeroed[2] = 0;
    zeroed[3] = 0;
    zeroed[48] = 0;
    zeroed
}

#[test]
fn a_whole_code_is_written_with_zeros(rt: HostRuntime) -> Result<(), Fail> {
    let code = read_code(rt.alloc(), &WHOLE)?;
    let written = write_code(rt.alloc(), &code)?;
    let is_right = begin_at(&code, &STARTS) && written.as_slice() == with_zeros(&WHOLE).as_slice();
    assert!(rt; is_right, "pcs and bytes");
    Ok(())
}

/// So many instructions that do nothing.
pub(crate) fn nops(alloc: Global, count: u32) -> Result<Vec<u8>, AllocError>
    ensures { IfOk result (λ code. length code.items ≡ count) }
{
    Vec::from_elem(alloc, 0, count as usize)
}

/// Numbers of instructions, and what is read of them.
static LENGTHS: [(u32, Result<usize, CodeRefusal>); 3] = [
    (0, Ok(0)),
    (65_535, Ok(65_535)),
    (65_536, Err(CodeRefusal::Truncated(65_535))),
];

/// How many instructions are read of so many.
fn len_of(alloc: Global, count: u32) -> Result<Result<usize, CodeRefusal>, AllocError> {
    let code = nops(alloc, count)?;
    Ok(match read_code(alloc, &code) {
        Ok(code) => Ok(code.len()),
        Err(refusal) => Err(refusal),
    })
}

#[test]
fn a_code_is_no_longer_than_its_count(rt: HostRuntime) -> Result<(), Fail> {
    for (count, want) in &LENGTHS {
        assert!(rt; len_of(rt.alloc(), *count)? == *want, "of {count} bytes");
    }
    Ok(())
}

#[test]
fn lists_give_their_vectors_back(rt: HostRuntime) -> Result<(), Fail> {
    let targets = Targets::new([1, 2].to_vec(rt.alloc())?).into_vec();
    assert!(rt; targets.as_slice() == [1, 2].as_slice(), "targets");
    let case = Case { key: -1, target: 2 };
    let cases = Cases::new([case].to_vec(rt.alloc())?).into_vec();
    let is_same = matches!(cases.as_slice(), [case] if (case.key, case.target) == (-1, 2));
    assert!(rt; is_same, "cases");
    Ok(())
}
