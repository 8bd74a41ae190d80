//! The bytes of instructions, of which the labels are known (JVMS 6.5).

ghost use Rattle.std.specs.Prelude.{◌≡◌, ◌≤◌, ◌∷◌, replicate, IfOk};
ghost use Rattle.byteorder.specs.Endian.{big_bytes};
ghost use Rattle.listing_lines.specs.Reading.{Answers, Gives};
ghost use Rattle.listing.specs.Labels.{past, padding};
ghost use Rattle.listing.specs.Code.{near_offset, far_offset, offsets, cases, table_bytes, lookup_bytes, with_index};
ghost use Rattle.listing.specs.Code.{entry_bytes, interface_bytes, jump_bytes, instruction_bytes};

use crate::labels::{padding, target};
use crate::marks::Marks;
use crate::pool::Entries;
use ap_base::Bytes;
use listing_lines::{Instruction, KeyLabel, LineRefusal, ListingFault, MemberName, Wanted};
use parsing::{put_u16, put_u32};
use std::alloc::{AllocError, Global};

const TABLESWITCH: u8 = 170;

const LOOKUPSWITCH: u8 = 171;

const INVOKEINTERFACE: u8 = 185;

/// How far a label is from a jump, in two bytes. `FarJump` where these don't say it.
#[tactic(auto, unfolding(crate::specs::Code::near_offset))]
fn near_offset(marks: &Marks, pc: u32, label: &[u8]) -> Result<u16, LineRefusal>
    requires { pc ≤ past }
    ensures { Answers (λ offset. big_bytes 2 offset) result
        (near_offset marks.now.marks.items marks.now.size pc label.now) }
{
    let offset = i64::from(target(marks, label)?) - i64::from(pc);
    if -32_768 <= offset && offset <= 32_767 {
        Ok((offset as i16).cast_unsigned())
    } else {
        Err(LineRefusal::Fault(ListingFault::FarJump))
    }
}

/// How far a label is from a switch, in four bytes.
#[tactic(auto, unfolding(crate::specs::Code::far_offset))]
fn far_offset(marks: &Marks, pc: u32, label: &[u8]) -> Result<u32, LineRefusal>
    requires { pc ≤ past }
    ensures { Answers (λ offset. big_bytes 4 offset) result
        (far_offset marks.now.marks.items marks.now.size pc label.now) }
{
    let offset = i64::from(target(marks, label)?) - i64::from(pc);
    Ok((offset as i32).cast_unsigned())
}

#[tactic(auto, unfolding(crate::specs::Code::offsets))]
fn offsets(alloc: Global, marks: &Marks, pc: u32, labels: &[Bytes]) -> Result<Vec<u8>, LineRefusal>
    requires { pc ≤ past }
    ensures { Gives (λ v. v.items) result
        (offsets marks.now.marks.items marks.now.size pc labels.now) }
{
    let mut out = Vec::new(alloc);
    let mut rest = labels;
    'labels: loop {
        match rest {
            [] => return Ok(out),
            [label, behind @ ..] => {
                put_u32(&mut out, far_offset(marks, pc, label.as_slice())?)?;
                rest = behind;
            }
        }
    }
}

#[tactic(auto, unfolding(crate::specs::Code::cases))]
fn cases(alloc: Global, marks: &Marks, pc: u32, pairs: &[KeyLabel]) -> Result<Vec<u8>, LineRefusal>
    requires { pc ≤ past }
    ensures { Gives (λ v. v.items) result
        (cases marks.now.marks.items marks.now.size pc pairs.now) }
{
    let mut out = Vec::new(alloc);
    let mut rest = pairs;
    'pairs: loop {
        match rest {
            [] => return Ok(out),
            [first, behind @ ..] => {
                let offset = far_offset(marks, pc, first.label.as_slice())?;
                put_u32(&mut out, first.key.cast_unsigned())?;
                put_u32(&mut out, offset)?;
                rest = behind;
            }
        }
    }
}

/// What a switch begins with, its opcode and zeros.
fn switch_head(alloc: Global, opcode: u8, pc: u32) -> Result<Vec<u8>, AllocError>
    ensures { IfOk result (λ out. out.items ≡ opcode ∷ replicate (padding pc) 0) }
{
    let mut out = Vec::new(alloc);
    out.push(opcode)?;
    out.resize(1 + padding(pc) as usize, 0)?;
    Ok(out)
}

#[tactic(auto, unfolding(crate::specs::Code::table_bytes))]
fn table_bytes(
    alloc: Global,
    marks: &Marks,
    pc: u32,
    keys: (i32, i32),
    default: &[u8],
    labels: &[Bytes],
) -> Result<Vec<u8>, LineRefusal>
    requires { pc ≤ past }
    ensures { Gives (λ v. v.items) result
        (table_bytes marks.now.marks.items marks.now.size pc keys.0 keys.1 default.now labels.now) }
{
    let default = far_offset(marks, pc, default)?;
    let each = offsets(alloc, marks, pc, labels)?;
    let (low, high) = keys;
    let mut out = switch_head(alloc, TABLESWITCH, pc)?;
    put_u32(&mut out, default)?;
    put_u32(&mut out, low.cast_unsigned())?;
    put_u32(&mut out, high.cast_unsigned())?;
    out.extend_from_slice(&each)?;
    Ok(out)
}

#[tactic(auto, unfolding(crate::specs::Code::lookup_bytes))]
fn lookup_bytes(
    alloc: Global,
    marks: &Marks,
    pc: u32,
    default: &[u8],
    pairs: &[KeyLabel],
) -> Result<Vec<u8>, LineRefusal>
    requires { pc ≤ past }
    ensures { Gives (λ v. v.items) result
        (lookup_bytes marks.now.marks.items marks.now.size pc default.now pairs.now) }
{
    if pairs.len() > 65_535 {
        return Err(LineRefusal::Fault(ListingFault::TooLarge));
    }
    let default = far_offset(marks, pc, default)?;
    let each = cases(alloc, marks, pc, pairs)?;
    let mut out = switch_head(alloc, LOOKUPSWITCH, pc)?;
    put_u32(&mut out, default)?;
    put_u32(&mut out, pairs.len() as u32)?;
    out.extend_from_slice(&each)?;
    Ok(out)
}

/// An opcode, the index of an entry of the constant pool, and what stands behind it.
fn with_index(alloc: Global, opcode: u8, index: u16, behind: &[u8]) -> Result<Vec<u8>, AllocError>
    ensures { IfOk result (λ v. v.items ≡ with_index opcode index behind.now) }
{
    let mut out = Vec::new(alloc);
    out.push(opcode)?;
    put_u16(&mut out, index)?;
    out.extend_from_slice(behind)?;
    Ok(out)
}

#[tactic(auto, unfolding(crate::specs::Code::entry_bytes))]
fn entry_bytes(
    alloc: Global,
    entries: &mut Entries,
    opcode: u8,
    entry: &Wanted,
) -> Result<Vec<u8>, LineRefusal>
    ensures { Gives (λ v. (v.items, entries.new)) result
        (entry_bytes opcode entry.now entries.old) }
{
    let index = entries.wanted(alloc, entry)?;
    Ok(with_index(alloc, opcode, index, &[])?)
}

#[tactic(auto, unfolding(crate::specs::Code::interface_bytes))]
fn interface_bytes(
    alloc: Global,
    entries: &mut Entries,
    method: &MemberName,
    count: u8,
) -> Result<Vec<u8>, LineRefusal>
    ensures { Gives (λ v. (v.items, entries.new)) result
        (interface_bytes method.now count entries.old) }
{
    let index = entries.member(alloc, method)?;
    Ok(with_index(alloc, INVOKEINTERFACE, index, &[count, 0])?)
}

fn jump_bytes(
    alloc: Global,
    marks: &Marks,
    pc: u32,
    opcode: u8,
    label: &[u8],
) -> Result<Vec<u8>, LineRefusal>
    requires { pc ≤ past }
    ensures { Gives (λ v. v.items) result
        (jump_bytes marks.now.marks.items marks.now.size pc opcode label.now) }
{
    let offset = near_offset(marks, pc, label)?;
    let mut out = Vec::new(alloc);
    out.push(opcode)?;
    put_u16(&mut out, offset)?;
    Ok(out)
}

/// The bytes of an instruction at a place of its code. The entries of the constant pool get its own.
pub(crate) fn instruction_bytes(
    alloc: Global,
    entries: &mut Entries,
    marks: &Marks,
    pc: u32,
    instruction: &Instruction,
) -> Result<Vec<u8>, LineRefusal>
    requires { pc ≤ past }
    ensures { Gives (λ v. (v.items, entries.new)) result
        (instruction_bytes marks.now.marks.items marks.now.size pc instruction.now entries.old) }
{
    match instruction {
        Instruction::Whole(bytes) => Ok(bytes.as_slice().to_vec(alloc)?),
        Instruction::Jump { opcode, label } => {
            jump_bytes(alloc, marks, pc, *opcode, label.as_slice())
        }
        Instruction::Table {
            low,
            high,
            default,
            labels,
        } => {
            let keys = (*low, *high);
            table_bytes(
                alloc,
                marks,
                pc,
                keys,
                default.as_slice(),
                labels.as_slice(),
            )
        }
        Instruction::Lookup { default, pairs } => {
            lookup_bytes(alloc, marks, pc, default.as_slice(), pairs.as_slice())
        }
        Instruction::Entry { opcode, entry } => entry_bytes(alloc, entries, *opcode, entry),
        Instruction::Interface { method, count } => {
            interface_bytes(alloc, entries, method, *count)
        }
    }
}
