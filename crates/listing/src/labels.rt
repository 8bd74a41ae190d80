//! Where the labels of a method stand in its code.

ghost use Rattle.std.specs.Prelude.{◌≡◌, ◌≤◌, ◌<◌, ◌+◌, ◌*◌, ◌++◌, min, IfOk, OnOk};
ghost use Rattle.std.specs.Option.{option_map};
ghost use Rattle.listing_lines.specs.Reading.{Answers};
ghost use Rattle.listing.specs.Labels.{past, padding, size_at, after, place_after, label_in, is_end, mark_at, marks_from};
ghost use Rattle.listing.specs.Labels.{pc_of, target};

use crate::marks::{Mark, Marks};
use ap_base::Bytes;
use listing_lines::{Instruction, Line, LineRefusal, ListingFault};
use std::alloc::{AllocError, Global};

/// Places are told apart up to here, far past the longest code (JVMS 4.7.3, code_length).
const PAST: u32 = 1_073_741_824;

/// How many bytes stand behind the opcode of a switch.
pub(crate) fn padding(pc: u32) -> u32
    ensures padding { result ≡ padding pc }
    ensures small { result ≤ 3 }
{
    3 - pc % 4
}

/// So many items of four bytes behind some bytes, or [`PAST`] where these are more.
fn size_of_items(first: u32, count: usize) -> u32
    requires { first ≤ 100 }
    ensures { result ≡ min past (first + 4 * count) }
{
    if count > 268_435_456 {
        PAST
    } else {
        PAST.min(first + 4 * count as u32)
    }
}

/// How many bytes an instruction has, or [`PAST`] where these are more.
fn size_at(pc: u32, instruction: &Instruction) -> u32
    ensures { result ≡ min past (size_at pc instruction.now) }
{
    match instruction {
        Instruction::Whole(bytes) => bytes.as_slice().len().min(1_073_741_824) as u32,
        Instruction::Jump { .. } => 3,
        Instruction::Table { labels, .. } => size_of_items(13 + padding(pc), labels.len()),
        Instruction::Lookup { pairs, .. } => {
            if pairs.len() > 134_217_728 {
                PAST
            } else {
                size_of_items(9 + padding(pc), 2 * pairs.len())
            }
        }
        Instruction::Entry { .. } => 3,
        Instruction::Interface { .. } => 5,
    }
}

/// Where the instruction behind one begins, or [`PAST`] where that is further on.
pub(crate) fn after(pc: u32, instruction: &Instruction) -> u32
    requires { pc ≤ past }
    ensures after { result ≡ after pc instruction.now }
    ensures near { result ≤ past }
{
    PAST.min(pc + size_at(pc, instruction))
}

/// Where what follows a line begins.
pub(crate) fn place_after(pc: u32, line: &Line) -> u32
    requires { pc ≤ past }
    ensures after { result ≡ place_after pc line.now }
    ensures near { result ≤ past }
{
    match line {
        Line::Instruction(instruction) => after(pc, instruction),
        Line::Wrong(_) => PAST.min(pc + 1),
        _ => pc,
    }
}

fn label_in(line: &Line) -> Option<&[u8]>
    ensures { option_map (λ name. name.now) result ≡ label_in line.now }
{
    match line {
        Line::Label(name) => Some(name.as_slice()),
        _ => None,
    }
}

pub(crate) fn is_end(line: &Line) -> bool
    ensures { result ≡ is_end line.now }
{
    matches!(line, Line::End)
}

/// Adds the label of a line, if it is one.
fn put_mark(alloc: Global, marks: &mut Vec<Mark>, line: &Line, pc: u32) -> Result<(), AllocError>
    ensures { OnOk result (marks.new.items ≡ marks.old.items ++ mark_at pc (label_in line.now)) }
{
    match label_in(line) {
        Some(name) => {
            let name = Bytes::copy(alloc, name)?;
            marks.push(Mark { name, pc })?;
        }
        None => {}
    }
    Ok(())
}

/// The labels of a method, of which these are the lines behind its first, and how many bytes its code has.
#[tactic(auto, unfolding(crate::specs::Labels::marks_from))]
pub(crate) fn marks(alloc: Global, lines: &[Line]) -> Result<Marks, AllocError>
    ensures marks { IfOk result (λ m. m.marks.items ≡ (marks_from 0 lines.now).0) }
    ensures size { IfOk result (λ m. m.size ≡ (marks_from 0 lines.now).1) }
{
    let mut marks = Vec::new(alloc);
    let mut size = 0;
    let mut rest = lines;
    'lines: loop {
        match rest {
            [] => return Ok(Marks { marks, size }),
            [line, behind @ ..] => {
                if is_end(line) {
                    return Ok(Marks { marks, size });
                }
                put_mark(alloc, &mut marks, line, size)?;
                size = place_after(size, line);
                rest = behind;
            }
        }
    }
}

/// Where the first label of a name stands.
#[tactic(auto, unfolding(crate::specs::Labels::pc_of))]
pub(crate) fn pc_of(name: &[u8], marks: &[Mark]) -> Option<u32>
    ensures { result ≡ pc_of name.now marks.now }
{
    for mark in marks {
        if mark.name.as_slice() == name {
            return Some(mark.pc);
        }
    }
    None
}

/// Where a label stands that has to name an instruction. `UnknownLabel` where there is none of the name, `Syntax` where it names
/// the end.
#[tactic(auto, unfolding(crate::specs::Labels::target))]
pub(crate) fn target(marks: &Marks, name: &[u8]) -> Result<u32, LineRefusal>
    ensures target { Answers (λ pc. pc) result
        (target marks.now.marks.items marks.now.size name.now) }
    ensures near { IfOk result (λ pc. pc < past) }
{
    let pc = pc_of(name, &marks.marks).ok_or(LineRefusal::Fault(ListingFault::UnknownLabel))?;
    if pc < marks.size {
        Ok(pc)
    } else {
        Err(LineRefusal::Fault(ListingFault::Syntax))
    }
}
