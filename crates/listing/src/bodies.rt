//! The code of a method, line by line.

ghost use Rattle.std.specs.Prelude.{◌≡◌, ◌≤◌, take};
ghost use Rattle.std.specs.Option.{is_some};
ghost use Rattle.listing_lines.specs.Reading.{Gives as LineGives};
ghost use Rattle.listing.specs.Labels.{past, pc_of, marks_from};
ghost use Rattle.listing.specs.Structure.{Gives, at as at_line};
ghost use Rattle.parsing.specs.Results.{placed};
ghost use Rattle.listing.specs.Members.{passed_after, line_code, code_from};
ghost use Rattle.listing.specs.Bodies.{line_alone, body_from, bodies_from};

use crate::code::instruction_bytes;
use crate::error::{ListingError, at, next_number};
use crate::handlers::handler_places;
use crate::labels::{after, is_end, marks, pc_of, place_after};
use crate::marks::{Mark, Marks};
use crate::pool::Entries;
use listing_lines::{Line, LineRefusal, ListingFault};
use std::alloc::Global;

/// How many labels stand before what follows a line.
fn passed_after(passed: usize, line: &Line) -> usize
    ensures { result ≡ passed_after passed line.now }
{
    match line {
        Line::Label(_) => passed.saturating_add(1),
        _ => passed,
    }
}

/// Whether a label is among the first so many.
fn is_passed(name: &[u8], marks: &[Mark], passed: usize) -> bool
    ensures { result ≡ is_some (pc_of name.now (take passed marks.now)) }
{
    match marks.get(..passed) {
        Some(before) => pc_of(name, before).is_some(),
        None => pc_of(name, marks).is_some(),
    }
}

/// The bytes of a line at a place of the code, behind so many labels.
fn line_code(
    alloc: Global,
    entries: &mut Entries,
    marks: &Marks,
    pc: u32,
    passed: usize,
    line: &Line,
) -> Result<Vec<u8>, LineRefusal>
    requires { pc ≤ past }
    ensures { LineGives (λ v. (v.items, entries.new)) result
        (line_code marks.now.marks.items marks.now.size pc passed line.now entries.old) }
{
    match line {
        Line::Label(name) => {
            if is_passed(name.as_slice(), &marks.marks, passed) {
                Err(LineRefusal::Fault(ListingFault::DoubledLabel))
            } else {
                Ok(Vec::new(alloc))
            }
        }
        Line::Instruction(instruction) => {
            if after(pc, instruction) > 65_535 {
                return Err(LineRefusal::Fault(ListingFault::TooLarge));
            }
            instruction_bytes(alloc, entries, marks, pc, instruction)
        }
        Line::Catch {
            start,
            end,
            handler,
            ..
        } => {
            handler_places(marks, start.as_slice(), end.as_slice(), handler.as_slice())?;
            Ok(Vec::new(alloc))
        }
        _ => Ok(Vec::new(alloc)),
    }
}

/// The code of a method, of which these are the lines behind its first.
#[tactic(auto, unfolding(crate::specs::Members::code_from))]
pub(crate) fn code(
    alloc: Global,
    entries: &mut Entries,
    marks: &Marks,
    number: u32,
    lines: &[Line],
) -> Result<Vec<u8>, ListingError>
    ensures { Gives (λ v. (v.items, entries.new)) result
        (code_from marks.now.marks.items marks.now.size number 0 0 lines.now entries.old) }
{
    let mut code = Vec::new(alloc);
    let mut number = number;
    let mut pc = 0;
    let mut passed = 0;
    let mut rest = lines;
    'lines: loop {
        match rest {
            [] => return Ok(code),
            [line, behind @ ..] => {
                if is_end(line) {
                    return Ok(code);
                }
                let bytes = match line_code(alloc, entries, marks, pc, passed, line) {
                    Ok(bytes) => bytes,
                    Err(refusal) => return Err(at(number, refusal)),
                };
                code.extend_from_slice(&bytes)?;
                number = next_number(number);
                pc = place_after(pc, line);
                passed = passed_after(passed, line);
                rest = behind;
            }
        }
    }
}

/// What is bad about a line of a method, whatever else its class has.
fn line_alone(
    alloc: Global,
    marks: &Marks,
    number: u32,
    pc: u32,
    passed: usize,
    line: &Line,
) -> Result<(), ListingError>
    requires { pc ≤ past }
    ensures { Gives (λ none. none) result
        (placed (at_line number)
        (line_alone marks.now.marks.items marks.now.size pc passed line.now)) }
{
    let mut entries = Entries::new(alloc);
    match line_code(alloc, &mut entries, marks, pc, passed, line) {
        Ok(_) => Ok(()),
        Err(refusal) => Err(at(number, refusal)),
    }
}

/// The first bad line of a method, of which these are the lines behind its first.
#[tactic(auto, unfolding(crate::specs::Bodies::body_from))]
fn body(alloc: Global, marks: &Marks, number: u32, lines: &[Line]) -> Result<(), ListingError>
    ensures { Gives (λ none. none) result
        (body_from marks.now.marks.items marks.now.size number 0 0 lines.now) }
{
    let mut number = number;
    let mut pc = 0;
    let mut passed = 0;
    let mut rest = lines;
    'lines: loop {
        match rest {
            [] => return Ok(()),
            [line, behind @ ..] => {
                if is_end(line) {
                    return Ok(());
                }
                line_alone(alloc, marks, number, pc, passed, line)?;
                number = next_number(number);
                pc = place_after(pc, line);
                passed = passed_after(passed, line);
                rest = behind;
            }
        }
    }
}

/// The first bad line of all methods.
#[tactic(auto, unfolding(crate::specs::Bodies::bodies_from))]
pub(crate) fn bodies(alloc: Global, lines: &[Line]) -> Result<(), ListingError>
    ensures { Gives (λ none. none) result (bodies_from 1 lines.now) }
{
    let mut number = 1;
    let mut rest = lines;
    'lines: loop {
        match rest {
            [] => return Ok(()),
            [Line::Method { .. }, behind @ ..] => {
                let marks = marks(alloc, behind)?;
                number = next_number(number);
                body(alloc, &marks, number, behind)?;
                rest = behind;
            }
            [_, behind @ ..] => {
                number = next_number(number);
                rest = behind;
            }
        }
    }
}
