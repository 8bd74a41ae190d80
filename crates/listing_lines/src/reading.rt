//! Reading a listing line by line.

ghost use Rattle.std.specs.Prelude.{◌≡◌, IfOk};
ghost use Rattle.std.specs.Option.{option_map};
ghost use Rattle.listing_lines.specs.Reading.{Gives};
ghost use Rattle.listing_lines.specs.Lines.{instruction_line, directive_or_instruction, before_colon, label_line};
ghost use Rattle.listing_lines.specs.Lines.{label_or_other, meaning, is_comment, line_of, cut_off, lines_from, listing_lines};

use crate::directives::{Directive, directive_line, directive_named};
use crate::instructions::instruction_with;
use crate::lines::Line;
use crate::mnemonics::{Operands, instruction_named};
use crate::operands::{SYNTAX, are_ascii, no_operand};
use crate::refusal::{LineRefusal, ListingFault};
use crate::words::words;
use ap_base::Bytes;
use std::alloc::{AllocError, Global};

fn instruction_line(
    alloc: Global,
    row: Option<(u8, Operands)>,
    operands: &[Bytes],
) -> Result<Line, LineRefusal>
    ensures { Gives (λ line. line) result (instruction_line row operands.now) }
{
    match row {
        Some((opcode, kind)) => {
            let instruction = instruction_with(alloc, opcode, kind, operands)?;
            Ok(Line::Instruction(instruction))
        }
        None => Err(LineRefusal::Fault(ListingFault::UnknownWord)),
    }
}

fn directive_or_instruction(
    alloc: Global,
    directive: Option<Directive>,
    word: &[u8],
    operands: &[Bytes],
) -> Result<Line, LineRefusal>
    ensures { Gives (λ line. line) result
        (directive_or_instruction directive word.now operands.now) }
{
    match directive {
        Some(found) => directive_line(alloc, found, operands),
        None => instruction_line(alloc, instruction_named(word), operands),
    }
}

/// What stands before a word's colon, which is its last byte.
fn before_colon(word: &[u8]) -> Option<&[u8]>
    ensures { option_map (λ name. name.now) result ≡ before_colon word.now }
{
    if !word.is_empty() && word[word.len() - 1] == b':' {
        Some(&word[..word.len() - 1])
    } else {
        None
    }
}

fn label_line(alloc: Global, name: &[u8], operands: &[Bytes]) -> Result<Line, LineRefusal>
    ensures { Gives (λ line. line) result (label_line name.now operands.now) }
{
    if name.is_empty() {
        return Err(SYNTAX);
    }
    no_operand(operands)?;
    Ok(Line::Label(Bytes::copy(alloc, name)?))
}

fn label_or_other(alloc: Global, word: &[u8], operands: &[Bytes]) -> Result<Line, LineRefusal>
    ensures { Gives (λ line. line) result
        (label_or_other (before_colon word.now) word.now operands.now) }
{
    match before_colon(word) {
        Some(name) => label_line(alloc, name, operands),
        None => directive_or_instruction(alloc, directive_named(word), word, operands),
    }
}

/// What the words of a line mean.
#[tactic(auto, unfolding(crate::specs::Lines::meaning))]
fn meaning(alloc: Global, words: &[Bytes]) -> Result<Line, LineRefusal>
    ensures { Gives (λ line. line) result (meaning words.now) }
{
    match words {
        [word, operands @ ..] => label_or_other(alloc, word.as_slice(), operands),
        [] => Ok(Line::Nothing),
    }
}

fn is_comment(bytes: &[u8]) -> bool
    ensures { result ≡ is_comment bytes.now }
{
    match bytes {
        [first, ..] => *first == b'#',
        [] => false,
    }
}

/// What a line means, without its new line.
#[tactic(auto, unfolding(crate::specs::Lines::line_of))]
fn line_of(alloc: Global, bytes: &[u8]) -> Result<Line, AllocError>
    ensures { IfOk result (λ line. line ≡ line_of bytes.now) }
{
    if !are_ascii(bytes) {
        return Ok(Line::Wrong(ListingFault::Syntax));
    }
    if is_comment(bytes) {
        return Ok(Line::Nothing);
    }
    let words = words(alloc, bytes)?;
    match meaning(alloc, &words) {
        Ok(line) => Ok(line),
        Err(LineRefusal::Fault(kind)) => Ok(Line::Wrong(kind)),
        Err(LineRefusal::OutOfMemory) => Err(AllocError),
    }
}

/// What each line of a listing means by itself, in order.
///
/// A line is `Wrong` with the first fault from front to back, and each line ends in a new line (0A): what stands behind the last
/// one is `Wrong` with `Syntax`, and so is a line with a byte that isn't ASCII.
#[tactic(auto, using(crate::proofs::Steps::front), unfolding(crate::specs::Lines::lines_from))]
pub fn read_lines(alloc: Global, text: &[u8]) -> Result<Vec<Line>, AllocError>
    ensures { IfOk result (λ lines. lines.items ≡ listing_lines text.now) }
{
    let mut lines = Vec::new(alloc);
    let mut begun = Vec::new(alloc);
    for b in text {
        if *b == b'\n' {
            lines.push(line_of(alloc, &begun)?)?;
            begun.clear();
        } else {
            begun.push(*b)?;
        }
    }
    if !begun.is_empty() {
        lines.push(Line::Wrong(ListingFault::Syntax))?;
    }
    Ok(lines)
}
