//! The operands of a line.

ghost use Rattle.std.specs.Prelude.{◌≡◌, IfOk};
ghost use Rattle.std.specs.List.{list_all};
ghost use Rattle.std.specs.Str.{bytes_eq};
ghost use Rattle.listing_lines.specs.Reading.{Answers, Gives, or_fault, no_operand, one_operand, two_operands, three_operands};
ghost use Rattle.listing_lines.specs.Reading.{taken, natural, is_ascii, descriptor_of, field_type, parameters};

use crate::numbers::number;
use crate::refusal::{LineRefusal, ListingFault};
use ap_base::Bytes;
use const_pool::{Descriptor, DescriptorRefusal, FieldType, Name, Parameters, read_descriptor};
use std::alloc::{AllocError, Global};

pub(crate) const SYNTAX: LineRefusal = LineRefusal::Fault(ListingFault::Syntax);

pub(crate) const BAD_DESCRIPTOR: LineRefusal = LineRefusal::Fault(ListingFault::BadDescriptor);

/// Nothing stands behind the line's word.
pub(crate) fn no_operand(words: &[Bytes]) -> Result<(), LineRefusal>
    ensures { Answers (λ u. u) result (no_operand words.now) }
{
    match words {
        [] => Ok(()),
        _ => Err(SYNTAX),
    }
}

/// The only operand of a line.
pub(crate) fn one_operand(words: &[Bytes]) -> Result<&[u8], LineRefusal>
    ensures { Answers (λ word. word.now) result (one_operand words.now) }
{
    match words {
        [a] => Ok(a.as_slice()),
        _ => Err(SYNTAX),
    }
}

/// The two operands of a line.
pub(crate) fn two_operands(words: &[Bytes]) -> Result<(&[u8], &[u8]), LineRefusal>
    ensures { Answers (λ found. (found.0.now, found.1.now)) result (two_operands words.now) }
{
    match words {
        [a, b] => Ok((a.as_slice(), b.as_slice())),
        _ => Err(SYNTAX),
    }
}

/// The three operands of a line.
pub(crate) fn three_operands(words: &[Bytes]) -> Result<(&[u8], &[u8], &[u8]), LineRefusal>
    ensures { Answers (λ found. (found.0.now, found.1.now, found.2.now)) result
        (three_operands words.now) }
{
    match words {
        [a, b, c] => Ok((a.as_slice(), b.as_slice(), c.as_slice())),
        _ => Err(SYNTAX),
    }
}

/// Whether a word stands at the front, and what stands behind it.
pub(crate) fn taken<'a>(word: &[u8], words: &'a [Bytes]) -> (bool, &'a [Bytes])
    ensures { (result.0, result.1.now) ≡ taken word.now words.now }
{
    match words {
        [a, rest @ ..] if a.as_slice() == word => (true, rest),
        _ => (false, words),
    }
}

pub(crate) fn is_word(word: &[u8], text: &[u8]) -> bool
    ensures { result ≡ bytes_eq word.now text.now }
{
    word == text
}

/// A number from 0 to a limit.
pub(crate) fn natural(limit: u16, word: &[u8]) -> Option<u16>
    ensures { result ≡ natural limit word.now }
{
    let number = number(0, i64::from(limit), word)?;
    Some(number as u16)
}

/// Whether a byte may stand in a listing.
pub(crate) fn is_ascii(byte: u8) -> bool
    ensures { result ≡ is_ascii byte }
{
    1 <= byte && byte <= 127
}

pub(crate) fn are_ascii(bytes: &[u8]) -> bool
    ensures { result ≡ list_all is_ascii bytes.now }
{
    for b in bytes {
        if !is_ascii(*b) {
            return false;
        }
    }
    true
}

/// The descriptor that a word spells.
#[tactic(auto, using(crate::proofs::Ascii::ascii_is_utf8), unfolding(crate::specs::Reading::descriptor_of))]
fn descriptor_of(alloc: Global, word: &[u8]) -> Result<Option<Descriptor>, AllocError>
    ensures { IfOk result (λ found. found ≡ descriptor_of word.now) }
{
    if !are_ascii(word) {
        return Ok(None);
    }
    let name = Name::copy(alloc, word)?;
    match read_descriptor(alloc, &name) {
        Ok(found) => Ok(Some(found)),
        Err(DescriptorRefusal::Bad) => Ok(None),
        Err(DescriptorRefusal::OutOfMemory) => Err(AllocError),
    }
}

/// The type of a field, whose descriptor a word has to be (JVMS 4.3.2).
pub(crate) fn field_type(alloc: Global, word: &[u8]) -> Result<FieldType, LineRefusal>
    ensures { Gives (λ t. t) result (field_type (descriptor_of word.now)) }
{
    match descriptor_of(alloc, word)? {
        Some(Descriptor::Field(found)) => Ok(found),
        _ => Err(BAD_DESCRIPTOR),
    }
}

/// The parameters of a method, whose descriptor a word has to be (JVMS 4.3.3).
pub(crate) fn parameters(alloc: Global, word: &[u8]) -> Result<Parameters, LineRefusal>
    ensures { Gives (λ found. found) result (parameters (descriptor_of word.now)) }
{
    match descriptor_of(alloc, word)? {
        Some(Descriptor::Method { parameters, .. }) => Ok(parameters),
        _ => Err(BAD_DESCRIPTOR),
    }
}
