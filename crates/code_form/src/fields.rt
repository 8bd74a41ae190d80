//! The numbers of an instruction: each reader answers a value and the bytes after it.

ghost use Rattle.std.specs.Prelude.{◌≡◌, None};
ghost use Rattle.std.specs.Int.{w8, w16, w32};
ghost use Rattle.code_form.specs.Spelling.{padding};
ghost use Rattle.parsing.specs.Results.{Gives};
ghost use Rattle.code_form.specs.Reading.{bytes_at, unsigned_at, signed_at, target_at};

use crate::refusal::CodeRefusal;
use byteorder::{BigEndian, ByteOrder};

/// The next `n` bytes of the instruction at `pc`.
pub(crate) fn bytes_at(pc: u32, n: usize, bytes: &[u8]) -> Result<(&[u8], &[u8]), CodeRefusal>
    ensures { Gives None (λ x. (x.0.now, x.1.now)) result (bytes_at pc n bytes.now) }
{
    if bytes.len() < n {
        return Err(CodeRefusal::Truncated(pc));
    }
    Ok(bytes.split_at(n))
}

#[tactic(auto, unfolding(crate::specs::Reading::unsigned_at))]
pub(crate) fn u8_at(pc: u32, bytes: &[u8]) -> Result<(u8, &[u8]), CodeRefusal>
    ensures { Gives None (λ x. (x.0, x.1.now)) result (unsigned_at pc 1 bytes.now) }
{
    let (front, rest) = bytes_at(pc, 1, bytes)?;
    Ok((front[0], rest))
}

#[tactic(auto, unfolding(crate::specs::Reading::unsigned_at))]
pub(crate) fn u16_at(pc: u32, bytes: &[u8]) -> Result<(u16, &[u8]), CodeRefusal>
    ensures { Gives None (λ x. (x.0, x.1.now)) result (unsigned_at pc 2 bytes.now) }
{
    let (front, rest) = bytes_at(pc, 2, bytes)?;
    Ok((BigEndian::read_u16(front), rest))
}

#[tactic(auto, unfolding(crate::specs::Reading::unsigned_at))]
pub(crate) fn u32_at(pc: u32, bytes: &[u8]) -> Result<(u32, &[u8]), CodeRefusal>
    ensures { Gives None (λ x. (x.0, x.1.now)) result (unsigned_at pc 4 bytes.now) }
{
    let (front, rest) = bytes_at(pc, 4, bytes)?;
    Ok((BigEndian::read_u32(front), rest))
}

#[tactic(auto, unfolding(crate::specs::Reading::signed_at))]
pub(crate) fn i8_at(pc: u32, bytes: &[u8]) -> Result<(i8, &[u8]), CodeRefusal>
    ensures { Gives None (λ x. (x.0, x.1.now)) result (signed_at pc w8 bytes.now) }
{
    let (number, rest) = u8_at(pc, bytes)?;
    Ok((number.cast_signed(), rest))
}

#[tactic(auto, unfolding(crate::specs::Reading::signed_at))]
pub(crate) fn i16_at(pc: u32, bytes: &[u8]) -> Result<(i16, &[u8]), CodeRefusal>
    ensures { Gives None (λ x. (x.0, x.1.now)) result (signed_at pc w16 bytes.now) }
{
    let (number, rest) = u16_at(pc, bytes)?;
    Ok((number.cast_signed(), rest))
}

#[tactic(auto, unfolding(crate::specs::Reading::signed_at))]
pub(crate) fn i32_at(pc: u32, bytes: &[u8]) -> Result<(i32, &[u8]), CodeRefusal>
    ensures { Gives None (λ x. (x.0, x.1.now)) result (signed_at pc w32 bytes.now) }
{
    let (number, rest) = u32_at(pc, bytes)?;
    Ok((number.cast_signed(), rest))
}

/// The target of the jump at `pc`, whose offset is written in two bytes.
#[tactic(auto, unfolding(crate::specs::Reading::target_at))]
pub(crate) fn near_target_at(pc: u32, bytes: &[u8]) -> Result<(u32, &[u8]), CodeRefusal>
    ensures { Gives None (λ x. (x.0, x.1.now)) result (target_at pc w16 bytes.now) }
{
    let (offset, rest) = i16_at(pc, bytes)?;
    Ok((pc.wrapping_add_signed(i32::from(offset)), rest))
}

/// The target of the jump at `pc`, whose offset is written in four bytes.
#[tactic(auto, unfolding(crate::specs::Reading::target_at))]
pub(crate) fn far_target_at(pc: u32, bytes: &[u8]) -> Result<(u32, &[u8]), CodeRefusal>
    ensures { Gives None (λ x. (x.0, x.1.now)) result (target_at pc w32 bytes.now) }
{
    let (offset, rest) = i32_at(pc, bytes)?;
    Ok((pc.wrapping_add_signed(offset), rest))
}

/// How many bytes stand between a switch's opcode at `pc` and its first number.
pub(crate) fn padding(pc: u32) -> usize
    ensures { result ≡ padding pc }
{
    (3 - pc % 4) as usize
}
