//! The fields of a file, from front to back.

ghost use Rattle.std.specs.Prelude.{◌≡◌, ◌==◌, ◌+◌, ◌^◌, ◌<◌, length, IfOk, IfErr, None};
ghost use Rattle.parsing.specs.Results.{Gives};
ghost use Rattle.parsing.specs.Places.{field_at, number_at};

use crate::Cut;
use byteorder::{BigEndian, ByteOrder};
use std::marker::Model;

/// What is still to be read of a file: the offset of the next byte, and the bytes from there on.
#[derive(Drop)]
pub struct Reader<'a> {
    at: usize,
    rest: &'a [u8],
}

impl<'a> Model for Reader<'a> {
    ghost use Rattle.std.specs.Prelude.{ℕ, List, ◌+◌, ◌^◌, ◌<◌, length};

    ghost Value = { ℕ × List ℕ };

    ghost view = { λ r. (r.at, r.rest.now) };

    ghost invariant = { λ r. r.at + length r.rest.now < 2 ^ 64 };
}

impl<'a> Reader<'a> {
    /// What stands from an offset of the file on.
    pub fn new(at: usize, rest: &'a [u8]) -> Reader<'a>
        requires { at + length rest.now < 2 ^ 64 }
        ensures { result ≡ (at, rest.now) }
    {
        Reader { at, rest }
    }

    /// The offset of the next byte.
    pub fn at(&self) -> usize
        ensures { result ≡ self.now.0 }
    {
        self.at
    }

    /// Whether nothing is left.
    pub fn is_ended(&self) -> bool
        ensures { result ≡ (length self.now.1 == 0) }
    {
        self.rest.is_empty()
    }

    /// A field of this many bytes, refused exactly where fewer are left.
    #[tactic(auto, unfolding(crate::specs::Places::field_at))]
    pub fn field(&mut self, len: usize) -> Result<&'a [u8], Cut>
        ensures whole { IfOk result (λ x. length x.now ≡ len) }
        ensures within { IfOk result (λ x. self.old.0 + length x.now < 2 ^ 64) }
        ensures short { IfErr result (λ e. e.at ≡ self.old.0) }
        ensures read { Gives None (λ x. (x.now, self.new)) result (field_at len self.old) }
    {
        if self.rest.len() < len {
            return Err(Cut { at: self.at });
        }
        let (field, rest) = self.rest.split_at(len);
        self.at += len;
        self.rest = rest;
        Ok(field)
    }

    /// A number of one byte.
    #[tactic(auto, unfolding(crate::specs::Places::number_at))]
    pub fn u8(&mut self) -> Result<u8, Cut>
        ensures { Gives None (λ x. (x, self.new)) result (number_at 1 self.old) }
    {
        let field = self.field(1)?;
        Ok(field[0])
    }

    /// A number of two bytes, the highest first.
    #[tactic(auto, unfolding(crate::specs::Places::number_at))]
    pub fn u16(&mut self) -> Result<u16, Cut>
        ensures { Gives None (λ x. (x, self.new)) result (number_at 2 self.old) }
    {
        let field = self.field(2)?;
        Ok(BigEndian::read_u16(field))
    }

    /// A number of four bytes, the highest first.
    #[tactic(auto, unfolding(crate::specs::Places::number_at))]
    pub fn u32(&mut self) -> Result<u32, Cut>
        ensures { Gives None (λ x. (x, self.new)) result (number_at 4 self.old) }
    {
        let field = self.field(4)?;
        Ok(BigEndian::read_u32(field))
    }

    /// A number of eight bytes, the highest first.
    #[tactic(auto, unfolding(crate::specs::Places::number_at))]
    pub fn u64(&mut self) -> Result<u64, Cut>
        ensures { Gives None (λ x. (x, self.new)) result (number_at 8 self.old) }
    {
        let field = self.field(8)?;
        Ok(BigEndian::read_u64(field))
    }
}
