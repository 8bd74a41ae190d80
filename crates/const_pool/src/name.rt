//! Names and other texts of a class file, in modified UTF-8 (JVMS 4.4.7).

ghost use Rattle.std.specs.Prelude.{◌≡◌, ◌↔◌, ◌<◌, ◌≤◌, ◌∷◌, [], length, take, drop, IsTrue, IsSome, IfOk, IfSome, IfNone};
ghost use Rattle.std.specs.Prelude.{OnSome, Some, None};
ghost use Rattle.const_pool.specs.Utf8.{IsModifiedUtf8, bad_place, char_len, begins_one, begins_two, begins_three};

use std::alloc::{AllocError, Global};
use std::marker::Model;

/// A text of a class file: modified UTF-8 bytes, of any number (JVMS 4.4.7).
#[derive(Drop)]
pub struct Name {
    bytes: Vec<u8>,
}

impl Model for Name {
    ghost use Rattle.std.specs.Prelude.{ℕ, List};
    ghost use Rattle.const_pool.specs.Utf8.{IsModifiedUtf8};

    ghost Value = { List ℕ };

    ghost view = { λ n. n.bytes.items };

    ghost invariant = { λ n. IsModifiedUtf8 n.bytes.items };
}

impl Name {
    /// The name with these bytes, `None` exactly where they are not modified UTF-8.
    pub fn new(bytes: Vec<u8>) -> Option<Name>
        ensures some { IsSome result ↔ IsModifiedUtf8 bytes.items }
        ensures value { IfSome result (λ name. name ≡ bytes.items) }
    {
        if first_bad(bytes.as_slice()).is_some() {
            return None;
        }
        Some(Name { bytes })
    }

    /// A name with a copy of bytes that are known to be modified UTF-8, as another name's are.
    pub fn copy(alloc: Global, bytes: &[u8]) -> Result<Name, AllocError>
        requires { IsModifiedUtf8 bytes.now }
        ensures { IfOk result (λ name. name ≡ bytes.now) }
    {
        let bytes = Vec::from_slice(alloc, bytes)?;
        Ok(Name { bytes })
    }

    /// The bytes, which are modified UTF-8.
    pub fn as_slice(&self) -> &[u8]
        ensures value { result.now ≡ self.now }
        ensures modified_utf8 { IsModifiedUtf8 self.now }
    {
        self.bytes.as_slice()
    }
}

/// How many bytes the character at the front has, `None` where no character is.
#[tactic(auto, unfolding(crate::specs::Utf8::char_len))]
fn front_char(bytes: &[u8]) -> Option<usize>
    ensures { result ≡ char_len bytes.now }
{
    if begins_one(bytes) {
        Some(1)
    } else if begins_two(bytes) {
        Some(2)
    } else if begins_three(bytes) {
        Some(3)
    } else {
        None
    }
}

fn begins_one(bytes: &[u8]) -> bool
    ensures { result ≡ begins_one bytes.now }
{
    matches!(bytes, [0x01..=0x7F, ..])
}

fn begins_two(bytes: &[u8]) -> bool
    ensures { result ≡ begins_two bytes.now }
{
    matches!(bytes, [0xC0, 0x80, ..] | [0xC2..=0xDF, 0x80..=0xBF, ..])
}

fn begins_three(bytes: &[u8]) -> bool
    ensures { result ≡ begins_three bytes.now }
{
    matches!(
        bytes,
        [0xE0, 0xA0..=0xBF, 0x80..=0xBF, ..] | [0xE1..=0xEF, 0x80..=0xBF, 0x80..=0xBF, ..]
    )
}

/// The place of the first byte of the first bad character.
pub(crate) fn first_bad(bytes: &[u8]) -> Option<usize>
    ensures place { result ≡ bad_place 0 0 bytes.now }
    ensures within { IfSome result (λ place. place < length bytes.now) }
    ensures bad { IsSome result → IsModifiedUtf8 bytes.now → ⊥ }
    ensures good { IfNone result (IsModifiedUtf8 bytes.now) }
{
    let mut at = 0;
    while at < bytes.len() {
        match front_char(&bytes[at..]) {
            Some(len) => at += len,
            None => return Some(at),
        }
    }
    None
}
