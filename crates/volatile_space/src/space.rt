// A space of words.
ghost use Rattle.std.specs.Prelude.{◌≡◌, ◌<◌, ◌≤◌, ◌+◌, ◌-◌, ◌^◌, ◌↔◌, [], ◌++◌, length, replicate, slice_index, slice_set};
ghost use Rattle.std.specs.Prelude.{IfOk, IfSome, IsNone, IsSome, vec_capacity};
ghost use Rattle.volatile_space.specs.Spaces.{Space};

use std::alloc::{AllocError, Global};
use std::marker::Model;

/// Words of volatile memory, taken one after another from index 0 on and never given back. All memory is
/// taken by `reserve`.
#[derive(Drop)]
pub struct VolatileSpace {
    words: Vec<u64>,
    left: u32,
}

impl Model for VolatileSpace {
    ghost use Rattle.std.specs.Prelude.{◌≤◌, ◌+◌, ◌<◌, ◌^◌, length, vec_capacity};
    ghost use Rattle.volatile_space.specs.Spaces.{Space};

    ghost Value = { Space };

    ghost view = { λ space. record { words = space.words.items; left = space.left } };

    ghost invariant = { λ space. (length space.words.items + space.left ≤ vec_capacity space.words)
        × (length space.words.items + space.left < 2 ^ 32) };
}

impl VolatileSpace {
    /// A space of so many words, none of which is taken.
    pub fn reserve(alloc: Global, words: u32) -> Result<VolatileSpace, AllocError>
        ensures empty { IfOk result (λ space. space ≡ record { words = []; left = words }) }
    {
        let mut all = Vec::new(alloc);
        all.reserve(words as usize)?;
        Ok(VolatileSpace {
            words: all,
            left: words,
        })
    }

    /// How many words are left.
    pub fn left(&self) -> u32
        ensures left { result ≡ self.now.left }
        ensures below { length self.now.words + result < 2 ^ 32 }
    {
        self.left
    }

    /// Takes the next words, all 0, and answers the index of the first one. `None` exactly where fewer
    /// are left.
    pub fn take(&mut self, words: u32) -> Option<u32>
        ensures none { IsNone result ↔ (self.old.left < words) }
        ensures same { IsNone result → self.new ≡ self.old }
        ensures index { IfSome result (λ at. at ≡ length self.old.words) }
        ensures zeros { IsSome result → self.new.words ≡ self.old.words ++ replicate words 0 }
        ensures left { IsSome result → self.new.left ≡ self.old.left - words }
        ensures below { IsSome result → length self.old.words + words < 2 ^ 32 }
    {
        if words > self.left {
            return None;
        }
        let at = self.words.len() as u32;
        put_zeros(&mut self.words, words);
        self.left -= words;
        Some(at)
    }

    /// The word at an index.
    pub fn word(&self, at: u32) -> u64
        requires taken { at < length self.now.words }
        ensures word { result ≡ slice_index self.now.words at }
    {
        self.words[at as usize]
    }

    /// Changes the word at an index.
    pub fn set(&mut self, at: u32, word: u64)
        requires taken { at < length self.old.words }
        ensures words { self.new.words ≡ slice_set self.old.words at word }
        ensures left { self.new.left ≡ self.old.left }
    {
        self.words[at as usize] = word;
    }
}

// Zeros behind the words. Takes no memory.
fn put_zeros(words: &mut Vec<u64>, count: u32)
    requires room { length words.old.items + count ≤ vec_capacity words.old }
    ensures items { words.new.items ≡ words.old.items ++ replicate count 0 }
    ensures capacity { vec_capacity words.new ≡ vec_capacity words.old }
{
    for i in 0..count {
        words.push_reserved(0);
    }
}
