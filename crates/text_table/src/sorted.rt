//! Texts in the order of their bytes.

ghost use Rattle.std.specs.Prelude.{◌≡◌, ℕ, ◌<◌, [], length, take, IfOk, OnErr, OnOk};
ghost use Rattle.text_table.specs.Texts.{with_texts};
ghost use Rattle.text_table.specs.Sorted.{insert_text, has_text};

use crate::Texts;
use std::alloc::{AllocError, Global};
use std::collections::BTreeSet;
use std::marker::Model;

/// Texts in the order of their bytes, each once. A text is found within time that grows with the
/// logarithm of how many there are.
#[derive(Drop)]
pub struct SortedTexts {
    items: BTreeSet<Vec<u8>>,
}

impl Model for SortedTexts {
    ghost use Rattle.std.specs.Prelude.{ℕ, List, map};
    ghost use Rattle.text_table.specs.Sorted.{items_of};

    ghost Value = { List (List ℕ) };

    ghost view = { λ t. map items_of t.items.keys };
}

impl SortedTexts {
    /// No texts. Takes no memory.
    pub fn new(alloc: Global) -> SortedTexts
        ensures { result ≡ [] }
    {
        SortedTexts {
            items: BTreeSet::new(alloc),
        }
    }

    /// Adds a text at its place, where it isn't there yet. For want of memory nothing is changed.
    pub fn add(&mut self, alloc: Global, text: &[u8]) -> Result<(), AllocError>
        ensures added { OnOk result (self.new ≡ insert_text self.old text.now) }
        ensures same { OnErr result (self.new ≡ self.old) }
    {
        let key = text.to_vec(alloc)?;
        self.items.insert(key)?;
        Ok(())
    }

    /// Whether a text is there.
    pub fn has(&self, text: &[u8]) -> bool
        ensures { result ≡ has_text self.now text.now }
    {
        self.items.contains(text)
    }
}

impl Texts {
    /// Adds texts in their order, each where it isn't there yet. Want of numbers is want of memory. An
    /// `Err` leaves the first of them added, and not all.
    pub fn add_all(&mut self, alloc: Global, texts: &SortedTexts) -> Result<(), AllocError>
        ensures added { OnOk result (self.new ≡ with_texts self.old texts.now) }
        ensures first { OnErr result
            ((n : ℕ) × (n < length texts.now) × (self.new ≡ with_texts self.old (take n texts.now))) }
    {
        for text in texts.items.iter() {
            if self.len() >= u32::MAX - 1 {
                return Err(AllocError);
            }
            self.add(alloc, text.as_slice())?;
        }
        Ok(())
    }
}
