//! Distinct texts, found by an ordered map.

ghost use Rattle.std.specs.Prelude.{◌≡◌, ◌+◌, ◌<◌, ◌^◌, [], length, Some, IfOk, OnOk, OnErr, slice_get};
ghost use Rattle.std.specs.Option.{option_copied};
ghost use Rattle.text_table.specs.Texts.{place_of, with_text};

use ap_base::Bytes;
use std::alloc::{AllocError, Global};
use std::collections::BTreeMap;
use std::marker::Model;

/// Texts, each once, in the order in which they were first added. A text is found within time that grows with the logarithm of
/// how many there are.
#[derive(Drop)]
pub struct Texts {
    items: Vec<Bytes>,
    places: BTreeMap<Vec<u8>, u32>,
}

impl Model for Texts {
    ghost use Rattle.std.specs.Prelude.{ℕ, List};
    ghost use Rattle.text_table.specs.Texts.{ArePlaces};

    ghost Value = { List (List ℕ) };

    ghost view = { λ t. t.items.items };

    ghost invariant = { λ t. ArePlaces t.items.items t.places };
}

impl Texts {
    /// No texts. Takes no memory.
    pub fn new(alloc: Global) -> Texts
        ensures { result ≡ [] }
    {
        Texts {
            items: Vec::new(alloc),
            places: BTreeMap::new(alloc),
        }
    }

    /// How many texts there are.
    pub fn len(&self) -> u32
        ensures { result ≡ length self.now }
    {
        self.items.len() as u32
    }

    /// The text at a place, `None` exactly past the last.
    pub fn get(&self, place: u32) -> Option<&Bytes>
        ensures { option_copied result ≡ slice_get self.now place }
    {
        self.items.get(place as usize)
    }

    /// The texts in order.
    pub fn as_slice(&self) -> &[Bytes]
        ensures { result.now ≡ self.now }
    {
        self.items.as_slice()
    }

    /// The place of a text, `None` exactly where it isn't there.
    pub fn place(&self, text: &[u8]) -> Option<u32>
        ensures { result ≡ place_of self.now text.now }
    {
        self.places.get(text).copied()
    }

    /// Adds a text where it isn't there yet, and gives its place. For want of memory nothing is changed.
    pub fn add(&mut self, alloc: Global, text: &[u8]) -> Result<u32, AllocError>
        requires room { length self.old + 1 < 2 ^ 32 }
        ensures added { OnOk result (self.new ≡ with_text self.old text.now) }
        ensures place { IfOk result (λ place. place_of self.new text.now ≡ Some place) }
        ensures same { OnErr result (self.new ≡ self.old) }
    {
        if let Some(place) = self.place(text) {
            return Ok(place);
        }
        let place = self.items.len() as u32;
        let key = text.to_vec(alloc)?;
        let copy = Bytes::copy(alloc, text)?;
        self.items.reserve(1)?;
        self.places.insert(key, place)?;
        self.items.push(copy)?;
        Ok(place)
    }
}
