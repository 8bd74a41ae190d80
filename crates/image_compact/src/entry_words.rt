// The words of a directory's entries.
ghost use Rattle.std.specs.Prelude.{◌≡◌, [], ◌∷◌, ◌++◌, List, OnOk};
ghost use Rattle.image_meaning.specs.Entries.{DirectoryEntry, ShapeEntry, RootEntry};
ghost use Rattle.image_compact.specs.Planning.{Spell};

use crate::spelling::{push_root, push_shape, root_length, shape_length};
use graph_model::Shape;
use image_layout::DIRECTORY_WORDS;
use std::alloc::{AllocError, Global};

/// The words that spell entries, as far as a directory has room for them all, and how many there are.
#[derive(Drop)]
pub(crate) struct EntryWords {
    /// The words, unless they are more than a directory has.
    pub(crate) words: Vec<u64>,
    /// Their number, up to the greatest of 64 bits.
    pub(crate) need: u64,
}

impl EntryWords {
    /// Those of no entry. Takes no memory.
    pub(crate) fn new(alloc: Global) -> EntryWords
        ensures { Spell [] result }
    {
        EntryWords {
            words: Vec::new(alloc),
            need: 0,
        }
    }

    /// Adds those of a shape.
    pub(crate) fn add_shape(&mut self, shape: &Shape) -> Result<(), AllocError>
        ensures { (entries : List DirectoryEntry) → Spell entries self.old
            → OnOk result (Spell (entries ++ ShapeEntry shape.now ∷ []) self.new) }
    {
        self.need = self.need.saturating_add(shape_length(shape));
        if self.need > u64::from(DIRECTORY_WORDS) {
            return Ok(());
        }
        push_shape(&mut self.words, shape)
    }

    /// Adds those of a root.
    pub(crate) fn add_root(&mut self, name: &[u8]) -> Result<(), AllocError>
        ensures { (entries : List DirectoryEntry) → Spell entries self.old
            → OnOk result (Spell (entries ++ RootEntry name.now ∷ []) self.new) }
    {
        self.need = self.need.saturating_add(root_length(name));
        if self.need > u64::from(DIRECTORY_WORDS) {
            return Ok(());
        }
        push_root(&mut self.words, name)
    }

    /// The words.
    pub(crate) fn into_words(self) -> Vec<u64>
        ensures { result ≡ self.words }
    {
        let EntryWords { words, need: _ } = self;
        words
    }
}
