// The directory that is kept in memory.
ghost use Rattle.std.specs.Prelude.{◌≡◌, ◌≤◌, ◌+◌, length, option_copied, slice_get};
ghost use Rattle.image_layout.specs.Places.{directory_words};
ghost use Rattle.image_meaning.specs.Directories.{spelled_all};

use crate::entries::Entry;
use crate::stepping::Progress;
use ap_base::Bytes;
use graph_model::Shape;
use std::marker::Model;

/// The directory of an image: its shapes and the names of its durable roots, those that are planned behind those that the
/// image has, and the planned entries with their words.
#[derive(Drop)]
pub struct Directory {
    pub(crate) shapes: Vec<Shape>,
    pub(crate) roots: Vec<Bytes>,
    pub(crate) planned: Vec<Entry>,
    /// How many of the planned entries are in the image.
    pub(crate) appended: usize,
    /// The words of the planned entries.
    pub(crate) words: Vec<u64>,
    /// How many of these are in the image.
    pub(crate) at: usize,
    pub(crate) used: u32,
    pub(crate) progress: Progress,
}

impl Model for Directory {
    ghost use Rattle.std.specs.Prelude.{drop, length, map};
    ghost use Rattle.directories.specs.Kept.{Kept, AreSpelled};
    ghost use Rattle.directories.specs.Read.{entry_of};

    ghost Value = { Kept };

    ghost view = { λ d. record {
      shapes = d.shapes.items;
      roots = d.roots.items;
      left = drop d.appended (map entry_of d.planned.items);
      used = d.used;
      progress = d.progress;
    } };

    ghost invariant = { λ d. AreSpelled d.words.items d.at d.appended
        (drop d.appended (map entry_of d.planned.items)) d.used (length d.shapes.items) };
}

impl Directory {
    /// The n-th shape, the planned ones behind those that were read. `None` exactly from their number on.
    pub fn shape(&self, n: u32) -> Option<&Shape>
        ensures { option_copied result ≡ slice_get self.now.shapes n }
    {
        self.shapes.as_slice().get(n as usize)
    }

    /// The shapes, in order.
    pub fn shapes(&self) -> &[Shape]
        ensures shapes { result.now ≡ self.now.shapes }
        ensures few { length self.now.shapes ≤ directory_words }
    {
        self.shapes.as_slice()
    }

    /// The names of the durable roots, in order.
    pub fn roots(&self) -> &[Bytes]
        ensures { result.now ≡ self.now.roots }
    {
        self.roots.as_slice()
    }

    /// How many words of the image's directory are in use. There is room for those of the planned entries that are left.
    pub fn used(&self) -> u32
        ensures used { result ≡ self.now.used }
        ensures room { self.now.used + length (spelled_all self.now.left) ≤ directory_words }
    {
        self.used
    }
}
