// The magic word, which tells that an image is whole.
ghost use Rattle.std.specs.Prelude.{◌≤◌, OnOk};
ghost use Rattle.ap_base.specs.Causes.{HasCause};
ghost use Rattle.image_layout.specs.Places.{magic, min_lines};
ghost use Rattle.word_changes.specs.Changes.{Tells, IsGiven, ChangesTo, GoesOn, WritesAll, AllFixed};

use crate::words::write_word;
use ap_base::Spot;
use image_layout::MAGIC;
use line_image::{Image, ImageFailed};
use line_memory::LineMemory;
use word_changes::make_fence;

/// Stores the magic word and makes it durable.
pub(crate) fn write_mark<I: Image>(memory: &mut LineMemory<I>) -> Result<(), ImageFailed>
    requires { min_lines ≤ memory.old.size }
    ensures wrote { OnOk result (WritesAll (IsGiven 0 0 magic) memory.old memory.new) }
    ensures fixed { Tells memory.old → OnOk result (AllFixed (IsGiven 0 0 magic) memory.new) }
    ensures changes { ChangesTo (IsGiven 0 0 magic) memory.old memory.new }
    ensures goes_on { GoesOn memory.old memory.new }
    ensures cause { HasCause memory.old.faults memory.new.faults result }
{
    write_word(memory, Spot { line: 0, word: 0 }, MAGIC)?;
    make_fence(memory)
}
