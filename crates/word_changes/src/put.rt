// Words stored to, and lines written back.
ghost use Rattle.std.specs.Prelude.{◌≡◌, ◌≢◌, ◌<◌, ℕ, OnOk};
ghost use Rattle.ap_base.specs.Causes.{HasCause};
ghost use Rattle.line_memory.specs.Memory.{shown, IsResident, IsWritten, IsDurable, SameResident, SameImage, OneCall};
ghost use Rattle.word_changes.specs.Changes.{Nothing, IsGiven, ChangesTo};

use ap_base::Spot;
use line_image::{Image, ImageFailed};
use line_memory::LineMemory;

/// Stores a word of a resident line. Makes no image call.
pub fn put_word<I: Image>(memory: &mut LineMemory<I>, spot: Spot, word: u64)
    requires { IsResident memory.old spot.line }
    ensures here { shown memory.new spot.line spot.word ≡ word }
    ensures others { (l w : ℕ) → (l ≡ spot.line → w ≢ spot.word) → shown memory.new l w ≡ shown memory.old l w }
    ensures changes { ChangesTo (IsGiven spot.line spot.word word) memory.old memory.new }
    ensures resident { SameResident memory.old memory.new }
    ensures same { SameImage memory.old memory.new }
{
    memory.store(spot, word);
}

/// Writes a resident line back, by one image call.
pub fn write_line<I: Image>(memory: &mut LineMemory<I>, line: u32) -> Result<(), ImageFailed>
    requires in_range { line < memory.old.size }
    requires resident { IsResident memory.old line }
    ensures written { OnOk result ((w : ℕ) → IsWritten memory.new line w) }
    ensures changes { ChangesTo Nothing memory.old memory.new }
    ensures resident_after { SameResident memory.old memory.new }
    ensures count { OneCall memory.old memory.new }
    ensures cause { HasCause memory.old.faults memory.new.faults result }
{
    memory.write_back(line)
}

/// Makes every earlier write of a line durable, by one image call.
pub fn make_fence<I: Image>(memory: &mut LineMemory<I>) -> Result<(), ImageFailed>
    ensures durable { OnOk result ((l w : ℕ) → IsWritten memory.old l w → IsDurable memory.new l w) }
    ensures changes { ChangesTo Nothing memory.old memory.new }
    ensures resident_after { SameResident memory.old memory.new }
    ensures count { OneCall memory.old memory.new }
    ensures cause { HasCause memory.old.faults memory.new.faults result }
{
    memory.fence()
}
