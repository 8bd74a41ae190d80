// Single words of an image.
ghost use Rattle.std.specs.Prelude.{◌≡◌, ◌<◌, false, IfOk};
ghost use Rattle.ap_base.specs.Causes.{HasCause};
ghost use Rattle.line_memory.specs.Memory.{shown};
ghost use Rattle.image_meaning.specs.Checks.{Words};
ghost use Rattle.image_meaning.specs.Logs.{is_log_line};
ghost use Rattle.word_changes.specs.Changes.{AllKnown};
ghost use Rattle.image_walk.specs.Walking.{Shows, Looks};

use ap_base::Spot;
use line_image::{Image, ImageFailed};
use line_memory::LineMemory;
use word_changes::fetch_line;

/// What a word shows, once its line is fetched.
pub fn read_word<I: Image>(memory: &mut LineMemory<I>, spot: Spot) -> Result<u64, ImageFailed>
    requires { spot.line < memory.old.size }
    ensures word { (c : Words) → Shows memory.old c → is_log_line spot.line ≡ false
        → IfOk result (λ word. word ≡ c spot.line spot.word) }
    ensures shown { AllKnown memory.old → IfOk result (λ word. word ≡ shown memory.old spot.line spot.word) }
    ensures looks { Looks memory.old memory.new }
    ensures cause { HasCause memory.old.faults memory.new.faults result }
{
    fetch_line(memory, spot.line)?;
    Ok(memory.load(spot))
}
