// A line made resident.
ghost use Rattle.std.specs.Prelude.{◌≡◌, ◌⊎◌, ◌<◌, ℕ, true, false, OnOk, Ok};
ghost use Rattle.ap_base.specs.Causes.{HasCause};
ghost use Rattle.line_memory.specs.Memory.{IsResident, IsAwaited, SameImage, OneCall};
ghost use Rattle.line_memory.specs.Moments.{CountsFrom};
ghost use Rattle.word_changes.specs.Changes.{Nothing, ChangesTo, CallsGoOn, TwoCallsAtMost};

use line_image::{Image, ImageFailed};
use line_memory::{LineMemory, Touch};

/// Makes a line resident, by one touch or by two: with two image calls at most, and with none where it is resident already.
/// Nothing is stored.
pub fn fetch_line<I: Image>(memory: &mut LineMemory<I>, line: u32) -> Result<(), ImageFailed>
    requires { line < memory.old.size }
    ensures resident { OnOk result (IsResident memory.new line) }
    ensures at_once { IsResident memory.old line → (result ≡ Ok tt) × SameImage memory.old memory.new }
    ensures few { TwoCallsAtMost memory.old memory.new }
    ensures changes { ChangesTo Nothing memory.old memory.new }
    ensures counts { (begin : ℕ) → CountsFrom begin memory.old → CountsFrom begin memory.new }
    ensures calls { CallsGoOn memory.old memory.new }
    ensures cause { HasCause memory.old.faults memory.new.faults result }
{
    match memory.touch(line)? {
        Touch::Ready => Ok(()),
        Touch::Again => touch_again(memory, line),
    }
}

/// The second touch of a line for which room was made.
fn touch_again<I: Image>(memory: &mut LineMemory<I>, line: u32) -> Result<(), ImageFailed>
    requires in_range { line < memory.old.size }
    requires awaited { IsAwaited memory.old line }
    ensures resident { OnOk result (IsResident memory.new line) }
    ensures count { SameImage memory.old memory.new ⊎ OneCall memory.old memory.new }
    ensures changes { ChangesTo Nothing memory.old memory.new }
    ensures counts { (begin : ℕ) → CountsFrom begin memory.old → CountsFrom begin memory.new }
    ensures calls { CallsGoOn memory.old memory.new }
    ensures cause { HasCause memory.old.faults memory.new.faults result }
{
    memory.touch(line)?;
    Ok(())
}

/// Whether a line is resident, with no image call where it is. One that isn't is touched, with one image call at most.
pub fn is_ready<I: Image>(memory: &mut LineMemory<I>, line: u32) -> Result<bool, ImageFailed>
    requires { line < memory.old.size }
    ensures resident { IsResident memory.old line → (result ≡ Ok true) × (memory.new ≡ memory.old) }
    ensures ready { result ≡ Ok true → IsResident memory.old line × (memory.new ≡ memory.old) }
    ensures touched { result ≡ Ok false → ¬ IsResident memory.old line }
    // after one more touch, at the most, it is
    ensures comes { result ≡ Ok false → IsResident memory.new line ⊎ IsAwaited memory.new line }
    ensures changes { ChangesTo Nothing memory.old memory.new }
    ensures count { SameImage memory.old memory.new ⊎ OneCall memory.old memory.new }
    ensures cause { HasCause memory.old.faults memory.new.faults result }
{
    if memory.resident(line) {
        return Ok(true);
    }
    memory.touch(line)?;
    Ok(false)
}
