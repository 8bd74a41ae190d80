// A line that a step needs is made resident first.
ghost use Rattle.std.specs.Prelude.{◌≡◌, ◌⊎◌, ◌<◌, IfOk, OnErr, true, false};
ghost use Rattle.ap_base.specs.Causes.{HasCause};
ghost use Rattle.line_memory.specs.Memory.{IsAwaited, IsResident, OneCall};
ghost use Rattle.line_memory.specs.Moments.{KeepsShown};
ghost use Rattle.twin_forms.specs.Sights.{AllKnown};

use line_image::{Image, ImageFailed};
use line_memory::LineMemory;

/// Makes a line resident. True where it was: nothing is done then.
pub fn make_ready<I: Image>(memory: &mut LineMemory<I>, line: u32) -> Result<bool, ImageFailed>
    requires within { line < memory.old.size }
    requires known { AllKnown memory.old }
    ensures ready { IfOk result (λ there. there ≡ true → IsResident memory.old line
        × (memory.new ≡ memory.old)) }
    ensures missing { IfOk result (λ there. there ≡ false → IsResident memory.old line → ⊥) }
    ensures nearer { IfOk result (λ there. there ≡ false
        → IsResident memory.new line ⊎ IsAwaited memory.new line) }
    ensures not_twice { IfOk result (λ there. there ≡ false → IsAwaited memory.old line
        → IsResident memory.new line) }
    ensures call { IfOk result (λ there. there ≡ false → OneCall memory.old memory.new) }
    ensures failed { OnErr result (OneCall memory.old memory.new) }
    ensures keeps { KeepsShown memory.old memory.new }
    ensures known { AllKnown memory.new }
    ensures cause { HasCause memory.old.faults memory.new.faults result }
{
    if memory.resident(line) {
        return Ok(true);
    }
    memory.touch(line)?;
    Ok(false)
}
