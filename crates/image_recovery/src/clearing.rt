// The logs are emptied.
ghost use Rattle.std.specs.Prelude.{◌≡◌, ◌<◌, ◌≤◌, ◌+◌, ℕ, None, OnOk};
ghost use Rattle.ap_base.specs.Causes.{HasCause};
ghost use Rattle.line_memory.specs.Memory.{Memory, shown};
ghost use Rattle.image_layout.specs.Places.{min_lines, logs, log_head_line};
ghost use Rattle.image_meaning.specs.Logs.{logs_fault};
ghost use Rattle.word_changes.specs.Changes.{Tells, AllKnown, ChangesTo, StopsLeave, CallsAtMost, GoesOn};
ghost use Rattle.image_walk.specs.Walking.{Looks};
ghost use Rattle.image_recovery.specs.Putting.{IsCleared, IsClearedAt, AllWritten, AllDurable, PutsBack, IsRecovered};
ghost use Rattle.image_recovery.specs.Putting.{IsRecoveringIn};

use crate::spots::head_spot;
use image_layout::LOGS;
use line_image::{Image, ImageFailed};
use line_memory::LineMemory;
use word_changes::{fetch_line, make_fence, put_word, write_line};

/// Clears the count of each log that has one, writes its line and fences. Where the entries of the logs were put back before, a
/// stop at any moment leaves each word outside the logs put back, and each log as it was or empty.
pub fn empty_logs<I: Image>(memory: &mut LineMemory<I>) -> Result<(), ImageFailed>
    requires { min_lines ≤ memory.old.size }
    ensures empty { AllKnown memory.old
        → OnOk result ((t : ℕ) → t < logs → shown memory.new (log_head_line t) 0 ≡ 0) }
    // behind a memory in which the logs were put back, and that was only looked at since
    ensures recovered { (first middle : Memory) → AllKnown middle → PutsBack first middle → Looks middle memory.old
        → OnOk result (IsRecovered first memory.new) }
    ensures stops { (first middle : Memory) → AllKnown middle → AllDurable middle → PutsBack first middle
        → Looks middle memory.old → logs_fault first.size (shown first) ≡ None
        → StopsLeave memory.old memory.new (IsRecoveringIn first.size (shown first)) }
    ensures durable { Tells memory.old → AllWritten memory.old → OnOk result (AllDurable memory.new) }
    ensures changes { ChangesTo IsCleared memory.old memory.new }
    ensures goes_on { GoesOn memory.old memory.new }
    ensures calls { CallsAtMost memory.old memory.new (logs + 1) }
    ensures cause { HasCause memory.old.faults memory.new.faults result }
{
    for thread in 0..LOGS as u8 {
        empty_log(memory, thread)?;
    }
    make_fence(memory)
}

/// Clears the count of one log and writes its line, if there is a count.
fn empty_log<I: Image>(memory: &mut LineMemory<I>, thread: u8) -> Result<(), ImageFailed>
    requires enough { min_lines ≤ memory.old.size }
    requires thread { thread < logs }
    ensures empty { AllKnown memory.old → OnOk result (shown memory.new (log_head_line thread) 0 ≡ 0) }
    ensures written { Tells memory.old → AllWritten memory.old → OnOk result (AllWritten memory.new) }
    ensures changes { ChangesTo (IsClearedAt thread) memory.old memory.new }
    ensures goes_on { GoesOn memory.old memory.new }
    ensures calls { CallsAtMost memory.old memory.new 1 }
    ensures cause { HasCause memory.old.faults memory.new.faults result }
{
    let head = head_spot(thread);
    fetch_line(memory, head.line)?;
    if memory.load(head) == 0 {
        return Ok(());
    }
    put_word(memory, head, 0);
    write_line(memory, head.line)
}
