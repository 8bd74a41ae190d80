// The superblock is read.
ghost use Rattle.std.specs.Prelude.{◌≡◌, ◌<◌, ◌≤◌, ℕ, false, None, slice_index, OnOk, IfOk, IfErr};
ghost use Rattle.ap_base.specs.Causes.{HasCause, HasCauseOf};
ghost use Rattle.line_memory.specs.Memory.{shown};
ghost use Rattle.image_layout.specs.declared.superblock.BadReason.TheVariants.{Size};
ghost use Rattle.image_layout.specs.Places.{min_lines, max_lines, has_size, super_check, super_of};
ghost use Rattle.image_meaning.specs.Meaning.{at_super};
ghost use Rattle.word_changes.specs.Changes.{AllKnown};
ghost use Rattle.image_walk.specs.Walking.{Looks, IsFault};
ghost use Rattle.image_walk.specs.declared.fault.RecoverFault.TheVariants.{Bad};
ghost use Rattle.image_recovery.specs.Checked.{IsInRange};

use ap_base::Spot;
use image_layout::{BadReason, MAX_LINES, MIN_LINES, Super, check_super};
use image_walk::RecoverFault;
use line_image::{Image, ImageFailed};
use line_memory::LineMemory;
use word_changes::fetch_line;

/// Reads the superblock and checks it, after the number of lines: `Bad` of line 0 exactly where one of these checks fails, the
/// first. Nothing is stored.
pub fn read_super<I: Image>(memory: &mut LineMemory<I>) -> Result<Super, RecoverFault>
    ensures enough { OnOk result (min_lines ≤ memory.old.size) }
    ensures most { OnOk result (memory.old.size ≤ max_lines) }
    ensures passes { AllKnown memory.old
        → OnOk result (super_check (shown memory.old 0) memory.old.size ≡ None) }
    ensures says { AllKnown memory.old → IfOk result (λ says. says ≡ super_of (shown memory.old 0)) }
    ensures range { IfOk result IsInRange }
    ensures bad { AllKnown memory.old
        → IfErr result (IsFault (at_super (super_check (shown memory.old 0) memory.old.size))) }
    ensures looks { Looks memory.old memory.new }
    ensures cause { HasCauseOf RecoverFault.ImageFailed memory.old.faults memory.new.faults result }
{
    check_size(memory.lines())?;
    let words = read_first_line(memory)?;
    match check_super(&words, memory.lines()) {
        Ok(says) => Ok(says),
        Err(reason) => Err(RecoverFault::Bad { line: 0, reason }),
    }
}

/// Checks that an image has so many lines.
fn check_size(lines: u64) -> Result<(), RecoverFault>
    ensures enough { OnOk result (min_lines ≤ lines) }
    ensures most { OnOk result (lines ≤ max_lines) }
    ensures other { IfErr result (λ fault. has_size lines ≡ false) }
    ensures bad { IfErr result (λ fault. fault ≡ Bad 0 Size) }
{
    if lines < MIN_LINES || lines > MAX_LINES {
        return Err(RecoverFault::Bad {
            line: 0,
            reason: BadReason::Size,
        });
    }
    Ok(())
}

/// The words of the superblock's line.
fn read_first_line<I: Image>(memory: &mut LineMemory<I>) -> Result<[u64; 8], ImageFailed>
    requires { 0 < memory.old.size }
    ensures words { AllKnown memory.old
        → IfOk result (λ words. (w : ℕ) → w < 8 → slice_index words w ≡ shown memory.old 0 w) }
    ensures looks { Looks memory.old memory.new }
    ensures cause { HasCause memory.old.faults memory.new.faults result }
{
    fetch_line(memory, 0)?;
    let mut words = [0; 8];
    for word in 0..8 {
        words[word as usize] = memory.load(Spot { line: 0, word });
    }
    Ok(words)
}
