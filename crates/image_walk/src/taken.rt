// The lines of objects.
ghost use Rattle.std.specs.Prelude.{◌≡◌, ◌<◌, ◌≤◌, ◌+◌, ◌++◌, ◌∷◌, [], ℕ, List, None, length, OnOk, IfErr, IsErrOf};
ghost use Rattle.image_layout.specs.Places.{max_lines, lines_of};
ghost use Rattle.image_meaning.specs.Checks.{Words, first_fault};
ghost use Rattle.image_meaning.specs.Objects.{length_at, line_fault};
ghost use Rattle.image_walk.specs.Walking.{IsFault, IsTaken};

use crate::RecoverFault;
use image_layout::BadReason;

/// Takes the lines of the object that begins at a line, unless one of them belongs to an earlier object.
pub(crate) fn take_lines(taken: &mut [bool], line: u32, count: u32) -> Result<(), RecoverFault>
    requires fits { line + count ≤ length taken.old }
    requires most { length taken.old ≤ max_lines }
    ensures never { IsErrOf result RecoverFault.ImageFailed → ⊥ }
    ensures size { length taken.new ≡ length taken.old }
    ensures taken { (words : Words) (earlier : List ℕ) → IsTaken taken.old words earlier
        → lines_of (length_at words line) ≡ count → OnOk result (IsTaken taken.new words (earlier ++ line ∷ [])) }
    ensures passes { (words : Words) (earlier : List ℕ) → IsTaken taken.old words earlier
        → OnOk result (first_fault (line_fault words earlier line) count ≡ None) }
    ensures bad { (words : Words) (earlier : List ℕ) → IsTaken taken.old words earlier
        → IfErr result (IsFault (first_fault (line_fault words earlier line) count)) }
{
    for i in 0..count {
        let at = (line + i) as usize;
        if taken[at] {
            return Err(RecoverFault::Bad {
                line: line + i,
                reason: BadReason::Overlap,
            });
        }
        taken[at] = true;
    }
    Ok(())
}
