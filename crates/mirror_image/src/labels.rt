// The label of a half, its last line.
ghost use Rattle.std.specs.Prelude.{◌≡◌, ◌≤◌, ◌+◌, ◌⊎◌, OnOk, OnErr, IfOk, IfErr, Some, None};
ghost use Rattle.ap_base.specs.Causes.{HasCause, next_count};
ghost use Rattle.line_image.specs.Trace.{did};
ghost use Rattle.line_image.specs.declared.effect.Done.TheVariants.{Wrote, Fenced};
ghost use Rattle.mirror_image.specs.Sound.{IsMarked, IsNotMarked};
ghost use Rattle.mirror_image.specs.Labels.{IsLabel, zero_words, IsCleared, IsNotCleared};

use line_image::{Image, ImageFailed};

// The bytes APMIRROR.
const LABEL: u64 = 5_931_049_747_640_832_065;

/// Writes the label of a generation and fences it.
///
/// Answers how many calls it made where it failed.
pub(crate) fn mark<I: Image>(half: &mut I, line: u64, generation: u64) -> Result<(), u64>
    requires { line + 1 ≡ (I.told half.old).size }
    ensures marked { OnOk result (IsMarked line generation (I.told half.old) (I.told half.new)) }
    ensures unmarked { IfErr result (λ made. IsNotMarked line generation made (I.told half.old) (I.told half.new)) }
    ensures cause { HasCause (I.faults half.old) (I.faults half.new) result }
{
    let words = [LABEL, generation, 0, 0, 0, 0, 0, 0];
    if half.write_line(line, &words).is_err() {
        return Err(1);
    }
    if half.fence().is_err() {
        return Err(2);
    }
    Ok(())
}

/// The generation that a label gives; None where its first word isn't that of a label.
pub(crate) fn read_label<I: Image>(half: &mut I, line: u64) -> Result<Option<u64>, ImageFailed>
    requires { line + 1 ≡ (I.told half.old).size }
    ensures size { (I.told half.new).size ≡ (I.told half.old).size }
    ensures same { (I.told half.new).trace ≡ (I.told half.old).trace }
    ensures calls { (I.told half.new).calls ≡ next_count (I.told half.old).calls }
    ensures label { IfOk result (λ label. IsLabel line label (I.told half.old).trace) }
    ensures cause { HasCause (I.faults half.old) (I.faults half.new) result }
{
    let mut words = [0; 8];
    half.read_line(line, &mut words)?;
    if words[0] == LABEL {
        return Ok(Some(words[1]));
    }
    Ok(None)
}

/// Writes zeros over what is no label, and fences them.
pub(crate) fn clear_foreign<I: Image>(
    half: &mut I,
    line: u64,
    label: Option<u64>,
) -> Result<(), ImageFailed>
    requires { line + 1 ≡ (I.told half.old).size }
    ensures size { (I.told half.new).size ≡ (I.told half.old).size }
    ensures cleared { OnOk result (IsCleared line label (I.told half.old) (I.told half.new)) }
    ensures uncleared { OnErr result (IsNotCleared line label (I.told half.old) (I.told half.new)) }
    ensures cause { HasCause (I.faults half.old) (I.faults half.new) result }
{
    if label.is_some() {
        return Ok(());
    }
    half.write_line(line, &[0; 8])?;
    half.fence()
}
