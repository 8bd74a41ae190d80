// Two halves are made one image.
ghost use Rattle.std.specs.Prelude.{◌≡◌, ◌≢◌, ◌⊎◌, ◌<◌, ◌+◌, ◌^◌, min, max, true, false, OnOk, OnErr, IfOk, IfErr};
ghost use Rattle.ap_base.specs.Causes.{next_count};
ghost use Rattle.line_image.specs.Trace.{did};
ghost use Rattle.line_image.specs.declared.effect.Done.TheVariants.{Fenced};
ghost use Rattle.mirror_image.specs.Sound.{IsMarked, ReadsAlike};
ghost use Rattle.mirror_image.specs.Joint.{most};
ghost use Rattle.mirror_image.specs.Labels.{IsLabel, IsLabelled, generation as generation_in, leads};
ghost use Rattle.mirror_image.specs.Pairing.{OneHalfFailed, NoneFailed, IsLed, ArePaired, ArePairedFrom};
ghost use Rattle.mirror_image.specs.Paired.{IsPairing, IsPairFault};
ghost use Rattle.mirror_image.specs.Halfway.{KeepsLow, KeepsLead, KeepsYield, KeepsBoth};
ghost use Rattle.mirror_image.specs.Stops.{KeepsLeader};
ghost use Rattle.mirror_image.specs.declared.pairing.MirrorFault.TheVariants.{ImageFailed as Failed};

use crate::labels::{clear_foreign, mark, read_label};
use line_image::{Image, ImageFailed};
use thiserror::Error;

/// Why two halves weren't paired.
#[derive(Clone, Copy, Debug, PartialEq, Eq, Error)]
pub enum MirrorFault {
    #[error("the halves differ in size, or are too small")]
    Size,
    #[error("an image failed")]
    ImageFailed,
    #[error("the generation of the leading half is too high")]
    Generation,
}

impl From<ImageFailed> for MirrorFault {
    ghost from_gives = { λ _ e. e ≡ Failed };

    fn from(_: ImageFailed) -> Self {
        MirrorFault::ImageFailed
    }
}

// The highest generation that can lead: a pairing takes one more, and marking a half that is left another.
const MAX_GENERATION: u64 = 18_446_744_073_709_551_612;

/// Copies the first lines.
fn copy_lines<A: Image, B: Image>(from: &mut A, to: &mut B, count: u64) -> Result<(), ImageFailed>
    requires from { count < (A.told from.old).size }
    requires to { count < (B.told to.old).size }
    ensures from_size { (A.told from.new).size ≡ (A.told from.old).size }
    ensures to_size { (B.told to.new).size ≡ (B.told to.old).size }
    ensures same { (A.told from.new).trace ≡ (A.told from.old).trace }
    ensures alike { OnOk result (ReadsAlike count (B.told to.new).trace (A.told from.old).trace) }
    ensures low { KeepsLow count (B.told to.old).trace (B.told to.new).trace }
    ensures from_calls { OnOk result ((A.told from.new).calls ≡ min ((A.told from.old).calls + count) most) }
    ensures to_calls { OnOk result ((B.told to.new).calls ≡ min ((B.told to.old).calls + count) most) }
    ensures spared { OnOk result (NoneFailed (A.faults from.old) (A.faults from.new) (B.faults to.old) (B.faults to.new)) }
    ensures cause { OnErr result (OneHalfFailed (A.faults from.old) (A.faults from.new) (B.faults to.old) (B.faults to.new)) }
{
    for line in 0..count {
        let mut words = [0; 8];
        from.read_line(line, &mut words)?;
        to.write_line(line, &words)?;
    }
    Ok(())
}

/// Marks the half that doesn't lead as of no generation, and then the leader.
fn raise<L: Image, O: Image>(
    leader: &mut L,
    other: &mut O,
    line: u64,
    generation: u64,
) -> Result<(), ImageFailed>
    requires leader { line + 1 ≡ (L.told leader.old).size }
    requires other { line + 1 ≡ (O.told other.old).size }
    ensures leader_size { (L.told leader.new).size ≡ (L.told leader.old).size }
    ensures other_size { (O.told other.new).size ≡ (O.told other.old).size }
    ensures leader { OnOk result (IsMarked line generation (L.told leader.old) (L.told leader.new)) }
    ensures other { OnOk result (IsMarked line 0 (O.told other.old) (O.told other.new)) }
    ensures leading { KeepsLead line generation (L.told leader.old).trace (L.told leader.new).trace }
    ensures low { KeepsLow line (O.told other.old).trace (O.told other.new).trace }
    ensures spared { OnOk result (NoneFailed (L.faults leader.old) (L.faults leader.new) (O.faults other.old) (O.faults other.new)) }
    ensures cause { OnErr result (OneHalfFailed (L.faults leader.old) (L.faults leader.new) (O.faults other.old) (O.faults other.new)) }
{
    if mark(other, line, 0).is_err() {
        return Err(ImageFailed);
    }
    if mark(leader, line, generation).is_err() {
        return Err(ImageFailed);
    }
    Ok(())
}

/// Copies the shown lines to the half that doesn't lead, fences them, and marks it too.
fn follow<L: Image, O: Image>(
    leader: &mut L,
    other: &mut O,
    line: u64,
    generation: u64,
) -> Result<(), ImageFailed>
    requires leader { line + 1 ≡ (L.told leader.old).size }
    requires other { line + 1 ≡ (O.told other.old).size }
    ensures leader_size { (L.told leader.new).size ≡ (L.told leader.old).size }
    ensures other_size { (O.told other.new).size ≡ (O.told other.old).size }
    ensures same { (L.told leader.new).trace ≡ (L.told leader.old).trace }
    ensures alike { OnOk result (ReadsAlike line (O.told other.new).trace (L.told leader.old).trace) }
    ensures labelled { OnOk result (IsLabelled line generation (O.told other.new).calls (O.told other.new).trace) }
    ensures yields { KeepsYield line (L.told leader.old).trace (O.told other.old).trace (O.told other.new).trace }
    ensures leader_calls { OnOk result ((L.told leader.new).calls ≡ min ((L.told leader.old).calls + line) most) }
    ensures other_calls { OnOk result ((O.told other.new).calls ≡ min ((O.told other.old).calls + line + 3) most) }
    ensures spared { OnOk result (NoneFailed (L.faults leader.old) (L.faults leader.new) (O.faults other.old) (O.faults other.new)) }
    ensures cause { OnErr result (OneHalfFailed (L.faults leader.old) (L.faults leader.new) (O.faults other.old) (O.faults other.new)) }
{
    copy_lines(leader, other, line)?;
    other.fence()?;
    if mark(other, line, generation).is_err() {
        return Err(ImageFailed);
    }
    Ok(())
}

/// Makes the other half what the leader is.
fn lead<L: Image, O: Image>(
    leader: &mut L,
    other: &mut O,
    line: u64,
    generation: u64,
) -> Result<(), ImageFailed>
    requires leader { line + 1 ≡ (L.told leader.old).size }
    requires other { line + 1 ≡ (O.told other.old).size }
    ensures leader_size { (L.told leader.new).size ≡ (L.told leader.old).size }
    ensures other_size { (O.told other.new).size ≡ (O.told other.old).size }
    ensures leading { KeepsLead line generation (L.told leader.old).trace (L.told leader.new).trace }
    ensures yields { KeepsYield line (L.told leader.old).trace (O.told other.old).trace (O.told other.new).trace }
    ensures led { OnOk result (IsLed line generation (L.told leader.old) (O.told other.old) (L.told leader.new) (O.told other.new)) }
    ensures spared { OnOk result (NoneFailed (L.faults leader.old) (L.faults leader.new) (O.faults other.old) (O.faults other.new)) }
    ensures cause { OnErr result (OneHalfFailed (L.faults leader.old) (L.faults leader.new) (O.faults other.old) (O.faults other.new)) }
{
    raise(leader, other, line, generation)?;
    follow(leader, other, line, generation)
}

/// Lets the one half lead, or the other.
fn lead_either<A: Image, B: Image>(
    a: &mut A,
    b: &mut B,
    line: u64,
    generation: u64,
    first_leads: bool,
) -> Result<(), ImageFailed>
    requires a { line + 1 ≡ (A.told a.old).size }
    requires b { line + 1 ≡ (B.told b.old).size }
    ensures a_size { (A.told a.new).size ≡ (A.told a.old).size }
    ensures b_size { (B.told b.new).size ≡ (B.told b.old).size }
    ensures first { first_leads ≡ true → KeepsLead line generation (A.told a.old).trace (A.told a.new).trace
        × KeepsYield line (A.told a.old).trace (B.told b.old).trace (B.told b.new).trace }
    ensures second { first_leads ≡ false → KeepsLead line generation (B.told b.old).trace (B.told b.new).trace
        × KeepsYield line (B.told b.old).trace (A.told a.old).trace (A.told a.new).trace }
    ensures paired { OnOk result (ArePaired line generation first_leads (A.told a.old) (B.told b.old) (A.told a.new) (B.told b.new)) }
    ensures spared { OnOk result (NoneFailed (A.faults a.old) (A.faults a.new) (B.faults b.old) (B.faults b.new)) }
    ensures cause { OnErr result (OneHalfFailed (A.faults a.old) (A.faults a.new) (B.faults b.old) (B.faults b.new)) }
{
    if first_leads {
        return lead(a, b, line, generation);
    }
    lead(b, a, line, generation)
}

/// Fences both.
fn settle<A: Image, B: Image>(a: &mut A, b: &mut B) -> Result<(), ImageFailed>
    ensures a_size { (A.told a.new).size ≡ (A.told a.old).size }
    ensures b_size { (B.told b.new).size ≡ (B.told b.old).size }
    ensures a_calls { OnOk result ((A.told a.new).calls ≡ next_count (A.told a.old).calls) }
    ensures b_calls { OnOk result ((B.told b.new).calls ≡ next_count (B.told b.old).calls) }
    ensures a_fenced { OnOk result ((A.told a.new).trace ≡ did Fenced (A.told a.new).calls (A.told a.old).trace) }
    ensures b_fenced { OnOk result ((B.told b.new).trace ≡ did Fenced (B.told b.new).calls (B.told b.old).trace) }
    ensures a_may { ((A.told a.new).trace ≡ did Fenced (A.told a.new).calls (A.told a.old).trace) ⊎ ((A.told a.new).trace ≡ (A.told a.old).trace) }
    ensures b_may { ((B.told b.new).trace ≡ did Fenced (B.told b.new).calls (B.told b.old).trace) ⊎ ((B.told b.new).trace ≡ (B.told b.old).trace) }
    ensures spared { OnOk result (NoneFailed (A.faults a.old) (A.faults a.new) (B.faults b.old) (B.faults b.new)) }
    ensures cause { OnErr result (OneHalfFailed (A.faults a.old) (A.faults a.new) (B.faults b.old) (B.faults b.new)) }
{
    a.fence()?;
    b.fence()
}

/// What the labels of two halves say.
#[derive(Clone, Copy)]
struct Labels {
    first: Option<u64>,
    second: Option<u64>,
}

/// What is no label has generation 0.
fn generation_of(label: Option<u64>) -> u64
    ensures { result ≡ generation_in label }
{
    match label {
        Some(generation) => generation,
        None => 0,
    }
}

/// Clears what is no label, and makes the halves one.
fn pair_labelled<A: Image, B: Image>(
    a: &mut A,
    b: &mut B,
    line: u64,
    labels: Labels,
    generation: u64,
) -> Result<(), ImageFailed>
    requires a { line + 1 ≡ (A.told a.old).size }
    requires b { line + 1 ≡ (B.told b.old).size }
    ensures a_size { (A.told a.new).size ≡ (A.told a.old).size }
    ensures b_size { (B.told b.new).size ≡ (B.told b.old).size }
    ensures first { leads labels.first labels.second ≡ true → KeepsBoth line generation (generation_in labels.first) labels.second
        (A.told a.old).trace (B.told b.old).trace (A.told a.new).trace (B.told b.new).trace }
    ensures second { leads labels.first labels.second ≡ false → KeepsBoth line generation (generation_in labels.second) labels.first
        (B.told b.old).trace (A.told a.old).trace (B.told b.new).trace (A.told a.new).trace }
    ensures paired { OnOk result (ArePairedFrom line generation (leads labels.first labels.second) (A.told a.old) (B.told b.old) (A.told a.new) (B.told b.new)) }
    ensures spared { OnOk result (NoneFailed (A.faults a.old) (A.faults a.new) (B.faults b.old) (B.faults b.new)) }
    ensures cause { OnErr result (OneHalfFailed (A.faults a.old) (A.faults a.new) (B.faults b.old) (B.faults b.new)) }
{
    let first_leads = generation_of(labels.second) <= generation_of(labels.first);
    clear_foreign(a, line, labels.first)?;
    clear_foreign(b, line, labels.second)?;
    lead_either(a, b, line, generation, first_leads)?;
    settle(a, b)
}

/// Reads both labels.
fn read_labels<A: Image, B: Image>(a: &mut A, b: &mut B, line: u64) -> Result<Labels, ImageFailed>
    requires a { line + 1 ≡ (A.told a.old).size }
    requires b { line + 1 ≡ (B.told b.old).size }
    ensures a_size { (A.told a.new).size ≡ (A.told a.old).size }
    ensures b_size { (B.told b.new).size ≡ (B.told b.old).size }
    ensures a_same { (A.told a.new).trace ≡ (A.told a.old).trace }
    ensures b_same { (B.told b.new).trace ≡ (B.told b.old).trace }
    ensures first { IfOk result (λ labels. IsLabel line labels.first (A.told a.old).trace) }
    ensures second { IfOk result (λ labels. IsLabel line labels.second (B.told b.old).trace) }
    ensures spared { OnOk result (NoneFailed (A.faults a.old) (A.faults a.new) (B.faults b.old) (B.faults b.new)) }
    ensures cause { OnErr result (OneHalfFailed (A.faults a.old) (A.faults a.new) (B.faults b.old) (B.faults b.new)) }
{
    let first = read_label(a, line)?;
    let second = read_label(b, line)?;
    Ok(Labels { first, second })
}

/// Makes two halves one, the one of greater generation leading. Answers the generation that both have then.
pub(crate) fn pair_halves<A: Image, B: Image>(
    a: &mut A,
    b: &mut B,
    line: u64,
) -> Result<u64, MirrorFault>
    requires a { line + 1 ≡ (A.told a.old).size }
    requires b { line + 1 ≡ (B.told b.old).size }
    ensures a_size { (A.told a.new).size ≡ (A.told a.old).size }
    ensures b_size { (B.told b.new).size ≡ (B.told b.old).size }
    ensures paired { IfOk result (λ g. IsPairing line (A.told a.old) (B.told b.old) (A.told a.new) (B.told b.new) g) }
    ensures kept { KeepsLeader line (A.told a.old).trace (B.told b.old).trace (A.told a.new).trace (B.told b.new).trace }
    ensures fault { IfErr result (λ fault. IsPairFault line (A.told a.old) (B.told b.old) (A.told a.new) (B.told b.new) fault) }
    ensures spared { OnOk result (NoneFailed (A.faults a.old) (A.faults a.new) (B.faults b.old) (B.faults b.new)) }
    ensures cause { IfErr result (λ fault. fault ≡ Failed → OneHalfFailed (A.faults a.old) (A.faults a.new) (B.faults b.old) (B.faults b.new)) }
    ensures refused { IfErr result (λ fault. fault ≢ Failed → NoneFailed (A.faults a.old) (A.faults a.new) (B.faults b.old) (B.faults b.new)) }
{
    let labels = read_labels(a, b, line)?;
    let greatest = generation_of(labels.first).max(generation_of(labels.second));
    if greatest > MAX_GENERATION {
        return Err(MirrorFault::Generation);
    }
    pair_labelled(a, b, line, labels, greatest + 1)?;
    Ok(greatest + 1)
}
