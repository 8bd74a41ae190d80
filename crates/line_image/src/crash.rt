// One outcome of a stop.
ghost use Rattle.std.specs.Prelude.{◌≡◌, ◌<◌, ◌+◌, ◌-◌, ◌*◌, ◌^◌, ℕ, [], ◌∷◌, IfOk, OnOk, IsTrue, length, get_or, slice_index};
ghost use Rattle.std.specs.Prelude.{reverse, All};
ghost use Rattle.line_image.specs.Trace.{newest, versions_after, versions_from, versions, is_within};
ghost use Rattle.line_image.specs.Crash.{next_state as state_next, state_after, state_past, choice, version_word, word_left};
ghost use Rattle.line_image.specs.declared.effect.Effect.{Effect};

use crate::{Done, Effect};
use std::alloc::{AllocError, Global};

const MULTIPLIER: u64 = 6_364_136_223_846_793_005;

const INCREMENT: u64 = 1_442_695_040_888_963_407;

fn next_state(state: u64) -> u64
    ensures { result ≡ state_next state }
{
    state.wrapping_mul(MULTIPLIER).wrapping_add(INCREMENT)
}

/// Which of so many versions is taken.
fn choose(pick: u64, count: u64, state: u64) -> u64
    requires { 0 < count }
    ensures choice { result ≡ choice pick count state }
    ensures below { result < count }
{
    match pick {
        0 => 0,
        1 => count - 1,
        _ => (state >> 33) % count,
    }
}

#[tactic(auto, using(crate::proofs::Generator::word_steps))]
/// One outcome for a line of these versions, the fenced one first.
fn pick_words(versions: &[[u64; 8]], pick: u64, state: &mut u64) -> [u64; 8]
    requires some { 0 < length versions.now }
    ensures words { (w : ℕ) → w < 8 → slice_index result w
        ≡ version_word versions.now pick state.old w }
    ensures state { state.new ≡ state_after state.old 8 }
{
    let mut words = [0; 8];
    for word in 0..8 {
        *state = next_state(*state);
        let number = choose(pick, versions.len() as u64, *state);
        words[word] = versions[number as usize][word];
    }
    words
}

/// The versions of a line, the fenced one first.
fn line_versions(
    alloc: Global,
    first: [u64; 8],
    done: &[Effect],
    line: u64,
) -> Result<Vec<[u64; 8]>, AllocError>
    ensures some { IfOk result (λ found. 0 < length found.items) }
    ensures versions { IfOk result (λ found. found.items
        ≡ reverse (versions_from first (reverse done.now) line)) }
{
    let mut found = Vec::new(alloc);
    found.push(first)?;
    for effect in done {
        add_version(&mut found, effect.done, line)?;
    }
    Ok(found)
}

/// Adds to the versions of a line what was done.
fn add_version(found: &mut Vec<[u64; 8]>, done: Done, line: u64) -> Result<(), AllocError>
    requires { 0 < length found.old.items }
    ensures some { OnOk result (0 < length found.new.items) }
    ensures versions { OnOk result (found.new.items
        ≡ reverse (versions_after done line (reverse found.old.items))) }
{
    match done {
        Done::Wrote { line: at, words } => {
            if at != line {
                return Ok(());
            }
            found.push(words)?;
            Ok(())
        }
        Done::Fenced => keep_latest(found),
    }
}

/// Leaves the latest version alone.
fn keep_latest(found: &mut Vec<[u64; 8]>) -> Result<(), AllocError>
    requires { 0 < length found.old.items }
    ensures { OnOk result (found.new.items ≡ newest (reverse found.old.items) ∷ []) }
{
    let latest = words_at(found, found.len() - 1);
    found.clear();
    found.push(latest)?;
    Ok(())
}

#[tactic(auto, using(crate::proofs::Generator::line_steps))]
/// One outcome for a line. The generator goes on where a write since the last fence leaves a choice.
fn crash_line(
    alloc: Global,
    first: [u64; 8],
    done: &[Effect],
    line: u64,
    pick: u64,
    state: &mut u64,
) -> Result<[u64; 8], AllocError>
    ensures words { IfOk result (λ words. (w : ℕ) → w < 8 → slice_index words w
        ≡ version_word (reverse (versions_from first (reverse done.now) line)) pick state.old w) }
    ensures eight { IfOk result (λ words. length words ≡ 8) }
    ensures state { OnOk result (state.new
        ≡ state_past (versions_from first (reverse done.now) line) state.old) }
{
    let versions = line_versions(alloc, first, done, line)?;
    if versions.len() == 1 {
        return Ok(words_at(&versions, 0));
    }
    Ok(pick_words(&versions, pick, state))
}

/// For each line the number of fences before its last write, from 1, and how many fences there are.
fn last_writes(
    alloc: Global,
    first: &[[u64; 8]],
    done: &[Effect],
) -> Result<(Vec<u64>, u64), AllocError>
    requires fits { length done.now < 2 ^ 63 }
    requires within { All (λ (effect : Effect). IsTrue (is_within (length first.now) effect.done)) done.now }
    ensures size { IfOk result (λ found. length found.0.items ≡ length first.now) }
    ensures fenced { IfOk result (λ found. (l : ℕ) → get_or found.0.items l 0 < found.1
        → length (versions_from (get_or first.now l []) (reverse done.now) l) ≡ 1) }
{
    let mut writes = vec![in alloc; 0; first.len()]?;
    let mut fences = 1u64;
    for effect in done {
        match effect.done {
            Done::Wrote { line, .. } => writes[line as usize] = fences,
            Done::Fenced => fences += 1,
        }
    }
    Ok((writes, fences))
}

fn words_at(lines: &[[u64; 8]], line: usize) -> [u64; 8]
    requires { line < length lines.now }
    ensures words { result ≡ get_or lines.now line [] }
    ensures eight { length result ≡ 8 }
{
    lines[line]
}

#[tactic(auto, using(crate::proofs::Generator::line_steps))]
/// The lines of the outcome that `pick` names.
pub(crate) fn crash_lines(
    alloc: Global,
    first: &[[u64; 8]],
    latest: &[[u64; 8]],
    done: &[Effect],
    pick: u64,
) -> Result<Vec<[u64; 8]>, AllocError>
    requires fits { length done.now < 2 ^ 63 }
    requires size { length latest.now ≡ length first.now }
    requires reads { (l : ℕ) → get_or latest.now l []
        ≡ newest (versions_from (get_or first.now l []) (reverse done.now) l) }
    requires within { All (λ (effect : Effect). IsTrue (is_within (length first.now) effect.done)) done.now }
    ensures size { IfOk result (λ lines. length lines.items ≡ length first.now) }
    ensures eights { IfOk result (λ lines. All (λ line. length line ≡ 8) lines.items) }
    ensures picked { IfOk result (λ lines. (l w : ℕ) → l < length first.now → w < 8
        → slice_index (get_or lines.items l []) w
        ≡ word_left pick (record { first = first.now; done = reverse done.now }) l w) }
{
    let (writes, fences) = last_writes(alloc, first, done)?;
    let mut lines = Vec::with_capacity(alloc, first.len())?;
    let mut state = pick;
    for line in 0..first.len() {
        if writes[line] < fences {
            lines.push(words_at(latest, line))?;
            continue;
        }
        let words = crash_line(alloc, first[line], done, line as u64, pick, &mut state)?;
        lines.push(words)?;
    }
    Ok(lines)
}
