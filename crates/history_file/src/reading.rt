//! Reading a history file.

ghost use Rattle.std.specs.Prelude.{◌≡◌, ◌<◌, ◌≤◌, ◌^◌, ◌-◌, [], ℕ, IfOk, IfErr, OnOk, Ok, Err, length};
ghost use Rattle.parsing.specs.Results.{many_from};
ghost use Rattle.history_file.specs.declared.fault.HistoryFault.TheVariants.{Bad};
ghost use Rattle.history_file.specs.Reading.{Gives, Adds, act_at, header_at, number_at, file_in, history_in};

use crate::fault::{HistoryFault, Stop};
use crate::fields::{exactly, number, word};
use crate::head::read_head;
use crate::ops::op;
use crate::writing::MAGIC;
use run_history::{Act, Acts};
use std::alloc::Global;

// Names so many objects for the next Joined act; what stands behind them.
fn names<'a>(acts: &mut Acts, count: u32, bytes: &'a [u8]) -> Result<&'a [u8], Stop>
    requires room { acts.old.room ≡ count }
    requires none { acts.old.named ≡ [] }
    ensures acts { acts.new.acts ≡ acts.old.acts }
    ensures limit { acts.new.limit ≡ acts.old.limit }
    ensures read { Gives (λ rest. (acts.new.named, rest.now)) result (many_from number_at count bytes.now) }
{
    let mut rest = bytes;
    for _ in 0..count {
        let (object, after) = number(rest)?;
        acts.name(object);
        rest = after;
    }
    Ok(rest)
}

// Adds the act that stands first; what stands behind it.
#[tactic(auto, unfolding(crate::specs::Reading::act_at))]
fn act<'a>(acts: &mut Acts, bytes: &'a [u8]) -> Result<&'a [u8], Stop>
    requires few { length acts.old.acts < 2 ^ 32 - 1 }
    requires none { acts.old.named ≡ [] }
    ensures none { OnOk result (acts.new.named ≡ []) }
    ensures read { Adds acts.old.acts acts.new.acts (λ rest. rest.now) result (act_at bytes.now) }
{
    let (head, rest) = match read_head(bytes) {
        Ok(read) => read,
        Err(stop) => return Err(stop),
    };
    let (at, rest) = word(rest)?;
    let (op, rest) = match op(head.kind, head.words, rest) {
        Ok(read) => read,
        Err(stop) => return Err(stop),
    };
    let count = head.named_count();
    acts.reserve(acts.len() + 1, count)?;
    let rest = names(acts, count, rest)?;
    let thread = head.thread;
    match acts.push(Act { thread, at, op }) {
        Ok(()) => Ok(rest),
        Err(_) => Err(Stop::OutOfMemory),
    }
}

// So many acts, and what stands behind them.
fn acts(alloc: Global, count: u32, bytes: &[u8]) -> Result<(Acts, &[u8]), Stop>
    ensures { Gives (λ x. (x.0.acts, x.1.now)) result (many_from act_at count bytes.now) }
{
    let mut acts = Acts::new(alloc);
    acts.reserve(most_acts(count, bytes), 0)?;
    let mut rest = bytes;
    for _ in 0..count {
        rest = act(&mut acts, rest)?;
    }
    Ok((acts, rest))
}

// No less than the acts that the bytes can be, if so many were announced: each takes two words at least.
fn most_acts(count: u32, bytes: &[u8]) -> u32 {
    (bytes.len() / 16).min(count as usize) as u32
}

// What stands before the acts: their number, and what is kept.
#[tactic(auto, unfolding(crate::specs::Reading::header_at))]
fn header(bytes: &[u8]) -> Result<(u32, u64, &[u8]), Stop>
    ensures { Gives (λ x. ((x.0, x.1), x.2.now)) result (header_at bytes.now) }
{
    let rest = exactly(MAGIC, bytes)?;
    let rest = exactly(1, rest)?;
    let (count, rest) = number(rest)?;
    let (keep, rest) = word(rest)?;
    Ok((count, keep, rest))
}

#[tactic(auto, unfolding(crate::specs::Reading::file_in))]
fn file(alloc: Global, bytes: &[u8]) -> Result<(Acts, u64), Stop>
    ensures { Gives (λ x. (x.0.acts, x.1)) result (file_in bytes.now) }
{
    let (count, keep, rest) = header(bytes)?;
    let (acts, rest) = acts(alloc, count, rest)?;
    if !rest.is_empty() {
        return Err(Stop::At(rest.len()));
    }
    Ok((acts, keep))
}

/// The history in a file's bytes, and its word `keep`, a bit for each thread. The memory for the acts is taken once, and no
/// more of it than the bytes can fill; that for objects as Joined acts come.
///
/// # Errors
///
/// `Bad` with the first word, counted from 0, that has no continuation: it may not stand there behind the words before it,
/// or it isn't whole; or `OutOfMemory`.
pub fn read_history(alloc: Global, bytes: &[u8]) -> Result<(Acts, u64), HistoryFault>
    ensures read { IfOk result (λ r. history_in bytes.now ≡ Ok (r.0.acts, r.1)) }
    ensures bad { IfErr result (λ e. (w : ℕ) → e ≡ Bad w → history_in bytes.now ≡ Err w) }
{
    match file(alloc, bytes) {
        Ok(history) => Ok(history),
        Err(Stop::OutOfMemory) => Err(HistoryFault::OutOfMemory),
        Err(Stop::At(left)) => Err(HistoryFault::Bad {
            word: (bytes.len().saturating_sub(left) / 8) as u64,
        }),
    }
}
