// What is shown of a run.
use crate::running::{Done, KEPT};
use crate::script::Shown;
use crate::texts::put_line;
use ap_base::{ClassSource, MemorySource, Place};
use history_file::read_history;
use run_history::{Acts, Op};
use std::alloc::{AllocError, Global};

/// What an act did, by its name and what stands beside it.
fn op_text(alloc: Global, op: &Op) -> Result<String, AllocError> {
    match op {
        Op::Print { bytes } => {
            let text = str::from_utf8(bytes.as_slice()).unwrap_or("?");
            format!(in alloc; "Print {text:?}")
        }
        _ => format!(in alloc; "{op:?}"),
    }
}

/// The name of what an act did.
fn is_named(alloc: Global, op: &Op, name: &str) -> Result<bool, AllocError> {
    let text = op_text(alloc, op)?;
    Ok(text.as_str().split(' ').next() == Some(name))
}

/// How many image calls came before the act of this name, the first one or a later one; before all acts where there is none.
pub(crate) fn calls_before(
    alloc: Global,
    acts: &Acts,
    name: &str,
    which: u64,
) -> Result<u64, AllocError> {
    let mut found: u64 = 0;
    let mut calls: u64 = 0;
    for i in 0..acts.len() {
        if let Some(act) = acts.get(i) {
            if found < which && is_named(alloc, &act.op, name)? {
                found = found.saturating_add(1);
                calls = act.at;
            }
        }
    }
    Ok(calls)
}

/// An act: its thread, the image calls before it since the first one, what it did, and the objects that it names.
fn act_text(alloc: Global, acts: &Acts, i: u32) -> Result<String, AllocError> {
    let Some(act) = acts.get(i) else {
        return Ok(String::new(alloc));
    };
    let first = acts.get(0).unwrap_or(act);
    let thread = act.thread.number();
    let at = act.at.saturating_sub(first.at);
    let op = op_text(alloc, &act.op)?;
    match acts.named(i) {
        [] => format!(in alloc; "{thread} {at} {op}"),
        named => format!(in alloc; "{thread} {at} {op} {named:?}"),
    }
}

/// The number of the first act, of those that are kept, of which the watcher was told otherwise.
fn first_untold(done: &Done) -> Option<u32> {
    for i in 0..KEPT {
        if done.kept.acts.get(i).copied() != done.acts.get(i).copied() {
            return Some(i);
        }
    }
    None
}

fn put_acts(alloc: Global, out: &mut String, done: &Done) -> Result<(), AllocError> {
    let (roots, nodes) = done.opening;
    put_line(
        out,
        format!(in alloc; "opening roots {roots} nodes {nodes}")?.as_str(),
    )?;
    for i in 0..done.acts.len() {
        put_line(out, act_text(alloc, &done.acts, i)?.as_str())?;
    }
    match first_untold(done) {
        Some(i) => put_line(
            out,
            format!(in alloc; "act {i} was told otherwise")?.as_str(),
        ),
        None => Ok(()),
    }
}

fn put_turns(alloc: Global, out: &mut String, done: &Done) -> Result<(), AllocError> {
    let (calls, others) = done.turns;
    let turns = done.kept.turns.as_slice();
    put_line(
        out,
        format!(in alloc; "turns {turns:?} of {calls}, {others} out of order")?.as_str(),
    )
}

/// How many files are left of a source, twelve at most.
fn left(alloc: Global, source: &mut MemorySource) -> u32 {
    let mut left: u32 = 0;
    for _ in 0..12 {
        if let Ok(Some(_)) = source.next(alloc) {
            left = left.saturating_add(1);
        }
    }
    left
}

fn put_counts(alloc: Global, out: &mut String, done: &mut Done) -> Result<(), AllocError> {
    let left = left(alloc, &mut done.source);
    let acts = done.acts.len();
    put_line(
        out,
        format!(in alloc; "acts {acts}, files left {left}")?.as_str(),
    )
}

/// Whether the history that was saved has as many acts as the run, and keeps nothing that isn't fenced.
fn is_saved(alloc: Global, done: &Done) -> bool {
    let Ok((acts, keep)) = read_history(alloc, done.history.as_slice()) else {
        return false;
    };
    done.is_saved && keep == 0 && acts.len() > 0 && acts.len() == done.acts.len()
}

fn put_guard(alloc: Global, out: &mut String, acts: &Acts, place: Place) -> Result<(), AllocError> {
    match acts.guarded_by(place) {
        Some(thread) => {
            let number = thread.number();
            put_line(out, format!(in alloc; "guarded by {number}")?.as_str())
        }
        None => put_line(out, "not guarded"),
    }
}

/// Puts what is asked for of a run.
pub(crate) fn put_shown(
    alloc: Global,
    out: &mut String,
    done: &mut Done,
    shown: Shown,
) -> Result<(), AllocError> {
    match shown {
        Shown::Acts => put_acts(alloc, out, done),
        Shown::Turns => put_turns(alloc, out, done),
        Shown::Counts => put_counts(alloc, out, done),
        Shown::Saved if is_saved(alloc, done) => put_line(out, "saved"),
        Shown::Saved => put_line(out, "not saved"),
        Shown::Guard { object, index } => {
            let place = Place::Slot { object, index };
            put_guard(alloc, out, &done.acts, place)
        }
    }
}
