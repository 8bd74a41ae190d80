ghost use Rattle.std.specs.Prelude.{◌≡◌, [], length, IfOk, IfSome};
ghost use Rattle.turnstile.specs.Entries.{AddsBy, SameButOf};
ghost use Rattle.turnstile.specs.Passes.{number_of, IsIdle, IsOf};

use super::*;
use std::alloc::{AllocError, Global};
use std::sync::Wait;
use std::test::*;
use std::thread;
use std::thread::Threads;

#[derive(Clone, Copy)]
struct Note {
    worker: u64,
    what: u64,
}

/// What two workers note.
#[derive(Drop)]
struct Notes {
    all: Vec<Note>,
    parts: Vec<u64>,
}

impl Kept for Notes {
    type Entry = Note;

    type Part = u64;

    ghost entries = { λ n. n.all.items };

    ghost worker = { λ n. n.worker };

    ghost parts = { λ n. n.parts.items };

    fn made(&self) -> u64 {
        self.all.len() as u64
    }
}

impl Notes {
    // Notes it if there is memory.
    #[tactic(auto, using(crate::proofs::Adds::adds_one, crate::proofs::Adds::adds_none))]
    fn add(&mut self, worker: u64, what: u64)
        ensures entries { AddsBy (λ n. n.worker) worker self.old.all.items self.new.all.items }
        ensures parts { self.new.parts ≡ self.old.parts }
    {
        let _ = self.all.push(Note { worker, what });
    }
}

fn no_notes(alloc: Global) -> Result<Notes, AllocError>
    ensures none { IfOk result (λ n. n.all.items ≡ []) }
    ensures parts { IfOk result (λ n. length n.parts.items ≡ 2) }
{
    let parts = Vec::from_elem(alloc, 0, 2)?;
    Ok(Notes {
        all: Vec::new(alloc),
        parts,
    })
}

// Takes so many turns.
fn take_turns<R: Wait>(
    rt: &R,
    turnstile: &Turnstile<Notes>,
    mut pass: Pass<Notes>,
    worker: u64,
    turns: u64,
) -> Pass<Notes>
    requires { IsOf pass turnstile.now × IsIdle pass × (number_of pass ≡ worker) }
    ensures { IsOf result turnstile.now × IsIdle result }
{
    for what in 0..turns {
        let mut notes = turnstile.enter(rt, &mut pass);
        notes.add(worker, what);
        turnstile.leave(&mut pass, notes);
    }
    pass
}

// A turnstile for two workers, with their passes.
fn two_passes(alloc: Global, notes: Notes) -> Option<(Turnstile<Notes>, Pass<Notes>, Pass<Notes>)>
    requires none { notes.all.items ≡ [] }
    requires parts { length notes.parts.items ≡ 2 }
    ensures of { IfSome result (λ r. IsOf r.1 r.0 × IsOf r.2 r.0) }
    ensures idle { IfSome result (λ r. IsIdle r.1 × IsIdle r.2) }
    ensures first { IfSome result (λ r. number_of r.1 ≡ 0) }
    ensures second { IfSome result (λ r. number_of r.2 ≡ 1) }
{
    let Ok((turnstile, mut first)) = Turnstile::new(alloc, notes, 2) else {
        return None;
    };
    let second = turnstile.split(&mut first);
    Some((turnstile, first, second))
}

// Two workers in threads of their own.
fn meet<R: Threads + Wait + Sync>(rt: &R, alloc: Global, turns: u64) -> Option<Notes> {
    let Ok(notes) = no_notes(alloc) else {
        return None;
    };
    let (turnstile, first, second) = two_passes(alloc, notes)?;
    let (first, second) = share(rt, &turnstile, first, second, turns);
    let mut passes = Vec::new(alloc);
    passes.push(first).ok()?;
    passes.push(second).ok()?;
    turnstile.close(passes).ok()
}

fn share<R: Threads + Wait + Sync>(
    rt: &R,
    turnstile: &Turnstile<Notes>,
    first: Pass<Notes>,
    second: Pass<Notes>,
    turns: u64,
) -> (Pass<Notes>, Pass<Notes>)
    requires first { IsOf first turnstile.now × IsIdle first × (number_of first ≡ 0) }
    requires second { IsOf second turnstile.now × IsIdle second × (number_of second ≡ 1) }
    ensures first { IsOf result.0 turnstile.now × IsIdle result.0 }
    ensures second { IsOf result.1 turnstile.now × IsIdle result.1 }
{
    thread::join(
        rt,
        move ||
            requires { IsOf first turnstile.now × IsIdle first × (number_of first ≡ 0) }
            ensures { IsOf result turnstile.entry.now × IsIdle result }
        { take_turns(rt, turnstile, first, 0, turns) },
        move ||
            requires { IsOf second turnstile.now × IsIdle second × (number_of second ≡ 1) }
            ensures { IsOf result turnstile.entry.now × IsIdle result }
        { take_turns(rt, turnstile, second, 1, turns) },
    )
}

// Whether a pass that is missing is missed, and then nothing.
fn misses_one(alloc: Global) -> Option<bool> {
    let Ok(notes) = no_notes(alloc) else {
        return None;
    };
    let (turnstile, first, second) = two_passes(alloc, notes)?;
    let mut passes = Vec::new(alloc);
    passes.push(first).ok()?;
    match turnstile.close(passes) {
        Ok(_) => Some(false),
        Err((turnstile, mut passes)) => {
            passes.push(second).ok()?;
            Some(turnstile.close(passes).is_ok())
        }
    }
}

fn count_of(notes: &Notes, worker: u64) -> u64 {
    let mut count = 0;
    for note in &notes.all {
        if note.worker == worker && note.what == count {
            count = count.saturating_add(1);
        }
    }
    count
}

#[test]
fn two_workers_note_all_in_order(rt: HostRuntime) -> Result<(), Fail> {
    let notes = meet(&rt, rt.alloc(), 50).ok_or("closes")?;
    assert_eq!(rt; notes.made(), 100);
    assert_eq!(rt; count_of(&notes, 0), 50);
    assert_eq!(rt; count_of(&notes, 1), 50);
    Ok(())
}

#[test]
fn a_missing_pass_is_missed(rt: HostRuntime) -> Result<(), Fail> {
    let missed = misses_one(rt.alloc()).ok_or("makes")?;
    assert!(rt; missed);
    Ok(())
}
