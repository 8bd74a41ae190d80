// How host threads begin to share a run.
ghost use Rattle.std.specs.Prelude.{◌≡◌, IfOk, IfSome, None, length};
ghost use Rattle.turnstile.specs.Hands.{hands_from};
ghost use Rattle.turnstile.specs.Passes.{IsIdle, IsOf as IsOfTurnstile, hands_of};
ghost use Rattle.workers.specs.Shared.{values_of};

use crate::alone::Alone;
use crate::desk::Desk;
use crate::locked::Locked;
use crate::names::Naming;
use crate::notes::Note;
use ap_base::{Ref, Sink};
use durable_run::{Frames, Run};
use line_image::Image;
use natives::NativeState;
use run_history::Watcher;
use std::alloc::{AllocFailed, Global};
use std::snapshot::Snapshot;
use turnstile::{Kept, Pass, Turnstile};

/// A run in a turnstile, with the pass that has all others in its stock, and beside it the frames of all threads, of which none was
/// taken up.
#[derive(Drop)]
pub(crate) struct Opened<T: Kept> {
    pub(crate) turnstile: Turnstile<T>,
    pub(crate) first: Pass<T>,
    pub(crate) frames: Vec<Frames<Ref, NativeState>>,
    pub(crate) turns: [u64; 64],
}

// The frames as they are, noted for proofs alone.
fn noted(alloc: Global, frames: &Vec<Frames<Ref, NativeState>>) -> Option<Vec<Note>>
    ensures { IfSome result (λ notes. values_of notes.items ≡ frames.now.items) }
{
    let mut notes = Vec::new(alloc);
    for fs in frames {
        notes.push(Snapshot::of(fs)).ok()?;
    }
    Some(notes)
}

/// Puts a run that isn't over into a turnstile, with a pass for each thread; back comes the run where there is no memory for that.
pub(crate) fn open<J: Naming<S> + Send, I: Image + Send, S: Sink + Send, W: Watcher + Send>(
    alone: Alone<J, I, S, W>,
) -> Result<Opened<Desk<J, I, S, W>>, Alone<J, I, S, W>>
    requires { alone.over ≡ None }
    ensures of { IfOk result (λ r. IsOfTurnstile r.first r.turnstile) }
    ensures idle { IfOk result (λ r. IsIdle r.first) }
    ensures hands { IfOk result (λ r. hands_of r.first ≡ hands_from 0 r.frames.items) }
    ensures many { IfOk result (λ r. length r.frames.items ≡ 64) }
{
    let (_none, run) = alone.finish();
    let alloc = *run.frames.allocator();
    let Some(notes) = noted(alloc, &run.frames) else {
        return Err(Alone::again(run));
    };
    let Run {
        frames,
        heap,
        sink,
        watcher,
        turns,
    } = run;
    let locked = match Box::new(alloc, Locked::new(heap, sink, watcher, notes)) {
        Ok(locked) => locked,
        Err(AllocFailed { value: locked }) => return Err(locked.alone(frames, turns)),
    };
    match Turnstile::new(alloc, Desk { locked }, 64) {
        Ok((turnstile, first)) => Ok(Opened {
            turnstile,
            first,
            frames,
            turns,
        }),
        Err(Desk { locked }) => Err(Box::into_inner(locked).alone(frames, turns)),
    }
}
